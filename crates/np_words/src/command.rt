//! The command line as `clap` reads it: its commands, options and places.
ghost use Rattle.std.specs.Prelude.{◌≡◌, Bool, IfOk, codes, false, map, string_bytes};
ghost use Rattle.clap.specs.Words.{App, FailsBy, app_of, fault_of, new_app, rule_of, subcommand_of, subcommand_rows_of, with_rule, with_subcommand};
ghost use Rattle.clap.specs.declared.builder.command.Command.TheViews.{out-Command as fields_of};
ghost use Rattle.np_words.specs.Commands.{audit_app, check_under_rule, file_rule, files_rule, form_rule, key_app, replay_app, text_app, texts_app};
ghost use Rattle.np_words.specs.Commands.{program_app, with_files, with_settings};

use clap::{Arg, ArgAction, ArgMatches, Command, Error};
use std::alloc::{AllocError, Global};

/// A command that is put together. It is owned by this bound alone: a proof of what owns `clap`'s own command looks at
/// each of its parts, and takes many times as long.
pub(crate) trait MadeCommand<'a>: Drop {
    ghost app: { Self → App };

    ghost has_globals: { Self → Bool };

    /// A command of this name.
    fn named(alloc: Global, name: &'a str) -> Self
        ensures app { app result ≡ new_app name.entry.now }
        ensures local { has_globals result ≡ false };

    /// A program of this name, whose words begin with a command.
    fn program(alloc: Global, name: &'a str) -> Self
        ensures { app result ≡ with_settings (new_app name.entry.now) };

    /// The command with one more option or place.
    fn with_arg(self, arg: Arg<'a>) -> Result<Self, AllocError>
        requires arg { arg.global ≡ false }
        requires own { has_globals self ≡ false }
        ensures app { IfOk result (λ c. app c ≡ with_rule (app self) (rule_of arg.entry)) }
        ensures local { IfOk result (λ c. has_globals c ≡ false) };

    /// The program with one more command.
    fn with_command(self, command: Self) -> Result<Self, AllocError>
        requires { has_globals command ≡ false }
        ensures { IfOk result (λ c. app c ≡ with_subcommand (app self) (app command).top) };
}

impl<'a> MadeCommand<'a> for Command<'a> {
    ghost app = { app_of };

    ghost has_globals = { λ command. (fields_of command).has_globals };

    fn named(alloc: Global, name: &'a str) -> Command<'a> {
        Command::new(alloc, name)
    }

    fn program(alloc: Global, name: &'a str) -> Command<'a> {
        Command::new(alloc, name)
            .no_binary_name(true)
            .subcommand_required(true)
    }

    fn with_arg(self, arg: Arg<'a>) -> Result<Command<'a>, AllocError> {
        self.arg(arg)
    }

    fn with_command(self, command: Command<'a>) -> Result<Command<'a>, AllocError> {
        self.subcommand(command)
    }
}

/// The option `--form`.
pub(crate) fn form_arg<'a>(alloc: Global) -> Arg<'a>
    ensures rule { rule_of result ≡ form_rule }
    ensures local { result.global ≡ false }
{
    Arg::new(alloc, "form")
        .long("form")
        .required(true)
        .action(ArgAction::Set)
}

/// The place of a file, by its name in the usage text.
fn file_arg<'a>(alloc: Global, name: &'a str) -> Arg<'a>
    ensures rule { rule_of result ≡ file_rule name.entry.now }
    ensures local { result.global ≡ false }
{
    Arg::new(alloc, name).required(true).action(ArgAction::Set)
}

/// The last place of a command, which takes several files.
pub(crate) fn files_arg<'a>(alloc: Global, name: &'a str) -> Arg<'a>
    ensures rule { rule_of result ≡ files_rule name.entry.now }
    ensures local { result.global ≡ false }
{
    Arg::new(alloc, name)
        .num_args(1..)
        .required(true)
        .action(ArgAction::Append)
}

/// The command with the places of a version's two files.
fn with_files<'a, C: MadeCommand<'a>>(
    alloc: Global,
    command: C,
    data_file: &'a str,
    exclusions_file: &'a str,
) -> Result<C, AllocError>
    requires { C.has_globals command ≡ false }
    ensures app { IfOk result (λ c. C.app c ≡ with_files (C.app command) data_file.entry.now exclusions_file.entry.now) }
    ensures local { IfOk result (λ c. C.has_globals c ≡ false) }
{
    command
        .with_arg(file_arg(alloc, data_file))?
        .with_arg(file_arg(alloc, exclusions_file))
}

/// A command on one text under one version.
fn text_command<'a, C: MadeCommand<'a>>(alloc: Global, name: &'a str) -> Result<C, AllocError>
    ensures app { IfOk result (λ c. C.app c ≡ text_app name.entry.now) }
    ensures local { IfOk result (λ c. C.has_globals c ≡ false) }
{
    let command = C::named(alloc, name).with_arg(form_arg(alloc))?;
    with_files(alloc, command, "DATA", "EXCL")
}

/// The command NAME --form FORM DATA EXCL, on one text under one version, as `clap` is to read it. Other
/// options may be added to it; what it finds is read by [`form_and_files`](super::form_and_files).
///
/// # Errors
///
/// `AllocError` where memory ran out.
pub fn command_on_text<'a>(alloc: Global, name: &'a str) -> Result<Command<'a>, AllocError>
    ensures app { IfOk result (λ c. app_of c ≡ text_app name.entry.now) }
{
    text_command(alloc, name)
}

/// The flag `--check-under`.
fn check_under_arg<'a>(alloc: Global) -> Arg<'a>
    ensures rule { rule_of result ≡ check_under_rule }
    ensures local { result.global ≡ false }
{
    Arg::new(alloc, "check-under")
        .long("check-under")
        .action(ArgAction::SetTrue)
}

/// The command that makes keys.
pub(crate) fn key_command<'a, C: MadeCommand<'a>>(alloc: Global) -> Result<C, AllocError>
    ensures app { IfOk result (λ c. C.app c ≡ key_app) }
    ensures local { IfOk result (λ c. C.has_globals c ≡ false) }
{
    C::named(alloc, "key")
        .with_arg(form_arg(alloc))?
        .with_arg(check_under_arg(alloc))?
        .with_arg(files_arg(alloc, "FILES"))
}

/// The command that compares two versions.
fn audit_command<'a, C: MadeCommand<'a>>(alloc: Global) -> Result<C, AllocError>
    ensures app { IfOk result (λ c. C.app c ≡ audit_app) }
    ensures local { IfOk result (λ c. C.has_globals c ≡ false) }
{
    let command = with_files(alloc, C::named(alloc, "audit"), "OLDDATA", "OLDEXCL")?;
    with_files(alloc, command, "NEWDATA", "NEWEXCL")
}

/// The command that replays a schedule over versions.
fn replay_command<'a, C: MadeCommand<'a>>(alloc: Global) -> Result<C, AllocError>
    ensures app { IfOk result (λ c. C.app c ≡ replay_app) }
    ensures local { IfOk result (λ c. C.has_globals c ≡ false) }
{
    C::named(alloc, "replay")
        .with_arg(form_arg(alloc))?
        .with_arg(file_arg(alloc, "SCHEDULE"))?
        .with_arg(files_arg(alloc, "FILES"))
}

/// The program with the commands on text.
fn program_of_texts<'a, C: MadeCommand<'a>>(alloc: Global) -> Result<C, AllocError>
    ensures { IfOk result (λ c. C.app c ≡ texts_app) }
{
    let program = C::program(alloc, "npss").with_command(text_command(alloc, "normalize")?)?;
    let program = program.with_command(key_command(alloc)?)?;
    program.with_command(text_command(alloc, "compare")?)
}

/// The program with all its commands.
fn program_command<'a, C: MadeCommand<'a>>(alloc: Global) -> Result<C, AllocError>
    ensures { IfOk result (λ c. C.app c ≡ program_app) }
{
    let program: C = program_of_texts(alloc)?;
    let program = program.with_command(audit_command(alloc)?)?;
    program.with_command(replay_command(alloc)?)
}

/// What `clap` finds in the words.
pub(crate) fn matches_in<'a>(alloc: Global, words: &'a [String]) -> Result<ArgMatches<'a>, Error>
    ensures found { IfOk result (λ m. subcommand_rows_of m ≡ subcommand_of program_app (map string_bytes words.entry.now)) }
    ensures kinds { FailsBy (fault_of program_app (map string_bytes words.entry.now)) result }
{
    program_command::<Command<'a>>(alloc)?.try_get_matches_from(words)
}
