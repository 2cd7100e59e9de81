//! The command line of `npss_caseless` as `clap` reads it: its commands, options and places.
ghost use Rattle.std.specs.Prelude.{◌≡◌, IfOk, false, map, string_bytes};
ghost use Rattle.clap.specs.Words.{FailsBy, fault_of, subcommand_of, subcommand_rows_of};
ghost use Rattle.np_words.specs.CaselessCommands.{audit_app, caseless_app, compare_app};

use crate::command::{MadeCommand, files_arg, form_arg, key_command};
use clap::{ArgMatches, Command, Error};
use std::alloc::{AllocError, Global};

/// The command that compares two strings.
fn compare_command<'a, C: MadeCommand<'a>>(alloc: Global) -> Result<C, AllocError>
    ensures app { IfOk result (λ c. C.app c ≡ compare_app) }
    ensures local { IfOk result (λ c. C.has_globals c ≡ false) }
{
    C::named(alloc, "compare")
        .with_arg(form_arg(alloc))?
        .with_arg(files_arg(alloc, "FILES"))
}

/// The command that compares two versions.
fn audit_command<'a, C: MadeCommand<'a>>(alloc: Global) -> Result<C, AllocError>
    ensures app { IfOk result (λ c. C.app c ≡ audit_app) }
    ensures local { IfOk result (λ c. C.has_globals c ≡ false) }
{
    C::named(alloc, "audit").with_arg(files_arg(alloc, "FILES"))
}

/// The program with all its commands.
fn caseless_command<'a, C: MadeCommand<'a>>(alloc: Global) -> Result<C, AllocError>
    ensures { IfOk result (λ c. C.app c ≡ caseless_app) }
{
    let program = C::program(alloc, "npss_caseless").with_command(key_command(alloc)?)?;
    let program = program.with_command(compare_command(alloc)?)?;
    program.with_command(audit_command(alloc)?)
}

/// What `clap` finds in the words.
pub(super) fn matches_in<'a>(alloc: Global, words: &'a [String]) -> Result<ArgMatches<'a>, Error>
    ensures found { IfOk result (λ m. subcommand_rows_of m ≡ subcommand_of caseless_app (map string_bytes words.entry.now)) }
    ensures kinds { FailsBy (fault_of caseless_app (map string_bytes words.entry.now)) result }
{
    caseless_command::<Command<'a>>(alloc)?.try_get_matches_from(words)
}
