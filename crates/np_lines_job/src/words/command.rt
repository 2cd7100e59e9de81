//! The command line as `clap` reads it: its options and places.
ghost use Rattle.std.specs.Prelude.{◌≡◌, IfOk, false, map, string_bytes};
ghost use Rattle.clap.specs.Words.{FailsBy, app_of, fault_of, found_of, matches_of, rows_of, rule_of};
ghost use Rattle.np_lines_job.specs.LineCommands.{flag_rule, lines_app, plain_app, third_rule};

use clap::{Arg, ArgAction, ArgMatches, Command, Error};
use np_words::command_on_text;
use std::alloc::{AllocError, Global};

/// A flag.
fn flag_arg<'a>(alloc: Global, name: &'a str) -> Arg<'a>
    ensures rule { rule_of result ≡ flag_rule name.entry.now }
    ensures local { result.global ≡ false }
{
    Arg::new(alloc, name).long(name).action(ArgAction::SetTrue)
}

/// The place of the third file.
fn third_arg<'a>(alloc: Global) -> Arg<'a>
    ensures rule { rule_of result ≡ third_rule }
    ensures local { result.global ≡ false }
{
    Arg::new(alloc, "FOLD").action(ArgAction::Set)
}

/// The program with the options and places of keys.
fn plain_command<'a>(alloc: Global) -> Result<Command<'a>, AllocError>
    ensures { IfOk result (λ c. app_of c ≡ plain_app) }
{
    command_on_text(alloc, "npss_lines")?
        .no_binary_name(true)
        .arg(flag_arg(alloc, "null"))?
        .arg(flag_arg(alloc, "strict"))?
        .arg(flag_arg(alloc, "progress"))
}

/// The program with all its options and places.
fn lines_command<'a>(alloc: Global) -> Result<Command<'a>, AllocError>
    ensures { IfOk result (λ c. app_of c ≡ lines_app) }
{
    plain_command(alloc)?
        .arg(flag_arg(alloc, "caseless"))?
        .arg(third_arg(alloc))
}

/// What `clap` finds in the words.
pub(super) fn matches_in<'a>(alloc: Global, words: &'a [String]) -> Result<ArgMatches<'a>, Error>
    ensures found { IfOk result (λ m. rows_of (found_of m) ≡ matches_of lines_app (map string_bytes words.entry.now)) }
    ensures kinds { FailsBy (fault_of lines_app (map string_bytes words.entry.now)) result }
{
    lines_command(alloc)?.try_get_matches_from(words)
}
