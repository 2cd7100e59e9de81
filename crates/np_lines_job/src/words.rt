//! What the command line of `npss_lines` asks for.
ghost use Rattle.std.specs.Prelude.{◌≡◌, [], codes, option_map, IfOk, Ok, Some, None, Err, map, string_bytes};
ghost use Rattle.clap.specs.Words.{first_of, found_of, rows_of};
ghost use Rattle.np_lines_job.specs.LineWords.{asked_among, asked_by, asked_in, asked_of, asked_unless, caseless_asked_in, end_by};
ghost use Rattle.np_lines_job.specs.LineWords.{form_and_files_of, has_flag, job_asked, plain_asked_in, run_asked, some_asked};
ghost use Rattle.np_words.specs.Words.{names_of};

mod command;
mod usage;

use crate::job::LinesRun;
use clap::ArgMatches;
use command::matches_in;
use np_code_points::Form;
use np_habits::{Notice, notice_in, plain_words};
use np_lines::{LineEnd, Wanted};
use np_words::{FoldedFiles, VersionFiles, WordsFault, fault_from, form_and_files};
use std::alloc::Global;
pub use usage::{lines_usage_text, lines_version_text};

/// What is to be done.
#[derive(Debug, Drop, PartialEq, Eq)]
pub enum LinesJob {
    /// The usage text is asked for.
    Help,
    /// The version of the program is asked for.
    Version,
    /// The answers to lines. Where `shows_progress`, how far it is is told to a terminal.
    Answer {
        asked: LinesRun,
        shows_progress: bool,
        files: VersionFiles,
    },
    /// The answers to lines with their caseless keys.
    AnswerCaselessly {
        asked: LinesRun,
        shows_progress: bool,
        files: FoldedFiles,
    },
}

/// What `clap` finds in the words, or why it refuses them.
#[tactic(auto, using(crate::proofs::LineMatchLemmas::refused_words))]
fn matches_or_fault<'a>(alloc: Global, words: &'a [String]) -> Result<ArgMatches<'a>, WordsFault>
    ensures taken { IfOk result (λ m. asked_among (map string_bytes words.entry.now) ≡ asked_unless [] (rows_of (found_of m))) }
    ensures usage { result ≡ Err WordsFault.Usage → asked_among (map string_bytes words.entry.now) ≡ None }
{
    match matches_in(alloc, words) {
        Ok(matches) => Ok(matches),
        Err(error) => Err(fault_from(&error)),
    }
}

/// Whether the words have the flag of this name.
#[tactic(auto, using(np_words::proofs::MatchLemmas::first_value_in_rows))]
fn flag_in(found: &ArgMatches<'_>, name: &str) -> bool
    ensures { result ≡ has_flag name.now (rows_of (found_of found.now)) }
{
    match found.get_str(name) {
        Some(value) => value == "true",
        None => false,
    }
}

/// What ends lines.
fn end_of(is_null: bool) -> LineEnd
    ensures { result ≡ end_by is_null }
{
    if is_null { LineEnd::Nul } else { LineEnd::Lf }
}

/// What is asked of a run by the flags and the form that the words have.
fn asked_with(found: &ArgMatches<'_>, form: Form) -> LinesRun
    ensures { result ≡ run_asked form (rows_of (found_of found.now)) }
{
    let end = end_of(flag_in(found, "null"));
    LinesRun {
        wanted: Wanted { form, end },
        is_strict: flag_in(found, "strict"),
    }
}

/// The third file, where the words name one.
#[tactic(auto, using(np_words::proofs::MatchLemmas::first_value_in_rows))]
fn folding_file_in<'a>(found: &ArgMatches<'a>) -> Option<&'a str>
    ensures { option_map (λ name. name.now) result ≡ first_of (codes "FOLD") (rows_of (found_of found.now)) }
{
    found.get_str("FOLD")
}

/// The form and the two files that the words name.
fn form_and_files_in(
    alloc: Global,
    found: &ArgMatches<'_>,
) -> Result<(Form, VersionFiles), WordsFault>
    ensures ok { IfOk result (λ p. form_and_files_of (rows_of (found_of found.now)) ≡ Some (p.0, names_of p.1)) }
    ensures usage { result ≡ Err WordsFault.Usage → form_and_files_of (rows_of (found_of found.now)) ≡ None }
{
    form_and_files(alloc, found)
}

/// The answers with caseless keys that the words ask for.
fn caseless_job_in(alloc: Global, found: &ArgMatches<'_>) -> Result<LinesJob, WordsFault>
    ensures ok { IfOk result (λ job. caseless_asked_in (rows_of (found_of found.now)) ≡ Some (asked_of job)) }
    ensures usage { result ≡ Err WordsFault.Usage → caseless_asked_in (rows_of (found_of found.now)) ≡ None }
{
    let (form, version) = form_and_files_in(alloc, found)?;
    let Some(name) = folding_file_in(found) else {
        return Err(WordsFault::Usage);
    };
    match String::from_str(alloc, name) {
        Ok(folding_file) => Ok(LinesJob::AnswerCaselessly {
            asked: asked_with(found, form),
            shows_progress: flag_in(found, "progress"),
            files: FoldedFiles {
                version,
                folding_file,
            },
        }),
        Err(_) => Err(WordsFault::Memory),
    }
}

/// The answers with keys that the words ask for.
fn plain_job_in(alloc: Global, found: &ArgMatches<'_>) -> Result<LinesJob, WordsFault>
    ensures ok { IfOk result (λ job. plain_asked_in (rows_of (found_of found.now)) ≡ Some (asked_of job)) }
    ensures usage { result ≡ Err WordsFault.Usage → plain_asked_in (rows_of (found_of found.now)) ≡ None }
{
    let (form, files) = form_and_files_in(alloc, found)?;
    if folding_file_in(found).is_some() {
        return Err(WordsFault::Usage);
    }
    Ok(LinesJob::Answer {
        asked: asked_with(found, form),
        shows_progress: flag_in(found, "progress"),
        files,
    })
}

/// The answers that the words ask for.
fn job_in(alloc: Global, found: &ArgMatches<'_>) -> Result<LinesJob, WordsFault>
    ensures ok { IfOk result (λ job. asked_in (rows_of (found_of found.now)) ≡ Some (asked_of job)) }
    ensures usage { result ≡ Err WordsFault.Usage → asked_in (rows_of (found_of found.now)) ≡ None }
{
    if flag_in(found, "caseless") {
        caseless_job_in(alloc, found)
    } else {
        plain_job_in(alloc, found)
    }
}

/// The job that words ask for in which forms are named in lower case.
fn parse_plain(alloc: Global, words: &[String]) -> Result<LinesJob, WordsFault>
    ensures ok { IfOk result (λ job. asked_among (map string_bytes words.now) ≡ Some (asked_of job)) }
    ensures usage { result ≡ Err WordsFault.Usage → asked_among (map string_bytes words.now) ≡ None }
{
    let matches = matches_or_fault(alloc, words)?;
    job_in(alloc, &matches)
}

/// The job that words ask for, none of which asks for a notice.
fn parse_job(alloc: Global, words: &[String]) -> Result<LinesJob, WordsFault>
    ensures ok { IfOk result (λ job. job_asked (map string_bytes words.now) ≡ Some (asked_of job)) }
    ensures usage { result ≡ Err WordsFault.Usage → job_asked (map string_bytes words.now) ≡ None }
{
    match plain_words(alloc, words) {
        Ok(plain) => parse_plain(alloc, plain.as_slice()),
        Err(_) => Err(WordsFault::Memory),
    }
}

/// The job that words ask for, of which there are some.
fn parse_some(alloc: Global, words: &[String]) -> Result<LinesJob, WordsFault>
    ensures ok { IfOk result (λ job. some_asked (map string_bytes words.now) ≡ Some (asked_of job)) }
    ensures usage { result ≡ Err WordsFault.Usage → some_asked (map string_bytes words.now) ≡ None }
{
    match notice_in(words) {
        Some(Notice::Help) => Ok(LinesJob::Help),
        Some(Notice::Version) => Ok(LinesJob::Version),
        None => parse_job(alloc, words),
    }
}

/// The job that the words, without the program's name, ask for. No words ask for help, and so does `--help`; other words
/// for what `clap` reads in them, where a form is named in either case.
///
/// # Errors
///
/// `Usage` where they ask for nothing that there is: an unknown option or form, a wrong number of files. `Memory` where
/// memory ran out; no words take none.
pub fn parse_lines(alloc: Global, words: &[String]) -> Result<LinesJob, WordsFault>
    ensures ok { IfOk result (λ job. asked_by (map string_bytes words.now) ≡ Some (asked_of job)) }
    ensures free { words.now ≡ [] → result ≡ Ok LinesJob.Help }
    ensures usage { result ≡ Err WordsFault.Usage → asked_by (map string_bytes words.now) ≡ None }
{
    match words {
        [] => Ok(LinesJob::Help),
        _ => parse_some(alloc, words),
    }
}
