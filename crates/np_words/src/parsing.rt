//! What a command line asks for.
ghost use Rattle.std.specs.Prelude.{◌≡◌, ◌≢◌, [], false, length, map, flat_map, IfOk, Some, None, Ok, Err, string_bytes};
ghost use Rattle.clap.specs.Words.{found_of, rows_of, subcommand_rows_of};
ghost use Rattle.np_words.specs.Words.{HasVersions, asked_among, asked_by, asked_in, asked_of, asked_unless, audit_asked, key_asked, replay_asked};

use crate::command::matches_in;
use crate::faults::{WordsFault, fault_from};
use crate::files::{VersionFiles, file_in, files_in, form_and_files, form_in};
use crate::versions::{checks_under_in, one_version_in, two_versions_in, version_files_in};
use clap::ArgMatches;
use np_code_points::Form;
use std::alloc::Global;

/// What is to be done. Files are in the order of the words.
#[derive(Debug, Drop, PartialEq, Eq)]
pub enum Job {
    /// The usage text is asked for.
    Help,
    /// The form of a text.
    Normalize {
        form: Form,
        files: VersionFiles,
    },
    /// The key of a text.
    Key {
        form: Form,
        files: VersionFiles,
    },
    /// What an earlier version has of the key of a text.
    KeyUnder {
        form: Form,
        old: VersionFiles,
        new: VersionFiles,
    },
    /// Whether two strings are equivalent.
    Compare {
        form: Form,
        files: VersionFiles,
    },
    /// The breaks between two versions.
    Audit {
        old: VersionFiles,
        new: VersionFiles,
    },
    /// What happens to nodes, as a schedule has it, over a chain of versions.
    Replay {
        form: Form,
        schedule_file: String,
        version_files: Vec<VersionFiles>,
    },
}

/// What `clap` finds in the words, or why it refuses them.
#[tactic(auto, using(crate::proofs::MatchLemmas::refused_words))]
fn matches_or_fault<'a>(alloc: Global, words: &'a [String]) -> Result<ArgMatches<'a>, WordsFault>
    ensures taken { IfOk result (λ m. asked_among (map string_bytes words.entry.now) ≡ asked_unless [] (subcommand_rows_of m)) }
    ensures usage { result ≡ Err WordsFault.Usage → asked_among (map string_bytes words.entry.now) ≡ None }
{
    match matches_in(alloc, words) {
        Ok(matches) => Ok(matches),
        Err(error) => Err(fault_from(&error)),
    }
}

/// The job of the word `key` that the words ask for.
fn key_in(alloc: Global, found: &ArgMatches<'_>) -> Result<Job, WordsFault>
    ensures ok { IfOk result (λ job. key_asked (rows_of (found_of found.now)) ≡ Some (asked_of job)) }
    ensures command { IfOk result (λ job. job ≢ Job.Help) }
    ensures versions { IfOk result HasVersions }
    ensures usage { result ≡ Err WordsFault.Usage → key_asked (rows_of (found_of found.now)) ≡ None }
{
    let Some(form) = form_in(found) else {
        return Err(WordsFault::Usage);
    };
    if checks_under_in(found) {
        let (old, new) = two_versions_in(alloc, found)?;
        return Ok(Job::KeyUnder { form, old, new });
    }
    let files = one_version_in(alloc, found)?;
    Ok(Job::Key { form, files })
}

/// The audit that the words ask for.
fn audit_in(alloc: Global, found: &ArgMatches<'_>) -> Result<Job, WordsFault>
    ensures ok { IfOk result (λ job. audit_asked (rows_of (found_of found.now)) ≡ Some (asked_of job)) }
    ensures command { IfOk result (λ job. job ≢ Job.Help) }
    ensures versions { IfOk result HasVersions }
    ensures usage { result ≡ Err WordsFault.Usage → audit_asked (rows_of (found_of found.now)) ≡ None }
{
    let old = files_in(alloc, found, "OLDDATA", "OLDEXCL")?;
    let new = files_in(alloc, found, "NEWDATA", "NEWEXCL")?;
    Ok(Job::Audit { old, new })
}

/// The replay that the words ask for.
fn replay_in(alloc: Global, found: &ArgMatches<'_>) -> Result<Job, WordsFault>
    ensures ok { IfOk result (λ job. replay_asked (rows_of (found_of found.now)) ≡ Some (asked_of job)) }
    ensures command { IfOk result (λ job. job ≢ Job.Help) }
    ensures versions { IfOk result HasVersions }
    ensures usage { result ≡ Err WordsFault.Usage → replay_asked (rows_of (found_of found.now)) ≡ None }
{
    let Some(form) = form_in(found) else {
        return Err(WordsFault::Usage);
    };
    let schedule_file = file_in(alloc, found, "SCHEDULE")?;
    let version_files = version_files_in(alloc, found)?;
    Ok(Job::Replay {
        form,
        schedule_file,
        version_files,
    })
}

/// The job of the command of this name.
fn job_from(alloc: Global, name: &str, found: &ArgMatches<'_>) -> Result<Job, WordsFault>
    ensures ok { IfOk result (λ job. asked_in name.now (rows_of (found_of found.now)) ≡ Some (asked_of job)) }
    ensures command { IfOk result (λ job. job ≢ Job.Help) }
    ensures versions { IfOk result HasVersions }
    ensures usage { result ≡ Err WordsFault.Usage → asked_in name.now (rows_of (found_of found.now)) ≡ None }
{
    match name {
        "normalize" => {
            let (form, files) = form_and_files(alloc, found)?;
            Ok(Job::Normalize { form, files })
        }
        "key" => key_in(alloc, found),
        "compare" => {
            let (form, files) = form_and_files(alloc, found)?;
            Ok(Job::Compare { form, files })
        }
        "audit" => audit_in(alloc, found),
        "replay" => replay_in(alloc, found),
        _ => Err(WordsFault::Usage),
    }
}

/// The job that words ask for, of which there are some.
fn parse_some(alloc: Global, words: &[String]) -> Result<Job, WordsFault>
    ensures ok { IfOk result (λ job. asked_among (map string_bytes words.now) ≡ Some (asked_of job)) }
    ensures command { IfOk result (λ job. job ≢ Job.Help) }
    ensures versions { IfOk result HasVersions }
    ensures usage { result ≡ Err WordsFault.Usage → asked_among (map string_bytes words.now) ≡ None }
{
    let matches = matches_or_fault(alloc, words)?;
    match matches.subcommand() {
        Some((name, found)) => job_from(alloc, name, found),
        None => Err(WordsFault::Usage),
    }
}

/// The job that the words, without the program's name, ask for. No words ask for help; other words
/// for what `clap` reads in them.
///
/// # Errors
///
/// `Usage` where they ask for nothing that there is: an unknown command or form, a wrong number of
/// files, a request for help. `Memory` where memory ran out; no words take none.
pub fn parse(alloc: Global, words: &[String]) -> Result<Job, WordsFault>
    ensures ok { IfOk result (λ job. asked_by (map string_bytes words.now) ≡ Some (asked_of job)) }
    ensures help { IfOk result (λ job. job ≡ Job.Help → words.now ≡ []) }
    ensures free { words.now ≡ [] → result ≡ Ok Job.Help }
    ensures versions { IfOk result HasVersions }
    ensures usage { result ≡ Err WordsFault.Usage → asked_by (map string_bytes words.now) ≡ None }
{
    match words {
        [] => Ok(Job::Help),
        _ => parse_some(alloc, words),
    }
}
