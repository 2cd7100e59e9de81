//! What the command line of `npss_caseless` asks for.
ghost use Rattle.std.specs.Prelude.{◌≡◌, ◌≢◌, [], ◌∷◌, ◌++◌, map, IfOk, IfErr, Some, None, Ok, Err, string_bytes};
ghost use Rattle.clap.specs.Words.{found_of, rows_of, subcommand_rows_of};
ghost use Rattle.np_words.specs.CaselessWords.{caseless_asked_among, caseless_asked_by, caseless_asked_in, caseless_asked_of, caseless_asked_unless};
ghost use Rattle.np_words.specs.CaselessWords.{caseless_audit_asked, caseless_compare_asked, caseless_key_asked, folded_names_of};
ghost use Rattle.np_words.specs.Words.{counted, counted_files_of};

mod command;

use crate::faults::{WordsFault, fault_from};
use crate::files::{FoldedFiles, form_in};
use crate::versions::{checks_under_in, files_named};
use clap::ArgMatches;
use command::matches_in;
use np_code_points::Form;
use std::alloc::Global;

/// What is to be done. Files are in the order of the words.
#[derive(Debug, Drop, PartialEq, Eq)]
pub enum CaselessJob {
    /// The usage text is asked for.
    Help,
    /// The caseless key of a text.
    Key {
        form: Form,
        files: FoldedFiles,
    },
    /// What an earlier version has of the caseless key of a text.
    KeyUnder {
        form: Form,
        old: FoldedFiles,
        new: FoldedFiles,
    },
    /// Whether two strings match caselessly.
    Compare {
        form: Form,
        files: FoldedFiles,
    },
    /// The breaks between two versions with their foldings.
    Audit {
        old: FoldedFiles,
        new: FoldedFiles,
    },
}

/// Three files of a version, by their names.
fn three_files_named(
    alloc: Global,
    data_file: &str,
    exclusions_file: &str,
    folding_file: &str,
) -> Result<FoldedFiles, WordsFault>
    ensures names { IfOk result (λ files. folded_names_of files ≡ data_file.now ∷ (exclusions_file.now ∷ (folding_file.now ∷ []))) }
    ensures memory { IfErr result (λ fault. fault ≡ WordsFault.Memory) }
{
    let version = files_named(alloc, data_file, exclusions_file)?;
    match String::from_str(alloc, folding_file) {
        Ok(folding_file) => Ok(FoldedFiles {
            version,
            folding_file,
        }),
        Err(_) => Err(WordsFault::Memory),
    }
}

/// The one version whose three files are named so.
fn one_version_of(alloc: Global, names: &[&str]) -> Result<FoldedFiles, WordsFault>
    ensures ok { IfOk result (λ files. counted 3 (map (λ name. name.now) names.now) ≡ Some (folded_names_of files)) }
    ensures usage { result ≡ Err WordsFault.Usage → counted 3 (map (λ name. name.now) names.now) ≡ None }
{
    if names.len() != 3 {
        return Err(WordsFault::Usage);
    }
    three_files_named(alloc, names[0], names[1], names[2])
}

/// The two versions whose six files are named so.
fn two_versions_of(alloc: Global, names: &[&str]) -> Result<(FoldedFiles, FoldedFiles), WordsFault>
    ensures ok { IfOk result (λ both. counted 6 (map (λ name. name.now) names.now) ≡ Some (folded_names_of both.0 ++ folded_names_of both.1)) }
    ensures usage { result ≡ Err WordsFault.Usage → counted 6 (map (λ name. name.now) names.now) ≡ None }
{
    if names.len() != 6 {
        return Err(WordsFault::Usage);
    }
    let old = three_files_named(alloc, names[0], names[1], names[2])?;
    let new = three_files_named(alloc, names[3], names[4], names[5])?;
    Ok((old, new))
}

/// The three files of the one version that the words name.
#[tactic(auto, using(crate::proofs::MatchLemmas::raw_values_in_rows))]
fn one_version_in(alloc: Global, found: &ArgMatches<'_>) -> Result<FoldedFiles, WordsFault>
    ensures ok { IfOk result (λ files. counted_files_of 3 (rows_of (found_of found.now)) ≡ Some (folded_names_of files)) }
    ensures usage { result ≡ Err WordsFault.Usage → counted_files_of 3 (rows_of (found_of found.now)) ≡ None }
{
    let Some(names) = found.get_strs("FILES") else {
        return Err(WordsFault::Usage);
    };
    one_version_of(alloc, names)
}

/// The six files of the two versions that the words name.
#[tactic(auto, using(crate::proofs::MatchLemmas::raw_values_in_rows))]
fn two_versions_in(
    alloc: Global,
    found: &ArgMatches<'_>,
) -> Result<(FoldedFiles, FoldedFiles), WordsFault>
    ensures ok { IfOk result (λ both. counted_files_of 6 (rows_of (found_of found.now)) ≡ Some (folded_names_of both.0 ++ folded_names_of both.1)) }
    ensures usage { result ≡ Err WordsFault.Usage → counted_files_of 6 (rows_of (found_of found.now)) ≡ None }
{
    let Some(names) = found.get_strs("FILES") else {
        return Err(WordsFault::Usage);
    };
    two_versions_of(alloc, names)
}

/// The job of the word `key` that the words ask for.
fn key_in(alloc: Global, found: &ArgMatches<'_>) -> Result<CaselessJob, WordsFault>
    ensures ok { IfOk result (λ job. caseless_key_asked (rows_of (found_of found.now)) ≡ Some (caseless_asked_of job)) }
    ensures command { IfOk result (λ job. job ≢ CaselessJob.Help) }
    ensures usage { result ≡ Err WordsFault.Usage → caseless_key_asked (rows_of (found_of found.now)) ≡ None }
{
    let Some(form) = form_in(found) else {
        return Err(WordsFault::Usage);
    };
    if checks_under_in(found) {
        let (old, new) = two_versions_in(alloc, found)?;
        return Ok(CaselessJob::KeyUnder { form, old, new });
    }
    let files = one_version_in(alloc, found)?;
    Ok(CaselessJob::Key { form, files })
}

/// The comparison that the words ask for.
fn compare_in(alloc: Global, found: &ArgMatches<'_>) -> Result<CaselessJob, WordsFault>
    ensures ok { IfOk result (λ job. caseless_compare_asked (rows_of (found_of found.now)) ≡ Some (caseless_asked_of job)) }
    ensures command { IfOk result (λ job. job ≢ CaselessJob.Help) }
    ensures usage { result ≡ Err WordsFault.Usage → caseless_compare_asked (rows_of (found_of found.now)) ≡ None }
{
    let Some(form) = form_in(found) else {
        return Err(WordsFault::Usage);
    };
    let files = one_version_in(alloc, found)?;
    Ok(CaselessJob::Compare { form, files })
}

/// The audit that the words ask for.
fn audit_in(alloc: Global, found: &ArgMatches<'_>) -> Result<CaselessJob, WordsFault>
    ensures ok { IfOk result (λ job. caseless_audit_asked (rows_of (found_of found.now)) ≡ Some (caseless_asked_of job)) }
    ensures command { IfOk result (λ job. job ≢ CaselessJob.Help) }
    ensures usage { result ≡ Err WordsFault.Usage → caseless_audit_asked (rows_of (found_of found.now)) ≡ None }
{
    let (old, new) = two_versions_in(alloc, found)?;
    Ok(CaselessJob::Audit { old, new })
}

/// The job of the command of this name.
fn job_from(alloc: Global, name: &str, found: &ArgMatches<'_>) -> Result<CaselessJob, WordsFault>
    ensures ok { IfOk result (λ job. caseless_asked_in name.now (rows_of (found_of found.now)) ≡ Some (caseless_asked_of job)) }
    ensures command { IfOk result (λ job. job ≢ CaselessJob.Help) }
    ensures usage { result ≡ Err WordsFault.Usage → caseless_asked_in name.now (rows_of (found_of found.now)) ≡ None }
{
    match name {
        "key" => key_in(alloc, found),
        "compare" => compare_in(alloc, found),
        "audit" => audit_in(alloc, found),
        _ => Err(WordsFault::Usage),
    }
}

/// What `clap` finds in the words, or why it refuses them.
#[tactic(auto, using(crate::proofs::MatchLemmas::refused_caseless_words))]
fn matches_or_fault<'a>(alloc: Global, words: &'a [String]) -> Result<ArgMatches<'a>, WordsFault>
    ensures taken { IfOk result (λ m. caseless_asked_among (map string_bytes words.entry.now) ≡ caseless_asked_unless [] (subcommand_rows_of m)) }
    ensures usage { result ≡ Err WordsFault.Usage → caseless_asked_among (map string_bytes words.entry.now) ≡ None }
{
    match matches_in(alloc, words) {
        Ok(matches) => Ok(matches),
        Err(error) => Err(fault_from(&error)),
    }
}

/// The job that words ask for, of which there are some.
fn parse_some(alloc: Global, words: &[String]) -> Result<CaselessJob, WordsFault>
    ensures ok { IfOk result (λ job. caseless_asked_among (map string_bytes words.now) ≡ Some (caseless_asked_of job)) }
    ensures command { IfOk result (λ job. job ≢ CaselessJob.Help) }
    ensures usage { result ≡ Err WordsFault.Usage → caseless_asked_among (map string_bytes words.now) ≡ None }
{
    let matches = matches_or_fault(alloc, words)?;
    match matches.subcommand() {
        Some((name, found)) => job_from(alloc, name, found),
        None => Err(WordsFault::Usage),
    }
}

/// The job that the words, without the program's name, ask for. No words ask for help; other words
/// for what `clap` reads in them.
///
/// # Errors
///
/// `Usage` where they ask for nothing that there is: an unknown command or form, a wrong number of
/// files, a request for help. `Memory` where memory ran out; no words take none.
pub fn parse_caseless(alloc: Global, words: &[String]) -> Result<CaselessJob, WordsFault>
    ensures ok { IfOk result (λ job. caseless_asked_by (map string_bytes words.now) ≡ Some (caseless_asked_of job)) }
    ensures help { IfOk result (λ job. job ≡ CaselessJob.Help → words.now ≡ []) }
    ensures free { words.now ≡ [] → result ≡ Ok CaselessJob.Help }
    ensures usage { result ≡ Err WordsFault.Usage → caseless_asked_by (map string_bytes words.now) ≡ None }
{
    match words {
        [] => Ok(CaselessJob::Help),
        _ => parse_some(alloc, words),
    }
}
