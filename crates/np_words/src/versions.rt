//! The files of several versions that words name.
ghost use Rattle.std.specs.Prelude.{◌≡◌, ◌≤◌, ◌∷◌, ◌++◌, ◌/◌, ◌%◌, [], codes, length, vec_len, flat_map, map, IfOk, IfErr, IsTrue, Some, None, Err};
ghost use Rattle.clap.specs.Words.{found_of, rows_of};
ghost use Rattle.np_words.specs.Words.{are_paired, checks_under, counted, counted_files_of, names_of, paired_files_of};

use crate::faults::WordsFault;
use crate::files::VersionFiles;
use clap::ArgMatches;
use std::alloc::{AllocError, Global};

/// Whether the words have the flag `--check-under`.
#[tactic(auto, using(crate::proofs::MatchLemmas::first_value_in_rows))]
pub(crate) fn checks_under_in(found: &ArgMatches<'_>) -> bool
    ensures { result ≡ checks_under (rows_of (found_of found.now)) }
{
    match found.get_str("check-under") {
        Some(value) => value == "true",
        None => false,
    }
}

/// Two files of a version, by their names.
pub(crate) fn files_named(
    alloc: Global,
    data_file: &str,
    exclusions_file: &str,
) -> Result<VersionFiles, WordsFault>
    ensures names { IfOk result (λ files. names_of files ≡ data_file.now ∷ (exclusions_file.now ∷ [])) }
    ensures memory { IfErr result (λ fault. fault ≡ WordsFault.Memory) }
{
    let (Ok(data_file), Ok(exclusions_file)) = (
        String::from_str(alloc, data_file),
        String::from_str(alloc, exclusions_file),
    ) else {
        return Err(WordsFault::Memory);
    };
    Ok(VersionFiles {
        data_file,
        exclusions_file,
    })
}

/// The one version whose two files are named so.
fn one_version_of(alloc: Global, names: &[&str]) -> Result<VersionFiles, WordsFault>
    ensures ok { IfOk result (λ files. counted 2 (map (λ name. name.now) names.now) ≡ Some (names_of files)) }
    ensures usage { result ≡ Err WordsFault.Usage → counted 2 (map (λ name. name.now) names.now) ≡ None }
{
    if names.len() != 2 {
        return Err(WordsFault::Usage);
    }
    files_named(alloc, names[0], names[1])
}

/// The two versions whose four files are named so.
fn two_versions_of(
    alloc: Global,
    names: &[&str],
) -> Result<(VersionFiles, VersionFiles), WordsFault>
    ensures ok { IfOk result (λ both. counted 4 (map (λ name. name.now) names.now) ≡ Some (names_of both.0 ++ names_of both.1)) }
    ensures usage { result ≡ Err WordsFault.Usage → counted 4 (map (λ name. name.now) names.now) ≡ None }
{
    if names.len() != 4 {
        return Err(WordsFault::Usage);
    }
    let old = files_named(alloc, names[0], names[1])?;
    let new = files_named(alloc, names[2], names[3])?;
    Ok((old, new))
}

/// The two files of the one version that the words name.
#[tactic(auto, using(crate::proofs::MatchLemmas::raw_values_in_rows))]
pub(crate) fn one_version_in(
    alloc: Global,
    found: &ArgMatches<'_>,
) -> Result<VersionFiles, WordsFault>
    ensures ok { IfOk result (λ files. counted_files_of 2 (rows_of (found_of found.now)) ≡ Some (names_of files)) }
    ensures usage { result ≡ Err WordsFault.Usage → counted_files_of 2 (rows_of (found_of found.now)) ≡ None }
{
    let Some(names) = found.get_strs("FILES") else {
        return Err(WordsFault::Usage);
    };
    one_version_of(alloc, names)
}

/// The four files of the two versions that the words name.
#[tactic(auto, using(crate::proofs::MatchLemmas::raw_values_in_rows))]
pub(crate) fn two_versions_in(
    alloc: Global,
    found: &ArgMatches<'_>,
) -> Result<(VersionFiles, VersionFiles), WordsFault>
    ensures ok { IfOk result (λ both. counted_files_of 4 (rows_of (found_of found.now)) ≡ Some (names_of both.0 ++ names_of both.1)) }
    ensures usage { result ≡ Err WordsFault.Usage → counted_files_of 4 (rows_of (found_of found.now)) ≡ None }
{
    let Some(names) = found.get_strs("FILES") else {
        return Err(WordsFault::Usage);
    };
    two_versions_of(alloc, names)
}

/// Whether the files of versions are an even number, at least two.
fn are_paired(names: &[&str]) -> bool
    ensures test { result ≡ are_paired (map (λ name. name.now) names.now) }
    ensures even { IsTrue result → length names.now % 2 ≡ 0 }
    ensures some { IsTrue result → 2 ≤ length names.now }
{
    names.len() >= 2 && names.len() % 2 == 0
}

/// The names of files, two for each version.
fn in_pairs(alloc: Global, names: &[&str]) -> Result<Vec<VersionFiles>, AllocError>
    requires { length names.now % 2 ≡ 0 }
    ensures names { IfOk result (λ versions. flat_map names_of versions.items ≡ map (λ name. name.now) names.now) }
    ensures count { IfOk result (λ versions. vec_len versions ≡ length names.now / 2) }
{
    let mut versions = Vec::new(alloc);
    for number in 0..names.len() / 2 {
        let data_file = String::from_str(alloc, names[2 * number])?;
        let exclusions_file = String::from_str(alloc, names[2 * number + 1])?;
        versions.push(VersionFiles {
            data_file,
            exclusions_file,
        })?;
    }
    Ok(versions)
}

/// The files of versions that the words name, two for each version.
#[tactic(auto, using(crate::proofs::MatchLemmas::raw_values_in_rows))]
pub(crate) fn version_files_in(
    alloc: Global,
    found: &ArgMatches<'_>,
) -> Result<Vec<VersionFiles>, WordsFault>
    ensures ok { IfOk result (λ versions. paired_files_of (rows_of (found_of found.now)) ≡ Some (flat_map names_of versions.items)) }
    ensures some { IfOk result (λ versions. 1 ≤ vec_len versions) }
    ensures usage { result ≡ Err WordsFault.Usage → paired_files_of (rows_of (found_of found.now)) ≡ None }
{
    let Some(names) = found.get_strs("FILES") else {
        return Err(WordsFault::Usage);
    };
    if !are_paired(names) {
        return Err(WordsFault::Usage);
    }
    match in_pairs(alloc, names) {
        Ok(versions) => Ok(versions),
        Err(_) => Err(WordsFault::Memory),
    }
}
