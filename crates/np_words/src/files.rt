//! The form and the files of a version that words name.
ghost use Rattle.std.specs.Prelude.{◌≡◌, false, IfOk, Some, None, Err, string_bytes};
ghost use Rattle.clap.specs.Words.{Text, first_of, found_of, rows_of};
ghost use Rattle.np_words.specs.Words.{files_of, form_of, names_of, text_asked};

use crate::faults::WordsFault;
use clap::ArgMatches;
use np_code_points::Form;
use std::alloc::Global;

/// The names of the two files of a version.
#[derive(Debug, Drop, PartialEq, Eq)]
pub struct VersionFiles {
    pub data_file: String,
    pub exclusions_file: String,
}

/// The names of the three files of a version with its folding.
#[derive(Debug, Drop, PartialEq, Eq)]
pub struct FoldedFiles {
    pub version: VersionFiles,
    pub folding_file: String,
}

/// The form that the words name.
#[tactic(auto, using(crate::proofs::MatchLemmas::first_value_in_rows))]
pub(crate) fn form_in(found: &ArgMatches<'_>) -> Option<Form>
    ensures { result ≡ form_of (rows_of (found_of found.now)) }
{
    Form::of_name(found.get_str("form")?)
}

/// The file that the words name at this place.
#[tactic(auto, using(crate::proofs::MatchLemmas::first_value_in_rows))]
pub(crate) fn file_in(
    alloc: Global,
    found: &ArgMatches<'_>,
    place: &str,
) -> Result<String, WordsFault>
    ensures ok { IfOk result (λ name. first_of place.now (rows_of (found_of found.now)) ≡ Some (string_bytes name)) }
    ensures usage { result ≡ Err WordsFault.Usage → first_of place.now (rows_of (found_of found.now)) ≡ None }
{
    let Some(name) = found.get_str(place) else {
        return Err(WordsFault::Usage);
    };
    match String::from_str(alloc, name) {
        Ok(name) => Ok(name),
        Err(_) => Err(WordsFault::Memory),
    }
}

/// The two files of a version that the words name at these places.
pub(crate) fn files_in(
    alloc: Global,
    found: &ArgMatches<'_>,
    data_place: &str,
    exclusions_place: &str,
) -> Result<VersionFiles, WordsFault>
    ensures ok { IfOk result (λ files. files_of data_place.now exclusions_place.now (rows_of (found_of found.now)) ≡ Some (names_of files)) }
    ensures usage { result ≡ Err WordsFault.Usage → files_of data_place.now exclusions_place.now (rows_of (found_of found.now)) ≡ None }
{
    let data_file = file_in(alloc, found, data_place)?;
    let exclusions_file = file_in(alloc, found, exclusions_place)?;
    Ok(VersionFiles {
        data_file,
        exclusions_file,
    })
}

/// The form and the two files of a command on text, as `clap` found them for
/// [`command_on_text`](super::command_on_text).
///
/// # Errors
///
/// `Usage` where the form has another name, or one of the three is not there. `Memory` where memory ran
/// out for a name.
pub fn form_and_files(
    alloc: Global,
    found: &ArgMatches<'_>,
) -> Result<(Form, VersionFiles), WordsFault>
    ensures ok { IfOk result (λ p. (c : Text) → text_asked c (rows_of (found_of found.now))
        ≡ Some (record { command = c; form = Some p.0; checks_under = false; files = names_of p.1 })) }
    ensures usage { result ≡ Err WordsFault.Usage → (c : Text) → text_asked c (rows_of (found_of found.now)) ≡ None }
{
    let Some(form) = form_in(found) else {
        return Err(WordsFault::Usage);
    };
    let files = files_in(alloc, found, "DATA", "EXCL")?;
    Ok((form, files))
}
