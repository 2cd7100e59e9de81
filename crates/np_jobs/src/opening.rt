//! The files of a job are opened before any of them is read.
ghost use Rattle.std.specs.Prelude.{◌≡◌, ◌∷◌, ◌++◌, ◌+◌, ◌*◌, [], flat_map, length, map, vec_len, IfOk, IfErr, OnOk};
ghost use Rattle.std.specs.List.{AllZip};
ghost use Rattle.np_code_points.specs.Watched.{device_of};
ghost use Rattle.np_jobs.specs.Opening.{IsUnopened};
ghost use Rattle.np_jobs.specs.Streams.{stream_of};
ghost use Rattle.np_jobs.specs.inside.OpeningSteps.{AreOpenedBehind};
ghost use Rattle.np_words.specs.Words.{names_of};

use crate::ending::{refuse, tell};
use crate::faults::JobFault;
use crate::openers::Opener;
use crate::statuses::FAILED;
use np_code_points::Memory;
use np_code_points::watched::Watched;
use np_words::VersionFiles;
use std::alloc::Global;
use std::io::Write;

/// Says that a file can't be opened.
fn refuse_file<O: Opener, E: Write>(
    opener: &O,
    alloc: Global,
    error: &mut Watched<E>,
    name: &str,
) -> u8
    requires lacks { O.lacks opener.now name.now }
    ensures { IsUnopened (O.gives opener.now) (O.lacks opener.now) (name.now ∷ []) (stream_of E.contents error.old error.new) result }
{
    match format!(in alloc; "cannot open {name}\n") {
        Ok(line) => {
            tell(error, line.as_str());
            FAILED
        }
        Err(_) => refuse(alloc, error, &JobFault::Memory),
    }
}

/// Opens a file by its name, as it stands.
///
/// # Errors
///
/// The status that was told: 5 in the line `cannot open NAME`, or 6 where memory ran out for it.
pub fn open_file<O: Opener, E: Write>(
    opener: &O,
    alloc: Global,
    error: &mut Watched<E>,
    name: &str,
) -> Result<Watched<O::File>, u8>
    ensures file { IfOk result (λ file. O.gives opener.now name.now (O.File.remaining (device_of file))) }
    ensures silent { OnOk result (error.new ≡ error.old) }
    ensures told { IfErr result (IsUnopened (O.gives opener.now) (O.lacks opener.now) (name.now ∷ []) (stream_of E.contents error.old error.new)) }
{
    match opener.open(name) {
        Ok(file) => Ok(Watched::new(file)),
        Err(_) => Err(refuse_file(opener, alloc, error, name)),
    }
}

/// Opens the two files of a version, the data first.
///
/// # Errors
///
/// The status that was told, of the first that can't be opened.
pub fn open_version<O: Opener, E: Write>(
    opener: &O,
    alloc: Global,
    error: &mut Watched<E>,
    files: &VersionFiles,
) -> Result<(Watched<O::File>, Watched<O::File>), u8>
    ensures files { IfOk result (λ both. AllZip (O.gives opener.now) (names_of files.now)
        (O.File.remaining (device_of both.0) ∷ (O.File.remaining (device_of both.1) ∷ []))) }
    ensures silent { OnOk result (error.new ≡ error.old) }
    ensures told { IfErr result (IsUnopened (O.gives opener.now) (O.lacks opener.now) (names_of files.now) (stream_of E.contents error.old error.new)) }
{
    let data = open_file(opener, alloc, error, files.data_file.as_str())?;
    let exclusions = open_file(opener, alloc, error, files.exclusions_file.as_str())?;
    Ok((data, exclusions))
}

/// Puts the two opened files of a version behind others.
fn keep_both<F: Drop>(
    files: &mut Vec<Watched<F>>,
    both: (Watched<F>, Watched<F>),
) -> Result<(), Memory>
    ensures both { OnOk result (files.new.items ≡ files.old.items ++ (both.0 ∷ both.1 ∷ [])) }
    ensures count { OnOk result (vec_len files.new ≡ vec_len files.old + 2) }
{
    let (data_file, exclusions_file) = both;
    files.push(data_file)?;
    Ok(files.push(exclusions_file)?)
}

/// Opens the two files of a version, and puts them behind others.
///
/// # Errors
///
/// The status that was told, of the first that can't be opened, or where memory ran out.
fn open_behind<O: Opener, E: Write>(
    opener: &O,
    alloc: Global,
    error: &mut Watched<E>,
    files: &mut Vec<Watched<O::File>>,
    version: &VersionFiles,
) -> Result<(), u8>
    ensures opened { OnOk result (AreOpenedBehind O.File.remaining (O.gives opener.now) (names_of version.now) files.old.items files.new.items) }
    ensures count { OnOk result (vec_len files.new ≡ vec_len files.old + 2) }
    ensures silent { OnOk result (error.new ≡ error.old) }
    ensures told { IfErr result (IsUnopened (O.gives opener.now) (O.lacks opener.now) (names_of version.now) (stream_of E.contents error.old error.new)) }
{
    let both = open_version(opener, alloc, error, version)?;
    match keep_both(files, both) {
        Ok(()) => Ok(()),
        Err(_) => Err(refuse(alloc, error, &JobFault::Memory)),
    }
}

/// Opens the files of versions in their order, two for each.
///
/// # Errors
///
/// The status that was told, of the first that can't be opened, or where memory ran out.
pub fn open_versions<O: Opener, E: Write>(
    opener: &O,
    alloc: Global,
    error: &mut Watched<E>,
    versions: &[VersionFiles],
) -> Result<Vec<Watched<O::File>>, u8>
    ensures files { IfOk result (λ files. AllZip (O.gives opener.now) (flat_map names_of versions.now)
        (map (λ file. O.File.remaining (device_of file)) files.items)) }
    ensures count { IfOk result (λ files. vec_len files ≡ 2 * length versions.now) }
    ensures silent { OnOk result (error.new ≡ error.old) }
    ensures told { IfErr result (IsUnopened (O.gives opener.now) (O.lacks opener.now) (flat_map names_of versions.now)
        (stream_of E.contents error.old error.new)) }
{
    let mut files = Vec::new(alloc);
    for version in versions {
        open_behind(opener, alloc, error, &mut files, version)?;
    }
    Ok(files)
}
