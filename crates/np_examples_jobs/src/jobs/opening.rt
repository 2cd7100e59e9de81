//! Files that are opened by their names as they stand, and the first that doesn't open.
use crate::shelf::Shelf;
use np_code_points::input::read_whole;
use np_code_points::watched::Watched;
use np_examples_shared::devices::Trickle;
use np_examples_shared::want;
use np_jobs::{open_version, open_versions};
use np_words::VersionFiles;
use std::alloc::{AllocError, Global};
use std::test::Fail;

/// Names that differ in a blank or a line end alone.
const FILES: &[(&str, &str)] = &[(" d ", "1"), ("d", "2"), ("e", "3"), ("e\n", "4")];

/// The names of a version's two files.
fn version(alloc: Global, data: &str, exclusions: &str) -> Result<VersionFiles, AllocError> {
    Ok(VersionFiles {
        data_file: String::from_str(alloc, data)?,
        exclusions_file: String::from_str(alloc, exclusions)?,
    })
}

/// Whether a file holds this.
fn holds(alloc: Global, file: &mut Watched<Trickle<'_>>, text: &str) -> Result<bool, Fail> {
    match read_whole(alloc, file) {
        Ok(bytes) => Ok(bytes.as_slice() == text.as_bytes()),
        Err(_) => Err(Fail::new("a file in memory is read")),
    }
}

/// Whether two files hold this.
fn hold(
    alloc: Global,
    data: &mut Watched<Trickle<'_>>,
    exclusions: &mut Watched<Trickle<'_>>,
    texts: (&str, &str),
) -> Result<bool, Fail> {
    Ok(holds(alloc, data, texts.0)? && holds(alloc, exclusions, texts.1)?)
}

/// Whether the files of a version open and hold this.
fn opens(alloc: Global, files: &VersionFiles, texts: (&str, &str)) -> Result<bool, Fail> {
    let mut error = Watched::new(Vec::new(alloc));
    match open_version(&Shelf { files: FILES }, alloc, &mut error, files) {
        Ok((mut data, mut exclusions)) => hold(alloc, &mut data, &mut exclusions, texts),
        Err(_) => Ok(false),
    }
}

/// Whether these names open files that hold this.
fn open_as(alloc: Global, names: (&str, &str), texts: (&str, &str)) -> Result<bool, Fail> {
    let files = version(alloc, names.0, names.1)?;
    opens(alloc, &files, texts)
}

/// The status with which versions don't open.
fn status_of(alloc: Global, versions: &[VersionFiles], error: &mut Watched<Vec<u8>>) -> Option<u8> {
    match open_versions(&Shelf { files: FILES }, alloc, error, versions) {
        Ok(_) => None,
        Err(status) => Some(status),
    }
}

/// Whether versions don't open, and that is told in this line, with status 5.
fn are_unopened(alloc: Global, versions: &[VersionFiles], line: &str) -> bool {
    let mut error = Watched::new(Vec::new(alloc));
    let status = status_of(alloc, versions, &mut error);
    let told: Vec<u8> = error.into_inner();
    status == Some(5) && told.as_slice() == line.as_bytes()
}

/// The names of two versions' files.
fn two_versions(
    alloc: Global,
    old: (&str, &str),
    new: (&str, &str),
) -> Result<Vec<VersionFiles>, AllocError> {
    let mut versions = Vec::new(alloc);
    versions.push(version(alloc, old.0, old.1)?)?;
    versions.push(version(alloc, new.0, new.1)?)?;
    Ok(versions)
}

/// Whether two versions don't open, and that is told in this line, with status 5.
fn is_unopened(
    alloc: Global,
    old: (&str, &str),
    new: (&str, &str),
    line: &str,
) -> Result<bool, Fail> {
    let versions = two_versions(alloc, old, new)?;
    Ok(are_unopened(alloc, versions.as_slice(), line))
}

#[test]
fn a_name_is_opened_as_it_stands(rt: HostRuntime) -> Result<(), Fail> {
    let alloc = rt.alloc();
    want(open_as(alloc, ("d", "e"), ("2", "3"))?, "plain names")?;
    want(
        open_as(alloc, (" d ", "e\n"), ("1", "4"))?,
        "names with blanks and a line end",
    )?;
    want(
        !open_as(alloc, ("d ", "e"), ("2", "3"))?,
        "a name that no file has",
    )
}

#[test]
fn the_first_file_that_does_not_open_is_told(rt: HostRuntime) -> Result<(), Fail> {
    let alloc = rt.alloc();
    want(
        is_unopened(alloc, ("d", "e"), ("d", " e"), "cannot open  e\n")?,
        "the last",
    )?;
    want(
        is_unopened(alloc, ("x", "y"), ("z", "e"), "cannot open x\n")?,
        "the first of three",
    )?;
    want(
        is_unopened(alloc, ("d", "y"), ("z", "e"), "cannot open y\n")?,
        "the first of two",
    )
}
