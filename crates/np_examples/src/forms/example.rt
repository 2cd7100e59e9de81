//! The example of the README and of the crate's head: from two files to a key.
use np_code_points::Form;
use np_code_points::watched::Watched;
use np_examples_shared::fixtures::{V1_DATA, V1_EXCLUSIONS};
use np_examples_shared::want;
use np_forms::npss;
use np_tables::{PageTable, Version};
use np_ucd::{read_exclusions, read_row_list};
use np_versions::NormTable;
use std::alloc::Global;
use std::test::Fail;

/// The version of the two files.
fn version_from(alloc: Global, data: &[u8], exclusions: &[u8]) -> Result<Version, Fail> {
    let rows = read_row_list(alloc, &mut Watched::new(data))?;
    let listed = read_exclusions(alloc, &mut Watched::new(exclusions))?;
    let version = Version::of_list(alloc, rows, listed)?;
    Ok(version)
}

fn table_from(alloc: Global, version: Version) -> Result<PageTable, Fail> {
    let table = PageTable::new(alloc, version)?;
    Ok(table)
}

/// The key over the table, whose parts its type parameter hides.
fn key_from<T: NormTable + Drop>(alloc: Global, table: T) -> Result<String, Fail> {
    let key = npss(alloc, &table, Form::Nfc, "a\u{302}\u{323}")?;
    Ok(key)
}

fn key_of_files(alloc: Global, data: &[u8], exclusions: &[u8]) -> Result<String, Fail> {
    let version = version_from(alloc, data, exclusions)?;
    key_from(alloc, table_from(alloc, version)?)
}

#[test]
fn two_files_give_a_key(rt: HostRuntime) -> Result<(), Fail> {
    let key = key_of_files(rt.alloc(), V1_DATA.as_bytes(), V1_EXCLUSIONS.as_bytes())?;
    want(key.as_str() == "\u{1EAD}", "the key of a\u{302}\u{323}")
}
