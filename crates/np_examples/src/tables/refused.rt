//! Versions and tables that were refused for want of memory, and are made of the same files after all.
use super::has_count;
use np_code_points::Memory;
use np_code_points::watched::Watched;
use np_examples_shared::fixtures::{V1_DATA, V1_EXCLUSIONS};
use np_examples_shared::{Made, V1, table_of, version_of, want};
use np_tables::{PageTable, RowTable};
use np_ucd::{Exclusions, Rows, read_exclusions, read_rows};
use np_versions::{NormTable, TableFault, Version};
use std::alloc::Global;
use std::test::Fail;

/// What a table has for the worked examples.
fn answers<T: NormTable>(table: &T) -> Result<(), Fail> {
    let pair = table.pair('\u{61}', '\u{323}') == Some('\u{1EA1}');
    let full = table.full('\u{1EAD}', false) == ['\u{61}', '\u{323}', '\u{302}'].as_slice();
    want(pair && full, "a pair and a full decomposition")
}

/// The version, of its files read anew where memory was refused to the first one, and not to what it was made of.
fn build_again(alloc: Global, rows: Rows, exclusions: Exclusions) -> Result<Version, Fail> {
    match Version::build(alloc, rows, exclusions) {
        Err(TableFault::Memory) => version_of(alloc, V1),
        answer => Ok(answer?),
    }
}

fn version_again(alloc: Global) -> Result<Version, Fail> {
    let rows = read_rows(alloc, &mut Watched::new(V1_DATA.as_bytes()))?;
    let exclusions = read_exclusions(alloc, &mut Watched::new(V1_EXCLUSIONS.as_bytes()))?;
    build_again(alloc, rows, exclusions)
}

#[test]
fn a_refused_build_succeeds_after_all(rt: HostRuntime) -> Result<(), Fail> {
    let v1 = version_again(rt.alloc())?;
    has_count(&v1, 17_660)
}

/// The table, of its files read anew where memory was refused to the first one.
fn table_again<T: Made>(alloc: Global) -> Result<T, Fail> {
    match T::of(alloc, version_of(alloc, V1)?) {
        Err(Memory) => table_of(alloc, V1),
        Ok(table) => Ok(table),
    }
}

fn answers_again<T: Made>(alloc: Global) -> Result<(), Fail> {
    let table: T = table_again(alloc)?;
    answers(&table)
}

#[test]
fn a_refused_row_table_succeeds_after_all(rt: HostRuntime) -> Result<(), Fail> {
    answers_again::<RowTable>(rt.alloc())
}

#[test]
fn a_refused_page_table_succeeds_after_all(rt: HostRuntime) -> Result<(), Fail> {
    answers_again::<PageTable>(rt.alloc())
}
