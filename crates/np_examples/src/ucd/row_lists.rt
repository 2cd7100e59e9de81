//! The rows of a file in a list that is kept small.
use super::{KNOWN, exclusions_of, lent, rows_of};
use np_code_points::watched::Watched;
use np_examples_shared::fixtures::V1_DATA;
use np_examples_shared::want;
use np_ucd::{RowList, Rows, UcdFault, read_row_list};
use std::alloc::Global;
use std::fmt;
use std::test::Fail;

fn list_of(alloc: Global, text: &str) -> Result<RowList, UcdFault> {
    read_row_list(alloc, &mut Watched::new(text.as_bytes()))
}

/// Fails unless the list of the first fixture lends what stands in the file.
fn lends_the_first_fixture(list: &RowList) -> Result<(), Fail> {
    want(list.len() == 26 && !list.is_empty(), "26 rows")?;
    for row in KNOWN {
        want(list.get(row.0) == Some(row.1), "a row")?;
    }
    want(list.get(26).is_none(), "no further row")
}

/// Fails unless the list lends what the rows are.
fn lends(list: &RowList, rows: &Rows) -> Result<(), Fail> {
    want(list.len() == rows.len(), "as many rows")?;
    for at in 0..rows.len() {
        want(list.get(at) == lent(rows.get(at)), "two rows")?;
    }
    Ok(())
}

fn lends_its_rows(alloc: Global, list: &RowList) -> Result<(), Fail> {
    let rows = rows_of(alloc, V1_DATA.as_bytes(), 4096)?;
    lends(list, &rows)
}

/// A list shows how many rows it has, and exclusions how many ranges, and none of them.
fn shows<D: fmt::Debug>(alloc: Global, value: &D, wanted: &str) -> Result<(), Fail> {
    let shown = format!(in alloc; "{value:?}")?;
    want(shown.as_str() == wanted, wanted)
}

fn lends_and_shows(alloc: Global, list: &RowList) -> Result<(), Fail> {
    lends_its_rows(alloc, list)?;
    shows(alloc, list, "RowList { len: 26, .. }")
}

#[test]
fn a_list_lends_the_rows_of_its_file(rt: HostRuntime) -> Result<(), Fail> {
    let list = list_of(rt.alloc(), V1_DATA)?;
    lends_and_shows(rt.alloc(), &list)
}

#[test]
fn exclusions_show_how_many_ranges_they_have(rt: HostRuntime) -> Result<(), Fail> {
    let exclusions = exclusions_of(rt.alloc(), b"0958..095F\n2ADC\n", 4096)?;
    shows(rt.alloc(), &exclusions, "Exclusions { ranges: 2, .. }")
}

fn has_no_row(list: &RowList) -> Result<(), Fail> {
    want(list.is_empty() && list.len() == 0, "no row")?;
    want(list.get(0).is_none(), "none at the first place")
}

#[test]
fn a_list_of_no_rows_is_empty(rt: HostRuntime) -> Result<(), Fail> {
    let list = list_of(rt.alloc(), "")?;
    has_no_row(&list)
}

fn fault_of(alloc: Global, text: &str) -> Option<UcdFault> {
    list_of(alloc, text).err()
}

#[test]
fn a_faulty_file_has_no_list(rt: HostRuntime) -> Result<(), Fail> {
    let fault = fault_of(rt.alloc(), "0041;X;Lu;0;L;;;;;N;;;;");
    want(
        fault == Some(UcdFault::FieldCount { line: 1 }),
        "too few fields",
    )
}

/// The list made of rows, of its file where memory was refused to the first one.
fn made_again(alloc: Global) -> Result<RowList, Fail> {
    let rows = rows_of(alloc, V1_DATA.as_bytes(), 4096)?;
    match RowList::of_rows(alloc, rows) {
        Ok(list) => Ok(list),
        Err(_refused) => Ok(list_of(alloc, V1_DATA)?),
    }
}

#[test]
fn a_refused_of_rows_succeeds_after_all(rt: HostRuntime) -> Result<(), Fail> {
    let list = made_again(rt.alloc())?;
    lends_the_first_fixture(&list)
}

fn list_again(alloc: Global) -> Result<RowList, UcdFault> {
    match list_of(alloc, V1_DATA) {
        Err(UcdFault::Memory) => list_of(alloc, V1_DATA),
        answer => answer,
    }
}

#[test]
fn a_refused_read_row_list_succeeds_after_all(rt: HostRuntime) -> Result<(), Fail> {
    let list = list_again(rt.alloc())?;
    lends_the_first_fixture(&list)
}
