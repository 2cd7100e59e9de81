//! Worked examples, and files that are not what they should be.
mod faults;
mod refused;
mod row_lists;

use np_code_points::watched::Watched;
use np_examples_shared::devices::{Endless, Failure, Trickle};
use np_examples_shared::fixtures::{V1_DATA, V1_EXCLUSIONS};
use np_examples_shared::{mended, want};
use np_ucd::{Exclusions, MapKind, Row, RowRef, Rows, UcdFault, read_exclusions, read_rows};
use std::alloc::Global;
use std::test::Fail;

fn rows_of(alloc: Global, text: &[u8], piece: usize) -> Result<Rows, UcdFault> {
    read_rows(alloc, &mut Watched::new(Trickle::new(text, piece)))
}

fn exclusions_of(alloc: Global, text: &[u8], piece: usize) -> Result<Exclusions, UcdFault> {
    read_exclusions(alloc, &mut Watched::new(Trickle::new(text, piece)))
}

/// Whether there is a row that begins with that code point.
fn begins_with(row: Option<&Row>, first: u32) -> bool {
    match row {
        Some(row) => row.first == first,
        None => false,
    }
}

/// Fails unless a walk over the rows meets these two.
fn walks_over(rows: &Rows, first: u32, second: u32) -> Result<(), Fail> {
    let mut walk = rows.iter();
    want(begins_with(walk.next(), first), "the first row")?;
    want(begins_with(walk.next(), second), "the second row")?;
    want(walk.next().is_none(), "no third row")
}

fn has_two_rows(rows: &Rows) -> Result<(), Fail> {
    want(rows.len() == 2 && !rows.is_empty(), "two rows")?;
    want(begins_with(rows.get(1), 0x61), "0061 is the second")?;
    want(rows.get(2).is_none(), "no third")?;
    walks_over(rows, 0x41, 0x61)
}

fn has_no_row(rows: &Rows) -> Result<(), Fail> {
    want(rows.is_empty(), "no row")?;
    want(rows.iter().next().is_none(), "none to walk over")
}

#[test]
fn an_empty_file_has_no_row(rt: HostRuntime) -> Result<(), Fail> {
    let rows = rows_of(rt.alloc(), b"", 1)?;
    has_no_row(&rows)
}

fn want_same_rows(left: &Rows, right: &Rows) -> Result<(), Fail> {
    want(left.len() == 26 && right.len() == 26, "26 rows")?;
    for at in 0..26 {
        want(left.get(at) == right.get(at), "two rows")?;
    }
    Ok(())
}

/// A row as a list lends it.
fn lent(row: Option<&Row>) -> Option<RowRef<'_>> {
    match row {
        Some(row) => Some(RowRef {
            first: row.first,
            last: row.last,
            class: row.class,
            kind: row.kind,
            mapping: row.mapping.as_slice(),
        }),
        None => None,
    }
}

fn has_rows(rows: &Rows, wanted: &[(usize, RowRef<'_>)]) -> Result<(), Fail> {
    for row in wanted {
        want(lent(rows.get(row.0)) == Some(row.1), "a row")?;
    }
    Ok(())
}

fn want_rows_by(alloc: Global, whole: &Rows, piece: usize) -> Result<(), Fail> {
    let rows = rows_of(alloc, V1_DATA.as_bytes(), piece)?;
    want_same_rows(whole, &rows)
}

fn want_pieces(alloc: Global, whole: &Rows) -> Result<(), Fail> {
    has_rows(whole, KNOWN)?;
    want_rows_by(alloc, whole, 1)?;
    want_rows_by(alloc, whole, 7)
}

#[test]
fn pieces_decide_nothing(rt: HostRuntime) -> Result<(), Fail> {
    let whole = rows_of(rt.alloc(), V1_DATA.as_bytes(), 65_536)?;
    want_pieces(rt.alloc(), &whole)
}

// (a place, the row of the first fixture there)
const KNOWN: &[(usize, RowRef<'static>)] = &[
    (
        10,
        RowRef {
            first: 0x323,
            last: 0x323,
            class: 220,
            kind: MapKind::Plain,
            mapping: &[],
        },
    ),
    (
        16,
        RowRef {
            first: 0x1100,
            last: 0x1112,
            class: 0,
            kind: MapKind::Plain,
            mapping: &[],
        },
    ),
    (
        25,
        RowRef {
            first: 0xFB01,
            last: 0xFB01,
            class: 0,
            kind: MapKind::Compatibility,
            mapping: &['f', 'i'],
        },
    ),
];

// V1's data in pieces of a line: the read of that number fails.
const CALLS: [u64; 3] = [0, 1, 30];

/// A reader of the first fixture's data, in pieces of a line.
fn failing(call: u64, failure: Failure) -> Watched<Trickle<'static>> {
    Watched::new(Trickle::new(V1_DATA.as_bytes(), 25).failing_at(call, failure))
}

fn rows_end(alloc: Global, call: u64, failure: Failure) -> Result<(), Fail> {
    let mut data = failing(call, failure);
    let fault = read_rows(alloc, &mut data).err();
    want(fault == Some(UcdFault::ReadFailed), "no end of rows")?;
    want(
        data.into_inner().calls() == call.saturating_add(1),
        "the last",
    )
}

fn exclusions_end(alloc: Global, call: u64, failure: Failure) -> Result<(), Fail> {
    let mut listed = failing(call, failure);
    let fault = read_exclusions(alloc, &mut listed).err();
    want(fault == Some(UcdFault::ReadFailed), "no end of exclusions")?;
    want(
        listed.into_inner().calls() == call.saturating_add(1),
        "the last",
    )
}

#[test]
fn a_failed_read_is_no_end_and_is_the_last(rt: HostRuntime) -> Result<(), Fail> {
    for failure in [Failure::Error, Failure::Interrupted] {
        for call in CALLS {
            rows_end(rt.alloc(), call, failure)?;
            exclusions_end(rt.alloc(), call, failure)?;
        }
    }
    Ok(())
}

/// Whether all rows are read, with no mark.
fn reads_rows(alloc: Global, data: &mut Watched<Trickle<'_>>) -> bool {
    read_rows(alloc, data).is_ok() && !data.failed()
}

/// Whether all exclusions are read, with no mark.
fn reads_exclusions(alloc: Global, listed: &mut Watched<Trickle<'_>>) -> bool {
    read_exclusions(alloc, listed).is_ok() && !listed.failed()
}

fn reads_mended_rows(alloc: Global) -> Result<(), Fail> {
    let mut data = mended(V1_DATA.as_bytes())?;
    want(reads_rows(alloc, &mut data), "rows")
}

fn reads_mended_exclusions(alloc: Global) -> Result<(), Fail> {
    let mut listed = mended(V1_EXCLUSIONS.as_bytes())?;
    want(reads_exclusions(alloc, &mut listed), "exclusions")
}

#[test]
fn an_old_failure_is_no_failure_of_this_file(rt: HostRuntime) -> Result<(), Fail> {
    reads_mended_rows(rt.alloc())?;
    reads_mended_exclusions(rt.alloc())
}

fn endless_rows(alloc: Global) -> Option<UcdFault> {
    read_rows(alloc, &mut Watched::new(Endless::new())).err()
}

fn endless_exclusions(alloc: Global) -> Option<UcdFault> {
    read_exclusions(alloc, &mut Watched::new(Endless::new())).err()
}

#[test]
fn an_endless_file_is_too_large(rt: HostRuntime) -> Result<(), Fail> {
    let too_large = Some(UcdFault::TooLarge);
    want(endless_rows(rt.alloc()) == too_large, "rows")?;
    want(endless_exclusions(rt.alloc()) == too_large, "exclusions")
}

fn lists(exclusions: &Exclusions, held: &[u32], others: &[u32]) -> Result<(), Fail> {
    for code in held {
        want(exclusions.holds(*code), "a listed one")?;
    }
    for code in others {
        want(!exclusions.holds(*code), "one that is not listed")?;
    }
    Ok(())
}

fn fault_of_list(alloc: Global, text: &[u8]) -> Option<UcdFault> {
    exclusions_of(alloc, text, 3).err()
}

#[test]
fn a_range_that_falls_is_refused(rt: HostRuntime) -> Result<(), Fail> {
    let fault = fault_of_list(rt.alloc(), b"\n0958..0950");
    want(
        fault == Some(UcdFault::BadCode { line: 2 }),
        "behind an empty line",
    )?;
    let fault = fault_of_list(rt.alloc(), b"0958..0950\n");
    want(fault == Some(UcdFault::BadCode { line: 1 }), "alone")
}
