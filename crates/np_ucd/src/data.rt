//! UnicodeData.txt as a whole.
ghost use Rattle.std.specs.Prelude.{◌≡◌, ◌++◌, [], map, option_map, IfOk, IfErr, OnOk, None};
ghost use Rattle.np_ucd.specs.RowValues.{entry_of};
ghost use Rattle.np_ucd.specs.inside.FileReading.{end_fault, first_fault, rows_in};
ghost use Rattle.np_ucd.specs.inside.RecordReading.{neighbour_of, record_fault, record_rows};
ghost use Rattle.np_ucd.specs.inside.RecordValues.{neighbour_value, IsMemoryOr};

use crate::faults::UcdFault;
use crate::kept_rows::KeptRows;
use crate::records::{Neighbour, Record, read_record};
use crate::row_list::{RowList, owned};
use crate::rows::{Row, Rows};
use np_code_points::Memory;
use np_code_points::lines::{DataLine, DataLines};
use std::alloc::Global;

/// The fewest bytes of a record with its LF: a code of four digits, a category, a class, and the
/// fourteen `;` between its fields.
const SHORTEST: usize = 22;

/// Reads a record behind the record before, adds its row, unless it is the first one of a range,
/// and answers what the next record is held against.
fn take_record(
    alloc: Global,
    rows: &mut KeptRows,
    before: Option<Neighbour>,
    line: DataLine<'_>,
) -> Result<Neighbour, UcdFault>
    ensures fine { OnOk result (record_fault (option_map neighbour_value before) line.entry.number line.entry.text.now ≡ None) }
    ensures next { IfOk result (λ n. neighbour_value n ≡ neighbour_of line.entry.number line.entry.text.now) }
    ensures rows { OnOk result (rows.new ≡ rows.old ++ record_rows (option_map neighbour_value before) line.entry.text.now) }
    ensures fault { IfErr result (λ e. IsMemoryOr (record_fault (option_map neighbour_value before) line.entry.number line.entry.text.now) e) }
{
    let Record { neighbour, row } = read_record(alloc, before, line.number, line.text)?;
    if !neighbour.opens {
        rows.push(&row)?;
    }
    Ok(neighbour)
}

/// The fault of a file that ends behind this record.
fn open_range(last: Option<Neighbour>) -> Option<UcdFault>
    ensures { result ≡ end_fault (option_map neighbour_value last) }
{
    match last {
        Some(last) if last.opens => Some(UcdFault::RangeOpen { line: last.line }),
        _ => None,
    }
}

/// Reads the rows of a file's bytes, or finds its first fault.
fn take_rows(alloc: Global, rows: &mut KeptRows, bytes: &[u8]) -> Result<(), UcdFault>
    requires { rows.old ≡ [] }
    ensures fine { OnOk result (first_fault bytes.now ≡ None) }
    ensures rows { OnOk result (rows.new ≡ rows_in bytes.now) }
    ensures fault { IfErr result (λ e. IsMemoryOr (first_fault bytes.now) e) }
{
    let mut before: Option<Neighbour> = None;
    for line in DataLines::new(bytes) {
        before = Some(take_record(alloc, rows, before, line)?);
    }
    match open_range(before) {
        Some(fault) => Err(fault),
        None => Ok(()),
    }
}

/// The rows of a file's bytes, as they are kept, or its first fault, or `Memory` in place of either.
fn kept_rows_of(alloc: Global, bytes: &[u8]) -> Result<KeptRows, UcdFault>
    ensures fine { OnOk result (first_fault bytes.now ≡ None) }
    ensures rows { IfOk result (λ rows. rows ≡ rows_in bytes.now) }
    ensures fault { IfErr result (λ e. IsMemoryOr (first_fault bytes.now) e) }
{
    // room for as many rows as the bytes can hold, so that the list is not copied as it grows
    let mut rows = KeptRows::with_capacity(alloc, bytes.len() / SHORTEST + 1)?;
    take_rows(alloc, &mut rows, bytes)?;
    Ok(rows)
}

/// The same rows, each with its mapping.
fn all_owned(alloc: Global, kept: &KeptRows) -> Result<Vec<Row>, Memory>
    ensures { IfOk result (λ rows. map entry_of rows.items ≡ kept.now) }
{
    let mut rows = Vec::with_capacity(alloc, kept.len())?;
    for at in 0..kept.len() {
        if let Some(row) = kept.get(at) {
            rows.push(owned(alloc, row)?)?;
        }
    }
    Ok(rows)
}

/// The rows of a file's bytes, or its first fault, or `Memory` in place of either.
pub(crate) fn rows_of(alloc: Global, bytes: &[u8]) -> Result<Rows, UcdFault>
    ensures fine { OnOk result (first_fault bytes.now ≡ None) }
    ensures rows { IfOk result (λ rows. rows ≡ rows_in bytes.now) }
    ensures fault { IfErr result (λ e. IsMemoryOr (first_fault bytes.now) e) }
{
    let kept = kept_rows_of(alloc, bytes)?;
    let rows = all_owned(alloc, &kept)?;
    Ok(Rows::from_rows(rows))
}

/// The rows of a file's bytes, kept small, or its first fault, or `Memory` in place of either.
pub(crate) fn row_list_of(alloc: Global, bytes: &[u8]) -> Result<RowList, UcdFault>
    ensures fine { OnOk result (first_fault bytes.now ≡ None) }
    ensures rows { IfOk result (λ rows. rows ≡ rows_in bytes.now) }
    ensures fault { IfErr result (λ e. IsMemoryOr (first_fault bytes.now) e) }
{
    let rows = kept_rows_of(alloc, bytes)?;
    Ok(RowList::from_kept(rows))
}
