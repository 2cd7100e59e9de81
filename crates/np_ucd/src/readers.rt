//! The readers of both files.
ghost use Rattle.std.specs.Prelude.{◌≡◌, ◌↔◌, ℕ, List, None, true, IfOk, IfErr};
ghost use Rattle.np_code_points.specs.Inputs.{IsReadWhole};
ghost use Rattle.np_code_points.specs.Watched.{device_of, has_failed};
ghost use Rattle.np_ucd.specs.AllRows.{AreAllRows};
ghost use Rattle.np_ucd.specs.Exclusions.{AreReadable, IsFirstBadLine, IsListedIn};
ghost use Rattle.np_ucd.specs.FirstFaults.{HasNoFault, IsFirstFault};
ghost use Rattle.np_ucd.specs.Listed.{is_listed};
ghost use Rattle.np_ucd.specs.Reading.{IsRefused};
ghost use Rattle.np_ucd.specs.inside.ExclusionReading.{exclusions_fault, spans_in};
ghost use Rattle.np_ucd.specs.inside.FileReading.{first_fault, rows_in};
ghost use Rattle.np_ucd.specs.inside.RecordValues.{IsUnread, Names};

use crate::data::{row_list_of, rows_of};
use crate::exclusions::Exclusions;
use crate::faults::UcdFault;
use crate::row_list::RowList;
use crate::rows::Rows;
use crate::spans::exclusions_of;
use np_code_points::input::{InputFault, read_whole};
use np_code_points::watched::Watched;
use std::alloc::Global;
use std::io::Read;

/// The bytes of a file.
fn read_file<R: Read>(alloc: Global, source: &mut Watched<R>) -> Result<Vec<u8>, UcdFault>
    ensures read { IfOk result (λ v. IsReadWhole (R.remaining (device_of source.old)) (R.remaining (device_of source.new)) v.items) }
    ensures refused { IfErr result (IsUnread (R.remaining (device_of source.old)) (R.remaining (device_of source.new))) }
    ensures failed { result ≡ Err UcdFault.ReadFailed ↔ (has_failed source.new ≡ true) }
{
    match read_whole(alloc, source) {
        Ok(bytes) => Ok(bytes),
        Err(InputFault::TooLarge) => Err(UcdFault::TooLarge),
        Err(InputFault::ReadFailed) => Err(UcdFault::ReadFailed),
        Err(InputFault::Memory) => Err(UcdFault::Memory),
    }
}

/// Reads UnicodeData.txt (UAX #44): to its end before a line is judged, or to its 16,777,217th
/// byte. In time linear in the bytes, with memory for them and for the rows.
///
/// # Errors
///
/// The fault of the least faulty line, and there of the first test that fits, each as `UcdFault`
/// says; `RangeOpen` at the last record's line where nothing else is wrong and it begins a range.
/// `TooLarge` where 16,777,217 bytes were read, `ReadFailed` where the device failed, `Memory` in
/// place of any answer.
pub fn read_rows<R: Read>(alloc: Global, source: &mut Watched<R>) -> Result<Rows, UcdFault>
    // all bytes were read, which have no fault, and these are their rows
    ensures rows { IfOk result (λ rows. (bytes : List ℕ)
        × IsReadWhole (R.remaining (device_of source.old)) (R.remaining (device_of source.new)) bytes
        × HasNoFault bytes × AreAllRows bytes rows) }
    ensures refused { IfErr result (IsRefused IsFirstFault (R.remaining (device_of source.old)) (R.remaining (device_of source.new))) }
    ensures failed { result ≡ Err UcdFault.ReadFailed ↔ (has_failed source.new ≡ true) }
    // the same as functions of the bytes
    ensures same_rows { IfOk result (λ rows. (bytes : List ℕ)
        × IsReadWhole (R.remaining (device_of source.old)) (R.remaining (device_of source.new)) bytes
        × (first_fault bytes ≡ None) × (rows ≡ rows_in bytes)) }
    ensures same_fault { IfErr result (IsRefused (Names first_fault) (R.remaining (device_of source.old)) (R.remaining (device_of source.new))) }
{
    let bytes = read_file(alloc, source)?;
    rows_of(alloc, bytes.as_slice())
}

/// Reads UnicodeData.txt as [`read_rows`] does, into a list that is kept small.
///
/// # Errors
///
/// Those of [`read_rows`].
pub fn read_row_list<R: Read>(alloc: Global, source: &mut Watched<R>) -> Result<RowList, UcdFault>
    // all bytes were read, which have no fault, and these are their rows
    ensures rows { IfOk result (λ rows. (bytes : List ℕ)
        × IsReadWhole (R.remaining (device_of source.old)) (R.remaining (device_of source.new)) bytes
        × HasNoFault bytes × AreAllRows bytes rows) }
    ensures refused { IfErr result (IsRefused IsFirstFault (R.remaining (device_of source.old)) (R.remaining (device_of source.new))) }
    ensures failed { result ≡ Err UcdFault.ReadFailed ↔ (has_failed source.new ≡ true) }
    // the same as functions of the bytes
    ensures same_rows { IfOk result (λ rows. (bytes : List ℕ)
        × IsReadWhole (R.remaining (device_of source.old)) (R.remaining (device_of source.new)) bytes
        × (first_fault bytes ≡ None) × (rows ≡ rows_in bytes)) }
    ensures same_fault { IfErr result (IsRefused (Names first_fault) (R.remaining (device_of source.old)) (R.remaining (device_of source.new))) }
{
    let bytes = read_file(alloc, source)?;
    row_list_of(alloc, bytes.as_slice())
}

/// Reads CompositionExclusions.txt (UAX #44): to its end before a line is judged, or to its
/// 16,777,217th byte. In time `n log n` in the bytes, with memory for them and for one listing a
/// line.
///
/// # Errors
///
/// `BadCode` at the first line that is no code point and no range of them. `TooLarge` where
/// 16,777,217 bytes were read, `ReadFailed` where the device failed, `Memory` in place of any
/// answer.
pub fn read_exclusions<R: Read>(
    alloc: Global,
    source: &mut Watched<R>,
) -> Result<Exclusions, UcdFault>
    // all bytes were read, each line can be read, and these are the code points that they list
    ensures listed { IfOk result (λ e. (bytes : List ℕ)
        × IsReadWhole (R.remaining (device_of source.old)) (R.remaining (device_of source.new)) bytes
        × AreReadable bytes × ((code : ℕ) → (is_listed e code ≡ true) ↔ IsListedIn bytes code)) }
    ensures refused { IfErr result (IsRefused IsFirstBadLine (R.remaining (device_of source.old)) (R.remaining (device_of source.new))) }
    ensures failed { result ≡ Err UcdFault.ReadFailed ↔ (has_failed source.new ≡ true) }
    // the same as functions of the bytes
    ensures same_listed { IfOk result (λ e. (bytes : List ℕ)
        × IsReadWhole (R.remaining (device_of source.old)) (R.remaining (device_of source.new)) bytes
        × (exclusions_fault bytes ≡ None) × ((code : ℕ) → is_listed e code ≡ is_listed (spans_in bytes) code)) }
    ensures same_fault { IfErr result (IsRefused (Names exclusions_fault) (R.remaining (device_of source.old)) (R.remaining (device_of source.new))) }
{
    let bytes = read_file(alloc, source)?;
    exclusions_of(alloc, bytes.as_slice())
}
