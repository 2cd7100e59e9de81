//! The three files of a version, read and built.
ghost use Rattle.std.specs.Prelude.{◌≡◌, IfOk, IfErr, OnOk};
ghost use Rattle.np_caseless_job.specs.FoldedVersions.{HasFoldings, IsFoldedFault, WasFolded, WasFoldingRefused, folded_readers_of};
ghost use Rattle.np_caseless_job.specs.inside.FoldingSteps.{IsFaultIn, IsFaultOverBytes, WasFoldedOver};
ghost use Rattle.np_jobs.specs.Streams.{WasRead, stream_of};
ghost use Rattle.np_jobs.specs.Versions.{HasRows, IsFaultOver, IsVersionFault, WasBuilt, WasBuiltOver, WasRefused};
ghost use Rattle.np_jobs.specs.Wraps.{Wraps};
ghost use Rattle.np_ucd.specs.AllRows.{AreAllRows};
ghost use Rattle.np_ucd.specs.FirstFaults.{HasNoFault, IsFirstFault};

use crate::faults::FoldedFault;
use crate::files::OpenFiles;
use np_caseless::{ConditionFault, FoldedTable};
use np_code_points::input::{InputFault, read_whole};
use np_code_points::watched::Watched;
use np_foldings::{Foldings, lowercases_of, read_foldings};
use np_jobs::{MadeTable, VersionFault, table_of, version_over};
use np_ucd::{RowList, UcdFault, read_row_list};
use std::alloc::Global;
use std::io::Read;

/// The bytes of a data file.
fn read_data_file<R: Read>(alloc: Global, data_file: &mut Watched<R>) -> Result<Vec<u8>, UcdFault>
    ensures read { IfOk result (λ bytes. WasRead (stream_of R.remaining data_file.old data_file.new) bytes.items) }
    ensures refused { IfErr result (WasRefused IsFirstFault (stream_of R.remaining data_file.old data_file.new)) }
{
    match read_whole(alloc, data_file) {
        Ok(bytes) => Ok(bytes),
        Err(InputFault::TooLarge) => Err(UcdFault::TooLarge),
        Err(InputFault::ReadFailed) => Err(UcdFault::ReadFailed),
        Err(InputFault::Memory) => Err(UcdFault::Memory),
    }
}

/// The rows of the bytes of a data file. Bytes in memory don't fail to be read, and aren't too large: else it would be told as
/// want of memory.
fn rows_in(alloc: Global, bytes: &[u8]) -> Result<RowList, UcdFault>
    ensures faultless { OnOk result (HasNoFault bytes.now) }
    ensures rows { IfOk result (AreAllRows bytes.now) }
    ensures refused { IfErr result (IsFaultIn bytes.now) }
{
    match read_row_list(alloc, &mut Watched::new(bytes)) {
        Ok(rows) => Ok(rows),
        Err(fault) => match fault.line() {
            Some(_line) => Err(fault),
            None => Err(UcdFault::Memory),
        },
    }
}

/// Reads a data file: its bytes, and its rows.
fn read_data<R: Read>(
    alloc: Global,
    data_file: &mut Watched<R>,
) -> Result<(Vec<u8>, RowList), UcdFault>
    ensures read { IfOk result (λ both. WasRead (stream_of R.remaining data_file.old data_file.new) both.0.items) }
    ensures rows { IfOk result (λ both. HasRows (stream_of R.remaining data_file.old data_file.new) both.1) }
    ensures refused { IfErr result (WasRefused IsFirstFault (stream_of R.remaining data_file.old data_file.new)) }
{
    let bytes = match read_data_file(alloc, data_file) {
        Ok(bytes) => bytes,
        Err(fault) => return Err(fault),
    };
    match rows_in(alloc, bytes.as_slice()) {
        Ok(rows) => Ok((bytes, rows)),
        Err(fault) => Err(fault),
    }
}

/// Reads the exclusions file of a version of which the rows are there, and makes a table over the version.
fn table_over<T: MadeTable, R: Read>(
    alloc: Global,
    version: usize,
    rows: RowList,
    exclusions_file: &mut Watched<R>,
) -> Result<T, VersionFault>
    ensures built { IfOk result (λ table. WasBuiltOver rows (stream_of R.remaining exclusions_file.old exclusions_file.new) (T.model table)) }
    ensures refused { IfErr result (IsFaultOver version rows (stream_of R.remaining exclusions_file.old exclusions_file.new)) }
{
    let built = version_over(alloc, version, rows, exclusions_file)?;
    table_of(alloc, version, built)
}

/// Reads the first two files of a version, and makes a table over it. Keeps the bytes of the data file.
fn read_version_and_bytes<T: MadeTable, R: Read>(
    alloc: Global,
    version: usize,
    data_file: &mut Watched<R>,
    exclusions_file: &mut Watched<R>,
) -> Result<(Vec<u8>, T), VersionFault>
    ensures read { IfOk result (λ both. WasRead (stream_of R.remaining data_file.old data_file.new) both.0.items) }
    ensures built { IfOk result (λ both. WasBuilt (stream_of R.remaining data_file.old data_file.new)
        (stream_of R.remaining exclusions_file.old exclusions_file.new) (T.model both.1)) }
    ensures refused { IfErr result (IsVersionFault version (stream_of R.remaining data_file.old data_file.new)
        (stream_of R.remaining exclusions_file.old exclusions_file.new)) }
{
    exclusions_file.clear();
    match read_data(alloc, data_file) {
        Ok((bytes, rows)) => {
            let table: T = table_over(alloc, version, rows, exclusions_file)?;
            Ok((bytes, table))
        }
        Err(fault) => Err(VersionFault::Data { version, fault }),
    }
}

/// Reads the foldings of a version.
fn read_folding_file<R: Read>(
    alloc: Global,
    version: usize,
    folding_file: &mut Watched<R>,
) -> Result<Foldings, FoldedFault>
    ensures read { IfOk result (HasFoldings (stream_of R.remaining folding_file.old folding_file.new)) }
    ensures refused { IfErr result (Wraps (FoldedFault.Folding version) (WasFoldingRefused (stream_of R.remaining folding_file.old folding_file.new))) }
{
    match read_foldings(alloc, folding_file) {
        Ok(foldings) => Ok(foldings),
        Err(fault) => Err(FoldedFault::Folding { version, fault }),
    }
}

/// Holds foldings against the version of a table, and against the lowercases of its data file.
fn fold_table<T: MadeTable>(
    alloc: Global,
    bytes: &[u8],
    table: T,
    foldings: Foldings,
) -> Result<FoldedTable<T>, ConditionFault>
    ensures folded { IfOk result (WasFoldedOver bytes.now (T.model table) foldings) }
    ensures refused { IfErr result (IsFaultOverBytes bytes.now (T.model table) foldings) }
{
    let Ok(lowercases) = lowercases_of(alloc, bytes) else {
        return Err(ConditionFault::Memory);
    };
    FoldedTable::build(alloc, table, foldings, lowercases.as_slice())
}

/// Reads the three files of a version, makes a table over it and holds its foldings against it. The version has a number,
/// from 0, which the fault tells.
///
/// # Errors
///
/// `Version` where the first two files make no version, and then the third is not looked at; `Folding` where the third is
/// refused; `Condition` where the version has a fault with its foldings. Want of memory is told as a fault of what it was
/// wanted for.
pub fn read_folded<T: MadeTable, R: Read>(
    alloc: Global,
    version: usize,
    files: &mut OpenFiles<R>,
) -> Result<FoldedTable<T>, FoldedFault>
    ensures folded { IfOk result (WasFolded (folded_readers_of R.remaining files.old files.new)) }
    ensures refused { IfErr result (IsFoldedFault version (folded_readers_of R.remaining files.old files.new)) }
{
    files.folding_file.clear();
    let (bytes, table) = read_version_and_bytes::<T, R>(
        alloc,
        version,
        &mut files.data_file,
        &mut files.exclusions_file,
    )?;
    let foldings = read_folding_file(alloc, version, &mut files.folding_file)?;
    match fold_table(alloc, bytes.as_slice(), table, foldings) {
        Ok(folded) => Ok(folded),
        Err(fault) => Err(FoldedFault::Condition { version, fault }),
    }
}
