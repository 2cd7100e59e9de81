//! The two files of a version, read and built.
ghost use Rattle.std.specs.Prelude.{◌≡◌, ◌⊎◌, IfOk, IfErr};
ghost use Rattle.np_jobs.specs.Streams.{stream_of};
ghost use Rattle.np_jobs.specs.Versions.{IsTablesFault, IsVersionFault, WasBuilt};
ghost use Rattle.np_jobs.specs.Wraps.{Wraps};
ghost use Rattle.np_jobs.specs.Versions.{IsFaultOver, WasBuiltOver};
ghost use Rattle.np_versions.specs.TableFaults.{IsFaultless};

use crate::faults::VersionFault;
use np_code_points::Memory;
use np_code_points::watched::Watched;
use np_tables::PageTable;
use np_ucd::{Exclusions, RowList, read_exclusions, read_row_list};
use np_versions::{NormTable, TableFault, Version};
use std::alloc::Global;
use std::io::Read;

/// The version of rows and exclusions.
fn version_of(
    alloc: Global,
    version: usize,
    rows: RowList,
    exclusions: Exclusions,
) -> Result<Version, VersionFault>
    ensures version { IfOk result (λ v. v ≡ record { entries = rows; exclusions = exclusions }) }
    ensures faultless { IfOk result IsFaultless }
    ensures refused { IfErr result (Wraps (VersionFault.Tables version) (IsTablesFault (record { entries = rows; exclusions = exclusions }))) }
{
    match Version::of_list(alloc, rows, exclusions) {
        Ok(built) => Ok(built),
        Err(fault) => Err(VersionFault::Tables { version, fault }),
    }
}

/// Reads the exclusions file of a version of which the rows are there, and builds it. The version has a number, from 0,
/// which the fault tells.
///
/// # Errors
///
/// `Exclusions` where the exclusions file is refused; `Tables` where the version has a fault. Want of memory is told as
/// a fault of what it was wanted for.
pub fn version_over<R: Read>(
    alloc: Global,
    version: usize,
    rows: RowList,
    exclusions_file: &mut Watched<R>,
) -> Result<Version, VersionFault>
    ensures built { IfOk result (WasBuiltOver rows (stream_of R.remaining exclusions_file.old exclusions_file.new)) }
    ensures refused { IfErr result (IsFaultOver version rows (stream_of R.remaining exclusions_file.old exclusions_file.new)) }
{
    match read_exclusions(alloc, exclusions_file) {
        Ok(exclusions) => version_of(alloc, version, rows, exclusions),
        Err(fault) => Err(VersionFault::Exclusions { version, fault }),
    }
}

/// Reads the two files of a version, the data first, and builds it. The version has a number, from
/// 0, which the fault tells.
///
/// # Errors
///
/// `Data` where the data file is refused, and then the exclusions are not looked at; `Exclusions`
/// where the exclusions file is; `Tables` where the version has a fault. Want of memory is told as
/// a fault of what it was wanted for.
pub fn read_version<R: Read>(
    alloc: Global,
    version: usize,
    data_file: &mut Watched<R>,
    exclusions_file: &mut Watched<R>,
) -> Result<Version, VersionFault>
    ensures built { IfOk result (WasBuilt (stream_of R.remaining data_file.old data_file.new)
        (stream_of R.remaining exclusions_file.old exclusions_file.new)) }
    ensures refused { IfErr result (IsVersionFault version (stream_of R.remaining data_file.old data_file.new)
        (stream_of R.remaining exclusions_file.old exclusions_file.new)) }
{
    exclusions_file.clear();
    match read_row_list(alloc, data_file) {
        Ok(rows) => version_over(alloc, version, rows, exclusions_file),
        Err(fault) => Err(VersionFault::Data { version, fault }),
    }
}

/// A table that is made of a version. The jobs own their table by this bound alone: a proof of what owns a table of
/// pages looks at each of its parts, and takes many times as long.
pub trait MadeTable: NormTable + Drop {
    /// The table of the version.
    ///
    /// # Errors
    ///
    /// `Memory` where memory ran out.
    fn of(alloc: Global, version: Version) -> Result<Self, Memory>
        ensures { IfOk result (λ table. Self.model table ≡ version) };
}

/// The table of the jobs.
pub type JobTable = PageTable;

impl MadeTable for PageTable {
    fn of(alloc: Global, version: Version) -> Result<PageTable, Memory> {
        PageTable::new(alloc, version)
    }
}

/// Makes a table over a version. The version has a number, from 0, which the fault tells.
///
/// # Errors
///
/// `Tables` with want of memory.
pub fn table_of<T: MadeTable>(
    alloc: Global,
    version: usize,
    built: Version,
) -> Result<T, VersionFault>
    ensures table { IfOk result (λ table. T.model table ≡ built) }
    ensures memory { IfErr result (λ fault. fault ≡ VersionFault.Tables version TableFault.Memory) }
{
    match T::of(alloc, built) {
        Ok(table) => Ok(table),
        Err(_) => Err(VersionFault::Tables {
            version,
            fault: TableFault::Memory,
        }),
    }
}

/// Reads the two files of a version, builds it, and makes a table over it.
///
/// # Errors
///
/// As `read_version`; want of memory for the table is a fault of the tables.
pub fn read_table_of<T: MadeTable, R: Read>(
    alloc: Global,
    version: usize,
    data_file: &mut Watched<R>,
    exclusions_file: &mut Watched<R>,
) -> Result<T, VersionFault>
    ensures built { IfOk result (λ table. WasBuilt
        (stream_of R.remaining data_file.old data_file.new) (stream_of R.remaining exclusions_file.old exclusions_file.new) (T.model table)) }
    ensures refused { IfErr result (IsVersionFault version (stream_of R.remaining data_file.old data_file.new)
        (stream_of R.remaining exclusions_file.old exclusions_file.new)) }
{
    let built = read_version(alloc, version, data_file, exclusions_file)?;
    table_of(alloc, version, built)
}
