//! The files of a chain's versions, read and built.
ghost use Rattle.std.specs.Prelude.{◌≡◌, ◌+◌, ◌*◌, ◌<◌, length, map, IfOk, IfErr};
ghost use Rattle.np_jobs.specs.Chains.{LacksOne, WereBuilt, readers_of};
ghost use Rattle.np_jobs.specs.Versions.{IsVersionFault, WasBuilt};
ghost use Rattle.np_jobs.specs.inside.ChainSteps.{AreClear, AreClearedUpTo, IsReadAt};

use crate::faults::VersionFault;
use crate::versions::{MadeTable, read_table_of};
use np_code_points::watched::Watched;
use np_versions::TableFault;
use std::alloc::Global;
use std::io::Read;

/// Takes the marks away.
fn clear_all<F>(files: &mut [Watched<F>])
    ensures { AreClearedUpTo (length files.old) files.old files.new }
{
    for file in files.iter_mut() {
        file.clear();
    }
}

/// Reads the two files of the version of this number, and builds it.
fn read_at<T: MadeTable, F: Read>(
    alloc: Global,
    number: usize,
    files: &mut [Watched<F>],
) -> Result<T, VersionFault>
    requires { 2 * number + 1 < length files.old }
    ensures built { IfOk result (λ table. IsReadAt F.remaining (λ data_file exclusions_file. WasBuilt data_file exclusions_file (T.model table)) number
        files.old files.new) }
    ensures refused { IfErr result (λ fault. IsReadAt F.remaining
        (λ data_file exclusions_file. IsVersionFault number data_file exclusions_file fault) number files.old files.new) }
{
    let (front, behind) = files.split_at_mut(2 * number + 1);
    read_table_of(alloc, number, &mut front[2 * number], &mut behind[0])
}

/// Want of memory for the table of the version of this number.
fn want_of_memory(number: usize) -> VersionFault
    ensures { result ≡ VersionFault.Tables number TableFault.Memory }
{
    VersionFault::Tables {
        version: number,
        fault: TableFault::Memory,
    }
}

/// Reads the files of all versions, none of which has failed.
fn read_each<T: MadeTable, F: Read>(
    alloc: Global,
    files: &mut [Watched<F>],
) -> Result<Vec<T>, VersionFault>
    requires { AreClear files.old }
    ensures built { IfOk result (λ tables. WereBuilt (readers_of F.remaining files.old files.new) (map T.model tables.items)) }
    ensures refused { IfErr result (LacksOne (readers_of F.remaining files.old files.new)) }
{
    let mut tables = Vec::new(alloc);
    for number in 0..files.len() / 2 {
        let table = read_at(alloc, number, files)?;
        match tables.push(table) {
            Ok(()) => {}
            Err(_) => return Err(want_of_memory(number)),
        }
    }
    Ok(tables)
}

/// Reads the files of versions, two for each, and makes a table over each, in their order. Versions are
/// numbered from 0. A file at the end without a second one makes no version.
///
/// # Errors
///
/// That of the first version that is refused; the files behind it are not looked at. `Data` where its data
/// file is refused; `Exclusions` where its exclusions file is; `Tables` where it has a fault. Want of memory
/// is told as a fault of what it was wanted for, of the tables where that is a table.
pub fn read_tables<T: MadeTable, F: Read>(
    alloc: Global,
    files: &mut [Watched<F>],
) -> Result<Vec<T>, VersionFault>
    ensures built { IfOk result (λ tables. WereBuilt (readers_of F.remaining files.old files.new) (map T.model tables.items)) }
    ensures refused { IfErr result (LacksOne (readers_of F.remaining files.old files.new)) }
{
    clear_all(files);
    read_each(alloc, files)
}
