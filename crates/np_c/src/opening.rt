//! The table of two files, from their bytes.
ghost use Rattle.std.specs.Prelude.{◌≡◌, ◌↔◌, ℕ, true, Some, None, IfOk, IfErr};
ghost use Rattle.std.specs.Arc.{arc_value};
ghost use Rattle.np_ucd.specs.AllRows.{AreAllRows};
ghost use Rattle.np_ucd.specs.Exclusions.{AreReadable, IsFirstBadLine, IsListedIn};
ghost use Rattle.np_ucd.specs.FirstFaults.{HasNoFault, IsFirstFault};
ghost use Rattle.np_ucd.specs.Listed.{is_listed};
ghost use Rattle.np_c.specs.Files.{Fits, IsFileRefused, IsNoVersion, IsVersionOf};
ghost use Rattle.np_versions.specs.Versions.{VersionData};
ghost use Rattle.np_c.specs.Foldings.{folded_in, folded_shared};
ghost use Rattle.np_c.specs.Versions.{version_in};

use crate::answers::{Answer, DATA, EXCLUSIONS, MEMORY};
use crate::content::Content;
use crate::fault_answers::{of_file, of_tables};
use crate::shared::Shared;
use np_code_points::Memory;
use np_code_points::watched::Watched;
use np_tables::PageTable;
use np_ucd::{Exclusions, RowList, read_exclusions, read_row_list};
use np_versions::Version;
use std::alloc::Global;

/// The data file is the first, and the exclusions file the second.
const FIRST: u32 = 1;

const SECOND: u32 = 2;

/// The rows of a data file.
fn rows_in(alloc: Global, bytes: &[u8]) -> Result<RowList, Answer>
    ensures fits { IfOk result (λ _. Fits bytes.now) }
    ensures rows { IfOk result (λ rows. HasNoFault bytes.now × AreAllRows bytes.now rows) }
    ensures refused { IfErr result (IsFileRefused 7 1 IsFirstFault bytes.now) }
{
    match read_row_list(alloc, &mut Watched::new(bytes)) {
        Ok(rows) => Ok(rows),
        Err(fault) => Err(of_file(DATA, FIRST, fault)),
    }
}

/// What an exclusions file lists.
fn listed_in(alloc: Global, bytes: &[u8]) -> Result<Exclusions, Answer>
    ensures fits { IfOk result (λ _. Fits bytes.now) }
    ensures listed { IfOk result (λ e. AreReadable bytes.now × ((c : ℕ) → (is_listed e c ≡ true) ↔ IsListedIn bytes.now c)) }
    ensures refused { IfErr result (IsFileRefused 8 2 IsFirstBadLine bytes.now) }
{
    match read_exclusions(alloc, &mut Watched::new(bytes)) {
        Ok(listed) => Ok(listed),
        Err(fault) => Err(of_file(EXCLUSIONS, SECOND, fault)),
    }
}

/// The version of two files.
///
/// # Errors
///
/// The answer that tells why there is none.
pub fn version_of(
    alloc: Global,
    data_file: &[u8],
    exclusions_file: &[u8],
) -> Result<Version, Answer>
    ensures version { IfOk result (IsVersionOf data_file.now exclusions_file.now) }
    ensures refused { IfErr result (IsNoVersion data_file.now exclusions_file.now) }
{
    let rows = match rows_in(alloc, data_file) {
        Ok(rows) => rows,
        Err(answer) => return Err(answer),
    };
    let listed = match listed_in(alloc, exclusions_file) {
        Ok(listed) => listed,
        Err(answer) => return Err(answer),
    };
    match Version::of_list(alloc, rows, listed) {
        Ok(version) => Ok(version),
        Err(fault) => Err(of_tables(fault)),
    }
}

/// The first owner of the table of a version, without foldings.
///
/// # Errors
///
/// `Memory` where memory ran out.
pub fn shared_over(alloc: Global, version: Version) -> Result<Shared, Memory>
    ensures table { IfOk result (λ s. arc_value s.table ≡ version) }
    ensures unfolded { IfOk result (λ s. s.folded ≡ None) }
{
    let table = PageTable::new(alloc, version)?;
    Shared::new(alloc, table)
}

/// The table of a version, shared, in a box.
fn boxed(alloc: Global, version: Version) -> Result<Box<Content>, Memory>
    ensures version { IfOk result (λ b. version_in (Some b.value) ≡ Some version) }
    ensures unfolded { IfOk result (λ b. folded_in (Some b.value) ≡ None) }
{
    Content::of_table(alloc, shared_over(alloc, version)?)
}

/// One more owner of a table, in a box of its own.
///
/// # Errors
///
/// `Memory` where memory ran out, or the table has too many owners.
pub fn another_of(alloc: Global, shared: &Shared) -> Result<Box<Content>, Memory>
    ensures version { IfOk result (λ b. version_in (Some b.value) ≡ Some (arc_value shared.now.table)) }
    ensures folded { IfOk result (λ b. folded_in (Some b.value) ≡ folded_shared (Some shared.now)) }
{
    Content::of_table(alloc, shared.another(alloc)?)
}

/// The shared table of two files, in a box.
///
/// # Errors
///
/// The answer that tells why there is none.
pub fn shared_of(
    alloc: Global,
    data_file: &[u8],
    exclusions_file: &[u8],
) -> Result<Box<Content>, Answer>
    ensures version { IfOk result (λ b. (v : VersionData) × (version_in (Some b.value) ≡ Some v) × IsVersionOf data_file.now exclusions_file.now v) }
    ensures unfolded { IfOk result (λ b. folded_in (Some b.value) ≡ None) }
    ensures refused { IfErr result (IsNoVersion data_file.now exclusions_file.now) }
{
    let version = match version_of(alloc, data_file, exclusions_file) {
        Ok(version) => version,
        Err(answer) => return Err(answer),
    };
    match boxed(alloc, version) {
        Ok(shared) => Ok(shared),
        Err(_) => Err(Answer::of(MEMORY)),
    }
}
