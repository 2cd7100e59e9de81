//! The table of three files with its foldings, from their bytes.
ghost use Rattle.std.specs.Prelude.{◌≡◌, ◌⊎◌, List, Some, IfOk, IfErr};
ghost use Rattle.std.specs.Arc.{arc_value};
ghost use Rattle.np_foldings.specs.Lowercases.{AreLowercases};
ghost use Rattle.np_caseless.specs.Folded.{FoldedVersion, folded_by};
ghost use Rattle.np_c.specs.FoldingFiles.{HasFoldings, HoldsFolded, IsFoldedVersionOf, IsFoldingRefused, IsNoFoldedVersion};
ghost use Rattle.np_c.specs.Foldings.{folded_shared};
ghost use Rattle.np_c.specs.inside.FoldingSteps.{IsFoldedOver, LacksFolded};

use crate::answers::{Answer, MEMORY};
use crate::content::Content;
use crate::fault_answers::{of_condition, of_folding};
use crate::opening::{shared_over, version_of};
use crate::shared::Shared;
use crate::shared_table::SharedTable;
use np_caseless::FoldedTable;
use np_code_points::watched::Watched;
use np_foldings::{Foldings, lowercases_of, read_foldings};
use std::alloc::Global;
use std::sync::Arc;

/// The foldings of a folding file.
fn foldings_in(alloc: Global, bytes: &[u8]) -> Result<Foldings, Answer>
    ensures foldings { IfOk result (HasFoldings bytes.now) }
    ensures refused { IfErr result (IsFoldingRefused bytes.now) }
{
    match read_foldings(alloc, &mut Watched::new(bytes)) {
        Ok(foldings) => Ok(foldings),
        Err(fault) => Err(of_folding(fault)),
    }
}

/// A table with these foldings, held against the lowercases of its data file.
fn folded_over(
    alloc: Global,
    data_file: &[u8],
    table: SharedTable,
    foldings: Foldings,
) -> Result<FoldedTable<SharedTable>, Answer>
    ensures folded { IfOk result (IsFoldedOver data_file.now (folded_by (arc_value table.table) foldings)) }
    ensures refused { IfErr result (LacksFolded data_file.now (folded_by (arc_value table.table) foldings)) }
{
    let Ok(lowercases) = lowercases_of(alloc, data_file) else {
        return Err(Answer::of(MEMORY));
    };
    match FoldedTable::build(alloc, table, foldings, lowercases.as_slice()) {
        Ok(folded) => Ok(folded),
        Err(fault) => Err(of_condition(fault)),
    }
}

/// The owner of a table, with these foldings beside it.
fn fold_shared(
    alloc: Global,
    data_file: &[u8],
    shared: Shared,
    foldings: Foldings,
) -> Result<Shared, Answer>
    ensures table { IfOk result (λ s. arc_value s.table ≡ arc_value shared.table) }
    ensures folded { IfOk result (λ s. (v : FoldedVersion) × (folded_shared (Some s) ≡ Some v)
        × IsFoldedOver data_file.now (folded_by (arc_value shared.table) foldings) v) }
    ensures refused { IfErr result (LacksFolded data_file.now (folded_by (arc_value shared.table) foldings)) }
{
    let Ok(table) = Arc::try_clone(&shared.table) else {
        return Err(Answer::of(MEMORY));
    };
    let folded = match folded_over(alloc, data_file, SharedTable { table }, foldings) {
        Ok(folded) => folded,
        Err(answer) => return Err(answer),
    };
    match Arc::new(alloc, folded) {
        Ok(folded) => Ok(Shared {
            folded: Some(folded),
            ..shared
        }),
        Err(_) => Err(Answer::of(MEMORY)),
    }
}

/// The shared table of three files with its foldings, in a box.
///
/// # Errors
///
/// The answer that tells why there is none.
pub fn shared_folded_of(
    alloc: Global,
    data_file: &[u8],
    exclusions_file: &[u8],
    folding_file: &[u8],
) -> Result<Box<Content>, Answer>
    ensures version { IfOk result (λ b. (v : FoldedVersion) × HoldsFolded v (Some b.value)
        × IsFoldedVersionOf data_file.now exclusions_file.now folding_file.now v) }
    ensures refused { IfErr result (IsNoFoldedVersion data_file.now exclusions_file.now folding_file.now) }
{
    let version = match version_of(alloc, data_file, exclusions_file) {
        Ok(version) => version,
        Err(answer) => return Err(answer),
    };
    let Ok(shared) = shared_over(alloc, version) else {
        return Err(Answer::of(MEMORY));
    };
    let foldings = match foldings_in(alloc, folding_file) {
        Ok(foldings) => foldings,
        Err(answer) => return Err(answer),
    };
    let folded = match fold_shared(alloc, data_file, shared, foldings) {
        Ok(folded) => folded,
        Err(answer) => return Err(answer),
    };
    match Content::of_table(alloc, folded) {
        Ok(content) => Ok(content),
        Err(_) => Err(Answer::of(MEMORY)),
    }
}
