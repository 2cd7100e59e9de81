//! The faults of two data files, of which one is told.
ghost use Rattle.std.specs.Prelude.{IfOk, MatchOption};
ghost use Rattle.np_versions.specs.TableFaults.{IsFaultless, IsLeastFault};
ghost use Rattle.np_versions.specs.inside.FirstFaults.{AreFirsts};
ghost use Rattle.np_versions.specs.CompositeLists.{AreOfFile};

use crate::ambiguity::first_ambiguous;
use crate::characters::CharacterData;
use crate::depths::depth_faults;
use crate::faults::{FirstFaults, TableFault, least_fault};
use crate::hangul_faults::first_wrong;
use crate::mapped_faults::first_lacking;
use crate::pairs::Pairs;
use np_code_points::Memory;
use std::alloc::Global;

/// The least code point with each kind of fault.
fn first_faults(
    alloc: Global,
    characters: &CharacterData,
    pairs: &Pairs,
) -> Result<FirstFaults, Memory>
    requires { AreOfFile characters.now pairs.now }
    ensures { IfOk result (AreFirsts characters.now) }
{
    let depths = depth_faults(alloc, characters)?;
    Ok(FirstFaults {
        mapped: first_lacking(characters),
        deep: depths.too_deep,
        long: depths.too_long,
        ambiguous: first_ambiguous(characters, pairs),
        hangul: first_wrong(characters),
    })
}

/// The fault at the least code point, and of those there the one with the least number; `pairs`
/// are the primary composites of the file.
pub(crate) fn fault_of(
    alloc: Global,
    characters: &CharacterData,
    pairs: &Pairs,
) -> Result<Option<TableFault>, Memory>
    requires { AreOfFile characters.now pairs.now }
    ensures { IfOk result (λ fault. MatchOption fault (IsFaultless characters.now) (IsLeastFault characters.now)) }
{
    Ok(least_fault(&first_faults(alloc, characters, pairs)?))
}
