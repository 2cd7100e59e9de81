//! Code points that fold to what folds again.
ghost use Rattle.std.specs.Prelude.{◌≡◌, ◌↔◌, false, flat_map, IfOk, IsTrue};
ghost use Rattle.std.specs.List.{list_all};
ghost use Rattle.np_caseless.specs.Faults.{IsFoldedAgain, IsFoldedAgainBy};
ghost use Rattle.np_caseless.specs.Folded.{folded_by, is_quiet as quiet};
ghost use Rattle.np_versions.specs.Mappings.{is_final as final};
ghost use Rattle.np_versions.specs.inside.FullDecompositions.{full_of};

use crate::lent_parts::known_full;
use crate::quiet::{are_quiet, folding_of};
use np_code_points::Memory;
use np_foldings::Foldings;
use np_forms::full_decomposition;
use np_versions::NormTable;
use std::alloc::Global;
use std::slice;

/// Whether a code point has no mapping of this kind: it is its own full decomposition.
fn is_final<T: NormTable>(
    alloc: Global,
    table: &T,
    compat: bool,
    code: char,
) -> Result<bool, Memory>
    ensures { IfOk result (λ is. is ≡ final (T.model table.now) compat code) }
{
    table.meets_conditions();
    if let Some(full) = known_full(table, compat, &code) {
        return Ok(full == slice::from_ref(&code));
    }
    let full = full_decomposition(alloc, table, compat, code)?;
    Ok(full.as_slice() == slice::from_ref(&code))
}

/// Whether all code points of the full decomposition of a code point fold to themselves alone.
fn parts_are_quiet<T: NormTable>(
    alloc: Global,
    table: &T,
    foldings: &Foldings,
    compat: bool,
    code: char,
) -> Result<bool, Memory>
    ensures { IfOk result (λ are. are ≡ list_all (quiet foldings.now) (full_of (T.model table.now) compat code)) }
{
    table.meets_conditions();
    if let Some(full) = known_full(table, compat, &code) {
        return Ok(are_quiet(foldings, full));
    }
    let full = full_decomposition(alloc, table, compat, code)?;
    Ok(are_quiet(foldings, full.as_slice()))
}

/// Whether all code points of the full decompositions of these code points do.
fn all_parts_are_quiet<T: NormTable>(
    alloc: Global,
    table: &T,
    foldings: &Foldings,
    compat: bool,
    codes: &[char],
) -> Result<bool, Memory>
    ensures { IfOk result (λ are. are ≡ list_all (quiet foldings.now) (flat_map (full_of (T.model table.now) compat) codes.now)) }
{
    for code in codes {
        if !parts_are_quiet(alloc, table, foldings, compat, *code)? {
            return Ok(false);
        }
    }
    Ok(true)
}

/// Whether a code point that folds has no mapping of this kind, and folds to what then folds again.
fn folds_again_by<T: NormTable>(
    alloc: Global,
    table: &T,
    foldings: &Foldings,
    compat: bool,
    code: char,
) -> Result<bool, Memory>
    requires { quiet foldings.now code ≡ false }
    ensures { IfOk result (λ again. IsTrue again ↔ IsFoldedAgainBy (folded_by (T.model table.now) foldings.now) compat code) }
{
    table.meets_conditions();
    if !is_final(alloc, table, compat, code)? {
        return Ok(false);
    }
    let folded = folding_of(foldings, &code);
    Ok(!all_parts_are_quiet(alloc, table, foldings, compat, folded)?)
}

/// Whether a code point that folds does so for either kind.
pub(crate) fn folds_again<T: NormTable>(
    alloc: Global,
    table: &T,
    foldings: &Foldings,
    code: char,
) -> Result<bool, Memory>
    requires { quiet foldings.now code ≡ false }
    ensures { IfOk result (λ again. IsTrue again ↔ IsFoldedAgain (folded_by (T.model table.now) foldings.now) code) }
{
    if folds_again_by(alloc, table, foldings, false, code)? {
        return Ok(true);
    }
    folds_again_by(alloc, table, foldings, true, code)
}
