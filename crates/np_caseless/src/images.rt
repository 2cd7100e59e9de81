//! What may stand in place of code points before the last normalization of a caseless key: their images.
ghost use Rattle.std.specs.Prelude.{◌≡◌, ◌++◌, flat_map, IfOk, OnOk, IsTrue};
ghost use Rattle.np_caseless.specs.Folded.{folded_by};
ghost use Rattle.np_caseless.specs.inside.Images.{AreImages, folded_parts};
ghost use Rattle.np_versions.specs.inside.FullDecompositions.{full_of};

use crate::lent_parts::do_stay;
use crate::quiet::folding_of;
use np_code_points::Memory;
use np_foldings::Foldings;
use np_forms::full_decomposition;
use np_versions::NormTable;
use std::alloc::Global;

/// Appends the full decompositions of code points.
fn push_full<T: NormTable>(
    alloc: Global,
    table: &T,
    compat: bool,
    codes: &[char],
    parts: &mut Vec<char>,
) -> Result<(), Memory>
    ensures { OnOk result (parts.new.items ≡ parts.old.items ++ flat_map (full_of (T.model table.now) compat) codes.now) }
{
    table.meets_conditions();
    for code in codes {
        let full = full_decomposition(alloc, table, compat, *code)?;
        parts.extend_from_slice(full.as_slice())?;
    }
    Ok(())
}

/// The full decompositions of code points, one behind the other.
fn full_parts<T: NormTable>(
    alloc: Global,
    table: &T,
    compat: bool,
    codes: &[char],
) -> Result<Vec<char>, Memory>
    ensures { IfOk result (λ parts. parts.items ≡ flat_map (full_of (T.model table.now) compat) codes.now) }
{
    let mut parts = Vec::new(alloc);
    push_full(alloc, table, compat, codes, &mut parts)?;
    Ok(parts)
}

/// The full decompositions of what code points fold to, one behind the other.
fn parts_folded<T: NormTable>(
    alloc: Global,
    table: &T,
    foldings: &Foldings,
    compat: bool,
    codes: &[char],
) -> Result<Vec<char>, Memory>
    ensures { IfOk result (λ parts. parts.items ≡ flat_map (folded_parts (folded_by (T.model table.now) foldings.now) compat) codes.now) }
{
    let mut parts = Vec::new(alloc);
    for code in codes {
        push_full(alloc, table, compat, folding_of(foldings, code), &mut parts)?;
    }
    Ok(parts)
}

/// Whether code points are known to be the images of others.
pub(crate) fn are_images<T: NormTable>(
    alloc: Global,
    table: &T,
    foldings: &Foldings,
    compat: bool,
    codes: (&[char], &[char]),
) -> Result<bool, Memory>
    ensures { IfOk result (λ are. IsTrue are → AreImages (folded_by (T.model table.now) foldings.now) compat codes.entry.0.now codes.entry.1.now) }
{
    let (of, images) = codes;
    let first = full_parts(alloc, table, false, of)?;
    if !do_stay(table, foldings, compat, first.as_slice()) {
        return Ok(false);
    }
    let mut last = parts_folded(alloc, table, foldings, compat, first.as_slice())?;
    if compat {
        if !do_stay(table, foldings, compat, last.as_slice()) {
            return Ok(false);
        }
        last = parts_folded(alloc, table, foldings, compat, last.as_slice())?;
    }
    let parts = full_parts(alloc, table, compat, images)?;
    Ok(parts.as_slice() == last.as_slice())
}
