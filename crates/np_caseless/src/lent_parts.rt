//! What code points fold and decompose to, held against a list: nothing is made for it.
ghost use Rattle.std.specs.Prelude.{◌≡◌, ◌++◌, true, flat_map, IfSome, IsTrue};
ghost use Rattle.std.specs.List.{list_all};
ghost use Rattle.np_caseless.specs.Folded.{folded_by};
ghost use Rattle.np_caseless.specs.inside.Images.{folded_parts, stays};
ghost use Rattle.np_versions.specs.inside.FullDecompositions.{full_of};

use crate::own_images::lent_full;
use crate::quiet::folding_of;
use np_code_points::hangul::is_syllable;
use np_foldings::Foldings;
use np_versions::NormTable;
use std::slice;

/// The full decomposition of a code point, lent, unless it is a syllable of the arithmetic.
pub(crate) fn known_full<'t, T: NormTable>(
    table: &'t T,
    compat: bool,
    code: &'t char,
) -> Option<&'t [char]>
    ensures { IfSome result (λ full. full.now ≡ full_of (T.model table.now) compat code.now) }
{
    if table.hangul() && is_syllable(u32::from(*code)) {
        return None;
    }
    Some(lent_full(table, compat, code))
}

/// What follows a front, where a list begins with it. Both are short: most fronts are one code point.
fn behind<'t>(list: &'t [char], front: &[char]) -> Option<&'t [char]>
    ensures { IfSome result (λ rest. list.now ≡ front.now ++ rest.now) }
{
    let mut rest = list;
    for code in front {
        let split = rest.split_first()?;
        if split.0 != code {
            return None;
        }
        rest = split.1;
    }
    Some(rest)
}

/// What follows the full decompositions of code points, where a list begins with them.
pub(crate) fn behind_full<'t, T: NormTable>(
    table: &T,
    compat: bool,
    codes: &[char],
    list: &'t [char],
) -> Option<&'t [char]>
    ensures { IfSome result (λ rest. list.now ≡ flat_map (full_of (T.model table.now) compat) codes.now ++ rest.now) }
{
    let mut rest = list;
    for code in codes {
        let full = known_full(table, compat, code)?;
        rest = behind(rest, full)?;
    }
    Some(rest)
}

/// What follows the full decompositions of what code points fold to, where a list begins with them.
fn behind_folded<'t, T: NormTable>(
    table: &T,
    foldings: &Foldings,
    compat: bool,
    codes: &[char],
    list: &'t [char],
) -> Option<&'t [char]>
    ensures { IfSome result (λ rest. list.now ≡ flat_map (folded_parts (folded_by (T.model table.now) foldings.now) compat) codes.now ++ rest.now) }
{
    let mut rest = list;
    for code in codes {
        rest = behind_full(table, compat, folding_of(foldings, code), rest)?;
    }
    Some(rest)
}

/// Whether code points are known to fold and decompose to a list.
pub(crate) fn do_lead_to<T: NormTable>(
    table: &T,
    foldings: &Foldings,
    compat: bool,
    codes: &[char],
    list: &[char],
) -> bool
    ensures { IsTrue result → list.now ≡ flat_map (folded_parts (folded_by (T.model table.now) foldings.now) compat) codes.now }
{
    match behind_folded(table, foldings, compat, codes, list) {
        Some(rest) => rest.is_empty(),
        None => false,
    }
}

/// Whether a code point is a starter, or known to fold and decompose to itself alone.
fn does_stay<T: NormTable>(table: &T, foldings: &Foldings, compat: bool, code: char) -> bool
    ensures { IsTrue result → stays (folded_by (T.model table.now) foldings.now) compat code ≡ true }
{
    if table.class(code) == 0 {
        return true;
    }
    let one = slice::from_ref(&code);
    do_lead_to(table, foldings, compat, one, one)
}

/// Whether all of these code points do.
pub(crate) fn do_stay<T: NormTable>(
    table: &T,
    foldings: &Foldings,
    compat: bool,
    codes: &[char],
) -> bool
    ensures { IsTrue result → list_all (stays (folded_by (T.model table.now) foldings.now) compat) codes.now ≡ true }
{
    for code in codes {
        if !does_stay(table, foldings, compat, *code) {
            return false;
        }
    }
    true
}
