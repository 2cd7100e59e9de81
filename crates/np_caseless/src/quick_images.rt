//! Images that are found without making what is normalized last.
ghost use Rattle.std.specs.Prelude.{◌≡◌, ◌∷◌, [], false, flat_map, IfSome, IsTrue};
ghost use Rattle.np_caseless.specs.Folded.{folded_by};
ghost use Rattle.np_caseless.specs.inside.Images.{AreImages, AreLast, LeadsOnce, folded_parts};
ghost use Rattle.np_versions.specs.Versions.{class_of};
ghost use Rattle.np_versions.specs.inside.FullDecompositions.{full_of};

use crate::folding::fold_chars;
use crate::lent_parts::{behind_full, do_lead_to, do_stay, known_full};
use crate::quiet::{are_quiet, folding_of};
use np_code_points::Memory;
use np_code_points::hangul::is_syllable;
use np_foldings::Foldings;
use np_versions::NormTable;
use std::alloc::Global;
use std::slice;

/// What the decomposition of a code point folds to: its image, if it doesn't fold itself.
pub(crate) fn likely_image<T: NormTable>(
    alloc: Global,
    table: &T,
    foldings: &Foldings,
    compat: bool,
    code: char,
) -> Result<Vec<char>, Memory> {
    match known_full(table, compat, &code) {
        Some(full) => fold_chars(alloc, foldings, full),
        None => fold_chars(alloc, foldings, slice::from_ref(&code)),
    }
}

/// The full decompositions of images, one behind the other, lent: that of one, or those of several that have no mapping.
fn known_parts<'t, T: NormTable>(
    table: &'t T,
    compat: bool,
    images: &'t [char],
) -> Option<&'t [char]>
    ensures { IfSome result (λ parts. parts.now ≡ flat_map (full_of (T.model table.now) compat) images.now) }
{
    let split = images.split_first()?;
    if split.1.is_empty() {
        return known_full(table, compat, split.0);
    }
    let rest = behind_full(table, compat, images, images)?;
    if !rest.is_empty() {
        return None;
    }
    Some(images)
}

/// Whether the folding of a code point's canonical decomposition is known to decompose to a list.
fn leads_once<T: NormTable>(
    table: &T,
    foldings: &Foldings,
    compat: bool,
    code: char,
    once: &[char],
) -> bool
    ensures { IsTrue result → LeadsOnce (folded_by (T.model table.now) foldings.now) compat code once.now }
{
    let Some(first) = known_full(table, false, &code) else {
        return false;
    };
    if !do_stay(table, foldings, compat, first) {
        return false;
    }
    do_lead_to(table, foldings, compat, first, once)
}

/// Whether a list is known to be what is normalized last, by what the first folding leads to.
fn are_last<T: NormTable>(
    table: &T,
    foldings: &Foldings,
    compat: bool,
    code: char,
    lists: (&[char], &[char]),
) -> bool
    ensures { IsTrue result → AreLast (folded_by (T.model table.now) foldings.now) compat code lists.entry.1.now }
{
    let (once, last) = lists;
    if !leads_once(table, foldings, compat, code, once) {
        return false;
    }
    if !compat {
        return last == once;
    }
    if !do_stay(table, foldings, true, once) {
        return false;
    }
    do_lead_to(table, foldings, true, once, last)
}

/// The full decompositions of images, where these are known to stand in place of a code point that folds to itself alone.
pub(crate) fn quick_parts<'t, T: NormTable>(
    table: &'t T,
    foldings: &Foldings,
    compat: bool,
    code: char,
    images: &'t [char],
) -> Option<&'t [char]>
    ensures parts { IfSome result (λ parts. parts.now ≡ flat_map (full_of (T.model table.now) compat) images.now) }
    ensures images { IfSome result (λ parts. AreImages (folded_by (T.model table.now) foldings.now) compat (code ∷ []) images.now) }
{
    let parts = known_parts(table, compat, images)?;
    let once = known_full(table, compat, &code)?;
    if are_last(table, foldings, compat, code, (once, parts)) {
        return Some(parts);
    }
    None
}

/// Whether a code point is a starter that has no canonical mapping: so is nearly each letter.
fn is_letter<T: NormTable>(table: &T, code: char) -> bool
    ensures starter { IsTrue result → class_of (T.model table.now) code ≡ 0 }
    ensures unmapped { IsTrue result → full_of (T.model table.now) false code ≡ code ∷ [] }
{
    table.meets_conditions();
    if table.class(code) != 0 {
        return false;
    }
    if table.hangul() && is_syllable(u32::from(code)) {
        return false;
    }
    table.full(code, false).is_empty()
}

/// Whether what such a letter folds to is known to be its image, by what that decomposes to.
fn are_letter_parts<T: NormTable>(
    table: &T,
    foldings: &Foldings,
    compat: bool,
    code: char,
    parts: &[char],
) -> bool
    ensures { IsTrue result → parts.now ≡ folded_parts (folded_by (T.model table.now) foldings.now) compat code
        → AreLast (folded_by (T.model table.now) foldings.now) compat code parts.now }
{
    table.meets_conditions();
    if !is_letter(table, code) {
        return false;
    }
    if !compat {
        return true;
    }
    are_quiet(foldings, parts)
}

/// What a code point folds to, and what that decomposes to, where it is known to stand in place of the code point.
pub(crate) fn folded_image<'t, T: NormTable>(
    table: &'t T,
    foldings: &'t Foldings,
    compat: bool,
    code: &'t char,
) -> Option<(&'t [char], &'t [char])>
    ensures images { IfSome result (λ both. AreImages (folded_by (T.model table.now) foldings.now) compat (code.now ∷ []) both.0.now) }
    ensures parts { IfSome result (λ both. both.1.now ≡ flat_map (full_of (T.model table.now) compat) both.0.now) }
{
    let folding = folding_of(foldings, code);
    let parts = known_parts(table, compat, folding)?;
    if are_letter_parts(table, foldings, compat, *code, parts) {
        return Some((folding, parts));
    }
    if are_last(table, foldings, compat, *code, (parts, parts)) {
        return Some((folding, parts));
    }
    None
}
