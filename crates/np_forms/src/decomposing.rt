//! Full decompositions (The Unicode Standard, D68 and D65), each code point beside its class.
ghost use Rattle.std.specs.Prelude.{◌≡◌, ◌<◌, ◌++◌, ◌∷◌, [], length, true, chars, flat_map, IfOk, IfSome, OnOk};
ghost use Rattle.np_code_points.specs.Hangul.{is_syllable as in_block};
ghost use Rattle.np_forms.specs.inside.Classes.{with_classes};
ghost use Rattle.np_versions.specs.Boundaries.{BeginsAtBoundary};
ghost use Rattle.np_forms.specs.inside.Segments.{IsDecomposedUpTo};
ghost use Rattle.np_forms.specs.inside.Syllables.{syllable_parts};
ghost use Rattle.np_versions.specs.Conditions.{IsSound};
ghost use Rattle.np_versions.specs.inside.FullDecompositions.{full_of};
ghost use Rattle.np_versions.specs.Versions.{has_hangul};

use crate::classes::{Classed, push_classed, with_class};
use crate::lookups::lent;
use np_code_points::hangul::{hangul_parts, is_syllable};
use np_code_points::{Form, Memory};
use np_versions::NormTable;

/// Whether a code point is its own full decomposition.
#[inline(always)]
#[tactic(auto, using(std::proofs::lemmas::Bool::and_right, crate::proofs::SyllableLemmas::lent_none))]
pub(crate) fn is_own<T: NormTable>(table: &T, compat: bool, c: char) -> bool
    requires { IsSound (T.model table.now) }
    ensures { result ≡ true → full_of (T.model table.now) compat c ≡ c ∷ [] }
{
    if is_syllable(c as u32) {
        return false;
    }
    lent(table, c, compat).is_empty()
}

/// The full decomposition of a code point, where that is a single one; none of a syllable.
#[inline(always)]
#[tactic(auto, using(crate::proofs::SyllableLemmas::lent_answers))]
pub(crate) fn single_of<T: NormTable>(table: &T, compat: bool, c: char) -> Option<char>
    requires { IsSound (T.model table.now) }
    ensures { IfSome result (λ d. full_of (T.model table.now) compat c ≡ d ∷ []) }
{
    match lent(table, c, compat) {
        [single] => Some(*single),
        [] => { if is_syllable(c as u32) { None } else { Some(c) } }
        [..] => None,
    }
}

/// Appends the full decomposition of a syllable by arithmetic.
fn append_syllable<T: NormTable>(list: &mut Vec<Classed>, table: &T, c: char) -> Result<(), Memory>
    requires { in_block c ≡ true }
    ensures { OnOk result (list.new.items ≡ list.old.items ++ with_classes (T.model table.now) (syllable_parts c)) }
{
    // each syllable has parts
    let Some((first, second)) = hangul_parts(c) else {
        return Ok(());
    };
    match hangul_parts(first) {
        Some((leading, vowel)) => push_classed(table, &[leading, vowel, second], list),
        None => push_classed(table, &[first, second], list),
    }
}

/// Appends the full decomposition of a code point.
#[inline(always)]
pub(crate) fn append<T: NormTable>(
    list: &mut Vec<Classed>,
    table: &T,
    hangul: bool,
    compat: bool,
    c: char,
) -> Result<(), Memory>
    requires sound { IsSound (T.model table.now) }
    requires hangul { hangul ≡ has_hangul (T.model table.now) }
    ensures { OnOk result (list.new.items ≡ list.old.items ++ with_classes (T.model table.now) (full_of (T.model table.now) compat c)) }
{
    let full = lent(table, c, compat);
    if !full.is_empty() {
        return push_classed(table, full, list);
    }
    if hangul && is_syllable(c as u32) {
        return append_syllable(list, table, c);
    }
    list.push(with_class(table, c))?;
    Ok(())
}

/// Makes a list the full decomposition of the first segment of a text, which ends before the first code
/// point behind its first one that is known to be a boundary, and answers what follows it.
pub(crate) fn decompose_first<'a, T: NormTable>(
    table: &T,
    form: Form,
    text: &'a str,
    list: &mut Vec<Classed>,
) -> Result<&'a str, Memory>
    ensures decomposed { IfOk result (λ rest. IsDecomposedUpTo (T.model table.now) form text.now rest.now list.new.items) }
    ensures at { IfOk result (λ rest. BeginsAtBoundary (T.model table.now) form (chars rest.now)) }
    ensures shorter { IfOk result (λ rest. 0 < length text.now → length rest.now < length text.now) }
{
    table.meets_conditions();
    let hangul = table.hangul();
    let compat = form.compat();
    list.clear();
    let mut iter = text.chars();
    'scan: loop {
        let here = iter.as_str();
        let Some(c) = iter.next() else {
            return Ok(here);
        };
        if here.len() < text.len() && table.is_boundary(form, c) {
            return Ok(here);
        }
        append(list, table, hangul, compat, c)?;
    }
}
