//! Segments of two or three code points, each of which decomposes to a single one: a starter, and one or two behind
//! it. Their form is made without a list, by one comparison of classes and at most two look-ups of a composite.
ghost use Rattle.std.specs.Prelude.{◌≡◌, ◌<◌, ◌++◌, ◌∷◌, [], Some, None, length, true, chars, encode_utf8_all, IfNone, IfOk, IfSome, OnOk};
ghost use Rattle.np_code_points.specs.Forms.{composes};
ghost use Rattle.np_forms.specs.inside.CanonicalOrder.{canonical_order};
ghost use Rattle.np_forms.specs.inside.Copies.{AppendsForm};
ghost use Rattle.np_forms.specs.inside.NormalForms.{ended};
ghost use Rattle.np_forms.specs.inside.Segments.{IsFullUpTo, IsTriple, listed};
ghost use Rattle.np_versions.specs.Conditions.{IsSound};
ghost use Rattle.np_versions.specs.Versions.{class_of};
ghost use Rattle.np_versions.specs.inside.CompositeSearch.{composite};

use crate::copying::begins_at_boundary;
use crate::decomposing::single_of;
use crate::lookups::composite_of;
use crate::out_texts::OutText;
use np_code_points::{Form, Memory};
use np_versions::NormTable;

/// A starter and two non-starters behind it, in canonical order.
#[derive(Clone, Copy)]
struct Triple {
    starter: char,
    first: char,
    second: char,
}

/// The composite of a starter and another code point, where the form composes.
#[inline(always)]
fn joined<T: NormTable>(table: &T, form: Form, starter: char, c: char) -> Option<char>
    ensures some { IfSome result (λ p. (composes form ≡ true) × (composite (T.model table.now) starter c ≡ Some p)) }
    ensures none { IfNone result (composes form ≡ true → composite (T.model table.now) starter c ≡ None) }
{
    if form.composes() {
        composite_of(table, starter, c)
    } else {
        None
    }
}

/// Appends the form of a starter and another code point.
#[inline(always)]
fn write_pair<T: NormTable>(
    table: &T,
    form: Form,
    starter: char,
    second: char,
    out: &mut OutText,
) -> Result<(), Memory>
    requires { class_of (T.model table.now) starter ≡ 0 }
    ensures { OnOk result (out.new ≡ out.old ++ encode_utf8_all (ended (T.model table.now) (composes form) (starter ∷ second ∷ []))) }
{
    match joined(table, form, starter, second) {
        Some(p) => out.append_char(p),
        None => {
            out.append_char(starter)?;
            out.append_char(second)
        }
    }
}

/// The composite of a starter and the second of two non-starters. A code point is blocked from the last starter where
/// one between them has at least its class (The Unicode Standard, D115); so one of equal class blocks it.
#[inline(always)]
fn joined_past<T: NormTable>(table: &T, form: Form, triple: Triple) -> Option<char>
    ensures form { IfSome result (λ p. composes form ≡ true) }
    ensures free { IfSome result (λ p. class_of (T.model table.now) triple.first < class_of (T.model table.now) triple.second) }
    ensures pair { IfSome result (λ p. composite (T.model table.now) triple.starter triple.second ≡ Some p) }
    ensures none { IfNone result (composes form ≡ true → class_of (T.model table.now) triple.first < class_of (T.model table.now) triple.second →
        composite (T.model table.now) triple.starter triple.second ≡ None) }
{
    if table.class(triple.first) < table.class(triple.second) {
        joined(table, form, triple.starter, triple.second)
    } else {
        None
    }
}

/// Appends the form of a starter and two non-starters.
#[inline(always)]
fn write_triple<T: NormTable>(
    table: &T,
    form: Form,
    triple: Triple,
    out: &mut OutText,
) -> Result<(), Memory>
    requires { IsTriple (T.model table.now) triple }
    ensures { OnOk result (out.new ≡ out.old ++ encode_utf8_all (ended (T.model table.now) (composes form) (listed triple))) }
{
    table.meets_conditions();
    if let Some(p) = joined(table, form, triple.starter, triple.first) {
        return write_pair(table, form, p, triple.second, out);
    }
    if let Some(p) = joined_past(table, form, triple) {
        out.append_char(p)?;
        return out.append_char(triple.first);
    }
    out.append_char(triple.starter)?;
    out.append_char(triple.first)?;
    out.append_char(triple.second)
}

/// A starter and two non-starters, put in canonical order; none where one of the two is a starter.
#[inline(always)]
#[tactic(auto, using(crate::proofs::ShortLemmas::short_answers))]
fn in_order<T: NormTable>(table: &T, starter: char, second: char, third: char) -> Option<Triple>
    requires { class_of (T.model table.now) starter ≡ 0 }
    ensures order { IfSome result (λ m. canonical_order (class_of (T.model table.now)) (starter ∷ second ∷ third ∷ []) ≡ listed m) }
    ensures triple { IfSome result (IsTriple (T.model table.now)) }
{
    let class = table.class(second);
    let later = table.class(third);
    if class == 0 || later == 0 {
        return None;
    }
    if later < class {
        Some(Triple {
            starter,
            first: third,
            second,
        })
    } else {
        Some(Triple {
            starter,
            first: second,
            second: third,
        })
    }
}

/// The single code point to which the first one of a text decomposes, and what follows that.
#[inline(always)]
#[tactic(auto, using(crate::proofs::SegmentLemmas::segment_answers))]
fn split_single<'a, T: NormTable>(table: &T, form: Form, text: &'a str) -> Option<(char, &'a str)>
    requires { IsSound (T.model table.now) }
    ensures full { IfSome result (λ cut. IsFullUpTo (T.model table.now) form text.now cut.1.now (cut.0 ∷ [])) }
    ensures shorter { IfSome result (λ cut. length cut.1.now < length text.now) }
{
    let mut iter = text.chars();
    let c = iter.next()?;
    let single = single_of(table, form.compat(), c)?;
    Some((single, iter.as_str()))
}

/// The starter to which the first code point of a text decomposes, and what follows that.
#[inline(always)]
fn split_starter<'a, T: NormTable>(table: &T, form: Form, text: &'a str) -> Option<(char, &'a str)>
    requires { IsSound (T.model table.now) }
    ensures full { IfSome result (λ cut. IsFullUpTo (T.model table.now) form text.now cut.1.now (cut.0 ∷ [])) }
    ensures starter { IfSome result (λ cut. class_of (T.model table.now) cut.0 ≡ 0) }
    ensures shorter { IfSome result (λ cut. length cut.1.now < length text.now) }
{
    let (starter, rest) = split_single(table, form, text)?;
    if table.class(starter) == 0 {
        Some((starter, rest))
    } else {
        None
    }
}

/// Appends the form of the first segment of a text, where that is found to be such a one, and answers what follows it.
pub(crate) fn write_short<'a, T: NormTable>(
    table: &T,
    form: Form,
    text: &'a str,
    out: &mut OutText,
) -> Result<Option<&'a str>, Memory>
    ensures goes { IfOk result (λ found. IfSome found (λ rest. AppendsForm (T.model table.now) form text.now rest.now out.old out.new)) }
    ensures none { IfOk result (λ found. IfNone found (out.new ≡ out.old)) }
    ensures shorter { IfOk result (λ found. IfSome found (λ rest. length rest.now < length text.now)) }
{
    table.meets_conditions();
    let Some((starter, one)) = split_starter(table, form, text) else {
        return Ok(None);
    };
    let Some((second, two)) = split_single(table, form, one) else {
        return Ok(None);
    };
    if begins_at_boundary(table, form, two) {
        write_pair(table, form, starter, second, out)?;
        return Ok(Some(two));
    }
    let Some((third, three)) = split_single(table, form, two) else {
        return Ok(None);
    };
    if !begins_at_boundary(table, form, three) {
        return Ok(None);
    }
    let Some(triple) = in_order(table, starter, second, third) else {
        return Ok(None);
    };
    write_triple(table, form, triple, out)?;
    Ok(Some(three))
}
