//! The form of a whole text, in which what passes the quick check is copied, and what is left goes segment by segment
//! through decomposition, ordering and composition (UAX #15, section 9).
//!
//! A segment begins at a boundary and ends before the next one. Its ways, the first that fits:
//!
//! 1. A table has the precomputed form of its one code point, and a boundary follows: those bytes are written (`fronts.rt`).
//! 2. Syllables, precomposed or as jamo, are made by arithmetic (`syllable_texts.rt`).
//! 3. A starter and one or two code points behind it, each of which decomposes to a single one, are put in order
//!    by one comparison and composed by at most two look-ups (`segments.rt`).
//! 4. Any other is decomposed into a list, sorted and composed.
//!
//! What is written goes into bytes of a fixed length, made before and grown by doubling: std's `String` calls
//! `memmove` for each run, and a function for each character beyond ASCII.
ghost use Rattle.std.specs.Prelude.{◌≡◌, ◌<◌, ◌⊎◌, ◌++◌, [], false, length, chars, encode_utf8_all, IsTrue, IsUtf8, IfOk, OnOk};
ghost use Rattle.np_forms.specs.Assigned.{IsAssigned};
ghost use Rattle.np_forms.specs.inside.Copies.{AppendsForm, IsCopied, IsEndOf};
ghost use Rattle.np_versions.specs.Boundaries.{BeginsAtBoundary};
ghost use Rattle.np_forms.specs.inside.NormalForms.{normal_form};
ghost use Rattle.np_forms.specs.inside.Readings.{IsReadAssigned};

use crate::assigned::first_unassigned_of_few;
use crate::classes::Classed;
use crate::decomposing::decompose_first;
use crate::fronts::write_front;
use crate::held::order_and_compose;
use crate::normalizers::Normalizer;
use crate::out_texts::OutText;
use np_code_points::{Form, Memory};
use np_versions::NormTable;

/// Whether the form is known to have a boundary before a text: it is empty, or begins with a boundary.
#[inline(always)]
pub(crate) fn begins_at_boundary<T: NormTable>(table: &T, form: Form, text: &str) -> bool
    ensures { IsTrue result → BeginsAtBoundary (T.model table.now) form (chars text.now) }
{
    match text.chars().next() {
        Some(c) => table.is_boundary(form, c),
        None => true,
    }
}

/// A text cut behind a front that passes the quick check.
#[derive(Clone, Copy)]
pub(crate) struct QuickCut<'a> {
    pub front: &'a str,
    pub rest: &'a str,
    /// How many bytes at the front of the rest would pass too, if a boundary followed them.
    pub more: usize,
}

/// Cuts off the longest front that is known to pass the quick check; where `assigned` is asked for, each of its code
/// points is. It is made part of each loop that calls it, so that what the form asks is looked up once.
#[inline(always)]
pub(crate) fn split_quick_span<'a, T: NormTable>(
    table: &T,
    form: Form,
    assigned: bool,
    text: &'a str,
) -> QuickCut<'a>
    ensures copied { IsCopied (T.model table.now) form text.now result.front.now result.rest.now }
    ensures assigned { IsTrue assigned → IsAssigned (T.model table.now) (chars result.front.now) }
{
    table.meets_conditions();
    let span = table.quick_span(form, assigned, text);
    let (front, rest) = text.split_at(span.count);
    if span.boundary {
        let more = 0;
        return QuickCut { front, rest, more };
    }
    // what may change begins at the last boundary
    let (before, last) = split_tail(table, form, front);
    let (front, rest) = text.split_at(before.len());
    let more = last.len();
    QuickCut { front, rest, more }
}

/// Cuts before the first code point that is known to be a boundary. It too is made part of each loop that calls it.
#[inline(always)]
pub(crate) fn split_head<'a, T: NormTable>(
    table: &T,
    form: Form,
    text: &'a str,
) -> (&'a str, &'a str)
    ensures parts { text.now ≡ result.0.now ++ result.1.now }
    ensures front { IsUtf8 result.0.now }
    ensures back { IsUtf8 result.1.now }
    ensures at { BeginsAtBoundary (T.model table.now) form (chars result.1.now) }
{
    let mut iter = text.chars();
    'scan: loop {
        let here = iter.as_str();
        let Some(c) = iter.next() else {
            return (text, here);
        };
        if table.is_boundary(form, c) {
            return (&text[..text.len() - here.len()], here);
        }
    }
}

/// Cuts a text before the last code point that is known to be a boundary; nothing is before it where there is none.
#[inline(always)]
pub(crate) fn split_tail<'a, T: NormTable>(
    table: &T,
    form: Form,
    text: &'a str,
) -> (&'a str, &'a str)
    ensures parts { text.now ≡ result.0.now ++ result.1.now }
    ensures front { IsUtf8 result.0.now }
    ensures back { IsUtf8 result.1.now }
    ensures cut { (result.0.now ≡ []) ⊎ BeginsAtBoundary (T.model table.now) form (chars result.1.now) }
    ensures at { BeginsAtBoundary (T.model table.now) form (chars text.now) → BeginsAtBoundary (T.model table.now) form (chars result.1.now) }
    ensures some { 0 < length text.now → 0 < length result.1.now }
{
    let mut iter = text.chars();
    'scan: loop {
        let Some(c) = iter.next_back() else {
            return ("", text);
        };
        if table.is_boundary(form, c) {
            return text.split_at(iter.as_str().len());
        }
    }
}

/// Appends the form of the first segment of a text, whatever that is, and answers what follows it. The list
/// is a reordering buffer that is used again. As a part of its one caller it would take the registers of the loop over syllables.
#[inline(never)]
pub(crate) fn write_next<'a, T: NormTable>(
    normalizer: &Normalizer<'_, T>,
    text: &'a str,
    list: &mut Vec<Classed>,
    out: &mut OutText,
) -> Result<&'a str, Memory>
    ensures goes { IfOk result (λ rest. AppendsForm (T.model normalizer.now.table.now) normalizer.now.form text.now rest.now out.old out.new) }
    ensures shorter { IfOk result (λ rest. 0 < length text.now → length rest.now < length text.now) }
{
    let table = normalizer.table;
    let form = normalizer.form;
    table.meets_conditions();
    let later = decompose_first(table, form, text, list)?;
    order_and_compose(normalizer.alloc, table, form.composes(), list)?;
    out.append_codes(list)?;
    Ok(later)
}

/// Whether the form may go on behind a front. Where assigned code points are asked for, those of the front
/// that are not known to be are looked up: they stand between `unread` and `rest`.
#[inline(always)]
fn may_go_on<T: NormTable>(table: &T, assigned: bool, unread: &str, rest: &str) -> bool
    requires { IsEndOf unread.now rest.now }
    ensures read { IsTrue assigned → IsTrue result → IsReadAssigned (T.model table.now) unread.now rest.now }
    ensures lacking { result ≡ false → ¬ IsAssigned (T.model table.now) (chars unread.now) }
    ensures always { assigned ≡ false → IsTrue result }
{
    if !assigned || unread.len() == rest.len() {
        return true;
    }
    match first_unassigned_of_few(table, &unread[..unread.len() - rest.len()]) {
        Some(_lacking) => false,
        None => true,
    }
}

/// Appends the form of a text that was cut behind a front which passes the quick check, in one pass: what is known to pass
/// is copied, and each segment of what is left is made by itself. Where `assigned` is asked for, it tells whether each code
/// point is, and where one is not, the form may be cut short; most are known to be by what was looked up to write them.
pub(crate) fn write_cut<T: NormTable>(
    normalizer: &Normalizer<'_, T>,
    assigned: bool,
    text: &str,
    cut: QuickCut<'_>,
    out: &mut OutText,
) -> Result<bool, Memory>
    requires copied { IsCopied (T.model normalizer.now.table.now) normalizer.now.form text.now cut.front.now cut.rest.now }
    requires front { IsTrue assigned → IsAssigned (T.model normalizer.now.table.now) (chars cut.front.now) }
    ensures form { IfOk result (λ all. IsTrue all → out.new ≡ out.old ++
        encode_utf8_all (normal_form (T.model normalizer.now.table.now) normalizer.now.form (chars text.now))) }
    ensures assigned { IfOk result (λ all. IsTrue assigned → IsTrue all → IsAssigned (T.model normalizer.now.table.now) (chars text.now)) }
    ensures lacking { IfOk result (λ all. all ≡ false → ¬ IsAssigned (T.model normalizer.now.table.now) (chars text.now)) }
    ensures always { IfOk result (λ all. assigned ≡ false → IsTrue all) }
{
    let table = normalizer.table;
    let mut list = Vec::new(normalizer.alloc);
    let mut left = text;
    let mut next = cut;
    'fronts: loop {
        let written = write_front(normalizer, left, next, &mut list, out)?;
        if !may_go_on(table, assigned, written.unread, written.rest) {
            return Ok(false);
        }
        left = written.rest;
        if left.is_empty() {
            return Ok(true);
        }
        next = split_quick_span(table, normalizer.form, assigned, left);
    }
}

/// Appends the form of a text.
pub(crate) fn write_form<T: NormTable>(
    normalizer: &Normalizer<'_, T>,
    text: &str,
    out: &mut OutText,
) -> Result<(), Memory>
    ensures { OnOk result (out.new ≡ out.old ++ encode_utf8_all (normal_form (T.model normalizer.now.table.now) normalizer.now.form (chars text.now))) }
{
    let cut = split_quick_span(normalizer.table, normalizer.form, false, text);
    // where nothing is asked of the code points, none ends it
    let _all = write_cut(normalizer, false, text, cut, out)?;
    Ok(())
}
