//! Fronts of a text, one behind the other: what passes the quick check is copied, precomputed forms and
//! syllables are written at once, and what is left goes segment by segment.
ghost use Rattle.std.specs.Prelude.{◌≡◌, ◌<◌, length, true, false, chars, IfOk, IfSome};
ghost use Rattle.np_forms.specs.Assigned.{IsAssigned};
ghost use Rattle.np_forms.specs.inside.Copies.{AppendsForm, IsCopied, IsEndOf};
ghost use Rattle.np_forms.specs.inside.Readings.{IsReadAssigned};
ghost use Rattle.np_forms.specs.inside.Segments.{IsFirstPrecomputed};

use crate::classes::Classed;
use crate::copying::{QuickCut, begins_at_boundary, write_next};
use crate::normalizers::Normalizer;
use crate::out_texts::OutText;
use crate::precomputed_texts::{begins_with_letter, write_precomputed};
use crate::segments::write_short;
use crate::syllable_texts::{begins_as_jamo, join_syllables, write_syllables};
use np_code_points::{Form, Memory};
use np_versions::{NormTable, PrecomputedForm};

/// What is left of a text behind a front whose form was written.
#[derive(Clone, Copy)]
pub(crate) struct WrittenFront<'a> {
    /// What follows the code points that are known to be assigned.
    pub unread: &'a str,
    /// What follows the front.
    pub rest: &'a str,
}

/// The form of the first code point of a text, and what follows that: none where the table has none, or no
/// boundary follows. It isn't asked where some first bytes, so many, pass the quick check, since no boundary
/// follows their first code point, nor, where the form composes, of what begins as jamo do.
#[inline(always)]
fn split_precomputed<'t, 'a, T: NormTable>(
    table: &'t T,
    form: Form,
    text: &'a str,
    passing: usize,
) -> Option<(PrecomputedForm<'t>, &'a str)>
    ensures made { IfSome result (λ cut. IsFirstPrecomputed (T.model table.now) form text.now cut.1.now cut.0.bytes.now cut.0.count) }
    ensures read { IfSome result (λ cut. IsReadAssigned (T.model table.now) text.now cut.1.now) }
    ensures shorter { IfSome result (λ cut. length cut.1.now < length text.now) }
{
    table.meets_conditions();
    if passing > 0 || (form.composes() && begins_as_jamo(text)) {
        return None;
    }
    let mut iter = text.chars();
    let c = iter.next()?;
    let kept = table.precomputed(form, c)?;
    let later = iter.as_str();
    if !begins_at_boundary(table, form, later) {
        return None;
    }
    Some((kept, later))
}

/// Appends the form of the syllables at the front of a text, or of those that jamo make there, and answers what
/// follows them.
#[inline(always)]
fn write_hangul<'a, T: NormTable>(
    normalizer: &Normalizer<'_, T>,
    text: &'a str,
    out: &mut OutText,
) -> Result<&'a str, Memory>
    ensures goes { IfOk result (λ rest. AppendsForm (T.model normalizer.now.table.now) normalizer.now.form text.now rest.now out.old out.new) }
    ensures read { IfOk result (λ rest. IsReadAssigned (T.model normalizer.now.table.now) text.now rest.now) }
{
    if normalizer.form.composes() {
        join_syllables(normalizer, text, out)
    } else {
        write_syllables(normalizer, text, out)
    }
}

/// Appends the form of the syllables at the front of a text, or of those that jamo make there, or else of
/// its first segment. The list is a reordering buffer that is used again.
fn write_changed<'a, T: NormTable>(
    normalizer: &Normalizer<'_, T>,
    text: &'a str,
    list: &mut Vec<Classed>,
    out: &mut OutText,
) -> Result<WrittenFront<'a>, Memory>
    ensures goes { IfOk result (λ left. AppendsForm (T.model normalizer.now.table.now) normalizer.now.form text.now left.rest.now out.old out.new) }
    ensures read { IfOk result (λ left. IsReadAssigned (T.model normalizer.now.table.now) text.now left.unread.now) }
    ensures end { IfOk result (λ left. IsEndOf left.unread.now left.rest.now) }
    ensures shorter { IfOk result (λ left. 0 < length text.now → length left.rest.now < length text.now) }
{
    let unread = write_hangul(normalizer, text, out)?;
    if unread.len() < text.len() {
        return Ok(WrittenFront {
            unread,
            rest: unread,
        });
    }
    if let Some(rest) = write_short(normalizer.table, normalizer.form, unread, out)? {
        return Ok(WrittenFront { unread, rest });
    }
    let rest = write_next(normalizer, unread, list, out)?;
    Ok(WrittenFront { unread, rest })
}

/// Appends the letters that follow a code point with a precomputed form, and answers what is left.
#[inline(always)]
fn write_letters<'a, T: NormTable>(
    table: &T,
    form: Form,
    text: &'a str,
    out: &mut OutText,
) -> Result<&'a str, Memory>
    ensures goes { IfOk result (λ rest. AppendsForm (T.model table.now) form text.now rest.now out.old out.new) }
    ensures read { IfOk result (λ rest. IsReadAssigned (T.model table.now) text.now rest.now) }
{
    if begins_with_letter(text) {
        return write_precomputed(table, form, text, out);
    }
    Ok(text)
}

/// Appends the form of some front of a text that was cut behind what passes the quick check. What is asked of the code point
/// behind that is asked before anything is written, and so once.
#[inline(always)]
pub(crate) fn write_front<'a, T: NormTable>(
    normalizer: &Normalizer<'_, T>,
    text: &'a str,
    cut: QuickCut<'a>,
    list: &mut Vec<Classed>,
    out: &mut OutText,
) -> Result<WrittenFront<'a>, Memory>
    requires { IsCopied (T.model normalizer.now.table.now) normalizer.now.form text.now cut.front.now cut.rest.now }
    ensures goes { IfOk result (λ left. AppendsForm (T.model normalizer.now.table.now) normalizer.now.form text.now left.rest.now out.old out.new) }
    ensures read { IfOk result (λ left. IsAssigned (T.model normalizer.now.table.now) (chars cut.entry.front.now)
        → IsReadAssigned (T.model normalizer.now.table.now) text.now left.unread.now) }
    ensures end { IfOk result (λ left. IsEndOf left.unread.now left.rest.now) }
    ensures shorter { IfOk result (λ left. 0 < length text.now → length left.rest.now < length text.now) }
{
    let table = normalizer.table;
    let form = normalizer.form;
    let rest = cut.rest;
    let precomputed = split_precomputed(table, form, rest, cut.more);
    out.append_front(text, cut.front)?;
    if let Some((kept, later)) = precomputed {
        out.append_first(kept.bytes, kept.count)?;
        let rest = write_letters(table, form, later, out)?;
        return Ok(WrittenFront { unread: rest, rest });
    }
    if rest.is_empty() {
        return Ok(WrittenFront { unread: rest, rest });
    }
    let left = write_changed(normalizer, rest, list, out)?;
    Ok(left)
}
