//! Code points whose form a table has, one behind the other or with ASCII between: accented letters in words.
ghost use Rattle.std.specs.Prelude.{◌≡◌, ◌<◌, chars, true, IfOk, IsTrue, OnOk};
ghost use Rattle.np_forms.specs.inside.Copies.{AppendsForm, ArePassing, AsciiPasses, BeginsWithAscii};
ghost use Rattle.np_forms.specs.inside.Readings.{IsReadAssigned};
ghost use Rattle.np_versions.specs.Boundaries.{BeginsAtBoundary};
ghost use Rattle.np_versions.specs.inside.Fronts.{IsPast};

use crate::copying::begins_at_boundary;
use crate::out_texts::OutText;
use np_code_points::{Form, Memory};
use np_versions::{NormTable, ascii_front};

/// Whether a text begins with ASCII.
#[inline(always)]
fn begins_with_ascii(text: &str) -> bool
    ensures { IsTrue result → BeginsWithAscii text.now }
{
    match text.chars().next() {
        Some(c) => c.is_ascii(),
        None => false,
    }
}

/// What follows the ASCII at the front of a text, where that is asked for. Where it begins with none, no byte more is
/// looked at, for which what follows would have to wait.
#[inline(always)]
pub(crate) fn behind_ascii(ascii: bool, text: &str) -> &str
    ensures { IsPast (λ c. (ascii ≡ true) × (c < 128)) text.now result.now }
{
    if !ascii || !begins_with_ascii(text) {
        return text;
    }
    &text[ascii_front(text.as_bytes())..]
}

/// Whether the form is known to have a boundary before a text. Where all ASCII is known to pass, that isn't looked up.
#[inline(always)]
fn has_boundary_before<T: NormTable>(table: &T, form: Form, ascii: bool, text: &str) -> bool
    requires { ascii ≡ true → AsciiPasses (T.model table.now) form }
    ensures { IsTrue result → BeginsAtBoundary (T.model table.now) form (chars text.now) }
{
    if ascii && begins_with_ascii(text) {
        return true;
    }
    begins_at_boundary(table, form, text)
}

/// Appends what is between two texts, the later of which begins at a boundary.
#[inline(always)]
fn append_passing<T: NormTable>(
    table: &T,
    form: Form,
    text: &str,
    rest: &str,
    out: &mut OutText,
) -> Result<(), Memory>
    requires passing { ArePassing (T.model table.now) form text.now rest.now }
    requires parts { BeginsAtBoundary (T.model table.now) form (chars rest.now) }
    ensures { OnOk result (AppendsForm (T.model table.now) form text.now rest.now out.old out.new) }
{
    table.meets_conditions();
    // of the form the clauses alone speak
    let _unused = form;
    let (stays, _rest) = text.split_at(text.len() - rest.len());
    out.append_front(text, stays)?;
    Ok(())
}

/// Whether a text begins with an ASCII letter, so that a word may go on. On this no answer depends.
#[inline(always)]
pub(crate) fn begins_with_letter(text: &str) -> bool {
    match text.as_bytes().first() {
        Some(byte) => byte.is_ascii_alphabetic(),
        None => false,
    }
}

/// Appends the form of the code points at the front of a text that have precomputed forms, one behind the other or with ASCII
/// between, where all of it passes, and answers what follows them. It is called, so that the loop has the registers
/// for itself.
#[inline(never)]
pub(crate) fn write_precomputed<'a, T: NormTable>(
    table: &T,
    form: Form,
    text: &'a str,
    out: &mut OutText,
) -> Result<&'a str, Memory>
    ensures goes { IfOk result (λ rest. AppendsForm (T.model table.now) form text.now rest.now out.old out.new) }
    ensures read { IfOk result (λ rest. IsReadAssigned (T.model table.now) text.now rest.now) }
{
    table.meets_conditions();
    let ascii = table.ascii_passes(form);
    let mut rest = text;
    'letters: loop {
        let here = behind_ascii(ascii, rest);
        let mut iter = here.chars();
        let Some(c) = iter.next() else {
            append_passing(table, form, rest, here, out)?;
            return Ok(here);
        };
        let later = iter.as_str();
        if !table.is_boundary(form, c) {
            return Ok(rest);
        }
        append_passing(table, form, rest, here, out)?;
        let Some(kept) = table.precomputed(form, c) else {
            return Ok(here);
        };
        if !has_boundary_before(table, form, ascii, later) {
            return Ok(here);
        }
        out.append_first(kept.bytes, kept.count)?;
        rest = later;
    }
}
