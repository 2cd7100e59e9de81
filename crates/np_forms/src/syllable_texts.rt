//! Hangul syllables by arithmetic, decomposed straight into UTF-8 and made of their jamo
//! (The Unicode Standard, section 3.12).
ghost use Rattle.std.specs.Prelude.{◌≡◌, ◌+◌, ◌/◌, ◌%◌, ◌<◌, ◌≤◌, ◌++◌, ◌∷◌, [], true, false, chars, encode_utf8, encode_utf8_all, IfNone, IfOk, IfSome, IsTrue, OnOk};
ghost use Rattle.np_code_points.specs.Forms.{composes};
ghost use Rattle.np_code_points.specs.Hangul.{is_syllable as in_block};
ghost use Rattle.np_forms.specs.inside.Copies.{AppendsForm, AsciiIsCopiedAlone, IsCopiedAlone, LeadingAreBoundaries};
ghost use Rattle.np_versions.specs.Boundaries.{BeginsAtBoundary};
ghost use Rattle.np_forms.specs.inside.Readings.{IsReadAssigned};
ghost use Rattle.np_forms.specs.inside.Syllables.{BeginsWithSyllable, syllable_parts};
ghost use Rattle.np_versions.specs.Versions.{has_hangul};

use crate::copying::begins_at_boundary;
use crate::jamo_bytes::{JamoFront, THREE_JAMO, jamo_front};
use crate::normalizers::Normalizer;
use crate::out_texts::OutText;
use crate::utf8_bytes::{last_byte, lead_byte, middle_byte, three_bytes};
use np_code_points::hangul::{L_BASE, S_BASE, T_BASE, T_COUNT, V_BASE, V_COUNT, is_syllable};
use np_code_points::{Form, Memory};
use np_versions::NormTable;

/// Appends a syllable.
#[inline(always)]
fn push_joined(out: &mut OutText, syllable: u32) -> Result<(), Memory>
    requires { in_block syllable ≡ true }
    ensures { OnOk result (out.new ≡ out.old ++ encode_utf8 syllable) }
{
    out.append_bytes(&three_bytes(syllable))
}

/// Appends two characters of three bytes each.
#[inline(always)]
fn push_two(out: &mut OutText, a: u32, b: u32) -> Result<(), Memory>
    requires first { (0x800 ≤ a) × (a < 0xD800) }
    requires second { (0x800 ≤ b) × (b < 0xD800) }
    ensures { OnOk result (out.new ≡ out.old ++ encode_utf8_all (a ∷ b ∷ [])) }
{
    let bytes = [
        lead_byte(a),
        middle_byte(a),
        last_byte(a),
        lead_byte(b),
        middle_byte(b),
        last_byte(b),
    ];
    out.append_bytes(&bytes)
}

/// Appends three characters of three bytes each.
#[inline(always)]
fn push_three(out: &mut OutText, a: u32, b: u32, c: u32) -> Result<(), Memory>
    requires first { (0x800 ≤ a) × (a < 0xD800) }
    requires second { (0x800 ≤ b) × (b < 0xD800) }
    requires third { (0x800 ≤ c) × (c < 0xD800) }
    ensures { OnOk result (out.new ≡ out.old ++ encode_utf8_all (a ∷ b ∷ c ∷ [])) }
{
    let bytes = [
        lead_byte(a),
        middle_byte(a),
        last_byte(a),
        lead_byte(b),
        middle_byte(b),
        last_byte(b),
        lead_byte(c),
        middle_byte(c),
        last_byte(c),
    ];
    out.append_bytes(&bytes)
}

/// Appends the full decomposition of a syllable.
#[inline(always)]
#[tactic(auto, using(crate::proofs::SyllableTextLemmas::syllable_text_answers))]
fn push_syllable(out: &mut OutText, syllable: u32) -> Result<(), Memory>
    requires { in_block syllable ≡ true }
    ensures { OnOk result (out.new ≡ out.old ++ encode_utf8_all (syllable_parts syllable)) }
{
    let index = syllable - S_BASE;
    let block = index / T_COUNT;
    let trailing = index % T_COUNT;
    let leading = L_BASE + block / V_COUNT;
    let vowel = V_BASE + block % V_COUNT;
    if trailing == 0 {
        push_two(out, leading, vowel)
    } else {
        push_three(out, leading, vowel, T_BASE + trailing)
    }
}

/// Whether a text begins as the leading consonants of syllables do. On this no answer depends.
#[inline(always)]
pub(crate) fn begins_as_jamo(text: &str) -> bool {
    match text.as_bytes() {
        [first, second, ..] => *first == 0xE1 && *second == 0x84,
        _few => false,
    }
}

/// Whether a text begins as precomposed syllables do. On this no answer depends.
#[inline(always)]
fn begins_as_syllable(text: &str) -> bool {
    match text.as_bytes().first() {
        Some(byte) => 0xEA <= *byte && *byte <= 0xED,
        None => false,
    }
}

/// The precomposed syllable that a text begins with, and what follows it.
#[inline(always)]
#[tactic(auto, using(crate::proofs::SyllableTextLemmas::syllable_front_answers))]
fn precomposed_front(text: &str) -> Option<(u32, &str)>
    ensures { IfSome result (λ cut. BeginsWithSyllable text.now cut.1.now cut.0) }
{
    if !begins_as_syllable(text) {
        return None;
    }
    let mut iter = text.chars();
    let c = iter.next()?;
    if !is_syllable(c as u32) {
        return None;
    }
    Some((c as u32, iter.as_str()))
}

/// The syllable whose jamo a text begins with, and what follows them. Where the text has fewer bytes than
/// three jamo, none is told.
#[inline(always)]
#[tactic(auto, using(crate::proofs::SyllableTextLemmas::syllable_front_answers))]
fn jamo_text_front(text: &str) -> Option<(u32, &str)>
    ensures { IfSome result (λ cut. BeginsWithSyllable text.now cut.1.now cut.0) }
{
    let bytes = text.as_bytes();
    if bytes.len() < THREE_JAMO {
        return None;
    }
    let JamoFront { syllable, len } = jamo_front(bytes)?;
    Some((syllable, &text[len..]))
}

/// The syllable that a text begins with, precomposed or, where `joins` asks for that, by its jamo, and what follows it.
#[inline(always)]
fn syllable_front(joins: bool, text: &str) -> Option<(u32, &str)>
    ensures { IfSome result (λ cut. BeginsWithSyllable text.now cut.1.now cut.0) }
{
    if joins {
        if let Some((syllable, later)) = jamo_text_front(text) {
            return Some((syllable, later));
        }
    }
    precomposed_front(text)
}

/// Whether each ASCII character is known to be copied alone, which is asked once for a text.
#[inline(always)]
fn is_ascii_alone<T: NormTable>(table: &T, form: Form) -> bool
    ensures { IsTrue result → AsciiIsCopiedAlone (T.model table.now) form }
{
    table.meets_conditions();
    table.ascii_passes(form)
}

/// The ASCII character that a text begins with, where each is known to be copied alone, and what follows it.
#[inline(always)]
fn space_front<'a, T: NormTable>(
    table: &T,
    form: Form,
    ascii: bool,
    text: &'a str,
) -> Option<(char, &'a str)>
    requires { ascii ≡ true → AsciiIsCopiedAlone (T.model table.now) form }
    ensures alone { IfSome result (λ cut. IsCopiedAlone (T.model table.now) form cut.0) }
    ensures parts { IfSome result (λ cut. text.now ≡ encode_utf8 cut.0 ++ cut.1.now) }
{
    table.meets_conditions();
    // of the form the clauses alone speak
    let _unused = form;
    if !ascii {
        return None;
    }
    let mut iter = text.chars();
    let c = iter.next()?;
    if c.is_ascii() {
        Some((c, iter.as_str()))
    } else {
        None
    }
}

/// What follows an ASCII character that was written: a syllable.
#[derive(Clone, Copy)]
struct SpacedSyllable<'a> {
    /// What follows the character, and begins with the syllable.
    begun: &'a str,
    syllable: u32,
    /// What follows the syllable.
    rest: &'a str,
}

/// Appends the ASCII character that a text begins with, as told beside what follows it, where a syllable does.
#[inline(always)]
fn write_space<'a, T: NormTable>(
    normalizer: &Normalizer<'_, T>,
    joins: bool,
    text: &'a str,
    space: Option<(char, &'a str)>,
    out: &mut OutText,
) -> Result<Option<SpacedSyllable<'a>>, Memory>
    requires on { has_hangul (T.model normalizer.now.table.now) ≡ true }
    requires leading_consonants { composes normalizer.now.form ≡ true → LeadingAreBoundaries (T.model normalizer.now.table.now) normalizer.now.form }
    requires alone { IfSome space (λ cut. IsCopiedAlone (T.model normalizer.now.table.now) normalizer.now.form cut.0) }
    requires parts { IfSome space (λ cut. text.now ≡ encode_utf8 cut.0 ++ cut.1.now) }
    ensures goes { IfOk result (λ cut. IfSome cut (λ next. AppendsForm (T.model normalizer.now.table.now) normalizer.now.form text.now next.begun.now
        out.old out.new)) }
    ensures read { IfOk result (λ cut. IfSome cut (λ next. IsReadAssigned (T.model normalizer.now.table.now) text.now next.begun.now)) }
    ensures begins { IfOk result (λ cut. IfSome cut (λ next. BeginsWithSyllable next.begun.now next.rest.now next.syllable)) }
    ensures none { IfOk result (λ cut. IfNone cut (out.new ≡ out.old)) }
{
    normalizer.table.meets_conditions();
    let Some((c, later)) = space else {
        return Ok(None);
    };
    let Some((syllable, rest)) = syllable_front(joins, later) else {
        return Ok(None);
    };
    out.append_char(c)?;
    Ok(Some(SpacedSyllable {
        begun: later,
        syllable,
        rest,
    }))
}

/// Appends the full decompositions of the syllables at the front of a text, of which single ASCII
/// characters may stand between two, where the arithmetic is on, and answers what follows them.
pub(crate) fn write_syllables<'a, T: NormTable>(
    normalizer: &Normalizer<'_, T>,
    text: &'a str,
    out: &mut OutText,
) -> Result<&'a str, Memory>
    requires { composes normalizer.now.form ≡ false }
    ensures goes { IfOk result (λ rest. AppendsForm (T.model normalizer.now.table.now) normalizer.now.form text.now rest.now out.old out.new) }
    ensures read { IfOk result (λ rest. IsReadAssigned (T.model normalizer.now.table.now) text.now rest.now) }
{
    let table = normalizer.table;
    let form = normalizer.form;
    table.meets_conditions();
    if !table.hangul() {
        return Ok(text);
    }
    let Some((mut syllable, mut later)) = syllable_front(false, text) else {
        return Ok(text);
    };
    let ascii = is_ascii_alone(table, form);
    'scan: loop {
        push_syllable(out, syllable)?;
        if let Some((next, behind)) = syllable_front(false, later) {
            syllable = next;
            later = behind;
            continue;
        }
        let space = space_front(table, form, ascii, later);
        let Some(spaced) = write_space(normalizer, false, later, space, out)? else {
            return Ok(later);
        };
        syllable = spaced.syllable;
        later = spaced.rest;
    }
}

/// Whether the form is known to have a boundary before a text, of which it is told where it begins with an ASCII
/// character that is copied alone.
#[inline(always)]
fn has_boundary_before<T: NormTable>(
    table: &T,
    form: Form,
    text: &str,
    space: Option<(char, &str)>,
) -> bool
    requires alone { IfSome space (λ cut. IsCopiedAlone (T.model table.now) form cut.0) }
    requires parts { IfSome space (λ cut. text.now ≡ encode_utf8 cut.0 ++ cut.1.now) }
    ensures { IsTrue result → BeginsAtBoundary (T.model table.now) form (chars text.now) }
{
    match space {
        Some((_c, _later)) => true,
        None => begins_at_boundary(table, form, text),
    }
}

/// Appends the syllables at the front of a text, by their jamo or precomposed, of which single ASCII
/// characters may stand between two, and answers what follows them. Each is read once: what follows one tells
/// whether a boundary is there. It is called, so that the loop has the registers for itself.
#[inline(never)]
fn write_joined<'a, T: NormTable>(
    normalizer: &Normalizer<'_, T>,
    text: &'a str,
    out: &mut OutText,
) -> Result<&'a str, Memory>
    requires on { has_hangul (T.model normalizer.now.table.now) ≡ true }
    requires form { composes normalizer.now.form ≡ true }
    requires leading_consonants { LeadingAreBoundaries (T.model normalizer.now.table.now) normalizer.now.form }
    ensures goes { IfOk result (λ rest. AppendsForm (T.model normalizer.now.table.now) normalizer.now.form text.now rest.now out.old out.new) }
    ensures read { IfOk result (λ rest. IsReadAssigned (T.model normalizer.now.table.now) text.now rest.now) }
{
    let table = normalizer.table;
    let form = normalizer.form;
    table.meets_conditions();
    let Some((mut syllable, mut later)) = syllable_front(true, text) else {
        return Ok(text);
    };
    let ascii = is_ascii_alone(table, form);
    // it begins with the syllable, and `later` is what follows that
    let mut rest = text;
    'scan: loop {
        if let Some((next, behind)) = syllable_front(true, later) {
            push_joined(out, syllable)?;
            rest = later;
            syllable = next;
            later = behind;
            continue;
        }
        let space = space_front(table, form, ascii, later);
        if !has_boundary_before(table, form, later, space) {
            return Ok(rest);
        }
        push_joined(out, syllable)?;
        let Some(spaced) = write_space(normalizer, true, later, space, out)? else {
            return Ok(later);
        };
        rest = spaced.begun;
        syllable = spaced.syllable;
        later = spaced.rest;
    }
}

/// Appends the syllables whose jamo stand at the front of a text, where the arithmetic is on and
/// leading consonants are boundaries, and answers what follows them. It is made part of what calls it, so that
/// any other text costs one comparison.
#[inline(always)]
pub(crate) fn join_syllables<'a, T: NormTable>(
    normalizer: &Normalizer<'_, T>,
    text: &'a str,
    out: &mut OutText,
) -> Result<&'a str, Memory>
    requires { composes normalizer.now.form ≡ true }
    ensures goes { IfOk result (λ rest. AppendsForm (T.model normalizer.now.table.now) normalizer.now.form text.now rest.now out.old out.new) }
    ensures read { IfOk result (λ rest. IsReadAssigned (T.model normalizer.now.table.now) text.now rest.now) }
{
    let table = normalizer.table;
    let form = normalizer.form;
    if begins_as_jamo(text) && table.hangul() && table.leading_consonants_are_boundaries(form) {
        return write_joined(normalizer, text, out);
    }
    Ok(text)
}
