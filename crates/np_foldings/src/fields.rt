//! The fields of a record of CaseFolding.txt.
ghost use Rattle.std.specs.Prelude.{◌≡◌, ◌∷◌, [], option_map, MatchOption};
ghost use Rattle.np_ucd.specs.inside.ExclusionReading.{before_blanks as back_dropped, entry_text};
ghost use Rattle.np_ucd.specs.inside.FieldReading.{fields_of as parts};
ghost use Rattle.np_foldings.specs.inside.FieldReading.{ends_empty, fields_value};
ghost use Rattle.np_foldings.specs.inside.RecordValues.{fields_said};

use np_code_points::lines::{cut_short, is_blank};
use np_code_points::words::{Dividers, after_dividers};

/// The fields that are read.
#[derive(Clone, Copy)]
pub(crate) struct Fields<'a> {
    pub code: &'a [u8],
    pub status: &'a [u8],
    pub mapping: &'a [u8],
}

/// The text without the spaces and tabs at its end.
fn before_blanks(text: &[u8]) -> &[u8]
    ensures { result.now ≡ back_dropped text.now }
{
    let mut end = text.len();
    while end > 0 && is_blank(text[end - 1]) {
        end -= 1;
    }
    &text[..end]
}

/// What a line or a field says: what stands before the first `#`, without the spaces and tabs around.
pub(crate) fn text_of(bytes: &[u8]) -> &[u8]
    ensures { result.now ≡ entry_text bytes.now }
{
    let (text, _comment) = cut_short(bytes, b'#');
    before_blanks(after_dividers(text, Dividers::Blanks))
}

/// The first field, and what is behind its `;`; nothing where there is one field.
pub(crate) fn next_field(rest: &[u8]) -> Option<(&[u8], &[u8])>
    ensures { MatchOption result (parts rest.now ≡ rest.now ∷ []) (λ p. parts rest.now ≡ p.0.now ∷ parts p.1.now) }
{
    let (field, rest) = cut_short(rest, b';');
    Some((field, rest?))
}

/// Whether no `;` is among these bytes, and they say nothing.
fn is_empty_end(last: &[u8]) -> bool
    ensures { result ≡ ends_empty (parts last.now) }
{
    match next_field(last) {
        Some(_) => false,
        None => text_of(last).is_empty(),
    }
}

/// The fields of a record that has four, of which the last one is empty.
pub(crate) fn fields_of(text: &[u8]) -> Option<Fields<'_>>
    ensures { option_map fields_said result ≡ fields_value text.now }
{
    let (code, rest) = next_field(text)?;
    let (status, rest) = next_field(rest)?;
    let (mapping, last) = next_field(rest)?;
    if !is_empty_end(last) {
        return None;
    }
    Some(Fields {
        code: text_of(code),
        status: text_of(status),
        mapping: text_of(mapping),
    })
}
