//! The lowercases of UnicodeData.txt.
ghost use Rattle.std.specs.Prelude.{◌≡◌, [], IfOk, IsTrue};
ghost use Rattle.np_code_points.specs.inside.WordCuts.{words_of};
ghost use Rattle.np_code_points.specs.declared.words.Dividers.TheVariants.{Spaces as BySpaces};
ghost use Rattle.np_ucd.specs.inside.FieldReading.{opens_range as opening, closes_range as closing};
ghost use Rattle.np_ucd.specs.inside.RecordReading.{field};
ghost use Rattle.np_foldings.specs.Lowercases.{AreLowercases};
ghost use Rattle.np_foldings.specs.inside.LowercaseReading.{said_lower, word_code, listed_lower};

use crate::fields::next_field;
use np_code_points::Memory;
use np_code_points::codes::code_of;
use np_code_points::lines::{DataLines, count};
use np_code_points::words::{Dividers, Words};
use std::alloc::Global;

const CODE: usize = 0;

const NAME: usize = 1;

const LOWERCASE: usize = 13;

const LAST: usize = 14;

/// A code point and its lowercase (UAX #44, Simple_Lowercase_Mapping).
#[derive(Clone, Copy, Debug, PartialEq, Eq)]
pub struct Lowercase {
    /// The code point.
    pub code: u32,
    /// Its lowercase, which may be the code point itself.
    pub lower: u32,
}

/// The field at a place, from 0; nothing where there are not so many.
fn field_at(text: &[u8], at: usize) -> &[u8]
    ensures { result.now ≡ field at text.now }
{
    let mut rest = text;
    for _passed in 0..at {
        match next_field(rest) {
            Some((_field, behind)) => rest = behind,
            None => return &[],
        }
    }
    match next_field(rest) {
        Some((field, _behind)) => field,
        None => rest,
    }
}

/// Whether a record of this name begins a range.
#[tactic(auto, unfolding(np_ucd::specs::inside::FieldReading::opens_range))]
fn opens_range(name: &[u8]) -> bool
    ensures { result ≡ opening name.now }
{
    name.ends_with(b", First>")
}

/// Whether a record of this name ends a range.
#[tactic(auto, unfolding(np_ucd::specs::inside::FieldReading::closes_range))]
fn closes_range(name: &[u8]) -> bool
    ensures { result ≡ closing name.now }
{
    name.ends_with(b", Last>")
}

/// The code point that a field writes, where it writes one and nothing but spaces around it.
fn written_code(field: &[u8]) -> Option<u32>
    ensures { result ≡ word_code (words_of BySpaces field.now) }
{
    let mut words = Words::new(field, Dividers::Spaces);
    let word = words.next()?;
    match words.next() {
        Some(_) => None,
        None => code_of(word),
    }
}

/// Whether a record of fifteen fields is known to say none: its last two fields are empty, as those of nearly each record are.
fn says_none(text: &[u8]) -> bool
    ensures { IsTrue result → said_lower text.now ≡ [] }
{
    text.ends_with(b";;") && count(text, b';') == LAST
}

/// The lowercase that a record says.
fn lower_of(text: &[u8]) -> Option<Lowercase>
    ensures { listed_lower result ≡ said_lower text.now }
{
    if says_none(text) {
        return None;
    }
    let lower = written_code(field_at(text, LOWERCASE))?;
    let name = field_at(text, NAME);
    if opens_range(name) {
        return None;
    }
    if closes_range(name) {
        return None;
    }
    let code = code_of(field_at(text, CODE))?;
    Some(Lowercase { code, lower })
}

/// The lowercases that the bytes of UnicodeData.txt list, in the order of their lines. Nothing of that field is a fault: where
/// it writes no code point, there is no lowercase. In time linear in the bytes.
///
/// # Errors
///
/// `Memory` where memory ran out.
pub fn lowercases_of(alloc: Global, bytes: &[u8]) -> Result<Vec<Lowercase>, Memory>
    ensures { IfOk result (λ pairs. AreLowercases bytes.now pairs.items) }
{
    let mut pairs = Vec::new(alloc);
    for line in DataLines::new(bytes) {
        if let Some(pair) = lower_of(line.text) {
            pairs.push(pair)?;
        }
    }
    Ok(pairs)
}
