//! The strings and the bytes that the words of an event write.
ghost use Rattle.std.specs.Prelude.{◌≡◌, ◌+◌, ◌*◌, ◌&&◌, Some, None, chars, string_bytes, IfOk, IfErr, if◌then◌else◌};
ghost use Rattle.std.specs.Char.{digit_value};
ghost use Rattle.np_code_points.specs.Codes.{is_hex_digit};
ghost use Rattle.np_code_points.specs.inside.WordValues.{scalars_of};
ghost use Rattle.np_schedules.specs.inside.LineReading.{Lacks};
ghost use Rattle.np_schedules.specs.inside.LineValues.{behind_slash, halves_value, hex_pairs, hex_words, up_to_slash};

use crate::reading::faults::LineFault;
use np_code_points::codes::{hex_value, scalar_of};
use np_code_points::words::Words;
use std::alloc::Global;

/// A string, and whether a `/` stands behind it or the line's end.
#[derive(Drop)]
struct Part {
    string: String,
    at_slash: bool,
}

/// The string that the words up to the next `/` write, in so many bytes at most.
fn part_in(alloc: Global, most: usize, words: &mut Words<'_>) -> Result<Part, LineFault>
    ensures codes { IfOk result (λ part. scalars_of (up_to_slash words.old) ≡ Some (chars (string_bytes part.string))) }
    ensures rest { IfOk result (λ part. behind_slash words.old ≡ (if part.at_slash then Some words.new else None)) }
    ensures refused { IfErr result (Lacks (scalars_of (up_to_slash words.old))) }
{
    let mut string = String::with_capacity(alloc, most)?;
    while let Some(word) = words.next() {
        if word == b"/".as_slice() {
            return Ok(Part {
                string,
                at_slash: true,
            });
        }
        let Some(code) = scalar_of(word) else {
            return Err(LineFault::Unfit);
        };
        string.push(code)?;
    }
    Ok(Part {
        string,
        at_slash: false,
    })
}

/// The string that all words write, in so many bytes at most.
pub(crate) fn string_in(
    alloc: Global,
    most: usize,
    mut words: Words<'_>,
) -> Result<String, LineFault>
    ensures codes { IfOk result (λ string. scalars_of words.entry ≡ Some (chars (string_bytes string))) }
    ensures refused { IfErr result (Lacks (scalars_of words.entry)) }
{
    let part = part_in(alloc, most, &mut words)?;
    if part.at_slash {
        return Err(LineFault::Unfit);
    }
    Ok(part.string)
}

/// The strings that the words on both sides of the only `/` write, in so many bytes each at most.
pub(crate) fn halves_in(
    alloc: Global,
    most: usize,
    mut words: Words<'_>,
) -> Result<(String, String), LineFault>
    ensures codes { IfOk result (λ halves. halves_value words.entry ≡ Some (chars (string_bytes halves.0), chars (string_bytes halves.1))) }
    ensures refused { IfErr result (Lacks (halves_value words.entry)) }
{
    let left = part_in(alloc, most, &mut words)?;
    if !left.at_slash {
        return Err(LineFault::Unfit);
    }
    let right = string_in(alloc, most, words)?;
    Ok((left.string, right))
}

/// The byte of two hex digits.
fn byte_in(high: u8, low: u8) -> Option<u8>
    ensures { result ≡ (if is_hex_digit high && is_hex_digit low then Some (digit_value high * 16 + digit_value low) else None) }
{
    let high = hex_value(high)?;
    let low = hex_value(low)?;
    Some((high * 16 + low) as u8)
}

/// The bytes that a word writes, in two hex digits each.
fn bytes_of(alloc: Global, word: &[u8]) -> Result<Vec<u8>, LineFault>
    ensures bytes { IfOk result (λ bytes. hex_pairs word.now ≡ Some bytes.items) }
    ensures refused { IfErr result (Lacks (hex_pairs word.now)) }
{
    let mut bytes = Vec::with_capacity(alloc, word.len() / 2)?;
    let mut left = word;
    while let [high, low, behind @ ..] = left {
        let Some(byte) = byte_in(*high, *low) else {
            return Err(LineFault::Unfit);
        };
        bytes.push(byte)?;
        left = behind;
    }
    if left.is_empty() {
        Ok(bytes)
    } else {
        Err(LineFault::Unfit)
    }
}

/// The bytes that at most one word writes.
pub(crate) fn bytes_in(alloc: Global, mut words: Words<'_>) -> Result<Vec<u8>, LineFault>
    ensures bytes { IfOk result (λ bytes. hex_words words.entry ≡ Some bytes.items) }
    ensures refused { IfErr result (Lacks (hex_words words.entry)) }
{
    let Some(word) = words.next() else {
        return Ok(Vec::new(alloc));
    };
    if words.next().is_some() {
        return Err(LineFault::Unfit);
    }
    bytes_of(alloc, word)
}
