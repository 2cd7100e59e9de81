//! What a version says of code points.
ghost use Rattle.std.specs.Prelude.{◌≡◌, None, Some, IfOk, IfSome, string_bytes};
ghost use Rattle.np_versions.specs.Versions.{decomposition_kind};
ghost use Rattle.np_c.specs.Codes.{IsAssignedAnswer, IsCompositeAnswer, IsDecompositionAnswer, IsDecompositionOf, IsPropertyAnswer, number_of};
ghost use Rattle.np_c.specs.Statuses.{alone};
ghost use Rattle.np_c.specs.Versions.{version_in};

use crate::answers::{Answer, CLOSED, DIFFERENT, DONE, MEMORY, NO_CODE, UNASSIGNED};
use crate::content::Content;
use crate::room::put;
use crate::texts::text_in;
use np_code_points::Memory;
use np_code_points::hangul::is_syllable;
use np_code_points::text::string_of;
use np_forms::{first_unassigned_char, full_decomposition};
use np_ucd::MapKind;
use np_versions::{NormTable, Version};
use std::alloc::Global;

/// The last code point.
const LAST: u32 = 0x10_FFFF;

/// The kind of the mapping of a code point: a syllable of the arithmetic maps to its pair.
fn kind_of(version: &Version, code: u32) -> MapKind
    ensures { result ≡ decomposition_kind version.now code }
{
    if version.has_hangul() && is_syllable(code) {
        MapKind::Canonical
    } else {
        version.kind_of(code)
    }
}

/// The number of a kind of mapping.
fn kind_number(kind: MapKind) -> u32
    ensures { result ≡ number_of kind }
{
    match kind {
        MapKind::Plain => 0,
        MapKind::Canonical => 1,
        MapKind::Compatibility => 2,
    }
}

/// What a version says of a code point: its class, the kind of its mapping, and whether it is excluded.
pub fn tell_property(version: &Version, code: u32) -> Answer
    ensures { IsPropertyAnswer version.now code result }
{
    if code > LAST {
        return Answer::of(NO_CODE);
    }
    if !version.assigned_code(code) {
        return Answer {
            code,
            ..Answer::of(UNASSIGNED)
        };
    }
    Answer {
        fault: kind_number(kind_of(version, code)),
        code: u32::from(version.class_of(code)),
        place: u64::from(version.is_excluded(code)),
        ..Answer::of(DONE)
    }
}

/// What the version of the table that is held says of a code point. The table stays where it stands.
pub fn tell_property_by(content: &Content, code: u32) -> Answer
    ensures told { IfSome (version_in (Some content.now)) (λ v. IsPropertyAnswer v code result) }
    ensures closed { version_in (Some content.now) ≡ None → result ≡ alone 5 }
{
    match content.table() {
        Some(shared) => tell_property(shared.table.version(), code),
        None => Answer::of(CLOSED),
    }
}

/// The bytes of the full decomposition of a code point.
///
/// # Errors
///
/// `Memory` where memory ran out.
fn decomposition_of<T: NormTable>(
    alloc: Global,
    table: &T,
    compat: bool,
    c: char,
) -> Result<String, Memory>
    ensures { IfOk result (λ made. IsDecompositionOf (T.model table.now) compat c (string_bytes made)) }
{
    let codes = full_decomposition(alloc, table, compat, c)?;
    let made = string_of(alloc, &codes)?;
    Ok(made)
}

/// Writes the full decomposition of a code point into the room.
pub fn write_decomposition<T: NormTable>(
    alloc: Global,
    table: &T,
    compat: bool,
    code: u32,
    room: &mut [u8],
) -> Answer
    ensures { IsDecompositionAnswer (T.model table.now) compat code room.old room.new result }
{
    let Some(c) = char::from_u32(code) else {
        return Answer::of(NO_CODE);
    };
    match decomposition_of(alloc, table, compat, c) {
        Ok(made) => put(made.as_bytes(), room),
        Err(_) => Answer::of(MEMORY),
    }
}

/// The primary composite of two code points.
pub fn tell_composite(version: &Version, first: u32, second: u32) -> Answer
    ensures { IsCompositeAnswer version.now first second result }
{
    let (Some(a), Some(b)) = (char::from_u32(first), char::from_u32(second)) else {
        return Answer::of(NO_CODE);
    };
    match version.composite_of(a, b) {
        Some(c) => Answer {
            code: u32::from(c),
            ..Answer::of(DONE)
        },
        None => Answer::of(DIFFERENT),
    }
}

/// The first code point of a text that is not assigned.
pub fn tell_first_unassigned<T: NormTable>(table: &T, bytes: &[u8]) -> Answer
    ensures { IsAssignedAnswer (T.model table.now) bytes.now result }
{
    let text = match text_in(0, bytes) {
        Ok(text) => text,
        Err(answer) => return answer,
    };
    match first_unassigned_char(table, text) {
        Some((at, c)) => Answer {
            code: u32::from(c),
            place: at as u64,
            ..Answer::of(UNASSIGNED)
        },
        None => Answer::of(DONE),
    }
}

/// The first code point of a text that is not assigned by the table that is held, which stays where it stands.
pub fn tell_first_unassigned_by(content: &Content, bytes: &[u8]) -> Answer
    ensures told { IfSome (version_in (Some content.now)) (λ v. IsAssignedAnswer v bytes.now result) }
    ensures closed { version_in (Some content.now) ≡ None → result ≡ alone 5 }
{
    match content.table() {
        Some(shared) => tell_first_unassigned(&*shared.table, bytes),
        None => Answer::of(CLOSED),
    }
}
