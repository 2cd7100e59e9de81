//! Texts of assigned code points.
ghost use Rattle.std.specs.Prelude.{◌≡◌, ℕ, chars, length, encode_utf8_all, IfSome, IfNone};
ghost use Rattle.np_forms.specs.Assigned.{IsAssigned, IsFirstUnassigned};

use crate::precomputed_texts::behind_ascii;
use np_code_points::Form;
use np_versions::{NormTable, Version};

/// The first code point of a short text that is not assigned, with its byte place, from 0; none where each is
/// assigned. It is called, so that the loop that writes forms, which seldom asks, stays small.
#[inline(never)]
pub(crate) fn first_unassigned_of_few<T: NormTable>(table: &T, text: &str) -> Option<(usize, char)>
    ensures none { IfNone result (IsAssigned (T.model table.now) (chars text.now)) }
    ensures some { IfSome result (λ found. IsFirstUnassigned (T.model table.now) (chars text.now) found.0 found.1) }
{
    let mut iter = text.chars();
    'scan: loop {
        let here = iter.as_str();
        let Some(code) = iter.next() else {
            return None;
        };
        if !table.assigned(code) {
            return Some((text.len() - here.len(), code));
        }
    }
}

/// The first code point that is not assigned, with its byte place, from 0; none where each is
/// assigned. ASCII that a table knows to be assigned is passed sixteen bytes at a time.
#[inline(never)]
pub fn first_unassigned_char<T: NormTable>(table: &T, text: &str) -> Option<(usize, char)>
    ensures none { IfNone result (IsAssigned (T.model table.now) (chars text.now)) }
    ensures some { IfSome result (λ found. IsFirstUnassigned (T.model table.now) (chars text.now) found.0 found.1) }
{
    let ascii = table.ascii_passes(Form::Nfc);
    let mut rest = text;
    'scan: loop {
        let here = behind_ascii(ascii, rest);
        let mut iter = here.chars();
        let Some(c) = iter.next() else {
            return None;
        };
        if !table.assigned(c) {
            return Some((text.len() - here.len(), c));
        }
        rest = iter.as_str();
    }
}

/// The first code point that a version does not assign, with its byte place, from 0; none where it
/// assigns each. No table is needed for it.
pub fn first_unassigned_in_version(version: &Version, text: &str) -> Option<(usize, char)>
    ensures none { IfNone result (IsAssigned version.now (chars text.now)) }
    ensures some { IfSome result (λ found. IsFirstUnassigned version.now (chars text.now) found.0 found.1) }
{
    let mut iter = text.chars();
    'scan: loop {
        let here = iter.as_str();
        let Some(c) = iter.next() else {
            return None;
        };
        if !version.assigned_code(u32::from(c)) {
            return Some((text.len() - here.len(), c));
        }
    }
}

/// The byte place, from 0, of the first code point that is not assigned; none where each is.
pub fn first_unassigned<T: NormTable>(table: &T, text: &str) -> Option<usize>
    ensures none { IfNone result (IsAssigned (T.model table.now) (chars text.now)) }
    ensures some { IfSome result (λ at. (code : ℕ) × IsFirstUnassigned (T.model table.now) (chars text.now) at code) }
{
    match first_unassigned_char(table, text) {
        None => None,
        Some((at, _)) => Some(at),
    }
}
