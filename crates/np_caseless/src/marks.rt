//! The code points at the front of a text that are marked as their own images.
ghost use Rattle.std.specs.Prelude.{ℕ, List, chars as code_points, drop, length, IsTrue, IsUtf8};
ghost use Rattle.std.specs.List.{All};
ghost use Rattle.np_forms.specs.inside.Readings.{IsRead};
ghost use Rattle.np_caseless.specs.inside.ImageTables.{IsMarked, IsMarkedUpTo};

use crate::characters::{one_at, three_at, two_at};

/// Whether a code point is marked as its own image.
#[inline(always)]
pub(crate) fn is_marked_code(own: &[u8], code: usize) -> bool
    ensures { IsTrue result → IsMarked own.now code }
{
    match own.get(code) {
        Some(mark) => *mark == 1,
        None => true,
    }
}

/// Whether a character is.
pub(crate) fn is_marked(own: &[u8], code: char) -> bool
    ensures { IsTrue result → IsMarked own.now code }
{
    is_marked_code(own, u32::from(code) as usize)
}

/// How many bytes at the front of a text have marked code points of one to three bytes.
#[inline(always)]
fn marked_front(own: &[u8], bytes: &[u8]) -> usize
    requires { IsUtf8 bytes.now }
    ensures { IsMarkedUpTo own.now bytes.now result }
{
    let mut at = 0;
    'codes: while at < bytes.len() {
        let lead_byte = bytes[at];
        if lead_byte < 0x80 {
            if !is_marked_code(own, one_at(bytes, at).code) {
                return at;
            }
            at += 1;
        } else if lead_byte / 32 == 6 {
            if !is_marked_code(own, two_at(bytes, at).code) {
                return at;
            }
            at += 2;
        } else if lead_byte / 16 == 14 {
            if !is_marked_code(own, three_at(bytes, at).code) {
                return at;
            }
            at += 3;
        } else {
            return at;
        }
    }
    at
}

/// What follows the code points at the front of a text that are marked.
pub(crate) fn behind_marked<'t>(own: &[u8], text: &'t str) -> &'t str
    ensures { (front : List ℕ) × IsRead text.now result.now front × All (IsMarked own.now) front }
{
    let mut rest = text;
    'scan: loop {
        let left = &rest[marked_front(own, rest.as_bytes())..];
        let mut iter = left.chars();
        let Some(code) = iter.next() else {
            return left;
        };
        if !is_marked(own, code) {
            return left;
        }
        rest = iter.as_str();
    }
}

/// Whether each code point of a text is marked.
pub(crate) fn are_marked(own: &[u8], text: &str) -> bool
    ensures { IsTrue result → All (IsMarked own.now) (code_points text.now) }
{
    behind_marked(own, text).is_empty()
}
