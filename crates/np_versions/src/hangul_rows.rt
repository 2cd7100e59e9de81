//! The rows of the Hangul syllables and jamo (The Unicode Standard, section 3.12).
ghost use Rattle.std.specs.Prelude.{◌≡◌, ◌<◌, ◌≤◌, ◌+◌, ℕ, true, false, List};
ghost use Rattle.np_ucd.specs.Entries.{AreRows};
ghost use Rattle.np_ucd.specs.Listed.{Span};
ghost use Rattle.np_versions.specs.Versions.{has_hangul};
ghost use Rattle.np_versions.specs.inside.HangulRows.{hangul_at as spec_hangul_at, is_right_at};

use crate::row_index::RowIndex;
use np_code_points::hangul::{L_BASE, L_COUNT, S_BASE, S_COUNT, T_BASE, T_COUNT, V_BASE, V_COUNT};

/// How many syllables and jamo there are.
pub(crate) const HANGUL_COUNT: u32 = JAMO_COUNT + S_COUNT;

/// How many jamo there are.
const JAMO_COUNT: u32 = L_COUNT + V_COUNT + T_COUNT - 1;

/// The syllable or jamo at a place, from 0, by code point.
pub(crate) fn hangul_at(place: u32) -> u32
    requires { place < 11239 }
    ensures { result ≡ spec_hangul_at place }
{
    if place < L_COUNT {
        L_BASE + place
    } else if place < L_COUNT + V_COUNT {
        V_BASE + (place - L_COUNT)
    } else if place < JAMO_COUNT {
        T_BASE + 1 + (place - (L_COUNT + V_COUNT))
    } else {
        S_BASE + (place - JAMO_COUNT)
    }
}

/// Whether a code point is assigned, of class 0 and without a mapping.
fn is_right(rows: &RowIndex, code: u32) -> bool
    ensures { result ≡ is_right_at rows.now code }
{
    match rows.row_at(code) {
        Some(row) => row.class == 0 && row.mapping.is_empty(),
        None => false,
    }
}

/// How many syllables or jamo from a place on are right, as the row of the first one tells: none where that one is
/// not. All syllables lie in one row of a published file, so that they need no look-up each.
fn right_from(rows: &RowIndex, place: u32) -> u32
    requires rows { AreRows rows.now }
    requires place { place < 11239 }
    ensures wrong { result ≡ 0 → is_right_at rows.now (spec_hangul_at place) ≡ false }
    ensures right { (k : ℕ) → place ≤ k → k < place + result → is_right_at rows.now (spec_hangul_at k) ≡ true }
    ensures bound { result ≤ 0x110000 }
{
    let code = hangul_at(place);
    if !is_right(rows, code) {
        return 0;
    }
    match rows.row_at(code) {
        Some(row) if place >= JAMO_COUNT => row.last - code + 1,
        _ => 1,
    }
}

/// Whether all syllables and jamo are assigned, of class 0 and without a mapping, which no exclusion changes.
#[tactic(auto, using(crate::proofs::RightLemmas::wrong_at, crate::proofs::RightLemmas::right_below))]
pub(crate) fn all_right(rows: &RowIndex) -> bool
    requires { AreRows rows.now }
    ensures { (spans : List Span) → result ≡ has_hangul (record { entries = rows.now; exclusions = spans }) }
{
    let mut place = 0;
    while place < HANGUL_COUNT {
        let right = right_from(rows, place);
        if right == 0 {
            return false;
        }
        place += right;
    }
    true
}
