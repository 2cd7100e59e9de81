//! Syllables and jamo that are not as the Hangul arithmetic wants them.
ghost use Rattle.std.specs.Prelude.{◌≡◌, ℕ, true, false};
ghost use Rattle.np_versions.specs.Faults.{IsHangulWrong};
ghost use Rattle.np_versions.specs.inside.FirstFaults.{IsFirst};
ghost use Rattle.np_versions.specs.inside.HangulRows.{HasAssignedHangul};
ghost use Rattle.np_versions.specs.Versions.{is_assigned, is_hangul};

use crate::characters::CharacterData;
use crate::hangul_rows::{HANGUL_COUNT, hangul_at};

/// Whether some syllable or jamo is assigned.
#[tactic(auto, using(crate::proofs::HangulLemmas::having, crate::proofs::HangulLemmas::lacking))]
fn has_some(characters: &CharacterData) -> bool
    ensures some { result ≡ true → HasAssignedHangul characters.now }
    ensures none { result ≡ false → (c : ℕ) → is_hangul c ≡ true → is_assigned characters.now c ≡ false }
{
    for place in 0..HANGUL_COUNT {
        if characters.assigned(hangul_at(place)) {
            return true;
        }
    }
    false
}

/// The least syllable or jamo that is not as the arithmetic wants it, where some is assigned.
pub(crate) fn first_wrong(characters: &CharacterData) -> Option<u32>
    ensures { IsFirst (IsHangulWrong characters.now) result }
{
    // where the arithmetic is on, all of them were found right once
    if characters.has_hangul() || !has_some(characters) {
        return None;
    }
    for place in 0..HANGUL_COUNT {
        let code = hangul_at(place);
        if !characters.is_hangul_row(code) {
            return Some(code);
        }
    }
    None
}
