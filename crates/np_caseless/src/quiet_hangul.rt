//! Hangul, which folds in no published version.
ghost use Rattle.std.specs.Prelude.{◌≡◌, ◌+◌, ◌<◌, ◌||◌, ℕ, true, IsTrue};
ghost use Rattle.np_code_points.specs.Hangul.{is_among as among};
ghost use Rattle.np_caseless.specs.Folded.{is_quiet};
ghost use Rattle.np_versions.specs.Versions.{is_hangul as hangul};

use crate::quiet::code_at;
use np_code_points::hangul::{L_BASE, L_COUNT, T_BASE, T_COUNT, V_BASE, V_COUNT, is_syllable};
use np_foldings::Foldings;

/// Whether a code point is one of so many from the first on.
fn is_among(first: u32, count: u32, code: u32) -> bool
    requires { first + count < 0x110000 }
    ensures { result ≡ among first count code }
{
    first <= code && code < first + count
}

/// Whether a code point is a jamo of the arithmetic or a syllable.
fn is_hangul(code: u32) -> bool
    ensures { result ≡ hangul code }
{
    is_among(L_BASE, L_COUNT, code)
        || is_among(V_BASE, V_COUNT, code)
        || is_among(T_BASE + 1, T_COUNT - 1, code)
        || is_syllable(code)
}

/// Whether it is known that neither jamo nor syllables fold.
pub(crate) fn is_hangul_quiet(foldings: &Foldings) -> bool
    ensures { IsTrue result → (c : ℕ) → hangul c ≡ true → is_quiet foldings.now c ≡ true }
{
    for at in 0..foldings.len() {
        if let Some(code) = code_at(foldings, at) {
            if is_hangul(code) {
                return false;
            }
        }
    }
    true
}
