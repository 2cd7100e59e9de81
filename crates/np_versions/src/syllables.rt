//! Hangul syllables by arithmetic, where a data file has it on (The Unicode Standard, section 3.12).
ghost use Rattle.std.specs.Prelude.{◌≡◌, ◌&&◌, ◌∷◌, [], ℕ, true, false, IfSome, IfNone};
ghost use Rattle.np_code_points.specs.Hangul.{is_syllable, syllable_pair};
ghost use Rattle.np_versions.specs.Versions.{has_hangul};

use crate::characters::CharacterData;
use np_code_points::hangul::hangul_pair;

/// The syllable of the arithmetic that maps to a pair.
pub(crate) fn arithmetic_pair(characters: &CharacterData, first: char, second: char) -> Option<char>
    ensures some { IfSome result (λ s. (has_hangul characters.now && is_syllable s) ≡ true) }
    ensures pair { IfSome result (λ s. syllable_pair s ≡ first ∷ second ∷ []) }
    ensures none { IfNone result ((s : ℕ) → (has_hangul characters.now && is_syllable s) ≡ true → ¬ (syllable_pair s ≡ first ∷ second ∷ [])) }
{
    if characters.has_hangul() {
        hangul_pair(first, second)
    } else {
        None
    }
}
