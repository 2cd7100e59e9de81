//! Hangul syllables by arithmetic (The Unicode Standard, section 3.12).
ghost use Rattle.std.specs.Prelude.{◌≡◌, ◌+◌, ◌<◌, ◌↔◌, ℕ, true, [], ◌∷◌, IsSome, IfSome, IfNone};
ghost use Rattle.np_code_points.specs.Hangul.{is_among as among, is_syllable as in_block, syllable_pair};

/// SBase, the first syllable.
pub const S_BASE: u32 = 0xAC00;

/// SCount, how many syllables there are.
pub const S_COUNT: u32 = 11_172;

/// LBase, the first leading consonant.
pub const L_BASE: u32 = 0x1100;

/// LCount, how many leading consonants there are.
pub const L_COUNT: u32 = 19;

/// VBase, the first vowel.
pub const V_BASE: u32 = 0x1161;

/// VCount, how many vowels there are.
pub const V_COUNT: u32 = 21;

/// TBase, one before the first trailing consonant.
pub const T_BASE: u32 = 0x11A7;

/// TCount, one more than there are trailing consonants.
pub const T_COUNT: u32 = 28;

/// NCount, the syllables of one leading consonant.
const N_COUNT: u32 = 588;

/// Whether the code is one of the `count` from `base` on.
fn is_among(base: u32, count: u32, code: u32) -> bool
    ensures { result ≡ among base count code }
{
    base <= code && code - base < count
}

/// The character of a code below the surrogates.
fn character(code: u32) -> char
    requires { code < 0xD800 }
    ensures { result ≡ code }
{
    char::from_u32(code).unwrap()
}

/// Whether a code point is one of the 11,172 Hangul syllables.
pub fn is_syllable(code: u32) -> bool
    ensures { result ≡ in_block code }
{
    is_among(S_BASE, S_COUNT, code)
}

/// The two code points that a Hangul syllable maps to: a leading consonant and a vowel, or a
/// syllable of those two and a trailing consonant. `None` for all other characters.
pub fn hangul_parts(syllable: char) -> Option<(char, char)>
    ensures some { IsSome result ↔ (in_block syllable ≡ true) }
    ensures parts { IfSome result (λ parts. syllable_pair syllable ≡ parts.0 ∷ parts.1 ∷ []) }
{
    let code = syllable as u32;
    if !is_among(S_BASE, S_COUNT, code) {
        return None;
    }
    let index = code - S_BASE;
    let trailing = index % T_COUNT;
    if trailing == 0 {
        let leading = character(L_BASE + index / N_COUNT);
        let vowel = character(V_BASE + index % N_COUNT / T_COUNT);
        Some((leading, vowel))
    } else {
        Some((character(code - trailing), character(T_BASE + trailing)))
    }
}

/// The Hangul syllable that maps to the pair. `None` where there is none.
pub fn hangul_pair(first: char, second: char) -> Option<char>
    ensures some { IfSome result (λ s. in_block s ≡ true) }
    ensures parts { IfSome result (λ s. syllable_pair s ≡ first ∷ second ∷ []) }
    ensures none { IfNone result ((s : ℕ) → in_block s ≡ true → syllable_pair s ≡ first ∷ second ∷ [] → ⊥) }
{
    let (a, b) = (first as u32, second as u32);
    if is_among(L_BASE, L_COUNT, a) && is_among(V_BASE, V_COUNT, b) {
        return Some(character(S_BASE + (a - L_BASE) * N_COUNT + (b - V_BASE) * T_COUNT));
    }
    if is_among(S_BASE, S_COUNT, a)
        && (a - S_BASE) % T_COUNT == 0
        && is_among(T_BASE + 1, T_COUNT - 1, b)
    {
        return Some(character(a + (b - T_BASE)));
    }
    None
}
