//! Hangul syllables read from the UTF-8 of their jamo (The Unicode Standard, section 3.12).
ghost use Rattle.std.specs.Prelude.{◌≡◌, ◌+◌, ◌*◌, ◌<◌, ◌≤◌, ◌∷◌, [], ℕ, true, length, slice_index, take, encode_utf8, encode_utf8_all, IfSome};
ghost use Rattle.np_code_points.specs.Hangul.{is_syllable as in_block};
ghost use Rattle.np_forms.specs.inside.Syllables.{syllable_parts};

use np_code_points::hangul::{L_COUNT, S_BASE, T_BASE, T_COUNT, V_BASE, V_COUNT};

/// How many bytes three jamo have.
pub(crate) const THREE_JAMO: usize = 9;

/// How many bytes two jamo have.
const TWO_JAMO: usize = 6;

/// Two bytes as one number, so that one comparison tells both.
#[inline(always)]
fn two_as_one(a: u8, b: u8) -> u32
    ensures { result ≡ a + b * 256 }
{
    u32::from(a) + u32::from(b) * 0x100
}

/// The number of the leading consonant that the first three bytes encode, from 0. The third isn't read where
/// the first two are of none.
#[inline(always)]
#[tactic(auto, using(crate::proofs::SyllableTextLemmas::encoded))]
fn leading_index(bytes: &[u8]) -> Option<u32>
    requires { 3 ≤ length bytes.now }
    ensures among { IfSome result (λ n. n < 19) }
    ensures encoded { IfSome result (λ n. encode_utf8 (0x1100 + n) ≡ slice_index bytes.now 0 ∷ slice_index bytes.now 1 ∷ slice_index bytes.now 2 ∷ []) }
{
    if two_as_one(bytes[0], bytes[1]) != 0x84E1 {
        return None;
    }
    let index = u32::from(bytes[2]).wrapping_sub(0x80);
    if index < L_COUNT { Some(index) } else { None }
}

/// The number of the vowel that the three bytes behind these encode, from 0.
#[inline(always)]
#[tactic(auto, using(crate::proofs::SyllableTextLemmas::encoded))]
fn vowel_index(bytes: &[u8]) -> Option<u32>
    requires { 6 ≤ length bytes.now }
    ensures among { IfSome result (λ n. n < 21) }
    ensures encoded { IfSome result (λ n. encode_utf8 (0x1161 + n) ≡ slice_index bytes.now 3 ∷ slice_index bytes.now 4 ∷ slice_index bytes.now 5 ∷ []) }
{
    if two_as_one(bytes[3], bytes[4]) != 0x85E1 {
        return None;
    }
    let index = u32::from(bytes[5]).wrapping_sub(0xA1);
    if index < V_COUNT { Some(index) } else { None }
}

/// The number of the trailing consonant that three bytes encode, from 1; 0 where they encode none.
#[inline(always)]
#[tactic(auto, using(crate::proofs::SyllableTextLemmas::encoded))]
fn trailing_index(a: u8, b: u8, c: u8) -> u32
    ensures among { result < 28 }
    ensures encoded { 0 < result → encode_utf8 (0x11A7 + result) ≡ a ∷ b ∷ c ∷ [] }
{
    // what the last two bytes of 11A7 would give is 0
    let index = (u32::from(b) * 64 + u32::from(c)).wrapping_sub(0x86 * 64 + 0xA7);
    if a == 0xE1 && c >= 0x80 && c < 0xC0 && index < T_COUNT {
        index
    } else {
        0
    }
}

/// The jamo of a syllable at the front of some bytes.
#[derive(Clone, Copy)]
pub(crate) struct JamoFront {
    pub syllable: u32,
    /// How many bytes the jamo have.
    pub len: usize,
}

/// The syllable whose jamo some bytes begin with. A trailing consonant that joins it is taken.
#[inline(always)]
pub(crate) fn jamo_front(bytes: &[u8]) -> Option<JamoFront>
    requires { 9 ≤ length bytes.now }
    ensures syllable { IfSome result (λ front. in_block front.syllable ≡ true) }
    ensures some { IfSome result (λ front. 0 < front.len) }
    ensures within { IfSome result (λ front. front.len ≤ length bytes.now) }
    ensures encoded { IfSome result (λ front. take front.len bytes.now ≡ encode_utf8_all (syllable_parts front.syllable)) }
{
    let leading = leading_index(bytes)?;
    let vowel = vowel_index(bytes)?;
    let trailing = trailing_index(bytes[6], bytes[7], bytes[8]);
    let syllable = S_BASE + (leading * V_COUNT + vowel) * T_COUNT + trailing;
    if trailing == 0 {
        let len = TWO_JAMO;
        return Some(JamoFront { syllable, len });
    }
    let len = THREE_JAMO;
    Some(JamoFront { syllable, len })
}
