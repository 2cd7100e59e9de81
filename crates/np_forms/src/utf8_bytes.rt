//! The bytes of a character in UTF-8 (The Unicode Standard, D92).
ghost use Rattle.std.specs.Prelude.{◌≡◌, ◌≤◌, ◌<◌, ◌+◌, ◌/◌, ◌%◌, encode_utf8};

/// The first of the three bytes of a character.
#[inline(always)]
pub(crate) fn lead_byte(code: u32) -> u8
    requires { code < 0x1_0000 }
    ensures { result ≡ 224 + code / 4096 }
{
    (0xE0 + code / 4096) as u8
}

/// The second of the three bytes of a character.
#[inline(always)]
pub(crate) fn middle_byte(code: u32) -> u8
    ensures { result ≡ 128 + code / 64 % 64 }
{
    (0x80 + code / 64 % 64) as u8
}

/// The last byte of a character that has several.
#[inline(always)]
pub(crate) fn last_byte(code: u32) -> u8
    ensures { result ≡ 128 + code % 64 }
{
    (0x80 + code % 64) as u8
}

/// The two bytes of a character.
#[inline(always)]
#[tactic(auto, using(np_versions::proofs::Utf8Lemmas::encode_two))]
pub(crate) fn two_bytes(code: u32) -> [u8; 2]
    requires { (0x80 ≤ code) × (code < 0x800) }
    ensures { result ≡ encode_utf8 code }
{
    [(0xC0 + code / 64) as u8, last_byte(code)]
}

/// The three bytes of a character.
#[inline(always)]
#[tactic(auto, using(np_versions::proofs::Utf8Lemmas::encode_three))]
pub(crate) fn three_bytes(code: u32) -> [u8; 3]
    requires { (0x800 ≤ code) × (code < 0x1_0000) }
    ensures { result ≡ encode_utf8 code }
{
    [lead_byte(code), middle_byte(code), last_byte(code)]
}

/// The four bytes of a character.
#[inline(always)]
#[tactic(auto, using(np_versions::proofs::Utf8Lemmas::encode_four))]
pub(crate) fn four_bytes(code: u32) -> [u8; 4]
    requires { (0x1_0000 ≤ code) × (code < 0x11_0000) }
    ensures { result ≡ encode_utf8 code }
{
    [
        (0xF0 + code / 0x4_0000) as u8,
        (0x80 + code / 0x1000 % 64) as u8,
        middle_byte(code),
        last_byte(code),
    ]
}
