//! Characters of one to three bytes where they stand in a text.
ghost use Rattle.std.specs.Prelude.{◌≡◌, ◌<◌, ◌/◌, drop, get_or, length, IfSome, IsUtf8};
ghost use Rattle.std.specs.Str.{IsCharBoundary};
ghost use Rattle.np_caseless.specs.inside.SimpleImages.{IsCodeAt};

/// A character in a text.
#[derive(Clone, Copy)]
pub(crate) struct Character {
    /// Where it begins.
    pub(crate) at: usize,
    /// How many bytes it has.
    pub(crate) count: usize,
    pub(crate) code: usize,
}

/// The character of one byte at a place.
#[inline(always)]
pub(crate) fn one_at(bytes: &[u8], at: usize) -> Character
    requires place { at < length bytes.now }
    requires lead_byte { get_or bytes.now at 0 < 0x80 }
    requires utf8 { IsUtf8 (drop at bytes.now) }
    ensures here { IsCodeAt bytes.now at 1 result.code }
    ensures within { result.code < 0x3000 }
    ensures place { result.at ≡ at }
    ensures count { result.count ≡ 1 }
{
    Character {
        at,
        count: 1,
        code: usize::from(bytes[at]),
    }
}

/// The character of two bytes at a place. What marks these as such is taken off all at once.
#[inline(always)]
pub(crate) fn two_at(bytes: &[u8], at: usize) -> Character
    requires place { at < length bytes.now }
    requires lead_byte { get_or bytes.now at 0 / 32 ≡ 6 }
    requires utf8 { IsUtf8 (drop at bytes.now) }
    ensures here { IsCodeAt bytes.now at 2 result.code }
    ensures within { result.code < 0x3000 }
    ensures place { result.at ≡ at }
    ensures count { result.count ≡ 2 }
{
    let code = usize::from(bytes[at]) * 64 + usize::from(bytes[at + 1]) - 0x3080;
    Character { at, count: 2, code }
}

/// The character of three bytes at a place.
#[inline(always)]
pub(crate) fn three_at(bytes: &[u8], at: usize) -> Character
    requires place { at < length bytes.now }
    requires lead_byte { get_or bytes.now at 0 / 16 ≡ 14 }
    requires utf8 { IsUtf8 (drop at bytes.now) }
    ensures here { IsCodeAt bytes.now at 3 result.code }
    ensures place { result.at ≡ at }
    ensures count { result.count ≡ 3 }
{
    let code = usize::from(bytes[at]) * 4096
        + usize::from(bytes[at + 1]) * 64
        + usize::from(bytes[at + 2])
        - 0xE_2080;
    Character { at, count: 3, code }
}

/// The character at a place, however many bytes it has; none at the end.
pub(crate) fn char_at(text: &str, at: usize) -> Option<Character>
    requires { IsCharBoundary text.now at }
    ensures here { IfSome result (λ here. IsCodeAt text.now at here.count here.code) }
    ensures place { IfSome result (λ here. here.at ≡ at) }
{
    let code = text[at..].chars().next()?;
    Some(Character {
        at,
        count: code.len_utf8(),
        code: u32::from(code) as usize,
    })
}
