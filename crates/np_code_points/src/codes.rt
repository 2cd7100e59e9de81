//! Code points in hex digits, as UnicodeData.txt has them (UAX #44).
ghost use Rattle.std.specs.Char.{digit_value};
ghost use Rattle.std.specs.Prelude.{◌≡◌, ◌<◌, ◌++◌, ◌↔◌, ℕ, true, false, IsNone, IfSome, MatchOption, SomeIff, IfOk, is_ok, string_bytes, if◌then◌else◌};
ghost use Rattle.std.specs.Str.{IsAscii};
ghost use Rattle.np_code_points.specs.Codes.{IsScalarOf, unassigned, code_digits, code_value, hex_digit as upper_hex_digit, is_code, is_hex_digit};
ghost use Rattle.np_code_points.specs.inside.WordValues.{scalar_value};

use crate::Memory;

/// How many code points there are: each is below this number (The Unicode Standard, D9 and D10).
pub const CODE_POINTS: u32 = 0x11_0000;

/// The value of each byte that is a hex digit; 255 for the others. One look-up is quicker than the
/// tests of `char::to_digit`, and codes are most of what is read of a data file.
const HEX_VALUES: [u8; 256] = [
    255, 255, 255, 255, 255, 255, 255, 255, 255, 255, 255, 255, 255, 255, 255, 255, 255, 255, 255,
    255, 255, 255, 255, 255, 255, 255, 255, 255, 255, 255, 255, 255, 255, 255, 255, 255, 255, 255,
    255, 255, 255, 255, 255, 255, 255, 255, 255, 255, 0, 1, 2, 3, 4, 5, 6, 7, 8, 9, 255, 255, 255,
    255, 255, 255, 255, 10, 11, 12, 13, 14, 15, 255, 255, 255, 255, 255, 255, 255, 255, 255, 255,
    255, 255, 255, 255, 255, 255, 255, 255, 255, 255, 255, 255, 255, 255, 255, 255, 10, 11, 12, 13,
    14, 15, 255, 255, 255, 255, 255, 255, 255, 255, 255, 255, 255, 255, 255, 255, 255, 255, 255,
    255, 255, 255, 255, 255, 255, 255, 255, 255, 255, 255, 255, 255, 255, 255, 255, 255, 255, 255,
    255, 255, 255, 255, 255, 255, 255, 255, 255, 255, 255, 255, 255, 255, 255, 255, 255, 255, 255,
    255, 255, 255, 255, 255, 255, 255, 255, 255, 255, 255, 255, 255, 255, 255, 255, 255, 255, 255,
    255, 255, 255, 255, 255, 255, 255, 255, 255, 255, 255, 255, 255, 255, 255, 255, 255, 255, 255,
    255, 255, 255, 255, 255, 255, 255, 255, 255, 255, 255, 255, 255, 255, 255, 255, 255, 255, 255,
    255, 255, 255, 255, 255, 255, 255, 255, 255, 255, 255, 255, 255, 255, 255, 255, 255, 255, 255,
    255, 255, 255, 255, 255, 255, 255, 255, 255, 255, 255, 255, 255, 255, 255, 255, 255, 255, 255,
    255, 255, 255,
];

/// The value of a hex digit of either case. `None` for other bytes.
pub fn hex_value(byte: u8) -> Option<u32>
    ensures { SomeIff result (is_hex_digit byte ≡ true) (digit_value byte) }
{
    let value = HEX_VALUES[usize::from(byte)];
    if value < 16 {
        Some(u32::from(value))
    } else {
        None
    }
}

/// The code point that the bytes stand for: exactly four to six hex digits of either case, with a
/// value of at most 10FFFF. `None` for all other bytes.
pub fn code_of(bytes: &[u8]) -> Option<u32>
    ensures value { result ≡ code_value bytes.now }
    ensures none { IsNone result ↔ (is_code bytes.now ≡ false) }
    ensures bound { IfSome result (λ code. code < 0x110000) }
{
    if bytes.len() < 4 || bytes.len() > 6 {
        return None;
    }
    let mut code: u32 = 0;
    for byte in bytes {
        let digit = hex_value(*byte)?;
        code = code * 16 + digit;
    }
    if code <= 0x10FFFF { Some(code) } else { None }
}

/// The code point that a word writes as `code_of` reads it, where it is no surrogate (The Unicode
/// Standard, D76). `None` for all other words.
#[tactic(auto, unfolding(crate::specs::inside::WordValues::scalar_value))]
pub fn scalar_of(word: &[u8]) -> Option<char>
    ensures value { result ≡ scalar_value word.now }
    ensures scalar { MatchOption result ((code : ℕ) → IsScalarOf word.now code → ⊥) (IsScalarOf word.now) }
{
    char::from_u32(code_of(word)?)
}

/// The upper-case hex digit of a number below 16.
fn hex_digit(digit: u8) -> u8
    requires { digit < 16 }
    ensures { result ≡ upper_hex_digit digit }
{
    if digit < 10 {
        b'0' + digit
    } else {
        b'A' - 10 + digit
    }
}

/// Appends ASCII bytes.
fn push_ascii(out: &mut String, bytes: &[u8]) -> Result<(), Memory>
    requires { IsAscii bytes.now }
    ensures { string_bytes out.new ≡ (if is_ok result then string_bytes out.old ++ bytes.now else string_bytes out.old) }
{
    let text = std::str::from_utf8(bytes).unwrap();
    out.push_str(text)?;
    Ok(())
}

/// Appends a code in upper-case hex digits: at least four, and no zero in front where there are
/// more. After a `Memory` the text is as it was.
pub fn write_code(out: &mut String, code: u32) -> Result<(), Memory>
    ensures { string_bytes out.new ≡ (if is_ok result then string_bytes out.old ++ code_digits code else string_bytes out.old) }
{
    let mut digits = [b'0'; 8];
    let mut at: usize = 8;
    let mut left = code;
    while left > 0 {
        at -= 1;
        digits[at] = hex_digit((left % 16) as u8);
        left /= 16;
    }
    push_ascii(out, &digits[at.min(4)..])
}

/// Appends that a text has an unassigned code point at a byte place, from 0: `unassigned 16D67 at byte 1`.
///
/// # Errors
///
/// `Memory` where memory ran out; some first bytes of the words may be appended then.
pub fn write_unassigned(out: &mut String, at: usize, code: char) -> Result<(), Memory>
    ensures { IfOk result (λ _. string_bytes out.new ≡ string_bytes out.old ++ unassigned at code) }
{
    out.push_str("unassigned ")?;
    write_code(out, u32::from(code))?;
    write!(out, " at byte {at}")?;
    Ok(())
}
