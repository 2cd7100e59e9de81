//! Texts as bytes and as code points.
ghost use Rattle.std.specs.Prelude.{◌≡◌, ◌↔◌, ◌<◌, length, IfOk, IfErr, IsOk, IsUtf8, chars as chars_in, encode_utf8_all, string_bytes};
ghost use Rattle.np_code_points.specs.Text.{IsLongestValidPrefix};

use crate::Memory;
use std::alloc::Global;
use thiserror::Error;

/// Bytes are not UTF-8: their longest prefix that is UTF-8 has `at` bytes.
#[derive(Clone, Copy, Debug, PartialEq, Eq, Error)]
#[error("not UTF-8 at byte {at}")]
pub struct NotUtf8 {
    pub at: usize,
}

/// The bytes as a text, where they are UTF-8 (The Unicode Standard, D92). Takes no memory.
///
/// # Errors
///
/// `NotUtf8` where they are not, with the length of their longest prefix that is.
pub fn text_of(bytes: &[u8]) -> Result<&str, NotUtf8>
    ensures ok { IfOk result (λ text. text.now ≡ bytes.now) }
    ensures valid { IsOk result ↔ IsUtf8 bytes.now }
    ensures place { IfErr result (λ fault. IsLongestValidPrefix bytes.now fault.at) }
    ensures inside { IfErr result (λ fault. fault.at < length bytes.now) }
{
    match simdutf8::compat::from_utf8(bytes) {
        Ok(text) => Ok(text),
        Err(fault) => Err(NotUtf8 {
            at: fault.valid_up_to(),
        }),
    }
}

/// The code points of a text, in time linear in its length.
///
/// # Errors
///
/// `Memory` where room for one code point for each byte of the text is refused.
pub fn chars_of(alloc: Global, text: &str) -> Result<Vec<char>, Memory>
    ensures { IfOk result (λ v. v.items ≡ chars_in text.now) }
{
    let mut found = Vec::with_capacity(alloc, text.len())?;
    for c in text.chars() {
        found.push(c)?;
    }
    Ok(found)
}

/// The text of the code points, in time linear in their number.
///
/// # Errors
///
/// `Memory` where room for the text is refused.
pub fn string_of(alloc: Global, chars: &[char]) -> Result<String, Memory>
    ensures bytes { IfOk result (λ s. string_bytes s ≡ encode_utf8_all chars.now) }
    ensures same { IfOk result (λ s. chars_in (string_bytes s) ≡ chars.now) }
{
    let mut text = String::with_capacity(alloc, chars.len())?;
    for c in chars {
        text.push(*c)?;
    }
    Ok(text)
}
