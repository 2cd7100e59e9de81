//! The first character of a text, read from its bytes (The Unicode Standard, D92).
//!
//! It is read in three ways, since what costs time is a jump that the processor guesses wrong. `split_two` and
//! `split_three` ask one comparison whether it has so many bytes, which is guessed well where most have as many.
//! `few_at` is told that a character of several bytes begins, and cuts nothing. `split_any` takes all.
ghost use Rattle.std.specs.Prelude.{◌≡◌, ◌++◌, ◌<◌, ◌≤◌, length, encode_utf8, slice_index, IfSome};
ghost use Rattle.np_tables.specs.inside.LeadBytes.{BeginsWithChar};

/// The first character of a text, and what follows it.
#[derive(Clone, Copy)]
pub(crate) struct First<'a> {
    pub c: char,
    pub rest: &'a str,
}

/// A character, and how many bytes it has.
#[derive(Clone, Copy)]
pub(crate) struct Few {
    pub c: char,
    pub count: usize,
}

/// The first character of a text that is not empty.
#[inline(always)]
pub(crate) fn split_any(text: &str) -> Option<First<'_>>
    ensures parts { IfSome result (λ first. text.now ≡ encode_utf8 first.c ++ first.rest.now) }
    ensures shorter { IfSome result (λ first. length first.rest.now < length text.now) }
{
    let mut iter = text.chars();
    let c = iter.next()?;
    let rest = iter.as_str();
    Some(First { c, rest })
}

/// The first character of a text, where it has two bytes.
#[inline(always)]
pub(crate) fn split_two(text: &str) -> Option<First<'_>>
    ensures parts { IfSome result (λ first. text.now ≡ encode_utf8 first.c ++ first.rest.now) }
    ensures shorter { IfSome result (λ first. length first.rest.now < length text.now) }
{
    let bytes = text.as_bytes();
    if bytes.is_empty() || bytes[0] / 32 != 6 {
        return None;
    }
    let code = u32::from(bytes[0] % 32) * 64 + u32::from(bytes[1] % 64);
    let c = unsafe { char::from_u32_unchecked(code) };
    let rest = &text[2..];
    Some(First { c, rest })
}

/// The first character of a text, where it has three bytes.
#[inline(always)]
pub(crate) fn split_three(text: &str) -> Option<First<'_>>
    ensures parts { IfSome result (λ first. text.now ≡ encode_utf8 first.c ++ first.rest.now) }
    ensures shorter { IfSome result (λ first. length first.rest.now < length text.now) }
{
    let bytes = text.as_bytes();
    if bytes.is_empty() || bytes[0] / 16 != 14 {
        return None;
    }
    let code = u32::from(bytes[0] % 16) * 4096
        + u32::from(bytes[1] % 64) * 64
        + u32::from(bytes[2] % 64);
    let c = unsafe { char::from_u32_unchecked(code) };
    let rest = &text[3..];
    Some(First { c, rest })
}

/// The first character of a text, where it has two or three bytes. That it has three is guessed well.
#[inline(always)]
pub(crate) fn few_at(text: &str) -> Option<Few>
    requires long { 3 ≤ length text.now }
    requires lead_byte { 192 ≤ slice_index text.now 0 }
    ensures { IfSome result (λ few. BeginsWithChar text.now few.c few.count) }
{
    let bytes = text.as_bytes();
    let lead_byte = u32::from(bytes[0]);
    let second = u32::from(bytes[1] % 64);
    if lead_byte / 16 == 14 {
        let code = lead_byte % 16 * 4096 + second * 64 + u32::from(bytes[2] % 64);
        let c = unsafe { char::from_u32_unchecked(code) };
        return Some(Few { c, count: 3 });
    }
    if lead_byte / 16 == 15 {
        return None;
    }
    let c = unsafe { char::from_u32_unchecked(lead_byte % 32 * 64 + second) };
    Some(Few { c, count: 2 })
}
