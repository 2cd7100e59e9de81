//! Calls that were refused for want of memory: what they were lent is as it was, and the same call succeeds
//! after all.
use np_code_points::Memory;
use np_code_points::codes::write_code;
use np_code_points::text::{chars_of, string_of};
use np_examples_shared::want;
use std::alloc::Global;
use std::test::Fail;

const TEXT: &str = "\u{61}\u{302}";

const CHARS: &[char] = &['\u{61}', '\u{302}'];

fn chars_again(alloc: Global) -> Result<Vec<char>, Memory> {
    match chars_of(alloc, TEXT) {
        Err(Memory) => chars_of(alloc, TEXT),
        made => made,
    }
}

#[test]
fn a_refused_chars_of_succeeds_after_all(rt: HostRuntime) -> Result<(), Fail> {
    let same = chars_again(rt.alloc())?.as_slice() == CHARS;
    want(same, "two code points")
}

fn string_again(alloc: Global) -> Result<String, Memory> {
    match string_of(alloc, CHARS) {
        Err(Memory) => string_of(alloc, CHARS),
        made => made,
    }
}

#[test]
fn a_refused_string_of_succeeds_after_all(rt: HostRuntime) -> Result<(), Fail> {
    let same = string_again(rt.alloc())?.as_str() == TEXT;
    want(same, "their text")
}

/// Appends a code, a second time where memory is refused for it.
fn append(text: &mut String, code: u32, before: &str) -> Result<(), Fail> {
    if write_code(text, code).is_err() {
        want(text.as_str() == before, "a refused code changes nothing")?;
        write_code(text, code)?;
    }
    Ok(())
}

#[test]
fn a_refused_write_code_succeeds_after_all(rt: HostRuntime) -> Result<(), Fail> {
    let mut text = String::new(rt.alloc());
    append(&mut text, 0x41, "")?;
    append(&mut text, 0x16D67, "0041")?;
    append(&mut text, 0x10FFFF, "004116D67")?;
    want(text.as_str() == "004116D6710FFFF", "one behind the other")
}
