//! Texts, codes, forms' names and syllables.
use np_code_points::Form;
use np_code_points::codes::{code_of, hex_value, scalar_of, write_unassigned};
use np_code_points::hangul::{hangul_pair, hangul_parts};
use np_code_points::text::{NotUtf8, chars_of, string_of, text_of};
use np_examples_shared::told::want_told;
use np_examples_shared::want;
use std::alloc::Global;
use std::test::Fail;

// (bytes, the text that they are, or the first that are none)
const TEXTS: &[(&[u8], Result<&str, NotUtf8>)] = &[
    (b"\x61\xcc\x82", Ok("\u{61}\u{302}")),
    (b"a\xcc", Err(NotUtf8 { at: 1 })),
];

fn read_texts(rows: &[(&[u8], Result<&str, NotUtf8>)]) -> Result<(), Fail> {
    for row in rows {
        want(text_of(row.0) == row.1, "a text")?;
    }
    Ok(())
}

// (bytes, the code point that they stand for)
const CODES: &[(&[u8], Option<u32>)] = &[
    (b"00e2", Some(0xE2)),
    (b"10FFFF", Some(0x10FFFF)),
    (b"110000", None),
    (b"041", None),
    (b"0000041", None),
    (b"004G", None),
];

fn read_codes(rows: &[(&[u8], Option<u32>)]) -> Result<(), Fail> {
    for row in rows {
        want(code_of(row.0) == row.1, "a code")?;
    }
    Ok(())
}

// (bytes, the code point that they write, where it is no surrogate)
const SCALARS: &[(&[u8], Option<char>)] = &[
    (b"0061", Some('a')),
    (b"D7FF", Some('\u{D7FF}')),
    (b"D800", None),
    (b"dfff", None),
    (b"10fffF", Some('\u{10FFFF}')),
];

fn read_scalars(rows: &[(&[u8], Option<char>)]) -> Result<(), Fail> {
    for row in rows {
        want(scalar_of(row.0) == row.1, "a scalar")?;
    }
    Ok(())
}

#[test]
fn texts_and_codes_are_read(_rt: HostRuntime) -> Result<(), Fail> {
    read_texts(TEXTS)?;
    read_codes(CODES)?;
    read_scalars(SCALARS)?;
    let digits = hex_value(b'f') == Some(15) && hex_value(b'G').is_none();
    want(digits, "a digit, and no digit")
}

#[test]
fn forms_have_names_and_bytes(_rt: HostRuntime) -> Result<(), Fail> {
    let names = Form::of_name("nfkc") == Some(Form::Nfkc) && Form::of_name("NFC").is_none();
    want(names, "a name, and none in capitals")?;
    let back = Form::of_byte(Form::Nfkd.byte()) == Some(Form::Nfkd);
    want(back, "a byte")?;
    want(Form::Nfkd.compat() && Form::Nfc.composes(), "what they are")
}

// (two parts, their syllable)
const PAIRS: &[(char, char, Option<char>)] = &[
    ('\u{1100}', '\u{1161}', Some('\u{AC00}')),
    ('\u{AC00}', '\u{11A7}', None),
    ('\u{AC00}', '\u{11A8}', Some('\u{AC01}')),
    ('\u{AC00}', '\u{11C2}', Some('\u{AC1B}')),
    ('\u{AC00}', '\u{11C3}', None),
];

fn compose(rows: &[(char, char, Option<char>)]) -> Result<(), Fail> {
    for row in rows {
        want(hangul_pair(row.0, row.1) == row.2, "a pair")?;
    }
    Ok(())
}

// (a code point, its two parts): AC01, the last syllable, and what is behind it.
const PARTS: &[(char, Option<(char, char)>)] = &[
    ('\u{AC01}', Some(('\u{AC00}', '\u{11A8}'))),
    ('\u{D7A3}', Some(('\u{D788}', '\u{11C2}'))),
    ('\u{D7A4}', None),
];

fn decompose(rows: &[(char, Option<(char, char)>)]) -> Result<(), Fail> {
    for row in rows {
        want(hangul_parts(row.0) == row.1, "two parts")?;
    }
    Ok(())
}

#[test]
fn syllables_map_to_pairs(_rt: HostRuntime) -> Result<(), Fail> {
    compose(PAIRS)?;
    decompose(PARTS)
}

/// Fails unless the code points have a text of so many bytes, and come back from it.
fn come_back(alloc: Global, chars: &[char], bytes: usize) -> Result<(), Fail> {
    let text = string_of(alloc, chars)?;
    want(text.len() == bytes, "the bytes of the text")?;
    want(chars_of(alloc, text.as_str())?.as_slice() == chars, "back")
}

#[test]
fn long_texts_have_memory(rt: HostRuntime) -> Result<(), Fail> {
    // 2 MiB and more of memory that is there
    let chars = vec![in rt.alloc(); '\u{E2}'; 1_048_577]?;
    come_back(rt.alloc(), chars.as_slice(), 2_097_154)
}

#[test]
fn a_fault_says_the_place(rt: HostRuntime) -> Result<(), Fail> {
    want_told(rt.alloc(), &[(NotUtf8 { at: 17 }, "not UTF-8 at byte 17")])
}

#[test]
fn an_unassigned_code_point_is_told_behind_what_was_written(rt: HostRuntime) -> Result<(), Fail> {
    let mut text = String::from_str(rt.alloc(), "!")?;
    write_unassigned(&mut text, 1, '\u{16D67}')?;
    want(
        text.as_str() == "!unassigned 16D67 at byte 1",
        "the code and its place",
    )
}
