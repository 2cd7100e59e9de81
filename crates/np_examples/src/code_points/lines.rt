//! Worked examples of lines.
use np_code_points::lines::{DataLine, DataLines, cut};
use np_examples_shared::want;
use std::test::Fail;

/// Whether there is a data line of this text and this number.
fn is_line(line: Option<DataLine<'_>>, wanted: &(&str, u64)) -> bool {
    match line {
        Some(line) => line.text == wanted.0.as_bytes() && line.number == wanted.1,
        None => false,
    }
}

/// Fails unless these data lines come, with their numbers, and no more, of so many lines.
fn want_lines(bytes: &[u8], wanted: &[(&str, u64)], passed: u64) -> Result<(), Fail> {
    let mut lines = DataLines::new(bytes);
    for row in wanted {
        want(is_line(lines.next(), row), row.0)?;
    }
    want(lines.next().is_none(), "no more data")?;
    want(lines.passed() == passed, "so many lines")
}

// The data lines of a text, which has six lines.
const DATA: &[(&str, u64)] = &[("a", 1), (" b#\r", 5), ("d", 6)];

#[test]
fn blank_lines_and_comments_are_counted_and_skipped(_rt: HostRuntime) -> Result<(), Fail> {
    want_lines(b"a\r\n\n \t\n#c\n b#\r\r\nd", DATA, 6)?;
    // nothing after the last line feed is a line
    want_lines(b"\n\n", &[], 2)
}

// (bytes, what is in front of the first semicolon, what is behind it)
const CUT: &[(&[u8], &[u8], Option<&[u8]>)] = &[(b"a;b;c", b"a", Some(b"b;c")), (b"a", b"a", None)];

#[test]
fn a_cut_is_at_the_first_such_byte(_rt: HostRuntime) -> Result<(), Fail> {
    for row in CUT {
        want(cut(row.0, b';') == (row.1, row.2), "a cut")?;
    }
    Ok(())
}
