//! The plain table and the table of pages beside each other.
use super::LAST;
use np_code_points::hangul::is_syllable;
use np_examples_shared::{Files, Made, S, V1, V2, table_of, want};
use np_tables::{PageTable, RowTable};
use np_versions::NormTable;
use std::alloc::Global;
use std::test::Fail;

// First parts of pairs and second parts, and neighbours of theirs; 11A7 is no trailing consonant.
const PARTS: &[(char, char)] = &[
    ('\u{0}', '\u{0}'),
    ('\u{41}', '\u{301}'),
    ('\u{61}', '\u{302}'),
    ('\u{308}', '\u{308}'),
    ('\u{915}', '\u{30A}'),
    ('\u{1100}', '\u{323}'),
    ('\u{1EA1}', '\u{93C}'),
    ('\u{AC00}', '\u{1161}'),
    ('\u{AC01}', '\u{11A7}'),
    ('\u{D788}', '\u{11A8}'),
    ('\u{16D67}', '\u{16D67}'),
    ('\u{10FFFF}', '\u{10FFFF}'),
];

/// Whether both say the same of the pairs that a code point begins and those that it ends.
fn same_pairs<T: NormTable, U: NormTable>(one: &T, two: &U, c: char) -> bool {
    for row in PARTS {
        let begins = one.pair(c, row.1) == two.pair(c, row.1);
        if !begins || one.pair(row.0, c) != two.pair(row.0, c) {
            return false;
        }
    }
    true
}

fn same_answers<T: NormTable, U: NormTable>(one: &T, two: &U, c: char) -> bool {
    one.class(c) == two.class(c)
        && one.full(c, false) == two.full(c, false)
        && one.full(c, true) == two.full(c, true)
}

/// Whether a code point lies in one of the two long ranges, of syllables and of private use.
fn is_of_many(code: u32) -> bool {
    is_syllable(code) || 0xE000 <= code && code <= 0xF8FF
}

/// Whether both say the same of a code point. Of an unassigned one more is looked at only where its
/// number is a multiple of 61, which meets each place in a block.
fn same_of<T: NormTable, U: NormTable>(one: &T, two: &U, c: char) -> bool {
    let code = u32::from(c);
    let assigned = one.assigned(c);
    if two.assigned(c) != assigned {
        return false;
    }
    if !assigned {
        return code % 61 != 0 || same_answers(one, two, c);
    }
    same_answers(one, two, c) && (is_of_many(code) || same_pairs(one, two, c))
}

fn same_at<T: NormTable, U: NormTable>(one: &T, two: &U, code: u32) -> bool {
    match char::from_u32(code) {
        Some(c) => same_of(one, two, c),
        None => true,
    }
}

fn same_everywhere<T: NormTable, U: NormTable>(one: &T, two: &U) -> bool {
    for code in 0..0x110000 {
        if !same_at(one, two, code) {
            return false;
        }
    }
    true
}

fn same_between_parts<T: NormTable, U: NormTable>(one: &T, two: &U) -> bool {
    for row in PARTS {
        if !same_pairs(one, two, row.0) {
            return false;
        }
    }
    true
}

fn answer_alike<T: NormTable, U: NormTable>(one: &T, two: &U) -> Result<(), Fail> {
    want(one.hangul() == two.hangul(), "the arithmetic")?;
    want(same_everywhere(one, two), "a code point")?;
    want(same_between_parts(one, two), "a pair")
}

/// Fails unless a table of the files answers as another one does.
fn answers_as<T: Made, U: Made>(alloc: Global, one: &T, files: Files<'_>) -> Result<(), Fail> {
    let two: U = table_of(alloc, files)?;
    answer_alike(one, &two)
}

fn both_answer_alike<T: Made, U: Made>(alloc: Global, files: Files<'_>) -> Result<(), Fail> {
    let one: T = table_of(alloc, files)?;
    answers_as::<T, U>(alloc, &one, files)
}

const EACH: &[Files] = &[V1, V2, S, (LAST, "")];

#[test]
fn both_tables_answer_alike_for_every_code_point(rt: HostRuntime) -> Result<(), Fail> {
    for files in EACH {
        both_answer_alike::<RowTable, PageTable>(rt.alloc(), *files)?;
    }
    Ok(())
}
