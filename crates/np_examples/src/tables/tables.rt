//! Both tables over the fixtures.
use super::LAST;
use np_code_points::codes::write_code;
use np_examples_shared::{Example, Made, S, V1, holds_over_each, table_of, want};
use np_tables::{PageTable, RowTable};
use np_versions::NormTable;
use std::alloc::Global;
use std::fmt;
use std::test::Fail;

// The pairs of the first fixture, from the least to the greatest, and neighbours that are none. 0915
// 093C is excluded, and 11A7 is no trailing consonant.
const PAIRS: &[(char, char, Option<char>)] = &[
    ('\u{41}', '\u{30A}', Some('\u{C5}')),
    ('\u{61}', '\u{302}', Some('\u{E2}')),
    ('\u{61}', '\u{323}', Some('\u{1EA1}')),
    ('\u{1EA1}', '\u{302}', Some('\u{1EAD}')),
    ('\u{AC00}', '\u{11A8}', Some('\u{AC01}')),
    ('\u{1112}', '\u{1175}', Some('\u{D788}')),
    ('\u{40}', '\u{30A}', None),
    ('\u{41}', '\u{308}', None),
    ('\u{61}', '\u{30A}', None),
    ('\u{1EA1}', '\u{323}', None),
    ('\u{212B}', '\u{302}', None),
    ('\u{915}', '\u{93C}', None),
    ('\u{AC00}', '\u{11A7}', None),
    ('\u{10FFFF}', '\u{10FFFF}', None),
];

// Full decompositions of either kind.
const FULLS: &[(char, bool, &[char])] = &[
    ('\u{1EAD}', false, &['\u{61}', '\u{323}', '\u{302}']),
    ('\u{FB01}', true, &['\u{66}', '\u{69}']),
    ('\u{FB01}', false, &[]),
    ('\u{AC01}', false, &[]),
];

fn has_pairs<T: NormTable>(table: &T, rows: &[(char, char, Option<char>)]) -> Result<(), Fail> {
    for row in rows {
        want(table.pair(row.0, row.1) == row.2, "a pair")?;
    }
    Ok(())
}

fn has_fulls<T: NormTable>(table: &T, rows: &[(char, bool, &[char])]) -> Result<(), Fail> {
    for row in rows {
        want(table.full(row.0, row.1) == row.2, "a decomposition")?;
    }
    Ok(())
}

fn answers_by_its_version<T: NormTable>(table: &T) -> Result<(), Fail> {
    want(table.version().count() == 17_660, "all are assigned")?;
    let told = table.class('\u{302}') == 230 && table.hangul();
    want(told, "a class, and the arithmetic")?;
    let assigned = table.assigned('\u{212B}') && !table.assigned('\u{16D67}');
    want(assigned, "an assigned one, and one that is not")?;
    has_pairs(table, PAIRS)?;
    has_fulls(table, FULLS)
}

fn answers_the_last<T: NormTable>(table: &T) -> Result<(), Fail> {
    want(table.version().count() == 2, "two are assigned")?;
    let assigned = table.assigned('\u{10FFFF}') && !table.assigned('\u{10FFFE}');
    want(assigned, "the last is assigned, and the one before is not")?;
    want(table.class('\u{10FFFF}') == 7, "the last has its class")?;
    has_fulls(table, &[('\u{10FFFF}', true, &['a'])])
}

const MANY: u32 = 70_000;

/// A data file of 0061 and `MANY` code points from 20000 on, which map to it for compatibility.
fn many_rows(alloc: Global) -> Result<String, Fail> {
    let mut data = String::new(alloc);
    data.push_str("0061;X;Ll;0;L;;;;;N;;;;;\n")?;
    for place in 0..MANY {
        write_code(&mut data, 0x20000 + place)?;
        data.push_str(";X;Lo;0;L;<compat> 0061;;;;N;;;;;\n")?;
    }
    Ok(data)
}

fn answers_many<T: NormTable>(table: &T) -> Result<(), Fail> {
    want(table.version().count() == MANY + 1, "all are assigned")?;
    want(!table.assigned('\u{31170}'), "none is behind the last")?;
    // 20000 and 69,999 more
    has_fulls(table, &[('\u{3116F}', true, &['a'])])
}

fn answers_no_syllables<T: NormTable>(off: &T) -> Result<(), Fail> {
    want(!off.hangul(), "no arithmetic")?;
    want(off.pair('\u{1100}', '\u{1161}').is_none(), "no pair")
}

/// What both tables show.
#[derive(Clone, Copy)]
enum Shown {
    First,
    Last,
    Many,
    NoSyllables,
}

impl Example for Shown {
    fn holds<T: Made>(&self, _alloc: Global, table: &T) -> Result<(), Fail> {
        match self {
            Shown::First => answers_by_its_version(table),
            Shown::Last => answers_the_last(table),
            Shown::Many => answers_many(table),
            Shown::NoSyllables => answers_no_syllables(table),
        }
    }
}

#[test]
fn tables_answer_by_their_version(rt: HostRuntime) -> Result<(), Fail> {
    holds_over_each(rt.alloc(), V1, &Shown::First)?;
    // the last code point is one like others
    holds_over_each(rt.alloc(), (LAST, ""), &Shown::Last)?;
    // no syllable goes by arithmetic where the jamo lack
    holds_over_each(rt.alloc(), S, &Shown::NoSyllables)
}

#[test]
fn many_rows_have_memory(rt: HostRuntime) -> Result<(), Fail> {
    let data = many_rows(rt.alloc())?;
    holds_over_each(rt.alloc(), (data.as_str(), ""), &Shown::Many)
}

/// A table shows how many rows its version has, and none of them.
fn shows<T: fmt::Debug>(alloc: Global, table: &T, wanted: &str) -> Result<(), Fail> {
    let shown = format!(in alloc; "{table:?}")?;
    want(shown.as_str() == wanted, wanted)
}

fn shows_its_rows<T: Made + fmt::Debug>(alloc: Global, wanted: &str) -> Result<(), Fail> {
    let table: T = table_of(alloc, V1)?;
    shows(alloc, &table, wanted)
}

#[test]
fn tables_show_how_large_they_are(rt: HostRuntime) -> Result<(), Fail> {
    shows_its_rows::<RowTable>(
        rt.alloc(),
        "RowTable { version: Version { rows: 26, .. }, .. }",
    )?;
    shows_its_rows::<PageTable>(
        rt.alloc(),
        "PageTable { version: Version { rows: 26, .. }, .. }",
    )
}
