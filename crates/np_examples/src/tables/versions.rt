//! Versions: what they tell of their files, and the faults of files that give none.
use super::{has_count, version};
use np_examples_shared::fixtures::{V1_DATA, V1_EXCLUSIONS, V2_DATA, V2_EXCLUSIONS};
use np_examples_shared::told::want_told;
use np_examples_shared::{Files, S, V1, version_of, want};
use np_ucd::MapKind;
use np_versions::{Pairs, TableFault, Version, mapped_code};
use std::alloc::{AllocError, Global};
use std::test::Fail;

fn wants_count(alloc: Global, data: &str, exclusions: &str, count: u32) -> Result<(), Fail> {
    let version = version(alloc, data, exclusions)?;
    has_count(&version, count)
}

#[test]
fn code_points_are_counted(rt: HostRuntime) -> Result<(), Fail> {
    wants_count(rt.alloc(), "", "", 0)?;
    // the first fixture's are counted in the test of `build`
    wants_count(rt.alloc(), V2_DATA, V2_EXCLUSIONS, 17_666)
}

fn tells_its_files(v1: &Version) -> Result<(), Fail> {
    let listed = v1.assigned_code(0xE001) && !v1.assigned_code(0x16D67);
    want(listed, "one in a range, and one that is not listed")?;
    let classes = v1.class_of(0x323) == 220 && v1.class_of(0x110000) == 0;
    want(classes, "a class, and that of no code point")?;
    let excluded = v1.is_excluded(0x958) && !v1.is_excluded(0xC5);
    want(excluded, "an excluded one, and one that is not")?;
    want(v1.has_hangul(), "the arithmetic")
}

fn tells_its_mappings(v1: &Version) -> Result<(), Fail> {
    let mapping = v1.mapping_of(0x1EAD);
    want(mapping == ['\u{1EA1}', '\u{302}'].as_slice(), "a mapping")?;
    let kinds = v1.kind_of(0xFB01) == MapKind::Compatibility;
    want(kinds && v1.kind_of(0xAC00) == MapKind::Plain, "kinds")
}

// A pair, and syllables of two and of three; then a singleton, a pair that begins with a non-starter, an exclusion,
// and a compatibility mapping.
const PRIMARY: &[(u32, bool)] = &[
    (0xC5, true),
    (0xAC00, true),
    (0xAC01, true),
    (0x212B, false),
    (0x344, false),
    (0x958, false),
    (0xFB01, false),
];

fn has_composites(version: &Version, rows: &[(u32, bool)]) -> Result<(), Fail> {
    for row in rows {
        want(version.is_primary(row.0) == row.1, "a primary composite")?;
    }
    Ok(())
}

// The composites of the first fixture, in the order of their pairs.
const COMPOSITES: &[(char, char, char)] = &[
    ('\u{41}', '\u{30A}', '\u{C5}'),
    ('\u{61}', '\u{302}', '\u{E2}'),
    ('\u{61}', '\u{323}', '\u{1EA1}'),
    ('\u{1EA1}', '\u{302}', '\u{1EAD}'),
];

fn lists_composites(pairs: &Pairs, rows: &[(char, char, char)]) -> Result<(), Fail> {
    want(pairs.len() == rows.len(), "four composites")?;
    for (here, row) in pairs.as_slice().iter().zip(rows) {
        let pair = here.first == row.0 && here.second == row.1;
        want(pair && here.code == row.2, "a pair and its composite")?;
    }
    Ok(())
}

// (two parts, their composite): a pair of the list, a syllable, and two that have none.
const FOUND: &[(char, char, Option<char>)] = &[
    ('\u{61}', '\u{323}', Some('\u{1EA1}')),
    ('\u{AC00}', '\u{11A8}', Some('\u{AC01}')),
    ('\u{61}', '\u{62}', None),
];

fn finds_composites(v1: &Version, rows: &[(char, char, Option<char>)]) -> Result<(), Fail> {
    for row in rows {
        want(v1.composite_of(row.0, row.1) == row.2, "a composite")?;
    }
    Ok(())
}

fn finds_pairs(pairs: &Pairs) -> Result<(), Fail> {
    let found = pairs.find('\u{61}', '\u{302}') == Some('\u{E2}');
    want(found, "one of the list")?;
    let syllable = pairs.find('\u{AC00}', '\u{11A8}');
    want(syllable.is_none(), "no syllable in the list")?;
    let first = pairs.len() > 0 && pairs.at(0).code == '\u{C5}';
    want(first, "the first of the list")
}

/// Fails unless the code point has a row, which has its mapping.
fn has_mapped_row(v1: &Version, code: char) -> Result<(), Fail> {
    match v1.place_of(u32::from(code)) {
        Some(at) => {
            let row = v1.row_in(at);
            let alone = !row.mapping.is_empty() && mapped_code(row) == code;
            want(alone, "the row of a code point with a mapping")
        }
        None => want(false, "a row"),
    }
}

fn tells_its_rows(v1: &Version) -> Result<(), Fail> {
    // a block number for each 256 code points
    let blocks = v1.pages().index.len() == 4352;
    want(blocks && v1.place_of(0x110000).is_none(), "no row")?;
    has_mapped_row(v1, '\u{1EAD}')
}

fn tells_its_composites(v1: &Version) -> Result<(), Fail> {
    has_composites(v1, PRIMARY)?;
    lists_composites(v1.pairs(), COMPOSITES)?;
    finds_composites(v1, FOUND)?;
    finds_pairs(v1.pairs())
}

fn tells_all(v1: &Version) -> Result<(), Fail> {
    tells_its_files(v1)?;
    tells_its_mappings(v1)?;
    tells_its_rows(v1)?;
    tells_its_composites(v1)
}

#[test]
fn a_version_tells_what_the_files_say(rt: HostRuntime) -> Result<(), Fail> {
    let v1 = version_of(rt.alloc(), V1)?;
    tells_all(&v1)
}

// A starter that maps to two non-starters.
const STARTER: &str = "\
0F71;X;Mn;129;L;;;;;N;;;;;
0F72;X;Mn;130;L;;;;;N;;;;;
0F73;X;Mn;0;L;0F71 0F72;;;;N;;;;;
";

/// Fails unless a version has no arithmetic of syllables, and these composites alone.
fn has_no_syllables(alloc: Global, files: Files<'_>, rows: &[(u32, bool)]) -> Result<(), Fail> {
    let version = version_of(alloc, files)?;
    let told = !version.has_hangul() && version.class_of(0xF73) == 0;
    want(told, "no arithmetic, and no class")?;
    has_composites(&version, rows)
}

#[test]
fn a_version_tells_what_is_no_composite(rt: HostRuntime) -> Result<(), Fail> {
    // syllables need their jamo
    has_no_syllables(rt.alloc(), S, &[(0xAC00, false), (0xF000, true)])?;
    has_no_syllables(rt.alloc(), (STARTER, ""), &[(0xF73, false)])
}

/// The first fixture's data with `lines` in place of `line`.
fn edited(alloc: Global, line: &str, lines: &str) -> Result<String, Fail> {
    let (before, after) = V1_DATA.split_once(line).ok_or("no such line")?;
    Ok(format!(in alloc; "{before}{lines}{after}")?)
}

/// The fault of two texts.
fn fault_of(alloc: Global, data: &str, exclusions: &str) -> Option<TableFault> {
    version(alloc, data, exclusions).err()
}

/// Fails unless the two texts have this fault.
fn wants_fault(
    alloc: Global,
    data: &str,
    exclusions: &str,
    wanted: TableFault,
) -> Result<(), Fail> {
    let found = fault_of(alloc, data, exclusions);
    want(found == Some(wanted), wanted.name())
}

/// Fails unless the first fixture has this fault, with other lines in place of one.
fn wants_fault_of_edit(
    alloc: Global,
    line: &str,
    lines: &str,
    wanted: TableFault,
) -> Result<(), Fail> {
    let data = edited(alloc, line, lines)?;
    wants_fault(alloc, data.as_str(), V1_EXCLUSIONS, wanted)
}

/// A line of the first fixture, what stands in its place, and the fault.
const EDITED: &[(&str, &str, TableFault)] = &[
    // jamo and syllables come whole
    (
        "11C2;<R, Last>;Lo;0;L;;;;;N;;;;;\n",
        "11C1;<R, Last>;Lo;0;L;;;;;N;;;;;\n",
        TableFault::HangulWrong { code: 0x11C2 },
    ),
    (
        "030A;X;Mn;230;L;;;;;N;;;;;\n",
        "",
        TableFault::MapsToUnassigned { code: 0xC5 },
    ),
    (
        "0041;X;Lu;0;L;;;;;N;;;;;\n",
        "0041;X;Lu;0;L;0041;;;;N;;;;;\n",
        TableFault::TooDeep { code: 0x41 },
    ),
    (
        "00C5;X;Lu;0;L;0041 030A;;;;N;;;;;\n",
        "00C4;X;Lu;0;L;0041 030A;;;;N;;;;;\n00C5;X;Lu;0;L;0041 030A;;;;N;;;;;\n",
        TableFault::AmbiguousPair { code: 0xC5 },
    ),
];

#[test]
fn faults_are_told(rt: HostRuntime) -> Result<(), Fail> {
    for row in EDITED {
        wants_fault_of_edit(rt.alloc(), row.0, row.1, row.2)?;
    }
    let lone = TableFault::HangulWrong { code: 0x1101 };
    wants_fault(rt.alloc(), "1100;X;Lo;0;L;;;;;N;;;;;", "", lone)?;
    // the last code point of all
    let last = TableFault::MapsToUnassigned { code: 0x10FFFF };
    wants_fault(rt.alloc(), "10FFFF;X;Co;0;L;0061;;;;N;;;;;", "", last)
}

// 0062 maps to 32 times 0061.
const LONG: &str = "\
0061;X;Ll;0;L;;;;;N;;;;;
0062;X;Ll;0;L;<compat> 0061 0061 0061 0061 0061 0061 0061 0061 0061 0061 0061 0061 0061 0061 0061 0061 0061 0061 0061 0061 0061 0061 0061 0061 0061 0061 0061 0061 0061 0061 0061 0061;;;;N;;;;;
0063;X;Ll;0;L;<compat> 0062 0062 0062;;;;N;;;;;
";

// 0063 maps to two of these, and not to three.
const SHORTER: &str = "\
0061;X;Ll;0;L;;;;;N;;;;;
0062;X;Ll;0;L;<compat> 0061 0061 0061 0061 0061 0061 0061 0061 0061 0061 0061 0061 0061 0061 0061 0061 0061 0061 0061 0061 0061 0061 0061 0061 0061 0061 0061 0061 0061 0061 0061 0061;;;;N;;;;;
0063;X;Ll;0;L;<compat> 0062 0062;;;;N;;;;;
";

#[test]
fn a_long_decomposition_is_told(rt: HostRuntime) -> Result<(), Fail> {
    let too_long = TableFault::TooLong { code: 0x63 };
    wants_fault(rt.alloc(), LONG, "", too_long)?;
    wants_count(rt.alloc(), SHORTER, "", 3)
}

/// Faults, and how they are told.
const TOLD: &[(TableFault, &str)] = &[
    (
        TableFault::TooDeep { code: 0x41 },
        "0041 has mappings that lead deeper than 32, or in a circle",
    ),
    (
        TableFault::AmbiguousPair { code: 0x16D69 },
        "16D69 has the pair of a smaller primary composite",
    ),
    (TableFault::Memory, "out of memory"),
];

#[test]
fn faults_are_told_in_words(rt: HostRuntime) -> Result<(), Fail> {
    want_told(rt.alloc(), TOLD)
}

#[test]
fn faults_have_names_and_code_points(_rt: HostRuntime) -> Result<(), Fail> {
    let deep = TableFault::TooDeep { code: 0x41 };
    want(deep.name() == "TooDeep", "a name")?;
    let codes = deep.code() == Some(0x41) && TableFault::Memory.code().is_none();
    want(codes, "a code point, and none")
}
