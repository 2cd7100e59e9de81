//! Files that are not what they should be, and the words of faults.
use super::rows_of;
use np_examples_shared::told::want_told;
use np_examples_shared::want;
use np_ucd::UcdFault;
use std::alloc::Global;
use std::test::Fail;

fn fault_of(alloc: Global, text: &[u8]) -> Option<UcdFault> {
    rows_of(alloc, text, 4096).err()
}

/// Fails unless each text has that fault, or none.
fn want_faults(alloc: Global, rows: &[(&str, Option<UcdFault>)]) -> Result<(), Fail> {
    for row in rows {
        want(fault_of(alloc, row.0.as_bytes()) == row.1, row.0)?;
    }
    Ok(())
}

// (a file, its fault or none)
const FAULTS: &[(&str, Option<UcdFault>)] = &[
    (
        "0041;X;Lu;0;L;;;;;N;;;;",
        Some(UcdFault::FieldCount { line: 1 }),
    ),
    (
        "0061;X;Ll;0;L;;;;;N;;;;;\n0041;X;Lu;0;L;;;;;N;;;;;",
        Some(UcdFault::OutOfOrder { line: 2 }),
    ),
    (
        "41;X;Lu;0;L;;;;;N;;;;;",
        Some(UcdFault::BadCode { line: 1 }),
    ),
    (
        "0041;X;Cn;0;L;;;;;N;;;;;",
        Some(UcdFault::BadCategory { line: 1 }),
    ),
    (
        "0041;X;Lu;255;L;;;;;N;;;;;",
        Some(UcdFault::BadClass { line: 1 }),
    ),
    ("0041;X;Lu;254;L;;;;;N;;;;;", None),
    (
        "00C5;X;Lu;0;L;0041 030A 0301;;;;N;;;;;",
        Some(UcdFault::BadMapping { line: 1 }),
    ),
    (
        "00C5;X;Lu;0;L;<compat>;;;;N;;;;;",
        Some(UcdFault::BadMapping { line: 1 }),
    ),
    (
        "00C5;X;Lu;0;L;D800;;;;N;;;;;",
        Some(UcdFault::BadMapping { line: 1 }),
    ),
    ("10FFFF;X;Co;0;L;;;;;N;;;;;", None),
];

// Faults of ranges.
const RANGES: &[(&str, Option<UcdFault>)] = &[
    (
        "E000;<R, First>;Co;0;L;;;;;N;;;;;",
        Some(UcdFault::RangeOpen { line: 1 }),
    ),
    (
        "E000;<R, First>;Co;0;L;;;;;N;;;;;\nF8FF;X;Co;0;L;;;;;N;;;;;",
        Some(UcdFault::RangeOpen { line: 2 }),
    ),
    (
        "F8FF;<R, Last>;Co;0;L;;;;;N;;;;;",
        Some(UcdFault::RangeLone { line: 1 }),
    ),
    (
        "E000;<R, First>;Co;0;L;;;;;N;;;;;\nF8FF;<R, Last>;Co;1;L;;;;;N;;;;;",
        Some(UcdFault::RangeDiffers { line: 2 }),
    ),
    (
        "E000;<R, First>;Co;0;L;;;;;N;;;;;\nF8FF;<R, Last>;Lo;0;L;;;;;N;;;;;",
        Some(UcdFault::RangeDiffers { line: 2 }),
    ),
    (
        "E000;<R, First>;Co;0;L;0041;;;;N;;;;;",
        Some(UcdFault::RangeMaps { line: 1 }),
    ),
];

#[test]
fn faults_have_names_and_lines(_rt: HostRuntime) -> Result<(), Fail> {
    let fault = UcdFault::RangeMaps { line: 7 };
    want(fault.name() == "RangeMaps", "a name")?;
    let lines = fault.line() == Some(7) && UcdFault::TooLarge.line().is_none();
    want(lines, "a line, and none")
}

/// Each fault, and how it is told.
const TOLD: &[(UcdFault, &str)] = &[
    (
        UcdFault::FieldCount { line: 1 },
        "line 1: not exactly 15 fields",
    ),
    (
        UcdFault::BadCode { line: 2 },
        "line 2: not 4 to 6 hexadecimal digits of at most 10FFFF",
    ),
    (
        UcdFault::OutOfOrder { line: 3 },
        "line 3: the code point is not above the one before",
    ),
    (
        UcdFault::BadCategory { line: 4 },
        "line 4: the category is not two letters, or is Cn",
    ),
    (
        UcdFault::BadClass { line: 5 },
        "line 5: the combining class is not 1 to 3 digits of at most 254",
    ),
    (
        UcdFault::BadMapping { line: 12 },
        "line 12: the mapping cannot be read",
    ),
    (
        UcdFault::RangeOpen { line: 7 },
        "line 7: a range has a first record and no last one",
    ),
    (
        UcdFault::RangeLone { line: 8 },
        "line 8: a range has a last record and no first one",
    ),
    (
        UcdFault::RangeDiffers { line: 9 },
        "line 9: the two records of a range differ in category or class",
    ),
    (
        UcdFault::RangeMaps { line: 10 },
        "line 10: a record of a range has a mapping",
    ),
    (UcdFault::TooLarge, "more than 16,777,216 bytes"),
    (UcdFault::ReadFailed, "read failed"),
    (UcdFault::Memory, "out of memory"),
];

#[test]
fn faults_are_told_in_words(rt: HostRuntime) -> Result<(), Fail> {
    want_told(rt.alloc(), TOLD)
}

// Files of another kind.
const OTHER_FILES: &[(&str, Option<UcdFault>)] = &[
    (
        "0041;X;Lu;0;L;;;;;N;;;;;\n0061;X;L",
        Some(UcdFault::FieldCount { line: 2 }),
    ),
    (
        "<!DOCTYPE html>\n<title>404</title>\n",
        Some(UcdFault::FieldCount { line: 1 }),
    ),
    (
        "0958    #  DEVANAGARI LETTER QA\n",
        Some(UcdFault::FieldCount { line: 1 }),
    ),
    (
        "\u{FEFF}0041;X;Lu;0;L;;;;;N;;;;;",
        Some(UcdFault::BadCode { line: 1 }),
    ),
    (
        "004\x00;X;Lu;0;L;;;;;N;;;;;",
        Some(UcdFault::BadCode { line: 1 }),
    ),
    ("0041;\x00;Lu;0;L;;;;;N;;;;;", None),
];

#[test]
fn each_fault_has_its_line(rt: HostRuntime) -> Result<(), Fail> {
    want_faults(rt.alloc(), FAULTS)?;
    want_faults(rt.alloc(), RANGES)?;
    want_faults(rt.alloc(), OTHER_FILES)
}

#[test]
fn a_long_line_is_one_line(rt: HostRuntime) -> Result<(), Fail> {
    let long = vec![in rt.alloc(); b'a'; 1_000_000]?;
    let fault = fault_of(rt.alloc(), long.as_slice());
    want(
        fault == Some(UcdFault::FieldCount { line: 1 }),
        "a long line",
    )
}
