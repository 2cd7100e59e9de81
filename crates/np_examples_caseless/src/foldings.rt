//! Folding files, and those that are not what they should be.
use crate::edge_rows::EDGES;
use crate::folding_files::V1_FOLDING;
use np_code_points::watched::Watched;
use np_examples_shared::devices::{Endless, Failure, Trickle};
use np_examples_shared::told::want_told;
use np_examples_shared::want;
use np_foldings::{FoldingFault, Foldings, RecordFault, read_foldings};
use std::alloc::Global;
use std::test::Fail;

fn foldings_of(alloc: Global, text: &[u8]) -> Result<Foldings, FoldingFault> {
    read_foldings(alloc, &mut Watched::new(Trickle::new(text, 7)))
}

/// The line and the name of a file's fault; nothing where it has none.
fn told_of(alloc: Global, text: &str) -> Result<String, Fail> {
    let Err(fault) = foldings_of(alloc, text.as_bytes()) else {
        return Ok(String::new(alloc));
    };
    match fault.line() {
        Some(line) => Ok(format!(in alloc; "line {line}: {}", fault.name())?),
        None => Ok(format!(in alloc; "{}", fault.name())?),
    }
}

#[test]
fn each_edge_of_the_grammar_is_told(rt: HostRuntime) -> Result<(), Fail> {
    for edge in EDGES {
        let told = told_of(rt.alloc(), edge.0)?;
        want(told.as_str() == edge.1, edge.0)?;
    }
    Ok(())
}

/// Whether the folding at a place is that of this code point, to this text.
fn folds(foldings: &Foldings, at: usize, code: char, to: &[char]) -> bool {
    match foldings.get(at) {
        Some(folding) => folding.code == code && folding.mapping.as_slice() == to,
        None => false,
    }
}

#[test]
fn a_file_has_the_foldings_of_c_and_f_alone(rt: HostRuntime) -> Result<(), Fail> {
    let foldings = foldings_of(rt.alloc(), V1_FOLDING.as_bytes())?;
    want(
        foldings.len() == 7 && !foldings.is_empty(),
        "seven code points fold",
    )?;
    want(
        folds(&foldings, 0, 'A', &['a']),
        "0041 folds to 0061, not to 0069",
    )?;
    want(
        folds(&foldings, 2, '\u{c5}', &['a', '\u{30a}']),
        "00C5 folds to two",
    )?;
    want(
        foldings.find('\u{c5}') == Some(['a', '\u{30a}'].as_slice()),
        "00C5 is found",
    )?;
    want(foldings.find('a').is_none(), "0061 does not fold")
}

#[test]
fn a_file_without_bytes_has_no_folding(rt: HostRuntime) -> Result<(), Fail> {
    let foldings = foldings_of(rt.alloc(), b"")?;
    want(
        foldings.is_empty() && foldings.get(0).is_none(),
        "nothing folds",
    )
}

#[test]
fn a_failed_read_is_told(rt: HostRuntime) -> Result<(), Fail> {
    let device = Trickle::new(V1_FOLDING.as_bytes(), 7).failing_at(3, Failure::Error);
    let mut source = Watched::new(device);
    let fault = read_foldings(rt.alloc(), &mut source).err();
    want(fault == Some(FoldingFault::ReadFailed), "the device failed")?;
    want(source.failed(), "and its mark says so")
}

#[test]
fn a_file_that_never_ends_is_too_large(rt: HostRuntime) -> Result<(), Fail> {
    let mut source = Watched::new(Endless::new());
    let fault = read_foldings(rt.alloc(), &mut source).err();
    want(
        fault == Some(FoldingFault::TooLarge),
        "more than 16,777,216 bytes",
    )
}

// What is wrong with a record, in words.
const RECORDS_TOLD: &[(RecordFault, &str)] = &[
    (
        RecordFault::FieldCount,
        "not exactly four fields, of which the last one is empty",
    ),
    (
        RecordFault::BadCode,
        "not 4 to 6 hexadecimal digits of at most 10FFFF",
    ),
    (
        RecordFault::BadStatus,
        "the status is none of C, F, S and T",
    ),
    (
        RecordFault::OutOfOrder,
        "the code point and the status do not come behind those before",
    ),
    (
        RecordFault::StatusConflict,
        "the status does not go with the one before",
    ),
    (RecordFault::BadMapping, "the mapping cannot be read"),
];

// Faults of a file, in words.
const FILES_TOLD: &[(FoldingFault, &str)] = &[
    (
        FoldingFault::BadRecord {
            line: 3,
            fault: RecordFault::BadStatus,
        },
        "line 3: the status is none of C, F, S and T",
    ),
    (FoldingFault::TooLarge, "more than 16,777,216 bytes"),
    (FoldingFault::ReadFailed, "read failed"),
    (FoldingFault::Memory, "out of memory"),
];

#[test]
fn faults_are_told_in_words(rt: HostRuntime) -> Result<(), Fail> {
    want_told(rt.alloc(), RECORDS_TOLD)?;
    want_told(rt.alloc(), FILES_TOLD)
}

#[test]
fn faults_have_names_lines_and_numbers(_rt: HostRuntime) -> Result<(), Fail> {
    let fault = FoldingFault::BadRecord {
        line: 3,
        fault: RecordFault::StatusConflict,
    };
    want(
        fault.name() == "StatusConflict" && fault.line() == Some(3),
        "its name and line",
    )?;
    want(RecordFault::BadMapping.number() == 6, "the last number")
}
