//! Keys of the lines of whole inputs on worked examples, over devices that give and take in pieces and fail.
mod rows;

use np_code_points::Memory;
use np_code_points::watched::Watched;
use np_examples_shared::devices::{Failure, Room, Trickle};
use np_examples_shared::told::want_told;
use np_examples_shared::{
    Example, FAILURES, LETTERS, Made, V1, holds_over_each, want, wants_front,
};
use np_lines::{Answers, LinesFault, Wanted, answer_bytes, answer_lines};
use np_versions::NormTable;
use rows::{ASCII_LF_ROWS, ASCII_MAPS_TO_LF, BY_LF, LETTER_ROWS, LF_ROWS, MAPS_TO_LF, ROWS, Row};
use std::alloc::Global;
use std::test::Fail;

/// What a run over lines answers, and the bytes that it writes, at most so many at a time.
#[derive(Clone, Copy)]
struct Answered<'t> {
    what: &'t str,
    piece: usize,
    answer: Result<bool, LinesFault>,
    bytes: &'t [u8],
}

/// Fails unless the lines of a source have these answers; the source has failed where the answer is that.
fn wants_answered<T: NormTable>(
    alloc: Global,
    table: &T,
    wanted: Wanted,
    mut source: Watched<Trickle<'_>>,
    answered: &Answered<'_>,
) -> Result<(), Fail> {
    let mut target = Watched::new(Room::new(alloc, 70_000, answered.piece)?);
    let made = answer_lines(alloc, table, wanted, &mut source, &mut target);
    want(made == answered.answer, answered.what)?;
    let failed = source.failed() == (made == Err(LinesFault::ReadFailed));
    want(failed, "the mark of the source")?;
    want(target.into_inner().bytes() == answered.bytes, answered.what)
}

/// Fails unless the lines of the row's input, read and written so many bytes at a time, have the row's answers.
fn wants_row<T: NormTable>(alloc: Global, table: &T, row: &Row, piece: usize) -> Result<(), Fail> {
    let source = Watched::new(Trickle::new(row.2, piece));
    let answered = Answered {
        what: row.1,
        piece,
        answer: Ok(row.4),
        bytes: row.3.as_bytes(),
    };
    wants_answered(alloc, table, row.0, source, &answered)
}

fn wants_rows<T: NormTable>(alloc: Global, table: &T, rows: &[Row]) -> Result<(), Fail> {
    for row in rows {
        wants_row(alloc, table, row, 1)?;
        wants_row(alloc, table, row, 7)?;
        wants_row(alloc, table, row, 64)?;
    }
    Ok(())
}

/// A line between what is in front of it and behind it.
fn joined(alloc: Global, front: &[u8], line: &[u8], behind: &[u8]) -> Result<Vec<u8>, Memory> {
    let mut bytes = Vec::new(alloc);
    bytes.extend_from_slice(front)?;
    bytes.extend_from_slice(line)?;
    bytes.extend_from_slice(behind)?;
    Ok(bytes)
}

/// The answers to a line that is its own key, or is too long, and to a line of a letter.
fn long_answers(alloc: Global, line: &[u8], fits: bool) -> Result<Vec<u8>, Memory> {
    if fits {
        joined(alloc, b"=", line, b"\n=A\n")
    } else {
        joined(alloc, b"!too long", b"", b"\n=A\n")
    }
}

/// Fails unless the line, and one of a letter behind it, are answered so, read in small pieces and in large ones.
fn wants_long<T: NormTable>(
    alloc: Global,
    table: &T,
    line: &[u8],
    answered: &Answered<'_>,
) -> Result<(), Fail> {
    let input = joined(alloc, b"", line, b"\nA")?;
    let small = Watched::new(Trickle::new(&input, 7));
    wants_answered(alloc, table, BY_LF, small, answered)?;
    let large = Watched::new(Trickle::new(&input, 65_536));
    wants_answered(alloc, table, BY_LF, large, answered)
}

// How long a line is, and whether that is told to be too long, or it is its own key.
const LONG: &[(usize, bool)] = &[
    (65_535, true),
    (65_536, true),
    (65_537, false),
    (200_000, false),
];

fn long_line<T: NormTable>(alloc: Global, table: &T, row: &(usize, bool)) -> Result<(), Fail> {
    let line = Vec::from_elem(alloc, b'a', row.0)?;
    let answers = long_answers(alloc, &line, row.1)?;
    let answered = Answered {
        what: "a long line",
        piece: 70_000,
        answer: Ok(!row.1),
        bytes: &answers,
    };
    wants_long(alloc, table, &line, &answered)
}

fn long_lines<T: NormTable>(alloc: Global, table: &T) -> Result<(), Fail> {
    for row in LONG {
        long_line(alloc, table, row)?;
    }
    Ok(())
}

// The number of a read that fails, counted from 0, each of which gives a byte; the whole lines before it, which are
// answered.
const READS: &[(u64, &[u8])] = &[
    (0, b""),
    (1, b""),
    (2, b"=a\n"),
    (3, b"=a\n"),
    (4, b"=a\n=A\n"),
    (5, b"=a\n=A\n"),
];

fn failed_reads<T: NormTable>(alloc: Global, table: &T, failure: Failure) -> Result<(), Fail> {
    for row in READS {
        let source = Trickle::new(b"a\nA\na", 1).failing_at(row.0, failure);
        let answered = Answered {
            what: "the whole lines",
            piece: 64,
            answer: Err(LinesFault::ReadFailed),
            bytes: row.1,
        };
        wants_answered(alloc, table, BY_LF, Watched::new(source), &answered)?;
    }
    Ok(())
}

/// A write of one byte, or the flush, that fails at a call that is counted from 0: what comes before it is
/// written, and nothing is tried behind it.
fn wants_failed_write<T: NormTable>(
    alloc: Global,
    table: &T,
    call: u64,
    failure: Failure,
) -> Result<(), Fail> {
    let mut source = Watched::new(Trickle::new(b"a\nA", 2));
    let mut target = Watched::new(Room::new(alloc, 64, 1)?.failing_at(call, failure));
    let made = answer_lines(alloc, table, BY_LF, &mut source, &mut target);
    let told = target.failed() && made == Err(LinesFault::WriteFailed);
    want(told, "the target has failed, and the answer says so")?;
    wants_front(&target.into_inner(), b"=a\n=A\n", call)
}

fn failed_writes<T: NormTable>(alloc: Global, table: &T, failure: Failure) -> Result<(), Fail> {
    for call in 0..7 {
        wants_failed_write(alloc, table, call, failure)?;
    }
    Ok(())
}

const ANSWERS: &str = "=a\n=\u{1EAD}\n!unassigned 16D67 at byte 1\n!not UTF-8 at byte 0\n";

/// Whether memory was refused to a run, which wrote whole answers to some first lines then; else it has written all.
fn was_refused(answer: Result<bool, LinesFault>, bytes: &[u8]) -> Result<bool, Fail> {
    if answer == Err(LinesFault::Memory) {
        let whole = bytes.last().is_none_or(|byte| *byte == b'\n');
        let front = whole && ANSWERS.as_bytes().starts_with(bytes);
        want(front, "whole answers of a refused run")?;
        return Ok(true);
    }
    want(answer? && bytes == ANSWERS.as_bytes(), "the run")?;
    Ok(false)
}

/// A run: whether memory was refused to it.
fn ran<T: NormTable>(alloc: Global, table: &T) -> Result<bool, Fail> {
    let input = b"a\na\xcc\x82\xcc\xa3\na\xf0\x96\xb5\xa7\n\xff";
    let mut source = Watched::new(Trickle::new(input, 5));
    let mut target = Watched::new(Room::new(alloc, 96, 96)?);
    let answer = answer_lines(alloc, table, BY_LF, &mut source, &mut target);
    was_refused(answer, target.into_inner().bytes())
}

fn refused<T: NormTable>(alloc: Global, table: &T) -> Result<(), Fail> {
    let over = !ran(alloc, table)? || !ran(alloc, table)?;
    want(over, "Memory, a second time")
}

fn answers_again<T: NormTable>(alloc: Global, table: &T, row: &Row) -> Result<Answers, Memory> {
    match answer_bytes(alloc, table, row.0, row.2) {
        Err(Memory) => answer_bytes(alloc, table, row.0, row.2),
        made => made,
    }
}

/// The answers to all lines of bytes that are in memory; where memory ran out, again.
fn answered_at_once<T: NormTable>(alloc: Global, table: &T, row: &Row) -> Result<(), Fail> {
    let made = answers_again(alloc, table, row)?;
    let same = made.any_refused == row.4 && made.bytes.as_slice() == row.3.as_bytes();
    want(same, row.1)
}

fn rows_at_once<T: NormTable>(alloc: Global, table: &T, rows: &[Row]) -> Result<(), Fail> {
    for row in rows {
        answered_at_once(alloc, table, row)?;
    }
    Ok(())
}

/// What runs over lines show.
#[derive(Clone, Copy)]
enum Shown {
    Rows(&'static [Row]),
    AtOnce(&'static [Row]),
    Long,
    FailedReads(Failure),
    FailedWrites(Failure),
    Refused,
}

impl Example for Shown {
    fn holds<T: Made>(&self, alloc: Global, table: &T) -> Result<(), Fail> {
        match self {
            Shown::Rows(rows) => wants_rows(alloc, table, rows),
            Shown::AtOnce(rows) => rows_at_once(alloc, table, rows),
            Shown::Long => long_lines(alloc, table),
            Shown::FailedReads(failure) => failed_reads(alloc, table, *failure),
            Shown::FailedWrites(failure) => failed_writes(alloc, table, *failure),
            Shown::Refused => refused(alloc, table),
        }
    }
}

#[test]
fn each_line_is_answered(rt: HostRuntime) -> Result<(), Fail> {
    let alloc = rt.alloc();
    holds_over_each(alloc, V1, &Shown::Rows(ROWS))?;
    holds_over_each(alloc, MAPS_TO_LF, &Shown::Rows(LF_ROWS))?;
    holds_over_each(alloc, ASCII_MAPS_TO_LF, &Shown::Rows(ASCII_LF_ROWS))?;
    holds_over_each(alloc, LETTERS, &Shown::Rows(LETTER_ROWS))?;
    holds_over_each(alloc, V1, &Shown::Long)
}

/// Each fault, and how it is told.
const TOLD: &[(LinesFault, &str)] = &[
    (LinesFault::ReadFailed, "read failed"),
    (LinesFault::WriteFailed, "write failed"),
    (
        LinesFault::TooLarge,
        "more than 18,446,744,073,709,551,615 bytes",
    ),
    (LinesFault::Memory, "out of memory"),
];

#[test]
fn failed_devices_are_told_behind_whole_lines(rt: HostRuntime) -> Result<(), Fail> {
    let alloc = rt.alloc();
    for failure in &FAILURES {
        holds_over_each(alloc, V1, &Shown::FailedReads(*failure))?;
        holds_over_each(alloc, V1, &Shown::FailedWrites(*failure))?;
    }
    want_told(alloc, TOLD)
}

#[test]
fn a_refused_answer_lines_succeeds_after_all(rt: HostRuntime) -> Result<(), Fail> {
    holds_over_each(rt.alloc(), V1, &Shown::Refused)
}

#[test]
fn a_refused_answer_bytes_succeeds_after_all(rt: HostRuntime) -> Result<(), Fail> {
    let alloc = rt.alloc();
    holds_over_each(alloc, V1, &Shown::AtOnce(ROWS))?;
    holds_over_each(alloc, MAPS_TO_LF, &Shown::AtOnce(LF_ROWS))?;
    holds_over_each(alloc, ASCII_MAPS_TO_LF, &Shown::AtOnce(ASCII_LF_ROWS))?;
    holds_over_each(alloc, LETTERS, &Shown::AtOnce(LETTER_ROWS))
}
