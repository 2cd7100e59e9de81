//! Runs over whole inputs on worked examples.
use np_code_points::Form;
use np_code_points::watched::Watched;
use np_examples_shared::devices::{Failure, Room, Trickle};
use np_examples_shared::told::want_told;
use np_examples_shared::{Example, FAILURES, Made, V1, holds_over_each, want, wants_front};
use np_forms::{RunFault, run};
use np_versions::NormTable;
use std::alloc::Global;
use std::io::Read;
use std::test::Fail;

/// The letter a with a circumflex and a dot below, which compose to 1EAD.
const LETTER: &[u8] = &[0x61, 0xcc, 0x82, 0xcc, 0xa3];

/// The form of a run, its answer, and what it writes.
type Wanted<'b> = (Form, Result<u64, RunFault>, &'b [u8]);

/// Fails unless a run over the source is as wanted.
fn wants_run<R: Read + Drop, T: NormTable>(
    alloc: Global,
    table: &T,
    mut source: Watched<R>,
    wanted: Wanted<'_>,
) -> Result<(), Fail> {
    let mut target = Watched::new(Room::new(alloc, 64, 64)?);
    let made = run(alloc, table, wanted.0, &mut source, &mut target);
    let room = target.into_inner();
    want(made == wanted.1, "the answer")?;
    want(room.bytes() == wanted.2, "the bytes")
}

/// Whether a cutting of five bytes cuts before a place: of 1 to 4, the bit of that place tells.
fn cuts_at(cutting: usize, place: usize) -> bool {
    match place {
        1 => cutting & 1 != 0,
        2 => cutting & 2 != 0,
        3 => cutting & 4 != 0,
        4 => cutting & 8 != 0,
        _ => true,
    }
}

/// The piece of a cutting that begins at a place, as a source; nothing where it doesn't cut there.
fn piece_at(cutting: usize, place: usize) -> Trickle<'static> {
    if !cuts_at(cutting, place) {
        return Trickle::new(&[], 1);
    }
    for end in 1..5 {
        if end > place && cuts_at(cutting, end) {
            return Trickle::new(LETTER.get(place..end).unwrap_or(&[]), 5);
        }
    }
    Trickle::new(LETTER.get(place..).unwrap_or(&[]), 5)
}

/// The five bytes in the pieces of a cutting.
fn cut<T: NormTable>(alloc: Global, table: &T, cutting: usize) -> Result<(), Fail> {
    let front = piece_at(cutting, 0).chain(piece_at(cutting, 1));
    let behind = piece_at(cutting, 3).chain(piece_at(cutting, 4));
    let source = Watched::new(front.chain(piece_at(cutting, 2)).chain(behind));
    wants_run(alloc, table, source, (Form::Nfc, Ok(3), b"\xe1\xba\xad"))
}

/// The five bytes in the pieces of each of their 16 cuttings.
fn cuttings<T: NormTable>(alloc: Global, table: &T) -> Result<(), Fail> {
    for cutting in 0..16 {
        cut(alloc, table, cutting)?;
    }
    Ok(())
}

/// A form, the input, the answer, and what is written.
type Row = (Form, &'static [u8], Result<u64, RunFault>, &'static [u8]);

const ROWS: &[Row] = &[
    (Form::Nfc, b"a\xcc\x82", Ok(2), b"\xc3\xa2"),
    (Form::Nfkd, b"\xef\xac\x81", Ok(2), b"fi"),
    (Form::Nfd, b"", Ok(0), b""),
    (Form::Nfc, b"", Ok(0), b""),
    (Form::Nfkd, b"", Ok(0), b""),
    (Form::Nfkc, b"", Ok(0), b""),
    (Form::Nfc, b"a\xcc", Err(RunFault::NotUtf8 { at: 1 }), b""),
    (Form::Nfc, b"a\xffb", Err(RunFault::NotUtf8 { at: 1 }), b""),
    (Form::Nfd, b"\xc3\x85A", Ok(4), b"A\xcc\x8aA"),
];

fn wants_rows<T: NormTable>(alloc: Global, table: &T) -> Result<(), Fail> {
    for row in ROWS {
        let whole = Watched::new(Trickle::new(row.1, 64));
        wants_run(alloc, table, whole, (row.0, row.2, row.3))?;
    }
    Ok(())
}

/// A read that fails at a call that is counted from 0.
fn wants_failed_read<T: NormTable>(
    alloc: Global,
    table: &T,
    call: u64,
    failure: Failure,
    bytes: &[u8],
) -> Result<(), Fail> {
    let source = Trickle::new(b"a\xcc\x82A", 1).failing_at(call, failure);
    let wanted = (Form::Nfc, Err(RunFault::ReadFailed), bytes);
    wants_run(alloc, table, Watched::new(source), wanted)
}

fn failed_reads<T: NormTable>(alloc: Global, table: &T, failure: Failure) -> Result<(), Fail> {
    for call in 0..4 {
        wants_failed_read(alloc, table, call, failure, b"")?;
    }
    wants_failed_read(alloc, table, 4, failure, b"\xc3\xa2")
}

/// A write of one byte, or the flush, that fails at a call that is counted from 0: what comes before it is
/// written, and nothing is tried behind it.
fn wants_failed_write<T: NormTable>(
    alloc: Global,
    table: &T,
    call: u64,
    failure: Failure,
) -> Result<(), Fail> {
    let mut source = Watched::new(Trickle::new(b"a\xcc\x82A", 1));
    let mut target = Watched::new(Room::new(alloc, 64, 1)?.failing_at(call, failure));
    let made = run(alloc, table, Form::Nfc, &mut source, &mut target);
    let told = target.failed() && made == Err(RunFault::WriteFailed);
    want(told, "the target has failed, and the answer says so")?;
    wants_front(&target.into_inner(), b"\xc3\xa2A", call)
}

fn failed_writes<T: NormTable>(alloc: Global, table: &T, failure: Failure) -> Result<(), Fail> {
    for call in 0..4 {
        wants_failed_write(alloc, table, call, failure)?;
    }
    Ok(())
}

/// What runs show.
#[derive(Clone, Copy)]
enum Shown {
    Cuttings,
    Rows,
    FailedReads(Failure),
    FailedWrites(Failure),
}

impl Example for Shown {
    fn holds<T: Made>(&self, alloc: Global, table: &T) -> Result<(), Fail> {
        match self {
            Shown::Cuttings => cuttings(alloc, table),
            Shown::Rows => wants_rows(alloc, table),
            Shown::FailedReads(failure) => failed_reads(alloc, table, *failure),
            Shown::FailedWrites(failure) => failed_writes(alloc, table, *failure),
        }
    }
}

#[test]
fn pieces_decide_nothing(rt: HostRuntime) -> Result<(), Fail> {
    holds_over_each(rt.alloc(), V1, &Shown::Cuttings)
}

#[test]
fn runs_write_the_form_of_the_whole_input(rt: HostRuntime) -> Result<(), Fail> {
    holds_over_each(rt.alloc(), V1, &Shown::Rows)
}

/// A failed read leaves what is ready; failed writes and a failed flush are told.
#[test]
fn failed_devices_are_told(rt: HostRuntime) -> Result<(), Fail> {
    for failure in &FAILURES {
        holds_over_each(rt.alloc(), V1, &Shown::FailedReads(*failure))?;
        holds_over_each(rt.alloc(), V1, &Shown::FailedWrites(*failure))?;
    }
    Ok(())
}

/// Each fault, and how it is told.
const TOLD: &[(RunFault, &str)] = &[
    (RunFault::NotUtf8 { at: 17 }, "not UTF-8 at byte 17"),
    (RunFault::ReadFailed, "read failed"),
    (RunFault::WriteFailed, "write failed"),
    (RunFault::TooLarge, "more than 4,294,967,295 bytes"),
    (RunFault::Memory, "out of memory"),
];

#[test]
fn faults_are_told_in_words(rt: HostRuntime) -> Result<(), Fail> {
    want_told(rt.alloc(), TOLD)
}
