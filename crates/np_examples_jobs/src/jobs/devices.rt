//! Devices that fail in mid-stream, and marks from before.
use super::readers::{Readers, Reading, count_of, counts_of, replay_over, run_over};
use super::{Command, Job, is_answer, job_into};
use np_code_points::watched::Watched;
use np_code_points::{Form, Memory};
use np_examples_shared::devices::{Failure, Room, Trickle};
use np_examples_shared::fixtures::{V1_DATA, V1_EXCLUSIONS};
use np_examples_shared::{mended, want};
use std::alloc::Global;
use std::io::Write;
use std::test::Fail;

/// A call that no reader comes to.
const NEVER: u64 = u64::MAX;

/// As many reads as a reader has that gives a byte each; one more tells its end.
const ALL: u64 = u64::MAX;

/// A job of which one reader fails: the number of the reader, of its call, the line that tells it, and how often each
/// reader is read.
type Cut = (Reading, u8, u64, &'static str, [u64; 5]);

/// The reader of this number, from 0, which gives a byte each.
fn reader(
    number: u8,
    bytes: &'static [u8],
    cut: &Cut,
    failure: Failure,
) -> Watched<Trickle<'static>> {
    let call = if number == cut.1 { cut.2 } else { NEVER };
    Watched::new(Trickle::new(bytes, 1).failing_at(call, failure))
}

/// The readers of a job over the first fixture twice, and a text of `Aa`.
fn readers_of(cut: &Cut, failure: Failure) -> Readers<Trickle<'static>> {
    Readers {
        data: reader(0, V1_DATA.as_bytes(), cut, failure),
        exclusions: reader(1, V1_EXCLUSIONS.as_bytes(), cut, failure),
        later_data: reader(2, V1_DATA.as_bytes(), cut, failure),
        later_exclusions: reader(3, V1_EXCLUSIONS.as_bytes(), cut, failure),
        text: reader(4, b"Aa", cut, failure),
    }
}

/// So many reads of a text.
fn reads(wanted: u64, text: &str) -> u64 {
    if wanted == ALL {
        text.len() as u64 + 1
    } else {
        wanted
    }
}

/// How often each reader is to be read.
fn wanted_reads([data, exclusions, later_data, later_exclusions, text]: [u64; 5]) -> [u64; 5] {
    [
        reads(data, V1_DATA),
        reads(exclusions, V1_EXCLUSIONS),
        reads(later_data, V1_DATA),
        reads(later_exclusions, V1_EXCLUSIONS),
        text,
    ]
}

/// Fails unless the job tells the failed read in its line with status 5, and then reads nothing more.
fn wants_cut(alloc: Global, cut: &Cut, failure: Failure) -> Result<(), Fail> {
    let mut readers = readers_of(cut, failure);
    let ran = run_over(alloc, cut.0, &mut readers);
    let is_read_so = counts_of(readers) == wanted_reads(cut.4);
    want(is_read_so && is_answer(&ran, &(5, "", cut.3)), cut.3)
}

fn want_cuts(alloc: Global, cuts: &[Cut]) -> Result<(), Fail> {
    for cut in cuts {
        wants_cut(alloc, cut, Failure::Error)?;
        wants_cut(alloc, cut, Failure::Interrupted)?;
    }
    Ok(())
}

const OLD_DATA_FAILED: &str = "version 0 data: ReadFailed\n";

const OLD_EXCLUSIONS_FAILED: &str = "version 0 exclusions: ReadFailed\n";

const NEW_DATA_FAILED: &str = "version 1 data: ReadFailed\n";

const NEW_EXCLUSIONS_FAILED: &str = "version 1 exclusions: ReadFailed\n";

/// Versions are read in order, each whole, and then the input.
const CUTS: &[Cut] = &[
    (Reading::Key, 0, 30, OLD_DATA_FAILED, [31, 0, 0, 0, 0]),
    (Reading::Key, 1, 2, OLD_EXCLUSIONS_FAILED, [ALL, 3, 0, 0, 0]),
    (
        Reading::Key,
        4,
        1,
        "input: ReadFailed\n",
        [ALL, ALL, 0, 0, 2],
    ),
    (Reading::Audit, 0, 0, OLD_DATA_FAILED, [1, 0, 0, 0, 0]),
    (
        Reading::Audit,
        1,
        0,
        OLD_EXCLUSIONS_FAILED,
        [ALL, 1, 0, 0, 0],
    ),
    (Reading::Audit, 2, 0, NEW_DATA_FAILED, [ALL, ALL, 1, 0, 0]),
    (
        Reading::Audit,
        3,
        0,
        NEW_EXCLUSIONS_FAILED,
        [ALL, ALL, ALL, 1, 0],
    ),
    (Reading::KeyUnder, 0, 0, OLD_DATA_FAILED, [1, 0, 0, 0, 0]),
    (
        Reading::KeyUnder,
        1,
        0,
        OLD_EXCLUSIONS_FAILED,
        [ALL, 1, 0, 0, 0],
    ),
    (
        Reading::KeyUnder,
        2,
        0,
        NEW_DATA_FAILED,
        [ALL, ALL, 1, 0, 0],
    ),
    (
        Reading::KeyUnder,
        3,
        0,
        NEW_EXCLUSIONS_FAILED,
        [ALL, ALL, ALL, 1, 0],
    ),
    (
        Reading::KeyUnder,
        4,
        0,
        "input: ReadFailed\n",
        [ALL, ALL, ALL, ALL, 1],
    ),
];

#[test]
fn a_failed_read_in_mid_stream_ends_the_job(rt: HostRuntime) -> Result<(), Fail> {
    want_cuts(rt.alloc(), CUTS)
}

/// A reader, which fails at its first call where that is asked for.
fn failing(bytes: &'static [u8], fails: bool) -> Watched<Trickle<'static>> {
    let call = if fails { 0 } else { NEVER };
    Watched::new(Trickle::new(bytes, 1).failing_at(call, Failure::Error))
}

/// A replay over two versions, whose reader of this number fails at its first read, tells that in this line; 4 is the
/// schedule's. Whether it read the schedule.
fn replay_fails(alloc: Global, number: u8, line: &str) -> Result<bool, Fail> {
    let mut files = [
        failing(V1_DATA.as_bytes(), number == 0),
        failing(V1_EXCLUSIONS.as_bytes(), number == 1),
        failing(V1_DATA.as_bytes(), number == 2),
        failing(V1_EXCLUSIONS.as_bytes(), number == 3),
    ];
    let mut schedule = failing(b"room 1\nnodes 0\n", number == 4);
    let ran = replay_over(alloc, &mut schedule, &mut files);
    want(is_answer(&ran, &(5, "", line)), line)?;
    Ok(count_of(schedule) > 0)
}

#[test]
fn versions_are_read_in_order_and_then_the_schedule(rt: HostRuntime) -> Result<(), Fail> {
    let alloc = rt.alloc();
    want(!replay_fails(alloc, 0, OLD_DATA_FAILED)?, OLD_DATA_FAILED)?;
    want(
        !replay_fails(alloc, 1, OLD_EXCLUSIONS_FAILED)?,
        OLD_EXCLUSIONS_FAILED,
    )?;
    want(!replay_fails(alloc, 2, NEW_DATA_FAILED)?, NEW_DATA_FAILED)?;
    want(
        !replay_fails(alloc, 3, NEW_EXCLUSIONS_FAILED)?,
        NEW_EXCLUSIONS_FAILED,
    )?;
    want(
        replay_fails(alloc, 4, "schedule: ReadFailed\n")?,
        "schedule",
    )
}

/// Readers of `key` whose marks are from before.
fn mended_readers() -> Result<Readers<Trickle<'static>>, Fail> {
    Ok(Readers {
        data: mended(V1_DATA.as_bytes())?,
        exclusions: mended(V1_EXCLUSIONS.as_bytes())?,
        later_data: failing(b"", false),
        later_exclusions: failing(b"", false),
        text: mended(b"Aa")?,
    })
}

fn wants_key(alloc: Global, readers: &mut Readers<Trickle<'static>>) -> Result<(), Fail> {
    let ran = run_over(alloc, Reading::Key, readers);
    want(is_answer(&ran, &(0, "Aa", "")), "the key")
}

fn wants_no_mark(readers: &Readers<Trickle<'static>>) -> Result<(), Fail> {
    want(!readers.data.failed() && !readers.text.failed(), "no mark")
}

#[test]
fn marks_from_before_tell_nothing(rt: HostRuntime) -> Result<(), Fail> {
    let mut readers = mended_readers()?;
    wants_key(rt.alloc(), &mut readers)?;
    wants_no_mark(&readers)
}

/// `key` of a text, into these writers.
fn key_into<O: Write, E: Write>(
    alloc: Global,
    text: &str,
    output: &mut Watched<O>,
    error: &mut Watched<E>,
) -> u8 {
    let key = Job::Text(Command::Key, Form::Nfc, V1_DATA, text.as_bytes());
    job_into(alloc, &key, output, error)
}

/// Standard error of which the first call fails.
fn error_failing(alloc: Global, failure: Failure) -> Result<Watched<Room>, Memory> {
    let room = Room::new(alloc, 64, 64)?;
    Ok(Watched::new(room.failing_at(0, failure)))
}

/// The status of `key` of a text, and the mark of standard error behind it.
fn key_marks(alloc: Global, text: &str, error: &mut Watched<Room>) -> (u8, bool) {
    let mut output = Watched::new(Vec::new(alloc));
    let status = key_into(alloc, text, &mut output, error);
    (status, error.failed())
}

/// The mark of standard error after a job for which it bore one before.
fn error_mark(alloc: Global, text: &str) -> Result<(u8, bool), Fail> {
    let mut error = error_failing(alloc, Failure::Error)?;
    // what it answers is seen in the mark
    let _ = error.flush();
    want(error.failed(), "the mark before")?;
    Ok(key_marks(alloc, text, &mut error))
}

#[test]
fn standard_error_is_cleared(rt: HostRuntime) -> Result<(), Fail> {
    want(error_mark(rt.alloc(), "a")? == (0, false), "a key")?;
    want(error_mark(rt.alloc(), "b")? == (3, false), "a refusal")
}

/// The status of a refusal that is told into a device that fails.
fn untold(alloc: Global) -> Result<(u8, bool), Fail> {
    let mut error = error_failing(alloc, Failure::TakesNothing)?;
    Ok(key_marks(alloc, "b", &mut error))
}

#[test]
fn a_refusal_that_can_not_be_told_keeps_its_status(rt: HostRuntime) -> Result<(), Fail> {
    want(untold(rt.alloc())? == (3, true), "the status")
}
