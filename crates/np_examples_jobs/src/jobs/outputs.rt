//! Each job into an output of which one write, or the flush, fails, in each way.
use super::{Command, Job, job_into};
use np_code_points::Form;
use np_code_points::watched::Watched;
use np_examples_shared::devices::{Failure, Room};
use np_examples_shared::fixtures::V1_DATA;
use np_examples_shared::{FAILURES, V1, V2, want};
use std::alloc::Global;
use std::test::Fail;

const LETTER: &[u8] = b"a\xcc\x82\xcc\xa3";

/// The letter composed and decomposed.
const LINES: &[u8] = b"\xe1\xba\xad\na\xcc\x82\xcc\xa3\n";

/// A job, and what it writes.
type Row<'a> = (Job<'a>, &'a [u8]);

/// The jobs, and what each writes over the first fixture.
const JOBS: &[Row] = &[
    (
        Job::Text(Command::Normalize, Form::Nfc, V1_DATA, LETTER),
        b"\xe1\xba\xad",
    ),
    (
        Job::Text(Command::Key, Form::Nfc, V1_DATA, LETTER),
        b"\xe1\xba\xad",
    ),
    // one write and a flush, and a flush of nothing
    (Job::Text(Command::Key, Form::Nfc, V1_DATA, b"a"), b"a"),
    (Job::Text(Command::Key, Form::Nfc, V1_DATA, b""), b""),
    (
        Job::Text(Command::Compare, Form::Nfc, V1_DATA, LINES),
        b"equal\n",
    ),
    (Job::KeyUnder(Form::Nfc, V1, V2, LETTER), b"own form\n"),
    (Job::Audit(V1, V1), b"extends\n"),
    (
        Job::ReplayOverOne("room 1\nnodes 0\n", V1),
        b"node 0 version 0 entries 0\n",
    ),
];

/// The output took a front of the whole, and no call behind the one that failed.
fn wants_front(output: &Room, whole: &[u8], call: u64) -> Result<(), Fail> {
    want(output.calls() == call.saturating_add(1), "the calls")?;
    let written = output.bytes();
    want(whole.starts_with(written), "a front of the output")?;
    want(written.len() as u64 == call, "as far as it was taken")
}

/// The job into this output ends with this status and this line. Whether the output bears a mark then.
fn wants_told(
    alloc: Global,
    job: &Job<'_>,
    output: &mut Watched<Room>,
    (status, line): (u8, &str),
) -> Result<bool, Fail> {
    let mut error = Watched::new(Room::new(alloc, 64, 64)?);
    let ended = job_into(alloc, job, output, &mut error);
    let told: Room = error.into_inner();
    want(ended == status, "the status")?;
    want(told.bytes() == line.as_bytes(), "the line")?;
    want(
        line.is_empty() == (told.calls() == 0),
        "nothing else is told",
    )?;
    Ok(output.failed())
}

/// The job into an output that takes a byte a write, and of which the call of this number fails, writes just the
/// bytes before it, tells that it failed, and calls the output no more.
fn wants_failure(
    alloc: Global,
    job: &Job<'_>,
    whole: &[u8],
    call: u64,
    failure: Failure,
) -> Result<(), Fail> {
    let mut output = Watched::new(Room::new(alloc, 64, 1)?.failing_at(call, failure));
    let is_marked = wants_told(alloc, job, &mut output, (5, "output: WriteFailed\n"))?;
    want(is_marked, "the mark")?;
    wants_front(&output.into_inner(), whole, call)
}

/// Each write and the flush, which is the last call, in each way.
fn each_call(alloc: Global, job: &Job<'_>, whole: &[u8], failures: &[Failure]) -> Result<(), Fail> {
    for call in 0..whole.len() as u64 + 1 {
        each_failure(alloc, (job, whole), call, failures)?;
    }
    Ok(())
}

/// One call, in each way.
fn each_failure(
    alloc: Global,
    (job, whole): (&Job<'_>, &[u8]),
    call: u64,
    failures: &[Failure],
) -> Result<(), Fail> {
    for failure in failures {
        wants_failure(alloc, job, whole, call, *failure)?;
    }
    Ok(())
}

fn each_job(alloc: Global, rows: &[Row<'_>], failures: &[Failure]) -> Result<(), Fail> {
    for (job, whole) in rows {
        each_call(alloc, job, whole, failures)?;
    }
    Ok(())
}

#[test]
fn each_failed_write_and_flush_is_told(rt: HostRuntime) -> Result<(), Fail> {
    each_job(rt.alloc(), JOBS, &FAILURES)
}

/// A job that ends well calls an output that takes a byte a write once for each byte, and flushes it once.
fn wants_calls(alloc: Global, job: &Job<'_>, whole: &[u8]) -> Result<(), Fail> {
    let room = whole.len().max(1);
    let mut output = Watched::new(Room::new(alloc, room, 1)?);
    let is_marked = wants_told(alloc, job, &mut output, (0, ""))?;
    want(!is_marked, "no mark")?;
    wants_front(&output.into_inner(), whole, whole.len() as u64)
}

fn want_calls(alloc: Global, rows: &[Row<'_>]) -> Result<(), Fail> {
    for (job, whole) in rows {
        wants_calls(alloc, job, whole)?;
    }
    Ok(())
}

#[test]
fn an_output_is_flushed_once(rt: HostRuntime) -> Result<(), Fail> {
    want_calls(rt.alloc(), JOBS)
}

/// The form and the key of a text that is its own.
fn want_calls_for(alloc: Global, text: &[u8]) -> Result<(), Fail> {
    let normalize = Job::Text(Command::Normalize, Form::Nfc, V1_DATA, text);
    wants_calls(alloc, &normalize, text)?;
    let key = Job::Text(Command::Key, Form::Nfc, V1_DATA, text);
    wants_calls(alloc, &key, text)
}

#[test]
fn an_empty_and_a_long_output_are_flushed_once(rt: HostRuntime) -> Result<(), Fail> {
    want_calls_for(rt.alloc(), b"")?;
    let long = vec![in rt.alloc(); b'a'; 70_000]?;
    want_calls_for(rt.alloc(), long.as_slice())
}
