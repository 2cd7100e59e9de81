//! Whole outputs: pieces, the flush, and what a failure leaves.
use np_code_points::Memory;
use np_code_points::output::{WriteFailed, flush_once, write_out, write_whole};
use np_code_points::watched::Watched;
use np_examples_shared::devices::{Failure, Room};
use np_examples_shared::{FAILURES, want};
use std::alloc::Global;
use std::io::Write;
use std::test::Fail;

/// How an output ends where the call of that number fails: whether it is marked as failed, how many
/// writes and flushes there were, and how many bytes were taken.
fn ends(
    alloc: Global,
    bytes: &[u8],
    call: u64,
    failure: Failure,
) -> Result<(Result<(), WriteFailed>, bool, u64, usize), Memory> {
    let mut target = Watched::new(Room::new(alloc, 8, 2)?.failing_at(call, failure));
    let outcome = write_out(&mut target, bytes);
    let failed = target.failed();
    let room = target.into_inner();
    Ok((outcome, failed, room.calls(), room.bytes().len()))
}

fn takes_all(target: &mut Watched<Room>) -> Result<(), Fail> {
    want(write_out(target, b"abc") == Ok(()), "the bytes are taken")?;
    want(!target.failed(), "no mark")
}

fn has_taken_all(room: &Room) -> Result<(), Fail> {
    want(room.bytes() == b"abc".as_slice(), "the bytes")?;
    want(room.calls() == 3, "two pieces and the flush")
}

#[test]
fn a_writer_takes_all_and_is_flushed_once(rt: HostRuntime) -> Result<(), Fail> {
    let mut target = Watched::new(Room::new(rt.alloc(), 8, 2)?);
    takes_all(&mut target)?;
    has_taken_all(&target.into_inner())
}

/// The number of the call that fails, how many there are then, and how many bytes were taken.
const FAILED: &[(u64, u64, usize)] = &[(0, 1, 0), (1, 2, 2), (2, 3, 3)];

fn stops_at_each(alloc: Global, failure: Failure) -> Result<(), Fail> {
    for (call, calls, taken) in FAILED {
        let end = ends(alloc, b"abc", *call, failure)?;
        want(
            end == (Err(WriteFailed), true, *calls, *taken),
            "a failed write or flush",
        )?;
    }
    Ok(())
}

#[test]
fn nothing_is_tried_twice_or_behind_a_failure(rt: HostRuntime) -> Result<(), Fail> {
    for failure in FAILURES {
        stops_at_each(rt.alloc(), failure)?;
    }
    Ok(())
}

fn flushes_nothing(alloc: Global, failure: Failure) -> Result<(), Fail> {
    let end = ends(alloc, b"", 0, failure)?;
    want(end == (Err(WriteFailed), true, 1, 0), "a failed flush")?;
    let end = ends(alloc, b"", 1, failure)?;
    want(end == (Ok(()), false, 1, 0), "the flush is the one call")
}

#[test]
fn an_empty_output_is_flushed(rt: HostRuntime) -> Result<(), Fail> {
    for failure in FAILURES {
        flushes_nothing(rt.alloc(), failure)?;
    }
    Ok(())
}

/// A writer that has failed once and is whole again.
fn mended(alloc: Global) -> Result<Watched<Room>, Fail> {
    let mut target = Watched::new(Room::new(alloc, 8, 2)?.failing_at(0, Failure::Error));
    if target.flush().is_ok() || !target.failed() {
        return Err(Fail::new("the first call fails"));
    }
    Ok(target)
}

fn writes_out(alloc: Global) -> Result<(), Fail> {
    let mut target = mended(alloc)?;
    let done = write_out(&mut target, b"abc").is_ok() && !target.failed();
    want(done, "a whole output")
}

fn writes_whole(alloc: Global) -> Result<(), Fail> {
    let mut target = mended(alloc)?;
    let done = write_whole(&mut target, b"abc").is_ok() && !target.failed();
    want(done, "all bytes")
}

fn flushes_once(alloc: Global) -> Result<(), Fail> {
    let mut target = mended(alloc)?;
    let done = flush_once(&mut target).is_ok() && !target.failed();
    want(done, "a flush")
}

#[test]
fn an_old_failure_is_no_failure_of_this_output(rt: HostRuntime) -> Result<(), Fail> {
    writes_out(rt.alloc())?;
    writes_whole(rt.alloc())?;
    flushes_once(rt.alloc())
}

fn keeps_its_mark(target: &mut Watched<Room>) -> Result<(), Fail> {
    want(write_out(target, b"ab") == Err(WriteFailed), "no room")?;
    want(target.flush().is_ok() && target.failed(), "the mark stays")?;
    target.clear();
    want(!target.failed(), "no mark")
}

#[test]
fn the_mark_stays_until_it_is_cleared(rt: HostRuntime) -> Result<(), Fail> {
    let mut target = Watched::new(Room::new(rt.alloc(), 1, 8)?);
    keeps_its_mark(&mut target)
}

#[test]
fn long_outputs_have_memory(rt: HostRuntime) -> Result<(), Fail> {
    let bytes = vec![in rt.alloc(); b'a'; 2_097_152]?;
    let mut target = Watched::new(Room::new(rt.alloc(), 2_097_152, 65_536)?);
    want(
        write_out(&mut target, bytes.as_slice()) == Ok(()),
        "the bytes are taken",
    )?;
    want(
        target.into_inner().bytes().len() == 2_097_152,
        "2 MiB of memory",
    )
}
