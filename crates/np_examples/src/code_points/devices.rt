//! The devices for tests keep their own word.
use np_examples_shared::devices::{Endless, Failure, Room, Trickle};
use np_examples_shared::{FAILURES, want};
use std::alloc::Global;
use std::io::{ErrorKind, Read, Result as IoResult, Write};
use std::test::Fail;

/// What kind of error a failure is.
const KINDS: [(Failure, ErrorKind); 2] = [
    (Failure::Error, ErrorKind::Other),
    (Failure::Interrupted, ErrorKind::Interrupted),
];

/// Whether an outcome is an error of that kind.
fn is_error<T: Drop>(outcome: IoResult<T>, kind: ErrorKind) -> bool {
    outcome.err().map(|e| e.kind()) == Some(kind)
}

fn reads_fail(failure: Failure, kind: ErrorKind) -> Result<(), Fail> {
    let mut piece = [0u8; 4];
    let mut trickle = Trickle::new(b"abc".as_slice(), 2).failing_at(0, failure);
    want(
        is_error(trickle.read(&mut piece), kind),
        "a reader of bytes",
    )?;
    let mut endless = Endless::new().failing_at(0, failure);
    want(
        is_error(endless.read(&mut piece), kind),
        "an endless reader",
    )
}

fn write_fails(alloc: Global, failure: Failure, kind: ErrorKind) -> Result<(), Fail> {
    let mut room = Room::new(alloc, 4, 4)?.failing_at(0, failure);
    want(is_error(room.write(b"abc"), kind), "a write")
}

fn flush_fails(alloc: Global, failure: Failure, kind: ErrorKind) -> Result<(), Fail> {
    let mut room = Room::new(alloc, 4, 4)?.failing_at(0, failure);
    want(is_error(room.flush(), kind), "a flush")
}

#[test]
fn a_failure_is_its_kind_of_error(rt: HostRuntime) -> Result<(), Fail> {
    for (failure, kind) in KINDS {
        reads_fail(failure, kind)?;
        write_fails(rt.alloc(), failure, kind)?;
        flush_fails(rt.alloc(), failure, kind)?;
    }
    Ok(())
}

#[test]
fn a_write_may_take_nothing(rt: HostRuntime) -> Result<(), Fail> {
    let mut room = Room::new(rt.alloc(), 4, 4)?.failing_at(0, Failure::TakesNothing);
    want(room.write(b"abc").ok() == Some(0), "no byte is taken")
}

fn goes_on(failure: Failure) -> Result<(), Fail> {
    let mut piece = [0u8; 4];
    let mut trickle = Trickle::new(b"abc".as_slice(), 2).failing_at(0, failure);
    want(trickle.read(&mut piece).is_err(), "the first read")?;
    let next = trickle.read(&mut piece).ok();
    want(next == Some(2) && trickle.calls() == 2, "the second read")
}

fn has_no_end() -> Result<(), Fail> {
    let mut piece = [0u8; 4];
    let mut endless = Endless::new();
    for _ in 0..400 {
        want(endless.read(&mut piece).ok() == Some(4), "one more read")?;
    }
    Ok(())
}

#[test]
fn a_device_goes_on_behind_its_failure(_rt: HostRuntime) -> Result<(), Fail> {
    for failure in FAILURES {
        goes_on(failure)?;
    }
    has_no_end()
}
