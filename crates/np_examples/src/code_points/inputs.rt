//! Whole inputs: their end, their limit, and what a failure leaves.
use np_code_points::input::{InputFault, LIMIT, read_whole};
use np_code_points::watched::Watched;
use np_examples_shared::devices::{Endless, Failure, Trickle};
use np_examples_shared::told::want_told;
use np_examples_shared::{FAILURES, mended, want};
use std::alloc::Global;
use std::io::Read;
use std::test::Fail;

/// How many reads there were, where the one of that number fails, and how the input ended.
fn ends(alloc: Global, call: u64, failure: Failure) -> (Option<InputFault>, bool, u64) {
    let device = Trickle::new(b"abc".as_slice(), 2).failing_at(call, failure);
    let mut source = Watched::new(device);
    let fault = read_whole(alloc, &mut source).err();
    let failed = source.failed();
    (fault, failed, source.into_inner().calls())
}

/// Fails unless the source is read whole, as `abc`, and has no mark.
fn gives_all(alloc: Global, source: &mut Watched<Trickle<'_>>) -> Result<(), Fail> {
    let bytes = read_whole(alloc, source)?;
    want(bytes.as_slice() == b"abc".as_slice(), "the whole input")?;
    want(!source.failed(), "no mark")
}

#[test]
fn a_reader_is_read_to_its_end_or_its_failure(rt: HostRuntime) -> Result<(), Fail> {
    let mut whole = Watched::new(Trickle::new(b"abc".as_slice(), 2));
    gives_all(rt.alloc(), &mut whole)?;
    want(
        whole.into_inner().calls() == 3,
        "two pieces and the end, and nothing behind it",
    )
}

fn wants_one_more(alloc: Global, call: u64, failure: Failure) -> Result<(), Fail> {
    let (fault, failed, calls) = ends(alloc, call, failure);
    want(fault == Some(InputFault::ReadFailed), "a failed read")?;
    want(failed, "the mark")?;
    want(calls == call.saturating_add(1), "nothing behind it")
}

#[test]
fn nothing_is_read_behind_a_failure(rt: HostRuntime) -> Result<(), Fail> {
    for failure in FAILURES {
        for call in 0..3 {
            wants_one_more(rt.alloc(), call, failure)?;
        }
    }
    Ok(())
}

fn wants_one_read(failure: Failure) -> Result<(), Fail> {
    let mut piece = [0u8; 4];
    let device = Trickle::new(b"abc".as_slice(), 2).failing_at(0, failure);
    let mut source = Watched::new(device);
    let fails = source.read(&mut piece).is_err() && source.failed();
    want(fails, "a failed read")?;
    want(source.into_inner().calls() == 1, "tried once")
}

#[test]
fn a_failed_read_is_tried_once(_rt: HostRuntime) -> Result<(), Fail> {
    for failure in FAILURES {
        wants_one_read(failure)?;
    }
    Ok(())
}

#[test]
fn an_old_failure_is_no_failure_of_this_input(rt: HostRuntime) -> Result<(), Fail> {
    let mut source = mended(b"abc")?;
    gives_all(rt.alloc(), &mut source)
}

/// Fails unless an endless reader ends an input so, after so many reads; it is marked where a read failed.
fn wants_end(alloc: Global, device: Endless, wanted: InputFault, calls: u64) -> Result<(), Fail> {
    let mut source = Watched::new(device);
    let fault = read_whole(alloc, &mut source).err();
    want(fault == Some(wanted), "why it ends")?;
    want(
        source.failed() == (wanted == InputFault::ReadFailed),
        "the mark",
    )?;
    want(source.into_inner().calls() == calls, "nothing behind it")
}

#[test]
fn an_endless_reader_is_too_large(rt: HostRuntime) -> Result<(), Fail> {
    want(LIMIT == 16_777_216, "the limit")?;
    // 256 pieces of 64 KiB, and one byte
    wants_end(rt.alloc(), Endless::new(), InputFault::TooLarge, 257)?;
    let broken = Endless::new().failing_at(200, Failure::Interrupted);
    wants_end(rt.alloc(), broken, InputFault::ReadFailed, 201)
}

/// Each fault, and how it is told.
const TOLD: &[(InputFault, &str)] = &[
    (InputFault::TooLarge, "more than 16,777,216 bytes"),
    (InputFault::ReadFailed, "read failed"),
    (InputFault::Memory, "out of memory"),
];

#[test]
fn faults_are_told_in_words(rt: HostRuntime) -> Result<(), Fail> {
    want_told(rt.alloc(), TOLD)
}
