//! A job reads each file and its input to the end, and nothing behind it: at a terminal more could come there.
use super::readers::{Readers, Reading, count_of, counts_of, replay_over, run_over};
use np_code_points::watched::Watched;
use np_examples_shared::devices::Ending;
use np_examples_shared::fixtures::{V1_DATA, V1_EXCLUSIONS, V2_DATA, V2_EXCLUSIONS};
use np_examples_shared::scripts::EXCHANGE_SCHEDULE;
use np_examples_shared::want;
use std::alloc::Global;
use std::test::Fail;

/// A reader of this text.
fn reader(text: &'static str) -> Watched<Ending<'static>> {
    Watched::new(Ending::new(text.as_bytes()))
}

/// The readers of the fixtures, and of a text.
fn readers_of(text: &'static str) -> Readers<Ending<'static>> {
    Readers {
        data: reader(V1_DATA),
        exclusions: reader(V1_EXCLUSIONS),
        later_data: reader(V2_DATA),
        later_exclusions: reader(V2_EXCLUSIONS),
        text: reader(text),
    }
}

/// A job, its text, and how often it finds the ends of the first version's files, of the later one's, and of the text.
type Row = (Reading, &'static str, [u64; 5]);

/// Fails unless a row's job ends with status 0, and finds the ends of its readers so often.
fn wants_ends(alloc: Global, (reading, text, wanted): &Row) -> Result<(), Fail> {
    let mut readers = readers_of(text);
    let ran = run_over(alloc, *reading, &mut readers);
    want(ran.error.is_empty(), "out of memory, or another refusal")?;
    want(
        ran.status == 0 && counts_of(readers) == *wanted,
        "each end is found once",
    )
}

const ENDS: &[Row] = &[
    (Reading::Normalize, "Aa", [1, 1, 0, 0, 1]),
    (Reading::Key, "Aa", [1, 1, 0, 0, 1]),
    (Reading::KeyUnder, "Aa", [1, 1, 1, 1, 1]),
    (Reading::Compare, "A\nA", [1, 1, 0, 0, 1]),
    (Reading::Audit, "", [1, 1, 1, 1, 0]),
    (Reading::Lines, "A\nA", [1, 1, 0, 0, 1]),
];

fn are_found(alloc: Global, rows: &[Row]) -> Result<(), Fail> {
    for row in rows {
        wants_ends(alloc, row)?;
    }
    Ok(())
}

#[test]
fn nothing_is_read_behind_an_end(rt: HostRuntime) -> Result<(), Fail> {
    are_found(rt.alloc(), ENDS)
}

/// Whether the end of each file was found once.
fn are_found_once(files: [Watched<Ending<'static>>; 4]) -> bool {
    let mut are_once = true;
    for file in files {
        are_once = are_once && count_of(file) == 1;
    }
    are_once
}

#[test]
fn replay_reads_nothing_behind_an_end(rt: HostRuntime) -> Result<(), Fail> {
    let alloc = rt.alloc();
    let mut schedule = reader(EXCHANGE_SCHEDULE);
    let mut files = [
        reader(V1_DATA),
        reader(V1_EXCLUSIONS),
        reader(V2_DATA),
        reader(V2_EXCLUSIONS),
    ];
    let ran = replay_over(alloc, &mut schedule, &mut files);
    want(ran.error.is_empty(), "out of memory, or another refusal")?;
    want(
        ran.status == 0 && count_of(schedule) == 1,
        "the schedule's end",
    )?;
    want(are_found_once(files), "each file's end")
}
