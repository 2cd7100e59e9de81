//! Worked examples of schedules, and of lines that can't stand.
use np_code_points::Memory;
use np_examples_shared::told::want_told;
use np_examples_shared::want;
use np_schedules::EventLine;
use np_world::{Schedule, ScheduleFault, read_schedule};
use std::alloc::Global;
use std::test::Fail;

/// The line that can't stand; none where the text is a schedule over two versions.
fn faulty_line(alloc: Global, text: &str) -> Result<Option<u64>, Fail> {
    match read_schedule(alloc, text.as_bytes(), 2) {
        Ok(_) => Ok(None),
        Err(ScheduleFault::Line { line }) => Ok(Some(line)),
        Err(ScheduleFault::Memory) => Err(Fail::new("memory ran out")),
    }
}

/// Each text has this faulty line.
fn want_faults(alloc: Global, rows: &[(&str, u64)]) -> Result<(), Fail> {
    for (text, line) in rows {
        want(faulty_line(alloc, text)? == Some(*line), text)?;
    }
    Ok(())
}

/// Each text is a schedule.
fn want_schedules(alloc: Global, texts: &[&str]) -> Result<(), Fail> {
    for text in texts {
        want(faulty_line(alloc, text)?.is_none(), text)?;
    }
    Ok(())
}

/// Beginnings that can't stand, and their faulty lines.
const BEGINNINGS: &[(&str, u64)] = &[
    ("", 1),
    ("# no line of data\n\n", 3),
    ("room 4\n", 2),
    ("room 4", 2),
    ("room 4\n\n# and nothing", 4),
    ("room 70000\n", 1),
    ("room 65537\nnodes 0\n", 1),
    ("room\nnodes 0\n", 1),
    ("room 4 4\nnodes 0\n", 1),
    ("nodes 0\nroom 4\n", 1),
    ("room 4\nnodes\n", 2),
    ("room 4\nnodes 2\n", 2),
    ("room 4\nsave 0\n", 2),
];

/// Lines behind the beginning that are no events.
const NO_EVENTS: &[(&str, u64)] = &[
    ("room 4\nnodes 0\nask 0 0061\n", 3),
    ("room 4\nnodes 0\nask 0 0061 / 0061 / 0061\n", 3),
    ("room 4\nnodes 0\naccept 0 D800\n", 3),
    ("room 4\nnodes 0\naccept 0 061\n", 3),
    ("room 4\nnodes 0\naccept 0 0061 /\n", 3),
    ("room 4\nnodes 0\naccept 0 0061 0061,\n", 3),
    ("room 4\nnodes 0\nask 0 0061/0062\n", 3),
    ("room 4\nnodes 0\naccept 1 0061\n", 3),
    ("room 4\nnodes 0\ndeliver 0 1234567890\n", 3),
    ("room 4\nnodes 0\nforge 0 abc\n", 3),
    ("room 4\nnodes 0\nforge 0 ab cd\n", 3),
    ("room 4\nnodes 0\nforge 0 0g\n", 3),
    ("room 4\nnodes 0\nsave 0 0\n", 3),
    ("room 4\nnodes 0\nrestart 0 2\n", 3),
    ("room 4\nnodes 0\nrestart 0 0 0\n", 3),
    ("room 4\nnodes 0\nrestart 1 0\n", 3),
    ("room 4\nnodes 0\nrestart 0 -\n", 3),
    ("room 4\nnodes 0\nSave 0\n", 3),
    ("room 4\nnodes 0\nnodes 0\n", 3),
    ("room 4\nnodes 0\nsave 0\nsave 1\nsave 2\n", 4),
    // comments, blank lines and carriage returns are passed over
    ("# room\r\n\r\nroom 4\r\n \t\nnodes 0\r\n#\r\nsave 1\r\n", 7),
];

#[test]
fn the_first_line_that_can_not_stand_is_named(rt: HostRuntime) -> Result<(), Fail> {
    want_faults(rt.alloc(), BEGINNINGS)?;
    want_faults(rt.alloc(), NO_EVENTS)
}

/// Texts that are schedules.
const SCHEDULES: &[&str] = &[
    "room 4\nnodes 0",
    "room 0\r\nnodes 0\t1\r\n",
    " room\t65536 \nnodes 0 1\n\taccept  0\t0061 \n",
    "room 000000004\nnodes 000000001\ndeliver 0 999999999\n",
    "room 4\nnodes 0\nrestart 0\nrestart 0 1\nrestart\t0 00 \nforget 0\n",
    "room 4\nnodes 0\naccept 0\nask 0 /\nask 0 0061 /\nforge 0\nforge 0 aBcD\n",
];

#[test]
fn words_stand_apart_by_blanks(rt: HostRuntime) -> Result<(), Fail> {
    want_schedules(rt.alloc(), SCHEDULES)
}

/// Two versions, a room, the first version of each of two nodes, and one event.
fn want_parts(schedule: &Schedule) -> Result<(), Fail> {
    want(schedule.versions() == 2, "two versions")?;
    want(schedule.room() == 4, "room for four strings")?;
    want(schedule.starts() == [0, 1].as_slice(), "two nodes")?;
    let [EventLine::Deliver { node, message }] = schedule.events() else {
        return Err(Fail::new("one delivery"));
    };
    want(*node == 1 && *message == 7, "message 7 to node 1")
}

#[test]
fn a_schedule_lends_its_room_its_nodes_and_its_events(rt: HostRuntime) -> Result<(), Fail> {
    let schedule = read_schedule(rt.alloc(), b"room 4\nnodes 0 1\ndeliver 1 7\n", 2)?;
    want_parts(&schedule)
}

/// Whether a schedule of so many nodes stands; its faulty line where it doesn't.
fn line_of_nodes(alloc: Global, count: usize) -> Result<Option<u64>, Fail> {
    let text = with_nodes(alloc, count)?;
    faulty_line(alloc, text.as_str())
}

/// A schedule of so many nodes and without events.
fn with_nodes(alloc: Global, count: usize) -> Result<String, Memory> {
    let mut text = String::new(alloc);
    text.push_str("room 4\nnodes")?;
    for _ in 0..count {
        text.push_str(" 1")?;
    }
    Ok(text)
}

#[test]
fn nodes_are_64_at_most(rt: HostRuntime) -> Result<(), Fail> {
    want(line_of_nodes(rt.alloc(), 64)?.is_none(), "64 nodes")?;
    want(line_of_nodes(rt.alloc(), 65)? == Some(2), "65 nodes")
}

/// Each fault, and how it is told.
const TOLD: &[(ScheduleFault, &str)] = &[
    (
        ScheduleFault::Line { line: 12 },
        "line 12: malformed, or not allowed there",
    ),
    (ScheduleFault::Memory, "out of memory"),
];

#[test]
fn a_fault_is_told_in_words(rt: HostRuntime) -> Result<(), Fail> {
    want_told(rt.alloc(), TOLD)
}
