//! Scripts, from their bytes to their reports.
mod refused;
mod schedules;

use np_chain::Chain;
use np_code_points::Form;
use np_examples_shared::scripts::{
    FORGED_REPORT, FORGED_SCHEDULE, FORGETTING_REPORT, FORGETTING_SCHEDULE, OLDER_REPORT,
    OLDER_SCHEDULE, RESTART_SCHEDULE,
};
use np_examples_shared::{Files, V1, V2, tables_of, want};
use np_tables::RowTable;
use np_world::{Report, Schedule, read_schedule, replay, report_text};
use std::alloc::Global;
use std::test::Fail;

const ONE: &[Files] = &[V1];

const TWICE: &[Files] = &[V1, V1];

const BOTH: &[Files] = &[V1, V2];

/// What comes of a script under NFC.
fn replayed<'t>(
    alloc: Global,
    tables: &'t [RowTable],
    script: &str,
) -> Result<Report<'t, RowTable>, Fail> {
    let chain = Chain::check(tables)?;
    let schedule = read_schedule(alloc, script.as_bytes(), chain.len())?;
    Ok(replay(alloc, &chain, Form::Nfc, &schedule)?)
}

fn wants_text(alloc: Global, tables: &[RowTable], script: &str, wanted: &str) -> Result<(), Fail> {
    let report = replayed(alloc, tables, script)?;
    let text = report_text(alloc, &report)?;
    want(text.as_str() == wanted, script)
}

/// A script and its report.
type Row = (&'static str, &'static str);

fn want_texts(alloc: Global, tables: &[RowTable], rows: &[Row]) -> Result<(), Fail> {
    for (script, wanted) in rows {
        wants_text(alloc, tables, script, wanted)?;
    }
    Ok(())
}

/// The scripts over these versions give these reports.
fn want_reports(alloc: Global, versions: &[Files<'_>], rows: &[Row]) -> Result<(), Fail> {
    let tables = tables_of(alloc, versions)?;
    want_texts(alloc, tables.as_slice(), rows)
}

const OVER_ONE: &[Row] = &[
    (FORGETTING_SCHEDULE, FORGETTING_REPORT),
    // forged bytes are refused in order
    (FORGED_SCHEDULE, FORGED_REPORT),
    // a message that was never sent is none
    (
        "room 0\nnodes 0\ndeliver 0 999999999\n",
        "0 no message\nnode 0 version 0 entries 0\n",
    ),
    // words of events are read as they stand
    (
        "room 4\nnodes 0\naccept 0  0061\t0302 \naccept 0\nforge 0 430000000361CC8200000002c3A2\nask 0 / \nask 0 0061 0302 / 0061 0302\nask 0 / 0061 0302\nask 0 00e2 /\n",
        "0 kept 0\n1 kept 1\n2 known\n3 equal\n4 equal\n5 different\n6 not kept\nnode 0 version 0 entries 2\nentry 0061 0302 / 00E2\nentry - / -\n",
    ),
];

#[test]
fn scripts_over_one_version_have_their_reports(rt: HostRuntime) -> Result<(), Fail> {
    want_reports(rt.alloc(), ONE, OVER_ONE)
}

/// An earlier version with as many code points as the one that saved.
const OVER_ALIKE: &[Row] = &[(
    "room 4\nnodes 0\naccept 0 0061\nupgrade 0\nsave 0\nrestart 0 0\n",
    "0 kept 0\n1 version 1\n2 saved\n3 restarted\nnode 0 version 0 entries 1\nentry 0061 / 0061\n",
)];

const OVER_TWO: &[Row] = &[
    (OLDER_SCHEDULE, OLDER_REPORT),
    // a node that never saved goes to any version, empty, and on from there
    (
        "room 4\nnodes 1\naccept 0 16D68\nrestart 0 0\naccept 0 16D68\nupgrade 0\nrestart 0 0\n",
        "0 kept 0\n1 restarted\n2 unassigned 16D68 at byte 0\n3 version 1\n4 restarted\nnode 0 version 0 entries 0\n",
    ),
];

#[test]
fn a_node_restarts_under_each_version_with_as_many_code_points(
    rt: HostRuntime,
) -> Result<(), Fail> {
    want_reports(rt.alloc(), TWICE, OVER_ALIKE)?;
    want_reports(rt.alloc(), BOTH, OVER_TWO)
}

/// The message of `E2` in its decomposed spelling, under NFC.
const MESSAGE: &[u8] = b"C\0\0\0\x03a\xcc\x82\0\0\0\x02\xc3\xa2";

/// The image of a node that saved this string and 212B under a version with 17,660 assigned code points.
const IMAGE: &[u8] =
    b"NPS2C\0\0\x44\xfc\0\0\0\x02\0\0\0\x03a\xcc\x82\x01\0\0\0\x02\xc3\xa2\0\0\0\x03\xe2\x84\xab\x01\0\0\0\x02\xc3\x85";

/// What the report of the restart lends.
fn lends(report: &Report<'_, RowTable>) -> Result<(), Fail> {
    want(report.sent(0) == Some(MESSAGE), "the first message")?;
    want(report.sent(3).is_none(), "three messages")?;
    want(report.saved(0) == Some(IMAGE), "the image")?;
    want(
        report.saved(1).is_none() && report.node(1).is_none(),
        "one node",
    )
}

fn wants_lent(alloc: Global, tables: &[RowTable]) -> Result<(), Fail> {
    let report = replayed(alloc, tables, RESTART_SCHEDULE)?;
    lends(&report)
}

#[test]
fn a_report_lends_messages_and_images(rt: HostRuntime) -> Result<(), Fail> {
    let tables = tables_of(rt.alloc(), BOTH)?;
    wants_lent(rt.alloc(), tables.as_slice())
}

/// A schedule of one event: a node is given a string of so many letters.
fn with_letters(alloc: Global, count: usize) -> Result<String, Fail> {
    let mut text = String::new(alloc);
    text.push_str("room 1\nnodes 0\naccept 0")?;
    for _ in 0..count {
        text.push_str(" 0061")?;
    }
    Ok(text)
}

/// The message of 65,536 bytes is in the report.
fn tells_longest(report: &Report<'_, RowTable>) -> Result<(), Fail> {
    let Some(message) = report.sent(0) else {
        return Err(Fail::new("65,536 bytes are kept"));
    };
    want(message.len() == 131_081, "the message of 65,536 bytes")
}

/// The longest string that is kept.
fn wants_longest(alloc: Global, tables: &[RowTable]) -> Result<(), Fail> {
    let longest = with_letters(alloc, 65_536)?;
    let report = replayed(alloc, tables, longest.as_str())?;
    tells_longest(&report)
}

/// One that is longer by a byte is not.
fn wants_too_long(alloc: Global, tables: &[RowTable]) -> Result<(), Fail> {
    let longer = with_letters(alloc, 65_537)?;
    let wanted = "0 too long\nnode 0 version 0 entries 0\n";
    wants_text(alloc, tables, longer.as_str(), wanted)
}

fn wants_limit(alloc: Global, tables: &[RowTable]) -> Result<(), Fail> {
    wants_longest(alloc, tables)?;
    wants_too_long(alloc, tables)
}

#[test]
fn strings_have_65_536_bytes_at_most(rt: HostRuntime) -> Result<(), Fail> {
    let tables = tables_of(rt.alloc(), ONE)?;
    wants_limit(rt.alloc(), tables.as_slice())
}

/// A schedule and a report show how much there is in them, and none of the strings.
fn show_counts(
    alloc: Global,
    schedule: &Schedule,
    report: &Report<'_, RowTable>,
) -> Result<(), Fail> {
    let text = format!(in alloc; "{schedule:?}, {report:?}")?;
    want(
        text.as_str()
            == "Schedule { versions: 2, room: 4, nodes: 3, events: 5, .. }, Report { replies: 5, sent: 1, nodes: 3, .. }",
        "what a schedule and a report show",
    )
}

/// Three nodes, five events and one message.
const COUNTED: &str = "\
room 4
nodes 0 1 1
accept 0 0061
deliver 1 0
deliver 2 0
save 0
save 1
";

fn shows_counts(alloc: Global, tables: &[RowTable]) -> Result<(), Fail> {
    let schedule = read_schedule(alloc, COUNTED.as_bytes(), tables.len())?;
    let report = replayed(alloc, tables, COUNTED)?;
    show_counts(alloc, &schedule, &report)
}

#[test]
fn a_report_shows_no_string(rt: HostRuntime) -> Result<(), Fail> {
    let tables = tables_of(rt.alloc(), BOTH)?;
    shows_counts(rt.alloc(), tables.as_slice())
}
