//! Schedules, read from their bytes.
ghost use Rattle.std.specs.Prelude.{◌≡◌, ◌+◌, ◌∷◌, ◌<◌, ◌^◌, [], length, map, IfErr, IfOk, OnOk};
ghost use Rattle.np_code_points.specs.Lines.{numbered};
ghost use Rattle.np_schedules.specs.ScheduleFiles.{AreEventLines, NamesLine, SaysSchedule};
ghost use Rattle.np_schedules.specs.ScheduleLines.{IsEventLine, IsNodesLine, IsRoomLine};
ghost use Rattle.np_schedules.specs.EventLines.{event_of};
ghost use Rattle.np_schedules.specs.inside.ScheduleReading.{fault_of, AddsEvent, AddsNone, Misses, NamesNext, NamesUnfit, NextRefuses, NextSays};

mod arguments;
mod faults;
mod lines;
mod numbers;
mod payloads;
mod verbs;

use crate::events::EventLine;
use crate::schedules::Schedule;
use lines::{LineFault, event_in, room_in, starts_in};
use np_code_points::lines::{DataLine, DataLines};
use std::alloc::{AllocError, AllocFailed, Global};
use thiserror::Error;

/// The most events of a schedule.
const MOST_EVENTS: usize = 1_000_000;

/// Why bytes are no schedule.
#[derive(Clone, Copy, Debug, PartialEq, Eq, Error)]
pub enum ScheduleFault {
    /// The first line, from 1, that can't stand after the lines before it; where the file ends
    /// before its line of nodes, the line behind the last one.
    #[error("line {line}: malformed, or not allowed there")]
    Line { line: u64 },
    /// Memory ran out.
    #[error("out of memory")]
    Memory,
}

impl From<AllocError> for ScheduleFault {
    ghost use Rattle.np_schedules.specs.declared.reading.ScheduleFault.{ScheduleFault};

    ghost from_gives = { λ _ e. e ≡ ScheduleFault.Memory };

    fn from(_refused: AllocError) -> ScheduleFault {
        ScheduleFault::Memory
    }
}

impl<T: Drop> From<AllocFailed<T>> for ScheduleFault {
    ghost use Rattle.np_schedules.specs.declared.reading.ScheduleFault.{ScheduleFault};

    ghost from_gives = { λ _ e. e ≡ ScheduleFault.Memory };

    fn from(_refused: AllocFailed<T>) -> ScheduleFault {
        ScheduleFault::Memory
    }
}

/// The fault of the line of this number, which gave nothing.
fn fault_at(line: u64, fault: LineFault) -> ScheduleFault
    ensures { result ≡ fault_of line fault }
{
    match fault {
        LineFault::Unfit => ScheduleFault::Line { line },
        LineFault::Memory => ScheduleFault::Memory,
    }
}

/// The next line that holds data. Where there is none the file ends too early: the fault is the
/// line behind its last one.
fn next_line<'a>(lines: &mut DataLines<'a>) -> Result<DataLine<'a>, ScheduleFault>
    requires { lines.old.total + 1 < 2 ^ 64 }
    ensures line { IfOk result (λ line. lines.old.left ≡ numbered line ∷ lines.new.left) }
    ensures total { lines.new.total ≡ lines.old.total }
    ensures end { IfErr result (λ fault. (lines.old.left ≡ []) × (fault ≡ ScheduleFault.Line (lines.old.total + 1))) }
{
    match lines.next() {
        Some(line) => Ok(line),
        None => Err(ScheduleFault::Line {
            line: lines.passed() + 1,
        }),
    }
}

/// The room of each node, as the next line says it.
fn read_room(lines: &mut DataLines<'_>) -> Result<u32, ScheduleFault>
    requires { lines.old.total + 1 < 2 ^ 64 }
    ensures room { IfOk result (λ room. NextSays IsRoomLine lines.old room lines.new) }
    ensures refused { IfErr result (NamesNext IsRoomLine lines.old) }
{
    let line = next_line(lines)?;
    match room_in(line.text) {
        Some(room) => Ok(room),
        None => Err(ScheduleFault::Line { line: line.number }),
    }
}

/// The place of each node's first version, as the next line says it, of so many versions.
fn read_starts(
    alloc: Global,
    lines: &mut DataLines<'_>,
    versions: usize,
) -> Result<Vec<usize>, ScheduleFault>
    requires { lines.old.total + 1 < 2 ^ 64 }
    ensures starts { IfOk result (λ starts. NextSays (IsNodesLine versions) lines.old starts.items lines.new) }
    ensures refused { IfErr result (NextRefuses (IsNodesLine versions) lines.old) }
{
    let line = next_line(lines)?;
    match starts_in(alloc, line.text, versions) {
        Ok(starts) => Ok(starts),
        Err(fault) => Err(fault_at(line.number, fault)),
    }
}

/// The event that a line says, where there are so many versions and nodes.
fn read_event(
    alloc: Global,
    line: DataLine<'_>,
    versions: usize,
    nodes: usize,
) -> Result<EventLine, ScheduleFault>
    ensures event { IfOk result (λ event. IsEventLine versions nodes line.entry.text.now (event_of event)) }
    ensures refused { IfErr result (Misses line.entry.number (IsEventLine versions nodes line.entry.text.now)) }
{
    match event_in(alloc, line.text, versions, nodes) {
        Ok(event) => Ok(event),
        Err(fault) => Err(fault_at(line.number, fault)),
    }
}

/// Adds the event that a line says, unless there are as many as a schedule has at most.
fn take_event(
    alloc: Global,
    events: &mut Vec<EventLine>,
    line: DataLine<'_>,
    versions: usize,
    nodes: usize,
) -> Result<(), ScheduleFault>
    ensures event { OnOk result (AddsEvent versions nodes (map event_of events.old.items) line.entry.text.now (map event_of events.new.items)) }
    ensures refused { IfErr result (AddsNone versions nodes (map event_of events.old.items) (numbered line.entry)) }
{
    if events.len() >= MOST_EVENTS {
        return Err(ScheduleFault::Line { line: line.number });
    }
    events.push(read_event(alloc, line, versions, nodes)?)?;
    Ok(())
}

/// The events that all lines left say, where there are so many versions and nodes.
fn read_events(
    alloc: Global,
    lines: DataLines<'_>,
    versions: usize,
    nodes: usize,
) -> Result<Vec<EventLine>, ScheduleFault>
    ensures events { IfOk result (λ events. AreEventLines versions nodes lines.entry.left (map event_of events.items)) }
    ensures refused { IfErr result (NamesUnfit versions nodes lines.entry.left) }
{
    let mut events = Vec::new(alloc);
    for line in lines {
        take_event(alloc, &mut events, line, versions, nodes)?;
    }
    Ok(events)
}

/// Reads a schedule over so many versions (`docs/FORMATS.md`). In time linear in the bytes, with
/// memory for the events that they say.
///
/// # Errors
///
/// `Line` at the first line that can't stand, `Memory` where memory ran out, which is never before the line
/// behind that of the room.
pub fn read_schedule(
    alloc: Global,
    bytes: &[u8],
    versions: usize,
) -> Result<Schedule, ScheduleFault>
    ensures versions { IfOk result (λ schedule. schedule.versions ≡ versions) }
    ensures schedule { IfOk result (SaysSchedule bytes.now) }
    ensures refused { IfErr result (NamesLine bytes.now versions) }
{
    // Bytes are cut into lines in one way, and have no more lines than bytes.
    np_code_points::laws::lines();
    let mut lines = DataLines::new(bytes);
    let room = read_room(&mut lines)?;
    let starts = read_starts(alloc, &mut lines, versions)?;
    let events = read_events(alloc, lines, versions, starts.len())?;
    Ok(Schedule::new(versions, room, starts, events))
}
