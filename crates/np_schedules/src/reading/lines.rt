//! The lines of a schedule, by their words.
ghost use Rattle.std.specs.Prelude.{◌≡◌, Some, option_and_then, IfErr, IfOk, MatchOption};
ghost use Rattle.np_code_points.specs.inside.WordValues.{if_short, values_of};
ghost use Rattle.np_schedules.specs.Events.{Event};
ghost use Rattle.np_schedules.specs.ScheduleLines.{IsEventLine, IsNodesLine, IsRoomLine};
ghost use Rattle.np_schedules.specs.inside.LineReading.{IsNoneOf, Lacks, Refuses};
ghost use Rattle.np_schedules.specs.inside.LineValues.{below_value, event_value, room_value, starts_value};
ghost use Rattle.np_schedules.specs.EventLines.{event_of};

use crate::events::EventLine;
use crate::reading::arguments::{Limits, event_at};
pub(crate) use crate::reading::faults::LineFault;
use crate::reading::numbers::{number_below, number_in};
use crate::reading::verbs::Verb;
use crate::schedules::MOST_ROOM;
use np_code_points::words::{Dividers, Words};
use std::alloc::Global;

/// The most nodes.
const MOST_NODES: usize = 64;

/// The room that words say.
#[tactic(auto, unfolding(crate::specs::inside::LineValues::room_value, crate::specs::inside::LineValues::below_value))]
fn room_of(mut words: Words<'_>) -> Option<u32>
    ensures { result ≡ room_value words.entry }
{
    let name = words.next()?;
    let word = words.next()?;
    if words.next().is_some() || name != b"room".as_slice() {
        return None;
    }
    let room = number_in(word)?;
    if room <= MOST_ROOM { Some(room) } else { None }
}

/// The room of each node that a line says, where it is a line of the room: `room` and a number of
/// at most 65,536.
pub(crate) fn room_in(text: &[u8]) -> Option<u32>
    ensures { MatchOption result (IsNoneOf (IsRoomLine text.now)) (IsRoomLine text.now) }
{
    room_of(Words::new(text, Dividers::Blanks))
}

/// The places below a bound that words say, at least one and at most 64.
fn places_of(alloc: Global, words: Words<'_>, bound: usize) -> Result<Vec<usize>, LineFault>
    ensures places { IfOk result (λ places. option_and_then (if_short 64) (values_of (below_value bound) words.entry) ≡ Some places.items) }
    ensures refused { IfErr result (Lacks (option_and_then (if_short 64) (values_of (below_value bound) words.entry))) }
{
    let mut places = Vec::new(alloc);
    for word in words {
        let Some(place) = number_below(word, bound) else {
            return Err(LineFault::Unfit);
        };
        if places.len() >= MOST_NODES {
            return Err(LineFault::Unfit);
        }
        places.push(place)?;
    }
    if places.is_empty() {
        Err(LineFault::Unfit)
    } else {
        Ok(places)
    }
}

/// The place of each node's first version that words say.
#[tactic(auto, unfolding(crate::specs::inside::LineValues::starts_value))]
fn starts_of(alloc: Global, mut words: Words<'_>, versions: usize) -> Result<Vec<usize>, LineFault>
    ensures starts { IfOk result (λ starts. starts_value versions words.entry ≡ Some starts.items) }
    ensures refused { IfErr result (Lacks (starts_value versions words.entry)) }
{
    let Some(name) = words.next() else {
        return Err(LineFault::Unfit);
    };
    if name != b"nodes".as_slice() {
        return Err(LineFault::Unfit);
    }
    places_of(alloc, words, versions)
}

/// The place of each node's first version that a line says, where it is a line of nodes: `nodes`
/// and one to 64 numbers below the number of versions.
///
/// # Errors
///
/// `Unfit` where it is no such line, `Memory` where memory ran out.
pub(crate) fn starts_in(
    alloc: Global,
    text: &[u8],
    versions: usize,
) -> Result<Vec<usize>, LineFault>
    ensures ok { IfOk result (λ starts. IsNodesLine versions text.now starts.items) }
    ensures refused { IfErr result (Refuses (IsNodesLine versions text.now)) }
{
    starts_of(alloc, Words::new(text, Dividers::Blanks), versions)
}

/// The event that words say.
#[tactic(auto, unfolding(crate::specs::inside::LineValues::event_value))]
fn event_of_words(
    alloc: Global,
    limits: Limits,
    mut words: Words<'_>,
) -> Result<EventLine, LineFault>
    ensures event { IfOk result (λ event. event_value limits.versions limits.nodes words.entry ≡ Some (event_of event)) }
    ensures refused { IfErr result (Lacks (event_value limits.versions limits.nodes words.entry)) }
{
    let Some(name) = words.next() else {
        return Err(LineFault::Unfit);
    };
    let Some(at) = words.next() else {
        return Err(LineFault::Unfit);
    };
    let Some(verb) = Verb::of_name(name) else {
        return Err(LineFault::Unfit);
    };
    let Some(node) = number_below(at, limits.nodes) else {
        return Err(LineFault::Unfit);
    };
    event_at(alloc, limits, verb, node, words)
}

/// The event that a line says, where it is a line of an event over so many versions and nodes: its
/// name, a number below that of the nodes, and what belongs to such an event. In time linear in the
/// line.
///
/// # Errors
///
/// `Unfit` where it is no such line, `Memory` where memory ran out.
pub(crate) fn event_in(
    alloc: Global,
    text: &[u8],
    versions: usize,
    nodes: usize,
) -> Result<EventLine, LineFault>
    ensures ok { IfOk result (λ event. IsEventLine versions nodes text.now (event_of event)) }
    ensures refused { IfErr result (Refuses (IsEventLine versions nodes text.now)) }
{
    let limits = Limits {
        versions,
        nodes,
        bytes: text.len(),
    };
    event_of_words(alloc, limits, Words::new(text, Dividers::Blanks))
}
