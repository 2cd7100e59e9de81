//! What the words behind a node say, by the name of the event.
ghost use Rattle.std.specs.Prelude.{◌≡◌, Some, option_map, IfErr, IfOk};
ghost use Rattle.np_schedules.specs.inside.LineReading.{Lacks};
ghost use Rattle.np_schedules.specs.inside.LineValues.{alone_value, deliver_value, restart_value, said_value};
ghost use Rattle.np_schedules.specs.EventLines.{event_of};

use crate::events::EventLine;
use crate::reading::faults::LineFault;
use crate::reading::numbers::{number_below, number_in};
use crate::reading::payloads::{bytes_in, halves_in, string_in};
use crate::reading::verbs::Verb;
use np_code_points::words::Words;
use std::alloc::Global;

/// How many versions and nodes there are, and how many bytes a string has at most.
#[derive(Clone, Copy)]
pub(crate) struct Limits {
    pub versions: usize,
    pub nodes: usize,
    pub bytes: usize,
}

/// A delivery to a node, of the message that words say.
#[tactic(auto, unfolding(crate::specs::inside::LineValues::deliver_value))]
fn delivery_of(node: usize, mut words: Words<'_>) -> Option<EventLine>
    ensures { option_map event_of result ≡ deliver_value node words.entry }
{
    let word = words.next()?;
    if words.next().is_some() {
        return None;
    }
    let message = number_in(word)? as usize;
    Some(EventLine::Deliver { node, message })
}

/// An event behind whose node no word stands.
#[tactic(auto, unfolding(crate::specs::inside::LineValues::alone_value))]
fn alone(event: EventLine, mut words: Words<'_>) -> Option<EventLine>
    ensures { option_map event_of result ≡ alone_value (event_of event) words.entry }
{
    match words.next() {
        Some(_word) => None,
        None => Some(event),
    }
}

/// A restart of a node, under its own version or under the one that a word names, of so many.
#[tactic(auto, unfolding(crate::specs::inside::LineValues::restart_value))]
fn restart_of(node: usize, mut words: Words<'_>, versions: usize) -> Option<EventLine>
    ensures { option_map event_of result ≡ restart_value versions node words.entry }
{
    let Some(word) = words.next() else {
        return Some(EventLine::Restart { node });
    };
    if words.next().is_some() {
        return None;
    }
    let version = number_below(word, versions)?;
    Some(EventLine::RestartUnder { node, version })
}

/// What happens to a node, by its name and the words behind the node.
pub(crate) fn event_at(
    alloc: Global,
    limits: Limits,
    verb: Verb,
    node: usize,
    words: Words<'_>,
) -> Result<EventLine, LineFault>
    ensures event { IfOk result (λ event. said_value limits.versions verb node words.entry ≡ Some (event_of event)) }
    ensures refused { IfErr result (Lacks (said_value limits.versions verb node words.entry)) }
{
    match verb {
        Verb::Accept => {
            let string = string_in(alloc, limits.bytes, words)?;
            Ok(EventLine::Accept { node, string })
        }
        Verb::Deliver => delivery_of(node, words).ok_or(LineFault::Unfit),
        Verb::Upgrade => alone(EventLine::Upgrade { node }, words).ok_or(LineFault::Unfit),
        Verb::Save => alone(EventLine::Save { node }, words).ok_or(LineFault::Unfit),
        Verb::Restart => restart_of(node, words, limits.versions).ok_or(LineFault::Unfit),
        Verb::Ask => {
            let (left, right) = halves_in(alloc, limits.bytes, words)?;
            Ok(EventLine::Ask { node, left, right })
        }
        Verb::Forge => {
            let bytes = bytes_in(alloc, words)?;
            Ok(EventLine::Forge { node, bytes })
        }
        Verb::Forget => {
            let string = string_in(alloc, limits.bytes, words)?;
            Ok(EventLine::Forget { node, string })
        }
    }
}
