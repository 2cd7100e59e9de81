//! Schedules: what happens to nodes, one event a line.
ghost use Rattle.std.specs.Prelude.{◌≡◌, ◌≤◌, map};
ghost use Rattle.np_schedules.specs.EventLines.{event_of};
ghost use Rattle.np_schedules.specs.inside.Rust.{schedule_data};
ghost use Rattle.np_schedules.specs.Schedules.{IsStandable};

use crate::events::EventLine;
use std::fmt;
use std::marker::Model;

/// The most strings for which a schedule may give each node room. A schedule that names more is not read.
pub const MOST_ROOM: u32 = 65_536;

/// What happens to some nodes over a chain of versions: the room of each node, the place of each
/// node's first version, and the events in their order.
#[derive(Drop)]
pub struct Schedule {
    versions: usize,
    room: u32,
    starts: Vec<usize>,
    events: Vec<EventLine>,
}

impl Model for Schedule {
    ghost use Rattle.np_schedules.specs.Events.{ScheduleData};
    ghost use Rattle.np_schedules.specs.Schedules.{IsStandable};
    ghost use Rattle.np_schedules.specs.inside.Rust.{schedule_data};

    ghost Value = { ScheduleData };

    ghost view = { λ a. schedule_data a.versions a.room a.starts.items a.events.items };

    ghost invariant = { λ a. IsStandable (schedule_data a.versions a.room a.starts.items a.events.items) };
}

/// Shows how many nodes and events there are, and none of the strings in these: they may be names
/// of persons.
impl fmt::Debug for Schedule {
    fn fmt<W: fmt::Write>(&self, f: &mut fmt::Formatter<W>) -> fmt::Result {
        f.debug_struct("Schedule")
            .field("versions", &self.versions)
            .field("room", &self.room)
            .field("nodes", &self.starts.len())
            .field("events", &self.events.len())
            .finish_non_exhaustive()
    }
}

impl Schedule {
    /// A schedule of what was read.
    pub(crate) fn new(
        versions: usize,
        room: u32,
        starts: Vec<usize>,
        events: Vec<EventLine>,
    ) -> Schedule
        requires { IsStandable (schedule_data versions room starts.items events.items) }
        ensures { result ≡ schedule_data versions room starts.items events.items }
    {
        Schedule {
            versions,
            room,
            starts,
            events,
        }
    }

    /// How many versions the chain has over which the schedule stands.
    pub fn versions(&self) -> usize
        ensures { result ≡ self.now.versions }
    {
        self.versions
    }

    /// The most strings that each node keeps.
    pub fn room(&self) -> u32
        ensures room { result ≡ self.now.room }
        ensures stands { IsStandable self.now }
    {
        self.room
    }

    /// The place of each node's first version in the chain, from 0, in the order of the nodes.
    pub fn starts(&self) -> &[usize]
        ensures { result.now ≡ self.now.starts }
    {
        self.starts.as_slice()
    }

    /// The events in their order.
    pub fn events(&self) -> &[EventLine]
        ensures { map event_of result.now ≡ self.now.events }
    {
        self.events.as_slice()
    }
}
