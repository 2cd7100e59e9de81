//! Schedules of events as values, and how they are read from bytes.
#![tactic(auto)]

mod events;
pub mod laws;
mod reading;
mod schedules;

pub use events::EventLine;
pub use reading::{ScheduleFault, read_schedule};
pub use schedules::{MOST_ROOM, Schedule};
