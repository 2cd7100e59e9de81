//! What nodes make of schedules of events, beside a machine that keeps strings alone.
#![tactic(auto)]

pub mod laws;
mod node_steps;
mod replay_nodes;
mod replays;
mod replies;
mod report;
mod report_texts;
mod world_steps;

// A schedule is read by those who replay it: one path more to what np_schedules has.
pub use np_schedules::{Schedule, ScheduleFault, read_schedule};
pub use replays::replay;
pub use replies::Reply;
pub use report::Report;
pub use report_texts::report_text;
