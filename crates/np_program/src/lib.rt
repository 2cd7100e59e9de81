//! The library half of the program `npss`: the job of its command `replay`, over any readers and writers, the
//! usage text, and the run of the job that its words ask for.
#![tactic(auto)]

mod program;
mod replay;

pub use program::{Npss, run_words, usage_text};
pub use replay::replay_job;
