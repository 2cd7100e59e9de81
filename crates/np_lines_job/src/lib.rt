//! The job of the program `npss_lines`, the key or the caseless key of each line of an input or why it has none, and what
//! its words ask for. Beside that the run of the job over the files that they name, and an input that tells how
//! far it was read.
#![tactic(auto)]

mod caseless;
mod job;
mod program;
mod progress;
mod stops;
mod words;

pub use caseless::caseless_lines_job;
pub use job::{LinesRun, REFUSED, lines_job};
pub use program::{NpssLines, run_words, tell_refused};
pub use progress::Progress;
pub use stops::CaselessLinesFault;
pub use words::{LinesJob, lines_usage_text, lines_version_text, parse_lines};
