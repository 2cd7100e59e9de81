//! What each command of the program but `replay` does, over any readers and writers: its output, its
//! status, and the line in which a refusal is told. Beside that what a further job and a program over these
//! jobs need: the reading of versions, the end of a job, the opening of files, and the standard streams.
#![tactic(auto)]

mod audit;
mod chains;
mod compare;
mod ending;
mod faults;
mod jobs;
mod key;
mod key_under;
mod lines;
mod normalize;
mod openers;
mod opening;
mod programs;
mod refusals;
mod standard;
mod statuses;
mod streaming;
mod streams;
mod texts;
mod usage;
mod version_jobs;
mod versions;

pub use chains::read_tables;
pub use compare::{CompareJob, answer_line, both_assigned, two_lines};
pub use ending::{JobOutput, finish, refuse, tell};
pub use faults::{JobFault, ReplayFault, TextFault, VersionFault};
pub use jobs::{audit_job, compare_job, key_job, key_under_job, normalize_job};
pub use key::KeyJob;
pub use key_under::own_line;
pub use lines::{Line, OUT_OF_MEMORY, code_text, line_of, write_kind};
pub use normalize::NormalizeJob;
pub use openers::{Opener, SystemFiles};
pub use opening::{open_file, open_version, open_versions};
pub use programs::{Program, parse_and_run, run_parsed};
pub use refusals::Refusal;
pub use standard::{Standard, StandardInput, StandardStreams, take_standard};
pub use statuses::{BAD, DIFFERENT, DONE, FAILED, MEMORY};
pub use streaming::{Streaming, StreamingJob, streaming_job};
pub use streams::{Resources, Streams};
pub use texts::{TextMaker, read_text};
pub use usage::{refuse_words, show_usage, tell_usage};
pub use version_jobs::{VersionJob, run_over_version};
pub use versions::{JobTable, MadeTable, read_table_of, table_of, version_over};
