//! What the words of a command line ask for, by `clap`'s reading of them: the job, its form and the names of
//! its files.
#![tactic(auto)]

mod caseless;
mod command;
mod faults;
mod files;
mod parsing;
mod versions;

pub use caseless::{CaselessJob, parse_caseless};
pub use command::command_on_text;
pub use faults::{WordsFault, fault_from};
pub use files::{FoldedFiles, VersionFiles, form_and_files};
pub use parsing::{Job, parse};
