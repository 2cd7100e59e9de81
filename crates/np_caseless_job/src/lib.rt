//! The jobs of the program `npss_caseless`: caseless keys and matches over the three files of a version, and what its words
//! ask for.
#![tactic(auto)]

mod audit;
mod compare;
mod faults;
mod files;
mod folded_jobs;
mod key;
mod key_under;
mod lines;
mod pairs;
mod program;
mod texts;
mod usage;
mod versions;
mod words;

pub use compare::CompareJob;
pub use faults::{CaselessFault, FoldedFault};
pub use files::{OpenFiles, open_folded};
pub use folded_jobs::{FoldedJob, run_over_folded};
pub use key::KeyJob;
pub use program::{NpssCaseless, run_words, tell_refused};
pub use texts::FoldedMaker;
pub use usage::{caseless_usage_text, caseless_version_text};
pub use versions::read_folded;
pub use words::{CaselessAsked, parse_words};
