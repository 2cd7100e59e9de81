//! A reader of CaseFolding.txt (UAX #44).
#![tactic(auto)]

mod data;
mod faults;
mod fields;
mod foldings;
mod heads;
pub mod laws;
mod lowercases;
mod mappings;
mod readers;
mod records;
mod statuses;

pub use faults::{FoldingFault, RecordFault};
pub use foldings::{Folding, Foldings};
pub use lowercases::{Lowercase, lowercases_of};
pub use readers::read_foldings;
