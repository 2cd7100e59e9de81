//! Readers of UnicodeData.txt and CompositionExclusions.txt (UAX #44).
#![tactic(auto)]

mod data;
mod exclusions;
mod faults;
mod fields;
mod kept_rows;
pub mod laws;
mod mappings;
mod readers;
mod records;
mod row_list;
mod rows;
mod spans;

pub use exclusions::Exclusions;
pub use faults::UcdFault;
pub use readers::{read_exclusions, read_row_list, read_rows};
pub use row_list::{RowList, RowRef};
pub use rows::{MapKind, Row, Rows};
