//! What the unit tests of several libraries share: the texts of the fixtures, their versions and tables, examples that hold
//! over each kind of table, readers and writers that fail when they are told to, and calls that are made again. Nothing else
//! uses it.
#![tactic(auto)]

mod common;
pub mod devices;
pub mod fixtures;
mod guest_table;
mod refused;
pub mod scripts;
pub mod told;

pub use common::{
    Example, FAILURES, Files, LETTERS, Made, S, V1, V2, amid, holds_over, holds_over_each, made_of,
    mended, table_of, tables_of, version_of, want, wants_front,
};
pub use guest_table::GuestTable;
pub use refused::{again, again_where};
