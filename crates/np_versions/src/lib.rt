//! Versions of the character tables: what two data files say of each code point, and what normalization asks of a table.
//!
//! `np_tables` has two tables over a version. A table of somebody else's is an `impl` of [`NormTable`].
#![tactic(auto)]

mod ambiguity;
mod ascii_runs;
mod characters;
mod counts;
mod depths;
mod faults;
mod first_faults;
mod hangul_faults;
mod hangul_rows;
pub mod laws;
mod mapped_faults;
mod pairs;
mod row_index;
mod row_pages;
mod row_places;
mod syllables;
mod tables;
mod version;

pub use ascii_runs::ascii_front;
pub use faults::TableFault;
pub use pairs::{Composite, Pairs};
pub use row_pages::RowPages;
pub use row_places::mapped_code;
pub use tables::{NormTable, PrecomputedForm, QuickSpan};
pub use version::Version;
