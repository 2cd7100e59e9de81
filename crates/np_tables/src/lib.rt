//! Tables over a version of the character tables.
//!
//! From two files to a table, where `data` and `exclusions` are readers:
//!
//! ```
//! let rows = read_row_list(alloc, &mut Watched::new(data))?;
//! let listed = read_exclusions(alloc, &mut Watched::new(exclusions))?;
//! let version = Version::of_list(alloc, rows, listed)?;
//! let table = PageTable::new(alloc, version)?;
//! ```
#![tactic(auto)]

mod doubtful_leads;
mod fulls;
mod lead_bytes;
mod leading_consonants;
mod page_bits;
mod page_hints;
mod page_properties;
mod page_slots;
mod page_table;
mod precomputed_forms;
mod precomputed_tables;
mod property_bits;
mod quick_checks;
mod quick_spans;
mod row_table;
mod scans;
mod uncomposed;
mod utf8_fronts;

pub use np_versions::{
    Composite, NormTable, PrecomputedForm, QuickSpan, TableFault, Version, ascii_front,
};
pub use page_table::PageTable;
pub use row_table::RowTable;
