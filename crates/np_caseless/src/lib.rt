//! Caseless keys (The Unicode Standard, section 3.13): strings that don't differ by case alone have one key, which stays
//! the same under each later version.
#![tactic(auto)]

mod ascii;
mod audits;
mod breaks;
mod characters;
mod faults;
mod first_faults;
mod folded_again;
mod folded_keys;
mod folded_tables;
mod folding;
mod folding_changes;
mod folding_faults;
mod image_tables;
mod image_texts;
mod images;
mod keys;
pub mod laws;
mod leads;
mod leasts;
mod lent_parts;
mod mapped_rows;
mod marks;
mod not_folded;
mod own_forms;
mod own_images;
mod quick_images;
mod quiet;
mod quiet_hangul;
mod simple_images;
mod simple_texts;

pub use ascii::{fold_into, push_folded};
pub use audits::{audit, extends};
pub use breaks::{FoldedBreak, FoldedBreakKind};
pub use faults::ConditionFault;
pub use folded_tables::FoldedTable;
pub use folding::fold_text;
pub use keys::{caseless_form, caseless_key, caseless_match};
