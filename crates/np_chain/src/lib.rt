//! Versions in a row: what a later version keeps of an earlier one.
#![tactic(auto)]

mod audits;
mod breaks;
mod chains;
mod kept_rows;
pub mod laws;

pub use audits::{audit, extends};
pub use breaks::{Break, BreakKind};
pub use chains::{Chain, ChainFault};
