//! The stabilized string (UAX #15, section 12) of each line of an input, or why a line has none: a line
//! of output for each line of input, in constant memory.
//!
//! ```
//! let wanted = Wanted { form: Form::Nfc, end: LineEnd::Lf };
//! let any_refused = answer_lines(alloc, &table, wanted, &mut Watched::new(input), &mut Watched::new(output))?;
//! ```
#![tactic(auto)]

mod answers;
mod cuts;
mod keyed;
pub mod laws;
mod line_keys;
mod lines;
mod pending;
mod runs;
mod stable;
mod whole;

pub use answers::LIMIT;
pub use cuts::cut_line;
pub use line_keys::LineKeys;
pub use lines::{LineEnd, Wanted};
pub use runs::{LinesFault, answer_lines, answer_lines_by};
pub use whole::{Answers, answer_bytes, answer_bytes_by};
