//! Caseless keys as the keys of lines: what `np_lines` answers lines by, where strings that don't differ by case alone are
//! to have one key.
//!
//! ```
//! let keys = CaselessKeys { folded: &folded, form: Form::Nfkc };
//! let any_refused = answer_lines_by(alloc, &keys, LineEnd::Lf, &mut Watched::new(input), &mut Watched::new(output))?;
//! ```
#![tactic(auto)]

mod caseless_keys;
pub mod laws;
mod simple_lines;

pub use caseless_keys::CaselessKeys;
