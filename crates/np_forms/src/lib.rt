//! The normalization forms, stabilized strings and equivalence (The Unicode Standard, chapter 3,
//! and UAX #15), over a table of a version.
//!
//! From two files to a key, where `data` and `exclusions` are readers (`np_tables` makes the table, and
//! `np_ucd` reads the files):
//!
//! ```
//! let rows = read_row_list(alloc, &mut Watched::new(data))?;
//! let listed = read_exclusions(alloc, &mut Watched::new(exclusions))?;
//! let version = Version::of_list(alloc, rows, listed)?;
//! let table = PageTable::new(alloc, version)?;
//! let key = npss(alloc, &table, Form::Nfc, "a\u{302}\u{323}")?;
//! ```
#![tactic(auto)]

mod apart_streams;
mod assigned;
mod classes;
mod composing;
mod copying;
mod decomposing;
mod decompositions;
mod equivalence;
mod form_buffers;
mod forms;
mod fronts;
mod held;
mod jamo_bytes;
pub mod laws;
mod lookups;
mod normalizers;
mod ordering;
mod out_texts;
mod pieces;
mod precomputed_texts;
mod quick_check;
mod runs;
mod segments;
mod stabilized;
mod stream_safety;
mod stream_texts;
mod streams;
mod syllable_texts;
mod utf8_bytes;
mod utf8_prefixes;
mod written;

pub use apart_streams::ApartStream;
pub use assigned::{first_unassigned, first_unassigned_char, first_unassigned_in_version};
pub use decompositions::full_decomposition;
pub use equivalence::equivalent;
pub use form_buffers::FormBuffer;
pub use forms::{form, is_form, make_form};
pub use quick_check::quick_check_span;
pub use runs::{RUN_LIMIT, RunFault, run};
pub use stabilized::{NpssFault, into_npss, lend_npss, make_npss, npss};
pub use stream_safety::is_stream_safe;
pub use streams::Stream;
pub use utf8_prefixes::{Utf8Prefix, utf8_prefix_of};
