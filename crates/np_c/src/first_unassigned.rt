//! The first code point of a text that is not assigned.

/// A code point that is not assigned, and its place.
#[derive(Clone, Copy)]
pub struct FirstUnassigned {
    /// Its byte place in the whole text, from 0.
    pub place: u64,
    /// The code point.
    pub code: u32,
}
