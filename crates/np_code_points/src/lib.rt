//! Code points and texts, and in a room of its own readers and writers that keep in mind whether
//! they failed (`channels`).
#![tactic(auto)]

ghost use Rattle.std.specs.Prelude.{◌≡◌};

mod channels;
pub mod codes;
mod forms;
pub mod hangul;
pub mod laws;
pub mod lines;
pub mod text;
pub mod words;

pub use channels::{input, output, pieces, watched};
pub use forms::Form;
use std::alloc::{AllocError, AllocFailed};
use thiserror::Error;

/// A growth was refused: memory ran out.
#[derive(Clone, Copy, Debug, PartialEq, Eq, Error)]
#[error("out of memory")]
pub struct Memory;

impl From<AllocError> for Memory {
    ghost from_gives = { λ _ e. e ≡ record {} };

    fn from(_refused: AllocError) -> Memory {
        Memory
    }
}

impl<T: Drop> From<AllocFailed<T>> for Memory {
    ghost from_gives = { λ _ e. e ≡ record {} };

    fn from(_refused: AllocFailed<T>) -> Memory {
        Memory
    }
}
