//! What can be wrong with a file.
ghost use Rattle.std.specs.Prelude.{◌≡◌, Option};
ghost use Rattle.np_ucd.specs.Faults.{line_of, name_of};
ghost use Rattle.np_ucd.specs.inside.Memories.{no_memory};

use np_code_points::Memory;
use std::alloc::{AllocError, AllocFailed};
use std::fmt;
use thiserror::Error;

/// Why a file was not read. Lines count from 1.
#[derive(Clone, Copy, PartialEq, Eq, Error)]
pub enum UcdFault {
    /// A record has not exactly 15 fields.
    #[error("line {line}: not exactly 15 fields")]
    FieldCount { line: u64 },
    /// A code point is not 4 to 6 hexadecimal digits of at most 10FFFF.
    #[error("line {line}: not 4 to 6 hexadecimal digits of at most 10FFFF")]
    BadCode { line: u64 },
    /// A code point is not greater than that of the record before.
    #[error("line {line}: the code point is not above the one before")]
    OutOfOrder { line: u64 },
    /// A category is not two ASCII letters, or is `Cn`.
    #[error("line {line}: the category is not two letters, or is Cn")]
    BadCategory { line: u64 },
    /// A combining class is not 1 to 3 digits of at most 254.
    #[error("line {line}: the combining class is not 1 to 3 digits of at most 254")]
    BadClass { line: u64 },
    /// A mapping can't be read, or is a surrogate's.
    #[error("line {line}: the mapping cannot be read")]
    BadMapping { line: u64 },
    /// A range has a first record and no last one.
    #[error("line {line}: a range has a first record and no last one")]
    RangeOpen { line: u64 },
    /// A range has a last record and no first one.
    #[error("line {line}: a range has a last record and no first one")]
    RangeLone { line: u64 },
    /// The two records of a range differ in category or class.
    #[error("line {line}: the two records of a range differ in category or class")]
    RangeDiffers { line: u64 },
    /// A record of a range has a mapping.
    #[error("line {line}: a record of a range has a mapping")]
    RangeMaps { line: u64 },
    /// The file has more than 16,777,216 bytes.
    #[error("more than 16,777,216 bytes")]
    TooLarge,
    /// The device failed at a read.
    #[error("read failed")]
    ReadFailed,
    /// Memory ran out.
    #[error("out of memory")]
    Memory,
}

/// Shows the fault as it is told.
impl fmt::Debug for UcdFault {
    fn fmt<W: fmt::Write>(&self, f: &mut fmt::Formatter<W>) -> fmt::Result {
        fmt::Display::fmt(self, f)
    }
}

impl From<Memory> for UcdFault {
    ghost from_gives = { λ _ e. e ≡ no_memory };

    fn from(_refused: Memory) -> UcdFault {
        UcdFault::Memory
    }
}

impl From<AllocError> for UcdFault {
    ghost from_gives = { λ _ e. e ≡ no_memory };

    fn from(_refused: AllocError) -> UcdFault {
        UcdFault::Memory
    }
}

impl<T: Drop> From<AllocFailed<T>> for UcdFault {
    ghost from_gives = { λ _ e. e ≡ no_memory };

    fn from(_refused: AllocFailed<T>) -> UcdFault {
        UcdFault::Memory
    }
}

impl UcdFault {
    /// The name of the fault, as its variant is written.
    pub fn name(&self) -> &'static str
        ensures { result.now ≡ name_of self.now }
    {
        match self {
            UcdFault::FieldCount { .. } => "FieldCount",
            UcdFault::BadCode { .. } => "BadCode",
            UcdFault::OutOfOrder { .. } => "OutOfOrder",
            UcdFault::BadCategory { .. } => "BadCategory",
            UcdFault::BadClass { .. } => "BadClass",
            UcdFault::BadMapping { .. } => "BadMapping",
            UcdFault::RangeOpen { .. } => "RangeOpen",
            UcdFault::RangeLone { .. } => "RangeLone",
            UcdFault::RangeDiffers { .. } => "RangeDiffers",
            UcdFault::RangeMaps { .. } => "RangeMaps",
            UcdFault::TooLarge => "TooLarge",
            UcdFault::ReadFailed => "ReadFailed",
            UcdFault::Memory => "Memory",
        }
    }

    /// The line of the fault, where it has one.
    pub fn line(&self) -> Option<u64>
        ensures { result ≡ line_of self.now }
    {
        match self {
            UcdFault::FieldCount { line }
            | UcdFault::BadCode { line }
            | UcdFault::OutOfOrder { line }
            | UcdFault::BadCategory { line }
            | UcdFault::BadClass { line }
            | UcdFault::BadMapping { line }
            | UcdFault::RangeOpen { line }
            | UcdFault::RangeLone { line }
            | UcdFault::RangeDiffers { line }
            | UcdFault::RangeMaps { line } => Some(*line),
            UcdFault::TooLarge | UcdFault::ReadFailed | UcdFault::Memory => None,
        }
    }
}
