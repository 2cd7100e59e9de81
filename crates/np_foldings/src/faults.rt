//! What can be wrong with CaseFolding.txt.
ghost use Rattle.std.specs.Prelude.{◌≡◌, Option};
ghost use Rattle.np_foldings.specs.Faults.{line_of, name_of, number_of, record_name};
ghost use Rattle.np_foldings.specs.inside.Memories.{no_memory};

use np_code_points::Memory;
use std::alloc::{AllocError, AllocFailed};
use std::fmt;
use thiserror::Error;

/// What is wrong with a record.
#[derive(Clone, Copy, Debug, PartialEq, Eq, Error)]
pub enum RecordFault {
    /// It has not exactly four fields, or the last one is not empty.
    #[error("not exactly four fields, of which the last one is empty")]
    FieldCount,
    /// The code point is not 4 to 6 hexadecimal digits of at most 10FFFF.
    #[error("not 4 to 6 hexadecimal digits of at most 10FFFF")]
    BadCode,
    /// The status is none of `C`, `F`, `S` and `T`.
    #[error("the status is none of C, F, S and T")]
    BadStatus,
    /// The record does not come behind the one before.
    #[error("the code point and the status do not come behind those before")]
    OutOfOrder,
    /// The status does not go with that of the record before.
    #[error("the status does not go with the one before")]
    StatusConflict,
    /// The mapping can't be read, or is a surrogate's.
    #[error("the mapping cannot be read")]
    BadMapping,
}

impl RecordFault {
    /// The name of the fault, as its variant is written.
    pub fn name(&self) -> &'static str
        ensures { result.now ≡ record_name self.now }
    {
        match self {
            RecordFault::FieldCount => "FieldCount",
            RecordFault::BadCode => "BadCode",
            RecordFault::BadStatus => "BadStatus",
            RecordFault::OutOfOrder => "OutOfOrder",
            RecordFault::StatusConflict => "StatusConflict",
            RecordFault::BadMapping => "BadMapping",
        }
    }

    /// The number of the test that fits, from 1: of those that fit a record the least is told.
    pub fn number(&self) -> u8
        ensures { result ≡ number_of self.now }
    {
        match self {
            RecordFault::FieldCount => 1,
            RecordFault::BadCode => 2,
            RecordFault::BadStatus => 3,
            RecordFault::OutOfOrder => 4,
            RecordFault::StatusConflict => 5,
            RecordFault::BadMapping => 6,
        }
    }
}

/// Why CaseFolding.txt was not read. Lines count from 1.
#[derive(Clone, Copy, PartialEq, Eq, Error)]
pub enum FoldingFault {
    /// A record is faulty.
    #[error("line {line}: {fault}")]
    BadRecord { line: u64, fault: RecordFault },
    /// The file has more than 16,777,216 bytes.
    #[error("more than 16,777,216 bytes")]
    TooLarge,
    /// The device failed at a read.
    #[error("read failed")]
    ReadFailed,
    /// Memory ran out.
    #[error("out of memory")]
    Memory,
}

/// Shows the fault as it is told.
impl fmt::Debug for FoldingFault {
    fn fmt<W: fmt::Write>(&self, f: &mut fmt::Formatter<W>) -> fmt::Result {
        fmt::Display::fmt(self, f)
    }
}

impl From<Memory> for FoldingFault {
    ghost from_gives = { λ _ e. e ≡ no_memory };

    fn from(_refused: Memory) -> FoldingFault {
        FoldingFault::Memory
    }
}

impl From<AllocError> for FoldingFault {
    ghost from_gives = { λ _ e. e ≡ no_memory };

    fn from(_refused: AllocError) -> FoldingFault {
        FoldingFault::Memory
    }
}

impl<T: Drop> From<AllocFailed<T>> for FoldingFault {
    ghost from_gives = { λ _ e. e ≡ no_memory };

    fn from(_refused: AllocFailed<T>) -> FoldingFault {
        FoldingFault::Memory
    }
}

impl FoldingFault {
    /// The name of the fault: that of the record's, or as its variant is written.
    pub fn name(&self) -> &'static str
        ensures { result.now ≡ name_of self.now }
    {
        match self {
            FoldingFault::BadRecord { fault, .. } => fault.name(),
            FoldingFault::TooLarge => "TooLarge",
            FoldingFault::ReadFailed => "ReadFailed",
            FoldingFault::Memory => "Memory",
        }
    }

    /// The line of the fault, where it has one.
    pub fn line(&self) -> Option<u64>
        ensures { result ≡ line_of self.now }
    {
        match self {
            FoldingFault::BadRecord { line, .. } => Some(*line),
            FoldingFault::TooLarge | FoldingFault::ReadFailed | FoldingFault::Memory => None,
        }
    }
}
