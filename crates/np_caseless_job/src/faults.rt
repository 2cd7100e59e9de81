//! Why a job is refused, and the status of each refusal.
ghost use Rattle.std.specs.Prelude.{◌≡◌, false, IfOk, OnErr};
ghost use Rattle.np_caseless_job.specs.Tellings.{caseless_telling, condition_status, folded_telling, folding_status};
ghost use Rattle.np_caseless_job.specs.inside.Groups.{of_folded, of_text, of_version};
ghost use Rattle.np_jobs.specs.Lines.{line_bytes};

use crate::lines::caseless_line;
use np_caseless::{ConditionFault, FoldedBreak};
use np_code_points::Memory;
use np_foldings::FoldingFault;
use np_jobs::{BAD, DIFFERENT, FAILED, Line, MEMORY, Refusal, TextFault, VersionFault};
use std::alloc::Global;
use thiserror::Error;

/// Why no version with its folding came of three files. Versions are numbered from 0.
#[derive(Clone, Copy, Debug, PartialEq, Eq, Drop, Error)]
pub enum FoldedFault {
    /// The first two files make no version.
    #[error(transparent)]
    Version {
        fault: VersionFault,
    },
    /// CaseFolding.txt was not read, or has a fault.
    #[error("version {version} folding: {fault}")]
    Folding {
        version: usize,
        fault: FoldingFault,
    },
    /// The version has a fault with these foldings.
    #[error("version {version} folding: {fault}")]
    Condition {
        version: usize,
        fault: ConditionFault,
    },
}

/// Why a job is refused.
#[derive(Clone, Copy, Debug, PartialEq, Eq, Drop, Error)]
pub enum CaselessFault {
    /// The three files of a version make none.
    #[error(transparent)]
    Folded { fault: FoldedFault },
    /// The second version with its foldings does not extend the first, and `brk` is its first break.
    #[error("not an extension: version 1 {brk}")]
    NotExtension { brk: FoldedBreak },
    /// The text of the input is not answered.
    #[error(transparent)]
    Text { fault: TextFault },
    /// Memory ran out, where no other fault says of what.
    #[error("out of memory")]
    Memory,
}

impl From<VersionFault> for FoldedFault {
    ghost from_gives = { λ fault e. e ≡ of_version fault };

    fn from(fault: VersionFault) -> FoldedFault {
        FoldedFault::Version { fault }
    }
}

impl From<FoldedFault> for CaselessFault {
    ghost from_gives = { λ fault e. e ≡ of_folded fault };

    fn from(fault: FoldedFault) -> CaselessFault {
        CaselessFault::Folded { fault }
    }
}

impl From<TextFault> for CaselessFault {
    ghost from_gives = { λ fault e. e ≡ of_text fault };

    fn from(fault: TextFault) -> CaselessFault {
        CaselessFault::Text { fault }
    }
}

fn status_of_folding(fault: &FoldingFault) -> u8
    ensures { result ≡ folding_status fault.now }
{
    match fault {
        FoldingFault::BadRecord { .. } | FoldingFault::TooLarge => BAD,
        FoldingFault::ReadFailed => FAILED,
        FoldingFault::Memory => MEMORY,
    }
}

fn status_of_condition(fault: &ConditionFault) -> u8
    ensures { result ≡ condition_status fault.now }
{
    match fault {
        ConditionFault::FoldsUnassigned { .. }
        | ConditionFault::FoldsToUnassigned { .. }
        | ConditionFault::FoldsAgain { .. }
        | ConditionFault::FoldedTooLong { .. }
        | ConditionFault::NotFolded { .. } => BAD,
        ConditionFault::Memory => MEMORY,
    }
}

impl FoldedFault {
    /// The status of the refusal.
    pub fn status(&self) -> u8
        ensures { result ≡ (folded_telling self.now).status }
    {
        match self {
            FoldedFault::Version { fault } => fault.status(),
            FoldedFault::Folding { version: _, fault } => status_of_folding(fault),
            FoldedFault::Condition { version: _, fault } => status_of_condition(fault),
        }
    }
}

impl Refusal for CaselessFault {
    ghost telling = { caseless_telling };

    fn status(&self) -> u8 {
        match self {
            CaselessFault::Folded { fault } => fault.status(),
            CaselessFault::NotExtension { .. } => DIFFERENT,
            CaselessFault::Text { fault } => fault.status(),
            CaselessFault::Memory => MEMORY,
        }
    }

    fn line(&self, alloc: Global) -> Result<Line, Memory> {
        caseless_line(alloc, self)
    }
}
