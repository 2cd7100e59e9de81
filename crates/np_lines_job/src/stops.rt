//! Why a run over caseless keys stops, and how that is told.
ghost use Rattle.std.specs.Prelude.{◌≡◌};
ghost use Rattle.np_lines_job.specs.CaselessLineKeys.{caseless_lines_telling, told_caselessly_as};

use np_caseless_job::CaselessFault;
use np_code_points::Memory;
use np_code_points::input::InputFault;
use np_jobs::{JobFault, Line, Refusal, TextFault, line_of};
use np_lines::LinesFault;
use std::alloc::Global;
use thiserror::Error;

/// Why a run over caseless keys stopped.
#[derive(Clone, Copy, Debug, PartialEq, Eq, Drop, Error)]
pub enum CaselessLinesFault {
    /// The three files make no version, or the input was not read to its end, or memory ran out.
    #[error(transparent)]
    Caseless { fault: CaselessFault },
    /// A write or the flush of the output failed.
    #[error("output: write failed")]
    WriteFailed,
}

/// How a fault of the run is told.
pub(crate) fn told_caselessly(fault: LinesFault) -> CaselessLinesFault
    ensures { result ≡ told_caselessly_as fault }
{
    let fault = match fault {
        LinesFault::WriteFailed => return CaselessLinesFault::WriteFailed,
        LinesFault::ReadFailed => TextFault::Input {
            fault: InputFault::ReadFailed,
        },
        LinesFault::TooLarge => TextFault::Input {
            fault: InputFault::TooLarge,
        },
        LinesFault::Memory => TextFault::Memory,
    };
    CaselessLinesFault::Caseless {
        fault: CaselessFault::Text { fault },
    }
}

impl Refusal for CaselessLinesFault {
    ghost telling = { caseless_lines_telling };

    fn status(&self) -> u8 {
        match self {
            CaselessLinesFault::Caseless { fault } => fault.status(),
            CaselessLinesFault::WriteFailed => JobFault::WriteFailed.status(),
        }
    }

    fn line(&self, alloc: Global) -> Result<Line, Memory> {
        match self {
            CaselessLinesFault::Caseless { fault } => fault.line(alloc),
            CaselessLinesFault::WriteFailed => line_of(alloc, &JobFault::WriteFailed),
        }
    }
}
