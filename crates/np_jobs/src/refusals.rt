//! How a refusal is told, whatever job it is of.
ghost use Rattle.std.specs.Prelude.{◌≡◌, false, IfOk, OnErr};
ghost use Rattle.np_jobs.specs.Tellings.{Telling, telling_of};
ghost use Rattle.np_jobs.specs.Lines.{line_bytes};

use crate::faults::JobFault;
use crate::lines::{Line, line_of};
use np_code_points::Memory;
use std::alloc::Global;

/// Why a job is refused: the status of the refusal, and the line that is told.
pub trait Refusal: Drop {
    ghost telling: { Self → Telling };

    /// The status of the refusal.
    fn status(&self) -> u8
        ensures { result ≡ (telling self.now).status };

    /// The line on the refusal, with its line end.
    ///
    /// # Errors
    ///
    /// `Memory` where memory ran out for a line that isn't always the same.
    fn line(&self, alloc: Global) -> Result<Line, Memory>
        ensures line { IfOk result (λ line. line_bytes line ≡ (telling self.now).line) }
        ensures free { OnErr result ((telling self.now).is_fixed ≡ false) };
}

impl Refusal for JobFault {
    ghost telling = { telling_of };

    fn status(&self) -> u8 {
        self.status()
    }

    fn line(&self, alloc: Global) -> Result<Line, Memory> {
        line_of(alloc, self)
    }
}
