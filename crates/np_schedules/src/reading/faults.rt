//! Why a line of a schedule is not read.
use np_code_points::Memory;
use std::alloc::{AllocError, AllocFailed};

/// Why a line gave nothing.
#[derive(Clone, Copy, Drop)]
pub(crate) enum LineFault {
    /// It isn't what was looked for.
    Unfit,
    /// Memory ran out.
    Memory,
}

impl From<AllocError> for LineFault {
    ghost use Rattle.std.specs.Prelude.{◌≡◌};
    ghost use Rattle.np_schedules.specs.declared.reading.faults.LineFault.{LineFault};

    ghost from_gives = { λ _ e. e ≡ LineFault.Memory };

    fn from(_refused: AllocError) -> LineFault {
        LineFault::Memory
    }
}

impl<T: Drop> From<AllocFailed<T>> for LineFault {
    ghost use Rattle.std.specs.Prelude.{◌≡◌};
    ghost use Rattle.np_schedules.specs.declared.reading.faults.LineFault.{LineFault};

    ghost from_gives = { λ _ e. e ≡ LineFault.Memory };

    fn from(_refused: AllocFailed<T>) -> LineFault {
        LineFault::Memory
    }
}
