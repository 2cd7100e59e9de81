//! Why a version and its foldings are refused.
ghost use Rattle.std.specs.Prelude.{◌≡◌};
ghost use Rattle.np_caseless.specs.ConditionFaults.{name_of, number_of, code_of, place_of as place_in};
ghost use Rattle.np_caseless.specs.inside.FirstFaults.{sooner as sooner_of};

use np_code_points::Memory;
use thiserror::Error;

/// Why a version is not taken with its foldings. Each fault but `Memory` stands at a code point. Of several faults the one
/// at the least code point is told, and of those there the first in this list.
#[derive(Clone, Copy, Debug, PartialEq, Eq, Error)]
pub enum ConditionFault {
    /// The code point folds, and is not assigned.
    #[error("{code:04X} folds, and is not assigned")]
    FoldsUnassigned { code: u32 },
    /// The code point folds to a list that holds an unassigned code point.
    #[error("{code:04X} folds to what is not assigned")]
    FoldsToUnassigned { code: u32 },
    /// The code point folds and has no canonical mapping, and some code point of the full canonical decomposition of what it
    /// folds to folds. Or the same of mappings of either kind and the full compatibility decomposition.
    #[error("{code:04X} folds to what folds again")]
    FoldsAgain { code: u32 },
    /// The caseless NFKD form of the code point has more than 64 code points.
    #[error("{code:04X} has a caseless form of more than 64 code points")]
    FoldedTooLong { code: u32 },
    /// The code point has another code point as its lowercase, which is assigned, and neither of the two folds.
    #[error("{code:04X} has a lowercase, and neither of the two folds")]
    NotFolded { code: u32 },
    /// Memory ran out.
    #[error("out of memory")]
    Memory,
}

impl ConditionFault {
    /// The name of the fault, as its variant is written.
    pub fn name(&self) -> &'static str
        ensures { result.now ≡ name_of self.now }
    {
        match self {
            ConditionFault::FoldsUnassigned { .. } => "FoldsUnassigned",
            ConditionFault::FoldsToUnassigned { .. } => "FoldsToUnassigned",
            ConditionFault::FoldsAgain { .. } => "FoldsAgain",
            ConditionFault::FoldedTooLong { .. } => "FoldedTooLong",
            ConditionFault::NotFolded { .. } => "NotFolded",
            ConditionFault::Memory => "Memory",
        }
    }

    /// The number of the condition that is broken, from 1 to 5, and 6 where memory ran out: of those that a code point breaks
    /// the least is told.
    pub fn number(&self) -> u8
        ensures { result ≡ number_of self.now }
    {
        match self {
            ConditionFault::FoldsUnassigned { .. } => 1,
            ConditionFault::FoldsToUnassigned { .. } => 2,
            ConditionFault::FoldsAgain { .. } => 3,
            ConditionFault::FoldedTooLong { .. } => 4,
            ConditionFault::NotFolded { .. } => 5,
            ConditionFault::Memory => 6,
        }
    }

    /// The code point of the fault, where it has one.
    pub fn code(&self) -> Option<u32>
        ensures { result ≡ code_of self.now }
    {
        match self {
            ConditionFault::FoldsUnassigned { code }
            | ConditionFault::FoldsToUnassigned { code }
            | ConditionFault::FoldsAgain { code }
            | ConditionFault::FoldedTooLong { code }
            | ConditionFault::NotFolded { code } => Some(*code),
            ConditionFault::Memory => None,
        }
    }
}

impl From<Memory> for ConditionFault {
    ghost use Rattle.std.specs.Prelude.{◌≡◌};
    ghost use Rattle.np_caseless.specs.declared.faults.ConditionFault.TheVariants.{Memory as OutOfMemory};

    ghost from_gives = { λ _ e. e ≡ OutOfMemory };

    fn from(_refused: Memory) -> ConditionFault {
        ConditionFault::Memory
    }
}

/// The code point where a fault stands.
fn place_of(fault: &ConditionFault) -> u32
    ensures { result ≡ place_in fault.now }
{
    fault.code().unwrap_or(0)
}

/// The first fault, unless the second stands at a smaller code point.
pub(crate) fn sooner(
    first: Option<ConditionFault>,
    second: Option<ConditionFault>,
) -> Option<ConditionFault>
    ensures { result ≡ sooner_of first second }
{
    match (first, second) {
        (None, other) | (other, None) => other,
        (Some(one), Some(two)) => {
            if place_of(&two) < place_of(&one) {
                Some(two)
            } else {
                Some(one)
            }
        }
    }
}
