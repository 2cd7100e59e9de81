//! Why a version is refused.
ghost use Rattle.std.specs.Prelude.{◌≡◌};
ghost use Rattle.np_versions.specs.TableFaults.{name_of, code_of, place_of};
ghost use Rattle.np_versions.specs.inside.FirstFaults.{least_fault as spec_least_fault, sooner as spec_sooner};

use np_code_points::Memory;
use thiserror::Error;

/// Why two files make no version. Each fault but `Memory` stands at a code point. Of several
/// faults the one at the least code point is told, and of those there the first in this list.
#[derive(Clone, Copy, Debug, PartialEq, Eq, Error)]
pub enum TableFault {
    /// The code point has a mapping that holds an unassigned code point.
    #[error("{code:04X} has a mapping that holds an unassigned code point")]
    MapsToUnassigned { code: u32 },
    /// The mappings of the code point and of its parts lead deeper than 32, or round in a circle.
    #[error("{code:04X} has mappings that lead deeper than 32, or in a circle")]
    TooDeep { code: u32 },
    /// The full compatibility decomposition of the code point has more than 64 code points.
    #[error("{code:04X} has a full decomposition of more than 64 code points")]
    TooLong { code: u32 },
    /// The code point is a primary composite with the same mapping as a smaller one.
    #[error("{code:04X} has the pair of a smaller primary composite")]
    AmbiguousPair { code: u32 },
    /// Some Hangul syllable or jamo is assigned, and the code point is one that is unassigned, of
    /// non-zero class, or has a mapping in the file.
    #[error("{code:04X} is Hangul that is not as its arithmetic has it")]
    HangulWrong { code: u32 },
    /// Memory ran out.
    #[error("out of memory")]
    Memory,
}

impl TableFault {
    /// The name of the fault, as its variant is written.
    pub fn name(&self) -> &'static str
        ensures { result.now ≡ name_of self.now }
    {
        match self {
            TableFault::MapsToUnassigned { .. } => "MapsToUnassigned",
            TableFault::TooDeep { .. } => "TooDeep",
            TableFault::TooLong { .. } => "TooLong",
            TableFault::AmbiguousPair { .. } => "AmbiguousPair",
            TableFault::HangulWrong { .. } => "HangulWrong",
            TableFault::Memory => "Memory",
        }
    }

    /// The code point of the fault, where it has one.
    pub fn code(&self) -> Option<u32>
        ensures { result ≡ code_of self.now }
    {
        match self {
            TableFault::MapsToUnassigned { code }
            | TableFault::TooDeep { code }
            | TableFault::TooLong { code }
            | TableFault::AmbiguousPair { code }
            | TableFault::HangulWrong { code } => Some(*code),
            TableFault::Memory => None,
        }
    }
}

impl From<Memory> for TableFault {
    ghost use Rattle.std.specs.Prelude.{◌≡◌};
    ghost use Rattle.np_versions.specs.declared.faults.TableFault.TheVariants.{Memory as OutOfMemory};

    ghost from_gives = { λ _ e. e ≡ OutOfMemory };

    fn from(_refused: Memory) -> TableFault {
        TableFault::Memory
    }
}

/// The least code point with each kind of fault.
#[derive(Clone, Copy)]
pub(crate) struct FirstFaults {
    pub mapped: Option<u32>,
    pub deep: Option<u32>,
    pub long: Option<u32>,
    pub ambiguous: Option<u32>,
    pub hangul: Option<u32>,
}

/// The code point where a fault stands.
fn place(fault: &TableFault) -> u32
    ensures { result ≡ place_of fault.now }
{
    fault.code().unwrap_or(0)
}

/// The first fault, unless the second stands at a smaller code point.
fn sooner(first: Option<TableFault>, second: Option<TableFault>) -> Option<TableFault>
    ensures { result ≡ spec_sooner first second }
{
    match (first, second) {
        (None, other) | (other, None) => other,
        (Some(one), Some(two)) => {
            if place(&two) < place(&one) {
                Some(two)
            } else {
                Some(one)
            }
        }
    }
}

/// The fault at the least code point, and of those there the one with the least number.
pub(crate) fn least_fault(firsts: &FirstFaults) -> Option<TableFault>
    ensures { result ≡ spec_least_fault firsts.now }
{
    let mapped = firsts
        .mapped
        .map(|code| TableFault::MapsToUnassigned { code });
    let deep = firsts.deep.map(|code| TableFault::TooDeep { code });
    let long = firsts.long.map(|code| TableFault::TooLong { code });
    let ambiguous = firsts
        .ambiguous
        .map(|code| TableFault::AmbiguousPair { code });
    let hangul = firsts.hangul.map(|code| TableFault::HangulWrong { code });
    sooner(
        sooner(sooner(sooner(mapped, deep), long), ambiguous),
        hangul,
    )
}
