//! What a later version with its foldings breaks of an earlier one.
ghost use Rattle.std.specs.Prelude.{◌≡◌};
ghost use Rattle.np_caseless.specs.Breaks.{name_of};

use np_chain::BreakKind;
use std::fmt;

/// A kind of break. A code point that has several is told with the least: first those of versions, in their order.
#[derive(Clone, Copy, Debug, PartialEq, Eq)]
pub enum FoldedBreakKind {
    /// A break of the version by itself.
    OfVersion(BreakKind),
    /// Assigned in both, with unlike foldings.
    FoldingChanged,
}

impl FoldedBreakKind {
    /// The name of the kind: that of the version's, or as the variant is written.
    pub fn name(self) -> &'static str
        ensures { result.now ≡ name_of self }
    {
        match self {
            FoldedBreakKind::OfVersion(kind) => kind.name(),
            FoldedBreakKind::FoldingChanged => "FoldingChanged",
        }
    }
}

/// The break of one code point.
#[derive(Clone, Copy, Debug, PartialEq, Eq)]
pub struct FoldedBreak {
    /// The least kind of break that the code point has.
    pub kind: FoldedBreakKind,
    /// The code point.
    pub code: u32,
}

impl fmt::Display for FoldedBreakKind {
    fn fmt<W: fmt::Write>(&self, f: &mut fmt::Formatter<W>) -> fmt::Result {
        write!(f, "{}", self.name())
    }
}

impl fmt::Display for FoldedBreak {
    fn fmt<W: fmt::Write>(&self, f: &mut fmt::Formatter<W>) -> fmt::Result {
        write!(f, "{} {:04X}", self.kind, self.code)
    }
}
