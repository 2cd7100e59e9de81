//! What a later version breaks of an earlier one.
ghost use Rattle.std.specs.Prelude.{◌≡◌};
ghost use Rattle.np_chain.specs.Breaks.{name_of};

use std::fmt;

/// A kind of break. A code point that has several is told with the least, the first in this order.
#[derive(Clone, Copy, Debug, PartialEq, Eq)]
pub enum BreakKind {
    /// Assigned in the old version, not in the new one.
    Lost,
    /// Assigned in both, with unlike combining classes.
    ClassChanged,
    /// Assigned in both, with unlike kinds of mapping or unlike mappings.
    MappingChanged,
    /// A primary composite of the old version, not of the new one.
    NowExcluded,
    /// Assigned in the old version, a primary composite of the new one alone, with both parts
    /// assigned in the old one.
    NowIncluded,
    /// Not assigned in the old version, a primary composite of the new one, with both parts
    /// assigned in the old one.
    NewComposite,
}

impl BreakKind {
    /// The name of the kind, as its variant is written.
    pub fn name(self) -> &'static str
        ensures { result.now ≡ name_of self }
    {
        match self {
            BreakKind::Lost => "Lost",
            BreakKind::ClassChanged => "ClassChanged",
            BreakKind::MappingChanged => "MappingChanged",
            BreakKind::NowExcluded => "NowExcluded",
            BreakKind::NowIncluded => "NowIncluded",
            BreakKind::NewComposite => "NewComposite",
        }
    }
}

/// The break of one code point.
#[derive(Clone, Copy, Debug, PartialEq, Eq)]
pub struct Break {
    /// The least kind of break that the code point has.
    pub kind: BreakKind,
    /// The code point.
    pub code: u32,
}

impl fmt::Display for BreakKind {
    fn fmt<W: fmt::Write>(&self, f: &mut fmt::Formatter<W>) -> fmt::Result {
        write!(f, "{}", self.name())
    }
}

impl fmt::Display for Break {
    fn fmt<W: fmt::Write>(&self, f: &mut fmt::Formatter<W>) -> fmt::Result {
        write!(f, "{} {:04X}", self.kind, self.code)
    }
}
