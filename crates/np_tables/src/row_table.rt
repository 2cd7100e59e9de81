//! The plain table: the rows and the pairs of a version, and full decompositions by row.
ghost use Rattle.std.specs.Prelude.{◌≡◌, IfOk};

use crate::fulls::Fulls;
use np_code_points::Memory;
use np_versions::{NormTable, Version};
use std::alloc::Global;
use std::fmt;
use std::marker::Model;

/// The plain table: it asks the version's rows and its list of pairs, and full decompositions were
/// made once for each row.
#[derive(Drop)]
pub struct RowTable {
    version: Version,
    fulls: Fulls,
}

impl Model for RowTable {
    ghost use Rattle.np_tables.specs.inside.FullLists.{AreFulls};
    ghost use Rattle.np_versions.specs.Versions.{VersionData};

    ghost Value = { VersionData };

    ghost view = { λ a. a.version };

    ghost invariant = { λ a. AreFulls a.version a.fulls };
}

/// Shows how large the version is, and nothing of what is kept of it.
impl fmt::Debug for RowTable {
    fn fmt<W: fmt::Write>(&self, f: &mut fmt::Formatter<W>) -> fmt::Result {
        f.debug_struct("RowTable")
            .field("version", &self.version)
            .finish_non_exhaustive()
    }
}

impl RowTable {
    /// The table of a version.
    pub fn new(alloc: Global, version: Version) -> Result<RowTable, Memory>
        ensures { IfOk result (λ t. t ≡ version) }
    {
        let fulls = Fulls::new(alloc, &version)?;
        Ok(RowTable { version, fulls })
    }
}

impl NormTable for RowTable {
    ghost model = { λ t. t };

    fn version(&self) -> &Version {
        self.version.meets_conditions();
        &self.version
    }

    fn assigned(&self, c: char) -> bool {
        self.version.assigned_code(u32::from(c))
    }

    fn class(&self, c: char) -> u8 {
        self.version.class_of(u32::from(c))
    }

    fn hangul(&self) -> bool {
        self.version.has_hangul()
    }

    fn pair(&self, a: char, b: char) -> Option<char> {
        self.version.composite_of(a, b)
    }

    #[tactic(auto, using(crate::proofs::FullListLemmas::full_answers))]
    fn full(&self, c: char, compat: bool) -> &[char] {
        self.version.meets_conditions();
        match self.version.place_of(u32::from(c)) {
            Some(place) => self.fulls.lent(place, compat),
            None => &[],
        }
    }
}
