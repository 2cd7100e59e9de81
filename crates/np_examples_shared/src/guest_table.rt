//! A table of somebody else's: what whoever writes an `impl NormTable` elsewhere owes.
ghost use Rattle.std.specs.Prelude.{◌≡◌, ℕ, IfOk, Some};
ghost use Rattle.std.specs.List.{slice_get};
ghost use Rattle.np_versions.specs.Versions.{class_of};

use np_code_points::Memory;
use np_tables::RowTable;
use np_versions::{NormTable, Version};
use std::alloc::Global;
use std::marker::Model;

/// How many code points, from 0, a table keeps the classes of: letters of Latin with their accents.
const KEPT: u32 = 0x370;

/// The classes of the first code points.
fn first_classes(alloc: Global, plain: &RowTable) -> Result<Vec<u8>, Memory>
    ensures { IfOk result (λ kept. (c class : ℕ) → slice_get kept.items c ≡ Some class → class ≡ class_of plain.now c) }
{
    let mut kept = Vec::with_capacity(alloc, KEPT as usize)?;
    for code in 0..KEPT {
        kept.push(plain.version().class_of(code))?;
    }
    Ok(kept)
}

/// A table that keeps the classes of the first code points, and asks the plain table that it holds for all else.
/// It has the calls that each table owes, and keeps no hint: of those it says what the trait says for it.
#[derive(Debug, Drop)]
pub struct GuestTable {
    plain: RowTable,
    classes: Vec<u8>,
}

impl Model for GuestTable {
    ghost use Rattle.std.specs.Prelude.{◌≡◌, ℕ, Some};
    ghost use Rattle.std.specs.List.{slice_get};
    ghost use Rattle.np_versions.specs.Versions.{VersionData, class_of};

    ghost Value = { VersionData };

    ghost view = { λ t. t.plain };

    ghost invariant = { λ t. (c class : ℕ) → slice_get t.classes.items c ≡ Some class → class ≡ class_of t.plain c };
}

impl GuestTable {
    /// The table of a version.
    pub fn new(alloc: Global, version: Version) -> Result<GuestTable, Memory>
        ensures { IfOk result (λ t. t ≡ version) }
    {
        let plain = RowTable::new(alloc, version)?;
        let classes = first_classes(alloc, &plain)?;
        Ok(GuestTable { plain, classes })
    }
}

impl NormTable for GuestTable {
    ghost model = { λ t. t };

    fn version(&self) -> &Version {
        self.plain.version()
    }

    fn assigned(&self, c: char) -> bool {
        self.plain.assigned(c)
    }

    fn class(&self, c: char) -> u8 {
        match self.classes.get(c as usize) {
            Some(class) => *class,
            None => self.plain.class(c),
        }
    }

    fn hangul(&self) -> bool {
        self.plain.hangul()
    }

    fn pair(&self, a: char, b: char) -> Option<char> {
        self.plain.pair(a, b)
    }

    fn full(&self, c: char, compat: bool) -> &[char] {
        self.plain.full(c, compat)
    }
}
