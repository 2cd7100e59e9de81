//! The rows of UnicodeData.txt.
ghost use Rattle.std.specs.Prelude.{◌≡◌, ◌↔◌, [], length, map, option_map, slice_get, IsTrue};
ghost use Rattle.std.specs.Iterator.Adapters.{IterYieldsInOrder};
ghost use Rattle.std.specs.Slice.Iter.{iter_rest};
ghost use Rattle.np_ucd.specs.Entries.{AreRows};

use smallvec::SmallVec;
use std::marker::Model;
use std::slice::Iter;

/// The kind of a mapping (UAX #44, Decomposition_Type).
#[derive(Clone, Copy, Debug, PartialEq, Eq)]
pub enum MapKind {
    /// No mapping.
    Plain,
    /// A canonical mapping.
    Canonical,
    /// A compatibility mapping.
    Compatibility,
}

/// One row: the code points from `first` to `last`, both included, share a combining class.
#[derive(Debug, PartialEq, Eq, Drop)]
pub struct Row {
    /// The first code point.
    pub first: u32,
    /// The last code point; that of a range alone is not the first.
    pub last: u32,
    /// The canonical combining class, at most 254.
    pub class: u8,
    /// The kind of the mapping.
    pub kind: MapKind,
    /// The mapping, empty where the kind is `Plain`.
    pub mapping: SmallVec<char, 2>,
}

/// Rows in the order of their code points, none of which is in two of them.
#[derive(Debug, Drop)]
pub struct Rows {
    rows: Vec<Row>,
}

impl Model for Rows {
    ghost use Rattle.std.specs.Prelude.{List, map};
    ghost use Rattle.np_ucd.specs.Entries.{Entry, AreRows};

    ghost Value = { List Entry };

    ghost use Rattle.np_ucd.specs.RowValues.{entry_of};

    ghost view = { λ a. map entry_of a.rows.items };

    ghost invariant = { λ a. AreRows (map entry_of a.rows.items) };
}

impl Rows {
    ghost use Rattle.np_ucd.specs.RowValues.{entry_of};
    ghost use Rattle.np_ucd.specs.declared.rows.Row.{Row};

    /// Rows that are in order.
    pub(crate) fn from_rows(rows: Vec<Row>) -> Rows
        requires { AreRows (map entry_of rows.items) }
        ensures { result ≡ map entry_of rows.items }
    {
        Rows { rows }
    }

    /// Does nothing at run time: the rows are those of a data file, in their order.
    pub fn are_in_order(&self)
        ensures { AreRows self.now }
    {
        let _ = &self.rows;
    }

    /// How many rows there are.
    pub fn len(&self) -> usize
        ensures count { result ≡ length self.now }
        ensures rows { AreRows self.now }
    {
        self.rows.len()
    }

    /// Whether there is no row.
    pub fn is_empty(&self) -> bool
        ensures { IsTrue result ↔ (self.now ≡ []) }
    {
        self.rows.is_empty()
    }

    /// The rows, in the order of their code points.
    pub fn iter(&self) -> Iter<'_, Row>
        ensures rows { map entry_of (iter_rest result) ≡ self.now }
        ensures runs { IterYieldsInOrder Row }
    {
        self.rows.iter()
    }

    /// The row at a place, from 0.
    pub fn get(&self, at: usize) -> Option<&Row>
        ensures row { option_map (λ r. entry_of r.now) result ≡ slice_get self.now at }
    {
        self.rows.get(at)
    }
}
