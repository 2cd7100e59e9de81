//! The rows of UnicodeData.txt, kept small.
ghost use Rattle.std.specs.Prelude.{◌≡◌, ◌↔◌, [], length, option_map, slice_get, IfOk, IsTrue};
ghost use Rattle.np_ucd.specs.Entries.{AreRows};
ghost use Rattle.np_ucd.specs.RowValues.{entry_of, lent_entry};

use crate::kept_rows::KeptRows;
use crate::rows::{MapKind, Row, Rows};
use np_code_points::Memory;
use smallvec::SmallVec;
use std::alloc::Global;
use std::fmt;
use std::marker::Model;

/// One row, as a list of rows lends it: the code points from `first` to `last`, both included, share
/// a combining class.
#[derive(Clone, Copy, Debug, PartialEq, Eq)]
pub struct RowRef<'a> {
    /// The first code point.
    pub first: u32,
    /// The last code point; that of a range alone is not the first.
    pub last: u32,
    /// The canonical combining class, at most 254.
    pub class: u8,
    /// The kind of the mapping.
    pub kind: MapKind,
    /// The mapping, empty where the kind is `Plain`.
    pub mapping: &'a [char],
}

/// Rows in the order of their code points, none of which is in two of them. It says what [`Rows`] say
/// in a third of the memory.
#[derive(Drop)]
pub struct RowList {
    rows: KeptRows,
}

impl Model for RowList {
    ghost use Rattle.std.specs.Prelude.{List};
    ghost use Rattle.np_ucd.specs.Entries.{Entry, AreRows};

    ghost Value = { List Entry };

    ghost view = { λ a. a.rows };

    ghost invariant = { λ a. AreRows a.rows };
}

/// Shows how many rows there are, and none of them.
impl fmt::Debug for RowList {
    fn fmt<W: fmt::Write>(&self, f: &mut fmt::Formatter<W>) -> fmt::Result {
        f.debug_struct("RowList")
            .field("len", &self.rows.len())
            .finish_non_exhaustive()
    }
}

/// A row that has its mapping itself.
pub(crate) fn owned(alloc: Global, row: RowRef<'_>) -> Result<Row, Memory>
    ensures { IfOk result (λ owned. entry_of owned ≡ lent_entry row.entry) }
{
    let mapping = SmallVec::from_slice(alloc, row.mapping)?;
    Ok(Row {
        first: row.first,
        last: row.last,
        class: row.class,
        kind: row.kind,
        mapping,
    })
}

impl RowList {
    /// Rows that are in order.
    pub(crate) fn from_kept(rows: KeptRows) -> RowList
        requires { AreRows rows }
        ensures { result ≡ rows }
    {
        RowList { rows }
    }

    /// The same rows.
    ///
    /// # Errors
    ///
    /// `Memory` where the list could not grow.
    pub fn of_rows(alloc: Global, rows: Rows) -> Result<RowList, Memory>
        ensures { IfOk result (λ list. list ≡ rows) }
    {
        rows.are_in_order();
        let mut kept = KeptRows::with_capacity(alloc, rows.len())?;
        for at in 0..rows.len() {
            if let Some(row) = rows.get(at) {
                kept.push(row)?;
            }
        }
        Ok(RowList { rows: kept })
    }

    /// Does nothing at run time: the rows are those of a data file, in their order.
    pub fn are_in_order(&self)
        ensures { AreRows self.now }
    {
        let _ = &self.rows;
    }

    /// How many rows there are.
    pub fn len(&self) -> usize
        ensures count { result ≡ length self.now }
        ensures rows { AreRows self.now }
    {
        self.rows.len()
    }

    /// Whether there is no row.
    pub fn is_empty(&self) -> bool
        ensures { IsTrue result ↔ (self.now ≡ []) }
    {
        self.rows.is_empty()
    }

    /// The row at a place, from 0.
    pub fn get(&self, at: usize) -> Option<RowRef<'_>>
        ensures row { option_map lent_entry result ≡ slice_get self.now at }
    {
        self.rows.get(at)
    }
}
