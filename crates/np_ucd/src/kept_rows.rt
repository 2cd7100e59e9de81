//! Rows of sixteen bytes, and their mappings in one flat list.
ghost use Rattle.std.specs.Prelude.{◌≡◌, ◌++◌, ◌+◌, ◌≤◌, ◌<◌, ◌↔◌, [], ◌∷◌, length, option_map, slice_get, IfOk, OnErr, IsTrue};
ghost use Rattle.np_ucd.specs.RowValues.{entry_of, lent_entry};
ghost use Rattle.np_ucd.specs.inside.KeptRows.{kept_entry};

use crate::row_list::RowRef;
use crate::rows::{MapKind, Row};
use np_code_points::Memory;
use std::alloc::Global;
use std::marker::Model;

/// A row as it is kept: its mapping is the `count` code points from the place `start` on.
#[derive(Clone, Copy)]
pub(crate) struct KeptRow {
    /// The first code point.
    pub first: u32,
    /// The last code point.
    pub last: u32,
    /// The place of the mapping in the flat list.
    pub start: u32,
    /// The canonical combining class.
    pub class: u8,
    /// The kind of the mapping.
    pub kind: MapKind,
    /// How many code points the mapping has.
    pub count: u8,
}

const _: () = prove!(size_of::<KeptRow>() == 16);

/// Rows that are kept small, in any order.
#[derive(Drop)]
pub(crate) struct KeptRows {
    rows: Vec<KeptRow>,
    codes: Vec<char>,
}

impl Model for KeptRows {
    ghost use Rattle.std.specs.Prelude.{List, map};
    ghost use Rattle.np_ucd.specs.Entries.{Entry};
    ghost use Rattle.np_ucd.specs.inside.KeptRows.{kept_entry, AreKept};

    ghost Value = { List Entry };

    ghost view = { λ a. map (kept_entry a.codes.items) a.rows.items };

    ghost invariant = { λ a. AreKept a.codes.items a.rows.items };
}

/// Appends the mapping of a row, and answers the row as it is kept; `Memory` too where the mapping or
/// its place is too large for a kept row.
fn keep(codes: &mut Vec<char>, row: &Row) -> Result<KeptRow, Memory>
    ensures grown { IfOk result (λ _. codes.new.items ≡ codes.old.items ++ row.now.mapping.items) }
    ensures row { IfOk result (λ kept. kept_entry codes.new.items kept ≡ entry_of row.now) }
    ensures within { IfOk result (λ kept. kept.start + kept.count ≤ length codes.new.items) }
    ensures same { OnErr result (codes.new.items ≡ codes.old.items) }
{
    let mapping = row.mapping.as_slice();
    // neither ever fails for a file: it has at most 16 MiB, and a mapping at most 32 code points
    let Ok(start) = u32::try_from(codes.len()) else {
        return Err(Memory);
    };
    let Ok(count) = u8::try_from(mapping.len()) else {
        return Err(Memory);
    };
    codes.extend_from_slice(mapping)?;
    Ok(KeptRow {
        first: row.first,
        last: row.last,
        start,
        class: row.class,
        kind: row.kind,
        count,
    })
}

/// A kept row as it is lent.
fn lend(codes: &[char], row: KeptRow) -> RowRef<'_>
    requires { row.start + row.count ≤ length codes.now }
    ensures { lent_entry result ≡ kept_entry codes.now row }
{
    let start = row.start as usize;
    let end = start + usize::from(row.count);
    RowRef {
        first: row.first,
        last: row.last,
        class: row.class,
        kind: row.kind,
        mapping: &codes[start..end],
    }
}

impl KeptRows {
    /// No row, with room for so many.
    pub(crate) fn with_capacity(alloc: Global, count: usize) -> Result<KeptRows, Memory>
        ensures { IfOk result (λ rows. rows ≡ []) }
    {
        let rows = Vec::with_capacity(alloc, count)?;
        Ok(KeptRows {
            rows,
            codes: Vec::new(alloc),
        })
    }

    /// Adds a row behind the others.
    pub(crate) fn push(&mut self, row: &Row) -> Result<(), Memory>
        ensures { IfOk result (λ _. self.new ≡ self.old ++ entry_of row.now ∷ []) }
    {
        let kept = keep(&mut self.codes, row)?;
        self.rows.push(kept)?;
        Ok(())
    }

    /// How many rows there are.
    pub(crate) fn len(&self) -> usize
        ensures { result ≡ length self.now }
    {
        self.rows.len()
    }

    /// Whether there is no row.
    pub(crate) fn is_empty(&self) -> bool
        ensures { IsTrue result ↔ (self.now ≡ []) }
    {
        self.rows.is_empty()
    }

    /// The row at a place, from 0.
    pub(crate) fn get(&self, at: usize) -> Option<RowRef<'_>>
        ensures { option_map lent_entry result ≡ slice_get self.now at }
    {
        match self.rows.get(at) {
            Some(row) => Some(lend(self.codes.as_slice(), *row)),
            None => None,
        }
    }
}
