//! Rows, and the row in which each code point lies.
ghost use Rattle.std.specs.Prelude.{◌≡◌, ◌<◌, length, option_map, slice_get, IfOk, IfSome, IfNone, None};
ghost use Rattle.np_ucd.specs.Entries.{AreRows};
ghost use Rattle.np_ucd.specs.RowValues.{lent_entry};
ghost use Rattle.np_versions.specs.Versions.{entry_at};
ghost use Rattle.np_versions.specs.inside.RowPages.{AreRowPages};

use crate::row_pages::RowPages;
use np_code_points::Memory;
use np_code_points::codes::CODE_POINTS;
use np_ucd::{RowList, RowRef};
use std::alloc::Global;
use std::marker::Model;

/// The rows of a data file, with the place of the row of each code point.
#[derive(Drop)]
pub(crate) struct RowIndex {
    rows: RowList,
    pages: RowPages,
}

impl Model for RowIndex {
    ghost use Rattle.std.specs.Prelude.{List};
    ghost use Rattle.np_ucd.specs.Entries.{Entry};
    ghost use Rattle.np_versions.specs.inside.RowPages.{ArePagedRows};

    ghost Value = { List Entry };

    ghost view = { λ a. a.rows };

    ghost invariant = { λ a. ArePagedRows a.rows a.pages.index.items a.pages.numbers.items };
}

impl RowIndex {
    /// The index of these rows.
    pub(crate) fn new(alloc: Global, rows: RowList) -> Result<RowIndex, Memory>
        ensures value { IfOk result (λ r. r ≡ rows) }
        ensures rows { IfOk result AreRows }
    {
        rows.are_in_order();
        let pages = RowPages::new(alloc, &rows)?;
        Ok(RowIndex { rows, pages })
    }

    /// The row numbers of all code points.
    pub(crate) fn pages(&self) -> &RowPages
        ensures { AreRowPages self.now result.now.index.items result.now.numbers.items }
    {
        &self.pages
    }

    /// How many rows there are.
    pub(crate) fn len(&self) -> usize
        ensures count { result ≡ length self.now }
        ensures rows { AreRows self.now }
    {
        self.rows.len()
    }

    /// The row at a place, from 0.
    pub(crate) fn row(&self, at: usize) -> Option<RowRef<'_>>
        ensures row { option_map lent_entry result ≡ slice_get self.now at }
    {
        self.rows.get(at)
    }

    /// The place of the row in which a code point lies.
    #[tactic(auto, using(crate::proofs::RowLemmas::past_code_points))]
    pub(crate) fn place_of(&self, code: u32) -> Option<usize>
        ensures none { IfNone result (entry_at self.now code ≡ None) }
        ensures within { IfSome result (λ at. at < length self.now) }
        ensures row { IfSome result (λ at. slice_get self.now at ≡ entry_at self.now code) }
    {
        let pages = &self.pages;
        if code >= CODE_POINTS {
            return None;
        }
        let number = pages.number_of(code);
        if number == 0 {
            None
        } else {
            Some(number as usize - 1)
        }
    }

    /// The row in which a code point lies.
    pub(crate) fn row_at(&self, code: u32) -> Option<RowRef<'_>>
        ensures row { option_map lent_entry result ≡ entry_at self.now code }
    {
        match self.place_of(code) {
            Some(at) => self.rows.get(at),
            None => None,
        }
    }
}
