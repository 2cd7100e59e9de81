//! What the two data files say of each code point.
ghost use Rattle.std.specs.Prelude.{◌≡◌, ◌<◌, ◌&&◌, length, option_map, slice_get, IfOk, IfSome, IfNone, None};
ghost use Rattle.np_ucd.specs.Entries.{AreRows};
ghost use Rattle.np_ucd.specs.RowValues.{lent_entry};
ghost use Rattle.np_versions.specs.inside.Primaries.{is_file_primary, is_primary, is_starter_pair};
ghost use Rattle.np_versions.specs.Versions.{VersionData, class_of, entry_at, file_kind, file_mapping, has_hangul, is_assigned, is_canonical as canonical, is_excluded, is_hangul_row};
ghost use Rattle.np_versions.specs.inside.RowPages.{AreRowPages};
ghost use Rattle.np_ucd.specs.Listed.{is_listed};
ghost use Rattle.np_code_points.specs.Hangul.{is_syllable as in_block};

use crate::hangul_rows;
use crate::row_index::RowIndex;
use crate::row_pages::RowPages;
use np_code_points::Memory;
use np_code_points::hangul::is_syllable;
use np_ucd::{Exclusions, MapKind, RowList, RowRef};
use std::alloc::Global;
use std::marker::Model;

/// What the two data files say of each code point, whether or not the conditions hold.
#[derive(Drop)]
pub(crate) struct CharacterData {
    rows: RowIndex,
    exclusions: Exclusions,
    hangul: bool,
}

impl Model for CharacterData {
    ghost use Rattle.std.specs.Prelude.{◌≡◌};
    ghost use Rattle.np_ucd.specs.Entries.{AreRows};
    ghost use Rattle.np_versions.specs.Versions.{VersionData, has_hangul};

    ghost Value = { VersionData };

    ghost view = { λ a. record { entries = a.rows; exclusions = a.exclusions } };

    ghost invariant = { λ a. AreRows a.rows × (a.hangul ≡ has_hangul (record { entries = a.rows; exclusions = a.exclusions })) };
}

impl CharacterData {
    /// What these rows and exclusions say.
    pub(crate) fn new(
        alloc: Global,
        rows: RowList,
        exclusions: Exclusions,
    ) -> Result<CharacterData, Memory>
        ensures { IfOk result (λ v. v ≡ record { entries = rows; exclusions = exclusions }) }
    {
        let rows = RowIndex::new(alloc, rows)?;
        let hangul = hangul_rows::all_right(&rows);
        Ok(CharacterData {
            rows,
            exclusions,
            hangul,
        })
    }

    /// Does nothing at run time: the rows are those of a data file, in their order.
    pub(crate) fn are_in_order(&self)
        ensures { AreRows self.now.entries }
    {
        let _ = &self.rows;
    }

    /// How many rows there are.
    pub(crate) fn len(&self) -> usize
        ensures count { result ≡ length self.now.entries }
        ensures rows { AreRows self.now.entries }
    {
        self.rows.len()
    }

    /// The row at a place, from 0.
    pub(crate) fn row(&self, at: usize) -> Option<RowRef<'_>>
        ensures row { option_map lent_entry result ≡ slice_get self.now.entries at }
    {
        self.rows.row(at)
    }

    /// The place of the row in which a code point lies.
    pub(crate) fn place_of(&self, code: u32) -> Option<usize>
        ensures none { IfNone result (entry_at self.now.entries code ≡ None) }
        ensures within { IfSome result (λ at. at < length self.now.entries) }
        ensures row { IfSome result (λ at. slice_get self.now.entries at ≡ entry_at self.now.entries code) }
    {
        self.rows.place_of(code)
    }

    /// The row numbers of all code points.
    pub(crate) fn pages(&self) -> &RowPages
        ensures { AreRowPages self.now.entries result.now.index.items result.now.numbers.items }
    {
        self.rows.pages()
    }

    /// The row in which a code point lies.
    pub(crate) fn row_at(&self, code: u32) -> Option<RowRef<'_>>
        ensures row { option_map lent_entry result ≡ entry_at self.now.entries code }
    {
        self.rows.row_at(code)
    }

    /// Whether a row lists the code point.
    #[tactic(auto, using(crate::proofs::RowLemmas::accesses))]
    pub(crate) fn assigned(&self, code: u32) -> bool
        ensures { result ≡ is_assigned self.now code }
    {
        self.row_at(code).is_some()
    }

    /// The combining class, 0 outside the rows.
    pub(crate) fn class(&self, code: u32) -> u8
        ensures { result ≡ class_of self.now code }
    {
        match self.row_at(code) {
            Some(row) => row.class,
            None => 0,
        }
    }

    /// The kind of the mapping as in the file.
    pub(crate) fn kind(&self, code: u32) -> MapKind
        ensures { result ≡ file_kind self.now code }
    {
        match self.row_at(code) {
            Some(row) => row.kind,
            None => MapKind::Plain,
        }
    }

    /// The mapping as in the file, empty where there is none.
    pub(crate) fn mapping(&self, code: u32) -> &[char]
        ensures { result.now ≡ file_mapping self.now code }
    {
        match self.row_at(code) {
            Some(row) => row.mapping,
            None => &[],
        }
    }

    /// Whether the code point is listed as an exclusion, and has a canonical mapping in the file.
    #[tactic(auto, using(crate::proofs::RowLemmas::accesses))]
    pub(crate) fn excluded(&self, code: u32) -> bool
        ensures { result ≡ is_excluded self.now code }
    {
        is_canonical(self.kind(code)) && self.is_listed(code)
    }

    /// Whether the code point is listed as an exclusion.
    fn is_listed(&self, code: u32) -> bool
        ensures { result ≡ is_listed self.now.exclusions code }
    {
        self.exclusions.holds(code)
    }

    /// Whether the code point is assigned, of class 0 and without a mapping in the file.
    #[tactic(auto, using(crate::proofs::RowLemmas::accesses))]
    pub(crate) fn is_hangul_row(&self, code: u32) -> bool
        ensures { result ≡ is_hangul_row self.now code }
    {
        self.assigned(code) && self.class(code) == 0 && self.mapping(code).is_empty()
    }

    /// Whether the Hangul arithmetic is on.
    pub(crate) fn has_hangul(&self) -> bool
        ensures { result ≡ has_hangul self.now }
    {
        self.hangul
    }

    /// Whether the code point is a primary composite, syllables too.
    pub(crate) fn is_primary(&self, code: u32) -> bool
        ensures { result ≡ is_primary self.now code }
    {
        if self.is_composed(code) {
            return true;
        }
        self.is_file_primary(code)
    }

    /// Whether the code point is a syllable of the arithmetic.
    pub(crate) fn is_composed(&self, code: u32) -> bool
        ensures on { result ≡ (has_hangul self.now && in_block code) }
        ensures rows { AreRows self.now.entries }
    {
        self.hangul && is_syllable(code)
    }

    /// Whether the code point is a primary composite by its mapping in the file.
    fn is_file_primary(&self, code: u32) -> bool
        ensures { result ≡ is_file_primary self.now code }
    {
        is_canonical(self.kind(code))
            && self.starts_pair(code)
            && !self.excluded(code)
            && self.class(code) == 0
    }

    /// Whether the mapping in the file has exactly two code points, the first of class 0.
    fn starts_pair(&self, code: u32) -> bool
        ensures { result ≡ is_starter_pair (class_of self.now) (file_mapping self.now code) }
    {
        match self.mapping(code) {
            [first, _] => self.class(u32::from(*first)) == 0,
            _ => false,
        }
    }
}

/// Whether a mapping of this kind is canonical.
fn is_canonical(kind: MapKind) -> bool
    ensures { result ≡ canonical kind }
{
    match kind {
        MapKind::Canonical => true,
        MapKind::Plain | MapKind::Compatibility => false,
    }
}
