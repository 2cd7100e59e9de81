//! Versions of the character tables (UAX #44).
ghost use Rattle.std.specs.Prelude.{◌≡◌, ◌↔◌, ◌⊎◌, ℕ, length, slice_get, IfOk, OnOk, IfErr, IfSome, IfNone, IsTrue, ◌<◌, None, Some};
ghost use Rattle.np_versions.specs.TableFaults.{IsFaultless, IsLeastFault};
ghost use Rattle.np_versions.specs.declared.faults.TableFault.TheVariants.{Memory as OutOfMemory};
ghost use Rattle.np_versions.specs.Composites.{IsCompositeOf, IsPrimary};
ghost use Rattle.np_versions.specs.inside.CompositeSearch.{composite};
ghost use Rattle.np_versions.specs.inside.Primaries.{is_primary};
ghost use Rattle.np_versions.specs.Conditions.{IsSound};
ghost use Rattle.np_versions.specs.CompositeLists.{AreOfFile};
ghost use Rattle.np_versions.specs.Counts.{assigned_count};
ghost use Rattle.np_versions.specs.Versions.{class_of, entry_at, file_kind, file_mapping, has_hangul, is_assigned, is_excluded};
ghost use Rattle.np_versions.specs.inside.RowPages.{AreRowPages};
ghost use Rattle.np_ucd.specs.Entries.{IsRow};
ghost use Rattle.np_ucd.specs.RowValues.{lent_entry};

use crate::characters::CharacterData;
use crate::counts::assigned_count as count_of;
use crate::faults::TableFault;
use crate::first_faults::fault_of;
use crate::pairs::Pairs;
use crate::row_pages::RowPages;
use crate::row_places::row_in;
use crate::syllables::arithmetic_pair;
use np_ucd::{Exclusions, MapKind, RowList, RowRef, Rows};
use std::alloc::Global;
use std::boxed::Box;
use std::fmt;
use std::marker::Model;

/// A version of the character tables that has none of the faults of [`TableFault`](crate::TableFault). A code point is
/// any number here: one that no row lists is unassigned, of class 0 and without a mapping.
#[derive(Drop)]
pub struct Version {
    characters: Box<CharacterData>,
    pairs: Pairs,
}

impl Model for Version {
    ghost use Rattle.np_versions.specs.Conditions.{IsSound};
    ghost use Rattle.np_versions.specs.Versions.{VersionData};
    ghost use Rattle.np_versions.specs.CompositeLists.{AreOfFile};

    ghost Value = { VersionData };

    ghost view = { λ a. a.characters.value };

    ghost invariant = { λ a. IsSound a.characters.value × AreOfFile a.characters.value a.pairs };
}

/// Shows how many rows the data file has, and none of them.
impl fmt::Debug for Version {
    fn fmt<W: fmt::Write>(&self, f: &mut fmt::Formatter<W>) -> fmt::Result {
        f.debug_struct("Version")
            .field("rows", &self.row_count())
            .finish_non_exhaustive()
    }
}

/// Tells the fault at the least code point, where there is one.
fn judge(alloc: Global, characters: &CharacterData, pairs: &Pairs) -> Result<(), TableFault>
    requires { AreOfFile characters.now pairs.now }
    ensures faultless { OnOk result (IsFaultless characters.now) }
    ensures fault { IfErr result (λ f. (f ≡ OutOfMemory) ⊎ IsLeastFault characters.now f) }
{
    match fault_of(alloc, characters, pairs)? {
        Some(fault) => Err(fault),
        None => Ok(()),
    }
}

impl Version {
    /// The version that these rows and exclusions make. An `Err` tells the fault at the least code point, and of the
    /// faults there the first in the list of [`TableFault`]; or that memory ran out.
    pub fn build(alloc: Global, rows: Rows, exclusions: Exclusions) -> Result<Version, TableFault>
        ensures version { IfOk result (λ v. v ≡ record { entries = rows; exclusions = exclusions }) }
        ensures faultless { OnOk result (IsFaultless (record { entries = rows; exclusions = exclusions })) }
        ensures fault { IfErr result (λ f. (f ≡ OutOfMemory) ⊎ IsLeastFault (record { entries = rows; exclusions = exclusions }) f) }
    {
        let list = RowList::of_rows(alloc, rows)?;
        Version::of_list(alloc, list, exclusions)
    }

    /// The version that these rows and exclusions make, as [`Version::build`] answers it.
    pub fn of_list(
        alloc: Global,
        rows: RowList,
        exclusions: Exclusions,
    ) -> Result<Version, TableFault>
        ensures version { IfOk result (λ v. v ≡ record { entries = rows; exclusions = exclusions }) }
        ensures faultless { OnOk result (IsFaultless (record { entries = rows; exclusions = exclusions })) }
        ensures fault { IfErr result (λ f. (f ≡ OutOfMemory) ⊎ IsLeastFault (record { entries = rows; exclusions = exclusions }) f) }
    {
        let characters = CharacterData::new(alloc, rows, exclusions)?;
        match Box::new(alloc, characters) {
            Ok(characters) => Version::of_characters(alloc, characters),
            Err(_) => Err(TableFault::Memory),
        }
    }

    /// The version of these characters. What is owned is handed on at each step, since the checks of a
    /// function that owns much are dear.
    fn of_characters(alloc: Global, characters: Box<CharacterData>) -> Result<Version, TableFault>
        ensures version { IfOk result (λ v. v ≡ characters.value) }
        ensures faultless { OnOk result (IsFaultless characters.value) }
        ensures fault { IfErr result (λ f. (f ≡ OutOfMemory) ⊎ IsLeastFault characters.value f) }
    {
        let pairs = Pairs::new(alloc, &characters)?;
        Version::of_parts(alloc, characters, pairs)
    }

    /// The version of these characters and their composites.
    fn of_parts(
        alloc: Global,
        characters: Box<CharacterData>,
        pairs: Pairs,
    ) -> Result<Version, TableFault>
        requires { AreOfFile characters.value pairs }
        ensures version { IfOk result (λ v. v ≡ characters.value) }
        ensures faultless { OnOk result (IsFaultless characters.value) }
        ensures fault { IfErr result (λ f. (f ≡ OutOfMemory) ⊎ IsLeastFault characters.value f) }
    {
        judge(alloc, &characters, &pairs)?;
        Ok(Version::of_faultless(characters, pairs))
    }

    /// The version of these characters.
    fn of_faultless(characters: Box<CharacterData>, pairs: Pairs) -> Version
        requires faultless { IsFaultless characters.value }
        requires pairs { AreOfFile characters.value pairs }
        ensures { result ≡ characters.value }
    {
        characters.are_in_order();
        Version { characters, pairs }
    }

    /// Does nothing at run time: the version meets the conditions, as each that was built does.
    pub fn meets_conditions(&self)
        ensures { IsSound self.now }
    {
        let _ = &self.characters;
    }

    /// The row numbers of all code points.
    pub fn pages(&self) -> &RowPages
        ensures { AreRowPages self.now.entries result.now.index.items result.now.numbers.items }
    {
        self.characters.pages()
    }

    /// The primary composites of the data file (The Unicode Standard, D114), in the order of their pairs, by which one is
    /// found. Where the Hangul arithmetic is on, its syllables are none of them.
    pub fn pairs(&self) -> &Pairs
        ensures { AreOfFile self.now result.now }
    {
        &self.pairs
    }

    /// The primary composite with this pair, syllables too.
    pub fn composite_of(&self, first: char, second: char) -> Option<char>
        ensures some { IfSome result (IsCompositeOf self.now first second) }
        ensures none { IfNone result ((c : ℕ) → ¬ (IsCompositeOf self.now first second c)) }
        ensures value { result ≡ composite self.now first second }
    {
        match arithmetic_pair(&self.characters, first, second) {
            Some(syllable) => Some(syllable),
            None => self.pairs.find(first, second),
        }
    }

    /// How many rows the data file has: a code point by itself or a range is one.
    pub fn row_count(&self) -> usize
        ensures { result ≡ length self.now.entries }
    {
        self.characters.len()
    }

    /// The row at a place, from 0 in the order of their code points. The place is less than
    /// [`row_count`](Version::row_count).
    pub fn row_in(&self, at: usize) -> RowRef<'_>
        requires { at < length self.now.entries }
        ensures place { slice_get self.now.entries at ≡ Some (lent_entry result) }
        ensures row { IsRow (lent_entry result) }
        ensures first { entry_at self.now.entries result.first ≡ Some (lent_entry result) }
    {
        row_in(&self.characters, at)
    }

    /// The place of the row in which a code point lies, from 0.
    pub fn place_of(&self, code: u32) -> Option<usize>
        ensures none { IfNone result (entry_at self.now.entries code ≡ None) }
        ensures within { IfSome result (λ at. at < length self.now.entries) }
        ensures row { IfSome result (λ at. slice_get self.now.entries at ≡ entry_at self.now.entries code) }
    {
        self.characters.place_of(code)
    }

    /// Whether a code point is assigned: listed, alone or inside a range.
    pub fn assigned_code(&self, code: u32) -> bool
        ensures { result ≡ is_assigned self.now code }
    {
        self.characters.assigned(code)
    }

    /// The canonical combining class of a code point, 0 where it is not assigned.
    pub fn class_of(&self, code: u32) -> u8
        ensures { result ≡ class_of self.now code }
    {
        self.characters.class(code)
    }

    /// The kind of a code point's mapping in the file: a syllable of the arithmetic is `Plain`.
    pub fn kind_of(&self, code: u32) -> MapKind
        ensures { result ≡ file_kind self.now code }
    {
        self.characters.kind(code)
    }

    /// The mapping of a code point in the file, empty where there is none: so that of a syllable.
    pub fn mapping_of(&self, code: u32) -> &[char]
        ensures { result.now ≡ file_mapping self.now code }
    {
        self.characters.mapping(code)
    }

    /// Whether a code point is listed as an exclusion, and has a canonical mapping in the file.
    pub fn is_excluded(&self, code: u32) -> bool
        ensures { result ≡ is_excluded self.now code }
    {
        self.characters.excluded(code)
    }

    /// Whether a code point is a primary composite (The Unicode Standard, D114): syllables are,
    /// where the Hangul arithmetic is on.
    pub fn is_primary(&self, code: u32) -> bool
        ensures primary { IsTrue result ↔ IsPrimary self.now code }
        ensures value { result ≡ is_primary self.now code }
    {
        self.characters.is_primary(code)
    }

    /// Whether the Hangul arithmetic is on (The Unicode Standard, section 3.12).
    pub fn has_hangul(&self) -> bool
        ensures { result ≡ has_hangul self.now }
    {
        self.characters.has_hangul()
    }

    /// How many code points are assigned. In time linear in the rows.
    pub fn count(&self) -> u32
        ensures { result ≡ assigned_count self.now }
    {
        count_of(&self.characters)
    }
}
