//! The primary composites of a data file, by the pairs that they compose.
ghost use Rattle.std.specs.Prelude.{◌≡◌, ◌↔◌, ℕ, ◌<◌, true, length, vec_len, flat_map, option_to_list, slice_get, IfOk, IfSome, IfNone, IsTrue, Some};
ghost use Rattle.std.specs.List.{All};
ghost use Rattle.std.specs.List.Sorted.{IsPermutation};
ghost use Rattle.np_ucd.specs.Entries.{IsRow};
ghost use Rattle.np_ucd.specs.RowValues.{lent_entry};
ghost use Rattle.np_versions.specs.CompositeLists.{AreOfFile, AreOrdered, IsInRange, Lists, pair_rank};
ghost use Rattle.np_versions.specs.inside.Pairs.{HaveNumbers, IsCompositeAt, composites_in, slot_at};

use crate::characters::CharacterData;
use crate::row_places::{mapped_code, row_in};
use np_code_points::Memory;
use np_ucd::RowRef;
use std::alloc::Global;
use std::marker::Model;

/// A primary composite (The Unicode Standard, D114), after the two code points of its mapping.
#[derive(Clone, Copy, Debug, PartialEq, Eq, PartialOrd, Ord)]
pub struct Composite {
    /// The first code point of the mapping.
    pub first: char,
    /// The second code point of the mapping.
    pub second: char,
    /// The composite.
    pub code: char,
}

impl Composite {
    /// Whether its pair comes before this one.
    fn is_before(&self, first: char, second: char) -> bool
        ensures { IsTrue result ↔ (pair_rank self.now.first self.now.second < pair_rank first second) }
    {
        let own = self.second;
        if self.first == first {
            own < second
        } else {
            self.first < first
        }
    }

    /// Whether its pair is this one.
    #[inline(always)]
    fn is_of(&self, first: char, second: char) -> bool
        ensures { IsTrue result ↔ ((self.now.first ≡ first) × (self.now.second ≡ second)) }
    {
        self.first == first && self.second == second
    }
}

/// How many slots there are for the places of pairs.
const SLOTS: usize = 8192;

/// With this factor few pairs of the published files share a slot. Any other would do.
const FACTOR: usize = 1830;

/// The slot of a pair.
#[inline(always)]
fn slot_of(first: char, second: char) -> usize
    ensures slot { result ≡ slot_at first second }
    ensures bound { result < 8192 }
{
    (first as usize * FACTOR + second as usize) % SLOTS
}

/// For each slot the number, from 1, of one of the composites whose pairs have it, and 0 where there
/// is none, or none that such a number can tell.
fn slots_of(alloc: Global, composites: &[Composite]) -> Result<Vec<u16>, Memory>
    ensures { IfOk result (λ slots. vec_len slots ≡ 8192) }
{
    let mut slots = vec![in alloc; 0u16; SLOTS]?;
    for (at, composite) in composites.iter().enumerate() {
        let number = if at < 65_535 { at as u16 + 1 } else { 0 };
        slots[slot_of(composite.first, composite.second)] = number;
    }
    Ok(slots)
}

/// Whether the slot of each composite's pair has a number.
fn have_numbers(slots: &[u16], composites: &[Composite]) -> bool
    requires { length slots.now ≡ 8192 }
    ensures { result ≡ true → HaveNumbers slots.now composites.now }
{
    for composite in composites {
        let slot = slot_of(composite.first, composite.second);
        if slots[slot] == 0 {
            return false;
        }
    }
    true
}

/// Primary composites in the order of their pairs, and of the composites where pairs are equal. A version lends its
/// own ([`Version::pairs`](crate::Version::pairs)).
#[derive(Drop)]
pub struct Pairs {
    composites: Vec<Composite>,
    /// Where a pair is looked for first.
    slots: Vec<u16>,
    /// Whether a pair is none of the list where its slot has no number.
    complete: bool,
    ghost size: { vec_len slots ≡ 8192 },
    ghost numbers: { complete ≡ true → HaveNumbers slots.items composites.items },
}

impl Model for Pairs {
    ghost use Rattle.std.specs.Prelude.{List};
    ghost use Rattle.np_versions.specs.declared.pairs.Composite.{Composite};

    ghost Value = { List Composite };

    ghost use Rattle.np_versions.specs.CompositeLists.{AreOrdered};

    ghost view = { λ a. a.composites.items };

    ghost invariant = { λ a. AreOrdered a.composites.items };
}

impl Pairs {
    /// Those of a data file.
    pub(crate) fn new(alloc: Global, characters: &CharacterData) -> Result<Pairs, Memory>
        ensures { IfOk result (AreOfFile characters.now) }
    {
        characters.are_in_order();
        let composites = file_composites(alloc, characters)?;
        let pairs = Pairs::of_composites(alloc, composites)?;
        Ok(pairs)
    }

    /// The composites, put in order.
    fn of_composites(alloc: Global, mut composites: Vec<Composite>) -> Result<Pairs, Memory>
        requires { All IsInRange composites.items }
        ensures { IfOk result (IsPermutation composites.items) }
    {
        composites.sort_unstable();
        let slots = slots_of(alloc, &composites)?;
        let complete = have_numbers(&slots, &composites);
        Ok(Pairs {
            composites,
            slots,
            complete,
        })
    }

    /// How many composites there are.
    pub fn len(&self) -> usize
        ensures count { result ≡ length self.now }
        ensures order { AreOrdered self.now }
    {
        self.composites.len()
    }

    /// The composites, in the order of their pairs.
    pub fn as_slice(&self) -> &[Composite]
        ensures same { result.now ≡ self.now }
        ensures order { AreOrdered self.now }
    {
        &self.composites
    }

    /// The composite at a place, from 0.
    pub fn at(&self, place: usize) -> Composite
        requires { place < length self.now }
        ensures place { slice_get self.now place ≡ Some result }
        ensures range { IsInRange result }
    {
        self.composites[place]
    }

    /// How many places have a pair that comes before this one: where some have this pair, it stands behind those.
    fn place(&self, first: char, second: char) -> usize
        ensures { (code : ℕ) → Lists self.now first second code → (own : ℕ) × IsCompositeAt self.now result first second own }
    {
        let mut low = 0;
        let mut high = self.len();
        while low < high {
            let middle = low + (high - low) / 2;
            if self.composites[middle].is_before(first, second) {
                low = middle + 1;
            } else {
                high = middle;
            }
        }
        low
    }

    /// The composite at a place, from 0, if it has this pair.
    #[inline(always)]
    fn found_at(&self, place: usize, first: char, second: char) -> Option<char>
        ensures some { IfSome result (Lists self.now first second) }
        ensures none { IfNone result ((code : ℕ) → ¬ (IsCompositeAt self.now place first second code)) }
    {
        if place >= self.len() {
            return None;
        }
        let here = self.at(place);
        if here.is_of(first, second) {
            Some(here.code)
        } else {
            None
        }
    }

    /// A composite of the list with this pair. Its slot tells most, and halving the rest.
    pub fn find(&self, first: char, second: char) -> Option<char>
        ensures some { IfSome result (Lists self.now first second) }
        ensures none { IfNone result ((code : ℕ) → ¬ (Lists self.now first second code)) }
    {
        let number = self.slots[slot_of(first, second)] as usize;
        if number == 0 && self.complete {
            return None;
        }
        match self.found_at(number.wrapping_sub(1), first, second) {
            Some(code) => Some(code),
            None => self.search(first, second),
        }
    }

    /// A composite of the list with this pair, by halves.
    fn search(&self, first: char, second: char) -> Option<char>
        ensures some { IfSome result (Lists self.now first second) }
        ensures none { IfNone result ((code : ℕ) → ¬ (Lists self.now first second code)) }
    {
        self.found_at(self.place(first, second), first, second)
    }
}

/// The composite that a row gives.
fn composite_in(characters: &CharacterData, row: RowRef<'_>) -> Option<Composite>
    requires row { IsRow (lent_entry row) }
    ensures value { option_to_list result ≡ composites_in characters.now (lent_entry row.entry) }
    ensures range { IfSome result IsInRange }
{
    match row.mapping {
        [first, second] => {
            if characters.is_primary(row.first) {
                Some(Composite {
                    first: *first,
                    second: *second,
                    code: mapped_code(row),
                })
            } else {
                None
            }
        }
        _ => None,
    }
}

/// The composites that the rows give, in the order of the rows.
fn file_composites(alloc: Global, characters: &CharacterData) -> Result<Vec<Composite>, Memory>
    ensures items { IfOk result (λ cs. cs.items ≡ flat_map (composites_in characters.now) characters.now.entries) }
    ensures range { IfOk result (λ cs. All IsInRange cs.items) }
{
    let mut composites = Vec::new(alloc);
    for at in 0..characters.len() {
        if let Some(composite) = composite_in(characters, row_in(characters, at)) {
            composites.push(composite)?;
        }
    }
    Ok(composites)
}
