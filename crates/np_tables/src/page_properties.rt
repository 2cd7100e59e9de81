//! The properties of each code point, packed into 8 bytes, of which most answers of a table are read.
//!
//! | Bits | Field | What it says |
//! |---|---|---|
//! | 32 | `fulls` | where its full decompositions are, and its forms; 0: it has no mapping |
//! | 8 | `class` | its combining class |
//! | 8 | `assigned` | 1: a row has it |
//! | 8 | `never_second` | 1: no code point of its row is the second part of a primary composite |
//! | 8 | `hints` | under which forms it is a boundary or a Yes starter: `page_hints` tells which bit |
//!
//! Beside them is a quick check of 8 bits for each form, made of the properties: `quick_checks` has their values.
ghost use Rattle.std.specs.Prelude.{◌≡◌, ℕ, ◌+◌, ◌<◌, length, slice_get, slice_index_or, false, IfOk, Some};
ghost use Rattle.np_tables.specs.inside.PageProperties.{AreAllRowProperties, AreSeconds, AreSlots, no_properties, paged_properties, row_properties};
ghost use Rattle.np_versions.specs.inside.Pages.{AreWithin, property_place};
ghost use Rattle.np_ucd.specs.Entries.{Entry};

use crate::fulls::Fulls;
use crate::page_bits::{Known, is_row_never_second, row_bits};
use crate::page_hints::are_leading_never_second;
use np_code_points::Memory;
use np_versions::Version;
use std::alloc::Global;

/// How many code points a block has.
const BLOCK: usize = 256;

/// The properties of a code point. All code points of a row have the same.
#[derive(Clone, Copy)]
pub(crate) struct Properties {
    /// The slot of its full decompositions.
    pub fulls: u32,
    /// Its combining class.
    pub class: u8,
    /// Whether it is assigned.
    pub assigned: bool,
    /// Whether no code point of its row is the second part of a primary composite.
    pub never_second: bool,
    /// What is known of it under each form, in bits: `page_hints` tells which.
    pub hints: u8,
}

/// The properties of a code point that no row has.
const NO_PROPERTIES: Properties = Properties {
    fulls: 0,
    class: 0,
    assigned: false,
    never_second: true,
    hints: 255,
};

/// For each row whether one of its code points is the second part of a composite.
pub(crate) fn second_rows(alloc: Global, version: &Version) -> Result<Vec<bool>, Memory>
    ensures { IfOk result (λ seconds. AreSeconds version.now seconds.items) }
{
    version.meets_conditions();
    let pairs = version.pairs();
    let mut seconds = vec![in alloc; false; version.row_count()]?;
    for place in 0..pairs.len() {
        if let Some(at) = version.place_of(u32::from(pairs.at(place).second)) {
            seconds[at] = true;
        }
    }
    Ok(seconds)
}

/// The properties of the row at a place, from 0.
#[tactic(auto, unfolding(crate::specs::inside::PageProperties::row_properties))]
fn properties_of_row(version: &Version, at: usize, slot: u32, second: bool, hints: u8) -> Properties
    requires place { at < length version.now.entries }
    ensures { (e : Entry) → slice_get version.now.entries at ≡ Some e → result ≡ row_properties e slot second hints }
{
    let row = version.row_in(at);
    Properties {
        fulls: slot,
        class: row.class,
        assigned: true,
        never_second: is_row_never_second(row, second),
        hints,
    }
}

/// The properties for code points without a row, and behind it the properties of the rows.
#[tactic(auto, using(crate::proofs::PageLemmas::property_answers))]
pub(crate) fn all_row_properties(
    alloc: Global,
    version: &Version,
    fulls: &Fulls,
    slots: &[u32],
    seconds: &[bool],
) -> Result<Vec<Properties>, Memory>
    requires slots { AreSlots version.now (length version.now.entries) fulls.now slots.now }
    requires seconds { AreSeconds version.now seconds.now }
    ensures { IfOk result (λ all_properties. AreAllRowProperties version.now slots.now seconds.now (length version.now.entries) all_properties.items) }
{
    let count = version.row_count();
    let leading_never_second = are_leading_never_second(version, seconds);
    let known = Known {
        version,
        fulls,
        seconds,
    };
    let mut all_properties = Vec::with_capacity(alloc, count + 1)?;
    all_properties.push(NO_PROPERTIES)?;
    for at in 0..count {
        let hints = row_bits(&known, at, slots[at], leading_never_second);
        all_properties.push(properties_of_row(version, at, slots[at], seconds[at], hints))?;
    }
    Ok(all_properties)
}

/// The properties of all blocks, by the row numbers that stand there.
pub(crate) fn page_properties(
    alloc: Global,
    all_properties: &[Properties],
    numbers: &[u32],
) -> Result<Vec<Properties>, Memory>
    ensures { IfOk result (λ paged. paged.items ≡ paged_properties all_properties.now numbers.now) }
{
    let mut paged = Vec::with_capacity(alloc, numbers.len())?;
    for number in numbers {
        paged.push(properties_at(all_properties, *number))?;
    }
    Ok(paged)
}

/// The properties at a row number.
fn properties_at(all_properties: &[Properties], number: u32) -> Properties
    ensures { result ≡ slice_index_or all_properties.now number no_properties }
{
    match all_properties.get(number as usize) {
        Some(properties) => *properties,
        None => NO_PROPERTIES,
    }
}

/// Where the properties of a code point are among the blocks.
#[inline(always)]
#[tactic(auto, unfolding(np_versions::specs::inside::Pages::property_place))]
pub(crate) fn place_in(blocks: &[u16], c: char) -> usize
    requires { length blocks.now ≡ 4352 }
    ensures place { result ≡ property_place blocks.now c }
    ensures within { (count : ℕ) → AreWithin 4352 blocks.now count → result < count }
    ensures small { result < 0x100_0000 }
{
    let code = c as usize;
    let block = usize::from(blocks[code / BLOCK]);
    block * BLOCK + code % BLOCK
}

/// The properties of a code point.
#[inline(always)]
pub(crate) fn properties_of(blocks: &[u16], all_properties: &[Properties], c: char) -> Properties
    requires { AreWithin 4352 blocks.now (length all_properties.now) }
    ensures { result ≡ slice_index_or all_properties.now (property_place blocks.now c) no_properties }
{
    all_properties[place_in(blocks, c)]
}
