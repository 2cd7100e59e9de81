//! The hints of the code points of each row, in eight bits.
ghost use Rattle.std.specs.Prelude.{◌≡◌, ◌≢◌, ◌<◌, [], ℕ, Bool, length, slice_get, true, false, IsTrue, Some};
ghost use Rattle.np_versions.specs.Mappings.{is_final};
ghost use Rattle.np_versions.specs.Versions.{entry_at, has_hangul};
ghost use Rattle.np_tables.specs.inside.PageHints.{AreHints, AreLeadingNeverSecond};
ghost use Rattle.np_tables.specs.inside.PageProperties.{AreRowBits, AreSeconds, IsSlot, is_row_never_second as spec_is_row_never_second, touches as spec_touches};
ghost use Rattle.np_ucd.specs.Entries.{Entry, IsRow};
ghost use Rattle.np_ucd.specs.RowValues.{lent_entry};

use crate::fulls::{Fulls, is_lent};
use crate::page_hints::{
    Hints, NO_HINTS, SYLLABLE, eight_bits, leading_hints, list_hints, own_hints,
};
use np_ucd::RowRef;
use np_versions::{Version, mapped_code};

/// Whether a row has one of the code points from `first` to `last`.
fn touches(row: RowRef<'_>, first: u32, last: u32) -> bool
    ensures { result ≡ spec_touches first last (lent_entry row.entry) }
{
    row.first <= last && first <= row.last
}

/// Whether no code point of a row is the second part of a primary composite: that of a syllable
/// stands from 1161 to 11C2.
pub(crate) fn is_row_never_second(row: RowRef<'_>, second: bool) -> bool
    ensures { result ≡ spec_is_row_never_second (lent_entry row.entry) second }
{
    !second && !touches(row, 0x1161, 0x11C2)
}

/// What hints are made of.
#[derive(Drop)]
pub(crate) struct Known<'t> {
    pub version: &'t Version,
    pub fulls: &'t Fulls,
    /// For each row whether one of its code points is the second part of a composite.
    pub seconds: &'t [bool],
    ghost are_seconds: { AreSeconds version.now seconds.now },
}

/// What is known of the code point of a row with a mapping, under a kind of decomposition.
fn kind_hints(known: &Known<'_>, row: RowRef<'_>, slot: u32, own: Hints, compat: bool) -> Hints
    requires row { IsRow (lent_entry row) }
    requires first { entry_at known.now.version.now.entries row.first ≡ Some (lent_entry row) }
    requires mapped { row.mapping.now ≢ [] }
    requires slot { IsSlot known.now.version.now known.now.fulls.now row.first slot }
    requires own { is_final known.now.version.now compat row.first ≡ true → AreHints known.now.version.now compat row.first own }
    ensures { AreHints known.now.version.now compat row.entry.first result }
{
    known.version.meets_conditions();
    if is_lent(row, compat) {
        let list = known.fulls.lent(slot as usize, compat);
        list_hints(known.version, known.seconds, list, mapped_code(row))
    } else {
        own
    }
}

/// The bits of the code point of a row with a mapping.
fn mapped_bits(known: &Known<'_>, row: RowRef<'_>, slot: u32, own: Hints) -> u8
    requires row { IsRow (lent_entry row) }
    requires first { entry_at known.now.version.now.entries row.first ≡ Some (lent_entry row) }
    requires mapped { row.mapping.now ≢ [] }
    requires slot { IsSlot known.now.version.now known.now.fulls.now row.first slot }
    requires own { (compat : Bool) → is_final known.now.version.now compat row.first ≡ true → AreHints known.now.version.now compat row.first own }
    ensures { AreRowBits known.now.version.now (lent_entry row.entry) result }
{
    let canonical = kind_hints(known, row, slot, own, false);
    let compatible = kind_hints(known, row, slot, own, true);
    eight_bits(canonical, compatible)
}

/// The bits of the code points of a row without a mapping.
fn bare_bits(version: &Version, row: RowRef<'_>, own: Hints, leading_never_second: bool) -> u8
    requires rows { IsRow (lent_entry row) }
    requires bare { row.mapping.now ≡ [] }
    requires leading_consonants { IsTrue leading_never_second → AreLeadingNeverSecond version.now }
    requires own { (compat : Bool) (c : ℕ) → entry_at version.now.entries c ≡ Some (lent_entry row)
        → is_final version.now compat c ≡ true → AreHints version.now compat c own }
    ensures { AreRowBits version.now (lent_entry row.entry) result }
{
    version.meets_conditions();
    let leading = touches(row, 0x1100, 0x1112);
    let known = leading_hints(leading, own);
    if !touches(row, 0xAC00, 0xD7A3) {
        eight_bits(known, known)
    } else if leading_never_second
        && version.has_hangul()
        && 0xAC00 <= row.first
        && row.last <= 0xD7A3
    {
        eight_bits(SYLLABLE, SYLLABLE)
    } else {
        eight_bits(NO_HINTS, NO_HINTS)
    }
}

/// The bits of the code points of the row at a place, from 0.
pub(crate) fn row_bits(known: &Known<'_>, at: usize, slot: u32, leading_never_second: bool) -> u8
    requires place { at < length known.now.version.now.entries }
    requires slot { (e : Entry) → slice_get known.now.version.now.entries at ≡ Some e → IsSlot known.now.version.now known.now.fulls.now e.first slot }
    requires leading_consonants { IsTrue leading_never_second → AreLeadingNeverSecond known.now.version.now }
    ensures { (e : Entry) → slice_get known.now.version.now.entries at ≡ Some e → AreRowBits known.now.version.now e result }
{
    known.version.meets_conditions();
    let row = known.version.row_in(at);
    let own = own_hints(row.class, is_row_never_second(row, known.seconds[at]));
    if row.mapping.is_empty() {
        bare_bits(known.version, row, own, leading_never_second)
    } else {
        mapped_bits(known, row, slot, own)
    }
}
