//! Whether a version breaks nothing of another, asked of the old one's rows and of the new one's
//! primary composites: a quick way to the answer that most pairs have. A published version has some
//! 35,000 rows and 1,000 such composites, and there are 1,114,112 code points.
ghost use Rattle.std.specs.Prelude.{◌≡◌, ◌≢◌, ℕ, ◌<◌, length, IsTrue, None};
ghost use Rattle.np_chain.specs.inside.BreakTests.{break_of};
ghost use Rattle.np_chain.specs.inside.KeptRows.{AddsNoBreak, HasNoPair, IsKept, IsSameWithin, LiesSame};
ghost use Rattle.np_ucd.specs.RowValues.{lent_entry};
ghost use Rattle.np_ucd.specs.declared.rows.MapKind.TheVariants.{Plain};

use crate::audits::{break_at, same_kind};
use np_ucd::{MapKind, RowRef};
use np_versions::Version;

/// Whether a row has no canonical mapping to two code points, as each primary composite of a data file has.
fn has_no_pair(row: RowRef<'_>) -> bool
    ensures { IsTrue result → HasNoPair (lent_entry row.entry) }
{
    match row.kind {
        MapKind::Plain | MapKind::Compatibility => true,
        MapKind::Canonical => row.mapping.len() == 1,
    }
}

/// Whether two rows whose mappings are of one kind have the same one: those without a mapping have.
fn have_same_mapping(row: RowRef<'_>, wide: RowRef<'_>) -> bool
    ensures { IsTrue result → row.entry.kind ≢ Plain → wide.entry.mapping.now ≡ row.entry.mapping.now }
{
    match row.kind {
        MapKind::Plain => true,
        MapKind::Canonical | MapKind::Compatibility => wide.mapping == row.mapping,
    }
}

/// Whether a row lies within another that has its class and its mapping, and has no pair. Nearly all rows
/// are such.
fn is_same_within(row: RowRef<'_>, wide: RowRef<'_>) -> bool
    ensures { IsTrue result → IsSameWithin (lent_entry row.entry) (lent_entry wide.entry) }
{
    same_kind(wide.kind, row.kind)
        && row.last <= wide.last
        && wide.class == row.class
        && has_no_pair(row)
        && have_same_mapping(row, wide)
}

/// Whether a row of an old version lies within one of the new version's that has its class and its mapping,
/// and has no pair.
fn lies_same(new: &Version, row: RowRef<'_>) -> bool
    ensures { IsTrue result → LiesSame new.now (lent_entry row.entry) }
{
    match new.place_of(row.first) {
        Some(at) => is_same_within(row, new.row_in(at)),
        None => false,
    }
}

/// Whether the row of the old version at a place is kept by the new one: `true` only where no code
/// point in it has a break.
fn keeps_row(old: &Version, new: &Version, at: usize) -> bool
    requires { at < length old.now.entries }
    ensures { IsTrue result → IsKept old.now new.now at }
{
    old.meets_conditions();
    new.meets_conditions();
    let row = old.row_in(at);
    if lies_same(new, row) {
        return true;
    }
    if row.first != row.last {
        return false;
    }
    break_at(old, new, row.first).is_none()
}

/// Whether the old version assigns a code point, or else the code point has no break.
fn adds_no_break(old: &Version, new: &Version, code: u32) -> bool
    ensures { IsTrue result → AddsNoBreak old.now new.now code }
{
    old.assigned_code(code) || break_at(old, new, code).is_none()
}

/// Whether each row of the old version is kept by the new one.
fn keeps_rows(old: &Version, new: &Version) -> bool
    ensures { IsTrue result → (at : ℕ) → IsKept old.now new.now at }
{
    for at in 0..old.row_count() {
        if !keeps_row(old, new, at) {
            return false;
        }
    }
    true
}

/// Whether no primary composite of the new version has a break where the old one lacks it. No other
/// code point that the old one lacks can have one: with a syllable of the arithmetic it lacks the parts.
fn adds_nothing(old: &Version, new: &Version) -> bool
    ensures { IsTrue result → (c : ℕ) → AddsNoBreak old.now new.now c }
{
    old.meets_conditions();
    for composite in new.pairs().as_slice() {
        if !adds_no_break(old, new, u32::from(composite.code)) {
            return false;
        }
    }
    true
}

/// Whether the new version keeps the old one's rows and adds no break: `true` only where no code point
/// has one. Where it answers `false`, each code point is to be asked.
pub(crate) fn is_kept_by_rows(old: &Version, new: &Version) -> bool
    ensures { IsTrue result → (c : ℕ) → break_of old.now new.now c ≡ None }
{
    keeps_rows(old, new) && adds_nothing(old, new)
}
