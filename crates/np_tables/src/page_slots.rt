//! The full decompositions of the code points that have a mapping, in one flat list.
ghost use Rattle.std.specs.Prelude.{◌≡◌, length, IfOk, IsTrue, Some};
ghost use Rattle.np_ucd.specs.Entries.{IsRow};
ghost use Rattle.np_ucd.specs.RowValues.{lent_entry};
ghost use Rattle.np_versions.specs.Versions.{entry_at};
ghost use Rattle.np_tables.specs.inside.FullRanges.{AreCodeRanges, IsCodeRange, code_range_of};
ghost use Rattle.np_tables.specs.inside.PageProperties.{AreSlots, IsSlotPushed};

use crate::fulls::{CodeRange, Fulls, push_full};
use np_code_points::Memory;
use np_ucd::RowRef;
use np_versions::Version;
use std::alloc::Global;

/// Whether two ranges of a flat list are the same.
fn are_same(codes: &[char], one: CodeRange, two: CodeRange) -> bool
    requires one { IsCodeRange (length codes.now) one }
    requires two { IsCodeRange (length codes.now) two }
    ensures { IsTrue result → code_range_of codes.now one ≡ code_range_of codes.now two }
{
    codes[one.start..one.end] == codes[two.start..two.end]
}

/// Appends what a table lends for the code point of a row, once where the two kinds are the same.
fn push_row(
    version: &Version,
    row: RowRef<'_>,
    codes: &mut Vec<char>,
    canonical: &mut Vec<CodeRange>,
    compatible: &mut Vec<CodeRange>,
) -> Result<(), Memory>
    requires row { IsRow (lent_entry row) }
    requires first { entry_at version.now.entries row.first ≡ Some (lent_entry row) }
    requires canonical { AreCodeRanges codes.old.items canonical.old.items }
    requires compatible { AreCodeRanges codes.old.items compatible.old.items }
    ensures { IfOk result (λ _. IsSlotPushed version.now row.entry.first codes.old.items canonical.old.items compatible.old.items
        codes.new.items canonical.new.items compatible.new.items) }
{
    let start = codes.len();
    push_full(version, false, row, codes)?;
    let middle = codes.len();
    push_full(version, true, row, codes)?;
    let end = codes.len();
    let one = CodeRange { start, end: middle };
    let two = CodeRange { start: middle, end };
    canonical.push(one)?;
    if are_same(codes, one, two) {
        codes.truncate(middle);
        compatible.push(one)?;
    } else {
        compatible.push(two)?;
    }
    Ok(())
}

/// What a table lends for the code points of the rows that have a mapping.
#[derive(Drop)]
pub(crate) struct Lent {
    pub fulls: Fulls,
    /// For each row the slot where that stands: slot 0, which is empty, for those without a mapping.
    pub slots: Vec<u32>,
}

/// What a table lends for the code points of the rows that have a mapping.
pub(crate) fn slots_of(alloc: Global, version: &Version) -> Result<Lent, Memory>
    ensures { IfOk result (λ lent. AreSlots version.now (length version.now.entries) lent.fulls lent.slots.items) }
{
    version.meets_conditions();
    let none = CodeRange { start: 0, end: 0 };
    let mut codes = Vec::new(alloc);
    let mut canonical = vec![in alloc; none]?;
    let mut compatible = vec![in alloc; none]?;
    let mut slots = Vec::with_capacity(alloc, version.row_count())?;
    for at in 0..version.row_count() {
        let row = version.row_in(at);
        let slot = canonical.len() as u32;
        if row.mapping.is_empty() {
            slots.push(0)?;
        } else {
            push_row(version, row, &mut codes, &mut canonical, &mut compatible)?;
            slots.push(slot)?;
        }
    }
    let fulls = Fulls {
        codes,
        canonical,
        compatible,
    };
    Ok(Lent { fulls, slots })
}
