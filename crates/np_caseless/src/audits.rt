//! A version with its foldings against an earlier one.
ghost use Rattle.std.specs.Prelude.{◌≡◌, ◌↔◌, ◌+◌, [], IsOk, IfOk, IfErr, OnOk, MatchOption};
ghost use Rattle.np_caseless.specs.Breaks.{AreBreaks, IsFirstBreak};
ghost use Rattle.np_caseless.specs.Extension.{ExtendsFolded, KeepsKeys, LeavesKeys};
ghost use Rattle.np_caseless.specs.inside.BreakSteps.{AreBelow, HasNoneOf, IsAtNext, first_break, place_behind};
ghost use Rattle.np_chain.specs.Breaks.{IsBreakOf as IsOfVersion};

use crate::breaks::{FoldedBreak, FoldedBreakKind};
use crate::folded_tables::FoldedTable;
use crate::folding_changes::{changes_folding, first_changed};
use np_chain::{Break, BreakKind, audit as audit_of_versions, extends as extends_version};
use np_code_points::Memory;
use np_code_points::codes::CODE_POINTS;
use np_versions::NormTable;
use std::alloc::Global;

/// The kind of the break at a place, where it is one of this code point.
fn kind_at(breaks: &[Break], next: usize, code: u32) -> Option<BreakKind>
    ensures { IsAtNext breaks.now next code result }
{
    match breaks.get(next) {
        Some(brk) => {
            if brk.code == code {
                Some(brk.kind)
            } else {
                None
            }
        }
        None => None,
    }
}

/// The place behind, where the break at a place was one of the code point at hand.
fn passed(breaks: &[Break], next: usize, kind: Option<BreakKind>) -> usize
    ensures { result ≡ place_behind breaks.now next kind }
{
    match kind {
        Some(_) => { if next < breaks.len() { next + 1 } else { next } }
        None => next,
    }
}

/// Adds the break of a code point, if it has one: that of the version, where there is one.
fn push_break<T: NormTable + Drop>(
    breaks: &mut Vec<FoldedBreak>,
    old: &FoldedTable<T>,
    new: &FoldedTable<T>,
    of_version: Option<BreakKind>,
    code: u32,
) -> Result<(), Memory>
    requires version { MatchOption of_version (HasNoneOf old.now new.now code) (IsOfVersion old.now.version new.now.version code) }
    requires below { AreBelow old.now new.now code breaks.old.items }
    ensures { OnOk result (AreBelow old.now new.now (code + 1) breaks.new.items) }
{
    if let Some(kind) = of_version {
        let kind = FoldedBreakKind::OfVersion(kind);
        breaks.push(FoldedBreak { kind, code })?;
        return Ok(());
    }
    if changes_folding(old, new, code) {
        let kind = FoldedBreakKind::FoldingChanged;
        breaks.push(FoldedBreak { kind, code })?;
    }
    Ok(())
}

/// The breaks of a new version with its foldings against an old one with its own: each code point that has one, once, in
/// order, with its least kind. There is none exactly where the new one extends the old one. In time linear in the code points.
///
/// # Errors
///
/// `Memory` where the list of the breaks could not grow.
pub fn audit<T: NormTable + Drop>(
    alloc: Global,
    old: &FoldedTable<T>,
    new: &FoldedTable<T>,
) -> Result<Vec<FoldedBreak>, Memory>
    ensures breaks { IfOk result (λ breaks. AreBreaks old.now new.now breaks.items) }
    ensures none { IfOk result (λ breaks. (breaks.items ≡ []) ↔ ExtendsFolded old.now new.now) }
{
    old.meets_conditions();
    new.meets_conditions();
    let of_versions = audit_of_versions(alloc, old.table().version(), new.table().version())?;
    let mut breaks = Vec::new(alloc);
    let mut next = 0;
    for code in 0..CODE_POINTS {
        let of_version = kind_at(of_versions.as_slice(), next, code);
        push_break(&mut breaks, old, new, of_version, code)?;
        next = passed(of_versions.as_slice(), next, of_version);
    }
    Ok(breaks)
}

/// The break of a code point by its folding.
fn of_folding(code: u32) -> FoldedBreak
    ensures { result ≡ record { kind = FoldedBreakKind.FoldingChanged; code = code } }
{
    FoldedBreak {
        kind: FoldedBreakKind::FoldingChanged,
        code,
    }
}

/// A break of the version.
fn of_break(brk: Break) -> FoldedBreak
    ensures { result ≡ record { kind = FoldedBreakKind.OfVersion brk.kind; code = brk.code } }
{
    FoldedBreak {
        kind: FoldedBreakKind::OfVersion(brk.kind),
        code: brk.code,
    }
}

/// Of the first break of the versions and the first of the foldings the one that is told.
fn first_of(of_version: Break, changed: Option<u32>) -> FoldedBreak
    ensures { result ≡ first_break of_version changed }
{
    match changed {
        Some(code) => {
            if code < of_version.code {
                of_folding(code)
            } else {
                of_break(of_version)
            }
        }
        None => of_break(of_version),
    }
}

/// Answers `Ok` exactly where a new version with its foldings extends an old one with its own: the version extends it, and what
/// the old one assigns folds alike. Then each string that the old one assigns keeps its caseless key, and each caseless key
/// under the new one is its own under the old one.
///
/// # Errors
///
/// Else the break of the least code point that has one, the first that `audit` tells.
pub fn extends<T: NormTable + Drop>(
    old: &FoldedTable<T>,
    new: &FoldedTable<T>,
) -> Result<(), FoldedBreak>
    ensures extends { IsOk result ↔ ExtendsFolded old.now new.now }
    ensures first { IfErr result (λ first. IsFirstBreak old.now new.now first) }
    ensures keeps { OnOk result (KeepsKeys old.now new.now) }
    ensures leaves { OnOk result (LeavesKeys old.now new.now) }
{
    old.meets_conditions();
    new.meets_conditions();
    let changed = first_changed(old, new);
    match extends_version(old.table().version(), new.table().version()) {
        Ok(()) => match changed {
            Some(code) => Err(of_folding(code)),
            None => Ok(()),
        },
        Err(of_version) => Err(first_of(of_version, changed)),
    }
}
