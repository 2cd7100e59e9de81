//! A version against an earlier one.
ghost use Rattle.std.specs.Prelude.{◌≡◌, ◌↔◌, true, ◌&&◌, [], IsOk, IfOk, IfErr};
ghost use Rattle.np_chain.specs.Breaks.{AreBreaks, IsFirstBreak};
ghost use Rattle.np_chain.specs.inside.BreakTests.{break_of, has_old_parts, is_same_kind, maps_alike as alike};
ghost use Rattle.np_chain.specs.inside.BreakLists.{breaks_of};
ghost use Rattle.np_chain.specs.Extension.{Extends};
ghost use Rattle.np_code_points.specs.Hangul.{is_syllable as syllable};
ghost use Rattle.np_versions.specs.inside.Primaries.{is_primary};
ghost use Rattle.np_versions.specs.Versions.{class_of, has_hangul, is_assigned};
ghost use Rattle.std.specs.List.{list_all};

use crate::breaks::{Break, BreakKind};
use crate::kept_rows::is_kept_by_rows;
use np_code_points::Memory;
use np_code_points::codes::CODE_POINTS;
use np_code_points::hangul::is_syllable;
use np_ucd::MapKind;
use np_versions::Version;
use std::alloc::Global;

/// Whether two kinds of mapping are the same.
pub(crate) fn same_kind(a: MapKind, b: MapKind) -> bool
    ensures { result ≡ is_same_kind a b }
{
    a == b
}

/// Whether a code point that both versions assign has the same kind of mapping and the same
/// mapping in both. A syllable has: where a version assigns one, the arithmetic is on.
fn maps_alike(old: &Version, new: &Version, code: u32) -> bool
    requires old { is_assigned old.now code ≡ true }
    requires new { is_assigned new.now code ≡ true }
    ensures { result ≡ alike old.now new.now code }
{
    old.meets_conditions();
    new.meets_conditions();
    if is_syllable(code) {
        return true;
    }
    if !same_kind(new.kind_of(code), old.kind_of(code)) {
        return false;
    }
    new.mapping_of(code) == old.mapping_of(code)
}

/// Whether all of these code points are assigned.
fn all_assigned(version: &Version, codes: &[char]) -> bool
    ensures { result ≡ list_all (is_assigned version.now) codes.now }
{
    for code in codes {
        if !version.assigned_code(u32::from(*code)) {
            return false;
        }
    }
    true
}

/// Whether a code point maps by the Hangul arithmetic.
fn maps_by_arithmetic(version: &Version, code: u32) -> bool
    ensures { result ≡ (has_hangul version.now && syllable code) }
{
    version.has_hangul() && is_syllable(code)
}

/// Whether the old version assigns all to which a code point maps in the new one. The parts of a
/// syllable are syllables and jamo, which a version has all or none of.
fn parts_assigned(old: &Version, new: &Version, code: u32) -> bool
    ensures { result ≡ has_old_parts old.now new.now code }
{
    old.meets_conditions();
    if maps_by_arithmetic(new, code) {
        return old.has_hangul();
    }
    all_assigned(old, new.mapping_of(code))
}

/// Whether a code point is a primary composite of the new version, with both parts assigned in the
/// old one.
fn joins_old_parts(old: &Version, new: &Version, code: u32) -> bool
    ensures { result ≡ (is_primary new.now code && has_old_parts old.now new.now code) }
{
    new.is_primary(code) && parts_assigned(old, new, code)
}

/// The break of a code point that the old version assigns, if it has one.
fn break_of_assigned(old: &Version, new: &Version, code: u32) -> Option<BreakKind>
    requires { is_assigned old.now code ≡ true }
    ensures { result ≡ break_of old.now new.now code }
{
    if !new.assigned_code(code) {
        return Some(BreakKind::Lost);
    }
    if new.class_of(code) != old.class_of(code) {
        return Some(BreakKind::ClassChanged);
    }
    break_of_kept(old, new, code)
}

/// The break of a code point that both versions assign with one class, if it has one.
#[tactic(auto, using(crate::proofs::BreakLemmas::break_of_staying))]
fn break_of_kept(old: &Version, new: &Version, code: u32) -> Option<BreakKind>
    requires old { is_assigned old.now code ≡ true }
    requires new { is_assigned new.now code ≡ true }
    requires class { class_of new.now code ≡ class_of old.now code }
    ensures { result ≡ break_of old.now new.now code }
{
    if !maps_alike(old, new, code) {
        return Some(BreakKind::MappingChanged);
    }
    if old.is_primary(code) {
        if new.is_primary(code) {
            return None;
        }
        return Some(BreakKind::NowExcluded);
    }
    if joins_old_parts(old, new, code) {
        return Some(BreakKind::NowIncluded);
    }
    None
}

/// The break of a code point, if it has one.
pub(crate) fn break_at(old: &Version, new: &Version, code: u32) -> Option<BreakKind>
    ensures { result ≡ break_of old.now new.now code }
{
    if old.assigned_code(code) {
        return break_of_assigned(old, new, code);
    }
    if joins_old_parts(old, new, code) {
        return Some(BreakKind::NewComposite);
    }
    None
}

/// The breaks of a new version against an old one: each code point that has one, once, in order,
/// with its least kind. There is none exactly where the new version extends the old one.
///
/// # Errors
/// `Memory` where the list of the breaks could not grow.
pub fn audit(alloc: Global, old: &Version, new: &Version) -> Result<Vec<Break>, Memory>
    ensures breaks { IfOk result (λ breaks. AreBreaks old.now new.now breaks.items) }
    ensures value { IfOk result (λ breaks. breaks.items ≡ breaks_of old.now new.now) }
    ensures none { IfOk result (λ breaks. (breaks.items ≡ []) ↔ Extends old.now new.now) }
{
    old.meets_conditions();
    new.meets_conditions();
    let mut breaks = Vec::new(alloc);
    if is_kept_by_rows(old, new) {
        return Ok(breaks);
    }
    for code in 0..CODE_POINTS {
        if let Some(kind) = break_at(old, new, code) {
            breaks.push(Break { kind, code })?;
        }
    }
    Ok(breaks)
}

/// Answers `Ok` exactly where a new version extends an old one: what the old one assigns stands in
/// the new one with the same class, kind of mapping and mapping, and of the code points whose parts
/// the old one assigns the same are primary composites.
///
/// # Errors
/// Else the break of the least code point that has one, the first that `audit` tells.
pub fn extends(old: &Version, new: &Version) -> Result<(), Break>
    ensures extends { IsOk result ↔ Extends old.now new.now }
    ensures first { IfErr result (λ first. IsFirstBreak old.now new.now first) }
{
    old.meets_conditions();
    new.meets_conditions();
    if is_kept_by_rows(old, new) {
        return Ok(());
    }
    for code in 0..CODE_POINTS {
        if let Some(kind) = break_at(old, new, code) {
            return Err(Break { kind, code });
        }
    }
    Ok(())
}
