//! The quick check of a code point under each form, in one byte: properties are told by several branches that
//! can't be foretold in texts with non-starters, a byte by one.
//!
//! | Bits | 31 to 24 | 23 to 16 | 15 to 8 | 7 to 0 |
//! |---|---|---|---|---|
//! | Form | NFKC | NFKD | NFC | NFD |
//!
//! | Quick check | What the code point is |
//! |---|---|
//! | 255 | a starter that passes; a code point of any class may follow |
//! | 1 to 254 | a non-starter of this class without a mapping, which never composes backward where the form composes |
//! | 1 | one that is not assigned too, which passes |
//! | 0 | none of these: its properties tell more |
ghost use Rattle.std.specs.Prelude.{◌≡◌, ◌/◌, ◌%◌, ◌^◌, ◌<◌, length, slice_index_or, IfOk, IsTrue};
ghost use Rattle.np_tables.specs.inside.PageHints.{has_bit as spec_has_bit, yes_place as spec_yes_place};
ghost use Rattle.np_tables.specs.inside.PageProperties.{IsAsciiYes};
ghost use Rattle.np_versions.specs.inside.Pages.{AreWithin, property_place};
ghost use Rattle.np_tables.specs.inside.QuickChecks.{all_quick_checks as spec_all_quick_checks, assigned_quick_check as spec_assigned_quick_check, least_quick_check as spec_least_quick_check, low_behind as spec_low_behind, quick_check_of as spec_quick_check_of, quick_check_place as spec_quick_check_place, quick_checks_of as spec_quick_checks_of};

use crate::page_hints::yes_place;
use crate::page_properties::{Properties, place_in};
use crate::property_bits::has_bit;
use np_code_points::{Form, Memory};
use std::alloc::Global;

/// The quick check of a starter that passes: a code point of any class may follow. All classes are less.
pub(crate) const YES: u8 = 255;

/// The quick check of what is not assigned, which passes, below all else; the non-starters of class 1 have it too.
const UNASSIGNED: u8 = 1;

/// Of what passes under every form.
pub(crate) const ALL_YES: u32 = 0xFFFF_FFFF;

/// Whether the code point is a starter that passes the quick check of a form.
fn is_yes(form: Form, properties: Properties) -> bool
    ensures { result ≡ spec_has_bit properties.hints (spec_yes_place form) }
{
    has_bit(properties.hints, yes_place(form))
}

/// The quick check of an assigned code point's properties under a form: `YES`, the class of a non-starter that may
/// pass, or 0.
#[tactic(auto, unfolding(crate::specs::inside::QuickChecks::assigned_quick_check))]
fn assigned_quick_check(form: Form, properties: Properties) -> u8
    ensures { result ≡ spec_assigned_quick_check form properties }
{
    if is_yes(form, properties) {
        return YES;
    }
    let inert = properties.class < YES
        && properties.fulls == 0
        && (properties.never_second || !form.composes());
    if inert { properties.class } else { 0 }
}

/// The quick check of properties under a form.
#[tactic(auto, unfolding(crate::specs::inside::QuickChecks::quick_check_of))]
fn quick_check_of(form: Form, properties: Properties) -> u8
    ensures { result ≡ spec_quick_check_of form properties }
{
    if properties.assigned {
        return assigned_quick_check(form, properties);
    }
    if is_yes(form, properties) {
        UNASSIGNED
    } else {
        0
    }
}

/// The quick checks of properties under all forms.
#[tactic(auto, unfolding(crate::specs::inside::QuickChecks::quick_checks_of))]
fn quick_checks_of(properties: Properties) -> u32
    ensures { result ≡ spec_quick_checks_of properties }
{
    // most code points pass under all
    if properties.assigned && properties.hints == 255 {
        return ALL_YES;
    }
    u32::from(quick_check_of(Form::Nfd, properties))
        + u32::from(quick_check_of(Form::Nfc, properties)) * 0x100
        + u32::from(quick_check_of(Form::Nfkd, properties)) * 0x1_0000
        + u32::from(quick_check_of(Form::Nfkc, properties)) * 0x100_0000
}

/// The quick checks of all properties.
pub(crate) fn all_quick_checks(
    alloc: Global,
    all_properties: &[Properties],
) -> Result<Vec<u32>, Memory>
    ensures { IfOk result (λ quick_checks. quick_checks.items ≡ spec_all_quick_checks all_properties.now) }
{
    let mut quick_checks = Vec::with_capacity(alloc, all_properties.len())?;
    for properties in all_properties {
        quick_checks.push(quick_checks_of(*properties))?;
    }
    Ok(quick_checks)
}

/// How many bits are before those of a form.
pub(crate) fn quick_check_place(form: Form) -> u32
    ensures place { result ≡ spec_quick_check_place form }
    ensures bound { result < 32 }
{
    match form {
        Form::Nfd => 0,
        Form::Nfc => 8,
        Form::Nfkd => 16,
        Form::Nfkc => 24,
    }
}

/// The quick checks of a code point.
#[inline(always)]
fn quick_checks_at(blocks: &[u16], quick_checks: &[u32], c: char) -> u32
    requires { AreWithin 4352 blocks.now (length quick_checks.now) }
    ensures { result ≡ slice_index_or quick_checks.now (property_place blocks.now c) 0 }
{
    quick_checks[place_in(blocks, c)]
}

/// The quick check of a code point under the form whose bits are behind so many others.
#[inline(always)]
pub(crate) fn quick_check_at(blocks: &[u16], quick_checks: &[u32], place: u32, c: char) -> u8
    requires within { AreWithin 4352 blocks.now (length quick_checks.now) }
    requires place { place < 32 }
    ensures quick_check { result ≡ slice_index_or quick_checks.now (property_place blocks.now c) 0 / 2 ^ place % 256 }
    ensures scalar { c < 0x110000 }
{
    ((quick_checks_at(blocks, quick_checks, c) >> place) % 256) as u8
}

/// The least quick check of a code point that may pass: of any, or of an assigned one.
#[inline(always)]
pub(crate) fn least_quick_check(assigned: bool) -> u8
    ensures { result ≡ spec_least_quick_check assigned }
{
    if assigned { UNASSIGNED + 1 } else { 1 }
}

/// The least quick check that may follow a code point of this one.
#[inline(always)]
pub(crate) fn low_behind(least: u8, quick_check: u8) -> u8
    ensures { result ≡ spec_low_behind least quick_check }
{
    if quick_check == YES {
        least
    } else {
        quick_check
    }
}

/// Whether all ASCII passes under every form.
pub(crate) fn is_ascii_yes(blocks: &[u16], quick_checks: &[u32]) -> bool
    requires { AreWithin 4352 blocks.now (length quick_checks.now) }
    ensures { IsTrue result → IsAsciiYes blocks.now quick_checks.now }
{
    for code in 0..128u8 {
        if quick_checks_at(blocks, quick_checks, char::from(code)) != ALL_YES {
            return false;
        }
    }
    true
}
