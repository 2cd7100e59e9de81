//! The faults of one code point.
ghost use Rattle.std.specs.Prelude.{◌≡◌, ◌↔◌, false, IfOk, IsTrue, MatchOption};
ghost use Rattle.std.specs.List.{list_all};
ghost use Rattle.np_caseless.specs.Faults.{IsFoldedTooLong};
ghost use Rattle.np_caseless.specs.Folded.{folded_by, is_quiet as quiet};
ghost use Rattle.np_caseless.specs.inside.FirstFaults.{FoldsWell, IsFaultAt, IsFine, IsFirstOf, IsQuietHere};
ghost use Rattle.np_versions.specs.Versions.{is_assigned};

use crate::faults::ConditionFault;
use crate::folded_again::folds_again;
use crate::keys::caseless_form;
use crate::own_images::is_own;
use crate::quick_images::{folded_image, likely_image, quick_parts};
use crate::quiet::{folding_of, is_quiet};
use np_code_points::hangul::is_syllable;
use np_code_points::text::{chars_of, string_of};
use np_code_points::{Form, Memory};
use np_foldings::Foldings;
use np_versions::NormTable;
use std::alloc::Global;
use std::slice;

/// How many code points a caseless form of one may have.
const MOST: usize = 64;

/// Whether all of these code points are assigned.
fn are_assigned<T: NormTable>(table: &T, codes: &[char]) -> bool
    ensures { result ≡ list_all (is_assigned (T.model table.now)) codes.now }
{
    for code in codes {
        if !table.assigned(*code) {
            return false;
        }
    }
    true
}

/// The fault of a code point that folds, of those that only such a one can have.
fn folding_fault<T: NormTable>(
    alloc: Global,
    table: &T,
    foldings: &Foldings,
    code: char,
) -> Result<Option<ConditionFault>, Memory>
    requires { quiet foldings.now code ≡ false }
    ensures { IfOk result (λ fault. MatchOption fault
        (FoldsWell (folded_by (T.model table.now) foldings.now) code)
        (IsFaultAt (folded_by (T.model table.now) foldings.now) code)) }
{
    let at = u32::from(code);
    if !table.assigned(code) {
        return Ok(Some(ConditionFault::FoldsUnassigned { code: at }));
    }
    if !are_assigned(table, folding_of(foldings, &code)) {
        return Ok(Some(ConditionFault::FoldsToUnassigned { code: at }));
    }
    if folds_again(alloc, table, foldings, code)? {
        return Ok(Some(ConditionFault::FoldsAgain { code: at }));
    }
    Ok(None)
}

/// Whether the caseless NFKD form of a code point is known not to be too long, since it is its NFKD form.
fn is_own_short<T: NormTable>(table: &T, foldings: &Foldings, code: char) -> bool
    ensures { IsTrue result → ¬ (IsFoldedTooLong (folded_by (T.model table.now) foldings.now) code) }
{
    table.meets_conditions();
    if table.hangul() && is_syllable(u32::from(code)) {
        return false;
    }
    is_own(table, foldings, true, code)
}

/// Whether what a code point folds to is known to stand in its place, and its caseless NFKD form is then not too long.
fn is_folded_short<T: NormTable>(table: &T, foldings: &Foldings, code: char) -> bool
    ensures { IsTrue result → ¬ (IsFoldedTooLong (folded_by (T.model table.now) foldings.now) code) }
{
    table.meets_conditions();
    match folded_image(table, foldings, true, &code) {
        Some((_images, parts)) => parts.len() <= MOST,
        None => false,
    }
}

/// Whether code points are known to stand in place of one, whose caseless NFKD form is then not too long.
fn is_short_by<T: NormTable>(table: &T, foldings: &Foldings, code: char, images: &[char]) -> bool
    ensures { IsTrue result → ¬ (IsFoldedTooLong (folded_by (T.model table.now) foldings.now) code) }
{
    table.meets_conditions();
    match quick_parts(table, foldings, true, code, images) {
        Some(parts) => parts.len() <= MOST,
        None => false,
    }
}

/// Whether the caseless NFKD form of a code point is known not to be too long, since it is the NFKD form of its image.
fn is_image_short<T: NormTable>(
    alloc: Global,
    table: &T,
    foldings: &Foldings,
    code: char,
) -> Result<bool, Memory>
    ensures { IfOk result (λ is. IsTrue is → ¬ (IsFoldedTooLong (folded_by (T.model table.now) foldings.now) code)) }
{
    let likely = likely_image(alloc, table, foldings, true, code)?;
    Ok(is_short_by(table, foldings, code, likely.as_slice()))
}

/// Whether the caseless NFKD form of a code point is known not to be too long.
fn is_known_short<T: NormTable>(
    alloc: Global,
    table: &T,
    foldings: &Foldings,
    code: char,
) -> Result<bool, Memory>
    ensures { IfOk result (λ is. IsTrue is → ¬ (IsFoldedTooLong (folded_by (T.model table.now) foldings.now) code)) }
{
    if !is_quiet(foldings, code) {
        return Ok(is_folded_short(table, foldings, code));
    }
    if is_own_short(table, foldings, code) {
        return Ok(true);
    }
    is_image_short(alloc, table, foldings, code)
}

/// Whether the caseless NFKD form of a code point is too long.
fn is_too_long<T: NormTable>(
    alloc: Global,
    table: &T,
    foldings: &Foldings,
    code: char,
) -> Result<bool, Memory>
    ensures { IfOk result (λ long. IsTrue long ↔ IsFoldedTooLong (folded_by (T.model table.now) foldings.now) code) }
{
    table.meets_conditions();
    if is_known_short(alloc, table, foldings, code)? {
        return Ok(false);
    }
    let text = string_of(alloc, slice::from_ref(&code))?;
    let form = caseless_form(alloc, table, foldings, Form::Nfkd, text.as_str())?;
    let codes = chars_of(alloc, form.as_str())?;
    Ok(codes.len() > MOST)
}

/// The fault of a code point that is no surrogate, but for its lowercase.
fn fault_of<T: NormTable>(
    alloc: Global,
    table: &T,
    foldings: &Foldings,
    code: char,
) -> Result<Option<ConditionFault>, Memory>
    ensures { IfOk result (λ fault. MatchOption fault
        (IsFine (folded_by (T.model table.now) foldings.now) code)
        (IsFaultAt (folded_by (T.model table.now) foldings.now) code)) }
{
    if !is_quiet(foldings, code) {
        if let Some(fault) = folding_fault(alloc, table, foldings, code)? {
            return Ok(Some(fault));
        }
    }
    if is_too_long(alloc, table, foldings, code)? {
        return Ok(Some(ConditionFault::FoldedTooLong {
            code: u32::from(code),
        }));
    }
    Ok(None)
}

/// The fault of a code point that folds to itself alone, but for its lowercase. One that folds has none here.
pub(crate) fn quiet_fault<T: NormTable>(
    alloc: Global,
    table: &T,
    foldings: &Foldings,
    code: char,
) -> Result<Option<ConditionFault>, Memory>
    ensures { IfOk result (IsFirstOf (folded_by (T.model table.now) foldings.now) (IsQuietHere foldings.now code)) }
{
    if !is_quiet(foldings, code) {
        return Ok(None);
    }
    if is_too_long(alloc, table, foldings, code)? {
        return Ok(Some(ConditionFault::FoldedTooLong {
            code: u32::from(code),
        }));
    }
    Ok(None)
}

/// The fault of a code point, but for its lowercase. A surrogate has none.
pub(crate) fn fault_at<T: NormTable>(
    alloc: Global,
    table: &T,
    foldings: &Foldings,
    code: u32,
) -> Result<Option<ConditionFault>, Memory>
    ensures { IfOk result (λ fault. MatchOption fault
        (IsFine (folded_by (T.model table.now) foldings.now) code)
        (IsFaultAt (folded_by (T.model table.now) foldings.now) code)) }
{
    table.meets_conditions();
    foldings.are_in_order();
    match char::from_u32(code) {
        Some(scalar) => fault_of(alloc, table, foldings, scalar),
        None => Ok(None),
    }
}
