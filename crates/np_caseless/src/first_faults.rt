//! The fault that is told of a version with its foldings. Only what folds or has a mapping can have one: so what is listed to
//! fold, what has a mapping in the file and the syllables are looked at, and not each code point.
ghost use Rattle.std.specs.Prelude.{◌≡◌, ℕ, length, IfOk, MatchOption};
ghost use Rattle.np_caseless.specs.ConditionFaults.{IsFaultless, IsLeastFault};
ghost use Rattle.np_caseless.specs.Folded.{folded_by};
ghost use Rattle.np_caseless.specs.inside.FirstFaults.{AreMapped, Below, IsFirstOf, IsFoldingAt, IsOfArithmetic, IsQuietCodeAt, lowercase_fault};

use crate::faults::{ConditionFault, sooner};
use crate::folding_faults::{fault_at, quiet_fault};
use crate::not_folded::first_not_folded;
use crate::quiet::code_at;
use crate::quiet_hangul::is_hangul_quiet;
use np_code_points::Memory;
use np_code_points::hangul::{S_BASE, S_COUNT};
use np_foldings::{Foldings, Lowercase};
use np_versions::NormTable;
use std::alloc::Global;

/// The fault of the code point whose folding is listed at a place.
fn fault_of_folding<T: NormTable>(
    alloc: Global,
    table: &T,
    foldings: &Foldings,
    at: usize,
) -> Result<Option<ConditionFault>, Memory>
    ensures { IfOk result (IsFirstOf (folded_by (T.model table.now) foldings.now) (IsFoldingAt foldings.now at)) }
{
    match code_at(foldings, at) {
        Some(code) => fault_at(alloc, table, foldings, code),
        None => Ok(None),
    }
}

/// The first fault of the code points whose folding is listed.
fn first_of_foldings<T: NormTable>(
    alloc: Global,
    table: &T,
    foldings: &Foldings,
) -> Result<Option<ConditionFault>, Memory>
    ensures { IfOk result (IsFirstOf (folded_by (T.model table.now) foldings.now) (Below (IsFoldingAt foldings.now) (length foldings.now))) }
{
    let mut first: Option<ConditionFault> = None;
    for at in 0..foldings.len() {
        let fault = fault_of_folding(alloc, table, foldings, at)?;
        first = sooner(first, fault);
    }
    Ok(first)
}

/// The first fault of the code points that have a mapping in the file. What folds was looked at before.
fn first_of_mapped<T: NormTable>(
    alloc: Global,
    table: &T,
    foldings: &Foldings,
    mapped: &[char],
) -> Result<Option<ConditionFault>, Memory>
    ensures { IfOk result (IsFirstOf (folded_by (T.model table.now) foldings.now)
        (Below (IsQuietCodeAt (folded_by (T.model table.now) foldings.now) mapped.now) (length mapped.now))) }
{
    let mut first: Option<ConditionFault> = None;
    for code in mapped {
        let fault = quiet_fault(alloc, table, foldings, *code)?;
        first = sooner(first, fault);
    }
    Ok(first)
}

/// The first fault of the Hangul syllables, where their arithmetic is on.
fn first_of_syllables<T: NormTable>(
    alloc: Global,
    table: &T,
    foldings: &Foldings,
) -> Result<Option<ConditionFault>, Memory>
    ensures { IfOk result (IsFirstOf (folded_by (T.model table.now) foldings.now) (IsOfArithmetic (folded_by (T.model table.now) foldings.now))) }
{
    table.meets_conditions();
    let mut first: Option<ConditionFault> = None;
    if !table.hangul() || is_hangul_quiet(foldings) {
        return Ok(first);
    }
    for at in 0..S_COUNT {
        let fault = fault_at(alloc, table, foldings, S_BASE + at)?;
        first = sooner(first, fault);
    }
    Ok(first)
}

/// The first fault, but for those of lowercases, where all code points that have a mapping in the file are listed.
fn first_of_all<T: NormTable>(
    alloc: Global,
    table: &T,
    foldings: &Foldings,
    mapped: &[char],
) -> Result<Option<ConditionFault>, Memory>
    ensures { IfOk result (λ fault. AreMapped (T.model table.now) mapped.now
        → IsFirstOf (folded_by (T.model table.now) foldings.now) (λ (c : ℕ). Unit {0}) fault) }
{
    table.meets_conditions();
    foldings.are_in_order();
    let of_foldings = first_of_foldings(alloc, table, foldings)?;
    let of_rows = first_of_mapped(alloc, table, foldings, mapped)?;
    let of_syllables = first_of_syllables(alloc, table, foldings)?;
    Ok(sooner(sooner(of_foldings, of_rows), of_syllables))
}

/// The fault of a code point whose lowercase lacks a folding, where there is one.
fn of_lowercase(not_folded: Option<u32>) -> Option<ConditionFault>
    ensures { result ≡ lowercase_fault not_folded }
{
    match not_folded {
        Some(code) => Some(ConditionFault::NotFolded { code }),
        None => None,
    }
}

/// The fault at the least code point, and of those there the one with the least number, where all code points that have a mapping
/// in the file are listed.
pub(crate) fn first_fault<T: NormTable>(
    alloc: Global,
    table: &T,
    foldings: &Foldings,
    lowercases: &[Lowercase],
    mapped: &[char],
) -> Result<Option<ConditionFault>, Memory>
    ensures { IfOk result (λ fault. AreMapped (T.model table.now) mapped.now → MatchOption fault
        (IsFaultless (folded_by (T.model table.now) foldings.now) lowercases.now)
        (IsLeastFault (folded_by (T.model table.now) foldings.now) lowercases.now)) }
{
    let fault = first_of_all(alloc, table, foldings, mapped)?;
    let not_folded = first_not_folded(table.version(), foldings, lowercases);
    Ok(sooner(fault, of_lowercase(not_folded)))
}
