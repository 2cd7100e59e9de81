//! Audits of versions with their foldings.
use crate::audit_rows::AUDITS;
use crate::folding_files::{CHANGED_FOLDING, V1_FOLDING, V2_FOLDING};
use np_caseless::{FoldedTable, audit, extends};
use np_code_points::watched::Watched;
use np_examples_shared::{Files, Made, V1, V2, table_of, want};
use np_foldings::read_foldings;
use np_tables::{PageTable, RowTable};
use std::alloc::Global;
use std::test::Fail;

/// The data, the exclusions and the foldings of a folder of the fixtures.
fn files_of(folder: &str) -> (Files<'static>, &'static str) {
    match folder {
        "v1" => (V1, V1_FOLDING),
        "v2" => (V2, V2_FOLDING),
        _ => (V2, CHANGED_FOLDING),
    }
}

/// A table with the foldings of a file.
fn folded<'t, T: Made>(
    alloc: Global,
    table: &'t T,
    folding: &str,
) -> Result<FoldedTable<&'t T>, Fail> {
    let foldings = read_foldings(alloc, &mut Watched::new(folding.as_bytes()))?;
    Ok(FoldedTable::build(alloc, table, foldings, &[])?)
}

/// The breaks, one behind the other; `extends` where there is none.
fn told_of<T: Made>(
    alloc: Global,
    old: &FoldedTable<&T>,
    new: &FoldedTable<&T>,
) -> Result<String, Fail> {
    let mut told = String::new(alloc);
    for brk in &audit(alloc, old, new)? {
        if !told.is_empty() {
            told.push_str(", ")?;
        }
        told.push_str(format!(in alloc; "{brk}")?.as_str())?;
    }
    if told.is_empty() {
        told.push_str("extends")?;
    }
    Ok(told)
}

/// The first break, or `extends`.
fn first_of<T: Made>(
    alloc: Global,
    old: &FoldedTable<&T>,
    new: &FoldedTable<&T>,
) -> Result<String, Fail> {
    match extends(old, new) {
        Ok(()) => Ok(format!(in alloc; "extends")?),
        Err(brk) => Ok(format!(in alloc; "{brk}")?),
    }
}

/// Fails unless this is told of the versions of two tables.
fn want_told_of<T: Made>(
    alloc: Global,
    old: (&T, &str),
    new: (&T, &str),
    told: &str,
) -> Result<(), Fail> {
    let old = folded(alloc, old.0, old.1)?;
    let new = folded(alloc, new.0, new.1)?;
    want(told_of(alloc, &old, &new)?.as_str() == told, told)?;
    let first = first_of(alloc, &old, &new)?;
    want(told.starts_with(first.as_str()), "the first of them")
}

/// Fails unless a row of the fixtures is told.
fn want_audit<T: Made>(alloc: Global, row: usize) -> Result<(), Fail> {
    let Some((old, new, told)) = AUDITS.get(row) else {
        return want(false, "there is such a row");
    };
    let earlier = files_of(old);
    let later = files_of(new);
    let old: T = table_of(alloc, earlier.0)?;
    let new: T = table_of(alloc, later.0)?;
    want_told_of(alloc, (&old, earlier.1), (&new, later.1), told)
}

#[test]
fn a_version_extends_itself(rt: HostRuntime) -> Result<(), Fail> {
    want_audit::<RowTable>(rt.alloc(), 0)
}

#[test]
fn what_is_new_may_fold(rt: HostRuntime) -> Result<(), Fail> {
    want_audit::<PageTable>(rt.alloc(), 1)
}

#[test]
fn foldings_that_changed_went_or_came_are_told(rt: HostRuntime) -> Result<(), Fail> {
    want_audit::<PageTable>(rt.alloc(), 2)
}

#[test]
fn what_was_lost_is_told_and_its_folding_is_not(rt: HostRuntime) -> Result<(), Fail> {
    want_audit::<RowTable>(rt.alloc(), 3)
}

#[test]
fn a_second_version_extends_itself(rt: HostRuntime) -> Result<(), Fail> {
    want_audit::<RowTable>(rt.alloc(), 4)
}

#[test]
fn foldings_alone_may_change(rt: HostRuntime) -> Result<(), Fail> {
    want_audit::<RowTable>(rt.alloc(), 5)
}

#[test]
fn breaks_of_both_are_told_in_order(rt: HostRuntime) -> Result<(), Fail> {
    want_audit::<PageTable>(rt.alloc(), 6)
}

#[test]
fn foldings_that_change_back_are_told(rt: HostRuntime) -> Result<(), Fail> {
    want_audit::<RowTable>(rt.alloc(), 7)
}

#[test]
fn changed_foldings_extend_themselves(rt: HostRuntime) -> Result<(), Fail> {
    want_audit::<RowTable>(rt.alloc(), 8)
}
