//! Whether a version with its foldings extends another.
ghost use Rattle.std.specs.Prelude.{◌≡◌, None, Some, IfSome};
ghost use Rattle.np_caseless.specs.Breaks.{number_of};
ghost use Rattle.np_c.specs.FoldingExtension.{told_folded_break, unfolded_of_two, IsFoldedExtensionAnswer};
ghost use Rattle.np_c.specs.Foldings.{folded_shared};

use crate::answers::{Answer, DIFFERENT, DONE};
use crate::comparing::kind_number;
use crate::shared::Shared;
use np_caseless::{FoldedBreak, FoldedBreakKind, FoldedTable, extends};
use np_versions::NormTable;

/// The number of a kind of break.
fn folded_kind_number(kind: FoldedBreakKind) -> u32
    ensures { result ≡ number_of kind }
{
    match kind {
        FoldedBreakKind::OfVersion(kind) => kind_number(kind),
        FoldedBreakKind::FoldingChanged => 7,
    }
}

/// The answer that tells a break.
fn of_folded_break(first: FoldedBreak) -> Answer
    ensures { result ≡ told_folded_break first }
{
    Answer {
        fault: folded_kind_number(first.kind),
        code: first.code,
        ..Answer::of(DIFFERENT)
    }
}

/// Whether a version with its foldings extends an older one with its own, and its first break where it doesn't.
fn tell_extension<T: NormTable + Drop>(old: &FoldedTable<T>, new: &FoldedTable<T>) -> Answer
    ensures { IsFoldedExtensionAnswer old.now new.now result }
{
    match extends(old, new) {
        Ok(()) => Answer::of(DONE),
        Err(first) => of_folded_break(first),
    }
}

/// The same of two tables, which may have no foldings.
pub fn tell_folded_extension(old: &Shared, new: &Shared) -> Answer
    ensures told { IfSome (folded_shared (Some old.now)) (λ o. IfSome (folded_shared (Some new.now)) (λ n. IsFoldedExtensionAnswer o n result)) }
    ensures older_unfolded { folded_shared (Some old.now) ≡ None → result ≡ unfolded_of_two 1 }
    ensures newer_unfolded { IfSome (folded_shared (Some old.now)) (λ o. folded_shared (Some new.now) ≡ None → result ≡ unfolded_of_two 2) }
{
    let older = match old.with_foldings() {
        Ok(folded) => folded,
        Err(answer) => return Answer { fault: 1, ..answer },
    };
    let newer = match new.with_foldings() {
        Ok(folded) => folded,
        Err(answer) => return Answer { fault: 2, ..answer },
    };
    tell_extension(older, newer)
}
