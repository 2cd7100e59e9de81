//! Code points whose folding changes from a version to a later one.
ghost use Rattle.std.specs.Prelude.{◌≡◌, ℕ, true};
ghost use Rattle.np_caseless.specs.inside.FoldingChanges.{changes_folding as changes, IsChangedAmong};
ghost use Rattle.np_versions.specs.inside.FirstFaults.{IsFirst};

use crate::folded_tables::FoldedTable;
use crate::leasts::least;
use crate::quiet::{code_at, folding_of};
use np_foldings::Foldings;
use np_versions::NormTable;

/// Whether a code point is assigned in both versions, with unlike foldings.
pub(crate) fn changes_folding<T: NormTable + Drop>(
    old: &FoldedTable<T>,
    new: &FoldedTable<T>,
    code: u32,
) -> bool
    ensures { result ≡ changes old.now new.now code }
{
    old.meets_conditions();
    new.meets_conditions();
    let Some(scalar) = char::from_u32(code) else {
        return false;
    };
    if !old.table().assigned(scalar) {
        return false;
    }
    if !new.table().assigned(scalar) {
        return false;
    }
    if folding_of(new.foldings(), &scalar) == folding_of(old.foldings(), &scalar) {
        return false;
    }
    true
}

/// The least code point among these that are listed to fold whose folding changes.
fn first_changed_among<T: NormTable + Drop>(
    old: &FoldedTable<T>,
    new: &FoldedTable<T>,
    listed: &Foldings,
) -> Option<u32>
    ensures { IsFirst (IsChangedAmong old.now new.now listed.now) result }
{
    let mut first: Option<u32> = None;
    for at in 0..listed.len() {
        if let Some(code) = code_at(listed, at) {
            if changes_folding(old, new, code) {
                first = least(first, code);
            }
        }
    }
    first
}

/// The least code point whose folding changes.
pub(crate) fn first_changed<T: NormTable + Drop>(
    old: &FoldedTable<T>,
    new: &FoldedTable<T>,
) -> Option<u32>
    ensures { IsFirst (λ (c : ℕ). changes old.now new.now c ≡ true) result }
{
    let of_new = first_changed_among(old, new, new.foldings());
    match first_changed_among(old, new, old.foldings()) {
        Some(code) => least(of_new, code),
        None => of_new,
    }
}
