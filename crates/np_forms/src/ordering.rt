//! Canonical ordering (The Unicode Standard, D109).
ghost use Rattle.std.specs.Prelude.{◌≡◌, ◌≤◌, ◌<◌, ◌⊎◌, ◌++◌, ℕ, List, true, length, take, drop, slice_index, IsTrue, IfOk, OnOk, OnErr};
ghost use Rattle.std.specs.List.{list_all};
ghost use Rattle.np_forms.specs.Starters.{is_non_starter};
ghost use Rattle.np_forms.specs.Order.{is_ordered};
ghost use Rattle.np_forms.specs.inside.CanonicalOrder.{canonical_order};
ghost use Rattle.np_forms.specs.inside.Classes.{IsOrderedOn, with_classes};
ghost use Rattle.np_versions.specs.Versions.{VersionData, class_of};

use crate::classes::Classed;
use std::alloc::{AllocError, Global};

/// Whether a code point of this class may stand behind one of the class `last` in canonical order.
#[inline(always)]
pub(crate) fn may_follow(last: u8, class: u8) -> bool
    ensures { IsTrue result → (class ≡ 0) ⊎ (last ≤ class) }
{
    class == 0 || last <= class
}

/// The non-starters at the front of a list.
#[derive(Clone, Copy)]
struct NonStarters {
    count: usize,
    /// Whether they are in canonical order already.
    ordered: bool,
}

/// The non-starters at the front of a list.
fn non_starters_at_front(list: &[Classed]) -> NonStarters
    ensures bound { result.count ≤ length list.now }
    ensures non_starters { (v : VersionData) (cs : List ℕ) → list.now ≡ with_classes v cs → list_all (is_non_starter v) (take result.count cs) ≡ true }
    ensures starter { (v : VersionData) (cs : List ℕ) → list.now ≡ with_classes v cs
        → result.count < length cs → class_of v (slice_index cs result.count) ≡ 0 }
    ensures ordered { (v : VersionData) (cs : List ℕ) → list.now ≡ with_classes v cs → result.ordered ≡ true →
        is_ordered (class_of v) (take result.count cs) ≡ true }
{
    let mut last = 0;
    let mut ordered = true;
    for (i, c) in list.iter().enumerate() {
        let class = c.class();
        if class == 0 {
            return NonStarters { count: i, ordered };
        }
        if class < last {
            ordered = false;
        }
        last = class;
    }
    NonStarters {
        count: list.len(),
        ordered,
    }
}

/// Whether a list holds non-starters alone.
pub(crate) fn are_non_starters(list: &[Classed]) -> bool
    ensures { (v : VersionData) (cs : List ℕ) → list.now ≡ with_classes v cs → result ≡ true → list_all (is_non_starter v) cs ≡ true }
{
    non_starters_at_front(list).count == list.len()
}

/// Puts a run of non-starters in canonical order, by a stable sort: those of equal class keep their order (D109).
pub(crate) fn sort_non_starters(
    alloc: Global,
    non_starters: &mut [Classed],
) -> Result<(), AllocError>
    ensures ok { OnOk result ((v : VersionData) (cs : List ℕ) → list_all (is_non_starter v) cs ≡ true
        → non_starters.old ≡ with_classes v cs → non_starters.new ≡ with_classes v (canonical_order (class_of v) cs)) }
    ensures err { OnErr result (non_starters.new ≡ non_starters.old) }
{
    non_starters.sort_by_key(alloc, |c| c.class())
}

/// Puts the run of non-starters that begins at `at` in canonical order, and answers the place
/// behind the starter that ends it. Memory is taken only where the run is not in order.
fn order_run(alloc: Global, list: &mut [Classed], at: usize) -> Result<usize, AllocError>
    requires { at < length list.old }
    ensures next { IfOk result (λ next. at < next) }
    ensures ordered { IfOk result (λ next. (v : VersionData) (cs : List ℕ) → list.old ≡ with_classes v cs → IsOrderedOn v cs at next list.new) }
{
    let NonStarters { count, ordered } = non_starters_at_front(&list[at..]);
    if !ordered {
        sort_non_starters(alloc, &mut list[at..at + count])?;
    }
    Ok(at + count + 1)
}

/// Whether a list is in canonical order, as most are.
#[inline(always)]
fn is_in_order(list: &[Classed]) -> bool
    ensures { result ≡ true → (v : VersionData) (cs : List ℕ) → list.now ≡ with_classes v cs → is_ordered (class_of v) cs ≡ true }
{
    let mut last = 0;
    for c in list {
        let class = c.class();
        if !may_follow(last, class) {
            return false;
        }
        last = class;
    }
    true
}

/// Puts a list in canonical order, run by run.
pub(crate) fn order(alloc: Global, list: &mut [Classed]) -> Result<(), AllocError>
    ensures { OnOk result ((v : VersionData) (cs : List ℕ) → list.old ≡ with_classes v cs → list.new ≡ with_classes v (canonical_order (class_of v) cs)) }
{
    if is_in_order(list) {
        return Ok(());
    }
    let mut at = 0;
    'runs: while at < list.len() {
        at = order_run(alloc, list, at)?;
    }
    Ok(())
}
