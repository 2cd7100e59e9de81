//! What a stream holds back, and what became ready.
ghost use Rattle.std.specs.Prelude.{◌≡◌, ◌++◌, ◌∷◌, [], ℕ, List, true, None, Some, IfNone, IfSome, IfOk, OnOk};
ghost use Rattle.np_forms.specs.inside.CanonicalOrder.{canonical_order};
ghost use Rattle.np_forms.specs.inside.Classes.{AreClassed, codes_of, with_class as spec_with_class, with_classes};
ghost use Rattle.np_forms.specs.inside.Held.{Advances, IsFrontHeld};
ghost use Rattle.np_forms.specs.inside.NormalForms.{ended};
ghost use Rattle.np_versions.specs.Conditions.{IsSound};
ghost use Rattle.np_versions.specs.Versions.{class_of};
ghost use Rattle.np_versions.specs.inside.CompositeSearch.{composite};

use crate::classes::{Classed, push_codes, with_class};
use crate::composing::compose;
use crate::decomposing::is_own;
use crate::lookups::composite_of;
use crate::ordering::order;
use np_code_points::Memory;
use np_versions::NormTable;
use std::alloc::Global;
use std::mem::replace;

/// What became ready, and behind it what is held back: the last starter, which may be a composite
/// already, and the non-starters after it, as they came.
#[derive(Drop)]
pub(crate) struct Held {
    pub(crate) ready: Vec<char>,
    pub(crate) pending: Vec<Classed>,
}

/// Holds back the non-starters at the front of a text that are their own full decompositions, as most of a
/// long run are, and answers what follows them.
pub(crate) fn hold_front<'a, T: NormTable>(
    table: &T,
    compat: bool,
    text: &'a str,
    pending: &mut Vec<Classed>,
) -> Result<&'a str, Memory>
    requires { IsSound (T.model table.now) }
    ensures front { IfOk result (λ rest. IsFrontHeld (T.model table.now) compat text.now rest.now pending.old.items pending.new.items) }
    ensures held { (front : List ℕ) × (pending.new.items ≡ pending.old.items ++ with_classes (T.model table.now) front) }
{
    let mut iter = text.chars();
    'scan: loop {
        let here = iter.as_str();
        let Some(c) = iter.next() else {
            return Ok(here);
        };
        let class = table.class(c);
        if class == 0 || !is_own(table, compat, c) {
            return Ok(here);
        }
        pending.push(Classed::new(c, class))?;
    }
}

/// Puts a list in canonical order, and composes it where `composes`. After that its classes are of no account.
pub(crate) fn order_and_compose<T: NormTable>(
    alloc: Global,
    table: &T,
    composes: bool,
    list: &mut Vec<Classed>,
) -> Result<(), Memory>
    ensures { OnOk result ((cs : List ℕ) → list.old.items ≡ with_classes (T.model table.now) cs →
        codes_of list.new.items ≡ ended (T.model table.now) composes (canonical_order (class_of (T.model table.now)) cs)) }
{
    order(alloc, list)?;
    if composes {
        let ordered = replace(list, Vec::new(alloc));
        *list = compose(table, ordered);
    }
    Ok(())
}

/// The composite of the one code point of a list and a starter behind it.
fn joined<T: NormTable>(table: &T, composes: bool, list: &[Classed], d: char) -> Option<char>
    ensures some { IfSome result (λ p. (composes ≡ true) × ((head : ℕ) × (codes_of list.now ≡ head ∷ [])
        × (composite (T.model table.now) head d ≡ Some p))) }
    ensures none { IfNone result ((head : ℕ) → composes ≡ true → codes_of list.now ≡ head ∷ [] → composite (T.model table.now) head d ≡ None) }
{
    if !composes {
        return None;
    }
    match list {
        [head] => composite_of(table, head.code(), d),
        [..] => None,
    }
}

/// Takes in a code point of the full decomposition. Where memory ran out, what was ready before
/// stands first in what is ready.
fn push<T: NormTable>(
    alloc: Global,
    table: &T,
    composes: bool,
    held: &mut Held,
    d: Classed,
) -> Result<(), Memory>
    requires sound { IsSound (T.model table.now) }
    requires class { d ≡ spec_with_class (T.model table.now) d.code }
    requires classed { AreClassed (T.model table.now) held.old.pending.items }
    ensures ok { OnOk result (Advances (T.model table.now) composes (d.code ∷ []) held.old.ready.items (codes_of held.old.pending.items)
        held.new.ready.items (codes_of held.new.pending.items)) }
    ensures classed { OnOk result (AreClassed (T.model table.now) held.new.pending.items) }
    ensures ready { (more : List ℕ) × (held.new.ready.items ≡ held.old.ready.items ++ more) }
{
    if d.class() != 0 {
        held.pending.push(d)?;
        return Ok(());
    }
    order_and_compose(alloc, table, composes, &mut held.pending)?;
    if let Some(p) = joined(table, composes, &held.pending, d.code()) {
        held.pending.clear();
        held.pending.push(with_class(table, p))?;
        return Ok(());
    }
    push_codes(&held.pending, &mut held.ready)?;
    held.pending.clear();
    held.pending.push(d)?;
    Ok(())
}

/// Takes in code points of the full decomposition, in their order.
pub(crate) fn push_all<T: NormTable>(
    alloc: Global,
    table: &T,
    composes: bool,
    held: &mut Held,
    parts: &[Classed],
) -> Result<(), Memory>
    requires sound { IsSound (T.model table.now) }
    requires parts { AreClassed (T.model table.now) parts.now }
    requires classed { AreClassed (T.model table.now) held.old.pending.items }
    ensures ok { OnOk result (Advances (T.model table.now) composes (codes_of parts.now) held.old.ready.items (codes_of held.old.pending.items)
        held.new.ready.items (codes_of held.new.pending.items)) }
    ensures classed { OnOk result (AreClassed (T.model table.now) held.new.pending.items) }
    ensures ready { (more : List ℕ) × (held.new.ready.items ≡ held.old.ready.items ++ more) }
{
    for d in parts {
        push(alloc, table, composes, held, *d)?;
    }
    Ok(())
}

/// Ends the text: what is pending is ready too, in canonical order, and composed where `composes`.
pub(crate) fn finish<T: NormTable>(
    alloc: Global,
    table: &T,
    composes: bool,
    held: &mut Held,
) -> Result<(), Memory>
    requires { AreClassed (T.model table.now) held.old.pending.items }
    ensures ok { OnOk result (held.new.ready.items
        ≡ held.old.ready.items ++ ended (T.model table.now) composes (canonical_order (class_of (T.model table.now)) (codes_of held.old.pending.items))) }
    ensures nothing { OnOk result (held.new.pending.items ≡ []) }
    ensures ready { (more : List ℕ) × (held.new.ready.items ≡ held.old.ready.items ++ more) }
{
    order_and_compose(alloc, table, composes, &mut held.pending)?;
    let rest = held.pending.as_slice();
    push_codes(rest, &mut held.ready)?;
    held.pending.clear();
    Ok(())
}
