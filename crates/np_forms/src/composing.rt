//! Canonical composition in one pass (The Unicode Standard, D117).
ghost use Rattle.std.specs.Prelude.{◌≡◌, ◌<◌, ◌≤◌, ◌+◌, ◌∷◌, ℕ, List, true, Some, length, take, vec_len, IfSome};
ghost use Rattle.std.specs.Option.{ForSome};
ghost use Rattle.np_forms.specs.inside.Classes.{codes_of, with_classes};
ghost use Rattle.np_forms.specs.inside.Composers.{IsInPlace, pair_with_last as pair_found};
ghost use Rattle.np_forms.specs.inside.Composing.{compose_of};
ghost use Rattle.np_forms.specs.Order.{is_ordered};
ghost use Rattle.np_versions.specs.Versions.{class_of};

use crate::classes::Classed;
use crate::lookups::composite_of;
use np_versions::NormTable;

/// A composition inside its own list. The first `kept` places hold what was composed so far, beside classes that are of
/// no account; what is still to be read stands at a place that is no smaller. Of what was composed, the place of the
/// last starter, and the class of the last code point that was kept behind it, 0 where there is none.
#[derive(Drop)]
struct Composer {
    list: Vec<Classed>,
    kept: usize,
    starter: Option<usize>,
    last: u8,
    ghost fits: { kept ≤ vec_len list },
    ghost in_range: { ForSome starter (λ q. q < kept) },
}

/// The place of the last starter of a list and its composite with a code point, where that is not blocked from
/// it: the last code point that was kept behind the starter has the class `last`, 0 where there is none.
#[inline(always)]
#[tactic(auto, unfolding(crate::specs::inside::Composers::pair_with_last))]
pub(crate) fn pair_with_last<T: NormTable>(
    table: &T,
    list: &[Classed],
    starter: Option<usize>,
    last: u8,
    next: Classed,
) -> Option<(usize, char)>
    requires in_range { ForSome starter (λ q. q < length list.now) }
    ensures pair { next.class ≡ class_of (T.model table.now) next.code → result ≡ pair_found (T.model table.now) (codes_of list.now) starter last next.code }
    ensures in_range { IfSome result (λ found. found.0 < length list.now) }
{
    let q = starter?;
    // D115: C is blocked from A if some B between them has ccc(B) = 0 or ccc(B) >= ccc(C); in order, the last B decides
    if last == 0 || last < next.class() {
        let p = composite_of(table, list[q].code(), next.code())?;
        Some((q, p))
    } else {
        None
    }
}

/// Takes in the code point at `at`, the first that is still to be read.
fn take_in<T: NormTable>(composer: &mut Composer, table: &T, at: usize)
    requires kept { composer.old.kept ≤ at }
    requires place { at < vec_len composer.old.list }
    ensures composing { (whole : List ℕ)
        → IsInPlace (T.model table.now) whole at composer.old.list.items composer.old.kept composer.old.starter composer.old.last
        → IsInPlace (T.model table.now) whole (at + 1) composer.new.list.items composer.new.kept composer.new.starter composer.new.last }
    ensures kept { composer.new.kept ≤ at + 1 }
    ensures length { vec_len composer.new.list ≡ vec_len composer.old.list }
{
    let next = composer.list[at];
    let done = &composer.list[..composer.kept];
    let found = pair_with_last(table, done, composer.starter, composer.last, next);
    if let Some((q, p)) = found {
        composer.list[q] = Classed::new(p, 0);
        return;
    }
    let place = composer.kept;
    let class = next.class();
    let starter = if class == 0 {
        Some(place)
    } else {
        composer.starter
    };
    composer.list[place] = next;
    composer.kept = place + 1;
    composer.starter = starter;
    composer.last = class;
}

/// The composition of a list in canonical order, in the list's own memory, beside classes that are of no account.
pub(crate) fn compose<T: NormTable>(table: &T, text: Vec<Classed>) -> Vec<Classed>
    ensures { (cs : List ℕ) → text.items ≡ with_classes (T.model table.now) cs → is_ordered (class_of (T.model table.now)) cs ≡ true →
        codes_of result.items ≡ compose_of (T.model table.now) cs }
{
    let mut composer = Composer {
        list: text,
        kept: 0,
        starter: None,
        last: 0,
    };
    for at in 0..composer.list.len() {
        take_in(&mut composer, table, at);
    }
    let Composer { mut list, kept, .. } = composer;
    list.truncate(kept);
    list
}
