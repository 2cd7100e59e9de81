//! Code points that compose backward with some others, and pass the quick check behind those with which
//! they don't: an accent behind a letter that has no composite with it.
ghost use Rattle.std.specs.Prelude.{◌≡◌, ◌<◌, ◌≤◌, ◌⊎◌, None, Some, chars, slice_index_or, IfSome, IsTrue};
ghost use Rattle.np_tables.specs.inside.FullLists.{FullLists};
ghost use Rattle.np_tables.specs.inside.PageProperties.{ArePages, CannotComposeByProperties, PassesUncomposed, last_behind, no_properties};
ghost use Rattle.np_versions.specs.inside.Pages.{property_place};

use crate::page_properties::{Properties, properties_of};
use crate::scans::Scan;
use np_code_points::hangul::is_syllable;
use np_versions::Version;

/// The last code point of a text, but of ASCII, with which most that compose at all have a composite.
#[inline(always)]
#[tactic(auto, using(crate::proofs::QuickSpanLemmas::quick_span_answers))]
fn last_beyond_ascii(front: &str) -> Option<char>
    ensures last { IfSome result (λ c. last_behind None (chars front.now) ≡ Some c) }
    ensures scalar { IfSome result (λ c. c < 0x110000) }
{
    let mut iter = front.chars();
    let last = iter.next_back()?;
    // what is before it is a text, which the proof asks for
    let _earlier = iter.as_str();
    if last.is_ascii() { None } else { Some(last) }
}

/// The least quick check that may follow a code point of this class that does not compose, where it may follow a quick check
/// of `low`: none where it is out of order.
#[inline(always)]
fn low_behind_class(least: u8, low: u8, class: u8) -> Option<u8>
    requires { least ≤ low }
    ensures least { IfSome result (λ next. least ≤ next) }
    ensures order { IfSome result (λ next. (class ≡ 0) ⊎ (low ≤ class)) }
    ensures class { IfSome result (λ next. class ≤ next) }
{
    if class == 0 {
        return Some(least);
    }
    if class < low { None } else { Some(class) }
}

/// Whether a code point of this class cannot compose right behind `kept`, which has the properties `before`: that
/// is a non-starter which blocks it, or a starter without a mapping with which it has no composite.
#[inline(always)]
fn cannot_compose_after(
    version: &Version,
    kept: char,
    before: Properties,
    c: char,
    class: u8,
) -> bool
    ensures { IsTrue result → CannotComposeByProperties version.now kept before c class }
{
    if before.class > 0 {
        return class <= before.class;
    }
    // c slides into what `kept` decomposes to, and may compose with a part of that
    if before.fulls != 0 || is_syllable(kept as u32) {
        return false;
    }
    match version.composite_of(kept, c) {
        Some(_composite) => false,
        None => true,
    }
}

impl<'t> Scan<'t> {
    /// The least quick check that may follow a code point, where it may be a second part of composites, but composes with
    /// nothing behind the text `front`: none where that is not found. A quick check of `low` may follow that text.
    #[inline(always)]
    pub(crate) fn pass_uncomposed(
        &self,
        low: u8,
        front: &str,
        c: char,
        properties: Properties,
    ) -> Option<u8>
        requires pages { (lists : FullLists) × ArePages self.now.version.now lists self.now.index.now self.now.all_properties.now }
        requires properties { properties ≡ slice_index_or self.now.all_properties.now (property_place self.now.index.now c) no_properties }
        requires low { self.now.least ≤ low }
        ensures least { IfSome result (λ next. self.now.least ≤ next) }
        ensures uncomposed { IfSome result (λ next. PassesUncomposed self.now.version.now self.now.form (chars front.now) c low next) }
    {
        // else the quick checks have told all
        if properties.never_second || properties.fulls != 0 || !self.form.composes() {
            return None;
        }
        let kept = last_beyond_ascii(front)?;
        if !properties.assigned || is_syllable(c as u32) {
            return None;
        }
        let next = low_behind_class(self.least, low, properties.class)?;
        let before = properties_of(self.index, self.all_properties, kept);
        if cannot_compose_after(self.version, kept, before, c, properties.class) {
            Some(next)
        } else {
            None
        }
    }
}
