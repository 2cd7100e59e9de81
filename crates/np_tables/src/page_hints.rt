//! What a table of pages keeps of each form for a code point: whether it is a boundary, and
//! whether it is a starter of which the quick check says Yes (UAX #15, section 9). They are eight bits, of which 0 says that it isn't known:
//!
//! | Bit | 7 | 6 | 5 | 4 | 3 | 2 | 1 | 0 |
//! |---|---|---|---|---|---|---|---|---|
//! | Form | NFKC | NFKD | NFKC | NFKD | NFC | NFD | NFC | NFD |
//! | 1 says | Yes | Yes | boundary | boundary | Yes | Yes | boundary | boundary |
ghost use Rattle.std.specs.Prelude.{◌≡◌, ◌∷◌, ◌<◌, [], ℕ, Bool, true, false, IsTrue};
ghost use Rattle.np_code_points.specs.declared.forms.Form.{Form};
ghost use Rattle.np_versions.specs.Boundaries.{ComposesTo, NeverFalls};
ghost use Rattle.np_versions.specs.Mappings.{IsFullDecomposition};
ghost use Rattle.np_versions.specs.Versions.{VersionData, class_of};
ghost use Rattle.np_tables.specs.inside.PageHints.{AreHints, AreLeadingNeverSecond, ComposesByPairs, IsNeverSecond, bit as spec_bit, boundary_place as spec_boundary_place, eight_bits as spec_eight_bits, four_bits as spec_four_bits, is_late_jamo as spec_is_late_jamo, own_hints as spec_own_hints, yes_place as spec_yes_place};
ghost use Rattle.np_tables.specs.inside.PageProperties.{AreSeconds};

use np_code_points::Form;
use np_code_points::hangul::{L_BASE, L_COUNT};
use np_versions::{Pairs, Version};

/// What is known of a code point under the two forms of one kind of decomposition.
#[derive(Clone, Copy)]
pub(crate) struct Hints {
    /// It is a boundary of the form that only decomposes.
    pub boundary: bool,
    /// It is a boundary of the form that composes too.
    pub boundary_composing: bool,
    /// It is a starter that passes the quick check of the form that only decomposes.
    pub yes_starter: bool,
    /// It is a starter that passes the quick check of the form that composes too.
    pub yes_starter_composing: bool,
}

/// Nothing is known.
pub(crate) const NO_HINTS: Hints = Hints {
    boundary: false,
    boundary_composing: false,
    yes_starter: false,
    yes_starter_composing: false,
};

/// It is a boundary of the form that only decomposes.
const DECOMPOSED_BOUNDARY: Hints = Hints {
    boundary: true,
    boundary_composing: false,
    yes_starter: false,
    yes_starter_composing: false,
};

/// A syllable of the arithmetic: it begins with a leading consonant, which never composes backward, and
/// comes back where the form composes.
pub(crate) const SYLLABLE: Hints = Hints {
    boundary: true,
    boundary_composing: true,
    yes_starter: false,
    yes_starter_composing: true,
};

/// What is known of a code point without a mapping of the kind.
pub(crate) fn own_hints(class: u8, never_second: bool) -> Hints
    ensures { result ≡ spec_own_hints class never_second }
{
    let starter = class == 0;
    let alone = starter && never_second;
    Hints {
        boundary: starter,
        boundary_composing: alone,
        yes_starter: starter,
        yes_starter_composing: alone,
    }
}

/// What is known of a code point by itself. Of a leading consonant it isn't told that it passes where the form
/// composes: mostly it begins a syllable.
pub(crate) fn leading_hints(leading: bool, own: Hints) -> Hints
    ensures { (v : VersionData) (compat : Bool) (c : ℕ) → AreHints v compat c own → AreHints v compat c result }
{
    Hints {
        boundary: own.boundary,
        boundary_composing: own.boundary_composing,
        yes_starter: own.yes_starter,
        yes_starter_composing: own.yes_starter_composing && !leading,
    }
}

/// Whether a code point is a vowel or a trailing consonant of a syllable, or stands between them.
fn is_late_jamo(code: u32) -> bool
    ensures { result ≡ spec_is_late_jamo code }
{
    0x1161 <= code && code <= 0x11C2
}

/// Whether a code point is known to be the second part of no primary composite: the second part of
/// a syllable is a vowel or a trailing consonant.
pub(crate) fn is_never_second(version: &Version, seconds: &[bool], code: u32) -> bool
    requires { AreSeconds version.now seconds.now }
    ensures { IsTrue result → IsNeverSecond version.now code }
{
    version.meets_conditions();
    if is_late_jamo(code) {
        return false;
    }
    match version.place_of(code) {
        Some(at) => !seconds[at],
        None => true,
    }
}

/// Whether the leading consonants of syllables are known to be second parts of no primary composite.
pub(crate) fn are_leading_never_second(version: &Version, seconds: &[bool]) -> bool
    requires { AreSeconds version.now seconds.now }
    ensures { IsTrue result → AreLeadingNeverSecond version.now }
{
    for leading in 0..L_COUNT {
        if !is_never_second(version, seconds, L_BASE + leading) {
            return false;
        }
    }
    true
}

/// Whether no combining class is less than the one before.
pub(crate) fn never_falls(version: &Version, list: &[char]) -> bool
    ensures { IsTrue result → NeverFalls (class_of version.now) list.now }
{
    match list {
        [first, rest @ ..] => match rest {
            [second, ..] => {
                version.class_of(u32::from(*first)) <= version.class_of(u32::from(*second))
                    && never_falls(version, rest)
            }
            [] => true,
        },
        [] => true,
    }
}

/// Whether a starter and the code points behind it compose, one after the other, to `own`.
fn composes_to(pairs: &Pairs, first: char, rest: &[char], own: char) -> bool
    ensures { IsTrue result → ComposesByPairs pairs.now first rest.now own }
{
    match rest {
        [next, later @ ..] => match pairs.find(first, *next) {
            Some(composite) => composes_to(pairs, composite, later, own),
            None => false,
        },
        [] => first == own,
    }
}

/// Whether a starter and the code points behind it come back to `own` where the form composes.
#[tactic(auto, using(crate::proofs::PageLemmas::composes_by_pairs))]
fn comes_back(version: &Version, first: char, rest: &[char], own: char) -> bool
    ensures rises { IsTrue result → NeverFalls (class_of version.now) rest.now }
    ensures folds { IsTrue result → ComposesTo version.now first rest.now own }
{
    never_falls(version, rest) && composes_to(version.pairs(), first, rest, own)
}

/// What is known of a code point by its full decomposition, in its parts.
fn hints_by_parts(
    version: &Version,
    seconds: &[bool],
    first: char,
    rest: &[char],
    own: char,
) -> Hints
    requires { AreSeconds version.now seconds.now }
    ensures { (compat : Bool) → IsFullDecomposition version.now compat (own ∷ []) (first ∷ rest.now) → AreHints version.now compat own result }
{
    let code = u32::from(first);
    if version.class_of(code) != 0 {
        return NO_HINTS;
    }
    if !is_never_second(version, seconds, code) {
        return DECOMPOSED_BOUNDARY;
    }
    let yes_starter_composing = comes_back(version, first, rest, own);
    Hints {
        boundary: true,
        boundary_composing: true,
        yes_starter: false,
        yes_starter_composing,
    }
}

/// What is known of a code point by its full decomposition.
pub(crate) fn list_hints(version: &Version, seconds: &[bool], list: &[char], own: char) -> Hints
    requires { AreSeconds version.now seconds.now }
    ensures { (compat : Bool) → IsFullDecomposition version.now compat (own ∷ []) list.now → AreHints version.now compat own result }
{
    match list {
        [first, rest @ ..] => hints_by_parts(version, seconds, *first, rest, own),
        [] => NO_HINTS,
    }
}

/// A bit.
fn bit(holds: bool) -> u8
    ensures { result ≡ spec_bit holds }
{
    if holds { 1 } else { 0 }
}

/// Hints as four bits.
fn four_bits(hints: Hints) -> u8
    ensures value { result ≡ spec_four_bits hints }
    ensures bound { result < 16 }
{
    bit(hints.boundary)
        + 2 * bit(hints.boundary_composing)
        + 4 * bit(hints.yes_starter)
        + 8 * bit(hints.yes_starter_composing)
}

/// The hints of both kinds of decomposition in eight bits.
pub(crate) fn eight_bits(canonical: Hints, compatible: Hints) -> u8
    ensures { result ≡ spec_eight_bits canonical compatible }
{
    four_bits(canonical) + 16 * four_bits(compatible)
}

/// Which bit tells whether a code point is a boundary.
pub(crate) fn boundary_place(form: Form) -> u32
    ensures place { result ≡ spec_boundary_place form }
    ensures bound { result < 8 }
{
    match form {
        Form::Nfd => 0,
        Form::Nfc => 1,
        Form::Nfkd => 4,
        Form::Nfkc => 5,
    }
}

/// Which bit tells whether a code point is a starter that passes.
pub(crate) fn yes_place(form: Form) -> u32
    ensures place { result ≡ spec_yes_place form }
    ensures bound { result < 8 }
{
    match form {
        Form::Nfd => 2,
        Form::Nfc => 3,
        Form::Nfkd => 6,
        Form::Nfkc => 7,
    }
}
