//! What normalization asks of a version.
ghost use Rattle.std.specs.List.{list_all};
ghost use Rattle.std.specs.Prelude.{◌≡◌, ◌<◌, ◌≤◌, ℕ, true, false, take, drop, chars, IfSome, IfNone, IsTrue};
ghost use Rattle.np_code_points.specs.declared.forms.Form.{Form};
ghost use Rattle.np_versions.specs.Boundaries.{BeginsAtBoundary, IsBoundary, IsYesStarter};
ghost use Rattle.np_versions.specs.Composites.{IsCompositeOf};
ghost use Rattle.np_versions.specs.Conditions.{IsSound};
ghost use Rattle.np_versions.specs.Mappings.{IsLent};
ghost use Rattle.np_versions.specs.QuickSpans.{IsQuickSpan};
ghost use Rattle.np_versions.specs.Precomputed.{IsPrecomputed};
ghost use Rattle.np_versions.specs.Versions.{VersionData, class_of, has_hangul, is_assigned};

use crate::version::Version;
use np_code_points::Form;

/// What a table answers that knows nothing of a property.
const UNKNOWN: bool = false;

/// The front of a text that is known to pass the quick check (UAX #15, section 9).
#[derive(Clone, Copy)]
pub struct QuickSpan {
    /// How many bytes it has.
    pub count: usize,
    /// Whether the form is known to have a boundary behind it.
    pub boundary: bool,
}

/// The form of a code point by itself, as a table keeps it.
#[derive(Clone, Copy)]
pub struct PrecomputedForm<'t> {
    /// Bytes that begin with the form, as UTF-8. What follows it is of no account.
    pub bytes: &'t [u8],
    /// How many bytes the form has.
    pub count: usize,
}

/// No byte at the front of a text: nothing there passes, whatever the version and the form are, and nothing is
/// known of what follows.
fn claim_nothing(text: &str) -> QuickSpan
    ensures quick_span { (v : VersionData) (form : Form) → IsQuickSpan v form text.now result.count }
    ensures assigned { (v : VersionData) → list_all (is_assigned v) (chars (take result.count text.now)) ≡ true }
    ensures boundary { result.boundary ≡ false }
{
    let _unused = text;
    QuickSpan {
        count: 0,
        boundary: UNKNOWN,
    }
}

/// A table of a version. The answers from `version` to `full` are functions of the version. Those behind them are
/// hints: a table may tell less there, and no form, key or comparison depends on how much.
pub trait NormTable {
    /// The version.
    ghost model: { Self → VersionData };

    /// The version, which meets the conditions.
    fn version(&self) -> &Version
        ensures same { result.now ≡ model self.now }
        ensures sound { IsSound (model self.now) };

    /// Does nothing at run time: the version meets the conditions.
    final fn meets_conditions(&self)
        ensures { IsSound (model self.now) }
    {
        let _version = self.version();
    }

    /// Whether a code point is assigned.
    fn assigned(&self, c: char) -> bool
        ensures { result ≡ is_assigned (model self.now) c };

    /// The combining class, 0 of what is not assigned.
    fn class(&self, c: char) -> u8
        ensures { result ≡ class_of (model self.now) c };

    /// Whether the Hangul arithmetic is on.
    fn hangul(&self) -> bool
        ensures { result ≡ has_hangul (model self.now) };

    /// The primary composite with this pair, syllables too.
    fn pair(&self, a: char, b: char) -> Option<char>
        ensures some { IfSome result (IsCompositeOf (model self.now) a b) }
        ensures none { IfNone result ((c : ℕ) → ¬ (IsCompositeOf (model self.now) a b c)) };

    /// The full decomposition, empty where the code point has no mapping of that kind or is a
    /// syllable of the arithmetic.
    fn full(&self, c: char, compat: bool) -> &[char]
        ensures { IsLent (model self.now) compat c result.now };

    /// The form of a code point by itself, where the table keeps it as UTF-8. A table may answer none.
    fn precomputed(&self, form: Form, c: char) -> Option<PrecomputedForm<'_>>
        ensures { IfSome result (λ kept. IsPrecomputed (model self.now) form c kept.bytes.now kept.count) }
    {
        // nothing is claimed, so that a plain table need not know; so it is of each hint below
        let _unused = (form, c);
        None
    }

    /// Whether a boundary of the form is known to be before a code point (UAX #15, section 9.1). A table
    /// may answer `false` where there is one.
    fn is_boundary(&self, form: Form, c: char) -> bool
        ensures { IsTrue result → IsBoundary (model self.now) form c }
    {
        let _unused = (form, c);
        UNKNOWN
    }

    /// Whether a boundary of the form is known to be before each leading consonant of Hangul syllables, as
    /// `is_boundary` tells of one code point. A table may answer `false` where there is.
    fn leading_consonants_are_boundaries(&self, form: Form) -> bool
        ensures { IsTrue result → (c : ℕ) → 0x1100 ≤ c → c ≤ 0x1112 → IsBoundary (model self.now) form c }
    {
        let _unused = form;
        UNKNOWN
    }

    /// Whether each ASCII character is known to be assigned, its own form, and a boundary: there is one before it. What
    /// follows it may compose with it, as 0301 does with `e`. A table may answer `false` where all of this holds.
    fn ascii_passes(&self, form: Form) -> bool
        ensures assigned { IsTrue result → (c : ℕ) → c < 128 → is_assigned (model self.now) c ≡ true }
        ensures yes_starter { IsTrue result → (c : ℕ) → c < 128 → IsYesStarter (model self.now) form c }
    {
        let _unused = form;
        UNKNOWN
    }

    /// The front of a text that is known to be its own form, if a boundary or nothing follows. It has starters that
    /// pass the quick check (UAX #15, section 9). Behind these may be other code points without a mapping that do not
    /// compose with what is before them: non-starters in canonical order, and starters (class 0) too. Where `assigned`
    /// is asked for, each of its code points is. A table may answer less, down to 0 bytes and no boundary.
    fn quick_span(&self, form: Form, assigned: bool, text: &str) -> QuickSpan
        ensures quick_span { IsQuickSpan (model self.now) form text.now result.count }
        ensures assigned { IsTrue assigned → list_all (is_assigned (model self.now)) (chars (take result.count text.now)) ≡ true }
        ensures boundary { IsTrue result.boundary → BeginsAtBoundary (model self.now) form (chars (drop result.count text.now)) }
    {
        let _unused = (form, assigned);
        claim_nothing(text)
    }
}

/// A borrowed table answers as the table itself, so that one serves several owners.
impl<T: NormTable> NormTable for &T {
    ghost model = { λ t. T.model t.now };

    fn version(&self) -> &Version {
        (**self).version()
    }

    fn assigned(&self, c: char) -> bool {
        (**self).assigned(c)
    }

    fn class(&self, c: char) -> u8 {
        (**self).class(c)
    }

    fn hangul(&self) -> bool {
        (**self).hangul()
    }

    fn pair(&self, a: char, b: char) -> Option<char> {
        (**self).pair(a, b)
    }

    fn full(&self, c: char, compat: bool) -> &[char] {
        (**self).full(c, compat)
    }

    fn precomputed(&self, form: Form, c: char) -> Option<PrecomputedForm<'_>> {
        (**self).precomputed(form, c)
    }

    fn is_boundary(&self, form: Form, c: char) -> bool {
        (**self).is_boundary(form, c)
    }

    fn leading_consonants_are_boundaries(&self, form: Form) -> bool {
        (**self).leading_consonants_are_boundaries(form)
    }

    fn ascii_passes(&self, form: Form) -> bool {
        (**self).ascii_passes(form)
    }

    fn quick_span(&self, form: Form, assigned: bool, text: &str) -> QuickSpan {
        (**self).quick_span(form, assigned, text)
    }
}
