//! The laws of versions in a row, over the definitions alone.
ghost use Rattle.np_chain.specs.Laws.{AreOfCodePoints, AsMany, Backward, ExtensionIsMet, Stability, Transitivity};
ghost use Rattle.np_forms.specs.Laws.{Idempotence, SameForms};

/// A normal form is its own normal form, and keeps the ordered full decomposition; two texts have
/// equal normal forms exactly where they are equivalent.
pub fn idempotence()
    ensures own { Idempotence }
    ensures same { SameForms }
{}

/// Where one version extends another, a text that is assigned in the earlier one has one form
/// under both, which is assigned in the earlier one.
pub fn stability()
    ensures { Stability }
{}

/// The premises of `stability` are met by unlike versions: one of three rows, a starter, a
/// non-starter and their primary composite, and one with Hangul syllables and jamo besides.
pub fn stability_is_met()
    ensures { ExtensionIsMet }
{}

/// Extension is transitive.
pub fn transitivity()
    ensures { Transitivity }
{}

/// Where one version extends another, the form under the later one of a text that is assigned there
/// is its own form under the earlier one (UAX #15, section 12): code points that the earlier one
/// lacks count there as starters without a mapping. It doesn't say that the earlier version assigns
/// the form's code points, nor that the text itself has this form there.
pub fn backward()
    ensures { Backward }
{}

/// A version that extends another assigns at least as many code points; where it assigns no more,
/// each extends the other.
pub fn as_many()
    ensures { AsMany }
{}

/// Each break of one built version by another is that of a code point, a number of at most 10FFFF.
/// So what the definitions say of every number they say of code points.
pub fn code_points()
    ensures { AreOfCodePoints }
{}
