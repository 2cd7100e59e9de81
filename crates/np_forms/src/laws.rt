//! The laws of the forms, over the definitions alone.
ghost use Rattle.np_forms.specs.Boundaries.{FormsAtBoundary, YesStarterForm};
ghost use Rattle.np_forms.specs.Laws.{FewBytes, FewCodePoints, OneForm, OneOrderedForm, PrecomputedForm, PremisesAreMet, QuickSpanForm};
ghost use Rattle.np_forms.specs.StreamLaws.{OneMore};

/// Whatever gives the combining classes, a list has exactly one ordered form (The Unicode Standard, D109).
pub fn ordered_form()
    ensures { OneOrderedForm }
{}

/// Under each version that meets the conditions, a text has exactly one normal form of each kind; the conditions are
/// met by the version of empty files, by one with a primary composite, and by one with the Hangul arithmetic on.
pub fn one_form()
    ensures only { OneForm }
    ensures met { PremisesAreMet }
{}

/// One more code point of a text changes its normal form from the last starter on alone.
pub fn one_more()
    ensures { OneMore }
{}

/// A code point is a boundary where its full decomposition begins with a starter that never
/// composes backward (UAX #15, section 9.1): the form of the whole is that of what is before it and
/// that of the rest. A starter that passes the quick check is its own form; so it stays as it is before a boundary.
#[tactic(auto, using(crate::proofs::StreamLemmas::forms_at_boundary, crate::proofs::StreamLemmas::yes_starter_form))]
pub fn boundary()
    ensures forms { FormsAtBoundary }
    ensures yes_starter { YesStarterForm }
{}

/// A normal form has at most 64 code points for each code point of its text, and at most 256 bytes for each byte:
/// so much memory is enough for a key.
pub fn length()
    ensures code_points { FewCodePoints }
    ensures bytes { FewBytes }
{}

/// What a table tells of texts at once is so by the normal forms: a front that its scan passes is its own form (UAX #15,
/// section 9), and the precomputed form of a code point is its form.
#[tactic(auto, using(crate::proofs::PrecomputedLemmas::precomputed_is_form, crate::proofs::PrecomputedLemmas::quick_span_front))]
pub fn shortcuts()
    ensures quick_span { QuickSpanForm }
    ensures precomputed { PrecomputedForm }
{}
