//! The laws of versions, over the definitions alone.
ghost use Rattle.np_versions.specs.Laws.{AtMostOneDecomposition, HangulByArithmetic, HangulOn, SomeDecomposition};

/// In each version, whatever its faults, a text has at most one full decomposition of a kind (The
/// Unicode Standard, D65 and D68), and one where the depths of its code points have a bound.
pub fn full_decomposition()
    ensures only { AtMostOneDecomposition }
    ensures some { SomeDecomposition }
{}

/// The Hangul arithmetic is on exactly where each of the 11,239 syllables and jamo is assigned, of
/// class 0 and without a mapping in the file. Then a syllable maps to its pair, a jamo to nothing,
/// and each is a starter (The Unicode Standard, section 3.12).
pub fn hangul()
    ensures on { HangulOn }
    ensures each { HangulByArithmetic }
{}
