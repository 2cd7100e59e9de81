//! What code points fold to, and those that fold to themselves alone.
ghost use Rattle.std.specs.Prelude.{◌≡◌, option_map, slice_get};
ghost use Rattle.std.specs.List.{list_all};
ghost use Rattle.np_caseless.specs.Folded.{folding_at, is_quiet as quiet};

use np_foldings::Foldings;
use std::slice;

/// What a code point folds to, itself alone too.
pub(crate) fn folding_of<'t>(foldings: &'t Foldings, code: &'t char) -> &'t [char]
    ensures { result.now ≡ folding_at foldings.now code.now }
{
    match foldings.find(*code) {
        Some(mapping) => mapping,
        None => slice::from_ref(code),
    }
}

/// The code point whose folding is listed at a place, from 0.
pub(crate) fn code_at(foldings: &Foldings, at: usize) -> Option<u32>
    ensures { result ≡ option_map (λ f. f.code) (slice_get foldings.now at) }
{
    match foldings.get(at) {
        Some(folding) => Some(u32::from(folding.code)),
        None => None,
    }
}

/// Whether a code point folds to itself alone.
pub(crate) fn is_quiet(foldings: &Foldings, code: char) -> bool
    ensures { result ≡ quiet foldings.now code }
{
    match foldings.find(code) {
        Some(mapping) => mapping == slice::from_ref(&code),
        None => true,
    }
}

/// Whether any number does, as a code point. A surrogate does.
pub(crate) fn is_quiet_code(foldings: &Foldings, code: u32) -> bool
    ensures { result ≡ quiet foldings.now code }
{
    foldings.are_in_order();
    match char::from_u32(code) {
        Some(scalar) => is_quiet(foldings, scalar),
        None => true,
    }
}

/// Whether all of these code points do.
pub(crate) fn are_quiet(foldings: &Foldings, codes: &[char]) -> bool
    ensures { result ≡ list_all (quiet foldings.now) codes.now }
{
    for code in codes {
        if !is_quiet(foldings, *code) {
            return false;
        }
    }
    true
}
