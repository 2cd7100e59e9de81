//! Pairs that two primary composites share.
ghost use Rattle.std.specs.Prelude.{◌≡◌, ◌↔◌, ℕ, ◌<◌, length, IfSome, IsTrue};
ghost use Rattle.np_versions.specs.Faults.{IsAmbiguous};
ghost use Rattle.np_versions.specs.inside.FirstFaults.{IsFirst};
ghost use Rattle.np_versions.specs.CompositeLists.{AreOfFile};
ghost use Rattle.np_versions.specs.inside.Suspects.{HasSmallerTwin, IsAtMost, IsSuspect, least_of};

use crate::characters::CharacterData;
use crate::pairs::Pairs;
use crate::syllables::arithmetic_pair;

/// The lesser one.
fn lesser(first: Option<u32>, second: Option<u32>) -> Option<u32>
    ensures { result ≡ least_of first second }
{
    match (first, second) {
        (Some(a), Some(b)) => Some(a.min(b)),
        (Some(a), None) => Some(a),
        (None, b) => b,
    }
}

/// Whether the composite before this place has the same pair, and is smaller.
fn has_smaller_twin(pairs: &Pairs, place: usize) -> bool
    requires { place < length pairs.now }
    ensures { IsTrue result ↔ HasSmallerTwin pairs.now place }
{
    if place == 0 {
        return false;
    }
    let before = pairs.at(place - 1);
    let here = pairs.at(place);
    before.first == here.first && before.second == here.second && before.code < here.code
}

/// The least code point that is ambiguous by the composite at a place: by the one before, or by
/// the syllable with its pair.
fn suspect_at(characters: &CharacterData, pairs: &Pairs, place: usize) -> Option<u32>
    requires within { place < length pairs.now }
    requires of_file { AreOfFile characters.now pairs.now }
    ensures ambiguous { IfSome result (IsAmbiguous characters.now) }
    ensures least { (c : ℕ) → IsSuspect characters.now pairs.now place c → IsAtMost result c }
{
    characters.are_in_order();
    let here = pairs.at(place);
    if has_smaller_twin(pairs, place) {
        return Some(u32::from(here.code));
    }
    match arithmetic_pair(characters, here.first, here.second) {
        Some(syllable) => Some(u32::from(syllable).max(u32::from(here.code))),
        None => None,
    }
}

/// The least code point that is a primary composite with the pair of a smaller primary composite,
/// syllables of the arithmetic too.
pub(crate) fn first_ambiguous(characters: &CharacterData, pairs: &Pairs) -> Option<u32>
    requires { AreOfFile characters.now pairs.now }
    ensures { IsFirst (IsAmbiguous characters.now) result }
{
    characters.are_in_order();
    let mut first = None;
    for place in 0..pairs.len() {
        first = lesser(first, suspect_at(characters, pairs, place));
    }
    first
}
