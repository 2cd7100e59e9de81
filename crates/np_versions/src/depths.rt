//! How deep mappings go, and how long full decompositions are.
ghost use Rattle.std.specs.Prelude.{◌≡◌, ◌+◌, ◌++◌, ◌≤◌, ◌&&◌, true, None, length, option_map, slice_get, IfOk};
ghost use Rattle.np_ucd.specs.Entries.{AreRows};
ghost use Rattle.np_code_points.specs.Hangul.{is_syllable as in_block};
ghost use Rattle.np_code_points.specs.inside.LineCuts.{after_byte, before_byte};
ghost use Rattle.np_versions.specs.inside.Depths.{first_row, is_marked, mapping_mark, mark, parts_mark as mark_of_parts, row_marks, syllable_depth as depth_of_syllable, syllable_mark as mark_of_syllable};
ghost use Rattle.np_versions.specs.Faults.{IsTooDeep, IsTooLong};
ghost use Rattle.np_versions.specs.inside.FirstFaults.{IsFirst};
ghost use Rattle.np_versions.specs.Versions.{mapping_in};

use crate::characters::CharacterData;
use np_code_points::Memory;
use np_code_points::hangul::{S_BASE, T_COUNT};
use np_code_points::lines::cut;
use std::alloc::Global;

/// No depth may be greater.
const DEEPEST: u32 = 32;

/// The first round in which the marks of all syllables are known.
const SYLLABLES_KNOWN: u32 = 2;

/// The mark of every length over 64.
const TOO_LONG: u8 = 65;

/// The first code points that are too deep or too long, `None` where there is none.
#[derive(Clone, Copy)]
pub(crate) struct DepthFaults {
    /// The least code point whose depth is over 32; a cycle is too deep.
    pub too_deep: Option<u32>,
    /// The least code point that is not too deep and has a full compatibility decomposition of
    /// more than 64 code points.
    pub too_long: Option<u32>,
}

/// The first code points that are too deep or too long.
#[tactic(auto, using(crate::proofs::SyllableLemmas::first_too_deep, crate::proofs::SyllableLemmas::first_too_long))]
pub(crate) fn depth_faults(alloc: Global, characters: &CharacterData) -> Result<DepthFaults, Memory>
    ensures too_deep { IfOk result (λ f. IsFirst (IsTooDeep characters.now) f.too_deep) }
    ensures too_long { IfOk result (λ f. IsFirst (IsTooLong characters.now) f.too_long) }
{
    let marks = final_marks(alloc, characters)?;
    Ok(DepthFaults {
        too_deep: first_marked(characters, &marks, 0),
        too_long: first_marked(characters, &marks, TOO_LONG),
    })
}

/// The first code point of the first row with this mark in the last round.
#[tactic(auto, using(crate::proofs::RoundLemmas::first_cut))]
fn first_marked(characters: &CharacterData, marks: &[u8], wanted: u8) -> Option<u32>
    requires { marks.now ≡ row_marks characters.now 32 }
    ensures { result ≡ first_row (is_marked characters.now 32 wanted) characters.now.entries }
{
    let (passed, _found) = cut(marks, wanted);
    first_at(characters, passed.len())
}

/// The first code point of the row at a place, `None` behind the last row.
fn first_at(characters: &CharacterData, at: usize) -> Option<u32>
    ensures { result ≡ option_map (λ e. e.first) (slice_get characters.now.entries at) }
{
    match characters.row(at) {
        Some(row) => Some(row.first),
        None => None,
    }
}

/// The marks of the rows in the last round. A round that changes none is the last one that is made.
fn final_marks(alloc: Global, characters: &CharacterData) -> Result<Vec<u8>, Memory>
    ensures marks { IfOk result (λ m. m.items ≡ row_marks characters.now 32) }
    ensures rows { AreRows characters.now.entries }
{
    let mut marks = bare_marks(alloc, characters)?;
    for round in 0..DEEPEST {
        let next = next_marks(alloc, characters, &marks, round)?;
        if round >= SYLLABLES_KNOWN && next.as_slice() == marks.as_slice() {
            return Ok(next);
        }
        marks = next;
    }
    Ok(marks)
}

/// The mapping of a row.
fn mapping_at(characters: &CharacterData, at: usize) -> &[char]
    ensures { result.now ≡ mapping_in (slice_get characters.now.entries at) }
{
    match characters.row(at) {
        Some(row) => row.mapping,
        None => &[],
    }
}

/// The marks of the rows in round 0.
fn bare_marks(alloc: Global, characters: &CharacterData) -> Result<Vec<u8>, Memory>
    ensures marks { IfOk result (λ m. m.items ≡ row_marks characters.now 0) }
    ensures rows { AreRows characters.now.entries }
{
    let count = characters.len();
    let mut marks = Vec::with_capacity(alloc, count)?;
    for at in 0..count {
        let mapping = mapping_at(characters, at);
        marks.push(if mapping.is_empty() { 1 } else { 0 })?;
    }
    Ok(marks)
}

/// Appends the marks in front of the first that is not known, and answers those behind it, `None` where all are known.
fn take_known<'a>(left: &'a [u8], next: &mut Vec<u8>) -> Result<Option<&'a [u8]>, Memory>
    ensures known { IfOk result (λ _. next.new.items ≡ next.old.items ++ before_byte 0 left.now) }
    ensures later { IfOk result (λ later. option_map (λ rest. rest.now) later ≡ after_byte 0 left.now) }
{
    let (known, later) = cut(left, 0);
    next.extend_from_slice(known)?;
    Ok(later)
}

/// The marks of the rows in the round after this one. A mark that is known stays, so that few rows are looked at.
fn next_marks(
    alloc: Global,
    characters: &CharacterData,
    marks: &[u8],
    round: u32,
) -> Result<Vec<u8>, Memory>
    requires rows { AreRows characters.now.entries }
    requires marks { marks.now ≡ row_marks characters.now round }
    ensures { IfOk result (λ m. m.items ≡ row_marks characters.now (round + 1)) }
{
    let mut next = Vec::with_capacity(alloc, characters.len())?;
    let mut left = marks;
    while let Some(later) = take_known(left, &mut next)? {
        let mapping = mapping_at(characters, next.len());
        next.push(next_mark(characters, marks, round, mapping))?;
        left = later;
    }
    Ok(next)
}

/// The mark of a mapping in the round after this one.
#[tactic(auto, using(crate::proofs::RoundLemmas::round_answers))]
fn next_mark(characters: &CharacterData, marks: &[u8], round: u32, mapping: &[char]) -> u8
    requires rows { AreRows characters.now.entries }
    requires marks { marks.now ≡ row_marks characters.now round }
    ensures { result ≡ mapping_mark characters.now (round + 1) mapping.now }
{
    if mapping.is_empty() {
        1
    } else {
        parts_mark(characters, marks, round, mapping)
    }
}

/// The mark of a list of code points: 0 where one of them has 0, else their sum, at most 65.
fn parts_mark(characters: &CharacterData, marks: &[u8], round: u32, parts: &[char]) -> u8
    requires rows { AreRows characters.now.entries }
    requires marks { marks.now ≡ row_marks characters.now round }
    ensures { result ≡ mark_of_parts characters.now round parts.now }
{
    let mut sum = 0u8;
    for part in parts {
        let mark = part_mark(characters, marks, round, u32::from(*part));
        if mark == 0 {
            return 0;
        }
        sum = (sum + mark).min(TOO_LONG);
    }
    sum
}

/// The mark of a code point: that of its row, but for the syllables of the arithmetic.
fn part_mark(characters: &CharacterData, marks: &[u8], round: u32, code: u32) -> u8
    requires rows { AreRows characters.now.entries }
    requires marks { marks.now ≡ row_marks characters.now round }
    ensures value { result ≡ mark characters.now round code }
    ensures bound { result ≤ 65 }
{
    if characters.is_composed(code) {
        return syllable_mark(round, code);
    }
    match characters.place_of(code) {
        Some(at) => marks[at],
        None => 1,
    }
}

/// The depth of a syllable of the arithmetic: that of `<L, V>` is 1, that of `<LV, T>` 2.
#[tactic(auto, using(crate::proofs::RoundLemmas::depth_even, crate::proofs::RoundLemmas::depth_odd))]
fn syllable_depth(code: u32) -> u8
    requires { in_block code ≡ true }
    ensures value { result ≡ depth_of_syllable code }
    ensures bound { result ≤ 2 }
{
    if (code - S_BASE) % T_COUNT == 0 { 1 } else { 2 }
}

/// The mark of a syllable of the arithmetic.
#[tactic(auto, using(crate::proofs::RoundLemmas::mark_shown, crate::proofs::RoundLemmas::mark_hidden))]
fn syllable_mark(round: u32, code: u32) -> u8
    requires { in_block code ≡ true }
    ensures { result ≡ mark_of_syllable round code }
{
    let depth = syllable_depth(code);
    if u32::from(depth) <= round {
        depth + 1
    } else {
        0
    }
}
