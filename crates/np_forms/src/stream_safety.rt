//! Stream-safe text (UAX #15, section 13).
ghost use Rattle.std.specs.Prelude.{◌≡◌, ◌≤◌, ◌↔◌, ◌++◌, ◌∷◌, [], ℕ, List, true, IsTrue, chars, IfOk};
ghost use Rattle.np_code_points.specs.Hangul.{is_syllable as in_block};
ghost use Rattle.np_forms.specs.StreamSafe.{IsStreamSafe};
ghost use Rattle.np_forms.specs.inside.Runs.{runs_over};
ghost use Rattle.np_forms.specs.inside.Syllables.{syllable_parts};
ghost use Rattle.np_versions.specs.Conditions.{IsSound};
ghost use Rattle.np_versions.specs.Versions.{class_of, has_hangul};
ghost use Rattle.np_versions.specs.inside.FullDecompositions.{full_of};

use crate::lookups::lent;
use np_code_points::Memory;
use np_code_points::hangul::{hangul_parts, is_syllable};
use np_versions::NormTable;
use std::alloc::Global;

/// The most non-starters that may stand side by side.
const LONGEST: usize = 30;

/// How many non-starters stand side by side behind one more code point. Past `LONGEST` that counts no more.
#[inline(always)]
#[tactic(auto, using(crate::proofs::StreamSafeLemmas::over_answers))]
fn run_past<T: NormTable>(table: &T, run: usize, c: char) -> usize
    requires { run ≤ 31 }
    ensures few { result ≤ 31 }
    ensures over { (rest : List ℕ) → runs_over (class_of (T.model table.now)) result rest ≡ runs_over (class_of (T.model table.now)) run (c ∷ rest) }
{
    if run > LONGEST {
        run
    } else if table.class(c) == 0 {
        0
    } else {
        run + 1
    }
}

/// How many non-starters stand side by side behind several code points.
#[inline(always)]
fn run_past_all<T: NormTable>(table: &T, run: usize, list: &[char]) -> usize
    requires { run ≤ 31 }
    ensures few { result ≤ 31 }
    ensures over { (rest : List ℕ) → runs_over (class_of (T.model table.now)) result rest ≡ runs_over (class_of (T.model table.now)) run (list.now ++ rest) }
{
    let mut now = run;
    for c in list {
        now = run_past(table, now, *c);
    }
    now
}

/// How many non-starters stand side by side behind the parts of a syllable, by arithmetic.
fn run_past_syllable<T: NormTable>(table: &T, run: usize, c: char) -> usize
    requires run { run ≤ 31 }
    requires syllable { in_block c ≡ true }
    ensures few { result ≤ 31 }
    ensures over { (rest : List ℕ) → runs_over (class_of (T.model table.now)) result rest
        ≡ runs_over (class_of (T.model table.now)) run (syllable_parts c ++ rest) }
{
    // each syllable has parts
    let Some((first, second)) = hangul_parts(c) else {
        return run;
    };
    match hangul_parts(first) {
        Some((leading, vowel)) => run_past_all(table, run, &[leading, vowel, second]),
        None => run_past_all(table, run, &[first, second]),
    }
}

/// How many non-starters stand side by side behind the full compatibility decomposition of a code point.
#[inline(always)]
fn run_past_full<T: NormTable>(table: &T, hangul: bool, run: usize, c: char) -> usize
    requires sound { IsSound (T.model table.now) }
    requires hangul { hangul ≡ has_hangul (T.model table.now) }
    requires run { run ≤ 31 }
    ensures few { result ≤ 31 }
    ensures over { (rest : List ℕ) → runs_over (class_of (T.model table.now)) result rest
        ≡ runs_over (class_of (T.model table.now)) run (full_of (T.model table.now) true c ++ rest) }
{
    let full = lent(table, c, true);
    if !full.is_empty() {
        return run_past_all(table, run, full);
    }
    if hangul && is_syllable(c as u32) {
        return run_past_syllable(table, run, c);
    }
    run_past(table, run, c)
}

/// Whether a text is stream-safe: its NFKD form holds no run of more than 30 non-starters. They are counted in
/// the full decompositions as these come: canonical ordering moves none out of its run. It takes no memory.
///
/// # Errors
///
/// None today: `Memory` is for tables that would need some.
pub fn is_stream_safe<T: NormTable>(_alloc: Global, table: &T, text: &str) -> Result<bool, Memory>
    ensures { IfOk result (λ b. IsTrue b ↔ IsStreamSafe (T.model table.now) (chars text.now)) }
{
    table.meets_conditions();
    let hangul = table.hangul();
    let mut run = 0;
    for c in text.chars() {
        run = run_past_full(table, hangul, run, c);
    }
    Ok(run <= LONGEST)
}
