//! Runs of characters that may follow one another as they are, found by the bytes that begin those that need a look-up:
//! 64 bytes are looked at at once, and what is between two characters found so passes whatever stands before it.
//!
//! The steps are of 64 bytes whether or not a character begins there, so that the next bytes are read before it is
//! known where a character ends.
ghost use Rattle.std.specs.Prelude.{◌≡◌, ◌+◌, ◌<◌, ◌≤◌, ℕ, length, drop, slice_index, true, false, IfSome};
ghost use Rattle.std.specs.Int.{bit_at};
ghost use Rattle.std.specs.Str.{IsCharBoundary};
ghost use Rattle.np_tables.specs.inside.DoubtfulLeads.{row_of};
ghost use Rattle.np_tables.specs.inside.LeadBytes.{BeginsWithChar};
ghost use Rattle.np_tables.specs.inside.Scans.{AreLeft, AreYes, ScansOn, PassesCode};

use crate::doubtful_leads::doubtful_in_lanes;
use crate::quick_checks::YES;
use crate::scans::{Passed, Scan};
use crate::utf8_fronts::few_at;

/// How many bytes are looked at at once, each in a lane of its own.
const LANES: usize = 64;

/// How many bytes a text has at least where each character that begins in the lanes is whole.
const WHOLE: usize = LANES + 3;

/// How many doubtful characters may begin in the lanes for it to be worth while: where more do, they are read one after
/// the other as quickly.
const MANY: u32 = 24;

/// The least quick check that may pass at a place, where nothing but starters that pass is between it and `end`, behind
/// which that is `now`.
#[inline(always)]
fn low_at(least: u8, now: u8, end: usize, at: usize) -> u8
    requires { least ≤ now }
    ensures least { least ≤ result }
    ensures starters { end < at → result ≡ least }
    ensures same { at ≤ end → result ≡ now }
{
    if end < at { least } else { now }
}

/// The place of the lowest bit.
#[inline(always)]
fn lowest(bits: u64) -> usize
    requires { 0 < bits }
    ensures within { result < 64 }
    ensures set { bit_at bits result ≡ 1 }
    ensures first { (k : ℕ) → k < result → bit_at bits k ≡ 0 }
{
    (bits.trailing_zeros() & 63) as usize
}

/// A character that was passed.
#[derive(Clone, Copy)]
struct PassedChar {
    /// The least quick check that may follow it.
    low: u8,
    /// How many bytes it has.
    count: usize,
}

/// How far the lanes were passed.
#[derive(Clone, Copy)]
struct Reached {
    /// The least quick check that may follow what ends at `end`.
    low: u8,
    /// Where the last character ends of which it must be known what may follow. Behind it stand starters that pass.
    end: usize,
    /// Whether nothing more is to be passed, or what begins there doesn't pass.
    ended: bool,
    /// Whether all doubtful characters were starters that pass, so that more are to come. On this no answer depends.
    starters: bool,
}

impl<'t> Scan<'t> {
    /// Passes the first character of a text, which has several bytes, where it may follow a quick check of `low`. Those of
    /// four bytes are rare, and left to what reads any.
    #[inline(always)]
    fn pass_multibyte(&self, low: u8, text: &str) -> Option<PassedChar>
        requires low { self.now.least ≤ low }
        requires long { 3 ≤ length text.now }
        requires lead_byte { 192 ≤ slice_index text.now 0 }
        ensures least { IfSome result (λ found. self.now.least ≤ found.low) }
        ensures passes { IfSome result (λ found. (c : ℕ) × BeginsWithChar text.now c found.count × PassesCode self.now low c found.low) }
    {
        let few = few_at(text)?;
        let next = self.low_past(low, few.c)?;
        Some(PassedChar {
            low: next,
            count: few.count,
        })
    }

    /// Whether the first character of a text, which has several bytes, is known to be a starter that passes.
    #[inline(always)]
    fn begins_with_starter(&self, text: &str) -> bool
        requires long { 3 ≤ length text.now }
        requires lead_byte { 192 ≤ slice_index text.now 0 }
        ensures { result ≡ true → AreYes self.now text.now 0 1 }
    {
        match few_at(text) {
            Some(few) => self.check_of(few.c) == YES,
            None => false,
        }
    }

    /// Passes doubtful characters as long as they are starters that pass, where such are `expected`. The bits of those are
    /// `doubtful` that begin in the lanes behind `from`; what is answered are the bits that are left. Nothing is carried from
    /// one to the next, so that a processor looks several up at once.
    #[inline(always)]
    fn pass_starters(&self, text: &str, from: usize, doubtful: u64, expected: bool) -> u64
        requires long { from + 67 ≤ length text.now }
        requires doubtful { (k : ℕ) → k < 64 → bit_at doubtful k ≡ 1 → 192 ≤ slice_index text.now (from + k) }
        ensures { (end : ℕ) → AreLeft self.now text.now end from doubtful → AreLeft self.now text.now end from result }
    {
        if !expected {
            return doubtful;
        }
        let mut left = doubtful;
        'doubtful: while left != 0 {
            let at = from + lowest(left);
            if !self.begins_with_starter(&text[at..]) {
                return left;
            }
            left &= left - 1;
        }
        left
    }

    /// Passes the doubtful characters that begin in the lanes behind `from`, whose bits are `doubtful`.
    #[inline(always)]
    fn pass_doubtful(&self, text: &str, from: usize, doubtful: u64, reached: Reached) -> Reached
        requires ascii { self.now.ascii ≡ true }
        requires long { from + 67 ≤ length text.now }
        requires low { self.now.least ≤ reached.low }
        requires end { IsCharBoundary text.now reached.end }
        requires inside { (k : ℕ) → from ≤ k → k < reached.end → slice_index text.now k < 192 }
        requires left { AreLeft self.now text.now reached.end from doubtful }
        ensures goes_on { ScansOn self.now (drop reached.end text.now) reached.low (drop result.end text.now) result.low }
        ensures within { result.end ≤ length text.now }
        ensures starters { result.ended ≡ false → AreYes self.now text.now result.end (from + 64) }
        ensures inside { (k : ℕ) → from + 64 ≤ k → k < result.end → slice_index text.now k < 192 }
    {
        let mut left = doubtful;
        let mut now = reached.low;
        let mut end = reached.end;
        'doubtful: while left != 0 {
            let at = from + lowest(left);
            let behind = low_at(self.least, now, end, at);
            let Some(found) = self.pass_multibyte(behind, &text[at..]) else {
                return Reached {
                    low: behind,
                    end: at,
                    ended: true,
                    starters: false,
                };
            };
            now = found.low;
            end = at + found.count;
            left &= left - 1;
        }
        Reached {
            low: now,
            end,
            ended: false,
            starters: false,
        }
    }

    /// Goes on behind starters that pass, to where the next character begins at `from` or behind it.
    #[inline(always)]
    fn reach(&self, text: &str, from: usize, reached: Reached) -> Reached
        requires ascii { self.now.ascii ≡ true }
        requires from { from ≤ length text.now }
        requires low { self.now.least ≤ reached.low }
        requires end { IsCharBoundary text.now reached.end }
        requires starters { AreYes self.now text.now reached.end from }
        ensures goes_on { ScansOn self.now (drop reached.end text.now) reached.low (drop result.end text.now) result.low }
        ensures within { result.end ≤ length text.now }
        ensures ended { result.ended ≡ true }
    {
        let end = text.ceil_char_boundary(from.max(reached.end));
        Reached {
            low: low_at(self.least, reached.low, reached.end, end),
            end,
            ended: true,
            starters: false,
        }
    }

    /// Passes the characters that begin in the lanes behind `from`: none where many are doubtful. The row is that of the form.
    #[inline(always)]
    fn pass_lanes(&self, row: &[u8; 16], text: &str, from: usize, reached: Reached) -> Reached
        requires row { row.now ≡ row_of self.now.form self.now.doubtful.now }
        requires ascii { self.now.ascii ≡ true }
        requires long { from + 67 ≤ length text.now }
        requires low { self.now.least ≤ reached.low }
        requires end { IsCharBoundary text.now reached.end }
        requires inside { (k : ℕ) → from ≤ k → k < reached.end → slice_index text.now k < 192 }
        requires starters { AreYes self.now text.now reached.end from }
        ensures goes_on { ScansOn self.now (drop reached.end text.now) reached.low (drop result.end text.now) result.low }
        ensures within { result.end ≤ length text.now }
        ensures starters { result.ended ≡ false → AreYes self.now text.now result.end (from + 64) }
        ensures inside { result.ended ≡ false → (k : ℕ) → from + 64 ≤ k → k < result.end → slice_index text.now k < 192 }
    {
        let doubtful = doubtful_in_lanes(row, &text.as_bytes()[from..]);
        if doubtful.count_ones() > MANY {
            return self.reach(text, from, reached);
        }
        let left = self.pass_starters(text, from, doubtful, reached.starters);
        if left == 0 {
            return reached;
        }
        self.pass_doubtful(text, from, left, reached)
    }

    /// Passes the characters at the front of a text that may follow one another as they are, the first of them
    /// behind a quick check of `low`, `LANES` bytes at a time. What is left is shorter, or is not known to
    /// follow. Where it isn't known that all ASCII passes, that is all. It stands by itself since few texts come so far at
    /// a time where a form changes much, and their loop then keeps its registers.
    #[inline(never)]
    pub(crate) fn pass_by_lead_bytes<'a>(&self, low: u8, text: &'a str) -> Passed<'a>
        requires { self.now.least ≤ low }
        ensures { ScansOn self.now text.now low result.rest.now result.low }
    {
        if !self.ascii {
            return Passed { low, rest: text };
        }
        let row = self.doubtful.row(self.form);
        let mut from = 0;
        let mut reached = Reached {
            low,
            end: 0,
            ended: false,
            starters: true,
        };
        'lanes: while text.len() - from >= WHOLE {
            reached = self.pass_lanes(row, text, from, reached);
            if reached.ended {
                return Passed {
                    low: reached.low,
                    rest: &text[reached.end..],
                };
            }
            from += LANES;
        }
        let last = self.reach(text, from, reached);
        Passed {
            low: last.low,
            rest: &text[last.end..],
        }
    }
}
