//! Fronts of texts that pass the quick check (UAX #15, section 9): starters that pass the quick check, and behind them
//! non-starters in canonical order that never compose backward, or don't compose where they are.
//!
//! A non-starter that is the second part of no composite follows a composite whatever its class is: the parts
//! that canonical ordering puts behind it still compose with the starter. One that may compose backward is not taken
//! to follow a composite or a syllable, since it may compose with a part of that (00E0 0323). What is copied ends
//! before a boundary or with the text; where neither follows, what begins at the last boundary is made anew.
ghost use Rattle.std.specs.Prelude.{◌≡◌, ◌<◌, ◌≤◌, chars, drop, length, slice_index_or, false, IfSome, IsTrue};
ghost use Rattle.np_versions.specs.Boundaries.{BeginsAtBoundary};
ghost use Rattle.np_tables.specs.inside.FullLists.{FullLists};
ghost use Rattle.np_tables.specs.inside.PageProperties.{AreFollowing, ArePages, no_properties};
ghost use Rattle.np_versions.specs.inside.Fronts.{IsPast};
ghost use Rattle.np_versions.specs.inside.Pages.{property_place};
ghost use Rattle.np_tables.specs.inside.Scans.{ScansOn, ScansPast};

use crate::page_hints::boundary_place;
use crate::page_properties::{Properties, properties_of};
use crate::property_bits::has_bit;
use crate::scans::{Passed, Scan, Stretch};
use crate::utf8_fronts::{First, split_any, split_three, split_two};
use np_versions::{QuickSpan, ascii_front};

/// Whether a text begins with ASCII. On this no answer depends.
#[inline(always)]
fn begins_with_ascii(text: &str) -> bool {
    match text.as_bytes().first() {
        Some(byte) => byte.is_ascii(),
        None => false,
    }
}

/// What follows the ASCII at the front of a text.
#[inline(always)]
#[tactic(auto, using(np_versions::proofs::TableLemmas::past_boundary, crate::proofs::QuickSpanLemmas::quick_span_answers))]
fn behind_ascii(text: &str) -> &str
    ensures { IsPast (λ c. c < 128) text.now result.now }
{
    // mostly a single character stands between two words
    if !begins_with_ascii(text) {
        return text;
    }
    &text[ascii_front(text.as_bytes())..]
}

/// How many bytes are passed one code point, or run of ASCII, after the other before several are at once: where a
/// form changes much, what stands between is shorter.
const FEW: usize = 256;

impl<'t> Scan<'t> {
    /// Passes the first character of a text, where it may follow a quick check of `low`.
    #[inline(always)]
    fn pass_first<'a>(&self, low: u8, first: First<'a>) -> Option<Passed<'a>>
        requires { self.now.least ≤ low }
        ensures goes_on { IfSome result (λ passed. ScansPast self.now low first.entry.c first.entry.rest.now passed.rest.now passed.low) }
        ensures rest { IfSome result (λ passed. passed.rest.now ≡ first.entry.rest.now) }
    {
        let next = self.low_past(low, first.c)?;
        Some(Passed {
            low: next,
            rest: first.rest,
        })
    }

    /// Passes the first character of a text, or the ASCII that it begins with, where that may follow a quick check of
    /// `low`: none where it may not, and at the end of the text.
    #[inline(always)]
    fn pass_next<'a>(&self, low: u8, text: &'a str) -> Option<Passed<'a>>
        requires { self.now.least ≤ low }
        ensures goes_on { IfSome result (λ passed. ScansOn self.now text.now low passed.rest.now passed.low) }
        ensures shorter { IfSome result (λ passed. length passed.rest.now < length text.now) }
    {
        if let Some(first) = split_three(text) {
            return self.pass_first(low, first);
        }
        if self.ascii && begins_with_ascii(text) {
            let first = split_any(text)?;
            if first.c.is_ascii() {
                return Some(Passed {
                    low: self.least,
                    rest: behind_ascii(first.rest),
                });
            }
        }
        if let Some(first) = split_two(text) {
            return self.pass_first(low, first);
        }
        self.pass_first(low, split_any(text)?)
    }

    /// Passes code points and runs of ASCII at the front of a text, as far as `FEW` bytes go, that by their quick checks
    /// may follow one another, the first of them behind a quick check of `low`.
    #[inline(always)]
    fn pass_few<'a>(&self, low: u8, text: &'a str) -> Stretch<'a>
        requires { self.now.least ≤ low }
        ensures goes_on { ScansOn self.now text.now low result.passed.rest.now result.passed.low }
        ensures shorter { result.ended ≡ false → length result.passed.rest.now < length text.now }
    {
        // it is some end of the text, so that one comparison tells that there is a next one too
        let stop = text.len().saturating_sub(FEW);
        let mut passed = Passed { low, rest: text };
        'few: while passed.rest.len() > stop {
            let Some(next) = self.pass_next(passed.low, passed.rest) else {
                return Stretch {
                    passed,
                    ended: true,
                };
            };
            passed = next;
        }
        Stretch {
            passed,
            ended: passed.rest.is_empty(),
        }
    }

    /// Passes the code points at the front of a text that by their quick checks may follow one another as they are, the
    /// first of them behind a quick check of `low`.
    #[inline(always)]
    fn pass_by_quick_check<'a>(&self, low: u8, text: &'a str) -> Passed<'a>
        requires { self.now.least ≤ low }
        ensures { ScansOn self.now text.now low result.rest.now result.low }
    {
        let mut passed = Passed { low, rest: text };
        'scan: loop {
            let few = self.pass_few(passed.low, passed.rest);
            if few.ended {
                return few.passed;
            }
            passed = self.pass_by_lead_bytes(few.passed.low, few.passed.rest);
        }
    }

    /// The properties of the code point at which a run ends.
    #[inline(always)]
    fn properties_at(&self, c: char) -> Properties
        requires pages { (lists : FullLists) × ArePages self.now.version.now lists self.now.index.now self.now.all_properties.now }
        ensures properties { result ≡ slice_index_or self.now.all_properties.now (property_place self.now.index.now c) no_properties }
        ensures scalar { c < 0x110000 }
    {
        properties_of(self.index, self.all_properties, c)
    }

    /// The code points at the front of a text that may follow one another as they are. Each has a quick check that is no
    /// less than the least, or does not compose with the one before.
    #[inline(always)]
    pub(crate) fn pass_span(&self, text: &str) -> QuickSpan
        requires { (lists : FullLists) × ArePages self.now.version.now lists self.now.index.now self.now.all_properties.now }
        ensures following { AreFollowing self.now.version.now self.now.least self.now.index.now self.now.quick_checks.now self.now.form text.now result.count }
        ensures boundary { IsTrue result.boundary → BeginsAtBoundary self.now.version.now self.now.form (chars (drop result.count text.now)) }
    {
        let mut low = self.least;
        let mut rest = text;
        'scan: loop {
            let passed = self.pass_by_quick_check(low, rest);
            let front = &text[..text.len() - passed.rest.len()];
            let count = front.len();
            let mut iter = passed.rest.chars();
            let Some(c) = iter.next() else {
                return QuickSpan {
                    count,
                    boundary: true,
                };
            };
            let properties = self.properties_at(c);
            if has_bit(properties.hints, boundary_place(self.form)) {
                return QuickSpan {
                    count,
                    boundary: true,
                };
            }
            let Some(behind) = self.pass_uncomposed(passed.low, front, c, properties) else {
                return QuickSpan {
                    count,
                    boundary: false,
                };
            };
            low = behind;
            rest = iter.as_str();
        }
    }
}
