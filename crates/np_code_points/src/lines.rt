//! The lines of a file, as the Unicode Character Database has them (UAX #44, section 4.2).
ghost use Rattle.std.specs.Prelude.{◌≡◌, ◌==◌, ◌<◌, ◌≤◌, ◌+◌, ◌∷◌, ◌≢◌, ℕ, List, [], length, drop, option_map, MatchOption, IfOk, IfErr, Some, None};
ghost use Rattle.std.specs.List.{count_by, list_all, prefix_len};
ghost use lib.Lanes.{chunk};
ghost use Rattle.np_code_points.specs.Lines.{AreDataLines, AreLines};
ghost use Rattle.np_code_points.specs.inside.LineCuts.{before_byte, after_byte, data_lines_in, lines_of, without_return as returned, is_blank as blank};
ghost use Rattle.np_code_points.specs.inside.LineCuts.{is_comment as comment, is_skipped as skipped, is_byte, is_other, HasPassed};

use std::marker::Model;
use std::simd::prelude::*;

/// How many bytes a step of a search looks at.
const STEP: usize = 16;

/// How many bytes a step looks at where there are so many: few lines are longer.
const LONG_STEP: usize = 64;

/// How many of the `N` bytes from a place on stand before the first such byte: all where there is
/// none.
#[inline(always)]
fn before_in_step<const N: usize>(bytes: &[u8], from: usize, byte: u8) -> usize
    requires narrow { N ≤ 64 }
    requires room { from + N ≤ length bytes.now }
    ensures { result ≡ prefix_len (is_other byte) (chunk from N bytes.now) }
{
    let found = Simd::<u8, N>::from_slice(&bytes[from..])
        .simd_eq(Simd::splat(byte))
        .to_bitmask();
    if found == 0 {
        N
    } else {
        found.trailing_zeros() as usize
    }
}

/// How many bytes stand before the first such byte from a place on; all where there is none.
fn before_from(bytes: &[u8], from: usize, byte: u8) -> usize
    requires within { from ≤ length bytes.now }
    ensures { result ≡ from + prefix_len (is_other byte) (drop from bytes.now) }
{
    let mut at = from;
    while at < bytes.len() && bytes[at] != byte {
        at += 1;
    }
    at
}

/// How many bytes stand before the first such byte from a place on, where steps of `N` bytes find
/// it; or else the place that they come to, behind which fewer than `N` bytes are left.
#[inline(always)]
fn before_by_steps<const N: usize>(bytes: &[u8], from: usize, byte: u8) -> Result<usize, usize>
    requires some { 0 < N }
    requires narrow { N ≤ 64 }
    requires within { from ≤ length bytes.now }
    ensures found { IfOk result (λ at. at ≡ from + prefix_len (is_other byte) (drop from bytes.now)) }
    ensures passed { IfErr result (λ at. HasPassed (is_other byte) bytes.now from at) }
{
    let mut at = from;
    while bytes.len() - at >= N {
        let passed = before_in_step::<N>(bytes, at, byte);
        if passed < N {
            return Ok(at + passed);
        }
        at += N;
    }
    Err(at)
}

/// How many bytes stand before the first such byte; all where there is none.
fn before(bytes: &[u8], byte: u8) -> usize
    ensures { result ≡ prefix_len (is_other byte) bytes.now }
{
    let at = match before_by_steps::<LONG_STEP>(bytes, 0, byte) {
        Ok(at) => return at,
        Err(at) => at,
    };
    match before_by_steps::<STEP>(bytes, at, byte) {
        Ok(at) => at,
        Err(at) => before_from(bytes, at, byte),
    }
}

/// What stands before a place, and what stands behind it where there is one: the first place of a
/// byte, or the end where there is none.
fn cut_at(bytes: &[u8], at: usize) -> (&[u8], Option<&[u8]>)
    ensures before { (byte : ℕ) → at ≡ prefix_len (is_other byte) bytes.now → result.0.now ≡ before_byte byte bytes.now }
    ensures after { (byte : ℕ) → at ≡ prefix_len (is_other byte) bytes.now → option_map (λ rest. rest.now) result.1 ≡ after_byte byte bytes.now }
{
    if at < bytes.len() {
        (&bytes[..at], Some(&bytes[at + 1..]))
    } else {
        (bytes, None)
    }
}

/// What stands before the first such byte, and what stands behind it where there is one. In time
/// linear in what stands before it.
pub fn cut(bytes: &[u8], byte: u8) -> (&[u8], Option<&[u8]>)
    ensures before { result.0.now ≡ before_byte byte bytes.now }
    ensures after { option_map (λ rest. rest.now) result.1 ≡ after_byte byte bytes.now }
{
    cut_at(bytes, before(bytes, byte))
}

/// What stands before the first such byte, and what stands behind it where there is one. It looks at one
/// byte after the other, which is quicker than steps of many where few stand before the first such byte.
pub fn cut_short(bytes: &[u8], byte: u8) -> (&[u8], Option<&[u8]>)
    ensures before { result.0.now ≡ before_byte byte bytes.now }
    ensures after { option_map (λ rest. rest.now) result.1 ≡ after_byte byte bytes.now }
{
    cut_at(bytes, before_from(bytes, 0, byte))
}

/// How many of the `STEP` bytes from a place on, but for the first `skipped`, are this byte.
#[inline(always)]
fn counted_in_step(bytes: &[u8], from: usize, skipped: usize, byte: u8) -> usize
    requires room { from + 16 ≤ length bytes.now }
    requires skipped { skipped ≤ 16 }
    ensures { result ≡ count_by (is_byte byte) (drop skipped (chunk from 16 bytes.now)) }
{
    let found = u8x16::from_slice(&bytes[from..])
        .simd_eq(u8x16::splat(byte))
        .to_bitmask();
    (found >> skipped).count_ones() as usize
}

/// How many of these bytes, at least `STEP`, are this byte.
fn counted_by_steps(bytes: &[u8], byte: u8) -> usize
    requires long { 16 ≤ length bytes.now }
    ensures { result ≡ count_by (is_byte byte) bytes.now }
{
    let mut at = 0;
    let mut count = 0;
    while bytes.len() - at >= STEP {
        count += counted_in_step(bytes, at, 0, byte);
        at += STEP;
    }
    // the last step begins among bytes that are counted already
    let left = bytes.len() - at;
    count + counted_in_step(bytes, bytes.len() - STEP, STEP - left, byte)
}

/// How often a byte stands among these. In time linear in their number.
pub fn count(bytes: &[u8], byte: u8) -> usize
    ensures { result ≡ count_by (λ b. b == byte) bytes.now }
{
    if bytes.len() < STEP {
        bytes.iter().filter(|b| **b == byte).count()
    } else {
        counted_by_steps(bytes, byte)
    }
}

/// The first line without its LF, and what is behind it.
fn cut_line(bytes: &[u8]) -> (&[u8], &[u8])
    requires { bytes.now ≢ [] }
    ensures line { lines_of bytes.now ≡ result.0.now ∷ lines_of result.1.now }
    ensures shorter { length result.1.now < length bytes.now }
{
    let (line, rest) = cut(bytes, b'\n');
    match rest {
        Some(rest) => (line, rest),
        None => (line, &[]),
    }
}

/// The line without one CR at its end.
fn without_return(line: &[u8]) -> &[u8]
    ensures { result.now ≡ returned line.now }
{
    let len = line.len();
    if len > 0 && line[len - 1] == b'\r' {
        &line[..len - 1]
    } else {
        line
    }
}

/// Whether the byte is a space or a tab.
pub fn is_blank(byte: u8) -> bool
    ensures { result ≡ blank byte }
{
    byte == b' ' || byte == b'\t'
}

/// Whether a line has only spaces and tabs.
fn are_blank(line: &[u8]) -> bool
    ensures { result ≡ list_all blank line.now }
{
    line.iter().all(|b| is_blank(*b))
}

/// Whether a line begins with `#`.
fn is_comment(line: &[u8]) -> bool
    ensures { result ≡ comment line.now }
{
    !line.is_empty() && line[0] == b'#'
}

/// Whether a line holds no data.
#[tactic(auto, unfolding(crate::specs::inside::LineCuts::is_skipped))]
fn is_skipped(line: &[u8]) -> bool
    ensures { result ≡ skipped line.now }
{
    are_blank(line) || is_comment(line)
}

/// A line that holds data: it is neither blank nor a comment.
#[derive(Clone, Copy, Debug, PartialEq, Eq)]
pub struct DataLine<'a> {
    /// The number of the line in its file, from 1; blank lines and comments count.
    pub number: u64,
    /// The line without its LF, and without one CR at its end.
    pub text: &'a [u8],
}

/// The data lines of a file, in their order, each with its number.
///
/// LF ends a line, a last line without LF counts as one, and one CR at a line's end is dropped
/// (UAX #44, section 4.2). Lines of spaces and tabs alone, and those that begin with `#`, are
/// skipped, but counted. Linear in the file's length; nothing is copied.
#[derive(Debug, Drop)]
pub struct DataLines<'a> {
    rest: &'a [u8],
    passed: u64,
}

impl<'a> Model for DataLines<'a> {
    ghost use Rattle.std.specs.Prelude.{◌+◌, ◌<◌, ◌^◌, length};
    ghost use Rattle.np_code_points.specs.Lines.{Walk};
    ghost use Rattle.np_code_points.specs.inside.LineCuts.{walk_at};

    ghost Value = { Walk };

    ghost view = { λ a. walk_at a.passed a.rest.now };

    ghost invariant = { λ a. a.passed + length a.rest.now < 2 ^ 64 };
}

impl<'a> DataLines<'a> {
    /// The data lines of a file's bytes.
    pub fn new(bytes: &'a [u8]) -> DataLines<'a>
        ensures lines { AreDataLines bytes.now result.left }
        ensures same { result.left ≡ data_lines_in bytes.now }
        ensures begun { result.passed ≡ 0 }
        ensures total { (lines : List (List ℕ)) → AreLines bytes.now lines → result.total ≡ length lines }
    {
        DataLines {
            rest: bytes,
            passed: 0,
        }
    }

    /// How many lines were passed, the skipped ones included: once `next` answered `None`, all lines
    /// of the file.
    pub fn passed(&self) -> u64
        ensures { result ≡ self.now.passed }
    {
        self.passed
    }
}

impl<'a> Iterator for DataLines<'a> {
    ghost use Rattle.std.specs.Iterator.{item_count};
    ghost use Rattle.np_code_points.specs.Lines.{Walk, TakesLine};

    type Item = DataLine<'a>;

    ghost next_gives = { TakesLine };

    ghost remaining = { item_count (λ (w : Walk). w.left) };

    fn next(&mut self) -> Option<DataLine<'a>> {
        while !self.rest.is_empty() {
            let (line, rest) = cut_line(self.rest);
            self.rest = rest;
            self.passed += 1;
            let text = without_return(line);
            if !is_skipped(text) {
                return Some(DataLine {
                    number: self.passed,
                    text,
                });
            }
        }
        None
    }
}
