//! Texts that are written at their end, into memory that was made before: a short run of bytes costs a load
//! and a store of one size, whatever its length.
ghost use Rattle.std.specs.Prelude.{◌≡◌, ◌+◌, ◌*◌, ◌≤◌, ◌<◌, ◌++◌, [], length, take, vec_len, string_bytes, encode_utf8, encode_utf8_all, IsUtf8, IfOk, OnOk};
ghost use Rattle.np_forms.specs.inside.Classes.{codes_of};

use crate::classes::Classed;
use crate::utf8_bytes::{four_bytes, three_bytes, two_bytes};
use np_code_points::Memory;
use std::alloc::Global;
use std::marker::Model;
use std::simd::prelude::*;
use std::str::from_utf8_unchecked;

/// How many bytes are copied at once, each in a lane of its own.
const LANES: usize = 32;

/// How many bytes are filled at once for what is still to be written: what `Vec` reserves beyond that costs
/// no memory until it is filled.
const FILLED: usize = 65_536;

/// The most bytes that a character has.
const MOST: usize = 4;

/// How many code points a list has at most for which the buffer is grown at once.
const MANY: usize = 4_096;

/// A text in the front of its buffer. What is behind it there is of no text.
#[derive(Drop)]
pub(crate) struct OutText {
    buffer: Vec<u8>,
    len: usize,
    ghost within: { len ≤ vec_len buffer },
}

impl Model for OutText {
    ghost use Rattle.std.specs.Prelude.{ℕ, List, IsUtf8, take};

    ghost Value = { List ℕ };

    ghost view = { λ a. take a.len a.buffer.items };

    ghost invariant = { λ a. IsUtf8 (take a.len a.buffer.items) };
}

/// Makes the buffer longer, so that so many bytes and `LANES` more have a place behind the first `len`.
#[inline(never)]
fn grow(buffer: &mut Vec<u8>, len: usize, count: usize) -> Result<(), Memory>
    requires { len ≤ vec_len buffer.old }
    ensures same { take len buffer.new.items ≡ take len buffer.old.items }
    ensures within { len ≤ vec_len buffer.new }
    ensures space { OnOk result (len + count ≤ vec_len buffer.new) }
{
    let Some(least) = len.checked_add(count) else {
        return Err(Memory);
    };
    let more = len.min(FILLED) + LANES;
    buffer.resize(least.saturating_add(more), 0)?;
    Ok(())
}

/// Sees that so many bytes have a place behind the first `len`.
#[inline(always)]
fn reserve(buffer: &mut Vec<u8>, len: usize, count: usize) -> Result<(), Memory>
    requires { len ≤ vec_len buffer.old }
    ensures same { take len buffer.new.items ≡ take len buffer.old.items }
    ensures within { len ≤ vec_len buffer.new }
    ensures space { OnOk result (len + count ≤ vec_len buffer.new) }
{
    if buffer.len() - len >= count {
        return Ok(());
    }
    grow(buffer, len, count)
}

/// Puts a run into a buffer, and answers the place behind it.
#[inline(always)]
fn put_run(buffer: &mut [u8], at: usize, run: &[u8]) -> usize
    requires { at + length run.now ≤ length buffer.old }
    ensures bytes { take result buffer.new ≡ take at buffer.old ++ run.now }
    ensures place { result ≡ at + length run.now }
    ensures length { length buffer.new ≡ length buffer.old }
{
    let end = at + run.len();
    buffer[at..end].copy_from_slice(run);
    end
}

/// Puts a run at the end of what was written.
#[inline(always)]
fn write_run(buffer: &mut Vec<u8>, at: usize, run: &[u8]) -> usize
    requires { at + length run.now ≤ vec_len buffer.old }
    ensures bytes { take result buffer.new.items ≡ take at buffer.old.items ++ run.now }
    ensures within { result ≤ vec_len buffer.new }
{
    put_run(buffer, at, run)
}

/// Stores the first `count` bytes of a run, and what follows them up to `LANES`.
#[inline(always)]
fn store_lanes(buffer: &mut [u8], at: usize, run: &[u8], count: usize) -> usize
    requires few { count ≤ 32 }
    requires run { 32 ≤ length run.now }
    requires space { at + 32 ≤ length buffer.old }
    ensures bytes { take result buffer.new ≡ take at buffer.old ++ take count run.now }
    ensures within { result ≤ length buffer.new }
    ensures length { length buffer.new ≡ length buffer.old }
{
    u8x32::from_slice(run).copy_to_slice(&mut buffer[at..]);
    at + count
}

/// Writes the first `count` bytes of a run, and what follows them up to `LANES`, and answers the place
/// behind the first.
#[inline(always)]
fn write_lanes(buffer: &mut Vec<u8>, at: usize, run: &[u8], count: usize) -> usize
    requires few { count ≤ 32 }
    requires run { 32 ≤ length run.now }
    requires space { at + 32 ≤ vec_len buffer.old }
    ensures bytes { take result buffer.new.items ≡ take at buffer.old.items ++ take count run.now }
    ensures within { result ≤ vec_len buffer.new }
{
    store_lanes(buffer, at, run, count)
}

/// Puts a character where any has a place, and answers the place behind it.
#[inline(always)]
#[tactic(auto, using(crate::proofs::OutTextLemmas::char_answers))]
fn put_char(buffer: &mut [u8], at: usize, c: char) -> usize
    requires { at + 4 ≤ length buffer.old }
    ensures bytes { take result buffer.new ≡ take at buffer.old ++ encode_utf8 c }
    ensures utf8 { IsUtf8 (encode_utf8 c) }
    ensures place { result ≤ at + 4 }
    ensures length { length buffer.new ≡ length buffer.old }
{
    let code = c as u32;
    if code < 0x80 {
        put_run(buffer, at, &[code as u8])
    } else if code < 0x800 {
        put_run(buffer, at, &two_bytes(code))
    } else if code < 0x1_0000 {
        put_run(buffer, at, &three_bytes(code))
    } else {
        put_run(buffer, at, &four_bytes(code))
    }
}

/// Puts a character at the end of what was written.
#[inline(always)]
fn write_char(buffer: &mut Vec<u8>, at: usize, c: char) -> usize
    requires { at + 4 ≤ vec_len buffer.old }
    ensures bytes { take result buffer.new.items ≡ take at buffer.old.items ++ encode_utf8 c }
    ensures utf8 { IsUtf8 (encode_utf8 c) }
    ensures within { result ≤ vec_len buffer.new }
{
    put_char(buffer, at, c)
}

/// Puts the code points of a list where each has four bytes, and answers the place behind them.
fn put_codes(buffer: &mut [u8], at: usize, list: &[Classed]) -> usize
    requires { at + 4 * length list.now ≤ length buffer.old }
    ensures bytes { take result buffer.new ≡ take at buffer.old ++ encode_utf8_all (codes_of list.now) }
    ensures utf8 { IsUtf8 (encode_utf8_all (codes_of list.now)) }
    ensures within { result ≤ length buffer.new }
    ensures length { length buffer.new ≡ length buffer.old }
{
    let mut end = at;
    for c in list {
        end = put_char(buffer, end, c.code());
    }
    end
}

/// Puts a list of code points at the end of what was written.
#[inline(always)]
fn write_codes(buffer: &mut Vec<u8>, at: usize, list: &[Classed]) -> usize
    requires { at + 4 * length list.now ≤ vec_len buffer.old }
    ensures bytes { take result buffer.new.items ≡ take at buffer.old.items ++ encode_utf8_all (codes_of list.now) }
    ensures utf8 { IsUtf8 (encode_utf8_all (codes_of list.now)) }
    ensures within { result ≤ vec_len buffer.new }
{
    put_codes(buffer, at, list)
}

impl OutText {
    /// No text, and an empty buffer.
    pub(crate) fn new(alloc: Global) -> OutText
        ensures { result ≡ [] }
    {
        OutText {
            buffer: Vec::new(alloc),
            len: 0,
        }
    }

    /// No text, and a buffer for so many bytes and `LANES` more.
    pub(crate) fn with_capacity(alloc: Global, count: usize) -> Result<OutText, Memory>
        ensures { IfOk result (λ t. t ≡ []) }
    {
        let mut buffer = Vec::with_capacity(alloc, count.saturating_add(LANES))?;
        buffer.resize(count.min(FILLED) + LANES, 0)?;
        Ok(OutText { buffer, len: 0 })
    }

    /// Takes the text away, also where memory ran out, and sees that the buffer has a place for so many bytes and `LANES` more.
    pub(crate) fn begin(&mut self, count: usize) -> Result<(), Memory>
        ensures { self.new ≡ [] }
    {
        self.len = 0;
        let filled = count.min(FILLED) + LANES;
        if self.buffer.len() < filled {
            self.buffer.reserve(count.saturating_add(LANES))?;
            self.buffer.resize(filled, 0)?;
        }
        Ok(())
    }

    /// How many bytes the buffer has.
    pub(crate) fn space(&self) -> usize {
        self.buffer.len()
    }

    /// Its bytes.
    pub(crate) fn as_bytes(&self) -> &[u8]
        ensures { result.now ≡ self.now }
    {
        &self.buffer[..self.len]
    }

    /// The text.
    pub(crate) fn as_text(&self) -> &str
        ensures { result.now ≡ self.now }
    {
        unsafe { from_utf8_unchecked(&self.buffer[..self.len]) }
    }

    /// Takes the text away, and leaves the buffer.
    pub(crate) fn clear(&mut self)
        ensures { self.new ≡ [] }
    {
        self.len = 0;
    }

    /// The text, without the rest of its buffer.
    pub(crate) fn into_text(self) -> String
        ensures { string_bytes result ≡ self }
    {
        let OutText {
            mut buffer,
            len,
            ..
        } = self;
        buffer.truncate(len);
        unsafe { String::from_utf8_unchecked(buffer) }
    }

    /// Appends bytes. It is made part of what calls it, so that a number of them that the program tells
    /// is copied by so many stores.
    #[inline(always)]
    pub(crate) fn append_bytes(&mut self, bytes: &[u8]) -> Result<(), Memory>
        requires { IsUtf8 bytes.now }
        ensures { OnOk result (self.new ≡ self.old ++ bytes.now) }
    {
        reserve(&mut self.buffer, self.len, bytes.len())?;
        self.len = write_run(&mut self.buffer, self.len, bytes);
        Ok(())
    }

    /// Appends bytes by a call.
    #[inline(never)]
    fn append_run(&mut self, run: &[u8]) -> Result<(), Memory>
        requires { IsUtf8 run.now }
        ensures { OnOk result (self.new ≡ self.old ++ run.now) }
    {
        self.append_bytes(run)
    }

    /// Appends the first `count` of some bytes. It is quickest where there are `LANES` of them.
    #[inline(always)]
    pub(crate) fn append_first(&mut self, bytes: &[u8], count: usize) -> Result<(), Memory>
        requires fits { count ≤ length bytes.now }
        requires utf8 { IsUtf8 (take count bytes.now) }
        ensures { OnOk result (self.new ≡ self.old ++ take count bytes.now) }
    {
        if count <= LANES && bytes.len() >= LANES && self.buffer.len() - self.len >= LANES {
            self.len = write_lanes(&mut self.buffer, self.len, bytes, count);
            return Ok(());
        }
        self.append_run(&bytes[..count])
    }

    /// Appends a front of a text.
    #[inline(always)]
    pub(crate) fn append_front(&mut self, text: &str, front: &str) -> Result<(), Memory>
        requires { take (length front.now) text.now ≡ front.now }
        ensures { OnOk result (self.new ≡ self.old ++ front.now) }
    {
        self.append_first(text.as_bytes(), front.len())
    }

    /// Appends a character.
    #[inline(always)]
    pub(crate) fn append_char(&mut self, c: char) -> Result<(), Memory>
        ensures { OnOk result (self.new ≡ self.old ++ encode_utf8 c) }
    {
        reserve(&mut self.buffer, self.len, MOST)?;
        self.len = write_char(&mut self.buffer, self.len, c);
        Ok(())
    }

    /// Appends characters.
    pub(crate) fn append_chars(&mut self, chars: &[char]) -> Result<(), Memory>
        ensures { OnOk result (self.new ≡ self.old ++ encode_utf8_all chars.now) }
    {
        for c in chars {
            self.append_char(*c)?;
        }
        Ok(())
    }

    /// Appends the code points of a list, with a place for each by itself: those of a long list have far fewer
    /// bytes than any could have.
    fn append_each(&mut self, list: &[Classed]) -> Result<(), Memory>
        ensures { OnOk result (self.new ≡ self.old ++ encode_utf8_all (codes_of list.now)) }
    {
        for c in list {
            self.append_char(c.code())?;
        }
        Ok(())
    }

    /// Appends the code points of a list. Where it is short, a place for any is made once.
    pub(crate) fn append_codes(&mut self, list: &[Classed]) -> Result<(), Memory>
        ensures { OnOk result (self.new ≡ self.old ++ encode_utf8_all (codes_of list.now)) }
    {
        if list.len() > MANY {
            return self.append_each(list);
        }
        reserve(&mut self.buffer, self.len, list.len() * MOST)?;
        self.len = write_codes(&mut self.buffer, self.len, list);
        Ok(())
    }
}
