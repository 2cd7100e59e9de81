//! A stream that owns its table: what a handle on a stream holds.
ghost use Rattle.std.specs.Prelude.{◌≡◌, ◌++◌, ◌+◌, ◌<◌, ◌^◌, [], false, length, chars, IfOk, OnErr, OnOk};
ghost use Rattle.std.specs.Arc.{arc_value};
ghost use Rattle.np_c.specs.Streams.{IsAtFront, IsFeedAnswer, IsFinishAnswer, IsTaken, finish_answer};
ghost use Rattle.np_c.specs.inside.Streams.{EndsText, FeedsChunk, FeedsText, FindsFirst};

use crate::answers::{Answer, CLOSED, DONE, MEMORY, NOT_UTF8, TOO_LONG, UNASSIGNED};
use crate::first_unassigned::FirstUnassigned;
use crate::shared::Shared;
use np_code_points::{Form, Memory};
use np_forms::{ApartStream, Stream, first_unassigned_char, utf8_prefix_of};
use std::alloc::Global;
use std::marker::Model;
use std::mem::replace;
use std::str::from_utf8_unchecked;

/// A table that it shares, and a stream over it, apart.
#[derive(Drop)]
pub struct KeptStream {
    shared: Shared,
    apart: ApartStream,
    /// The bytes at the end of what came that begin a character.
    cut: Vec<u8>,
    /// How many bytes came before them.
    place: u64,
    /// Bytes of the form.
    ready: Vec<u8>,
    /// How many of them were taken.
    taken: usize,
    /// The first code point that is not assigned.
    first: Option<FirstUnassigned>,
    is_finished: bool,
}

impl Model for KeptStream {
    ghost use Rattle.std.specs.Prelude.{◌≤◌, drop, vec_len};
    ghost use Rattle.std.specs.Arc.{arc_value};
    ghost use Rattle.np_forms.specs.ApartStreams.{IsApartOf};
    ghost use Rattle.np_c.specs.Streams.{StreamView};

    ghost Value = { StreamView };

    ghost view = { λ a. record {
      version = arc_value a.shared.table;
      form = a.apart.form;
      pending = a.apart.pending;
      cut = a.cut.items;
      place = a.place;
      ready = drop a.taken a.ready.items;
      first = a.first;
      is_finished = a.is_finished;
    } };

    ghost invariant = { λ a. IsApartOf (arc_value a.shared.table) a.apart × (a.taken ≤ vec_len a.ready) };
}

/// Makes a list one list and another behind it.
fn join(alloc: Global, first: &[u8], second: &[u8]) -> Result<Vec<u8>, Memory>
    ensures { IfOk result (λ v. v.items ≡ first.now ++ second.now) }
{
    let mut list = Vec::from_slice(alloc, first)?;
    list.extend_from_slice(second)?;
    Ok(list)
}

impl KeptStream {
    /// A stream at the front of a text.
    pub fn new(alloc: Global, shared: Shared, form: Form) -> KeptStream
        ensures { IsAtFront (arc_value shared.table) form result }
    {
        let apart = Stream::new(alloc, &*shared.table, form).into_apart();
        KeptStream {
            shared,
            apart,
            cut: Vec::new(alloc),
            place: 0,
            ready: Vec::new(alloc),
            taken: 0,
            first: None,
            is_finished: false,
        }
    }

    /// How many bytes are ready.
    fn ready_len(&self) -> usize
        ensures { result ≡ length self.now.ready }
    {
        self.ready.len() - self.taken
    }

    /// Goes on with the next piece of the text, which may begin and end within a character.
    pub fn feed(&mut self, alloc: Global, piece: &[u8]) -> Answer
        ensures { IsFeedAnswer self.old self.new piece.now result }
    {
        if self.is_finished {
            return Answer::of(CLOSED);
        }
        if self.cut.is_empty() {
            return self.feed_chunk(alloc, piece);
        }
        match join(alloc, &self.cut, piece) {
            Ok(chunk) => self.feed_chunk(alloc, &chunk),
            Err(_) => Answer::of(MEMORY),
        }
    }

    /// Goes on with bytes that begin with those that were cut.
    fn feed_chunk(&mut self, alloc: Global, chunk: &[u8]) -> Answer
        requires { self.old.is_finished ≡ false }
        ensures { FeedsChunk self.old self.new chunk.now result }
    {
        let prefix = utf8_prefix_of(chunk);
        let Some(place) = self.place.checked_add(prefix.text as u64) else {
            return Answer::of(TOO_LONG);
        };
        if !prefix.may_begin {
            return Answer {
                place,
                ..Answer::of(NOT_UTF8)
            };
        }
        // the front of the chunk is UTF-8, which was checked
        let text = unsafe { from_utf8_unchecked(&chunk[..prefix.text]) };
        let Ok(cut) = Vec::from_slice(alloc, &chunk[prefix.text..]) else {
            return Answer::of(MEMORY);
        };
        let first = self.first_with(text);
        let Ok(()) = self.feed_text(alloc, text) else {
            return Answer::of(MEMORY);
        };
        self.cut = cut;
        self.place = place;
        self.first = first;
        Answer {
            length: self.ready_len() as u64,
            ..Answer::of(DONE)
        }
    }

    /// The first code point that is not assigned, of what came and the text behind it.
    fn first_with(&self, text: &str) -> Option<FirstUnassigned>
        requires { self.now.place + length text.now < 2 ^ 64 }
        ensures { FindsFirst self.now text.now result }
    {
        if self.first.is_some() {
            return self.first;
        }
        match first_unassigned_char(&*self.shared.table, text) {
            Some((at, c)) => Some(FirstUnassigned {
                place: self.place + at as u64,
                code: u32::from(c),
            }),
            None => None,
        }
    }

    /// Takes a text in.
    ///
    /// # Errors
    ///
    /// `Memory` where memory ran out; then the stream is as it was.
    fn feed_text(&mut self, alloc: Global, text: &str) -> Result<(), Memory>
        ensures ok { OnOk result (FeedsText self.old self.new (chars text.now)) }
        ensures err { OnErr result (self.new ≡ self.old) }
    {
        self.let_go();
        let form = self.apart.form();
        let apart = replace(&mut self.apart, ApartStream::new(alloc, form));
        let mut stream = Stream::of_apart(&*self.shared.table, apart);
        let fed = stream.feed_text(text, &mut self.ready);
        self.apart = stream.into_apart();
        fed
    }

    /// Lets go of the bytes that were taken, where they are most: so each byte is moved once at most, on average.
    fn let_go(&mut self)
        ensures { self.new ≡ self.old }
    {
        let left = self.ready.len() - self.taken;
        if self.taken > left {
            self.ready.copy_within(self.taken.., 0);
            self.ready.truncate(left);
            self.taken = 0;
        }
    }

    /// Writes as much as fits of what is ready to the front of the room.
    pub fn take(&mut self, room: &mut [u8]) -> Answer
        ensures { IsTaken self.old self.new room.old room.new result }
    {
        let count = self.ready_len().min(room.len());
        let end = self.taken + count;
        room[..count].copy_from_slice(&self.ready[self.taken..end]);
        self.taken = end;
        Answer {
            place: self.ready_len() as u64,
            length: count as u64,
            ..Answer::of(DONE)
        }
    }

    /// Ends the text.
    pub fn finish(&mut self, alloc: Global) -> Answer
        ensures { IsFinishAnswer self.old self.new result }
    {
        if self.is_finished {
            return Answer::of(CLOSED);
        }
        if !self.cut.is_empty() {
            return Answer {
                place: self.place,
                ..Answer::of(NOT_UTF8)
            };
        }
        let Ok(()) = self.end_text(alloc) else {
            return Answer::of(MEMORY);
        };
        self.is_finished = true;
        self.ending()
    }

    /// Makes the rest of the form ready.
    ///
    /// # Errors
    ///
    /// `Memory` where memory ran out; then the stream is as it was.
    fn end_text(&mut self, alloc: Global) -> Result<(), Memory>
        ensures ok { OnOk result (EndsText self.old self.new) }
        ensures err { OnErr result (self.new ≡ self.old) }
    {
        self.let_go();
        let form = self.apart.form();
        let apart = replace(&mut self.apart, ApartStream::new(alloc, form));
        let mut stream = Stream::of_apart(&*self.shared.table, apart);
        let ended = stream.finish_text(&mut self.ready);
        self.apart = stream.into_apart();
        ended
    }

    /// What is told of a text that ended.
    fn ending(&self) -> Answer
        ensures { result ≡ finish_answer self.now.first (length self.now.ready) }
    {
        let length = self.ready_len() as u64;
        match self.first {
            None => Answer {
                length,
                ..Answer::of(DONE)
            },
            Some(first) => Answer {
                code: first.code,
                place: first.place,
                length,
                ..Answer::of(UNASSIGNED)
            },
        }
    }
}
