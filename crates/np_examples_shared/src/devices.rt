//! Readers and writers for tests, each of which can fail at a call that is told beforehand.
ghost use Rattle.std.specs.Prelude.{◌≡◌, ◌≢◌, Some, None, ℕ, ◌-◌, ◌≤◌, List, [], IfErr, IfOk, IsErrAnd, Ok, true, is_some, length, max, min, replicate};
ghost use Rattle.std.specs.Io.{ReadsAtMost, WritesAtMost};
ghost use Rattle.std.specs.IoError.{error_kind};
ghost use Rattle.std.specs.Io.KnownBytes.{Keeps, ReadConsumes, WriteAppends};
ghost use Rattle.np_examples_shared.specs.inside.Devices.{IsNextCall, bytes_left, bytes_taken, endless_call, endless_plan, ends_found, failure_at, left_before_end};
ghost use Rattle.np_examples_shared.specs.inside.Devices.{piece_of, piece_taken};
ghost use Rattle.np_examples_shared.specs.inside.Devices.{reader_call, reader_plan, room_of, writer_call, writer_plan};
ghost use Rattle.np_code_points.specs.Watched.{call_fails, write_fails};

use np_code_points::Memory;
use std::alloc::Global;
use std::io::{Error, ErrorKind, Read, Result as IoResult, Write};

/// How a call fails.
#[derive(Clone, Copy, Debug, PartialEq, Eq)]
pub enum Failure {
    /// By an error.
    Error,
    /// By an error that says that the call was interrupted.
    Interrupted,
    /// A write takes no byte. A read or a flush fails by an error.
    TakesNothing,
}

impl Failure {
    fn error(self) -> Error
        ensures interrupted { self ≡ Failure.Interrupted → error_kind result ≡ ErrorKind.Interrupted }
        ensures other { self ≢ Failure.Interrupted → error_kind result ≡ ErrorKind.Other }
    {
        match self {
            Failure::Interrupted => Error::from(ErrorKind::Interrupted),
            Failure::Error | Failure::TakesNothing => Error::from(ErrorKind::Other),
        }
    }
}

/// The calls so far, and the one that fails.
#[derive(Clone, Copy, Debug, Drop)]
struct Calls {
    made: u64,
    fails: Option<(u64, Failure)>,
}

impl Calls {
    fn new() -> Self
        ensures calm { result.fails ≡ None }
        ensures first { result.made ≡ 0 }
    {
        Calls {
            made: 0,
            fails: None,
        }
    }

    /// As many calls so far, of which that of this number fails.
    fn failing_at(self, call: u64, failure: Failure) -> Self
        ensures fails { result.fails ≡ Some (call, failure) }
        ensures count { result.made ≡ self.made }
    {
        Calls {
            made: self.made,
            fails: Some((call, failure)),
        }
    }

    /// How many calls there were.
    fn count(&self) -> u64
        ensures { result ≡ self.now.made }
    {
        let Calls { made, .. } = self;
        *made
    }

    /// Counts a call, and answers how it fails.
    fn next(&mut self) -> Option<Failure>
        ensures fails { result ≡ failure_at self.old.made self.old.fails }
        ensures plan { self.new.fails ≡ self.old.fails }
        ensures counts { IsNextCall self.old.made self.new.made }
    {
        let call = self.made;
        self.made = call.saturating_add(1);
        match self.fails {
            Some((at, failure)) if at == call => Some(failure),
            _ => None,
        }
    }
}

/// A reader of `bytes` that gives at most `piece` of them a call, and at least one.
#[derive(Debug, Drop)]
pub struct Trickle<'a> {
    bytes: &'a [u8],
    piece: usize,
    calls: Calls,
}

impl<'a> Trickle<'a> {
    /// A reader that does not fail.
    pub fn new(bytes: &'a [u8], piece: usize) -> Self
        ensures bytes { bytes_left result ≡ bytes.now }
        ensures piece { piece_of result ≡ piece }
        ensures calm { reader_plan result ≡ None }
        ensures first { reader_call result ≡ 0 }
    {
        Trickle {
            bytes,
            piece,
            calls: Calls::new(),
        }
    }

    /// The reader, whose call of that number, from 0, fails.
    pub fn failing_at(self, call: u64, failure: Failure) -> Self
        ensures bytes { bytes_left result ≡ bytes_left self.entry }
        ensures piece { piece_of result ≡ piece_of self.entry }
        ensures fails { reader_plan result ≡ Some (call, failure) }
        ensures count { reader_call result ≡ reader_call self.entry }
    {
        Trickle {
            bytes: self.bytes,
            piece: self.piece,
            calls: self.calls.failing_at(call, failure),
        }
    }

    /// How many reads there were, those that failed among them.
    pub fn calls(&self) -> u64
        ensures { result ≡ reader_call self.now }
    {
        self.calls.count()
    }
}

impl Read for Trickle<'_> {
    ghost remaining = { λ t. Some (bytes_left t) };

    fn read(&mut self, buf: &mut [u8]) -> IoResult<usize>
        ensures bound { ReadsAtMost result buf.new }
        ensures bytes { ReadConsumes (Some (bytes_left self.old)) (Some (bytes_left self.new)) result buf.new }
        ensures gives { failure_at (reader_call self.old) (reader_plan self.old) ≡ None →
            result ≡ Ok (min (length (bytes_left self.old)) (min (length buf.old) (max (piece_of self.old) 1))) }
        ensures fails { call_fails result ≡ is_some (failure_at (reader_call self.old) (reader_plan self.old)) }
        ensures interrupted { failure_at (reader_call self.old) (reader_plan self.old) ≡ Some Failure.Interrupted →
            IfErr result (λ e. error_kind e ≡ ErrorKind.Interrupted) }
        ensures other { failure_at (reader_call self.old) (reader_plan self.old) ≡ Some Failure.Error → IfErr result (λ e. error_kind e ≡ ErrorKind.Other) }
        ensures plan { reader_plan self.new ≡ reader_plan self.old }
        ensures counts { IsNextCall (reader_call self.old) (reader_call self.new) }
    {
        if let Some(failure) = self.calls.next() {
            return Err(failure.error());
        }
        let room = buf.len().min(self.piece.max(1));
        self.bytes.read(&mut buf[..room])
    }
}

/// A reader that never ends: it fills each piece with the letter a.
#[derive(Debug, Drop)]
pub struct Endless {
    calls: Calls,
}

impl Endless {
    /// A reader that does not fail.
    pub fn new() -> Self
        ensures calm { endless_plan result ≡ None }
        ensures first { endless_call result ≡ 0 }
    {
        Endless {
            calls: Calls::new(),
        }
    }

    /// The reader, whose call of that number, from 0, fails.
    pub fn failing_at(self, call: u64, failure: Failure) -> Self
        ensures fails { endless_plan result ≡ Some (call, failure) }
        ensures count { endless_call result ≡ endless_call self }
    {
        Endless {
            calls: self.calls.failing_at(call, failure),
        }
    }

    /// How many reads there were, those that failed among them.
    pub fn calls(&self) -> u64
        ensures { result ≡ endless_call self.now }
    {
        self.calls.count()
    }
}

impl Read for Endless {
    ghost remaining = { λ _. None };

    fn read(&mut self, buf: &mut [u8]) -> IoResult<usize>
        ensures bound { ReadsAtMost result buf.new }
        ensures fills { failure_at (endless_call self.old) (endless_plan self.old) ≡ None → result ≡ Ok (length buf.old) }
        ensures letters { IfOk result (λ n. buf.new ≡ replicate n 97) }
        ensures fails { call_fails result ≡ is_some (failure_at (endless_call self.old) (endless_plan self.old)) }
        ensures interrupted { failure_at (endless_call self.old) (endless_plan self.old) ≡ Some Failure.Interrupted →
            IfErr result (λ e. error_kind e ≡ ErrorKind.Interrupted) }
        ensures other { failure_at (endless_call self.old) (endless_plan self.old) ≡ Some Failure.Error → IfErr result (λ e. error_kind e ≡ ErrorKind.Other) }
        ensures plan { endless_plan self.new ≡ endless_plan self.old }
        ensures counts { IsNextCall (endless_call self.old) (endless_call self.new) }
    {
        if let Some(failure) = self.calls.next() {
            return Err(failure.error());
        }
        buf.fill(b'a');
        Ok(buf.len())
    }
}

/// A reader of `bytes` that counts how many reads found its end: one finds it, and each more came behind it.
#[derive(Debug, Drop)]
pub struct Ending<'a> {
    bytes: &'a [u8],
    found: u64,
}

impl<'a> Ending<'a> {
    /// A reader of which nothing is read yet.
    pub fn new(bytes: &'a [u8]) -> Self
        ensures bytes { left_before_end result ≡ bytes.now }
        ensures none { ends_found result ≡ 0 }
    {
        Ending { bytes, found: 0 }
    }

    /// How many reads gave nothing.
    pub fn ends(&self) -> u64
        ensures { result ≡ ends_found self.now }
    {
        let Ending { found, .. } = self;
        *found
    }
}

impl Read for Ending<'_> {
    ghost remaining = { λ e. Some (left_before_end e) };

    fn read(&mut self, buf: &mut [u8]) -> IoResult<usize>
        ensures bound { ReadsAtMost result buf.new }
        ensures bytes { ReadConsumes (Some (left_before_end self.old)) (Some (left_before_end self.new)) result buf.new }
        ensures counts { result ≡ Ok 0 → IsNextCall (ends_found self.old) (ends_found self.new) }
        ensures passes { result ≢ Ok 0 → ends_found self.new ≡ ends_found self.old }
    {
        let outcome = self.bytes.read(buf);
        if let Ok(0) = outcome {
            self.found = self.found.saturating_add(1);
        }
        outcome
    }
}

/// A writer into room that was reserved beforehand, which takes at most `piece` bytes a call.
/// Where the room is full it takes none. Writes and flushes count as calls alike.
#[derive(Debug, Drop)]
pub struct Room {
    bytes: Vec<u8>,
    piece: usize,
    calls: Calls,
}

impl Room {
    /// A writer with that much room, which does not fail until it is full.
    pub fn new(alloc: Global, room: usize, piece: usize) -> Result<Self, Memory>
        ensures bytes { IfOk result (λ r. bytes_taken r ≡ []) }
        ensures room { IfOk result (λ r. room_of r ≡ room) }
        ensures piece { IfOk result (λ r. piece_taken r ≡ piece) }
        ensures calm { IfOk result (λ r. writer_plan r ≡ None) }
        ensures first { IfOk result (λ r. writer_call r ≡ 0) }
    {
        let bytes = Vec::with_capacity(alloc, room)?;
        Ok(Room {
            bytes,
            piece,
            calls: Calls::new(),
        })
    }

    /// The writer, whose call of that number, from 0, fails.
    pub fn failing_at(self, call: u64, failure: Failure) -> Self
        ensures bytes { bytes_taken result ≡ bytes_taken self }
        ensures room { room_of result ≡ room_of self }
        ensures piece { piece_taken result ≡ piece_taken self }
        ensures fails { writer_plan result ≡ Some (call, failure) }
        ensures count { writer_call result ≡ writer_call self }
    {
        let Room {
            bytes,
            piece,
            calls,
        } = self;
        Room {
            bytes,
            piece,
            calls: calls.failing_at(call, failure),
        }
    }

    /// How many writes and flushes there were, those that failed among them.
    pub fn calls(&self) -> u64
        ensures { result ≡ writer_call self.now }
    {
        self.calls.count()
    }

    /// What was taken.
    pub fn bytes(&self) -> &[u8]
        ensures { result.now ≡ bytes_taken self.now }
    {
        self.bytes.as_slice()
    }
}

impl Write for Room {
    ghost contents = { λ r. Some (bytes_taken r) };

    fn write(&mut self, buf: &[u8]) -> IoResult<usize>
        ensures bound { WritesAtMost result buf.now }
        ensures bytes { WriteAppends (Some (bytes_taken self.old)) (Some (bytes_taken self.new)) result buf.now }
        ensures piece { IfOk result (λ n. n ≤ piece_taken self.old) }
        ensures fails { is_some (failure_at (writer_call self.old) (writer_plan self.old)) ≡ true → buf.now ≢ [] → write_fails result buf.now ≡ true }
        ensures interrupted { failure_at (writer_call self.old) (writer_plan self.old) ≡ Some Failure.Interrupted →
            IsErrAnd result (λ e. error_kind e ≡ ErrorKind.Interrupted) }
        ensures other { failure_at (writer_call self.old) (writer_plan self.old) ≡ Some Failure.Error → IsErrAnd result (λ e. error_kind e ≡ ErrorKind.Other) }
        ensures nothing { failure_at (writer_call self.old) (writer_plan self.old) ≡ Some Failure.TakesNothing → result ≡ Ok 0 }
        ensures takes { failure_at (writer_call self.old) (writer_plan self.old) ≡ None →
            result ≡ Ok (min (min (length buf.now) (piece_taken self.old)) (room_of self.old - length (bytes_taken self.old))) }
        ensures plan { writer_plan self.new ≡ writer_plan self.old }
        ensures counts { IsNextCall (writer_call self.old) (writer_call self.new) }
    {
        match self.calls.next() {
            Some(Failure::TakesNothing) => return Ok(0),
            Some(failure) => return Err(failure.error()),
            None => {}
        }
        let left = self.bytes.capacity().saturating_sub(self.bytes.len());
        let taken = buf.len().min(self.piece).min(left);
        if self.bytes.extend_from_slice(&buf[..taken]).is_err() {
            return Ok(0);
        }
        Ok(taken)
    }

    fn flush(&mut self) -> IoResult<()>
        ensures bytes { Keeps (Some (bytes_taken self.old)) (Some (bytes_taken self.new)) }
        ensures fails { call_fails result ≡ is_some (failure_at (writer_call self.old) (writer_plan self.old)) }
        ensures interrupted { failure_at (writer_call self.old) (writer_plan self.old) ≡ Some Failure.Interrupted →
            IfErr result (λ e. error_kind e ≡ ErrorKind.Interrupted) }
        ensures other { failure_at (writer_call self.old) (writer_plan self.old) ≡ Some Failure.Error → IfErr result (λ e. error_kind e ≡ ErrorKind.Other) }
        ensures plan { writer_plan self.new ≡ writer_plan self.old }
        ensures counts { IsNextCall (writer_call self.old) (writer_call self.new) }
    {
        match self.calls.next() {
            Some(failure) => Err(failure.error()),
            None => Ok(()),
        }
    }
}
