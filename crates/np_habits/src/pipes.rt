//! An output that nobody may read on, and what is told beside it.
ghost use Rattle.std.specs.Prelude.{◌≡◌, None};
ghost use Rattle.std.specs.Io.{WritesAtMost};
ghost use Rattle.std.specs.Io.KnownBytes.{Keeps, WriteAppends};

use std::cell::Cell;
use std::io::{ErrorKind, Result, Write};

/// An output that marks where it is a pipe, or a socket, that nobody reads on. Writes answer what the output answers.
#[derive(Drop)]
pub struct PipedOutput<'m, W> {
    output: W,
    is_unread: &'m Cell<bool>,
}

impl<'m, W> PipedOutput<'m, W> {
    /// The output, and its mark.
    pub fn new(output: W, is_unread: &'m Cell<bool>) -> PipedOutput<'m, W> {
        PipedOutput { output, is_unread }
    }
}

impl<'m, W: Write> Write for PipedOutput<'m, W> {
    ghost contents = { λ it. W.contents it.output };

    fn write(&mut self, buf: &[u8]) -> Result<usize>
        ensures bound { WritesAtMost result buf.now }
        ensures bytes { WriteAppends (W.contents self.old.output) (W.contents self.new.output) result buf.now }
    {
        let outcome = self.output.write(buf);
        if let Err(why) = &outcome {
            self.is_unread.set(why.kind() == ErrorKind::BrokenPipe);
        }
        outcome
    }

    fn flush(&mut self) -> Result<()>
        ensures bytes { Keeps (W.contents self.old.output) (W.contents self.new.output) }
    {
        self.output.flush()
    }
}

/// Where refusals are told, unless nobody reads the output on: then what is told goes nowhere.
#[derive(Drop)]
pub struct QuietError<'m, E> {
    error: E,
    is_unread: &'m Cell<bool>,
}

impl<'m, E> QuietError<'m, E> {
    /// What tells, and the mark of the output.
    pub fn new(error: E, is_unread: &'m Cell<bool>) -> QuietError<'m, E> {
        QuietError { error, is_unread }
    }
}

impl<'m, E: Write> Write for QuietError<'m, E> {
    ghost contents = { λ it. None };

    fn write(&mut self, buf: &[u8]) -> Result<usize>
        ensures bound { WritesAtMost result buf.now }
        ensures bytes { WriteAppends None None result buf.now }
    {
        if self.is_unread.get() {
            return Ok(buf.len());
        }
        self.error.write(buf)
    }

    fn flush(&mut self) -> Result<()>
        ensures bytes { Keeps None None }
    {
        if self.is_unread.get() {
            return Ok(());
        }
        self.error.flush()
    }
}
