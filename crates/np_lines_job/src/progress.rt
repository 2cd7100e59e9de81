//! An input that tells how far it was read.
ghost use Rattle.std.specs.Prelude.{◌≡◌};
ghost use Rattle.std.specs.Io.{ReadsAtMost};
ghost use Rattle.std.specs.Io.KnownBytes.{ReadConsumes};

use np_lines::LineEnd;
use std::io::{Read, Result};
use std::rt::Runtime;
use std::time::{Duration, Instant};

/// How often it is told, in seconds.
const PAUSE: u64 = 1;

/// How far an input was read, and when that was told.
#[derive(Clone, Copy, Drop)]
struct Done {
    /// The byte that ends lines.
    end: u8,
    /// The lines that ended.
    lines: u64,
    /// The bytes.
    bytes: u64,
    /// How many bytes there are, where that is known.
    size: Option<u64>,
    /// Whether a line has begun that did not end.
    has_begun: bool,
    /// When it was told last.
    told: Option<Instant>,
}

/// How many of these bytes are `byte`.
fn count_of(bytes: &[u8], byte: u8) -> u64 {
    let mut count: u64 = 0;
    for here in bytes {
        if *here == byte {
            count = count.wrapping_add(1);
        }
    }
    count
}

/// Which part of so many bytes these are, in percent from 0 to 100.
fn share_of(bytes: u64, size: u64) -> u64 {
    if bytes >= size {
        return 100;
    }
    let share = u128::from(bytes) * 100 / u128::from(size);
    u64::try_from(share).unwrap_or(100)
}

impl Done {
    /// Takes in what was read.
    fn pass(&mut self, piece: &[u8]) {
        self.lines = self.lines.wrapping_add(count_of(piece, self.end));
        self.bytes = self.bytes.wrapping_add(piece.len() as u64);
        if let Some(last) = piece.last() {
            self.has_begun = *last != self.end;
        }
    }

    /// Whether it is time to tell it again.
    fn is_due<R: Runtime>(&self, rt: &R) -> bool {
        match (self.told, Instant::now(rt)) {
            (Some(told), Ok(now)) => now.duration_since(told) >= Duration::from_secs(PAUSE),
            (None, Ok(_)) => true,
            // where there is no clock nothing is told but the end
            (_, Err(_)) => false,
        }
    }

    /// Tells it on one line, which the next one takes the place of.
    fn tell<R: Runtime>(&mut self, rt: &R, behind: char) {
        self.told = Instant::now(rt).ok();
        let lines = self.lines.wrapping_add(u64::from(self.has_begun));
        let bytes = self.bytes;
        // what can't be told on standard error is told nowhere
        let _ = match self.size {
            Some(size) => {
                let share = share_of(bytes, size);
                eprint!(rt; "{lines} lines, {bytes} bytes, {share} %{behind}")
            }
            None => eprint!(rt; "{lines} lines, {bytes} bytes{behind}"),
        };
    }
}

/// An input that tells on standard error how far it was read: lines, bytes, and their share of all bytes where it is known
/// how many there are, once a second on one line, and at the end of the input. Reads answer what the input answers.
#[derive(Drop)]
pub struct Progress<'a, R, I> {
    rt: &'a R,
    input: I,
    done: Option<Done>,
}

impl<'a, R: Runtime, I: Read> Progress<'a, R, I> {
    /// The input; it tells nothing unless the byte that ends lines is given. `size` is how many bytes it has, where that is
    /// known.
    pub fn new(
        rt: &'a R,
        input: I,
        shown: Option<LineEnd>,
        size: Option<u64>,
    ) -> Progress<'a, R, I> {
        let done = match shown {
            Some(end) => Some(Done {
                end: end.byte(),
                lines: 0,
                bytes: 0,
                size,
                has_begun: false,
                told: Instant::now(rt).ok(),
            }),
            None => None,
        };
        Progress { rt, input, done }
    }

    /// Takes in what was read, and tells it where that is due; at the end of the input for the last time.
    fn pass(&mut self, piece: &[u8])
        ensures { self.new.input ≡ self.old.input }
    {
        let Some(done) = &mut self.done else {
            return;
        };
        done.pass(piece);
        if piece.is_empty() {
            done.tell(self.rt, '\n');
        } else if done.is_due(self.rt) {
            done.tell(self.rt, '\r');
        }
    }
}

impl<'a, R: Runtime, I: Read> Read for Progress<'a, R, I> {
    ghost remaining = { λ p. I.remaining p.input };

    fn read(&mut self, buf: &mut [u8]) -> Result<usize>
        ensures bound { ReadsAtMost result buf.new }
        ensures bytes { ReadConsumes (I.remaining self.old.input) (I.remaining self.new.input) result buf.new }
    {
        let outcome = self.input.read(buf);
        if let Ok(count) = outcome {
            self.pass(&buf[..count]);
        }
        outcome
    }
}
