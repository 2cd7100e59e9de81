//! A reader or writer that keeps in mind whether it failed.
ghost use Rattle.std.specs.Prelude.{◌≡◌, ◌||◌, ◌&&◌, ◌<◌, false, true, length, Ok};
ghost use Rattle.std.specs.Io.{ReadsAtMost, WritesAtMost};
ghost use Rattle.std.specs.Io.KnownBytes.{Keeps, ReadConsumes, WriteAppends};
ghost use Rattle.np_code_points.specs.Watched.{device_of, has_failed, call_fails, write_fails};

use std::io::{Read, Result, Write};

/// A reader or writer with a mark: whether a call on it failed since it was made or last cleared.
///
/// A read, write or flush fails where it answers an error, an interrupted one too, and a write of
/// a piece that is not empty also where it takes no byte.
#[derive(Debug, Drop)]
pub struct Watched<D> {
    device: D,
    failed: bool,
}

impl<D> Watched<D> {
    /// The device, with no failure so far.
    pub fn new(device: D) -> Self
        ensures device { device_of result ≡ device }
        ensures clear { has_failed result ≡ false }
    {
        Watched {
            device,
            failed: false,
        }
    }

    /// Takes the mark away.
    pub fn clear(&mut self)
        ensures device { device_of self.new ≡ device_of self.old }
        ensures clear { has_failed self.new ≡ false }
    {
        self.failed = false;
    }

    /// Whether a call failed since `new` or the last `clear`.
    pub fn failed(&self) -> bool
        ensures { result ≡ has_failed self.now }
    {
        self.failed
    }

    /// The device itself.
    pub fn into_inner(self) -> D
        ensures { result ≡ device_of self }
    {
        let Watched { device, failed: _ } = self;
        device
    }
}

impl<R: Read> Read for Watched<R> {
    ghost remaining = { λ w. R.remaining (device_of w) };

    fn read(&mut self, buf: &mut [u8]) -> Result<usize>
        ensures bound { ReadsAtMost result buf.new }
        ensures bytes { ReadConsumes (R.remaining (device_of self.old)) (R.remaining (device_of self.new)) result buf.new }
        ensures mark { has_failed self.new ≡ (has_failed self.old || call_fails result) }
    {
        let outcome = self.device.read(buf);
        let failed = outcome.is_err();
        if failed {
            self.failed = true;
        }
        outcome
    }
}

impl<W: Write> Write for Watched<W> {
    ghost contents = { λ w. W.contents (device_of w) };

    fn write(&mut self, buf: &[u8]) -> Result<usize>
        ensures bound { WritesAtMost result buf.now }
        ensures bytes { WriteAppends (W.contents (device_of self.old)) (W.contents (device_of self.new)) result buf.now }
        ensures mark { has_failed self.new ≡ (has_failed self.old || write_fails result buf.now) }
    {
        let outcome = self.device.write(buf);
        match outcome {
            Ok(0) if !buf.is_empty() => self.failed = true,
            Ok(_) => {}
            Err(_) => self.failed = true,
        }
        outcome
    }

    fn flush(&mut self) -> Result<()>
        ensures bytes { Keeps (W.contents (device_of self.old)) (W.contents (device_of self.new)) }
        ensures mark { has_failed self.new ≡ (has_failed self.old || call_fails result) }
    {
        let outcome = self.device.flush();
        if outcome.is_err() {
            self.failed = true;
        }
        outcome
    }
}
