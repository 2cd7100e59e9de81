//! Whole outputs.
ghost use Rattle.std.specs.Prelude.{◌≡◌, ◌↔◌, ◌≤◌, ◌<◌, ℕ, false, true, length, take, IsErr, OnOk, OnErr};
ghost use Rattle.std.specs.Io.KnownBytes.{Appends, Keeps};
ghost use Rattle.np_code_points.specs.Watched.{device_of, has_failed};

use super::watched::Watched;
use std::io::Write;
use thiserror::Error;

/// A writer refused a piece or a flush, or took nothing of a piece.
#[derive(Clone, Copy, Debug, PartialEq, Eq, Error)]
#[error("write failed")]
pub struct WriteFailed;

/// Clears the mark and writes the bytes, with no flush. Nothing is tried twice, and nothing is
/// written after the first failure: then some first bytes were taken.
pub fn write_whole<W: Write>(target: &mut Watched<W>, bytes: &[u8]) -> Result<(), WriteFailed>
    ensures ok { OnOk result (Appends (W.contents (device_of target.old)) (W.contents (device_of target.new)) bytes.now) }
    ensures err { OnErr result ((n : ℕ) × (n ≤ length bytes.now)
        × Appends (W.contents (device_of target.old)) (W.contents (device_of target.new)) (take n bytes.now)) }
    ensures failed { IsErr result ↔ (has_failed target.new ≡ true) }
{
    target.clear();
    let mut at = 0;
    while at < bytes.len() {
        match target.write(&bytes[at..]) {
            Ok(0) => return Err(WriteFailed),
            Ok(n) => at += n,
            Err(_) => return Err(WriteFailed),
        }
    }
    Ok(())
}

/// Clears the mark and flushes once. Nothing is written.
pub fn flush_once<W: Write>(target: &mut Watched<W>) -> Result<(), WriteFailed>
    ensures bytes { Keeps (W.contents (device_of target.old)) (W.contents (device_of target.new)) }
    ensures failed { IsErr result ↔ (has_failed target.new ≡ true) }
{
    target.clear();
    match target.flush() {
        Ok(()) => Ok(()),
        Err(_) => Err(WriteFailed),
    }
}

/// Clears the mark, writes the bytes and flushes once. Nothing is tried twice, and nothing is
/// written or flushed after the first failure.
pub fn write_out<W: Write>(target: &mut Watched<W>, bytes: &[u8]) -> Result<(), WriteFailed>
    ensures ok { OnOk result (Appends (W.contents (device_of target.old)) (W.contents (device_of target.new)) bytes.now) }
    ensures err { OnErr result ((n : ℕ) × (n ≤ length bytes.now)
        × Appends (W.contents (device_of target.old)) (W.contents (device_of target.new)) (take n bytes.now)) }
    ensures failed { IsErr result ↔ (has_failed target.new ≡ true) }
{
    write_whole(target, bytes)?;
    flush_once(target)
}
