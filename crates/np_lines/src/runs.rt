//! Whole inputs, answered line by line as they are read.
ghost use Rattle.std.specs.Prelude.{◌≡◌, ◌↔◌, ◌≤◌, ℕ, [], false, true, length, take, vec_len, Err, IfErr, IfOk, IsErr, OnErr, OnOk};
ghost use Rattle.std.specs.Io.KnownBytes.{Appends, Consumes, IsAtEnd};
ghost use Rattle.np_code_points.specs.Watched.{device_of, has_failed};
ghost use Rattle.np_lines.specs.Answers.{IsAnswerBy};
ghost use Rattle.np_lines.specs.Runs.{IsRunCut, RunEnds, RunEndsBy};
ghost use Rattle.np_lines.specs.inside.Steps.{IsBetweenReads, IsNew, IsPieceAnswered, IsPieceCut, IsRestAnswered, IsRestCut};

use crate::line_keys::LineKeys;
use crate::lines::{LineEnd, Wanted};
use crate::pending::Pending;
use crate::stable::StableKeys;
use np_code_points::Memory;
use np_code_points::output::{flush_once, write_whole};
use np_code_points::pieces::{PIECE, new_piece, read_piece};
use np_code_points::watched::Watched;
use np_versions::NormTable;
use std::alloc::Global;
use std::io::{Read, Write};
use thiserror::Error;

/// Why a run ended before all lines were answered.
#[derive(Clone, Copy, Debug, PartialEq, Eq, Error)]
pub enum LinesFault {
    /// A read answered an error, an interrupted one too.
    #[error("read failed")]
    ReadFailed,
    /// A write or the flush answered an error, or a write took nothing.
    #[error("write failed")]
    WriteFailed,
    /// More than 18,446,744,073,709,551,615 bytes were read.
    #[error("more than 18,446,744,073,709,551,615 bytes")]
    TooLarge,
    /// Memory ran out.
    #[error("out of memory")]
    Memory,
}

/// Writes the answers that are not written yet.
fn write_out<W: Write>(pending: &mut Pending, target: &mut Watched<W>) -> Result<(), LinesFault>
    ensures ok { OnOk result (Appends (W.contents (device_of target.old)) (W.contents (device_of target.new)) pending.old.out.items
        × (pending.new.out.items ≡ [])) }
    ensures line { pending.new.line.items ≡ pending.old.line.items }
    ensures long { pending.new.is_long ≡ pending.old.is_long }
    ensures told { pending.new.any_refused ≡ pending.old.any_refused }
    ensures err { IfErr result (λ fault. (n : ℕ)
        × Appends (W.contents (device_of target.old)) (W.contents (device_of target.new)) (take n pending.old.out.items)
        × (fault ≡ LinesFault.WriteFailed)) }
    ensures failed { IsErr result ↔ (has_failed target.new ≡ true) }
{
    let Ok(()) = write_whole(target, pending.out()) else {
        return Err(LinesFault::WriteFailed);
    };
    pending.clear_out();
    Ok(())
}

/// Answers the lines that end in a piece, and writes the answers.
fn answer_piece<W: Write, K: LineKeys>(
    keys: &K,
    end: LineEnd,
    pending: &mut Pending,
    target: &mut Watched<W>,
    piece: &[u8],
) -> Result<(), LinesFault>
    requires nothing { pending.old.out.items ≡ [] }
    requires clear { has_failed target.old ≡ false }
    ensures ok { OnOk result (IsPieceAnswered (IsAnswerBy (K.is_key keys.now) (K.version keys.now) end) end pending.old pending.new
        (W.contents (device_of target.old)) (W.contents (device_of target.new)) piece.now) }
    ensures err { IfErr result (IsPieceCut (IsAnswerBy (K.is_key keys.now) (K.version keys.now) end) end pending.old
        (W.contents (device_of target.old)) (W.contents (device_of target.new)) piece.now) }
    ensures failed { result ≡ Err LinesFault.WriteFailed ↔ (has_failed target.new ≡ true) }
{
    let Ok(()) = pending.take_piece(keys, end, piece) else {
        return Err(LinesFault::Memory);
    };
    write_out(pending, target)
}

/// Answers the last line, where it lacks the byte that ends lines, writes its answer and flushes once.
/// Answers whether a line of the input was refused.
fn answer_rest<W: Write, K: LineKeys>(
    keys: &K,
    end: LineEnd,
    pending: &mut Pending,
    target: &mut Watched<W>,
) -> Result<bool, LinesFault>
    requires nothing { pending.old.out.items ≡ [] }
    requires clear { has_failed target.old ≡ false }
    ensures ok { IfOk result (IsRestAnswered (IsAnswerBy (K.is_key keys.now) (K.version keys.now) end) end pending.old
        (W.contents (device_of target.old)) (W.contents (device_of target.new))) }
    ensures err { IfErr result (IsRestCut (IsAnswerBy (K.is_key keys.now) (K.version keys.now) end) end pending.old
        (W.contents (device_of target.old)) (W.contents (device_of target.new))) }
    ensures failed { result ≡ Err LinesFault.WriteFailed ↔ (has_failed target.new ≡ true) }
{
    let Ok(()) = pending.finish(keys, end) else {
        return Err(LinesFault::Memory);
    };
    write_out(pending, target)?;
    let Ok(()) = flush_once(target) else {
        return Err(LinesFault::WriteFailed);
    };
    Ok(pending.any_refused())
}

/// Reads, answers and writes up to the end of the input.
fn answer_pieces<R: Read, W: Write, K: LineKeys>(
    keys: &K,
    end: LineEnd,
    pending: &mut Pending,
    source: &mut Watched<R>,
    target: &mut Watched<W>,
) -> Result<(), LinesFault>
    requires begins { IsNew pending.old }
    requires reads { has_failed source.old ≡ false }
    requires writes { has_failed target.old ≡ false }
    ensures ok { OnOk result (IsBetweenReads (IsAnswerBy (K.is_key keys.now) (K.version keys.now) end) end (record {
      in_before = R.remaining (device_of source.old);
      in_after = R.remaining (device_of source.new);
      out_before = W.contents (device_of target.old);
      out_after = W.contents (device_of target.new);
    }) pending.new) }
    ensures end { OnOk result (IsAtEnd (R.remaining (device_of source.new))) }
    ensures err { IfErr result (IsRunCut (IsAnswerBy (K.is_key keys.now) (K.version keys.now) end) end (record {
      in_before = R.remaining (device_of source.old);
      in_after = R.remaining (device_of source.new);
      out_before = W.contents (device_of target.old);
      out_after = W.contents (device_of target.new);
    })) }
    ensures read { result ≡ Err LinesFault.ReadFailed ↔ (has_failed source.new ≡ true) }
    ensures write { result ≡ Err LinesFault.WriteFailed ↔ (has_failed target.new ≡ true) }
{
    let Ok(mut piece) = new_piece(pending.alloc()) else {
        return Err(LinesFault::Memory);
    };
    let mut total = 0u64;
    'pieces: loop {
        let Ok(n) = read_piece(source, &mut piece, PIECE) else {
            return Err(LinesFault::ReadFailed);
        };
        if n == 0 {
            return Ok(());
        }
        let Some(sum) = total.checked_add(n as u64) else {
            return Err(LinesFault::TooLarge);
        };
        total = sum;
        answer_piece(keys, end, pending, target, &piece[..n])?;
    }
}

/// Answers each line of an input, as it is read, as [`answer_lines`] does, by what gives lines their keys.
///
/// # Errors
///
/// Those of [`answer_lines`].
pub fn answer_lines_by<R: Read, W: Write, K: LineKeys>(
    alloc: Global,
    keys: &K,
    end: LineEnd,
    source: &mut Watched<R>,
    target: &mut Watched<W>,
) -> Result<bool, LinesFault>
    ensures ends { RunEndsBy (IsAnswerBy (K.is_key keys.now) (K.version keys.now) end) end (record {
      in_before = R.remaining (device_of source.old);
      in_after = R.remaining (device_of source.new);
      out_before = W.contents (device_of target.old);
      out_after = W.contents (device_of target.new);
    }) result }
    ensures read { result ≡ Err LinesFault.ReadFailed ↔ (has_failed source.new ≡ true) }
    ensures write { result ≡ Err LinesFault.WriteFailed ↔ (has_failed target.new ≡ true) }
{
    source.clear();
    target.clear();
    let mut pending = Pending::new(alloc);
    answer_pieces(keys, end, &mut pending, source, target)?;
    answer_rest(keys, end, &mut pending, target)
}

/// Answers each line of an input, as it is read: `=` and the key of the line, or `!` and why it has none,
/// and then the byte that ends lines. Answers whether a line was refused.
///
/// The key is the normal form of the line, of which each code point is assigned. The refusals are, each
/// before those behind it:
///
/// - `!too long`: the line has more than 65,536 bytes.
/// - `!not UTF-8 at byte 3`: its longest prefix that is UTF-8 has so many bytes.
/// - `!unassigned 16D67 at byte 1`: its first code point that is not assigned, in at least four hex digits,
///   and the byte place of it, from 0.
/// - `!line end in key`: the key has the byte that ends lines, since the version maps to it.
///
/// A last line without the byte that ends it is a line, and its answer ends with that byte; an empty input
/// has no line. At most 65,536 bytes are asked for at once, and the answers to the lines that end in what a
/// read gave are written before the next read; so the memory that is taken depends neither on the number of
/// lines nor on their lengths. The target is flushed once, at the end.
///
/// # Errors
///
/// - `ReadFailed` exactly where the source failed; then exactly the answers to the whole lines that were
///   read are written.
/// - `WriteFailed` exactly where the target failed, by its flush too; then some first bytes of the answers.
/// - `TooLarge` where more than 18,446,744,073,709,551,615 bytes were read; then exactly the answers to some first
///   lines.
/// - `Memory` where memory ran out; then exactly the answers to some first lines.
pub fn answer_lines<R: Read, W: Write, T: NormTable>(
    alloc: Global,
    table: &T,
    wanted: Wanted,
    source: &mut Watched<R>,
    target: &mut Watched<W>,
) -> Result<bool, LinesFault>
    ensures ends { RunEnds (T.model table.now) wanted (record {
      in_before = R.remaining (device_of source.old);
      in_after = R.remaining (device_of source.new);
      out_before = W.contents (device_of target.old);
      out_after = W.contents (device_of target.new);
    }) result }
    ensures read { result ≡ Err LinesFault.ReadFailed ↔ (has_failed source.new ≡ true) }
    ensures write { result ≡ Err LinesFault.WriteFailed ↔ (has_failed target.new ≡ true) }
{
    let keys = StableKeys {
        table,
        form: wanted.form,
    };
    answer_lines_by(alloc, &keys, wanted.end, source, target)
}
