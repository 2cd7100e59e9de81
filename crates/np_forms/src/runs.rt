//! Whole inputs, normalized as they are read.
ghost use Rattle.std.specs.Prelude.{◌≡◌, ◌≢◌, ◌↔◌, ◌⊎◌, chars as chars_in, ◌+◌, ◌<◌, ◌≤◌, ◌++◌, ℕ, List, [], false, true, length, take, drop, vec_len, None, Err, IfNone, IfOk, IfErr, IsErr, OnOk, OnErr, IfSome, MatchResult};
ghost use Rattle.std.specs.Io.KnownBytes.{Appends, Consumes, IsAtEnd};
ghost use Rattle.np_code_points.specs.Text.{IsLongestValidPrefix};
ghost use Rattle.np_code_points.specs.Watched.{device_of, has_failed};
ghost use Rattle.np_forms.specs.RunEnds.{RunEnds};
ghost use Rattle.np_versions.specs.Conditions.{IsSound};
ghost use Rattle.np_forms.specs.inside.Running.{IsBetweenReads, IsCounted, MayBegin, MayNotBegin, IsChunkFault, IsNextChunk, IsInputFault, IsPieceWritten, IsPieceCut, IsRestWritten, IsRestCut, Goes, Stops};

use crate::out_texts::OutText;
use crate::streams::Stream;
use crate::utf8_prefixes::utf8_prefix_of;
use crate::written::{close_text, feed_text};
use np_code_points::output::{flush_once, write_whole};
use np_code_points::pieces::{new_piece, read_piece};
use np_code_points::watched::Watched;
use np_code_points::{Form, Memory};
use np_versions::NormTable;
use std::alloc::Global;
use std::io::{Read, Write};
use std::str::from_utf8_unchecked;
use thiserror::Error;

/// The most bytes that the input of a run may have.
pub const RUN_LIMIT: u64 = 4_294_967_295;

/// Why a run ended before the end of its input.
#[derive(Clone, Copy, Debug, PartialEq, Eq, Drop, Error)]
pub enum RunFault {
    /// The input is not UTF-8; a character that the end of the input cuts is none.
    #[error("not UTF-8 at byte {at}")]
    NotUtf8 {
        /// How many bytes the longest prefix has that is UTF-8.
        at: u64,
    },
    /// A read answered an error, an interrupted one too.
    #[error("read failed")]
    ReadFailed,
    /// A write or the flush answered an error, or a write took nothing.
    #[error("write failed")]
    WriteFailed,
    /// One byte more than `RUN_LIMIT` was read.
    #[error("more than 4,294,967,295 bytes")]
    TooLarge,
    /// Memory ran out.
    #[error("out of memory")]
    Memory,
}

/// Makes a list one list and another behind it.
fn join(list: &mut Vec<u8>, first: &[u8], second: &[u8]) -> Result<(), Memory>
    ensures { OnOk result (list.new.items ≡ first.now ++ second.now) }
{
    list.clear();
    list.extend_from_slice(first)?;
    list.extend_from_slice(second)?;
    Ok(())
}

/// How many bytes of a chunk are text, where the rest may begin a character and the limit holds.
/// `total` bytes were read, the chunk last.
fn judged(chunk: &[u8], total: u64) -> Result<usize, RunFault>
    requires some { 0 < length chunk.now }
    requires inside { length chunk.now ≤ total }
    requires fits { total ≤ RUN_LIMIT + 1 }
    ensures ok { IfOk result (λ n. IsLongestValidPrefix chunk.now n) }
    ensures few { IfOk result (λ n. length chunk.now ≤ n + 3) }
    ensures limit { OnOk result (total ≤ RUN_LIMIT) }
    ensures err { IfErr result (IsChunkFault chunk.now total) }
{
    let whole = utf8_prefix_of(chunk);
    let at = total - chunk.len() as u64 + whole.text as u64;
    if total > RUN_LIMIT {
        // A character that the limit cuts is no fault: what stands before the last byte decides.
        let before = utf8_prefix_of(&chunk[..chunk.len() - 1]);
        return Err(if before.may_begin {
            RunFault::TooLarge
        } else {
            RunFault::NotUtf8 { at }
        });
    }
    if whole.may_begin {
        Ok(whole.text)
    } else {
        Err(RunFault::NotUtf8 { at })
    }
}

/// What was read and is not fed yet.
#[derive(Drop)]
struct Input {
    /// A buffer for what one read gives.
    piece: Vec<u8>,
    /// The bytes of a character that the last piece cut.
    kept: Vec<u8>,
    /// The two behind one another.
    chunk: Vec<u8>,
    /// How many bytes were read.
    total: u64,
    ghost space: { vec_len piece ≡ 65536 },
}

/// Reads once, and answers how many bytes of the chunk are a text; the rest is kept. None at the end of the input.
fn next_chunk<R: Read>(
    input: &mut Input,
    source: &mut Watched<R>,
) -> Result<Option<usize>, RunFault>
    requires clear { has_failed source.old ≡ false }
    requires fits { input.old.total ≤ RUN_LIMIT }
    requires inside { vec_len input.old.kept ≤ input.old.total }
    ensures some { IfOk result (λ next. IfSome next (λ n. IsNextChunk (R.remaining (device_of source.old)) (R.remaining (device_of source.new))
        input.old.kept.items input.new.chunk.items input.new.kept.items input.old.total input.new.total n)) }
    ensures few { IfOk result (λ next. IfSome next (λ _. vec_len input.new.kept ≤ 3)) }
    ensures end { IfOk result (λ next. IfNone next (IsAtEnd (R.remaining (device_of source.new))
        × Consumes (R.remaining (device_of source.old)) (R.remaining (device_of source.new)) [])) }
    ensures same { IfOk result (λ next. IfNone next ((input.new.kept.items ≡ input.old.kept.items) × (input.new.total ≡ input.old.total))) }
    ensures err { IfErr result (IsInputFault (R.remaining (device_of source.old)) (R.remaining (device_of source.new)) input.old.kept.items input.old.total) }
    ensures failed { result ≡ Err RunFault.ReadFailed ↔ (has_failed source.new ≡ true) }
{
    let most = (RUN_LIMIT + 1 - input.total) as usize;
    let Ok(n) = read_piece(source, &mut input.piece, most) else {
        return Err(RunFault::ReadFailed);
    };
    if n == 0 {
        return Ok(None);
    }
    let total = input.total + n as u64;
    if join(&mut input.chunk, &input.kept, &input.piece[..n]).is_err() {
        return Err(RunFault::Memory);
    }
    let text = judged(&input.chunk, total)?;
    if join(&mut input.kept, &input.chunk[text..], b"").is_err() {
        return Err(RunFault::Memory);
    }
    input.total = total;
    Ok(Some(text))
}

/// What is to be written.
#[derive(Drop)]
struct Output {
    text: OutText,
    /// How many bytes were written.
    count: u64,
}

/// Writes a text out, and empties it.
fn write_text_out<W: Write>(output: &mut Output, target: &mut Watched<W>) -> Result<(), RunFault>
    requires fits { output.old.count + length output.old.text ≤ 18446744073709551615 }
    ensures ok { OnOk result (Appends (W.contents (device_of target.old)) (W.contents (device_of target.new)) output.old.text) }
    ensures count { OnOk result (output.new.count ≡ output.old.count + length output.old.text) }
    ensures empty { OnOk result (output.new.text ≡ []) }
    ensures err { OnErr result ((out : List ℕ) × ((rest : List ℕ) × (output.old.text ≡ out ++ rest)
        × Appends (W.contents (device_of target.old)) (W.contents (device_of target.new)) out)) }
    ensures failed { result ≡ Err RunFault.WriteFailed ↔ (has_failed target.new ≡ true) }
    ensures fault { IfErr result (λ fault. fault ≡ RunFault.WriteFailed) }
{
    let Ok(()) = write_whole(target, output.text.as_bytes()) else {
        return Err(RunFault::WriteFailed);
    };
    output.count += output.text.as_bytes().len() as u64;
    output.text.clear();
    Ok(())
}

/// Feeds a text, and writes what became ready.
fn write_piece<W: Write, T: NormTable>(
    stream: &mut Stream<'_, T>,
    output: &mut Output,
    target: &mut Watched<W>,
    text: &str,
) -> Result<(), RunFault>
    requires sound { IsSound stream.old.version }
    requires counted { IsCounted stream.old RUN_LIMIT output.old.count }
    requires short { length text.now ≤ RUN_LIMIT }
    requires moved { stream.old.ready ≡ [] }
    requires empty { output.old.text ≡ [] }
    requires clear { has_failed target.old ≡ false }
    ensures ok { OnOk result (IsPieceWritten stream.old stream.new (W.contents (device_of target.old)) (W.contents (device_of target.new))
        output.old.count output.new.count (chars_in text.now)) }
    ensures empty { OnOk result (output.new.text ≡ []) }
    ensures err { OnErr result (IsPieceCut stream.old (W.contents (device_of target.old)) (W.contents (device_of target.new)) (chars_in text.now)) }
    ensures failed { result ≡ Err RunFault.WriteFailed ↔ (has_failed target.new ≡ true) }
    ensures fault { IfErr result (λ fault. (fault ≡ RunFault.WriteFailed) ⊎ (fault ≡ RunFault.Memory)) }
{
    let Ok(()) = feed_text(stream, &mut output.text, text) else {
        return Err(RunFault::Memory);
    };
    write_text_out(output, target)
}

/// Ends the text, writes the rest of its form, and flushes once.
fn write_rest<W: Write, T: NormTable>(
    stream: &mut Stream<'_, T>,
    output: &mut Output,
    target: &mut Watched<W>,
) -> Result<(), RunFault>
    requires sound { IsSound stream.old.version }
    requires counted { IsCounted stream.old RUN_LIMIT output.old.count }
    requires moved { stream.old.ready ≡ [] }
    requires empty { output.old.text ≡ [] }
    requires clear { has_failed target.old ≡ false }
    ensures ok { OnOk result (IsRestWritten stream.old (W.contents (device_of target.old)) (W.contents (device_of target.new))
        output.old.count output.new.count) }
    ensures err { OnErr result (IsRestCut stream.old (W.contents (device_of target.old)) (W.contents (device_of target.new))) }
    ensures failed { result ≡ Err RunFault.WriteFailed ↔ (has_failed target.new ≡ true) }
    ensures fault { IfErr result (λ fault. (fault ≡ RunFault.WriteFailed) ⊎ (fault ≡ RunFault.Memory)) }
{
    let Ok(()) = close_text(stream, &mut output.text, "") else {
        return Err(RunFault::Memory);
    };
    write_text_out(output, target)?;
    let Ok(()) = flush_once(target) else {
        return Err(RunFault::WriteFailed);
    };
    Ok(())
}

/// Reads, feeds and writes up to the end of the input.
fn feed_all<R: Read, W: Write, T: NormTable>(
    stream: &mut Stream<'_, T>,
    input: &mut Input,
    output: &mut Output,
    source: &mut Watched<R>,
    target: &mut Watched<W>,
) -> Result<(), RunFault>
    requires { IsBetweenReads stream.old output.old.text (vec_len input.old.kept) input.old.total output.old.count
        (has_failed source.old) (has_failed target.old) }
    ensures ok { OnOk result (Goes stream.old stream.new
        (R.remaining (device_of source.old)) (R.remaining (device_of source.new)) (W.contents (device_of target.old)) (W.contents (device_of target.new))
        input.old.kept.items input.new.kept.items input.old.total input.new.total output.old.count output.new.count) }
    ensures end { OnOk result (IsAtEnd (R.remaining (device_of source.new))) }
    ensures fits { OnOk result (input.new.total ≤ RUN_LIMIT) }
    ensures moved { OnOk result ((stream.new.ready ≡ []) × (output.new.text ≡ []) × (vec_len input.new.kept ≤ input.new.total)) }
    ensures counted { OnOk result ((stream.new.version ≡ stream.old.version) × IsCounted stream.new input.new.total output.new.count) }
    ensures err { IfErr result (λ fault. Stops stream.old (R.remaining (device_of source.old)) (R.remaining (device_of source.new))
        (W.contents (device_of target.old)) (W.contents (device_of target.new)) input.old.kept.items input.old.total output.old.count (Err fault)) }
    ensures read { result ≡ Err RunFault.ReadFailed ↔ (has_failed source.new ≡ true) }
    ensures write { result ≡ Err RunFault.WriteFailed ↔ (has_failed target.new ≡ true) }
{
    'chunks: loop {
        let Some(n) = next_chunk(input, source)? else {
            return Ok(());
        };
        // The first `n` bytes are UTF-8, which was checked once.
        let text = unsafe { from_utf8_unchecked(&input.chunk[..n]) };
        write_piece(stream, output, target, text)?;
    }
}

/// Goes on to the end of the input, and answers how many bytes the form has.
fn run_on<R: Read, W: Write, T: NormTable>(
    stream: &mut Stream<'_, T>,
    input: &mut Input,
    output: &mut Output,
    source: &mut Watched<R>,
    target: &mut Watched<W>,
) -> Result<u64, RunFault>
    requires { IsBetweenReads stream.old output.old.text (vec_len input.old.kept) input.old.total output.old.count
        (has_failed source.old) (has_failed target.old) }
    ensures ends { Stops stream.old (R.remaining (device_of source.old)) (R.remaining (device_of source.new))
        (W.contents (device_of target.old)) (W.contents (device_of target.new)) input.old.kept.items input.old.total output.old.count result }
    ensures read { result ≡ Err RunFault.ReadFailed ↔ (has_failed source.new ≡ true) }
    ensures write { result ≡ Err RunFault.WriteFailed ↔ (has_failed target.new ≡ true) }
{
    feed_all(stream, input, output, source, target)?;
    if !input.kept.is_empty() {
        let at = input.total - input.kept.len() as u64;
        return Err(RunFault::NotUtf8 { at });
    }
    write_rest(stream, output, target)?;
    Ok(output.count)
}

/// An input of which nothing was read.
fn new_input(alloc: Global) -> Result<Input, Memory>
    ensures { IfOk result (λ input. (input.kept.items ≡ []) × (input.total ≡ 0)) }
{
    Ok(Input {
        piece: new_piece(alloc)?,
        kept: Vec::new(alloc),
        chunk: Vec::new(alloc),
        total: 0,
    })
}

/// Writes the normal form of a whole input, as it becomes ready, and answers how many bytes it has.
///
/// What a read gives is fed at once, and all that is ready is written before the next read. The
/// target is flushed once, at the end. At most 65,536 bytes are asked for at once, and at most 3
/// are kept of a character that a piece cut; besides these the run takes the form of one piece and
/// what a `Stream` holds back.
///
/// # Errors
///
/// After each of them some first bytes of the form of the text that was read are written.
///
/// - `NotUtf8` with the length of the longest prefix that is UTF-8, where the first 4,294,967,295
///   bytes begin no text, or where the input ends within a character.
/// - `ReadFailed` exactly where the source failed; then the form of what was read is written, cut
///   before its last starter.
/// - `WriteFailed` exactly where the target failed, by its flush too.
/// - `TooLarge` where 4,294,967,296 bytes were read, of which all but the last begin a text.
/// - `Memory` where memory ran out.
pub fn run<R: Read, W: Write, T: NormTable>(
    alloc: Global,
    table: &T,
    form: Form,
    source: &mut Watched<R>,
    target: &mut Watched<W>,
) -> Result<u64, RunFault>
    ensures ends { RunEnds (T.model table.now) form (record {
      in_before = R.remaining (device_of source.old);
      in_after = R.remaining (device_of source.new);
      out_before = W.contents (device_of target.old);
      out_after = W.contents (device_of target.new);
    }) result }
    ensures read { result ≡ Err RunFault.ReadFailed ↔ (has_failed source.new ≡ true) }
    ensures write { result ≡ Err RunFault.WriteFailed ↔ (has_failed target.new ≡ true) }
{
    source.clear();
    target.clear();
    table.meets_conditions();
    let mut stream = Stream::new(alloc, table, form);
    let Ok(mut input) = new_input(alloc) else {
        return Err(RunFault::Memory);
    };
    let mut output = Output {
        text: OutText::new(alloc),
        count: 0,
    };
    run_on(&mut stream, &mut input, &mut output, source, target)
}
