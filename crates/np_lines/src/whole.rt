//! Bytes that are all here, answered line by line at once.
ghost use Rattle.std.specs.Prelude.{IfOk, OnOk};
ghost use Rattle.np_lines.specs.Answers.{IsAnswerBy};
ghost use Rattle.np_lines.specs.Whole.{IsAllAnswered, IsAllAnsweredBy};
ghost use Rattle.np_lines.specs.inside.Steps.{Goes};

use crate::answers::LIMIT;
use crate::line_keys::LineKeys;
use crate::lines::{LineEnd, Wanted};
use crate::pending::Pending;
use crate::stable::StableKeys;
use np_code_points::Memory;
use np_versions::NormTable;
use std::alloc::Global;

/// The answers to all lines of some bytes.
#[derive(Drop)]
pub struct Answers {
    /// The answers in the order of the lines, each with the byte that ends it.
    pub bytes: Vec<u8>,
    /// Whether a line was refused.
    pub any_refused: bool,
}

/// Takes bytes in, so few at a time that a line which is too long lies whole in no piece: nothing is looked at once for
/// each such line.
fn take_all<K: LineKeys>(
    pending: &mut Pending,
    keys: &K,
    end: LineEnd,
    bytes: &[u8],
) -> Result<(), Memory>
    ensures { OnOk result (Goes (IsAnswerBy (K.is_key keys.now) (K.version keys.now) end) end pending.old pending.new bytes.now) }
{
    let mut rest = bytes;
    'pieces: while !rest.is_empty() {
        let (piece, behind) = rest.split_at(rest.len().min(LIMIT));
        pending.take_piece(keys, end, piece)?;
        rest = behind;
    }
    Ok(())
}

/// Answers each line of bytes that are all here, as [`answer_bytes`] does, by what gives lines their keys.
///
/// # Errors
///
/// `Memory` where memory ran out.
pub fn answer_bytes_by<K: LineKeys>(
    alloc: Global,
    keys: &K,
    end: LineEnd,
    bytes: &[u8],
) -> Result<Answers, Memory>
    ensures { IfOk result (λ made. IsAllAnsweredBy (IsAnswerBy (K.is_key keys.now) (K.version keys.now) end) end bytes.now made.bytes.items made.any_refused) }
{
    let mut pending = Pending::new(alloc);
    take_all(&mut pending, keys, end, bytes)?;
    pending.finish(keys, end)?;
    Ok(pending.into_answers())
}

/// Answers each line of bytes that are all here, as `answer_lines` does those of an input: `=` and the key of the
/// line, or `!` and why it has none, and then the byte that ends lines. A last line without that byte is a line.
///
/// The memory that is taken is that of the answers, some bytes more than those of the lines for each line.
///
/// # Errors
///
/// `Memory` where memory ran out.
pub fn answer_bytes<T: NormTable>(
    alloc: Global,
    table: &T,
    wanted: Wanted,
    bytes: &[u8],
) -> Result<Answers, Memory>
    ensures { IfOk result (λ made. IsAllAnswered (T.model table.now) wanted bytes.now made.bytes.items made.any_refused) }
{
    let keys = StableKeys {
        table,
        form: wanted.form,
    };
    answer_bytes_by(alloc, &keys, wanted.end, bytes)
}
