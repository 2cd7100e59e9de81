//! Answers to lines, into room that the caller lends.
ghost use Rattle.std.specs.Prelude.{◌≡◌, IfNone, IfSome, IfOk, IfErr};
ghost use Rattle.np_lines.specs.Lines.{byte_of};
ghost use Rattle.np_c.specs.Answers.{IsPut};
ghost use Rattle.np_c.specs.Lines.{IsAnswersAnswer, IsCaselessAnswersAnswer, IsLineByte, refused_number};
ghost use Rattle.np_c.specs.inside.Questions.{IsNoQuestion, IsWanted};

use crate::answers::{Answer, MEMORY, NO_END, NO_FORM};
use crate::room::put;
use crate::texts::form_in;
use np_caseless::FoldedTable;
use np_caseless_lines::CaselessKeys;
use np_lines::{Answers, LineEnd, Wanted, answer_bytes, answer_bytes_by};
use np_versions::NormTable;
use std::alloc::Global;

/// What is asked of lines, as C spells it.
#[repr(C)]
#[derive(Clone, Copy, Debug, PartialEq, Eq)]
pub struct Asked {
    /// The letter of the form of their keys.
    pub form: u8,
    /// The byte that ends lines: 10 or 0.
    pub end: u8,
}

/// What ends lines, where a byte does.
fn end_in(byte: u8) -> Option<LineEnd>
    ensures some { IfSome result (λ end. byte ≡ byte_of end) }
    ensures none { IfNone result (¬ IsLineByte byte) }
{
    match byte {
        b'\n' => Some(LineEnd::Lf),
        0 => Some(LineEnd::Nul),
        _ => None,
    }
}

/// Puts answers into the room, and tells whether a line was refused.
fn put_answers(answers: &Answers, room: &mut [u8]) -> Answer
    ensures put { IsPut answers.now.bytes.items room.old room.new result }
    ensures told { result ≡ record { status = result.status; fault = refused_number answers.now.any_refused; code = 0; place = 0; length = result.length } }
{
    Answer {
        fault: u32::from(answers.any_refused),
        ..put(answers.bytes.as_slice(), room)
    }
}

/// What is asked of lines.
///
/// # Errors
///
/// The answer that tells why nothing is.
fn wanted_of(asked: &Asked) -> Result<Wanted, Answer>
    ensures wanted { IfOk result (IsWanted asked.now) }
    ensures refused { IfErr result (IsNoQuestion asked.now) }
{
    let Some(form) = form_in(asked.form) else {
        return Err(Answer::of(NO_FORM));
    };
    let Some(end) = end_in(asked.end) else {
        return Err(Answer::of(NO_END));
    };
    Ok(Wanted { form, end })
}

/// Writes the answers to the lines of bytes into the room.
pub fn write_answers<T: NormTable>(
    alloc: Global,
    table: &T,
    asked: &Asked,
    bytes: &[u8],
    room: &mut [u8],
) -> Answer
    ensures { IsAnswersAnswer (T.model table.now) asked.now bytes.now room.old room.new result }
{
    let wanted = match wanted_of(asked) {
        Ok(wanted) => wanted,
        Err(answer) => return answer,
    };
    match answer_bytes(alloc, table, wanted, bytes) {
        Ok(answers) => put_answers(&answers, room),
        Err(_) => Answer::of(MEMORY),
    }
}

/// Writes the answers to the lines of bytes into the room, by their caseless keys.
pub fn write_caseless_answers<T: NormTable + Drop>(
    alloc: Global,
    folded: &FoldedTable<T>,
    asked: &Asked,
    bytes: &[u8],
    room: &mut [u8],
) -> Answer
    ensures { IsCaselessAnswersAnswer folded.now asked.now bytes.now room.old room.new result }
{
    let wanted = match wanted_of(asked) {
        Ok(wanted) => wanted,
        Err(answer) => return answer,
    };
    let keys = CaselessKeys {
        folded,
        form: wanted.form,
    };
    match answer_bytes_by(alloc, &keys, wanted.end, bytes) {
        Ok(answers) => put_answers(&answers, room),
        Err(_) => Answer::of(MEMORY),
    }
}
