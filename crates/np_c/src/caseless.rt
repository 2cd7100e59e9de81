//! Caseless keys of bytes, and caseless matches.
ghost use Rattle.std.specs.Prelude.{◌≡◌, None, Some, IfOk, IfErr, IfNone, IfSome};
ghost use Rattle.std.specs.Cow.{cow_str_bytes};
ghost use Rattle.np_c.specs.Answers.{IsMade};
ghost use Rattle.np_c.specs.Caseless.{IsCaselessKeyAnswer, IsCaselessKeyOf, IsMatchAnswer};
ghost use Rattle.np_c.specs.Foldings.{folded_in};
ghost use Rattle.np_c.specs.Statuses.{alone};
ghost use Rattle.np_c.specs.Texts.{IsNoKey};
ghost use Rattle.np_c.specs.Versions.{version_in};
ghost use Rattle.np_code_points.specs.declared.forms.Form.{Form};
ghost use Rattle.np_versions.specs.Versions.{VersionData};

use crate::answers::{Answer, CLOSED, DONE, MEMORY, NO_FORM, UNASSIGNED};
use crate::ascii::are_ascii;
use crate::comparing::answer_of_truth;
use crate::content::Content;
use crate::room::put;
use crate::texts::{form_in, text_in};
use np_caseless::{FoldedTable, caseless_match, fold_into};
use np_code_points::Form;
use np_forms::NpssFault;
use np_versions::NormTable;
use std::alloc::Global;
use std::borrow::CowStr;

/// The caseless key of bytes.
///
/// # Errors
///
/// The answer that tells why there is none.
fn key_of<'b, T: NormTable + Drop>(
    alloc: Global,
    folded: &FoldedTable<T>,
    form: Form,
    bytes: &'b [u8],
) -> Result<CowStr<'b>, Answer>
    ensures key { IfOk result (λ key. IsCaselessKeyOf folded.now form bytes.now (cow_str_bytes key)) }
    ensures refused { IfErr result (IsNoKey folded.now.version bytes.now) }
{
    let text = match text_in(0, bytes) {
        Ok(text) => text,
        Err(answer) => return Err(answer),
    };
    match folded.key(alloc, form, text) {
        Ok(key) => {
            // that its bytes are a text, which the prover sees where they are lent
            let _text = key.as_str();
            Ok(key)
        }
        Err(NpssFault::Unassigned { at, code }) => Err(Answer {
            code: u32::from(code),
            place: at as u64,
            ..Answer::of(UNASSIGNED)
        }),
        Err(NpssFault::Memory) => Err(Answer::of(MEMORY)),
    }
}

/// Writes the caseless key of a text of ASCII into the room, where it is known to fold byte by byte and fits.
fn put_ascii<T: NormTable + Drop>(
    folded: &FoldedTable<T>,
    bytes: &[u8],
    room: &mut [u8],
) -> Option<Answer>
    ensures none { IfNone result (room.new ≡ room.old) }
    ensures key { IfSome result (λ answer. (form : Form) →
        IsMade (IsCaselessKeyOf folded.now form bytes.now) (IsNoKey folded.now.version bytes.now) room.old room.new answer) }
{
    folded.meets_conditions();
    let folding = folded.ascii()?;
    if bytes.len() > room.len() || !are_ascii(bytes) {
        return None;
    }
    fold_into(room, folding, bytes);
    Some(Answer {
        length: bytes.len() as u64,
        ..Answer::of(DONE)
    })
}

/// Writes the caseless key of bytes into the room.
pub fn write_caseless_key<T: NormTable + Drop>(
    alloc: Global,
    folded: &FoldedTable<T>,
    letter: u8,
    bytes: &[u8],
    room: &mut [u8],
) -> Answer
    ensures { IsCaselessKeyAnswer folded.now letter bytes.now room.old room.new result }
{
    let Some(form) = form_in(letter) else {
        return Answer::of(NO_FORM);
    };
    if let Some(answer) = put_ascii(folded, bytes, room) {
        return answer;
    }
    match key_of(alloc, folded, form, bytes) {
        Ok(key) => put(key.as_str().as_bytes(), room),
        Err(answer) => answer,
    }
}

/// Writes the caseless key of bytes into the room by the table that is held with its foldings, which stays where it stands.
pub fn caseless_key_by(
    alloc: Global,
    content: &Content,
    letter: u8,
    bytes: &[u8],
    room: &mut [u8],
) -> Answer
    ensures key { IfSome (folded_in (Some content.now)) (λ v. IsCaselessKeyAnswer v letter bytes.now room.old room.new result) }
    ensures unfolded { (v : VersionData) → version_in (Some content.now) ≡ Some v → folded_in (Some content.now) ≡ None
        → (result ≡ alone 26) × (room.new ≡ room.old) }
    ensures closed { version_in (Some content.now) ≡ None → (result ≡ alone 5) × (room.new ≡ room.old) }
{
    let Some(shared) = content.table() else {
        return Answer::of(CLOSED);
    };
    match shared.with_foldings() {
        Ok(folded) => write_caseless_key(alloc, folded, letter, bytes, room),
        Err(answer) => answer,
    }
}

/// Whether two texts match caselessly: compatibly where `compat`, else canonically.
pub fn tell_match<T: NormTable + Drop>(
    alloc: Global,
    folded: &FoldedTable<T>,
    compat: bool,
    left: &[u8],
    right: &[u8],
) -> Answer
    ensures { IsMatchAnswer folded.now compat left.now right.now result }
{
    let first = match text_in(1, left) {
        Ok(text) => text,
        Err(answer) => return answer,
    };
    let second = match text_in(2, right) {
        Ok(text) => text,
        Err(answer) => return answer,
    };
    match caseless_match(
        alloc,
        folded.table(),
        folded.foldings(),
        compat,
        (first, second),
    ) {
        Ok(yes) => answer_of_truth(yes),
        Err(_) => Answer::of(MEMORY),
    }
}
