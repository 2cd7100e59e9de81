//! Keys and normal forms of bytes, into room that the caller lends.
ghost use Rattle.std.specs.Prelude.{◌≡◌, None, Some, IfOk, IfErr, IfSome, IsTrue, if◌then◌else◌};
ghost use Rattle.np_c.specs.Answers.{IsFormAnswer, IsKeyAnswer, IsPutTelling};
ghost use Rattle.np_c.specs.Statuses.{alone};
ghost use Rattle.np_c.specs.Texts.{IsFormOf, IsKeyOf, IsNoForm, IsNoKey};
ghost use Rattle.np_c.specs.Versions.{version_in};

use crate::answers::{Answer, CLOSED, MEMORY, NO_FORM, UNASSIGNED};
use crate::ascii::are_ascii;
use crate::content::Content;
use crate::room::put;
use crate::texts::{form_in, text_in};
use crate::workroom::Workroom;
use np_code_points::Form;
use np_forms::{FormBuffer, NpssFault, make_form, make_npss};
use np_versions::NormTable;

/// The most bytes of a text that is looked at byte by byte.
const SHORT: usize = 64;

/// Whether bytes are known to be their own key, and so their own form: they are few and ASCII, as many names are.
fn stays<T: NormTable>(table: &T, form: Form, bytes: &[u8]) -> bool
    ensures { IsTrue result → IsKeyOf (T.model table.now) form bytes.now bytes.now }
{
    table.meets_conditions();
    np_forms::laws::shortcuts();
    if bytes.len() > SHORT {
        return false;
    }
    if !are_ascii(bytes) {
        return false;
    }
    table.ascii_passes(form)
}

/// Makes the key of bytes in a buffer, and answers whether it stands there: it doesn't where they are known to be their key.
///
/// # Errors
///
/// The answer that tells why there is none.
fn make_key<T: NormTable>(
    buffer: &mut FormBuffer,
    table: &T,
    form: Form,
    bytes: &[u8],
) -> Result<bool, Answer>
    ensures key { IfOk result (λ made. IsKeyOf (T.model table.now) form bytes.now (if made then buffer.new else bytes.now)) }
    ensures refused { IfErr result (IsNoKey (T.model table.now) bytes.now) }
{
    if stays(table, form, bytes) {
        return Ok(false);
    }
    let text = match text_in(0, bytes) {
        Ok(text) => text,
        Err(answer) => return Err(answer),
    };
    match make_npss(buffer, table, form, text) {
        Ok(made) => {
            // that its bytes are a text, which the prover sees where they are lent
            let _text = buffer.as_str();
            Ok(made)
        }
        Err(NpssFault::Unassigned { at, code }) => Err(Answer {
            code: u32::from(code),
            place: at as u64,
            ..Answer::of(UNASSIGNED)
        }),
        Err(NpssFault::Memory) => Err(Answer::of(MEMORY)),
    }
}

/// Makes the normal form of bytes in a buffer, and answers whether it stands there: it doesn't where they are known to be
/// their form.
///
/// # Errors
///
/// The answer that tells why there is none.
fn make_form_of<T: NormTable>(
    buffer: &mut FormBuffer,
    table: &T,
    form: Form,
    bytes: &[u8],
) -> Result<bool, Answer>
    ensures made { IfOk result (λ made. IsFormOf (T.model table.now) form bytes.now (if made then buffer.new else bytes.now)) }
    ensures refused { IfErr result (IsNoForm bytes.now) }
{
    if stays(table, form, bytes) {
        return Ok(false);
    }
    let text = match text_in(0, bytes) {
        Ok(text) => text,
        Err(answer) => return Err(answer),
    };
    match make_form(buffer, table, form, text) {
        Ok(made) => {
            // that its bytes are a text, which the prover sees where they are lent
            let _text = buffer.as_str();
            Ok(made)
        }
        Err(_) => Err(Answer::of(MEMORY)),
    }
}

/// Puts what was made of bytes into the room: what stands in the buffer, or they themselves.
fn put_made(buffer: &FormBuffer, made: bool, bytes: &[u8], room: &mut [u8]) -> Answer
    ensures { IsPutTelling 0 (if made then buffer.now else bytes.now) room.old room.new result }
{
    if made {
        put(buffer.as_str().as_bytes(), room)
    } else {
        put(bytes, room)
    }
}

/// Writes the key of bytes into the room.
fn write_key<T: NormTable>(
    workroom: &mut Workroom,
    table: &T,
    letter: u8,
    bytes: &[u8],
    room: &mut [u8],
) -> Answer
    ensures { IsKeyAnswer (T.model table.now) letter bytes.now room.old room.new result }
{
    let Some(form) = form_in(letter) else {
        return Answer::of(NO_FORM);
    };
    let made = match make_key(&mut workroom.buffer, table, form, bytes) {
        Ok(made) => made,
        Err(answer) => return answer,
    };
    put_made(&workroom.buffer, made, bytes, room)
}

/// Writes the normal form of bytes into the room.
fn write_form<T: NormTable>(
    workroom: &mut Workroom,
    table: &T,
    letter: u8,
    bytes: &[u8],
    room: &mut [u8],
) -> Answer
    ensures { IsFormAnswer (T.model table.now) letter bytes.now room.old room.new result }
{
    let Some(form) = form_in(letter) else {
        return Answer::of(NO_FORM);
    };
    let made = match make_form_of(&mut workroom.buffer, table, form, bytes) {
        Ok(made) => made,
        Err(answer) => return answer,
    };
    put_made(&workroom.buffer, made, bytes, room)
}

/// Writes the key of bytes into the room by the table that is held, which stays where it stands.
pub fn key_by(content: &mut Content, letter: u8, bytes: &[u8], room: &mut [u8]) -> Answer
    ensures same { content.new ≡ content.old }
    ensures key { IfSome (version_in (Some content.old)) (λ v. IsKeyAnswer v letter bytes.now room.old room.new result) }
    ensures closed { version_in (Some content.old) ≡ None → (result ≡ alone 5) × (room.new ≡ room.old) }
{
    match content {
        Content::Table(shared) => {
            let answer = write_key(&mut shared.workroom, &*shared.table, letter, bytes, room);
            shared.workroom.tidy();
            answer
        }
        Content::Nothing | Content::Node(_) | Content::Stream(_) => Answer::of(CLOSED),
    }
}

/// Writes the normal form of bytes into the room by the table that is held, which stays where it stands.
pub fn form_by(content: &mut Content, letter: u8, bytes: &[u8], room: &mut [u8]) -> Answer
    ensures same { content.new ≡ content.old }
    ensures made { IfSome (version_in (Some content.old)) (λ v. IsFormAnswer v letter bytes.now room.old room.new result) }
    ensures closed { version_in (Some content.old) ≡ None → (result ≡ alone 5) × (room.new ≡ room.old) }
{
    match content {
        Content::Table(shared) => {
            let answer = write_form(&mut shared.workroom, &*shared.table, letter, bytes, room);
            shared.workroom.tidy();
            answer
        }
        Content::Nothing | Content::Node(_) | Content::Stream(_) => Answer::of(CLOSED),
    }
}
