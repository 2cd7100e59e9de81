//! Texts and forms as C spells them.
ghost use Rattle.std.specs.Prelude.{◌≡◌, IfOk, IfErr, IfSome, IfNone, IsUtf8};
ghost use Rattle.np_code_points.specs.Forms.{byte_of};
ghost use Rattle.np_c.specs.Texts.{IsFormLetter, IsNoText};

use crate::answers::{Answer, NOT_UTF8};
use np_code_points::Form;
use np_code_points::text::text_of;

/// The text of bytes. The number, which the answer tells, is that of the text where there are several.
///
/// # Errors
///
/// The answer that tells where the bytes are no text.
pub fn text_in(number: u32, bytes: &[u8]) -> Result<&str, Answer>
    ensures text { IfOk result (λ text. text.now ≡ bytes.now) }
    ensures valid { IfOk result (λ _. IsUtf8 bytes.now) }
    ensures refused { IfErr result (IsNoText number bytes.now) }
{
    match text_of(bytes) {
        Ok(text) => Ok(text),
        Err(fault) => Err(Answer {
            fault: number,
            place: fault.at as u64,
            ..Answer::of(NOT_UTF8)
        }),
    }
}

/// The text of bytes, where they are one.
pub fn whole_text(bytes: &[u8]) -> Option<&str>
    ensures some { IfSome result (λ text. text.now ≡ bytes.now) }
    ensures none { IfNone result (¬ IsUtf8 bytes.now) }
{
    match text_in(0, bytes) {
        Ok(text) => Some(text),
        Err(_) => None,
    }
}

/// The form of a letter.
pub fn form_in(letter: u8) -> Option<Form>
    ensures some { IfSome result (λ form. letter ≡ byte_of form) }
    ensures none { IfNone result (¬ IsFormLetter letter) }
{
    Form::of_byte(letter)
}
