//! A stream over the table of a handle.
ghost use Rattle.std.specs.Prelude.{Some, IfOk, IfErr};
ghost use Rattle.std.specs.Arc.{arc_value};
ghost use Rattle.np_c.specs.StreamAnswers.{IsBegun, IsNotBegun, IsOpenOn};

use crate::answers::{Answer, MEMORY, NO_FORM};
use crate::content::Content;
use crate::kept_streams::KeptStream;
use crate::shared::Shared;
use crate::texts::form_in;
use np_code_points::{Form, Memory};
use std::alloc::Global;

/// A stream over one more owner of a table, in a box.
///
/// # Errors
///
/// `Memory` where memory ran out, or the table has too many owners.
fn boxed(alloc: Global, shared: &Shared, form: Form) -> Result<Box<Content>, Memory>
    ensures { IfOk result (λ b. IsOpenOn (arc_value shared.now.table) form (Some b.value)) }
{
    let another = shared.another(alloc)?;
    Content::of_stream(alloc, KeptStream::new(alloc, another, form))
}

/// A stream at the front of a text, over the table, in a box.
///
/// # Errors
///
/// The answer that tells why there is none.
pub fn stream_over(alloc: Global, shared: &Shared, letter: u8) -> Result<Box<Content>, Answer>
    ensures begun { IfOk result (λ b. IsBegun (arc_value shared.now.table) letter (Some b.value)) }
    ensures refused { IfErr result (IsNotBegun letter) }
{
    let Some(form) = form_in(letter) else {
        return Err(Answer::of(NO_FORM));
    };
    match boxed(alloc, shared, form) {
        Ok(content) => Ok(content),
        Err(_) => Err(Answer::of(MEMORY)),
    }
}
