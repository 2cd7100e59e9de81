//! Messages, read.
ghost use Rattle.std.specs.Prelude.{IfOk, IfErr};
ghost use Rattle.np_node.specs.Messages.{IsMessage, IsMessageFault};
ghost use Rattle.np_node.specs.inside.Reading.{told_entry};

use crate::fields::{Fields, Told};
use np_code_points::Form;

/// The form, the string and the key of a message, or the fault place of bytes that are none.
pub(crate) fn read_message(bytes: &[u8]) -> Result<(Form, Told<'_>), usize>
    ensures ok { IfOk result (λ read. IsMessage bytes.now (record { form = read.0; entry = told_entry read.1 })) }
    ensures err { IfErr result (λ at. IsMessageFault bytes.now at) }
{
    let mut fields = Fields::new(bytes);
    let Some(form) = fields.form() else {
        return Err(0);
    };
    let told = fields.entry()?;
    if fields.left() > 0 {
        return Err(fields.place());
    }
    Ok((form, told))
}
