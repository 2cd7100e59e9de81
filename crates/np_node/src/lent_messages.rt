//! Messages that aren't spelled yet.
ghost use Rattle.np_node.specs.Fields.{FitsFields};

use crate::nodes::Node;
use crate::writing::{entry_length, put_bytes, put_entry};
use np_code_points::{Form, Memory};
use np_versions::NormTable;
use std::alloc::Global;

/// A message that isn't spelled yet: its form, and its string and key, which a node lends.
#[derive(Drop)]
pub struct LentMessage<'n> {
    /// The form of the key.
    pub form: Form,
    /// The string.
    pub string: &'n str,
    /// The string's key.
    pub key: &'n str,
    ghost fits: { FitsFields (record { string = string.now; key = key.now }) },
}

impl<'n> LentMessage<'n> {
    ghost use Rattle.std.specs.Prelude.{◌≡◌, ◌^◌, ◌<◌, length, IfOk};
    ghost use Rattle.np_node.specs.LentMessages.{message_lent};
    ghost use Rattle.np_node.specs.Messages.{message_bytes};

    /// The message of a string and its key.
    pub(crate) fn new(form: Form, string: &'n str, key: &'n str) -> LentMessage<'n>
        requires string { length string.now < 2 ^ 32 }
        requires key { length key.now < 2 ^ 32 }
        ensures { message_lent result ≡ record { form = form; entry = record { string = string.now; key = key.now } } }
    {
        LentMessage { form, string, key }
    }

    /// How many bytes the message has.
    pub fn length(&self) -> usize
        ensures { result ≡ length (message_bytes (message_lent self.now)) }
    {
        1 + entry_length(self.string.as_bytes(), self.key.as_bytes())
    }

    /// Spells the message into room of its length.
    pub fn put(&self, room: &mut [u8])
        requires { length room.old ≡ length (message_bytes (message_lent self.now)) }
        ensures { room.new ≡ message_bytes (message_lent self.now) }
    {
        let at = put_bytes(room, 0, &[self.form.byte()]);
        put_entry(room, at, self.string.as_bytes(), self.key.as_bytes());
    }

    /// Spells the message.
    ///
    /// # Errors
    ///
    /// `Memory` where memory ran out.
    pub fn spell(&self, alloc: Global) -> Result<Vec<u8>, Memory>
        ensures { IfOk result (λ bytes. bytes.items ≡ message_bytes (message_lent self.now)) }
    {
        let mut bytes = Vec::from_elem(alloc, 0u8, self.length())?;
        self.put(bytes.as_mut_slice());
        Ok(bytes)
    }
}

impl<'t, T: NormTable> Node<'t, T> {
    ghost use Rattle.std.specs.Prelude.{IfSome, IfNone};
    ghost use Rattle.np_node.specs.LentMessages.{message_lent as message_told, TellsString};
    ghost use Rattle.np_node.specs.Messages.{message_bytes as message_spelled};
    ghost use Rattle.np_node.specs.Nodes.{state_of, IsKept};

    /// The message that tells a kept string, as `accept` gave it; none where the string is not kept.
    /// It can be asked for at any time, and isn't spelled yet. One look-up by hash, no memory.
    pub fn message_of<'n>(&'n self, string: &'n str) -> Option<LentMessage<'n>>
        ensures some { IfSome result (λ m. TellsString (state_of T.model self.now) string.now (message_spelled (message_told m))) }
        ensures none { IfNone result (¬ IsKept self.now.entries string.now) }
    {
        let form = self.form;
        let key = self.key_of(string)?;
        Some(LentMessage::new(form, string, key))
    }
}
