//! Messages of other nodes.

use crate::faults::NodeFault;
use crate::fields::{Told, same_bytes};
use crate::messages::read_message;
use crate::nodes::Node;
use crate::strings::{key_for, short_text};
use np_versions::NormTable;

/// What `Node::take` answers.
#[derive(Clone, Copy, Debug, PartialEq, Eq)]
pub enum Taken {
    /// The string was new and is kept now, beside the key that this node made itself.
    Kept,
    /// The string was kept already. Nothing changed.
    Known,
}

impl<'t, T: NormTable> Node<'t, T> {
    ghost use Rattle.std.specs.Prelude.{◌≤◌, length};
    ghost use Rattle.np_node.specs.Nodes.{state_of, IsKept};
    ghost use Rattle.np_node.specs.Strings.{most_bytes};
    ghost use Rattle.np_node.specs.Taking.{AnswersEntry, AnswersTake, LeavesTaken};
    ghost use Rattle.np_node.specs.inside.Told.{LeavesEntry};
    ghost use Rattle.np_node.specs.inside.Reading.{told_entry};

    /// Keeps the string that a message tells. The message's key is held against the key that this
    /// node keeps or makes, byte by byte, and never trusted.
    ///
    /// A string that is kept already costs the reading of the message, one look-up by hash and one
    /// comparison of keys, and no memory. A new one costs one normal form more.
    ///
    /// # Errors
    ///
    /// In this order: `Malformed` where the bytes are no message; `OtherForm`; `TooLong`,
    /// `NotUtf8` and `Unassigned` for the string; `KeyDiffers`; (`Known`;) `Full`. `Memory` may
    /// stand in place of `KeyDiffers`, `Full` or `Kept`, where the string is not kept already.
    /// After an error, and after `Known`, the node is as it was.
    pub fn take(&mut self, message: &[u8]) -> Result<Taken, NodeFault>
        ensures answer { AnswersTake (state_of T.model self.old) message.now result }
        ensures node { LeavesTaken self.old self.new message.now result }
    {
        match read_message(message) {
            Ok((form, told)) if form == self.form => self.take_told(told),
            Ok(_) => Err(NodeFault::OtherForm),
            Err(at) => Err(NodeFault::Malformed { at }),
        }
    }

    /// Keeps a string that comes with a key, where the key is right.
    pub(crate) fn take_told(&mut self, told: Told<'_>) -> Result<Taken, NodeFault>
        ensures answer { AnswersEntry (state_of T.model self.old) (told_entry told.entry) result }
        ensures node { LeavesEntry self.old self.new (told_entry told.entry) result }
    {
        let text = match short_text(told.string) {
            Ok(text) => text,
            Err(fault) => return Err(fault),
        };
        match self.kept.key_of(text) {
            Some(key) if same_bytes(key.as_bytes(), told.key) => Ok(Taken::Known),
            Some(_) => Err(NodeFault::KeyDiffers),
            None => self.take_new(text, told.key),
        }
    }

    /// Keeps a string that is not kept yet, where the key that came with it is right.
    fn take_new(&mut self, text: &str, told: &[u8]) -> Result<Taken, NodeFault>
        requires short { length text.now ≤ most_bytes }
        requires absent { ¬ IsKept self.old.entries text.now }
        ensures answer { AnswersEntry (state_of T.model self.old) (record { string = text.now; key = told.now }) result }
        ensures node { LeavesEntry self.old self.new (record { string = text.now; key = told.now }) result }
    {
        let key = key_for(self.kept.allocator(), self.table, self.form, text)?;
        if !same_bytes(key.as_str().as_bytes(), told) {
            return Err(NodeFault::KeyDiffers);
        }
        if self.is_full() {
            return Err(NodeFault::Full);
        }
        self.keep(text, key)?;
        Ok(Taken::Kept)
    }
}
