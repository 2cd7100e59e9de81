//! Strings that a host hands to its own node.

use crate::faults::NodeFault;
use crate::lent_messages::LentMessage;
use crate::nodes::Node;
use crate::strings::{check_assigned, key_for, short_text};
use crate::taking::Taken;
use np_versions::NormTable;
use std::borrow::CowStr;
use std::fmt;

/// What `Node::accept` answers.
#[derive(PartialEq, Eq, Drop)]
pub enum Accepted {
    /// The string was new and is kept now: the message that tells it to others.
    Kept(Vec<u8>),
    /// The string was kept already. Nothing changed, and there is nothing to send.
    Known,
}

/// Shows how long a message is, and nothing of the string in it, as a node does.
impl fmt::Debug for Accepted {
    fn fmt<W: fmt::Write>(&self, f: &mut fmt::Formatter<W>) -> fmt::Result {
        match self {
            Accepted::Kept(message) => write!(f, "Kept {{ len: {}, .. }}", message.len()),
            Accepted::Known => f.write_str("Known"),
        }
    }
}

impl<'t, T: NormTable> Node<'t, T> {
    ghost use Rattle.std.specs.Cow.{cow_str_bytes};
    ghost use Rattle.std.specs.Prelude.{◌≤◌, ◌<◌, ◌^◌, length, IfOk, IfErr, Err};
    ghost use Rattle.np_node.specs.Accepting.{AnswersAccept, AnswersKeep, LeavesAccepted, LeavesKept};
    ghost use Rattle.np_node.specs.Nodes.{state_of, HasPlace, IsKept};
    ghost use Rattle.np_node.specs.Strings.{most_bytes, IsKey};

    /// Keeps a string behind the others, beside its key, and answers the message that tells it.
    ///
    /// A string that is kept already costs its check as UTF-8 and one look-up by hash, and no
    /// memory. A new one costs one normal form and one message, linear in its length.
    ///
    /// # Errors
    ///
    /// In this order, `Known` and `Kept` coming in their places: `TooLong` for more than 65,536
    /// bytes; `NotUtf8`; `Unassigned` where the table's version lacks a code point; (`Known`;)
    /// `Full` where there are as many strings as the room. `Memory` stands in place of `Kept`
    /// alone. After an error, and after `Known`, the node is as it was.
    pub fn accept(&mut self, string: &[u8]) -> Result<Accepted, NodeFault>
        ensures answer { AnswersAccept (state_of T.model self.old) string.now result }
        ensures node { LeavesAccepted T.model self.old self.new string.now result }
    {
        match short_text(string) {
            Ok(text) if self.kept.key_of(text).is_some() => Ok(Accepted::Known),
            Ok(text) => self.accept_new(text),
            Err(fault) => Err(fault),
        }
    }

    /// Keeps a string as `accept` does, and spells no message. `message_of` tells it at any time.
    ///
    /// # Errors
    ///
    /// Those of `accept`, in its order.
    pub fn keep_string(&mut self, string: &[u8]) -> Result<Taken, NodeFault>
        ensures answer { AnswersKeep (state_of T.model self.old) string.now result }
        ensures node { LeavesKept T.model self.old self.new string.now result }
    {
        match short_text(string) {
            Ok(text) if self.kept.key_of(text).is_some() => Ok(Taken::Known),
            Ok(text) => self.keep_text(text),
            Err(fault) => Err(fault),
        }
    }

    /// Keeps a string that is not kept yet, and answers the message that tells it.
    fn accept_new(&mut self, text: &str) -> Result<Accepted, NodeFault>
        requires short { length text.now ≤ most_bytes }
        requires absent { ¬ IsKept self.old.entries text.now }
        ensures answer { AnswersAccept (state_of T.model self.old) text.now result }
        ensures node { LeavesAccepted T.model self.old self.new text.now result }
    {
        let key = self.new_key(text)?;
        let message = LentMessage::new(self.form, text, key.as_str()).spell(self.kept.allocator())?;
        self.keep(text, key)?;
        Ok(Accepted::Kept(message))
    }

    /// Keeps a string that is not kept yet.
    fn keep_text(&mut self, text: &str) -> Result<Taken, NodeFault>
        requires short { length text.now ≤ most_bytes }
        requires absent { ¬ IsKept self.old.entries text.now }
        ensures answer { AnswersKeep (state_of T.model self.old) text.now result }
        ensures node { LeavesKept T.model self.old self.new text.now result }
    {
        let key = self.new_key(text)?;
        self.keep(text, key)?;
        Ok(Taken::Kept)
    }

    /// The key of a string that is not kept yet, where it may be and there is room for it.
    fn new_key<'a>(&self, text: &'a str) -> Result<CowStr<'a>, NodeFault>
        requires short { length text.now ≤ most_bytes }
        requires absent { ¬ IsKept self.now.entries text.now }
        ensures place { IfOk result (λ _. HasPlace (state_of T.model self.now) text.now) }
        ensures key { IfOk result (λ key. IsKey (T.model self.now.table) self.now.form text.now (cow_str_bytes key)) }
        ensures size { IfOk result (λ key. length (cow_str_bytes key) < 2 ^ 32) }
        ensures fault { IfErr result (λ fault. AnswersAccept (state_of T.model self.now) text.now (Err fault)) }
    {
        if self.is_full() {
            check_assigned(self.table, text)?;
            return Err(NodeFault::Full);
        }
        key_for(self.kept.allocator(), self.table, self.form, text)
    }
}
