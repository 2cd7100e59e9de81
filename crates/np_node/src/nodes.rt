//! The strings that a node keeps, each beside its key.
ghost use Rattle.std.specs.Prelude.{◌≡◌, ◌↔◌, ◌≤◌, [], length, slice_get, IsOk, IsTrue, IfOk, IfErr, IfSome, IfNone, OnOk, OnErr, Contains};
ghost use Rattle.std.specs.Option.{option_map};
ghost use Rattle.np_chain.specs.Breaks.{IsFirstBreak};
ghost use Rattle.np_chain.specs.Chain.{Extends};
ghost use Rattle.np_node.specs.Comparing.{AnswersSame};
ghost use Rattle.np_node.specs.Forgetting.{Forgets};
ghost use Rattle.np_node.specs.Nodes.{state_of, with_entry, HasPlace, IsKept, IsNode};
ghost use Rattle.np_node.specs.Strings.{IsKey};
ghost use Rattle.std.specs.Cow.{cow_str_bytes};

use crate::entries::Entries;
use crate::fields::same_bytes;
use np_chain::Break;
use np_code_points::{Form, Memory};
use np_versions::NormTable;
use std::alloc::Global;
use std::borrow::CowStr;
use std::fmt;
use std::marker::Model;

/// The most strings that a node may have room for.
pub const MOST_ROOM: u32 = 65_536;

/// Strings in the order in which they were kept, each beside its key: its normal form under the
/// version of a table. Strings are compared by their bytes, so two that are equivalent and unlike
/// are two entries.
///
/// Contracts see the table, the form, the room and the list of entries.
pub struct Node<'t, T: NormTable> {
    pub(crate) table: &'t T,
    pub(crate) form: Form,
    pub(crate) room: u32,
    pub(crate) kept: Entries,
}

impl<'t, T: NormTable> Model for Node<'t, T> {
    ghost use Rattle.np_node.specs.Nodes.{NodeState, state_of, IsNode};

    ghost Value = { NodeState T };

    ghost view = { λ a. record { table = a.table.now; form = a.form; room = a.room; entries = a.kept } };

    ghost invariant = { λ a. IsNode (record { version = T.model a.table.now; form = a.form; room = a.room; entries = a.kept }) };
}

/// Shows how many strings are kept, and none of them: they may be names of persons.
impl<'t, T: NormTable> fmt::Debug for Node<'t, T> {
    fn fmt<W: fmt::Write>(&self, f: &mut fmt::Formatter<W>) -> fmt::Result {
        f.debug_struct("Node")
            .field("form", &self.form)
            .field("room", &self.room)
            .field("len", &self.kept.len())
            .finish_non_exhaustive()
    }
}

impl<'t, T: NormTable> Drop for Node<'t, T> {
    fn drop(self) {
        let Node {
            table: _,
            form: _,
            room: _,
            kept: _,
        } = self;
    }
}

impl<'t, T: NormTable> Node<'t, T> {
    /// A node that keeps nothing yet, with room for `room` strings. It takes no memory.
    pub fn new(alloc: Global, table: &'t T, form: Form, room: u32) -> Node<'t, T>
        requires { room ≤ MOST_ROOM }
        ensures { result ≡ record { table = table.now; form = form; room = room; entries = [] } }
    {
        table.meets_conditions();
        Node::of_entries(table, form, room, Entries::new(alloc))
    }

    /// How many strings are kept. Constant time.
    pub fn len(&self) -> usize
        ensures count { result ≡ length self.now.entries }
        ensures node { IsNode (state_of T.model self.now) }
    {
        self.kept.len()
    }

    /// Whether no string is kept.
    pub fn is_empty(&self) -> bool
        ensures { IsTrue result ↔ (self.now.entries ≡ []) }
    {
        self.len() == 0
    }

    /// The most strings that may be kept.
    pub fn room(&self) -> u32
        ensures { result ≡ self.now.room }
    {
        self.room
    }

    /// The form of the keys.
    pub fn form(&self) -> Form
        ensures { result ≡ self.now.form }
    {
        self.form
    }

    /// The table whose version the keys are made under.
    pub fn table(&self) -> &'t T
        ensures { result.now ≡ self.now.table }
    {
        self.table
    }

    /// The string and the key of entry number `index`, from 0, in the order in which they were
    /// kept; none where there is no such entry. Constant time.
    pub fn entry(&self, index: usize) -> Option<(&str, &str)>
        ensures { option_map (λ p. record { string = p.0.now; key = p.1.now }) result ≡ slice_get self.now.entries index }
    {
        self.kept.get(index)
    }

    /// The key of a string that is kept; none where it is not. One look-up by hash.
    pub fn key_of(&self, string: &str) -> Option<&str>
        ensures some { IfSome result (λ key. Contains self.now.entries (record { string = string.now; key = key.now })) }
        ensures key { IfSome result (λ key. IsKey (T.model self.now.table) self.now.form string.now key.now) }
        ensures none { IfNone result (¬ IsKept self.now.entries string.now) }
    {
        self.kept.key_of(string)
    }

    /// Whether two kept strings are equivalent under the table's version (compatibly, for NFKD and
    /// NFKC), which their keys tell; none where one of them is not kept. Two look-ups by hash and
    /// one comparison of bytes.
    pub fn same(&self, left: &str, right: &str) -> Option<bool>
        ensures { AnswersSame (state_of T.model self.now) left.now right.now result }
    {
        let _node = &self.table;
        let first = self.key_of(left)?;
        let second = self.key_of(right)?;
        Some(same_bytes(first.as_bytes(), second.as_bytes()))
    }

    /// Moves to a table whose version extends the present one. Strings and keys stay as they are,
    /// and no entry is looked at: the time is that of `np_chain::extends`.
    ///
    /// # Errors
    ///
    /// The first break where the version does not extend the present one. Nothing changes.
    pub fn upgrade(&mut self, table: &'t T) -> Result<(), Break>
        ensures extends { IsOk result ↔ Extends (T.model self.old.table) (T.model table.now) }
        ensures ok { OnOk result (self.new ≡ record self.old { table = table.now }) }
        ensures broken { IfErr result (λ first. IsFirstBreak (T.model self.old.table) (T.model table.now) first) }
        ensures err { OnErr result (self.new ≡ self.old) }
    {
        np_chain::laws::stability();
        np_chain::extends(self.table.version(), table.version())?;
        self.table = table;
        Ok(())
    }

    /// Forgets a string, and answers whether it was kept. The others keep their order, so the time is
    /// linear in how many there are; no memory is taken.
    pub fn forget(&mut self, string: &str) -> bool
        ensures { Forgets self.old self.new string.now result }
    {
        self.kept.remove(string)
    }

    /// Whether there are as many strings as the room.
    pub(crate) fn is_full(&self) -> bool
        ensures { IsTrue result ↔ (self.now.room ≤ length self.now.entries) }
    {
        self.len() >= self.room as usize
    }

    /// Keeps a new string beside its key, behind the others.
    pub(crate) fn keep(&mut self, string: &str, key: CowStr<'_>) -> Result<(), Memory>
        requires place { HasPlace (state_of T.model self.old) string.now }
        requires key { IsKey (T.model self.old.table) self.old.form string.now (cow_str_bytes key) }
        ensures ok { OnOk result (self.new ≡ with_entry self.old (record { string = string.now; key = cow_str_bytes key.entry })) }
        ensures err { OnErr result (self.new ≡ self.old) }
    {
        self.kept.push(string, key)
    }

    /// Takes the node apart: what it keeps, without its table. Nothing is looked at or copied. For a
    /// host that owns the table beside the node.
    pub fn into_entries(self) -> Entries
        ensures entries { result ≡ self.entry.entries }
        ensures node { IsNode (state_of T.model self.entry) }
    {
        let Node {
            table: _,
            form: _,
            room: _,
            kept: left,
        } = self;
        left
    }

    /// The node of entries that a node over a table of the same version was taken apart into.
    pub fn of_entries(table: &'t T, form: Form, room: u32, entries: Entries) -> Node<'t, T>
        requires { IsNode (record { version = T.model table.now; form = form; room = room; entries = entries }) }
        ensures { result ≡ record { table = table.now; form = form; room = room; entries = entries } }
    {
        Node {
            table,
            form,
            room,
            kept: entries,
        }
    }
}
