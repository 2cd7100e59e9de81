//! A node that owns its table: what a handle on a node holds.

use crate::shared::Shared;
use np_code_points::Form;
use np_node::{Entries, Node};
use np_tables::PageTable;
use std::alloc::Global;
use std::marker::Model;

/// A table that it shares, and the form, the room and the entries of a node over that table. Contracts see that node.
#[derive(Drop)]
pub struct KeptNode {
    pub(crate) shared: Shared,
    pub(crate) form: Form,
    pub(crate) room: u32,
    pub(crate) entries: Entries,
}

impl Model for KeptNode {
    ghost use Rattle.std.specs.Arc.{arc_value};
    ghost use Rattle.np_node.specs.Nodes.{NodeState, IsNode};
    ghost use Rattle.np_versions.specs.Versions.{VersionData};

    ghost Value = { NodeState VersionData };

    ghost view = { λ a. record { table = arc_value a.shared.table; form = a.form; room = a.room; entries = a.entries } };

    ghost invariant = { λ a. IsNode (record { version = arc_value a.shared.table; form = a.form; room = a.room; entries = a.entries }) };
}

ghost use Rattle.std.specs.Prelude.{◌≡◌, []};

/// The entries of a node that keeps nothing. They take no memory.
pub fn no_entries(alloc: Global, table: &PageTable) -> Entries
    ensures { result ≡ [] }
{
    Node::new(alloc, table, Form::Nfc, 0).into_entries()
}
