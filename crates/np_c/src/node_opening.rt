//! Nodes of C, new and from their images, and nodes that move to a later version.
ghost use Rattle.std.specs.Prelude.{◌≡◌, ◌≤◌, Some, None, IfOk, IfErr, OnOk};
ghost use Rattle.std.specs.Arc.{arc_value};
ghost use Rattle.np_code_points.specs.Forms.{byte_of};
ghost use Rattle.np_c.specs.Contents.{node_in};
ghost use Rattle.np_c.specs.NodeOpening.{told_refusal, IsNewAnswer, IsNoFrame, IsRestoreAnswer, IsUpgradeAnswer};
ghost use Rattle.np_c.specs.Nodes.{alone};
ghost use Rattle.np_node.specs.Nodes.{state_of, IsNode};
ghost use Rattle.np_chain.specs.Breaks.{IsFirstBreak};
ghost use Rattle.np_chain.specs.Extension.{Extends};

use crate::answers::{Answer, BAD_ENTRY, BAD_ROOM, DONE, MEMORY, NO_FORM};
use crate::comparing::of_break;
use crate::content::Content;
use crate::keeping::of_fault;
use crate::kept_node::{KeptNode, no_entries};
use crate::shared::Shared;
use crate::texts::form_in;
use np_chain::Break;
use np_code_points::{Form, Memory};
use np_node::{Entries, ImageFault, MOST_ROOM, Node};
use np_versions::NormTable;
use std::alloc::Global;
use std::mem;

/// The form of a letter, where a node can have it and the room.
///
/// # Errors
///
/// The answer that tells why it can't.
fn frame_of(letter: u8, room: u32) -> Result<Form, Answer>
    ensures form { IfOk result (λ form. letter ≡ byte_of form) }
    ensures room { IfOk result (λ _. room ≤ 65536) }
    ensures refused { IfErr result (IsNoFrame letter room) }
{
    let Some(form) = form_in(letter) else {
        return Err(Answer::of(NO_FORM));
    };
    if room > MOST_ROOM {
        return Err(Answer::of(BAD_ROOM));
    }
    Ok(form)
}

/// The answer that tells the refusal of an image.
fn of_refusal(refused: ImageFault) -> Answer
    ensures { result ≡ told_refusal refused.entry refused.fault }
{
    let told = of_fault(refused.fault);
    match refused.entry {
        None => told,
        Some(number) => Answer {
            status: BAD_ENTRY,
            fault: told.status,
            length: u64::from(number),
            ..told
        },
    }
}

/// A node of entries, with a share of the table, in a box.
fn boxed_node(
    alloc: Global,
    tables: &Shared,
    form: Form,
    room: u32,
    entries: Entries,
) -> Result<Box<Content>, Memory>
    requires { IsNode (record { version = arc_value tables.now.table; form = form; room = room; entries = entries }) }
    ensures { IfOk result (λ b. node_in (Some b.value) ≡ Some (record { table = arc_value tables.now.table; form = form; room = room; entries = entries })) }
{
    let shared = tables.another(alloc)?;
    Content::of_node(
        alloc,
        KeptNode {
            shared,
            form,
            room,
            entries,
        },
    )
}

/// A node that keeps nothing, in a box.
///
/// # Errors
///
/// The answer that tells why there is none.
pub fn new_node(
    alloc: Global,
    tables: &Shared,
    letter: u8,
    room: u32,
) -> Result<Box<Content>, Answer>
    ensures node { IfOk result (λ b. IsNewAnswer (arc_value tables.now.table) letter room (Some b.value) (alone 0)) }
    ensures refused { IfErr result (IsNewAnswer (arc_value tables.now.table) letter room None) }
{
    let form = match frame_of(letter, room) {
        Ok(form) => form,
        Err(answer) => return Err(answer),
    };
    let entries = Node::new(alloc, &*tables.table, form, room).into_entries();
    match boxed_node(alloc, tables, form, room, entries) {
        Ok(content) => Ok(content),
        Err(_) => Err(Answer::of(MEMORY)),
    }
}

/// The node of an image, in a box.
///
/// # Errors
///
/// The answer that tells why there is none.
pub fn restored_node(
    alloc: Global,
    tables: &Shared,
    letter: u8,
    room: u32,
    image: &[u8],
) -> Result<Box<Content>, Answer>
    ensures node { IfOk result (λ b. IsRestoreAnswer (arc_value tables.now.table) letter room image.now (Some b.value) (alone 0)) }
    ensures refused { IfErr result (IsRestoreAnswer (arc_value tables.now.table) letter room image.now None) }
{
    let form = match frame_of(letter, room) {
        Ok(form) => form,
        Err(answer) => return Err(answer),
    };
    match Node::restore(alloc, &*tables.table, form, room, image) {
        Ok(node) => match boxed_node(alloc, tables, form, room, node.into_entries()) {
            Ok(content) => Ok(content),
            Err(_) => Err(Answer::of(MEMORY)),
        },
        Err(refused) => Err(of_refusal(refused)),
    }
}

/// What a node keeps, and whether it may be kept under the version of another table.
fn moved<'t, T: NormTable>(mut node: Node<'t, T>, table: &'t T) -> (Entries, Result<(), Break>)
    ensures entries { result.0 ≡ node.entry.entries }
    ensures extends { OnOk result.1 (Extends (T.model node.entry.table) (T.model table.now)) }
    ensures node { OnOk result.1 (IsNode (record (state_of T.model node.entry) { version = T.model table.now })) }
    ensures broken { IfErr result.1 (IsFirstBreak (T.model node.entry.table) (T.model table.now)) }
{
    let outcome = node.upgrade(table);
    (node.into_entries(), outcome)
}

/// Moves a node to the version of a table, where it extends that of the node.
pub fn upgrade_in(alloc: Global, kept: &mut KeptNode, tables: &Shared) -> Answer
    ensures { IsUpgradeAnswer (arc_value tables.now.table) kept.old kept.new result }
{
    let entries = mem::replace(&mut kept.entries, no_entries(alloc, &*kept.shared.table));
    let node = Node::of_entries(&*kept.shared.table, kept.form, kept.room, entries);
    let (entries, outcome) = moved(node, &*tables.table);
    kept.entries = entries;
    match outcome {
        Ok(()) => match tables.another(alloc) {
            Ok(shared) => {
                kept.shared = shared;
                Answer::of(DONE)
            }
            Err(_) => Answer::of(MEMORY),
        },
        Err(first) => of_break(first),
    }
}
