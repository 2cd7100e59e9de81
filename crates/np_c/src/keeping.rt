//! Strings that come to a node of C, and go.
ghost use Rattle.std.specs.Prelude.{◌≡◌};
ghost use Rattle.np_c.specs.Nodes.{told_fault, told_kept, told_taken, IsAcceptAnswer, IsForgetAnswer, IsTakeAnswer};
ghost use Rattle.np_node.specs.Forgetting.{Forgets};
ghost use Rattle.np_node.specs.Nodes.{state_of, IsNode};

use crate::answers::{
    Answer, DONE, FULL, KEY_DIFFERS, KNOWN, MALFORMED, MEMORY, NOT_KEPT, NOT_UTF8, OLDER_TABLES,
    OTHER_FORM, TOO_LONG, UNASSIGNED,
};
use crate::kept_node::{KeptNode, no_entries};
use crate::texts::whole_text;
use np_node::{Node, NodeFault, Taken};
use np_versions::NormTable;
use std::alloc::Global;
use std::mem;

/// The answer that tells a place.
fn of_place(status: u32, place: usize) -> Answer
    ensures { result ≡ record { status = status; fault = 0; code = 0; place = place; length = 0 } }
{
    Answer {
        place: place as u64,
        ..Answer::of(status)
    }
}

/// The answer that tells a fault.
pub fn of_fault(fault: NodeFault) -> Answer
    ensures { result ≡ told_fault fault }
{
    match fault {
        NodeFault::Malformed { at } => of_place(MALFORMED, at),
        NodeFault::OtherForm => Answer::of(OTHER_FORM),
        NodeFault::TooLong => Answer::of(TOO_LONG),
        NodeFault::NotUtf8 { at } => of_place(NOT_UTF8, at),
        NodeFault::Unassigned { at, code } => Answer {
            code: u32::from(code),
            ..of_place(UNASSIGNED, at)
        },
        NodeFault::KeyDiffers => Answer::of(KEY_DIFFERS),
        NodeFault::Full => Answer::of(FULL),
        NodeFault::Memory => Answer::of(MEMORY),
        NodeFault::OlderTables { need, have } => Answer {
            place: u64::from(need),
            length: u64::from(have),
            ..Answer::of(OLDER_TABLES)
        },
    }
}

/// The answer that tells whether a string is kept now, or was before, or why it isn't.
fn of_taken(outcome: Result<Taken, NodeFault>) -> Answer
    ensures { result ≡ told_taken outcome }
{
    match outcome {
        Ok(Taken::Kept) => Answer::of(DONE),
        Ok(Taken::Known) => Answer::of(KNOWN),
        Err(fault) => of_fault(fault),
    }
}

/// Keeps a string.
pub fn accept_in(alloc: Global, kept: &mut KeptNode, string: &[u8]) -> Answer
    ensures { IsAcceptAnswer kept.old kept.new string.now result }
{
    let entries = mem::replace(&mut kept.entries, no_entries(alloc, &*kept.shared.table));
    let mut node = Node::of_entries(&*kept.shared.table, kept.form, kept.room, entries);
    let outcome = node.keep_string(string);
    kept.entries = node.into_entries();
    of_taken(outcome)
}

/// Keeps the string of a message.
pub fn take_in(alloc: Global, kept: &mut KeptNode, message: &[u8]) -> Answer
    ensures { IsTakeAnswer kept.old kept.new message.now result }
{
    let entries = mem::replace(&mut kept.entries, no_entries(alloc, &*kept.shared.table));
    let mut node = Node::of_entries(&*kept.shared.table, kept.form, kept.room, entries);
    let outcome = node.take(message);
    kept.entries = node.into_entries();
    of_taken(outcome)
}

/// The answer that tells whether a string was kept.
fn of_kept(kept: bool) -> Answer
    ensures { result ≡ told_kept kept }
{
    if kept {
        Answer::of(DONE)
    } else {
        Answer::of(NOT_KEPT)
    }
}

/// Forgets the string of bytes, where they are one. What isn't UTF-8 is never kept.
fn forget_bytes<T: NormTable>(node: &mut Node<'_, T>, string: &[u8]) -> bool
    requires { IsNode (state_of T.model node.old) }
    ensures { Forgets node.old node.new string.now result }
{
    match whole_text(string) {
        Some(text) => node.forget(text),
        None => false,
    }
}

/// Forgets a string.
pub fn forget_in(alloc: Global, kept: &mut KeptNode, string: &[u8]) -> Answer
    ensures { IsForgetAnswer kept.old kept.new string.now result }
{
    let entries = mem::replace(&mut kept.entries, no_entries(alloc, &*kept.shared.table));
    let mut node = Node::of_entries(&*kept.shared.table, kept.form, kept.room, entries);
    let gone = forget_bytes(&mut node, string);
    kept.entries = node.into_entries();
    of_kept(gone)
}
