//! Messages and images of nodes of C, spelled right into room that the caller lends.
ghost use Rattle.std.specs.Prelude.{◌≡◌, ◌<◌, Some, length};
ghost use Rattle.np_c.specs.Answers.{told_length, IsPutTelling};
ghost use Rattle.np_c.specs.NodeReading.{IsImageAnswer, IsMessageAnswer};
ghost use Rattle.np_c.specs.Nodes.{state_in};
ghost use Rattle.np_node.specs.LentMessages.{message_lent};
ghost use Rattle.np_node.specs.Messages.{message_bytes};
ghost use Rattle.np_node.specs.Nodes.{state_of, IsNode};

use crate::answers::{Answer, DONE, NO_ROOM, NOT_KEPT};
use crate::kept_node::{KeptNode, no_entries};
use crate::texts::whole_text;
use np_node::{LentMessage, Node};
use np_versions::NormTable;
use std::alloc::Global;
use std::mem;

/// The answer that tells a length.
fn of_length(status: u32, length: usize) -> Answer
    ensures { result ≡ told_length status length }
{
    Answer {
        length: length as u64,
        ..Answer::of(status)
    }
}

/// Spells a message into the room, where it fits.
fn put_lent(message: &LentMessage<'_>, room: &mut [u8]) -> Answer
    ensures { IsPutTelling 0 (message_bytes (message_lent message.now)) room.old room.new result }
{
    let length = message.length();
    if length > room.len() {
        return of_length(NO_ROOM, length);
    }
    message.put(&mut room[..length]);
    of_length(DONE, length)
}

/// Writes the message of a kept string into the room.
fn put_message<T: NormTable>(node: &Node<'_, T>, string: &[u8], room: &mut [u8]) -> Answer
    requires { IsNode (state_of T.model node.now) }
    ensures { IsMessageAnswer (state_of T.model node.now) string.now room.old room.new result }
{
    let Some(text) = whole_text(string) else {
        return Answer::of(NOT_KEPT);
    };
    match node.message_of(text) {
        Some(message) => put_lent(&message, room),
        None => Answer::of(NOT_KEPT),
    }
}

/// Writes the image of a node into the room.
fn put_image<T: NormTable>(node: &Node<'_, T>, room: &mut [u8]) -> Answer
    ensures { IsImageAnswer (state_of T.model node.now) room.old room.new result }
{
    let length = node.image_length();
    if length > room.len() {
        return of_length(NO_ROOM, length);
    }
    node.put_image(&mut room[..length]);
    of_length(DONE, length)
}

/// Writes the message of a kept string into the room.
pub fn message_in(alloc: Global, kept: &mut KeptNode, string: &[u8], room: &mut [u8]) -> Answer
    ensures same { kept.new ≡ kept.old }
    ensures message { IsMessageAnswer (state_in kept.old) string.now room.old room.new result }
{
    let entries = mem::replace(&mut kept.entries, no_entries(alloc, &*kept.shared.table));
    let node = Node::of_entries(&*kept.shared.table, kept.form, kept.room, entries);
    let answer = put_message(&node, string, room);
    kept.entries = node.into_entries();
    answer
}

/// Writes the image of a node into the room.
pub fn image_in(alloc: Global, kept: &mut KeptNode, room: &mut [u8]) -> Answer
    ensures same { kept.new ≡ kept.old }
    ensures image { IsImageAnswer (state_in kept.old) room.old room.new result }
{
    let entries = mem::replace(&mut kept.entries, no_entries(alloc, &*kept.shared.table));
    let node = Node::of_entries(&*kept.shared.table, kept.form, kept.room, entries);
    let answer = put_image(&node, room);
    kept.entries = node.into_entries();
    answer
}
