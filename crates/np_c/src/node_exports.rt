//! The calls of nodes that C makes. Each takes the node out of its handle, and puts it back.
ghost use Rattle.std.specs.Prelude.{◌≡◌, false, Some, None, IfSome, length};
ghost use Rattle.np_node.specs.Nodes.{IsNode};
ghost use Rattle.np_versions.specs.Counts.{assigned_count};
ghost use Rattle.np_c.specs.Contents.{HeldNode, Holds};
ghost use Rattle.np_c.specs.NodeOpening.{IsNewAnswer, IsRestoreAnswer, IsUpgradeAnswer};
ghost use Rattle.np_c.specs.NodeReading.{told_count, IsEntryAnswer, IsImageAnswer, IsKeptKeyAnswer, IsMessageAnswer, IsSameAnswer};
ghost use Rattle.np_c.specs.Nodes.{alone, node_of, state_in, IsAcceptAnswer, IsChanged, IsClosedNode, IsForgetAnswer, IsTakeAnswer};
ghost use Rattle.np_c.specs.Versions.{content_of, version_of};

use crate::answers::{Answer, CLOSED, DONE};
use crate::handles::Handle;
use crate::keeping::{accept_in, forget_in, take_in};
use crate::node_opening::{new_node, restored_node, upgrade_in};
use crate::node_reading::{count_in, entry_in, key_in, same_in, version_in};
use crate::node_writing::{image_in, message_in};
use std::alloc::Global;

/// Opens the node on the version of the tables, with nothing kept and room for so many strings, and lets go of what the handle held.
/// After a refusal it holds what it held.
#[unsafe(no_mangle)]
pub extern "C" fn npss_node_new(
    alloc: Global,
    node: &mut Handle,
    tables: &mut Handle,
    form: u8,
    room: u32,
) -> Answer
    ensures same { content_of tables.new ≡ content_of tables.old }
    ensures opened { IfSome (version_of tables.old) (λ v.
        Holds (λ opened. IsNewAnswer v form room opened result) (content_of node.old) (content_of node.new)) }
    ensures closed { version_of tables.old ≡ None → (result ≡ alone 5) × (content_of node.new ≡ content_of node.old) }
{
    match tables.take_table(alloc) {
        None => Answer::of(CLOSED),
        Some((shared, content)) => {
            let made = new_node(alloc, &shared, form, room);
            tables.put_table(content, shared);
            match made {
                Ok(opened) => {
                    node.exchange(alloc, opened);
                    Answer::of(DONE)
                }
                Err(answer) => answer,
            }
        }
    }
}

/// Opens the node on the version of the tables, with what an image holds, and lets go of what the handle held. After a refusal it
/// holds what it held.
#[unsafe(no_mangle)]
pub extern "C" fn npss_node_restore(
    alloc: Global,
    node: &mut Handle,
    tables: &mut Handle,
    form: u8,
    room: u32,
    image: &[u8],
) -> Answer
    ensures same { content_of tables.new ≡ content_of tables.old }
    ensures opened { IfSome (version_of tables.old) (λ v.
        Holds (λ opened. IsRestoreAnswer v form room image.now opened result) (content_of node.old) (content_of node.new)) }
    ensures closed { version_of tables.old ≡ None → (result ≡ alone 5) × (content_of node.new ≡ content_of node.old) }
{
    match tables.take_table(alloc) {
        None => Answer::of(CLOSED),
        Some((shared, content)) => {
            let made = restored_node(alloc, &shared, form, room, image);
            tables.put_table(content, shared);
            match made {
                Ok(restored) => {
                    node.exchange(alloc, restored);
                    Answer::of(DONE)
                }
                Err(answer) => answer,
            }
        }
    }
}

/// Keeps a string.
#[unsafe(no_mangle)]
pub extern "C" fn npss_node_accept(alloc: Global, node: &mut Handle, string: &[u8]) -> Answer
    ensures kept { IfSome (node_of node.old) (λ old. IsChanged node.new (λ new. IsAcceptAnswer old new string.now result)) }
    ensures closed { node_of node.old ≡ None → IsClosedNode node.old node.new result }
{
    match node.take_node(alloc) {
        None => Answer::of(CLOSED),
        Some((mut kept, content)) => {
            let answer = accept_in(alloc, &mut *kept, string);
            node.put_node(content, kept);
            answer
        }
    }
}

/// Keeps the string of a message, where its key is right.
#[unsafe(no_mangle)]
pub extern "C" fn npss_node_take(alloc: Global, node: &mut Handle, message: &[u8]) -> Answer
    ensures kept { IfSome (node_of node.old) (λ old. IsChanged node.new (λ new. IsTakeAnswer old new message.now result)) }
    ensures closed { node_of node.old ≡ None → IsClosedNode node.old node.new result }
{
    match node.take_node(alloc) {
        None => Answer::of(CLOSED),
        Some((mut kept, content)) => {
            let answer = take_in(alloc, &mut *kept, message);
            node.put_node(content, kept);
            answer
        }
    }
}

/// Forgets a string.
#[unsafe(no_mangle)]
pub extern "C" fn npss_node_forget(alloc: Global, node: &mut Handle, string: &[u8]) -> Answer
    ensures gone { IfSome (node_of node.old) (λ old. IsChanged node.new (λ new. IsForgetAnswer old new string.now result)) }
    ensures closed { node_of node.old ≡ None → IsClosedNode node.old node.new result }
{
    match node.take_node(alloc) {
        None => Answer::of(CLOSED),
        Some((mut kept, content)) => {
            let answer = forget_in(alloc, &mut *kept, string);
            node.put_node(content, kept);
            answer
        }
    }
}

/// Whether two kept strings are equivalent.
#[unsafe(no_mangle)]
pub extern "C" fn npss_node_same(
    alloc: Global,
    node: &mut Handle,
    left: &[u8],
    right: &[u8],
) -> Answer
    ensures same { node_of node.new ≡ node_of node.old }
    ensures told { IfSome (node_of node.old) (λ kept. IsSameAnswer (state_in kept) left.now right.now result) }
    ensures closed { node_of node.old ≡ None → IsClosedNode node.old node.new result }
{
    match node.take_node(alloc) {
        None => Answer::of(CLOSED),
        Some((mut kept, content)) => {
            let answer = same_in(alloc, &mut *kept, left, right);
            node.put_node(content, kept);
            answer
        }
    }
}

/// Writes the key of a kept string into the room.
#[unsafe(no_mangle)]
pub extern "C" fn npss_node_key(
    alloc: Global,
    node: &mut Handle,
    string: &[u8],
    room: &mut [u8],
) -> Answer
    ensures same { node_of node.new ≡ node_of node.old }
    ensures key { IfSome (node_of node.old) (λ kept. IsKeptKeyAnswer (state_in kept) string.now room.old room.new result) }
    ensures closed { node_of node.old ≡ None → IsClosedNode node.old node.new result × (room.new ≡ room.old) }
{
    match node.take_node(alloc) {
        None => Answer::of(CLOSED),
        Some((mut kept, content)) => {
            let answer = key_in(alloc, &mut *kept, string, room);
            node.put_node(content, kept);
            answer
        }
    }
}

/// Writes the string of an entry, by its number from 0, and right behind it its key into the room. The string's length
/// is the place of the answer.
#[unsafe(no_mangle)]
pub extern "C" fn npss_node_entry(
    alloc: Global,
    node: &mut Handle,
    index: u64,
    room: &mut [u8],
) -> Answer
    ensures same { node_of node.new ≡ node_of node.old }
    ensures entry { IfSome (node_of node.old) (λ kept. IsEntryAnswer (state_in kept) index room.old room.new result) }
    ensures closed { node_of node.old ≡ None → IsClosedNode node.old node.new result × (room.new ≡ room.old) }
{
    match node.take_node(alloc) {
        None => Answer::of(CLOSED),
        Some((mut kept, content)) => {
            let answer = entry_in(alloc, &mut *kept, index, room);
            node.put_node(content, kept);
            answer
        }
    }
}

/// Writes the message that tells a kept string into the room.
#[unsafe(no_mangle)]
pub extern "C" fn npss_node_message(
    alloc: Global,
    node: &mut Handle,
    string: &[u8],
    room: &mut [u8],
) -> Answer
    ensures same { node_of node.new ≡ node_of node.old }
    ensures message { IfSome (node_of node.old) (λ kept. IsMessageAnswer (state_in kept) string.now room.old room.new result) }
    ensures closed { node_of node.old ≡ None → IsClosedNode node.old node.new result × (room.new ≡ room.old) }
{
    match node.take_node(alloc) {
        None => Answer::of(CLOSED),
        Some((mut kept, content)) => {
            let answer = message_in(alloc, &mut *kept, string, room);
            node.put_node(content, kept);
            answer
        }
    }
}

/// Writes the node's image into the room.
#[unsafe(no_mangle)]
pub extern "C" fn npss_node_image(alloc: Global, node: &mut Handle, room: &mut [u8]) -> Answer
    ensures same { node_of node.new ≡ node_of node.old }
    ensures image { IfSome (node_of node.old) (λ kept. IsImageAnswer (state_in kept) room.old room.new result) }
    ensures closed { node_of node.old ≡ None → IsClosedNode node.old node.new result × (room.new ≡ room.old) }
{
    match node.take_node(alloc) {
        None => Answer::of(CLOSED),
        Some((mut kept, content)) => {
            let answer = image_in(alloc, &mut *kept, room);
            node.put_node(content, kept);
            answer
        }
    }
}

/// How many strings are kept: the length of the answer.
#[unsafe(no_mangle)]
pub extern "C" fn npss_node_count(alloc: Global, node: &mut Handle) -> Answer
    ensures same { node_of node.new ≡ node_of node.old }
    ensures count { IfSome (node_of node.old) (λ kept. result ≡ told_count (length kept.entries)) }
    ensures node { IfSome (node_of node.old) (λ kept. IsNode (state_in kept)) }
    ensures closed { node_of node.old ≡ None → IsClosedNode node.old node.new result }
{
    match node.take_node(alloc) {
        None => Answer::of(CLOSED),
        Some((mut kept, content)) => {
            let answer = count_in(alloc, &mut *kept);
            node.put_node(content, kept);
            answer
        }
    }
}

/// Moves to the version of the tables, where it extends that of the node; else the first break.
#[unsafe(no_mangle)]
pub extern "C" fn npss_node_upgrade(alloc: Global, node: &mut Handle, tables: &mut Handle) -> Answer
    ensures same { content_of tables.new ≡ content_of tables.old }
    ensures moved { IfSome (node_of node.old) (λ old. IfSome (version_of tables.old) (λ v. IsChanged node.new (λ new. IsUpgradeAnswer v old new result))) }
    ensures closed { node_of node.old ≡ None → IsClosedNode node.old node.new result }
    ensures no_tables { version_of tables.old ≡ None → (result ≡ alone 5) × (node_of node.new ≡ node_of node.old) }
{
    match node.take_node(alloc) {
        None => Answer::of(CLOSED),
        Some((mut kept, content)) => {
            let answer = match tables.take_table(alloc) {
                None => Answer::of(CLOSED),
                Some((shared, table_content)) => {
                    let answer = upgrade_in(alloc, &mut *kept, &shared);
                    tables.put_table(table_content, shared);
                    answer
                }
            };
            node.put_node(content, kept);
            answer
        }
    }
}

/// How many code points the node's version assigns: the length of the answer.
#[unsafe(no_mangle)]
pub extern "C" fn npss_node_version(alloc: Global, node: &mut Handle) -> Answer
    ensures same { node_of node.new ≡ node_of node.old }
    ensures count { IfSome (node_of node.old) (λ kept. result ≡ told_count (assigned_count kept.table)) }
    ensures closed { node_of node.old ≡ None → IsClosedNode node.old node.new result }
{
    match node.take_node(alloc) {
        None => Answer::of(CLOSED),
        Some((kept, content)) => {
            let answer = version_in(&*kept);
            node.put_node(content, kept);
            answer
        }
    }
}

/// Closes the node. A closed one stays closed.
#[unsafe(no_mangle)]
pub extern "C" fn npss_node_close(alloc: Global, node: &mut Handle)
    ensures { node.new.is_open ≡ false }
{
    let content = node.take(alloc);
    drop(content);
}
