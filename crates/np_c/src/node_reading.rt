//! What nodes of C tell of the strings and keys that they keep.
ghost use Rattle.std.specs.Prelude.{◌≡◌, ◌⊎◌, length};
ghost use Rattle.np_c.specs.NodeReading.{told_count, told_lack, IsEntryAnswer, IsKeptKeyAnswer, IsSameAnswer};
ghost use Rattle.np_c.specs.Nodes.{state_in};
ghost use Rattle.np_node.specs.Nodes.{state_of, IsKept, IsNode};
ghost use Rattle.np_versions.specs.Counts.{assigned_count};

use crate::answers::{Answer, DONE, NOT_KEPT};
use crate::comparing::answer_of_truth;
use crate::kept_node::{KeptNode, no_entries};
use crate::room::{put, put_both};
use crate::texts::whole_text;
use np_node::Node;
use np_versions::NormTable;
use std::alloc::Global;
use std::mem;

/// The answer that tells a count.
fn of_count(count: u64) -> Answer
    ensures { result ≡ told_count count }
{
    Answer {
        length: count,
        ..Answer::of(DONE)
    }
}

/// The answer that tells which of two strings isn't kept.
fn of_lack(number: u32) -> Answer
    ensures { result ≡ told_lack number }
{
    Answer {
        fault: number,
        ..Answer::of(NOT_KEPT)
    }
}

/// The first of two strings that isn't kept, where one isn't.
fn tell_lack<T: NormTable>(node: &Node<'_, T>, first: &str) -> Answer
    ensures { ((result ≡ told_lack 1) × (¬ IsKept node.now.entries first.now)) ⊎ ((result ≡ told_lack 2) × IsKept node.now.entries first.now) }
{
    match node.key_of(first) {
        Some(_) => of_lack(2),
        None => of_lack(1),
    }
}

/// Whether two kept strings are equivalent.
fn tell_same<T: NormTable>(node: &Node<'_, T>, left: &[u8], right: &[u8]) -> Answer
    requires { IsNode (state_of T.model node.now) }
    ensures { IsSameAnswer (state_of T.model node.now) left.now right.now result }
{
    let Some(first) = whole_text(left) else {
        return of_lack(1);
    };
    let Some(second) = whole_text(right) else {
        return tell_lack(node, first);
    };
    match node.same(first, second) {
        Some(equal) => answer_of_truth(equal),
        None => tell_lack(node, first),
    }
}

/// Writes the key of a kept string into the room.
fn put_key<T: NormTable>(node: &Node<'_, T>, string: &[u8], room: &mut [u8]) -> Answer
    requires { IsNode (state_of T.model node.now) }
    ensures { IsKeptKeyAnswer (state_of T.model node.now) string.now room.old room.new result }
{
    let Some(text) = whole_text(string) else {
        return Answer::of(NOT_KEPT);
    };
    match node.key_of(text) {
        Some(key) => put(key.as_bytes(), room),
        None => Answer::of(NOT_KEPT),
    }
}

/// Writes a string and its key into the room.
fn put_entry<T: NormTable>(node: &Node<'_, T>, index: u64, room: &mut [u8]) -> Answer
    requires { IsNode (state_of T.model node.now) }
    ensures { IsEntryAnswer (state_of T.model node.now) index room.old room.new result }
{
    match node.entry(index as usize) {
        Some((string, key)) => put_both(string.as_bytes(), key.as_bytes(), room),
        None => Answer::of(NOT_KEPT),
    }
}

/// How many strings are kept.
pub fn count_in(alloc: Global, kept: &mut KeptNode) -> Answer
    ensures same { kept.new ≡ kept.old }
    ensures count { result ≡ told_count (length kept.old.entries) }
    ensures node { IsNode (state_in kept.old) }
{
    let entries = mem::replace(&mut kept.entries, no_entries(alloc, &*kept.shared.table));
    let node = Node::of_entries(&*kept.shared.table, kept.form, kept.room, entries);
    let count = node.len();
    kept.entries = node.into_entries();
    of_count(count as u64)
}

/// How many code points the version assigns.
pub fn version_in(kept: &KeptNode) -> Answer
    ensures { result ≡ told_count (assigned_count kept.now.table) }
{
    of_count(u64::from(kept.shared.table.version().count()))
}

/// Whether two kept strings are equivalent.
pub fn same_in(alloc: Global, kept: &mut KeptNode, left: &[u8], right: &[u8]) -> Answer
    ensures same { kept.new ≡ kept.old }
    ensures told { IsSameAnswer (state_in kept.old) left.now right.now result }
{
    let entries = mem::replace(&mut kept.entries, no_entries(alloc, &*kept.shared.table));
    let node = Node::of_entries(&*kept.shared.table, kept.form, kept.room, entries);
    let answer = tell_same(&node, left, right);
    kept.entries = node.into_entries();
    answer
}

/// Writes the key of a kept string into the room.
pub fn key_in(alloc: Global, kept: &mut KeptNode, string: &[u8], room: &mut [u8]) -> Answer
    ensures same { kept.new ≡ kept.old }
    ensures key { IsKeptKeyAnswer (state_in kept.old) string.now room.old room.new result }
{
    let entries = mem::replace(&mut kept.entries, no_entries(alloc, &*kept.shared.table));
    let node = Node::of_entries(&*kept.shared.table, kept.form, kept.room, entries);
    let answer = put_key(&node, string, room);
    kept.entries = node.into_entries();
    answer
}

/// Writes a string and its key into the room.
pub fn entry_in(alloc: Global, kept: &mut KeptNode, index: u64, room: &mut [u8]) -> Answer
    ensures same { kept.new ≡ kept.old }
    ensures entry { IsEntryAnswer (state_in kept.old) index room.old room.new result }
{
    let entries = mem::replace(&mut kept.entries, no_entries(alloc, &*kept.shared.table));
    let node = Node::of_entries(&*kept.shared.table, kept.form, kept.room, entries);
    let answer = put_entry(&node, index, room);
    kept.entries = node.into_entries();
    answer
}
