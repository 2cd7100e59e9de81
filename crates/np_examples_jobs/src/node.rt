//! What each call answers on worked examples.
mod answers;
mod apart;
mod first_forged;
mod forged;
mod forgetting;
mod hosts;
mod images;
mod messages;
mod refused;
mod second_forged;

ghost use Rattle.std.specs.Prelude.{◌≤◌};

use np_code_points::{Form, Memory};
use np_examples_shared::want;
use np_node::{Accepted, ImageFault, Node, NodeFault, Taken};
use np_versions::NormTable;
use std::alloc::Global;
use std::test::Fail;

/// So many times `a`.
fn letters(alloc: Global, count: usize) -> Result<Vec<u8>, Memory> {
    Ok(vec![in alloc; b'a'; count]?)
}

/// The node keeps a new string, and tells it by this message.
fn wants_kept<T: NormTable>(
    node: &mut Node<'_, T>,
    string: &[u8],
    message: &[u8],
    what: &str,
) -> Result<(), Fail> {
    match node.accept(string)? {
        Accepted::Kept(found) => want(found.as_slice() == message, what),
        Accepted::Known => Err(Fail::new(what)),
    }
}

/// The node has the string already.
fn wants_known<T: NormTable>(
    node: &mut Node<'_, T>,
    string: &[u8],
    what: &str,
) -> Result<(), Fail> {
    match node.accept(string)? {
        Accepted::Known => Ok(()),
        Accepted::Kept(_) => Err(Fail::new(what)),
    }
}

/// The node refuses a string.
fn wants_refused<T: NormTable>(
    node: &mut Node<'_, T>,
    string: &[u8],
    fault: NodeFault,
    what: &str,
) -> Result<(), Fail> {
    match node.accept(string) {
        Ok(_) => Err(Fail::new(what)),
        Err(found) => want(found == fault, what),
    }
}

/// The node answers this to a message.
fn wants_taken<T: NormTable>(
    node: &mut Node<'_, T>,
    message: &[u8],
    answer: Result<Taken, NodeFault>,
    what: &str,
) -> Result<(), Fail> {
    want(node.take(message) == answer, what)
}

/// The node's image is this.
fn wants_image<T: NormTable>(node: &Node<'_, T>, image: &[u8], what: &str) -> Result<(), Fail> {
    let found = node.image()?;
    want(found.as_slice() == image, what)?;
    want(node.image_length() == image.len(), what)
}

/// What is seen of a node.
#[derive(Clone, Copy)]
enum Sight {
    /// So many entries, in a room for so many.
    Size(usize, u32),
    /// The entry at a place.
    Entry(usize, Option<(&'static str, &'static str)>),
    /// The key of a string.
    Key(&'static str, Option<&'static str>),
    /// Whether two strings have one key.
    Same(&'static str, &'static str, Option<bool>),
}

/// Whether this is seen of the node.
fn is_seen<T: NormTable>(node: &Node<'_, T>, sight: &Sight) -> bool {
    match sight {
        Sight::Size(count, room) => {
            node.len() == *count && node.is_empty() == (*count == 0) && node.room() == *room
        }
        Sight::Entry(index, entry) => node.entry(*index) == *entry,
        Sight::Key(string, key) => node.key_of(string) == *key,
        Sight::Same(left, right, answer) => node.same(left, right) == *answer,
    }
}

/// What a node does, or shows.
#[derive(Clone, Copy)]
enum Step {
    /// It keeps a new string, and tells it by this message.
    Keeps(&'static [u8], &'static [u8]),
    /// It accepts a string.
    Accepts(&'static [u8]),
    /// It has a string already.
    Knows(&'static [u8]),
    /// It refuses a string.
    Refuses(&'static [u8], NodeFault),
    /// It answers this to a message.
    Takes(&'static [u8], Result<Taken, NodeFault>),
    /// Whether it had a string, and forgets it.
    Forgets(&'static str, bool),
    /// Its image.
    Saves(&'static [u8]),
    /// What is seen of it.
    Shows(Sight),
}

/// The node takes a step so.
fn wants_step<T: NormTable>(node: &mut Node<'_, T>, step: &Step, what: &str) -> Result<(), Fail> {
    match step {
        Step::Keeps(string, message) => wants_kept(node, string, message, what),
        Step::Accepts(string) => want(node.accept(string).is_ok(), what),
        Step::Knows(string) => wants_known(node, string, what),
        Step::Refuses(string, fault) => wants_refused(node, string, *fault, what),
        Step::Takes(message, answer) => wants_taken(node, message, *answer, what),
        Step::Forgets(string, had) => want(node.forget(string) == *had, what),
        Step::Saves(image) => wants_image(node, image, what),
        Step::Shows(sight) => want(is_seen(node, sight), what),
    }
}

/// A step, and what it shows.
type Row = (Step, &'static str);

/// The node takes these steps so, one behind the other.
fn wants_steps<T: NormTable>(node: &mut Node<'_, T>, rows: &[Row]) -> Result<(), Fail> {
    for (step, what) in rows {
        wants_step(node, step, what)?;
    }
    Ok(())
}

/// An empty node of this room takes these steps so.
fn story<T: NormTable>(alloc: Global, table: &T, room: u32, rows: &[Row]) -> Result<(), Fail>
    requires { room ≤ 65536 }
{
    let mut node = Node::new(alloc, table, Form::Nfc, room);
    wants_steps(&mut node, rows)
}

/// An image, the entry for which it is refused, if it is for one, the fault, and what it shows.
type NoImage<'i> = (&'i [u8], Option<u32>, NodeFault, &'static str);

/// No node of this room is restored from the image.
fn wants_no_node<T: NormTable>(
    alloc: Global,
    table: &T,
    room: u32,
    row: &NoImage<'_>,
) -> Result<(), Fail>
    requires { room ≤ 65536 }
{
    let wanted = ImageFault {
        entry: row.1,
        fault: row.2,
    };
    match Node::restore(alloc, table, Form::Nfc, room, row.0) {
        Ok(_) => Err(Fail::new(row.3)),
        Err(fault) => want(fault == wanted, row.3),
    }
}

/// No node of this room is restored from any of the images.
fn wants_no_nodes<T: NormTable>(
    alloc: Global,
    table: &T,
    room: u32,
    rows: &[NoImage<'_>],
) -> Result<(), Fail>
    requires { room ≤ 65536 }
{
    for row in rows {
        wants_no_node(alloc, table, room, row)?;
    }
    Ok(())
}
