//! Strings that a node forgets, and a node that is full.
use super::{Row, Sight, Step, letters, story, wants_refused, wants_steps};
use np_code_points::Form;
use np_examples_shared::{Example, Made, V1, holds_over, holds_over_each, want};
use np_node::{MOST_ROOM, Node, NodeFault, Taken};
use np_tables::PageTable;
use np_versions::NormTable;
use std::alloc::Global;
use std::test::Fail;

const MESSAGE: &[u8] = b"C\0\0\0\x01a\0\0\0\x01a";

/// The others keep their order, and a string that is kept anew stands last.
const ORDER: &[Row] = &[
    (Step::Accepts(b"a"), "a"),
    (Step::Accepts(b"A"), "A"),
    (Step::Accepts(b"f"), "f"),
    (Step::Forgets("a", true), "a was kept"),
    (Step::Shows(Sight::Size(2, 4)), "two are left"),
    (Step::Shows(Sight::Entry(0, Some(("A", "A")))), "A is first"),
    (
        Step::Shows(Sight::Entry(1, Some(("f", "f")))),
        "f is second",
    ),
    (Step::Forgets("a", false), "a is not kept any more"),
    (Step::Keeps(b"a", MESSAGE), "a anew"),
    (Step::Shows(Sight::Entry(2, Some(("a", "a")))), "a is last"),
];

/// What isn't kept isn't forgotten: a spelling that is equivalent, and a text of unassigned code points.
const ABSENT: &[Row] = &[
    (Step::Accepts(b"\xc3\xa2"), "the letter"),
    (Step::Forgets("a\u{302}", false), "another spelling"),
    (Step::Forgets("\u{378}", false), "an unassigned code point"),
];

const NOTHING_LEFT: &[Row] = &[
    (Step::Shows(Sight::Size(1, 4)), "nothing changes"),
    (Step::Forgets("\u{E2}", true), "the only one"),
    (Step::Shows(Sight::Size(0, 4)), "nothing is left"),
    (Step::Shows(Sight::Entry(0, None)), "no entry is left"),
];

/// Nor is a text that is too long.
fn forgets_none<T: NormTable>(node: &mut Node<'_, T>, long: &str) -> Result<(), Fail> {
    wants_steps(node, ABSENT)?;
    want(!node.forget(long), "65,537 bytes")?;
    wants_steps(node, NOTHING_LEFT)
}

fn absent<T: NormTable>(alloc: Global, table: &T, long: &[u8]) -> Result<(), Fail> {
    let long = str::from_utf8(long)?;
    let mut node = Node::new(alloc, table, Form::Nfc, 4);
    forgets_none(&mut node, long)
}

fn absent_long<T: NormTable>(alloc: Global, table: &T) -> Result<(), Fail> {
    let long = letters(alloc, 65_537)?;
    absent(alloc, table, &long)
}

const TURN: &[Row] = &[
    (Step::Keeps(b"a", MESSAGE), "a"),
    (Step::Shows(Sight::Entry(1, Some(("a", "a")))), "behind f"),
    (Step::Forgets("a", true), "a was kept"),
];

const AFTER_ALL: &[Row] = &[
    (Step::Takes(MESSAGE, Ok(Taken::Kept)), "an old message"),
    (Step::Knows(b"a"), "a once more"),
    (Step::Shows(Sight::Size(2, 2)), "f and a"),
];

/// What is forgotten comes again by an old message, and may be forgotten and kept again and again.
fn comes_again<T: NormTable>(node: &mut Node<'_, T>) -> Result<(), Fail> {
    want(node.accept(b"f").is_ok(), "f")?;
    for _turn in 0..1000 {
        wants_steps(node, TURN)?;
    }
    wants_steps(node, AFTER_ALL)
}

fn in_turn<T: NormTable>(alloc: Global, table: &T) -> Result<(), Fail> {
    let mut node = Node::new(alloc, table, Form::Nfc, 2);
    comes_again(&mut node)
}

struct Forgotten;

impl Example for Forgotten {
    fn holds<T: Made>(&self, alloc: Global, table: &T) -> Result<(), Fail> {
        story(alloc, table, 4, ORDER)?;
        absent_long(alloc, table)?;
        in_turn(alloc, table)
    }
}

#[test]
fn strings_are_forgotten(rt: HostRuntime) -> Result<(), Fail> {
    holds_over_each(rt.alloc(), V1, &Forgotten)
}

/// One of 256 private letters.
fn letter(number: u32) -> Result<char, Fail> {
    let letter = char::from_u32(0xE000 + number % 256).ok_or("a private letter")?;
    Ok(letter)
}

/// A string of two private letters, one for each number below 65,536.
fn string_of(alloc: Global, number: u32) -> Result<String, Fail> {
    let mut string = String::new(alloc);
    string.push(letter(number / 256)?)?;
    string.push(letter(number)?)?;
    Ok(string)
}

/// The node keeps the string of this number.
fn keep_private<T: NormTable>(
    alloc: Global,
    node: &mut Node<'_, T>,
    number: u32,
) -> Result<(), Fail> {
    let string = string_of(alloc, number)?;
    want(node.accept(string.as_bytes()).is_ok(), "a private string")
}

/// The node keeps as many strings as any.
fn fill<T: NormTable>(alloc: Global, node: &mut Node<'_, T>) -> Result<(), Fail> {
    for number in 0..MOST_ROOM {
        keep_private(alloc, node, number)?;
    }
    wants_refused(node, b"a", NodeFault::Full, "one more")
}

/// The node's entry at a place is the string of this number beside itself.
fn wants_entry<T: NormTable>(
    alloc: Global,
    node: &Node<'_, T>,
    index: usize,
    number: u32,
) -> Result<(), Fail> {
    let string = string_of(alloc, number)?;
    want(
        node.entry(index) == Some((string.as_str(), string.as_str())),
        "the entry at its place",
    )
}

/// A full node is saved and restored whole.
fn saved<T: NormTable>(alloc: Global, node: &Node<'_, T>) -> Result<(), Fail> {
    let image = node.image()?;
    want(image.len() == 720_909, "11 bytes an entry behind 13")?;
    let again = Node::restore(alloc, node.table(), Form::Nfc, MOST_ROOM, &image)?;
    want(again.len() == 65_536, "as many entries")?;
    wants_entry(alloc, &again, 65_535, 65_535)
}

/// The first of a full node's strings is forgotten, and stands last when it is kept anew.
fn first_forgotten<T: NormTable>(
    alloc: Global,
    node: &mut Node<'_, T>,
    first: &str,
) -> Result<(), Fail> {
    want(node.forget(first), "the first was kept")?;
    want(node.len() == 65_535, "one is gone")?;
    wants_entry(alloc, node, 0, 1)?;
    want(node.accept(first.as_bytes()).is_ok(), "the first anew")?;
    wants_entry(alloc, node, 65_535, 0)
}

fn is_full<T: NormTable>(alloc: Global, node: &mut Node<'_, T>) -> Result<(), Fail> {
    fill(alloc, node)?;
    saved(alloc, node)?;
    let first = string_of(alloc, 0)?;
    first_forgotten(alloc, node, first.as_str())
}

fn full_node<T: NormTable>(alloc: Global, table: &T) -> Result<(), Fail> {
    let mut node = Node::new(alloc, table, Form::Nfc, MOST_ROOM);
    is_full(alloc, &mut node)
}

struct FullNode;

impl Example for FullNode {
    fn holds<T: Made>(&self, alloc: Global, table: &T) -> Result<(), Fail> {
        full_node(alloc, table)
    }
}

#[test]
fn a_full_node_forgets_its_first_string(rt: HostRuntime) -> Result<(), Fail> {
    holds_over::<PageTable, FullNode>(rt.alloc(), V1, &FullNode)
}
