//! A node whose call was refused for want of memory is as it was, and the same call succeeds after all; what is
//! refused for itself takes no memory.
use super::{
    NoImage, Row, Sight, Step, letters, wants_image, wants_kept, wants_no_nodes, wants_refused,
    wants_steps,
};
use np_code_points::Form;
use np_examples_shared::{Example, Made, V1, holds_over_each, want};
use np_node::{Accepted, Node, NodeFault, Taken};
use np_versions::NormTable;
use std::alloc::Global;
use std::test::Fail;

const STRING: &[u8] = b"a\xcc\x82";

const MESSAGE: &[u8] = b"C\0\0\0\x03a\xcc\x82\0\0\0\x02\xc3\xa2";

/// The image in the first layout.
const FIRST: &[u8] = b"NPS1C\0\0\0\x02\0\0\0\x01A\0\0\0\x01A\0\0\0\x03a\xcc\x82\0\0\0\x02\xc3\xa2";

const IMAGE: &[u8] =
    b"NPS2C\0\0\x44\xfc\0\0\0\x02\0\0\0\x01A\0\0\0\0\x03a\xcc\x82\x01\0\0\0\x02\xc3\xa2";

/// The calls of a node that can want memory.
#[derive(Clone, Copy)]
enum NodeCall {
    Accept,
    KeepString,
    Spell,
    Take,
    Image,
}

/// The calls that can want memory, and those that take none.
#[derive(Clone, Copy)]
enum Call {
    OfNode(NodeCall),
    Restore,
    Refusals,
}

/// The node keeps `A`.
fn keep_one<T: NormTable>(node: &mut Node<'_, T>) -> Result<(), Fail> {
    wants_kept(node, b"A", b"C\0\0\0\x01A\0\0\0\x01A", "A")
}

/// Whether the node keeps `A` and nothing else.
fn keeps_one<T: NormTable>(node: &Node<'_, T>) -> bool {
    node.len() == 1 && node.entry(0) == Some(("A", "A")) && node.key_of("a\u{302}").is_none()
}

/// Whether the node keeps the string behind `A`.
fn keeps_both<T: NormTable>(node: &Node<'_, T>) -> bool {
    node.len() == 2
        && node.entry(0) == Some(("A", "A"))
        && node.entry(1) == Some(("a\u{302}", "\u{E2}"))
}

fn accepts<T: NormTable>(node: &mut Node<'_, T>) -> Result<(), Fail> {
    keep_one(node)?;
    match node.accept(STRING) {
        Ok(Accepted::Kept(found)) => want(found.as_slice() == MESSAGE, "the message")?,
        Ok(Accepted::Known) => return Err(Fail::new("known before it is kept")),
        Err(fault) => {
            want(fault == NodeFault::Memory, "no other refusal of a string")?;
            want(keeps_one(node), "a refused string changes nothing")?;
            wants_kept(node, STRING, MESSAGE, "the string after all")?;
        }
    }
    want(keeps_both(node), "the string is kept")
}

fn keeps<T: NormTable>(node: &mut Node<'_, T>) -> Result<(), Fail> {
    keep_one(node)?;
    if let Err(fault) = node.keep_string(STRING) {
        want(fault == NodeFault::Memory, "no other refusal of a string")?;
        want(keeps_one(node), "a refused string changes nothing")?;
        want(
            node.keep_string(STRING)? == Taken::Kept,
            "the string after all",
        )?;
    }
    want(
        node.keep_string(STRING)? == Taken::Known,
        "it is known then",
    )?;
    want(keeps_both(node), "the string is kept")
}

/// The message is told at any time, and none of what isn't kept.
fn tells<T: NormTable>(alloc: Global, node: &Node<'_, T>) -> Result<(), Fail> {
    let Some(message) = node.message_of("a\u{302}") else {
        return Err(Fail::new("the string is kept"));
    };
    let spelled = match message.spell(alloc) {
        Ok(spelled) => spelled,
        Err(_) => message.spell(alloc)?,
    };
    want(spelled.as_slice() == MESSAGE, "the message after all")?;
    want(message.length() == MESSAGE.len(), "its length")?;
    want(node.message_of("a").is_none(), "a is not kept")
}

fn spells<T: NormTable>(alloc: Global, node: &mut Node<'_, T>) -> Result<(), Fail> {
    keep_one(node)?;
    wants_kept(node, STRING, MESSAGE, "the string")?;
    tells(alloc, node)
}

fn takes<T: NormTable>(node: &mut Node<'_, T>) -> Result<(), Fail> {
    keep_one(node)?;
    if let Err(fault) = node.take(MESSAGE) {
        want(fault == NodeFault::Memory, "no other refusal of a message")?;
        want(keeps_one(node), "a refused message changes nothing")?;
        want(node.take(MESSAGE)? == Taken::Kept, "the message after all")?;
    }
    want(keeps_both(node), "what it tells is kept")
}

fn saves<T: NormTable>(node: &mut Node<'_, T>) -> Result<(), Fail> {
    keep_one(node)?;
    wants_kept(node, STRING, MESSAGE, "the string")?;
    if node.image().is_err() {
        want(keeps_both(node), "a refused image changes nothing")?;
    }
    wants_image(node, IMAGE, "the image after all")
}

fn restores<T: NormTable>(alloc: Global, table: &T) -> Result<(), Fail> {
    restores_image(alloc, table, FIRST)?;
    restores_image(alloc, table, IMAGE)
}

/// The node of an image, which is restored a second time where memory was refused for it.
fn node_of<'t, T: NormTable>(
    alloc: Global,
    table: &'t T,
    image: &[u8],
) -> Result<Node<'t, T>, Fail> {
    match Node::restore(alloc, table, Form::Nfc, 4, image) {
        Ok(node) => Ok(node),
        Err(refused) => {
            want(
                refused.entry.is_none() && refused.fault == NodeFault::Memory,
                "no other refusal of an image",
            )?;
            Ok(Node::restore(alloc, table, Form::Nfc, 4, image)?)
        }
    }
}

fn restores_image<T: NormTable>(alloc: Global, table: &T, image: &[u8]) -> Result<(), Fail> {
    let node = node_of(alloc, table, image)?;
    want(keeps_both(&node), "the image's entries")
}

/// What a node that keeps `A` and is full refuses, and what it knows.
const REFUSED: &[Row] = &[
    (
        Step::Refuses(b"a\xcc", NodeFault::NotUtf8 { at: 1 }),
        "a string that is cut",
    ),
    (
        Step::Refuses(
            b"\xef\xbf\xbe",
            NodeFault::Unassigned {
                at: 0,
                code: '\u{FFFE}',
            },
        ),
        "a noncharacter",
    ),
    (Step::Refuses(b"a", NodeFault::Full), "one more string"),
    (
        Step::Takes(b"C\xff\xff\xff\xff", Err(NodeFault::Malformed { at: 5 })),
        "a great length",
    ),
    (
        Step::Takes(b"D\0\0\0\x01A\0\0\0\x01A", Err(NodeFault::OtherForm)),
        "another form",
    ),
    (
        Step::Takes(
            b"C\0\0\0\x01\xff\0\0\0\0",
            Err(NodeFault::NotUtf8 { at: 0 }),
        ),
        "a string that is not UTF-8",
    ),
    (
        Step::Takes(
            b"C\0\0\0\x01b\0\0\0\x01b",
            Err(NodeFault::Unassigned { at: 0, code: 'b' }),
        ),
        "an unassigned letter",
    ),
    (
        Step::Takes(b"C\0\0\0\x01A\0\0\0\x01a", Err(NodeFault::KeyDiffers)),
        "another key",
    ),
    (
        Step::Takes(b"C\0\0\0\x01A\0\0\0\x01A", Ok(Taken::Known)),
        "what is kept",
    ),
    (Step::Knows(b"A"), "what is kept"),
    (Step::Shows(Sight::Size(1, 1)), "nothing changes"),
    (
        Step::Shows(Sight::Entry(0, Some(("A", "A")))),
        "nothing changes",
    ),
    (Step::Shows(Sight::Key("a\u{302}", None)), "nothing changes"),
];

const FORGOTTEN: &[Row] = &[
    (Step::Forgets("a", false), "a is not kept"),
    (Step::Forgets("A", true), "A is forgotten"),
    (Step::Shows(Sight::Size(0, 1)), "nothing is kept"),
];

/// Images of no node of a room of one.
const NO_IMAGES: &[NoImage] = &[
    (
        b"NPS2C\0\0\0\0\xff\xff\xff\xff",
        None,
        NodeFault::Malformed { at: 13 },
        "a great count in the second layout",
    ),
    (
        b"NPS2C\xff\xff\xff\xff\0\0\0\0",
        None,
        NodeFault::OlderTables {
            need: 4_294_967_295,
            have: 17_660,
        },
        "older tables",
    ),
    (
        b"NPS1C\xff\xff\xff\xff",
        None,
        NodeFault::Malformed { at: 9 },
        "a great count",
    ),
    (b"NPS1D\0\0\0\0", None, NodeFault::OtherForm, "another form"),
    (IMAGE, None, NodeFault::Full, "too little room"),
];

/// What a full node refuses for itself, and what it knows: it has none of it refused for want of memory. Then it keeps a
/// string again, which takes some.
fn refuses<T: NormTable>(alloc: Global, node: &mut Node<'_, T>, long: &[u8]) -> Result<(), Fail> {
    keep_one(node)?;
    wants_refused(node, long, NodeFault::TooLong, "a long string")?;
    wants_steps(node, REFUSED)?;
    wants_no_nodes(alloc, node.table(), 1, NO_IMAGES)?;
    wants_steps(node, FORGOTTEN)?;
    keep_one(node)
}

fn asked<T: NormTable>(alloc: Global, node: &mut Node<'_, T>, call: &NodeCall) -> Result<(), Fail> {
    match call {
        NodeCall::Accept => accepts(node),
        NodeCall::KeepString => keeps(node),
        NodeCall::Spell => spells(alloc, node),
        NodeCall::Take => takes(node),
        NodeCall::Image => saves(node),
    }
}

fn asks<T: NormTable>(alloc: Global, table: &T, call: &NodeCall) -> Result<(), Fail> {
    let mut node = Node::new(alloc, table, Form::Nfc, 4);
    asked(alloc, &mut node, call)
}

fn refused<T: NormTable>(alloc: Global, table: &T) -> Result<(), Fail> {
    let long = letters(alloc, 65_537)?;
    let mut node = Node::new(alloc, table, Form::Nfc, 1);
    refuses(alloc, &mut node, &long)
}

impl Example for Call {
    fn holds<T: Made>(&self, alloc: Global, table: &T) -> Result<(), Fail> {
        match self {
            Call::OfNode(call) => asks(alloc, table, call),
            Call::Restore => restores(alloc, table),
            Call::Refusals => refused(alloc, table),
        }
    }
}

#[test]
fn a_refused_accept_succeeds_after_all(rt: HostRuntime) -> Result<(), Fail> {
    holds_over_each(rt.alloc(), V1, &Call::OfNode(NodeCall::Accept))
}

#[test]
fn a_refused_keep_string_succeeds_after_all(rt: HostRuntime) -> Result<(), Fail> {
    holds_over_each(rt.alloc(), V1, &Call::OfNode(NodeCall::KeepString))
}

#[test]
fn a_refused_spell_succeeds_after_all(rt: HostRuntime) -> Result<(), Fail> {
    holds_over_each(rt.alloc(), V1, &Call::OfNode(NodeCall::Spell))
}

#[test]
fn a_refused_take_succeeds_after_all(rt: HostRuntime) -> Result<(), Fail> {
    holds_over_each(rt.alloc(), V1, &Call::OfNode(NodeCall::Take))
}

#[test]
fn a_refused_image_succeeds_after_all(rt: HostRuntime) -> Result<(), Fail> {
    holds_over_each(rt.alloc(), V1, &Call::OfNode(NodeCall::Image))
}

#[test]
fn a_refused_restore_succeeds_after_all(rt: HostRuntime) -> Result<(), Fail> {
    holds_over_each(rt.alloc(), V1, &Call::Restore)
}

#[test]
fn a_refused_allocation_is_none_of_a_refusal(rt: HostRuntime) -> Result<(), Fail> {
    holds_over_each(rt.alloc(), V1, &Call::Refusals)
}
