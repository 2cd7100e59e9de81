//! What a node answers to messages.
use super::{Row, Sight, Step, story, wants_steps, wants_taken};
use np_code_points::Form;
use np_examples_shared::{Example, Made, V1, holds_over_each, want};
use np_node::{Node, NodeFault, Taken};
use np_versions::NormTable;
use std::alloc::Global;
use std::test::Fail;

/// 0061 0302 with the right key.
const RIGHT: &[u8] = b"C\0\0\0\x03a\xcc\x82\0\0\0\x02\xc3\xa2";

/// 0061 0302 with itself as key.
const FORGED: &[u8] = b"C\0\0\0\x03a\xcc\x82\0\0\0\x03a\xcc\x82";

/// The right message under NFD's byte.
const OTHER: &[u8] = b"D\0\0\0\x03a\xcc\x82\0\0\0\x02\xc3\xa2";

/// The right message and one byte more.
const MORE: &[u8] = b"C\0\0\0\x03a\xcc\x82\0\0\0\x02\xc3\xa2\0";

/// What the node answers, one message behind the other.
const KEYS: &[Row] = &[
    (Step::Takes(FORGED, Err(NodeFault::KeyDiffers)), "forged"),
    (Step::Takes(RIGHT, Ok(Taken::Kept)), "right"),
    (Step::Takes(RIGHT, Ok(Taken::Known)), "right again"),
    (
        Step::Takes(FORGED, Err(NodeFault::KeyDiffers)),
        "forged again",
    ),
    (
        Step::Takes(OTHER, Err(NodeFault::OtherForm)),
        "another form",
    ),
    (Step::Shows(Sight::Size(1, 4)), "one entry"),
    (
        Step::Shows(Sight::Entry(0, Some(("a\u{302}", "\u{E2}")))),
        "with its own key",
    ),
];

/// Messages that an empty node refuses.
const REFUSED: &[Row] = &[
    (
        Step::Takes(MORE, Err(NodeFault::Malformed { at: 14 })),
        "a byte more",
    ),
    (
        Step::Takes(b"C\xff\xff\xff\xff", Err(NodeFault::Malformed { at: 5 })),
        "a great length",
    ),
    (
        Step::Takes(b"\0\0\0\0\0\0\0\0\0", Err(NodeFault::Malformed { at: 0 })),
        "no form",
    ),
    (
        Step::Takes(
            b"C\0\0\0\x01\xff\0\0\0\0",
            Err(NodeFault::NotUtf8 { at: 0 }),
        ),
        "not UTF-8",
    ),
    (
        Step::Takes(
            b"C\0\0\0\x03\xef\xbf\xbe\0\0\0\x03\xef\xbf\xbe",
            Err(NodeFault::Unassigned {
                at: 0,
                code: '\u{FFFE}',
            }),
        ),
        "unassigned",
    ),
    (
        Step::Takes(b"C\0\0\0\x01a\0\0\0\x01\xff", Err(NodeFault::KeyDiffers)),
        "a key that is not UTF-8",
    ),
];

fn checks_messages<T: NormTable>(node: &mut Node<'_, T>) -> Result<(), Fail> {
    wants_steps(node, REFUSED)?;
    for length in 0..RIGHT.len() {
        let at = match length {
            0 => 0,
            1..=4 => 1,
            5..=7 => 5,
            8..=11 => 8,
            _ => 12,
        };
        wants_taken(
            node,
            &RIGHT[..length],
            Err(NodeFault::Malformed { at }),
            "cut",
        )?;
    }
    want(node.is_empty(), "nothing is kept")
}

fn messages_are_checked<T: NormTable>(alloc: Global, table: &T) -> Result<(), Fail> {
    let mut node = Node::new(alloc, table, Form::Nfc, 4);
    checks_messages(&mut node)
}

/// A node's own message, told to its sender.
const TOLD: &[Row] = &[
    (Step::Keeps(b"a\xcc\x82", RIGHT), "its message"),
    (Step::Takes(RIGHT, Ok(Taken::Known)), "told to its sender"),
];

/// What messages show.
struct Messages;

impl Example for Messages {
    fn holds<T: Made>(&self, alloc: Global, table: &T) -> Result<(), Fail> {
        story(alloc, table, 4, KEYS)?;
        messages_are_checked(alloc, table)?;
        story(alloc, table, 4, TOLD)
    }
}

#[test]
fn messages_are_never_trusted(rt: HostRuntime) -> Result<(), Fail> {
    holds_over_each(rt.alloc(), V1, &Messages)
}
