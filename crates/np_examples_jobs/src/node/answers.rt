//! What a node answers to strings.
use super::{
    Row, Sight, Step, letters, story, wants_known, wants_no_node, wants_refused, wants_steps,
    wants_taken,
};
use np_chain::{Break, BreakKind};
use np_code_points::{Form, Memory};
use np_examples_shared::told::want_told;
use np_examples_shared::{Example, Made, V1, V2, holds_over_each, table_of, want};
use np_node::{Accepted, Node, NodeFault, Taken};
use np_versions::NormTable;
use std::alloc::Global;
use std::test::Fail;

const EMPTY_STRING: &[Row] = &[
    (Step::Keeps(b"", b"C\0\0\0\0\0\0\0\0"), "the empty string"),
    (Step::Knows(b""), "the empty string again"),
    (Step::Shows(Sight::Entry(0, Some(("", "")))), "its entry"),
    (Step::Shows(Sight::Entry(1, None)), "no other entry"),
];

const NO_ROOM: &[Row] = &[
    (
        Step::Refuses(b"", NodeFault::Full),
        "no room for the empty string",
    ),
    (
        Step::Refuses(b"\xff", NodeFault::NotUtf8 { at: 0 }),
        "before the room",
    ),
    (Step::Shows(Sight::Size(0, 0)), "nothing is kept"),
];

const LITTLE_ROOM: &[Row] = &[
    (Step::Keeps(b"a", b"C\0\0\0\x01a\0\0\0\x01a"), "a"),
    (Step::Refuses(b"A", NodeFault::Full), "A by accept"),
    (
        Step::Takes(b"C\0\0\0\x01A\0\0\0\x01A", Err(NodeFault::Full)),
        "A by take",
    ),
    (Step::Knows(b"a"), "a again"),
    (
        Step::Takes(b"C\0\0\0\x01a\0\0\0\x01a", Ok(Taken::Known)),
        "its own message",
    ),
    (Step::Shows(Sight::Size(1, 1)), "one entry"),
];

fn keeps_one<T: NormTable>(alloc: Global, node: &mut Node<'_, T>) -> Result<(), Fail> {
    wants_steps(node, LITTLE_ROOM)?;
    want(node.form() == Form::Nfc, "its form")?;
    wants_shown(alloc, node)
}

fn little_room<T: NormTable>(alloc: Global, table: &T) -> Result<(), Fail> {
    let mut node = Node::new(alloc, table, Form::Nfc, 1);
    keeps_one(alloc, &mut node)
}

/// No string is shown where a node or what it answers is printed.
fn is_shown<T: NormTable>(alloc: Global, node: &Node<'_, T>, kept: &Accepted) -> Result<(), Fail> {
    let shown = format!(in alloc; "{node:?}, {kept:?}, {:?}", Accepted::Known)?;
    want(
        shown.as_str() == "Node { form: Nfc, room: 1, len: 1, .. }, Kept { len: 13, .. }, Known",
        "as it is shown",
    )
}

fn wants_shown<T: NormTable>(alloc: Global, node: &Node<'_, T>) -> Result<(), Fail> {
    let kept = Accepted::Kept(letters(alloc, 13)?);
    is_shown(alloc, node, &kept)
}

/// These bytes, and behind them a string of 65,537 bytes and itself as key.
fn behind(alloc: Global, front: &[u8], string: &[u8]) -> Result<Vec<u8>, Memory> {
    let mut bytes = Vec::new(alloc);
    bytes.extend_from_slice(front)?;
    bytes.extend_from_slice(b"\0\x01\0\x01")?;
    bytes.extend_from_slice(string)?;
    bytes.extend_from_slice(b"\0\x01\0\x01")?;
    bytes.extend_from_slice(string)?;
    Ok(bytes)
}

/// A string that is too long is refused in a message.
fn told_too_long<T: NormTable>(
    alloc: Global,
    node: &mut Node<'_, T>,
    over: &[u8],
) -> Result<(), Fail> {
    let message = behind(alloc, b"C", over)?;
    wants_taken(node, &message, Err(NodeFault::TooLong), "told")
}

/// A string that is too long is refused in an image.
fn saved_too_long<T: NormTable>(alloc: Global, table: &T, over: &[u8]) -> Result<(), Fail> {
    let image = behind(alloc, b"NPS1C\0\0\0\x01", over)?;
    let row = (image.as_slice(), Some(0), NodeFault::TooLong, "saved");
    wants_no_node(alloc, table, 4, &row)
}

/// A string that is too long is refused by each call.
fn refuses_too_long<T: NormTable>(
    alloc: Global,
    node: &mut Node<'_, T>,
    over: &[u8],
) -> Result<(), Fail> {
    wants_refused(node, over, NodeFault::TooLong, "65,537 bytes")?;
    told_too_long(alloc, node, over)?;
    saved_too_long(alloc, node.table(), over)
}

fn too_long<T: NormTable>(alloc: Global, table: &T) -> Result<(), Fail> {
    let over = letters(alloc, 65_537)?;
    let mut node = Node::new(alloc, table, Form::Nfc, 4);
    refuses_too_long(alloc, &mut node, &over)
}

/// The message of a node's longest string is taken by another one.
fn longest_told<T: NormTable>(alloc: Global, table: &T, message: &[u8]) -> Result<(), Fail> {
    let mut other = Node::new(alloc, table, Form::Nfc, 4);
    wants_taken(&mut other, message, Ok(Taken::Kept), "65,536 bytes told")
}

fn keeps_longest<T: NormTable>(
    alloc: Global,
    node: &mut Node<'_, T>,
    most: &[u8],
) -> Result<(), Fail> {
    match node.accept(most)? {
        Accepted::Kept(message) => longest_told(alloc, node.table(), &message)?,
        Accepted::Known => return Err(Fail::new("known before it is kept")),
    }
    wants_known(node, most, "65,536 bytes again")?;
    longest_restored(alloc, node)
}

fn longest<T: NormTable>(alloc: Global, table: &T) -> Result<(), Fail> {
    let most = letters(alloc, 65_536)?;
    let mut node = Node::new(alloc, table, Form::Nfc, 4);
    keeps_longest(alloc, &mut node, &most)
}

/// A node's longest string stands in its image.
fn longest_restored<T: NormTable>(alloc: Global, node: &Node<'_, T>) -> Result<(), Fail> {
    let image = node.image()?;
    want(image.len() == 65_554, "an image of 65,554 bytes")?;
    let again = Node::restore(alloc, node.table(), Form::Nfc, 4, &image)?;
    want(again.entry(0) == node.entry(0), "the same entry")
}

/// The sign 212B, the letter 00C5 that it is equivalent to, and `a` are three strings.
const UNLIKE: &[Row] = &[
    (Step::Accepts(b"\xe2\x84\xab"), "the sign"),
    (Step::Accepts(b"\xc3\x85"), "the letter"),
    (Step::Accepts(b"a"), "a"),
    (
        Step::Shows(Sight::Size(3, 4)),
        "equivalent and unlike: two entries",
    ),
    (
        Step::Shows(Sight::Entry(0, Some(("\u{212B}", "\u{C5}")))),
        "the sign's entry",
    ),
    (
        Step::Shows(Sight::Key("\u{212B}", Some("\u{C5}"))),
        "the sign's key",
    ),
    (
        Step::Shows(Sight::Key("b", None)),
        "no key of what is not kept",
    ),
    (
        Step::Shows(Sight::Same("\u{212B}", "\u{C5}", Some(true))),
        "equivalent",
    ),
    (
        Step::Shows(Sight::Same("\u{212B}", "a", Some(false))),
        "not equivalent",
    ),
    (Step::Shows(Sight::Same("\u{212B}", "b", None)), "not kept"),
];

fn kept_once<T: NormTable>(alloc: Global, table: &T) -> Result<(), Fail> {
    story(alloc, table, 4, EMPTY_STRING)?;
    story(alloc, table, 0, NO_ROOM)?;
    little_room(alloc, table)?;
    too_long(alloc, table)?;
    longest(alloc, table)?;
    story(alloc, table, 4, UNLIKE)
}

/// A noncharacter is unassigned in each version, and a letter of private use is not.
const NO_CHARACTER: Row = (
    Step::Refuses(
        b"\xef\xbf\xbe",
        NodeFault::Unassigned {
            at: 0,
            code: '\u{FFFE}',
        },
    ),
    "a noncharacter",
);

const PRIVATE: Row = (Step::Accepts(b"\xee\x80\x80"), "a private letter");

const LACKING: &[Row] = &[
    (
        Step::Refuses(
            b"A\xf0\x96\xb5\xa7",
            NodeFault::Unassigned {
                at: 1,
                code: '\u{16D67}',
            },
        ),
        "a later letter",
    ),
    NO_CHARACTER,
    PRIVATE,
];

const LATER: &[Row] = &[
    (Step::Accepts(b"A\xf0\x96\xb5\xa7"), "a later letter"),
    (
        Step::Shows(Sight::Entry(0, Some(("A\u{16D67}", "A\u{16D67}")))),
        "itself as key",
    ),
    NO_CHARACTER,
    PRIVATE,
];

/// A node goes on to its own version and to a later one.
fn goes_on<'t, T: NormTable>(
    node: &mut Node<'t, T>,
    first: &'t T,
    second: &'t T,
) -> Result<(), Fail> {
    want(node.accept(b"a").is_ok(), "a")?;
    want(node.upgrade(first).is_ok(), "the same version")?;
    want(node.upgrade(second).is_ok(), "the later version")?;
    want(node.table().version().count() == 17_666, "the later table")
}

/// It goes back to none, and then is as it was.
fn stays<'t, T: NormTable>(node: &mut Node<'t, T>, first: &'t T) -> Result<(), Fail> {
    let lost = Break {
        kind: BreakKind::Lost,
        code: 0x1DFA,
    };
    want(node.upgrade(first) == Err(lost), "backwards")?;
    want(node.table().version().count() == 17_666, "the table stays")?;
    want(
        node.len() == 1 && node.entry(0) == Some(("a", "a")),
        "the entries stay",
    )
}

fn wants_upgrades<'t, T: NormTable>(
    node: &mut Node<'t, T>,
    first: &'t T,
    second: &'t T,
) -> Result<(), Fail> {
    goes_on(node, first, second)?;
    stays(node, first)
}

fn upgrades<'t, T: NormTable>(alloc: Global, first: &'t T, second: &'t T) -> Result<(), Fail> {
    let mut node = Node::new(alloc, first, Form::Nfc, 4);
    wants_upgrades(&mut node, first, second)
}

fn upgrades_from<T: Made>(alloc: Global, first: &T) -> Result<(), Fail> {
    let second: T = table_of(alloc, V2)?;
    upgrades(alloc, first, &second)
}

/// What answers show.
#[derive(Clone, Copy)]
enum Shown {
    KeptOnce,
    Lacking,
    LaterLetter,
    Upgrades,
}

impl Example for Shown {
    fn holds<T: Made>(&self, alloc: Global, table: &T) -> Result<(), Fail> {
        match self {
            Shown::KeptOnce => kept_once(alloc, table),
            Shown::Lacking => story(alloc, table, 4, LACKING),
            Shown::LaterLetter => story(alloc, table, 4, LATER),
            Shown::Upgrades => upgrades_from(alloc, table),
        }
    }
}

#[test]
fn strings_are_kept_once(rt: HostRuntime) -> Result<(), Fail> {
    holds_over_each(rt.alloc(), V1, &Shown::KeptOnce)
}

#[test]
fn unassigned_code_points_are_refused(rt: HostRuntime) -> Result<(), Fail> {
    holds_over_each(rt.alloc(), V1, &Shown::Lacking)
}

#[test]
fn later_letters_are_kept(rt: HostRuntime) -> Result<(), Fail> {
    holds_over_each(rt.alloc(), V2, &Shown::LaterLetter)
}

#[test]
fn upgrades_go_forward_alone(rt: HostRuntime) -> Result<(), Fail> {
    holds_over_each(rt.alloc(), V1, &Shown::Upgrades)
}

/// Each fault, and how it is told; a code point in four hex digits at least.
const TOLD: &[(NodeFault, &str)] = &[
    (NodeFault::Malformed { at: 5 }, "malformed at byte 5"),
    (NodeFault::OtherForm, "another form"),
    (NodeFault::TooLong, "too long: more than 65,536 bytes"),
    (NodeFault::NotUtf8 { at: 17 }, "not UTF-8 at byte 17"),
    (
        NodeFault::Unassigned {
            at: 1,
            code: '\u{16D67}',
        },
        "unassigned 16D67 at byte 1",
    ),
    (
        NodeFault::Unassigned { at: 0, code: 'b' },
        "unassigned 0062 at byte 0",
    ),
    (NodeFault::KeyDiffers, "key differs"),
    (NodeFault::Full, "full"),
    (NodeFault::Memory, "out of memory"),
    (
        NodeFault::OlderTables {
            need: 17_666,
            have: 17_660,
        },
        "older tables: need 17666 code points, have 17660",
    ),
];

#[test]
fn faults_are_told_in_words(rt: HostRuntime) -> Result<(), Fail> {
    want_told(rt.alloc(), TOLD)
}
