//! Images, and nodes restored from them.
use super::{NoImage, Row, Step, story, wants_image, wants_no_node, wants_no_nodes};
use np_code_points::Form;
use np_examples_shared::told::want_told;
use np_examples_shared::{Example, Made, V1, V2, holds_over_each, want};
use np_node::{ImageFault, Node, NodeFault};
use np_versions::NormTable;
use std::alloc::Global;
use std::test::Fail;

/// 0061 0302 with the key 00E2, then 212B with the key 00C5, in the first layout.
const FIRST: &[u8] =
    b"NPS1C\0\0\0\x02\0\0\0\x03a\xcc\x82\0\0\0\x02\xc3\xa2\0\0\0\x03\xe2\x84\xab\0\0\0\x02\xc3\x85";

/// Those entries in the second layout, under the first fixture's version.
const SECOND: &[u8] =
    b"NPS2C\0\0\x44\xfc\0\0\0\x02\0\0\0\x03a\xcc\x82\x01\0\0\0\x02\xc3\xa2\0\0\0\x03\xe2\x84\xab\x01\0\0\0\x02\xc3\x85";

/// Those entries in the second layout, under the second fixture's version.
const UPGRADED: &[u8] =
    b"NPS2C\0\0\x45\x02\0\0\0\x02\0\0\0\x03a\xcc\x82\x01\0\0\0\x02\xc3\xa2\0\0\0\x03\xe2\x84\xab\x01\0\0\0\x02\xc3\x85";

/// The one entry `a`, whose key is `a`, under the first fixture's version.
const ONE: &[u8] = b"NPS2C\0\0\x44\xfc\0\0\0\x01\0\0\0\x01a\0";

/// No entry, under the second fixture's version.
const EMPTY: &[u8] = b"NPS2C\0\0\x45\x02\0\0\0\0";

/// An entry for which a room of none is too little, which needs one code point more than the first fixture's version
/// has.
const NEEDS_MORE: &[u8] = b"NPS2C\0\0\x44\xfd\0\0\0\x01\0\0\0\x01a\0";

/// The entry `a` twice.
const TWICE: &[u8] = b"NPS1C\0\0\0\x02\0\0\0\x01a\0\0\0\x01a\0\0\0\x01a\0\0\0\x01a";

/// The entry `a`, then `a` with another key.
const TWO_KEYS: &[u8] = b"NPS1C\0\0\0\x02\0\0\0\x01a\0\0\0\x01a\0\0\0\x01a\0\0\0\x01b";

/// The one entry 16D67, which the first fixture lacks.
const LATER: &[u8] = b"NPS1C\0\0\0\x01\0\0\0\x04\xf0\x96\xb5\xa7\0\0\0\x04\xf0\x96\xb5\xa7";

/// The one entry FFFE, a noncharacter, beside itself as key.
const NONE: &[u8] = b"NPS1C\0\0\0\x01\0\0\0\x03\xef\xbf\xbe\0\0\0\x03\xef\xbf\xbe";

const MADE: &[Row] = &[
    (Step::Accepts(b"a\xcc\x82"), "the first string"),
    (Step::Accepts(b"\xe2\x84\xab"), "the second string"),
    (Step::Saves(SECOND), "the image"),
];

/// A key that is its string isn't repeated.
const SHORT: &[Row] = &[
    (Step::Accepts(b"a"), "a"),
    (Step::Saves(ONE), "an image with a short key"),
];

fn is_restored<T: NormTable>(node: &Node<'_, T>, again: &[u8]) -> Result<(), Fail> {
    want(node.len() == 2 && node.room() == 4, "two entries")?;
    want(node.entry(0) == Some(("a\u{302}", "\u{E2}")), "the first")?;
    want(node.entry(1) == Some(("\u{212B}", "\u{C5}")), "the second")?;
    wants_image(node, again, "its own image")
}

/// An image gives a node with its two entries, whose own image this is.
fn restored<T: NormTable>(alloc: Global, table: &T, from: &[u8], again: &[u8]) -> Result<(), Fail> {
    let node = Node::restore(alloc, table, Form::Nfc, 4, from)?;
    is_restored(&node, again)
}

/// An image without entries gives an empty node.
fn restored_empty<T: NormTable>(alloc: Global, table: &T) -> Result<(), Fail> {
    let node = Node::restore(alloc, table, Form::Nfc, 0, EMPTY)?;
    want(node.is_empty() && node.room() == 0, "no entry")
}

/// Both layouts are restored under the later version, and an image of that version is.
fn restored_later<T: NormTable>(alloc: Global, table: &T) -> Result<(), Fail> {
    restored(alloc, table, FIRST, UPGRADED)?;
    restored(alloc, table, SECOND, UPGRADED)?;
    restored(alloc, table, UPGRADED, UPGRADED)?;
    restored_empty(alloc, table)
}

fn cut<T: NormTable>(alloc: Global, table: &T) -> Result<(), Fail> {
    for length in 0..FIRST.len() {
        let at = match length {
            0..=3 => 0,
            4 => 4,
            5..=8 => 5,
            9..=12 => 9,
            13..=15 => 13,
            16..=19 => 16,
            20..=21 => 20,
            22..=25 => 22,
            26..=28 => 26,
            29..=32 => 29,
            _ => 33,
        };
        let row = (&FIRST[..length], None, NodeFault::Malformed { at }, "cut");
        wants_no_node(alloc, table, 4, &row)?;
    }
    Ok(())
}

/// Images that are refused for themselves.
const REFUSED: &[NoImage] = &[
    (
        b"NPS2C\0\0\x44\xfc\0\0\0\x01\0\0\0\x01a\x02",
        None,
        NodeFault::Malformed { at: 18 },
        "another marker",
    ),
    (
        b"NPS2C\0\0\x44\xfc\0\0\0\x01\0\0\0\x01a\x01\0\0\0\x01a",
        None,
        NodeFault::Malformed { at: 18 },
        "the string once more",
    ),
    (
        b"NPS2C\0\0\x44\xfc\0\0\0\x01\0\0\0\x01a",
        None,
        NodeFault::Malformed { at: 18 },
        "no marker",
    ),
    (
        b"NPS2C\0\0\x44\xfc\0\0\0\x01\0\0\0\x01a\x01\0\0\0\x01",
        None,
        NodeFault::Malformed { at: 23 },
        "the string once more, cut",
    ),
    (
        EMPTY,
        None,
        NodeFault::OlderTables {
            need: 17_666,
            have: 17_660,
        },
        "a later version's image",
    ),
    (
        b"NPS2D\0\0\x45\x02\0\0\0\0",
        None,
        NodeFault::OtherForm,
        "a later version's image of another form",
    ),
    (
        b"NPS1C\xff\xff\xff\xff",
        None,
        NodeFault::Malformed { at: 9 },
        "a great count",
    ),
    (
        b"NPS1\0\0\0\0\0",
        None,
        NodeFault::Malformed { at: 4 },
        "no form",
    ),
    (b"NPS1D\0\0\0\0", None, NodeFault::OtherForm, "another form"),
    (
        TWICE,
        Some(1),
        NodeFault::Malformed { at: 19 },
        "one entry twice",
    ),
    (TWO_KEYS, Some(1), NodeFault::KeyDiffers, "another key"),
    (
        LATER,
        Some(0),
        NodeFault::Unassigned {
            at: 0,
            code: '\u{16D67}',
        },
        "a later letter",
    ),
    (
        NONE,
        Some(0),
        NodeFault::Unassigned {
            at: 0,
            code: '\u{FFFE}',
        },
        "a noncharacter",
    ),
];

/// Images for which a room of one is too little.
const TOO_LARGE: &[NoImage] = &[
    (FIRST, None, NodeFault::Full, "too little room"),
    (SECOND, None, NodeFault::Full, "too little room"),
];

/// Images for which there is no room.
const NO_ROOM: &[NoImage] = &[
    (ONE, None, NodeFault::Full, "no room"),
    (
        NEEDS_MORE,
        None,
        NodeFault::OlderTables {
            need: 17_661,
            have: 17_660,
        },
        "older tables before the room",
    ),
];

/// Each place of a fault, and how it is told.
const WORDS: &[(ImageFault, &str)] = &[
    (
        ImageFault {
            entry: None,
            fault: NodeFault::OlderTables {
                need: 17_666,
                have: 17_660,
            },
        },
        "older tables: need 17666 code points, have 17660",
    ),
    (
        ImageFault {
            entry: Some(1),
            fault: NodeFault::Malformed { at: 19 },
        },
        "entry 1: malformed at byte 19",
    ),
    (
        ImageFault {
            entry: None,
            fault: NodeFault::Full,
        },
        "full",
    ),
];

fn refused<T: NormTable>(alloc: Global, table: &T) -> Result<(), Fail> {
    wants_no_nodes(alloc, table, 0, NO_ROOM)?;
    wants_no_nodes(alloc, table, 1, TOO_LARGE)?;
    wants_no_nodes(alloc, table, 4, REFUSED)
}

fn images<T: NormTable>(alloc: Global, table: &T) -> Result<(), Fail> {
    story(alloc, table, 4, MADE)?;
    story(alloc, table, 4, SHORT)?;
    restored(alloc, table, FIRST, SECOND)?;
    restored(alloc, table, SECOND, SECOND)?;
    cut(alloc, table)?;
    refused(alloc, table)
}

/// What images show.
#[derive(Clone, Copy)]
enum Shown {
    Images,
    Restored,
}

impl Example for Shown {
    fn holds<T: Made>(&self, alloc: Global, table: &T) -> Result<(), Fail> {
        match self {
            Shown::Images => images(alloc, table),
            Shown::Restored => restored_later(alloc, table),
        }
    }
}

#[test]
fn an_image_is_read_whole_or_not_at_all(rt: HostRuntime) -> Result<(), Fail> {
    want_told(rt.alloc(), WORDS)?;
    holds_over_each(rt.alloc(), V1, &Shown::Images)
}

#[test]
fn a_later_version_takes_the_image(rt: HostRuntime) -> Result<(), Fail> {
    holds_over_each(rt.alloc(), V2, &Shown::Restored)
}
