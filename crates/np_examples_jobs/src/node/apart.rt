//! A node that is taken apart and put together again is as it was.
use super::{wants_image, wants_kept};
use np_code_points::Form;
use np_examples_shared::{Example, Made, V1, holds_over_each, want};
use np_node::Node;
use np_versions::NormTable;
use std::alloc::Global;
use std::test::Fail;

/// The image of what the node keeps.
const IMAGE: &[u8] =
    b"NPS2C\0\0\x44\xfc\0\0\0\x02\0\0\0\x01A\0\0\0\0\x03a\xcc\x82\x01\0\0\0\x02\xc3\xa2";

/// The node, taken apart and put together.
fn again<'t, T: NormTable>(node: Node<'t, T>) -> Node<'t, T> {
    let table = node.table();
    let form = node.form();
    let room = node.room();
    Node::of_entries(table, form, room, node.into_entries())
}

/// What a node keeps, it keeps behind that.
fn shows<T: NormTable>(node: &Node<'_, T>) -> Result<(), Fail> {
    want(
        node.room() == 4 && node.form() == Form::Nfc,
        "its room and its form",
    )?;
    want(node.len() == 2, "as many strings")?;
    wants_image(node, IMAGE, "its strings and keys")
}

/// A node that keeps two strings.
fn kept<'t, T: NormTable>(alloc: Global, table: &'t T) -> Result<Node<'t, T>, Fail> {
    let mut node = Node::new(alloc, table, Form::Nfc, 4);
    wants_kept(&mut node, b"A", b"C\0\0\0\x01A\0\0\0\x01A", "A")?;
    wants_kept(
        &mut node,
        b"a\xcc\x82",
        b"C\0\0\0\x03a\xcc\x82\0\0\0\x02\xc3\xa2",
        "a",
    )?;
    Ok(node)
}

/// A node apart from its table.
struct Apart;

impl Example for Apart {
    fn holds<T: Made>(&self, alloc: Global, table: &T) -> Result<(), Fail> {
        let node = again(kept(alloc, table)?);
        shows(&node)
    }
}

#[test]
fn a_node_taken_apart_is_put_together(rt: HostRuntime) -> Result<(), Fail> {
    holds_over_each(rt.alloc(), V1, &Apart)
}
