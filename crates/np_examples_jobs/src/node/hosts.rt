//! A host's loop: what it sends, saves and moves is its own affair.
use np_code_points::Form;
use np_examples_shared::{
    Example, GuestTable, Made, V1, V2, holds_over, holds_over_each, table_of, want,
};
use np_node::{Accepted, Node};
use np_versions::NormTable;
use std::alloc::Global;
use std::test::Fail;

/// The messages of the names that a node keeps.
fn sent_of<T: NormTable>(alloc: Global, home: &mut Node<'_, T>) -> Result<Vec<Vec<u8>>, Fail> {
    let mut sent = Vec::new(alloc);
    for name in ["fa", "a\u{302}", "\u{E2}", "fa"] {
        if let Accepted::Kept(message) = home.accept(name.as_bytes())? {
            sent.push(message)?;
        }
    }
    Ok(sent)
}

/// Another node hears of them.
fn hears<T: NormTable>(
    alloc: Global,
    home: &mut Node<'_, T>,
    away: &mut Node<'_, T>,
) -> Result<(), Fail> {
    let sent = sent_of(alloc, home)?;
    for message in &sent {
        away.take(message)?;
    }
    Ok(())
}

/// The first node moves to a later version, and restarts there from what it saved.
fn restarts<'t, T: NormTable>(
    alloc: Global,
    home: &mut Node<'t, T>,
    new: &'t T,
) -> Result<(), Fail> {
    let saved = home.image()?;
    home.upgrade(new)?;
    let again = Node::restore(alloc, new, Form::Nfc, 1000, &saved)?;
    want(again.len() == home.len(), "as many names as before")?;
    want(again.same("a\u{302}", "\u{E2}") == Some(true), "one name")
}

/// One hears of the other's names, which restarts then.
fn agree<'t, T: NormTable>(
    alloc: Global,
    home: &mut Node<'t, T>,
    away: &mut Node<'t, T>,
) -> Result<(), Fail> {
    hears(alloc, home, away)?;
    restarts(alloc, home, away.table())?;
    want(away.same("a\u{302}", "\u{E2}") == Some(true), "there too")
}

/// Two nodes of unlike versions hear of one another's names, and one restarts.
fn host<'t, T: NormTable>(alloc: Global, old: &'t T, new: &'t T) -> Result<(), Fail> {
    let mut home = Node::new(alloc, old, Form::Nfc, 1000);
    let mut away = Node::new(alloc, new, Form::Nfc, 1000);
    agree(alloc, &mut home, &mut away)
}

/// The loop of a host.
struct HostLoop;

impl Example for HostLoop {
    fn holds<T: Made>(&self, alloc: Global, old: &T) -> Result<(), Fail> {
        let new: T = table_of(alloc, V2)?;
        host(alloc, old, &new)
    }
}

#[test]
fn nodes_of_unlike_versions_agree(rt: HostRuntime) -> Result<(), Fail> {
    holds_over_each(rt.alloc(), V1, &HostLoop)
}

#[test]
fn nodes_over_a_table_of_somebody_else_agree(rt: HostRuntime) -> Result<(), Fail> {
    holds_over::<GuestTable, HostLoop>(rt.alloc(), V1, &HostLoop)
}
