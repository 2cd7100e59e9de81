//! What each event does to a node of a replay: one call.
ghost use Rattle.std.specs.Prelude.{◌≡◌, ◌<◌, ◌≤◌, chars, length, IfOk};
ghost use Rattle.np_world.specs.Calls.{CallsAccept, CallsDeliver, CallsForget, CallsImage, CallsRestore, CallsSame, CallsTake, CallsUpgrade, RestoresAt};
ghost use Rattle.np_world.specs.inside.Placing.{IsPlaced};
ghost use Rattle.np_world.specs.inside.Views.{bytes_of, rules_of, placed_of, stage_of};
ghost use Rattle.np_world.specs.Told.{refusal_of};

use crate::replay_nodes::{Common, ReplayNode};
use crate::replies::Reply;
use np_code_points::Memory;
use np_node::{Accepted, ImageFault, Node, NodeFault, Taken};
use np_versions::NormTable;

/// The reply that tells a refusal; want of memory is none.
fn refusal(fault: NodeFault) -> Result<Reply, Memory>
    ensures { result ≡ refusal_of fault }
{
    match fault {
        NodeFault::Malformed { at } => Ok(Reply::Malformed { at }),
        NodeFault::OtherForm => Ok(Reply::OtherForm),
        NodeFault::TooLong => Ok(Reply::TooLong),
        NodeFault::NotUtf8 { at } => Ok(Reply::NotUtf8 { at }),
        NodeFault::Unassigned { at, code } => Ok(Reply::Unassigned { at, code }),
        NodeFault::KeyDiffers => Ok(Reply::KeyDiffers),
        NodeFault::OlderTables { need, have } => Ok(Reply::OlderTables { need, have }),
        NodeFault::Full => Ok(Reply::Full),
        NodeFault::Memory => Err(Memory),
    }
}

/// The node is given a string, and what it tells is sent.
pub(crate) fn accept<T: NormTable>(
    replay_node: &mut ReplayNode<'_, T>,
    sent: &mut Vec<Vec<u8>>,
    string: &str,
) -> Result<Reply, Memory>
    ensures { IfOk result (λ reply. CallsAccept T.model (chars string.now)
        (stage_of replay_node.old (bytes_of sent.old.items)) reply (stage_of replay_node.new (bytes_of sent.new.items))) }
{
    let number = sent.len();
    match replay_node.node.accept(string.as_bytes()) {
        Ok(Accepted::Kept(message)) => {
            sent.push(message)?;
            Ok(Reply::Sent { message: number })
        }
        Ok(Accepted::Known) => Ok(Reply::Known),
        Err(fault) => refusal(fault),
    }
}

/// The message of this number reaches the node, which trusts what was sent no more than other bytes.
pub(crate) fn deliver<T: NormTable>(
    replay_node: &mut ReplayNode<'_, T>,
    sent: &Vec<Vec<u8>>,
    message: usize,
) -> Result<Reply, Memory>
    ensures { IfOk result (λ reply. CallsDeliver T.model message
        (stage_of replay_node.old (bytes_of sent.now.items)) reply (stage_of replay_node.new (bytes_of sent.now.items))) }
{
    if message >= sent.len() {
        return Ok(Reply::NoMessage);
    }
    forge(replay_node, sent[message].as_slice())
}

/// Bytes reach the node as a message, whoever made them.
pub(crate) fn forge<T: NormTable>(
    replay_node: &mut ReplayNode<'_, T>,
    bytes: &[u8],
) -> Result<Reply, Memory>
    ensures { (sent : _) → IfOk result (λ reply. CallsTake T.model bytes.now
        (stage_of replay_node.old sent) reply (stage_of replay_node.new sent)) }
{
    match replay_node.node.take(bytes) {
        Ok(Taken::Kept) => Ok(Reply::Kept),
        Ok(Taken::Known) => Ok(Reply::Known),
        Err(fault) => refusal(fault),
    }
}

/// The node goes on to the next version of the chain.
pub(crate) fn upgrade<'t, T: NormTable>(
    common: &Common<'_, 't, T>,
    replay_node: &mut ReplayNode<'t, T>,
) -> Reply
    requires { IsPlaced (rules_of common.now) (placed_of replay_node.old) }
    ensures { (sent : _) → CallsUpgrade (rules_of common.now) (stage_of replay_node.old sent) result (stage_of replay_node.new sent) }
{
    if replay_node.index >= common.chain.len() - 1 {
        return Reply::LastVersion;
    }
    let next = replay_node.index + 1;
    replay_node.node.upgrade(common.chain.at(next)).unwrap();
    replay_node.index = next;
    Reply::Version { index: next }
}

/// The node saves what it keeps.
pub(crate) fn save<T: NormTable>(replay_node: &mut ReplayNode<'_, T>) -> Result<Reply, Memory>
    ensures { (sent : _) → IfOk result (λ reply. CallsImage T.model (stage_of replay_node.old sent) reply (stage_of replay_node.new sent)) }
{
    let image = replay_node.node.image()?;
    replay_node.image = Some(image);
    Ok(Reply::Saved)
}

/// A node that begins again under the version at this place of the chain with what another saved
/// last, or with nothing.
fn begun_again<'t, T: NormTable>(
    common: &Common<'_, 't, T>,
    replay_node: &ReplayNode<'t, T>,
    place: usize,
) -> Result<Node<'t, T>, ImageFault>
    requires room { common.now.room ≤ 65536 }
    requires within { place < length common.now.chain.now }
    ensures { RestoresAt T.model (rules_of common.now) place (placed_of replay_node.now) result }
{
    let table = common.chain.at(place);
    let Some(image) = &replay_node.image else {
        return Ok(Node::new(common.alloc, table, common.form, common.room));
    };
    Node::restore(
        common.alloc,
        table,
        common.form,
        common.room,
        image.as_slice(),
    )
}

/// The node begins again under the version at this place of the chain with what it saved last, or
/// with nothing. Where that is refused it stays as it is.
pub(crate) fn restart<'t, T: NormTable>(
    common: &Common<'_, 't, T>,
    replay_node: &mut ReplayNode<'t, T>,
    place: usize,
) -> Result<Reply, Memory>
    requires room { common.now.room ≤ 65536 }
    requires within { place < length common.now.chain.now }
    ensures { (sent : _) → IfOk result (λ reply. CallsRestore T.model (rules_of common.now) place
        (stage_of replay_node.old sent) reply (stage_of replay_node.new sent)) }
{
    match begun_again(common, replay_node, place) {
        Ok(node) => {
            replay_node.index = place;
            replay_node.node = node;
            Ok(Reply::Restarted)
        }
        Err(refused) => refusal(refused.fault),
    }
}

/// The node is asked whether two strings that it keeps are equal.
pub(crate) fn ask<T: NormTable>(replay_node: &ReplayNode<'_, T>, left: &str, right: &str) -> Reply
    ensures { (sent : _) → CallsSame T.model (chars left.now) (chars right.now) (stage_of replay_node.now sent) result (stage_of replay_node.now sent) }
{
    match replay_node.node.same(left, right) {
        None => Reply::NotKept,
        Some(true) => Reply::Equal,
        Some(false) => Reply::Different,
    }
}

/// The node forgets a string, if it keeps it.
pub(crate) fn forget<T: NormTable>(replay_node: &mut ReplayNode<'_, T>, string: &str) -> Reply
    ensures { (sent : _) → CallsForget (chars string.now) (stage_of replay_node.old sent) result (stage_of replay_node.new sent) }
{
    if replay_node.node.forget(string) {
        Reply::Forgotten
    } else {
        Reply::NotKept
    }
}
