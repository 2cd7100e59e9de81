//! What a replay answers.
ghost use Rattle.std.specs.Prelude.{◌≡◌};
ghost use Rattle.std.specs.Option.{option_map};
ghost use Rattle.np_world.specs.Reports.{image_at, message_at, node_at};

use crate::replay_nodes::ReplayNode;
use crate::replies::Reply;
use np_node::Node;
use np_versions::NormTable;
use std::fmt;
use std::marker::Model;

/// What a replay answers: a reply to each event, the messages sent, and the nodes at the end.
///
/// Contracts see the three lists, and of each node the place of its version in the chain, the node
/// itself and its last image.
#[derive(Drop)]
pub struct Report<'t, T: NormTable> {
    pub(crate) replies: Vec<Reply>,
    pub(crate) sent: Vec<Vec<u8>>,
    pub(crate) replay_nodes: Vec<ReplayNode<'t, T>>,
}

impl<'t, T: NormTable> Model for Report<'t, T> {
    ghost use Rattle.np_world.specs.Reports.{ReportData};
    ghost use Rattle.np_world.specs.inside.Views.{report_of};

    ghost Value = { ReportData T };

    ghost view = { λ a. report_of a.replies.items a.sent.items a.replay_nodes.items };
}

/// Shows how many replies, messages and nodes there are, and none of the strings in them: they may
/// be names of persons.
impl<'t, T: NormTable> fmt::Debug for Report<'t, T> {
    fn fmt<W: fmt::Write>(&self, f: &mut fmt::Formatter<W>) -> fmt::Result {
        f.debug_struct("Report")
            .field("replies", &self.replies.len())
            .field("sent", &self.sent.len())
            .field("nodes", &self.replay_nodes.len())
            .finish_non_exhaustive()
    }
}

impl<'t, T: NormTable> Report<'t, T> {
    /// The node of this number, from 0, at the end; none where there is no such node.
    pub fn node(&self, number: usize) -> Option<&Node<'t, T>>
        ensures { option_map (λ n. n.now) result ≡ node_at self.now number }
    {
        match self.replay_nodes.get(number) {
            Some(replay_node) => Some(&replay_node.node),
            None => None,
        }
    }

    /// The message of this number, from 0, as it was sent; none where no such message was.
    pub fn sent(&self, number: usize) -> Option<&[u8]>
        ensures { option_map (λ b. b.now) result ≡ message_at self.now number }
    {
        match self.sent.get(number) {
            Some(message) => Some(message.as_slice()),
            None => None,
        }
    }

    /// The last image of the node of this number, from 0: the second layout, which tells how many
    /// code points the version assigns under which it saved. None where it never saved, and where
    /// there is no such node.
    pub fn saved(&self, number: usize) -> Option<&[u8]>
        ensures { option_map (λ b. b.now) result ≡ image_at self.now number }
    {
        match &self.replay_nodes.get(number)?.image {
            Some(image) => Some(image.as_slice()),
            None => None,
        }
    }
}
