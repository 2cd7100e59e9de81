//! The events of a schedule.

/// An event, as its line says it. Nodes and messages are named by their numbers, from 0.
#[derive(Drop)]
pub enum EventLine {
    /// The node is given a string.
    Accept {
        node: usize,
        string: String,
    },
    /// The message of this number reaches the node.
    Deliver {
        node: usize,
        message: usize,
    },
    /// The node goes on to the next version.
    Upgrade {
        node: usize,
    },
    /// The node saves what it keeps.
    Save {
        node: usize,
    },
    /// The node begins again with what it saved.
    Restart {
        node: usize,
    },
    /// The node is asked whether two strings are equal.
    Ask {
        node: usize,
        left: String,
        right: String,
    },
    /// Bytes that no node sent reach the node as a message.
    Forge {
        node: usize,
        bytes: Vec<u8>,
    },
    /// The node forgets a string.
    Forget {
        node: usize,
        string: String,
    },
    /// The node begins again with what it saved, under the version at this place of the chain.
    RestartUnder {
        node: usize,
        version: usize,
    },
}
