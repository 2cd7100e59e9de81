//! The nodes of a replay.
use np_chain::Chain;
use np_code_points::Form;
use np_node::Node;
use np_versions::NormTable;
use std::alloc::Global;

/// What holds for all nodes of a replay.
#[derive(Drop)]
pub(crate) struct Common<'c, 't, T: NormTable> {
    pub alloc: Global,
    pub chain: &'c Chain<'t, T>,
    pub form: Form,
    pub room: u32,
}

/// A node of a replay: the place of its version in the chain, the node, and its last image.
#[derive(Drop)]
pub(crate) struct ReplayNode<'t, T: NormTable> {
    pub index: usize,
    pub node: Node<'t, T>,
    pub image: Option<Vec<u8>>,
}
