//! What handles hold.
ghost use Rattle.std.specs.Prelude.{◌≡◌, None, Some, IfNone, IfOk, IfSome};
ghost use Rattle.np_c.specs.declared.content.Content.TheVariants.{Table};
ghost use Rattle.np_c.specs.Contents.{node_in, stream_in, table_in};

use crate::kept_node::KeptNode;
use crate::kept_streams::KeptStream;
use crate::shared::Shared;
use np_code_points::Memory;
use std::alloc::Global;

/// What stands in the box of a handle. One kind of handle serves all: a call that is given another thing than its own
/// takes the handle for closed.
#[derive(Drop)]
pub enum Content {
    /// Nothing, while a call is at work.
    Nothing,
    /// A table.
    Table(Shared),
    /// A node, in a box of its own, so that a table is handed over by two words.
    Node(Box<KeptNode>),
    /// A stream, in a box of its own.
    Stream(Box<KeptStream>),
}

impl Content {
    /// A table in a box.
    ///
    /// # Errors
    ///
    /// `Memory` where memory ran out.
    pub fn of_table(alloc: Global, shared: Shared) -> Result<Box<Content>, Memory>
        ensures { IfOk result (λ b. b.value ≡ Table shared) }
    {
        Ok(Box::new(alloc, Content::Table(shared))?)
    }

    /// A node in a box.
    ///
    /// # Errors
    ///
    /// `Memory` where memory ran out.
    pub fn of_node(alloc: Global, kept: KeptNode) -> Result<Box<Content>, Memory>
        ensures { IfOk result (λ b. node_in (Some b.value) ≡ Some kept) }
    {
        let inner = Box::new(alloc, kept)?;
        Ok(Box::new(alloc, Content::Node(inner))?)
    }

    /// A stream in a box.
    ///
    /// # Errors
    ///
    /// `Memory` where memory ran out.
    pub fn of_stream(alloc: Global, kept: KeptStream) -> Result<Box<Content>, Memory>
        ensures { IfOk result (λ b. stream_in (Some b.value) ≡ Some kept) }
    {
        let inner = Box::new(alloc, kept)?;
        Ok(Box::new(alloc, Content::Stream(inner))?)
    }

    /// The table, which stays where it stands.
    pub fn table(&self) -> Option<&Shared>
        ensures some { IfSome result (λ shared. table_in (Some self.now) ≡ Some shared.now) }
        ensures none { IfNone result (table_in (Some self.now) ≡ None) }
    {
        match self {
            Content::Table(shared) => Some(shared),
            Content::Nothing | Content::Node(_) | Content::Stream(_) => None,
        }
    }
}

/// A value that may be handed to another thread.
fn crossing<T: Send>(value: T) -> T
    ensures { result ≡ value }
{
    value
}

/// Whatever a handle holds may be handed to another thread, as C does with a handle.
pub fn crosses(content: Content) -> Content
    ensures { result ≡ content }
{
    crossing(content)
}
