//! Handles: what C keeps of a thing.
ghost use Rattle.std.specs.Prelude.{◌≡◌, true, false, Some, None, is_some, IfSome, IfNone};
ghost use Rattle.np_c.specs.declared.content.Content.TheVariants.{Node, Stream, Table};
ghost use Rattle.np_c.specs.Contents.{node_in, stream_in, table_in};

use crate::apart::Apart;
use crate::content::Content;
use crate::held::Held;
use crate::kept_node::KeptNode;
use crate::kept_streams::KeptStream;
use crate::shared::Shared;
use std::alloc::Global;
use std::mem;

/// A handle on a thing, or a closed one. Zeros are a closed one.
#[repr(C)]
#[derive(Drop)]
pub struct Handle {
    pub is_open: bool,
    pub held: Held,
    ghost is_held: { is_some held.held ≡ is_open },
}

impl Handle {
    /// A handle that holds nothing.
    pub fn closed(alloc: Global) -> Handle
        ensures { result.held.held ≡ None }
    {
        Handle {
            is_open: false,
            held: Held::empty(alloc),
        }
    }

    /// A handle on a thing.
    pub fn open(content: Box<Content>) -> Handle
        ensures { result.held.held ≡ Some content.value }
    {
        Handle {
            is_open: true,
            held: Held::of_parts(Apart::of_box(content)),
        }
    }

    /// Takes out what is held, and leaves nothing.
    pub fn take(&mut self, alloc: Global) -> Option<Box<Content>>
        ensures left { self.new.held.held ≡ None }
        ensures some { IfSome result (λ b. self.old.held.held ≡ Some b.value) }
        ensures none { IfNone result (self.old.held.held ≡ None) }
    {
        let Handle { is_open, held } = mem::replace(self, Handle::closed(alloc));
        if is_open {
            Some(held.into_parts().into_box())
        } else {
            None
        }
    }

    /// Holds what stands in a box.
    pub fn put(&mut self, content: Box<Content>)
        ensures { self.new.held.held ≡ Some content.value }
    {
        *self = Handle::open(content);
    }

    /// Lets go of what is held, and holds what stands in a box.
    pub fn exchange(&mut self, alloc: Global, content: Box<Content>)
        ensures { self.new.held.held ≡ Some content.value }
    {
        drop(self.take(alloc));
        self.put(content);
    }

    /// Takes out the table, and the box in which it stood; nothing changes where no table is held.
    pub fn take_table(&mut self, alloc: Global) -> Option<(Shared, Box<Content>)>
        ensures some { IfSome result (λ p. self.old.held.held ≡ Some (Table p.0)) }
        ensures none { IfNone result (table_in self.old.held.held ≡ None) }
        ensures same { IfNone result (self.new.held.held ≡ self.old.held.held) }
    {
        let mut content = self.take(alloc)?;
        match Box::replace(&mut content, Content::Nothing) {
            Content::Table(shared) => Some((shared, content)),
            Content::Node(kept) => {
                self.put_node(content, kept);
                None
            }
            Content::Stream(kept) => {
                self.put_stream(content, kept);
                None
            }
            Content::Nothing => {
                self.put(content);
                None
            }
        }
    }

    /// Puts a table into a box, and holds it.
    pub fn put_table(&mut self, mut content: Box<Content>, shared: Shared)
        ensures { self.new.held.held ≡ Some (Table shared) }
    {
        drop(Box::replace(&mut content, Content::Table(shared)));
        self.put(content);
    }

    /// Takes out the node, and the box in which it stood; nothing changes where no node is held.
    pub fn take_node(&mut self, alloc: Global) -> Option<(Box<KeptNode>, Box<Content>)>
        ensures some { IfSome result (λ p. self.old.held.held ≡ Some (Node p.0)) }
        ensures none { IfNone result (node_in self.old.held.held ≡ None) }
        ensures same { IfNone result (self.new.held.held ≡ self.old.held.held) }
    {
        let mut content = self.take(alloc)?;
        match Box::replace(&mut content, Content::Nothing) {
            Content::Node(kept) => Some((kept, content)),
            Content::Stream(kept) => {
                self.put_stream(content, kept);
                None
            }
            Content::Table(shared) => {
                self.put_table(content, shared);
                None
            }
            Content::Nothing => {
                self.put(content);
                None
            }
        }
    }

    /// Puts a node into a box, and holds it.
    pub fn put_node(&mut self, mut content: Box<Content>, kept: Box<KeptNode>)
        ensures { self.new.held.held ≡ Some (Node kept) }
    {
        drop(Box::replace(&mut content, Content::Node(kept)));
        self.put(content);
    }

    /// Takes out the stream, and the box in which it stood; nothing changes where no stream is held.
    pub fn take_stream(&mut self, alloc: Global) -> Option<(Box<KeptStream>, Box<Content>)>
        ensures some { IfSome result (λ p. self.old.held.held ≡ Some (Stream p.0)) }
        ensures none { IfNone result (stream_in self.old.held.held ≡ None) }
        ensures same { IfNone result (self.new.held.held ≡ self.old.held.held) }
    {
        let mut content = self.take(alloc)?;
        match Box::replace(&mut content, Content::Nothing) {
            Content::Stream(kept) => Some((kept, content)),
            Content::Node(kept) => {
                self.put_node(content, kept);
                None
            }
            Content::Table(table) => {
                self.put_table(content, table);
                None
            }
            Content::Nothing => {
                self.put(content);
                None
            }
        }
    }

    /// Puts a stream into a box, and holds it.
    pub fn put_stream(&mut self, mut content: Box<Content>, kept: Box<KeptStream>)
        ensures { self.new.held.held ≡ Some (Stream kept) }
    {
        drop(Box::replace(&mut content, Content::Stream(kept)));
        self.put(content);
    }
}
