//! What the calls of a handle work in.
ghost use Rattle.std.specs.Prelude.{◌≡◌};

use np_forms::FormBuffer;
use std::alloc::Global;
use std::marker::Model;

/// The most bytes that a handle keeps between two calls: more than names have.
const KEPT: usize = 16_384;

/// Memory in which keys and forms are made, call after call, so that a name takes none. Contracts see nothing of it: what a
/// handle holds doesn't depend on what was asked of it.
#[derive(Drop)]
pub struct Workroom {
    pub(crate) buffer: FormBuffer,
}

impl Model for Workroom {
    ghost use Rattle.std.specs.Prelude.{⊤};

    ghost Value = { ⊤ };

    ghost view = { λ a. tt };
}

impl Workroom {
    /// A new one. It takes no memory.
    pub fn new(alloc: Global) -> Workroom {
        Workroom {
            buffer: FormBuffer::new(alloc),
        }
    }

    /// Gives the memory of a long text back.
    pub fn tidy(&mut self) {
        self.buffer.release_beyond(KEPT);
    }
}
