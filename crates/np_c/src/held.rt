//! What C keeps of a thing: two words of its own memory.
ghost use Rattle.std.specs.Prelude.{◌≡◌, Option, Some, None, true, is_some};
ghost use Rattle.np_c.specs.declared.content.Content.{Content};
ghost use Rattle.np_c.specs.inside.Owned.{owns_held, held_coded};

use crate::apart::Apart;
use crate::content::Content;
use std::alloc::Global;
use std::marker::Model;

/// The pointer to what is held, null where nothing is.
#[repr(C)]
#[derive(Drop)]
pub struct Held {
    at: *mut u8,
    alloc: Global,
    pub ghost held: { Option Content } by { held_coded },
}

impl Model for Held {
    ghost also_owns = { λ h. owns_held h.alloc h.at h.held };
}

impl Held {
    /// Nothing.
    pub fn empty(alloc: Global) -> Held
        ensures { result.held ≡ None }
    {
        Held {
            at: std::ptr::null_mut(),
            alloc,
        }
    }

    /// What a box held that was taken apart.
    pub fn of_parts(parts: Apart<Content, Global>) -> Held
        ensures { result.held ≡ Some parts.value }
    {
        let Apart { at, alloc } = parts;
        Held {
            at: at as *mut u8,
            alloc,
        }
    }

    /// The parts again.
    pub fn into_parts(self) -> Apart<Content, Global>
        requires { is_some self.held ≡ true }
        ensures { self.held ≡ Some result.value }
    {
        let Held { at, alloc } = self;
        Apart {
            at: at as *mut Content,
            alloc,
        }
    }
}
