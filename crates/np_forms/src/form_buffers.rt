//! Memory in which forms are made, one after another.
ghost use Rattle.std.specs.Prelude.{◌≡◌, ◌⊎◌, []};

use crate::out_texts::OutText;
use std::alloc::Global;
use std::marker::Model;

/// Memory that is used again from form to form, so that a short text takes none. Contracts see the bytes of the form that was
/// made in it last.
#[derive(Drop)]
pub struct FormBuffer {
    pub(crate) alloc: Global,
    pub(crate) out: OutText,
}

impl Model for FormBuffer {
    ghost use Rattle.std.specs.Prelude.{ℕ, List};

    ghost Value = { List ℕ };

    ghost view = { λ a. a.out };
}

impl FormBuffer {
    /// A buffer in which nothing was made. It takes no memory.
    pub fn new(alloc: Global) -> FormBuffer
        ensures { result ≡ [] }
    {
        FormBuffer {
            alloc,
            out: OutText::new(alloc),
        }
    }

    /// The form that was made last.
    pub fn as_str(&self) -> &str
        ensures { result.now ≡ self.now }
    {
        self.out.as_text()
    }

    /// Gives the memory back, where it is more than so many bytes. Then nothing is made in it.
    pub fn release_beyond(&mut self, most: usize)
        ensures { (self.new ≡ self.old) ⊎ (self.new ≡ []) }
    {
        if self.out.space() > most {
            self.out = OutText::new(self.alloc);
        }
    }
}
