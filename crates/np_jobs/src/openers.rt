//! What opens files by their names.
ghost use Rattle.std.specs.Prelude.{ℕ, List, Option, IfOk, IfErr};

use std::fs;
use std::io::{Read, Result};
use std::rt::Files;

/// What opens files for reading by their names. Which contents a file of a name may have is left to each
/// opener, and so is which names don't open: contracts over any opener say for which name, as it stands,
/// a file was opened.
pub trait Opener {
    /// A file that was opened, of which nothing is read yet.
    type File: Read + Drop;

    ghost gives: { Self → List ℕ → Option (List ℕ) → Type 0 };

    ghost lacks: { Self → List ℕ → Type 0 };

    /// Opens the file of this name.
    ///
    /// # Errors
    ///
    /// Any error where it does not open.
    fn open(&self, name: &str) -> Result<Self::File>
        ensures file { IfOk result (λ file. gives self.now name.now (Self.File.remaining file)) }
        ensures unopened { IfErr result (λ _. lacks self.now name.now) };
}

/// Opens the files of the system that the runtime reaches. What it has under a name no clause can say.
#[derive(Clone, Copy, Debug)]
pub struct SystemFiles<'a, R> {
    rt: &'a R,
}

impl<'a, R> SystemFiles<'a, R> {
    /// What opens files by the runtime.
    pub fn new(rt: &'a R) -> SystemFiles<'a, R> {
        SystemFiles { rt }
    }
}

impl<'a, R: Files> Opener for SystemFiles<'a, R>
where
    R::File: Drop,
{
    type File = R::File;

    ghost gives = { λ _ _ _. Unit {0} };

    ghost lacks = { λ _ _. Unit {0} };

    fn open(&self, name: &str) -> Result<R::File> {
        fs::open(self.rt, name)
    }
}
