//! Files in memory, found by their names.
ghost use Rattle.std.specs.Prelude.{IfErr, IfOk};
ghost use Rattle.np_examples_jobs.specs.inside.Shelves.{HoldsUnder, LacksAll};

use np_examples_shared::devices::Trickle;
use np_jobs::Opener;
use std::io::{Error, ErrorKind, Result as IoResult};

/// Files in memory: their names, and what each holds. The first of a name is the one that is opened.
#[derive(Drop)]
pub(crate) struct Shelf<'a> {
    pub files: &'a [(&'a str, &'a str)],
}

impl<'a> Opener for Shelf<'a> {
    type File = Trickle<'a>;

    ghost gives = { λ shelf name contents. HoldsUnder (λ f. f.0.now) (λ f. f.1.now) shelf.files.now name contents };

    ghost lacks = { λ shelf name. LacksAll (λ f. f.0.now) (λ f. f.1.now) shelf.files.now name };

    fn open(&self, name: &str) -> IoResult<Trickle<'a>> {
        for (here, text) in self.files {
            if *here == name {
                return Ok(Trickle::new(text.as_bytes(), 100));
            }
        }
        Err(Error::from(ErrorKind::NotFound))
    }
}
