//! The program over files in memory, and what its contract says there for each command, where it is known which
//! names open and what their files hold.
ghost use Rattle.std.specs.Prelude.{◌≡◌, ℕ, List, Some, codes, map, string_bytes};
ghost use Rattle.np_examples_jobs.specs.inside.OverFiles.{AuditOver, CompareOver, HelpOver, KeyOver, KeyUnderOver, NormalizeOver, ReplayOver};
ghost use Rattle.np_examples_jobs.specs.inside.OverFiles.{asking, asking_audit, asking_help, asking_under};
ghost use Rattle.np_jobs.specs.Streams.{stream_of};
ghost use Rattle.np_words.specs.Words.{asked_by};

use crate::shelf::Shelf;
use np_code_points::Form;
use np_jobs::{Opener, Resources, Streams};
use np_program::run_words;
use std::alloc::Global;
use std::io::{Read, Write};

/// The run of the program over the files on a shelf. Each clause is the program's contract for one command, with
/// what the shelf gives and lacks.
pub(crate) fn run_over_shelf<I: Read, O: Write, E: Write>(
    alloc: Global,
    shelf: &Shelf<'_>,
    words: &[String],
    streams: &mut Streams<I, O, E>,
) -> u8
    ensures help { asked_by (map string_bytes words.now) ≡ Some asking_help →
        HelpOver (⟦<Shelf<'static> as Opener>⟧.gives shelf.now) (⟦<Shelf<'static> as Opener>⟧.lacks shelf.now)
        (stream_of I.remaining streams.old.input streams.new.input) (stream_of O.contents streams.old.output streams.new.output)
        (stream_of E.contents streams.old.error streams.new.error) result }
    ensures normalize { (form : Form) → (names : List (List ℕ)) → asked_by (map string_bytes words.now) ≡ Some (asking (codes "normalize") form names) →
        NormalizeOver (⟦<Shelf<'static> as Opener>⟧.gives shelf.now) (⟦<Shelf<'static> as Opener>⟧.lacks shelf.now) form names
        (stream_of I.remaining streams.old.input streams.new.input) (stream_of O.contents streams.old.output streams.new.output)
        (stream_of E.contents streams.old.error streams.new.error) result }
    ensures key { (form : Form) → (names : List (List ℕ)) → asked_by (map string_bytes words.now) ≡ Some (asking (codes "key") form names) →
        KeyOver (⟦<Shelf<'static> as Opener>⟧.gives shelf.now) (⟦<Shelf<'static> as Opener>⟧.lacks shelf.now) form names
        (stream_of I.remaining streams.old.input streams.new.input) (stream_of O.contents streams.old.output streams.new.output)
        (stream_of E.contents streams.old.error streams.new.error) result }
    ensures key_under { (form : Form) → (names : List (List ℕ)) → asked_by (map string_bytes words.now) ≡ Some (asking_under form names) →
        KeyUnderOver (⟦<Shelf<'static> as Opener>⟧.gives shelf.now) (⟦<Shelf<'static> as Opener>⟧.lacks shelf.now) form names
        (stream_of I.remaining streams.old.input streams.new.input) (stream_of O.contents streams.old.output streams.new.output)
        (stream_of E.contents streams.old.error streams.new.error) result }
    ensures compare { (form : Form) → (names : List (List ℕ)) → asked_by (map string_bytes words.now) ≡ Some (asking (codes "compare") form names) →
        CompareOver (⟦<Shelf<'static> as Opener>⟧.gives shelf.now) (⟦<Shelf<'static> as Opener>⟧.lacks shelf.now) form names
        (stream_of I.remaining streams.old.input streams.new.input) (stream_of O.contents streams.old.output streams.new.output)
        (stream_of E.contents streams.old.error streams.new.error) result }
    ensures audit { (names : List (List ℕ)) → asked_by (map string_bytes words.now) ≡ Some (asking_audit names) →
        AuditOver (⟦<Shelf<'static> as Opener>⟧.gives shelf.now) (⟦<Shelf<'static> as Opener>⟧.lacks shelf.now) names
        (stream_of I.remaining streams.old.input streams.new.input) (stream_of O.contents streams.old.output streams.new.output)
        (stream_of E.contents streams.old.error streams.new.error) result }
    ensures replay { (form : Form) → (names : List (List ℕ)) → asked_by (map string_bytes words.now) ≡ Some (asking (codes "replay") form names) →
        ReplayOver (⟦<Shelf<'static> as Opener>⟧.gives shelf.now) (⟦<Shelf<'static> as Opener>⟧.lacks shelf.now) form names
        (stream_of I.remaining streams.old.input streams.new.input) (stream_of O.contents streams.old.output streams.new.output)
        (stream_of E.contents streams.old.error streams.new.error) result }
{
    let with = Resources {
        alloc,
        opener: shelf,
    };
    run_words(&with, words, streams)
}
