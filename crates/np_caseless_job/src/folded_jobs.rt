//! Jobs over the three files of a version with its foldings and an input.
ghost use Rattle.std.specs.Prelude.{ℕ};
ghost use Rattle.np_caseless_job.specs.FoldedTexts.{AreFoldedTextReaders, FoldedTextReaders};
ghost use Rattle.np_caseless_job.specs.FoldedVersions.{folded_readers_of};
ghost use Rattle.np_jobs.specs.Opening.{IsUnopened};
ghost use Rattle.np_jobs.specs.Programs.{EndsOrIsUnopened};
ghost use Rattle.np_jobs.specs.Streams.{Stream, stream_of};
ghost use Rattle.np_words.specs.CaselessWords.{folded_names_of};

use crate::files::{OpenFiles, open_folded};
use np_jobs::{Opener, Resources, Streams};
use np_words::FoldedFiles;
use std::alloc::Global;
use std::io::{Read, Write};

/// A job over the three files of a version and an input, as a value: what is asked of it.
pub trait FoldedJob {
    ghost Ends: { Self → FoldedTextReaders → Stream → Stream → ℕ → Type 0 };

    /// Does the job, and answers the status.
    fn run<F: Read, I: Read, O: Write, E: Write>(
        &self,
        alloc: Global,
        files: &mut OpenFiles<F>,
        streams: &mut Streams<I, O, E>,
    ) -> u8
        ensures { Ends self.now (record {
          files = folded_readers_of F.remaining files.old files.new;
          input = stream_of I.remaining streams.old.input streams.new.input;
        }) (stream_of O.contents streams.old.output streams.new.output) (stream_of E.contents streams.old.error streams.new.error) result };
}

/// Opens the three files of a version, and does a job over them and the input. Answers the status. The first file that can't
/// be opened is told in a line on the error stream, and the output stays as it was.
pub fn run_over_folded<J: FoldedJob, P: Opener, I: Read, O: Write, E: Write>(
    with: &Resources<'_, P>,
    job: &J,
    files: &FoldedFiles,
    streams: &mut Streams<I, O, E>,
) -> u8
    ensures { EndsOrIsUnopened
        ((readers : FoldedTextReaders)
        × AreFoldedTextReaders (P.gives with.now.opener.now) files.now (stream_of I.remaining streams.old.input streams.new.input) readers
        × J.Ends job.now readers (stream_of O.contents streams.old.output streams.new.output)
        (stream_of E.contents streams.old.error streams.new.error) result)
        (IsUnopened (P.gives with.now.opener.now) (P.lacks with.now.opener.now) (folded_names_of files.now)
        (stream_of E.contents streams.old.error streams.new.error) result)
        streams.old streams.new }
{
    match open_folded(with.opener, with.alloc, &mut streams.error, files) {
        Ok(mut opened) => job.run(with.alloc, &mut opened, streams),
        Err(status) => status,
    }
}
