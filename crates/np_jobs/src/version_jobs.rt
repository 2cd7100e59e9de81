//! Jobs over the two files of a version and an input.
ghost use Rattle.std.specs.Prelude.{ℕ};
ghost use Rattle.np_jobs.specs.Opening.{AreTextReaders, IsUnopened};
ghost use Rattle.np_jobs.specs.Programs.{EndsOrIsUnopened};
ghost use Rattle.np_jobs.specs.Streams.{Stream, stream_of};
ghost use Rattle.np_jobs.specs.Texts.{TextReaders};
ghost use Rattle.np_words.specs.Words.{names_of};

use crate::openers::Opener;
use crate::opening::open_version;
use crate::streams::{Resources, Streams};
use np_code_points::watched::Watched;
use np_words::VersionFiles;
use std::alloc::Global;
use std::io::{Read, Write};

/// A job over the two files of a version and an input, as a value: what is asked of it.
pub trait VersionJob {
    ghost Ends: { Self → TextReaders → Stream → Stream → ℕ → Type 0 };

    /// Does the job, and answers the status.
    fn run<F: Read, I: Read, O: Write, E: Write>(
        &self,
        alloc: Global,
        data_file: &mut Watched<F>,
        exclusions_file: &mut Watched<F>,
        streams: &mut Streams<I, O, E>,
    ) -> u8
        ensures { Ends self.now (record {
          data_file = stream_of F.remaining data_file.old data_file.new;
          exclusions_file = stream_of F.remaining exclusions_file.old exclusions_file.new;
          input = stream_of I.remaining streams.old.input streams.new.input;
        }) (stream_of O.contents streams.old.output streams.new.output) (stream_of E.contents streams.old.error streams.new.error) result };
}

/// Opens the two files of a version and does a job over them and the input, or tells which of them can't be opened. Answers
/// the status.
pub fn run_over_version<J: VersionJob, P: Opener, I: Read, O: Write, E: Write>(
    with: &Resources<'_, P>,
    job: &J,
    files: &VersionFiles,
    streams: &mut Streams<I, O, E>,
) -> u8
    ensures { EndsOrIsUnopened
        ((readers : TextReaders)
        × AreTextReaders (P.gives with.now.opener.now) files.now (stream_of I.remaining streams.old.input streams.new.input) readers
        × J.Ends job.now readers (stream_of O.contents streams.old.output streams.new.output)
        (stream_of E.contents streams.old.error streams.new.error) result)
        (IsUnopened (P.gives with.now.opener.now) (P.lacks with.now.opener.now) (names_of files.now)
        (stream_of E.contents streams.old.error streams.new.error) result)
        streams.old streams.new }
{
    match open_version(with.opener, with.alloc, &mut streams.error, files) {
        Ok((mut data, mut exclusions)) => job.run(with.alloc, &mut data, &mut exclusions, streams),
        Err(status) => status,
    }
}
