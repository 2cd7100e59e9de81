//! The program `npss_lines`: what it does for its words, over any opener of files and any streams.
ghost use Rattle.std.specs.Prelude.{◌≡◌, map, string_bytes, Some, None};
ghost use Rattle.np_jobs.specs.Streams.{stream_of};
ghost use Rattle.np_lines_job.specs.LineWords.{asked_by, asked_of, lines_usage};
ghost use Rattle.np_lines_job.specs.LinesProgram.{EndsOverFiles, ProgramEnds};

use crate::words::{LinesJob, lines_usage_text, lines_version_text, parse_lines};
use np_caseless_job::run_over_folded;
use np_code_points::watched::Watched;
use np_habits::{KnownWords, refusal_line, refused_in};
use np_jobs::{
    Opener, Program, Resources, Streaming, Streams, parse_and_run, run_over_version, show_usage,
    tell,
};
use np_words::WordsFault;
use std::alloc::Global;
use std::io::{Read, Write};

/// The program `npss_lines`.
pub struct NpssLines;

impl Program for NpssLines {
    type Job = LinesJob;

    ghost asks = { λ words job. asked_by words ≡ Some (asked_of job) };

    ghost asks_nothing = { λ words. asked_by words ≡ None };

    ghost files_of = { λ job. (asked_of job).files };

    ghost usage = { lines_usage };

    ghost ends = { EndsOverFiles };

    ghost can_run = { λ job. Unit {0} };

    fn usage() -> &'static str {
        lines_usage_text()
    }

    fn parse(alloc: Global, words: &[String]) -> Result<LinesJob, WordsFault> {
        parse_lines(alloc, words)
    }

    fn run<P: Opener, I: Read, O: Write, E: Write>(
        with: &Resources<'_, P>,
        job: &LinesJob,
        streams: &mut Streams<I, O, E>,
    ) -> u8 {
        match job {
            LinesJob::Help => show_usage(
                with.alloc,
                &mut streams.output,
                &mut streams.error,
                lines_usage_text(),
            ),
            LinesJob::Version => show_usage(
                with.alloc,
                &mut streams.output,
                &mut streams.error,
                lines_version_text(),
            ),
            LinesJob::Answer {
                asked,
                shows_progress: _,
                files,
            } => run_over_version(with, &Streaming { job: *asked }, files, streams),
            LinesJob::AnswerCaselessly {
                asked,
                shows_progress: _,
                files,
            } => run_over_folded(with, asked, files, streams),
        }
    }
}

/// What the program knows.
const KNOWN: KnownWords<'static> = KnownWords {
    commands: &[],
    flags: &["null", "strict", "progress", "caseless"],
    most_files: 3,
};

/// Tells on `error` which of the words is refused, where they ask for nothing that there is.
pub fn tell_refused<E: Write>(
    alloc: Global,
    error: &mut Watched<E>,
    words: &[String],
    found: &Result<LinesJob, WordsFault>,
) {
    let Err(WordsFault::Usage) = found else {
        return;
    };
    if let Ok(refused) = refused_in(alloc, &KNOWN, words)
        && let Ok(line) = refusal_line(alloc, "npss_lines", refused)
    {
        tell(error, line.as_str());
    }
}

/// Does what the words, without the program's name, ask for, and answers the status. Whether they ask for
/// progress changes nothing here: it is the input that tells it.
pub fn run_words<P: Opener, I: Read, O: Write, E: Write>(
    with: &Resources<'_, P>,
    words: &[String],
    streams: &mut Streams<I, O, E>,
) -> u8
    ensures { ProgramEnds (P.gives with.now.opener.now) (P.lacks with.now.opener.now) (map string_bytes words.now)
        (stream_of I.remaining streams.old.input streams.new.input) (stream_of O.contents streams.old.output streams.new.output)
        (stream_of E.contents streams.old.error streams.new.error) result }
{
    parse_and_run::<NpssLines, P, I, O, E>(with, words, streams)
}
