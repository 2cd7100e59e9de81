//! The program `npss_caseless`: what it does for its words, over any opener of files and any streams.
ghost use Rattle.std.specs.Prelude.{◌≡◌, ◌++◌, map, string_bytes, Some, None};
ghost use Rattle.np_caseless_job.specs.CaselessAudits.{FoldedAuditEnds};
ghost use Rattle.np_caseless_job.specs.CaselessKeysUnder.{CaselessUnderEnds, FoldedUnderReaders};
ghost use Rattle.np_caseless_job.specs.AskedWords.{asked_of, files_named, words_asked};
ghost use Rattle.np_caseless_job.specs.CaselessProgram.{EndsOverFiles, JobEndsOverFiles, ProgramEnds};
ghost use Rattle.np_caseless_job.specs.Pairs.{ArePair, PairReaders};
ghost use Rattle.np_caseless_job.specs.Usage.{caseless_usage};
ghost use Rattle.np_jobs.specs.Opening.{IsUnopened};
ghost use Rattle.np_jobs.specs.Programs.{EndsOrIsUnopened};
ghost use Rattle.np_jobs.specs.Streams.{stream_of};
ghost use Rattle.np_words.specs.CaselessWords.{caseless_asked_of, folded_names_of};

use crate::audit::audit_job;
use crate::compare::CompareJob;
use crate::folded_jobs::run_over_folded;
use crate::key::KeyJob;
use crate::key_under::key_under_job;
use crate::pairs::open_pair;
use crate::usage::{caseless_usage_text, caseless_version_text};
use crate::words::{CaselessAsked, parse_words};
use np_code_points::Form;
use np_code_points::watched::Watched;
use np_habits::{KnownWords, refusal_line, refused_in};
use np_jobs::{Opener, Program, Resources, Streams, parse_and_run, show_usage, tell};
use np_words::{CaselessJob, FoldedFiles, WordsFault};
use std::alloc::Global;
use std::io::{Read, Write};

/// Opens the files of `audit` and runs it, or tells which of them can't be opened. Answers the status.
fn run_audit<P: Opener, I: Read, O: Write, E: Write>(
    with: &Resources<'_, P>,
    old: &FoldedFiles,
    new: &FoldedFiles,
    streams: &mut Streams<I, O, E>,
) -> u8
    ensures ends { EndsOrIsUnopened
        ((readers : PairReaders) × ArePair (P.gives with.now.opener.now) old.now new.now readers
        × FoldedAuditEnds readers (stream_of O.contents streams.old.output streams.new.output)
        (stream_of E.contents streams.old.error streams.new.error) result)
        (IsUnopened (P.gives with.now.opener.now) (P.lacks with.now.opener.now) (folded_names_of old.now ++ folded_names_of new.now)
        (stream_of E.contents streams.old.error streams.new.error) result)
        streams.old streams.new }
    ensures unread { streams.new.input ≡ streams.old.input }
{
    match open_pair(with.opener, with.alloc, &mut streams.error, old, new) {
        Ok(mut pair) => audit_job(with.alloc, &mut pair, streams),
        Err(status) => status,
    }
}

/// Opens the files of `key` with `--check-under` and runs it, or tells which of them can't be opened. Answers the status.
fn run_key_under<P: Opener, I: Read, O: Write, E: Write>(
    with: &Resources<'_, P>,
    form: Form,
    old: &FoldedFiles,
    new: &FoldedFiles,
    streams: &mut Streams<I, O, E>,
) -> u8
    ensures { EndsOrIsUnopened
        ((readers : FoldedUnderReaders) × ArePair (P.gives with.now.opener.now) old.now new.now readers.pair
        × (readers.input ≡ stream_of I.remaining streams.old.input streams.new.input)
        × CaselessUnderEnds form readers (stream_of O.contents streams.old.output streams.new.output)
        (stream_of E.contents streams.old.error streams.new.error) result)
        (IsUnopened (P.gives with.now.opener.now) (P.lacks with.now.opener.now) (folded_names_of old.now ++ folded_names_of new.now)
        (stream_of E.contents streams.old.error streams.new.error) result)
        streams.old streams.new }
{
    match open_pair(with.opener, with.alloc, &mut streams.error, old, new) {
        Ok(mut pair) => key_under_job(with.alloc, form, &mut pair, streams),
        Err(status) => status,
    }
}

/// Opens the files of a job and does it, or tells which of them can't be opened. Answers the status.
fn run_job<P: Opener, I: Read, O: Write, E: Write>(
    with: &Resources<'_, P>,
    job: &CaselessJob,
    streams: &mut Streams<I, O, E>,
) -> u8
    ensures { EndsOrIsUnopened
        (JobEndsOverFiles (P.gives with.now.opener.now) job.now (stream_of I.remaining streams.old.input streams.new.input)
        (stream_of O.contents streams.old.output streams.new.output) (stream_of E.contents streams.old.error streams.new.error) result)
        (IsUnopened (P.gives with.now.opener.now) (P.lacks with.now.opener.now) (caseless_asked_of job.now).files
        (stream_of E.contents streams.old.error streams.new.error) result)
        streams.old streams.new }
{
    match job {
        CaselessJob::Help => show_usage(
            with.alloc,
            &mut streams.output,
            &mut streams.error,
            caseless_usage_text(),
        ),
        CaselessJob::Key { form, files } => {
            run_over_folded(with, &KeyJob { form: *form }, files, streams)
        }
        CaselessJob::KeyUnder { form, old, new } => run_key_under(with, *form, old, new, streams),
        CaselessJob::Compare { form, files } => {
            run_over_folded(with, &CompareJob { form: *form }, files, streams)
        }
        CaselessJob::Audit { old, new } => run_audit(with, old, new, streams),
    }
}

/// The program `npss_caseless`.
pub struct NpssCaseless;

impl Program for NpssCaseless {
    type Job = CaselessAsked;

    ghost asks = { λ words job. words_asked words ≡ Some (asked_of job) };

    ghost asks_nothing = { λ words. words_asked words ≡ None };

    ghost files_of = { files_named };

    ghost usage = { caseless_usage };

    ghost ends = { EndsOverFiles };

    ghost can_run = { λ job. Unit {0} };

    fn usage() -> &'static str {
        caseless_usage_text()
    }

    fn parse(alloc: Global, words: &[String]) -> Result<CaselessAsked, WordsFault> {
        parse_words(alloc, words)
    }

    fn run<P: Opener, I: Read, O: Write, E: Write>(
        with: &Resources<'_, P>,
        job: &CaselessAsked,
        streams: &mut Streams<I, O, E>,
    ) -> u8 {
        match job {
            CaselessAsked::Version => show_usage(
                with.alloc,
                &mut streams.output,
                &mut streams.error,
                caseless_version_text(),
            ),
            CaselessAsked::Job { job } => run_job(with, job, streams),
        }
    }
}

/// The most files that the words may name.
fn most_files(words: &[String]) -> usize {
    let is_audit = words.first().is_some_and(|word| word.as_str() == "audit");
    if is_audit || words.iter().any(|word| word.as_str() == "--check-under") {
        6
    } else {
        3
    }
}

/// Tells on `error` which of the words is refused, where they ask for nothing that there is.
pub fn tell_refused<E: Write>(
    alloc: Global,
    error: &mut Watched<E>,
    words: &[String],
    found: &Result<CaselessAsked, WordsFault>,
) {
    let Err(WordsFault::Usage) = found else {
        return;
    };
    let known = KnownWords {
        commands: &["key", "compare", "audit"],
        flags: &["check-under"],
        most_files: most_files(words),
    };
    if let Ok(refused) = refused_in(alloc, &known, words)
        && let Ok(line) = refusal_line(alloc, "npss_caseless", refused)
    {
        tell(error, line.as_str());
    }
}

/// Does what the words, without the program's name, ask for, and answers the status.
pub fn run_words<P: Opener, I: Read, O: Write, E: Write>(
    with: &Resources<'_, P>,
    words: &[String],
    streams: &mut Streams<I, O, E>,
) -> u8
    ensures { ProgramEnds (P.gives with.now.opener.now) (P.lacks with.now.opener.now) (map string_bytes words.now)
        (stream_of I.remaining streams.old.input streams.new.input) (stream_of O.contents streams.old.output streams.new.output)
        (stream_of E.contents streams.old.error streams.new.error) result }
{
    parse_and_run::<NpssCaseless, P, I, O, E>(with, words, streams)
}
