//! The program `npss`: what it does for its words, over any opener of files and any streams.

ghost use Rattle.std.specs.Prelude.{◌≡◌, ◌≤◌, ◌*◌, ◌++◌, [], length, flat_map, map, string_bytes, vec_len, List, Some, None, ◌∷◌, IfOk, IfErr, OnOk};
ghost use Rattle.std.specs.List.{AllZip};
ghost use Rattle.np_code_points.specs.Watched.{device_of};
ghost use Rattle.np_jobs.specs.Audits.{AuditEnds};
ghost use Rattle.np_jobs.specs.Chains.{VersionReaders};
ghost use Rattle.np_jobs.specs.KeysUnder.{KeyUnderEnds, UnderReaders};
ghost use Rattle.np_jobs.specs.Opening.{IsUnopened};
ghost use Rattle.np_jobs.specs.Programs.{EndsOrIsUnopened};
ghost use Rattle.np_jobs.specs.Streams.{stream_of};
ghost use Rattle.np_program.specs.Program.{ArePair, AreReplayReaders, EndsOverFiles, ProgramEnds};
ghost use Rattle.np_program.specs.Replays.{ReplayEnds, ReplayReaders};
ghost use Rattle.np_program.specs.Usage.{usage_lines};
ghost use Rattle.np_words.specs.Words.{HasVersions, asked_by, asked_of, names_of};

mod usage;

use crate::replay::replay_job;
use np_code_points::Form;
use np_code_points::watched::Watched;
use np_jobs::{
    CompareJob, KeyJob, NormalizeJob, Opener, Program, Resources, Streaming, Streams, audit_job,
    key_under_job, open_file, open_version, open_versions, parse_and_run, run_over_version,
    show_usage,
};
use np_words::{Job, VersionFiles, WordsFault, parse};
use std::alloc::Global;
use std::io::{Read, Write};
pub use usage::usage_text;

/// The opened files of two versions.
#[derive(Drop)]
struct OpenPair<F> {
    old_data: Watched<F>,
    old_exclusions: Watched<F>,
    new_data: Watched<F>,
    new_exclusions: Watched<F>,
}

/// Opens the files of two versions, the old one's first.
///
/// # Errors
///
/// The status that was told, of the first that can't be opened.
fn open_pair<P: Opener, E: Write>(
    with: &Resources<'_, P>,
    error: &mut Watched<E>,
    old: &VersionFiles,
    new: &VersionFiles,
) -> Result<OpenPair<P::File>, u8>
    ensures files { IfOk result (λ pair. AllZip (P.gives with.now.opener.now) (names_of old.now ++ names_of new.now)
        (map (λ file. P.File.remaining (device_of file))
        (pair.old_data ∷ (pair.old_exclusions ∷ (pair.new_data ∷ (pair.new_exclusions ∷ [])))))) }
    ensures silent { OnOk result (error.new ≡ error.old) }
    ensures told { IfErr result (IsUnopened (P.gives with.now.opener.now) (P.lacks with.now.opener.now) (names_of old.now ++ names_of new.now)
        (stream_of E.contents error.old error.new)) }
{
    let (old_data, old_exclusions) = open_version(with.opener, with.alloc, error, old)?;
    let (new_data, new_exclusions) = open_version(with.opener, with.alloc, error, new)?;
    Ok(OpenPair {
        old_data,
        old_exclusions,
        new_data,
        new_exclusions,
    })
}

/// Opens the files of `audit` and runs it, or tells which of them can't be opened. Answers the status.
fn run_audit<P: Opener, I: Read, O: Write, E: Write>(
    with: &Resources<'_, P>,
    old: &VersionFiles,
    new: &VersionFiles,
    streams: &mut Streams<I, O, E>,
) -> u8
    ensures ends { EndsOrIsUnopened
        ((readers : List VersionReaders) × ArePair (P.gives with.now.opener.now) old.now new.now readers
        × AuditEnds readers (stream_of O.contents streams.old.output streams.new.output) (stream_of E.contents streams.old.error streams.new.error) result)
        (IsUnopened (P.gives with.now.opener.now) (P.lacks with.now.opener.now) (names_of old.now ++ names_of new.now)
        (stream_of E.contents streams.old.error streams.new.error) result)
        streams.old streams.new }
    ensures unread { streams.new.input ≡ streams.old.input }
{
    let Streams {
        input: _,
        output,
        error,
    } = streams;
    match open_pair(with, error, old, new) {
        Ok(mut pair) => audit_job(
            with.alloc,
            &mut pair.old_data,
            &mut pair.old_exclusions,
            &mut pair.new_data,
            &mut pair.new_exclusions,
            output,
            error,
        ),
        Err(status) => status,
    }
}

/// Opens the files of `key` with `--check-under` and runs it, or tells which of them can't be opened. Answers the status.
fn run_key_under<P: Opener, I: Read, O: Write, E: Write>(
    with: &Resources<'_, P>,
    form: Form,
    old: &VersionFiles,
    new: &VersionFiles,
    streams: &mut Streams<I, O, E>,
) -> u8
    ensures { EndsOrIsUnopened
        ((readers : UnderReaders) × ArePair (P.gives with.now.opener.now) old.now new.now readers.versions
        × (readers.input ≡ stream_of I.remaining streams.old.input streams.new.input)
        × KeyUnderEnds form readers (stream_of O.contents streams.old.output streams.new.output)
        (stream_of E.contents streams.old.error streams.new.error) result)
        (IsUnopened (P.gives with.now.opener.now) (P.lacks with.now.opener.now) (names_of old.now ++ names_of new.now)
        (stream_of E.contents streams.old.error streams.new.error) result)
        streams.old streams.new }
{
    let Streams {
        input,
        output,
        error,
    } = streams;
    match open_pair(with, error, old, new) {
        Ok(mut pair) => key_under_job(
            with.alloc,
            form,
            &mut pair.old_data,
            &mut pair.old_exclusions,
            &mut pair.new_data,
            &mut pair.new_exclusions,
            input,
            output,
            error,
        ),
        Err(status) => status,
    }
}

/// Opens the file of a schedule, and then those of versions.
///
/// # Errors
///
/// The status that was told, of the first that can't be opened, or where memory ran out.
fn open_scheduled<P: Opener, E: Write>(
    with: &Resources<'_, P>,
    error: &mut Watched<E>,
    schedule_file: &str,
    version_files: &[VersionFiles],
) -> Result<(Watched<P::File>, Vec<Watched<P::File>>), u8>
    ensures schedule { IfOk result (λ opened. P.gives with.now.opener.now schedule_file.now (P.File.remaining (device_of opened.0))) }
    ensures files { IfOk result (λ opened. AllZip (P.gives with.now.opener.now) (flat_map names_of version_files.now)
        (map (λ file. P.File.remaining (device_of file)) opened.1.items)) }
    ensures count { IfOk result (λ opened. vec_len opened.1 ≡ 2 * length version_files.now) }
    ensures silent { OnOk result (error.new ≡ error.old) }
    ensures told { IfErr result (IsUnopened (P.gives with.now.opener.now) (P.lacks with.now.opener.now)
        (schedule_file.now ∷ flat_map names_of version_files.now) (stream_of E.contents error.old error.new)) }
{
    let schedule = open_file(with.opener, with.alloc, error, schedule_file)?;
    let files = open_versions(with.opener, with.alloc, error, version_files)?;
    Ok((schedule, files))
}

/// Opens the files of `replay` and runs it, or tells which of them can't be opened. Answers the status.
fn run_replay<P: Opener, I: Read, O: Write, E: Write>(
    with: &Resources<'_, P>,
    form: Form,
    schedule_file: &str,
    version_files: &[VersionFiles],
    streams: &mut Streams<I, O, E>,
) -> u8
    requires { 1 ≤ length version_files.now }
    ensures ends { EndsOrIsUnopened
        ((readers : ReplayReaders) × AreReplayReaders (P.gives with.now.opener.now) schedule_file.now version_files.now readers
        × ReplayEnds form readers (stream_of O.contents streams.old.output streams.new.output)
        (stream_of E.contents streams.old.error streams.new.error) result)
        (IsUnopened (P.gives with.now.opener.now) (P.lacks with.now.opener.now) (schedule_file.now ∷ flat_map names_of version_files.now)
        (stream_of E.contents streams.old.error streams.new.error) result)
        streams.old streams.new }
    ensures unread { streams.new.input ≡ streams.old.input }
{
    let Streams {
        input: _,
        output,
        error,
    } = streams;
    match open_scheduled(with, error, schedule_file, version_files) {
        Ok((mut schedule, mut files)) => replay_job(
            with.alloc,
            form,
            &mut schedule,
            files.as_mut_slice(),
            output,
            error,
        ),
        Err(status) => status,
    }
}

/// The program `npss`.
pub struct Npss;

impl Program for Npss {
    type Job = Job;

    ghost asks = { λ words job. asked_by words ≡ Some (asked_of job) };

    ghost asks_nothing = { λ words. asked_by words ≡ None };

    ghost files_of = { λ job. (asked_of job).files };

    ghost usage = { usage_lines };

    ghost ends = { EndsOverFiles };

    ghost can_run = { HasVersions };

    fn usage() -> &'static str {
        usage_text()
    }

    fn parse(alloc: Global, words: &[String]) -> Result<Job, WordsFault> {
        parse(alloc, words)
    }

    fn run<P: Opener, I: Read, O: Write, E: Write>(
        with: &Resources<'_, P>,
        job: &Job,
        streams: &mut Streams<I, O, E>,
    ) -> u8 {
        match job {
            Job::Help => show_usage(
                with.alloc,
                &mut streams.output,
                &mut streams.error,
                usage_text(),
            ),
            Job::Normalize { form, files } => {
                let job = NormalizeJob { form: *form };
                run_over_version(with, &Streaming { job }, files, streams)
            }
            Job::Key { form, files } => {
                run_over_version(with, &KeyJob { form: *form }, files, streams)
            }
            Job::KeyUnder { form, old, new } => run_key_under(with, *form, old, new, streams),
            Job::Compare { form, files } => {
                run_over_version(with, &CompareJob { form: *form }, files, streams)
            }
            Job::Audit { old, new } => run_audit(with, old, new, streams),
            Job::Replay {
                form,
                schedule_file,
                version_files,
            } => run_replay(
                with,
                *form,
                schedule_file.as_str(),
                version_files.as_slice(),
                streams,
            ),
        }
    }
}

/// Does what the words, without the program's name, ask for, and answers the status.
pub fn run_words<P: Opener, I: Read, O: Write, E: Write>(
    with: &Resources<'_, P>,
    words: &[String],
    streams: &mut Streams<I, O, E>,
) -> u8
    ensures { ProgramEnds (P.gives with.now.opener.now) (P.lacks with.now.opener.now) (map string_bytes words.now)
        (stream_of I.remaining streams.old.input streams.new.input) (stream_of O.contents streams.old.output streams.new.output)
        (stream_of E.contents streams.old.error streams.new.error) result }
{
    parse_and_run::<Npss, P, I, O, E>(with, words, streams)
}
