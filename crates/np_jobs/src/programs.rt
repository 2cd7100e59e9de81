//! The run of a program, by what its words ask for.
ghost use Rattle.std.specs.Prelude.{◌≡◌, ℕ, List, Option, map, string_bytes, Err, IfErr, IfOk};
ghost use Rattle.np_jobs.specs.Ends.{IsTold, TellsRefusal};
ghost use Rattle.np_jobs.specs.Opening.{IsUnopened};
ghost use Rattle.np_jobs.specs.Programs.{EndsOrIsUnopened, IsProgramEnd, IsRun};
ghost use Rattle.np_jobs.specs.Streams.{Stream, stream_of};

use crate::ending::refuse;
use crate::faults::JobFault;
use crate::openers::Opener;
use crate::streams::{Resources, Streams};
use crate::usage::tell_usage;
use np_words::WordsFault;
use std::alloc::Global;
use std::io::{Read, Write};

/// A program: what its words may ask for, and how that is done.
pub trait Program {
    /// What words ask for.
    type Job: Drop;

    ghost asks: { List (List ℕ) → Self.Job → Type 0 };

    ghost asks_nothing: { List (List ℕ) → Type 0 };

    ghost files_of: { Self.Job → List (List ℕ) };

    ghost usage: { List ℕ };

    ghost ends: { (List ℕ → Option (List ℕ) → Type 0) → Self.Job → Stream → Stream → Stream → ℕ → Type 0 };

    ghost can_run: { Self.Job → Type 0 };

    /// How the program is used.
    fn usage() -> &'static str
        ensures { result.now ≡ usage };

    /// What the words, without the program's name, ask for.
    ///
    /// # Errors
    ///
    /// `Usage` where they ask for nothing that there is, `Memory` where memory ran out.
    fn parse(alloc: Global, words: &[String]) -> Result<Self::Job, WordsFault>
        ensures ok { IfOk result (asks (map string_bytes words.now)) }
        ensures runs { IfOk result can_run }
        ensures usage { result ≡ Err WordsFault.Usage → asks_nothing (map string_bytes words.now) };

    /// Opens the files of a job and does it, or tells which of them can't be opened. Answers the status.
    fn run<P: Opener, I: Read, O: Write, E: Write>(
        with: &Resources<'_, P>,
        job: &Self::Job,
        streams: &mut Streams<I, O, E>,
    ) -> u8
        requires { can_run job.now }
        ensures { EndsOrIsUnopened
            (ends (P.gives with.now.opener.now) job.now (stream_of I.remaining streams.old.input streams.new.input)
            (stream_of O.contents streams.old.output streams.new.output) (stream_of E.contents streams.old.error streams.new.error) result)
            (IsUnopened (P.gives with.now.opener.now) (P.lacks with.now.opener.now) (files_of job.now)
            (stream_of E.contents streams.old.error streams.new.error) result)
            streams.old streams.new };
}

/// Does what words ask for, by what was found in them, or tells why they ask for nothing. Answers the status.
pub fn run_parsed<G: Program, P: Opener, I: Read, O: Write, E: Write>(
    with: &Resources<'_, P>,
    found: &Result<G::Job, WordsFault>,
    streams: &mut Streams<I, O, E>,
) -> u8
    requires runs { IfOk found.now G.can_run }
    ensures done { IfOk found.now (λ job. IsRun G.files_of G.ends (P.gives with.now.opener.now) (P.lacks with.now.opener.now) job
        (stream_of I.remaining streams.old.input streams.new.input) (stream_of O.contents streams.old.output streams.new.output)
        (stream_of E.contents streams.old.error streams.new.error) result) }
    ensures usage { found.now ≡ Err WordsFault.Usage → IsTold (stream_of E.contents streams.old.error streams.new.error) G.usage × (result ≡ 2) }
    ensures memory { found.now ≡ Err WordsFault.Memory → TellsRefusal JobFault.Memory (stream_of E.contents streams.old.error streams.new.error) result }
    ensures unread { IfErr found.now (λ _. streams.new.input ≡ streams.old.input) }
    ensures unwritten { IfErr found.now (λ _. streams.new.output ≡ streams.old.output) }
{
    match found {
        Ok(job) => G::run(with, job, streams),
        Err(WordsFault::Usage) => tell_usage(&mut streams.error, G::usage()),
        Err(WordsFault::Memory) => refuse(with.alloc, &mut streams.error, &JobFault::Memory),
    }
}

/// Does what the words, without the program's name, ask for, and answers the status.
pub fn parse_and_run<G: Program, P: Opener, I: Read, O: Write, E: Write>(
    with: &Resources<'_, P>,
    words: &[String],
    streams: &mut Streams<I, O, E>,
) -> u8
    ensures { IsProgramEnd G.asks G.asks_nothing G.files_of G.usage G.ends (P.gives with.now.opener.now) (P.lacks with.now.opener.now)
        (map string_bytes words.now) (stream_of I.remaining streams.old.input streams.new.input)
        (stream_of O.contents streams.old.output streams.new.output) (stream_of E.contents streams.old.error streams.new.error) result }
{
    let found = G::parse(with.alloc, words);
    run_parsed::<G, P, I, O, E>(with, &found, streams)
}
