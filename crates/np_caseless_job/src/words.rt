//! What the words of `npss_caseless` ask for.
ghost use Rattle.std.specs.Prelude.{◌≡◌, IfOk, Some, None, Err, map, string_bytes};
ghost use Rattle.np_caseless_job.specs.AskedWords.{asked_of, job_asked, plain_asked, words_asked};

use np_habits::{Notice, notice_in, plain_words};
use np_words::{CaselessJob, WordsFault, parse_caseless};
use std::alloc::Global;

/// What is to be done.
#[derive(Debug, Drop, PartialEq, Eq)]
pub enum CaselessAsked {
    /// The version of the program is asked for.
    Version,
    /// A job, or the usage text.
    Job { job: CaselessJob },
}

/// The job that words ask for in which forms are named in lower case.
fn parse_plain(alloc: Global, words: &[String]) -> Result<CaselessAsked, WordsFault>
    ensures ok { IfOk result (λ asked. plain_asked (map string_bytes words.now) ≡ Some (asked_of asked)) }
    ensures usage { result ≡ Err WordsFault.Usage → plain_asked (map string_bytes words.now) ≡ None }
{
    match parse_caseless(alloc, words) {
        Ok(job) => Ok(CaselessAsked::Job { job }),
        Err(fault) => Err(fault),
    }
}

/// The job that words ask for, none of which asks for a notice.
fn parse_job(alloc: Global, words: &[String]) -> Result<CaselessAsked, WordsFault>
    ensures ok { IfOk result (λ asked. job_asked (map string_bytes words.now) ≡ Some (asked_of asked)) }
    ensures usage { result ≡ Err WordsFault.Usage → job_asked (map string_bytes words.now) ≡ None }
{
    match plain_words(alloc, words) {
        Ok(plain) => parse_plain(alloc, plain.as_slice()),
        Err(_) => Err(WordsFault::Memory),
    }
}

/// What the words, without the program's name, ask for. No words ask for help, and so does `--help`; other words for what
/// `clap` reads in them, where a form is named in either case.
///
/// # Errors
///
/// `Usage` where they ask for nothing that there is, `Memory` where memory ran out.
pub fn parse_words(alloc: Global, words: &[String]) -> Result<CaselessAsked, WordsFault>
    ensures ok { IfOk result (λ asked. words_asked (map string_bytes words.now) ≡ Some (asked_of asked)) }
    ensures usage { result ≡ Err WordsFault.Usage → words_asked (map string_bytes words.now) ≡ None }
{
    match notice_in(words) {
        Some(Notice::Help) => Ok(CaselessAsked::Job {
            job: CaselessJob::Help,
        }),
        Some(Notice::Version) => Ok(CaselessAsked::Version),
        None => parse_job(alloc, words),
    }
}
