//! What a program says of its use, by its own text.
ghost use Rattle.std.specs.Prelude.{◌≡◌, ◌≢◌, true};
ghost use Rattle.std.specs.IoError.{error_kind};
ghost use Rattle.np_jobs.specs.Ends.{IsTold, TellsRefusal, WritesAnswer};
ghost use Rattle.np_jobs.specs.Streams.{stream_of};

use crate::ending::{refuse, tell};
use crate::faults::JobFault;
use crate::statuses::{DONE, USAGE};
use np_code_points::output::write_out;
use np_code_points::watched::Watched;
use std::alloc::Global;
use std::io::{Error, ErrorKind, Write};

/// Says on `error` how a program is used, where the words ask for nothing that there is. Answers the
/// status 2.
pub fn tell_usage<E: Write>(error: &mut Watched<E>, usage: &str) -> u8
    ensures told { IsTold (stream_of E.contents error.old error.new) usage.now }
    ensures status { result ≡ 2 }
{
    tell(error, usage);
    USAGE
}

/// Writes how a program is used to the output, where that is asked for. Answers the status, 0; a failed
/// write is told in a line on `error`.
pub fn show_usage<O: Write, E: Write>(
    alloc: Global,
    output: &mut Watched<O>,
    error: &mut Watched<E>,
    usage: &str,
) -> u8
    ensures { WritesAnswer true usage.now (stream_of O.contents output.old output.new) (stream_of E.contents error.old error.new) result }
{
    error.clear();
    match write_out(output, usage.as_bytes()) {
        Ok(()) => DONE,
        Err(_) => refuse(alloc, error, &JobFault::WriteFailed),
    }
}

/// Says on `error` why the system gives a program no words: memory ran out, or one of them is no UTF-8,
/// and then how it is used. Answers the status, 6 or 2.
pub fn refuse_words<E: Write>(alloc: Global, error: &mut Watched<E>, usage: &str, why: &Error) -> u8
    ensures memory { error_kind why.now ≡ ErrorKind.OutOfMemory → TellsRefusal JobFault.Memory (stream_of E.contents error.old error.new) result }
    ensures told { error_kind why.now ≢ ErrorKind.OutOfMemory → IsTold (stream_of E.contents error.old error.new) usage.now }
    ensures status { error_kind why.now ≢ ErrorKind.OutOfMemory → result ≡ 2 }
{
    if why.kind() == ErrorKind::OutOfMemory {
        refuse(alloc, error, &JobFault::Memory)
    } else {
        tell_usage(error, usage)
    }
}
