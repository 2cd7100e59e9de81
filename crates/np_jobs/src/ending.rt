//! How a job ends: what it writes, what it tells, and its status.
ghost use Rattle.std.specs.Prelude.{◌≡◌, string_bytes};
ghost use Rattle.np_jobs.specs.Ends.{TellsAs, IsTold, answer_status};
ghost use Rattle.np_jobs.specs.Streams.{stream_of};
ghost use Rattle.np_jobs.specs.Endings.{EndsWith};

use crate::faults::JobFault;
use crate::lines::OUT_OF_MEMORY;
use crate::refusals::Refusal;
use crate::statuses::{DIFFERENT, DONE, MEMORY};
use np_code_points::output::write_out;
use np_code_points::watched::Watched;
use std::alloc::Global;
use std::io::Write;

/// What a job makes before its first write: its whole output, and whether its answer is yes. The
/// answer of a job that has no other is yes.
#[derive(Debug, Drop)]
pub struct JobOutput {
    /// The whole output.
    pub text: String,
    /// Whether the answer is yes.
    pub is_yes: bool,
}

/// The status of an answer.
fn status_of_answer(is_yes: bool) -> u8
    ensures { result ≡ answer_status is_yes }
{
    if is_yes { DONE } else { DIFFERENT }
}

/// Writes a line. What then fails changes nothing, since there is no other place to tell it.
pub fn tell<E: Write>(error: &mut Watched<E>, line: &str)
    ensures { IsTold (stream_of E.contents error.old error.new) line.now }
{
    let _ = write_out(error, line.as_bytes());
}

/// Tells a refusal in its line, and answers its status; as want of memory where there is none for
/// the line.
pub fn refuse<E: Write, F: Refusal>(alloc: Global, error: &mut Watched<E>, fault: &F) -> u8
    ensures { TellsAs (F.telling fault.now) (stream_of E.contents error.old error.new) result }
{
    match fault.line(alloc) {
        Ok(line) => {
            tell(error, line.as_str());
            fault.status()
        }
        Err(_) => {
            tell(error, OUT_OF_MEMORY);
            MEMORY
        }
    }
}

/// Ends a job: writes what it made, flushes once and tells nothing, unless that fails, which is
/// told; or writes nothing, and tells why it is refused. Answers the status.
pub fn finish<O: Write, E: Write, F: Refusal>(
    alloc: Global,
    output: &mut Watched<O>,
    error: &mut Watched<E>,
    made: Result<JobOutput, F>,
) -> u8
    ensures { EndsWith F.telling made (stream_of O.contents output.old output.new) (stream_of E.contents error.old error.new) result }
{
    output.clear();
    error.clear();
    match made {
        Ok(made) => match write_out(output, made.text.as_bytes()) {
            Ok(()) => status_of_answer(made.is_yes),
            Err(_) => refuse(alloc, error, &JobFault::WriteFailed),
        },
        Err(fault) => refuse(alloc, error, &fault),
    }
}
