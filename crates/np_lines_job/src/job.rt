//! The two files of a version are read, and then the lines of an input are answered as they are read.
ghost use Rattle.std.specs.Prelude.{◌≡◌};
ghost use Rattle.np_jobs.specs.Streams.{stream_of};
ghost use Rattle.np_lines_job.specs.LineKeys.{AreAnswered, AreNotAnswered, LinesEnd, lines_status, told_as};

use np_code_points::input::InputFault;
use np_code_points::watched::Watched;
use np_jobs::{DONE, JobFault, StreamingJob, TextFault, streaming_job};
use np_lines::{LinesFault, Wanted, answer_lines};
use np_versions::NormTable;
use std::alloc::Global;
use std::io::{Read, Write};

/// The status of a run in which a line was refused, where that is asked for.
pub const REFUSED: u8 = 3;

/// What is asked of a run.
#[derive(Clone, Copy, Debug, PartialEq, Eq)]
pub struct LinesRun {
    /// What is asked of each line.
    pub wanted: Wanted,
    /// Whether the status tells that a line was refused.
    pub is_strict: bool,
}

/// The fault of the job that the fault of a run is.
fn job_fault_of(fault: LinesFault) -> JobFault
    ensures { result ≡ told_as fault }
{
    let fault = match fault {
        LinesFault::WriteFailed => return JobFault::WriteFailed,
        LinesFault::ReadFailed => TextFault::Input {
            fault: InputFault::ReadFailed,
        },
        LinesFault::TooLarge => TextFault::Input {
            fault: InputFault::TooLarge,
        },
        LinesFault::Memory => TextFault::Memory,
    };
    JobFault::Text { fault }
}

/// The status of a run that answered each line.
pub(crate) fn status_of_run(is_strict: bool, any_refused: bool) -> u8
    ensures { result ≡ lines_status is_strict any_refused }
{
    if is_strict && any_refused {
        REFUSED
    } else {
        DONE
    }
}

impl StreamingJob for LinesRun {
    ghost Runs = { AreAnswered };

    ghost Stops = { AreNotAnswered };

    fn stream<T: NormTable, I: Read, O: Write>(
        &self,
        alloc: Global,
        table: &T,
        input: &mut Watched<I>,
        output: &mut Watched<O>,
    ) -> Result<u8, JobFault> {
        match answer_lines(alloc, table, self.wanted, input, output) {
            Ok(any_refused) => Ok(status_of_run(self.is_strict, any_refused)),
            Err(fault) => Err(job_fault_of(fault)),
        }
    }
}

/// Writes the answer to each line of the input as it is read: `=` and the line's key, or `!` and why it
/// has none (see [`answer_lines`](np_lines::answer_lines)), and the byte that ends lines. Answers the
/// status: 0 where the input was read to its end and each line has its answer, whether or not a line was
/// refused; 3 in place of it where a line was refused and the status is to tell that. A refusal of the
/// whole run is told in a line on `error`, with its status. After a fault of a file of the version nothing
/// is written; after one of the input exactly the answers to its whole lines; after one of the output some
/// first bytes of the answers; after want of memory, or past 18,446,744,073,709,551,615 bytes, the answers to some first
/// lines.
pub fn lines_job<F: Read, I: Read, O: Write, E: Write>(
    alloc: Global,
    asked: LinesRun,
    data_file: &mut Watched<F>,
    exclusions_file: &mut Watched<F>,
    input: &mut Watched<I>,
    output: &mut Watched<O>,
    error: &mut Watched<E>,
) -> u8
    ensures { LinesEnd asked (record {
      data_file = stream_of F.remaining data_file.old data_file.new;
      exclusions_file = stream_of F.remaining exclusions_file.old exclusions_file.new;
      input = stream_of I.remaining input.old input.new;
    }) (stream_of O.contents output.old output.new) (stream_of E.contents error.old error.new) result }
{
    streaming_job(
        alloc,
        &asked,
        data_file,
        exclusions_file,
        input,
        output,
        error,
    )
}
