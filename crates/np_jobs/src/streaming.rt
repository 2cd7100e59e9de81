//! Jobs that write while they read: the two files of a version are read, and then what comes of the input is written as
//! it is read.
ghost use Rattle.std.specs.Prelude.{◌≡◌, ℕ, IfErr, IfOk};
ghost use Rattle.np_jobs.specs.Streaming.{IsStopped, StreamingEnds, WasStreamed};
ghost use Rattle.np_jobs.specs.Streams.{Stream, stream_of};
ghost use Rattle.np_jobs.specs.declared.faults.JobFault.{JobFault};
ghost use Rattle.np_versions.specs.Versions.{VersionData};

use crate::ending::refuse;
use crate::faults::JobFault;
use crate::streams::Streams;
use crate::version_jobs::VersionJob;
use crate::versions::{JobTable, MadeTable, read_table_of};
use np_code_points::watched::Watched;
use np_versions::NormTable;
use std::alloc::Global;
use std::io::{Read, Write};

/// What a job writes of an input under a table while it reads it: what is asked of it, as a value.
pub trait StreamingJob {
    ghost Runs: { Self → ℕ → VersionData → Stream → Stream → Type 0 };

    ghost Stops: { Self → JobFault → VersionData → Stream → Stream → Type 0 };

    /// Reads the input and writes what comes of it. Answers the status, or why it stopped.
    fn stream<T: NormTable, I: Read, O: Write>(
        &self,
        alloc: Global,
        table: &T,
        input: &mut Watched<I>,
        output: &mut Watched<O>,
    ) -> Result<u8, JobFault>
        ensures done { IfOk result (λ status. Runs self.now status (T.model table.now)
            (stream_of I.remaining input.old input.new) (stream_of O.contents output.old output.new)) }
        ensures stopped { IfErr result (λ fault. Stops self.now fault (T.model table.now)
            (stream_of I.remaining input.old input.new) (stream_of O.contents output.old output.new)) };
}

/// Reads the two files of a version, and lets the job read the input and write.
fn streamed<S: StreamingJob, T: MadeTable, F: Read, I: Read, O: Write>(
    alloc: Global,
    job: &S,
    data_file: &mut Watched<F>,
    exclusions_file: &mut Watched<F>,
    input: &mut Watched<I>,
    output: &mut Watched<O>,
) -> Result<u8, JobFault>
    ensures done { IfOk result (λ status. WasStreamed (S.Runs job.now status) (record {
      data_file = stream_of F.remaining data_file.old data_file.new;
      exclusions_file = stream_of F.remaining exclusions_file.old exclusions_file.new;
      input = stream_of I.remaining input.old input.new;
    }) (stream_of O.contents output.old output.new)) }
    ensures stopped { IfErr result (IsStopped (S.Stops job.now) (record {
      data_file = stream_of F.remaining data_file.old data_file.new;
      exclusions_file = stream_of F.remaining exclusions_file.old exclusions_file.new;
      input = stream_of I.remaining input.old input.new;
    }) (stream_of O.contents output.old output.new)) }
{
    input.clear();
    output.clear();
    let table: T = read_table_of(alloc, 0, data_file, exclusions_file)?;
    job.stream(alloc, &table, input, output)
}

/// Does a job that writes while it reads, and answers its status; why it stopped is told in a line on `error`. After a
/// fault of a file nothing is read of the input, and the output is as it was.
pub fn streaming_job<S: StreamingJob, F: Read, I: Read, O: Write, E: Write>(
    alloc: Global,
    job: &S,
    data_file: &mut Watched<F>,
    exclusions_file: &mut Watched<F>,
    input: &mut Watched<I>,
    output: &mut Watched<O>,
    error: &mut Watched<E>,
) -> u8
    ensures { StreamingEnds (S.Runs job.now) (S.Stops job.now) (record {
      data_file = stream_of F.remaining data_file.old data_file.new;
      exclusions_file = stream_of F.remaining exclusions_file.old exclusions_file.new;
      input = stream_of I.remaining input.old input.new;
    }) (stream_of O.contents output.old output.new) (stream_of E.contents error.old error.new) result }
{
    error.clear();
    match streamed::<S, JobTable, F, I, O>(alloc, job, data_file, exclusions_file, input, output) {
        Ok(status) => status,
        Err(fault) => refuse(alloc, error, &fault),
    }
}

/// A job that writes while it reads, as one over the two files of a version and an input.
#[derive(Clone, Copy)]
pub struct Streaming<S> {
    /// What is asked of it.
    pub job: S,
}

impl<S: StreamingJob> VersionJob for Streaming<S> {
    ghost Ends = { λ it. StreamingEnds (S.Runs it.job) (S.Stops it.job) };

    fn run<F: Read, I: Read, O: Write, E: Write>(
        &self,
        alloc: Global,
        data_file: &mut Watched<F>,
        exclusions_file: &mut Watched<F>,
        streams: &mut Streams<I, O, E>,
    ) -> u8 {
        let Streams {
            input,
            output,
            error,
        } = streams;
        streaming_job(
            alloc,
            &self.job,
            data_file,
            exclusions_file,
            input,
            output,
            error,
        )
    }
}
