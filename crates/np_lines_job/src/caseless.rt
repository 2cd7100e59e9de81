//! The three files of a version are read, and then the lines of an input are answered by their caseless keys as they are
//! read.
ghost use Rattle.std.specs.Prelude.{IfErr, IfOk};
ghost use Rattle.np_caseless_job.specs.FoldedVersions.{IsFoldedFault, WasFolded, folded_readers_of};
ghost use Rattle.np_jobs.specs.Streams.{stream_of};
ghost use Rattle.np_jobs.specs.Wraps.{Wraps};
ghost use Rattle.np_lines_job.specs.CaselessLineKeys.{AreAnsweredCaselessly, AreNotAnsweredCaselessly, CaselessLinesEnd, IsCaselessStop, WasStreamedFolded, of_three};

use crate::job::{LinesRun, status_of_run};
use crate::stops::{CaselessLinesFault, told_caselessly};
use np_caseless::FoldedTable;
use np_caseless_job::{CaselessFault, FoldedJob, OpenFiles, read_folded};
use np_caseless_lines::CaselessKeys;
use np_code_points::watched::Watched;
use np_jobs::{JobTable, MadeTable, Streams, refuse};
use np_lines::answer_lines_by;
use std::alloc::Global;
use std::io::{Read, Write};

/// Reads the three files of a version.
fn read_table<T: MadeTable, F: Read>(
    alloc: Global,
    files: &mut OpenFiles<F>,
) -> Result<FoldedTable<T>, CaselessLinesFault>
    ensures folded { IfOk result (WasFolded (folded_readers_of F.remaining files.old files.new)) }
    ensures refused { IfErr result (Wraps of_three (IsFoldedFault 0 (folded_readers_of F.remaining files.old files.new))) }
{
    match read_folded(alloc, 0, files) {
        Ok(table) => Ok(table),
        Err(fault) => Err(CaselessLinesFault::Caseless {
            fault: CaselessFault::Folded { fault },
        }),
    }
}

/// Answers the lines of the input as it is read.
fn answered<T: MadeTable, I: Read, O: Write>(
    alloc: Global,
    asked: LinesRun,
    table: &FoldedTable<T>,
    input: &mut Watched<I>,
    output: &mut Watched<O>,
) -> Result<u8, CaselessLinesFault>
    ensures done { IfOk result (λ status. AreAnsweredCaselessly asked status table.now
        (stream_of I.remaining input.old input.new) (stream_of O.contents output.old output.new)) }
    ensures stopped { IfErr result (λ fault. AreNotAnsweredCaselessly asked fault table.now
        (stream_of I.remaining input.old input.new) (stream_of O.contents output.old output.new)) }
{
    let keys = CaselessKeys {
        folded: table,
        form: asked.wanted.form,
    };
    match answer_lines_by(alloc, &keys, asked.wanted.end, input, output) {
        Ok(any_refused) => Ok(status_of_run(asked.is_strict, any_refused)),
        Err(fault) => Err(told_caselessly(fault)),
    }
}

/// Reads the three files of a version, and answers the lines of the input as it is read.
fn streamed<T: MadeTable, F: Read, I: Read, O: Write>(
    alloc: Global,
    asked: LinesRun,
    files: &mut OpenFiles<F>,
    input: &mut Watched<I>,
    output: &mut Watched<O>,
) -> Result<u8, CaselessLinesFault>
    ensures done { IfOk result (λ status. WasStreamedFolded (AreAnsweredCaselessly asked status) (record {
      files = folded_readers_of F.remaining files.old files.new;
      input = stream_of I.remaining input.old input.new;
    }) (stream_of O.contents output.old output.new)) }
    ensures stopped { IfErr result (IsCaselessStop asked (record {
      files = folded_readers_of F.remaining files.old files.new;
      input = stream_of I.remaining input.old input.new;
    }) (stream_of O.contents output.old output.new)) }
{
    input.clear();
    output.clear();
    let table: FoldedTable<T> = match read_table(alloc, files) {
        Ok(table) => table,
        Err(fault) => return Err(fault),
    };
    answered(alloc, asked, &table, input, output)
}

/// Writes the answer to each line of the input as it is read, as [`lines_job`](crate::lines_job) does, with the caseless key
/// of the line under the three files of a version. Answers the status. After a fault of a file of the version nothing is
/// read of the input, and nothing is written.
pub fn caseless_lines_job<F: Read, I: Read, O: Write, E: Write>(
    alloc: Global,
    asked: LinesRun,
    files: &mut OpenFiles<F>,
    streams: &mut Streams<I, O, E>,
) -> u8
    ensures { CaselessLinesEnd asked (record {
      files = folded_readers_of F.remaining files.old files.new;
      input = stream_of I.remaining streams.old.input streams.new.input;
    }) (stream_of O.contents streams.old.output streams.new.output) (stream_of E.contents streams.old.error streams.new.error) result }
{
    let Streams {
        input,
        output,
        error,
    } = streams;
    error.clear();
    match streamed::<JobTable, F, I, O>(alloc, asked, files, input, output) {
        Ok(status) => status,
        Err(fault) => refuse(alloc, error, &fault),
    }
}

/// To answer lines by their caseless keys is a job over the three files of a version and an input.
impl FoldedJob for LinesRun {
    ghost Ends = { CaselessLinesEnd };

    fn run<F: Read, I: Read, O: Write, E: Write>(
        &self,
        alloc: Global,
        files: &mut OpenFiles<F>,
        streams: &mut Streams<I, O, E>,
    ) -> u8 {
        caseless_lines_job(alloc, *self, files, streams)
    }
}
