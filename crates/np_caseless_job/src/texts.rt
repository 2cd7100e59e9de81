//! A job on one text under a version with its foldings: the three files of the version are read, then the input, then the
//! text is answered.
ghost use Rattle.std.specs.Prelude.{ℕ, Bool, List, IfOk, IfErr, string_bytes};
ghost use Rattle.np_caseless.specs.Folded.{FoldedVersion};
ghost use Rattle.np_caseless_job.specs.FoldedTexts.{FoldedTextEnds, MakesFolded, RefusesFolded};
ghost use Rattle.np_caseless_job.specs.FoldedVersions.{folded_readers_of};
ghost use Rattle.np_jobs.specs.Streams.{stream_of};
ghost use Rattle.np_jobs.specs.Texts.{IsMadeOfText, IsTextFault};
ghost use Rattle.np_jobs.specs.declared.faults.TextFault.{TextFault};

use crate::faults::CaselessFault;
use crate::files::OpenFiles;
use crate::folded_jobs::FoldedJob;
use crate::versions::read_folded;
use np_caseless::FoldedTable;
use np_code_points::watched::Watched;
use np_jobs::{JobOutput, JobTable, MadeTable, Streams, TextFault, finish, read_text};
use np_versions::NormTable;
use std::alloc::Global;
use std::io::{Read, Write};

/// What a job makes of one text under a version with its foldings: what is asked of it, as a value.
pub trait FoldedMaker {
    ghost makes: { Self → FoldedVersion → List ℕ → Bool → List ℕ → Type 0 };

    ghost refuses: { Self → FoldedVersion → List ℕ → TextFault → Type 0 };

    /// What is made of a text.
    fn make_output<T: NormTable + Drop>(
        &self,
        alloc: Global,
        table: &FoldedTable<T>,
        text: &str,
    ) -> Result<JobOutput, TextFault>
        ensures made { IfOk result (λ m. makes self.now table.now text.now m.is_yes (string_bytes m.text)) }
        ensures refused { IfErr result (refuses self.now table.now text.now) };
}

/// Reads the input, and makes of it what the job makes under the table.
fn made_of_input<M: FoldedMaker, T: MadeTable, I: Read>(
    alloc: Global,
    maker: &M,
    table: &FoldedTable<T>,
    input: &mut Watched<I>,
) -> Result<JobOutput, TextFault>
    ensures made { IfOk result (λ m. IsMadeOfText (M.makes maker.now table.now) (stream_of I.remaining input.old input.new) m.is_yes (string_bytes m.text)) }
    ensures refused { IfErr result (IsTextFault (M.refuses maker.now table.now) (stream_of I.remaining input.old input.new)) }
{
    let text = read_text(alloc, input)?;
    maker.make_output(alloc, table, text.as_str())
}

/// Reads the three files of a version and the input, and makes of it what the job makes.
fn made_of_files<M: FoldedMaker, T: MadeTable, F: Read, I: Read>(
    alloc: Global,
    maker: &M,
    files: &mut OpenFiles<F>,
    input: &mut Watched<I>,
) -> Result<JobOutput, CaselessFault>
    ensures made { IfOk result (λ m. MakesFolded (M.makes maker.now) (record {
      files = folded_readers_of F.remaining files.old files.new;
      input = stream_of I.remaining input.old input.new;
    }) m.is_yes (string_bytes m.text)) }
    ensures refused { IfErr result (RefusesFolded (M.refuses maker.now) (record {
      files = folded_readers_of F.remaining files.old files.new;
      input = stream_of I.remaining input.old input.new;
    })) }
{
    input.clear();
    let table: FoldedTable<T> = read_folded(alloc, 0, files)?;
    Ok(made_of_input(alloc, maker, &table, input)?)
}

/// A job on one text is one over the three files of a version and an input.
impl<M: FoldedMaker> FoldedJob for M {
    ghost Ends = { λ job. FoldedTextEnds (M.makes job) (M.refuses job) };

    fn run<F: Read, I: Read, O: Write, E: Write>(
        &self,
        alloc: Global,
        files: &mut OpenFiles<F>,
        streams: &mut Streams<I, O, E>,
    ) -> u8 {
        let made = made_of_files::<M, JobTable, F, I>(alloc, self, files, &mut streams.input);
        finish(alloc, &mut streams.output, &mut streams.error, made)
    }
}
