//! A job on one text: the two files of a version are read, then the input, then the text is
//! answered.
ghost use Rattle.std.specs.Prelude.{◌≡◌, ℕ, Bool, List, IfOk, IfErr, IsUtf8, string_bytes};
ghost use Rattle.np_jobs.specs.Streams.{WasNotRead, WasRead, stream_of};
ghost use Rattle.np_jobs.specs.Texts.{IsMadeOfText, IsNoText, IsNotUtf8, IsTextFault, MakesOfText, RefusesText, TextEnds};
ghost use Rattle.np_jobs.specs.Wraps.{Wraps};
ghost use Rattle.np_jobs.specs.declared.faults.TextFault.{TextFault};
ghost use Rattle.np_versions.specs.Versions.{VersionData};

use crate::ending::{JobOutput, finish};
use crate::faults::{JobFault, TextFault};
use crate::streams::Streams;
use crate::version_jobs::VersionJob;
use crate::versions::{JobTable, MadeTable, read_table_of};
use np_code_points::input::read_whole;
use np_code_points::text::text_of;
use np_code_points::watched::Watched;
use np_versions::NormTable;
use std::alloc::Global;
use std::io::{Read, Write};

/// What a job makes of one text under a table: what is asked of it, as a value.
pub trait TextMaker {
    ghost makes: { Self → VersionData → List ℕ → Bool → List ℕ → Type 0 };

    ghost refuses: { Self → VersionData → List ℕ → TextFault → Type 0 };

    /// What is made of a text, which is given up.
    fn make_output<T: NormTable>(
        &self,
        alloc: Global,
        table: &T,
        text: String,
    ) -> Result<JobOutput, TextFault>
        ensures made { IfOk result (λ m. makes self.now (T.model table.now) (string_bytes text) m.is_yes (string_bytes m.text)) }
        ensures refused { IfErr result (refuses self.now (T.model table.now) (string_bytes text)) };
}

/// The text that the bytes write, in the same memory.
fn text_in(bytes: Vec<u8>) -> Result<String, TextFault>
    ensures text { IfOk result (λ text. string_bytes text ≡ bytes.items) }
    ensures valid { IfOk result (λ text. IsUtf8 bytes.items) }
    ensures refused { IfErr result (IsNotUtf8 bytes.items) }
{
    match text_of(bytes.as_slice()) {
        Ok(_same) => Ok(unsafe { String::from_utf8_unchecked(bytes) }),
        Err(fault) => Err(TextFault::NotUtf8 { at: fault.at }),
    }
}

/// Reads the input, a text.
///
/// # Errors
///
/// `Input` where it was not read whole, `NotUtf8` where it is no UTF-8.
pub fn read_text<R: Read>(alloc: Global, input: &mut Watched<R>) -> Result<String, TextFault>
    ensures read { IfOk result (λ text. WasRead (stream_of R.remaining input.old input.new) (string_bytes text)) }
    ensures valid { IfOk result (λ text. IsUtf8 (string_bytes text)) }
    ensures refused { IfErr result (IsNoText (stream_of R.remaining input.old input.new)) }
{
    match read_whole(alloc, input) {
        Ok(bytes) => text_in(bytes),
        Err(fault) => Err(TextFault::Input { fault }),
    }
}

/// Reads the input, and makes of it what the job makes under the table.
fn made_of_input<M: TextMaker, T: NormTable, I: Read>(
    alloc: Global,
    maker: &M,
    table: &T,
    input: &mut Watched<I>,
) -> Result<JobOutput, TextFault>
    ensures made { IfOk result (λ m. IsMadeOfText (M.makes maker.now (T.model table.now))
        (stream_of I.remaining input.old input.new) m.is_yes (string_bytes m.text)) }
    ensures refused { IfErr result (IsTextFault (M.refuses maker.now (T.model table.now)) (stream_of I.remaining input.old input.new)) }
{
    let text = read_text(alloc, input)?;
    maker.make_output(alloc, table, text)
}

/// Reads the two files of a version and the input, and makes of it what the job makes.
///
/// # Errors
///
/// `Version` where there is no version, and then the input is not looked at; else `Text` where the
/// input was not read whole, is no UTF-8, or is not answered by the job.
pub(crate) fn made_of_files<M: TextMaker, T: MadeTable, F: Read, I: Read>(
    alloc: Global,
    maker: &M,
    data_file: &mut Watched<F>,
    exclusions_file: &mut Watched<F>,
    input: &mut Watched<I>,
) -> Result<JobOutput, JobFault>
    ensures made { IfOk result (λ m. MakesOfText (M.makes maker.now) (record {
      data_file = stream_of F.remaining data_file.old data_file.new;
      exclusions_file = stream_of F.remaining exclusions_file.old exclusions_file.new;
      input = stream_of I.remaining input.old input.new;
    }) m.is_yes (string_bytes m.text)) }
    ensures refused { IfErr result (RefusesText (M.refuses maker.now) (record {
      data_file = stream_of F.remaining data_file.old data_file.new;
      exclusions_file = stream_of F.remaining exclusions_file.old exclusions_file.new;
      input = stream_of I.remaining input.old input.new;
    })) }
{
    input.clear();
    let table: T = read_table_of(alloc, 0, data_file, exclusions_file)?;
    Ok(made_of_input(alloc, maker, &table, input)?)
}

/// A job on one text is one over the two files of a version and an input.
impl<M: TextMaker> VersionJob for M {
    ghost Ends = { λ job. TextEnds (M.makes job) (M.refuses job) };

    fn run<F: Read, I: Read, O: Write, E: Write>(
        &self,
        alloc: Global,
        data_file: &mut Watched<F>,
        exclusions_file: &mut Watched<F>,
        streams: &mut Streams<I, O, E>,
    ) -> u8 {
        let input = &mut streams.input;
        let made = made_of_files::<M, JobTable, F, I>(
            alloc,
            self,
            data_file,
            exclusions_file,
            input,
        );
        finish(alloc, &mut streams.output, &mut streams.error, made)
    }
}
