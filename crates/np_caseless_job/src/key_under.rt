//! The command `key --check-under`: what an earlier version has of a caseless key.
ghost use Rattle.std.specs.Prelude.{◌≡◌, false, IfOk, IfErr, chars, string_bytes};
ghost use Rattle.np_caseless.specs.Extension.{ExtendsFolded, LeavesKeys};
ghost use Rattle.np_caseless_job.specs.CaselessKeys.{LacksCaselessOutput};
ghost use Rattle.np_caseless_job.specs.CaselessKeysUnder.{CaselessUnderEnds, IsCaselessUnder, MakesCaselessUnder, RefusesCaselessUnder, RefusesInput};
ghost use Rattle.np_caseless_job.specs.FoldedVersions.{folded_readers_of};
ghost use Rattle.np_caseless_job.specs.inside.UnderSteps.{MakesOfInput};
ghost use Rattle.np_code_points.specs.Watched.{has_failed};
ghost use Rattle.np_jobs.specs.Streams.{stream_of};
ghost use Rattle.np_jobs.specs.Texts.{IsMadeOfText, IsTextFault};

use crate::faults::CaselessFault;
use crate::key::key_of;
use crate::pairs::{OpenPair, read_pair};
use np_caseless::{FoldedTable, extends};
use np_code_points::Form;
use np_code_points::watched::Watched;
use np_jobs::{JobOutput, JobTable, MadeTable, Streams, TextFault, finish, own_line, read_text};
use np_versions::NormTable;
use std::alloc::Global;
use std::io::{Read, Write};

/// What is said of the caseless key of a text under the earlier version.
fn make_own<T: NormTable + Drop>(
    alloc: Global,
    form: Form,
    old: &FoldedTable<T>,
    new: &FoldedTable<T>,
    text: &str,
) -> Result<JobOutput, TextFault>
    requires leaves { LeavesKeys old.now new.now }
    ensures own { IfOk result (λ m. IsCaselessUnder form old.now new.now text.now m.is_yes (string_bytes m.text)) }
    ensures refused { IfErr result (LacksCaselessOutput new.now text.now) }
{
    let key = key_of(alloc, form, new, text)?;
    match own_line(alloc, old.table().version(), key.as_str()) {
        Ok(text) => Ok(JobOutput { text, is_yes: true }),
        Err(_) => Err(TextFault::Memory),
    }
}

/// Reads the input, and says what the earlier version has of its caseless key.
fn made_of_input<T: MadeTable, I: Read>(
    alloc: Global,
    form: Form,
    old: &FoldedTable<T>,
    new: &FoldedTable<T>,
    input: &mut Watched<I>,
) -> Result<JobOutput, TextFault>
    requires leaves { LeavesKeys old.now new.now }
    ensures made { IfOk result (λ m. IsMadeOfText (IsCaselessUnder form old.now new.now) (stream_of I.remaining input.old input.new)
        m.is_yes (string_bytes m.text)) }
    ensures refused { IfErr result (IsTextFault (LacksCaselessOutput new.now) (stream_of I.remaining input.old input.new)) }
{
    let text = read_text(alloc, input)?;
    make_own(alloc, form, old, new, text.as_str())
}

/// Checks that the new version extends the old one, and answers the input.
fn made_of_tables<T: MadeTable, I: Read>(
    alloc: Global,
    form: Form,
    old: &FoldedTable<T>,
    new: &FoldedTable<T>,
    input: &mut Watched<I>,
) -> Result<JobOutput, CaselessFault>
    requires clear { has_failed input.old ≡ false }
    ensures made { IfOk result (MakesOfInput form old.now new.now (stream_of I.remaining input.old input.new)) }
    ensures refused { IfErr result (RefusesInput old.now new.now (stream_of I.remaining input.old input.new)) }
{
    if let Err(brk) = extends(old, new) {
        return Err(CaselessFault::NotExtension { brk });
    }
    Ok(made_of_input(alloc, form, old, new, input)?)
}

/// Reads both versions, and answers the input.
fn made_of_pair<T: MadeTable, F: Read, I: Read>(
    alloc: Global,
    form: Form,
    pair: &mut OpenPair<F>,
    input: &mut Watched<I>,
) -> Result<JobOutput, CaselessFault>
    ensures made { IfOk result (λ m. MakesCaselessUnder form (record {
      pair = record {
        first = folded_readers_of F.remaining pair.old.first pair.new.first;
        second = folded_readers_of F.remaining pair.old.second pair.new.second;
      };
      input = stream_of I.remaining input.old input.new;
    }) m.is_yes (string_bytes m.text)) }
    ensures refused { IfErr result (RefusesCaselessUnder (record {
      pair = record {
        first = folded_readers_of F.remaining pair.old.first pair.new.first;
        second = folded_readers_of F.remaining pair.old.second pair.new.second;
      };
      input = stream_of I.remaining input.old input.new;
    })) }
{
    input.clear();
    let both: (FoldedTable<T>, FoldedTable<T>) = read_pair(alloc, pair)?;
    made_of_tables(alloc, form, &both.0, &both.1, input)
}

/// Makes the caseless key of the input, a text, under the new version, and writes a line on it under the earlier one. The
/// line is `own form`, since there it is its own caseless key. Where that version does not assign each code point of it, the
/// line also tells the first that it lacks, with its byte place in the key, from 0. Answers the status: 1 where the new
/// version does not extend the earlier one, and then the input is not read.
pub(crate) fn key_under_job<F: Read, I: Read, O: Write, E: Write>(
    alloc: Global,
    form: Form,
    pair: &mut OpenPair<F>,
    streams: &mut Streams<I, O, E>,
) -> u8
    ensures { CaselessUnderEnds form (record {
      pair = record {
        first = folded_readers_of F.remaining pair.old.first pair.new.first;
        second = folded_readers_of F.remaining pair.old.second pair.new.second;
      };
      input = stream_of I.remaining streams.old.input streams.new.input;
    }) (stream_of O.contents streams.old.output streams.new.output) (stream_of E.contents streams.old.error streams.new.error) result }
{
    let made = made_of_pair::<JobTable, F, I>(alloc, form, pair, &mut streams.input);
    finish(alloc, &mut streams.output, &mut streams.error, made)
}
