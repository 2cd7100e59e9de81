//! The jobs, over each file and stream by itself: what is made of them is written and flushed, or why there is nothing
//! is told in a line, and each answers its status.
ghost use Rattle.std.specs.Prelude.{◌≡◌, ◌∷◌, []};
ghost use Rattle.np_jobs.specs.Audits.{AuditEnds};
ghost use Rattle.np_jobs.specs.Chains.{readers_of};
ghost use Rattle.np_jobs.specs.Comparisons.{CompareEnds};
ghost use Rattle.np_jobs.specs.Keys.{KeyEnds};
ghost use Rattle.np_jobs.specs.KeysUnder.{KeyUnderEnds};
ghost use Rattle.np_jobs.specs.NormalForms.{NormalizeEnds};
ghost use Rattle.np_jobs.specs.Streams.{stream_of};

use crate::compare::CompareJob;
use crate::ending::finish;
use crate::key::KeyJob;
use crate::normalize::NormalizeJob;
use crate::streaming::streaming_job;
use crate::texts::made_of_files;
use crate::versions::JobTable;
use crate::{audit, key_under};
use np_code_points::Form;
use np_code_points::watched::Watched;
use std::alloc::Global;
use std::io::{Read, Write};

/// Writes the normal form of the input, a text of at most 4,294,967,295 bytes, to the output as it
/// is read. Unassigned code points pass as starters without a mapping. Answers the status; a
/// refusal is told in a line on `error`. After a fault of a file the output is as it was; after one
/// of the input or the output some first bytes of the form of what was read are written.
pub fn normalize_job<F: Read, I: Read, O: Write, E: Write>(
    alloc: Global,
    form: Form,
    data_file: &mut Watched<F>,
    exclusions_file: &mut Watched<F>,
    input: &mut Watched<I>,
    output: &mut Watched<O>,
    error: &mut Watched<E>,
) -> u8
    ensures { NormalizeEnds form (record {
      data_file = stream_of F.remaining data_file.old data_file.new;
      exclusions_file = stream_of F.remaining exclusions_file.old exclusions_file.new;
      input = stream_of I.remaining input.old input.new;
    }) (stream_of O.contents output.old output.new) (stream_of E.contents error.old error.new) result }
{
    let job = NormalizeJob { form };
    streaming_job(
        alloc,
        &job,
        data_file,
        exclusions_file,
        input,
        output,
        error,
    )
}

/// Writes the stabilized string of the input, a text, to the output: its normal form under the
/// version of the two files, with nothing added. Answers the status; a refusal is told in a line
/// on `error`, and leaves the output as it was.
pub fn key_job<F: Read, I: Read, O: Write, E: Write>(
    alloc: Global,
    form: Form,
    data_file: &mut Watched<F>,
    exclusions_file: &mut Watched<F>,
    input: &mut Watched<I>,
    output: &mut Watched<O>,
    error: &mut Watched<E>,
) -> u8
    ensures { KeyEnds form (record {
      data_file = stream_of F.remaining data_file.old data_file.new;
      exclusions_file = stream_of F.remaining exclusions_file.old exclusions_file.new;
      input = stream_of I.remaining input.old input.new;
    }) (stream_of O.contents output.old output.new) (stream_of E.contents error.old error.new) result }
{
    let made = made_of_files::<KeyJob, JobTable, F, I>(
        alloc,
        &KeyJob { form },
        data_file,
        exclusions_file,
        input,
    );
    finish(alloc, output, error, made)
}

/// Makes the stabilized string of the input, a text, under the version of the last two files, and
/// writes a line on it under the earlier version of the first two. The line is `own form`, since
/// there it is its own normal form. Where that version does not assign each code point of it, the
/// line also tells the first that it lacks, with its byte place in the stabilized string, from 0.
/// Answers the status: 1 where the later version does not extend the earlier one, and then the input
/// is not read. A refusal is told in a line on `error`, and leaves the output as it was.
pub fn key_under_job<F: Read, I: Read, O: Write, E: Write>(
    alloc: Global,
    form: Form,
    old_data_file: &mut Watched<F>,
    old_exclusions_file: &mut Watched<F>,
    data_file: &mut Watched<F>,
    exclusions_file: &mut Watched<F>,
    input: &mut Watched<I>,
    output: &mut Watched<O>,
    error: &mut Watched<E>,
) -> u8
    ensures { KeyUnderEnds form (record {
      versions = readers_of F.remaining
          (old_data_file.old ∷ old_exclusions_file.old ∷ data_file.old ∷ exclusions_file.old ∷ [])
          (old_data_file.new ∷ old_exclusions_file.new ∷ data_file.new ∷ exclusions_file.new ∷ []);
      input = stream_of I.remaining input.old input.new;
    }) (stream_of O.contents output.old output.new) (stream_of E.contents error.old error.new) result }
{
    let made = key_under::made_of_versions::<JobTable, F, I>(
        alloc,
        form,
        old_data_file,
        old_exclusions_file,
        data_file,
        exclusions_file,
        input,
    );
    finish(alloc, output, error, made)
}

/// Writes whether the two strings of the input are equivalent, compatibly for NFKD and NFKC: the
/// first ends before the first line end, the second is the rest without one line end at its very
/// end. Answers the status, 0 for `equal` and 1 for `different`; a refusal is told in a line on
/// `error`, and leaves the output as it was.
pub fn compare_job<F: Read, I: Read, O: Write, E: Write>(
    alloc: Global,
    form: Form,
    data_file: &mut Watched<F>,
    exclusions_file: &mut Watched<F>,
    input: &mut Watched<I>,
    output: &mut Watched<O>,
    error: &mut Watched<E>,
) -> u8
    ensures { CompareEnds form (record {
      data_file = stream_of F.remaining data_file.old data_file.new;
      exclusions_file = stream_of F.remaining exclusions_file.old exclusions_file.new;
      input = stream_of I.remaining input.old input.new;
    }) (stream_of O.contents output.old output.new) (stream_of E.contents error.old error.new) result }
{
    let made = made_of_files::<CompareJob, JobTable, F, I>(
        alloc,
        &CompareJob { form },
        data_file,
        exclusions_file,
        input,
    );
    finish(alloc, output, error, made)
}

/// Writes what the new version breaks of the old one, a line for each code point that has a break,
/// or `extends`. Answers the status, 0 where the new version extends the old one and 1 where it
/// does not; a refusal is told in a line on `error`, and leaves the output as it was.
pub fn audit_job<F: Read, O: Write, E: Write>(
    alloc: Global,
    old_data_file: &mut Watched<F>,
    old_exclusions_file: &mut Watched<F>,
    new_data_file: &mut Watched<F>,
    new_exclusions_file: &mut Watched<F>,
    output: &mut Watched<O>,
    error: &mut Watched<E>,
) -> u8
    ensures { AuditEnds (readers_of F.remaining
        (old_data_file.old ∷ old_exclusions_file.old ∷ new_data_file.old ∷ new_exclusions_file.old ∷ [])
        (old_data_file.new ∷ old_exclusions_file.new ∷ new_data_file.new ∷ new_exclusions_file.new ∷ [])) (stream_of O.contents output.old output.new)
        (stream_of E.contents error.old error.new) result }
{
    let made = audit::made_of_versions(
        alloc,
        old_data_file,
        old_exclusions_file,
        new_data_file,
        new_exclusions_file,
    );
    finish(alloc, output, error, made)
}
