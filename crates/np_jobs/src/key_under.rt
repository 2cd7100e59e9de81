//! The command `key` with `--check-under`: what a machine that lags behind has of a key.
ghost use Rattle.std.specs.Prelude.{◌≡◌, ◌∷◌, [], false, IfOk, IfErr, chars, string_bytes};
ghost use Rattle.np_chain.specs.Extension.{Extends};
ghost use Rattle.np_code_points.specs.Watched.{has_failed};
ghost use Rattle.np_jobs.specs.Chains.{LacksOne, WereBuilt, readers_of};
ghost use Rattle.np_jobs.specs.Keys.{LacksKeyOutput};
ghost use Rattle.np_jobs.specs.KeysUnder.{IsKeyUnder, MakesUnder, RefusesPair, RefusesUnder, SaysOwn};
ghost use Rattle.np_jobs.specs.Streams.{stream_of};
ghost use Rattle.np_jobs.specs.Texts.{IsMadeOfText, IsTextFault};
ghost use Rattle.np_jobs.specs.inside.UnderSteps.{MakesOfPair};

use crate::ending::JobOutput;
use crate::faults::{JobFault, TextFault, VersionFault};
use crate::key::key_of;
use crate::lines::unassigned_text;
use crate::texts::read_text;
use crate::versions::{MadeTable, read_table_of, read_version};
use np_chain::extends;
use np_code_points::watched::Watched;
use np_code_points::{Form, Memory};
use np_forms::first_unassigned_in_version;
use np_versions::{NormTable, Version};
use std::alloc::Global;
use std::io::Read;

/// What is said of a key that is its own form under a version: which code point of it that version
/// lacks, if it lacks one.
///
/// # Errors
///
/// `Memory` where memory ran out.
pub fn own_line(alloc: Global, old: &Version, key: &str) -> Result<String, Memory>
    ensures { IfOk result (λ line. SaysOwn old.now (chars key.now) (string_bytes line)) }
{
    match first_unassigned_in_version(old, key) {
        None => Ok(String::from_str(alloc, "own form\n")?),
        Some((at, code)) => unassigned_text(alloc, "own form, ", at, code),
    }
}

/// What is said of the stabilized string of a text, which is given up, under the earlier version.
fn make_own<T: NormTable>(
    alloc: Global,
    form: Form,
    old: &Version,
    table: &T,
    text: String,
) -> Result<JobOutput, TextFault>
    requires { Extends old.now (T.model table.now) }
    ensures own { IfOk result (λ m. IsKeyUnder form old.now (T.model table.now) (string_bytes text) m.is_yes (string_bytes m.text)) }
    ensures refused { IfErr result (LacksKeyOutput (T.model table.now) (string_bytes text)) }
{
    old.meets_conditions();
    table.meets_conditions();
    // The key is its own form under the old version, which is not asked for it.
    np_chain::laws::backward();
    let key = key_of(alloc, form, table, text)?;
    match own_line(alloc, old, key.as_str()) {
        Ok(text) => Ok(JobOutput { text, is_yes: true }),
        Err(_) => Err(TextFault::Memory),
    }
}

/// Reads the input, and says what the earlier version has of its key.
fn made_of_input<T: NormTable, I: Read>(
    alloc: Global,
    form: Form,
    old: &Version,
    table: &T,
    input: &mut Watched<I>,
) -> Result<JobOutput, TextFault>
    requires { Extends old.now (T.model table.now) }
    ensures made { IfOk result (λ m. IsMadeOfText (IsKeyUnder form old.now (T.model table.now))
        (stream_of I.remaining input.old input.new) m.is_yes (string_bytes m.text)) }
    ensures refused { IfErr result (IsTextFault (LacksKeyOutput (T.model table.now)) (stream_of I.remaining input.old input.new)) }
{
    let text = read_text(alloc, input)?;
    make_own(alloc, form, old, table, text)
}

/// Checks that the table's version extends the old one, and answers the input.
fn made_of_pair<T: NormTable, I: Read>(
    alloc: Global,
    form: Form,
    old: &Version,
    table: &T,
    input: &mut Watched<I>,
) -> Result<JobOutput, JobFault>
    requires { has_failed input.old ≡ false }
    ensures made { IfOk result (MakesOfPair form old.now (T.model table.now) (stream_of I.remaining input.old input.new)) }
    ensures refused { IfErr result (RefusesPair old.now (T.model table.now) (stream_of I.remaining input.old input.new)) }
{
    if let Err(brk) = extends(old, table.version()) {
        return Err(JobFault::NotExtension { version: 1, brk });
    }
    Ok(made_of_input(alloc, form, old, table, input)?)
}

/// Reads the files of both versions, the old one's first. Of the old one there is no table.
fn read_both<T: MadeTable, F: Read>(
    alloc: Global,
    old_data_file: &mut Watched<F>,
    old_exclusions_file: &mut Watched<F>,
    data_file: &mut Watched<F>,
    exclusions_file: &mut Watched<F>,
) -> Result<(Version, T), VersionFault>
    ensures built { IfOk result (λ both. WereBuilt (readers_of F.remaining
        (old_data_file.old ∷ old_exclusions_file.old ∷ data_file.old ∷ exclusions_file.old ∷ [])
        (old_data_file.new ∷ old_exclusions_file.new ∷ data_file.new ∷ exclusions_file.new ∷ [])) (both.0 ∷ T.model both.1 ∷ [])) }
    ensures refused { IfErr result (LacksOne (readers_of F.remaining
        (old_data_file.old ∷ old_exclusions_file.old ∷ data_file.old ∷ exclusions_file.old ∷ [])
        (old_data_file.new ∷ old_exclusions_file.new ∷ data_file.new ∷ exclusions_file.new ∷ []))) }
{
    data_file.clear();
    exclusions_file.clear();
    let old = read_version(alloc, 0, old_data_file, old_exclusions_file)?;
    let table: T = read_table_of(alloc, 1, data_file, exclusions_file)?;
    Ok((old, table))
}

/// Reads both versions, and answers the input.
pub(super) fn made_of_versions<T: MadeTable, F: Read, I: Read>(
    alloc: Global,
    form: Form,
    old_data_file: &mut Watched<F>,
    old_exclusions_file: &mut Watched<F>,
    data_file: &mut Watched<F>,
    exclusions_file: &mut Watched<F>,
    input: &mut Watched<I>,
) -> Result<JobOutput, JobFault>
    ensures made { IfOk result (λ m. MakesUnder form (record {
      versions = readers_of F.remaining
          (old_data_file.old ∷ old_exclusions_file.old ∷ data_file.old ∷ exclusions_file.old ∷ [])
          (old_data_file.new ∷ old_exclusions_file.new ∷ data_file.new ∷ exclusions_file.new ∷ []);
      input = stream_of I.remaining input.old input.new;
    }) m.is_yes (string_bytes m.text)) }
    ensures refused { IfErr result (RefusesUnder (record {
      versions = readers_of F.remaining
          (old_data_file.old ∷ old_exclusions_file.old ∷ data_file.old ∷ exclusions_file.old ∷ [])
          (old_data_file.new ∷ old_exclusions_file.new ∷ data_file.new ∷ exclusions_file.new ∷ []);
      input = stream_of I.remaining input.old input.new;
    })) }
{
    input.clear();
    let (old, table) = read_both::<T, F>(
        alloc,
        old_data_file,
        old_exclusions_file,
        data_file,
        exclusions_file,
    )?;
    made_of_pair(alloc, form, &old, &table, input)
}
