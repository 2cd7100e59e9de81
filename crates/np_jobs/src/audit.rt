//! The command `audit`: what a later version breaks of an earlier one.
ghost use Rattle.std.specs.Prelude.{◌≡◌, ◌∷◌, [], IfOk, IfErr, string_bytes};
ghost use Rattle.np_jobs.specs.Audits.{IsAudit, MakesAudit, RefusesAudit, audit_text};
ghost use Rattle.np_jobs.specs.Chains.{readers_of};
ghost use Rattle.np_jobs.specs.Streams.{stream_of};
ghost use Rattle.np_jobs.specs.inside.AuditSteps.{LacksAgainst, MakesAgainst};

use crate::ending::JobOutput;
use crate::faults::JobFault;
use crate::lines::write_break;
use crate::versions::read_version;
use np_chain::{Break, audit};
use np_code_points::Memory;
use np_code_points::watched::Watched;
use np_versions::Version;
use std::alloc::Global;
use std::io::Read;

/// The lines of the breaks.
fn lines_of(alloc: Global, breaks: &[Break]) -> Result<String, Memory>
    ensures { IfOk result (λ text. string_bytes text ≡ audit_text breaks.now) }
{
    if breaks.is_empty() {
        return Ok(String::from_str(alloc, "extends\n")?);
    }
    let mut text = String::new(alloc);
    for found in breaks {
        write_break(&mut text, found)?;
    }
    Ok(text)
}

/// All that the new version breaks of the old one, as text, and whether that is nothing.
fn make_audit(alloc: Global, old: &Version, new: &Version) -> Result<JobOutput, Memory>
    ensures { IfOk result (λ m. IsAudit old.now new.now m.is_yes (string_bytes m.text)) }
{
    let breaks = audit(alloc, old, new)?;
    let text = lines_of(alloc, breaks.as_slice())?;
    Ok(JobOutput {
        text,
        is_yes: breaks.is_empty(),
    })
}

/// The same, or why a job is refused.
fn audited(alloc: Global, old: &Version, new: &Version) -> Result<JobOutput, JobFault>
    ensures made { IfOk result (λ m. IsAudit old.now new.now m.is_yes (string_bytes m.text)) }
    ensures refused { IfErr result (λ fault. fault ≡ JobFault.Memory) }
{
    match make_audit(alloc, old, new) {
        Ok(made) => Ok(made),
        Err(_) => Err(JobFault::Memory),
    }
}

/// Reads the new version, and audits it against the old one.
fn made_against<F: Read>(
    alloc: Global,
    old: &Version,
    new_data_file: &mut Watched<F>,
    new_exclusions_file: &mut Watched<F>,
) -> Result<JobOutput, JobFault>
    ensures made { IfOk result (MakesAgainst old.now
        (stream_of F.remaining new_data_file.old new_data_file.new) (stream_of F.remaining new_exclusions_file.old new_exclusions_file.new)) }
    ensures refused { IfErr result (LacksAgainst
        (stream_of F.remaining new_data_file.old new_data_file.new) (stream_of F.remaining new_exclusions_file.old new_exclusions_file.new)) }
{
    match read_version(alloc, 1, new_data_file, new_exclusions_file) {
        Ok(new) => audited(alloc, old, &new),
        Err(fault) => Err(JobFault::Version { fault }),
    }
}

/// Reads both versions, and audits the new one against the old one.
pub(super) fn made_of_versions<F: Read>(
    alloc: Global,
    old_data_file: &mut Watched<F>,
    old_exclusions_file: &mut Watched<F>,
    new_data_file: &mut Watched<F>,
    new_exclusions_file: &mut Watched<F>,
) -> Result<JobOutput, JobFault>
    ensures made { IfOk result (λ m. MakesAudit (readers_of F.remaining
        (old_data_file.old ∷ old_exclusions_file.old ∷ new_data_file.old ∷ new_exclusions_file.old ∷ [])
        (old_data_file.new ∷ old_exclusions_file.new ∷ new_data_file.new ∷ new_exclusions_file.new ∷ [])) m.is_yes (string_bytes m.text)) }
    ensures refused { IfErr result (RefusesAudit (readers_of F.remaining
        (old_data_file.old ∷ old_exclusions_file.old ∷ new_data_file.old ∷ new_exclusions_file.old ∷ [])
        (old_data_file.new ∷ old_exclusions_file.new ∷ new_data_file.new ∷ new_exclusions_file.new ∷ []))) }
{
    new_data_file.clear();
    new_exclusions_file.clear();
    match read_version(alloc, 0, old_data_file, old_exclusions_file) {
        Ok(old) => made_against(alloc, &old, new_data_file, new_exclusions_file),
        Err(fault) => Err(JobFault::Version { fault }),
    }
}
