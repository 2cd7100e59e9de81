//! The command `audit`: what a later version with its foldings breaks of an earlier one.
ghost use Rattle.std.specs.Prelude.{◌≡◌, IfOk, IfErr, string_bytes};
ghost use Rattle.np_caseless_job.specs.CaselessAudits.{FoldedAuditEnds, IsFoldedAudit, MakesFoldedAudit, RefusesFoldedAudit, folded_audit_text};
ghost use Rattle.np_caseless_job.specs.FoldedVersions.{folded_readers_of};
ghost use Rattle.np_jobs.specs.Streams.{stream_of};

use crate::faults::CaselessFault;
use crate::pairs::{OpenPair, read_pair};
use np_caseless::{FoldedBreak, FoldedTable, audit};
use np_code_points::Memory;
use np_jobs::{JobOutput, JobTable, MadeTable, Streams, finish, write_kind};
use np_versions::NormTable;
use std::alloc::Global;
use std::io::{Read, Write};

/// The lines of the breaks.
fn lines_of(alloc: Global, breaks: &[FoldedBreak]) -> Result<String, Memory>
    ensures { IfOk result (λ text. string_bytes text ≡ folded_audit_text breaks.now) }
{
    if breaks.is_empty() {
        return Ok(String::from_str(alloc, "extends\n")?);
    }
    let mut text = String::new(alloc);
    for found in breaks {
        write_kind(&mut text, found.kind.name(), found.code)?;
    }
    Ok(text)
}

/// All that the new version breaks of the old one, as text, and whether that is nothing.
fn make_audit<T: NormTable + Drop>(
    alloc: Global,
    old: &FoldedTable<T>,
    new: &FoldedTable<T>,
) -> Result<JobOutput, Memory>
    ensures { IfOk result (λ m. IsFoldedAudit old.now new.now m.is_yes (string_bytes m.text)) }
{
    let breaks = audit(alloc, old, new)?;
    let text = lines_of(alloc, breaks.as_slice())?;
    Ok(JobOutput {
        text,
        is_yes: breaks.is_empty(),
    })
}

/// Reads both versions, and audits the new one against the old one.
fn made_of_pair<T: MadeTable, F: Read>(
    alloc: Global,
    pair: &mut OpenPair<F>,
) -> Result<JobOutput, CaselessFault>
    ensures made { IfOk result (λ m. MakesFoldedAudit (record {
      first = folded_readers_of F.remaining pair.old.first pair.new.first;
      second = folded_readers_of F.remaining pair.old.second pair.new.second;
    }) m.is_yes (string_bytes m.text)) }
    ensures refused { IfErr result (RefusesFoldedAudit (record {
      first = folded_readers_of F.remaining pair.old.first pair.new.first;
      second = folded_readers_of F.remaining pair.old.second pair.new.second;
    })) }
{
    let both: (FoldedTable<T>, FoldedTable<T>) = read_pair(alloc, pair)?;
    match make_audit(alloc, &both.0, &both.1) {
        Ok(made) => Ok(made),
        Err(_) => Err(CaselessFault::Memory),
    }
}

/// Writes what the new version breaks of the old one, a line for each code point that has a break, or `extends`. Answers
/// the status, 0 where the new version extends the old one and 1 where it does not.
pub(crate) fn audit_job<F: Read, I, O: Write, E: Write>(
    alloc: Global,
    pair: &mut OpenPair<F>,
    streams: &mut Streams<I, O, E>,
) -> u8
    ensures ends { FoldedAuditEnds (record {
      first = folded_readers_of F.remaining pair.old.first pair.new.first;
      second = folded_readers_of F.remaining pair.old.second pair.new.second;
    }) (stream_of O.contents streams.old.output streams.new.output) (stream_of E.contents streams.old.error streams.new.error) result }
    ensures unread { streams.new.input ≡ streams.old.input }
{
    let made = made_of_pair::<JobTable, F>(alloc, pair);
    finish(alloc, &mut streams.output, &mut streams.error, made)
}
