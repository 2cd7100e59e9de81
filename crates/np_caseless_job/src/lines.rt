//! The line that is told on a refusal.
ghost use Rattle.std.specs.Prelude.{◌≡◌, false, IfOk, OnErr};
ghost use Rattle.np_caseless_job.specs.Tellings as tellings;
ghost use Rattle.np_caseless_job.specs.Tellings.{caseless_telling, folded_telling};
ghost use Rattle.np_jobs.specs.Lines.{line_bytes};

use crate::faults::{CaselessFault, FoldedFault};
use np_caseless::{ConditionFault, FoldedBreak};
use np_code_points::Memory;
use np_foldings::FoldingFault;
use np_jobs::{JobFault, Line, MEMORY, OUT_OF_MEMORY, code_text, line_of, write_kind};
use std::alloc::Global;

/// The line on CaseFolding.txt.
fn folding_line(alloc: Global, version: usize, fault: &FoldingFault) -> Result<Line, Memory>
    ensures line { IfOk result (λ line. line_bytes line ≡ tellings.folding_line version fault.now) }
{
    let name = fault.name();
    match fault.line() {
        Some(line) => Ok(Line::Made(format!(in alloc;
            "version {version} folding: line {line}: {name}\n"
        )?)),
        None => Ok(Line::Made(format!(in alloc; "version {version} folding: {name}\n")?)),
    }
}

/// The line on a version with its foldings.
fn condition_line(alloc: Global, version: usize, fault: &ConditionFault) -> Result<Line, Memory>
    ensures line { IfOk result (λ line. line_bytes line ≡ tellings.condition_line version fault.now) }
{
    let name = fault.name();
    let code = code_text(alloc, fault.code().unwrap_or(0))?;
    Ok(Line::Made(format!(in alloc; "version {version} folding: {name} {code}\n")?))
}

/// The line on three files that make no version.
fn folded_line(alloc: Global, fault: &FoldedFault) -> Result<Line, Memory>
    ensures line { IfOk result (λ line. line_bytes line ≡ (folded_telling fault.now).line) }
    ensures free { OnErr result ((folded_telling fault.now).is_fixed ≡ false) }
{
    if fault.status() == MEMORY {
        return Ok(Line::Fixed(OUT_OF_MEMORY));
    }
    match fault {
        FoldedFault::Version { fault } => line_of(alloc, &JobFault::Version { fault: *fault }),
        FoldedFault::Folding { version, fault } => folding_line(alloc, *version, fault),
        FoldedFault::Condition { version, fault } => condition_line(alloc, *version, fault),
    }
}

/// The line on a version that does not extend the one before.
fn extension_line(alloc: Global, brk: &FoldedBreak) -> Result<Line, Memory>
    ensures { IfOk result (λ line. line_bytes line ≡ (caseless_telling (CaselessFault.NotExtension brk.now)).line) }
{
    let mut text = String::from_str(alloc, "not an extension: version 1 ")?;
    write_kind(&mut text, brk.kind.name(), brk.code)?;
    Ok(Line::Made(text))
}

/// The line on a refusal, with its line end.
pub(crate) fn caseless_line(alloc: Global, fault: &CaselessFault) -> Result<Line, Memory>
    ensures line { IfOk result (λ line. line_bytes line ≡ (caseless_telling fault.now).line) }
    ensures free { OnErr result ((caseless_telling fault.now).is_fixed ≡ false) }
{
    match fault {
        CaselessFault::Folded { fault } => folded_line(alloc, fault),
        CaselessFault::NotExtension { brk } => extension_line(alloc, brk),
        CaselessFault::Memory => Ok(Line::Fixed(OUT_OF_MEMORY)),
        CaselessFault::Text { fault } => line_of(alloc, &JobFault::Text { fault: *fault }),
    }
}
