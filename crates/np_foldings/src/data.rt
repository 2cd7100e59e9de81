//! CaseFolding.txt as a whole.
ghost use Rattle.std.specs.Prelude.{◌≡◌, [], map, IfOk, IfErr, OnOk, Ok};
ghost use Rattle.np_foldings.specs.FoldingValues.{folding_of};
ghost use Rattle.np_foldings.specs.inside.FileReading.{onto, line_verdict, verdict_in, head_behind};
ghost use Rattle.np_foldings.specs.inside.RecordValues.{IsMemoryOrErr};

use crate::faults::FoldingFault;
use crate::fields::text_of;
use crate::foldings::{Folding, Foldings};
use crate::heads::Head;
use crate::records::{folding_in, read_record};
use np_code_points::lines::{DataLine, DataLines};
use std::alloc::Global;

/// Reads a line behind the record before, adds its folding where it has one that is used, and
/// answers what the next record is held against.
fn take_line(
    alloc: Global,
    foldings: &mut Vec<Folding>,
    before: Option<Head>,
    line: DataLine<'_>,
) -> Result<Option<Head>, FoldingFault>
    ensures next { IfOk result (λ next. next ≡ head_behind before line.entry.text.now) }
    ensures grown { OnOk result (onto (map folding_of foldings.old.items) (line_verdict before line.entry.number line.entry.text.now)
        ≡ Ok (map folding_of foldings.new.items)) }
    ensures fault { IfErr result (λ e. IsMemoryOrErr (line_verdict before line.entry.number line.entry.text.now) e) }
{
    let text = text_of(line.text);
    if text.is_empty() {
        return Ok(before);
    }
    let record = read_record(alloc, before, line.number, text)?;
    let head = record.head;
    if let Some(folding) = folding_in(record) {
        foldings.push(folding)?;
    }
    Ok(Some(head))
}

/// Reads the foldings of a file's bytes, or finds its first fault.
fn take_lines(alloc: Global, foldings: &mut Vec<Folding>, bytes: &[u8]) -> Result<(), FoldingFault>
    requires { foldings.old.items ≡ [] }
    ensures ok { OnOk result (verdict_in bytes.now ≡ Ok (map folding_of foldings.new.items)) }
    ensures fault { IfErr result (λ e. IsMemoryOrErr (verdict_in bytes.now) e) }
{
    let mut before: Option<Head> = None;
    for line in DataLines::new(bytes) {
        before = take_line(alloc, foldings, before, line)?;
    }
    Ok(())
}

/// The foldings of a file's bytes, or its first fault, or `Memory` in place of either.
pub(crate) fn foldings_of(alloc: Global, bytes: &[u8]) -> Result<Foldings, FoldingFault>
    ensures ok { IfOk result (λ foldings. verdict_in bytes.now ≡ Ok foldings) }
    ensures fault { IfErr result (λ e. IsMemoryOrErr (verdict_in bytes.now) e) }
{
    let mut foldings = Vec::new(alloc);
    take_lines(alloc, &mut foldings, bytes)?;
    Ok(Foldings::from_foldings(alloc, foldings)?)
}
