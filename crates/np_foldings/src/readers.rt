//! The reader of CaseFolding.txt.
ghost use Rattle.std.specs.Prelude.{◌≡◌, ◌↔◌, ℕ, List, true, Ok, IfOk, IfErr};
ghost use Rattle.np_code_points.specs.Inputs.{IsReadWhole};
ghost use Rattle.np_code_points.specs.Watched.{device_of, has_failed};
ghost use Rattle.np_foldings.specs.Verdicts.{IsVerdict};
ghost use Rattle.np_foldings.specs.Reading.{IsRefused};
ghost use Rattle.np_foldings.specs.inside.RecordValues.{IsUnread};

use crate::data::foldings_of;
use crate::faults::FoldingFault;
use crate::foldings::Foldings;
use np_code_points::input::{InputFault, read_whole};
use np_code_points::watched::Watched;
use std::alloc::Global;
use std::io::Read;

/// The bytes of a file.
fn read_file<R: Read>(alloc: Global, source: &mut Watched<R>) -> Result<Vec<u8>, FoldingFault>
    ensures read { IfOk result (λ v. IsReadWhole (R.remaining (device_of source.old)) (R.remaining (device_of source.new)) v.items) }
    ensures refused { IfErr result (IsUnread (R.remaining (device_of source.old)) (R.remaining (device_of source.new))) }
    ensures failed { result ≡ Err FoldingFault.ReadFailed ↔ (has_failed source.new ≡ true) }
{
    match read_whole(alloc, source) {
        Ok(bytes) => Ok(bytes),
        Err(InputFault::TooLarge) => Err(FoldingFault::TooLarge),
        Err(InputFault::ReadFailed) => Err(FoldingFault::ReadFailed),
        Err(InputFault::Memory) => Err(FoldingFault::Memory),
    }
}

/// Reads CaseFolding.txt (UAX #44): to its end before a line is judged, or to its 16,777,217th
/// byte. In time linear in the bytes, with memory for them and for the foldings.
///
/// # Errors
///
/// The fault of the least faulty line, and there of the first test that fits, as `RecordFault`
/// says. `TooLarge` where 16,777,217 bytes were read, `ReadFailed` where the device failed,
/// `Memory` in place of any answer.
pub fn read_foldings<R: Read>(
    alloc: Global,
    source: &mut Watched<R>,
) -> Result<Foldings, FoldingFault>
    // all bytes were read, which have no fault, and these are their foldings
    ensures foldings { IfOk result (λ foldings. (bytes : List ℕ)
        × IsReadWhole (R.remaining (device_of source.old)) (R.remaining (device_of source.new)) bytes
        × IsVerdict bytes (Ok foldings)) }
    ensures refused { IfErr result (IsRefused (R.remaining (device_of source.old)) (R.remaining (device_of source.new))) }
    ensures failed { result ≡ Err FoldingFault.ReadFailed ↔ (has_failed source.new ≡ true) }
{
    let bytes = read_file(alloc, source)?;
    foldings_of(alloc, bytes.as_slice())
}
