//! What code points fold to.
ghost use Rattle.std.specs.Prelude.{◌≡◌, IfOk, encode_utf8_all, string_bytes};
ghost use Rattle.np_caseless.specs.Folded.{folding_at};
ghost use Rattle.np_c.specs.FoldingCodes.{IsFoldingAnswer};

use crate::answers::{Answer, MEMORY, NO_CODE, UNASSIGNED};
use crate::room::put;
use np_caseless::FoldedTable;
use np_code_points::Memory;
use np_code_points::text::string_of;
use np_foldings::Foldings;
use np_versions::NormTable;
use std::alloc::Global;
use std::slice;

/// The bytes of what a code point folds to, itself alone too.
///
/// # Errors
///
/// `Memory` where memory ran out.
fn folding_of(alloc: Global, foldings: &Foldings, c: char) -> Result<String, Memory>
    ensures { IfOk result (λ made. string_bytes made ≡ encode_utf8_all (folding_at foldings.now c)) }
{
    match foldings.find(c) {
        Some(mapping) => string_of(alloc, mapping),
        None => string_of(alloc, slice::from_ref(&c)),
    }
}

/// Writes what a code point folds to into the room.
pub fn write_folding<T: NormTable + Drop>(
    alloc: Global,
    folded: &FoldedTable<T>,
    code: u32,
    room: &mut [u8],
) -> Answer
    ensures { IsFoldingAnswer folded.now code room.old room.new result }
{
    let Some(c) = char::from_u32(code) else {
        return Answer::of(NO_CODE);
    };
    if !folded.table().assigned(c) {
        return Answer {
            code,
            ..Answer::of(UNASSIGNED)
        };
    }
    match folding_of(alloc, folded.foldings(), c) {
        Ok(made) => put(made.as_bytes(), room),
        Err(_) => Answer::of(MEMORY),
    }
}
