//! The functions that C calls to ask a version of code points.
ghost use Rattle.std.specs.Prelude.{◌≡◌, None, IfSome};
ghost use Rattle.np_c.specs.Codes.{IsAssignedAnswer, IsCompositeAnswer, IsDecompositionAnswer, IsPropertyAnswer};
ghost use Rattle.np_c.specs.Statuses.{alone};
ghost use Rattle.np_c.specs.Versions.{content_of, version_of};

use crate::answers::{Answer, CLOSED};
use crate::handles::Handle;
use crate::properties::{
    tell_composite, tell_first_unassigned_by, tell_property_by, write_decomposition,
};
use np_versions::NormTable;
use std::alloc::Global;

/// What the version says of a code point: its combining class (The Unicode Standard, D104), the kind of its mapping, and
/// whether it is excluded from composition. A syllable of the Hangul arithmetic has a canonical mapping.
#[unsafe(no_mangle)]
pub extern "C" fn npss_property(alloc: Global, handle: &mut Handle, code: u32) -> Answer
    ensures same { content_of handle.new ≡ content_of handle.old }
    ensures told { IfSome (version_of handle.old) (λ v. IsPropertyAnswer v code result) }
    ensures closed { version_of handle.old ≡ None → result ≡ alone 5 }
{
    match handle.take(alloc) {
        None => Answer::of(CLOSED),
        Some(content) => {
            let answer = tell_property_by(&content, code);
            handle.put(content);
            answer
        }
    }
}

/// Writes the full decomposition of a code point into the room (The Unicode Standard, D68, or D65 where `compat`).
#[unsafe(no_mangle)]
pub extern "C" fn npss_decomposition(
    alloc: Global,
    handle: &mut Handle,
    compat: bool,
    code: u32,
    room: &mut [u8],
) -> Answer
    ensures same { content_of handle.new ≡ content_of handle.old }
    ensures made { IfSome (version_of handle.old) (λ v. IsDecompositionAnswer v compat code room.old room.new result) }
    ensures closed { version_of handle.old ≡ None → (result ≡ alone 5) × (room.new ≡ room.old) }
{
    match handle.take_table(alloc) {
        None => Answer::of(CLOSED),
        Some((shared, content)) => {
            let answer = write_decomposition(alloc, &*shared.table, compat, code, room);
            handle.put_table(content, shared);
            answer
        }
    }
}

/// The primary composite of two code points (The Unicode Standard, D114).
#[unsafe(no_mangle)]
pub extern "C" fn npss_composite(
    alloc: Global,
    handle: &mut Handle,
    first: u32,
    second: u32,
) -> Answer
    ensures same { content_of handle.new ≡ content_of handle.old }
    ensures told { IfSome (version_of handle.old) (λ v. IsCompositeAnswer v first second result) }
    ensures closed { version_of handle.old ≡ None → result ≡ alone 5 }
{
    match handle.take_table(alloc) {
        None => Answer::of(CLOSED),
        Some((shared, content)) => {
            let answer = tell_composite(shared.table.version(), first, second);
            handle.put_table(content, shared);
            answer
        }
    }
}

/// The first code point of a text that the version doesn't assign.
#[unsafe(no_mangle)]
pub extern "C" fn npss_first_unassigned(alloc: Global, handle: &mut Handle, text: &[u8]) -> Answer
    ensures same { content_of handle.new ≡ content_of handle.old }
    ensures told { IfSome (version_of handle.old) (λ v. IsAssignedAnswer v text.now result) }
    ensures closed { version_of handle.old ≡ None → result ≡ alone 5 }
{
    match handle.take(alloc) {
        None => Answer::of(CLOSED),
        Some(content) => {
            let answer = tell_first_unassigned_by(&content, text);
            handle.put(content);
            answer
        }
    }
}
