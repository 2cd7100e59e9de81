//! The mappings of records.
ghost use Rattle.std.specs.Prelude.{◌≡◌, [], option_map, if◌then◌else◌, IfOk};
ghost use Rattle.np_ucd.specs.inside.FieldReading.{short_scalars};
ghost use Rattle.np_foldings.specs.inside.FieldReading.{mapping_value, counted};

use crate::statuses::Status;
use np_code_points::Memory;
use np_code_points::codes::scalar_of;
use np_code_points::words::{Dividers, Words};
use smallvec::SmallVec;
use std::alloc::Global;

const FULL_MOST: usize = 32;

/// Reads the code points that a text writes, and answers whether it writes at least one and at
/// most so many, and nothing else.
fn read_scalars(codes: &mut SmallVec<char, 2>, most: usize, text: &[u8]) -> Result<bool, Memory>
    requires { codes.old.items ≡ [] }
    ensures { IfOk result (λ fine. short_scalars most text.now ≡ (if fine then Some codes.new.items else None)) }
{
    for word in Words::new(text, Dividers::Spaces) {
        let Some(code) = scalar_of(word) else {
            return Ok(false);
        };
        if codes.len() >= most {
            return Ok(false);
        }
        codes.push(code)?;
    }
    Ok(!codes.is_empty())
}

/// Whether a mapping of this status may have so many code points, of those between 1 and 32.
fn is_counted(status: Status, count: usize) -> bool
    ensures { result ≡ counted status count }
{
    match status {
        Status::Full => count >= 2,
        Status::Common | Status::Simple | Status::Turkic => count == 1,
    }
}

/// The mapping of a record of this status, where the field holds one.
pub(crate) fn read_mapping(
    alloc: Global,
    status: Status,
    field: &[u8],
) -> Result<Option<SmallVec<char, 2>>, Memory>
    ensures { IfOk result (λ mapping. option_map (λ m. m.items) mapping ≡ mapping_value status field.now) }
{
    let mut codes = SmallVec::new(alloc);
    if !read_scalars(&mut codes, FULL_MOST, field)? {
        return Ok(None);
    }
    if is_counted(status, codes.len()) {
        Ok(Some(codes))
    } else {
        Ok(None)
    }
}
