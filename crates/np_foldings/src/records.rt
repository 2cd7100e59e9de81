//! The records of CaseFolding.txt.
ghost use lib.Utf8.{scalar};
ghost use Rattle.std.specs.Prelude.{◌≡◌, true, map, Option, IfOk, IfErr, MatchResult, Some, None, Ok, Err};
ghost use Rattle.np_foldings.specs.inside.FieldReading.{mapping_value};
ghost use Rattle.np_foldings.specs.inside.RecordReading.{judged, mapped, changing, foldings_of as foldings_in};
ghost use Rattle.np_foldings.specs.inside.RecordValues.{record_of, listed, IsMemoryOr};

use crate::faults::{FoldingFault, RecordFault};
use crate::fields::fields_of;
use crate::foldings::Folding;
use crate::heads::{Head, conflicts, is_out_of_order};
use crate::mappings::read_mapping;
use crate::statuses::{Status, status_of};
use np_code_points::codes::code_of;
use smallvec::SmallVec;
use std::alloc::Global;

/// A record but for its mapping, which is not read yet.
#[derive(Clone, Copy)]
struct Begun<'a> {
    head: Head,
    mapping: &'a [u8],
}

/// A record.
#[derive(Drop)]
pub(crate) struct Record {
    pub head: Head,
    pub mapping: SmallVec<char, 2>,
}

/// A record but for its mapping, or its fault where that stands in front of the mapping's.
fn read_head(before: Option<Head>, text: &[u8]) -> Result<Begun<'_>, RecordFault>
    ensures { MatchResult result
        (λ b. judged before text.now ≡ mapped b.head (mapping_value b.head.status b.mapping.now))
        (λ fault. judged before text.now ≡ Err fault) }
{
    let Some(fields) = fields_of(text) else {
        return Err(RecordFault::FieldCount);
    };
    let Some(code) = code_of(fields.code) else {
        return Err(RecordFault::BadCode);
    };
    let Some(status) = status_of(fields.status) else {
        return Err(RecordFault::BadStatus);
    };
    let head = Head { code, status };
    if is_out_of_order(before, head) {
        return Err(RecordFault::OutOfOrder);
    }
    if conflicts(before, head) {
        return Err(RecordFault::StatusConflict);
    }
    Ok(Begun {
        head,
        mapping: fields.mapping,
    })
}

/// The record of a line behind the record before, or its fault.
pub(crate) fn read_record(
    alloc: Global,
    before: Option<Head>,
    line: u64,
    text: &[u8],
) -> Result<Record, FoldingFault>
    ensures ok { IfOk result (λ r. judged before text.now ≡ Ok (record_of r)) }
    ensures fault { IfErr result (λ e. IsMemoryOr line (judged before text.now) e) }
{
    let begun = match read_head(before, text) {
        Ok(begun) => begun,
        Err(fault) => return Err(FoldingFault::BadRecord { line, fault }),
    };
    let mapping = read_mapping(alloc, begun.head.status, begun.mapping)?;
    match mapping {
        Some(mapping) if char::from_u32(begun.head.code).is_some() => Ok(Record {
            head: begun.head,
            mapping,
        }),
        _ => Err(FoldingFault::BadRecord {
            line,
            fault: RecordFault::BadMapping,
        }),
    }
}

/// The folding from a code point to a mapping, where that is not the code point alone.
fn changed(code: u32, mapping: SmallVec<char, 2>) -> Option<Folding>
    requires { scalar code ≡ true }
    ensures { listed result ≡ changing code mapping.items }
{
    let Some(code) = char::from_u32(code) else {
        return None;
    };
    if mapping.len() == 1 && mapping[0] == code {
        None
    } else {
        Some(Folding { code, mapping })
    }
}

/// The folding of a record, where it is one that is used and does not map to itself.
pub(crate) fn folding_in(read: Record) -> Option<Folding>
    requires { scalar read.head.code ≡ true }
    ensures { listed result ≡ foldings_in (record_of read) }
{
    match read.head.status {
        Status::Common | Status::Full => changed(read.head.code, read.mapping),
        Status::Simple | Status::Turkic => None,
    }
}
