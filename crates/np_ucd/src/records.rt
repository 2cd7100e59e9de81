//! The records of UnicodeData.txt.
ghost use Rattle.std.specs.Prelude.{◌≡◌, ◌≢◌, ◌∷◌, ◌⊎◌, length, option_map, ◌==◌, IfOk, IfErr, IfSome, IsTrue, MatchOption, Some, None};
ghost use Rattle.std.specs.List.{list_all};
ghost use Rattle.np_code_points.specs.inside.LineCuts.{is_other};
ghost use Rattle.np_ucd.specs.RowValues.{entry_of};
ghost use Rattle.np_ucd.specs.inside.FieldReading.{fields_of as parts};
ghost use Rattle.np_ucd.specs.inside.RecordReading.{IsPlain, plain_entry, field, is_at_most as at_most, is_open as open_before, differs as differ};
ghost use Rattle.np_ucd.specs.inside.RecordReading.{late_tests, first_that_fits, first_code as first, record_fault, neighbour_of, row_of};
ghost use Rattle.np_ucd.specs.inside.RecordValues.{neighbour_value, IsHead, IsMemoryOr};
ghost use lib.Utf8.{scalar};

use crate::faults::UcdFault;
use crate::fields::{category_of, class_of, closes_range, opens_range};
use crate::mappings::read_mapping;
use crate::rows::{MapKind, Row};
use np_code_points::codes::code_of;
use np_code_points::lines::{count, cut, cut_short};
use smallvec::SmallVec;
use std::alloc::Global;

/// What the next record is held against.
#[derive(Clone, Copy)]
pub(crate) struct Neighbour {
    pub line: u64,
    pub code: u32,
    pub category: [u8; 2],
    pub class: u8,
    pub opens: bool,
}

/// The fields that are read.
#[derive(Clone, Copy)]
struct Fields<'a> {
    code: &'a [u8],
    name: &'a [u8],
    category: &'a [u8],
    class: &'a [u8],
    mapping: &'a [u8],
}

/// A record but for its mapping, which is not read yet.
#[derive(Clone, Copy)]
struct Head<'a> {
    neighbour: Neighbour,
    closes: bool,
    mapping: &'a [u8],
}

/// A record, with the row that it ends.
#[derive(Drop)]
pub(crate) struct Record {
    pub neighbour: Neighbour,
    pub row: Row,
}

/// The first field, and what is behind its `;`.
fn next_field(rest: &[u8]) -> Option<(&[u8], &[u8])>
    ensures { MatchOption result (length (parts rest.now) ≡ 1) (λ p. parts rest.now ≡ p.0.now ∷ parts p.1.now) }
{
    let (field, rest) = cut(rest, b';');
    Some((field, rest?))
}

/// The first field, and what is behind its `;`, where the field is short as a rule.
fn next_short_field(rest: &[u8]) -> Option<(&[u8], &[u8])>
    ensures { MatchOption result (length (parts rest.now) ≡ 1) (λ p. parts rest.now ≡ p.0.now ∷ parts p.1.now) }
{
    let (field, rest) = cut_short(rest, b';');
    Some((field, rest?))
}

/// Whether no `;` is among these bytes.
#[inline(always)]
fn has_no_divider(bytes: &[u8]) -> bool
    ensures { result ≡ list_all (is_other 59) bytes.now }
{
    bytes.iter().all(|b| *b != b';')
}

/// The first field, where it has `N` bytes, and what is behind its `;`.
#[inline(always)]
fn field_of_length<const N: usize>(rest: &[u8]) -> Option<(&[u8], &[u8])>
    ensures { IfSome result (λ p. parts rest.now ≡ p.0.now ∷ parts p.1.now) }
{
    if rest.len() > N && rest[N] == b';' && has_no_divider(&rest[..N]) {
        Some((&rest[..N], &rest[N + 1..]))
    } else {
        None
    }
}

/// The field of a code point, and what is behind its `;`. It has four or five bytes as a rule.
fn next_code(rest: &[u8]) -> Option<(&[u8], &[u8])>
    ensures { MatchOption result (length (parts rest.now) ≡ 1) (λ p. parts rest.now ≡ p.0.now ∷ parts p.1.now) }
{
    if let Some(cut) = field_of_length::<4>(rest) {
        return Some(cut);
    }
    if let Some(cut) = field_of_length::<5>(rest) {
        return Some(cut);
    }
    next_field(rest)
}

/// The first field, and what is behind its `;`, where the field has `N` bytes as a rule.
#[inline(always)]
fn next_field_of<const N: usize>(rest: &[u8]) -> Option<(&[u8], &[u8])>
    ensures { MatchOption result (length (parts rest.now) ≡ 1) (λ p. parts rest.now ≡ p.0.now ∷ parts p.1.now) }
{
    match field_of_length::<N>(rest) {
        Some(cut) => Some(cut),
        None => next_short_field(rest),
    }
}

/// Whether a text is this one.
fn is_text(text: &[u8], wanted: &[u8]) -> bool
    ensures { IsTrue result → text.now ≡ wanted.now }
{
    text.len() == wanted.len() && text.starts_with(wanted)
}

/// Whether these are the last nine fields of nearly every record: of them Bidi_Mirrored alone is
/// filled.
fn are_usual(rest: &[u8]) -> bool
    ensures { IsTrue result → (length (parts rest.now) ≡ 9) }
{
    is_text(rest, b";;;N;;;;;")
}

/// Whether there are nine fields, as behind the mapping. Those of most records need no counting.
fn has_nine(rest: &[u8]) -> bool
    ensures { result ≡ (length (parts rest.now) == 9) }
{
    are_usual(rest) || count(rest, b';') == 8
}

/// The class and the mapping of twelve fields, as behind the category.
fn cut_twelve(text: &[u8]) -> Option<(&[u8], &[u8])>
    ensures { MatchOption result (length (parts text.now) ≢ 12)
        (λ p. (length (parts text.now) ≡ 12) × (p.0.now ≡ field 0 text.now) × (p.1.now ≡ field 2 text.now)) }
{
    let (class, rest) = next_field_of::<1>(text)?;
    let (_bidi, rest) = next_short_field(rest)?;
    let (mapping, rest) = next_short_field(rest)?;
    if has_nine(rest) {
        Some((class, mapping))
    } else {
        None
    }
}

/// The class and the mapping among the fields behind the name. Half of the records are letters without a
/// mapping, whose fields need no cutting.
fn class_and_mapping(text: &[u8]) -> Option<(&[u8], &[u8])>
    ensures { MatchOption result (length (parts text.now) ≢ 12)
        (λ p. (length (parts text.now) ≡ 12) × (p.0.now ≡ field 0 text.now) × (p.1.now ≡ field 2 text.now)) }
{
    if is_text(text, b"0;L;;;;;N;;;;;") {
        Some((&text[..1], &[]))
    } else {
        cut_twelve(text)
    }
}

/// The fields of a line that has fifteen.
fn fields_of(text: &[u8]) -> Option<Fields<'_>>
    ensures { MatchOption result (length (parts text.now) ≢ 15)
        (λ f. (length (parts text.now) ≡ 15) × (f.code.now ≡ field 0 text.now) × (f.name.now ≡ field 1 text.now)
        × (f.category.now ≡ field 2 text.now) × (f.class.now ≡ field 3 text.now) × (f.mapping.now ≡ field 5 text.now)) }
{
    let (code, rest) = next_code(text)?;
    let (name, rest) = next_field(rest)?;
    let (category, rest) = next_field_of::<2>(rest)?;
    let (class, mapping) = class_and_mapping(rest)?;
    Some(Fields {
        code,
        name,
        category,
        class,
        mapping,
    })
}

/// Whether a code point is not greater than that of the record before.
fn is_at_most(code: u32, before: Option<Neighbour>) -> bool
    ensures { result ≡ at_most code (option_map neighbour_value before) }
{
    match before {
        Some(before) => code <= before.code,
        None => false,
    }
}

/// A record but for its mapping, or its fault where that stands in front of the mapping's.
fn read_head(before: Option<Neighbour>, line: u64, text: &[u8]) -> Result<Head<'_>, UcdFault>
    ensures ok { IfOk result (λ h. IsHead (option_map neighbour_value before) line text.now (neighbour_value h.neighbour) h.closes h.mapping.now) }
    ensures fault { IfErr result (λ e. record_fault (option_map neighbour_value before) line text.now ≡ Some e) }
{
    let Some(fields) = fields_of(text) else {
        return Err(UcdFault::FieldCount { line });
    };
    let Some(code) = code_of(fields.code) else {
        return Err(UcdFault::BadCode { line });
    };
    if is_at_most(code, before) {
        return Err(UcdFault::OutOfOrder { line });
    }
    let Some(category) = category_of(fields.category) else {
        return Err(UcdFault::BadCategory { line });
    };
    let Some(class) = class_of(fields.class) else {
        return Err(UcdFault::BadClass { line });
    };
    let neighbour = Neighbour {
        line,
        code,
        category,
        class,
        opens: opens_range(fields.name),
    };
    Ok(Head {
        neighbour,
        closes: closes_range(fields.name),
        mapping: fields.mapping,
    })
}

/// Whether the record before begins a range.
fn is_open(before: Option<Neighbour>) -> bool
    ensures { result ≡ open_before (option_map neighbour_value before) }
{
    match before {
        Some(before) => before.opens,
        None => false,
    }
}

/// Whether category or class are not those of the record before.
fn differs(before: Option<Neighbour>, neighbour: Neighbour) -> bool
    ensures { result ≡ differ (option_map neighbour_value before) (neighbour_value neighbour) }
{
    match before {
        Some(before) => { neighbour.category != before.category || neighbour.class != before.class }
        None => false,
    }
}

/// Whether a code point is no surrogate.
fn is_scalar(code: u32) -> bool
    ensures { result ≡ scalar code }
{
    char::from_u32(code).is_some()
}

/// The fault of a record whose fields can all be read.
fn late_fault(
    before: Option<Neighbour>,
    neighbour: Neighbour,
    closes: bool,
    maps: bool,
) -> Option<UcdFault>
    ensures { result ≡ first_that_fits (late_tests (option_map neighbour_value before) (neighbour_value neighbour) closes maps) }
{
    let line = neighbour.line;
    if maps && !is_scalar(neighbour.code) {
        Some(UcdFault::BadMapping { line })
    } else if is_open(before) && !closes {
        Some(UcdFault::RangeOpen { line })
    } else if closes && !is_open(before) {
        Some(UcdFault::RangeLone { line })
    } else if closes && differs(before, neighbour) {
        Some(UcdFault::RangeDiffers { line })
    } else if (neighbour.opens || closes) && maps {
        Some(UcdFault::RangeMaps { line })
    } else {
        None
    }
}

/// The first code point of the row that a record ends.
fn first_code(before: Option<Neighbour>, closes: bool, code: u32) -> u32
    ensures { result ≡ first (option_map neighbour_value before) closes code }
{
    match before {
        Some(before) if closes => before.code,
        _ => code,
    }
}

/// Whether a record has no mapping, and neither is part of a range nor stands where one is open. Nearly
/// all records are such.
fn is_plain(before: Option<Neighbour>, head: Head<'_>) -> bool
    ensures { IsTrue result → IsPlain (option_map neighbour_value before) head.entry.neighbour.opens head.entry.closes head.entry.mapping.now }
{
    head.mapping.is_empty() && !head.neighbour.opens && !head.closes && !is_open(before)
}

/// The row of a code point by itself that has no mapping.
fn plain_row(alloc: Global, code: u32, class: u8) -> Row
    ensures { entry_of result ≡ plain_entry code class }
{
    Row {
        first: code,
        last: code,
        class,
        kind: MapKind::Plain,
        mapping: SmallVec::new(alloc),
    }
}

/// The record of a line behind the record before, or its fault.
pub(crate) fn read_record(
    alloc: Global,
    before: Option<Neighbour>,
    line: u64,
    text: &[u8],
) -> Result<Record, UcdFault>
    ensures fine { IfOk result (λ r. record_fault (option_map neighbour_value before) line text.now ≡ None) }
    ensures neighbour { IfOk result (λ r. neighbour_value r.neighbour ≡ neighbour_of line text.now) }
    ensures row { IfOk result (λ r. entry_of r.row ≡ row_of (option_map neighbour_value before) text.now) }
    ensures fault { IfErr result (λ e. IsMemoryOr (record_fault (option_map neighbour_value before) line text.now) e) }
{
    let head = read_head(before, line, text)?;
    if is_plain(before, head) {
        let neighbour = head.neighbour;
        let row = plain_row(alloc, neighbour.code, neighbour.class);
        return Ok(Record { neighbour, row });
    }
    let Some(mapping) = read_mapping(alloc, head.mapping)? else {
        return Err(UcdFault::BadMapping { line });
    };
    let neighbour = head.neighbour;
    let maps = !mapping.codes.is_empty();
    if let Some(fault) = late_fault(before, neighbour, head.closes, maps) {
        return Err(fault);
    }
    let row = Row {
        first: first_code(before, head.closes, neighbour.code),
        last: neighbour.code,
        class: neighbour.class,
        kind: mapping.kind,
        mapping: mapping.codes,
    };
    Ok(Record { neighbour, row })
}
