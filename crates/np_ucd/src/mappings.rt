//! The mappings of records.
ghost use Rattle.std.specs.Prelude.{◌≡◌, [], option_map, if◌then◌else◌, IfOk};
ghost use Rattle.np_ucd.specs.inside.FieldReading.{short_scalars, listed_mapping, mapping_value};
ghost use Rattle.np_ucd.specs.inside.MappingValues.{mapping_of};

use crate::rows::MapKind;
use np_code_points::Memory;
use np_code_points::codes::scalar_of;
use np_code_points::lines::cut;
use np_code_points::words::{Dividers, Words, after_dividers};
use smallvec::SmallVec;
use std::alloc::Global;

const CANONICAL_MOST: usize = 2;

const COMPATIBILITY_MOST: usize = 32;

/// A mapping and its kind.
#[derive(Drop)]
pub(crate) struct Mapping {
    pub kind: MapKind,
    pub codes: SmallVec<char, 2>,
}

/// Reads the code points that a text writes, and answers whether it writes at least one and at
/// most so many, and nothing else.
fn read_scalars(codes: &mut SmallVec<char, 2>, most: usize, text: &[u8]) -> Result<bool, Memory>
    requires { codes.old.items ≡ [] }
    ensures { IfOk result (λ fine. short_scalars most text.now ≡ (if fine then Some codes.new.items else None)) }
{
    for word in Words::new(text, Dividers::Spaces) {
        let Some(code) = scalar_of(word) else {
            return Ok(false);
        };
        if codes.len() >= most {
            return Ok(false);
        }
        codes.push(code)?;
    }
    Ok(!codes.is_empty())
}

/// The mapping that a text lists.
fn listed(alloc: Global, kind: MapKind, most: usize, text: &[u8]) -> Result<Option<Mapping>, Memory>
    ensures { IfOk result (λ mapping. option_map mapping_of mapping ≡ listed_mapping kind most text.now) }
{
    let mut codes = SmallVec::new(alloc);
    if read_scalars(&mut codes, most, text)? {
        Ok(Some(Mapping { kind, codes }))
    } else {
        Ok(None)
    }
}

/// A Decomposition_Type and Decomposition_Mapping, where the field holds one.
pub(crate) fn read_mapping(alloc: Global, field: &[u8]) -> Result<Option<Mapping>, Memory>
    ensures { IfOk result (λ mapping. option_map mapping_of mapping ≡ mapping_value field.now) }
{
    let text = after_dividers(field, Dividers::Spaces);
    if text.is_empty() {
        return Ok(Some(Mapping {
            kind: MapKind::Plain,
            codes: SmallVec::new(alloc),
        }));
    }
    if text[0] != b'<' {
        return listed(alloc, MapKind::Canonical, CANONICAL_MOST, text);
    }
    let (_tag, rest) = cut(&text[1..], b'>');
    match rest {
        Some(rest) => listed(alloc, MapKind::Compatibility, COMPATIBILITY_MOST, rest),
        None => Ok(None),
    }
}
