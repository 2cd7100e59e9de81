//! The code points that have a mapping in the file. Most rows have none: so they are gone through once.
ghost use Rattle.std.specs.Prelude.{◌≡◌, IfNone, IfOk, IfSome};
ghost use Rattle.np_caseless.specs.inside.FirstFaults.{AreMapped, HasNoMapping};

use np_code_points::Memory;
use np_versions::NormTable;
use std::alloc::Global;

/// The first code point of a row, unless it is known to have no mapping, or one of the arithmetic.
fn mapped_in<T: NormTable>(table: &T, first: u32) -> Option<char>
    ensures none { IfNone result (HasNoMapping (T.model table.now) first) }
    ensures some { IfSome result (λ code. code ≡ first) }
{
    table.meets_conditions();
    let Some(code) = char::from_u32(first) else {
        return None;
    };
    if table.full(code, true).is_empty() {
        return None;
    }
    Some(code)
}

/// The first code points of the rows that have a mapping, in their order.
pub(crate) fn mapped_codes<T: NormTable>(alloc: Global, table: &T) -> Result<Vec<char>, Memory>
    ensures { IfOk result (λ codes. AreMapped (T.model table.now) codes.items) }
{
    let mut codes = Vec::new(alloc);
    for at in 0..table.version().row_count() {
        let first = table.version().row_in(at).first;
        if let Some(code) = mapped_in(table, first) {
            codes.push(code)?;
        }
    }
    Ok(codes)
}
