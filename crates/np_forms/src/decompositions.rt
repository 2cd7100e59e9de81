//! The full decomposition of a code point by itself.
ghost use Rattle.std.specs.Prelude.{◌∷◌, [], IfOk};
ghost use Rattle.np_versions.specs.Mappings.{IsFullDecomposition};

use crate::classes::push_codes;
use crate::decomposing::append;
use np_code_points::Memory;
use np_versions::NormTable;
use std::alloc::Global;

/// The full decomposition of a code point, canonical or where `compat` compatible (The Unicode Standard, D68 and
/// D65); the code point alone where no mapping counts.
///
/// # Errors
///
/// `Memory` where memory ran out.
pub fn full_decomposition<T: NormTable>(
    alloc: Global,
    table: &T,
    compat: bool,
    c: char,
) -> Result<Vec<char>, Memory>
    ensures { IfOk result (λ made. IsFullDecomposition (T.model table.now) compat (c ∷ []) made.items) }
{
    table.meets_conditions();
    let mut list = Vec::new(alloc);
    append(&mut list, table, table.hangul(), compat, c)?;
    let mut made = Vec::new(alloc);
    push_codes(&list, &mut made)?;
    Ok(made)
}
