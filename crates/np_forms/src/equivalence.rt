//! Canonical and compatibility equivalence (The Unicode Standard, D70 and D67).
ghost use Rattle.std.specs.Prelude.{◌≡◌, ◌↔◌, false, IsTrue, chars, IfOk};
ghost use Rattle.np_code_points.specs.Forms.{composes, is_compat};
ghost use Rattle.np_forms.specs.Forms.{IsEquivalent};

use crate::pieces::{are_same, have_same_form};
use np_code_points::{Form, Memory};
use np_versions::NormTable;
use std::alloc::Global;

/// The form that decomposes by this kind of mappings and does not compose.
fn decomposing_form(compat: bool) -> Form
    ensures kind { is_compat result ≡ compat }
    ensures decomposes { composes result ≡ false }
{
    if compat { Form::Nfkd } else { Form::Nfd }
}

/// Whether two texts are equivalent: compatible where `compat`, else canonical equivalents. Takes
/// memory for their longest parts at a time, and none where the texts are the same.
///
/// # Errors
///
/// `Memory` where memory ran out.
pub fn equivalent<T: NormTable>(
    alloc: Global,
    table: &T,
    compat: bool,
    left: &str,
    right: &str,
) -> Result<bool, Memory>
    ensures { IfOk result (λ b. IsTrue b ↔ IsEquivalent (T.model table.now) compat (chars left.now) (chars right.now)) }
{
    table.meets_conditions();
    if are_same(left.as_bytes(), right.as_bytes()) {
        return Ok(true);
    }
    have_same_form(alloc, table, decomposing_form(compat), left, right)
}
