//! Texts that are known to be their own forms.
ghost use Rattle.std.specs.Prelude.{chars, IsTrue};
ghost use Rattle.np_forms.specs.Assigned.{IsAssigned};
ghost use Rattle.np_forms.specs.Forms.{IsNormalForm};

use np_code_points::Form;
use np_forms::quick_check_span;
use np_versions::NormTable;

/// Whether a text is known to be its own form, and assigned. Takes no memory.
pub(crate) fn is_own_form<T: NormTable>(table: &T, wanted: Form, text: &str) -> bool
    ensures form { IsTrue result → IsNormalForm (T.model table.now) wanted (chars text.now) (chars text.now) }
    ensures assigned { IsTrue result → IsAssigned (T.model table.now) (chars text.now) }
{
    quick_check_span(table, wanted, text) == text.len()
}
