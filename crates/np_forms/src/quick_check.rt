//! Fronts of texts that pass the quick check (UAX #15, section 9).
ghost use Rattle.std.specs.Prelude.{chars, take};
ghost use Rattle.std.specs.Str.{IsCharBoundary};
ghost use Rattle.np_forms.specs.Parts.{IsEachPartStable};

use np_code_points::Form;
use np_versions::NormTable;

/// How many bytes at the front of a text pass the quick check: each part of that front is its own stabilized string
/// (UAX #15, sections 9 and 12). They are as many as the table can tell, down to 0. Takes no memory.
#[inline(always)]
pub fn quick_check_span<T: NormTable>(table: &T, wanted: Form, text: &str) -> usize
    ensures boundary { IsCharBoundary text.now result }
    ensures stable { IsEachPartStable (T.model table.now) wanted (chars (take result text.now)) }
{
    table.meets_conditions();
    // whether a boundary is behind the front is of no account: each part of it is stable whatever follows
    table.quick_span(wanted, true, text).count
}
