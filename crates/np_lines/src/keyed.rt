//! Many lines that are made into their keys at once: the form of a text is that of its lines, one behind the other,
//! where it parts at each line's end.
ghost use Rattle.std.specs.Prelude.{◌≡◌, ◌<◌, ℕ, IsTrue, chars};
ghost use Rattle.np_lines.specs.Lines.{byte_of};
ghost use Rattle.np_lines.specs.inside.Keyed.{HasBoundariesAt, ends_in};
ghost use Rattle.np_versions.specs.Boundaries.{BeginsAtBoundary, IsYesStarter};

use crate::cuts::cut_line;
use crate::lines::{LineEnd, Wanted};
use np_code_points::Form;
use np_code_points::lines::count;
use np_versions::NormTable;

/// Whether the form is known to part before a text: it is empty, or begins with a boundary.
fn begins_apart<T: NormTable>(table: &T, form: Form, text: &str) -> bool
    ensures { IsTrue result → BeginsAtBoundary (T.model table.now) form (chars text.now) }
{
    match text.chars().next() {
        Some(c) => table.is_boundary(form, c),
        None => true,
    }
}

/// Whether the form is known to part behind each end of a line.
fn has_boundaries<T: NormTable>(table: &T, wanted: Wanted, text: &str) -> bool
    ensures { IsTrue result → HasBoundariesAt (T.model table.now) wanted text.now }
{
    let mut rest = text;
    'lines: loop {
        let Some((_line, behind)) = cut_line(rest, wanted.end) else {
            return true;
        };
        if !begins_apart(table, wanted.form, behind) {
            return false;
        }
        rest = behind;
    }
}

/// Whether the lines of a text are known to have their forms each for itself.
pub(crate) fn may_be_keyed<T: NormTable>(table: &T, wanted: Wanted, text: &str) -> bool
    ensures yes_starter { IsTrue result → IsYesStarter (T.model table.now) wanted.form (byte_of wanted.end) }
    ensures boundaries { IsTrue result → HasBoundariesAt (T.model table.now) wanted text.now }
{
    table.ascii_passes(wanted.form) && has_boundaries(table, wanted, text)
}

/// Whether as many lines end in one text as in another.
pub(crate) fn end_as_many(end: LineEnd, keys: &str, lines: &str) -> bool
    ensures { IsTrue result → ends_in end keys.now ≡ ends_in end lines.now }
{
    count(keys.as_bytes(), end.byte()) == count(lines.as_bytes(), end.byte())
}
