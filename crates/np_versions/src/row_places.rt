//! The rows of a data file by their places.
ghost use Rattle.std.specs.Prelude.{◌≡◌, ◌≢◌, ◌<◌, [], length, slice_get, Some};
ghost use Rattle.np_ucd.specs.Entries.{IsRow};
ghost use Rattle.np_ucd.specs.RowValues.{lent_entry};
ghost use Rattle.np_versions.specs.Versions.{entry_at};

use crate::characters::CharacterData;
use np_ucd::RowRef;

/// The row at a place, from 0.
pub(crate) fn row_in(characters: &CharacterData, at: usize) -> RowRef<'_>
    requires { at < length characters.now.entries }
    ensures place { slice_get characters.now.entries at ≡ Some (lent_entry result) }
    ensures row { IsRow (lent_entry result) }
    ensures first { entry_at characters.now.entries result.first ≡ Some (lent_entry result) }
{
    characters.are_in_order();
    match characters.row(at) {
        Some(row) => row,
        None => unreachable!(),
    }
}

/// The code point of a row with a mapping, which stands in a row of its own.
pub fn mapped_code(row: RowRef<'_>) -> char
    requires row { IsRow (lent_entry row) }
    requires mapped { row.mapping.now ≢ [] }
    ensures { result ≡ row.entry.first }
{
    match char::from_u32(row.first) {
        Some(code) => code,
        None => unreachable!(),
    }
}
