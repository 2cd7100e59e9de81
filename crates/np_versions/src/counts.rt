//! How many code points are assigned.
ghost use Rattle.std.specs.Prelude.{◌≡◌};
ghost use Rattle.np_versions.specs.Counts.{assigned_count as spec_assigned_count};

use crate::characters::CharacterData;

/// How many code points the rows list.
pub(crate) fn assigned_count(characters: &CharacterData) -> u32
    ensures { result ≡ spec_assigned_count characters.now }
{
    let mut count = 0;
    for at in 0..characters.len() {
        if let Some(row) = characters.row(at) {
            count += row.last - row.first + 1;
        }
    }
    count
}
