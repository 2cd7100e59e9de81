//! Mappings that hold an unassigned code point.
ghost use Rattle.std.specs.Prelude.{◌≡◌};
ghost use Rattle.std.specs.List.{list_all};
ghost use Rattle.np_versions.specs.Faults.{IsMappedToUnassigned};
ghost use Rattle.np_versions.specs.inside.FirstFaults.{IsFirst};
ghost use Rattle.np_versions.specs.Versions.{is_assigned};

use crate::characters::CharacterData;

/// Whether all code points of a mapping are assigned.
fn are_assigned(characters: &CharacterData, mapping: &[char]) -> bool
    ensures { result ≡ list_all (is_assigned characters.now) mapping.now }
{
    for part in mapping {
        if !characters.assigned(u32::from(*part)) {
            return false;
        }
    }
    true
}

/// The least code point whose mapping holds an unassigned code point.
pub(crate) fn first_lacking(characters: &CharacterData) -> Option<u32>
    ensures { IsFirst (IsMappedToUnassigned characters.now) result }
{
    for at in 0..characters.len() {
        if let Some(row) = characters.row(at) {
            if !are_assigned(characters, row.mapping) {
                return Some(row.first);
            }
        }
    }
    None
}
