//! Code points that have a lowercase, of which neither folds.
ghost use Rattle.std.specs.Prelude.{◌≡◌};
ghost use Rattle.np_caseless.specs.Faults.{IsNotFolded};
ghost use Rattle.np_caseless.specs.Folded.{folded_by};
ghost use Rattle.np_caseless.specs.inside.Unfolded.{lacks_folding as lacking};
ghost use Rattle.np_versions.specs.inside.FirstFaults.{IsFirst};

use crate::leasts::least;
use crate::quiet::is_quiet_code;
use np_foldings::{Foldings, Lowercase};
use np_versions::Version;

/// Whether the lowercase of a code point is another one and assigned, and neither of the two folds.
fn lacks_folding(version: &Version, foldings: &Foldings, pair: Lowercase) -> bool
    ensures { result ≡ lacking (folded_by version.now foldings.now) pair }
{
    if pair.lower == pair.code {
        return false;
    }
    if !version.assigned_code(pair.lower) {
        return false;
    }
    if !is_quiet_code(foldings, pair.code) {
        return false;
    }
    is_quiet_code(foldings, pair.lower)
}

/// The least code point whose lowercase is another one and assigned, where neither of the two folds.
pub(crate) fn first_not_folded(
    version: &Version,
    foldings: &Foldings,
    lowercases: &[Lowercase],
) -> Option<u32>
    ensures { IsFirst (IsNotFolded (folded_by version.now foldings.now) lowercases.now) result }
{
    let mut first: Option<u32> = None;
    for pair in lowercases {
        if lacks_folding(version, foldings, *pair) {
            first = least(first, pair.code);
        }
    }
    first
}
