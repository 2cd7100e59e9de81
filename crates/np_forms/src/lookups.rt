//! What a table answers of pairs and of mappings, as functions of its version.
ghost use Rattle.std.specs.Prelude.{◌≡◌};
ghost use Rattle.np_versions.specs.inside.CompositeSearch.{composite};
ghost use Rattle.np_versions.specs.inside.FullDecompositions.{table_full};

use np_versions::NormTable;

/// The primary composite of a pair.
#[inline(always)]
pub(crate) fn composite_of<T: NormTable>(table: &T, a: char, b: char) -> Option<char>
    ensures { result ≡ composite (T.model table.now) a b }
{
    table.meets_conditions();
    table.pair(a, b)
}

/// The full decomposition of a code point; nothing where it has no mapping of that kind or is a syllable of the
/// arithmetic.
#[inline(always)]
pub(crate) fn lent<'t, T: NormTable>(table: &'t T, c: char, compat: bool) -> &'t [char]
    ensures { result.now ≡ table_full (T.model table.now) compat c }
{
    table.meets_conditions();
    table.full(c, compat)
}
