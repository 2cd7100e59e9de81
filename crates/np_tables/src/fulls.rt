//! The full decompositions of the code points of a data file.
ghost use Rattle.std.specs.Prelude.{◌≡◌, ◌≢◌, ◌&&◌, ◌++◌, ◌<◌, ◌∷◌, [], not, length, map, slice_index_or, if◌then◌else◌, true, false, IfOk, IfSome, IfNone, IsTrue, Some};
ghost use Rattle.np_code_points.specs.Hangul.{is_syllable, syllable_pair};
ghost use Rattle.np_ucd.specs.Entries.{IsRow};
ghost use Rattle.np_ucd.specs.RowValues.{lent_entry};
ghost use Rattle.np_versions.specs.Mappings.{counts};
ghost use Rattle.np_versions.specs.inside.FullDecompositions.{full, table_full};
ghost use Rattle.np_tables.specs.inside.FullLists.{row_full};
ghost use Rattle.np_tables.specs.inside.FullRanges.{AreCodeRanges, IsGrown, code_range_of};
ghost use Rattle.np_versions.specs.Versions.{entry_at, file_kind, file_mapping, has_hangul, is_empty};

use np_code_points::Memory;
use np_code_points::hangul::hangul_parts;
use np_ucd::{MapKind, RowRef};
use np_versions::{Version, mapped_code};
use std::alloc::Global;
use std::marker::Model;

/// The greatest depth of a mapping.
const DEPTH: usize = 32;

/// A range of a flat list: from the place `start` up to the place `end`.
#[derive(Clone, Copy)]
pub(crate) struct CodeRange {
    /// The place of its first code point.
    pub start: usize,
    /// The place behind its last one.
    pub end: usize,
}

/// What a table lends for the code point of each row, in one flat list.
#[derive(Drop)]
pub(crate) struct Fulls {
    pub(crate) codes: Vec<char>,
    pub(crate) canonical: Vec<CodeRange>,
    pub(crate) compatible: Vec<CodeRange>,
}

impl Model for Fulls {
    ghost use Rattle.std.specs.Prelude.{map};
    ghost use Rattle.np_tables.specs.inside.FullLists.{FullLists};

    ghost Value = { FullLists };

    ghost use Rattle.np_tables.specs.inside.FullRanges.{code_range_of, AreCodeRanges};

    ghost view = { λ a. record {
      canonical = map (code_range_of a.codes.items) a.canonical.items;
      compatible = map (code_range_of a.codes.items) a.compatible.items;
    } };

    ghost invariant = { λ a. AreCodeRanges a.codes.items a.canonical.items × AreCodeRanges a.codes.items a.compatible.items };
}

impl Fulls {
    ghost use Rattle.np_tables.specs.inside.FullLists.{AreFulls, of_kind};

    /// Those of the rows of a data file.
    #[tactic(auto, using(crate::proofs::FullListLemmas::lists_grown))]
    pub(crate) fn new(alloc: Global, version: &Version) -> Result<Fulls, Memory>
        ensures { IfOk result (AreFulls version.now) }
    {
        let mut codes = Vec::new(alloc);
        let canonical = full_ranges(alloc, version, false, &mut codes)?;
        let compatible = full_ranges(alloc, version, true, &mut codes)?;
        Ok(Fulls {
            codes,
            canonical,
            compatible,
        })
    }

    /// How many slots there are.
    pub(crate) fn count(&self, compat: bool) -> usize
        ensures { result ≡ length (of_kind compat self.now) }
    {
        if compat {
            self.compatible.len()
        } else {
            self.canonical.len()
        }
    }

    /// What is lent for a slot, from 0.
    pub(crate) fn lent(&self, at: usize, compat: bool) -> &[char]
        requires { at < length (of_kind compat self.now) }
        ensures { result.now ≡ slice_index_or (of_kind compat self.now) at [] }
    {
        let parts = if compat {
            &self.compatible
        } else {
            &self.canonical
        };
        let part = parts[at];
        &self.codes[part.start..part.end]
    }
}

/// Whether mappings of a kind count in a decomposition, canonical or compatible.
fn kind_counts(kind: MapKind, compat: bool) -> bool
    ensures { result ≡ counts compat kind }
{
    match kind {
        MapKind::Plain => false,
        MapKind::Canonical => true,
        MapKind::Compatibility => compat,
    }
}

/// The mapping in the file, where it counts.
fn counted_mapping<'a>(version: &'a Version, compat: bool, code: char) -> &'a [char]
    ensures { result.now ≡ (if counts compat (file_kind version.now code) then file_mapping version.now code else []) }
{
    let number = u32::from(code);
    if kind_counts(version.kind_of(number), compat) {
        version.mapping_of(number)
    } else {
        &[]
    }
}

/// The pair of a syllable of the arithmetic.
fn arithmetic_parts(version: &Version, code: char) -> Option<(char, char)>
    ensures none { IfNone result ((has_hangul version.now && is_syllable code) ≡ false) }
    ensures some { IfSome result (λ p. (has_hangul version.now && is_syllable code) ≡ true) }
    ensures pair { IfSome result (λ p. syllable_pair code ≡ p.0 ∷ p.1 ∷ []) }
{
    if version.has_hangul() {
        hangul_parts(code)
    } else {
        None
    }
}

/// Appends the full decomposition of a code point whose depth is at most `depth`.
fn expand(
    version: &Version,
    compat: bool,
    depth: usize,
    code: char,
    out: &mut Vec<char>,
) -> Result<(), Memory>
    ensures { IfOk result (λ _. out.new.items ≡ out.old.items ++ full version.now compat depth code) }
{
    if depth == 0 {
        out.push(code)?;
        return Ok(());
    }
    if let Some((first, second)) = arithmetic_parts(version, code) {
        expand(version, compat, depth - 1, first, out)?;
        return expand(version, compat, depth - 1, second, out);
    }
    let mapping = counted_mapping(version, compat, code);
    if mapping.is_empty() {
        out.push(code)?;
        return Ok(());
    }
    for part in mapping {
        expand(version, compat, depth - 1, *part, out)?;
    }
    Ok(())
}

/// Whether a table lends something for the code point of a row.
pub(crate) fn is_lent(row: RowRef<'_>, compat: bool) -> bool
    ensures mapped { IsTrue result → row.entry.mapping.now ≢ [] }
    ensures value { result ≡ (counts compat row.entry.kind && not (is_empty row.entry.mapping.now)) }
{
    kind_counts(row.kind, compat) && !row.mapping.is_empty()
}

/// Appends what a table lends for the code point of a row.
pub(crate) fn push_full(
    version: &Version,
    compat: bool,
    row: RowRef<'_>,
    codes: &mut Vec<char>,
) -> Result<(), Memory>
    requires row { IsRow (lent_entry row) }
    requires first { entry_at version.now.entries row.first ≡ Some (lent_entry row) }
    ensures { IfOk result (λ _. codes.new.items ≡ codes.old.items ++ table_full version.now compat row.entry.first) }
{
    if is_lent(row, compat) {
        expand(version, compat, DEPTH, mapped_code(row), codes)?;
    }
    Ok(())
}

/// Appends what a table lends for the code point of each row, and answers the ranges.
fn full_ranges(
    alloc: Global,
    version: &Version,
    compat: bool,
    codes: &mut Vec<char>,
) -> Result<Vec<CodeRange>, Memory>
    ensures grown { IfOk result (λ _. IsGrown codes.old.items codes.new.items) }
    ensures parts { IfOk result (λ parts. AreCodeRanges codes.new.items parts.items) }
    ensures lists { IfOk result (λ parts. map (code_range_of codes.new.items) parts.items ≡ map (row_full version.now compat) version.now.entries) }
{
    let mut parts = Vec::with_capacity(alloc, version.row_count())?;
    for at in 0..version.row_count() {
        let start = codes.len();
        push_full(version, compat, version.row_in(at), codes)?;
        let end = codes.len();
        parts.push(CodeRange { start, end })?;
    }
    Ok(parts)
}
