//! The table of pages: properties of each code point in blocks of 256, one flat list of full
//! decompositions, and one sorted list of pairs.
ghost use Rattle.std.specs.Prelude.{◌≡◌, true, IfOk};
ghost use Rattle.np_code_points.specs.declared.forms.Form.{Form};
ghost use Rattle.np_tables.specs.inside.DoubtfulLeads.{AreSafe, row_of};
ghost use Rattle.np_tables.specs.inside.LeadingConsonants.{AreLeadingBoundaries};
ghost use Rattle.np_tables.specs.inside.PageProperties.{ArePages, IsAsciiYes};
ghost use Rattle.np_tables.specs.inside.PrecomputedTables.{ArePrecomputedTables};
ghost use Rattle.np_tables.specs.inside.QuickChecks.{all_quick_checks as spec_all_quick_checks};

use crate::doubtful_leads::{DoubtfulLeads, doubtful_leads};
use crate::fulls::Fulls;
use crate::leading_consonants::are_leading_boundaries;
use crate::page_hints::boundary_place;
use crate::page_properties::{
    Properties, all_row_properties, page_properties, properties_of, second_rows,
};
use crate::page_slots::slots_of;
use crate::precomputed_tables::PrecomputedTables;
use crate::property_bits::has_bit;
use crate::quick_checks::{all_quick_checks, is_ascii_yes, least_quick_check};
use crate::scans::Scan;
use np_code_points::{Form, Memory};
use np_versions::{NormTable, PrecomputedForm, QuickSpan, Version};
use std::alloc::Global;
use std::fmt;
use std::marker::Model;

/// The fast table. A code point's block is found by its number divided by 256; blocks without an assigned code point
/// are one shared block, and blocks in the midst of a range another. Its properties tell the class, whether it is
/// assigned, whether it can be the second part of a pair, and where its full decompositions stand, which are shared
/// where both kinds are the same. Beside these is the quick check of each under the four forms, a byte for each.
///
/// It takes some 1.7 MiB beside its version for the files of Unicode 15. Each call takes constant time, but `pair`,
/// which searches by halves where the pair shares its slot with others, and `quick_span`, which reads what it counts.
#[derive(Drop)]
pub struct PageTable {
    version: Version,
    /// For each 256 code points the number of their block.
    index: Vec<u16>,
    /// The properties of each code point, block by block.
    all_properties: Vec<Properties>,
    /// The quick check of each under each form.
    quick_checks: Vec<u32>,
    /// Which bytes begin characters that need a look-up, under each form.
    doubtful: DoubtfulLeads,
    fulls: Fulls,
    /// The forms of single code points.
    precomputed: PrecomputedTables,
    /// Whether all ASCII passes under every form.
    ascii: bool,
    /// Whether each leading consonant of syllables is a boundary of every form.
    leading_consonants: bool,
    ghost are_quick_checks: { quick_checks.items ≡ spec_all_quick_checks all_properties.items },
    ghost are_safe: { (form : Form) → AreSafe form index.items quick_checks.items (row_of form doubtful) },
    ghost ascii_is_yes: { ascii ≡ true → IsAsciiYes index.items quick_checks.items },
    ghost are_leading: { leading_consonants ≡ true → AreLeadingBoundaries index.items all_properties.items },
}

impl Model for PageTable {
    ghost use Rattle.np_tables.specs.inside.PrecomputedTables.{ArePageTables};
    ghost use Rattle.np_versions.specs.Versions.{VersionData};

    ghost Value = { VersionData };

    ghost view = { λ a. a.version };

    ghost invariant = { λ a. ArePageTables a.version a.fulls a.index.items a.all_properties.items a.precomputed };
}

/// Shows how large the version is, and nothing of what is kept of it.
impl fmt::Debug for PageTable {
    fn fmt<W: fmt::Write>(&self, f: &mut fmt::Formatter<W>) -> fmt::Result {
        f.debug_struct("PageTable")
            .field("version", &self.version)
            .finish_non_exhaustive()
    }
}

/// What a table keeps of a version that is lent.
#[derive(Drop)]
struct KeptPages {
    index: Vec<u16>,
    all_properties: Vec<Properties>,
    fulls: Fulls,
    precomputed: PrecomputedTables,
}

/// What a table keeps of a version that is lent.
fn pages_of(alloc: Global, version: &Version) -> Result<KeptPages, Memory>
    ensures pages { IfOk result (λ kept. ArePages version.now kept.fulls kept.index.items kept.all_properties.items) }
    ensures precomputed { IfOk result (λ kept. ArePrecomputedTables version.now kept.fulls kept.precomputed) }
{
    version.meets_conditions();
    let pages = version.pages();
    let lent = slots_of(alloc, version)?;
    let seconds = second_rows(alloc, version)?;
    let rows = all_row_properties(alloc, version, &lent.fulls, &lent.slots, &seconds)?;
    let all_properties = page_properties(alloc, &rows, &pages.numbers)?;
    let mut index = Vec::with_capacity(alloc, pages.index.len())?;
    index.extend_from_slice(&pages.index)?;
    let precomputed = PrecomputedTables::new(alloc, version, &seconds, &lent.fulls)?;
    Ok(KeptPages {
        index,
        all_properties,
        fulls: lent.fulls,
        precomputed,
    })
}

/// What a table keeps of a version that is lent, and the quick checks.
#[derive(Drop)]
struct CheckedPages {
    pages: KeptPages,
    quick_checks: Vec<u32>,
}

/// What a table keeps of a version that is lent, and the quick checks.
fn checked_pages(alloc: Global, version: &Version) -> Result<CheckedPages, Memory>
    ensures pages { IfOk result (λ kept. ArePages version.now kept.pages.fulls kept.pages.index.items kept.pages.all_properties.items) }
    ensures precomputed { IfOk result (λ kept. ArePrecomputedTables version.now kept.pages.fulls kept.pages.precomputed) }
    ensures quick_checks { IfOk result (λ kept. kept.quick_checks.items ≡ spec_all_quick_checks kept.pages.all_properties.items) }
{
    let pages = pages_of(alloc, version)?;
    let quick_checks = all_quick_checks(alloc, &pages.all_properties)?;
    Ok(CheckedPages {
        pages,
        quick_checks,
    })
}

impl PageTable {
    /// The table of a version. Time and memory are linear in its rows and blocks.
    ///
    /// # Errors
    ///
    /// `Memory` where memory ran out; the version is given up then.
    pub fn new(alloc: Global, version: Version) -> Result<PageTable, Memory>
        ensures { IfOk result (λ t. t ≡ version) }
    {
        let kept = checked_pages(alloc, &version)?;
        Ok(PageTable::of_parts(version, kept.pages, kept.quick_checks))
    }

    /// The table of a version, of what is kept of it, and of the quick checks.
    fn of_parts(version: Version, kept: KeptPages, quick_checks: Vec<u32>) -> PageTable
        requires pages { ArePages version kept.fulls kept.index.items kept.all_properties.items }
        requires precomputed { ArePrecomputedTables version kept.fulls kept.precomputed }
        requires quick_checks { quick_checks.items ≡ spec_all_quick_checks kept.all_properties.items }
        ensures { result ≡ version }
    {
        let ascii = is_ascii_yes(&kept.index, &quick_checks);
        let leading_consonants = are_leading_boundaries(&kept.index, &kept.all_properties);
        let doubtful = doubtful_leads(&kept.index, &quick_checks);
        PageTable {
            version,
            index: kept.index,
            all_properties: kept.all_properties,
            quick_checks,
            doubtful,
            fulls: kept.fulls,
            precomputed: kept.precomputed,
            ascii,
            leading_consonants,
        }
    }
}

impl NormTable for PageTable {
    ghost model = { λ t. t };

    fn version(&self) -> &Version {
        &self.version
    }

    #[inline(always)]
    fn assigned(&self, c: char) -> bool {
        properties_of(&self.index, &self.all_properties, c).assigned
    }

    #[inline(always)]
    fn class(&self, c: char) -> u8 {
        properties_of(&self.index, &self.all_properties, c).class
    }

    fn hangul(&self) -> bool {
        self.version.has_hangul()
    }

    #[inline(always)]
    fn pair(&self, a: char, b: char) -> Option<char> {
        if properties_of(&self.index, &self.all_properties, b).never_second {
            return None;
        }
        self.version.composite_of(a, b)
    }

    #[inline(always)]
    fn full(&self, c: char, compat: bool) -> &[char] {
        let slot = properties_of(&self.index, &self.all_properties, c).fulls;
        // nothing is lent by this slot, which needs not be read for that
        if slot == 0 {
            return &[];
        }
        self.fulls.lent(slot as usize, compat)
    }

    #[inline(always)]
    fn precomputed(&self, form: Form, c: char) -> Option<PrecomputedForm<'_>> {
        let slot = properties_of(&self.index, &self.all_properties, c).fulls;
        self.precomputed.at(form, slot as usize)
    }

    #[inline(always)]
    fn is_boundary(&self, form: Form, c: char) -> bool {
        has_bit(
            properties_of(&self.index, &self.all_properties, c).hints,
            boundary_place(form),
        )
    }

    fn leading_consonants_are_boundaries(&self, _form: Form) -> bool {
        self.leading_consonants
    }

    fn ascii_passes(&self, _form: Form) -> bool {
        self.ascii
    }

    fn quick_span(&self, form: Form, assigned: bool, text: &str) -> QuickSpan {
        let scan = Scan {
            version: &self.version,
            index: &self.index,
            all_properties: &self.all_properties,
            quick_checks: &self.quick_checks,
            doubtful: &self.doubtful,
            ascii: self.ascii,
            least: least_quick_check(assigned),
            form,
        };
        scan.pass_span(text)
    }
}
