//! A scan of a text for code points that may follow one another as they are, and how far it comes.
ghost use Rattle.std.specs.Prelude.{◌≡◌, ◌≤◌, length, true};
ghost use Rattle.np_tables.specs.inside.DoubtfulLeads.{AreSafe, row_of};
ghost use Rattle.np_tables.specs.inside.PageProperties.{IsAsciiYes};
ghost use Rattle.np_versions.specs.inside.Pages.{AreWithin};

use crate::doubtful_leads::DoubtfulLeads;
use crate::page_properties::Properties;
use crate::quick_checks::{low_behind, quick_check_at, quick_check_place};
use np_code_points::Form;
use np_versions::Version;

/// What a scan reads.
#[derive(Drop)]
pub(crate) struct Scan<'t> {
    pub version: &'t Version,
    /// For each 256 code points the number of their block.
    pub index: &'t [u16],
    /// The properties of each code point, block by block.
    pub all_properties: &'t [Properties],
    /// The quick check of each under each form.
    pub quick_checks: &'t [u32],
    /// Which bytes begin characters that need a look-up, under each form.
    pub doubtful: &'t DoubtfulLeads,
    /// Whether all ASCII passes: it is then passed many bytes at a time, and what is between as well.
    pub ascii: bool,
    /// The least quick check that may pass.
    pub least: u8,
    pub form: Form,
    ghost within: { AreWithin 4352 index.now (length quick_checks.now) },
    ghost safe: { AreSafe form index.now quick_checks.now (row_of form doubtful.now) },
    ghost ascii_is_yes: { ascii ≡ true → IsAsciiYes index.now quick_checks.now },
    ghost some: { 1 ≤ least },
}

/// How far a scan has come.
#[derive(Clone, Copy)]
pub(crate) struct Passed<'t> {
    /// The least quick check that may follow.
    pub low: u8,
    /// What stands behind what was passed.
    pub rest: &'t str,
}

/// How far a scan has come in one way of reading.
#[derive(Clone, Copy)]
pub(crate) struct Stretch<'t> {
    pub passed: Passed<'t>,
    /// Whether this way leads no further.
    pub ended: bool,
}

impl<'t> Scan<'t> {
    ghost use Rattle.std.specs.Prelude.{IfSome, slice_index_or};
    ghost use Rattle.np_tables.specs.inside.QuickChecks.{quick_check_in};
    ghost use Rattle.np_versions.specs.inside.Pages.{property_place};
    ghost use Rattle.np_tables.specs.inside.Scans.{PassesCode};

    /// The quick check of a code point.
    #[inline(always)]
    pub(crate) fn check_of(&self, c: char) -> u8
        ensures { result ≡ quick_check_in self.now.form (slice_index_or self.now.quick_checks.now (property_place self.now.index.now c) 0) }
    {
        quick_check_at(
            self.index,
            self.quick_checks,
            quick_check_place(self.form),
            c,
        )
    }

    /// The least quick check that may follow a code point, where it may follow a quick check of `low`: none where it may not.
    #[inline(always)]
    pub(crate) fn low_past(&self, low: u8, c: char) -> Option<u8>
        requires { self.now.least ≤ low }
        ensures least { IfSome result (λ next. self.now.least ≤ next) }
        ensures passes { IfSome result (PassesCode self.now low c) }
    {
        let quick_check = self.check_of(c);
        if quick_check < low {
            return None;
        }
        Some(low_behind(self.least, quick_check))
    }
}
