//! What is kept of single code points as UTF-8, under each form.
ghost use Rattle.std.specs.Prelude.{[], slice_index_or, IfOk, IfSome};
ghost use Rattle.np_tables.specs.inside.PageProperties.{AreSeconds};
ghost use Rattle.np_tables.specs.inside.PrecomputedTables.{ArePrecomputedTables, kept_of};
ghost use Rattle.np_tables.specs.inside.PrecomputedForms.{IsFront};

use crate::fulls::Fulls;
use crate::precomputed_forms::PrecomputedForms;
use np_code_points::{Form, Memory};
use np_versions::{PrecomputedForm, Version};
use std::alloc::Global;

/// Those of each form.
#[derive(Drop)]
pub(crate) struct PrecomputedTables {
    nfd: PrecomputedForms,
    nfc: PrecomputedForms,
    nfkd: PrecomputedForms,
    nfkc: PrecomputedForms,
}

impl PrecomputedTables {
    /// Those of a version, of which the full decompositions are lent.
    pub(crate) fn new(
        alloc: Global,
        version: &Version,
        seconds: &[bool],
        fulls: &Fulls,
    ) -> Result<PrecomputedTables, Memory>
        requires { AreSeconds version.now seconds.now }
        ensures { IfOk result (ArePrecomputedTables version.now fulls.now) }
    {
        let nfd = PrecomputedForms::new(alloc, version, seconds, fulls, Form::Nfd)?;
        let nfc = PrecomputedForms::new(alloc, version, seconds, fulls, Form::Nfc)?;
        let nfkd = PrecomputedForms::new(alloc, version, seconds, fulls, Form::Nfkd)?;
        let nfkc = PrecomputedForms::new(alloc, version, seconds, fulls, Form::Nfkc)?;
        Ok(PrecomputedTables {
            nfd,
            nfc,
            nfkd,
            nfkc,
        })
    }

    /// What is kept for a slot under a form, with what stands behind it; none where it has none.
    #[inline(always)]
    pub(crate) fn at(&self, form: Form, slot: usize) -> Option<PrecomputedForm<'_>>
        ensures { IfSome result (λ kept. IsFront (slice_index_or (kept_of form self.now) slot []) kept.bytes.now kept.count) }
    {
        match form {
            Form::Nfd => self.nfd.at(slot),
            Form::Nfc => self.nfc.at(slot),
            Form::Nfkd => self.nfkd.at(slot),
            Form::Nfkc => self.nfkc.at(slot),
        }
    }
}
