//! The command `key`: caseless keys.
ghost use Rattle.std.specs.Prelude.{◌≡◌, IfOk, IfErr, chars, string_bytes, true};
ghost use Rattle.np_caseless.specs.Caseless.{IsCaseless};
ghost use Rattle.np_caseless_job.specs.CaselessKeys.{IsCaselessOutput, LacksCaselessOutput};

use crate::texts::FoldedMaker;
use np_caseless::{FoldedTable, caseless_key};
use np_code_points::Form;
use np_forms::NpssFault;
use np_jobs::{JobOutput, TextFault};
use np_versions::NormTable;
use std::alloc::Global;

/// The caseless key of a text.
pub(crate) fn key_of<T: NormTable + Drop>(
    alloc: Global,
    form: Form,
    table: &FoldedTable<T>,
    text: &str,
) -> Result<String, TextFault>
    ensures key { IfOk result (λ key. IsCaselessOutput form table.now text.now true (string_bytes key)) }
    ensures caseless { IfOk result (λ key. IsCaseless table.now form (chars text.now) (chars (string_bytes key))) }
    ensures refused { IfErr result (LacksCaselessOutput table.now text.now) }
{
    match caseless_key(alloc, table.table(), table.foldings(), form, text) {
        Ok(key) => Ok(key),
        Err(NpssFault::Unassigned { at, code }) => Err(TextFault::Unassigned { at, code }),
        Err(NpssFault::Memory) => Err(TextFault::Memory),
    }
}

/// The job `key`, as a value.
#[derive(Clone, Copy)]
pub struct KeyJob {
    /// The form of the key.
    pub form: Form,
}

impl FoldedMaker for KeyJob {
    ghost makes = { λ job. IsCaselessOutput job.form };

    ghost refuses = { λ job. LacksCaselessOutput };

    fn make_output<T: NormTable + Drop>(
        &self,
        alloc: Global,
        table: &FoldedTable<T>,
        text: &str,
    ) -> Result<JobOutput, TextFault> {
        let text = key_of(alloc, self.form, table, text)?;
        Ok(JobOutput { text, is_yes: true })
    }
}
