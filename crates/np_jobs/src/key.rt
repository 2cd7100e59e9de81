//! The command `key`: stabilized strings (UAX #15 section 12).
ghost use Rattle.std.specs.Prelude.{◌≡◌, IfOk, IfErr, chars, string_bytes, true};
ghost use Rattle.np_forms.specs.Forms.{IsNormalForm};
ghost use Rattle.np_jobs.specs.Keys.{IsKeyOutput, LacksKeyOutput};

use crate::ending::JobOutput;
use crate::faults::TextFault;
use crate::texts::TextMaker;
use np_code_points::Form;
use np_forms::{NpssFault, into_npss};
use np_versions::NormTable;
use std::alloc::Global;

/// The stabilized string of a text, which is given up.
pub(super) fn key_of<T: NormTable>(
    alloc: Global,
    form: Form,
    table: &T,
    text: String,
) -> Result<String, TextFault>
    ensures key { IfOk result (λ key. IsKeyOutput form (T.model table.now) (string_bytes text) true (string_bytes key)) }
    ensures normal { IfOk result (λ key. IsNormalForm (T.model table.now) form (chars (string_bytes text)) (chars (string_bytes key))) }
    ensures refused { IfErr result (LacksKeyOutput (T.model table.now) (string_bytes text)) }
{
    match into_npss(alloc, table, form, text) {
        Ok(key) => Ok(key),
        Err(NpssFault::Unassigned { at, code }) => Err(TextFault::Unassigned { at, code }),
        Err(NpssFault::Memory) => Err(TextFault::Memory),
    }
}

/// The job `key`, as a value.
#[derive(Clone, Copy)]
pub struct KeyJob {
    /// The form of the key.
    pub form: Form,
}

impl TextMaker for KeyJob {
    ghost makes = { λ job. IsKeyOutput job.form };

    ghost refuses = { λ job. LacksKeyOutput };

    fn make_output<T: NormTable>(
        &self,
        alloc: Global,
        table: &T,
        text: String,
    ) -> Result<JobOutput, TextFault> {
        let text = key_of(alloc, self.form, table, text)?;
        Ok(JobOutput { text, is_yes: true })
    }
}
