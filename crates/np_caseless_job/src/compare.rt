//! The command `compare`: whether two strings match caselessly.
ghost use Rattle.std.specs.Prelude.{◌≡◌, IfOk, IfErr, string_bytes};
ghost use Rattle.np_caseless_job.specs.CaselessComparisons.{IsCaselessComparison, IsCaselessCompareOutput, LacksCaselessCompareOutput};
ghost use Rattle.np_jobs.specs.Comparisons.{LacksComparison};

use crate::texts::FoldedMaker;
use np_caseless::{FoldedTable, caseless_match};
use np_code_points::Form;
use np_jobs::{JobOutput, TextFault, answer_line, both_assigned, two_lines};
use np_versions::NormTable;
use std::alloc::Global;

/// Whether two texts match caselessly, each of which has to be assigned.
fn comparison_of<T: NormTable + Drop>(
    alloc: Global,
    form: Form,
    table: &FoldedTable<T>,
    first: &str,
    second: &str,
) -> Result<bool, TextFault>
    ensures equal { IfOk result (IsCaselessComparison form table.now first.now second.now) }
    ensures refused { IfErr result (LacksComparison table.now.version first.now second.now) }
{
    both_assigned(table.table(), first, second)?;
    match caseless_match(
        alloc,
        table.table(),
        table.foldings(),
        form.compat(),
        (first, second),
    ) {
        Ok(equal) => Ok(equal),
        Err(_) => Err(TextFault::Memory),
    }
}

/// The job `compare`, as a value.
#[derive(Clone, Copy)]
pub struct CompareJob {
    /// The form by whose kind strings are compared.
    pub form: Form,
}

impl FoldedMaker for CompareJob {
    ghost makes = { λ job. IsCaselessCompareOutput job.form };

    ghost refuses = { λ job. LacksCaselessCompareOutput };

    fn make_output<T: NormTable + Drop>(
        &self,
        alloc: Global,
        table: &FoldedTable<T>,
        text: &str,
    ) -> Result<JobOutput, TextFault> {
        let Some((first, second)) = two_lines(text) else {
            return Err(TextFault::TwoLinesWanted);
        };
        let is_yes = comparison_of(alloc, self.form, table, first, second)?;
        match answer_line(alloc, is_yes) {
            Ok(text) => Ok(JobOutput { text, is_yes }),
            Err(_) => Err(TextFault::Memory),
        }
    }
}
