//! The command `compare`: whether two strings are equivalent.
ghost use Rattle.std.specs.Prelude.{◌≡◌, IfNone, IfOk, IfErr, IfSome, OnOk, chars, string_bytes};
ghost use Rattle.np_code_points.specs.Lines.{HasNo};
ghost use Rattle.np_forms.specs.Assigned.{IsAssigned};
ghost use Rattle.np_jobs.specs.Comparisons.{AreTwoLines, IsCompareOutput, IsComparison, LacksAssigned, LacksCompareOutput, LacksComparison, answer_text};

use crate::ending::JobOutput;
use crate::faults::TextFault;
use crate::texts::TextMaker;
use np_code_points::Form;
use np_forms::{equivalent, first_unassigned_char};
use np_versions::NormTable;
use std::alloc::{AllocError, Global};

/// The string before the first line end, and what stands behind it, without a line end at its very
/// end; none where there is no line end.
pub fn two_lines(text: &str) -> Option<(&str, &str)>
    ensures none { IfNone result (HasNo 10 text.now) }
    ensures some { IfSome result (λ lines. AreTwoLines text.now lines.0.now lines.1.now) }
{
    let Some((first, rest)) = text.split_once('\n') else {
        return None;
    };
    match rest.strip_suffix('\n') {
        Some(second) => Some((first, second)),
        None => Some((first, rest)),
    }
}

/// Checks that each code point of two texts is assigned.
///
/// # Errors
///
/// `FirstUnassigned` with the first text's first unassigned code point; `SecondUnassigned` with the second's, where the
/// first text has none.
pub fn both_assigned<T: NormTable>(table: &T, first: &str, second: &str) -> Result<(), TextFault>
    ensures first { OnOk result (IsAssigned (T.model table.now) (chars first.now)) }
    ensures second { OnOk result (IsAssigned (T.model table.now) (chars second.now)) }
    ensures refused { IfErr result (LacksAssigned (T.model table.now) first.now second.now) }
{
    if let Some((at, code)) = first_unassigned_char(table, first) {
        return Err(TextFault::FirstUnassigned { at, code });
    }
    match first_unassigned_char(table, second) {
        Some((at, code)) => Err(TextFault::SecondUnassigned { at, code }),
        None => Ok(()),
    }
}

/// Whether two texts are equivalent, each of which has to be assigned.
fn comparison_of<T: NormTable>(
    alloc: Global,
    form: Form,
    table: &T,
    first: &str,
    second: &str,
) -> Result<bool, TextFault>
    ensures equal { IfOk result (IsComparison form (T.model table.now) first.now second.now) }
    ensures refused { IfErr result (LacksComparison (T.model table.now) first.now second.now) }
{
    both_assigned(table, first, second)?;
    match equivalent(alloc, table, form.compat(), first, second) {
        Ok(equal) => Ok(equal),
        Err(_) => Err(TextFault::Memory),
    }
}

/// What is printed.
pub fn answer_line(alloc: Global, is_yes: bool) -> Result<String, AllocError>
    ensures { IfOk result (λ line. string_bytes line ≡ answer_text is_yes) }
{
    String::from_str(alloc, if is_yes { "equal\n" } else { "different\n" })
}

/// Whether the two lines of a text are equivalent.
fn make_comparison<T: NormTable>(
    alloc: Global,
    form: Form,
    table: &T,
    text: &str,
) -> Result<JobOutput, TextFault>
    ensures answer { IfOk result (λ m. IsCompareOutput form (T.model table.now) text.now m.is_yes (string_bytes m.text)) }
    ensures refused { IfErr result (LacksCompareOutput (T.model table.now) text.now) }
{
    let Some((first, second)) = two_lines(text) else {
        return Err(TextFault::TwoLinesWanted);
    };
    let is_yes = comparison_of(alloc, form, table, first, second)?;
    match answer_line(alloc, is_yes) {
        Ok(text) => Ok(JobOutput { text, is_yes }),
        Err(_) => Err(TextFault::Memory),
    }
}

/// The job `compare`, as a value.
#[derive(Clone, Copy)]
pub struct CompareJob {
    /// The form by which strings are compared.
    pub form: Form,
}

impl TextMaker for CompareJob {
    ghost makes = { λ job. IsCompareOutput job.form };

    ghost refuses = { λ job. LacksCompareOutput };

    fn make_output<T: NormTable>(
        &self,
        alloc: Global,
        table: &T,
        text: String,
    ) -> Result<JobOutput, TextFault> {
        make_comparison(alloc, self.form, table, text.as_str())
    }
}
