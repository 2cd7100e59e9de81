//! Fronts of texts that pass the quick check.
use np_code_points::Form;
use np_examples_shared::{Example, LETTERS, Made, holds_over, want};
use np_forms::quick_check_span;
use np_tables::{PageTable, RowTable};
use std::alloc::Global;
use std::test::Fail;

/// Texts, and how many bytes of them pass under NFC: what follows does not, since it composes backward, has another
/// form, or is not assigned.
const SPANS: &[(&str, usize)] = &[
    ("", 0),
    ("ab\n\u{4E00}", 6),
    ("ab\u{E9}c", 5),
    ("a\u{E8}", 1),
    ("a\u{316}\u{4E00}", 6),
];

/// Texts, and how many bytes of their fronts a table tells to pass under NFC.
struct Spans(&'static [(&'static str, usize)]);

impl Example for Spans {
    fn holds<T: Made>(&self, _alloc: Global, table: &T) -> Result<(), Fail> {
        for row in self.0 {
            want(quick_check_span(table, Form::Nfc, row.0) == row.1, row.0)?;
        }
        Ok(())
    }
}

#[test]
fn fronts_pass_the_quick_check(rt: HostRuntime) -> Result<(), Fail> {
    holds_over::<PageTable, Spans>(rt.alloc(), LETTERS, &Spans(SPANS))?;
    // a table may tell nothing
    holds_over::<RowTable, Spans>(rt.alloc(), LETTERS, &Spans(&[("ab", 0)]))
}
