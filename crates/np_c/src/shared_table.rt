//! A table that several owners share answers as the table itself.

use np_code_points::Form;
use np_tables::PageTable;
use np_versions::{NormTable, PrecomputedForm, QuickSpan, Version};
use std::sync::Arc;

/// One owner of a table.
#[derive(Drop)]
pub struct SharedTable {
    pub table: Arc<PageTable>,
}

impl NormTable for SharedTable {
    ghost use Rattle.std.specs.Arc.{arc_value};

    ghost model = { λ t. arc_value t.table };

    fn version(&self) -> &Version {
        (*self.table).version()
    }

    fn assigned(&self, c: char) -> bool {
        (*self.table).assigned(c)
    }

    fn class(&self, c: char) -> u8 {
        (*self.table).class(c)
    }

    fn hangul(&self) -> bool {
        (*self.table).hangul()
    }

    fn pair(&self, a: char, b: char) -> Option<char> {
        (*self.table).pair(a, b)
    }

    fn full(&self, c: char, compat: bool) -> &[char] {
        (*self.table).full(c, compat)
    }

    fn precomputed(&self, form: Form, c: char) -> Option<PrecomputedForm<'_>> {
        (*self.table).precomputed(form, c)
    }

    fn is_boundary(&self, form: Form, c: char) -> bool {
        (*self.table).is_boundary(form, c)
    }

    fn leading_consonants_are_boundaries(&self, form: Form) -> bool {
        (*self.table).leading_consonants_are_boundaries(form)
    }

    fn ascii_passes(&self, form: Form) -> bool {
        (*self.table).ascii_passes(form)
    }

    fn quick_span(&self, form: Form, assigned: bool, text: &str) -> QuickSpan {
        (*self.table).quick_span(form, assigned, text)
    }
}
