//! Worked examples over the fixtures.
mod buffers;
mod canonical_rows;
mod example;
mod examples;
mod guests;
mod laws;
mod refused;
mod runs;
mod safety;
mod spans;
mod stream_texts;
mod streams;

use np_code_points::Form;
use np_examples_shared::want;
use np_forms::{equivalent, form};
use np_versions::NormTable;
use std::alloc::Global;
use std::test::Fail;

/// Fails unless `text` has this form.
fn wants_form<T: NormTable>(
    alloc: Global,
    table: &T,
    wanted: Form,
    text: &str,
    normal: &str,
) -> Result<(), Fail> {
    let made = form(alloc, table, wanted, text)?;
    want(made.as_str() == normal, text)
}

/// Fails unless the texts are canonically equivalent.
fn wants_equivalent<T: NormTable>(
    alloc: Global,
    table: &T,
    left: &str,
    right: &str,
) -> Result<(), Fail> {
    want(equivalent(alloc, table, false, left, right)?, left)
}
