//! What the form of a text is made by.
use np_code_points::Form;
use np_versions::NormTable;
use std::alloc::Global;

/// A form, the table that it is made by, and where memory for it comes from: the same for each part of a text.
#[derive(Drop)]
pub(crate) struct Normalizer<'t, T: NormTable> {
    pub alloc: Global,
    pub table: &'t T,
    pub form: Form,
}
