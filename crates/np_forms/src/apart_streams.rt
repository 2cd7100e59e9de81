//! Streams apart from their tables, for who owns both.
ghost use Rattle.std.specs.Prelude.{◌≡◌, []};
ghost use Rattle.np_forms.specs.ApartStreams.{ApartState};

use crate::classes::Classed;
use np_code_points::Form;
use std::alloc::Global;
use std::marker::Model;

/// What a `Stream` is without its table, where nothing is ready. It is put together again over a table of the
/// same version.
#[derive(Drop)]
pub struct ApartStream {
    pub(crate) form: Form,
    pub(crate) alloc: Global,
    pub(crate) pending: Vec<Classed>,
}

impl Model for ApartStream {
    ghost use Rattle.np_forms.specs.ApartStreams.{ApartState};
    ghost use Rattle.np_forms.specs.inside.Classes.{classes_in, codes_of};

    ghost Value = { ApartState };

    ghost view = { λ a. record { form = a.form; pending = codes_of a.pending.items; classes = classes_in a.pending.items } };
}

impl ApartStream {
    /// A stream at the begin of a text.
    pub fn new(alloc: Global, form: Form) -> ApartStream
        ensures { result ≡ record { form = form; pending = []; classes = [] } }
    {
        ApartStream {
            form,
            alloc,
            pending: Vec::new(alloc),
        }
    }

    /// Its form.
    pub fn form(&self) -> Form
        ensures { result ≡ self.now.form }
    {
        self.form
    }
}
