//! Text that comes code point by code point, and its normal form as it becomes ready (The Unicode
//! Standard, D118 to D121).
ghost use Rattle.std.specs.Prelude.{◌≡◌, ◌++◌, ℕ, List, [], length, map, take, IfOk, OnErr, OnOk};
ghost use Rattle.np_forms.specs.ApartStreams.{ApartState, IsApartOf};
ghost use Rattle.np_forms.specs.Streams.{IsStreaming, StreamState, TakesIn, Finishes};
ghost use Rattle.np_forms.specs.inside.Classes.{AreClassed, codes_of};
ghost use Rattle.np_forms.specs.inside.Written.{Breaks, HoldsFront};
ghost use Rattle.np_versions.specs.Versions.{class_of};

use crate::apart_streams::ApartStream;
use crate::classes::Classed;
use crate::decomposing::{append, is_own};
use crate::held::{Held, finish, hold_front, order_and_compose, push_all};
use crate::normalizers::Normalizer;
use crate::ordering::are_non_starters;
use crate::out_texts::OutText;
use np_code_points::{Form, Memory};
use np_versions::NormTable;
use std::alloc::Global;
use std::fmt;
use std::marker::Model;
use std::mem::swap;

/// Makes a list the copy of another.
fn copy_to(list: &mut Vec<Classed>, from: &[Classed]) -> Result<(), Memory>
    ensures { OnOk result (list.new.items ≡ from.now) }
{
    list.clear();
    list.extend_from_slice(from)?;
    Ok(())
}

/// The normal form of a text that comes code point by code point. What is ready is the form of the
/// text so far, cut before its last starter, which what follows may still change.
///
/// At most 1 code point is pending, and the longest run of non-starters so far: 31 for stream-safe
/// text under a compatibility form. Each code point takes constant time, a run of non-starters of
/// length n besides one stable sort of it.
#[derive(Drop)]
pub struct Stream<'t, T: NormTable> {
    table: &'t T,
    form: Form,
    alloc: Global,
    held: Held,
    parts: Vec<Classed>,
    kept: Vec<Classed>,
}

impl<'t, T: NormTable> Model for Stream<'t, T> {
    ghost use Rattle.np_forms.specs.Streams.{StreamState};
    ghost use Rattle.np_forms.specs.inside.Classes.{AreClassed, codes_of};

    ghost Value = { StreamState };

    ghost view = { λ a. record { version = T.model a.table.now; form = a.form; ready = a.held.ready.items; pending = codes_of a.held.pending.items } };

    ghost invariant = { λ a. AreClassed (T.model a.table.now) a.held.pending.items };
}

/// Shows how many code points are ready and pending, and none of them: the text may be a person's.
impl<'t, T: NormTable> fmt::Debug for Stream<'t, T> {
    fn fmt<W: fmt::Write>(&self, f: &mut fmt::Formatter<W>) -> fmt::Result {
        f.debug_struct("Stream")
            .field("form", &self.form)
            .field("ready", &self.held.ready.len())
            .field("pending", &self.held.pending.len())
            .finish_non_exhaustive()
    }
}

impl<'t, T: NormTable> Stream<'t, T> {
    /// A stream at the begin of a text.
    pub fn new(alloc: Global, table: &'t T, form: Form) -> Self
        ensures version { result.version ≡ T.model table.now }
        ensures form { result.form ≡ form }
        ensures ready { result.ready ≡ [] }
        ensures begins { IsStreaming (T.model table.now) form [] [] result.pending }
    {
        table.meets_conditions();
        Stream::of_pending(alloc, table, form, Vec::new(alloc))
    }

    /// What the stream goes by, for those who write a part of the text beside it.
    pub(crate) fn normalizer(&self) -> Normalizer<'t, T>
        ensures version { T.model result.table.now ≡ self.now.version }
        ensures form { result.form ≡ self.now.form }
    {
        Normalizer {
            alloc: self.alloc,
            table: self.table,
            form: self.form,
        }
    }

    /// Takes in the next code point of the text.
    ///
    /// # Errors
    ///
    /// `Memory` where memory ran out; then the stream is as it was.
    pub fn feed(&mut self, c: char) -> Result<(), Memory>
        ensures ok { OnOk result (TakesIn self.old self.new c) }
        ensures err { OnErr result (self.new ≡ self.old) }
    {
        self.table.meets_conditions();
        let compat = self.form.compat();
        let class = self.table.class(c);
        if class != 0 && is_own(self.table, compat, c) {
            // as most are of a long run
            self.held.pending.push(Classed::new(c, class))?;
            return Ok(());
        }
        let hangul = self.table.hangul();
        self.parts.clear();
        append(&mut self.parts, self.table, hangul, compat, c)?;
        if are_non_starters(&self.parts) {
            self.held.pending.extend_from_slice(&self.parts)?;
            return Ok(());
        }
        copy_to(&mut self.kept, &self.held.pending)?;
        let ready = self.held.ready.len();
        let composes = self.form.composes();
        match push_all(
            self.alloc,
            self.table,
            composes,
            &mut self.held,
            &self.parts,
        ) {
            Ok(()) => Ok(()),
            Err(fault) => {
                self.held.ready.truncate(ready);
                swap(&mut self.held.pending, &mut self.kept);
                Err(fault)
            }
        }
    }

    /// What became ready since `new` or the last `clear_ready`.
    pub fn ready(&self) -> &[char]
        ensures { result.now ≡ self.now.ready }
    {
        &self.held.ready
    }

    /// Empties what is ready.
    pub fn clear_ready(&mut self)
        ensures { self.new ≡ record self.old { ready = [] } }
    {
        self.held.ready.clear();
    }

    /// How many code points are held back.
    pub fn pending_len(&self) -> usize
        ensures { result ≡ length self.now.pending }
    {
        self.held.pending.len()
    }

    /// Ends the text: the rest of its normal form is ready, and nothing is pending. What is fed
    /// later is a new text behind it.
    ///
    /// # Errors
    ///
    /// `Memory` where memory ran out; then the stream is as it was.
    pub fn finish(&mut self) -> Result<(), Memory>
        ensures ok { OnOk result (Finishes self.old self.new) }
        ensures err { OnErr result (self.new ≡ self.old) }
    {
        self.table.meets_conditions();
        copy_to(&mut self.kept, &self.held.pending)?;
        let ready = self.held.ready.len();
        match finish(self.alloc, self.table, self.form.composes(), &mut self.held) {
            Ok(()) => Ok(()),
            Err(fault) => {
                self.held.ready.truncate(ready);
                swap(&mut self.held.pending, &mut self.kept);
                Err(fault)
            }
        }
    }

    /// Takes in the non-starters at the front of a text that are their own full decompositions, and answers
    /// what follows them.
    #[tactic(auto, using(crate::proofs::HeldLemmas::front_answers))]
    pub(crate) fn take_front<'a>(&mut self, text: &'a str) -> Result<&'a str, Memory>
        ensures ok { IfOk result (λ rest. HoldsFront self.old self.new text.now rest.now) }
        ensures held { OnOk result ((front : List ℕ) × (self.new.pending ≡ self.old.pending ++ front)) }
        ensures err { OnErr result (self.new ≡ self.old) }
    {
        self.table.meets_conditions();
        let kind = self.form.compat();
        let count = self.held.pending.len();
        match hold_front(self.table, kind, text, &mut self.held.pending) {
            Ok(rest) => Ok(rest),
            Err(fault) => {
                self.held.pending.truncate(count);
                Err(fault)
            }
        }
    }

    /// Holds back no more than the first `count` code points.
    pub(crate) fn hold_first(&mut self, count: usize)
        ensures { self.new ≡ record self.old { pending = take count self.old.pending } }
    {
        self.held.pending.truncate(count);
    }

    /// The same stream once more, where nothing is ready.
    pub(crate) fn copied(&self) -> Result<Stream<'t, T>, Memory>
        ensures { IfOk result (λ s. s ≡ record self.now { ready = [] }) }
    {
        let mut pending = Vec::new(self.alloc);
        copy_to(&mut pending, &self.held.pending)?;
        Ok(Stream::of_pending(self.alloc, self.table, self.form, pending))
    }

    /// A stream that holds code points back.
    fn of_pending(alloc: Global, table: &'t T, form: Form, pending: Vec<Classed>) -> Stream<'t, T>
        requires { AreClassed (T.model table.now) pending.items }
        ensures { result ≡ record { version = T.model table.now; form = form; ready = []; pending = codes_of pending.items } }
    {
        Stream {
            table,
            form,
            alloc,
            held: Held {
                ready: Vec::new(alloc),
                pending,
            },
            parts: Vec::new(alloc),
            kept: Vec::new(alloc),
        }
    }

    /// Takes the stream apart, of which all that was ready was taken: what it is without its table. Nothing is copied.
    pub fn into_apart(self) -> ApartStream
        requires taken { self.ready ≡ [] }
        ensures { result ≡ record { form = self.entry.form; pending = self.entry.pending; classes = map (class_of self.entry.version) self.entry.pending } }
    {
        let Stream {
            form,
            alloc,
            held,
            ..
        } = self;
        ApartStream {
            form,
            alloc,
            pending: held.pending,
        }
    }

    /// The stream that was taken apart, over a table of the same version. Nothing is copied.
    pub fn of_apart(table: &'t T, apart: ApartStream) -> Stream<'t, T>
        requires { IsApartOf (T.model table.now) apart }
        ensures { result ≡ record { version = T.model table.now; form = apart.form; ready = []; pending = apart.pending } }
    {
        let ApartStream {
            form,
            alloc,
            pending,
        } = apart;
        Stream::of_pending(alloc, table, form, pending)
    }

    /// Ends the text, and appends the rest of its form to a text, where all that was ready is taken. What
    /// is fed later is a new text. Nothing is pending, where memory ran out too.
    pub(crate) fn finish_into(&mut self, out: &mut OutText) -> Result<(), Memory>
        requires { self.old.ready ≡ [] }
        ensures { OnOk result (Breaks self.old self.new out.old out.new) }
    {
        self.table.meets_conditions();
        let ordered = order_and_compose(
            self.alloc,
            self.table,
            self.form.composes(),
            &mut self.held.pending,
        );
        let written = match ordered {
            Ok(()) => out.append_codes(&self.held.pending),
            Err(fault) => Err(fault),
        };
        self.held.pending.clear();
        written
    }
}
