//! The normal form of a text, piece by piece, so that two forms are compared and neither is kept.
ghost use Rattle.std.specs.Prelude.{◌≡◌, ◌↔◌, ◌<◌, ◌≤◌, ◌==◌, ◌&&◌, ◌++◌, [], length, take, IsTrue, IfOk, OnOk};
ghost use Rattle.np_code_points.specs.declared.forms.Form.{Form};
ghost use Rattle.np_forms.specs.inside.Copies.{IsBehind};
ghost use Rattle.np_forms.specs.inside.Pieces.{form_bytes, front_of, left_of};
ghost use Rattle.np_versions.specs.Versions.{VersionData};

use crate::classes::Classed;
use crate::copying::{split_quick_span, write_next};
use crate::normalizers::Normalizer;
use crate::out_texts::OutText;
use np_code_points::{Form, Memory};
use np_versions::NormTable;
use std::alloc::Global;

/// What is left of the normal form of a text: first what stays in the text, then the form of the
/// segment behind it, then the form of the rest.
#[derive(Drop)]
struct Pieces<'a> {
    stays: &'a [u8],
    /// The form of the segment, of which the first `taken` bytes are passed.
    made: OutText,
    taken: usize,
    rest: &'a str,
    /// A reordering buffer that is used again.
    list: Vec<Classed>,
}

impl<'a> Pieces<'a> {
    /// The whole form of a text.
    fn new(alloc: Global, text: &'a str) -> Pieces<'a>
        ensures rest { result.rest.now ≡ text.now }
        ensures front { front_of result ≡ [] }
    {
        Pieces {
            stays: &[],
            made: OutText::new(alloc),
            taken: 0,
            rest: text,
            list: Vec::new(alloc),
        }
    }

    /// What stands in front.
    fn front(&self) -> &[u8]
        ensures { result.now ≡ front_of self.now }
    {
        if self.stays.is_empty() {
            let made = self.made.as_bytes();
            &made[self.taken.min(made.len())..]
        } else {
            self.stays
        }
    }

    /// Passes bytes that stand in front.
    #[tactic(auto, using(crate::proofs::PieceLemmas::pass_answers))]
    fn pass(&mut self, count: usize)
        requires { count ≤ length (front_of self.old) }
        ensures { (v : VersionData) (form : Form) → left_of v form self.old ≡ take count (front_of self.old) ++ left_of v form self.new }
    {
        if self.stays.is_empty() {
            self.taken = self.taken.min(self.made.as_bytes().len()) + count;
        } else {
            self.stays = &self.stays[count..];
        }
    }

    /// Takes the next piece, where nothing stands in front.
    #[tactic(auto, using(crate::proofs::PieceLemmas::left_rest, crate::proofs::PieceLemmas::left_next))]
    fn take_next<T: NormTable>(
        &mut self,
        alloc: Global,
        table: &T,
        form: Form,
    ) -> Result<(), Memory>
        requires { front_of self.old ≡ [] }
        ensures same { OnOk result (left_of (T.model table.now) form self.new ≡ left_of (T.model table.now) form self.old) }
        ensures shorter { OnOk result (0 < length self.old.rest.now → length self.new.rest.now < length self.old.rest.now) }
    {
        let cut = split_quick_span(table, form, false, self.rest);
        self.taken = 0;
        self.made.clear();
        let normalizer = Normalizer { alloc, table, form };
        let later = write_next(&normalizer, cut.rest, &mut self.list, &mut self.made)?;
        self.stays = cut.front.as_bytes();
        self.rest = later;
        Ok(())
    }

    /// Takes pieces until something stands in front, or nothing is left.
    fn fill<T: NormTable>(&mut self, alloc: Global, table: &T, form: Form) -> Result<(), Memory>
        ensures same { OnOk result (left_of (T.model table.now) form self.new ≡ left_of (T.model table.now) form self.old) }
        ensures front { OnOk result (front_of self.new ≡ [] → left_of (T.model table.now) form self.new ≡ []) }
    {
        'pieces: while self.front().is_empty() && !self.rest.is_empty() {
            self.take_next(alloc, table, form)?;
        }
        Ok(())
    }
}

/// Whether nothing is left of either.
fn are_both_empty(left: &[u8], right: &[u8]) -> bool
    ensures { result ≡ ((length left.now == 0) && (length right.now == 0)) }
{
    left.is_empty() && right.is_empty()
}

/// Whether bytes are the same.
pub(crate) fn are_same(left: &[u8], right: &[u8]) -> bool
    ensures { IsTrue result ↔ (left.now ≡ right.now) }
{
    left == right
}

/// Whether two texts have the same normal form. The forms are made side by side, and no further than
/// to the first byte that differs.
pub(crate) fn have_same_form<T: NormTable>(
    alloc: Global,
    table: &T,
    form: Form,
    left: &str,
    right: &str,
) -> Result<bool, Memory>
    ensures { IfOk result (λ b. IsTrue b ↔ (form_bytes (T.model table.now) form left.now ≡ form_bytes (T.model table.now) form right.now)) }
{
    let mut first = Pieces::new(alloc, left);
    let mut second = Pieces::new(alloc, right);
    'pieces: loop {
        first.fill(alloc, table, form)?;
        second.fill(alloc, table, form)?;
        let here = first.front();
        let there = second.front();
        let count = here.len().min(there.len());
        if count == 0 {
            return Ok(are_both_empty(here, there));
        }
        if !are_same(&here[..count], &there[..count]) {
            return Ok(false);
        }
        first.pass(count);
        second.pass(count);
    }
}

/// What follows a front, where the bytes begin with it.
fn behind<'a>(bytes: &'a [u8], front: &[u8]) -> Option<&'a [u8]>
    ensures { IsBehind bytes.now front.now result }
{
    bytes.strip_prefix(front)
}

/// Whether these bytes are the normal form of a text. The form is made piece by piece, and no further than to the
/// first piece that differs.
pub(crate) fn has_form<T: NormTable>(
    alloc: Global,
    table: &T,
    form: Form,
    text: &str,
    bytes: &[u8],
) -> Result<bool, Memory>
    ensures { IfOk result (λ b. IsTrue b ↔ (form_bytes (T.model table.now) form text.now ≡ bytes.now)) }
{
    let mut pieces = Pieces::new(alloc, text);
    let mut left = bytes;
    'pieces: loop {
        pieces.fill(alloc, table, form)?;
        let here = pieces.front();
        let count = here.len();
        if count == 0 {
            return Ok(left.is_empty());
        }
        let Some(past) = behind(left, here) else {
            return Ok(false);
        };
        left = past;
        pieces.pass(count);
    }
}
