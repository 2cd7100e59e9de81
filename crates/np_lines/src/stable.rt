//! The stabilized string of a line (UAX #15, section 12) as its key, and the quick ways to those of many lines.
ghost use Rattle.std.specs.Prelude.{◌≡◌, ◌+◌, ◌<◌, ◌++◌, ◌∷◌, chars, length, take, IfOk, IsUtf8, OnOk};
ghost use Rattle.np_forms.specs.Forms.{IsNormalForm};
ghost use Rattle.np_forms.specs.Parts.{IsEachPartStable};
ghost use Rattle.np_lines.specs.Answers.{IsAnswer};
ghost use Rattle.np_lines.specs.Pushed.{ArePushed};
ghost use Rattle.np_lines.specs.inside.Keyed.{AreKeyed};
ghost use Rattle.np_versions.specs.Versions.{VersionData};

use crate::answers::LIMIT;
use crate::cuts::cut_line;
use crate::keyed::{end_as_many, may_be_keyed};
use crate::line_keys::LineKeys;
use crate::lines::{LineEnd, Wanted};
use np_code_points::{Form, Memory};
use np_forms::{NpssFault, lend_npss, quick_check_span};
use np_versions::NormTable;
use std::alloc::Global;
use std::borrow::CowStr;

/// The stabilized strings of a form, under the version of a table.
#[derive(Clone, Copy)]
pub(crate) struct StableKeys<'t, T: NormTable> {
    pub(crate) table: &'t T,
    pub(crate) form: Form,
}

/// Appends the answer to a line that has a key, and what ends it: the key stands at the front of a text that goes on
/// with that.
#[inline(always)]
fn push_ended_key(out: &mut Vec<u8>, key: &str, text: &str) -> Result<(), Memory>
    requires { length key.now < length text.now }
    ensures { OnOk result (out.new.items ≡ out.old.items ++ 61 ∷ take (length key.now + 1) text.now) }
{
    out.push(b'=')?;
    out.extend_from_slice(&text.as_bytes()[..key.len() + 1])?;
    Ok(())
}

/// Answers the lines that end in a text of which each part is its own stabilized string, and answers what is
/// left of it: what follows the last line, or begins with one that is too long.
fn push_stable<'a>(wanted: Wanted, stable: &'a str, out: &mut Vec<u8>) -> Result<&'a str, Memory>
    ensures pushed { IfOk result (λ rest. (v : VersionData) → IsEachPartStable v wanted.form (chars stable.now) →
        ArePushed (IsAnswer v wanted) wanted.end stable.now rest.now out.old.items out.new.items) }
    ensures utf8 { IfOk result (λ rest. IsUtf8 rest.now) }
{
    let mut rest = stable;
    'lines: loop {
        let Some((line, behind)) = cut_line(rest, wanted.end) else {
            return Ok(rest);
        };
        if line.len() > LIMIT {
            return Ok(rest);
        }
        push_ended_key(out, line, rest)?;
        rest = behind;
    }
}

/// Answers the lines of a text by those of its form, and answers what is left of the text: what follows its last
/// line, or begins with one that is too long.
fn push_keyed<'a>(
    wanted: Wanted,
    lines: &'a str,
    keys: &str,
    out: &mut Vec<u8>,
) -> Result<&'a str, Memory>
    ensures { IfOk result (λ rest. (v : VersionData) → AreKeyed v wanted lines.now keys.now →
        ArePushed (IsAnswer v wanted) wanted.end lines.now rest.now out.old.items out.new.items) }
{
    let mut rest = lines;
    let mut forms = keys;
    'lines: loop {
        let Some((line, behind)) = cut_line(rest, wanted.end) else {
            return Ok(rest);
        };
        let Some((key, later)) = cut_line(forms, wanted.end) else {
            return Ok(rest);
        };
        if line.len() > LIMIT {
            return Ok(rest);
        }
        push_ended_key(out, key, forms)?;
        rest = behind;
        forms = later;
    }
}

impl<'t, T: NormTable> LineKeys for StableKeys<'t, T> {
    ghost version = { λ keys. T.model keys.table.now };

    ghost is_key = { λ keys. IsNormalForm (T.model keys.table.now) keys.form };

    fn lend_key<'a>(&self, alloc: Global, text: &'a str) -> Result<CowStr<'a>, NpssFault> {
        lend_npss(alloc, self.table, self.form, text)
    }

    /// Answers the lines that end in a text by the form of all of them, where each is assigned and has its form for itself.
    /// A form that composes leaves most names as they are, and these are quicker by themselves.
    fn push_lines<'a>(
        &self,
        alloc: Global,
        end: LineEnd,
        text: &'a str,
        out: &mut Vec<u8>,
    ) -> Result<&'a str, Memory> {
        let form = self.form;
        let wanted = Wanted { form, end };
        self.table.meets_conditions();
        if form.composes() || text.len() > LIMIT || !may_be_keyed(self.table, wanted, text) {
            return Ok(text);
        }
        match lend_npss(alloc, self.table, form, text) {
            Ok(keys) => {
                if !end_as_many(end, keys.as_str(), text) {
                    return Ok(text);
                }
                push_keyed(wanted, text, keys.as_str(), out)
            }
            Err(NpssFault::Unassigned { .. }) => Ok(text),
            Err(NpssFault::Memory) => Err(Memory),
        }
    }

    /// Answers the lines at the front of a text that pass the quick check: their keys are they themselves, and are written
    /// from the text.
    fn push_front<'a>(
        &self,
        end: LineEnd,
        text: &'a str,
        out: &mut Vec<u8>,
    ) -> Result<&'a str, Memory> {
        let form = self.form;
        let count = quick_check_span(self.table, form, text);
        let rest = push_stable(Wanted { form, end }, &text[..count], out)?;
        Ok(&text[count - rest.len()..])
    }
}
