//! Stabilized strings (UAX #15, section 12).
ghost use Rattle.std.specs.Prelude.{◌≡◌, [], chars, string_bytes, encode_utf8_all, IfOk, IfErr, IsUtf8, OnErr, OnOk, false, if◌then◌else◌};
ghost use Rattle.std.specs.Cow.{cow_str_bytes};
ghost use Rattle.np_forms.specs.Assigned.{IsAssigned};
ghost use Rattle.np_forms.specs.Faults.{IsNpssFault};
ghost use Rattle.np_forms.specs.Forms.{IsNormalForm};
ghost use Rattle.np_forms.specs.inside.Copies.{IsCopied};
ghost use Rattle.np_forms.specs.inside.NormalForms.{normal_form};

use crate::assigned::first_unassigned_char;
use crate::copying::{QuickCut, split_quick_span, write_cut};
use crate::form_buffers::FormBuffer;
use crate::normalizers::Normalizer;
use crate::out_texts::OutText;
use np_code_points::Form;
use np_versions::NormTable;
use std::alloc::Global;
use std::borrow::CowStr;
use thiserror::Error;

/// Why a text has no stabilized form.
#[derive(Clone, Copy, Debug, PartialEq, Eq, Drop, Error)]
pub enum NpssFault {
    /// A code point is not assigned in the version used.
    #[error("unassigned {:04X} at byte {at}", u32::from(*code))]
    Unassigned {
        /// The byte place, from 0, of the first such code point.
        at: usize,
        /// That code point.
        code: char,
    },
    /// Memory ran out; each code point is assigned.
    #[error("out of memory")]
    Memory,
}

/// Why no stabilized form of a text was made: a code point is not assigned, which takes no memory to tell, or else memory
/// ran out.
fn fault_of<T: NormTable>(table: &T, text: &str) -> NpssFault
    ensures { IsNpssFault (T.model table.now) (chars text.now) result }
{
    match first_unassigned_char(table, text) {
        Some((at, code)) => NpssFault::Unassigned { at, code },
        None => NpssFault::Memory,
    }
}

/// Writes the stabilized form of a text that was cut behind some assigned code points that pass the quick check, into an
/// empty text.
fn write_stabilized<T: NormTable>(
    normalizer: &Normalizer<'_, T>,
    text: &str,
    cut: QuickCut<'_>,
    out: &mut OutText,
) -> Result<(), NpssFault>
    requires copied { IsCopied (T.model normalizer.now.table.now) normalizer.now.form text.now cut.front.now cut.rest.now }
    requires assigned { IsAssigned (T.model normalizer.now.table.now) (chars cut.front.now) }
    requires empty { out.old ≡ [] }
    ensures bytes { OnOk result (out.new ≡ encode_utf8_all (normal_form (T.model normalizer.now.table.now) normalizer.now.form (chars text.now))) }
    ensures assigned { OnOk result (IsAssigned (T.model normalizer.now.table.now) (chars text.now)) }
    ensures fault { IfErr result (IsNpssFault (T.model normalizer.now.table.now) (chars text.now)) }
{
    if let Ok(true) = write_cut(normalizer, true, text, cut, out) {
        return Ok(());
    }
    Err(fault_of(normalizer.table, text))
}

/// The stabilized form of a text that was cut behind some assigned code points that pass the quick check.
fn stabilize<T: NormTable>(
    normalizer: &Normalizer<'_, T>,
    text: &str,
    cut: QuickCut<'_>,
) -> Result<String, NpssFault>
    requires copied { IsCopied (T.model normalizer.now.table.now) normalizer.now.form text.now cut.front.now cut.rest.now }
    requires assigned { IsAssigned (T.model normalizer.now.table.now) (chars cut.front.now) }
    ensures bytes { IfOk result (λ t. string_bytes t ≡ encode_utf8_all (normal_form (T.model normalizer.now.table.now) normalizer.now.form (chars text.now))) }
    ensures assigned { OnOk result (IsAssigned (T.model normalizer.now.table.now) (chars text.now)) }
    ensures fault { IfErr result (IsNpssFault (T.model normalizer.now.table.now) (chars text.now)) }
{
    let Ok(mut out) = OutText::with_capacity(normalizer.alloc, text.len()) else {
        return Err(fault_of(normalizer.table, text));
    };
    write_stabilized(normalizer, text, cut, &mut out)?;
    Ok(out.into_text())
}

/// The stabilized form of a text: its normal form, refused where a code point is not assigned.
///
/// # Errors
///
/// `Unassigned` exactly where a code point is not assigned, whether or not there is memory; `Memory`
/// where memory ran out.
pub fn npss<T: NormTable>(
    alloc: Global,
    table: &T,
    wanted: Form,
    text: &str,
) -> Result<String, NpssFault>
    ensures normal { IfOk result (λ t. IsNormalForm (T.model table.now) wanted (chars text.now) (chars (string_bytes t))) }
    ensures assigned { OnOk result (IsAssigned (T.model table.now) (chars text.now)) }
    ensures fault { IfErr result (IsNpssFault (T.model table.now) (chars text.now)) }
{
    table.meets_conditions();
    let cut = split_quick_span(table, wanted, true, text);
    let form = wanted;
    let normalizer = Normalizer { alloc, table, form };
    let key = stabilize(&normalizer, text, cut)?;
    Ok(key)
}

/// The stabilized form of a text that is given up (UAX #15, section 12). Where the text is known to be its own
/// stabilized form, it is answered itself, and no memory is taken.
///
/// # Errors
///
/// As `npss`.
pub fn into_npss<T: NormTable>(
    alloc: Global,
    table: &T,
    wanted: Form,
    text: String,
) -> Result<String, NpssFault>
    ensures normal { IfOk result (λ t. IsNormalForm (T.model table.now) wanted (chars (string_bytes text)) (chars (string_bytes t))) }
    ensures assigned { OnOk result (IsAssigned (T.model table.now) (chars (string_bytes text))) }
    ensures fault { IfErr result (IsNpssFault (T.model table.now) (chars (string_bytes text))) }
{
    table.meets_conditions();
    let whole = text.as_str();
    let cut = split_quick_span(table, wanted, true, whole);
    if cut.rest.is_empty() {
        return Ok(text);
    }
    let form = wanted;
    let normalizer = Normalizer { alloc, table, form };
    let key = stabilize(&normalizer, whole, cut)?;
    Ok(key)
}

/// The stabilized form of a text that is lent (UAX #15, section 12). Where the text is known to be its own
/// stabilized form, it is answered itself, and no memory is taken.
///
/// # Errors
///
/// As `npss`.
pub fn lend_npss<'a, T: NormTable>(
    alloc: Global,
    table: &T,
    wanted: Form,
    text: &'a str,
) -> Result<CowStr<'a>, NpssFault>
    ensures normal { IfOk result (λ t. IsNormalForm (T.model table.now) wanted (chars text.now) (chars (cow_str_bytes t))) }
    ensures assigned { OnOk result (IsAssigned (T.model table.now) (chars text.now)) }
    ensures fault { IfErr result (IsNpssFault (T.model table.now) (chars text.now)) }
{
    table.meets_conditions();
    let cut = split_quick_span(table, wanted, true, text);
    if !cut.rest.is_empty() {
        let form = wanted;
        let normalizer = Normalizer { alloc, table, form };
        let key = stabilize(&normalizer, text, cut)?;
        return Ok(CowStr::Owned(key));
    }
    Ok(CowStr::Borrowed(text))
}

/// Makes the stabilized form of a text in a buffer (UAX #15, section 12), and answers whether it stands there. Where the text
/// is known to be its own stabilized form, nothing is made, and the buffer is as it was. A text that is no longer than those
/// before it takes no memory, but for long runs of non-starters.
///
/// # Errors
///
/// As `npss`. Then nothing stands in the buffer.
pub fn make_npss<T: NormTable>(
    buffer: &mut FormBuffer,
    table: &T,
    wanted: Form,
    text: &str,
) -> Result<bool, NpssFault>
    ensures normal { IfOk result (λ made. IsNormalForm (T.model table.now) wanted (chars text.now) (chars (if made then buffer.new else text.now))) }
    ensures assigned { OnOk result (IsAssigned (T.model table.now) (chars text.now)) }
    ensures own { IfOk result (λ made. made ≡ false → buffer.new ≡ buffer.old) }
    ensures fault { IfErr result (IsNpssFault (T.model table.now) (chars text.now)) }
    ensures refused { OnErr result (buffer.new ≡ []) }
{
    table.meets_conditions();
    let cut = split_quick_span(table, wanted, true, text);
    if cut.rest.is_empty() {
        return Ok(false);
    }
    let normalizer = Normalizer {
        alloc: buffer.alloc,
        table,
        form: wanted,
    };
    if buffer.out.begin(text.len()).is_err() {
        return Err(fault_of(table, text));
    }
    match write_stabilized(&normalizer, text, cut, &mut buffer.out) {
        Ok(()) => {
            // that its bytes are a text, which the prover sees where they are lent
            let _made = buffer.out.as_text();
            Ok(true)
        }
        Err(fault) => {
            buffer.out.clear();
            Err(fault)
        }
    }
}
