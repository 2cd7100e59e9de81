//! The four normalization forms (The Unicode Standard, D118 to D121).
ghost use Rattle.std.specs.Prelude.{◌≡◌, ◌↔◌, IsTrue, chars, encode_utf8_all, string_bytes, IfOk, OnErr, [], false, if◌then◌else◌};
ghost use Rattle.np_forms.specs.Forms.{IsNormalForm};
ghost use Rattle.np_forms.specs.inside.Copies.{IsCopied};
ghost use Rattle.np_forms.specs.inside.NormalForms.{normal_form};

use crate::copying::{QuickCut, split_quick_span, write_cut};
use crate::form_buffers::FormBuffer;
use crate::normalizers::Normalizer;
use crate::out_texts::OutText;
use crate::pieces::has_form;
use np_code_points::{Form, Memory};
use np_versions::NormTable;
use std::alloc::Global;

/// The form of a text that was cut behind a front which passes the quick check.
fn form_behind<T: NormTable>(
    normalizer: &Normalizer<'_, T>,
    text: &str,
    cut: QuickCut<'_>,
) -> Result<String, Memory>
    requires { IsCopied (T.model normalizer.now.table.now) normalizer.now.form text.now cut.front.now cut.rest.now }
    ensures { IfOk result (λ t. string_bytes t ≡ encode_utf8_all (normal_form (T.model normalizer.now.table.now) normalizer.now.form (chars text.now))) }
{
    let mut out = OutText::with_capacity(normalizer.alloc, text.len())?;
    // where nothing is asked of the code points, none ends it
    let _all = write_cut(normalizer, false, text, cut, &mut out)?;
    Ok(out.into_text())
}

/// The normal form of a text, whether or not its code points are assigned.
///
/// # Errors
///
/// `Memory` where memory ran out.
pub fn form<T: NormTable>(
    alloc: Global,
    table: &T,
    form: Form,
    text: &str,
) -> Result<String, Memory>
    ensures normal { IfOk result (λ t. IsNormalForm (T.model table.now) form (chars text.now) (chars (string_bytes t))) }
{
    table.meets_conditions();
    let cut = split_quick_span(table, form, false, text);
    let normalizer = Normalizer { alloc, table, form };
    let made = form_behind(&normalizer, text, cut)?;
    Ok(made)
}

/// Makes the normal form of a text in a buffer, and answers whether it stands there. Where the text is known to be its own
/// form, nothing is made, and the buffer is as it was. A text that is no longer than those before it takes no memory, but for long
/// runs of non-starters.
///
/// # Errors
///
/// `Memory` where memory ran out. Then nothing stands in the buffer.
pub fn make_form<T: NormTable>(
    buffer: &mut FormBuffer,
    table: &T,
    wanted: Form,
    text: &str,
) -> Result<bool, Memory>
    ensures normal { IfOk result (λ made. IsNormalForm (T.model table.now) wanted (chars text.now) (chars (if made then buffer.new else text.now))) }
    ensures own { IfOk result (λ made. made ≡ false → buffer.new ≡ buffer.old) }
    ensures refused { OnErr result (buffer.new ≡ []) }
{
    table.meets_conditions();
    let cut = split_quick_span(table, wanted, false, text);
    if cut.rest.is_empty() {
        return Ok(false);
    }
    let normalizer = Normalizer {
        alloc: buffer.alloc,
        table,
        form: wanted,
    };
    buffer.out.begin(text.len())?;
    match write_cut(&normalizer, false, text, cut, &mut buffer.out) {
        Ok(_all) => {
            // that its bytes are a text, which the prover sees where they are lent
            let _made = buffer.out.as_text();
            Ok(true)
        }
        Err(fault) => {
            buffer.out.clear();
            Err(fault)
        }
    }
}

/// Whether a text is its own normal form. The form is made segment by segment, and no further than
/// to the first byte that differs.
///
/// # Errors
///
/// `Memory` where memory ran out.
pub fn is_form<T: NormTable>(
    alloc: Global,
    table: &T,
    wanted: Form,
    text: &str,
) -> Result<bool, Memory>
    ensures { IfOk result (λ b. IsTrue b ↔ IsNormalForm (T.model table.now) wanted (chars text.now) (chars text.now)) }
{
    table.meets_conditions();
    has_form(alloc, table, wanted, text, text.as_bytes())
}
