//! The image of one code point: mostly itself.
ghost use Rattle.std.specs.Prelude.{◌≡◌, ◌∷◌, [], ◌&&◌, false, chars, string_bytes, IfOk, IfSome, IsTrue};
ghost use Rattle.np_caseless.specs.Folded.{folded_by};
ghost use Rattle.np_caseless.specs.inside.Images.{AreImages};
ghost use Rattle.np_code_points.specs.Hangul.{is_syllable};
ghost use Rattle.np_versions.specs.Versions.{has_hangul};
ghost use Rattle.np_versions.specs.inside.FullDecompositions.{full_of};

use crate::images::are_images;
use crate::keys::caseless_form;
use crate::lent_parts::{do_stay, known_full};
use crate::quick_images::{folded_image, likely_image, quick_parts};
use crate::quiet::{are_quiet, folding_of};
use np_code_points::text::{chars_of, string_of};
use np_code_points::{Form, Memory};
use np_foldings::Foldings;
use np_versions::NormTable;
use std::alloc::Global;
use std::slice;

/// Nearly all images have no more bytes.
const ROOM: usize = 8;

/// The full decomposition of a code point that is no syllable of the arithmetic, lent.
pub(crate) fn lent_full<'t, T: NormTable>(table: &'t T, compat: bool, code: &'t char) -> &'t [char]
    requires { (has_hangul (T.model table.now) && is_syllable code.now) ≡ false }
    ensures { result.now ≡ full_of (T.model table.now) compat code.now }
{
    table.meets_conditions();
    let lent = table.full(*code, compat);
    if lent.is_empty() {
        return slice::from_ref(code);
    }
    lent
}

/// Whether a code point that is no syllable of the arithmetic is known to be its own image, by what it decomposes to.
pub(crate) fn is_own<T: NormTable>(table: &T, foldings: &Foldings, compat: bool, code: char) -> bool
    requires { (has_hangul (T.model table.now) && is_syllable code) ≡ false }
    ensures { IsTrue result → AreImages (folded_by (T.model table.now) foldings.now) compat (code ∷ []) (code ∷ []) }
{
    table.meets_conditions();
    let canonical = lent_full(table, false, &code);
    if !are_quiet(foldings, canonical) {
        return false;
    }
    if !compat {
        return true;
    }
    let compatible = lent_full(table, true, &code);
    if !are_quiet(foldings, compatible) {
        return false;
    }
    if canonical == compatible {
        return true;
    }
    table.class(code) == 0 && canonical == slice::from_ref(&code)
}

/// The text of an image. Its room is asked for at once.
fn text_of_image(alloc: Global, image: &[char]) -> Result<String, Memory>
    ensures { IfOk result (λ text. chars (string_bytes text) ≡ image.now) }
{
    let mut text = String::with_capacity(alloc, ROOM)?;
    for code in image {
        text.push(*code)?;
    }
    Ok(text)
}

/// Whether nothing that folds may change places on the way from a code point. Else no image of it is known.
fn is_orderly<T: NormTable>(table: &T, foldings: &Foldings, compat: bool, code: char) -> bool {
    match known_full(table, false, &code) {
        Some(first) => do_stay(table, foldings, compat, first),
        None => true,
    }
}

/// The image of a code point, where one is known: what it folds to, or its own caseless form.
pub(crate) fn image_of<T: NormTable>(
    alloc: Global,
    table: &T,
    foldings: &Foldings,
    compat: bool,
    code: char,
) -> Result<Option<String>, Memory>
    ensures { IfOk result (λ image. IfSome image (λ text.
        AreImages (folded_by (T.model table.now) foldings.now) compat (code ∷ []) (chars (string_bytes text)))) }
{
    table.meets_conditions();
    if let Some((images, _parts)) = folded_image(table, foldings, compat, &code) {
        return Ok(Some(text_of_image(alloc, images)?));
    }
    let likely = likely_image(alloc, table, foldings, compat, code)?;
    if quick_parts(table, foldings, compat, code, likely.as_slice()).is_some() {
        return Ok(Some(text_of_image(alloc, likely.as_slice())?));
    }
    if !is_orderly(table, foldings, compat, code) {
        return Ok(None);
    }
    let one = slice::from_ref(&code);
    let folding = folding_of(foldings, &code);
    if are_images(alloc, table, foldings, compat, (one, folding))? {
        return Ok(Some(string_of(alloc, folding)?));
    }
    let text = string_of(alloc, one)?;
    let form = if compat { Form::Nfkc } else { Form::Nfc };
    let image = caseless_form(alloc, table, foldings, form, text.as_str())?;
    let codes = chars_of(alloc, image.as_str())?;
    if are_images(alloc, table, foldings, compat, (one, codes.as_slice()))? {
        return Ok(Some(image));
    }
    Ok(None)
}
