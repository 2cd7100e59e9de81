//! What may stand in place of a text before the last normalization of its caseless key.
ghost use Rattle.std.specs.Prelude.{◌≡◌, ◌∷◌, [], ℕ, Bool, List, chars as code_points, get_or, string_bytes, IfOk, IfSome, IsTrue, IsUtf8};
ghost use Rattle.np_forms.specs.inside.Readings.{IsRead};
ghost use Rattle.std.specs.List.{All};
ghost use Rattle.np_caseless.specs.Folded.{FoldedVersion};
ghost use Rattle.np_caseless.specs.inside.Images.{AreImages};
ghost use Rattle.np_caseless.specs.inside.ImageTables.{AreAllImages, AreKnown, IsMarked};

use crate::image_tables::{Image, Images};
use crate::marks::behind_marked;
use np_code_points::Memory;
use std::alloc::Global;

/// The image of a code point in a list, which is in the order of its code points, where it is there.
fn found(list: &[Image], code: char) -> Option<&str>
    ensures text { IfSome result (λ text. IsUtf8 text.now) }
    ensures image { (v : FoldedVersion) (compat : Bool) → AreKnown v compat list.now
        → IfSome result (λ text. AreImages v compat (code ∷ []) (code_points text.now)) }
{
    let behind = list.partition_point(|image| image.code <= code);
    if behind == 0 {
        return None;
    }
    let image = &list[behind - 1];
    if image.code == code {
        Some(image.text.as_str())
    } else {
        None
    }
}

/// The image of a code point that isn't marked, where it is known.
pub(crate) fn image_of(images: &Images, code: char) -> Option<&str>
    ensures text { IfSome result (λ text. IsUtf8 text.now) }
    ensures image { (v : FoldedVersion) (compat : Bool) → AreAllImages v compat images.now
        → IfSome result (λ text. AreImages v compat (code ∷ []) (code_points text.now)) }
{
    match found(images.of_foldings.as_slice(), code) {
        Some(text) => Some(text),
        None => found(images.of_rows.as_slice(), code),
    }
}

/// The images of the code points of a text, one behind the other, where all are known.
pub(crate) fn image_text(
    alloc: Global,
    images: &Images,
    text: &str,
) -> Result<Option<String>, Memory>
    ensures { (v : FoldedVersion) (compat : Bool) → AreAllImages v compat images.now
        → IfOk result (λ made. IfSome made (λ t. AreImages v compat (code_points text.now) (code_points (string_bytes t)))) }
{
    let mut made = String::with_capacity(alloc, text.len())?;
    let mut rest = text;
    'runs: loop {
        let behind = behind_marked(images.own.as_slice(), rest);
        let (front, _behind) = rest.split_at(rest.len() - behind.len());
        made.push_str(front)?;
        let mut iter = behind.chars();
        let Some(code) = iter.next() else {
            return Ok(Some(made));
        };
        let Some(image) = image_of(images, code) else {
            return Ok(None);
        };
        made.push_str(image)?;
        rest = iter.as_str();
    }
}
