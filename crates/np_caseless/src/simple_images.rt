//! Images that have as many bytes as what they stand for, and stand for it whatever is around it.
ghost use Rattle.std.specs.Prelude.{◌≡◌, ◌≢◌, ◌+◌, ◌*◌, ◌∷◌, [], ◌≤◌, ℕ, Bool, true, false, chars as code_points, encode_utf8, length, IfOk, IfSome, IsTrue, IsUtf8};
ghost use Rattle.std.specs.Char.{to_ascii_lowercase};
ghost use Rattle.std.specs.List.{All};
ghost use Rattle.np_code_points.specs.Forms.{is_compat};
ghost use Rattle.np_caseless.specs.Folded.{FoldedVersion};
ghost use Rattle.np_versions.specs.Boundaries.{BeginsAtBoundary};
ghost use Rattle.np_caseless.specs.inside.Images.{AreImages};
ghost use Rattle.np_caseless.specs.inside.ImageTables.{AreAllImages};
ghost use Rattle.np_caseless.specs.SimpleKeys.{AddsNoControl};
ghost use Rattle.np_caseless.specs.inside.SimpleImages.{AreLowered, AreOfForm, AreOfForms, IsApart, IsSimple, LowerAscii, MayBecome, bytes_of};

use crate::image_tables::Images;
use crate::image_texts::image_of;
use crate::marks::is_marked;
use crate::own_forms::is_own_form;
use np_code_points::{Form, Memory};
use np_versions::NormTable;
use std::alloc::Global;

/// The code points below this may have their images here: those that fold and what they fold to, and the first ones.
const SIMPLE: usize = 0x3000;

/// The code points below this have theirs, folding or not: ASCII, the other signs of Latin-1, and letters.
const FIRST: u32 = 0x250;

/// What an image has above its bytes.
const KNOWN: u32 = 0x100_0000;

/// How many characters ASCII has.
const ASCII: usize = 128;

/// The bytes of an image, as many as its code point has, the first one lowest, and `KNOWN`; 0 where no image is known.
#[derive(Clone, Copy)]
pub(crate) struct SimpleImage {
    pub(crate) bytes: u32,
}

/// The images by each form, at the places of their code points.
#[derive(Drop)]
pub(crate) struct SimpleImages {
    pub(crate) nfd: Vec<SimpleImage>,
    pub(crate) nfc: Vec<SimpleImage>,
    pub(crate) nfkd: Vec<SimpleImage>,
    pub(crate) nfkc: Vec<SimpleImage>,
    /// Whether each has the lowercases of ASCII.
    pub(crate) lowers: bool,
}

/// No image.
fn unknown() -> SimpleImage
    ensures { result.bytes ≡ 0 }
{
    SimpleImage { bytes: 0 }
}

/// Three bytes as an image.
fn packed(first: u8, second: u8, third: u8) -> SimpleImage
    ensures { result.bytes ≡ 0x1000000 + first + 256 * second + 65536 * third }
{
    SimpleImage {
        bytes: KNOWN + u32::from(first) + 256 * u32::from(second) + 65536 * u32::from(third),
    }
}

/// Some bytes as an image, where they are one to three.
fn image_with(bytes: &[u8]) -> SimpleImage
    ensures { result.bytes ≢ 0 → bytes_of (length bytes.now) result ≡ bytes.now }
{
    match bytes {
        [first] => packed(*first, 0, 0),
        [first, second] => packed(*first, *second, 0),
        [first, second, third] => packed(*first, *second, *third),
        _ => unknown(),
    }
}

/// Whether no byte is a control of ASCII.
fn has_no_control(bytes: &[u8]) -> bool
    ensures { IsTrue result → All (λ b. 32 ≤ b) bytes.now }
{
    for byte in bytes {
        if *byte < 32 {
            return false;
        }
    }
    true
}

/// Whether an image is known to have no control that the code point hasn't.
fn adds_no_control(own: &str, image: &str) -> bool
    ensures { IsTrue result → AddsNoControl own.now image.now }
{
    image == own || has_no_control(image.as_bytes())
}

/// An image of a code point, where it has as many bytes and adds no control.
fn image_like(own: &str, image: &str) -> SimpleImage
    ensures bytes { result.bytes ≢ 0 → bytes_of (length own.now) result ≡ image.now }
    ensures ends { result.bytes ≢ 0 → AddsNoControl own.now image.now }
{
    if image.len() == own.len() && adds_no_control(own, image) {
        image_with(image.as_bytes())
    } else {
        unknown()
    }
}

/// The image of a code point, itself too, where it is known.
fn known_image<'t>(images: &'t Images, code: char, own: &'t str) -> Option<&'t str>
    requires { own.now ≡ encode_utf8 code }
    ensures text { IfSome result (λ text. IsUtf8 text.now) }
    ensures image { (v : FoldedVersion) (compat : Bool) → AreAllImages v compat images.now
        → IfSome result (λ text. AreImages v compat (code ∷ []) (code_points text.now)) }
{
    if is_marked(images.own.as_slice(), code) {
        Some(own)
    } else {
        image_of(images, code)
    }
}

/// Whether the form is known to part before a text.
fn begins_apart<T: NormTable>(table: &T, form: Form, text: &str) -> bool
    ensures { IsTrue result → BeginsAtBoundary (T.model table.now) form (code_points text.now) }
{
    match text.chars().next() {
        Some(code) => table.is_boundary(form, code),
        None => true,
    }
}

/// Whether a text is known to be assigned, and to be its own form, which parts before it.
fn is_apart<T: NormTable>(table: &T, form: Form, text: &str) -> bool
    ensures { IsTrue result → (v : FoldedVersion) → v.version ≡ T.model table.now → IsApart v form text.now }
{
    begins_apart(table, form, text) && is_own_form(table, form, text)
}

/// The image of a code point, where it is known and as said.
fn simple_image<T: NormTable>(table: &T, images: &Images, form: Form, code: char) -> SimpleImage
    ensures { (v : FoldedVersion) → v.version ≡ T.model table.now → AreAllImages v (is_compat form) images.now → IsSimple v form code result }
{
    let mut room = [0; 4];
    let own = code.encode_utf8(&mut room);
    match known_image(images, code, own) {
        Some(image) => {
            if is_apart(table, form, image) {
                image_like(own, image)
            } else {
                unknown()
            }
        }
        None => unknown(),
    }
}

/// Puts the image of a code point to its place, where it has one and none is known yet.
fn put<T: NormTable>(table: &T, images: &Images, form: Form, code: char, list: &mut [SimpleImage])
    ensures length { length list.new ≡ length list.old }
    ensures simple { MayBecome (T.model table.now) images.now form list.old list.new }
{
    let at = u32::from(code) as usize;
    if at < list.len() && list[at].bytes == 0 {
        list[at] = simple_image(table, images, form, code);
    }
}

/// Puts those of the code points of a text.
fn put_text<T: NormTable>(
    table: &T,
    images: &Images,
    form: Form,
    text: &str,
    list: &mut [SimpleImage],
)
    ensures length { length list.new ≡ length list.old }
    ensures simple { MayBecome (T.model table.now) images.now form list.old list.new }
{
    for code in text.chars() {
        put(table, images, form, code, list);
    }
}

/// Puts those of the first code points.
fn put_first<T: NormTable>(table: &T, images: &Images, form: Form, list: &mut [SimpleImage])
    ensures length { length list.new ≡ length list.old }
    ensures simple { MayBecome (T.model table.now) images.now form list.old list.new }
{
    for code in 0..FIRST {
        if let Some(code) = char::from_u32(code) {
            put(table, images, form, code, list);
        }
    }
}

/// Puts those of the code points that fold, and of what they fold to.
fn put_folding<T: NormTable>(table: &T, images: &Images, form: Form, list: &mut [SimpleImage])
    ensures length { length list.new ≡ length list.old }
    ensures simple { MayBecome (T.model table.now) images.now form list.old list.new }
{
    for at in 0..images.of_foldings.len() {
        let image = &images.of_foldings[at];
        put(table, images, form, image.code, list);
        put_text(table, images, form, image.text.as_str(), list);
    }
}

/// Puts both.
fn put_all<T: NormTable>(table: &T, images: &Images, form: Form, list: &mut [SimpleImage])
    ensures length { length list.new ≡ length list.old }
    ensures simple { MayBecome (T.model table.now) images.now form list.old list.new }
{
    put_first(table, images, form, list);
    put_folding(table, images, form, list);
}

/// The images by a form, at the places of their code points.
fn simple_images<T: NormTable>(
    alloc: Global,
    table: &T,
    images: &Images,
    form: Form,
) -> Result<Vec<SimpleImage>, Memory>
    ensures { (v : FoldedVersion) → v.version ≡ T.model table.now → AreAllImages v (is_compat form) images.now
        → IfOk result (λ list. AreOfForm v form list.items) }
{
    let mut list = Vec::new(alloc);
    list.resize(SIMPLE, unknown())?;
    put_all(table, images, form, list.as_mut_slice());
    Ok(list)
}

/// Whether each character of ASCII is known to have its lowercase.
fn lower_ascii(list: &[SimpleImage]) -> bool
    ensures { IsTrue result → LowerAscii list.now }
{
    if list.len() < ASCII {
        return false;
    }
    for at in 0..ASCII {
        if list[at].bytes != KNOWN + u32::from((at as u8).to_ascii_lowercase()) {
            return false;
        }
    }
    true
}

impl SimpleImages {
    /// The images by each form, of those by each kind of normalization.
    ///
    /// # Errors
    ///
    /// `Memory` where memory ran out.
    pub(crate) fn build<T: NormTable>(
        alloc: Global,
        table: &T,
        canonical: &Images,
        compatible: &Images,
    ) -> Result<SimpleImages, Memory>
        ensures images { (v : FoldedVersion) → v.version ≡ T.model table.now → AreAllImages v false canonical.now → AreAllImages v true compatible.now
            → IfOk result (AreOfForms v) }
        ensures lowers { IfOk result AreLowered }
    {
        let nfd = simple_images(alloc, table, canonical, Form::Nfd)?;
        let nfc = simple_images(alloc, table, canonical, Form::Nfc)?;
        let nfkd = simple_images(alloc, table, compatible, Form::Nfkd)?;
        let nfkc = simple_images(alloc, table, compatible, Form::Nfkc)?;
        let lowers = lower_ascii(nfd.as_slice())
            && lower_ascii(nfc.as_slice())
            && lower_ascii(nfkd.as_slice())
            && lower_ascii(nfkc.as_slice());
        Ok(SimpleImages {
            nfd,
            nfc,
            nfkd,
            nfkc,
            lowers,
        })
    }

    /// Those by one form.
    pub(crate) fn by_form(&self, form: Form) -> &[SimpleImage]
        ensures images { (v : FoldedVersion) → AreOfForms v self.now → AreOfForm v form result.now }
        ensures lowers { AreLowered self.now → IsTrue self.now.lowers → LowerAscii result.now }
    {
        match form {
            Form::Nfd => self.nfd.as_slice(),
            Form::Nfc => self.nfc.as_slice(),
            Form::Nfkd => self.nfkd.as_slice(),
            Form::Nfkc => self.nfkc.as_slice(),
        }
    }
}
