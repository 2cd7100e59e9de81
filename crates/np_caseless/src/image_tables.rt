//! The images of all code points of a version with its foldings.
ghost use Rattle.std.specs.Prelude.{◌≡◌, ℕ, Bool, ◌∷◌, [], length, option_map, slice_get, IfOk, IfSome, IsTrue, OnOk};
ghost use Rattle.np_caseless.specs.Folded.{folded_by};
ghost use Rattle.np_caseless.specs.inside.FirstFaults.{AreMapped, Below, IsCodeAt, IsFoldingAt, IsOfArithmetic};
ghost use Rattle.np_caseless.specs.inside.Images.{AreImages};
ghost use Rattle.np_caseless.specs.inside.ImageTables.{AreAllImages, AreKnown, IsCleared, IsKnown, IsLessMarked, IsMarked, IsTold, IsUnmarked};

use crate::own_images::{image_of, is_own};
use crate::quiet_hangul::is_hangul_quiet;
use np_code_points::Memory;
use np_code_points::hangul::{S_BASE, S_COUNT, is_syllable};
use np_foldings::Foldings;
use np_versions::NormTable;
use std::alloc::Global;

/// The image of a code point that isn't its own.
#[derive(Drop)]
pub(crate) struct Image {
    pub(crate) code: char,
    pub(crate) text: String,
}

/// The images of code points, by one kind of normalization.
#[derive(Drop)]
pub(crate) struct Images {
    /// By code point, 1 where it is known to be its own image, as each is that stands beyond the end.
    pub(crate) own: Vec<u8>,
    /// Those of the code points that fold, in their order.
    pub(crate) of_foldings: Vec<Image>,
    /// Those of others that have a mapping, in their order.
    pub(crate) of_rows: Vec<Image>,
}

/// The code points that have a mapping, and the kind of normalization by which their images are looked for.
#[derive(Clone, Copy)]
struct MappedCodes<'a> {
    compat: bool,
    codes: &'a [char],
}

/// Marks a code point as one that isn't known to be its own image. Where it stands beyond the end, the marks grow up to it.
fn clear(own: &mut Vec<u8>, code: char) -> Result<(), Memory>
    ensures { OnOk result (IsCleared own.old.items own.new.items code) }
{
    let at = u32::from(code) as usize;
    if at >= own.len() {
        own.resize(at + 1, 1)?;
    }
    own[at] = 0;
    Ok(())
}

/// The image of a code point, where one is known.
fn known_image<T: NormTable>(
    alloc: Global,
    table: &T,
    foldings: &Foldings,
    compat: bool,
    code: char,
) -> Result<Option<Image>, Memory>
    ensures { IfOk result (λ image. IfSome image (IsKnown (folded_by (T.model table.now) foldings.now) compat)) }
{
    match image_of(alloc, table, foldings, compat, code)? {
        Some(text) => Ok(Some(Image { code, text })),
        None => Ok(None),
    }
}

/// The code point whose folding is listed at a place, from 0.
fn code_at(foldings: &Foldings, at: usize) -> Option<char>
    ensures { result ≡ option_map (λ f. f.code) (slice_get foldings.now at) }
{
    match foldings.get(at) {
        Some(folding) => Some(folding.code),
        None => None,
    }
}

/// The images of the code points that are listed to fold, none of which is marked then.
fn of_foldings<T: NormTable>(
    alloc: Global,
    table: &T,
    foldings: &Foldings,
    compat: bool,
    own: &mut Vec<u8>,
) -> Result<Vec<Image>, Memory>
    ensures known { IfOk result (λ list. AreKnown (folded_by (T.model table.now) foldings.now) compat list.items) }
    ensures cleared { OnOk result ((c : ℕ) → Below (IsFoldingAt foldings.now) (length foldings.now) c → IsUnmarked own.new.items c) }
{
    let mut list = Vec::new(alloc);
    for at in 0..foldings.len() {
        if let Some(code) = code_at(foldings, at) {
            clear(own, code)?;
            if let Some(image) = known_image(alloc, table, foldings, compat, code)? {
                list.push(image)?;
            }
        }
    }
    Ok(list)
}

/// Clears the Hangul syllables, where their arithmetic is on and it isn't known that none folds.
fn clear_syllables<T: NormTable>(
    table: &T,
    foldings: &Foldings,
    own: &mut Vec<u8>,
) -> Result<(), Memory>
    ensures less { OnOk result (IsLessMarked own.old.items own.new.items) }
    ensures told { OnOk result ((compat : Bool) (c : ℕ) → IsOfArithmetic (folded_by (T.model table.now) foldings.now) c
        → IsMarked own.new.items c → AreImages (folded_by (T.model table.now) foldings.now) compat (c ∷ []) (c ∷ [])) }
{
    table.meets_conditions();
    if !table.hangul() || is_hangul_quiet(foldings) {
        return Ok(());
    }
    for at in 0..S_COUNT {
        if let Some(code) = char::from_u32(S_BASE + at) {
            clear(own, code)?;
        }
    }
    Ok(())
}

/// Whether a code point isn't marked as its own image.
fn is_unmarked(own: &[u8], code: char) -> bool
    ensures { IsTrue result → IsUnmarked own.now code }
{
    match own.get(u32::from(code) as usize) {
        Some(mark) => *mark != 1,
        None => false,
    }
}

/// Looks at a code point that has a mapping. Where it isn't known to be its own image it is cleared, unless it was before: only
/// then the answer is `true`.
fn look_at<T: NormTable>(
    table: &T,
    foldings: &Foldings,
    compat: bool,
    code: char,
    own: &mut Vec<u8>,
) -> Result<bool, Memory>
    ensures less { OnOk result (IsLessMarked own.old.items own.new.items) }
    ensures told { OnOk result (IsTold (folded_by (T.model table.now) foldings.now) compat own.new.items code) }
{
    table.meets_conditions();
    if is_unmarked(own.as_slice(), code) {
        return Ok(false);
    }
    if table.hangul() && is_syllable(u32::from(code)) {
        return Ok(false);
    }
    if is_own(table, foldings, compat, code) {
        return Ok(false);
    }
    clear(own, code)?;
    Ok(true)
}

/// The images of code points that have a mapping.
fn of_rows<T: NormTable>(
    alloc: Global,
    table: &T,
    foldings: &Foldings,
    mapped: MappedCodes<'_>,
    own: &mut Vec<u8>,
) -> Result<Vec<Image>, Memory>
    ensures known { IfOk result (λ list. AreKnown (folded_by (T.model table.now) foldings.now) mapped.entry.compat list.items) }
    ensures less { OnOk result (IsLessMarked own.old.items own.new.items) }
    ensures told { OnOk result ((c : ℕ) → Below (IsCodeAt mapped.entry.codes.now) (length mapped.entry.codes.now) c
        → IsTold (folded_by (T.model table.now) foldings.now) mapped.entry.compat own.new.items c) }
{
    let MappedCodes { compat, codes } = mapped;
    let mut list = Vec::new(alloc);
    for code in codes {
        let was_cleared = look_at(table, foldings, compat, *code, own)?;
        if was_cleared {
            if let Some(image) = known_image(alloc, table, foldings, compat, *code)? {
                list.push(image)?;
            }
        }
    }
    Ok(list)
}

impl Images {
    /// The images of all code points, where all that have a mapping in the file are listed.
    ///
    /// # Errors
    ///
    /// `Memory` where memory ran out.
    pub(crate) fn build<T: NormTable>(
        alloc: Global,
        table: &T,
        foldings: &Foldings,
        compat: bool,
        mapped: &[char],
    ) -> Result<Images, Memory>
        ensures { IfOk result (λ images. AreMapped (T.model table.now) mapped.now
            → AreAllImages (folded_by (T.model table.now) foldings.now) compat images) }
    {
        table.meets_conditions();
        foldings.are_in_order();
        let mut own = Vec::new(alloc);
        let of_foldings = of_foldings(alloc, table, foldings, compat, &mut own)?;
        clear_syllables(table, foldings, &mut own)?;
        let codes = MappedCodes {
            compat,
            codes: mapped,
        };
        let of_rows = of_rows(alloc, table, foldings, codes, &mut own)?;
        Ok(Images {
            own,
            of_foldings,
            of_rows,
        })
    }
}
