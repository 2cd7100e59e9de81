//! ASCII that is folded byte by byte.
ghost use Rattle.std.specs.Prelude.{◌≡◌, ◌⊎◌, ◌<◌, ◌≤◌, ◌++◌, ◌∷◌, [], drop, get_or, length, map, IfOk, IfSome, IsAscii, IsTrue, OnOk};
ghost use Rattle.std.specs.Cow.{cow_str_bytes};
ghost use Rattle.np_caseless.specs.Folded.{folded_by};
ghost use Rattle.np_caseless.specs.inside.AsciiFoldings.{FoldsAscii, FoldsToByte, KeepsAscii};
ghost use Rattle.np_foldings.specs.Foldings.{folding_at};

use np_code_points::{Form, Memory};
use np_foldings::Foldings;
use np_versions::NormTable;
use std::alloc::Global;
use std::borrow::CowStr;

/// How many characters ASCII has.
const ASCII: usize = 128;

/// Whether ASCII is known to be assigned, and to be kept by each form.
fn keeps_ascii<T: NormTable>(table: &T) -> bool
    ensures { IsTrue result → KeepsAscii (T.model table.now) }
{
    table.ascii_passes(Form::Nfd)
        && table.ascii_passes(Form::Nfc)
        && table.ascii_passes(Form::Nfkd)
        && table.ascii_passes(Form::Nfkc)
}

/// The one character of ASCII that this one folds to, where that is itself or no control.
fn folded_byte(foldings: &Foldings, byte: u8) -> Option<u8>
    ensures { IfSome result (λ b. (folding_at foldings.now byte ≡ b ∷ []) × (b < 128) × ((b ≡ byte) ⊎ (32 ≤ b))) }
{
    match foldings.find(char::from(byte)) {
        None => { if byte < 128 { Some(byte) } else { None } }
        Some([one]) => {
            let code = u32::from(*one);
            if 32 <= code && code < 128 {
                Some(code as u8)
            } else {
                None
            }
        }
        Some(_) => None,
    }
}

/// The same, where that folds to itself.
fn folded_once(foldings: &Foldings, byte: u8) -> Option<u8>
    ensures { IfSome result (FoldsToByte foldings.now byte) }
{
    let folded = folded_byte(foldings, byte)?;
    let again = folded_byte(foldings, folded)?;
    if again == folded { Some(folded) } else { None }
}

/// What each character of ASCII folds to, where that makes the caseless keys of texts of ASCII.
///
/// # Errors
///
/// `Memory` where memory ran out.
pub(crate) fn ascii_foldings<T: NormTable>(
    alloc: Global,
    table: &T,
    foldings: &Foldings,
) -> Result<Option<Vec<u8>>, Memory>
    ensures { IfOk result (λ made. IfSome made (λ bytes. FoldsAscii (folded_by (T.model table.now) foldings.now) bytes.items)) }
{
    if !keeps_ascii(table) {
        return Ok(None);
    }
    let mut bytes = Vec::with_capacity(alloc, ASCII)?;
    'bytes: while bytes.len() < ASCII {
        let Some(folded) = folded_once(foldings, bytes.len() as u8) else {
            return Ok(None);
        };
        bytes.push(folded)?;
    }
    Ok(Some(bytes))
}

/// Appends what the bytes of a text of ASCII fold to, `bytes` having that of each character at its place.
///
/// # Errors
///
/// `Memory` where memory ran out.
pub fn push_folded(out: &mut Vec<u8>, bytes: &[u8], text: &[u8]) -> Result<(), Memory>
    requires size { length bytes.now ≡ 128 }
    requires ascii { IsAscii text.now }
    ensures { OnOk result (out.new.items ≡ out.old.items ++ map (λ b. get_or bytes.now b 0) text.now) }
{
    'bytes: for byte in text {
        out.push(bytes[usize::from(*byte)])?;
    }
    Ok(())
}

/// Writes what the bytes of a text of ASCII fold to, `bytes` having that of each character at its place, to the front of the
/// room.
pub fn fold_into(room: &mut [u8], bytes: &[u8], text: &[u8])
    requires size { length bytes.now ≡ 128 }
    requires ascii { IsAscii text.now }
    requires fits { length text.now ≤ length room.now }
    ensures { room.new ≡ map (λ b. get_or bytes.now b 0) text.now ++ drop (length text.now) room.old }
{
    for at in 0..text.len() {
        room[at] = bytes[usize::from(text[at])];
    }
}

/// Whether each byte of a text of ASCII folds to itself.
fn fold_to_themselves(bytes: &[u8], text: &[u8]) -> bool
    requires size { length bytes.now ≡ 128 }
    requires ascii { IsAscii text.now }
    ensures { IsTrue result → map (λ b. get_or bytes.now b 0) text.now ≡ text.now }
{
    'bytes: for byte in text {
        if bytes[usize::from(*byte)] != *byte {
            return false;
        }
    }
    true
}

/// What the bytes of a text of ASCII fold to, as a text.
///
/// # Errors
///
/// `Memory` where memory ran out.
pub(crate) fn folded_text<'t>(
    alloc: Global,
    bytes: &[u8],
    text: &'t str,
) -> Result<CowStr<'t>, Memory>
    requires size { length bytes.now ≡ 128 }
    requires ascii { IsAscii text.now }
    requires folded { IsAscii (map (λ b. get_or bytes.now b 0) text.now) }
    ensures { IfOk result (λ t. cow_str_bytes t ≡ map (λ b. get_or bytes.now b 0) text.now) }
{
    if fold_to_themselves(bytes, text.as_bytes()) {
        return Ok(CowStr::Borrowed(text));
    }
    let mut folded = Vec::with_capacity(alloc, text.len())?;
    push_folded(&mut folded, bytes, text.as_bytes())?;
    Ok(CowStr::Owned(unsafe { String::from_utf8_unchecked(folded) }))
}
