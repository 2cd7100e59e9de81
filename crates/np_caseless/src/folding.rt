//! The folding of a string.
ghost use Rattle.std.specs.Prelude.{◌≡◌, chars as code_points, string_bytes, IfOk};
ghost use Rattle.np_caseless.specs.Folded.{fold_all};

use np_code_points::Memory;
use np_code_points::text::{chars_of, string_of};
use np_foldings::Foldings;
use std::alloc::Global;

/// The foldings of code points, one behind the other.
pub(crate) fn fold_chars(
    alloc: Global,
    foldings: &Foldings,
    chars: &[char],
) -> Result<Vec<char>, Memory>
    ensures { IfOk result (λ folded. folded.items ≡ fold_all foldings.now chars.now) }
{
    let mut folded = Vec::with_capacity(alloc, chars.len())?;
    for code in chars {
        match foldings.find(*code) {
            Some(mapping) => folded.extend_from_slice(mapping)?,
            None => folded.push(*code)?,
        }
    }
    Ok(folded)
}

/// The full case folding of a text, which is neither normalized before nor behind.
///
/// # Errors
///
/// `Memory` where memory ran out.
pub fn fold_text(alloc: Global, foldings: &Foldings, text: &str) -> Result<String, Memory>
    ensures { IfOk result (λ folded. code_points (string_bytes folded) ≡ fold_all foldings.now (code_points text.now)) }
{
    let chars = chars_of(alloc, text)?;
    let folded = fold_chars(alloc, foldings, &chars)?;
    string_of(alloc, &folded)
}
