//! The answer to a line: `=` and its key, or `!` and why it has none.
ghost use Rattle.std.specs.Prelude.{◌≡◌, ◌++◌, ◌∷◌, ◌≤◌, false, length, string_bytes, IfOk, IsTrue, OnOk};
ghost use Rattle.np_code_points.specs.Codes.{unassigned};
ghost use Rattle.np_code_points.specs.Lines.{HasNo};
ghost use Rattle.np_lines.specs.Answers.{IsAnswerBy, IsAnswerWithinBy, IsToldKey, not_utf8, told_key, told_refusal};
ghost use Rattle.np_lines.specs.Lines.{byte_of};
ghost use Rattle.np_lines.specs.inside.Steps.{IsTold};

use crate::line_keys::LineKeys;
use crate::lines::LineEnd;
use np_code_points::Memory;
use np_code_points::codes::write_unassigned;
use np_code_points::lines::cut;
use np_code_points::text::text_of;
use np_forms::NpssFault;
use std::alloc::Global;

/// The most bytes that a line may have, without the byte that ends it.
pub const LIMIT: usize = 65_536;

/// Appends `!` and why there is no key.
pub(crate) fn push_refusal(out: &mut Vec<u8>, why: &str) -> Result<(), Memory>
    ensures { OnOk result (out.new.items ≡ out.old.items ++ told_refusal why.now) }
{
    out.push(b'!')?;
    out.extend_from_slice(why.as_bytes())?;
    Ok(())
}

/// Appends `=` and a key.
fn push_key(out: &mut Vec<u8>, key: &str) -> Result<(), Memory>
    ensures { OnOk result (out.new.items ≡ out.old.items ++ told_key key.now) }
{
    out.push(b'=')?;
    out.extend_from_slice(key.as_bytes())?;
    Ok(())
}

/// Whether a byte is among these.
fn holds(bytes: &[u8], byte: u8) -> bool
    ensures some { IsTrue result → ¬ HasNo byte bytes.now }
    ensures none { result ≡ false → HasNo byte bytes.now }
{
    let (_before, behind) = cut(bytes, byte);
    behind.is_some()
}

/// Appends `=` and a key, or that it has the byte that ends lines. Answers whether it is refused.
fn push_told_key(out: &mut Vec<u8>, end: LineEnd, key: &str) -> Result<bool, Memory>
    ensures { IfOk result (IsTold (IsToldKey end key.now) out.old.items out.new.items) }
{
    if holds(key.as_bytes(), end.byte()) {
        push_refusal(out, "line end in key")?;
        return Ok(true);
    }
    push_key(out, key)?;
    Ok(false)
}

/// That a line stops being text at a place.
fn not_utf8_text(alloc: Global, at: usize) -> Result<String, Memory>
    ensures { IfOk result (λ text. string_bytes text ≡ not_utf8 at) }
{
    Ok(format!(in alloc; "not UTF-8 at byte {at}")?)
}

/// That a line has an unassigned code point at a place.
fn unassigned_text(alloc: Global, at: usize, code: char) -> Result<String, Memory>
    ensures { IfOk result (λ text. string_bytes text ≡ unassigned at code) }
{
    let mut text = String::new(alloc);
    write_unassigned(&mut text, at, code)?;
    Ok(text)
}

/// Appends the answer to a line that is a text within the limit. Answers whether it is refused.
pub(crate) fn push_text_answer<K: LineKeys>(
    alloc: Global,
    keys: &K,
    end: LineEnd,
    text: &str,
    out: &mut Vec<u8>,
) -> Result<bool, Memory>
    ensures { IfOk result (IsTold (IsAnswerWithinBy (K.is_key keys.now) (K.version keys.now) end text.now) out.old.items out.new.items) }
{
    match keys.lend_key(alloc, text) {
        Ok(key) => push_told_key(out, end, key.as_str()),
        Err(NpssFault::Unassigned { at, code }) => {
            let why = unassigned_text(alloc, at, code)?;
            push_refusal(out, why.as_str())?;
            Ok(true)
        }
        Err(NpssFault::Memory) => Err(Memory),
    }
}

/// Appends the answer to a line, without the byte that ends it. Answers whether it is refused.
pub(crate) fn push_answer<K: LineKeys>(
    alloc: Global,
    keys: &K,
    end: LineEnd,
    line: &[u8],
    out: &mut Vec<u8>,
) -> Result<bool, Memory>
    ensures { IfOk result (IsTold (IsAnswerBy (K.is_key keys.now) (K.version keys.now) end line.now) out.old.items out.new.items) }
{
    if line.len() > LIMIT {
        push_refusal(out, "too long")?;
        return Ok(true);
    }
    match text_of(line) {
        Ok(text) => push_text_answer(alloc, keys, end, text, out),
        Err(fault) => {
            let why = not_utf8_text(alloc, fault.at)?;
            push_refusal(out, why.as_str())?;
            Ok(true)
        }
    }
}
