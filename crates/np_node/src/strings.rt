//! Strings that may be kept, and their keys.
ghost use Rattle.std.specs.Cow.{cow_str_bytes};
ghost use Rattle.std.specs.Prelude.{◌≡◌, ◌≤◌, ◌<◌, ◌^◌, length, IfOk, IfErr, OnOk};
ghost use Rattle.np_node.specs.Strings.{most_bytes, IsKeepable, IsKey, IsStringFault};
ghost use Rattle.np_node.specs.inside.KeyFaults.{IsKeyFault};
ghost use Rattle.np_versions.specs.Versions.{VersionData};

use crate::faults::NodeFault;
use np_code_points::Form;
use np_code_points::text::text_of;
use np_forms::{NpssFault, first_unassigned_char, lend_npss};
use np_versions::NormTable;
use std::alloc::Global;
use std::borrow::CowStr;

/// The most bytes of a string.
pub(crate) const LIMIT: usize = 65_536;

/// The bytes as a text that is not too long.
pub(crate) fn short_text(string: &[u8]) -> Result<&str, NodeFault>
    ensures ok { IfOk result (λ text. text.now ≡ string.now) }
    ensures short { IfOk result (λ text. length text.now ≤ most_bytes) }
    ensures fault { (v : VersionData) → IfErr result (IsStringFault v string.now) }
{
    if string.len() > LIMIT {
        return Err(NodeFault::TooLong);
    }
    match text_of(string) {
        Ok(text) => Ok(text),
        Err(fault) => Err(NodeFault::NotUtf8 { at: fault.at }),
    }
}

/// Refuses a text of which a code point is not assigned.
pub(crate) fn check_assigned<T: NormTable>(table: &T, text: &str) -> Result<(), NodeFault>
    requires { length text.now ≤ most_bytes }
    ensures ok { OnOk result (IsKeepable (T.model table.now) text.now) }
    ensures fault { IfErr result (IsStringFault (T.model table.now) text.now) }
{
    match first_unassigned_char(table, text) {
        Some((at, code)) => Err(NodeFault::Unassigned { at, code }),
        None => Ok(()),
    }
}

/// The key of a text in one pass over it: the text itself where that is known to be its key, which takes no memory.
///
/// # Errors
///
/// `Unassigned` where one isn't; else `Memory` where memory ran out.
pub(crate) fn key_for<'a, T: NormTable>(
    alloc: Global,
    table: &T,
    form: Form,
    text: &'a str,
) -> Result<CowStr<'a>, NodeFault>
    requires { length text.now ≤ most_bytes }
    ensures keepable { OnOk result (IsKeepable (T.model table.now) text.now) }
    ensures key { IfOk result (λ key. IsKey (T.model table.now) form text.now (cow_str_bytes key)) }
    ensures size { IfOk result (λ key. length (cow_str_bytes key) < 2 ^ 32) }
    ensures fault { IfErr result (IsKeyFault (T.model table.now) text.now) }
{
    table.meets_conditions();
    match lend_npss(alloc, table, form, text) {
        Ok(key) => {
            // that its bytes are a text, which the prover sees where they are lent
            let _text = key.as_str();
            Ok(key)
        }
        Err(NpssFault::Unassigned { at, code }) => Err(NodeFault::Unassigned { at, code }),
        Err(NpssFault::Memory) => Err(NodeFault::Memory),
    }
}
