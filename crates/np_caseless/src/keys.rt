//! Caseless keys and caseless matches.
ghost use Rattle.std.specs.Prelude.{◌≡◌, ◌↔◌, true, false, chars, string_bytes, IfOk, IfErr, OnOk, IsTrue};
ghost use Rattle.np_code_points.specs.Forms.{is_compat};
ghost use Rattle.np_forms.specs.Assigned.{IsAssigned};
ghost use Rattle.np_forms.specs.Faults.{IsNpssFault};
ghost use Rattle.np_caseless.specs.Caseless.{IsCaseless, IsFolded, MatchCaselessly};
ghost use Rattle.np_caseless.specs.Folded.{folded_by};

use crate::folding::fold_text;
use np_code_points::{Form, Memory};
use np_foldings::Foldings;
use np_forms::{NpssFault, equivalent, first_unassigned_char, form};
use np_versions::NormTable;
use std::alloc::Global;

/// The folding of the NFD form (The Unicode Standard, D145).
fn folded_once<T: NormTable>(
    alloc: Global,
    table: &T,
    foldings: &Foldings,
    text: &str,
) -> Result<String, Memory>
    ensures { IfOk result (λ t. IsFolded (folded_by (T.model table.now) foldings.now) false (chars text.now) (chars (string_bytes t))) }
{
    let decomposed = form(alloc, table, Form::Nfd, text)?;
    fold_text(alloc, foldings, decomposed.as_str())
}

/// The folding of the NFKD form of the folding of the NFD form (The Unicode Standard, D146).
fn folded_twice<T: NormTable>(
    alloc: Global,
    table: &T,
    foldings: &Foldings,
    text: &str,
) -> Result<String, Memory>
    ensures { IfOk result (λ t. IsFolded (folded_by (T.model table.now) foldings.now) true (chars text.now) (chars (string_bytes t))) }
{
    let folded = folded_once(alloc, table, foldings, text)?;
    let decomposed = form(alloc, table, Form::Nfkd, folded.as_str())?;
    fold_text(alloc, foldings, decomposed.as_str())
}

/// What is normalized last.
fn folded<T: NormTable>(
    alloc: Global,
    table: &T,
    foldings: &Foldings,
    compat: bool,
    text: &str,
) -> Result<String, Memory>
    ensures { IfOk result (λ t. IsFolded (folded_by (T.model table.now) foldings.now) compat (chars text.now) (chars (string_bytes t))) }
{
    if compat {
        folded_twice(alloc, table, foldings, text)
    } else {
        folded_once(alloc, table, foldings, text)
    }
}

/// The caseless form of a text (The Unicode Standard, D145 and D146), whether or not its code points are assigned.
///
/// # Errors
///
/// `Memory` where memory ran out.
pub fn caseless_form<T: NormTable>(
    alloc: Global,
    table: &T,
    foldings: &Foldings,
    wanted: Form,
    text: &str,
) -> Result<String, Memory>
    ensures { IfOk result (λ t. IsCaseless (folded_by (T.model table.now) foldings.now) wanted (chars text.now) (chars (string_bytes t))) }
{
    let folded = folded(alloc, table, foldings, wanted.compat(), text)?;
    form(alloc, table, wanted, folded.as_str())
}

/// The caseless key of a text: its caseless form, refused where a code point of the text is not assigned. Two texts have one
/// key exactly where they match caselessly (`laws::one_match`), and no later version that extends this one with its folding
/// changes it (`laws::stability`).
///
/// # Errors
///
/// `Unassigned` exactly where a code point of the text is not assigned, with the first such place in the text, not in its
/// folding; `Memory` where memory ran out.
pub fn caseless_key<T: NormTable>(
    alloc: Global,
    table: &T,
    foldings: &Foldings,
    wanted: Form,
    text: &str,
) -> Result<String, NpssFault>
    ensures key { IfOk result (λ t. IsCaseless (folded_by (T.model table.now) foldings.now) wanted (chars text.now) (chars (string_bytes t))) }
    ensures assigned { OnOk result (IsAssigned (T.model table.now) (chars text.now)) }
    ensures fault { IfErr result (IsNpssFault (T.model table.now) (chars text.now)) }
{
    if let Some((at, code)) = first_unassigned_char(table, text) {
        return Err(NpssFault::Unassigned { at, code });
    }
    match caseless_form(alloc, table, foldings, wanted, text) {
        Ok(key) => Ok(key),
        Err(Memory) => Err(NpssFault::Memory),
    }
}

/// Whether the two texts match caselessly: canonically (The Unicode Standard, D145), or where `compat` compatibly (D146). Code
/// points that are not assigned are taken too.
///
/// # Errors
///
/// `Memory` where memory ran out.
pub fn caseless_match<T: NormTable>(
    alloc: Global,
    table: &T,
    foldings: &Foldings,
    compat: bool,
    texts: (&str, &str),
) -> Result<bool, Memory>
    ensures { IfOk result (λ b. IsTrue b ↔
        MatchCaselessly (folded_by (T.model table.now) foldings.now) compat (chars texts.entry.0.now) (chars texts.entry.1.now)) }
{
    table.meets_conditions();
    let (left, right) = texts;
    let one = folded(alloc, table, foldings, compat, left)?;
    let other = folded(alloc, table, foldings, compat, right)?;
    equivalent(alloc, table, compat, one.as_str(), other.as_str())
}
