//! Questions on texts and versions.
ghost use Rattle.std.specs.Prelude.{◌≡◌, None, Some, IfSome};
ghost use Rattle.np_c.specs.Answers.{told_break, IsEquivalentAnswer, IsExtensionAnswer, IsOwnFormAnswer};
ghost use Rattle.np_c.specs.Ascii.{IsAsciiAnswer};
ghost use Rattle.np_chain.specs.Breaks.{number_of};
ghost use Rattle.np_c.specs.Statuses.{alone};
ghost use Rattle.np_c.specs.Versions.{version_in};
ghost use Rattle.np_c.specs.inside.FaultAnswers.{told_answer};

use crate::answers::{Answer, CLOSED, DIFFERENT, DONE, MEMORY, NO_FORM};
use crate::content::Content;
use crate::texts::{form_in, text_in};
use np_chain::{Break, BreakKind, extends};
use np_forms::{equivalent, is_form};
use np_versions::{NormTable, Version};
use std::alloc::Global;

/// The answer that says yes or no.
pub fn answer_of_truth(yes: bool) -> Answer
    ensures { result ≡ told_answer yes }
{
    if yes {
        Answer::of(DONE)
    } else {
        Answer::of(DIFFERENT)
    }
}

/// Whether a text is its own normal form.
pub fn tell_form<T: NormTable>(alloc: Global, table: &T, letter: u8, bytes: &[u8]) -> Answer
    ensures { IsOwnFormAnswer (T.model table.now) letter bytes.now result }
{
    let Some(form) = form_in(letter) else {
        return Answer::of(NO_FORM);
    };
    let text = match text_in(0, bytes) {
        Ok(text) => text,
        Err(answer) => return answer,
    };
    match is_form(alloc, table, form, text) {
        Ok(yes) => answer_of_truth(yes),
        Err(_) => Answer::of(MEMORY),
    }
}

/// Whether a text is its own normal form by the table that is held, which stays where it stands.
pub fn tell_form_by(alloc: Global, content: &Content, letter: u8, bytes: &[u8]) -> Answer
    ensures told { IfSome (version_in (Some content.now)) (λ v. IsOwnFormAnswer v letter bytes.now result) }
    ensures closed { version_in (Some content.now) ≡ None → result ≡ alone 5 }
{
    match content.table() {
        Some(shared) => tell_form(alloc, &*shared.table, letter, bytes),
        None => Answer::of(CLOSED),
    }
}

/// Whether each text of ASCII is known to be its own key.
pub fn tell_ascii<T: NormTable>(table: &T, letter: u8) -> Answer
    ensures { IsAsciiAnswer (T.model table.now) letter result }
{
    let Some(form) = form_in(letter) else {
        return Answer::of(NO_FORM);
    };
    table.meets_conditions();
    np_forms::laws::shortcuts();
    answer_of_truth(table.ascii_passes(form))
}

/// Whether two texts are equivalent: compatible where `compat`, else canonical equivalents.
pub fn tell_equivalent<T: NormTable>(
    alloc: Global,
    table: &T,
    compat: bool,
    left: &[u8],
    right: &[u8],
) -> Answer
    ensures { IsEquivalentAnswer (T.model table.now) compat left.now right.now result }
{
    let first = match text_in(1, left) {
        Ok(text) => text,
        Err(answer) => return answer,
    };
    let second = match text_in(2, right) {
        Ok(text) => text,
        Err(answer) => return answer,
    };
    match equivalent(alloc, table, compat, first, second) {
        Ok(yes) => answer_of_truth(yes),
        Err(_) => Answer::of(MEMORY),
    }
}

/// The number of a kind of break.
pub fn kind_number(kind: BreakKind) -> u32
    ensures { result ≡ number_of kind }
{
    match kind {
        BreakKind::Lost => 1,
        BreakKind::ClassChanged => 2,
        BreakKind::MappingChanged => 3,
        BreakKind::NowExcluded => 4,
        BreakKind::NowIncluded => 5,
        BreakKind::NewComposite => 6,
    }
}

/// The answer that tells a break.
pub fn of_break(first: Break) -> Answer
    ensures { result ≡ told_break first }
{
    Answer {
        fault: kind_number(first.kind),
        code: first.code,
        ..Answer::of(DIFFERENT)
    }
}

/// Whether a version extends an older one, and its first break where it doesn't.
pub fn tell_extension(old: &Version, new: &Version) -> Answer
    ensures { IsExtensionAnswer old.now new.now result }
{
    match extends(old, new) {
        Ok(()) => Answer::of(DONE),
        Err(first) => of_break(first),
    }
}
