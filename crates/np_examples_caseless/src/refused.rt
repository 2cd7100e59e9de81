//! Calls that were refused for want of memory, and succeed after all.
use crate::condition_rows::DATA_OF_LOWER;
use crate::folding_files::{CHANGED_FOLDING, V1_FOLDING, V2_FOLDING};
use np_caseless::{
    ConditionFault, FoldedBreak, FoldedTable, audit, caseless_form, caseless_key, caseless_match,
    fold_text,
};
use np_code_points::watched::Watched;
use np_code_points::{Form, Memory};
use np_examples_shared::{Example, Made, V1, V2, holds_over_each, want};
use np_foldings::{FoldingFault, Foldings, Lowercase, lowercases_of, read_foldings};
use np_forms::NpssFault;
use np_versions::NormTable;
use std::alloc::Global;
use std::test::Fail;

// A code point that folds to two, a mark that folds to a letter, and one that stays.
const TEXT: &str = "\u{C5}\u{327}a";

const FOLDED: &str = "a\u{30A}\u{915}a";

// A capital letter, and what has a compatibility mapping to what folds.
const NAME: &str = "A\u{FB01}";

const KEY: &str = "aii";

/// The calls over a version that can want memory.
#[derive(Clone, Copy, PartialEq, Eq)]
enum Call {
    Build,
    Form,
    Key,
    Match,
}

fn read(alloc: Global, folding: &str) -> Result<Foldings, FoldingFault> {
    read_foldings(alloc, &mut Watched::new(folding.as_bytes()))
}

fn read_again(alloc: Global) -> Result<Foldings, FoldingFault> {
    match read(alloc, V1_FOLDING) {
        Err(FoldingFault::Memory) => read(alloc, V1_FOLDING),
        made => made,
    }
}

#[test]
fn a_refused_read_foldings_succeeds_after_all(rt: HostRuntime) -> Result<(), Fail> {
    let foldings = read_again(rt.alloc())?;
    want(foldings.len() == 7, "seven code points fold")
}

fn lowercases_again(alloc: Global) -> Result<Vec<Lowercase>, Memory> {
    match lowercases_of(alloc, DATA_OF_LOWER.as_bytes()) {
        Err(Memory) => lowercases_of(alloc, DATA_OF_LOWER.as_bytes()),
        made => made,
    }
}

#[test]
fn a_refused_lowercases_of_succeeds_after_all(rt: HostRuntime) -> Result<(), Fail> {
    let lowercases = lowercases_again(rt.alloc())?;
    let first = Lowercase {
        code: 0x41,
        lower: 0x61,
    };
    want(lowercases.first() == Some(&first), "that of A is a")
}

fn folded_again(alloc: Global, foldings: &Foldings) -> Result<String, Memory> {
    match fold_text(alloc, foldings, TEXT) {
        Err(Memory) => fold_text(alloc, foldings, TEXT),
        made => made,
    }
}

#[test]
fn a_refused_fold_text_succeeds_after_all(rt: HostRuntime) -> Result<(), Fail> {
    let foldings = read(rt.alloc(), V1_FOLDING)?;
    let same = folded_again(rt.alloc(), &foldings)?.as_str() == FOLDED;
    want(same, "the folding")
}

fn build_again<'t, T: Made>(
    alloc: Global,
    table: &'t T,
    folding: &str,
) -> Result<FoldedTable<&'t T>, ConditionFault> {
    let Ok(foldings) = read(alloc, folding) else {
        return Err(ConditionFault::Memory);
    };
    match FoldedTable::build(alloc, table, foldings, &[]) {
        Err(ConditionFault::Memory) => match read(alloc, folding) {
            Ok(foldings) => FoldedTable::build(alloc, table, foldings, &[]),
            Err(_) => Err(ConditionFault::Memory),
        },
        made => made,
    }
}

fn builds<T: Made>(alloc: Global, table: &T) -> Result<(), Fail> {
    let made = build_again(alloc, table, V1_FOLDING)?;
    want(made.foldings().len() == 7, "its foldings")
}

fn form_again<T: NormTable>(
    alloc: Global,
    table: &T,
    foldings: &Foldings,
) -> Result<String, Memory> {
    match caseless_form(alloc, table, foldings, Form::Nfkc, NAME) {
        Err(Memory) => caseless_form(alloc, table, foldings, Form::Nfkc, NAME),
        made => made,
    }
}

fn forms<T: NormTable>(alloc: Global, table: &T, foldings: &Foldings) -> Result<(), Fail> {
    let same = form_again(alloc, table, foldings)?.as_str() == KEY;
    want(same, "the form")
}

fn key_again<T: NormTable>(
    alloc: Global,
    table: &T,
    foldings: &Foldings,
) -> Result<String, NpssFault> {
    match caseless_key(alloc, table, foldings, Form::Nfkc, NAME) {
        Err(NpssFault::Memory) => caseless_key(alloc, table, foldings, Form::Nfkc, NAME),
        made => made,
    }
}

/// What is told of a text that has a code point which is not assigned.
fn fault_of_lacking<T: NormTable>(
    alloc: Global,
    table: &T,
    foldings: &Foldings,
) -> Option<NpssFault> {
    caseless_key(alloc, table, foldings, Form::Nfkc, "A\u{16D67}").err()
}

fn keys<T: NormTable>(alloc: Global, table: &T, foldings: &Foldings) -> Result<(), Fail> {
    let fault = NpssFault::Unassigned {
        at: 1,
        code: '\u{16D67}',
    };
    want(
        fault_of_lacking(alloc, table, foldings) == Some(fault),
        "what is told at once",
    )?;
    let same = key_again(alloc, table, foldings)?.as_str() == KEY;
    want(same, "the key")
}

fn match_again<T: NormTable>(
    alloc: Global,
    table: &T,
    foldings: &Foldings,
) -> Result<bool, Memory> {
    match caseless_match(alloc, table, foldings, true, (NAME, KEY)) {
        Err(Memory) => caseless_match(alloc, table, foldings, true, (NAME, KEY)),
        made => made,
    }
}

fn matches<T: NormTable>(alloc: Global, table: &T, foldings: &Foldings) -> Result<(), Fail> {
    want(match_again(alloc, table, foldings)?, "they match")
}

impl Example for Call {
    fn holds<T: Made>(&self, alloc: Global, table: &T) -> Result<(), Fail> {
        let foldings = read(alloc, V1_FOLDING)?;
        match self {
            Call::Build => builds(alloc, table),
            Call::Form => forms(alloc, table, &foldings),
            Call::Key => keys(alloc, table, &foldings),
            Call::Match => matches(alloc, table, &foldings),
        }
    }
}

#[test]
fn a_refused_build_succeeds_after_all(rt: HostRuntime) -> Result<(), Fail> {
    holds_over_each(rt.alloc(), V1, &Call::Build)
}

#[test]
fn a_refused_caseless_form_succeeds_after_all(rt: HostRuntime) -> Result<(), Fail> {
    holds_over_each(rt.alloc(), V1, &Call::Form)
}

#[test]
fn a_refused_caseless_key_succeeds_after_all(rt: HostRuntime) -> Result<(), Fail> {
    holds_over_each(rt.alloc(), V1, &Call::Key)
}

#[test]
fn a_refused_caseless_match_succeeds_after_all(rt: HostRuntime) -> Result<(), Fail> {
    holds_over_each(rt.alloc(), V1, &Call::Match)
}

/// An audit of a version whose foldings changed.
struct Audited;

fn audit_again<T: Made>(
    alloc: Global,
    old: &FoldedTable<&T>,
    new: &FoldedTable<&T>,
) -> Result<Vec<FoldedBreak>, Memory> {
    match audit(alloc, old, new) {
        Err(Memory) => audit(alloc, old, new),
        made => made,
    }
}

impl Example for Audited {
    fn holds<T: Made>(&self, alloc: Global, table: &T) -> Result<(), Fail> {
        let old = build_again(alloc, table, V2_FOLDING)?;
        let new = build_again(alloc, table, CHANGED_FOLDING)?;
        let breaks = audit_again(alloc, &old, &new)?;
        want(breaks.len() == 3, "three foldings changed")
    }
}

#[test]
fn a_refused_audit_succeeds_after_all(rt: HostRuntime) -> Result<(), Fail> {
    holds_over_each(rt.alloc(), V2, &Audited)
}
