//! The laws on worked examples: a form is its own form, and a later version keeps it.
use super::wants_form;
use np_code_points::Form;
use np_examples_shared::{Example, Made, S, V1, V2, holds_over_each, table_of, want};
use np_forms::{form, is_form, npss};
use np_versions::NormTable;
use std::alloc::Global;
use std::test::Fail;

const FORMS: &[Form] = &[Form::Nfd, Form::Nfc, Form::Nfkd, Form::Nfkc];

// Texts of code points that both of the first two fixtures assign.
const KEPT: &[&str] = &[
    "\u{61}\u{302}\u{323}",
    "\u{1EAD}",
    "\u{212B}",
    "\u{344}",
    "\u{958}",
    "\u{61}\u{301}\u{302}",
    "\u{41}\u{327}\u{30A}",
    "\u{FB01}",
    "\u{66}\u{69}",
    "\u{D4DB}",
    "\u{1111}\u{1171}\u{11B6}",
    "\u{AC00}\u{11A7}",
    "\u{AC00}\u{11A8}",
    "\u{AC01}\u{11A8}",
];

// Texts of the second fixture and of the one whose composite spans a non-starter.
const OTHERS: &[&str] = &[
    "\u{16D67}\u{16D67}\u{16D67}",
    "\u{16D63}\u{16D67}\u{16D67}",
    "\u{41}\u{323}\u{30A}",
    "\u{F000}",
];

/// Fails unless the form of the form of `text` is that form.
fn wants_itself<T: NormTable>(
    alloc: Global,
    table: &T,
    wanted: Form,
    text: &str,
) -> Result<(), Fail> {
    let once = form(alloc, table, wanted, text)?;
    wants_form(alloc, table, wanted, once.as_str(), once.as_str())
}

/// Fails unless both tables give `text` one form.
fn wants_same<T: NormTable>(
    alloc: Global,
    first: &T,
    second: &T,
    wanted: Form,
    text: &str,
) -> Result<(), Fail> {
    let earlier = form(alloc, first, wanted, text)?;
    wants_form(alloc, second, wanted, text, earlier.as_str())
}

fn keeps_forms<T: NormTable>(alloc: Global, table: &T, text: &str) -> Result<(), Fail> {
    for wanted in FORMS {
        wants_itself(alloc, table, *wanted, text)?;
    }
    Ok(())
}

fn has_same_forms<T: NormTable>(
    alloc: Global,
    first: &T,
    second: &T,
    text: &str,
) -> Result<(), Fail> {
    for wanted in FORMS {
        wants_same(alloc, first, second, *wanted, text)?;
    }
    Ok(())
}

fn keeps_each<T: NormTable>(alloc: Global, table: &T, texts: &[&str]) -> Result<(), Fail> {
    for text in texts {
        keeps_forms(alloc, table, text)?;
    }
    Ok(())
}

/// Texts, and their keys under the second fixture: some code points of keys are not assigned in the first one.
const KEYS: &[(&str, &str)] = &[
    ("a\u{302}\u{323}", "\u{1EAD}"),
    ("", ""),
    ("\u{16D67}\u{16D67}", "\u{16D68}"),
    ("a\u{302}\u{16D67}", "\u{E2}\u{16D67}"),
];

/// Fails unless the key is its own form under both, as on a machine that lags behind.
fn is_key_under_both<T: NormTable>(
    alloc: Global,
    old: &T,
    new: &T,
    row: &(&str, &str),
) -> Result<(), Fail> {
    want(npss(alloc, new, Form::Nfc, row.0)?.as_str() == row.1, row.0)?;
    want(is_form(alloc, old, Form::Nfc, row.1)?, "under the first")?;
    want(is_form(alloc, new, Form::Nfc, row.1)?, "under the second")
}

fn are_kept<T: NormTable>(alloc: Global, old: &T, new: &T) -> Result<(), Fail> {
    for text in KEPT {
        has_same_forms(alloc, old, new, text)?;
    }
    for row in KEYS {
        is_key_under_both(alloc, old, new, row)?;
    }
    Ok(())
}

/// What the laws show.
#[derive(Clone, Copy)]
enum Shown {
    Itself,
    Kept,
}

impl Example for Shown {
    fn holds<T: Made>(&self, alloc: Global, table: &T) -> Result<(), Fail> {
        match self {
            Shown::Itself => {
                keeps_each(alloc, table, KEPT)?;
                keeps_each(alloc, table, OTHERS)
            }
            Shown::Kept => {
                let later: T = table_of(alloc, V2)?;
                are_kept(alloc, table, &later)
            }
        }
    }
}

#[test]
fn a_form_is_its_own_form(rt: HostRuntime) -> Result<(), Fail> {
    holds_over_each(rt.alloc(), V1, &Shown::Itself)?;
    holds_over_each(rt.alloc(), V2, &Shown::Itself)?;
    holds_over_each(rt.alloc(), S, &Shown::Itself)
}

#[test]
fn a_later_version_keeps_forms_and_keys(rt: HostRuntime) -> Result<(), Fail> {
    holds_over_each(rt.alloc(), V1, &Shown::Kept)
}
