//! Caseless keys and matches of the fixtures.
use crate::folding_files::{V1_FOLDING, V2_FOLDING};
use crate::key_rows::{V1_KEYS, V1_REFUSED, V2_KEYS, V2_REFUSED};
use crate::match_rows::{V1_MATCHES, V2_MATCHES};
use np_caseless::{caseless_form, caseless_key, caseless_match, fold_text};
use np_code_points::Form;
use np_code_points::watched::Watched;
use np_examples_shared::{Example, Made, V1, V2, holds_over_each, want};
use np_foldings::{Foldings, read_foldings};
use np_versions::NormTable;
use std::alloc::Global;
use std::test::Fail;

fn foldings_of(alloc: Global, folding: &str) -> Result<Foldings, Fail> {
    Ok(read_foldings(alloc, &mut Watched::new(folding.as_bytes()))?)
}

/// A form, a string, and its key or what is told of it.
type KeyRow = (Form, &'static str, &'static str);

/// Fails unless each string has this key, which is its own key.
fn want_keys<T: NormTable>(
    alloc: Global,
    table: &T,
    foldings: &Foldings,
    rows: &[KeyRow],
) -> Result<(), Fail> {
    for row in rows {
        let key = caseless_key(alloc, table, foldings, row.0, row.1)?;
        want(key.as_str() == row.2, row.1)?;
        let again = caseless_form(alloc, table, foldings, row.0, key.as_str())?;
        want(again.as_str() == row.2, row.2)?;
    }
    Ok(())
}

/// Fails unless each string is refused in these words.
fn want_refused<T: NormTable>(
    alloc: Global,
    table: &T,
    foldings: &Foldings,
    rows: &[KeyRow],
) -> Result<(), Fail> {
    for row in rows {
        let Err(fault) = caseless_key(alloc, table, foldings, row.0, row.1) else {
            return want(false, row.1);
        };
        let told = format!(in alloc; "{fault}")?;
        want(told.as_str() == row.2, row.2)?;
    }
    Ok(())
}

/// Whether compatibly, two strings, and whether they match.
type MatchRow = (bool, &'static str, &'static str, bool);

/// Fails unless each two strings match, or don't.
fn want_matches<T: NormTable>(
    alloc: Global,
    table: &T,
    foldings: &Foldings,
    rows: &[MatchRow],
) -> Result<(), Fail> {
    for row in rows {
        let same = caseless_match(alloc, table, foldings, row.0, (row.1, row.2))?;
        want(same == row.3, row.1)?;
    }
    Ok(())
}

/// What the fixtures say of a version with its folding.
struct Shown {
    folding: &'static str,
    keys: &'static [KeyRow],
    refused: &'static [KeyRow],
    matches: &'static [MatchRow],
}

impl Example for Shown {
    fn holds<T: Made>(&self, alloc: Global, table: &T) -> Result<(), Fail> {
        let foldings = foldings_of(alloc, self.folding)?;
        want_keys(alloc, table, &foldings, self.keys)?;
        want_refused(alloc, table, &foldings, self.refused)?;
        want_matches(alloc, table, &foldings, self.matches)
    }
}

const FIRST: &Shown = &Shown {
    folding: V1_FOLDING,
    keys: V1_KEYS,
    refused: V1_REFUSED,
    matches: V1_MATCHES,
};

const SECOND: &Shown = &Shown {
    folding: V2_FOLDING,
    keys: V2_KEYS,
    refused: V2_REFUSED,
    matches: V2_MATCHES,
};

#[test]
fn the_first_version_has_the_keys_and_matches_of_the_fixture(rt: HostRuntime) -> Result<(), Fail> {
    holds_over_each(rt.alloc(), V1, FIRST)
}

#[test]
fn the_second_version_has_the_keys_and_matches_of_the_fixture(rt: HostRuntime) -> Result<(), Fail> {
    holds_over_each(rt.alloc(), V2, SECOND)
}

#[test]
fn folding_alone_neither_orders_nor_composes(rt: HostRuntime) -> Result<(), Fail> {
    let foldings = foldings_of(rt.alloc(), V1_FOLDING)?;
    let folded = fold_text(rt.alloc(), &foldings, "A\u{c5}\u{327}")?;
    want(
        folded.as_str() == "aa\u{30a}\u{915}",
        "each code point by itself",
    )
}
