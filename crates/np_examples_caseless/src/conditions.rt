//! The conditions of a version with its foldings.
use crate::condition_rows::{
    DATA_OF_DEEP, DATA_OF_LOWER, DEEP_CONDITIONS, LOWER_CONDITIONS, V1_CONDITIONS,
};
use crate::folding_files::{V1_FOLDING, V2_FOLDING};
use np_caseless::{ConditionFault, FoldedTable};
use np_code_points::watched::Watched;
use np_examples_shared::fixtures::{V1_DATA, V2_DATA};
use np_examples_shared::told::want_told;
use np_examples_shared::{Example, Files, Made, V1, V2, holds_over_each, want};
use np_foldings::{lowercases_of, read_foldings};
use np_versions::NormTable;
use std::alloc::Global;
use std::test::Fail;

/// The name and the code point of the fault that a table has with the foldings of a file, beside the lowercases of its
/// data; nothing where it has none.
fn told_of<T: Made>(alloc: Global, table: &T, data: &str, folding: &str) -> Result<String, Fail> {
    let foldings = read_foldings(alloc, &mut Watched::new(folding.as_bytes()))?;
    let lowercases = lowercases_of(alloc, data.as_bytes())?;
    match FoldedTable::build(alloc, table, foldings, lowercases.as_slice()) {
        Ok(_) => Ok(String::new(alloc)),
        Err(fault) => {
            let code = fault.code().unwrap_or(0);
            Ok(format!(in alloc; "{} {code:04X}", fault.name())?)
        }
    }
}

/// What is told of folding files beside a version's data.
struct Judged {
    data: &'static str,
    rows: &'static [(&'static str, &'static str)],
}

impl Example for Judged {
    fn holds<T: Made>(&self, alloc: Global, table: &T) -> Result<(), Fail> {
        for row in self.rows {
            let told = told_of(alloc, table, self.data, row.0)?;
            want(told.as_str() == row.1, row.0)?;
        }
        Ok(())
    }
}

/// The version of data without exclusions.
const LOWER: Files = (DATA_OF_LOWER, "");

/// The version of data without exclusions.
const DEEP: Files = (DATA_OF_DEEP, "");

const BESIDE_V1: &Judged = &Judged {
    data: V1_DATA,
    rows: V1_CONDITIONS,
};

const BESIDE_LOWER: &Judged = &Judged {
    data: DATA_OF_LOWER,
    rows: LOWER_CONDITIONS,
};

const BESIDE_DEEP: &Judged = &Judged {
    data: DATA_OF_DEEP,
    rows: DEEP_CONDITIONS,
};

#[test]
fn each_edge_of_the_conditions_is_told(rt: HostRuntime) -> Result<(), Fail> {
    holds_over_each(rt.alloc(), V1, BESIDE_V1)
}

#[test]
fn code_points_with_a_lowercase_fold_or_are_folded_to(rt: HostRuntime) -> Result<(), Fail> {
    holds_over_each(rt.alloc(), LOWER, BESIDE_LOWER)
}

#[test]
fn a_caseless_form_may_have_sixty_four_code_points(rt: HostRuntime) -> Result<(), Fail> {
    holds_over_each(rt.alloc(), DEEP, BESIDE_DEEP)
}

const V1_IS_TAKEN: &Judged = &Judged {
    data: V1_DATA,
    rows: &[(V1_FOLDING, "")],
};

const V2_IS_TAKEN: &Judged = &Judged {
    data: V2_DATA,
    rows: &[(V2_FOLDING, "")],
};

#[test]
fn the_fixtures_meet_the_conditions(rt: HostRuntime) -> Result<(), Fail> {
    holds_over_each(rt.alloc(), V1, V1_IS_TAKEN)?;
    holds_over_each(rt.alloc(), V2, V2_IS_TAKEN)
}

// What is wrong with a version and its foldings, in words.
const FAULTS_TOLD: &[(ConditionFault, &str)] = &[
    (
        ConditionFault::FoldsUnassigned { code: 0x378 },
        "0378 folds, and is not assigned",
    ),
    (
        ConditionFault::FoldsToUnassigned { code: 0x41 },
        "0041 folds to what is not assigned",
    ),
    (
        ConditionFault::FoldsAgain { code: 0x41 },
        "0041 folds to what folds again",
    ),
    (
        ConditionFault::FoldedTooLong { code: 0x41 },
        "0041 has a caseless form of more than 64 code points",
    ),
    (
        ConditionFault::NotFolded { code: 0x1E9E },
        "1E9E has a lowercase, and neither of the two folds",
    ),
    (ConditionFault::Memory, "out of memory"),
];

#[test]
fn faults_of_conditions_are_told_in_words(rt: HostRuntime) -> Result<(), Fail> {
    want_told(rt.alloc(), FAULTS_TOLD)
}

#[test]
fn faults_of_conditions_have_numbers(_rt: HostRuntime) -> Result<(), Fail> {
    let fault = ConditionFault::FoldsAgain { code: 0x41 };
    want(
        fault.number() == 3 && fault.name() == "FoldsAgain" && fault.code() == Some(0x41),
        "its number, its name and its code point",
    )?;
    want(
        ConditionFault::Memory.code().is_none()
            && ConditionFault::NotFolded { code: 1 }.number() == 5,
        "memory has no code point",
    )
}
