//! Caseless keys of the fixtures as those of lines.
use crate::folding_files::{V1_FOLDING, V2_FOLDING};
use crate::key_rows::{V1_KEYS, V1_REFUSED, V2_KEYS, V2_REFUSED};
use np_caseless::FoldedTable;
use np_caseless_lines::CaselessKeys;
use np_code_points::watched::Watched;
use np_code_points::{Form, Memory};
use np_examples_shared::devices::{Room, Trickle};
use np_examples_shared::{Example, Made, V1, V2, again, holds_over_each, want};
use np_foldings::read_foldings;
use np_lines::{LineEnd, answer_bytes_by, answer_lines_by};
use np_versions::NormTable;
use std::alloc::{AllocError, Global};
use std::test::Fail;

/// A form, a string, and its key or what is told of it.
type KeyRow = (Form, &'static str, &'static str);

/// Lines, and their answers.
#[derive(Drop)]
struct Answered {
    lines: String,
    answers: String,
}

/// The rows of a form as lines, of which the answers begin with a mark.
fn push_rows(
    made: &mut Answered,
    form: Form,
    mark: &str,
    rows: &[KeyRow],
) -> Result<(), AllocError> {
    for row in rows {
        if row.0 == form {
            made.lines.push_str(row.1)?;
            made.lines.push_str("\n")?;
            made.answers.push_str(mark)?;
            made.answers.push_str(row.2)?;
            made.answers.push_str("\n")?;
        }
    }
    Ok(())
}

/// Fails unless lines have these answers, in memory and as an input, which comes in pieces.
fn want_answers<T: NormTable + Drop>(
    alloc: Global,
    keys: &CaselessKeys<'_, T>,
    made: &Answered,
    any_refused: bool,
) -> Result<(), Fail> {
    let lines = made.lines.as_bytes();
    let answered = again(
        &Memory,
        &|| answer_bytes_by(alloc, keys, LineEnd::Lf, lines),
    )?;
    want(
        answered.bytes.as_slice() == made.answers.as_bytes(),
        "in memory",
    )?;
    want(
        answered.any_refused == any_refused,
        "whether one is refused",
    )?;
    let mut source = Watched::new(Trickle::new(lines, 7));
    let mut target = Watched::new(Room::new(alloc, 70_000, 11)?);
    let told = answer_lines_by(alloc, keys, LineEnd::Lf, &mut source, &mut target)?;
    want(told == any_refused, "whether one is refused")?;
    want(
        target.into_inner().bytes() == made.answers.as_bytes(),
        "as an input",
    )
}

/// What the fixtures say of a version with its folding.
struct Shown {
    folding: &'static str,
    keys: &'static [KeyRow],
    refused: &'static [KeyRow],
}

/// Fails unless the strings of a form have their keys as lines, all of one version at once.
fn want_form<T: NormTable + Drop>(
    alloc: Global,
    folded: &FoldedTable<T>,
    shown: &Shown,
    form: Form,
) -> Result<(), Fail> {
    let mut made = Answered {
        lines: String::new(alloc),
        answers: String::new(alloc),
    };
    let keys = CaselessKeys { folded, form };
    push_rows(&mut made, form, "=", shown.keys)?;
    want_answers(alloc, &keys, &made, false)?;
    push_rows(&mut made, form, "!", shown.refused)?;
    let any_refused = shown.refused.iter().any(|row| row.0 == form);
    want_answers(alloc, &keys, &made, any_refused)
}

impl Example for Shown {
    fn holds<T: Made>(&self, alloc: Global, table: &T) -> Result<(), Fail> {
        let foldings = read_foldings(alloc, &mut Watched::new(self.folding.as_bytes()))?;
        let folded = FoldedTable::build(alloc, table, foldings, &[])?;
        for form in [Form::Nfd, Form::Nfc, Form::Nfkd, Form::Nfkc] {
            want_form(alloc, &folded, self, form)?;
        }
        Ok(())
    }
}

const FIRST: &Shown = &Shown {
    folding: V1_FOLDING,
    keys: V1_KEYS,
    refused: V1_REFUSED,
};

const SECOND: &Shown = &Shown {
    folding: V2_FOLDING,
    keys: V2_KEYS,
    refused: V2_REFUSED,
};

#[test]
fn each_string_of_the_fixtures_is_a_line_with_its_caseless_key(
    rt: HostRuntime,
) -> Result<(), Fail> {
    holds_over_each(rt.alloc(), V1, FIRST)?;
    holds_over_each(rt.alloc(), V2, SECOND)
}
