//! Worked examples of the jobs over the fixtures.
use super::{Answer, Command, Job, JobRow, are_answered, wants_answer};
use np_code_points::Form;
use np_examples_shared::fixtures::{V1_DATA, V2_EXCLUSIONS};
use np_examples_shared::{V1, V2};
use std::alloc::Global;
use std::test::Fail;

/// A run over the first fixture: the form, the input and the answer.
type Row = (Form, &'static str, Answer<'static>);

fn texts_are_answered(alloc: Global, command: Command, rows: &[Row]) -> Result<(), Fail> {
    for (form, input, answer) in rows {
        let job = Job::Text(command, *form, V1_DATA, input.as_bytes());
        wants_answer(alloc, &job, answer, input)?;
    }
    Ok(())
}

const KEYS: &[Row] = &[
    (Form::Nfd, "a\u{302}\u{323}", (0, "a\u{323}\u{302}", "")),
    (Form::Nfc, "a\u{302}\u{323}", (0, "\u{1EAD}", "")),
    (Form::Nfd, "", (0, "", "")),
    (
        Form::Nfd,
        "A\u{16D67}",
        (3, "", "unassigned 16D67 at byte 1\n"),
    ),
    (
        Form::Nfc,
        "\u{FFFE}",
        (3, "", "unassigned FFFE at byte 0\n"),
    ),
];

#[test]
fn key_answers_the_worked_examples(rt: HostRuntime) -> Result<(), Fail> {
    texts_are_answered(rt.alloc(), Command::Key, KEYS)
}

const NORMALIZED: &[Row] = &[
    (Form::Nfd, "a\u{302}\u{323}", (0, "a\u{323}\u{302}", "")),
    (Form::Nfc, "\u{16D6A}", (0, "\u{16D6A}", "")),
];

#[test]
fn normalize_answers_the_worked_examples(rt: HostRuntime) -> Result<(), Fail> {
    texts_are_answered(rt.alloc(), Command::Normalize, NORMALIZED)
}

const COMPARED: &[Row] = &[
    (Form::Nfc, "\u{FB01}\nfi\n", (1, "different\n", "")),
    (Form::Nfkc, "\u{FB01}\nfi\n", (0, "equal\n", "")),
    (Form::Nfc, "a", (4, "", "input: two lines wanted\n")),
    // a text and its prefix
    (Form::Nfc, "Aa\nA\n", (1, "different\n", "")),
    // two equal strings
    (
        Form::Nfc,
        "b\nb\n",
        (3, "", "first: unassigned 0062 at byte 0\n"),
    ),
    (
        Form::Nfc,
        "a\nab\n",
        (3, "", "second: unassigned 0062 at byte 1\n"),
    ),
    // a last line with CR
    (
        Form::Nfc,
        "a\na\r",
        (3, "", "second: unassigned 000D at byte 1\n"),
    ),
];

#[test]
fn compare_answers_the_worked_examples(rt: HostRuntime) -> Result<(), Fail> {
    texts_are_answered(rt.alloc(), Command::Compare, COMPARED)
}

const BAD: &[JobRow] = &[
    (
        Job::Text(Command::Key, Form::Nfc, V1_DATA, b"a\xff"),
        (4, "", "input: not UTF-8 at byte 1\n"),
        "invalid bytes",
    ),
    (
        Job::Text(Command::Key, Form::Nfd, "0041;X;Lu;0;L;;;;N;;;;;\n", b"A"),
        (4, "", "version 0 data: line 1: FieldCount\n"),
        "a short record",
    ),
];

#[test]
fn bad_bytes_and_bad_files_are_told(rt: HostRuntime) -> Result<(), Fail> {
    are_answered(rt.alloc(), BAD)
}

/// What the first fixture has of keys under the second: the input and the answer.
const KEYS_UNDER: &[(&[u8], Answer)] = &[
    (b"a\xcc\x82\xcc\xa3", (0, "own form\n", "")),
    (b"", (0, "own form\n", "")),
    (
        b"\xf0\x96\xb5\xa7\xf0\x96\xb5\xa7",
        (0, "own form, unassigned 16D68 at byte 0\n", ""),
    ),
    (
        // the key is two bytes long before that place, the text three
        b"a\xcc\x82\xf0\x96\xb5\xa7",
        (0, "own form, unassigned 16D67 at byte 2\n", ""),
    ),
    (b"\xef\xbf\xbe", (3, "", "unassigned FFFE at byte 0\n")),
    (b"a\xff", (4, "", "input: not UTF-8 at byte 1\n")),
];

/// Versions that are refused before the input is looked at, which is no UTF-8.
const UNDER_REFUSED: &[JobRow] = &[
    (
        Job::KeyUnder(Form::Nfc, V2, V1, b"\xff"),
        (1, "", "not an extension: version 1 Lost 1DFA\n"),
        "V2, V1",
    ),
    (
        Job::KeyUnder(Form::Nfc, ("41;X;Lu;0;L;;;;;N;;;;;\n", ""), V1, b"\xff"),
        (4, "", "version 0 data: line 1: BadCode\n"),
        "a bad file, V1",
    ),
    (
        Job::KeyUnder(Form::Nfc, V2, (V1_DATA, "x\n"), b"\xff"),
        (4, "", "version 1 exclusions: line 1: BadCode\n"),
        "V2, bad exclusions",
    ),
];

fn keys_are_answered(alloc: Global, rows: &[(&[u8], Answer<'_>)]) -> Result<(), Fail> {
    for (input, answer) in rows {
        let job = Job::KeyUnder(Form::Nfc, V1, V2, input);
        wants_answer(alloc, &job, answer, answer.1)?;
    }
    Ok(())
}

#[test]
fn keys_under_an_earlier_version_are_answered(rt: HostRuntime) -> Result<(), Fail> {
    keys_are_answered(rt.alloc(), KEYS_UNDER)?;
    are_answered(rt.alloc(), UNDER_REFUSED)
}

const AUDITS: &[JobRow] = &[
    (Job::Audit(V1, V2), (0, "extends\n", ""), "V1, V2"),
    (
        Job::Audit(V2, V1),
        (
            1,
            "Lost 1DFA\nLost 16D63\nLost 16D67\nLost 16D68\nLost 16D69\nLost 16D6A\n",
            "",
        ),
        "V2, V1",
    ),
    (
        Job::Audit(V1, ("41;X;Lu;0;L;;;;;N;;;;;\n", V2_EXCLUSIONS)),
        (4, "", "version 1 data: line 1: BadCode\n"),
        "V1, a bad file",
    ),
];

#[test]
fn audit_answers_the_worked_examples(rt: HostRuntime) -> Result<(), Fail> {
    are_answered(rt.alloc(), AUDITS)
}
