//! The answers to lines as a job, and the words of `npss_lines`, on worked examples.
use crate::jobs::words::{ReadsWords, are_read, is_read};
use np_code_points::Form;
use np_code_points::watched::Watched;
use np_examples_shared::devices::{Failure, Room, Trickle};
use np_examples_shared::fixtures::{V1_DATA, V1_EXCLUSIONS};
use np_examples_shared::{again, want};
use np_lines::{LineEnd, Wanted};
use np_lines_job::{LinesJob, LinesRun, REFUSED, lines_job, lines_usage_text, parse_lines};
use np_words::WordsFault;
use std::alloc::Global;
use std::test::Fail;

/// NFC by lines that end with LF.
const BY_LF: Wanted = Wanted {
    form: Form::Nfc,
    end: LineEnd::Lf,
};

/// A line with a key, one with an unassigned code point, and one that is no text.
const INPUT: &[u8] = b"a\xcc\x82\xcc\xa3\na\xf0\x96\xb5\xa7\n\xff";

const ANSWERS: &str = "=\u{1EAD}\n!unassigned 16D67 at byte 1\n!not UTF-8 at byte 0\n";

/// A call that no device comes to.
const NEVER: u64 = u64::MAX;

/// The calls of the input and of the output that fail, and how.
type Fails = (u64, u64, Failure);

const NONE: Fails = (NEVER, NEVER, Failure::Error);

/// Whether a run is strict, its input, how many bytes a call takes, what fails, and status, output and error.
type Row = (
    bool,
    &'static [u8],
    usize,
    Fails,
    (u8, &'static str, &'static str),
);

/// The status of a row's run over the first fixture.
fn status_of(
    alloc: Global,
    row: &Row,
    output: &mut Watched<Room>,
    error: &mut Watched<Vec<u8>>,
) -> u8 {
    let (is_strict, input, piece, (fails, _, failure), _) = row;
    let asked = LinesRun {
        wanted: BY_LF,
        is_strict: *is_strict,
    };
    lines_job(
        alloc,
        asked,
        &mut Watched::new(Trickle::new(V1_DATA.as_bytes(), 100)),
        &mut Watched::new(Trickle::new(V1_EXCLUSIONS.as_bytes(), 100)),
        &mut Watched::new(Trickle::new(input, *piece).failing_at(*fails, *failure)),
        output,
        error,
    )
}

/// Fails unless a row's run ended so.
fn wants_end(row: &Row, status: u8, output: &Room, error: &[u8]) -> Result<(), Fail> {
    let (wanted, answers, line) = row.4;
    want(status == wanted, "status")?;
    want(output.bytes() == answers.as_bytes(), answers)?;
    want(error == line.as_bytes(), line)
}

/// Fails unless a row's run ends so.
fn wants_run(alloc: Global, row: &Row) -> Result<(), Fail> {
    let (_, _, piece, (_, fails, failure), _) = row;
    let mut output = Watched::new(Room::new(alloc, 200, *piece)?.failing_at(*fails, *failure));
    let mut error = Watched::new(Vec::new(alloc));
    let status = status_of(alloc, row, &mut output, &mut error);
    let error: Vec<u8> = error.into_inner();
    wants_end(row, status, &output.into_inner(), error.as_slice())
}

fn are_run(alloc: Global, rows: &[Row]) -> Result<(), Fail> {
    for row in rows {
        wants_run(alloc, row)?;
    }
    Ok(())
}

const WHOLE: &[Row] = &[
    (false, INPUT, 1, NONE, (0, ANSWERS, "")),
    (false, INPUT, 7, NONE, (0, ANSWERS, "")),
    (false, INPUT, 100, NONE, (0, ANSWERS, "")),
    (true, INPUT, 1, NONE, (REFUSED, ANSWERS, "")),
    (true, INPUT, 7, NONE, (REFUSED, ANSWERS, "")),
    (true, INPUT, 100, NONE, (REFUSED, ANSWERS, "")),
    (true, b"a", 1, NONE, (0, "=a\n", "")),
];

#[test]
fn lines_are_answered_with_a_status(rt: HostRuntime) -> Result<(), Fail> {
    are_run(rt.alloc(), WHOLE)
}

/// The first line has six bytes; one call takes all that a read brought, and the next one flushes.
const BROKEN: &[Row] = &[
    (
        true,
        INPUT,
        1,
        (7, NEVER, Failure::Error),
        (5, "=\u{1EAD}\n", "input: ReadFailed\n"),
    ),
    (
        true,
        INPUT,
        1,
        (7, NEVER, Failure::Interrupted),
        (5, "=\u{1EAD}\n", "input: ReadFailed\n"),
    ),
    (
        true,
        b"a\n",
        9,
        (NEVER, 1, Failure::Error),
        (5, "=a\n", "output: WriteFailed\n"),
    ),
    (
        true,
        b"a\n",
        9,
        (NEVER, 1, Failure::Interrupted),
        (5, "=a\n", "output: WriteFailed\n"),
    ),
];

#[test]
fn a_failed_device_is_told_behind_the_answers(rt: HostRuntime) -> Result<(), Fail> {
    are_run(rt.alloc(), BROKEN)
}

/// What was read, in words; want of memory is a failure.
fn shown(alloc: Global, read: &Result<LinesJob, WordsFault>) -> Result<String, Fail> {
    match read {
        Ok(LinesJob::Help) => Ok(String::from_str(alloc, "help")?),
        Ok(LinesJob::Version) => Ok(String::from_str(alloc, "version")?),
        Ok(
            LinesJob::AnswerCaselessly {
                asked,
                shows_progress,
                files,
            },
        ) => Ok(format!(in alloc;
            "caseless {:?} {:?} {} {} {} {} {}",
            asked.wanted.form,
            asked.wanted.end,
            asked.is_strict,
            shows_progress,
            files.version.data_file,
            files.version.exclusions_file,
            files.folding_file
        )?),
        Ok(
            LinesJob::Answer {
                asked,
                shows_progress,
                files,
            },
        ) => Ok(format!(in alloc;
            "{:?} {:?} {} {} {} {}",
            asked.wanted.form,
            asked.wanted.end,
            asked.is_strict,
            shows_progress,
            files.data_file,
            files.exclusions_file
        )?),
        Err(WordsFault::Usage) => Ok(format!(in alloc; "{:?}", WordsFault::Usage)?),
        Err(WordsFault::Memory) => Err(WordsFault::Memory.into()),
    }
}

/// The program `npss_lines`.
struct NpssLines;

impl ReadsWords for NpssLines {
    fn read(alloc: Global, words: &[String]) -> Result<String, Fail> {
        let read = again(&WordsFault::Memory, &|| parse_lines(alloc, words));
        shown(alloc, &read)
    }
}

/// Words, and what they ask for: the form, what ends lines, whether strictly, whether with progress, the files.
const WORDS: &[(&str, &str)] = &[
    ("", "help"),
    ("--form nfc D E", "Nfc Lf false false D E"),
    ("D --form=nfkd E", "Nfkd Lf false false D E"),
    ("--null --form nfc D E", "Nfc Nul false false D E"),
    ("--form nfc --strict D E", "Nfc Lf true false D E"),
    ("--form nfc D --progress E", "Nfc Lf false true D E"),
    (
        "D E --progress --strict --null --form nfd",
        "Nfd Nul true true D E",
    ),
    ("--form nfc -- -D E", "Nfc Lf false false -D E"),
    ("--form nfc D", "Usage"),
    ("--form nfc D E F", "Usage"),
    ("D E", "Usage"),
    ("--form NFC D E", "Nfc Lf false false D E"),
    ("D --form=nFkD E", "Nfkd Lf false false D E"),
    (
        "--form nfc -- NFC --form=NFC",
        "Nfc Lf false false NFC --form=NFC",
    ),
    ("--form nfc NFC --null E", "Nfc Nul false false NFC E"),
    (
        "--form nfkc --caseless D E F",
        "caseless Nfkc Lf false false D E F",
    ),
    (
        "D E --strict F --progress --caseless --null --form NFD",
        "caseless Nfd Nul true true D E F",
    ),
    ("--form nfkc --caseless D E", "Usage"),
    ("--form nfkc --caseless D E F G", "Usage"),
    ("--form nfkc --caseless --caseless D E F", "Usage"),
    ("--form nfkc --caseless=true D E F", "Usage"),
    ("--form nfx D E", "Usage"),
    ("--FORM nfc D E", "Usage"),
    ("--null --null --form nfc D E", "Usage"),
    ("--null=true --form nfc D E", "Usage"),
    ("--form nfc --form nfc D E", "Usage"),
    ("--help", "help"),
    ("--form nfc D --help E", "help"),
    ("--help --version", "help"),
    ("--version --help", "version"),
    ("--nul --version", "version"),
    (
        "--form nfc -- --help --version",
        "Nfc Lf false false --help --version",
    ),
    ("--form nfc -- --help", "Usage"),
];

#[test]
fn words_name_a_run(rt: HostRuntime) -> Result<(), Fail> {
    are_read::<NpssLines>(rt.alloc(), WORDS)?;
    want(
        lines_usage_text().starts_with("usage: npss_lines "),
        "usage",
    )
}

#[test]
fn a_refused_parse_lines_succeeds_after_all(rt: HostRuntime) -> Result<(), Fail> {
    is_read::<NpssLines>(
        rt.alloc(),
        "--form nfc --null D E",
        "Nfc Nul false false D E",
    )
}
