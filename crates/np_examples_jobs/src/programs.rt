//! What both programs do for their words, over files in memory.
use crate::jobs::words::words_of;
use crate::jobs::{Answer, Ran, is_answer};
use crate::over_files::run_over_shelf;
use crate::shelf::Shelf;
use np_code_points::watched::Watched;
use np_examples_shared::devices::Trickle;
use np_examples_shared::fixtures::{V1_DATA, V1_EXCLUSIONS, V2_DATA, V2_EXCLUSIONS};
use np_examples_shared::scripts::{RESTART_REPORT, RESTART_SCHEDULE};
use np_examples_shared::want;
use np_jobs::{Resources, Streams};
use np_lines_job::{Progress, lines_usage_text, lines_version_text, run_words as run_line_words};
use np_program::usage_text;
use std::alloc::Global;
use std::io::Read;
use std::test::Fail;

/// The files of two versions, and a schedule over them.
const FILES: &[(&str, &str)] = &[
    ("data", V1_DATA),
    ("exclusions", V1_EXCLUSIONS),
    ("data2", V2_DATA),
    ("exclusions2", V2_EXCLUSIONS),
    ("schedule", RESTART_SCHEDULE),
];

/// The programs.
#[derive(Clone, Copy)]
enum Program {
    Npss,
    NpssLines,
}

/// The status of a program for these words.
fn status_of(
    alloc: Global,
    program: Program,
    words: &[String],
    streams: &mut Streams<Trickle<'_>, Vec<u8>, Vec<u8>>,
) -> u8 {
    let shelf = Shelf { files: FILES };
    let with = Resources {
        alloc,
        opener: &shelf,
    };
    match program {
        Program::Npss => run_over_shelf(alloc, &shelf, words, streams),
        Program::NpssLines => run_line_words(&with, words, streams),
    }
}

/// The run of a program for these words over an input.
fn run(alloc: Global, program: Program, words: &[String], input: &str) -> Ran {
    let mut streams = Streams {
        input: Watched::new(Trickle::new(input.as_bytes(), 100)),
        output: Watched::new(Vec::new(alloc)),
        error: Watched::new(Vec::new(alloc)),
    };
    let status = status_of(alloc, program, words, &mut streams);
    let Streams { output, error, .. } = streams;
    Ran {
        status,
        output: output.into_inner(),
        error: error.into_inner(),
    }
}

/// Fails unless the run of a program for these words over an input answers so.
fn wants_end(
    alloc: Global,
    program: Program,
    text: &str,
    input: &str,
    answer: &Answer<'_>,
) -> Result<(), Fail> {
    let words = words_of(alloc, text)?;
    let ran = run(alloc, program, words.as_slice(), input);
    want(is_answer(&ran, answer), text)
}

/// Words, an input, and what the program answers over the files.
type Row = (&'static str, &'static str, Answer<'static>);

fn want_ends(alloc: Global, program: Program, rows: &[Row]) -> Result<(), Fail> {
    for (words, input, answer) in rows {
        wants_end(alloc, program, words, input, answer)?;
    }
    Ok(())
}

/// Each command over exact files, and what it writes of them.
const COMMANDS: &[Row] = &[
    (
        "normalize --form nfkd data exclusions",
        "\u{FB01}\u{16D67}",
        (0, "fi\u{16D67}", ""),
    ),
    ("key --form nfkc data exclusions", "\u{FB01}", (0, "fi", "")),
    (
        "key --form nfc data exclusions",
        "A\u{16D67}",
        (3, "", "unassigned 16D67 at byte 1\n"),
    ),
    (
        "key --form nfc data2 exclusions2",
        "A\u{16D67}",
        (0, "A\u{16D67}", ""),
    ),
    (
        "key --form nfc --check-under data exclusions data2 exclusions2",
        "A\u{16D67}",
        (0, "own form, unassigned 16D67 at byte 1\n", ""),
    ),
    (
        "compare --form nfkc data exclusions",
        "\u{FB01}\nfi\n",
        (0, "equal\n", ""),
    ),
    (
        "audit data exclusions data2 exclusions2",
        "left as it is",
        (0, "extends\n", ""),
    ),
    (
        "replay --form nfc schedule data exclusions data2 exclusions2",
        "left as it is",
        (0, RESTART_REPORT, ""),
    ),
    (
        "key --form nfkc data others",
        "a",
        (5, "", "cannot open others\n"),
    ),
];

#[test]
fn a_command_runs_over_the_files_that_its_words_name(rt: HostRuntime) -> Result<(), Fail> {
    want_ends(rt.alloc(), Program::Npss, COMMANDS)
}

#[test]
fn no_words_are_help_and_others_are_refused(rt: HostRuntime) -> Result<(), Fail> {
    let (alloc, npss) = (rt.alloc(), Program::Npss);
    wants_end(alloc, npss, "", "", &(0, usage_text(), ""))?;
    wants_end(alloc, npss, "keys", "", &(2, "", usage_text()))
}

#[test]
fn lines_are_answered_over_the_files_that_the_words_name(rt: HostRuntime) -> Result<(), Fail> {
    let (alloc, lines) = (rt.alloc(), Program::NpssLines);
    wants_end(
        alloc,
        lines,
        "--form nfkc data exclusions",
        "\u{FB01}\n",
        &(0, "=fi\n", ""),
    )?;
    wants_end(alloc, lines, "--help", "", &(0, lines_usage_text(), ""))?;
    wants_end(
        alloc,
        lines,
        "--form --version",
        "",
        &(0, lines_version_text(), ""),
    )?;
    wants_end(
        alloc,
        lines,
        "--form nfkc --caseless data exclusions others",
        "A\n",
        &(5, "", "cannot open others\n"),
    )?;
    wants_end(
        alloc,
        lines,
        "--form nfkc --caseless data exclusions data",
        "A\n",
        &(4, "", "version 0 folding: line 1: FieldCount\n"),
    )?;
    wants_end(alloc, lines, "--form", "", &(2, "", lines_usage_text()))
}

/// The reader gives two bytes.
fn gives_two<I: Read>(input: &mut I) -> Result<(), Fail> {
    let mut piece = [0u8; 4];
    want(input.read(&mut piece)? == 2, "a piece")?;
    want(piece == *b"ab\0\0", "its bytes")
}

#[test]
fn progress_that_is_not_shown_changes_nothing(rt: HostRuntime) -> Result<(), Fail> {
    let mut input = Progress::new(&rt, Trickle::new(b"abc", 2), None, Some(3));
    gives_two(&mut input)
}
