//! Which words name a job.
use np_examples_shared::{again, want};
use np_words::{Job, WordsFault, parse};
use std::alloc::{AllocError, Global};
use std::test::Fail;

/// The words, divided by spaces.
pub(crate) fn words_of(alloc: Global, text: &str) -> Result<Vec<String>, AllocError> {
    let mut words = Vec::new(alloc);
    for word in text.split_whitespace() {
        words.push(String::from_str(alloc, word)?)?;
    }
    Ok(words)
}

/// What was read, in words; want of memory is a failure.
fn shown(alloc: Global, read: &Result<Job, WordsFault>) -> Result<String, Fail> {
    match read {
        Ok(job) => Ok(format!(in alloc; "{job:?}")?),
        Err(WordsFault::Usage) => Ok(format!(in alloc; "{:?}", WordsFault::Usage)?),
        Err(WordsFault::Memory) => Err(WordsFault::Memory.into()),
    }
}

/// A program, by how it reads its words.
pub(crate) trait ReadsWords {
    /// What the words are read as; they are read a second time where memory was refused, as `tests/program/refusals.py` has it
    /// in turn.
    fn read(alloc: Global, words: &[String]) -> Result<String, Fail>;
}

/// The program `npss`.
struct Npss;

impl ReadsWords for Npss {
    fn read(alloc: Global, words: &[String]) -> Result<String, Fail> {
        let read = again(&WordsFault::Memory, &|| parse(alloc, words));
        shown(alloc, &read)
    }
}

/// Fails unless the words, divided by spaces, are read so.
pub(crate) fn is_read<P: ReadsWords>(alloc: Global, text: &str, wanted: &str) -> Result<(), Fail> {
    let words = words_of(alloc, text)?;
    let found = P::read(alloc, words.as_slice())?;
    want(found.as_str() == wanted, text)
}

/// Fails unless each row's words, divided by spaces, are read as it says.
pub(crate) fn are_read<P: ReadsWords>(alloc: Global, rows: &[(&str, &str)]) -> Result<(), Fail> {
    for (text, wanted) in rows {
        is_read::<P>(alloc, text, wanted)?;
    }
    Ok(())
}

/// Fails unless all of these words, divided by spaces, are read so.
fn all_are_read(alloc: Global, texts: &[&str], wanted: &str) -> Result<(), Fail> {
    for text in texts {
        is_read::<Npss>(alloc, text, wanted)?;
    }
    Ok(())
}

const NFD_KEY: &str =
    r#"Key { form: Nfd, files: VersionFiles { data_file: "D", exclusions_file: "E" } }"#;

const NFC_KEY: &str =
    r#"Key { form: Nfc, files: VersionFiles { data_file: "D", exclusions_file: "E" } }"#;

const KEY_UNDER: &str =
    r#"KeyUnder { form: Nfc, old: VersionFiles { data_file: "A", exclusions_file: "B" }, new: VersionFiles { data_file: "C", exclusions_file: "D" } }"#;

const NFC_REPLAY: &str =
    r#"Replay { form: Nfc, schedule_file: "S", version_files: [VersionFiles { data_file: "D", exclusions_file: "E" }] }"#;

/// Words that name a key under an earlier version: the flag and the form stand anywhere among the files.
const KEYS_UNDER: &[&str] = &[
    "key --form nfc --check-under A B C D",
    "key --check-under --form nfc A B C D",
    "key --form=nfc A --check-under B C D",
    "key --form nfc A B --check-under C D",
    "key --form nfc A B C --check-under D",
    "key --form nfc A B C D --check-under",
    "key --check-under A --form nfc B C D",
    "key --check-under A B --form nfc C D",
    "key A --check-under B C --form nfc D",
    "key A B C D --check-under --form nfc",
    "key --form nfc --check-under -- A B C D",
];

#[test]
fn reads_the_flag_at_each_place(rt: HostRuntime) -> Result<(), Fail> {
    all_are_read(rt.alloc(), KEYS_UNDER, KEY_UNDER)
}

/// Words that name a job, and the job.
const JOBS: &[(&str, &str)] = &[
    ("", "Help"),
    ("key --form nfd D E", NFD_KEY),
    ("key --form nfc D E", NFC_KEY),
    (
        "key --form nfkd D E",
        r#"Key { form: Nfkd, files: VersionFiles { data_file: "D", exclusions_file: "E" } }"#,
    ),
    (
        "key --form nfkc D E",
        r#"Key { form: Nfkc, files: VersionFiles { data_file: "D", exclusions_file: "E" } }"#,
    ),
    ("key --form=nfc D E", NFC_KEY),
    ("key D E --form nfd", NFD_KEY),
    ("key D --form nfd E", NFD_KEY),
    (
        "key --form nfc -- -D E",
        r#"Key { form: Nfc, files: VersionFiles { data_file: "-D", exclusions_file: "E" } }"#,
    ),
    (
        "normalize --form nfkc D E",
        r#"Normalize { form: Nfkc, files: VersionFiles { data_file: "D", exclusions_file: "E" } }"#,
    ),
    (
        "compare --form nfd D E",
        r#"Compare { form: Nfd, files: VersionFiles { data_file: "D", exclusions_file: "E" } }"#,
    ),
    (
        "audit A B C D",
        r#"Audit { old: VersionFiles { data_file: "A", exclusions_file: "B" }, new: VersionFiles { data_file: "C", exclusions_file: "D" } }"#,
    ),
    (
        "audit -- A B C -D",
        r#"Audit { old: VersionFiles { data_file: "A", exclusions_file: "B" }, new: VersionFiles { data_file: "C", exclusions_file: "-D" } }"#,
    ),
    ("replay --form nfc S D E", NFC_REPLAY),
    ("replay --form=nfc S D E", NFC_REPLAY),
    ("replay S D E --form nfc", NFC_REPLAY),
    ("replay S --form nfc D E", NFC_REPLAY),
    ("replay S D --form nfc E", NFC_REPLAY),
    ("replay --form nfc -- S D E", NFC_REPLAY),
    (
        "replay --form nfkd S D E F -- -G",
        r#"Replay { form: Nfkd, schedule_file: "S", version_files: [VersionFiles { data_file: "D", exclusions_file: "E" }, VersionFiles { data_file: "F", exclusions_file: "-G" }] }"#,
    ),
];

#[test]
fn reads_words_that_name_a_job(rt: HostRuntime) -> Result<(), Fail> {
    are_read::<Npss>(rt.alloc(), JOBS)
}

/// Words that name no job.
const OTHERS: &[&str] = &[
    "--help",
    "-h",
    "--version",
    "help",
    "help key",
    "key --help",
    "key --form nfc --help D E",
    "nothing",
    "Key --form nfc D E",
    "--",
    "--form nfc key D E",
    "key --form nfx D E",
    "key --form NFC D E",
    "key --form= D E",
    "key D E",
    "key --form nfc --form nfc D E",
    "key --form nfc",
    "key --form nfc D",
    "key --form nfc D E F",
    "key --form nfc --unknown D E",
    "key --form nfc A B C D",
    "key --check-under A B C D",
    "key --form nfc --check-under",
    "key --form nfc --check-under A",
    "key --form nfc --check-under A B",
    "key --form nfc --check-under A B C",
    "key --form nfc --check-under A B C D E",
    "key --form nfc --check-under --check-under A B C D",
    "key --form nfc --check-under=true A B C D",
    "key --form nfc --check A B C D",
    "normalize --form nfc --check-under A B C D",
    "compare --form nfc D",
    "normalize D E",
    "audit A B C",
    "audit A B C D E",
    "audit --form nfc A B C D",
    "replay --form nfc",
    "replay --form nfc S",
    "replay --form nfc S D",
    "replay --form nfc S D E F",
    "replay S D E",
    "replay --form nfx S D E",
    "replay --form nfc --form nfd S D E",
    "replay --form nfc -D S D E",
    "replay --help",
    "replay --form nfc --help S D E",
    "help replay",
];

#[test]
fn refuses_every_other_word(rt: HostRuntime) -> Result<(), Fail> {
    all_are_read(rt.alloc(), OTHERS, "Usage")
}

/// Words that ask for the usage text, for none of the jobs, and for one that names several files.
const FEW: &[(&str, &str)] = &[
    ("", "Help"),
    ("key --form nfx D E", "Usage"),
    ("--help", "Usage"),
    ("key --form nfc --check-under A B C D", KEY_UNDER),
    ("replay --form nfc S D E", NFC_REPLAY),
];

#[test]
fn a_refused_parse_succeeds_after_all(rt: HostRuntime) -> Result<(), Fail> {
    are_read::<Npss>(rt.alloc(), FEW)
}
