//! The texts of faults that no example beside tells: what was wrong, with its limit or place.
use np_chain::{Break, BreakKind};
use np_code_points::Memory;
use np_code_points::input::InputFault;
use np_code_points::output::WriteFailed;
use np_examples_shared::told::want_told;
use np_jobs::{JobFault, ReplayFault, TextFault, VersionFault};
use np_lines_job::CaselessLinesFault;
use np_ucd::UcdFault;
use np_versions::TableFault;
use np_words::WordsFault;
use std::test::Fail;

#[test]
fn devices_and_memory_are_told(rt: HostRuntime) -> Result<(), Fail> {
    want_told(rt.alloc(), &[(WriteFailed, "write failed")])?;
    want_told(
        rt.alloc(),
        &[(CaselessLinesFault::WriteFailed, "output: write failed")],
    )?;
    want_told(rt.alloc(), &[(Memory, "out of memory")])
}

/// Faults of tables, with code points of at least four hex digits.
const TABLES: &[(TableFault, &str)] = &[
    (
        TableFault::MapsToUnassigned { code: 0xC5 },
        "00C5 has a mapping that holds an unassigned code point",
    ),
    (
        TableFault::TooLong { code: 0x10FFFF },
        "10FFFF has a full decomposition of more than 64 code points",
    ),
    (
        TableFault::HangulWrong { code: 0x1101 },
        "1101 is Hangul that is not as its arithmetic has it",
    ),
];

const KINDS: &[(BreakKind, &str)] = &[
    (BreakKind::Lost, "Lost"),
    (BreakKind::ClassChanged, "ClassChanged"),
    (BreakKind::MappingChanged, "MappingChanged"),
    (BreakKind::NowExcluded, "NowExcluded"),
    (BreakKind::NowIncluded, "NowIncluded"),
    (BreakKind::NewComposite, "NewComposite"),
];

/// Why no version came of two files.
const VERSIONS: &[(VersionFault, &str)] = &[
    (
        VersionFault::Data {
            version: 0,
            fault: UcdFault::FieldCount { line: 16777217 },
        },
        "version 0 data: line 16777217: not exactly 15 fields",
    ),
    (
        VersionFault::Data {
            version: 1,
            fault: UcdFault::TooLarge,
        },
        "version 1 data: more than 16,777,216 bytes",
    ),
    (
        VersionFault::Exclusions {
            version: 12,
            fault: UcdFault::ReadFailed,
        },
        "version 12 exclusions: read failed",
    ),
    (
        VersionFault::Tables {
            version: 2,
            fault: TableFault::TooDeep { code: 0x41 },
        },
        "version 2 tables: 0041 has mappings that lead deeper than 32, or in a circle",
    ),
];

#[test]
fn faults_of_versions_are_told(rt: HostRuntime) -> Result<(), Fail> {
    want_told(rt.alloc(), TABLES)?;
    want_told(rt.alloc(), KINDS)?;
    want_told(rt.alloc(), VERSIONS)
}

/// Why a text is not answered, or a schedule not replayed.
const TEXTS: &[(TextFault, &str)] = &[
    (
        TextFault::Input {
            fault: InputFault::TooLarge,
        },
        "input: more than 16,777,216 bytes",
    ),
    (
        TextFault::Input {
            fault: InputFault::ReadFailed,
        },
        "input: read failed",
    ),
    (
        TextFault::NotUtf8 { at: 16777215 },
        "input: not UTF-8 at byte 16777215",
    ),
    (TextFault::TwoLinesWanted, "input: two lines wanted"),
    (
        TextFault::FirstUnassigned {
            at: 1,
            code: '\u{16D67}',
        },
        "first: unassigned 16D67 at byte 1",
    ),
    (
        TextFault::SecondUnassigned { at: 0, code: '\n' },
        "second: unassigned 000A at byte 0",
    ),
];

const REPLAYS: &[(ReplayFault, &str)] = &[
    (
        ReplayFault::Schedule {
            fault: InputFault::TooLarge,
        },
        "schedule: more than 16,777,216 bytes",
    ),
    (ReplayFault::Line { line: 7 }, "schedule: line 7"),
    (ReplayFault::Memory, "out of memory"),
];

#[test]
fn faults_of_texts_and_schedules_are_told(rt: HostRuntime) -> Result<(), Fail> {
    want_told(rt.alloc(), TEXTS)?;
    want_told(rt.alloc(), REPLAYS)
}

/// Why a job is refused: each kind in the words of the fault that it holds.
const JOBS: &[(JobFault, &str)] = &[
    (
        JobFault::Version {
            fault: VersionFault::Data {
                version: 0,
                fault: UcdFault::ReadFailed,
            },
        },
        "version 0 data: read failed",
    ),
    (
        JobFault::Text {
            fault: TextFault::Unassigned { at: 3, code: 'b' },
        },
        "unassigned 0062 at byte 3",
    ),
    (
        JobFault::Replay {
            fault: ReplayFault::Line { line: 1 },
        },
        "schedule: line 1",
    ),
    (
        JobFault::NotExtension {
            version: 1,
            brk: Break {
                kind: BreakKind::Lost,
                code: 0x1DFA,
            },
        },
        "not an extension: version 1 Lost 1DFA",
    ),
    (
        JobFault::NotExtension {
            version: 12,
            brk: Break {
                kind: BreakKind::NewComposite,
                code: 0xC1,
            },
        },
        "not an extension: version 12 NewComposite 00C1",
    ),
    (JobFault::WriteFailed, "output: write failed"),
    (JobFault::Memory, "out of memory"),
];

/// Why words give no job.
const WORDS: &[(WordsFault, &str)] = &[
    (WordsFault::Usage, "bad command line"),
    (WordsFault::Memory, "out of memory"),
];

#[test]
fn faults_of_jobs_and_words_are_told(rt: HostRuntime) -> Result<(), Fail> {
    want_told(rt.alloc(), JOBS)?;
    want_told(rt.alloc(), WORDS)
}
