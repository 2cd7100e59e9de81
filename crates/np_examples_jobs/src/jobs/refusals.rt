//! The line and the status of each refusal, as docs/FORMATS.md has them.
use np_chain::{Break, BreakKind};
use np_code_points::input::InputFault;
use np_code_points::watched::Watched;
use np_examples_shared::want;
use np_jobs::{JobFault, ReplayFault, TextFault, VersionFault, refuse};
use np_ucd::UcdFault;
use np_versions::TableFault;
use std::alloc::Global;
use std::test::Fail;

/// Whether the refusal is told so.
fn is_told(alloc: Global, fault: &JobFault, status: u8, line: &str) -> bool {
    let mut error = Watched::new(Vec::new(alloc));
    let answered = refuse(alloc, &mut error, fault);
    let told: Vec<u8> = error.into_inner();
    answered == status && told.as_slice() == line.as_bytes()
}

/// Fails unless the refusal for each of these faults has that status and that line.
fn are_told<F: Copy, J: Fn(F) -> JobFault>(
    alloc: Global,
    rows: &[(F, u8, &str)],
    job_fault: &J,
) -> Result<(), Fail>
    requires { J.IsAlwaysCallable job_fault.now }
{
    for (fault, status, line) in rows {
        want(is_told(alloc, &job_fault(*fault), *status, line), line)?;
    }
    Ok(())
}

fn version(fault: VersionFault) -> JobFault {
    JobFault::from(fault)
}

fn text(fault: TextFault) -> JobFault {
    JobFault::from(fault)
}

fn replay(fault: ReplayFault) -> JobFault {
    JobFault::from(fault)
}

fn itself(fault: JobFault) -> JobFault {
    fault
}

/// Faults of the data file's records, of its ranges and of the whole file; of the exclusions file; of the tables that
/// two files make.
const VERSIONS: &[(VersionFault, u8, &str)] = &[
    (
        VersionFault::Data {
            version: 0,
            fault: UcdFault::FieldCount { line: 1 },
        },
        4,
        "version 0 data: line 1: FieldCount\n",
    ),
    (
        VersionFault::Data {
            version: 0,
            fault: UcdFault::BadCode { line: 2 },
        },
        4,
        "version 0 data: line 2: BadCode\n",
    ),
    (
        VersionFault::Data {
            version: 0,
            fault: UcdFault::OutOfOrder { line: 3 },
        },
        4,
        "version 0 data: line 3: OutOfOrder\n",
    ),
    (
        VersionFault::Data {
            version: 0,
            fault: UcdFault::BadCategory { line: 40 },
        },
        4,
        "version 0 data: line 40: BadCategory\n",
    ),
    (
        VersionFault::Data {
            version: 0,
            fault: UcdFault::BadClass { line: 5 },
        },
        4,
        "version 0 data: line 5: BadClass\n",
    ),
    (
        VersionFault::Data {
            version: 0,
            fault: UcdFault::BadMapping { line: 16777217 },
        },
        4,
        "version 0 data: line 16777217: BadMapping\n",
    ),
    (
        VersionFault::Data {
            version: 0,
            fault: UcdFault::RangeOpen { line: 7 },
        },
        4,
        "version 0 data: line 7: RangeOpen\n",
    ),
    (
        VersionFault::Data {
            version: 0,
            fault: UcdFault::RangeLone { line: 8 },
        },
        4,
        "version 0 data: line 8: RangeLone\n",
    ),
    (
        VersionFault::Data {
            version: 0,
            fault: UcdFault::RangeDiffers { line: 9 },
        },
        4,
        "version 0 data: line 9: RangeDiffers\n",
    ),
    (
        VersionFault::Data {
            version: 0,
            fault: UcdFault::RangeMaps { line: 10 },
        },
        4,
        "version 0 data: line 10: RangeMaps\n",
    ),
    (
        VersionFault::Data {
            version: 0,
            fault: UcdFault::TooLarge,
        },
        4,
        "version 0 data: TooLarge\n",
    ),
    (
        VersionFault::Data {
            version: 0,
            fault: UcdFault::ReadFailed,
        },
        5,
        "version 0 data: ReadFailed\n",
    ),
    (
        VersionFault::Data {
            version: 0,
            fault: UcdFault::Memory,
        },
        6,
        "out of memory\n",
    ),
    (
        VersionFault::Exclusions {
            version: 1,
            fault: UcdFault::BadCode { line: 1 },
        },
        4,
        "version 1 exclusions: line 1: BadCode\n",
    ),
    (
        VersionFault::Exclusions {
            version: 1,
            fault: UcdFault::TooLarge,
        },
        4,
        "version 1 exclusions: TooLarge\n",
    ),
    (
        VersionFault::Exclusions {
            version: 1,
            fault: UcdFault::ReadFailed,
        },
        5,
        "version 1 exclusions: ReadFailed\n",
    ),
    (
        VersionFault::Exclusions {
            version: 1,
            fault: UcdFault::Memory,
        },
        6,
        "out of memory\n",
    ),
    (
        VersionFault::Tables {
            version: 1,
            fault: TableFault::MapsToUnassigned { code: 0xC5 },
        },
        4,
        "version 1 tables: MapsToUnassigned 00C5\n",
    ),
    (
        VersionFault::Tables {
            version: 1,
            fault: TableFault::TooDeep { code: 0x41 },
        },
        4,
        "version 1 tables: TooDeep 0041\n",
    ),
    (
        VersionFault::Tables {
            version: 1,
            fault: TableFault::TooLong { code: 0x16D67 },
        },
        4,
        "version 1 tables: TooLong 16D67\n",
    ),
    (
        VersionFault::Tables {
            version: 1,
            fault: TableFault::AmbiguousPair { code: 0x10FFFF },
        },
        4,
        "version 1 tables: AmbiguousPair 10FFFF\n",
    ),
    (
        VersionFault::Tables {
            version: 1,
            fault: TableFault::HangulWrong { code: 0x1101 },
        },
        4,
        "version 1 tables: HangulWrong 1101\n",
    ),
    (
        VersionFault::Tables {
            version: 1,
            fault: TableFault::Memory,
        },
        6,
        "out of memory\n",
    ),
];

#[test]
fn faults_of_versions_have_lines(rt: HostRuntime) -> Result<(), Fail> {
    are_told(rt.alloc(), VERSIONS, &version)
}

/// Faults of a text's input.
const INPUTS: &[(TextFault, u8, &str)] = &[
    (
        TextFault::Input {
            fault: InputFault::TooLarge,
        },
        4,
        "input: TooLarge\n",
    ),
    (
        TextFault::Input {
            fault: InputFault::ReadFailed,
        },
        5,
        "input: ReadFailed\n",
    ),
    (
        TextFault::Input {
            fault: InputFault::Memory,
        },
        6,
        "out of memory\n",
    ),
];

/// Faults of a text that was read.
const TEXTS: &[(TextFault, u8, &str)] = &[
    (
        TextFault::NotUtf8 { at: 16777215 },
        4,
        "input: not UTF-8 at byte 16777215\n",
    ),
    (TextFault::TwoLinesWanted, 4, "input: two lines wanted\n"),
    (
        TextFault::Unassigned {
            at: 1,
            code: '\u{16D67}',
        },
        3,
        "unassigned 16D67 at byte 1\n",
    ),
    (
        TextFault::FirstUnassigned {
            at: 1,
            code: '\u{16D67}',
        },
        3,
        "first: unassigned 16D67 at byte 1\n",
    ),
    (
        TextFault::SecondUnassigned { at: 0, code: '\n' },
        3,
        "second: unassigned 000A at byte 0\n",
    ),
    (TextFault::Memory, 6, "out of memory\n"),
];

/// Fails unless the fault as text is its line without the line end.
fn wants_text(alloc: Global, fault: &JobFault, line: &str) -> Result<(), Fail> {
    let text = format!(in alloc; "{fault}\n")?;
    want(text.as_str() == line, line)
}

/// Fails unless each of these faults as text is its line without the line end.
fn want_texts(alloc: Global, rows: &[(TextFault, u8, &str)]) -> Result<(), Fail> {
    for (fault, _, line) in rows {
        wants_text(alloc, &text(*fault), line)?;
    }
    Ok(())
}

#[test]
fn faults_of_texts_have_lines(rt: HostRuntime) -> Result<(), Fail> {
    are_told(rt.alloc(), INPUTS, &text)?;
    want_texts(rt.alloc(), TEXTS)?;
    are_told(rt.alloc(), TEXTS, &text)
}

/// Faults of a schedule's input, and of a schedule that was read.
const SCHEDULES: &[(ReplayFault, u8, &str)] = &[
    (
        ReplayFault::Schedule {
            fault: InputFault::TooLarge,
        },
        4,
        "schedule: TooLarge\n",
    ),
    (
        ReplayFault::Schedule {
            fault: InputFault::ReadFailed,
        },
        5,
        "schedule: ReadFailed\n",
    ),
    (
        ReplayFault::Schedule {
            fault: InputFault::Memory,
        },
        6,
        "out of memory\n",
    ),
    (
        ReplayFault::Line { line: 16777217 },
        4,
        "schedule: line 16777217\n",
    ),
    (ReplayFault::Memory, 6, "out of memory\n"),
];

#[test]
fn faults_of_schedules_have_lines(rt: HostRuntime) -> Result<(), Fail> {
    are_told(rt.alloc(), SCHEDULES, &replay)
}

/// Versions that are no chain, a failed output and want of memory.
const OTHERS: &[(JobFault, u8, &str)] = &[
    (
        JobFault::NotExtension {
            version: 1,
            brk: Break {
                kind: BreakKind::Lost,
                code: 0x1DFA,
            },
        },
        1,
        "not an extension: version 1 Lost 1DFA\n",
    ),
    (
        JobFault::NotExtension {
            version: 12,
            brk: Break {
                kind: BreakKind::NewComposite,
                code: 0xC1,
            },
        },
        1,
        "not an extension: version 12 NewComposite 00C1\n",
    ),
    (JobFault::WriteFailed, 5, "output: WriteFailed\n"),
    (JobFault::Memory, 6, "out of memory\n"),
];

#[test]
fn other_faults_have_lines(rt: HostRuntime) -> Result<(), Fail> {
    are_told(rt.alloc(), OTHERS, &itself)
}
