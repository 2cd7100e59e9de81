//! Why a job is refused, and the status of each refusal.
ghost use Rattle.std.specs.Prelude.{◌≡◌};
ghost use Rattle.np_jobs.specs.Statuses.{file_status, input_status, tables_status};
ghost use Rattle.np_jobs.specs.Tellings.{replay_telling, telling_of, text_telling, version_telling};
ghost use Rattle.np_jobs.specs.inside.Groups.{of_replay, of_text, of_version};

use crate::statuses::{BAD, DIFFERENT, FAILED, MEMORY, UNASSIGNED};
use np_chain::Break;
use np_code_points::input::InputFault;
use np_ucd::UcdFault;
use np_versions::TableFault;
use thiserror::Error;

/// Why no version came of two files. Versions are numbered from 0.
#[derive(Clone, Copy, Debug, PartialEq, Eq, Drop, Error)]
pub enum VersionFault {
    /// The data file was not read, or has a fault.
    #[error("version {version} data: {fault}")]
    Data { version: usize, fault: UcdFault },
    /// The exclusions file was not read, or has a fault.
    #[error("version {version} exclusions: {fault}")]
    Exclusions { version: usize, fault: UcdFault },
    /// The tables that both files make have a fault.
    #[error("version {version} tables: {fault}")]
    Tables { version: usize, fault: TableFault },
}

/// Why a text is not answered. Places are bytes from 0.
#[derive(Clone, Copy, Debug, PartialEq, Eq, Drop, Error)]
pub enum TextFault {
    /// The input was not read whole.
    #[error("input: {fault}")]
    Input { fault: InputFault },
    /// The input is no UTF-8; its longest valid prefix has this length.
    #[error("input: not UTF-8 at byte {at}")]
    NotUtf8 { at: usize },
    /// The input has no line end between two strings.
    #[error("input: two lines wanted")]
    TwoLinesWanted,
    /// The first unassigned code point of the input.
    #[error("unassigned {code:04X} at byte {at}", code = u32::from(*.code))]
    Unassigned { at: usize, code: char },
    /// The first unassigned code point of the first string.
    #[error("first: unassigned {code:04X} at byte {at}", code = u32::from(*.code))]
    FirstUnassigned { at: usize, code: char },
    /// The first unassigned code point of the second string.
    #[error("second: unassigned {code:04X} at byte {at}", code = u32::from(*.code))]
    SecondUnassigned { at: usize, code: char },
    /// Memory ran out after the text was read.
    #[error("out of memory")]
    Memory,
}

/// Why a chain of versions and a schedule give no report. Lines are numbered from 1.
#[derive(Clone, Copy, Debug, PartialEq, Eq, Drop, Error)]
pub enum ReplayFault {
    /// The schedule was not read whole.
    #[error("schedule: {fault}")]
    Schedule { fault: InputFault },
    /// The first line of the schedule that can't stand.
    #[error("schedule: line {line}")]
    Line { line: u64 },
    /// Memory ran out after the schedule was read.
    #[error("out of memory")]
    Memory,
}

/// Why a job is refused. Versions are numbered from 0.
#[derive(Clone, Copy, Debug, PartialEq, Eq, Drop, Error)]
pub enum JobFault {
    /// The two files of a version make none.
    #[error(transparent)]
    Version { fault: VersionFault },
    /// The version of this number does not extend the one before, the first that does not, and
    /// `brk` is its first break.
    #[error("not an extension: version {version} {brk}")]
    NotExtension { version: usize, brk: Break },
    /// The text of the input is not answered.
    #[error(transparent)]
    Text { fault: TextFault },
    /// The schedule is not replayed.
    #[error(transparent)]
    Replay { fault: ReplayFault },
    /// A write or the flush of the output failed.
    #[error("output: write failed")]
    WriteFailed,
    /// Memory ran out, where no other fault says of what.
    #[error("out of memory")]
    Memory,
}

impl From<VersionFault> for JobFault {
    ghost from_gives = { λ fault e. e ≡ of_version fault };

    fn from(fault: VersionFault) -> JobFault {
        JobFault::Version { fault }
    }
}

impl From<TextFault> for JobFault {
    ghost from_gives = { λ fault e. e ≡ of_text fault };

    fn from(fault: TextFault) -> JobFault {
        JobFault::Text { fault }
    }
}

impl From<ReplayFault> for JobFault {
    ghost from_gives = { λ fault e. e ≡ of_replay fault };

    fn from(fault: ReplayFault) -> JobFault {
        JobFault::Replay { fault }
    }
}

fn status_of_file(fault: &UcdFault) -> u8
    ensures { result ≡ file_status fault.now }
{
    match fault {
        UcdFault::FieldCount { .. }
        | UcdFault::BadCode { .. }
        | UcdFault::OutOfOrder { .. }
        | UcdFault::BadCategory { .. }
        | UcdFault::BadClass { .. }
        | UcdFault::BadMapping { .. }
        | UcdFault::RangeOpen { .. }
        | UcdFault::RangeLone { .. }
        | UcdFault::RangeDiffers { .. }
        | UcdFault::RangeMaps { .. }
        | UcdFault::TooLarge => BAD,
        UcdFault::ReadFailed => FAILED,
        UcdFault::Memory => MEMORY,
    }
}

fn status_of_tables(fault: &TableFault) -> u8
    ensures { result ≡ tables_status fault.now }
{
    match fault {
        TableFault::MapsToUnassigned { .. }
        | TableFault::TooDeep { .. }
        | TableFault::TooLong { .. }
        | TableFault::AmbiguousPair { .. }
        | TableFault::HangulWrong { .. } => BAD,
        TableFault::Memory => MEMORY,
    }
}

fn status_of_input(fault: &InputFault) -> u8
    ensures { result ≡ input_status fault.now }
{
    match fault {
        InputFault::TooLarge => BAD,
        InputFault::ReadFailed => FAILED,
        InputFault::Memory => MEMORY,
    }
}

impl VersionFault {
    /// The status of the refusal.
    pub fn status(&self) -> u8
        ensures { result ≡ (version_telling self.now).status }
    {
        match self {
            VersionFault::Data { version: _, fault } => status_of_file(fault),
            VersionFault::Exclusions { version: _, fault } => status_of_file(fault),
            VersionFault::Tables { version: _, fault } => status_of_tables(fault),
        }
    }
}

impl TextFault {
    /// The status of the refusal.
    pub fn status(&self) -> u8
        ensures { result ≡ (text_telling self.now).status }
    {
        match self {
            TextFault::Input { fault } => status_of_input(fault),
            TextFault::NotUtf8 { .. } | TextFault::TwoLinesWanted => BAD,
            TextFault::Unassigned { .. }
            | TextFault::FirstUnassigned { .. }
            | TextFault::SecondUnassigned { .. } => UNASSIGNED,
            TextFault::Memory => MEMORY,
        }
    }
}

impl ReplayFault {
    /// The status of the refusal.
    pub fn status(&self) -> u8
        ensures { result ≡ (replay_telling self.now).status }
    {
        match self {
            ReplayFault::Schedule { fault } => status_of_input(fault),
            ReplayFault::Line { .. } => BAD,
            ReplayFault::Memory => MEMORY,
        }
    }
}

impl JobFault {
    /// The status of the refusal.
    pub fn status(&self) -> u8
        ensures { result ≡ (telling_of self.now).status }
    {
        match self {
            JobFault::Version { fault } => fault.status(),
            JobFault::NotExtension { .. } => DIFFERENT,
            JobFault::Text { fault } => fault.status(),
            JobFault::Replay { fault } => fault.status(),
            JobFault::WriteFailed => FAILED,
            JobFault::Memory => MEMORY,
        }
    }
}
