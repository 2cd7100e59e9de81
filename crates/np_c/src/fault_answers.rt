//! Answers that tell the faults of files, tables and foldings.
ghost use Rattle.std.specs.Prelude.{◌≡◌};
ghost use Rattle.np_foldings.specs.Faults.{number_of};
ghost use Rattle.np_c.specs.inside.FaultAnswers.{at_line, at_code, condition_answer, file_answer, folding_answer, tables_answer};

use crate::answers::{Answer, FOLDING, FOLDINGS, MEMORY, TABLES, TOO_LARGE};
use np_caseless::ConditionFault;
use np_foldings::{FoldingFault, RecordFault};
use np_ucd::UcdFault;
use np_versions::TableFault;

/// The folding file is the third.
const THIRD: u32 = 3;

/// The answer that tells a fault of a file at a line.
fn of_line(status: u32, fault: u32, line: u64) -> Answer
    ensures { result ≡ at_line status fault line }
{
    Answer {
        fault,
        place: line,
        ..Answer::of(status)
    }
}

/// The answer that tells the fault of a file, which is the first or the second. Bytes in memory are read
/// without a failure, which would be told as want of memory.
pub fn of_file(status: u32, number: u32, fault: UcdFault) -> Answer
    ensures { result ≡ file_answer status number fault }
{
    match fault {
        UcdFault::FieldCount { line } => of_line(status, 1, line),
        UcdFault::BadCode { line } => of_line(status, 2, line),
        UcdFault::OutOfOrder { line } => of_line(status, 3, line),
        UcdFault::BadCategory { line } => of_line(status, 4, line),
        UcdFault::BadClass { line } => of_line(status, 5, line),
        UcdFault::BadMapping { line } => of_line(status, 6, line),
        UcdFault::RangeOpen { line } => of_line(status, 7, line),
        UcdFault::RangeLone { line } => of_line(status, 8, line),
        UcdFault::RangeDiffers { line } => of_line(status, 9, line),
        UcdFault::RangeMaps { line } => of_line(status, 10, line),
        UcdFault::TooLarge => of_line(TOO_LARGE, number, 0),
        UcdFault::ReadFailed | UcdFault::Memory => Answer::of(MEMORY),
    }
}

/// The answer that tells a fault at a code point.
fn of_code(status: u32, fault: u32, code: u32) -> Answer
    ensures { result ≡ at_code status fault code }
{
    Answer {
        fault,
        code,
        ..Answer::of(status)
    }
}

/// The answer that tells the fault of tables.
pub fn of_tables(fault: TableFault) -> Answer
    ensures { result ≡ tables_answer fault }
{
    match fault {
        TableFault::MapsToUnassigned { code } => of_code(TABLES, 1, code),
        TableFault::TooDeep { code } => of_code(TABLES, 2, code),
        TableFault::TooLong { code } => of_code(TABLES, 3, code),
        TableFault::AmbiguousPair { code } => of_code(TABLES, 4, code),
        TableFault::HangulWrong { code } => of_code(TABLES, 5, code),
        TableFault::Memory => Answer::of(MEMORY),
    }
}

/// The number of the fault of a record of a folding file.
fn record_number(fault: RecordFault) -> u32
    ensures { result ≡ number_of fault }
{
    u32::from(fault.number())
}

/// The answer that tells the fault of a folding file, which is the third. Bytes in memory are read without a failure, which
/// would be told as want of memory.
pub fn of_folding(fault: FoldingFault) -> Answer
    ensures { result ≡ folding_answer fault }
{
    match fault {
        FoldingFault::BadRecord { line, fault } => of_line(FOLDING, record_number(fault), line),
        FoldingFault::TooLarge => of_line(TOO_LARGE, THIRD, 0),
        FoldingFault::ReadFailed | FoldingFault::Memory => Answer::of(MEMORY),
    }
}

/// The answer that tells the fault of a version with its foldings.
pub fn of_condition(fault: ConditionFault) -> Answer
    ensures { result ≡ condition_answer fault }
{
    match fault {
        ConditionFault::FoldsUnassigned { code } => of_code(FOLDINGS, 1, code),
        ConditionFault::FoldsToUnassigned { code } => of_code(FOLDINGS, 2, code),
        ConditionFault::FoldsAgain { code } => of_code(FOLDINGS, 3, code),
        ConditionFault::FoldedTooLong { code } => of_code(FOLDINGS, 4, code),
        ConditionFault::NotFolded { code } => of_code(FOLDINGS, 5, code),
        ConditionFault::Memory => Answer::of(MEMORY),
    }
}
