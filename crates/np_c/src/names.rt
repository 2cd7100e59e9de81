//! The names of the numbers that answers tell: those that the programs print.
ghost use Rattle.std.specs.Prelude.{◌≡◌, ◌<◌, [], get_or, length};
ghost use Rattle.np_c.specs.Names.{IsBreakName, IsConditionFaultName, IsFaultName, IsFileFaultName, IsFormName, IsRecordFaultName, IsTableFaultName, IsPadded, name_of_status};
ghost use Rattle.np_c.specs.inside.NameLists.{texts_of};

use crate::answers::{DATA, EXCLUSIONS, FOLDING, FOLDINGS, TABLES};
use crate::texts::form_in;
use np_caseless::{ConditionFault, FoldedBreakKind};
use np_chain::BreakKind;
use np_code_points::Form;
use np_foldings::RecordFault;
use np_ucd::UcdFault;
use np_versions::TableFault;

/// How many bytes a name and the NULs behind it have.
const SIZE: usize = 32;

/// The names of the statuses, in the order of their numbers.
const STATUS_NAMES: &[&str] = &[
    "Done",
    "Unassigned",
    "NotUtf8",
    "NoRoom",
    "Memory",
    "Closed",
    "NoForm",
    "Data",
    "Exclusions",
    "Tables",
    "TooLarge",
    "Different",
    "NoEnd",
    "Known",
    "NotKept",
    "TooLong",
    "Full",
    "Malformed",
    "OtherForm",
    "KeyDiffers",
    "OlderTables",
    "BadEntry",
    "BadRoom",
    "NoCode",
    "Folding",
    "Foldings",
    "NoFolding",
];

/// A name in ASCII, and NULs behind it to the end, at least one. It is empty where a number has none.
#[repr(C)]
#[derive(Clone, Copy)]
pub struct Name {
    /// The name and the NULs.
    pub text: [u8; SIZE],
}

impl Name {
    /// A name of fewer bytes than the field has.
    pub fn of(name: &str) -> Name
        requires { length name.now < 32 }
        ensures { IsPadded name.now result }
    {
        let mut text = [0u8; SIZE];
        text[..name.len()].copy_from_slice(name.as_bytes());
        Name { text }
    }
}

/// The name at a place of a list of names; empty behind its end.
fn name_at(names: &[&'static str], place: u32) -> &'static str
    ensures { result.now ≡ get_or (texts_of names.now) place [] }
{
    match names.get(place as usize) {
        Some(name) => name,
        None => "",
    }
}

/// The name of a status; empty where it is none.
pub fn status_name(status: u32) -> &'static str
    ensures named { result.now ≡ name_of_status status }
    ensures short { length result.now < 32 }
{
    name_at(STATUS_NAMES, status)
}

/// The name of the fault of this number in one of the first two files.
fn file_fault_name(number: u32) -> &'static str
    ensures named { IsFileFaultName number result.now }
    ensures short { length result.now < 32 }
{
    let fault = match number {
        1 => UcdFault::FieldCount { line: 1 },
        2 => UcdFault::BadCode { line: 1 },
        3 => UcdFault::OutOfOrder { line: 1 },
        4 => UcdFault::BadCategory { line: 1 },
        5 => UcdFault::BadClass { line: 1 },
        6 => UcdFault::BadMapping { line: 1 },
        7 => UcdFault::RangeOpen { line: 1 },
        8 => UcdFault::RangeLone { line: 1 },
        9 => UcdFault::RangeDiffers { line: 1 },
        10 => UcdFault::RangeMaps { line: 1 },
        _ => return "",
    };
    fault.name()
}

/// The name of the fault of this number of the tables.
fn table_fault_name(number: u32) -> &'static str
    ensures named { IsTableFaultName number result.now }
    ensures short { length result.now < 32 }
{
    let fault = match number {
        1 => TableFault::MapsToUnassigned { code: 0 },
        2 => TableFault::TooDeep { code: 0 },
        3 => TableFault::TooLong { code: 0 },
        4 => TableFault::AmbiguousPair { code: 0 },
        5 => TableFault::HangulWrong { code: 0 },
        _ => return "",
    };
    fault.name()
}

/// The name of the fault of this number of the folding file.
fn record_fault_name(number: u32) -> &'static str
    ensures named { IsRecordFaultName number result.now }
    ensures short { length result.now < 32 }
{
    let fault = match number {
        1 => RecordFault::FieldCount,
        2 => RecordFault::BadCode,
        3 => RecordFault::BadStatus,
        4 => RecordFault::OutOfOrder,
        5 => RecordFault::StatusConflict,
        6 => RecordFault::BadMapping,
        _ => return "",
    };
    fault.name()
}

/// The name of the fault of this number of a version with its foldings.
fn condition_fault_name(number: u32) -> &'static str
    ensures named { IsConditionFaultName number result.now }
    ensures short { length result.now < 32 }
{
    let fault = match number {
        1 => ConditionFault::FoldsUnassigned { code: 0 },
        2 => ConditionFault::FoldsToUnassigned { code: 0 },
        3 => ConditionFault::FoldsAgain { code: 0 },
        4 => ConditionFault::FoldedTooLong { code: 0 },
        5 => ConditionFault::NotFolded { code: 0 },
        _ => return "",
    };
    fault.name()
}

/// The name of the fault that an answer of this status tells; empty where it tells none.
pub fn fault_name(status: u32, number: u32) -> &'static str
    ensures named { IsFaultName status number result.now }
    ensures short { length result.now < 32 }
{
    match status {
        DATA | EXCLUSIONS => file_fault_name(number),
        TABLES => table_fault_name(number),
        FOLDING => record_fault_name(number),
        FOLDINGS => condition_fault_name(number),
        _ => "",
    }
}

/// The name of a kind of break; empty where the number is none's.
pub fn break_name(number: u32) -> &'static str
    ensures named { IsBreakName number result.now }
    ensures short { length result.now < 32 }
{
    let kind = match number {
        1 => FoldedBreakKind::OfVersion(BreakKind::Lost),
        2 => FoldedBreakKind::OfVersion(BreakKind::ClassChanged),
        3 => FoldedBreakKind::OfVersion(BreakKind::MappingChanged),
        4 => FoldedBreakKind::OfVersion(BreakKind::NowExcluded),
        5 => FoldedBreakKind::OfVersion(BreakKind::NowIncluded),
        6 => FoldedBreakKind::OfVersion(BreakKind::NewComposite),
        7 => FoldedBreakKind::FoldingChanged,
        _ => return "",
    };
    kind.name()
}

/// The name of the form of a letter; empty where it is none's.
pub fn form_name(letter: u8) -> &'static str
    ensures named { IsFormName letter result.now }
    ensures short { length result.now < 32 }
{
    match form_in(letter) {
        Some(Form::Nfd) => "nfd",
        Some(Form::Nfc) => "nfc",
        Some(Form::Nfkd) => "nfkd",
        Some(Form::Nfkc) => "nfkc",
        None => "",
    }
}
