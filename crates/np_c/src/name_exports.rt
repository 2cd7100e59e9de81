//! The functions that C calls to ask for names. They take no handle, and nothing is refused.
ghost use Rattle.np_c.specs.Names.{IsBreakName, IsFaultName, IsFormName, IsPadded, AnswersName, name_of_status};

use crate::names::{Name, break_name, fault_name, form_name, status_name};

/// The name of a status; empty where the number is none's.
#[unsafe(no_mangle)]
pub extern "C" fn npss_status_name(status: u32) -> Name
    ensures { IsPadded (name_of_status status) result }
{
    Name::of(status_name(status))
}

/// The name of the fault that an answer of this status tells by this number; empty where none has it, or where answers of the
/// status tell no fault.
#[unsafe(no_mangle)]
pub extern "C" fn npss_fault_name(status: u32, fault: u32) -> Name
    ensures { AnswersName (IsFaultName status fault) result }
{
    Name::of(fault_name(status, fault))
}

/// The name of what a newer version breaks; empty where the number is no kind's.
#[unsafe(no_mangle)]
pub extern "C" fn npss_break_name(kind: u32) -> Name
    ensures { AnswersName (IsBreakName kind) result }
{
    Name::of(break_name(kind))
}

/// The name of a form, as the programs take it; empty where the letter is none's.
#[unsafe(no_mangle)]
pub extern "C" fn npss_form_name(form: u8) -> Name
    ensures { AnswersName (IsFormName form) result }
{
    Name::of(form_name(form))
}
