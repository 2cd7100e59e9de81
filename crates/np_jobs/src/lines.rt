//! The line that is told on a refusal.
ghost use Rattle.std.specs.Prelude.{◌≡◌, ◌++◌, false, IfOk, OnErr, codes, string_bytes};
ghost use Rattle.np_code_points.specs.Codes.{code_digits};
ghost use Rattle.np_jobs.specs.Tellings as tellings;
ghost use Rattle.np_jobs.specs.Tellings.{replay_telling, telling_of, text_telling, version_telling};
ghost use Rattle.np_jobs.specs.Lines.{line_bytes};

use crate::faults::{JobFault, ReplayFault, TextFault, VersionFault};
use crate::statuses::MEMORY;
use np_chain::Break;
use np_code_points::Memory;
use np_code_points::codes::{write_code, write_unassigned};
use np_code_points::input::InputFault;
use np_ucd::UcdFault;
use np_versions::TableFault;
use std::alloc::Global;

/// The line on want of memory.
pub const OUT_OF_MEMORY: &str = "out of memory\n";

/// A line with its line end. One that is always the same takes no memory.
#[derive(Debug, Drop)]
pub enum Line {
    /// It is always the same.
    Fixed(&'static str),
    /// It tells a number, a name or a code point.
    Made(String),
}

impl Line {
    /// The text of the line.
    pub fn as_str(&self) -> &str
        ensures { result.now ≡ line_bytes self.now }
    {
        match self {
            Line::Fixed(text) => text,
            Line::Made(text) => text.as_str(),
        }
    }
}

/// A code point in hex digits.
///
/// # Errors
///
/// `Memory` where memory ran out.
pub fn code_text(alloc: Global, code: u32) -> Result<String, Memory>
    ensures { IfOk result (λ text. string_bytes text ≡ code_digits code) }
{
    let mut text = String::new(alloc);
    write_code(&mut text, code)?;
    Ok(text)
}

/// The line on a file of a version.
fn file_line(alloc: Global, version: usize, file: &str, fault: &UcdFault) -> Result<Line, Memory>
    ensures line { IfOk result (λ line. line_bytes line ≡ tellings.file_line version file.now fault.now) }
{
    let name = fault.name();
    match fault.line() {
        Some(line) => Ok(Line::Made(format!(in alloc;
            "version {version} {file}: line {line}: {name}\n"
        )?)),
        None => Ok(Line::Made(format!(in alloc; "version {version} {file}: {name}\n")?)),
    }
}

/// The line on the tables of a version.
fn tables_line(alloc: Global, version: usize, fault: &TableFault) -> Result<Line, Memory>
    ensures line { IfOk result (λ line. line_bytes line ≡ tellings.tables_line version fault.now) }
{
    let name = fault.name();
    let code = code_text(alloc, fault.code().unwrap_or(0))?;
    Ok(Line::Made(format!(in alloc; "version {version} tables: {name} {code}\n")?))
}

/// The line on a version.
fn version_line(alloc: Global, fault: &VersionFault) -> Result<Line, Memory>
    ensures line { IfOk result (λ line. line_bytes line ≡ (version_telling fault.now).line) }
    ensures free { OnErr result ((version_telling fault.now).is_fixed ≡ false) }
{
    if fault.status() == MEMORY {
        return Ok(Line::Fixed(OUT_OF_MEMORY));
    }
    match fault {
        VersionFault::Data { version, fault } => file_line(alloc, *version, "data", fault),
        VersionFault::Exclusions { version, fault } => {
            file_line(alloc, *version, "exclusions", fault)
        }
        VersionFault::Tables { version, fault } => tables_line(alloc, *version, fault),
    }
}

/// The line on an input that was not read whole.
fn input_line(fault: &InputFault) -> &'static str
    ensures { result.now ≡ tellings.input_line (codes "input") fault.now }
{
    match fault {
        InputFault::TooLarge => "input: TooLarge\n",
        InputFault::ReadFailed => "input: ReadFailed\n",
        InputFault::Memory => OUT_OF_MEMORY,
    }
}

/// The text of the line on an unassigned code point, where `head` says of which text.
pub(super) fn unassigned_text(
    alloc: Global,
    head: &str,
    at: usize,
    code: char,
) -> Result<String, Memory>
    ensures { IfOk result (λ text. string_bytes text ≡ tellings.unassigned_line head.now at code) }
{
    let mut text = String::from_str(alloc, head)?;
    write_unassigned(&mut text, at, code)?;
    text.push_str("\n")?;
    Ok(text)
}

/// The line on an unassigned code point, where `head` says of which text.
fn unassigned_line(alloc: Global, head: &str, at: usize, code: char) -> Result<Line, Memory>
    ensures line { IfOk result (λ line. line_bytes line ≡ tellings.unassigned_line head.now at code) }
{
    Ok(Line::Made(unassigned_text(alloc, head, at, code)?))
}

/// The line on a text.
fn text_line(alloc: Global, fault: &TextFault) -> Result<Line, Memory>
    ensures line { IfOk result (λ line. line_bytes line ≡ (text_telling fault.now).line) }
    ensures free { OnErr result ((text_telling fault.now).is_fixed ≡ false) }
{
    match fault {
        TextFault::Input { fault } => Ok(Line::Fixed(input_line(fault))),
        TextFault::NotUtf8 { at } => Ok(Line::Made(format!(in alloc;
            "input: not UTF-8 at byte {at}\n"
        )?)),
        TextFault::TwoLinesWanted => Ok(Line::Fixed("input: two lines wanted\n")),
        TextFault::Unassigned { at, code } => unassigned_line(alloc, "", *at, *code),
        TextFault::FirstUnassigned { at, code } => unassigned_line(alloc, "first: ", *at, *code),
        TextFault::SecondUnassigned { at, code } => unassigned_line(alloc, "second: ", *at, *code),
        TextFault::Memory => Ok(Line::Fixed(OUT_OF_MEMORY)),
    }
}

/// Adds the line of a break: the name of its kind, and its code point.
///
/// # Errors
///
/// `Memory` where memory ran out; the text may have some first bytes of the line more.
pub fn write_kind(text: &mut String, kind: &str, code: u32) -> Result<(), Memory>
    ensures { IfOk result (λ _. string_bytes text.new ≡ string_bytes text.old ++ tellings.kind_line kind.now code) }
{
    text.push_str(kind)?;
    text.push_str(" ")?;
    write_code(text, code)?;
    text.push_str("\n")?;
    Ok(())
}

/// Adds the line of a break.
pub(super) fn write_break(text: &mut String, found: &Break) -> Result<(), Memory>
    ensures { IfOk result (λ _. string_bytes text.new ≡ string_bytes text.old ++ tellings.break_line found.now) }
{
    write_kind(text, found.kind.name(), found.code)
}

/// The line on a version that does not extend the one before.
fn extension_line(alloc: Global, version: usize, brk: &Break) -> Result<Line, Memory>
    ensures { IfOk result (λ line. line_bytes line ≡ (telling_of (JobFault.NotExtension version brk.now)).line) }
{
    let mut text = format!(in alloc; "not an extension: version {version} ")?;
    write_break(&mut text, brk)?;
    Ok(Line::Made(text))
}

/// The line on a schedule that was not read whole.
fn schedule_line(fault: &InputFault) -> &'static str
    ensures { result.now ≡ tellings.input_line (codes "schedule") fault.now }
{
    match fault {
        InputFault::TooLarge => "schedule: TooLarge\n",
        InputFault::ReadFailed => "schedule: ReadFailed\n",
        InputFault::Memory => OUT_OF_MEMORY,
    }
}

/// The line on a schedule that gives no report.
fn replay_line(alloc: Global, fault: &ReplayFault) -> Result<Line, Memory>
    ensures line { IfOk result (λ line. line_bytes line ≡ (replay_telling fault.now).line) }
    ensures free { OnErr result ((replay_telling fault.now).is_fixed ≡ false) }
{
    match fault {
        ReplayFault::Schedule { fault } => Ok(Line::Fixed(schedule_line(fault))),
        ReplayFault::Line { line } => Ok(Line::Made(format!(in alloc; "schedule: line {line}\n")?)),
        ReplayFault::Memory => Ok(Line::Fixed(OUT_OF_MEMORY)),
    }
}

/// The line on a refusal, with its line end.
///
/// # Errors
///
/// `Memory` where memory ran out for a line that isn't always the same.
pub fn line_of(alloc: Global, fault: &JobFault) -> Result<Line, Memory>
    ensures line { IfOk result (λ line. line_bytes line ≡ (telling_of fault.now).line) }
    ensures free { OnErr result ((telling_of fault.now).is_fixed ≡ false) }
{
    match fault {
        JobFault::Version { fault } => version_line(alloc, fault),
        JobFault::NotExtension { version, brk } => extension_line(alloc, *version, brk),
        JobFault::Text { fault } => text_line(alloc, fault),
        JobFault::Replay { fault } => replay_line(alloc, fault),
        JobFault::WriteFailed => Ok(Line::Fixed("output: WriteFailed\n")),
        JobFault::Memory => Ok(Line::Fixed(OUT_OF_MEMORY)),
    }
}
