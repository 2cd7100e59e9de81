//! Versions, tables and examples over them, of which tests of several libraries make use.
ghost use Rattle.std.specs.Prelude.{IsTrue, OnOk};

use crate::devices::{Failure, Room, Trickle};
use crate::fixtures::{S_DATA, S_EXCLUSIONS, V1_DATA, V1_EXCLUSIONS, V2_DATA, V2_EXCLUSIONS};
use crate::guest_table::GuestTable;
use np_code_points::Memory;
use np_code_points::watched::Watched;
use np_tables::{PageTable, RowTable};
use np_ucd::{read_exclusions, read_row_list};
use np_versions::{NormTable, Version};
use std::alloc::Global;
use std::io::Read;
use std::test::Fail;

/// Fails with these words where the fact does not hold.
pub fn want(holds: bool, what: &str) -> Result<(), Fail>
    ensures { OnOk result (IsTrue holds) }
{
    if holds { Ok(()) } else { Err(Fail::new(what)) }
}

/// How a call of a device fails.
pub const FAILURES: [Failure; 3] = [Failure::Error, Failure::Interrupted, Failure::TakesNothing];

/// Fails unless a front of what was to be written stands in the room, a byte for each call before the one of this
/// number, and nothing was tried behind that one.
pub fn wants_front(room: &Room, written: &[u8], call: u64) -> Result<(), Fail> {
    let bytes = room.bytes();
    want(written.starts_with(bytes), "a front of what is written")?;
    want(bytes.len() as u64 == call, "as far as it was taken")?;
    want(room.calls() == call.saturating_add(1), "no second try")
}

/// A reader of the bytes that has failed once, and whose mark says so.
pub fn mended(bytes: &[u8]) -> Result<Watched<Trickle<'_>>, Fail> {
    let mut source = Watched::new(Trickle::new(bytes, 100).failing_at(0, Failure::Error));
    let mut piece = [0u8; 4];
    let failed = source.read(&mut piece).is_err() && source.failed();
    want(failed, "the first read fails")?;
    Ok(source)
}

/// The data and the exclusions of a version.
pub type Files<'t> = (&'t str, &'t str);

/// The first fixture.
pub const V1: Files = (V1_DATA, V1_EXCLUSIONS);

/// The second fixture, which extends the first.
pub const V2: Files = (V2_DATA, V2_EXCLUSIONS);

/// The fixture whose composite spans a non-starter.
pub const S: Files = (S_DATA, S_EXCLUSIONS);

/// All of ASCII, a composite of a letter and an accent, three non-starters more, and characters of three and four
/// bytes: ASCII stays, so that what stands in a long text is looked for many bytes at a time.
pub const LETTERS: Files = (
    "\
0000;<ASCII, First>;Ll;0;L;;;;;N;;;;;
007F;<ASCII, Last>;Ll;0;L;;;;;N;;;;;
00E9;X;Ll;0;L;0065 0301;;;;N;;;;;
0301;X;Mn;230;NSM;;;;;N;;;;;
0315;X;Mn;232;NSM;;;;;N;;;;;
0316;X;Mn;220;NSM;;;;;N;;;;;
1DCE;X;Mn;214;NSM;;;;;N;;;;;
4E00;X;Lo;0;L;;;;;N;;;;;
20000;X;Lo;0;L;;;;;N;;;;;
",
    "",
);

/// How often a piece stands before and behind what a long text is about: more than the bytes of which the code points
/// are looked at one by one, and a few steps of many bytes.
const TIMES: u32 = 100;

fn push_often(text: &mut String, piece: &str) -> Result<(), Memory> {
    for _ in 0..TIMES {
        text.push_str(piece)?;
    }
    Ok(())
}

/// `turn` in the midst of a long text of `piece` again and again.
pub fn amid(alloc: Global, piece: &str, turn: &str) -> Result<String, Memory> {
    let mut text = String::new(alloc);
    push_often(&mut text, piece)?;
    text.push_str(turn)?;
    push_often(&mut text, piece)?;
    Ok(text)
}

/// The version that two files give, as the programs make it.
pub fn version_of(alloc: Global, files: Files<'_>) -> Result<Version, Fail> {
    let (data, exclusions) = files;
    let rows = read_row_list(alloc, &mut Watched::new(data.as_bytes()))?;
    let exclusions = read_exclusions(alloc, &mut Watched::new(exclusions.as_bytes()))?;
    Ok(Version::of_list(alloc, rows, exclusions)?)
}

/// A table that is made of a version.
pub trait Made: NormTable + Drop {
    /// The table of a version.
    fn of(alloc: Global, version: Version) -> Result<Self, Memory>;
}

impl Made for RowTable {
    fn of(alloc: Global, version: Version) -> Result<RowTable, Memory> {
        RowTable::new(alloc, version)
    }
}

impl Made for PageTable {
    fn of(alloc: Global, version: Version) -> Result<PageTable, Memory> {
        PageTable::new(alloc, version)
    }
}

impl Made for GuestTable {
    fn of(alloc: Global, version: Version) -> Result<GuestTable, Memory> {
        GuestTable::new(alloc, version)
    }
}

/// A table of the version that two files give.
pub fn table_of<T: Made>(alloc: Global, files: Files<'_>) -> Result<T, Fail> {
    let version = version_of(alloc, files)?;
    Ok(T::of(alloc, version)?)
}

/// The tables of several versions.
pub fn made_of<T: Made>(alloc: Global, versions: &[Files<'_>]) -> Result<Vec<T>, Fail> {
    let mut tables = Vec::new(alloc);
    for files in versions {
        tables.push(table_of::<T>(alloc, *files)?)?;
    }
    Ok(tables)
}

/// The plain tables of several versions.
pub fn tables_of(alloc: Global, versions: &[Files<'_>]) -> Result<Vec<RowTable>, Fail> {
    made_of::<RowTable>(alloc, versions)
}

/// An example that holds over any table of a version.
pub trait Example {
    /// Fails unless the example holds over the table.
    fn holds<T: Made>(&self, alloc: Global, table: &T) -> Result<(), Fail>;
}

/// Fails unless the example holds over one kind of table of the version that two files give.
pub fn holds_over<T: Made, E: Example>(
    alloc: Global,
    files: Files<'_>,
    example: &E,
) -> Result<(), Fail> {
    let table: T = table_of(alloc, files)?;
    example.holds(alloc, &table)
}

/// Fails unless the example holds over each kind of table that `np_tables` has.
pub fn holds_over_each<E: Example>(
    alloc: Global,
    files: Files<'_>,
    example: &E,
) -> Result<(), Fail> {
    holds_over::<RowTable, E>(alloc, files, example)?;
    holds_over::<PageTable, E>(alloc, files, example)
}
