//! The row of each code point, in blocks of 256 code points.
ghost use Rattle.std.specs.Prelude.{◌≡◌, ℕ, ◌+◌, ◌<◌, ◌≤◌, true, false, length, slice_index, IfOk, IsTrue};
ghost use Rattle.np_ucd.specs.Entries.{AreRows};
ghost use Rattle.np_versions.specs.inside.Pages.{AreWithin, property_place};
ghost use Rattle.np_versions.specs.inside.RowPages.{AreBegun, ArePushed, AreRowPages, GoesOn, HasNoRow, IsNextRow, IsRowNumber};

use np_code_points::Memory;
use np_ucd::RowList;
use std::alloc::Global;

/// How many code points a block has.
const BLOCK: usize = 256;

/// How many block numbers the code points take.
const BLOCKS: usize = 4352;

/// Capacity for the blocks of a published file, so that their list is not copied as it grows.
const CAPACITY: usize = 65536;

/// The row number of each code point: 1 plus the place of its row, 0 where it has none.
///
/// Block 0 serves all 256 code points that have no row, and one block all that lie in the midst
/// of a range; so the blocks of a published file take a quarter of a MiB.
#[derive(Drop)]
pub struct RowPages {
    /// For each 256 code points the number of their block.
    pub index: Vec<u16>,
    /// The row numbers, block by block.
    pub numbers: Vec<u32>,
}

/// The row number of a code point.
#[derive(Clone, Copy)]
struct Numbered {
    number: u32,
    /// Whether its row ends there.
    ends: bool,
}

/// The row number of a code point, by the place of the next row.
fn number_at(rows: &RowList, at: usize, code: u32) -> Numbered
    requires rows { AreRows rows.now }
    requires next { IsNextRow rows.now at code }
    ensures number { IsRowNumber rows.now code result.number }
    ensures bound { result.ends ≡ true → at < 0x110000 }
    ensures ends { result.ends ≡ true → IsNextRow rows.now (at + 1) (code + 1) }
    ensures goes_on { result.ends ≡ false → IsNextRow rows.now at (code + 1) }
{
    match rows.get(at) {
        Some(row) if row.first <= code => Numbered {
            number: at as u32 + 1,
            ends: row.last == code,
        },
        _ => Numbered {
            number: 0,
            ends: false,
        },
    }
}

/// Appends the row numbers of the 256 code points from `first` on, and answers the place of the next row.
fn push_block(
    rows: &RowList,
    from: usize,
    first: u32,
    numbers: &mut Vec<u32>,
) -> Result<usize, Memory>
    requires rows { AreRows rows.now }
    requires next { IsNextRow rows.now from first }
    requires code { first + 256 ≤ 0x110000 }
    ensures { IfOk result (ArePushed rows.now first 256 numbers.old.items numbers.new.items) }
{
    let mut at = from;
    for low in 0..BLOCK as u32 {
        let here = number_at(rows, at, first + low);
        // in two arms, so that a processor guesses the next row, and does not wait for this one
        if here.ends {
            numbers.push(here.number)?;
            at += 1;
        } else {
            numbers.push(here.number)?;
        }
    }
    Ok(at)
}

/// Whether no row has one of the 256 code points from `first` on.
fn has_no_row(rows: &RowList, at: usize, first: u32) -> bool
    requires rows { AreRows rows.now }
    requires next { IsNextRow rows.now at first }
    requires code { first + 256 ≤ 0x110000 }
    ensures { IsTrue result → HasNoRow rows.now at first }
{
    match rows.get(at) {
        Some(row) => first + 256 <= row.first,
        None => true,
    }
}

/// Whether one row has the 256 code points from `first` on, the 256 before them, and one behind.
fn goes_on(rows: &RowList, at: usize, first: u32) -> bool
    requires rows { AreRows rows.now }
    requires next { IsNextRow rows.now at first }
    requires code { first + 256 ≤ 0x110000 }
    ensures { IsTrue result → GoesOn rows.now at first }
{
    match rows.get(at) {
        Some(row) => row.first + 256 <= first && first + 256 <= row.last,
        None => false,
    }
}

/// So many zeros.
fn zeros(alloc: Global, count: usize) -> Result<Vec<u32>, Memory>
    ensures size { IfOk result (λ v. length v.items ≡ count) }
    ensures zero { IfOk result (λ v. (k : ℕ) → slice_index v.items k ≡ 0) }
{
    match vec![in alloc; 0; count] {
        Ok(numbers) => Ok(numbers),
        Err(_) => Err(Memory),
    }
}

impl RowPages {
    /// One block without rows, and as yet no block number.
    fn empty(alloc: Global) -> Result<RowPages, Memory>
        ensures begins { IfOk result (λ p. length p.index.items ≡ 0) }
        ensures size { IfOk result (λ p. length p.numbers.items ≡ 256) }
        ensures none { IfOk result (λ p. (k : ℕ) → slice_index p.numbers.items k ≡ 0) }
    {
        let mut numbers = zeros(alloc, BLOCK)?;
        numbers.reserve(CAPACITY)?;
        let index = Vec::with_capacity(alloc, BLOCKS)?;
        Ok(RowPages { index, numbers })
    }

    /// Adds the next 256 code points, and answers the place of the next row.
    fn push(&mut self, rows: &RowList, at: usize) -> Result<usize, Memory>
        requires rows { AreRows rows.now }
        requires begun { AreBegun rows.now self.old.index.items self.old.numbers.items at }
        requires more { length self.old.index.items < 4352 }
        ensures begun { IfOk result (AreBegun rows.now self.new.index.items self.new.numbers.items) }
        ensures size { IfOk result (λ _. length self.new.index.items ≡ length self.old.index.items + 1) }
    {
        let first = self.index.len() as u32 * 256;
        if has_no_row(rows, at, first) {
            self.index.push(0)?;
            return Ok(at);
        }
        if goes_on(rows, at, first) {
            let number = self.index[self.index.len() - 1];
            self.index.push(number)?;
            return Ok(at);
        }
        let number = (self.numbers.len() / BLOCK) as u16;
        let next = push_block(rows, at, first, &mut self.numbers)?;
        self.index.push(number)?;
        Ok(next)
    }

    /// The pages of these rows.
    pub(crate) fn new(alloc: Global, rows: &RowList) -> Result<RowPages, Memory>
        requires rows { AreRows rows.now }
        ensures { IfOk result (λ p. AreRowPages rows.now p.index.items p.numbers.items) }
    {
        let mut pages = RowPages::empty(alloc)?;
        let mut at = 0;
        while pages.index.len() < BLOCKS {
            at = pages.push(rows, at)?;
        }
        Ok(pages)
    }

    /// The row number of a code point.
    #[tactic(auto, using(std::proofs::lemmas::List::get_or_read), unfolding(crate::specs::inside::Pages::property_place))]
    pub(crate) fn number_of(&self, code: u32) -> u32
        requires code { code < 0x110000 }
        requires within { AreWithin 4352 self.now.index.items (length self.now.numbers.items) }
        ensures { result ≡ slice_index self.now.numbers.items (property_place self.now.index.items code) }
    {
        let block = usize::from(self.index[code as usize / BLOCK]);
        self.numbers[block * BLOCK + code as usize % BLOCK]
    }
}
