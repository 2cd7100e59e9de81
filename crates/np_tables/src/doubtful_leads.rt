//! The bytes that begin a character of several bytes (The Unicode Standard, table 3-6), told apart by whether each
//! character that one begins passes the quick check whatever stands before it. Where each does, none needs a look-up;
//! else the byte is doubtful.
//!
//! A byte has two halves of four bits, and a vector is looked up by each in 16 bytes. Which bytes are doubtful is told
//! by both: `HIGH_BITS` has a bit for each upper half that begins a character of several bytes, and a form has, for each
//! lower half, the bits of the upper halves with which it is doubtful. Those of four bytes always are.
//!
//! | Bytes | C0 to CF | D0 to DF | E0 to EF | F0 to FF |
//! |---|---|---|---|---|
//! | Bit | 1 | 2 | 4 | 8 |
ghost use Rattle.std.specs.Prelude.{◌≡◌, ◌+◌, ◌*◌, ◌/◌, ◌%◌, ◌<◌, ◌≤◌, ◌==◌, ℕ, not, bit_and, if◌then◌else◌, length, slice_index};
ghost use Rattle.std.specs.Int.{bit_at};
ghost use Rattle.np_code_points.specs.declared.forms.Form.{Form};
ghost use Rattle.np_tables.specs.inside.DoubtfulLeads.{AreSafe, HaveInCommon, HaveYesInCommon, is_doubtful, row_of};
ghost use Rattle.np_tables.specs.inside.QuickChecks.{quick_check_in};
ghost use Rattle.np_versions.specs.inside.Pages.{AreWithin};

use crate::quick_checks::{ALL_YES, YES, quick_check_place};
use np_code_points::Form;
use std::simd::prelude::*;

/// How many bytes have the same upper half, or the same lower one.
const HALF: usize = 16;

/// How many code points have an encoding of two bytes that begins with the same byte. Of three bytes it is as many
/// times as many.
const PART: usize = 64;

/// For each upper half of a byte its bit.
const HIGH_BITS: [u8; 16] = [0, 0, 0, 0, 0, 0, 0, 0, 0, 0, 0, 0, 1, 2, 4, 8];

/// For each form and each lower half of a byte, with which upper halves it is doubtful.
#[derive(Clone, Copy)]
pub(crate) struct DoubtfulLeads {
    nfd: [u8; 16],
    nfc: [u8; 16],
    nfkd: [u8; 16],
    nfkc: [u8; 16],
}

/// What the quick checks have in common of the code points that a byte begins, of the three such bytes with the same
/// lower half.
#[derive(Clone, Copy)]
struct Commons {
    /// Of the byte from C0 to CF.
    c0: u32,
    /// Of the byte from D0 to DF.
    d0: u32,
    /// Of the byte from E0 to EF.
    e0: u32,
}

/// The bits that quick checks have in common.
fn common_of(quick_checks: &[u32]) -> u32
    ensures { HaveInCommon quick_checks.now result }
{
    let mut common = ALL_YES;
    for checks in quick_checks {
        common &= *checks;
    }
    common
}

/// The bits that the quick checks have in common of the code points of one part, counted from 0.
fn common_of_part(blocks: &[u16], quick_checks: &[u32], part: usize) -> u32
    requires within { AreWithin 4352 blocks.now (length quick_checks.now) }
    requires part { part < 17408 }
    ensures { HaveYesInCommon blocks.now quick_checks.now (part * 64) (part * 64 + 64) result }
{
    let at = usize::from(blocks[part / 4]) * 256 + part % 4 * PART;
    common_of(&quick_checks[at..at + PART])
}

/// The same of several parts.
fn common_of_parts(blocks: &[u16], quick_checks: &[u32], from: usize, to: usize) -> u32
    requires within { AreWithin 4352 blocks.now (length quick_checks.now) }
    requires parts { to ≤ 17408 }
    requires some { from ≤ to }
    ensures { HaveYesInCommon blocks.now quick_checks.now (from * 64) (to * 64) result }
{
    let mut common = ALL_YES;
    for part in from..to {
        common &= common_of_part(blocks, quick_checks, part);
    }
    common
}

/// The same of the bytes with a lower half.
fn commons_of(blocks: &[u16], quick_checks: &[u32], low: usize) -> Commons
    requires within { AreWithin 4352 blocks.now (length quick_checks.now) }
    requires low { low < 16 }
    ensures c0 { HaveYesInCommon blocks.now quick_checks.now (low * 64) (low * 64 + 64) result.c0 }
    ensures d0 { HaveYesInCommon blocks.now quick_checks.now (low * 64 + 1024) (low * 64 + 1088) result.d0 }
    ensures e0 { HaveYesInCommon blocks.now quick_checks.now (low * 4096) (low * 4096 + 4096) result.e0 }
{
    Commons {
        c0: common_of_part(blocks, quick_checks, low),
        d0: common_of_part(blocks, quick_checks, HALF + low),
        e0: common_of_parts(blocks, quick_checks, low * PART, (low + 1) * PART),
    }
}

/// Whether it is open that each passes.
fn is_open(common: u32, form: Form) -> bool
    ensures { result ≡ not (quick_check_in form common == 255) }
{
    (common >> quick_check_place(form)) % 256 != u32::from(YES)
}

/// With which upper halves of a byte a lower half is doubtful under a form.
fn doubtful_bits(commons: Commons, form: Form) -> u8
    ensures c0 { bit_and result 1 ≡ 0 → quick_check_in form commons.c0 ≡ 255 }
    ensures d0 { bit_and result 2 ≡ 0 → quick_check_in form commons.d0 ≡ 255 }
    ensures e0 { bit_and result 4 ≡ 0 → quick_check_in form commons.e0 ≡ 255 }
    ensures f0 { bit_and result 8 ≡ 8 }
{
    u8::from(is_open(commons.c0, form))
        + 2 * u8::from(is_open(commons.d0, form))
        + 4 * u8::from(is_open(commons.e0, form))
        + 8
}

/// Which bytes are doubtful under each form. It stands by itself so that loops that make a table keep their registers.
#[inline(never)]
pub(crate) fn doubtful_leads(blocks: &[u16], quick_checks: &[u32]) -> DoubtfulLeads
    requires { AreWithin 4352 blocks.now (length quick_checks.now) }
    ensures { (form : Form) → AreSafe form blocks.now quick_checks.now (row_of form result) }
{
    let mut nfd = [0; 16];
    let mut nfc = [0; 16];
    let mut nfkd = [0; 16];
    let mut nfkc = [0; 16];
    for low in 0..HALF {
        let commons = commons_of(blocks, quick_checks, low);
        nfd[low] = doubtful_bits(commons, Form::Nfd);
        nfc[low] = doubtful_bits(commons, Form::Nfc);
        nfkd[low] = doubtful_bits(commons, Form::Nfkd);
        nfkc[low] = doubtful_bits(commons, Form::Nfkc);
    }
    DoubtfulLeads {
        nfd,
        nfc,
        nfkd,
        nfkc,
    }
}

impl DoubtfulLeads {
    /// The row of a form.
    #[inline(always)]
    pub(crate) fn row(&self, form: Form) -> &[u8; 16]
        ensures { result.now ≡ row_of form self.now }
    {
        match form {
            Form::Nfd => &self.nfd,
            Form::Nfc => &self.nfc,
            Form::Nfkd => &self.nfkd,
            Form::Nfkc => &self.nfkc,
        }
    }
}

/// Sixteen bytes, four times.
#[inline(always)]
fn four_times(row: u8x16) -> u8x64
    ensures { (k : ℕ) → k < 64 → slice_index result k ≡ slice_index row (k % 16) }
{
    row.swizzle([
        0, 1, 2, 3, 4, 5, 6, 7, 8, 9, 10, 11, 12, 13, 14, 15, 0, 1, 2, 3, 4, 5, 6, 7, 8, 9, 10, 11,
        12, 13, 14, 15, 0, 1, 2, 3, 4, 5, 6, 7, 8, 9, 10, 11, 12, 13, 14, 15, 0, 1, 2, 3, 4, 5, 6,
        7, 8, 9, 10, 11, 12, 13, 14, 15,
    ])
}

/// Looks up each lane in sixteen bytes.
#[inline(always)]
fn look_up(row: u8x16, places: u8x64) -> u8x64
    requires { (k : ℕ) → k < 64 → slice_index places k < 16 }
    ensures { (k : ℕ) → k < 64 → slice_index result k ≡ slice_index row (slice_index places k) }
{
    four_times(row).swizzle_dyn_within::<16>(places)
}

/// The lower half of each byte.
#[inline(always)]
fn lower_halves(bytes: u8x64) -> u8x64
    ensures { (k : ℕ) → k < 64 → slice_index result k ≡ slice_index bytes k % 16 }
{
    bytes & u8x64::splat(15)
}

/// The upper half of each byte.
#[inline(always)]
fn upper_halves(bytes: u8x64) -> u8x64
    ensures half { (k : ℕ) → k < 64 → slice_index result k ≡ slice_index bytes k / 16 }
    ensures bound { (k : ℕ) → k < 64 → slice_index result k < 16 }
{
    bytes >> u8x64::splat(4)
}

/// Which of the first 64 bytes are doubtful, a bit for each, the lowest for the first.
#[inline(always)]
pub(crate) fn doubtful_in_lanes(row: &[u8; 16], bytes: &[u8]) -> u64
    requires { 64 ≤ length bytes.now }
    ensures { (k : ℕ) → k < 64 → bit_at result k ≡ (if is_doubtful row.now (slice_index bytes.now k) then 1 else 0) }
{
    let here = u8x64::from_slice(bytes);
    let by_lower = look_up(u8x16::from_array(*row), lower_halves(here));
    let by_upper = look_up(u8x16::from_array(HIGH_BITS), upper_halves(here));
    (by_lower & by_upper).simd_ne(u8x64::splat(0)).to_bitmask()
}
