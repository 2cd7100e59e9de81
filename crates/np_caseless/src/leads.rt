//! The bytes that begin characters of several bytes (The Unicode Standard, table 3-6), told of many at once.
ghost use Rattle.std.specs.Prelude.{◌≡◌, ◌≢◌, ◌+◌, ◌<◌, ◌≤◌, ℕ, length};
ghost use Rattle.std.specs.Int.{bit_at};
ghost use Rattle.np_caseless.specs.inside.SimpleTexts.{AreLeads};

use std::simd::prelude::*;

/// How many bytes are looked at at once, each in a lane of its own.
pub(crate) const LANES: usize = 64;

/// Which of the first bytes begin characters of several bytes, a bit for each, the lowest for the first.
#[inline(always)]
fn leads_in_lanes(bytes: &[u8]) -> u64
    requires { 64 ≤ length bytes.now }
    ensures { AreLeads bytes.now 0 0 64 result }
{
    u8x64::from_slice(bytes)
        .simd_ge(u8x64::splat(0xC0))
        .to_bitmask()
}

/// Which of the bytes from a place on do, of as many as there are lanes, or of all.
#[inline(always)]
pub(crate) fn leads_from(bytes: &[u8], from: usize) -> u64
    requires { from ≤ length bytes.now }
    ensures { AreLeads bytes.now from from (from + 64) result }
{
    let rest = &bytes[from..];
    if rest.len() >= LANES {
        return leads_in_lanes(rest);
    }
    let mut few = [0; LANES];
    few[..rest.len()].copy_from_slice(rest);
    leads_in_lanes(&few)
}

/// The place of the lowest bit that is set.
#[inline(always)]
pub(crate) fn lowest(bits: u64) -> usize
    requires { 0 < bits }
    ensures within { result < 64 }
    ensures set { bit_at bits result ≡ 1 }
    ensures first { (k : ℕ) → k < result → bit_at bits k ≡ 0 }
{
    (bits.trailing_zeros() & 63) as usize
}

/// The bits without the lowest that is set.
#[inline(always)]
pub(crate) fn without_lowest(bits: u64) -> u64
    requires { 0 < bits }
    ensures off { (t : ℕ) → bit_at bits t ≡ 1 → ((k : ℕ) → k < t → bit_at bits k ≡ 0) → bit_at result t ≡ 0 }
    ensures kept { (t : ℕ) → bit_at bits t ≡ 1 → ((k : ℕ) → k < t → bit_at bits k ≡ 0) → (k : ℕ) → k ≢ t → bit_at result k ≡ bit_at bits k }
{
    bits & (bits - 1)
}
