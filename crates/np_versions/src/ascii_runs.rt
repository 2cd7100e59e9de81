//! ASCII at the front of bytes.
ghost use Rattle.std.specs.Prelude.{◌≡◌, ◌+◌, ◌<◌, ◌≤◌, ℕ, length, slice_index, take, IsAscii};
ghost use Rattle.std.specs.List.{prefix_len};
ghost use lib.Lanes.{chunk};
ghost use Rattle.np_versions.specs.inside.AsciiBytes.{is_ascii_byte};

use std::simd::prelude::*;

/// How many bytes are looked at at once, each in a lane of its own.
const LANES: usize = 16;

/// How many of the `LANES` bytes from a place on stand before the first that is not ASCII: all where there is none.
#[inline(always)]
fn ascii_in_lanes(bytes: &[u8], from: usize) -> usize
    requires { from + 16 ≤ length bytes.now }
    ensures { result ≡ prefix_len is_ascii_byte (chunk from 16 bytes.now) }
{
    let others = u8x16::from_slice(&bytes[from..])
        .simd_ge(u8x16::splat(0x80))
        .to_bitmask();
    if others == 0 {
        LANES
    } else {
        others.trailing_zeros() as usize
    }
}

/// How many bytes at the front are ASCII, of which so many are known to be: all, or those before the first that isn't. They are
/// looked at one by one.
#[inline(always)]
fn ascii_beyond(bytes: &[u8], known: usize) -> usize
    requires fits { known ≤ length bytes.now }
    requires ascii { (k : ℕ) → k < known → slice_index bytes.now k < 128 }
    ensures fits { result ≤ length bytes.now }
    ensures ascii { IsAscii (take result bytes.now) }
    ensures whole { result < length bytes.now → 128 ≤ slice_index bytes.now result }
{
    let mut at = known;
    while at < bytes.len() && bytes[at] < 0x80 {
        at += 1;
    }
    at
}

/// How many bytes at the front are ASCII: all, or those before the first that isn't.
#[inline(always)]
pub fn ascii_front(bytes: &[u8]) -> usize
    ensures fits { result ≤ length bytes.now }
    ensures ascii { IsAscii (take result bytes.now) }
    ensures whole { result < length bytes.now → 128 ≤ slice_index bytes.now result }
{
    let mut at = 0;
    while bytes.len() - at >= LANES {
        let passed = ascii_in_lanes(bytes, at);
        if passed < LANES {
            return at + passed;
        }
        at += LANES;
    }
    // a name has fewer bytes than that, and so has the end of a line
    ascii_beyond(bytes, at)
}
