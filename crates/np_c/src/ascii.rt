//! Whether a name is ASCII.
ghost use Rattle.std.specs.Prelude.{◌+◌, ◌<◌, ◌≤◌, ◌↔◌, ℕ, get_or, length, IsAscii, IsTrue};

use np_versions::ascii_front;
use std::simd::prelude::*;

/// How many bytes are looked at at once, each in a lane of its own. Many names have fewer than twice as many.
const LANES: usize = 8;

/// Whether the `LANES` bytes from a place on are ASCII.
#[inline(always)]
fn are_lanes_ascii(bytes: &[u8], from: usize) -> bool
    requires { from + 8 ≤ length bytes.now }
    ensures { IsTrue result ↔ ((k : ℕ) → from ≤ k → k < from + 8 → get_or bytes.now k 0 < 128) }
{
    let others = u8x8::from_slice(&bytes[from..])
        .simd_ge(u8x8::splat(0x80))
        .to_bitmask();
    others == 0
}

/// Whether bytes are ASCII. Of 8 to 16 the first 8 and the last 8 are looked at, some of them twice.
#[inline(always)]
pub fn are_ascii(bytes: &[u8]) -> bool
    ensures { IsTrue result ↔ IsAscii bytes.now }
{
    let length = bytes.len();
    if LANES <= length && length <= 2 * LANES {
        return are_lanes_ascii(bytes, 0) && are_lanes_ascii(bytes, length - LANES);
    }
    ascii_front(bytes) == length
}
