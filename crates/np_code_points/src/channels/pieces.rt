//! What one read gives.
ghost use Rattle.std.specs.Prelude.{◌≡◌, ◌↔◌, ◌<◌, ◌≤◌, [], false, true, length, take, vec_len, IfOk, IsErr, OnErr};
ghost use Rattle.std.specs.Io.KnownBytes.{Consumes, IsAtEnd};
ghost use Rattle.np_code_points.specs.Watched.{device_of, has_failed};

use super::watched::Watched;
use crate::Memory;
use std::alloc::Global;
use std::io::{Error, Read};

/// The most bytes that are asked for at once.
pub const PIECE: usize = 65_536;

/// Room for what one read gives.
///
/// # Errors
///
/// `Memory` where memory ran out.
pub fn new_piece(alloc: Global) -> Result<Vec<u8>, Memory>
    ensures { IfOk result (λ piece. vec_len piece ≡ PIECE) }
{
    Ok(vec![in alloc; 0u8; PIECE]?)
}

/// Reads once, at most `most` bytes, to the front of a piece, and answers how many bytes came: none at the end of the
/// input alone.
///
/// # Errors
///
/// The source's error, where the read failed, as an interrupted one does too.
pub fn read_piece<R: Read>(
    source: &mut Watched<R>,
    piece: &mut [u8],
    most: usize,
) -> Result<usize, Error>
    requires clear { has_failed source.old ≡ false }
    requires space { length piece.old ≡ PIECE }
    requires some { 0 < most }
    ensures ok { IfOk result (λ n. Consumes (R.remaining (device_of source.old)) (R.remaining (device_of source.new)) (take n piece.new)) }
    ensures bound { IfOk result (λ n. (n ≤ length piece.new) × (n ≤ most)) }
    ensures same { length piece.new ≡ length piece.old }
    ensures end { IfOk result (λ n. n ≡ 0 → IsAtEnd (R.remaining (device_of source.new))) }
    ensures err { OnErr result (Consumes (R.remaining (device_of source.old)) (R.remaining (device_of source.new)) []) }
    ensures failed { IsErr result ↔ (has_failed source.new ≡ true) }
{
    let want = PIECE.min(most);
    source.read(&mut piece[..want])
}
