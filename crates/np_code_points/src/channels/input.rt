//! Whole inputs, up to a limit.
ghost use Rattle.std.specs.Prelude.{◌≡◌, ◌+◌, ◌<◌, ◌≤◌, ◌++◌, ◌↔◌, ◌≢◌, List, ℕ, false, true, length, Ok, IfOk, OnErr, IfSome, vec_len};
ghost use Rattle.std.specs.Io.KnownBytes.{Consumes, Keeps, IsAtEnd};
ghost use Rattle.np_code_points.specs.Watched.{device_of, has_failed};

use super::pieces::{PIECE, new_piece, read_piece};
use super::watched::Watched;
use std::alloc::Global;
use std::io::Read;
use thiserror::Error;

/// The most bytes that an input may have.
pub const LIMIT: usize = 16_777_216;

/// Why an input was not read whole.
#[derive(Clone, Copy, Debug, PartialEq, Eq, Error)]
pub enum InputFault {
    /// One byte more than `LIMIT` was read.
    #[error("more than 16,777,216 bytes")]
    TooLarge,
    /// A read answered an error, an interrupted one too.
    #[error("read failed")]
    ReadFailed,
    /// Memory ran out.
    #[error("out of memory")]
    Memory,
}

/// Reads once to the end of `bytes`, at most up to the first byte past `LIMIT`, and answers how many bytes came.
fn read_more<R: Read>(
    source: &mut Watched<R>,
    piece: &mut [u8],
    bytes: &mut Vec<u8>,
) -> Result<usize, InputFault>
    requires room { vec_len bytes.old ≤ LIMIT }
    requires clear { has_failed source.old ≡ false }
    requires space { length piece.old ≡ PIECE }
    ensures fits { vec_len bytes.new ≤ LIMIT + 1 }
    ensures grows { IfOk result (λ n. vec_len bytes.new ≡ vec_len bytes.old + n) }
    ensures ok { IfOk result (λ n. (came : List ℕ) × (length came ≡ n) × (bytes.new.items ≡ bytes.old.items ++ came)
        × Consumes (R.remaining (device_of source.old)) (R.remaining (device_of source.new)) came) }
    ensures end { IfOk result (λ n. n ≡ 0 → IsAtEnd (R.remaining (device_of source.new))) }
    ensures taken { OnErr result ((came : List ℕ) × (length bytes.old.items + length came ≤ LIMIT + 1)
        × Consumes (R.remaining (device_of source.old)) (R.remaining (device_of source.new)) came) }
    ensures failed { result ≡ Err InputFault.ReadFailed ↔ (has_failed source.new ≡ true) }
    ensures large { result ≢ Err InputFault.TooLarge }
{
    let Ok(n) = read_piece(source, piece, LIMIT + 1 - bytes.len()) else {
        return Err(InputFault::ReadFailed);
    };
    if bytes.extend_from_slice(&piece[..n]).is_err() {
        return Err(InputFault::Memory);
    }
    Ok(n)
}

/// Clears the mark and reads an input to its end, or to its first byte past `LIMIT`. Nothing is
/// tried twice, and nothing is read after the first failure.
///
/// `TooLarge` where `LIMIT + 1` bytes were read, `ReadFailed` where a read failed.
pub fn read_whole<R: Read>(alloc: Global, source: &mut Watched<R>) -> Result<Vec<u8>, InputFault>
    ensures bytes { IfOk result (λ v. Consumes (R.remaining (device_of source.old)) (R.remaining (device_of source.new)) v.items) }
    ensures whole { IfOk result (λ v. IfSome (R.remaining (device_of source.old)) (λ xs. v.items ≡ xs)) }
    ensures size { IfOk result (λ v. vec_len v ≤ LIMIT) }
    ensures failed { result ≡ Err InputFault.ReadFailed ↔ (has_failed source.new ≡ true) }
    ensures large { result ≡ Err InputFault.TooLarge → IfSome (R.remaining (device_of source.old)) (λ xs. LIMIT < length xs) }
    ensures past { result ≡ Err InputFault.TooLarge → ((xs : List ℕ) × (length xs ≡ LIMIT + 1)
        × Consumes (R.remaining (device_of source.old)) (R.remaining (device_of source.new)) xs) }
    ensures taken { OnErr result ((xs : List ℕ) × (length xs ≤ LIMIT + 1)
        × Consumes (R.remaining (device_of source.old)) (R.remaining (device_of source.new)) xs) }
{
    source.clear();
    let Ok(mut piece) = new_piece(alloc) else {
        return Err(InputFault::Memory);
    };
    let mut bytes = Vec::new(alloc);
    loop {
        if bytes.len() > LIMIT {
            return Err(InputFault::TooLarge);
        }
        if read_more(source, &mut piece, &mut bytes)? == 0 {
            return Ok(bytes);
        }
    }
}
