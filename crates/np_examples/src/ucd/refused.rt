//! Reads that were refused for want of memory, and succeed over the same bytes after all.
use super::{exclusions_of, has_two_rows, lists, rows_of};
use np_ucd::{Exclusions, Rows, UcdFault};
use std::alloc::Global;
use std::test::Fail;

// Lines that end by LF, by CRLF, or by the end of the file, and some without a row.
const ROWS: &[u8] = b"0041;X;Lu;0;L;;;;;N;;;;;\r\n\n# a comment\n \t\n0061;X;Ll;0;L;;;;;N;;;;;";

// Single code points and ranges.
const LISTED: &[u8] = b"# 0340\n\n  0958\t# QA\r\nfb1d..FB1F\n0958\n10FFFF\nFB1E";

const HELD: &[u32] = &[0x958, 0xFB1D, 0xFB1E, 0xFB1F, 0x10FFFF];

const OTHERS: &[u32] = &[0, 0x340, 0x957, 0x959, 0xFB1C, 0xFB20, 0x10FFFE];

fn rows_again(alloc: Global) -> Result<Rows, UcdFault> {
    match rows_of(alloc, ROWS, 4096) {
        Err(UcdFault::Memory) => rows_of(alloc, ROWS, 4096),
        answer => answer,
    }
}

#[test]
fn a_refused_read_rows_succeeds_after_all(rt: HostRuntime) -> Result<(), Fail> {
    let rows = rows_again(rt.alloc())?;
    has_two_rows(&rows)
}

fn exclusions_again(alloc: Global) -> Result<Exclusions, UcdFault> {
    match exclusions_of(alloc, LISTED, 3) {
        Err(UcdFault::Memory) => exclusions_of(alloc, LISTED, 3),
        answer => answer,
    }
}

#[test]
fn a_refused_read_exclusions_succeeds_after_all(rt: HostRuntime) -> Result<(), Fail> {
    let exclusions = exclusions_again(rt.alloc())?;
    lists(&exclusions, HELD, OTHERS)
}
