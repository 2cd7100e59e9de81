//! Which worked examples are stream-safe.
use super::examples::repeated;
use np_code_points::Memory;
use np_examples_shared::{Example, Made, V1, holds_over_each, want};
use np_forms::is_stream_safe;
use np_versions::NormTable;
use std::alloc::Global;
use std::test::Fail;

// (what stands before, the code point, how many of it are stream-safe)
const SAFE: &[(&str, char, u32)] = &[
    ("a", '\u{302}', 30),
    ("a", '\u{344}', 15),
    ("", '\u{302}', 30),
    ("a\u{302}a", '\u{323}', 30),
];

/// Whether so many times a code point behind a text is stream-safe.
fn is_safe<T: NormTable>(
    alloc: Global,
    table: &T,
    row: &(&str, char, u32),
    count: u32,
) -> Result<bool, Memory> {
    let text = repeated(alloc, row.0, row.1, count)?;
    is_stream_safe(alloc, table, text.as_str())
}

/// Fails unless so many times the code point is stream-safe, and once more is not.
fn wants_safe<T: NormTable>(
    alloc: Global,
    table: &T,
    row: &(&str, char, u32),
    most: u32,
) -> Result<(), Fail> {
    want(is_safe(alloc, table, row, most)?, row.0)?;
    want(
        !is_safe(alloc, table, row, most.saturating_add(1))?,
        "one more",
    )
}

/// How many non-starters are stream-safe.
struct Limits;

impl Example for Limits {
    fn holds<T: Made>(&self, alloc: Global, table: &T) -> Result<(), Fail> {
        for row in SAFE {
            wants_safe(alloc, table, row, row.2)?;
        }
        Ok(())
    }
}

#[test]
fn thirty_non_starters_are_stream_safe(rt: HostRuntime) -> Result<(), Fail> {
    holds_over_each(rt.alloc(), V1, &Limits)
}
