//! Worked examples.
mod alike;
mod hints;
mod long_texts;
mod refused;
mod tables;
mod versions;

use np_code_points::watched::Watched;
use np_examples_shared::want;
use np_ucd::{read_exclusions, read_rows};
use np_versions::{TableFault, Version};
use std::alloc::Global;
use std::test::Fail;

// Two code points, the last of all among them.
const LAST: &str = "0061;X;Ll;0;L;;;;;N;;;;;\n10FFFF;X;Co;7;L;<compat> 0061;;;;N;;;;;\n";

/// The version of two texts, which have the form of data files.
fn version(alloc: Global, data: &str, exclusions: &str) -> Result<Version, TableFault> {
    let mut data = Watched::new(data.as_bytes());
    let mut exclusions = Watched::new(exclusions.as_bytes());
    match (
        read_rows(alloc, &mut data),
        read_exclusions(alloc, &mut exclusions),
    ) {
        (Ok(rows), Ok(exclusions)) => Version::build(alloc, rows, exclusions),
        _ => Err(TableFault::Memory),
    }
}

/// Fails unless the version assigns so many code points.
fn has_count(version: &Version, count: u32) -> Result<(), Fail> {
    want(version.count() == count, "the count")
}
