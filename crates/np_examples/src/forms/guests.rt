//! Forms over a table of somebody else's, which has no hint.
use super::examples::{FIRST, Long, SECOND, SPANNING, Shown};
use np_examples_shared::{GuestTable, LETTERS, S, V1, V2, holds_over};
use std::test::Fail;

#[test]
fn forms_are_the_same_over_a_table_of_somebody_else(rt: HostRuntime) -> Result<(), Fail> {
    let alloc = rt.alloc();
    holds_over::<GuestTable, Shown>(alloc, V1, FIRST)?;
    holds_over::<GuestTable, Shown>(alloc, V2, SECOND)?;
    holds_over::<GuestTable, Shown>(alloc, S, SPANNING)?;
    holds_over::<GuestTable, Long>(alloc, LETTERS, &Long::Amid)
}
