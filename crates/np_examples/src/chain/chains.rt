//! Versions in a row.
use np_chain::{Break, BreakKind, Chain, ChainFault};
use np_code_points::Form;
use np_examples_shared::told::want_told;
use np_examples_shared::{Files, GuestTable, Made, S, V1, V2, made_of, want};
use np_forms::{first_unassigned, npss};
use np_tables::RowTable;
use np_versions::NormTable;
use std::alloc::Global;
use std::test::Fail;

fn is_a_chain<T: NormTable>(tables: &[T]) -> Result<(), Fail> {
    let chain = Chain::check(tables)?;
    want(chain.len() == 2, "of two versions")?;
    let first = chain.at(0).version().count() == 17_660;
    let second = chain.at(1).version().count() == 17_666;
    want(first && second, "the first and the second")?;
    want(chain.last().version().count() == 17_666, "the last")
}

fn make_a_chain<T: Made>(alloc: Global) -> Result<(), Fail> {
    let tables = made_of::<T>(alloc, &[V1, V2])?;
    is_a_chain(tables.as_slice())
}

#[test]
fn a_chain_extends_at_each_step(rt: HostRuntime) -> Result<(), Fail> {
    make_a_chain::<RowTable>(rt.alloc())?;
    // tables of somebody else make one too
    make_a_chain::<GuestTable>(rt.alloc())
}

/// Fails unless the last table of the chain gives the text this form.
fn wants_form<T: NormTable>(
    alloc: Global,
    chain: &Chain<'_, T>,
    form: Form,
    text: &str,
) -> Result<(), Fail> {
    let made = npss(alloc, chain.last(), form, "a\u{302}\u{AC00}")?;
    want(made.as_str() == text, text)
}

/// Fails unless the chain lends its two tables.
fn lends<T: NormTable>(alloc: Global, chain: &Chain<'_, T>) -> Result<(), Fail> {
    let length = !chain.is_empty() && chain.clone()?.tables().len() == 2;
    want(length, "its tables")?;
    wants_form(alloc, chain, Form::Nfc, "\u{E2}\u{AC00}")?;
    wants_form(alloc, chain, Form::Nfd, "a\u{302}\u{1100}\u{1161}")?;
    want(
        first_unassigned(chain.at(0), "a\u{1DFA}") == Some(1),
        "not in the first",
    )
}

/// Fails unless borrowed tables make a chain, which lends them.
fn wants_borrowed<T: NormTable>(alloc: Global, tables: &[T]) -> Result<(), Fail> {
    let chain = Chain::check(tables)?;
    lends(alloc, &chain)
}

fn borrow<T: NormTable>(alloc: Global, tables: &[T]) -> Result<(), Fail> {
    match tables {
        [first, second] => wants_borrowed(alloc, &[first, second]),
        _ => Err(Fail::new("two tables")),
    }
}

fn make_and_borrow<T: Made>(alloc: Global) -> Result<(), Fail> {
    let tables = made_of::<T>(alloc, &[V1, V2])?;
    borrow(alloc, tables.as_slice())
}

#[test]
fn a_chain_takes_borrowed_tables(rt: HostRuntime) -> Result<(), Fail> {
    make_and_borrow::<RowTable>(rt.alloc())
}

#[test]
fn a_chain_has_a_version(_rt: HostRuntime) -> Result<(), Fail> {
    let fault = Chain::<RowTable>::check(&[]).err();
    want(fault == Some(ChainFault::NoVersion), "no version")
}

fn is_broken<T: NormTable>(tables: &[T], at: usize, code: u32) -> Result<(), Fail> {
    let kind = BreakKind::Lost;
    let brk = Break { kind, code };
    let fault = Chain::check(tables).err();
    want(fault == Some(ChainFault::Broken { at, brk }), "broken")
}

/// Fails unless the versions break at that place, where that code point is lost.
fn wants_broken<T: Made>(
    alloc: Global,
    versions: &[Files<'_>],
    at: usize,
    code: u32,
) -> Result<(), Fail> {
    let tables = made_of::<T>(alloc, versions)?;
    is_broken(tables.as_slice(), at, code)
}

// (versions, the first that breaks, what it loses): among them two that break, and one that extends the first and
// not the one before.
const BROKEN: &[(&[Files], usize, u32)] = &[
    (&[V2, V1], 1, 0x1DFA),
    (&[V2, V1, S], 1, 0x1DFA),
    (&[V1, V2, V1, S], 2, 0x1DFA),
    (&[V1, V1, S], 2, 0x61),
];

#[test]
fn the_first_version_that_breaks_is_told(rt: HostRuntime) -> Result<(), Fail> {
    for row in BROKEN {
        wants_broken::<RowTable>(rt.alloc(), row.0, row.1, row.2)?;
    }
    Ok(())
}

/// Each fault, and how it is told.
const TOLD: &[(ChainFault, &str)] = &[
    (
        ChainFault::Broken {
            at: 1,
            brk: Break {
                kind: BreakKind::Lost,
                code: 0x1DFA,
            },
        },
        "version 1 does not extend the one before: Lost 1DFA",
    ),
    (ChainFault::NoVersion, "no version"),
];

#[test]
fn a_fault_is_told_in_words(rt: HostRuntime) -> Result<(), Fail> {
    want_told(rt.alloc(), TOLD)
}
