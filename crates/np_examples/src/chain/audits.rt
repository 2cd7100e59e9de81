//! The breaks of one version against another.
use np_chain::{Break, BreakKind, audit, extends};
use np_code_points::Memory;
use np_examples_shared::fixtures::{V1_DATA, V1_EXCLUSIONS};
use np_examples_shared::told::want_told;
use np_examples_shared::{Files, V1, V2, version_of, want};
use np_versions::Version;
use std::alloc::Global;
use std::test::Fail;

/// What is looked at between two versions.
#[derive(Clone, Copy)]
enum Wanted<'t> {
    /// That these are the breaks.
    Breaks(&'t [Break]),
    /// How many breaks there are.
    Count(usize),
    /// That these are the breaks of an audit that is made again where memory was refused to it.
    AfterAll(&'t [Break]),
}

fn has_breaks(alloc: Global, old: &Version, new: &Version, breaks: &[Break]) -> Result<(), Fail> {
    want(audit(alloc, old, new)?.as_slice() == breaks, "the breaks")?;
    let first = breaks.first().copied();
    want(extends(old, new).err() == first, "the first of the breaks")
}

fn has_so_many(alloc: Global, old: &Version, new: &Version, count: usize) -> Result<(), Fail> {
    want(
        audit(alloc, old, new)?.len() == count,
        "as many as there are",
    )
}

fn audit_again(alloc: Global, old: &Version, new: &Version) -> Result<Vec<Break>, Memory> {
    match audit(alloc, old, new) {
        Err(Memory) => audit(alloc, old, new),
        made => made,
    }
}

fn has_after_all(
    alloc: Global,
    old: &Version,
    new: &Version,
    breaks: &[Break],
) -> Result<(), Fail> {
    want(
        audit_again(alloc, old, new)?.as_slice() == breaks,
        "the breaks after all",
    )
}

/// Fails unless this holds of the version and that of the two files, which comes after it.
fn wants_after(
    alloc: Global,
    old: &Version,
    files: Files<'_>,
    wanted: Wanted<'_>,
) -> Result<(), Fail> {
    let new = version_of(alloc, files)?;
    match wanted {
        Wanted::Breaks(breaks) => has_breaks(alloc, old, &new, breaks),
        Wanted::Count(count) => has_so_many(alloc, old, &new, count),
        Wanted::AfterAll(breaks) => has_after_all(alloc, old, &new, breaks),
    }
}

/// Fails unless this holds of the versions of two files each.
fn wants_between(
    alloc: Global,
    old: Files<'_>,
    new: Files<'_>,
    wanted: Wanted<'_>,
) -> Result<(), Fail> {
    let old = version_of(alloc, old)?;
    wants_after(alloc, &old, new, wanted)
}

const LOST: &[Break] = &[
    Break {
        kind: BreakKind::Lost,
        code: 0x1DFA,
    },
    Break {
        kind: BreakKind::Lost,
        code: 0x16D63,
    },
    Break {
        kind: BreakKind::Lost,
        code: 0x16D67,
    },
    Break {
        kind: BreakKind::Lost,
        code: 0x16D68,
    },
    Break {
        kind: BreakKind::Lost,
        code: 0x16D69,
    },
    Break {
        kind: BreakKind::Lost,
        code: 0x16D6A,
    },
];

// The last code point, by itself and with a class.
const LAST: Files = ("10FFFF;X;Co;0;L;;;;;N;;;;;\n", "");

const CLASSED: Files = ("10FFFF;X;Co;7;L;;;;;N;;;;;\n", "");

const NONE: Files = ("", "");

/// The first fixture with no exclusions.
const INCLUDED: Files = (V1_DATA, "");

// (files, files of a version after them, the breaks)
const BETWEEN: &[(Files, Files, &[Break])] = &[
    (V1, V2, &[]),
    (V2, V1, LOST),
    (
        INCLUDED,
        V1,
        &[Break {
            kind: BreakKind::NowExcluded,
            code: 0x958,
        }],
    ),
    (
        V1,
        INCLUDED,
        &[Break {
            kind: BreakKind::NowIncluded,
            code: 0x958,
        }],
    ),
    (
        LAST,
        NONE,
        &[Break {
            kind: BreakKind::Lost,
            code: 0x10FFFF,
        }],
    ),
    (NONE, LAST, &[]),
    (
        LAST,
        CLASSED,
        &[Break {
            kind: BreakKind::ClassChanged,
            code: 0x10FFFF,
        }],
    ),
];

fn have_breaks(alloc: Global, rows: &[(Files<'_>, Files<'_>, &[Break])]) -> Result<(), Fail> {
    for row in rows {
        wants_between(alloc, row.0, row.1, Wanted::Breaks(row.2))?;
    }
    Ok(())
}

const MANY: &str = "\
20000;<R, First>;Lo;0;L;;;;;N;;;;;
9FFFF;<R, Last>;Lo;0;L;;;;;N;;;;;
";

#[test]
fn the_breaks_between_versions_are_told(rt: HostRuntime) -> Result<(), Fail> {
    have_breaks(rt.alloc(), BETWEEN)?;
    // many have memory
    wants_between(rt.alloc(), (MANY, ""), NONE, Wanted::Count(524_288))
}

#[test]
fn a_refused_audit_succeeds_after_all(rt: HostRuntime) -> Result<(), Fail> {
    wants_between(rt.alloc(), V2, V1, Wanted::AfterAll(LOST))
}

// (text of the first fixture, what stands in its place, the exclusions, the break or none)
const ALTERED: &[(&str, &str, &str, &[Break])] = &[
    (
        "0323;X;Mn;220;",
        "0323;X;Mn;222;",
        V1_EXCLUSIONS,
        &[Break {
            kind: BreakKind::ClassChanged,
            code: 0x323,
        }],
    ),
    (
        "0302;X;Mn;230;",
        "0302;X;Mn;220;",
        V1_EXCLUSIONS,
        &[Break {
            kind: BreakKind::ClassChanged,
            code: 0x302,
        }],
    ),
    (
        "<compat> 0066 0069",
        "<compat> 0066",
        V1_EXCLUSIONS,
        &[Break {
            kind: BreakKind::MappingChanged,
            code: 0xFB01,
        }],
    ),
    // another kind and the same mapping, and the other way round
    (
        "L;0061 0302;",
        "L;<compat> 0061 0302;",
        V1_EXCLUSIONS,
        &[Break {
            kind: BreakKind::MappingChanged,
            code: 0xE2,
        }],
    ),
    (
        "L;<compat> 0066 0069;",
        "L;0066 0069;",
        V1_EXCLUSIONS,
        &[Break {
            kind: BreakKind::MappingChanged,
            code: 0xFB01,
        }],
    ),
    // another mapping that is as long
    (
        "L;0061 0302;",
        "L;0061 0301;",
        V1_EXCLUSIONS,
        &[Break {
            kind: BreakKind::MappingChanged,
            code: 0xE2,
        }],
    ),
    // a new composite of two old parts
    (
        "00C5;",
        "00C1;X;Lu;0;L;0041 0301;;;;N;;;;;\n00C5;",
        V1_EXCLUSIONS,
        &[Break {
            kind: BreakKind::NewComposite,
            code: 0xC1,
        }],
    ),
    // of an old part and a new one, and of a new one and an old one
    (
        "0308;X",
        "0303;X;Mn;230;L;;;;;N;;;;;\n0304;X;Lo;0;L;0061 0303;;;;N;;;;;\n0308;X",
        V1_EXCLUSIONS,
        &[],
    ),
    (
        "0308;X",
        "0303;X;Lo;0;L;;;;;N;;;;;\n0304;X;Lo;0;L;0303 0301;;;;N;;;;;\n0308;X",
        V1_EXCLUSIONS,
        &[],
    ),
    // a new composite that is excluded from the first breaks nothing
    (
        "00C5;",
        "00C1;X;Lu;0;L;0041 0301;;;;N;;;;;\n00C5;",
        "00C1\n0958\n",
        &[],
    ),
];

/// The text of the first fixture's data with `new` in place of the first `old`.
fn altered(alloc: Global, old: &str, new: &str) -> Result<String, Fail> {
    let (before, after) = V1_DATA.split_once(old).ok_or("no such text")?;
    Ok(format!(in alloc; "{before}{new}{after}")?)
}

/// Fails unless the first fixture, altered so, has these breaks.
fn wants_altered(
    alloc: Global,
    first: &Version,
    row: &(&str, &str, &str, &[Break]),
) -> Result<(), Fail> {
    let data = altered(alloc, row.0, row.1)?;
    wants_after(alloc, first, (&data, row.2), Wanted::Breaks(row.3))
}

fn each_altered(
    alloc: Global,
    first: &Version,
    rows: &[(&str, &str, &str, &[Break])],
) -> Result<(), Fail> {
    for row in rows {
        wants_altered(alloc, first, row)?;
    }
    Ok(())
}

#[test]
fn each_altered_line_is_one_break(rt: HostRuntime) -> Result<(), Fail> {
    let first = version_of(rt.alloc(), V1)?;
    each_altered(rt.alloc(), &first, ALTERED)
}

#[test]
fn a_break_is_told_in_words(rt: HostRuntime) -> Result<(), Fail> {
    let composed = Break {
        kind: BreakKind::NewComposite,
        code: 0xC1,
    };
    want_told(rt.alloc(), &[(composed, "NewComposite 00C1")])?;
    want(BreakKind::NowIncluded.name() == "NowIncluded", "a kind")
}
