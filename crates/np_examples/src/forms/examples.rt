//! What each call answers on worked examples.
use super::canonical_rows::CANONICAL;
use super::{wants_equivalent, wants_form};
use np_code_points::{Form, Memory};
use np_examples_shared::told::want_told;
use np_examples_shared::{
    Example, LETTERS, Made, S, V1, V2, amid, holds_over, holds_over_each, want,
};
use np_forms::{
    NpssFault, equivalent, first_unassigned, into_npss, is_form, is_stream_safe, lend_npss, npss,
};
use np_tables::PageTable;
use np_versions::NormTable;
use std::alloc::Global;
use std::borrow::CowStr;
use std::test::Fail;

/// `before` and then `count` times `c`.
pub(super) fn repeated(alloc: Global, before: &str, c: char, count: u32) -> Result<String, Memory> {
    let mut text = String::new(alloc);
    text.push_str(before)?;
    for _ in 0..count {
        text.push(c)?;
    }
    Ok(text)
}

/// A text, its NFD and its NFC.
type Canonical = (&'static str, &'static str, &'static str);

/// A form, a text, and the text's form.
type Formed = (Form, &'static str, &'static str);

/// A form, a text, and whether the text has it.
type Told = (Form, &'static str, bool);

/// Whether compatibility mappings count, two texts, and whether they are equivalent.
type Compared = (bool, &'static str, &'static str, bool);

/// A form, a text, and the place of what is not assigned in it, and that.
type Refused = (Form, &'static str, usize, char);

/// A text, and the place of its first code point that is not assigned.
type Lacking = (&'static str, Option<usize>);

/// What forms show over a version.
pub(super) struct Shown {
    canonical: &'static [Canonical],
    formed: &'static [Formed],
    told: &'static [Told],
    compared: &'static [Compared],
    refused: &'static [Refused],
    lacking: &'static [Lacking],
}

/// Over the first fixture.
pub(super) const FIRST: &Shown = &Shown {
    canonical: CANONICAL,
    formed: &[
        // a ligature is compatible with its letters
        (Form::Nfkd, "\u{FB01}", "fi"),
        (Form::Nfkc, "\u{FB01}", "fi"),
        // not assigned
        (Form::Nfd, "\u{16D6A}", "\u{16D6A}"),
    ],
    told: &[
        (Form::Nfc, "\u{1EAD}", true),
        (Form::Nfd, "\u{1EAD}", false),
        // as long as its form, and not its form
        (Form::Nfd, "\u{61}\u{302}\u{323}", false),
        (Form::Nfd, "\u{61}\u{323}\u{302}", true),
    ],
    compared: &[
        // a text and its prefix
        (false, "\u{61}\u{302}", "\u{61}", false),
        (true, "", "\u{66}", false),
        // neither is assigned: equivalence asks for no more than the forms
        (false, "\u{16D6A}", "\u{16D6A}", true),
        (true, "\u{FB01}", "fi", true),
        (false, "\u{FB01}", "fi", false),
    ],
    refused: &[
        (Form::Nfc, "\u{41}\u{16D67}", 1, '\u{16D67}'),
        // the place counts in the text, whose first code point is longer in its form
        (Form::Nfd, "\u{C5}b", 2, 'b'),
        (Form::Nfkc, "A\u{10FFFF}", 1, '\u{10FFFF}'),
        // behind what stays, what changes, what composes, syllables and the jamo of one
        (
            Form::Nfc,
            "AAAAAAAAAAAAAAAAAAAAAAAAAAAAAAAAA\u{16D67}",
            33,
            '\u{16D67}',
        ),
        (Form::Nfd, "A\u{327}\u{302}\u{16D67}", 5, '\u{16D67}'),
        (Form::Nfc, "\u{E2}\u{16D67}", 2, '\u{16D67}'),
        (Form::Nfd, "\u{E2}\u{16D67}", 2, '\u{16D67}'),
        (Form::Nfc, "a\u{302}\u{16D67}", 3, '\u{16D67}'),
        (Form::Nfkd, "\u{FB01}\u{16D67}", 3, '\u{16D67}'),
        (Form::Nfd, "\u{AC00}\u{AC01}\u{16D67}", 6, '\u{16D67}'),
        (Form::Nfc, "\u{1100}\u{1161}\u{16D67}", 6, '\u{16D67}'),
    ],
    // private use is assigned
    lacking: &[("\u{41}\u{16D67}", Some(1)), ("\u{E000}", None)],
};

/// Over the second fixture, where starters compose from the left.
pub(super) const SECOND: &Shown = &Shown {
    canonical: &[("\u{41}\u{16D67}", "\u{41}\u{16D67}", "\u{41}\u{16D67}")],
    formed: &[
        (
            Form::Nfc,
            "\u{16D67}\u{16D67}\u{16D67}",
            "\u{16D68}\u{16D67}",
        ),
        (Form::Nfc, "\u{16D63}\u{16D67}\u{16D67}", "\u{16D6A}"),
    ],
    told: &[],
    compared: &[],
    refused: &[],
    // a noncharacter
    lacking: &[("\u{FFFE}", Some(0))],
};

/// Over the fixture whose composite spans a non-starter: one that is passed is not visited again.
pub(super) const SPANNING: &Shown = &Shown {
    canonical: &[],
    formed: &[
        (Form::Nfc, "\u{41}\u{323}\u{30A}", "\u{C5}\u{323}"),
        (Form::Nfc, "\u{F000}", "\u{C5}\u{323}"),
        (Form::Nfc, "\u{C5}\u{323}", "\u{C5}\u{323}"),
        (Form::Nfd, "\u{AC00}", "\u{AC00}"),
    ],
    told: &[],
    compared: &[],
    refused: &[(Form::Nfd, "\u{AC00}", 0, '\u{AC00}')],
    lacking: &[],
};

/// The key of a text that is given up.
fn given_up<T: NormTable>(
    alloc: Global,
    table: &T,
    wanted: Form,
    text: &str,
) -> Result<String, NpssFault> {
    match repeated(alloc, text, 'A', 0) {
        Ok(given) => into_npss(alloc, table, wanted, given),
        Err(Memory) => Err(NpssFault::Memory),
    }
}

fn wants_keys<T: NormTable>(alloc: Global, table: &T, text: &str, key: &str) -> Result<(), Fail> {
    want(npss(alloc, table, Form::Nfc, text)?.as_str() == key, text)?;
    want(
        given_up(alloc, table, Form::Nfc, text)?.as_str() == key,
        key,
    )
}

fn wants_lent<T: NormTable>(alloc: Global, table: &T, text: &str, key: &str) -> Result<(), Fail> {
    let lent = lend_npss(alloc, table, Form::Nfc, text)?;
    want(lent.as_str() == key, text)
}

fn wants_canonical<T: NormTable>(alloc: Global, table: &T, row: &Canonical) -> Result<(), Fail> {
    wants_form(alloc, table, Form::Nfd, row.0, row.1)?;
    wants_keys(alloc, table, row.0, row.2)?;
    wants_lent(alloc, table, row.0, row.2)?;
    wants_equivalent(alloc, table, row.1, row.2)
}

fn are_canonical<T: NormTable>(alloc: Global, table: &T, rows: &[Canonical]) -> Result<(), Fail> {
    for row in rows {
        wants_canonical(alloc, table, row)?;
    }
    Ok(())
}

fn are_formed<T: NormTable>(alloc: Global, table: &T, rows: &[Formed]) -> Result<(), Fail> {
    for row in rows {
        wants_form(alloc, table, row.0, row.1, row.2)?;
    }
    Ok(())
}

fn are_told<T: NormTable>(alloc: Global, table: &T, rows: &[Told]) -> Result<(), Fail> {
    for row in rows {
        want(is_form(alloc, table, row.0, row.1)? == row.2, row.1)?;
    }
    Ok(())
}

fn are_compared<T: NormTable>(alloc: Global, table: &T, rows: &[Compared]) -> Result<(), Fail> {
    for row in rows {
        want(
            equivalent(alloc, table, row.0, row.1, row.2)? == row.3,
            row.1,
        )?;
    }
    Ok(())
}

fn fault_of<T: NormTable>(alloc: Global, table: &T, row: &Refused) -> Option<NpssFault> {
    npss(alloc, table, row.0, row.1).err()
}

fn fault_of_lent<T: NormTable>(alloc: Global, table: &T, row: &Refused) -> Option<NpssFault> {
    lend_npss(alloc, table, row.0, row.1).err()
}

fn fault_of_given<T: NormTable>(alloc: Global, table: &T, row: &Refused) -> Option<NpssFault> {
    given_up(alloc, table, row.0, row.1).err()
}

/// Fails unless each way to the key of the text is refused for this code point.
fn wants_refusal<T: NormTable>(alloc: Global, table: &T, row: &Refused) -> Result<(), Fail> {
    let fault = Some(NpssFault::Unassigned {
        at: row.2,
        code: row.3,
    });
    want(fault_of(alloc, table, row) == fault, row.1)?;
    want(fault_of_lent(alloc, table, row) == fault, row.1)?;
    want(fault_of_given(alloc, table, row) == fault, row.1)
}

fn are_refused<T: NormTable>(alloc: Global, table: &T, rows: &[Refused]) -> Result<(), Fail> {
    for row in rows {
        wants_refusal(alloc, table, row)?;
    }
    Ok(())
}

fn are_lacking<T: NormTable>(table: &T, rows: &[Lacking]) -> Result<(), Fail> {
    for row in rows {
        want(first_unassigned(table, row.0) == row.1, row.0)?;
    }
    Ok(())
}

impl Example for Shown {
    fn holds<T: Made>(&self, alloc: Global, table: &T) -> Result<(), Fail> {
        are_canonical(alloc, table, self.canonical)?;
        are_formed(alloc, table, self.formed)?;
        are_told(alloc, table, self.told)?;
        are_compared(alloc, table, self.compared)?;
        are_refused(alloc, table, self.refused)?;
        are_lacking(table, self.lacking)
    }
}

/// Each refusal, and how it is told; a code point in four hex digits at least.
const TOLD: &[(NpssFault, &str)] = &[
    (
        NpssFault::Unassigned {
            at: 12,
            code: '\u{C5}',
        },
        "unassigned 00C5 at byte 12",
    ),
    (NpssFault::Memory, "out of memory"),
];

#[test]
fn a_refusal_is_told_in_words(rt: HostRuntime) -> Result<(), Fail> {
    want_told(rt.alloc(), TOLD)
}

/// A table that knows of a text that it is its own form lets it be lent.
fn lends<T: NormTable>(alloc: Global, table: &T) -> Result<(), Fail> {
    let lent = lend_npss(alloc, table, Form::Nfc, "\u{1EAD}")?;
    want(matches!(lent, CowStr::Borrowed(_)), "is lent")
}

/// Fails unless the form of a text of more than 2 MiB has 3 bytes for each 2 of its own.
fn has_grown<T: NormTable>(alloc: Global, table: &T, text: &str, made: &str) -> Result<(), Fail> {
    want(made.len() == 3_145_731, "the form's bytes")?;
    want(is_form(alloc, table, Form::Nfd, made)?, "its own form")?;
    want(is_stream_safe(alloc, table, text)?, "is stream-safe")?;
    wants_equivalent(alloc, table, text, made)
}

fn grows<T: NormTable>(alloc: Global, table: &T) -> Result<(), Fail> {
    let text = repeated(alloc, "", '\u{C5}', 1_048_577)?;
    let made = npss(alloc, table, Form::Nfd, text.as_str())?;
    has_grown(alloc, table, text.as_str(), made.as_str())
}

// (form, a piece that stands before and behind something many times and has itself as form, that something, its form)
const AMID: &[(Form, &str, &str, &str)] = &[
    (Form::Nfc, "ab\u{E9}", "e\u{301}", "\u{E9}"),
    (Form::Nfkc, "a\u{E9}", "e\u{316}\u{301}", "\u{E9}\u{316}"),
    (Form::Nfd, "ab\u{4E00}", "\u{E9}", "e\u{301}"),
    (Form::Nfkd, "ab\u{4E00}", "\u{315}\u{316}", "\u{316}\u{315}"),
    (
        Form::Nfc,
        "ab\u{4E00}",
        "\u{315}a\u{316}",
        "\u{315}a\u{316}",
    ),
    (
        Form::Nfc,
        "ab\u{E9}",
        "\u{20000}\u{20001}",
        "\u{20000}\u{20001}",
    ),
    (
        Form::Nfd,
        "ab\u{4E00}",
        "\u{E9}t\u{E9}\u{E9}x\u{301}\u{E9}",
        "e\u{301}te\u{301}e\u{301}x\u{301}e\u{301}",
    ),
    (
        Form::Nfkd,
        "ab\u{4E00}",
        "\u{E9}a word of many letters\u{E9}z\u{20001}",
        "e\u{301}a word of many letterse\u{301}z\u{20001}",
    ),
];

fn wants_amid<T: NormTable>(
    alloc: Global,
    table: &T,
    row: &(Form, &str, &str, &str),
) -> Result<(), Fail> {
    let text = amid(alloc, row.1, row.2)?;
    let normal = amid(alloc, row.1, row.3)?;
    wants_form(alloc, table, row.0, text.as_str(), normal.as_str())
}

fn are_amid<T: NormTable>(alloc: Global, table: &T) -> Result<(), Fail> {
    for row in AMID {
        wants_amid(alloc, table, row)?;
    }
    Ok(())
}

/// What forms of long texts show, and a text that is lent.
#[derive(Clone, Copy)]
pub(super) enum Long {
    Grown,
    Amid,
    Lent,
}

impl Example for Long {
    fn holds<T: Made>(&self, alloc: Global, table: &T) -> Result<(), Fail> {
        match self {
            Long::Grown => grows(alloc, table),
            Long::Amid => are_amid(alloc, table),
            Long::Lent => lends(alloc, table),
        }
    }
}

#[test]
fn forms_and_keys_are_those_of_the_version(rt: HostRuntime) -> Result<(), Fail> {
    let alloc = rt.alloc();
    holds_over_each(alloc, V1, FIRST)?;
    holds_over_each(alloc, V2, SECOND)?;
    holds_over_each(alloc, S, SPANNING)
}

#[test]
fn long_texts_have_their_forms(rt: HostRuntime) -> Result<(), Fail> {
    holds_over_each(rt.alloc(), V1, &Long::Grown)?;
    holds_over_each(rt.alloc(), LETTERS, &Long::Amid)
}

#[test]
fn a_text_that_is_its_own_form_is_lent(rt: HostRuntime) -> Result<(), Fail> {
    holds_over::<PageTable, Long>(rt.alloc(), V1, &Long::Lent)
}
