//! Forms that are made in a buffer, one after another.
use np_code_points::{Form, Memory};
use np_examples_shared::{Example, Made, V1, holds_over_each, want};
use np_forms::{FormBuffer, NpssFault, make_form, make_npss};
use np_versions::NormTable;
use std::alloc::Global;
use std::test::Fail;

/// Texts of the first version, and their keys under NFC and NFD: longer ones and shorter ones in turn, and some that stay.
const ROWS: &[(&str, &str, &str)] = &[
    ("a\u{302}\u{323}", "\u{1EAD}", "a\u{323}\u{302}"),
    (
        "\u{1EAD}\u{1EAD}\u{1EAD}A",
        "\u{1EAD}\u{1EAD}\u{1EAD}A",
        "a\u{323}\u{302}a\u{323}\u{302}a\u{323}\u{302}A",
    ),
    ("A\u{30A}", "\u{C5}", "A\u{30A}"),
    ("", "", ""),
    ("\u{1EAD}", "\u{1EAD}", "a\u{323}\u{302}"),
];

/// What was made of a text: what stands in the buffer, or the text itself.
fn made_of<'a>(buffer: &'a FormBuffer, made: bool, text: &'a str) -> &'a str {
    if made { buffer.as_str() } else { text }
}

fn wants_made<T: NormTable>(
    buffer: &mut FormBuffer,
    table: &T,
    wanted: Form,
    text: &str,
    key: &str,
) -> Result<(), Fail> {
    let made = make_npss(buffer, table, wanted, text)?;
    want(made_of(&*buffer, made, text) == key, text)?;
    let made = make_form(buffer, table, wanted, text)?;
    want(made_of(&*buffer, made, text) == key, key)
}

fn wants_rows<T: NormTable>(buffer: &mut FormBuffer, table: &T) -> Result<(), Fail> {
    for row in ROWS {
        wants_made(buffer, table, Form::Nfc, row.0, row.1)?;
        wants_made(buffer, table, Form::Nfd, row.0, row.2)?;
    }
    Ok(())
}

/// Memory that is more than may be kept is given back, and what may be kept stays.
fn wants_release<T: NormTable>(buffer: &mut FormBuffer, table: &T) -> Result<(), Fail> {
    let made = make_npss(buffer, table, Form::Nfd, "\u{1EAD}")?;
    buffer.release_beyond(1_000_000);
    want(
        made && buffer.as_str() == "a\u{323}\u{302}",
        "what may be kept",
    )?;
    buffer.release_beyond(0);
    want(buffer.as_str() == "", "what is given back")?;
    wants_rows(buffer, table)
}

fn wants_refusals<T: NormTable>(buffer: &mut FormBuffer, table: &T) -> Result<(), Fail> {
    let told = make_npss(buffer, table, Form::Nfc, "a\u{302}\u{16D67}").err();
    let wanted = NpssFault::Unassigned {
        at: 3,
        code: '\u{16D67}',
    };
    want(told == Some(wanted), "the first that is not assigned")?;
    want(buffer.as_str().is_empty(), "nothing stands in the buffer")?;
    wants_rows(buffer, table)
}

fn npss_again<T: NormTable>(buffer: &mut FormBuffer, table: &T) -> Result<bool, NpssFault> {
    match make_npss(buffer, table, Form::Nfc, "a\u{302}\u{323}") {
        Err(NpssFault::Memory) => make_npss(buffer, table, Form::Nfc, "a\u{302}\u{323}"),
        made => made,
    }
}

fn form_again<T: NormTable>(buffer: &mut FormBuffer, table: &T) -> Result<bool, Memory> {
    match make_form(buffer, table, Form::Nfc, "a\u{302}\u{323}") {
        Err(Memory) => make_form(buffer, table, Form::Nfc, "a\u{302}\u{323}"),
        made => made,
    }
}

/// What is tried of a buffer.
#[derive(Clone, Copy, PartialEq, Eq)]
enum Tried {
    Rows,
    Release,
    Refusals,
    NpssAgain,
    FormAgain,
}

impl Example for Tried {
    fn holds<T: Made>(&self, alloc: Global, table: &T) -> Result<(), Fail> {
        let mut buffer = FormBuffer::new(alloc);
        match self {
            Tried::Rows => wants_rows(&mut buffer, table),
            Tried::Release => wants_release(&mut buffer, table),
            Tried::Refusals => wants_refusals(&mut buffer, table),
            Tried::NpssAgain => {
                let made = npss_again(&mut buffer, table)?;
                want(made && buffer.as_str() == "\u{1EAD}", "the key")
            }
            Tried::FormAgain => {
                let made = form_again(&mut buffer, table)?;
                want(made && buffer.as_str() == "\u{1EAD}", "the form")
            }
        }
    }
}

#[test]
fn a_buffer_holds_one_form_after_another(rt: HostRuntime) -> Result<(), Fail> {
    holds_over_each(rt.alloc(), V1, &Tried::Rows)
}

#[test]
fn a_buffer_gives_memory_back(rt: HostRuntime) -> Result<(), Fail> {
    holds_over_each(rt.alloc(), V1, &Tried::Release)
}

#[test]
fn a_buffer_serves_after_a_refusal(rt: HostRuntime) -> Result<(), Fail> {
    holds_over_each(rt.alloc(), V1, &Tried::Refusals)
}

#[test]
fn a_refused_make_npss_succeeds_after_all(rt: HostRuntime) -> Result<(), Fail> {
    holds_over_each(rt.alloc(), V1, &Tried::NpssAgain)
}

#[test]
fn a_refused_make_form_succeeds_after_all(rt: HostRuntime) -> Result<(), Fail> {
    holds_over_each(rt.alloc(), V1, &Tried::FormAgain)
}
