//! Streams on worked examples.
use np_code_points::text::string_of;
use np_code_points::{Form, Memory};
use np_examples_shared::{Example, Made, V1, V2, holds_over_each, want};
use np_forms::Stream;
use np_versions::NormTable;
use std::alloc::Global;
use std::fmt;
use std::test::Fail;

/// A form, what is fed, what is ready then, how many code points are pending at most, and the form.
type Row = (Form, &'static str, &'static str, usize, &'static str);

const OLD: &[Row] = &[
    (Form::Nfc, "\u{61}\u{323}\u{302}", "", 3, "\u{1EAD}"),
    (
        Form::Nfc,
        "\u{61}\u{323}\u{302}\u{41}",
        "\u{1EAD}",
        1,
        "\u{1EAD}\u{41}",
    ),
    (Form::Nfkd, "\u{FB01}", "\u{66}", 1, "\u{66}\u{69}"),
    (Form::Nfc, "\u{302}\u{323}", "", 2, "\u{323}\u{302}"),
    (Form::Nfc, "\u{1111}\u{1171}\u{11B6}", "", 1, "\u{D4DB}"),
    (
        Form::Nfd,
        "\u{AC00}\u{41}",
        "\u{1100}\u{1161}",
        1,
        "\u{1100}\u{1161}\u{41}",
    ),
    (
        Form::Nfkd,
        "\u{61}\u{302}\u{302}\u{302}\u{302}\u{302}\u{302}\u{302}\u{302}\u{302}\u{302}\u{302}\u{302}\u{302}\u{302}\u{302}\u{302}\u{302}\u{302}\u{302}\u{302}\u{302}\u{302}\u{302}\u{302}\u{302}\u{302}\u{302}\u{302}\u{302}\u{302}",
        "",
        31,
        "\u{61}\u{302}\u{302}\u{302}\u{302}\u{302}\u{302}\u{302}\u{302}\u{302}\u{302}\u{302}\u{302}\u{302}\u{302}\u{302}\u{302}\u{302}\u{302}\u{302}\u{302}\u{302}\u{302}\u{302}\u{302}\u{302}\u{302}\u{302}\u{302}\u{302}\u{302}",
    ),
];

const NEW: &[Row] = &[
    (Form::Nfc, "\u{16D63}\u{16D67}\u{16D67}", "", 1, "\u{16D6A}"),
    (
        Form::Nfc,
        "\u{16D67}\u{16D67}\u{16D67}",
        "\u{16D68}",
        1,
        "\u{16D68}\u{16D67}",
    ),
];

/// Fails unless these are the code points of the text.
fn wants_text(alloc: Global, chars: &[char], text: &str) -> Result<(), Fail> {
    let made = string_of(alloc, chars)?;
    want(made.as_str() == text, text)
}

/// Fails unless a stream gives what the row says.
fn wants_row<T: NormTable>(alloc: Global, table: &T, row: &Row) -> Result<(), Fail> {
    let mut stream = Stream::new(alloc, table, row.0);
    feeds_row(alloc, &mut stream, row)
}

fn feeds<T: NormTable>(stream: &mut Stream<'_, T>, text: &str) -> Result<(), Memory> {
    for c in text.chars() {
        stream.feed(c)?;
    }
    Ok(())
}

fn feeds_row<T: NormTable>(
    alloc: Global,
    stream: &mut Stream<'_, T>,
    row: &Row,
) -> Result<(), Fail> {
    feeds(stream, row.1)?;
    wants_text(alloc, stream.ready(), row.2)?;
    want(stream.pending_len() <= row.3, "pending")?;
    stream.finish()?;
    want(stream.pending_len() == 0, "nothing is pending")?;
    wants_text(alloc, stream.ready(), row.4)
}

fn wants_rows<T: NormTable>(alloc: Global, table: &T, rows: &[Row]) -> Result<(), Fail> {
    for row in rows {
        wants_row(alloc, table, row)?;
    }
    Ok(())
}

/// A text behind another, of which nothing came.
fn begins_anew<T: NormTable>(alloc: Global, table: &T) -> Result<(), Fail> {
    let mut stream = Stream::new(alloc, table, Form::Nfc);
    ends_and_begins(alloc, &mut stream)
}

/// Fails unless the text is ready behind what was, where it ends.
fn ends<T: NormTable>(alloc: Global, stream: &mut Stream<'_, T>, text: &str) -> Result<(), Fail> {
    feeds(stream, text)?;
    stream.finish()?;
    wants_text(alloc, stream.ready(), text)
}

fn ends_and_begins<T: NormTable>(alloc: Global, stream: &mut Stream<'_, T>) -> Result<(), Fail> {
    ends(alloc, stream, "")?;
    ends(alloc, stream, "\u{61}")?;
    stream.clear_ready();
    ends(alloc, stream, "\u{302}")
}

/// A stream shows how much it holds, and none of it.
fn shows_counts<T: NormTable>(alloc: Global, table: &T) -> Result<(), Fail> {
    let mut stream = Stream::new(alloc, table, Form::Nfc);
    feeds(&mut stream, "\u{61}\u{61}\u{41}")?;
    shows(
        alloc,
        &stream,
        "Stream { form: Nfc, ready: 2, pending: 1, .. }",
    )
}

fn shows<D: fmt::Debug>(alloc: Global, value: &D, wanted: &str) -> Result<(), Fail> {
    let shown = format!(in alloc; "{value:?}")?;
    want(shown.as_str() == wanted, wanted)
}

/// What streams show.
#[derive(Clone, Copy)]
enum Shown {
    Rows(&'static [Row]),
    Counts,
    BeginsAnew,
}

impl Example for Shown {
    fn holds<T: Made>(&self, alloc: Global, table: &T) -> Result<(), Fail> {
        match self {
            Shown::Rows(rows) => wants_rows(alloc, table, rows),
            Shown::Counts => shows_counts(alloc, table),
            Shown::BeginsAnew => begins_anew(alloc, table),
        }
    }
}

#[test]
fn what_is_ready_is_the_form_before_its_last_starter(rt: HostRuntime) -> Result<(), Fail> {
    holds_over_each(rt.alloc(), V1, &Shown::Rows(OLD))?;
    // starters go into a pending starter
    holds_over_each(rt.alloc(), V2, &Shown::Rows(NEW))
}

#[test]
fn a_new_text_begins_behind_a_finished_one(rt: HostRuntime) -> Result<(), Fail> {
    holds_over_each(rt.alloc(), V1, &Shown::BeginsAnew)
}

#[test]
fn a_stream_shows_no_text(rt: HostRuntime) -> Result<(), Fail> {
    holds_over_each(rt.alloc(), V1, &Shown::Counts)
}
