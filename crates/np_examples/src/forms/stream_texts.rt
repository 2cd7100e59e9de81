//! Streams that are fed texts, and taken apart between them; full decompositions.
ghost use Rattle.std.specs.Prelude.{◌≡◌, [], IfOk, OnErr, OnOk};
ghost use Rattle.np_forms.specs.ApartStreams.{IsApartOf};

use np_code_points::text::string_of;
use np_code_points::{Form, Memory};
use np_examples_shared::{Example, Made, V1, holds_over_each, want};
use np_forms::{ApartStream, Stream, full_decomposition, utf8_prefix_of};
use np_versions::NormTable;
use std::alloc::Global;
use std::test::Fail;

/// A form, two texts that come, what is ready then, and the form of both.
#[derive(Clone, Copy)]
struct Row {
    form: Form,
    first: &'static str,
    second: &'static str,
    ready: &'static str,
    made: &'static str,
}

const ROWS: &[Row] = &[
    Row {
        form: Form::Nfc,
        first: "\u{61}\u{302}",
        second: "\u{323}\u{41}",
        ready: "\u{1EAD}",
        made: "\u{1EAD}\u{41}",
    },
    Row {
        form: Form::Nfd,
        first: "\u{1EAD}\u{41}\u{1EAD}",
        second: "",
        ready: "\u{61}\u{323}\u{302}\u{41}",
        made: "\u{61}\u{323}\u{302}\u{41}\u{61}\u{323}\u{302}",
    },
    Row {
        form: Form::Nfkc,
        first: "\u{1100}",
        second: "\u{1161}\u{FB01}",
        ready: "\u{AC00}\u{66}",
        made: "\u{AC00}\u{66}\u{69}",
    },
    Row {
        form: Form::Nfd,
        first: "\u{302}",
        second: "\u{344}\u{323}",
        ready: "",
        made: "\u{323}\u{302}\u{308}\u{301}",
    },
];

/// Feeds a text to a stream that is taken apart behind it.
fn feeds_apart<T: NormTable>(
    table: &T,
    apart: ApartStream,
    text: &str,
    out: &mut Vec<u8>,
) -> Result<ApartStream, Memory>
    requires { IsApartOf (T.model table.now) apart }
    ensures { IfOk result (IsApartOf (T.model table.now)) }
{
    let mut stream = Stream::of_apart(table, apart);
    stream.feed_text(text, out)?;
    Ok(stream.into_apart())
}

fn ends_apart<T: NormTable>(table: &T, apart: ApartStream, out: &mut Vec<u8>) -> Result<(), Memory>
    requires { IsApartOf (T.model table.now) apart }
{
    let mut stream = Stream::of_apart(table, apart);
    stream.finish_text(out)
}

/// Fails unless the texts of a row give its form.
fn wants_row<T: NormTable>(alloc: Global, table: &T, row: Row) -> Result<(), Fail> {
    let apart = ApartStream::new(alloc, row.form);
    want(apart.form() == row.form, "the form of a stream apart")?;
    let mut out = Vec::new(alloc);
    let apart = feeds_apart(table, apart, row.first, &mut out)?;
    let apart = feeds_apart(table, apart, row.second, &mut out)?;
    want(out.as_slice() == row.ready.as_bytes(), row.ready)?;
    ends_apart(table, apart, &mut out)?;
    want(out.as_slice() == row.made.as_bytes(), row.made)
}

fn wants_rows<T: NormTable>(alloc: Global, table: &T) -> Result<(), Fail> {
    for row in ROWS {
        wants_row(alloc, table, *row)?;
    }
    Ok(())
}

/// Feeds a text; ends it where there is none.
fn step<T: NormTable>(
    stream: &mut Stream<'_, T>,
    text: Option<&str>,
    out: &mut Vec<u8>,
) -> Result<(), Memory>
    requires { stream.old.ready ≡ [] }
    ensures ok { OnOk result (stream.new.ready ≡ []) }
    ensures err { OnErr result (stream.new.ready ≡ []) }
{
    match text {
        Some(text) => {
            stream.feed_text(text, out)?;
            Ok(())
        }
        None => {
            stream.finish_text(out)?;
            Ok(())
        }
    }
}

/// Takes a step, a second time where memory was refused and that is asked for.
fn steps<T: NormTable>(
    stream: &mut Stream<'_, T>,
    text: Option<&str>,
    out: &mut Vec<u8>,
    again: bool,
) -> Result<(), Fail>
    requires { stream.old.ready ≡ [] }
    ensures { OnOk result (stream.new.ready ≡ []) }
{
    let pending = stream.pending_len();
    let count = out.len();
    match step(stream, text, out) {
        Ok(()) => Ok(()),
        Err(refused) => {
            let same = stream.pending_len() == pending && out.len() == count;
            want(same, "a refused step changes nothing")?;
            if !again {
                return Err(refused.into());
            }
            step(stream, text, out)?;
            Ok(())
        }
    }
}

fn gives<T: NormTable>(
    stream: &mut Stream<'_, T>,
    out: &mut Vec<u8>,
    call: Call,
) -> Result<(), Fail>
    requires { stream.old.ready ≡ [] }
{
    let again = call == Call::FeedText;
    steps(stream, Some("\u{61}\u{302}"), out, again)?;
    steps(stream, Some("\u{323}"), out, again)?;
    steps(stream, Some("\u{344}"), out, again)?;
    steps(stream, Some("\u{41}\u{327}\u{30A}\u{FB01}"), out, again)?;
    steps(stream, None, out, call == Call::FinishText)
}

/// Fails unless texts that come give their form, where memory was refused too.
fn fed_again<T: NormTable>(alloc: Global, table: &T, call: Call) -> Result<(), Fail> {
    let mut out = Vec::new(alloc);
    let mut stream = Stream::new(alloc, table, Form::Nfc);
    gives(&mut stream, &mut out, call)?;
    let made = "\u{1EAD}\u{308}\u{301}\u{C5}\u{327}\u{FB01}";
    want(out.as_slice() == made.as_bytes(), made)
}

fn decomposes_again<T: NormTable>(
    alloc: Global,
    table: &T,
    compat: bool,
    c: char,
) -> Result<Vec<char>, Memory> {
    match full_decomposition(alloc, table, compat, c) {
        Err(Memory) => full_decomposition(alloc, table, compat, c),
        made => made,
    }
}

fn decomposes<T: NormTable>(
    alloc: Global,
    table: &T,
    compat: bool,
    c: char,
    made: &str,
) -> Result<(), Fail> {
    let codes = decomposes_again(alloc, table, compat, c)?;
    let text = string_of(alloc, &codes)?;
    want(text.as_str() == made, made)
}

fn all_decompose<T: NormTable>(alloc: Global, table: &T) -> Result<(), Fail> {
    decomposes(alloc, table, false, '\u{41}', "\u{41}")?;
    decomposes(alloc, table, false, '\u{1EAD}', "\u{61}\u{323}\u{302}")?;
    decomposes(alloc, table, false, '\u{FB01}', "\u{FB01}")?;
    decomposes(alloc, table, true, '\u{FB01}', "\u{66}\u{69}")?;
    decomposes(alloc, table, true, '\u{AC01}', "\u{1100}\u{1161}\u{11A8}")
}

/// What is shown of streams that are fed texts, and of single code points.
#[derive(Clone, Copy, PartialEq, Eq)]
enum Call {
    Rows,
    FeedText,
    FinishText,
    FullDecomposition,
}

impl Example for Call {
    fn holds<T: Made>(&self, alloc: Global, table: &T) -> Result<(), Fail> {
        match self {
            Call::Rows => wants_rows(alloc, table),
            Call::FeedText | Call::FinishText => fed_again(alloc, table, *self),
            Call::FullDecomposition => all_decompose(alloc, table),
        }
    }
}

#[test]
fn texts_that_come_make_one_form(rt: HostRuntime) -> Result<(), Fail> {
    holds_over_each(rt.alloc(), V1, &Call::Rows)
}

#[test]
fn a_refused_feed_text_succeeds_after_all(rt: HostRuntime) -> Result<(), Fail> {
    holds_over_each(rt.alloc(), V1, &Call::FeedText)
}

#[test]
fn a_refused_finish_text_succeeds_after_all(rt: HostRuntime) -> Result<(), Fail> {
    holds_over_each(rt.alloc(), V1, &Call::FinishText)
}

#[test]
fn a_refused_full_decomposition_succeeds_after_all(rt: HostRuntime) -> Result<(), Fail> {
    holds_over_each(rt.alloc(), V1, &Call::FullDecomposition)
}

/// Bytes, how many of them are a text, and whether the rest may begin a character.
type Begin = (&'static [u8], usize, bool);

const BEGINS: &[Begin] = &[
    (b"", 0, true),
    (b"a\xcc\x82", 3, true),
    (b"a\xcc", 1, true),
    (b"\xf0\x96\xb5", 0, true),
    (b"a\xccb", 1, false),
    (b"ab\xff", 2, false),
    (b"\xed\xa0", 0, false),
];

#[test]
fn bytes_begin_with_a_text() -> Result<(), Fail> {
    for (bytes, count, may_begin) in BEGINS {
        let begins = utf8_prefix_of(bytes);
        want(begins.text == *count, "how many are a text")?;
        want(begins.may_begin == *may_begin, "what follows them")?;
    }
    Ok(())
}
