//! Texts written as a stream gives them.
ghost use Rattle.std.specs.Prelude.{◌≡◌, ◌++◌, ◌∷◌, [], chars as chars_in, encode_utf8_all, OnOk};
ghost use Rattle.np_forms.specs.inside.Written.{Closes, Writes};

use crate::copying::{split_head, split_tail, write_form};
use crate::out_texts::OutText;
use crate::streams::Stream;
use np_code_points::Memory;
use np_versions::NormTable;

/// Moves what is ready to the end of a text.
fn take_ready<T: NormTable>(stream: &mut Stream<'_, T>, out: &mut OutText) -> Result<(), Memory>
    ensures stream { OnOk result (stream.new ≡ record stream.old { ready = [] }) }
    ensures bytes { OnOk result (out.new ≡ out.old ++ encode_utf8_all stream.old.ready) }
{
    out.append_chars(stream.ready())?;
    stream.clear_ready();
    Ok(())
}

/// Feeds a code point, and writes what became ready.
#[tactic(auto, using(crate::proofs::WrittenLemmas::written_answers))]
fn write_char<T: NormTable>(
    stream: &mut Stream<'_, T>,
    out: &mut OutText,
    c: char,
) -> Result<(), Memory>
    requires { stream.old.ready ≡ [] }
    ensures { OnOk result (Writes stream.old stream.new out.old out.new (c ∷ [])) }
{
    stream.feed(c)?;
    take_ready(stream, out)?;
    Ok(())
}

/// Feeds a text, of which what is no long run goes code point by code point, and writes what became ready.
fn write_chars<T: NormTable>(
    stream: &mut Stream<'_, T>,
    out: &mut OutText,
    text: &str,
) -> Result<(), Memory>
    requires { stream.old.ready ≡ [] }
    ensures { OnOk result (Writes stream.old stream.new out.old out.new (chars_in text.now)) }
{
    let mut iter = text.chars();
    'chars: loop {
        iter = stream.take_front(iter.as_str())?.chars();
        let Some(c) = iter.next() else {
            return Ok(());
        };
        write_char(stream, out, c)?;
    }
}

/// Takes a piece of a text in, and writes what became ready. The stream takes what stands before the first
/// boundary and what begins at the last one; what lies between has its form for itself.
pub(crate) fn feed_text<T: NormTable>(
    stream: &mut Stream<'_, T>,
    out: &mut OutText,
    text: &str,
) -> Result<(), Memory>
    requires { stream.old.ready ≡ [] }
    ensures { OnOk result (Writes stream.old stream.new out.old out.new (chars_in text.now)) }
{
    let rest = stream.take_front(text)?;
    let normalizer = stream.normalizer();
    normalizer.table.meets_conditions();
    let (head, body) = split_head(normalizer.table, normalizer.form, rest);
    write_chars(stream, out, head)?;
    if body.is_empty() {
        return Ok(());
    }
    let (middle, tail) = split_tail(normalizer.table, normalizer.form, body);
    stream.finish_into(out)?;
    write_form(&normalizer, middle, out)?;
    write_chars(stream, out, tail)
}

/// Takes the last piece of a text in, which may be the whole, and writes the rest of its form. Where nothing is
/// held back, nothing goes through the stream.
pub(crate) fn close_text<T: NormTable>(
    stream: &mut Stream<'_, T>,
    out: &mut OutText,
    text: &str,
) -> Result<(), Memory>
    requires { stream.old.ready ≡ [] }
    ensures { OnOk result (Closes stream.old out.old out.new (chars_in text.now)) }
{
    let normalizer = stream.normalizer();
    normalizer.table.meets_conditions();
    if stream.pending_len() == 0 {
        return write_form(&normalizer, text, out);
    }
    let rest = stream.take_front(text)?;
    let (head, body) = split_head(normalizer.table, normalizer.form, rest);
    write_chars(stream, out, head)?;
    stream.finish_into(out)?;
    write_form(&normalizer, body, out)
}
