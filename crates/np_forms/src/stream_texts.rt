//! Streams that are fed a text at a time, and what became ready as bytes.
ghost use Rattle.std.specs.Prelude.{◌≡◌, [], chars, OnErr, OnOk};
ghost use Rattle.np_forms.specs.StreamTexts.{Breaks, Writes};

use crate::out_texts::OutText;
use crate::streams::Stream;
use crate::written::feed_text;
use np_code_points::Memory;
use np_versions::NormTable;

/// Takes a text in over a copy of the stream, which takes its place where there was memory for all.
fn feed_copy<'t, T: NormTable>(
    stream: &mut Stream<'t, T>,
    text: &str,
    out: &mut Vec<u8>,
) -> Result<(), Memory>
    requires { stream.old.ready ≡ [] }
    ensures ok { OnOk result (Writes stream.old stream.new out.old.items out.new.items (chars text.now)) }
    ensures err { OnErr result ((stream.new ≡ stream.old) × (out.new.items ≡ out.old.items)) }
{
    let mut copy = stream.copied()?;
    let mut made = OutText::new(stream.normalizer().alloc);
    feed_text(&mut copy, &mut made, text)?;
    out.extend_from_slice(made.as_bytes())?;
    *stream = copy;
    Ok(())
}

impl<'t, T: NormTable> Stream<'t, T> {
    /// Takes in the next piece of the text, and appends what became ready, as UTF-8. Nothing is ready before.
    ///
    /// # Errors
    ///
    /// `Memory` where memory ran out; then the stream and the bytes are as they were.
    pub fn feed_text(&mut self, text: &str, out: &mut Vec<u8>) -> Result<(), Memory>
        requires { self.old.ready ≡ [] }
        ensures ok { OnOk result (Writes self.old self.new out.old.items out.new.items (chars text.now)) }
        ensures err { OnErr result ((self.new ≡ self.old) × (out.new.items ≡ out.old.items)) }
    {
        let count = self.pending_len();
        let rest = self.take_front(text)?;
        if rest.is_empty() {
            return Ok(());
        }
        match feed_copy(self, rest, out) {
            Ok(()) => Ok(()),
            Err(fault) => {
                self.hold_first(count);
                Err(fault)
            }
        }
    }

    /// Ends the text, and appends the rest of its normal form, as UTF-8. Nothing is ready before. What is fed later is
    /// a new text.
    ///
    /// # Errors
    ///
    /// `Memory` where memory ran out; then the stream and the bytes are as they were.
    pub fn finish_text(&mut self, out: &mut Vec<u8>) -> Result<(), Memory>
        requires { self.old.ready ≡ [] }
        ensures ok { OnOk result (Breaks self.old self.new out.old.items out.new.items) }
        ensures err { OnErr result ((self.new ≡ self.old) × (out.new.items ≡ out.old.items)) }
    {
        let mut copy = self.copied()?;
        let mut made = OutText::new(self.normalizer().alloc);
        copy.finish_into(&mut made)?;
        out.extend_from_slice(made.as_bytes())?;
        *self = copy;
        Ok(())
    }
}
