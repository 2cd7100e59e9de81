//! What of an input was not read to the end of a line, and what of the answers is not written.
//!
//! A piece of an input is answered in this order, each way taking what it can of the lines that end in it:
//!
//! | Way | Lines | Cost |
//! |---|---|---|
//! | `take_begun`, `end_line` | the one that an earlier piece began | copied together, then by itself: slow |
//! | `take_quick` | those of a text that the keys have a quick way to, all at once | that of the keys: quick |
//! | `take_front` | those at the front of a text that take no work | that of the keys: quick |
//! | `end_text_line` | the next one of a text, which takes some | by itself, then `take_front` again: slow |
//! | `take_bytes`, `end_line` | those behind the first bytes that are no UTF-8 | each by itself, checked by itself: slow |
ghost use Rattle.std.specs.Prelude.{◌≡◌, ◌≢◌, ◌⊎◌, ◌++◌, ◌∷◌, ◌||◌, [], true, false, ℕ, List, IfOk, IsTrue, OnOk};
ghost use Rattle.np_lines.specs.Answers.{IsAnswerBy};
ghost use Rattle.np_lines.specs.Lines.{byte_of};
ghost use Rattle.np_lines.specs.inside.Steps.{Finishes, Goes, HasBegun, HasTaken, IsAnswerTo, IsEnded, IsNew, IsTold};

use crate::answers::{LIMIT, push_answer, push_refusal, push_text_answer};
use crate::cuts::{cut_line, cut_text};
use crate::line_keys::LineKeys;
use crate::lines::LineEnd;
use crate::whole::Answers;
use np_code_points::Memory;
use np_code_points::lines::cut;
use std::alloc::Global;

/// The line that has begun, and the answers that are not written yet.
#[derive(Drop)]
pub(crate) struct Pending {
    alloc: Global,
    /// What came of the line that has begun, at most `LIMIT` bytes; nothing where more came.
    line: Vec<u8>,
    /// Whether more than `LIMIT` bytes came of it.
    is_long: bool,
    /// The answers, each with the byte that ends it.
    out: Vec<u8>,
    /// Whether a line was refused.
    any_refused: bool,
}

impl Pending {
    /// Before the first byte of an input.
    pub(crate) fn new(alloc: Global) -> Self
        ensures { IsNew result }
    {
        Pending {
            alloc,
            line: Vec::new(alloc),
            is_long: false,
            out: Vec::new(alloc),
            any_refused: false,
        }
    }

    /// The allocator.
    pub(crate) fn alloc(&self) -> Global {
        self.alloc
    }

    /// The answers that are not written yet.
    pub(crate) fn out(&self) -> &[u8]
        ensures { result.now ≡ self.now.out.items }
    {
        self.out.as_slice()
    }

    /// Whether a line was refused.
    pub(crate) fn any_refused(&self) -> bool
        ensures { result ≡ self.now.any_refused }
    {
        self.any_refused
    }

    /// The answers that were made, and whether a line was refused.
    pub(crate) fn into_answers(self) -> Answers
        ensures bytes { result.bytes.items ≡ self.out.items }
        ensures refused { result.any_refused ≡ self.any_refused }
    {
        Answers {
            bytes: self.out,
            any_refused: self.any_refused,
        }
    }

    /// Whether a byte came of a line whose end did not.
    fn has_begun(&self) -> bool
        ensures some { IsTrue result → (self.now.line.items ≢ []) ⊎ (self.now.is_long ≡ true) }
        ensures none { result ≡ false → (self.now.line.items ≡ []) × (self.now.is_long ≡ false) }
    {
        self.is_long || !self.line.is_empty()
    }

    /// Forgets the answers, which were written.
    pub(crate) fn clear_out(&mut self)
        ensures empty { self.new.out.items ≡ [] }
        ensures line { self.new.line.items ≡ self.old.line.items }
        ensures long { self.new.is_long ≡ self.old.is_long }
        ensures told { self.new.any_refused ≡ self.old.any_refused }
    {
        self.out.clear();
    }

    /// Takes more of the line in.
    fn go_on(&mut self, bytes: &[u8]) -> Result<(), Memory>
        ensures begun { OnOk result ((rest : List ℕ) → HasBegun self.old rest → HasBegun self.new (rest ++ bytes.now)) }
        ensures out { self.new.out.items ≡ self.old.out.items }
        ensures told { self.new.any_refused ≡ self.old.any_refused }
    {
        if self.is_long {
            return Ok(());
        }
        if self.line.len() + bytes.len() > LIMIT {
            self.is_long = true;
            self.line.clear();
            return Ok(());
        }
        self.line.extend_from_slice(bytes)?;
        Ok(())
    }

    /// Appends the answer to the line that has begun and ends with these bytes; to one that is all here,
    /// with no copy between. Answers whether it is refused.
    fn push_line<K: LineKeys>(
        &mut self,
        keys: &K,
        end: LineEnd,
        bytes: &[u8],
    ) -> Result<bool, Memory>
        ensures told { IfOk result (IsTold (IsAnswerTo (IsAnswerBy (K.is_key keys.now) (K.version keys.now) end) self.old bytes.now)
            self.old.out.items self.new.out.items) }
        ensures same { self.new.any_refused ≡ self.old.any_refused }
    {
        if !self.has_begun() {
            return push_answer(self.alloc, keys, end, bytes, &mut self.out);
        }
        self.go_on(bytes)?;
        if self.is_long {
            push_refusal(&mut self.out, "too long")?;
            return Ok(true);
        }
        push_answer(self.alloc, keys, end, &self.line, &mut self.out)
    }

    /// Appends the answer to the line that has begun and ends with this text. Answers whether it is refused.
    fn push_text_line<K: LineKeys>(
        &mut self,
        keys: &K,
        end: LineEnd,
        text: &str,
    ) -> Result<bool, Memory>
        ensures told { IfOk result (IsTold (IsAnswerTo (IsAnswerBy (K.is_key keys.now) (K.version keys.now) end) self.old text.now)
            self.old.out.items self.new.out.items) }
        ensures same { self.new.any_refused ≡ self.old.any_refused }
    {
        if self.has_begun() || text.len() > LIMIT {
            return self.push_line(keys, end, text.as_bytes());
        }
        push_text_answer(self.alloc, keys, end, text, &mut self.out)
    }

    /// Ends a line of which the answer was appended.
    #[inline(always)]
    fn close_line(&mut self, end: LineEnd, refused: bool) -> Result<(), Memory>
        ensures out { OnOk result (self.new.out.items ≡ self.old.out.items ++ byte_of end ∷ []) }
        ensures line { OnOk result (self.new.line.items ≡ []) }
        ensures short { OnOk result (self.new.is_long ≡ false) }
        ensures told { OnOk result (self.new.any_refused ≡ (self.old.any_refused || refused)) }
    {
        self.out.push(end.byte())?;
        self.line.clear();
        self.is_long = false;
        self.any_refused = self.any_refused || refused;
        Ok(())
    }

    /// Answers the line that has begun and ends with these bytes, which have no byte that ends lines.
    fn end_line<K: LineKeys>(&mut self, keys: &K, end: LineEnd, bytes: &[u8]) -> Result<(), Memory>
        ensures { OnOk result (IsEnded (IsAnswerBy (K.is_key keys.now) (K.version keys.now) end) end self.old self.new bytes.now) }
    {
        let refused = self.push_line(keys, end, bytes)?;
        self.close_line(end, refused)
    }

    /// Answers the line that has begun and ends with this text, which has no byte that ends lines.
    fn end_text_line<K: LineKeys>(
        &mut self,
        keys: &K,
        end: LineEnd,
        text: &str,
    ) -> Result<(), Memory>
        ensures { OnOk result (IsEnded (IsAnswerBy (K.is_key keys.now) (K.version keys.now) end) end self.old self.new text.now) }
    {
        let refused = self.push_text_line(keys, end, text)?;
        self.close_line(end, refused)
    }

    /// Answers lines at the front of a text by the quick way to all of them, where none has begun before it. Answers what is
    /// left of the text.
    fn take_quick<'a, K: LineKeys>(
        &mut self,
        keys: &K,
        end: LineEnd,
        text: &'a str,
    ) -> Result<&'a str, Memory>
        ensures { IfOk result (λ rest. HasTaken (IsAnswerBy (K.is_key keys.now) (K.version keys.now) end) end self.old self.new text.now rest.now) }
    {
        if self.has_begun() {
            return Ok(text);
        }
        keys.push_lines(self.alloc, end, text, &mut self.out)
    }

    /// Answers the lines at the front of a text that take no work, where none has begun before it. Answers what is left of
    /// the text.
    fn take_front<'a, K: LineKeys>(
        &mut self,
        keys: &K,
        end: LineEnd,
        text: &'a str,
    ) -> Result<&'a str, Memory>
        ensures { IfOk result (λ rest. HasTaken (IsAnswerBy (K.is_key keys.now) (K.version keys.now) end) end self.old self.new text.now rest.now) }
    {
        if self.has_begun() {
            return Ok(text);
        }
        keys.push_front(end, text, &mut self.out)
    }

    /// Answers the lines that end in a text, each that takes work by itself, and takes in what begins
    /// behind them.
    fn take_lines<K: LineKeys>(&mut self, keys: &K, end: LineEnd, text: &str) -> Result<(), Memory>
        ensures { OnOk result (Goes (IsAnswerBy (K.is_key keys.now) (K.version keys.now) end) end self.old self.new text.now) }
    {
        let mut rest = text;
        'lines: loop {
            let left = self.take_front(keys, end, rest)?;
            let Some((line, behind)) = cut_line(left, end) else {
                return self.go_on(left.as_bytes());
            };
            self.end_text_line(keys, end, line)?;
            rest = behind;
        }
    }

    /// Answers the lines that end in a text, by the quick way to all of them first, and takes in what begins behind them.
    fn take_text<K: LineKeys>(&mut self, keys: &K, end: LineEnd, text: &str) -> Result<(), Memory>
        ensures { OnOk result (Goes (IsAnswerBy (K.is_key keys.now) (K.version keys.now) end) end self.old self.new text.now) }
    {
        let rest = self.take_quick(keys, end, text)?;
        self.take_lines(keys, end, rest)
    }

    /// Answers the lines that end in these bytes, and takes in what begins behind them.
    fn take_bytes<K: LineKeys>(
        &mut self,
        keys: &K,
        end: LineEnd,
        bytes: &[u8],
    ) -> Result<(), Memory>
        ensures { OnOk result (Goes (IsAnswerBy (K.is_key keys.now) (K.version keys.now) end) end self.old self.new bytes.now) }
    {
        let mut rest = bytes;
        'lines: loop {
            let (line, behind) = cut(rest, end.byte());
            let Some(behind) = behind else {
                return self.go_on(line);
            };
            self.end_line(keys, end, line)?;
            rest = behind;
        }
    }

    /// Ends the line that has begun with what these bytes have of it. Answers what is behind it, which is nothing where
    /// it does not end in them.
    fn take_begun<'a, K: LineKeys>(
        &mut self,
        keys: &K,
        end: LineEnd,
        bytes: &'a [u8],
    ) -> Result<&'a [u8], Memory>
        ensures { IfOk result (λ rest. HasTaken (IsAnswerBy (K.is_key keys.now) (K.version keys.now) end) end self.old self.new bytes.now rest.now) }
    {
        if !self.has_begun() {
            return Ok(bytes);
        }
        let (line, behind) = cut(bytes, end.byte());
        let Some(behind) = behind else {
            self.go_on(line)?;
            return Ok(b"");
        };
        self.end_line(keys, end, line)?;
        Ok(behind)
    }

    /// Answers the lines that end in these bytes, and takes in what begins behind them. That they are UTF-8 is told of
    /// all lines at once, and of each by itself only behind the first that is not.
    pub(crate) fn take_piece<K: LineKeys>(
        &mut self,
        keys: &K,
        end: LineEnd,
        piece: &[u8],
    ) -> Result<(), Memory>
        ensures { OnOk result (Goes (IsAnswerBy (K.is_key keys.now) (K.version keys.now) end) end self.old self.new piece.now) }
    {
        // a piece may begin within a character, and a line does not
        let lines = self.take_begun(keys, end, piece)?;
        let (text, behind) = cut_text(lines);
        self.take_text(keys, end, text)?;
        self.take_bytes(keys, end, behind)
    }

    /// Answers the last line, where it lacks the byte that ends lines.
    pub(crate) fn finish<K: LineKeys>(&mut self, keys: &K, end: LineEnd) -> Result<(), Memory>
        ensures { OnOk result (Finishes (IsAnswerBy (K.is_key keys.now) (K.version keys.now) end) end self.old self.new) }
    {
        if !self.has_begun() {
            return Ok(());
        }
        self.end_line(keys, end, b"")
    }
}
