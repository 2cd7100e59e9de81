//! What gives lines their keys.
ghost use Rattle.std.specs.Prelude.{ℕ, List, chars, IfErr, IfOk, OnOk};
ghost use Rattle.std.specs.Cow.{cow_str_bytes};
ghost use Rattle.np_forms.specs.Assigned.{IsAssigned};
ghost use Rattle.np_forms.specs.Faults.{IsNpssFault};
ghost use Rattle.np_lines.specs.Answers.{IsAnswerBy};
ghost use Rattle.np_lines.specs.Pushed.{ArePushed};
ghost use Rattle.np_versions.specs.Versions.{VersionData};

use crate::lines::LineEnd;
use np_code_points::Memory;
use np_forms::NpssFault;
use std::alloc::Global;
use std::borrow::CowStr;

/// What gives lines their keys, under a version: the key of a text of assigned code points, and quick ways to the answers of
/// many lines.
pub trait LineKeys {
    /// The version, which tells what is assigned.
    ghost version: { Self → VersionData };

    /// What is the key of a string of code points.
    ghost is_key: { Self → List ℕ → List ℕ → Type 0 };

    /// The key of a text, lent where it is the text.
    ///
    /// # Errors
    ///
    /// `Unassigned` exactly where a code point is not assigned, with the first such place; `Memory` where memory ran out.
    fn lend_key<'a>(&self, alloc: Global, text: &'a str) -> Result<CowStr<'a>, NpssFault>
        ensures key { IfOk result (λ key. is_key self.now (chars text.now) (chars (cow_str_bytes key))) }
        ensures assigned { OnOk result (IsAssigned (version self.now) (chars text.now)) }
        ensures fault { IfErr result (IsNpssFault (version self.now) (chars text.now)) };

    /// Appends the answers to some lines at the front of a text that comes first, each with the byte that ends it, and
    /// answers what is left of the text. It is asked once for each text.
    ///
    /// # Errors
    ///
    /// `Memory` where memory ran out.
    fn push_lines<'a>(
        &self,
        alloc: Global,
        end: LineEnd,
        text: &'a str,
        out: &mut Vec<u8>,
    ) -> Result<&'a str, Memory>
        ensures { IfOk result (λ rest. ArePushed (IsAnswerBy (is_key self.now) (version self.now) end) end
            text.now rest.now out.old.items out.new.items) };

    /// Appends the answers to the lines at the front of a text that take no work, each with the byte that ends it, and answers
    /// what is left of the text. It is asked again behind each line that took some.
    ///
    /// # Errors
    ///
    /// `Memory` where memory ran out.
    fn push_front<'a>(
        &self,
        end: LineEnd,
        text: &'a str,
        out: &mut Vec<u8>,
    ) -> Result<&'a str, Memory>
        ensures { IfOk result (λ rest. ArePushed (IsAnswerBy (is_key self.now) (version self.now) end) end
            text.now rest.now out.old.items out.new.items) };
}
