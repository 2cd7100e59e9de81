//! The caseless key of a line as its key.
ghost use Rattle.std.specs.Prelude.{IfOk};
ghost use Rattle.np_caseless.specs.Caseless.{IsCaseless};
ghost use Rattle.np_lines.specs.Answers.{IsAnswerBy};
ghost use Rattle.np_lines.specs.Pushed.{ArePushed};

use crate::simple_lines::push_simple;
use np_caseless::FoldedTable;
use np_code_points::{Form, Memory};
use np_forms::NpssFault;
use np_lines::{LineEnd, LineKeys, Wanted};
use np_versions::NormTable;
use std::alloc::Global;
use std::borrow::CowStr;

/// The caseless keys of a form (The Unicode Standard, D145 and D146), under a version with its foldings.
#[derive(Clone, Copy)]
pub struct CaselessKeys<'t, T: NormTable + Drop> {
    pub folded: &'t FoldedTable<T>,
    pub form: Form,
}

impl<'t, T: NormTable + Drop> LineKeys for CaselessKeys<'t, T> {
    ghost version = { λ keys. keys.folded.now.version };

    ghost is_key = { λ keys. IsCaseless keys.folded.now keys.form };

    fn lend_key<'a>(&self, alloc: Global, text: &'a str) -> Result<CowStr<'a>, NpssFault> {
        self.folded.key(alloc, self.form, text)
    }

    /// None: there is no quick way to all lines of a text.
    fn push_lines<'a>(
        &self,
        _alloc: Global,
        _end: LineEnd,
        text: &'a str,
        _out: &mut Vec<u8>,
    ) -> Result<&'a str, Memory> {
        Ok(text)
    }

    /// Answers the lines at the front of a text that are short and whose keys are made code point by code point.
    fn push_front<'a>(
        &self,
        end: LineEnd,
        text: &'a str,
        out: &mut Vec<u8>,
    ) -> Result<&'a str, Memory> {
        let wanted = Wanted {
            form: self.form,
            end,
        };
        push_simple(self.folded, wanted, text, out)
    }
}
