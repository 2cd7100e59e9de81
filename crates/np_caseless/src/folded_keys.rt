//! Caseless keys by the images of code points.
ghost use Rattle.std.specs.Prelude.{◌≡◌, ◌<◌, ◌≤◌, chars, get_or, length, string_bytes, take, IfOk, IfErr, IfSome, IsSome, IsTrue, OnOk};
ghost use Rattle.std.specs.Cow.{cow_str_bytes};
ghost use Rattle.std.specs.Str.{IsCharBoundary};
ghost use Rattle.np_forms.specs.Assigned.{IsAssigned};
ghost use Rattle.np_forms.specs.Faults.{IsNpssFault};
ghost use Rattle.np_forms.specs.Forms.{IsNormalForm};
ghost use Rattle.np_caseless.specs.Caseless.{IsCaseless};
ghost use Rattle.np_caseless.specs.SimpleKeys.{IsEachPartKey};

use crate::ascii::folded_text;
use crate::folded_tables::FoldedTable;
use crate::image_texts::image_text;
use crate::keys::caseless_key;
use crate::marks::are_marked;
use crate::simple_texts::make_front;
use np_code_points::{Form, Memory};
use np_forms::{NpssFault, first_unassigned_char, into_npss, lend_npss, quick_check_span};
use np_versions::{NormTable, ascii_front};
use std::alloc::Global;
use std::borrow::CowStr;
use std::str::from_utf8_unchecked;

/// Why a text has no key where memory ran out: a code point is not assigned, which takes no memory to tell, or else that.
fn refusal<T: NormTable>(table: &T, text: &str) -> NpssFault
    ensures { IsNpssFault (T.model table.now) (chars text.now) result }
{
    match first_unassigned_char(table, text) {
        Some((at, code)) => NpssFault::Unassigned { at, code },
        None => NpssFault::Memory,
    }
}

impl<T: NormTable + Drop> FoldedTable<T> {
    /// Writes the caseless keys of the code points at the front of a text, where they are told code point by code point and each
    /// has as many bytes as its code point, to the front of the room. Answers how many bytes that front has: each part of it, from
    /// one code point to another, has as its caseless key what was written at its place. The rest of the room may hold anything.
    /// Takes no memory.
    pub fn write_keys(&self, wanted: Form, text: &str, room: &mut [u8]) -> usize
        requires room { length text.now ≡ length room.now }
        ensures length { length room.new ≡ length room.old }
        ensures boundary { IsCharBoundary text.now result }
        ensures keys { IsEachPartKey self.now wanted (take result text.now) room.new }
    {
        self.meets_conditions();
        let known = self.known_images(wanted);
        if !known.lowers {
            return 0;
        }
        room.copy_from_slice(text.as_bytes());
        room.make_ascii_lowercase();
        let made = make_front(known, text, room);
        if made.apart {
            return made.count;
        }
        let keys = unsafe { from_utf8_unchecked(&room[..made.count]) };
        text.floor_char_boundary(quick_check_span(self.table(), wanted, keys))
    }

    /// The caseless key of a text by the images of its code points that are as long, where all have one.
    fn key_by_simple_images(
        &self,
        alloc: Global,
        wanted: Form,
        text: &str,
    ) -> Result<Option<String>, Memory>
        ensures key { IfOk result (λ made. IfSome made (λ t. IsCaseless self.now wanted (chars text.now) (chars (string_bytes t)))) }
        ensures assigned { IfOk result (λ made. IsSome made → IsAssigned self.now.version (chars text.now)) }
    {
        let mut room = Vec::new(alloc);
        room.resize(text.len(), 0)?;
        if self.write_keys(wanted, text, room.as_mut_slice()) < text.len() {
            return Ok(None);
        }
        Ok(Some(unsafe { String::from_utf8_unchecked(room) }))
    }

    /// The caseless key of a text by the images of its code points, where all are known and assigned.
    fn key_by_images(
        &self,
        alloc: Global,
        wanted: Form,
        text: &str,
    ) -> Result<Option<String>, Memory>
        ensures key { IfOk result (λ made. IfSome made (λ t. IsCaseless self.now wanted (chars text.now) (chars (string_bytes t)))) }
        ensures assigned { IfOk result (λ made. IsSome made → IsAssigned self.now.version (chars text.now)) }
    {
        self.meets_conditions();
        if let Some(key) = self.key_by_simple_images(alloc, wanted, text)? {
            return Ok(Some(key));
        }
        let Some(images) = image_text(alloc, self.images(wanted.compat()), text)? else {
            return Ok(None);
        };
        match into_npss(alloc, self.table(), wanted, images) {
            Ok(key) => Ok(Some(key)),
            Err(NpssFault::Unassigned { .. }) => Ok(None),
            Err(NpssFault::Memory) => Err(Memory),
        }
    }

    /// The caseless key of a text that is lent, as [`caseless_key`](crate::caseless_key) makes it, and quicker. Where the text is
    /// known to be its own caseless key, it is answered itself, and no memory is taken.
    ///
    /// # Errors
    ///
    /// `Unassigned` exactly where a code point of the text is not assigned, with the first such place in the text, not in its
    /// folding; `Memory` where memory ran out.
    pub fn key<'t>(
        &self,
        alloc: Global,
        wanted: Form,
        text: &'t str,
    ) -> Result<CowStr<'t>, NpssFault>
        ensures key { IfOk result (λ t. IsCaseless self.now wanted (chars text.now) (chars (cow_str_bytes t))) }
        ensures assigned { OnOk result (IsAssigned self.now.version (chars text.now)) }
        ensures fault { IfErr result (IsNpssFault self.now.version (chars text.now)) }
    {
        self.meets_conditions();
        if let Some(bytes) = self.ascii() {
            if ascii_front(text.as_bytes()) == text.len() {
                return match folded_text(alloc, bytes, text) {
                    Ok(key) => Ok(key),
                    Err(Memory) => Err(NpssFault::Memory),
                };
            }
        }
        if are_marked(self.images(wanted.compat()).own.as_slice(), text) {
            return lend_npss(alloc, self.table(), wanted, text);
        }
        match self.key_by_images(alloc, wanted, text) {
            Ok(Some(key)) => Ok(CowStr::Owned(key)),
            Ok(None) => {
                let key = caseless_key(alloc, self.table(), self.foldings(), wanted, text)?;
                Ok(CowStr::Owned(key))
            }
            Err(Memory) => Err(refusal(self.table(), text)),
        }
    }
}
