//! The fields of messages and images, read.

use np_code_points::Form;

/// The marker of a key that is its string.
pub(crate) const SAME_KEY: u8 = 0;

/// The marker of a key that is another than its string, and follows.
pub(crate) const OTHER_KEY: u8 = 1;

/// Bytes that are read field by field, and the place up to which they are read.
#[derive(Drop)]
pub(crate) struct Fields<'b> {
    bytes: &'b [u8],
    at: usize,
    ghost within: { at ≤ length bytes.now },
}

/// A string and its key, as they stand in a message or an image.
#[derive(Clone, Copy)]
pub(crate) struct Told<'b> {
    pub string: &'b [u8],
    pub key: &'b [u8],
}

ghost use Rattle.std.specs.Prelude.{◌≤◌, ◌≡◌, ◌↔◌, length, IsTrue};

/// Whether the bytes are the same.
pub(crate) fn same_bytes(left: &[u8], right: &[u8]) -> bool
    ensures { IsTrue result ↔ (left.now ≡ right.now) }
{
    left == right
}

impl<'b> Fields<'b> {
    ghost use Rattle.std.specs.Prelude.{◌≡◌, ℕ, ◌+◌, ◌^◌, ◌<◌, ◌∷◌, [], IfOk, IfErr, IfSome, IfNone};
    ghost use Rattle.np_code_points.specs.Forms.{byte_of};
    ghost use Rattle.np_node.specs.Fields.{entry_bytes, field_bytes, marked_bytes, number_bytes, FitsFields};
    ghost use Rattle.np_node.specs.Fields.{IsEntryFault, IsFieldFault, IsMarkedFault, LacksForm};
    ghost use Rattle.np_node.specs.Images.{spelled_entry, IsSpellingFault};
    ghost use Rattle.np_node.specs.inside.Reading.{left_of, told_entry, Passes};

    /// A reader of all of the bytes.
    pub(crate) fn new(bytes: &'b [u8]) -> Self
        ensures { (result.bytes.now ≡ bytes.now) × (result.at ≡ 0) }
    {
        Fields { bytes, at: 0 }
    }

    /// How many bytes were read.
    pub(crate) fn place(&self) -> usize
        ensures { result ≡ self.now.at }
    {
        self.at
    }

    /// How many bytes are left.
    pub(crate) fn left(&self) -> usize
        ensures { result ≡ length (left_of self.now) }
    {
        self.bytes.len() - self.at
    }

    /// The next so many bytes, where there are so many.
    pub(crate) fn take(&mut self, count: usize) -> Option<&'b [u8]>
        ensures some { IfSome result (λ xs. Passes self.old self.new xs.now × (length xs.now ≡ count)) }
        ensures none { IfNone result ((length (left_of self.old) < count) × (self.new ≡ self.old)) }
    {
        if self.left() < count {
            return None;
        }
        let bytes = self.bytes;
        let from = self.at;
        self.at += count;
        Some(&bytes[from..from + count])
    }

    /// The form whose byte is next.
    pub(crate) fn form(&mut self) -> Option<Form>
        ensures some { IfSome result (λ form. Passes self.old self.new (byte_of form ∷ [])) }
        ensures none { IfNone result (LacksForm (left_of self.old)) }
    {
        let byte = self.take(1)?;
        Form::of_byte(byte[0])
    }

    /// The next number.
    pub(crate) fn number(&mut self) -> Option<u32>
        ensures some { IfSome result (λ n. Passes self.old self.new (number_bytes n) × (n < 2 ^ 32)) }
        ensures none { IfNone result (length (left_of self.old) < 4) }
    {
        let bytes = self.take(4)?;
        Some(u32::from_be_bytes([bytes[0], bytes[1], bytes[2], bytes[3]]))
    }

    /// The next list of bytes behind its length, or the offset of what is not whole.
    fn field(&mut self) -> Result<&'b [u8], usize>
        ensures ok { IfOk result (λ xs. Passes self.old self.new (field_bytes xs.now) × (length xs.now < 2 ^ 32)) }
        ensures err { IfErr result (λ at. (inner : ℕ) × IsFieldFault (left_of self.old) inner × (at ≡ self.old.at + inner)) }
    {
        let at = self.at;
        let Some(count) = self.number() else {
            return Err(at);
        };
        match self.take(count as usize) {
            Some(bytes) => Ok(bytes),
            None => Err(self.at),
        }
    }

    /// The next string and its key, or the offset of what is not whole.
    pub(crate) fn entry(&mut self) -> Result<Told<'b>, usize>
        ensures ok { IfOk result (λ told. Passes self.old self.new (entry_bytes (told_entry told)) × FitsFields (told_entry told)) }
        ensures err { IfErr result (λ at. (inner : ℕ) × IsEntryFault (left_of self.old) inner × (at ≡ self.old.at + inner)) }
    {
        let string = self.field()?;
        match self.field() {
            Ok(key) => Ok(Told { string, key }),
            Err(at) => Err(at),
        }
    }

    /// The next byte.
    fn byte(&mut self) -> Option<u8>
        ensures some { IfSome result (λ b. Passes self.old self.new (b ∷ [])) }
        ensures none { IfNone result (left_of self.old ≡ []) }
    {
        let byte = self.take(1)?;
        Some(byte[0])
    }

    /// The next string and its key, which a marker tells, or the offset of what is not whole or
    /// not allowed. It takes no memory: where the marker says that the key is the string, the
    /// key is lent once more.
    fn marked(&mut self) -> Result<Told<'b>, usize>
        ensures ok { IfOk result (λ told. Passes self.old self.new (marked_bytes (told_entry told)) × FitsFields (told_entry told)) }
        ensures err { IfErr result (λ at. (inner : ℕ) × IsMarkedFault (left_of self.old) inner × (at ≡ self.old.at + inner)) }
    {
        let string = self.field()?;
        let at = self.at;
        match self.byte() {
            Some(SAME_KEY) => Ok(Told {
                string,
                key: string,
            }),
            Some(OTHER_KEY) => match self.field() {
                Ok(key) if same_bytes(key, string) => Err(at),
                Ok(key) => Ok(Told { string, key }),
                Err(at) => Err(at),
            },
            Some(_) | None => Err(at),
        }
    }

    /// The next entry of an image that needs so many code points, as its layout spells it, or the
    /// offset of what is not whole or not allowed.
    pub(crate) fn spelled(&mut self, needs: Option<u32>) -> Result<Told<'b>, usize>
        ensures ok { IfOk result (λ told. Passes self.old self.new (spelled_entry needs (told_entry told)) × FitsFields (told_entry told)) }
        ensures err { IfErr result (λ at. (inner : ℕ) × IsSpellingFault needs (left_of self.old) inner × (at ≡ self.old.at + inner)) }
    {
        match needs {
            None => self.entry(),
            Some(_count) => self.marked(),
        }
    }
}
