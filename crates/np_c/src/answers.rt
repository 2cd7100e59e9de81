//! How a call ended.
ghost use Rattle.std.specs.Prelude.{◌≡◌};

/// What was asked for is done; or, of a question, yes.
pub const DONE: u32 = 0;
/// A code point of the text is not assigned in the version.
pub const UNASSIGNED: u32 = 1;
/// The bytes are not UTF-8.
pub const NOT_UTF8: u32 = 2;
/// What is made is longer than the room.
pub const NO_ROOM: u32 = 3;
/// Memory ran out.
pub const MEMORY: u32 = 4;
/// The handle holds nothing, or another thing than the call's.
pub const CLOSED: u32 = 5;
/// The form is none of the four letters.
pub const NO_FORM: u32 = 6;
/// UnicodeData.txt has a fault.
pub const DATA: u32 = 7;
/// CompositionExclusions.txt has a fault.
pub const EXCLUSIONS: u32 = 8;
/// The tables that the two files make have a fault.
pub const TABLES: u32 = 9;
/// A file is too large.
pub const TOO_LARGE: u32 = 10;
/// Of a question: no.
pub const DIFFERENT: u32 = 11;
/// The byte that is to end lines is neither 10 nor 0.
pub const NO_END: u32 = 12;
/// The string was kept already.
pub const KNOWN: u32 = 13;
/// No such string, or no such entry, is kept.
pub const NOT_KEPT: u32 = 14;
/// A string has more than 65,536 bytes, or more than 18,446,744,073,709,551,615 came to a stream.
pub const TOO_LONG: u32 = 15;
/// The node keeps as many strings as its room.
pub const FULL: u32 = 16;
/// The bytes are no message, or no image.
pub const MALFORMED: u32 = 17;
/// The message or image is of another form.
pub const OTHER_FORM: u32 = 18;
/// The key beside the string is not the string's key.
pub const KEY_DIFFERS: u32 = 19;
/// The image was saved under a version with more code points.
pub const OLDER_TABLES: u32 = 20;
/// An entry of the image is refused.
pub const BAD_ENTRY: u32 = 21;
/// A node has no room for so many strings.
pub const BAD_ROOM: u32 = 22;
/// The number is no code point.
pub const NO_CODE: u32 = 23;
/// CaseFolding.txt has a fault.
pub const FOLDING: u32 = 24;
/// The version has a fault with its foldings.
pub const FOLDINGS: u32 = 25;
/// The handle was opened without CaseFolding.txt.
pub const NO_FOLDING: u32 = 26;

/// How a call ended. What a status has no use for is 0.
#[repr(C)]
#[derive(Clone, Copy, Debug, PartialEq, Eq)]
pub struct Answer {
    /// One of the numbers above.
    pub status: u32,
    /// The number of a fault or of a break, or which of the files or texts is meant, from 1; 1 where a line was
    /// refused; or the status of an entry's refusal.
    pub fault: u32,
    /// A code point.
    pub code: u32,
    /// A byte place from 0, or a line from 1; the length of an entry's string; or how many code points an image needs.
    pub place: u64,
    /// How many bytes were written, or have room wanted; how many code points are assigned, or strings kept; or an
    /// entry's number.
    pub length: u64,
}

impl Answer {
    /// A status alone.
    pub fn of(status: u32) -> Answer
        ensures { result ≡ record { status = status; fault = 0; code = 0; place = 0; length = 0 } }
    {
        Answer {
            status,
            fault: 0,
            code: 0,
            place: 0,
            length: 0,
        }
    }
}
