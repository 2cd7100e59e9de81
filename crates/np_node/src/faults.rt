//! Why a node refuses.
ghost use Rattle.std.specs.Prelude.{◌≡◌};
ghost use Rattle.np_node.specs.Names.{name_of};

use np_code_points::Memory;
use std::error::Error as StdError;
use std::fmt;
use thiserror::Error;

/// Why a string, a message or an image is refused.
#[derive(Clone, Copy, PartialEq, Eq, Error)]
pub enum NodeFault {
    /// The bytes are no message, or no image. `at` is the offset, from 0, of the first field that
    /// is not whole or not allowed, or of the first byte left over.
    #[error("malformed at byte {at}")]
    Malformed { at: usize },
    /// The message or image is of another form than the node.
    #[error("another form")]
    OtherForm,
    /// The string has more than 65,536 bytes.
    #[error("too long: more than 65,536 bytes")]
    TooLong,
    /// The string is not UTF-8: its longest prefix that is has `at` bytes.
    #[error("not UTF-8 at byte {at}")]
    NotUtf8 { at: usize },
    /// A code point of the string is not assigned. `at` is the byte place, from 0, of the first
    /// one in the string.
    #[error("unassigned {code:04X} at byte {at}", code = u32::from(*.code))]
    Unassigned { at: usize, code: char },
    /// The key that came with the string is not the bytes of its normal form.
    #[error("key differs")]
    KeyDiffers,
    /// There are as many strings as the room.
    #[error("full")]
    Full,
    /// Memory ran out.
    #[error("out of memory")]
    Memory,
    /// The image was saved under a version with `need` assigned code points, and the version of
    /// the table has fewer, `have` of them.
    #[error("older tables: need {need} code points, have {have}")]
    OlderTables { need: u32, have: u32 },
}

/// Shows the fault as it is told.
impl fmt::Debug for NodeFault {
    fn fmt<W: fmt::Write>(&self, f: &mut fmt::Formatter<W>) -> fmt::Result {
        fmt::Display::fmt(self, f)
    }
}

impl NodeFault {
    /// The name of the fault, as its variant is written.
    pub fn name(&self) -> &'static str
        ensures { result.now ≡ name_of self.now }
    {
        match self {
            NodeFault::Malformed { .. } => "Malformed",
            NodeFault::OtherForm => "OtherForm",
            NodeFault::TooLong => "TooLong",
            NodeFault::NotUtf8 { .. } => "NotUtf8",
            NodeFault::Unassigned { .. } => "Unassigned",
            NodeFault::KeyDiffers => "KeyDiffers",
            NodeFault::Full => "Full",
            NodeFault::Memory => "Memory",
            NodeFault::OlderTables { .. } => "OlderTables",
        }
    }
}

impl From<Memory> for NodeFault {
    ghost use Rattle.std.specs.Prelude.{◌≡◌};
    ghost use Rattle.np_node.specs.declared.faults.NodeFault.TheVariants.{Memory as OutOfMemory};

    ghost from_gives = { λ _ e. e ≡ OutOfMemory };

    fn from(_refused: Memory) -> NodeFault {
        NodeFault::Memory
    }
}

/// Why an image is refused.
#[derive(Clone, Copy, Debug, PartialEq, Eq)]
pub struct ImageFault {
    /// The number, from 0, of the entry that is refused; none where the whole image is.
    pub entry: Option<u32>,
    /// What is wrong.
    pub fault: NodeFault,
}

impl fmt::Display for ImageFault {
    fn fmt<W: fmt::Write>(&self, f: &mut fmt::Formatter<W>) -> fmt::Result {
        match self.entry {
            Some(number) => write!(f, "entry {number}: {}", self.fault),
            None => write!(f, "{}", self.fault),
        }
    }
}

impl StdError for ImageFault {}
