//! What a node replies to an event.

/// The reply to one event of a schedule.
#[derive(Clone, Copy, Debug, PartialEq, Eq)]
pub enum Reply {
    /// The string was kept, and was sent as the message of this number, from 0.
    Sent { message: usize },
    /// What was delivered was kept.
    Kept,
    /// The string is kept already.
    Known,
    /// As many strings are kept as there is room for.
    Full,
    /// The string has more than 65,536 bytes.
    TooLong,
    /// The node's version doesn't assign `code`, whose byte place is `at`, from 0; the first such.
    Unassigned { at: usize, code: char },
    /// No message of that number was sent.
    NoMessage,
    /// The node has the version at this place of the chain now, from 0.
    Version { index: usize },
    /// The node has the chain's last version, and keeps it.
    LastVersion,
    /// What is kept was saved.
    Saved,
    /// The node keeps what it had saved, or nothing where it never did.
    Restarted,
    /// The string was kept, and isn't any more.
    Forgotten,
    /// The node doesn't keep the string, or one of two.
    NotKept,
    /// The two kept strings have one key: they are equivalent.
    Equal,
    /// The two kept strings have unlike keys: they are not equivalent.
    Different,
    /// What was forged is no message: `at` is the place, from 0, of its first field that isn't whole
    /// or isn't allowed, or of the first byte behind a whole message.
    Malformed { at: usize },
    /// What was forged is a message of another form.
    OtherForm,
    /// The string of a forged message isn't UTF-8; `at` is the length of its longest valid prefix.
    NotUtf8 { at: usize },
    /// The key of a forged message isn't that of its string.
    KeyDiffers,
    /// What was saved last needs a version with `need` assigned code points, and the one under which
    /// the node was to restart assigns `have`, which are fewer. The node is left as it was.
    OlderTables { need: u32, have: u32 },
}
