//! The statuses of the jobs, and of words that ask for none of them.

/// A job that is done, and whose answer is yes where it has one.
pub const DONE: u8 = 0;

/// A job whose answer is no, and versions that do not extend one another.
pub const DIFFERENT: u8 = 1;

/// Words that ask for nothing that there is.
pub const USAGE: u8 = 2;

/// A code point that is not assigned.
pub const UNASSIGNED: u8 = 3;

/// Bad data, text or schedule.
pub const BAD: u8 = 4;

/// A device that failed, or a file that can't be opened.
pub const FAILED: u8 = 5;

/// Want of memory.
pub const MEMORY: u8 = 6;
