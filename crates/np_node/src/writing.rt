//! The fields of messages and images, written into room that has place for them.
ghost use Rattle.std.specs.Prelude.{◌≡◌, ◌+◌, ◌^◌, ◌<◌, ◌≤◌, length};
ghost use Rattle.np_node.specs.Fields.{entry_bytes, field_bytes, marked_bytes, number_bytes};
ghost use Rattle.np_node.specs.inside.Writing.{IsWritten};

use crate::fields::{OTHER_KEY, SAME_KEY, same_bytes};

/// Puts bytes at a place, and answers the place behind them.
pub(crate) fn put_bytes(room: &mut [u8], at: usize, bytes: &[u8]) -> usize
    requires { at + length bytes.now ≤ length room.old }
    ensures { IsWritten room.old room.new at result bytes.now }
{
    let end = at + bytes.len();
    room[at..end].copy_from_slice(bytes);
    end
}

/// Puts a number.
#[tactic(auto, unfolding(crate::specs::Fields::number_bytes))]
pub(crate) fn put_number(room: &mut [u8], at: usize, number: u32) -> usize
    requires { at + 4 ≤ length room.old }
    ensures { IsWritten room.old room.new at result (number_bytes number) }
{
    put_bytes(room, at, &number.to_be_bytes())
}

/// Puts a list of bytes behind its length.
fn put_field(room: &mut [u8], at: usize, bytes: &[u8]) -> usize
    requires fits { length bytes.now < 2 ^ 32 }
    requires room { at + 4 + length bytes.now ≤ length room.old }
    ensures { IsWritten room.old room.new at result (field_bytes bytes.now) }
{
    let behind = put_number(room, at, bytes.len() as u32);
    put_bytes(room, behind, bytes)
}

/// Puts a string and its key.
pub(crate) fn put_entry(room: &mut [u8], at: usize, string: &[u8], key: &[u8]) -> usize
    requires string { length string.now < 2 ^ 32 }
    requires key { length key.now < 2 ^ 32 }
    requires room { at + 8 + (length string.now + length key.now) ≤ length room.old }
    ensures { IsWritten room.old room.new at result (entry_bytes (record { string = string.now; key = key.now })) }
{
    let behind = put_field(room, at, string);
    put_field(room, behind, key)
}

/// Puts a string, and its key behind a marker, where it is another.
pub(crate) fn put_marked(room: &mut [u8], at: usize, string: &[u8], key: &[u8]) -> usize
    requires string { length string.now < 2 ^ 32 }
    requires key { length key.now < 2 ^ 32 }
    requires room { at + length (marked_bytes (record { string = string.now; key = key.now })) ≤ length room.old }
    ensures { IsWritten room.old room.new at result (marked_bytes (record { string = string.now; key = key.now })) }
{
    let behind = put_field(room, at, string);
    if same_bytes(key, string) {
        return put_bytes(room, behind, &[SAME_KEY]);
    }
    let other = put_bytes(room, behind, &[OTHER_KEY]);
    put_field(room, other, key)
}

/// How many bytes a string and its key have.
pub(crate) fn entry_length(string: &[u8], key: &[u8]) -> usize
    requires string { length string.now < 2 ^ 32 }
    requires key { length key.now < 2 ^ 32 }
    ensures { result ≡ length (entry_bytes (record { string = string.now; key = key.now })) }
{
    8 + (string.len() + key.len())
}

/// How many bytes a string has, with its key behind a marker, where it is another.
pub(crate) fn marked_length(string: &[u8], key: &[u8]) -> usize
    requires string { length string.now < 2 ^ 32 }
    requires key { length key.now < 2 ^ 32 }
    ensures { result ≡ length (marked_bytes (record { string = string.now; key = key.now })) }
{
    if same_bytes(key, string) {
        5 + string.len()
    } else {
        9 + (string.len() + key.len())
    }
}
