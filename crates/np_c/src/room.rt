//! Room that the caller lends.
ghost use Rattle.std.specs.Prelude.{◌≡◌, ◌+◌, ◌++◌, ◌^◌, ◌<◌, length};
ghost use Rattle.np_c.specs.Answers.{IsPut, IsPutTelling};

use crate::answers::{Answer, DONE, NO_ROOM};

/// Puts bytes to the front of the room, where they fit, and tells nothing beside their length.
pub fn put(bytes: &[u8], room: &mut [u8]) -> Answer
    ensures put { IsPut bytes.now room.old room.new result }
    ensures alone { result ≡ record { status = result.status; fault = 0; code = 0; place = 0; length = result.length } }
{
    let length = bytes.len();
    if length > room.len() {
        return Answer {
            length: length as u64,
            ..Answer::of(NO_ROOM)
        };
    }
    room[..length].copy_from_slice(bytes);
    Answer {
        length: length as u64,
        ..Answer::of(DONE)
    }
}

/// Puts bytes to the front of the room, and others right behind them, where both fit. The place of the others is told.
pub fn put_both(first: &[u8], second: &[u8], room: &mut [u8]) -> Answer
    requires { length first.now + length second.now < 2 ^ 64 }
    ensures { IsPutTelling (length first.now) (first.now ++ second.now) room.old room.new result }
{
    let place = first.len();
    let both = place + second.len();
    if both > room.len() {
        return Answer {
            place: place as u64,
            length: both as u64,
            ..Answer::of(NO_ROOM)
        };
    }
    room[..place].copy_from_slice(first);
    room[place..both].copy_from_slice(second);
    Answer {
        place: place as u64,
        length: both as u64,
        ..Answer::of(DONE)
    }
}
