//! The functions that C calls for a text that comes in pieces.
ghost use Rattle.std.specs.Prelude.{◌≡◌, None, IfSome, false};
ghost use Rattle.np_c.specs.Contents.{Holds};
ghost use Rattle.np_c.specs.Statuses.{alone};
ghost use Rattle.np_c.specs.StreamAnswers.{GoesOn, IsStreamAnswer, stream_of};
ghost use Rattle.np_c.specs.Streams.{IsFeedAnswer, IsFinishAnswer, IsTaken};
ghost use Rattle.np_c.specs.Versions.{content_of, version_of};

use crate::answers::{Answer, CLOSED, DONE};
use crate::handles::Handle;
use crate::stream_opening::stream_over;
use std::alloc::Global;

/// Opens the stream at the front of a text, and lets go of what the handle held. The form is one of the letters `D`, `C`, `d`
/// and `c`. After a refusal the handle holds what it held.
#[unsafe(no_mangle)]
pub extern "C" fn npss_stream_new(
    alloc: Global,
    stream: &mut Handle,
    tables: &mut Handle,
    form: u8,
) -> Answer
    ensures same { content_of tables.new ≡ content_of tables.old }
    ensures begun { IfSome (version_of tables.old) (λ v.
        Holds (λ opened. IsStreamAnswer v form opened result) (content_of stream.old) (content_of stream.new)) }
    ensures closed { version_of tables.old ≡ None → (result ≡ alone 5) × (content_of stream.new ≡ content_of stream.old) }
{
    match tables.take_table(alloc) {
        None => Answer::of(CLOSED),
        Some((shared, content)) => {
            let made = stream_over(alloc, &shared, form);
            tables.put_table(content, shared);
            match made {
                Ok(begun) => {
                    stream.exchange(alloc, begun);
                    Answer::of(DONE)
                }
                Err(answer) => answer,
            }
        }
    }
}

/// Goes on with the next piece of the text, which may begin and end within a character.
#[unsafe(no_mangle)]
pub extern "C" fn npss_stream_feed(alloc: Global, stream: &mut Handle, piece: &[u8]) -> Answer
    ensures fed { GoesOn (λ s t. IsFeedAnswer s t piece.now result) (stream_of stream.old) (stream_of stream.new) }
    ensures closed { stream_of stream.old ≡ None → (result ≡ alone 5) × (content_of stream.new ≡ content_of stream.old) }
{
    match stream.take_stream(alloc) {
        None => Answer::of(CLOSED),
        Some((mut kept, content)) => {
            let answer = kept.feed(alloc, piece);
            stream.put_stream(content, kept);
            answer
        }
    }
}

/// Writes as much as fits of what is ready to the front of the room.
#[unsafe(no_mangle)]
pub extern "C" fn npss_stream_take(alloc: Global, stream: &mut Handle, room: &mut [u8]) -> Answer
    ensures taken { GoesOn (λ s t. IsTaken s t room.old room.new result) (stream_of stream.old) (stream_of stream.new) }
    ensures closed { stream_of stream.old ≡ None → (result ≡ alone 5) × (content_of stream.new ≡ content_of stream.old) × (room.new ≡ room.old) }
{
    match stream.take_stream(alloc) {
        None => Answer::of(CLOSED),
        Some((mut kept, content)) => {
            let answer = kept.take(room);
            stream.put_stream(content, kept);
            answer
        }
    }
}

/// Ends the text.
#[unsafe(no_mangle)]
pub extern "C" fn npss_stream_finish(alloc: Global, stream: &mut Handle) -> Answer
    ensures finished { GoesOn (λ s t. IsFinishAnswer s t result) (stream_of stream.old) (stream_of stream.new) }
    ensures closed { stream_of stream.old ≡ None → (result ≡ alone 5) × (content_of stream.new ≡ content_of stream.old) }
{
    match stream.take_stream(alloc) {
        None => Answer::of(CLOSED),
        Some((mut kept, content)) => {
            let answer = kept.finish(alloc);
            stream.put_stream(content, kept);
            answer
        }
    }
}

/// Closes the stream. A closed one stays closed.
#[unsafe(no_mangle)]
pub extern "C" fn npss_stream_close(alloc: Global, stream: &mut Handle)
    ensures { stream.new.is_open ≡ false }
{
    let content = stream.take(alloc);
    drop(content);
}
