//! The functions that C calls. Each takes what its handle holds, and puts it back.
ghost use Rattle.std.specs.Prelude.{◌≡◌, false, None, IfSome};
ghost use Rattle.np_versions.specs.Conditions.{IsSound};
ghost use Rattle.np_versions.specs.Counts.{assigned_count};
ghost use Rattle.np_c.specs.Answers.{IsEquivalentAnswer, IsExtensionAnswer, IsFormAnswer, IsKeyAnswer, IsOpenAnswer, IsOwnFormAnswer, IsShareAnswer};
ghost use Rattle.np_c.specs.Ascii.{IsAsciiAnswer};
ghost use Rattle.np_c.specs.Lines.{IsAnswersAnswer};
ghost use Rattle.np_c.specs.Contents.{Holds};
ghost use Rattle.np_c.specs.Foldings.{folded_of};
ghost use Rattle.np_c.specs.Statuses.{alone, with_length};
ghost use Rattle.np_c.specs.Versions.{content_of, version_of};

use crate::answers::{Answer, CLOSED, DONE, MEMORY};
use crate::comparing::{tell_ascii, tell_equivalent, tell_extension, tell_form_by};
use crate::handles::Handle;
use crate::keys::{form_by, key_by};
use crate::lines::{Asked, write_answers};
use crate::opening::{another_of, shared_of};
use np_versions::NormTable;
use std::alloc::Global;

/// Opens the handle on the version of two files, and lets go of what it held. Where they make none it holds what it held.
#[unsafe(no_mangle)]
pub extern "C" fn npss_open(
    alloc: Global,
    handle: &mut Handle,
    data_file: &[u8],
    exclusions_file: &[u8],
) -> Answer
    ensures opened { Holds (λ opened. IsOpenAnswer data_file.now exclusions_file.now opened result) (content_of handle.old) (content_of handle.new) }
    ensures unfolded { result ≡ alone 0 → folded_of handle.new ≡ None }
{
    match shared_of(alloc, data_file, exclusions_file) {
        Ok(content) => {
            handle.exchange(alloc, content);
            Answer::of(DONE)
        }
        Err(answer) => answer,
    }
}

/// Opens the other handle on the version of the handle, for another thread, and lets go of what it held: both share the table.
/// After a refusal it holds what it held.
#[unsafe(no_mangle)]
pub extern "C" fn npss_share(alloc: Global, handle: &mut Handle, other: &mut Handle) -> Answer
    ensures same { content_of handle.new ≡ content_of handle.old }
    ensures shared { IfSome (version_of handle.old) (λ v. Holds (λ opened. IsShareAnswer v opened result) (content_of other.old) (content_of other.new)) }
    ensures folded { result ≡ alone 0 → folded_of other.new ≡ folded_of handle.old }
    ensures closed { version_of handle.old ≡ None → (result ≡ alone 5) × (content_of other.new ≡ content_of other.old) }
{
    match handle.take_table(alloc) {
        None => Answer::of(CLOSED),
        Some((shared, content)) => {
            let made = another_of(alloc, &shared);
            handle.put_table(content, shared);
            match made {
                Ok(second) => {
                    other.exchange(alloc, second);
                    Answer::of(DONE)
                }
                Err(_) => Answer::of(MEMORY),
            }
        }
    }
}

/// Writes the key of a text into the room: its stabilized string (UAX #15, section 12). The form is one of the
/// letters `D`, `C`, `d` and `c`.
#[unsafe(no_mangle)]
pub extern "C" fn npss_key(
    alloc: Global,
    handle: &mut Handle,
    form: u8,
    text: &[u8],
    room: &mut [u8],
) -> Answer
    ensures same { content_of handle.new ≡ content_of handle.old }
    ensures key { IfSome (version_of handle.old) (λ v. IsKeyAnswer v form text.now room.old room.new result) }
    ensures closed { version_of handle.old ≡ None → (result ≡ alone 5) × (room.new ≡ room.old) }
{
    match handle.take(alloc) {
        None => Answer::of(CLOSED),
        Some(mut content) => {
            let answer = key_by(&mut content, form, text, room);
            handle.put(content);
            answer
        }
    }
}

/// Writes the normal form of a text into the room, whether or not its code points are assigned.
#[unsafe(no_mangle)]
pub extern "C" fn npss_normalize(
    alloc: Global,
    handle: &mut Handle,
    form: u8,
    text: &[u8],
    room: &mut [u8],
) -> Answer
    ensures same { content_of handle.new ≡ content_of handle.old }
    ensures made { IfSome (version_of handle.old) (λ v. IsFormAnswer v form text.now room.old room.new result) }
    ensures closed { version_of handle.old ≡ None → (result ≡ alone 5) × (room.new ≡ room.old) }
{
    match handle.take(alloc) {
        None => Answer::of(CLOSED),
        Some(mut content) => {
            let answer = form_by(&mut content, form, text, room);
            handle.put(content);
            answer
        }
    }
}

/// Writes the answers to the lines of a text into the room: `=` and the key of the line, or `!` and why it has none.
#[unsafe(no_mangle)]
pub extern "C" fn npss_answers(
    alloc: Global,
    handle: &mut Handle,
    asked: &Asked,
    text: &[u8],
    room: &mut [u8],
) -> Answer
    ensures same { content_of handle.new ≡ content_of handle.old }
    ensures made { IfSome (version_of handle.old) (λ v. IsAnswersAnswer v asked.now text.now room.old room.new result) }
    ensures closed { version_of handle.old ≡ None → (result ≡ alone 5) × (room.new ≡ room.old) }
{
    match handle.take_table(alloc) {
        None => Answer::of(CLOSED),
        Some((shared, content)) => {
            let answer = write_answers(alloc, &*shared.table, asked, text, room);
            handle.put_table(content, shared);
            answer
        }
    }
}

/// Whether a text is its own normal form.
#[unsafe(no_mangle)]
pub extern "C" fn npss_is_form(alloc: Global, handle: &mut Handle, form: u8, text: &[u8]) -> Answer
    ensures same { content_of handle.new ≡ content_of handle.old }
    ensures told { IfSome (version_of handle.old) (λ v. IsOwnFormAnswer v form text.now result) }
    ensures closed { version_of handle.old ≡ None → result ≡ alone 5 }
{
    match handle.take(alloc) {
        None => Answer::of(CLOSED),
        Some(content) => {
            let answer = tell_form_by(alloc, &content, form, text);
            handle.put(content);
            answer
        }
    }
}

/// Whether each text of ASCII is known to be its own key under a form, so that a host which knows that a text is ASCII
/// need not ask for its key.
#[unsafe(no_mangle)]
pub extern "C" fn npss_keeps_ascii(alloc: Global, handle: &mut Handle, form: u8) -> Answer
    ensures same { content_of handle.new ≡ content_of handle.old }
    ensures told { IfSome (version_of handle.old) (λ v. IsAsciiAnswer v form result) }
    ensures closed { version_of handle.old ≡ None → result ≡ alone 5 }
{
    match handle.take_table(alloc) {
        None => Answer::of(CLOSED),
        Some((shared, content)) => {
            let answer = tell_ascii(&*shared.table, form);
            handle.put_table(content, shared);
            answer
        }
    }
}

/// Whether two texts are equivalent: compatible where `compat`, else canonical equivalents.
#[unsafe(no_mangle)]
pub extern "C" fn npss_equivalent(
    alloc: Global,
    handle: &mut Handle,
    compat: bool,
    left: &[u8],
    right: &[u8],
) -> Answer
    ensures same { content_of handle.new ≡ content_of handle.old }
    ensures told { IfSome (version_of handle.old) (λ v. IsEquivalentAnswer v compat left.now right.now result) }
    ensures closed { version_of handle.old ≡ None → result ≡ alone 5 }
{
    match handle.take_table(alloc) {
        None => Answer::of(CLOSED),
        Some((shared, content)) => {
            let answer = tell_equivalent(alloc, &*shared.table, compat, left, right);
            handle.put_table(content, shared);
            answer
        }
    }
}

/// Whether the version of the newer handle extends that of the older one; else the first break.
#[unsafe(no_mangle)]
pub extern "C" fn npss_extends(alloc: Global, older: &mut Handle, newer: &mut Handle) -> Answer
    ensures same_older { content_of older.new ≡ content_of older.old }
    ensures same_newer { content_of newer.new ≡ content_of newer.old }
    ensures told { IfSome (version_of older.old) (λ old. IfSome (version_of newer.old) (λ new. IsExtensionAnswer old new result)) }
    ensures older_closed { version_of older.old ≡ None → result ≡ alone 5 }
    ensures newer_closed { version_of newer.old ≡ None → result ≡ alone 5 }
{
    match older.take_table(alloc) {
        None => Answer::of(CLOSED),
        Some((old, old_content)) => {
            let answer = match newer.take_table(alloc) {
                None => Answer::of(CLOSED),
                Some((new, new_content)) => {
                    let answer = tell_extension(old.table.version(), new.table.version());
                    newer.put_table(new_content, new);
                    answer
                }
            };
            older.put_table(old_content, old);
            answer
        }
    }
}

/// How many code points the version assigns: the length of the answer.
#[unsafe(no_mangle)]
pub extern "C" fn npss_count(alloc: Global, handle: &mut Handle) -> Answer
    ensures same { content_of handle.new ≡ content_of handle.old }
    ensures count { IfSome (version_of handle.old) (λ v. result ≡ with_length 0 (assigned_count v)) }
    ensures sound { IfSome (version_of handle.old) IsSound }
    ensures closed { version_of handle.old ≡ None → result ≡ alone 5 }
{
    match handle.take_table(alloc) {
        None => Answer::of(CLOSED),
        Some((shared, content)) => {
            let count = shared.table.version().count();
            shared.table.meets_conditions();
            handle.put_table(content, shared);
            Answer {
                length: u64::from(count),
                ..Answer::of(DONE)
            }
        }
    }
}

/// Closes the handle. A closed one stays closed.
#[unsafe(no_mangle)]
pub extern "C" fn npss_close(alloc: Global, handle: &mut Handle)
    ensures { handle.new.is_open ≡ false }
{
    let content = handle.take(alloc);
    drop(content);
}
