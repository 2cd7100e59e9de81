//! The functions that C calls over three files: caseless keys, of lines too, and matches, extension with foldings, foldings.
ghost use Rattle.std.specs.Prelude.{◌≡◌, None, IfSome};
ghost use Rattle.np_c.specs.Caseless.{IsCaselessKeyAnswer, IsMatchAnswer};
ghost use Rattle.np_c.specs.Contents.{Holds};
ghost use Rattle.np_c.specs.FoldingCodes.{IsFoldingAnswer};
ghost use Rattle.np_c.specs.FoldingExtension.{unfolded_of_two, IsFoldedExtensionAnswer};
ghost use Rattle.np_c.specs.FoldingFiles.{IsCaselessOpenAnswer};
ghost use Rattle.np_c.specs.Foldings.{folded_of, LacksFolding};
ghost use Rattle.np_c.specs.Lines.{IsCaselessAnswersAnswer};
ghost use Rattle.np_c.specs.Statuses.{alone};
ghost use Rattle.np_c.specs.Versions.{content_of, version_of};

use crate::answers::{Answer, CLOSED, DONE};
use crate::caseless::{caseless_key_by, tell_match};
use crate::folding_codes::write_folding;
use crate::folding_extension::tell_folded_extension;
use crate::folding_opening::shared_folded_of;
use crate::handles::Handle;
use crate::lines::{Asked, write_caseless_answers};
use std::alloc::Global;

/// Opens the handle on the version of three files with its foldings, and lets go of what it held. Where they make none it
/// holds what it held.
#[unsafe(no_mangle)]
pub extern "C" fn npss_open_caseless(
    alloc: Global,
    handle: &mut Handle,
    data_file: &[u8],
    exclusions_file: &[u8],
    folding_file: &[u8],
) -> Answer
    ensures { Holds (λ opened. IsCaselessOpenAnswer data_file.now exclusions_file.now folding_file.now opened result)
        (content_of handle.old) (content_of handle.new) }
{
    match shared_folded_of(alloc, data_file, exclusions_file, folding_file) {
        Ok(content) => {
            handle.exchange(alloc, content);
            Answer::of(DONE)
        }
        Err(answer) => answer,
    }
}

/// Writes the caseless key of a text into the room (The Unicode Standard, D145, and D146 under NFKD and NFKC). The form is one
/// of the letters `D`, `C`, `d` and `c`.
#[unsafe(no_mangle)]
pub extern "C" fn npss_caseless_key(
    alloc: Global,
    handle: &mut Handle,
    form: u8,
    text: &[u8],
    room: &mut [u8],
) -> Answer
    ensures same { content_of handle.new ≡ content_of handle.old }
    ensures key { IfSome (folded_of handle.old) (λ v. IsCaselessKeyAnswer v form text.now room.old room.new result) }
    ensures unfolded { LacksFolding handle.old → (result ≡ alone 26) × (room.new ≡ room.old) }
    ensures closed { version_of handle.old ≡ None → (result ≡ alone 5) × (room.new ≡ room.old) }
{
    match handle.take(alloc) {
        None => Answer::of(CLOSED),
        Some(content) => {
            let answer = caseless_key_by(alloc, &content, form, text, room);
            handle.put(content);
            answer
        }
    }
}

/// Writes the answers to the lines of a text into the room: `=` and the caseless key of the line, or `!` and why it has none.
#[unsafe(no_mangle)]
pub extern "C" fn npss_caseless_answers(
    alloc: Global,
    handle: &mut Handle,
    asked: &Asked,
    text: &[u8],
    room: &mut [u8],
) -> Answer
    ensures same { content_of handle.new ≡ content_of handle.old }
    ensures made { IfSome (folded_of handle.old) (λ v. IsCaselessAnswersAnswer v asked.now text.now room.old room.new result) }
    ensures unfolded { LacksFolding handle.old → (result ≡ alone 26) × (room.new ≡ room.old) }
    ensures closed { version_of handle.old ≡ None → (result ≡ alone 5) × (room.new ≡ room.old) }
{
    match handle.take_table(alloc) {
        None => Answer::of(CLOSED),
        Some((shared, content)) => {
            let answer = match shared.with_foldings() {
                Ok(folded) => write_caseless_answers(alloc, folded, asked, text, room),
                Err(answer) => answer,
            };
            handle.put_table(content, shared);
            answer
        }
    }
}

/// Whether two texts match caselessly: compatibly where `compat` (The Unicode Standard, D146), else canonically (D145).
#[unsafe(no_mangle)]
pub extern "C" fn npss_caseless_match(
    alloc: Global,
    handle: &mut Handle,
    compat: bool,
    left: &[u8],
    right: &[u8],
) -> Answer
    ensures same { content_of handle.new ≡ content_of handle.old }
    ensures told { IfSome (folded_of handle.old) (λ v. IsMatchAnswer v compat left.now right.now result) }
    ensures unfolded { LacksFolding handle.old → result ≡ alone 26 }
    ensures closed { version_of handle.old ≡ None → result ≡ alone 5 }
{
    match handle.take_table(alloc) {
        None => Answer::of(CLOSED),
        Some((shared, content)) => {
            let answer = match shared.with_foldings() {
                Ok(folded) => tell_match(alloc, folded, compat, left, right),
                Err(answer) => answer,
            };
            handle.put_table(content, shared);
            answer
        }
    }
}

/// Whether the version of the newer handle with its foldings extends that of the older one with its own; else the first break.
#[unsafe(no_mangle)]
pub extern "C" fn npss_caseless_extends(
    alloc: Global,
    older: &mut Handle,
    newer: &mut Handle,
) -> Answer
    ensures same_older { content_of older.new ≡ content_of older.old }
    ensures same_newer { content_of newer.new ≡ content_of newer.old }
    ensures told { IfSome (folded_of older.old) (λ old. IfSome (folded_of newer.old) (λ new. IsFoldedExtensionAnswer old new result)) }
    ensures older_unfolded { IfSome (version_of newer.old) (λ v. LacksFolding older.old → result ≡ unfolded_of_two 1) }
    ensures newer_unfolded { IfSome (folded_of older.old) (λ old. LacksFolding newer.old → result ≡ unfolded_of_two 2) }
    ensures older_closed { version_of older.old ≡ None → result ≡ alone 5 }
    ensures newer_closed { version_of newer.old ≡ None → result ≡ alone 5 }
{
    match older.take_table(alloc) {
        None => Answer::of(CLOSED),
        Some((old, old_content)) => {
            let answer = match newer.take_table(alloc) {
                None => Answer::of(CLOSED),
                Some((new, new_content)) => {
                    let answer = tell_folded_extension(&old, &new);
                    newer.put_table(new_content, new);
                    answer
                }
            };
            older.put_table(old_content, old);
            answer
        }
    }
}

/// Writes what a code point folds to into the room (The Unicode Standard, section 3.13): of one that isn't listed that is itself.
#[unsafe(no_mangle)]
pub extern "C" fn npss_folding(
    alloc: Global,
    handle: &mut Handle,
    code: u32,
    room: &mut [u8],
) -> Answer
    ensures same { content_of handle.new ≡ content_of handle.old }
    ensures made { IfSome (folded_of handle.old) (λ v. IsFoldingAnswer v code room.old room.new result) }
    ensures unfolded { LacksFolding handle.old → (result ≡ alone 26) × (room.new ≡ room.old) }
    ensures closed { version_of handle.old ≡ None → (result ≡ alone 5) × (room.new ≡ room.old) }
{
    match handle.take_table(alloc) {
        None => Answer::of(CLOSED),
        Some((shared, content)) => {
            let answer = match shared.with_foldings() {
                Ok(folded) => write_folding(alloc, folded, code, room),
                Err(answer) => answer,
            };
            handle.put_table(content, shared);
            answer
        }
    }
}
