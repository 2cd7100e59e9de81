//! The text of a report.
ghost use Rattle.std.specs.Prelude.{◌≡◌, ◌++◌, chars, flat_map, map, IfOk, string_bytes};
ghost use Rattle.std.specs.Fmt.{decimal};
ghost use Rattle.std.specs.List.{enumerate_from};
ghost use Rattle.np_code_points.specs.Codes.{code_digits};
ghost use Rattle.np_world.specs.Reports.{node_report};
ghost use Rattle.np_world.specs.inside.Views.{placed_of};
ghost use Rattle.np_world.specs.inside.ReportWriting.{gap};
ghost use Rattle.np_world.specs.declared.replies.Reply.TheVariants.{OlderTables};
ghost use Rattle.np_world.specs.ReportTexts.{codes_text, entry_line, node_lines, reply_line, reply_text, text_of_report};

use crate::replay_nodes::ReplayNode;
use crate::replies::Reply;
use crate::report::Report;
use np_code_points::Memory;
use np_code_points::codes::{write_code, write_unassigned};
use np_node::Node;
use np_versions::NormTable;
use std::alloc::Global;

/// Adds a code point in hex digits, behind a space where it isn't the first.
fn write_next(out: &mut String, is_first: bool, code: char) -> Result<(), Memory>
    ensures { IfOk result (λ _. string_bytes out.new ≡ string_bytes out.old ++ (gap is_first ++ code_digits code)) }
{
    if !is_first {
        out.push_str(" ")?;
    }
    write_code(out, u32::from(code))
}

/// Adds the code points of a text in hex digits with a space between; a dash where there are none.
fn write_codes(out: &mut String, text: &str) -> Result<(), Memory>
    ensures { IfOk result (λ _. string_bytes out.new ≡ string_bytes out.old ++ codes_text (chars text.now)) }
{
    let mut is_first = true;
    for code in text.chars() {
        write_next(out, is_first, code)?;
        is_first = false;
    }
    if is_first {
        out.push_str("-")?;
    }
    Ok(())
}

/// Adds a reply that names two counts of code points.
fn write_older(out: &mut String, need: u32, have: u32) -> Result<(), Memory>
    ensures { IfOk result (λ _. string_bytes out.new ≡ string_bytes out.old ++ reply_text (OlderTables need have)) }
{
    write!(out, "older tables {need} {have}")?;
    Ok(())
}

/// Adds words.
fn write_words(out: &mut String, words: &str) -> Result<(), Memory>
    ensures { IfOk result (λ _. string_bytes out.new ≡ string_bytes out.old ++ words.now) }
{
    out.push_str(words)?;
    Ok(())
}

/// Adds words and a number behind them.
fn write_number(out: &mut String, words: &str, number: usize) -> Result<(), Memory>
    ensures { IfOk result (λ _. string_bytes out.new ≡ string_bytes out.old ++ (words.now ++ decimal number)) }
{
    out.push_str(words)?;
    write!(out, "{number}")?;
    Ok(())
}

/// Adds a reply.
fn write_reply(out: &mut String, reply: &Reply) -> Result<(), Memory>
    ensures { IfOk result (λ _. string_bytes out.new ≡ string_bytes out.old ++ reply_text reply.now) }
{
    match *reply {
        Reply::Sent { message } => write_number(out, "kept ", message),
        Reply::Kept => write_words(out, "kept"),
        Reply::Known => write_words(out, "known"),
        Reply::Full => write_words(out, "full"),
        Reply::TooLong => write_words(out, "too long"),
        Reply::Unassigned { at, code } => write_unassigned(out, at, code),
        Reply::NoMessage => write_words(out, "no message"),
        Reply::Version { index } => write_number(out, "version ", index),
        Reply::LastVersion => write_words(out, "last version"),
        Reply::Saved => write_words(out, "saved"),
        Reply::Restarted => write_words(out, "restarted"),
        Reply::Forgotten => write_words(out, "forgotten"),
        Reply::NotKept => write_words(out, "not kept"),
        Reply::Equal => write_words(out, "equal"),
        Reply::Different => write_words(out, "different"),
        Reply::Malformed { at } => write_number(out, "malformed at ", at),
        Reply::OtherForm => write_words(out, "other form"),
        Reply::NotUtf8 { at } => write_number(out, "not UTF-8 at byte ", at),
        Reply::KeyDiffers => write_words(out, "key differs"),
        Reply::OlderTables { need, have } => write_older(out, need, have),
    }
}

/// Adds the line of an event.
fn write_reply_line(out: &mut String, event: usize, reply: &Reply) -> Result<(), Memory>
    ensures { IfOk result (λ _. string_bytes out.new ≡ string_bytes out.old ++ reply_line event reply.now) }
{
    write!(out, "{event} ")?;
    write_reply(out, reply)?;
    out.push_str("\n")?;
    Ok(())
}

/// Adds the line of a string that is kept.
fn write_entry(out: &mut String, string: &str, key: &str) -> Result<(), Memory>
    ensures { IfOk result (λ _. string_bytes out.new ≡ string_bytes out.old ++ entry_line (record { string = string.now; key = key.now })) }
{
    out.push_str("entry ")?;
    write_codes(out, string)?;
    out.push_str(" / ")?;
    write_codes(out, key)?;
    out.push_str("\n")?;
    Ok(())
}

/// Adds a line for each string that a node keeps.
fn write_entries<T: NormTable>(out: &mut String, node: &Node<'_, T>) -> Result<(), Memory>
    ensures { IfOk result (λ _. string_bytes out.new ≡ string_bytes out.old ++ flat_map entry_line node.now.entries) }
{
    for number in 0..node.len() {
        if let Some((string, key)) = node.entry(number) {
            write_entry(out, string, key)?;
        }
    }
    Ok(())
}

/// Adds the lines of a node.
fn write_node<T: NormTable>(
    out: &mut String,
    number: usize,
    replay_node: &ReplayNode<'_, T>,
) -> Result<(), Memory>
    ensures { IfOk result (λ _. string_bytes out.new ≡ string_bytes out.old ++ node_lines number (node_report (placed_of replay_node.now))) }
{
    let index = replay_node.index;
    let entries = replay_node.node.len();
    write!(out, "node {number} version {index} entries {entries}\n")?;
    write_entries(out, &replay_node.node)
}

/// Adds the lines of the events.
fn write_replies(out: &mut String, replies: &[Reply]) -> Result<(), Memory>
    ensures { IfOk result (λ _. string_bytes out.new ≡ string_bytes out.old ++ flat_map (λ p. reply_line p.0 p.1) (enumerate_from 0 replies.now)) }
{
    for event in 0..replies.len() {
        write_reply_line(out, event, &replies[event])?;
    }
    Ok(())
}

/// Adds the lines of the nodes.
fn write_nodes<T: NormTable>(
    out: &mut String,
    replay_nodes: &[ReplayNode<'_, T>],
) -> Result<(), Memory>
    ensures { IfOk result (λ _. string_bytes out.new ≡ string_bytes out.old ++
        flat_map (λ p. node_lines p.0 p.1) (enumerate_from 0 (map node_report (map placed_of replay_nodes.now)))) }
{
    for number in 0..replay_nodes.len() {
        write_node(out, number, &replay_nodes[number])?;
    }
    Ok(())
}

/// The text of a report, in lines that end with LF. For each event it has a line with the event's number,
/// from 0, and the reply. Then comes for each node in order `node I version V entries N`, with the node's
/// number, the place of its version in the chain and how many strings it keeps. Behind it stands for each of
/// these strings a line `entry STRING / KEY`. Code points are written in at least four upper-case hex digits
/// with one space between, and a dash stands where there are none. The time is linear in the text's length.
///
/// # Errors
///
/// `Memory` where memory ran out.
pub fn report_text<T: NormTable>(alloc: Global, report: &Report<'_, T>) -> Result<String, Memory>
    ensures text { IfOk result (λ text. string_bytes text ≡ text_of_report report.now) }
{
    let mut text = String::new(alloc);
    write_replies(&mut text, report.replies.as_slice())?;
    write_nodes(&mut text, report.replay_nodes.as_slice())?;
    Ok(text)
}
