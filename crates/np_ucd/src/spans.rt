//! The lines of CompositionExclusions.txt.
ghost use Rattle.std.specs.Prelude.{◌≡◌, ◌++◌, ℕ, [], map, option_map, OnOk, IfOk, IfErr, None};
ghost use Rattle.np_ucd.specs.Listed.{is_listed};
ghost use Rattle.np_ucd.specs.inside.ExclusionReading.{before_blanks as back_dropped, span_between as span_from, if_dotted, span_value, line_spans, fault_at};
ghost use Rattle.np_ucd.specs.inside.ExclusionReading.{and_spans, exclusions_fault, spans_in};
ghost use Rattle.np_ucd.specs.inside.RecordValues.{IsMemoryOr};
ghost use Rattle.np_ucd.specs.inside.SpanValues.{span_of, spans_of_listing};

use crate::exclusions::{Exclusions, Listing};
use crate::faults::UcdFault;
use np_code_points::codes::code_of;
use np_code_points::lines::{DataLine, DataLines, cut, is_blank};
use np_code_points::words::{Dividers, after_dividers};
use std::alloc::Global;

/// The text without the spaces and tabs at its end.
fn before_blanks(text: &[u8]) -> &[u8]
    ensures { result.now ≡ back_dropped text.now }
{
    let mut end = text.len();
    while end > 0 && is_blank(text[end - 1]) {
        end -= 1;
    }
    &text[..end]
}

/// The code points from one to another, where both are codes and they rise.
fn span_between(first: &[u8], last: &[u8]) -> Option<Listing>
    ensures { option_map span_of result ≡ span_from first.now last.now }
{
    let first = code_of(first)?;
    let last = code_of(last)?;
    if first <= last {
        Some(Listing { first, last })
    } else {
        None
    }
}

/// The code points of a text `X` or `X..Y`.
#[tactic(auto, unfolding(crate::specs::inside::ExclusionReading::span_value))]
fn read_span(text: &[u8]) -> Option<Listing>
    ensures { option_map span_of result ≡ span_value text.now }
{
    let (first, behind) = cut(text, b'.');
    match behind {
        None => span_between(first, first),
        Some([b'.', last @ ..]) => span_between(first, last),
        Some(_) => None,
    }
}

/// What a line lists, where it can be read: nothing, or some code points.
#[tactic(auto, unfolding(crate::specs::inside::ExclusionReading::line_spans))]
fn read_line(line: &[u8]) -> Option<Option<Listing>>
    ensures { option_map spans_of_listing result ≡ line_spans line.now }
{
    let (text, _comment) = cut(line, b'#');
    let text = before_blanks(after_dividers(text, Dividers::Blanks));
    if text.is_empty() {
        return Some(None);
    }
    match read_span(text) {
        Some(listing) => Some(Some(listing)),
        None => None,
    }
}

/// Adds what a line lists.
fn take_line(listings: &mut Vec<Listing>, line: DataLine<'_>) -> Result<(), UcdFault>
    ensures fine { OnOk result (fault_at line.entry.number (line_spans line.entry.text.now) None ≡ None) }
    ensures spans { OnOk result (map span_of listings.new.items ≡ map span_of listings.old.items ++ and_spans (line_spans line.entry.text.now) []) }
    ensures fault { IfErr result (λ e. IsMemoryOr (fault_at line.entry.number (line_spans line.entry.text.now) None) e) }
{
    match read_line(line.text) {
        None => Err(UcdFault::BadCode { line: line.number }),
        Some(None) => Ok(()),
        Some(Some(listing)) => {
            listings.push(listing)?;
            Ok(())
        }
    }
}

/// Reads what a file's bytes list, or finds its first fault.
fn take_spans(listings: &mut Vec<Listing>, bytes: &[u8]) -> Result<(), UcdFault>
    requires { listings.old.items ≡ [] }
    ensures fine { OnOk result (exclusions_fault bytes.now ≡ None) }
    ensures spans { OnOk result (map span_of listings.new.items ≡ spans_in bytes.now) }
    ensures fault { IfErr result (λ e. IsMemoryOr (exclusions_fault bytes.now) e) }
{
    for line in DataLines::new(bytes) {
        take_line(listings, line)?;
    }
    Ok(())
}

/// The code points that a file's bytes list, or its first fault, or `Memory` in place of either.
pub(crate) fn exclusions_of(alloc: Global, bytes: &[u8]) -> Result<Exclusions, UcdFault>
    ensures fine { OnOk result (exclusions_fault bytes.now ≡ None) }
    ensures same { IfOk result (λ e. (code : ℕ) → is_listed e code ≡ is_listed (spans_in bytes.now) code) }
    ensures fault { IfErr result (λ e. IsMemoryOr (exclusions_fault bytes.now) e) }
{
    let mut listings = Vec::new(alloc);
    take_spans(&mut listings, bytes)?;
    Ok(Exclusions::of_listings(listings)?)
}
