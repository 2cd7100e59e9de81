//! Cut and forged images: each is refused by name at its place, or restored as a node with the image that is told.
use super::{first_forged, second_forged};
use np_code_points::Form;
use np_code_points::codes::hex_value;
use np_examples_shared::{Example, Made, V1, holds_over_each, want};
use np_node::{ImageFault, Node};
use np_versions::NormTable;
use std::alloc::Global;
use std::test::Fail;

/// The value of two hex digits.
fn byte_of(high: u8, low: u8) -> Option<u8> {
    let value = hex_value(high)?
        .wrapping_mul(16)
        .wrapping_add(hex_value(low)?);
    u8::try_from(value).ok()
}

/// Appends the bytes of these hex digits; `-` is none.
fn push_bytes(bytes: &mut Vec<u8>, digits: &str) -> Result<(), Fail> {
    let mut high = None;
    for digit in digits.bytes() {
        match high {
            Some(first) => {
                bytes.push(byte_of(first, digit).ok_or("two hex digits")?)?;
                high = None;
            }
            None => high = Some(digit),
        }
    }
    want(high.is_none() || digits == "-", digits)
}

/// A change of an image: how many bytes go from which place on, the ways in which others come, and what is answered.
#[derive(Clone, Copy)]
struct Change<'a> {
    at: usize,
    gone: usize,
    puts: &'a str,
    told: &'a str,
}

/// The first word of a row, and the rest.
fn parted(row: &str) -> Result<(&str, &str), Fail> {
    match row.split_once(" ") {
        Some(parts) => Ok(parts),
        None => Err(Fail::new(row)),
    }
}

/// The change that a row has.
fn change_of(row: &str) -> Result<Change<'_>, Fail> {
    let (at, rest) = parted(row)?;
    let (gone, rest) = parted(rest)?;
    let (puts, told) = parted(rest)?;
    Ok(Change {
        at: usize::from_str_radix(at, 10)?,
        gone: usize::from_str_radix(gone, 10)?,
        puts,
        told,
    })
}

/// What stands before and behind the bytes of the image that go.
fn left_of<'a>(image: &'a [u8], change: &Change<'_>) -> Result<(&'a [u8], &'a [u8]), Fail> {
    let (before, rest) = image.split_at_checked(change.at).ok_or("a place")?;
    let (_, behind) = rest.split_at_checked(change.gone).ok_or("so many bytes")?;
    Ok((before, behind))
}

/// These bytes with those of the hex digits between them.
fn joined(alloc: Global, before: &[u8], put: &str, behind: &[u8]) -> Result<Vec<u8>, Fail> {
    let mut made = Vec::new(alloc);
    made.extend_from_slice(before)?;
    push_bytes(&mut made, put)?;
    made.extend_from_slice(behind)?;
    Ok(made)
}

/// The node's image has these hex digits.
fn wants_image<T: NormTable>(alloc: Global, node: &Node<'_, T>, digits: &str) -> Result<(), Fail> {
    let mut wanted = Vec::new(alloc);
    push_bytes(&mut wanted, digits)?;
    let image = node.image()?;
    want(
        image.as_slice() == wanted.as_slice(),
        "the image of what was restored",
    )
}

/// The fault in words is this.
fn wants_fault(alloc: Global, fault: &ImageFault, told: &str) -> Result<(), Fail> {
    let answer = format!(in alloc; "{fault}")?;
    want(answer.as_str() == told, told)
}

/// The node has the image behind `restored`.
fn wants_restored<T: NormTable>(alloc: Global, node: &Node<'_, T>, told: &str) -> Result<(), Fail> {
    let digits = told.strip_prefix("restored ").ok_or(told)?;
    wants_image(alloc, node, digits)
}

/// Restoring the image answers this, in words; what is restored has the image behind `restored`.
fn wants_answer<T: NormTable>(
    alloc: Global,
    table: &T,
    image: &[u8],
    told: &str,
) -> Result<(), Fail> {
    match Node::restore(alloc, table, Form::Nfc, 5, image) {
        Ok(node) => wants_restored(alloc, &node, told),
        Err(fault) => wants_fault(alloc, &fault, told),
    }
}

/// The image changed in one way is answered so.
fn wants_change<T: NormTable>(
    alloc: Global,
    table: &T,
    image: &[u8],
    change: &Change<'_>,
    put: &str,
) -> Result<(), Fail> {
    let (before, behind) = left_of(image, change)?;
    let made = joined(alloc, before, put, behind)?;
    wants_answer(alloc, table, &made, change.told)
}

/// The image changed as a row has it, in each of its ways, is answered as the row tells.
fn wants_row<T: NormTable>(alloc: Global, table: &T, image: &[u8], row: &str) -> Result<(), Fail> {
    let change = change_of(row)?;
    for put in change.puts.split(',') {
        wants_change(alloc, table, image, &change, put)?;
    }
    Ok(())
}

/// The image is answered, changed as each row has it, as the row tells.
fn want_rows<T: NormTable>(alloc: Global, table: &T, image: &[u8], rows: &str) -> Result<(), Fail> {
    for row in rows.split("; ") {
        wants_row(alloc, table, image, row)?;
    }
    Ok(())
}

/// So is the image in these hex digits.
fn wants_rows<T: NormTable>(
    alloc: Global,
    table: &T,
    digits: &str,
    rows: &str,
) -> Result<(), Fail> {
    let mut image = Vec::new(alloc);
    push_bytes(&mut image, digits)?;
    want_rows(alloc, table, &image, rows)
}

/// What restoring answers to each changed image.
struct Answers;

impl Example for Answers {
    fn holds<T: Made>(&self, alloc: Global, table: &T) -> Result<(), Fail> {
        wants_rows(alloc, table, first_forged::IMAGE, first_forged::ANSWERS)?;
        wants_rows(alloc, table, second_forged::IMAGE, second_forged::ANSWERS)
    }
}

#[test]
fn each_cut_and_forged_image_is_told(rt: HostRuntime) -> Result<(), Fail> {
    holds_over_each(rt.alloc(), V1, &Answers)
}
