//! The forms of single code points, kept as UTF-8: full decompositions in which nothing moves and, where
//! the form composes, what the code points of one compose to, each with the starter right before it.
ghost use Rattle.std.specs.Prelude.{◌≡◌, ◌<◌, ◌++◌, [], ℕ, length, string_bytes, encode_utf8_all, slice_index_or, IsTrue, IfOk, IfSome};
ghost use Rattle.np_code_points.specs.declared.forms.Form.{Form};
ghost use Rattle.np_code_points.specs.Forms.{is_compat};
ghost use Rattle.np_versions.specs.Boundaries.{NeverFalls};
ghost use Rattle.np_versions.specs.Versions.{class_of};
ghost use Rattle.np_versions.specs.inside.CompositeSearch.{composite};
ghost use Rattle.np_tables.specs.inside.FullLists.{of_kind};
ghost use Rattle.np_tables.specs.inside.PageProperties.{AreSeconds};
ghost use Rattle.np_tables.specs.inside.PrecomputedForms.{ArePrecomputedForms, Composes, ComposesOn, IsByteRange, IsFront, IsPrecomputedForm, Settles, Writes, byte_range_of};

use crate::fulls::Fulls;
use crate::page_hints::{is_never_second, never_falls};
use np_code_points::{Form, Memory};
use np_versions::{PrecomputedForm, Version};
use std::alloc::Global;
use std::marker::Model;

/// A range of a flat list: from the place `start` up to the place `end`.
#[derive(Clone, Copy)]
pub(crate) struct ByteRange {
    /// The place of its first byte.
    pub start: u32,
    /// The place behind its last one.
    pub end: u32,
}

/// What is written under one form for the code point of each slot, in one flat list: nothing where that is not known.
#[derive(Drop)]
pub(crate) struct PrecomputedForms {
    bytes: Vec<u8>,
    ranges: Vec<ByteRange>,
}

impl Model for PrecomputedForms {
    ghost use Rattle.std.specs.Prelude.{ℕ, List, map};
    ghost use Rattle.np_tables.specs.inside.PrecomputedForms.{AreByteRanges, byte_range_of};

    ghost Value = { List (List ℕ) };

    ghost view = { λ a. map (byte_range_of a.bytes.items) a.ranges.items };

    ghost invariant = { λ a. AreByteRanges a.bytes.items a.ranges.items };
}

/// The primary composite of a pair.
fn composite_of(version: &Version, seconds: &[bool], first: char, second: char) -> Option<char>
    requires { AreSeconds version.now seconds.now }
    ensures { result ≡ composite version.now first second }
{
    // A search takes longer than a look at what is no second part: so most pairs are not searched for.
    if is_never_second(version, seconds, u32::from(second)) {
        return None;
    }
    version.composite_of(first, second)
}

/// The last starter, which is not written yet, since what follows may compose with it.
#[derive(Clone, Copy)]
struct LastStarter {
    c: char,
    /// The class of what composed with it last, 0 where nothing did.
    last: u8,
}

/// Appends what the last starter and the code points behind it compose to, where each of them composes with that
/// or is the next last starter. False where they do not: then what was appended is no form.
fn write_composed(
    version: &Version,
    seconds: &[bool],
    last_starter: LastStarter,
    rest: &[char],
    text: &mut String,
) -> Result<bool, Memory>
    requires { AreSeconds version.now seconds.now }
    ensures { IfOk result (λ known. IsTrue known →
        Writes (ComposesOn version.now last_starter.c last_starter.last rest.now) (string_bytes text.old) (string_bytes text.new)) }
{
    match rest {
        [next, later @ ..] => {
            let class = version.class_of(u32::from(*next));
            match composite_of(version, seconds, last_starter.c, *next) {
                Some(c) => {
                    // Classes that fall are put in order before anything composes.
                    if class != 0 && class < last_starter.last {
                        return Ok(false);
                    }
                    let composite = LastStarter { c, last: class };
                    write_composed(version, seconds, composite, later, text)
                }
                None => {
                    // What does not compose with a starter may block the next ones from it.
                    if class != 0 {
                        return Ok(false);
                    }
                    text.push(last_starter.c)?;
                    let starter = LastStarter { c: *next, last: 0 };
                    write_composed(version, seconds, starter, later, text)
                }
            }
        }
        [] => {
            text.push(last_starter.c)?;
            Ok(true)
        }
    }
}

/// Appends what a full decomposition composes to, where it begins with a starter and its code points
/// compose one after the other. False where they do not.
fn write_composition(
    version: &Version,
    seconds: &[bool],
    lent: &[char],
    text: &mut String,
) -> Result<bool, Memory>
    requires { AreSeconds version.now seconds.now }
    ensures { IfOk result (λ known. IsTrue known → Writes (Composes version.now lent.now) (string_bytes text.old) (string_bytes text.new)) }
{
    match lent {
        [first, rest @ ..] => {
            if version.class_of(u32::from(*first)) != 0 {
                return Ok(false);
            }
            let last_starter = LastStarter { c: *first, last: 0 };
            write_composed(version, seconds, last_starter, rest, text)
        }
        [] => Ok(false),
    }
}

/// Appends a full decomposition as it is, where nothing moves in it. False where something does.
fn write_decomposition(version: &Version, lent: &[char], text: &mut String) -> Result<bool, Memory>
    ensures { IfOk result (λ known. IsTrue known → NeverFalls (class_of version.now) lent.now
        × (string_bytes text.new ≡ string_bytes text.old ++ encode_utf8_all lent.now)) }
{
    if !never_falls(version, lent) {
        return Ok(false);
    }
    for c in lent {
        text.push(*c)?;
    }
    Ok(true)
}

/// Appends the form of a full decomposition by itself. False where it is not known: then what was appended is no form.
fn write_form(
    version: &Version,
    seconds: &[bool],
    form: Form,
    lent: &[char],
    text: &mut String,
) -> Result<bool, Memory>
    requires { AreSeconds version.now seconds.now }
    ensures { IfOk result (λ known. IsTrue known → Writes (Settles version.now form lent.now) (string_bytes text.old) (string_bytes text.new)) }
{
    if form.composes() {
        write_composition(version, seconds, lent, text)
    } else {
        write_decomposition(version, lent, text)
    }
}

/// Makes a text what is kept for a full decomposition.
fn precompute(
    version: &Version,
    seconds: &[bool],
    form: Form,
    lent: &[char],
    text: &mut String,
) -> Result<(), Memory>
    requires { AreSeconds version.now seconds.now }
    ensures { IfOk result (λ _. IsPrecomputedForm version.now form lent.now (string_bytes text.new)) }
{
    text.clear();
    if !write_form(version, seconds, form, lent, text)? {
        text.clear();
    }
    Ok(())
}

/// Appends a run, and answers where it stands. More bytes than a place of 32 bits tells are no table's.
fn push_range(bytes: &mut Vec<u8>, run: &[u8]) -> Result<ByteRange, Memory>
    ensures grown { IfOk result (λ _. bytes.new.items ≡ bytes.old.items ++ run.now) }
    ensures within { IfOk result (λ byte_range. IsByteRange (length bytes.new.items) byte_range) }
    ensures byte_range { IfOk result (λ byte_range. byte_range_of bytes.new.items byte_range ≡ run.now) }
{
    let Ok(start) = u32::try_from(bytes.len()) else {
        return Err(Memory);
    };
    bytes.extend_from_slice(run)?;
    let Ok(end) = u32::try_from(bytes.len()) else {
        return Err(Memory);
    };
    Ok(ByteRange { start, end })
}

impl PrecomputedForms {
    /// Those of one form.
    pub(crate) fn new(
        alloc: Global,
        version: &Version,
        seconds: &[bool],
        fulls: &Fulls,
        form: Form,
    ) -> Result<PrecomputedForms, Memory>
        requires { AreSeconds version.now seconds.now }
        ensures { IfOk result (λ kept. ArePrecomputedForms version.now form (of_kind (is_compat form) fulls.now) kept) }
    {
        let mut text = String::new(alloc);
        let mut bytes = Vec::new(alloc);
        let mut ranges = Vec::with_capacity(alloc, fulls.count(form.compat()))?;
        for slot in 0..fulls.count(form.compat()) {
            precompute(
                version,
                seconds,
                form,
                fulls.lent(slot, form.compat()),
                &mut text,
            )?;
            let byte_range = push_range(&mut bytes, text.as_bytes())?;
            ranges.push(byte_range)?;
        }
        Ok(PrecomputedForms { bytes, ranges })
    }

    /// What is kept for a slot, with what stands behind it; none where it has none.
    #[inline(always)]
    pub(crate) fn at(&self, slot: usize) -> Option<PrecomputedForm<'_>>
        ensures { IfSome result (λ kept. IsFront (slice_index_or self.now slot []) kept.bytes.now kept.count) }
    {
        let byte_range = self.ranges.get(slot)?;
        if byte_range.start == byte_range.end {
            return None;
        }
        Some(PrecomputedForm {
            bytes: &self.bytes[byte_range.start as usize..],
            count: (byte_range.end - byte_range.start) as usize,
        })
    }
}
