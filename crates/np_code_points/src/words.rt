//! The words of a text.
ghost use Rattle.std.specs.Prelude.{◌≡◌, List, length};
ghost use Rattle.np_code_points.specs.Words.{AreWords};
ghost use Rattle.np_code_points.specs.inside.LineCuts.{before_first, after_first};
ghost use Rattle.np_code_points.specs.inside.WordCuts.{divides as divided, after_all, words_of, or_nothing};

use crate::lines::is_blank;
use std::marker::Model;

/// What divides words.
#[derive(Clone, Copy, Debug, PartialEq, Eq)]
pub enum Dividers {
    /// Spaces alone.
    Spaces,
    /// Spaces and tabs.
    Blanks,
}

/// Whether a byte divides words.
fn divides(dividers: Dividers, byte: u8) -> bool
    ensures { result ≡ divided dividers byte }
{
    match dividers {
        Dividers::Spaces => byte == b' ',
        Dividers::Blanks => is_blank(byte),
    }
}

/// The text without the dividers at its front.
pub fn after_dividers(text: &[u8], dividers: Dividers) -> &[u8]
    ensures { result.now ≡ after_all (divided dividers) text.now }
{
    for (at, b) in text.iter().enumerate() {
        if !divides(dividers, *b) {
            return &text[at..];
        }
    }
    &[]
}

/// What stands before the first divider, and what stands behind it.
fn cut_word(text: &[u8], dividers: Dividers) -> (&[u8], &[u8])
    ensures word { result.0.now ≡ before_first (divided dividers) text.now }
    ensures rest { result.1.now ≡ or_nothing (after_first (divided dividers) text.now) }
{
    for (at, b) in text.iter().enumerate() {
        if divides(dividers, *b) {
            return (&text[..at], &text[at + 1..]);
        }
    }
    (text, &[])
}

/// The words of a text, in their order: one or more dividers stand between two of them, and those
/// around all count for nothing. Linear in the text's length; nothing is copied.
#[derive(Debug, Drop)]
pub struct Words<'a> {
    rest: &'a [u8],
    dividers: Dividers,
}

impl<'a> Model for Words<'a> {
    ghost use Rattle.std.specs.Prelude.{List, ℕ};
    ghost use Rattle.np_code_points.specs.inside.WordCuts.{words_of};

    ghost Value = { List (List ℕ) };

    ghost view = { λ a. words_of a.dividers a.rest.now };
}

impl<'a> Words<'a> {
    /// The words of a text.
    pub fn new(text: &'a [u8], dividers: Dividers) -> Words<'a>
        ensures words { AreWords dividers text.now result }
        ensures same { result ≡ words_of dividers text.now }
    {
        Words {
            rest: text,
            dividers,
        }
    }
}

impl<'a> Iterator for Words<'a> {
    ghost use Rattle.std.specs.Iterator.{YieldsFirstRef, item_count};

    type Item = &'a [u8];

    ghost next_gives = { YieldsFirstRef (λ words. words) };

    ghost remaining = { item_count (λ words. words) };

    fn next(&mut self) -> Option<&'a [u8]> {
        let text = after_dividers(self.rest, self.dividers);
        if text.is_empty() {
            return None;
        }
        let (word, rest) = cut_word(text, self.dividers);
        self.rest = rest;
        Some(word)
    }
}
