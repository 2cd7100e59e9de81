//! The numbers of a schedule.
ghost use Rattle.std.specs.Prelude.{◌≡◌};
ghost use Rattle.np_schedules.specs.inside.LineValues.{below_value, number_value};

use std::str;

/// The most digits of a number.
const MOST_DIGITS: usize = 9;

/// A sign, which `parse` would take.
const PLUS: u8 = b'+';

/// The number that a word of one to nine decimal digits writes. `None` for other words.
pub(crate) fn number_in(word: &[u8]) -> Option<u32>
    ensures { result ≡ number_value word.now }
{
    if word.is_empty() || word.len() > MOST_DIGITS || word[0] == PLUS {
        return None;
    }
    match str::from_utf8(word) {
        Ok(text) => text.parse::<u32>().ok(),
        Err(_) => None,
    }
}

/// The number that a word writes, where it is below a bound.
#[tactic(auto, unfolding(crate::specs::inside::LineValues::below_value))]
pub(crate) fn number_below(word: &[u8], bound: usize) -> Option<usize>
    ensures { result ≡ below_value bound word.now }
{
    let number = number_in(word)? as usize;
    if number < bound { Some(number) } else { None }
}
