//! Worked examples of words.
use np_code_points::words::{Dividers, Words, after_dividers};
use np_examples_shared::want;
use std::test::Fail;

/// Fails unless the first words are these.
fn want_words(dividers: Dividers, wanted: &[Option<&[u8]>]) -> Result<(), Fail> {
    let mut words = Words::new(b"  00E2\t 0041 ", dividers);
    for word in wanted {
        want(words.next() == *word, "a word")?;
    }
    Ok(())
}

#[test]
fn dividers_stand_between_words(_rt: HostRuntime) -> Result<(), Fail> {
    want_words(Dividers::Blanks, &[Some(b"00E2"), Some(b"0041"), None])?;
    want_words(Dividers::Spaces, &[Some(b"00E2\t"), Some(b"0041"), None])?;
    let rest = after_dividers(b" \t", Dividers::Spaces);
    want(rest == b"\t".as_slice(), "no divider")
}
