//! How values are told in words, for tests.
ghost use Rattle.std.specs.Prelude.{◌≡◌, All, IfSome, OnOk};

use std::alloc::Global;
use std::fmt::Display;
use std::test::Fail;

/// Fails with the words, where `{}` writes the value otherwise.
fn want_words<T: Display>(alloc: Global, value: &T, words: &str) -> Result<(), Fail>
    ensures { OnOk result (IfSome (T.output value.now) (λ told. words.now ≡ told)) }
{
    let told = format!(in alloc; "{value}")?;
    if told.as_str() == words {
        Ok(())
    } else {
        Err(Fail::new(words))
    }
}

/// Fails with the words of the first row whose value `{}` writes otherwise.
pub fn want_told<T: Display>(alloc: Global, rows: &[(T, &str)]) -> Result<(), Fail>
    ensures { OnOk result (All (λ row. IfSome (T.output row.0) (λ told. row.1.now ≡ told)) rows.now) }
{
    for (value, words) in rows {
        want_words(alloc, value, words)?;
    }
    Ok(())
}
