//! Words whose form is named in lower case.
ghost use Rattle.std.specs.Prelude.{◌≡◌, ◌==◌, IfOk, codes, map, string_bytes};
ghost use Rattle.std.specs.List.{starts_with};
ghost use Rattle.np_habits.specs.FormWords.{is_joined_form, is_named as named, lowered, place_behind, plain_of, plain_word};

use np_code_points::{Form, Memory};
use std::alloc::Global;

/// What a word may be at its place.
#[derive(Clone, Copy, Debug, PartialEq, Eq)]
enum Place {
    /// An option or a file.
    Any,
    /// The name of a form, behind `--form`.
    Form,
    /// A file, behind `--`.
    File,
}

/// Whether a word is `--form=` and the name of a form.
fn is_joined(word: &str) -> bool
    ensures { result ≡ is_joined_form word.now }
{
    match word {
        "--form=nfd" | "--form=nfc" | "--form=nfkd" | "--form=nfkc" => true,
        _ => false,
    }
}

/// Whether a word begins with `--form=`.
fn begins_with_form(word: &str) -> bool
    ensures { result ≡ starts_with (λ a b. a == b) word.now (codes "--form=") }
{
    word.as_bytes().starts_with(b"--form=")
}

/// Whether a form is named at this place by a word, of which the second one is the lower case.
fn is_named(place: Place, word: &str, lower: &str) -> bool
    requires { lower.now ≡ lowered word.now }
    ensures { result ≡ named place word.now }
{
    match place {
        Place::Any => is_joined(lower) && begins_with_form(word),
        Place::Form => Form::of_name(lower).is_some(),
        Place::File => false,
    }
}

/// The word at this place, with the name of a form in lower case.
fn plain(alloc: Global, place: Place, word: &str) -> Result<String, Memory>
    ensures { IfOk result (λ made. string_bytes made ≡ plain_word place word.now) }
{
    let lower = word.to_ascii_lowercase(alloc)?;
    if is_named(place, word, lower.as_str()) {
        return Ok(lower);
    }
    Ok(String::from_str(alloc, word)?)
}

/// What stands behind a word.
fn behind(place: Place, word: &str) -> Place
    ensures { result ≡ place_behind place word.now }
{
    match place {
        Place::Any => match word {
            "--form" => Place::Form,
            "--" => Place::File,
            _ => Place::Any,
        },
        Place::Form => Place::Any,
        Place::File => Place::File,
    }
}

/// The words, with the name of a form in lower case behind `--form` or `--form=`, in whichever case it is named. No other
/// word changes, and none behind a word `--`.
///
/// # Errors
///
/// `Memory` where memory ran out.
pub fn plain_words(alloc: Global, words: &[String]) -> Result<Vec<String>, Memory>
    ensures { IfOk result (λ made. map string_bytes made.items ≡ plain_of (map string_bytes words.now)) }
{
    let mut made = Vec::new(alloc);
    let mut place = Place::Any;
    'words: for word in words {
        made.push(plain(alloc, place, word.as_str())?)?;
        place = behind(place, word.as_str());
    }
    Ok(made)
}
