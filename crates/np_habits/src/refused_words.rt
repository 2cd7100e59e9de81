//! Which word is refused.

use np_code_points::{Form, Memory};
use std::alloc::Global;

/// What a program knows: its commands, its flags without their dashes, and the most files of the words.
#[derive(Clone, Copy)]
pub struct KnownWords<'a> {
    /// The commands, one of which the words begin with; none where the program has none.
    pub commands: &'a [&'a str],
    /// The flags, beside `--form`.
    pub flags: &'a [&'a str],
    /// The most files.
    pub most_files: usize,
}

/// Why words are refused.
#[derive(Clone, Copy, Debug, PartialEq, Eq)]
pub enum Refused<'a> {
    /// The first word that nothing is known of, or that is one too many.
    Word(&'a str),
    /// Each word is known, and what they ask for wants more.
    Missing,
}

/// What was met of the words.
#[derive(Drop)]
struct Met {
    /// Whether the next word is the name of a form.
    wants_form: bool,
    /// Whether a form was named.
    has_form: bool,
    /// Whether files alone follow.
    has_files_alone: bool,
    /// How many files were met.
    files: usize,
}

/// Whether a word is among these.
fn is_among(words: &[&str], word: &str) -> bool {
    words.iter().any(|known| *known == word)
}

/// Whether a word names a form, in either case.
fn names_form(alloc: Global, word: &str) -> Result<bool, Memory> {
    let lower = word.to_ascii_lowercase(alloc)?;
    Ok(Form::of_name(lower.as_str()).is_some())
}

impl Met {
    /// Whether a file may stand here.
    fn takes_file(&mut self, known: &KnownWords<'_>) -> bool {
        self.files = self.files.saturating_add(1);
        self.files <= known.most_files
    }

    /// Whether a form may be named here, and this word names one.
    fn takes_form(&mut self, alloc: Global, word: &str) -> Result<bool, Memory> {
        if self.has_form {
            return Ok(false);
        }
        self.wants_form = false;
        self.has_form = true;
        names_form(alloc, word)
    }

    /// Whether an option may stand here, of which this is all behind `--`.
    fn takes_option(
        &mut self,
        alloc: Global,
        known: &KnownWords<'_>,
        name: &str,
    ) -> Result<bool, Memory> {
        if name == "form" {
            self.wants_form = true;
            return Ok(!self.has_form);
        }
        match name.strip_prefix("form=") {
            Some(form) => self.takes_form(alloc, form),
            None => Ok(is_among(known.flags, name)),
        }
    }

    /// Whether a word may stand here.
    fn takes(&mut self, alloc: Global, known: &KnownWords<'_>, word: &str) -> Result<bool, Memory> {
        if self.has_files_alone {
            return Ok(self.takes_file(known));
        }
        if self.wants_form {
            return self.takes_form(alloc, word);
        }
        match word.strip_prefix("--") {
            Some("") => {
                self.has_files_alone = true;
                Ok(true)
            }
            Some(name) => self.takes_option(alloc, known, name),
            None if word.starts_with("-") && word != "-" => Ok(false),
            None => Ok(self.takes_file(known)),
        }
    }
}

/// Why words are refused that a program takes nothing of: the first that nothing is known of, that is no form where one is
/// named, or that is one file too many; else something is missing.
///
/// # Errors
///
/// `Memory` where memory ran out.
pub fn refused_in<'a>(
    alloc: Global,
    known: &KnownWords<'_>,
    words: &'a [String],
) -> Result<Refused<'a>, Memory> {
    let mut met = Met {
        wants_form: false,
        has_form: false,
        has_files_alone: false,
        files: 0,
    };
    let mut wants_command = !known.commands.is_empty();
    for word in words {
        let word = word.as_str();
        let is_taken = if wants_command {
            is_among(known.commands, word)
        } else {
            met.takes(alloc, known, word)?
        };
        if !is_taken {
            return Ok(Refused::Word(word));
        }
        wants_command = false;
    }
    Ok(Refused::Missing)
}

/// The line on words that are refused, with its end: the program, and the word in quotes.
///
/// # Errors
///
/// `Memory` where memory ran out.
pub fn refusal_line(alloc: Global, program: &str, refused: Refused<'_>) -> Result<String, Memory> {
    match refused {
        Refused::Word(word) => Ok(format!(in alloc; "{program}: cannot take '{word}'\n")?),
        Refused::Missing => Ok(format!(in alloc;
            "{program}: a form, a file or a flag is missing\n"
        )?),
    }
}
