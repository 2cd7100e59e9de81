//! What words ask to be told in place of a job.
ghost use Rattle.std.specs.Prelude.{◌≡◌, map, string_bytes};
ghost use Rattle.np_habits.specs.Notices.{notice_at, notice_by};

/// What is told of a program in place of a job.
#[derive(Clone, Copy, Debug, PartialEq, Eq)]
pub enum Notice {
    /// How it is used: `--help`.
    Help,
    /// Its name and version: `--version`.
    Version,
}

/// What a word asks to be told.
fn notice_of(word: &str) -> Option<Notice>
    ensures { result ≡ notice_at word.now }
{
    match word {
        "--help" => Some(Notice::Help),
        "--version" => Some(Notice::Version),
        _ => None,
    }
}

/// What the words ask to be told: the first of `--help` and `--version` in front of a word `--`, where there is one.
pub fn notice_in(words: &[String]) -> Option<Notice>
    ensures { result ≡ notice_by (map string_bytes words.now) }
{
    for word in words {
        if word.as_str() == "--" {
            return None;
        }
        if let Some(notice) = notice_of(word.as_str()) {
            return Some(notice);
        }
    }
    None
}
