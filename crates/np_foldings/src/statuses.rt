//! The statuses of CaseFolding.txt.
ghost use Rattle.std.specs.Prelude.{◌≡◌};
ghost use Rattle.np_foldings.specs.inside.FieldReading.{letter_status, status_value};

/// What a record's mapping is for.
#[derive(Clone, Copy, Debug, PartialEq, Eq)]
pub enum Status {
    /// `C`: full and simple folding.
    Common,
    /// `F`: full folding alone.
    Full,
    /// `S`: simple folding alone.
    Simple,
    /// `T`: Turkic languages.
    Turkic,
}

/// The status of a letter.
fn of_letter(letter: u8) -> Option<Status>
    ensures { result ≡ letter_status letter }
{
    match letter {
        b'C' => Some(Status::Common),
        b'F' => Some(Status::Full),
        b'S' => Some(Status::Simple),
        b'T' => Some(Status::Turkic),
        _ => None,
    }
}

/// The status that a field writes.
#[tactic(auto, unfolding(crate::specs::inside::FieldReading::status_value))]
pub(crate) fn status_of(field: &[u8]) -> Option<Status>
    ensures { result ≡ status_value field.now }
{
    match field {
        [letter] => of_letter(*letter),
        _ => None,
    }
}
