//! What is asked of lines.
ghost use Rattle.std.specs.Prelude.{◌≡◌};
ghost use Rattle.np_lines.specs.Lines.{byte_of};

use np_code_points::Form;

/// What ends a line, and its answer.
#[derive(Clone, Copy, Debug, PartialEq, Eq)]
pub enum LineEnd {
    /// LF (10). A CR before it is part of the line.
    Lf,
    /// NUL (0).
    Nul,
}

impl LineEnd {
    /// The byte that ends a line.
    pub fn byte(self) -> u8
        ensures { result ≡ byte_of self }
    {
        match self {
            LineEnd::Lf => b'\n',
            LineEnd::Nul => 0,
        }
    }
}

/// What is asked of each line.
#[derive(Clone, Copy, Debug, PartialEq, Eq)]
pub struct Wanted {
    /// The form of its key.
    pub form: Form,
    /// What ends it.
    pub end: LineEnd,
}
