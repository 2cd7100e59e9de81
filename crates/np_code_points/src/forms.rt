//! The four normalization forms (UAX #15, table 1).
ghost use Rattle.std.specs.Prelude.{◌≡◌, ◌↔◌, Some};
ghost use Rattle.np_code_points.specs.Forms.{byte_of, composes as form_composes, form_named, is_compat};

/// A normalization form.
#[derive(Clone, Copy, Debug, PartialEq, Eq)]
pub enum Form {
    /// Canonical decomposition.
    Nfd,
    /// Canonical decomposition, then canonical composition.
    Nfc,
    /// Compatibility decomposition.
    Nfkd,
    /// Compatibility decomposition, then canonical composition.
    Nfkc,
}

impl Form {
    /// The form named `nfd`, `nfc`, `nfkd` or `nfkc`, in lower case alone. `None` for other names.
    pub fn of_name(name: &str) -> Option<Form>
        ensures { result ≡ form_named name.now }
    {
        match name {
            "nfd" => Some(Form::Nfd),
            "nfc" => Some(Form::Nfc),
            "nfkd" => Some(Form::Nfkd),
            "nfkc" => Some(Form::Nfkc),
            _ => None,
        }
    }

    /// The byte that stands for the form: `D`, `C`, `d` or `c`.
    pub fn byte(self) -> u8
        ensures { result ≡ byte_of self }
    {
        match self {
            Form::Nfd => b'D',
            Form::Nfc => b'C',
            Form::Nfkd => b'd',
            Form::Nfkc => b'c',
        }
    }

    /// The form that the byte stands for. `None` for other bytes.
    pub fn of_byte(byte: u8) -> Option<Form>
        ensures { (form : Form) → (result ≡ Some form) ↔ (byte ≡ byte_of form) }
    {
        match byte {
            b'D' => Some(Form::Nfd),
            b'C' => Some(Form::Nfc),
            b'd' => Some(Form::Nfkd),
            b'c' => Some(Form::Nfkc),
            _ => None,
        }
    }

    /// Whether compatibility mappings count too: true for NFKD and NFKC.
    pub fn compat(self) -> bool
        ensures { result ≡ is_compat self }
    {
        matches!(self, Form::Nfkd | Form::Nfkc)
    }

    /// Whether composition follows: true for NFC and NFKC.
    pub fn composes(self) -> bool
        ensures { result ≡ form_composes self }
    {
        matches!(self, Form::Nfc | Form::Nfkc)
    }
}
