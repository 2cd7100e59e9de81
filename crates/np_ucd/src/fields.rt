//! What single fields of a record say.
ghost use Rattle.std.specs.Prelude.{◌≡◌, ◌∷◌, [], ◌&&◌, false, option_map};
ghost use Rattle.np_ucd.specs.inside.FieldReading.{category_value, class_value, is_letter as letter, is_digit as digit, opens_range as opening};
ghost use Rattle.np_ucd.specs.inside.FieldReading.{closes_range as closing};

/// Whether the byte is an ASCII letter.
fn is_letter(byte: u8) -> bool
    ensures { result ≡ letter byte }
{
    byte.is_ascii_alphabetic()
}

/// A General_Category, where the field holds one that a listed code point may have.
#[tactic(auto, unfolding(crate::specs::inside::FieldReading::category_value))]
pub(crate) fn category_of(field: &[u8]) -> Option<[u8; 2]>
    ensures { result ≡ category_value field.now }
{
    match field {
        [a, b] if is_letter(*a) && is_letter(*b) && !(*a == b'C' && *b == b'n') => Some([*a, *b]),
        _ => None,
    }
}

/// Whether the byte is a decimal digit.
fn is_digit(byte: u8) -> bool
    ensures { result ≡ digit byte }
{
    byte.is_ascii_digit()
}

/// Whether a name ends as those of the two records of a range do, and few others.
fn is_bracketed(name: &[u8]) -> bool
    ensures opening { result ≡ false → opening name.now ≡ false }
    ensures closing { result ≡ false → closing name.now ≡ false }
{
    name.len() > 0 && name[name.len() - 1] == b'>'
}

/// Whether a record of this name begins a range.
#[tactic(auto, unfolding(crate::specs::inside::FieldReading::opens_range))]
pub(crate) fn opens_range(name: &[u8]) -> bool
    ensures { result ≡ opening name.now }
{
    is_bracketed(name) && name.ends_with(b", First>")
}

/// Whether a record of this name ends a range.
#[tactic(auto, unfolding(crate::specs::inside::FieldReading::closes_range))]
pub(crate) fn closes_range(name: &[u8]) -> bool
    ensures { result ≡ closing name.now }
{
    is_bracketed(name) && name.ends_with(b", Last>")
}

/// The number of three digits, where it is a combining class.
#[tactic(auto, unfolding(crate::specs::inside::FieldReading::class_value))]
fn class_of_digits(a: u8, b: u8, c: u8) -> Option<u8>
    ensures { result ≡ class_value (a ∷ b ∷ c ∷ []) }
{
    if is_digit(a) && is_digit(b) && is_digit(c) {
        let class = 100 * (a - b'0') as u32 + 10 * (b - b'0') as u32 + (c - b'0') as u32;
        if class <= 254 {
            return Some(class as u8);
        }
    }
    None
}

/// A Canonical_Combining_Class, where the field holds one.
#[tactic(auto, unfolding(crate::specs::inside::FieldReading::class_value))]
pub(crate) fn class_of(field: &[u8]) -> Option<u8>
    ensures { result ≡ class_value field.now }
{
    match field {
        [c] => class_of_digits(b'0', b'0', *c),
        [b, c] => class_of_digits(b'0', *b, *c),
        [a, b, c] => class_of_digits(*a, *b, *c),
        _ => None,
    }
}
