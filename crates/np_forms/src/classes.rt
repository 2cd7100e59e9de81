//! Code points beside their combining classes, which are looked up once and asked for often: by ordering at
//! each comparison, and by composition.
ghost use Rattle.std.specs.Prelude.{◌≡◌, ◌++◌, ℕ, List, OnOk};
ghost use Rattle.np_forms.specs.inside.Classes.{codes_of, with_class as spec_with_class, with_classes};

use np_code_points::Memory;
use np_versions::NormTable;
use std::marker::Model;

/// What a class is multiplied with, so that any code point is less.
const CLASS: u32 = 0x20_0000;

/// A code point beside its combining class, in 32 bits: long runs are held and sorted so.
#[derive(Clone, Copy)]
pub(crate) struct Classed {
    bits: u32,
}

impl Model for Classed {
    ghost use Rattle.std.specs.Prelude.{ℕ, ◌+◌, ◌*◌, ◌/◌, ◌%◌, ◌<◌};
    ghost use Rattle.std.specs.Char.{IsScalar};
    ghost use Rattle.np_forms.specs.inside.Classes.{CodeAndClass};

    ghost Value = { CodeAndClass };

    ghost view = { λ a. record { code = a.bits % 2097152; class = a.bits / 2097152 } };

    ghost invariant = { λ a. IsScalar (a.bits % 2097152) × (a.bits / 2097152 < 256) };

    ghost inverse = { λ d. record { bits = d.class * 2097152 + d.code } };
}

impl Classed {
    /// A code point beside a class.
    #[inline(always)]
    pub(crate) fn new(code: char, class: u8) -> Classed
        ensures { result ≡ record { code = code; class = class } }
    {
        Classed {
            bits: u32::from(class) * CLASS + u32::from(code),
        }
    }

    /// The code point.
    #[inline(always)]
    pub(crate) fn code(self) -> char
        ensures { result ≡ self.code }
    {
        unsafe { char::from_u32_unchecked(self.bits % CLASS) }
    }

    /// Its class.
    #[inline(always)]
    pub(crate) fn class(self) -> u8
        ensures { result ≡ self.class }
    {
        (self.bits / CLASS) as u8
    }
}

/// A code point beside its class.
#[inline(always)]
pub(crate) fn with_class<T: NormTable>(table: &T, code: char) -> Classed
    ensures { result ≡ spec_with_class (T.model table.now) code }
{
    Classed::new(code, table.class(code))
}

/// Appends code points, each beside its class.
pub(crate) fn push_classed<T: NormTable>(
    table: &T,
    codes: &[char],
    list: &mut Vec<Classed>,
) -> Result<(), Memory>
    ensures { OnOk result (list.new.items ≡ list.old.items ++ with_classes (T.model table.now) codes.now) }
{
    for c in codes {
        list.push(with_class(table, *c))?;
    }
    Ok(())
}

/// Appends the code points of a list.
pub(crate) fn push_codes(list: &[Classed], codes: &mut Vec<char>) -> Result<(), Memory>
    ensures ok { OnOk result (codes.new.items ≡ codes.old.items ++ codes_of list.now) }
    ensures front { (more : List ℕ) × (codes.new.items ≡ codes.old.items ++ more) }
{
    for c in list {
        codes.push(c.code())?;
    }
    Ok(())
}
