//! The bits of properties: what a table of pages knows of a code point under each form.
ghost use Rattle.std.specs.Prelude.{◌≡◌, ◌<◌};
ghost use Rattle.np_tables.specs.inside.PageHints.{has_bit as spec_has_bit};

/// Whether eight bits have the bit at a place.
#[inline(always)]
pub(crate) fn has_bit(bits: u8, place: u32) -> bool
    requires { place < 8 }
    ensures { result ≡ spec_has_bit bits place }
{
    (bits >> place) % 2 == 1
}
