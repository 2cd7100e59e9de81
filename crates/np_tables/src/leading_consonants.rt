//! Whether the leading consonants of Hangul syllables are boundaries of every form, which is asked of a table
//! once for a text, and not for each syllable.
ghost use Rattle.std.specs.Prelude.{◌≡◌, ◌+◌, ◌<◌, length, true, slice_index_or, IsTrue};
ghost use Rattle.np_code_points.specs.declared.forms.Form.{Form};
ghost use Rattle.np_tables.specs.inside.LeadingConsonants.{AreLeadingBoundaries};
ghost use Rattle.np_tables.specs.inside.PageHints.{boundary_place as spec_boundary_place, has_bit as spec_has_bit};
ghost use Rattle.np_tables.specs.inside.PageProperties.{no_properties};
ghost use Rattle.np_versions.specs.inside.Pages.{AreWithin, property_place};

use crate::page_hints::boundary_place;
use crate::page_properties::{Properties, properties_of};
use crate::property_bits::has_bit;
use np_code_points::Form;
use np_code_points::hangul::{L_BASE, L_COUNT};

/// Whether bits tell of every form that their code point is a boundary.
fn is_boundary_in_each(bits: u8) -> bool
    ensures { IsTrue result → (form : Form) → spec_has_bit bits (spec_boundary_place form) ≡ true }
{
    has_bit(bits, boundary_place(Form::Nfd))
        && has_bit(bits, boundary_place(Form::Nfc))
        && has_bit(bits, boundary_place(Form::Nfkd))
        && has_bit(bits, boundary_place(Form::Nfkc))
}

/// Whether the leading consonant of a number, from 0, is a boundary of every form.
fn is_leading_boundary(blocks: &[u16], all_properties: &[Properties], leading: u32) -> bool
    requires within { AreWithin 4352 blocks.now (length all_properties.now) }
    requires few { leading < 19 }
    ensures { IsTrue result → (form : Form) →
        spec_has_bit (slice_index_or all_properties.now (property_place blocks.now (0x1100 + leading)) no_properties).hints (spec_boundary_place form) ≡ true }
{
    match char::from_u32(L_BASE + leading) {
        Some(c) => is_boundary_in_each(properties_of(blocks, all_properties, c).hints),
        None => false,
    }
}

/// Whether each leading consonant is a boundary of every form.
pub(crate) fn are_leading_boundaries(blocks: &[u16], all_properties: &[Properties]) -> bool
    requires { AreWithin 4352 blocks.now (length all_properties.now) }
    ensures { IsTrue result → AreLeadingBoundaries blocks.now all_properties.now }
{
    for leading in 0..L_COUNT {
        if !is_leading_boundary(blocks, all_properties, leading) {
            return false;
        }
    }
    true
}
