//! The code points that CompositionExclusions.txt lists.
ghost use Rattle.std.specs.Prelude.{◌≡◌, ℕ, map, IfOk};
ghost use Rattle.np_ucd.specs.Listed.{is_listed};
ghost use Rattle.np_ucd.specs.inside.SpanValues.{raised};

use np_code_points::Memory;
use std::fmt;
use std::marker::Model;

/// The code points from `first` to `last`, both included.
#[derive(Clone, Copy)]
pub(crate) struct Listing {
    pub first: u32,
    pub last: u32,
}

/// A set of code points.
#[derive(Drop)]
pub struct Exclusions {
    listings: Vec<Listing>,
}

impl Model for Exclusions {
    ghost use Rattle.std.specs.Prelude.{List, map};
    ghost use Rattle.np_ucd.specs.Listed.{Span};

    ghost Value = { List Span };

    ghost use Rattle.np_ucd.specs.inside.SpanValues.{span_of, AreRising};

    ghost view = { λ a. map span_of a.listings.items };

    ghost invariant = { λ a. AreRising a.listings.items };
}

/// Shows how many ranges are listed, and none of them.
impl fmt::Debug for Exclusions {
    fn fmt<W: fmt::Write>(&self, f: &mut fmt::Formatter<W>) -> fmt::Result {
        f.debug_struct("Exclusions")
            .field("ranges", &self.listings.len())
            .finish_non_exhaustive()
    }
}

/// Raises each last code point to that of the listing before, where it is smaller: of listings
/// whose first code points rise, no other code point is listed then.
fn raise_lasts(listings: &mut Vec<Listing>)
    ensures { listings.new.items ≡ raised 0 listings.old.items }
{
    let mut last = 0;
    for at in 0..listings.len() {
        let listing = listings[at];
        last = listing.last.max(last);
        listings[at] = Listing {
            first: listing.first,
            last,
        };
    }
}

impl Exclusions {
    ghost use Rattle.np_ucd.specs.inside.SpanValues.{span_of};

    /// The code points of these listings, in any order.
    pub(crate) fn of_listings(mut listings: Vec<Listing>) -> Result<Exclusions, Memory>
        ensures { IfOk result (λ spans. (code : ℕ) → is_listed spans code ≡ is_listed (map span_of listings.items) code) }
    {
        listings.sort_by_key(|l| l.first)?;
        raise_lasts(&mut listings);
        Ok(Exclusions { listings })
    }

    /// Whether a code point is listed.
    pub fn holds(&self, code: u32) -> bool
        ensures { result ≡ is_listed self.now code }
    {
        let begun = self.listings.partition_point(|l| l.first <= code);
        begun > 0 && code <= self.listings[begun - 1].last
    }
}
