//! The least of some numbers.
ghost use Rattle.std.specs.Prelude.{◌≡◌};
ghost use Rattle.np_caseless.specs.inside.Leasts.{least as least_of};

/// The least of a number that there may be and of another.
pub(crate) fn least(one: Option<u32>, other: u32) -> Option<u32>
    ensures { result ≡ least_of one other }
{
    match one {
        Some(one) if one <= other => Some(one),
        _ => Some(other),
    }
}
