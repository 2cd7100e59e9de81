//! The law of schedules, over the definitions alone: a function that does nothing, and whose contract
//! is what is proved.
ghost use Rattle.std.specs.Prelude.{ℕ, List};
ghost use Rattle.np_schedules.specs.ReadingLaws.{HasOneReading};

/// Bytes say one schedule over so many versions, or one of their lines is the first that can't
/// stand; and never both.
pub fn one_schedule()
    ensures { (bytes : List ℕ) (versions : ℕ) → HasOneReading bytes versions }
{}
