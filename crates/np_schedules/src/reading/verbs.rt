//! The names of events.

/// What happens to a node, as the first word of an event's line names it.
#[derive(Clone, Copy)]
pub(crate) enum Verb {
    Accept,
    Deliver,
    Upgrade,
    Save,
    Restart,
    Ask,
    Forge,
    Forget,
}

impl Verb {
    ghost use Rattle.std.specs.Prelude.{◌≡◌};
    ghost use Rattle.np_schedules.specs.inside.LineValues.{verb_named};

    /// What the word names, if anything.
    #[tactic(auto, unfolding(crate::specs::inside::LineValues::verb_named))]
    pub(crate) fn of_name(name: &[u8]) -> Option<Verb>
        ensures { result ≡ verb_named name.now }
    {
        // comparisons one by one: a match over the bytes of names is far dearer to prove
        if name == b"accept".as_slice() {
            Some(Verb::Accept)
        } else if name == b"deliver".as_slice() {
            Some(Verb::Deliver)
        } else if name == b"upgrade".as_slice() {
            Some(Verb::Upgrade)
        } else if name == b"save".as_slice() {
            Some(Verb::Save)
        } else if name == b"restart".as_slice() {
            Some(Verb::Restart)
        } else if name == b"ask".as_slice() {
            Some(Verb::Ask)
        } else if name == b"forge".as_slice() {
            Some(Verb::Forge)
        } else if name == b"forget".as_slice() {
            Some(Verb::Forget)
        } else {
            None
        }
    }
}
