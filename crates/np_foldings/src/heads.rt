//! What a record is held against: the code point and the status of the record before.
ghost use Rattle.std.specs.Prelude.{◌≡◌};
ghost use Rattle.np_foldings.specs.Statuses.{place_of};
ghost use Rattle.np_foldings.specs.inside.HeadReading.{is_behind as behind, is_out_of_order as out_of_order, conflicts as conflict};

use crate::statuses::Status;

/// The code point and the status of a record.
#[derive(Clone, Copy)]
pub(crate) struct Head {
    pub code: u32,
    pub status: Status,
}

/// Where a status stands in the order of the records of one code point.
fn place(status: Status) -> u8
    ensures { result ≡ place_of status }
{
    match status {
        Status::Common => 1,
        Status::Full => 2,
        Status::Simple => 3,
        Status::Turkic => 4,
    }
}

/// Whether the record before is one of this code point and of this status.
fn is_behind(before: Option<Head>, code: u32, status: Status) -> bool
    ensures { result ≡ behind before code status }
{
    match before {
        Some(before) => before.code == code && place(before.status) == place(status),
        None => false,
    }
}

/// Whether a record does not come behind the one before.
pub(crate) fn is_out_of_order(before: Option<Head>, head: Head) -> bool
    ensures { result ≡ out_of_order before head }
{
    match before {
        Some(before) => {
            head.code < before.code
                || head.code == before.code && place(head.status) <= place(before.status)
        }
        None => false,
    }
}

/// Whether a record's status does not go with the one before: a full folding beside a common one, or
/// a simple one without a full one.
pub(crate) fn conflicts(before: Option<Head>, head: Head) -> bool
    ensures { result ≡ conflict before head }
{
    match head.status {
        Status::Full => is_behind(before, head.code, Status::Common),
        Status::Simple => !is_behind(before, head.code, Status::Full),
        Status::Common | Status::Turkic => false,
    }
}
