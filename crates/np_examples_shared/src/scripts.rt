//! Schedules for tests, and the reports that they give under NFC.
//!
//! The same texts lie in the folder `fixtures/` of the repository.

/// Messages that are delivered before and after an upgrade, and more than once; over both versions of the fixtures.
pub const EXCHANGE_SCHEDULE: &str = "\
room 4
nodes 0 1
accept 1 16D63 16D67 16D67
accept 1 16D6A
deliver 0 0
deliver 0 0
upgrade 0
deliver 0 0
deliver 0 1
deliver 0 0
deliver 0 9
ask 0 16D63 16D67 16D67 / 16D6A
ask 1 16D63 16D67 16D67 / 16D6A
upgrade 0
";

/// What comes of it.
pub const EXCHANGE_REPORT: &str = "\
0 kept 0
1 kept 1
2 unassigned 16D63 at byte 0
3 unassigned 16D63 at byte 0
4 version 1
5 kept
6 kept
7 known
8 no message
9 equal
10 equal
11 last version
node 0 version 1 entries 2
entry 16D63 16D67 16D67 / 16D6A
entry 16D6A / 16D6A
node 1 version 1 entries 2
entry 16D63 16D67 16D67 / 16D6A
entry 16D6A / 16D6A
";

/// A node that saves, goes on and restarts, and a message that brings back what it lost; over both versions.
pub const RESTART_SCHEDULE: &str = "\
room 4
nodes 0
accept 0 0061 0302
accept 0 212B
save 0
upgrade 0
accept 0 16D68
restart 0
ask 0 16D68 / 16D68
deliver 0 2
ask 0 212B / 0061 0302
";

/// What comes of it.
pub const RESTART_REPORT: &str = "\
0 kept 0
1 kept 1
2 saved
3 version 1
4 kept 2
5 restarted
6 not kept
7 kept
8 different
node 0 version 1 entries 3
entry 0061 0302 / 00E2
entry 212B / 00C5
entry 16D68 / 16D68
";

/// Bytes that no node sent; over the first version alone.
pub const FORGED_SCHEDULE: &str = "\
room 1
nodes 0
forge 0
forge 0 440000000000000000
forge 0 4300000001ff00000000
forge 0 4300000003efbfbe00000003efbfbe
forge 0 430000000361cc820000000361cc82
forge 0 430000000361cc8200000002c3a2
forge 0 430000000361cc8200000002c3a2
forge 0 430000000000000000
";

/// What comes of it.
pub const FORGED_REPORT: &str = "\
0 malformed at 0
1 other form
2 not UTF-8 at byte 0
3 unassigned FFFE at byte 0
4 key differs
5 kept
6 known
7 full
node 0 version 0 entries 1
entry 0061 0302 / 00E2
";

/// A node that restarts under versions that the schedule names, at last under tables older than those
/// it saved under; over both versions.
pub const OLDER_SCHEDULE: &str = "\
room 4
nodes 1
accept 0 0061 0302
restart 0 0
accept 0 16D68
deliver 0 0
save 0
restart 0 1
accept 0 16D68
restart 0 0
upgrade 0
save 0
restart 0 0
restart 0
";

/// What comes of it.
pub const OLDER_REPORT: &str = "\
0 kept 0
1 restarted
2 unassigned 16D68 at byte 0
3 kept
4 saved
5 restarted
6 kept 1
7 restarted
8 version 1
9 saved
10 older tables 17666 17660
11 restarted
node 0 version 1 entries 1
entry 0061 0302 / 00E2
";

/// A node that forgets strings, and what brings them back; over the first version alone.
pub const FORGETTING_SCHEDULE: &str = "\
room 1
nodes 0
accept 0 212B
save 0
forget 0 212B
forget 0 212B
accept 0 0061
deliver 0 0
forget 0 0061
deliver 0 0
accept 0 212B
forget 0 212B
restart 0
";

/// What comes of it.
pub const FORGETTING_REPORT: &str = "\
0 kept 0
1 saved
2 forgotten
3 not kept
4 kept 1
5 full
6 forgotten
7 kept
8 known
9 forgotten
10 restarted
node 0 version 0 entries 1
entry 212B / 00C5
";
