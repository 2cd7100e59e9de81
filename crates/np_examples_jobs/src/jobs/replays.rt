//! Worked examples of `replay` over the fixtures, and what comes first of several faults.
use super::{Job, JobRow, are_answered, wants_answer};
use np_examples_shared::fixtures::{V1_EXCLUSIONS, V2_EXCLUSIONS};
use np_examples_shared::scripts::{
    EXCHANGE_REPORT, EXCHANGE_SCHEDULE, FORGED_REPORT, FORGED_SCHEDULE, FORGETTING_REPORT,
    FORGETTING_SCHEDULE, OLDER_REPORT, OLDER_SCHEDULE, RESTART_REPORT, RESTART_SCHEDULE,
};
use np_examples_shared::{Files, V1, V2};
use std::alloc::Global;
use std::test::Fail;

const SCRIPTS: &[JobRow] = &[
    (
        Job::ReplayOverTwo(EXCHANGE_SCHEDULE, V1, V2),
        (0, EXCHANGE_REPORT, ""),
        "exchange",
    ),
    (
        Job::ReplayOverTwo(RESTART_SCHEDULE, V1, V2),
        (0, RESTART_REPORT, ""),
        "restart",
    ),
    (
        Job::ReplayOverOne(FORGED_SCHEDULE, V1),
        (0, FORGED_REPORT, ""),
        "forged",
    ),
    (
        Job::ReplayOverTwo(OLDER_SCHEDULE, V1, V2),
        (0, OLDER_REPORT, ""),
        "older",
    ),
    (
        Job::ReplayOverOne(FORGETTING_SCHEDULE, V1),
        (0, FORGETTING_REPORT, ""),
        "forgetting",
    ),
];

#[test]
fn scripts_have_their_reports(rt: HostRuntime) -> Result<(), Fail> {
    are_answered(rt.alloc(), SCRIPTS)
}

/// Schedules that can't stand, and how that is told.
const FAULTY: &[(&str, &str)] = &[
    ("", "schedule: line 1\n"),
    ("room 70000\n", "schedule: line 1\n"),
    ("room 4\n", "schedule: line 2\n"),
    ("room 4\nnodes 1\n", "schedule: line 2\n"),
    ("room 4\nnodes 0\naccept 1 0061\n", "schedule: line 3\n"),
];

fn are_faulty(alloc: Global, rows: &[(&str, &str)]) -> Result<(), Fail> {
    for (schedule, line) in rows {
        let replay = Job::ReplayOverOne(schedule, V1);
        wants_answer(alloc, &replay, &(4, "", line), schedule)?;
    }
    Ok(())
}

#[test]
fn schedules_that_do_not_stand_are_told(rt: HostRuntime) -> Result<(), Fail> {
    are_faulty(rt.alloc(), FAULTY)
}

/// A data file with a fault.
const SHORT: &str = "41;X;Lu;0;L;;;;;N;;;;;\n";

const FIRST_SHORT: Files = (SHORT, V1_EXCLUSIONS);

const SECOND_SHORT: Files = (SHORT, V2_EXCLUSIONS);

/// A schedule that can't stand.
const BAD: &str = "room 70000\n";

const FIRST_FAULTS: &[JobRow] = &[
    (
        Job::ReplayOverTwo(BAD, V2, SECOND_SHORT),
        (4, "", "version 1 data: line 1: BadCode\n"),
        "a version before the chain",
    ),
    (
        Job::ReplayOverTwo(BAD, FIRST_SHORT, SECOND_SHORT),
        (4, "", "version 0 data: line 1: BadCode\n"),
        "the first version",
    ),
    (
        Job::ReplayOverTwo(BAD, V2, V1),
        (1, "", "not an extension: version 1 Lost 1DFA\n"),
        "the chain before the schedule",
    ),
];

#[test]
fn the_first_of_several_faults_is_told(rt: HostRuntime) -> Result<(), Fail> {
    are_answered(rt.alloc(), FIRST_FAULTS)
}
