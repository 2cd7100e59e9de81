//! Calls that were refused for want of memory: what they were lent is as it was, and the same call succeeds
//! after all.
ghost use Rattle.std.specs.Prelude.{◌≡◌, IfOk, length};

use np_chain::Chain;
use np_code_points::{Form, Memory};
use np_examples_shared::scripts::{
    EXCHANGE_REPORT, EXCHANGE_SCHEDULE, RESTART_REPORT, RESTART_SCHEDULE,
};
use np_examples_shared::{Files, V1, V2, again_where, tables_of, want};
use np_tables::RowTable;
use np_world::{Report, Schedule, ScheduleFault, read_schedule, replay, report_text};
use std::alloc::Global;
use std::test::Fail;

const BOTH: &[Files] = &[V1, V2];

/// The calls that can want memory.
#[derive(Clone, Copy, PartialEq, Eq)]
enum Call {
    ReadSchedule,
    Replay,
    ReportText,
}

/// The schedule, read a second time where memory was refused and that is asked for.
fn schedule_of(
    alloc: Global,
    script: &str,
    versions: usize,
    again: bool,
) -> Result<Schedule, ScheduleFault>
    ensures { IfOk result (λ schedule. schedule.versions ≡ versions) }
{
    again_where(
        again,
        &ScheduleFault::Memory,
        &|| { read_schedule(alloc, script.as_bytes(), versions) },
    )
}

/// Its report, likewise.
fn report_of<'t>(
    alloc: Global,
    chain: &Chain<'t, RowTable>,
    schedule: &Schedule,
    again: bool,
) -> Result<Report<'t, RowTable>, Memory>
    requires { schedule.now.versions ≡ length chain.now }
{
    again_where(
        again,
        &Memory,
        &|| { replay(alloc, chain, Form::Nfc, schedule) },
    )
}

/// The report's text, likewise.
fn text_of(alloc: Global, report: &Report<'_, RowTable>, again: bool) -> Result<String, Memory> {
    again_where(again, &Memory, &|| report_text(alloc, report))
}

/// The report's text.
fn tells(
    alloc: Global,
    report: &Report<'_, RowTable>,
    wanted: &str,
    call: Call,
) -> Result<(), Fail> {
    let text = text_of(alloc, report, call == Call::ReportText)?;
    want(text.as_str() == wanted, wanted)
}

/// The report on a schedule.
fn reports_on(
    alloc: Global,
    chain: &Chain<'_, RowTable>,
    schedule: &Schedule,
    wanted: &str,
    call: Call,
) -> Result<(), Fail>
    requires { schedule.now.versions ≡ length chain.now }
{
    let report = report_of(alloc, chain, schedule, call == Call::Replay)?;
    tells(alloc, &report, wanted, call)
}

fn reports(
    alloc: Global,
    tables: &[RowTable],
    script: &str,
    wanted: &str,
    call: Call,
) -> Result<(), Fail> {
    let chain = Chain::check(tables)?;
    let schedule = schedule_of(alloc, script, chain.len(), call == Call::ReadSchedule)?;
    reports_on(alloc, &chain, &schedule, wanted, call)
}

/// The call over two scripts.
fn succeeds(alloc: Global, tables: &[RowTable], call: Call) -> Result<(), Fail> {
    reports(alloc, tables, EXCHANGE_SCHEDULE, EXCHANGE_REPORT, call)?;
    reports(alloc, tables, RESTART_SCHEDULE, RESTART_REPORT, call)
}

fn succeeds_over(alloc: Global, call: Call) -> Result<(), Fail> {
    let tables = tables_of(alloc, BOTH)?;
    succeeds(alloc, tables.as_slice(), call)
}

#[test]
fn a_refused_read_schedule_succeeds_after_all(rt: HostRuntime) -> Result<(), Fail> {
    succeeds_over(rt.alloc(), Call::ReadSchedule)
}

#[test]
fn a_refused_replay_succeeds_after_all(rt: HostRuntime) -> Result<(), Fail> {
    succeeds_over(rt.alloc(), Call::Replay)
}

#[test]
fn a_refused_report_text_succeeds_after_all(rt: HostRuntime) -> Result<(), Fail> {
    succeeds_over(rt.alloc(), Call::ReportText)
}
