//! The command `replay`: what nodes keep and tell, as a schedule has it, over a chain of versions.
ghost use Rattle.std.specs.Prelude.{◌≡◌, ◌<◌, ◌≤◌, ◌%◌, false, length, map, IfOk, IfErr, string_bytes};
ghost use Rattle.np_code_points.specs.Watched.{has_failed};
ghost use Rattle.np_chain.specs.Chain.{IsChain};
ghost use Rattle.np_schedules.specs.ScheduleFiles.{SaysSchedule};
ghost use Rattle.np_jobs.specs.Chains.{readers_of};
ghost use Rattle.np_jobs.specs.Streams.{stream_of};
ghost use Rattle.np_program.specs.Replays.{IsReplay, LacksLine, LacksReport, LacksSchedule, MakesReplay, RefusesReplay, ReplayEnds, WasScheduled};
ghost use Rattle.np_program.specs.inside.ReplaySteps.{MakesOverChain};

use np_chain::{Chain, ChainFault};
use np_code_points::input::read_whole;
use np_code_points::watched::Watched;
use np_code_points::{Form, Memory};
use np_jobs::{JobFault, JobOutput, JobTable, MadeTable, ReplayFault, finish, read_tables};
use np_versions::NormTable;
use np_world::{Schedule, ScheduleFault, read_schedule, replay, report_text};
use std::alloc::Global;
use std::io::{Read, Write};

/// The report on a schedule, as text.
fn report_of<T: NormTable>(
    alloc: Global,
    form: Form,
    chain: &Chain<'_, T>,
    schedule: &Schedule,
) -> Result<String, Memory>
    requires versions { schedule.now.versions ≡ length chain.now }
    requires some { 0 < length chain.now }
    ensures { IfOk result (λ text. IsReplay form (map T.model chain.now) schedule.now (string_bytes text)) }
{
    let report = replay(alloc, chain, form, schedule)?;
    report_text(alloc, &report)
}

/// The schedule over so many versions that the bytes say.
fn said_by(alloc: Global, versions: usize, script: &[u8]) -> Result<Schedule, ReplayFault>
    ensures says { IfOk result (SaysSchedule script.now) }
    ensures over { IfOk result (λ schedule. schedule.versions ≡ versions) }
    ensures refused { IfErr result (LacksLine script.now versions) }
{
    match read_schedule(alloc, script, versions) {
        Ok(schedule) => Ok(schedule),
        Err(ScheduleFault::Line { line }) => Err(ReplayFault::Line { line }),
        Err(ScheduleFault::Memory) => Err(ReplayFault::Memory),
    }
}

/// The schedule over so many versions that a file says.
fn schedule_in<F: Read>(
    alloc: Global,
    versions: usize,
    schedule_file: &mut Watched<F>,
) -> Result<Schedule, ReplayFault>
    ensures scheduled { IfOk result (WasScheduled (stream_of F.remaining schedule_file.old schedule_file.new) versions) }
    ensures refused { IfErr result (LacksSchedule (stream_of F.remaining schedule_file.old schedule_file.new) versions) }
{
    let script = match read_whole(alloc, schedule_file) {
        Ok(script) => script,
        Err(fault) => return Err(ReplayFault::Schedule { fault }),
    };
    said_by(alloc, versions, script.as_slice())
}

/// Reads the schedule, and replays it over a chain.
fn made_over_chain<T: NormTable, F: Read>(
    alloc: Global,
    form: Form,
    chain: &Chain<'_, T>,
    schedule_file: &mut Watched<F>,
) -> Result<JobOutput, ReplayFault>
    ensures made { IfOk result (MakesOverChain form (map T.model chain.now) (stream_of F.remaining schedule_file.old schedule_file.new)) }
    ensures chain { IfErr result (λ fault. IsChain (map T.model chain.now)) }
    ensures refused { IfErr result (LacksSchedule (stream_of F.remaining schedule_file.old schedule_file.new) (length (map T.model chain.now))) }
{
    // A chain's versions extend one another.
    chain.meets_conditions();
    let schedule = schedule_in(alloc, chain.len(), schedule_file)?;
    match report_of(alloc, form, chain, &schedule) {
        Ok(text) => Ok(JobOutput { text, is_yes: true }),
        Err(_) => Err(ReplayFault::Memory),
    }
}

/// Checks that the tables' versions are a chain, and replays the schedule over it.
fn made_over<T: NormTable, F: Read>(
    alloc: Global,
    form: Form,
    tables: &[T],
    schedule_file: &mut Watched<F>,
) -> Result<JobOutput, JobFault>
    requires some { 0 < length tables.now }
    requires clear { has_failed schedule_file.old ≡ false }
    ensures made { IfOk result (MakesOverChain form (map T.model tables.now) (stream_of F.remaining schedule_file.old schedule_file.new)) }
    ensures refused { IfErr result (LacksReport (stream_of F.remaining schedule_file.old schedule_file.new) (map T.model tables.now)) }
{
    match Chain::check(tables) {
        Ok(chain) => Ok(made_over_chain(alloc, form, &chain, schedule_file)?),
        Err(ChainFault::Broken { at, brk }) => Err(JobFault::NotExtension { version: at, brk }),
        Err(ChainFault::NoVersion) => unreachable!(),
    }
}

/// Reads the versions and the schedule, and replays it over their chain.
fn made_of_files<T: MadeTable, F: Read>(
    alloc: Global,
    form: Form,
    schedule_file: &mut Watched<F>,
    files: &mut [Watched<F>],
) -> Result<JobOutput, JobFault>
    requires { 2 ≤ length files.old }
    ensures made { IfOk result (λ m. MakesReplay form (record {
      schedule_file = stream_of F.remaining schedule_file.old schedule_file.new;
      versions = readers_of F.remaining files.old files.new;
    }) m.is_yes (string_bytes m.text)) }
    ensures refused { IfErr result (RefusesReplay (record {
      schedule_file = stream_of F.remaining schedule_file.old schedule_file.new;
      versions = readers_of F.remaining files.old files.new;
    })) }
{
    schedule_file.clear();
    let tables: Vec<T> = read_tables(alloc, files)?;
    made_over(alloc, form, tables.as_slice(), schedule_file)
}

/// Writes what nodes reply to the events of a schedule and what they keep at the end, over a chain
/// of versions that the files make, two for each. That is a line for each event, then one for each
/// node and for each string that it keeps. Answers the status, 1 where a version does not extend the
/// one before. A refusal is told in a line on `error`, and leaves the output as it was.
pub fn replay_job<F: Read, O: Write, E: Write>(
    alloc: Global,
    form: Form,
    schedule_file: &mut Watched<F>,
    files: &mut [Watched<F>],
    output: &mut Watched<O>,
    error: &mut Watched<E>,
) -> u8
    requires even { length files.old % 2 ≡ 0 }
    requires some { 2 ≤ length files.old }
    ensures { ReplayEnds form (record {
      schedule_file = stream_of F.remaining schedule_file.old schedule_file.new;
      versions = readers_of F.remaining files.old files.new;
    }) (stream_of O.contents output.old output.new) (stream_of E.contents error.old error.new) result }
{
    let made = made_of_files::<JobTable, F>(alloc, form, schedule_file, files);
    finish(alloc, output, error, made)
}
