//! The jobs over the fixtures and over devices that fail.
mod commands;
mod devices;
mod ends;
pub(crate) mod opening;
mod outputs;
mod readers;
mod refusals;
mod replays;
pub(crate) mod words;

ghost use Rattle.std.specs.Prelude.{◌≡◌, ◌≤◌, ◌%◌, length};

use np_code_points::Form;
use np_code_points::watched::Watched;
use np_examples_shared::fixtures::V1_EXCLUSIONS;
use np_examples_shared::{Files, want};
use np_jobs::{audit_job, compare_job, key_job, key_under_job, normalize_job};
use np_program::replay_job;
use std::alloc::Global;
use std::io::Write;
use std::test::Fail;

/// The commands on one text.
#[derive(Clone, Copy)]
enum Command {
    Normalize,
    Key,
    Compare,
}

/// A job and what it reads: a form, a data file beside the first fixture's exclusions and a text; a form, two versions
/// and a text; two versions; or a schedule over one version or two, under NFC.
#[derive(Clone, Copy)]
enum Job<'a> {
    Text(Command, Form, &'a str, &'a [u8]),
    KeyUnder(Form, Files<'a>, Files<'a>, &'a [u8]),
    Audit(Files<'a>, Files<'a>),
    ReplayOverOne(&'a str, Files<'a>),
    ReplayOverTwo(&'a str, Files<'a>, Files<'a>),
}

/// The status of a job into these writers.
fn job_into<O: Write, E: Write>(
    alloc: Global,
    job: &Job<'_>,
    output: &mut Watched<O>,
    error: &mut Watched<E>,
) -> u8 {
    match job {
        Job::Text(command, form, data, input) => {
            text_into(alloc, (*command, *form), data, input, output, error)
        }
        Job::KeyUnder(form, old, new, input) => {
            key_under_into(alloc, *form, (*old, *new), input, output, error)
        }
        Job::Audit(old, new) => audit_into(alloc, *old, *new, output, error),
        Job::ReplayOverOne(schedule, files) => {
            replay_over_one(alloc, schedule, *files, output, error)
        }
        Job::ReplayOverTwo(schedule, old, new) => {
            replay_over_two(alloc, schedule, (*old, *new), output, error)
        }
    }
}

fn text_into<O: Write, E: Write>(
    alloc: Global,
    (command, form): (Command, Form),
    data: &str,
    input: &[u8],
    output: &mut Watched<O>,
    error: &mut Watched<E>,
) -> u8 {
    let mut data = Watched::new(data.as_bytes());
    let mut exclusions = Watched::new(V1_EXCLUSIONS.as_bytes());
    let mut input = Watched::new(input);
    let (data, exclusions, input) = (&mut data, &mut exclusions, &mut input);
    match command {
        Command::Normalize => normalize_job(alloc, form, data, exclusions, input, output, error),
        Command::Key => key_job(alloc, form, data, exclusions, input, output, error),
        Command::Compare => compare_job(alloc, form, data, exclusions, input, output, error),
    }
}

fn key_under_into<O: Write, E: Write>(
    alloc: Global,
    form: Form,
    (old, new): (Files<'_>, Files<'_>),
    input: &[u8],
    output: &mut Watched<O>,
    error: &mut Watched<E>,
) -> u8 {
    let mut old_data = Watched::new(old.0.as_bytes());
    let mut old_exclusions = Watched::new(old.1.as_bytes());
    let mut data = Watched::new(new.0.as_bytes());
    let mut exclusions = Watched::new(new.1.as_bytes());
    let mut input = Watched::new(input);
    key_under_job(
        alloc,
        form,
        &mut old_data,
        &mut old_exclusions,
        &mut data,
        &mut exclusions,
        &mut input,
        output,
        error,
    )
}

fn audit_into<O: Write, E: Write>(
    alloc: Global,
    old: Files<'_>,
    new: Files<'_>,
    output: &mut Watched<O>,
    error: &mut Watched<E>,
) -> u8 {
    let mut old_data = Watched::new(old.0.as_bytes());
    let mut old_exclusions = Watched::new(old.1.as_bytes());
    let mut data = Watched::new(new.0.as_bytes());
    let mut exclusions = Watched::new(new.1.as_bytes());
    audit_job(
        alloc,
        &mut old_data,
        &mut old_exclusions,
        &mut data,
        &mut exclusions,
        output,
        error,
    )
}

fn replay_over_one<O: Write, E: Write>(
    alloc: Global,
    schedule: &str,
    (data, exclusions): Files<'_>,
    output: &mut Watched<O>,
    error: &mut Watched<E>,
) -> u8 {
    let mut files = [
        Watched::new(data.as_bytes()),
        Watched::new(exclusions.as_bytes()),
    ];
    replay_into(alloc, schedule, &mut files, output, error)
}

fn replay_over_two<O: Write, E: Write>(
    alloc: Global,
    schedule: &str,
    (old, new): (Files<'_>, Files<'_>),
    output: &mut Watched<O>,
    error: &mut Watched<E>,
) -> u8 {
    let mut files = [
        Watched::new(old.0.as_bytes()),
        Watched::new(old.1.as_bytes()),
        Watched::new(new.0.as_bytes()),
        Watched::new(new.1.as_bytes()),
    ];
    replay_into(alloc, schedule, &mut files, output, error)
}

fn replay_into<'a, O: Write, E: Write>(
    alloc: Global,
    schedule: &'a str,
    files: &mut [Watched<&'a [u8]>],
    output: &mut Watched<O>,
    error: &mut Watched<E>,
) -> u8
    requires even { length files.old % 2 ≡ 0 }
    requires some { 2 ≤ length files.old }
{
    let mut schedule = Watched::new(schedule.as_bytes());
    replay_job(alloc, Form::Nfc, &mut schedule, files, output, error)
}

/// Status, standard output and standard error of a run.
#[derive(Drop)]
pub(crate) struct Ran {
    pub status: u8,
    pub output: Vec<u8>,
    pub error: Vec<u8>,
}

/// What a run has to answer: its status, and what it writes to the output or tells.
pub(crate) type Answer<'a> = (u8, &'a str, &'a str);

/// Whether a run answers so.
pub(crate) fn is_answer(ran: &Ran, answer: &Answer<'_>) -> bool {
    let (status, output, error) = answer;
    ran.status == *status
        && ran.output.as_slice() == output.as_bytes()
        && ran.error.as_slice() == error.as_bytes()
}

/// The run of a job.
fn run(alloc: Global, job: &Job<'_>) -> Ran {
    let mut output = Watched::new(Vec::new(alloc));
    let mut error = Watched::new(Vec::new(alloc));
    let status = job_into(alloc, job, &mut output, &mut error);
    Ran {
        status,
        output: output.into_inner(),
        error: error.into_inner(),
    }
}

/// Fails with these words unless the run of a job answers so.
fn wants_answer(alloc: Global, job: &Job<'_>, answer: &Answer<'_>, what: &str) -> Result<(), Fail> {
    let ran = run(alloc, job);
    want(is_answer(&ran, answer), what)
}

/// Jobs, their answers, and what they show.
type JobRow = (Job<'static>, Answer<'static>, &'static str);

fn are_answered(alloc: Global, rows: &[JobRow]) -> Result<(), Fail> {
    for (job, answer, what) in rows {
        wants_answer(alloc, job, answer, what)?;
    }
    Ok(())
}
