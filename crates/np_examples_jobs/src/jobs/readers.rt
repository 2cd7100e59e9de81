//! Readers of a job's files and of its text, all of one kind of device, and the jobs over them.
ghost use Rattle.std.specs.Prelude.{◌≡◌, ◌≤◌, ◌%◌, length};

use super::Ran;
use np_code_points::Form;
use np_code_points::watched::Watched;
use np_examples_shared::devices::{Ending, Trickle};
use np_jobs::{audit_job, compare_job, key_job, key_under_job, normalize_job};
use np_lines::{LineEnd, Wanted};
use np_lines_job::{LinesRun, lines_job};
use np_program::replay_job;
use std::alloc::Global;
use std::io::Read;

/// The jobs but `replay`.
#[derive(Clone, Copy)]
pub(super) enum Reading {
    Normalize,
    Key,
    KeyUnder,
    Compare,
    Audit,
    Lines,
}

/// The readers of a job: the files of two versions, and a text.
#[derive(Drop)]
pub(super) struct Readers<R> {
    pub data: Watched<R>,
    pub exclusions: Watched<R>,
    pub later_data: Watched<R>,
    pub later_exclusions: Watched<R>,
    pub text: Watched<R>,
}

/// A device that counts something: how often it was called, or how often its end was found.
pub(super) trait Counting {
    fn counted(&self) -> u64;
}

impl Counting for Trickle<'_> {
    fn counted(&self) -> u64 {
        self.calls()
    }
}

impl Counting for Ending<'_> {
    fn counted(&self) -> u64 {
        self.ends()
    }
}

/// What a device has counted.
pub(super) fn count_of<R: Counting + Drop>(device: Watched<R>) -> u64 {
    device.into_inner().counted()
}

/// What each of the readers has counted.
pub(super) fn counts_of<R: Counting + Drop>(readers: Readers<R>) -> [u64; 5] {
    let Readers {
        data,
        exclusions,
        later_data,
        later_exclusions,
        text,
    } = readers;
    [
        count_of(data),
        count_of(exclusions),
        count_of(later_data),
        count_of(later_exclusions),
        count_of(text),
    ]
}

/// What is asked of lines.
const ASKED: LinesRun = LinesRun {
    wanted: Wanted {
        form: Form::Nfc,
        end: LineEnd::Lf,
    },
    is_strict: false,
};

/// The status of a job over these readers.
fn status_over<R: Read>(
    alloc: Global,
    reading: Reading,
    readers: &mut Readers<R>,
    output: &mut Watched<Vec<u8>>,
    error: &mut Watched<Vec<u8>>,
) -> u8 {
    let form = Form::Nfc;
    let Readers {
        data,
        exclusions,
        later_data,
        later_exclusions,
        text,
    } = readers;
    match reading {
        Reading::Normalize => normalize_job(alloc, form, data, exclusions, text, output, error),
        Reading::Key => key_job(alloc, form, data, exclusions, text, output, error),
        Reading::KeyUnder => key_under_job(
            alloc,
            form,
            data,
            exclusions,
            later_data,
            later_exclusions,
            text,
            output,
            error,
        ),
        Reading::Compare => compare_job(alloc, form, data, exclusions, text, output, error),
        Reading::Audit => audit_job(
            alloc,
            data,
            exclusions,
            later_data,
            later_exclusions,
            output,
            error,
        ),
        Reading::Lines => lines_job(alloc, ASKED, data, exclusions, text, output, error),
    }
}

/// The run of a job over these readers.
pub(super) fn run_over<R: Read>(alloc: Global, reading: Reading, readers: &mut Readers<R>) -> Ran {
    let mut output = Watched::new(Vec::new(alloc));
    let mut error = Watched::new(Vec::new(alloc));
    let status = status_over(alloc, reading, readers, &mut output, &mut error);
    Ran {
        status,
        output: output.into_inner(),
        error: error.into_inner(),
    }
}

/// The run of a replay over these readers.
pub(super) fn replay_over<R: Read>(
    alloc: Global,
    schedule: &mut Watched<R>,
    files: &mut [Watched<R>],
) -> Ran
    requires even { length files.old % 2 ≡ 0 }
    requires some { 2 ≤ length files.old }
{
    let mut output = Watched::new(Vec::new(alloc));
    let mut error = Watched::new(Vec::new(alloc));
    let status = replay_job(alloc, Form::Nfc, schedule, files, &mut output, &mut error);
    Ran {
        status,
        output: output.into_inner(),
        error: error.into_inner(),
    }
}
