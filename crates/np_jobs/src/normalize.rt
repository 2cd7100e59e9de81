//! The command `normalize`: the normal form of an input, as it is read.
ghost use Rattle.std.specs.Prelude.{◌≡◌};
ghost use Rattle.np_jobs.specs.NormalForms.{IsNormalized, IsNotNormalized, told_as};

use crate::faults::{JobFault, TextFault};
use crate::statuses::DONE;
use crate::streaming::StreamingJob;
use np_code_points::Form;
use np_code_points::input::InputFault;
use np_code_points::watched::Watched;
use np_forms::{RunFault, run};
use np_versions::NormTable;
use std::alloc::Global;
use std::io::{Read, Write};

/// The fault of the job that the fault of a run is.
fn job_fault_of(fault: RunFault) -> JobFault
    ensures { result ≡ told_as fault }
{
    let fault = match fault {
        RunFault::WriteFailed => return JobFault::WriteFailed,
        RunFault::NotUtf8 { at } => TextFault::NotUtf8 { at: at as usize },
        RunFault::ReadFailed => TextFault::Input {
            fault: InputFault::ReadFailed,
        },
        RunFault::TooLarge => TextFault::Input {
            fault: InputFault::TooLarge,
        },
        RunFault::Memory => TextFault::Memory,
    };
    JobFault::Text { fault }
}

/// The job `normalize`, as a value.
#[derive(Clone, Copy)]
pub struct NormalizeJob {
    /// The form that is written.
    pub form: Form,
}

impl StreamingJob for NormalizeJob {
    ghost Runs = { λ job. IsNormalized job.form };

    ghost Stops = { λ job. IsNotNormalized job.form };

    fn stream<T: NormTable, I: Read, O: Write>(
        &self,
        alloc: Global,
        table: &T,
        input: &mut Watched<I>,
        output: &mut Watched<O>,
    ) -> Result<u8, JobFault> {
        match run(alloc, table, self.form, input, output) {
            Ok(_) => Ok(DONE),
            Err(fault) => Err(job_fault_of(fault)),
        }
    }
}
