//! Caseless keys over tables that are read from files: the program.
#![tactic(auto)]

use np_caseless_job::{NpssCaseless, caseless_usage_text, parse_words, tell_refused};
use np_code_points::watched::Watched;
use np_habits::{PipedOutput, QuietError};
use np_jobs::{
    JobFault, Resources, Streams, SystemFiles, refuse, refuse_words, run_parsed, take_standard,
};
use std::cell::Cell;
use std::process::ExitCode;

fn main(rt: HostRuntime) -> ExitCode {
    let alloc = rt.alloc();
    let mut standard = take_standard(&rt);
    let words = match std::env::args(&rt) {
        Ok(words) => words,
        Err(why) => {
            let error = &mut standard.streams.error;
            let status = refuse_words(alloc, error, caseless_usage_text(), &why);
            return ExitCode::from(status);
        }
    };
    let Ok(words) = words.skip(1).collect::<Vec<String>>(alloc) else {
        let error = &mut standard.streams.error;
        return ExitCode::from(refuse(alloc, error, &JobFault::Memory));
    };
    let found = parse_words(alloc, words.as_slice());
    let Streams {
        input,
        output,
        error,
    } = standard.streams;
    let is_unread = Cell::new(false);
    let mut streams = Streams {
        input,
        output: Watched::new(PipedOutput::new(output.into_inner(), &is_unread)),
        error: Watched::new(QuietError::new(error.into_inner(), &is_unread)),
    };
    let with = Resources {
        alloc,
        opener: &SystemFiles::new(&rt),
    };
    tell_refused(alloc, &mut streams.error, words.as_slice(), &found);
    let status = run_parsed::<NpssCaseless, _, _, _, _>(&with, &found, &mut streams);
    ExitCode::from(status)
}
