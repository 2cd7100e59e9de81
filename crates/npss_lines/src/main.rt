//! The key of each line of standard input, or why a line has none: the program.
#![tactic(auto)]

use np_code_points::watched::Watched;
use np_habits::{PipedOutput, QuietError};
use np_jobs::{
    JobFault, Resources, Streams, SystemFiles, refuse, refuse_words, run_parsed, take_standard,
};
use np_lines::LineEnd;
use np_lines_job::{LinesJob, NpssLines, Progress, lines_usage_text, parse_lines, tell_refused};
use np_words::WordsFault;
use std::cell::Cell;
use std::fs;
use std::io::IsTerminal;
use std::process::ExitCode;

/// What ends lines, where progress is asked for and standard error is a terminal.
fn end_where_shown(rt: &HostRuntime, found: &Result<LinesJob, WordsFault>) -> Option<LineEnd> {
    if !rt.stderr().is_terminal() {
        return None;
    }
    match found {
        Ok(
            LinesJob::Answer {
                asked,
                shows_progress,
                files: _,
            },
        ) => shows_progress.then_some(asked.wanted.end),
        Ok(
            LinesJob::AnswerCaselessly {
                asked,
                shows_progress,
                files: _,
            },
        ) => shows_progress.then_some(asked.wanted.end),
        Ok(LinesJob::Help | LinesJob::Version) | Err(WordsFault::Usage | WordsFault::Memory) => {
            None
        }
    }
}

/// How many bytes standard input has, where it is a file.
fn size_of_input(rt: &HostRuntime) -> Option<u64> {
    match fs::metadata(rt, "/dev/stdin") {
        Ok(known) => known.is_file().then_some(known.len()),
        Err(_) => None,
    }
}

fn main(rt: HostRuntime) -> ExitCode {
    let alloc = rt.alloc();
    let mut standard = take_standard(&rt);
    let words = match std::env::args(&rt) {
        Ok(words) => words,
        Err(why) => {
            let error = &mut standard.streams.error;
            let status = refuse_words(alloc, error, lines_usage_text(), &why);
            return ExitCode::from(status);
        }
    };
    let Ok(words) = words.skip(1).collect::<Vec<String>>(alloc) else {
        let error = &mut standard.streams.error;
        return ExitCode::from(refuse(alloc, error, &JobFault::Memory));
    };
    let found = parse_lines(alloc, words.as_slice());
    let shown = end_where_shown(&rt, &found);
    let Streams {
        input,
        output,
        error,
    } = standard.streams;
    let is_unread = Cell::new(false);
    let input = Progress::new(&rt, input.into_inner(), shown, size_of_input(&rt));
    let mut streams = Streams {
        input: Watched::new(input),
        output: Watched::new(PipedOutput::new(output.into_inner(), &is_unread)),
        error: Watched::new(QuietError::new(error.into_inner(), &is_unread)),
    };
    let with = Resources {
        alloc,
        opener: &SystemFiles::new(&rt),
    };
    tell_refused(alloc, &mut streams.error, words.as_slice(), &found);
    let status = run_parsed::<NpssLines, _, _, _, _>(&with, &found, &mut streams);
    ExitCode::from(status)
}
