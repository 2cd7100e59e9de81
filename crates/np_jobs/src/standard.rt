//! The standard streams, whichever of them a program was started with.
ghost use Rattle.std.specs.Prelude.{◌≡◌, false, IsErr};
ghost use Rattle.std.specs.Io.{ReadsAtMost};
ghost use Rattle.std.specs.Io.KnownBytes.{ReadConsumes};
ghost use Rattle.np_code_points.specs.Watched.{has_failed};
ghost use Rattle.np_jobs.specs.StandardInputs.{left_of};

use crate::streams::Streams;
use np_code_points::watched::Watched;
use std::alloc::Global;
use std::io::{Error, Read, Result, Stderr, Stdin, Stdout};
use std::os::fd::AsFd;

/// What the system says of a descriptor that is not open (`EBADF`).
const NOT_OPEN: i32 = 9;

/// Standard input, whether or not the program was started with it. The system gives the descriptor of
/// one that is closed to the file that is opened next, so a closed one is never read.
#[derive(Drop)]
pub enum StandardInput<S> {
    /// It was open: reads answer what the stream answers.
    Open(S),
    /// It was closed: each read fails.
    Closed,
}

impl<S: Read> Read for StandardInput<S> {
    ghost remaining = { left_of S.remaining };

    fn read(&mut self, buf: &mut [u8]) -> Result<usize>
        ensures bound { ReadsAtMost result buf.new }
        ensures bytes { ReadConsumes (left_of S.remaining self.old) (left_of S.remaining self.new) result buf.new }
        ensures closed { self.old ≡ StandardInput.Closed → IsErr result }
    {
        match self {
            StandardInput::Open(stream) => stream.read(buf),
            StandardInput::Closed => Err(Error::from_raw_os_error(NOT_OPEN)),
        }
    }
}

/// The standard streams. A named file may have the descriptor of an output that was closed at the start;
/// it is opened for reading alone, so each write fails then as it does on a closed stream.
pub type StandardStreams = Streams<StandardInput<Stdin>, Stdout, Stderr>;

/// The standard streams of a program, and memory that it keeps as long as them.
#[derive(Drop)]
pub struct Standard {
    pub streams: StandardStreams,
    behind: Option<Vec<u8>>,
}

/// Whether the program was started with a stream open.
fn is_open<S: AsFd>(stream: &S) -> bool {
    match stream.as_fd().try_clone_to_owned() {
        Ok(_) => true,
        Err(why) => why.raw_os_error() != Some(NOT_OPEN),
    }
}

/// Half a MiB more than the text of a data file takes, in bytes: its list grows by doubling to 2 MiB.
const LARGE: usize = 2_621_440;

/// Takes so many bytes and gives them back untouched. From then on the C library keeps pieces up to that
/// size for what is wanted next, where it else hands each back to the system.
fn give_back(alloc: Global, count: usize) {
    // where so much isn't there nothing is lost
    let _given_back: Option<Vec<u8>> = Vec::with_capacity(alloc, count).ok();
}

/// Leaves room for the text of a data file in front of all that is kept: what is answered stands behind
/// it, so that it stays in one piece. The text of each later version stands where that of the first one
/// stood, and so does a table. So a start has fewer page faults, and a second version half as many.
fn leave_room(alloc: Global) -> Option<Vec<u8>> {
    // a larger piece would make a long input leave its first list behind
    give_back(alloc, LARGE + 65_536);
    let _room: Option<Vec<u8>> = Vec::with_capacity(alloc, LARGE).ok();
    Vec::with_capacity(alloc, 1).ok()
}

/// The standard streams, to be taken before any file is opened. From then on the program keeps the memory that a data
/// file gives back, as long as the streams are there.
pub fn take_standard(rt: &HostRuntime) -> Standard
    ensures input { has_failed result.streams.input ≡ false }
    ensures output { has_failed result.streams.output ≡ false }
    ensures error { has_failed result.streams.error ≡ false }
{
    let behind = leave_room(rt.alloc());
    let stream = rt.stdin();
    let input = if is_open(&stream) {
        StandardInput::Open(stream)
    } else {
        StandardInput::Closed
    };
    let streams = Streams {
        input: Watched::new(input),
        output: Watched::new(rt.stdout()),
        error: Watched::new(rt.stderr()),
    };
    Standard { streams, behind }
}
