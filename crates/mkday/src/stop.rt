// What keeps a day from being whole.
use crate::told::{say, tell_refusal};
use making::making::Refused;
use std::io;
use std::process::ExitCode;

// The status of a run whose output nobody reads: what a shell gives for a program that SIGPIPE ended.
const AS_BY_SIGPIPE: u8 = 141;

// A line is refused, or the input or the output failed; or nobody reads the output any more.
#[derive(Clone, Copy)]
pub enum Stop {
    Refused(Refused),
    Unread,
    Unwritten,
    Unwanted,
}

impl Stop {
    // Of an output that failed.
    pub fn of_output(e: io::Error) -> Stop {
        if e.kind() == io::ErrorKind::BrokenPipe {
            Stop::Unwanted
        } else {
            Stop::Unwritten
        }
    }

    // What went wrong is said by words; where nobody reads there is nothing to say, and the status tells it.
    pub fn status(self) -> ExitCode {
        match self {
            Stop::Unwanted => ExitCode::from(AS_BY_SIGPIPE),
            Stop::Refused(_) | Stop::Unread | Stop::Unwritten => ExitCode::SUCCESS,
        }
    }

    // Says on standard error what went wrong; a refused line that tells a word is the one at hand.
    pub fn tell<W: io::Write>(self, err: &mut W, line: &[u8]) {
        match self {
            Stop::Refused(refused) => tell_refusal(err, refused, line),
            Stop::Unread => say(err, "FAILED reading\n"),
            Stop::Unwritten => say(err, "FAILED writing\n"),
            Stop::Unwanted => (),
        }
    }
}
