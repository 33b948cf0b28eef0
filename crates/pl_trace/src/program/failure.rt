//! Why the program ends early.

ghost use Rattle.std.specs.Prelude.{◌≤◌};

use pl_build::BuildFault;
use pl_text::{MovesFault, SessionFault};
use pl_world::ReplayFault;
use std::alloc::AllocError;
use std::io::ErrorKind;
use std::{fmt, io};
use thiserror::Error;

/// Why the program ends early, with the line and the status of `pl_tool` (`docs/FORMATS.md`, "Program").
#[derive(Clone, Copy, Debug, PartialEq, Eq, Error)]
pub(super) enum Failure {
    /// The command line was not read.
    #[error("command line refused")]
    Usage,
    /// The moves were not read.
    #[error("moves refused: {0}")]
    Moves(MovesFault),
    /// A move names what is not there.
    #[error("replay refused: {0}")]
    Replay(ReplayFault),
    /// A file or standard input was not read.
    #[error("input refused")]
    Input,
    /// The session was refused.
    #[error("session refused: {0}")]
    Session(SessionFault),
    /// Out of memory.
    #[error("out of memory")]
    Memory,
    /// A write failed.
    #[error("output refused")]
    Output,
}

impl Failure {
    /// The failure of arguments that could not be taken from the system.
    pub(super) fn of_args(error: &io::Error) -> Failure {
        match error.kind() {
            ErrorKind::OutOfMemory => Failure::Memory,
            _ => Failure::Usage,
        }
    }

    /// The failure of a command line that was not read.
    pub(super) fn of_line(error: &clap::Error) -> Failure {
        match error.kind() {
            clap::error::ErrorKind::OutOfMemory => Failure::Memory,
            _ => Failure::Usage,
        }
    }

    /// The failure of a read.
    pub(super) fn of_read(error: &io::Error) -> Failure {
        match error.kind() {
            ErrorKind::OutOfMemory => Failure::Memory,
            _ => Failure::Input,
        }
    }

    /// The failure of a write.
    fn of_write(error: &io::Error) -> Failure {
        match error.kind() {
            ErrorKind::OutOfMemory => Failure::Memory,
            _ => Failure::Output,
        }
    }

    /// The status that the program ends with.
    pub(super) fn status(self) -> u8
        ensures { result ≤ 4 }
    {
        match self {
            Failure::Usage | Failure::Moves(_) | Failure::Replay(_) => 2,
            Failure::Input | Failure::Session(_) => 3,
            Failure::Memory | Failure::Output => 4,
        }
    }
}

impl From<ReplayFault> for Failure {
    fn from(fault: ReplayFault) -> Failure {
        match fault {
            ReplayFault::Memory => Failure::Memory,
            ReplayFault::NoSuch => Failure::Replay(fault),
        }
    }
}

impl From<SessionFault> for Failure {
    fn from(fault: SessionFault) -> Failure {
        match fault {
            SessionFault::Memory | SessionFault::Build(BuildFault::Memory) => Failure::Memory,
            _ => Failure::Session(fault),
        }
    }
}

/// A failure, and where what is refused stands.
#[derive(Debug, Drop)]
pub(super) struct Refusal {
    pub(super) failure: Failure,
    pub(super) place: Option<String>,
}

impl Refusal {
    /// A failure at a place.
    pub(super) fn at(failure: Failure, place: String) -> Refusal {
        Refusal {
            failure,
            place: Some(place),
        }
    }
}

/// A line for the failure, and one for the place.
impl fmt::Display for Refusal {
    fn fmt<W: fmt::Write>(&self, f: &mut fmt::Formatter<W>) -> fmt::Result {
        let failure = self.failure;
        match &self.place {
            Some(place) => writeln!(f, "{failure}\nat {}", place.as_str()),
            None => writeln!(f, "{failure}"),
        }
    }
}

impl From<Failure> for Refusal {
    fn from(failure: Failure) -> Refusal {
        Refusal {
            failure,
            place: None,
        }
    }
}

impl From<AllocError> for Refusal {
    fn from(_refused: AllocError) -> Refusal {
        Refusal::from(Failure::Memory)
    }
}

impl From<ReplayFault> for Refusal {
    fn from(fault: ReplayFault) -> Refusal {
        Refusal::from(Failure::from(fault))
    }
}

/// A write that failed.
impl From<io::Error> for Refusal {
    fn from(error: io::Error) -> Refusal {
        Refusal::from(Failure::of_write(&error))
    }
}
