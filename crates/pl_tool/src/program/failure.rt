//! Why the program printed no report.

ghost use Rattle.std.specs.Prelude.{◌≡◌};
ghost use Rattle.std.specs.IoError.{error_kind};
ghost use Rattle.pl_tool.specs.declared.program.failure.Failure.TheVariants as failure;
ghost use Rattle.pl_tool.specs.ProgramFailures.{failure_of_print, failure_of_read, failure_of_args, or_memory, status_of, failure_line, build_line};

use pl_build::BuildFault;
use pl_exec::RunFault;
use pl_text::{MovesFault, PrintFault, SessionFault};
use pl_world::ReplayFault;
use std::io;
use std::io::ErrorKind;

/// Why the program printed no report.
#[derive(Clone, Copy, Debug, PartialEq, Eq)]
pub(crate) enum Failure {
    /// The command line was not read.
    Usage,
    /// The moves were not read.
    Moves(MovesFault),
    /// A move names what is not there.
    Replay(ReplayFault),
    /// A read failed.
    Input,
    /// The session was refused.
    Session(SessionFault),
    /// A run gave no report.
    Run(RunFault),
    /// Out of memory.
    Memory,
    /// The first writer failed.
    Output,
}

impl Failure {
    /// The failure of arguments that could not be taken from the system.
    pub(crate) fn of_args(error: &io::Error) -> Failure
        ensures { result ≡ failure_of_args (error_kind error.now) }
    {
        match error.kind() {
            ErrorKind::OutOfMemory => Failure::Memory,
            _ => Failure::Usage,
        }
    }

    /// The failure of a read, or None where the read was interrupted.
    pub(crate) fn of_read(error: &io::Error) -> Option<Failure>
        ensures { result ≡ failure_of_read (error_kind error.now) }
    {
        match error.kind() {
            ErrorKind::Interrupted => None,
            _ => Some(Failure::Input),
        }
    }

    /// The status that the program ends with.
    pub(crate) fn status(self) -> u8
        ensures { result ≡ status_of self }
    {
        match self {
            Failure::Usage | Failure::Moves(_) | Failure::Replay(_) => 2,
            Failure::Input | Failure::Session(_) => 3,
            Failure::Run(_) | Failure::Memory | Failure::Output => 4,
        }
    }

    /// The line for the second writer, with its LF.
    pub(crate) fn line(self) -> &'static str
        ensures { result.now ≡ failure_line self }
    {
        match self {
            Failure::Usage => {
                "usage: pl_tool replay [--moves MOVES] | run --queue waiting|ring | plain\n"
            }
            Failure::Moves(MovesFault::Form) => "moves refused: 1 Form\n",
            Failure::Moves(MovesFault::Limit) => "moves refused: 2 Limit\n",
            Failure::Replay(ReplayFault::NoSuch) => "replay refused: 1 NoSuch\n",
            Failure::Input => "input refused\n",
            Failure::Session(SessionFault::NotJson) => "session refused: 1 NotJson\n",
            Failure::Session(SessionFault::Version) => "session refused: 2 Version\n",
            Failure::Session(SessionFault::Missing) => "session refused: 3 Missing\n",
            Failure::Session(SessionFault::Kind) => "session refused: 4 Kind\n",
            Failure::Session(SessionFault::Limit) => "session refused: 5 Limit\n",
            Failure::Session(SessionFault::Build(fault)) => build_line(fault),
            Failure::Run(RunFault::Spawn) => "run refused: 2 Spawn\n",
            Failure::Output => "output refused\n",
            Failure::Moves(MovesFault::Memory)
            | Failure::Replay(ReplayFault::Memory)
            | Failure::Session(SessionFault::Memory)
            | Failure::Run(RunFault::Memory)
            | Failure::Memory => "out of memory\n",
        }
    }
}

/// The line of pipelines or groups that were not built.
fn build_line(fault: BuildFault) -> &'static str
    ensures { result.now ≡ build_line fault }
{
    match fault {
        BuildFault::DuplicateName => "session refused: 6 Build 1 DuplicateName\n",
        BuildFault::NoSuchName => "session refused: 6 Build 2 NoSuchName\n",
        BuildFault::Limit => "session refused: 6 Build 3 Limit\n",
        BuildFault::NoSuchGroup => "session refused: 6 Build 4 NoSuchGroup\n",
        BuildFault::NoTurn => "session refused: 6 Build 5 NoTurn\n",
        BuildFault::TwoTurns => "session refused: 6 Build 6 TwoTurns\n",
        BuildFault::Marks => "session refused: 6 Build 7 Marks\n",
        BuildFault::Memory => "out of memory\n",
    }
}

/// Moves that were not read. Memory that ran out is one failure, wherever it did.
impl From<MovesFault> for Failure {
    ghost from_gives = { λ fault e. e ≡ or_memory (failure.Moves fault) };

    fn from(fault: MovesFault) -> Failure {
        match fault {
            MovesFault::Memory => Failure::Memory,
            _ => Failure::Moves(fault),
        }
    }
}

/// A session that was refused.
impl From<SessionFault> for Failure {
    ghost from_gives = { λ fault e. e ≡ or_memory (failure.Session fault) };

    fn from(fault: SessionFault) -> Failure {
        match fault {
            SessionFault::Memory => Failure::Memory,
            _ => Failure::Session(fault),
        }
    }
}

/// A replay that was not made.
impl From<ReplayFault> for Failure {
    ghost from_gives = { λ fault e. e ≡ or_memory (failure.Replay fault) };

    fn from(fault: ReplayFault) -> Failure {
        match fault {
            ReplayFault::Memory => Failure::Memory,
            _ => Failure::Replay(fault),
        }
    }
}

/// A run that gave no report.
impl From<RunFault> for Failure {
    ghost from_gives = { λ fault e. e ≡ or_memory (failure.Run fault) };

    fn from(fault: RunFault) -> Failure {
        match fault {
            RunFault::Memory => Failure::Memory,
            _ => Failure::Run(fault),
        }
    }
}

/// A report that was not printed.
impl From<PrintFault> for Failure {
    ghost from_gives = { λ fault e. e ≡ failure_of_print fault };

    fn from(fault: PrintFault) -> Failure {
        match fault {
            PrintFault::Memory => Failure::Memory,
            PrintFault::Output => Failure::Output,
        }
    }
}
