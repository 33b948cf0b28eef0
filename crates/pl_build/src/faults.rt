//! Why groups or a pipeline could not be built.

ghost use Rattle.std.specs.Prelude.{◌≡◌};
ghost use Rattle.pl_build.specs.declared.faults.BuildFault.TheVariants.{Memory};

use std::alloc::{AllocError, AllocFailed};
use std::error::Error;
use std::fmt;

/// Why groups or a pipeline could not be built. It prints as its number and its name, `3 Limit` say.
#[derive(Clone, Copy, Debug, PartialEq, Eq)]
pub enum BuildFault {
    /// A handler of this name is there, or two groups have the same name.
    DuplicateName,
    /// No handler has this name.
    NoSuchName,
    /// A name's length, a number of handlers or executors, or a mark is outside its limits.
    Limit,
    /// A handler names a group that is not there.
    NoSuchGroup,
    /// No handler is the turn.
    NoTurn,
    /// More than one handler is the turn.
    TwoTurns,
    /// The low mark is above the high one.
    Marks,
    /// An allocation failed.
    Memory,
}

impl fmt::Display for BuildFault {
    ghost use Rattle.std.specs.Prelude.{Some};
    ghost use Rattle.pl_build.specs.Refusals.{build_fault_text};

    ghost output = { λ fault. Some (build_fault_text fault) };

    fn fmt<W: fmt::Write>(&self, f: &mut fmt::Formatter<W>) -> fmt::Result {
        f.write_str(match self {
            BuildFault::DuplicateName => "1 DuplicateName",
            BuildFault::NoSuchName => "2 NoSuchName",
            BuildFault::Limit => "3 Limit",
            BuildFault::NoSuchGroup => "4 NoSuchGroup",
            BuildFault::NoTurn => "5 NoTurn",
            BuildFault::TwoTurns => "6 TwoTurns",
            BuildFault::Marks => "7 Marks",
            BuildFault::Memory => "8 Memory",
        })
    }
}

impl Error for BuildFault {}

impl From<AllocError> for BuildFault {
    ghost from_gives = { λ _ e. e ≡ Memory };

    fn from(_refused: AllocError) -> BuildFault {
        BuildFault::Memory
    }
}

impl<T: Drop> From<AllocFailed<T>> for BuildFault {
    ghost from_gives = { λ _ e. e ≡ Memory };

    fn from(_refused: AllocFailed<T>) -> BuildFault {
        BuildFault::Memory
    }
}
