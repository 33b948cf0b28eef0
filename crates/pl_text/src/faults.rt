//! Why a text is refused, or a report is not printed.

ghost use Rattle.std.specs.Prelude.{◌≡◌};
ghost use Rattle.pl_text.specs.declared.faults.SessionFault.TheVariants.{Memory};
ghost use Rattle.pl_text.specs.SessionReading.{fault_of_build};

use pl_build::BuildFault;
use std::alloc::AllocError;
use thiserror::Error;

/// Why a session text was refused, each with its number (`docs/FORMATS.md`, "Session").
#[derive(Clone, Copy, Debug, PartialEq, Eq, Error)]
pub enum SessionFault {
    /// The text is not JSON.
    #[error("1 NotJson")]
    NotJson,
    /// The version is a whole number that is not known.
    #[error("2 Version")]
    Version,
    /// A required member is absent.
    #[error("3 Missing")]
    Missing,
    /// A value is of another JSON kind, a number is not whole, a text is not in its list, or a chunk is no hex.
    #[error("4 Kind")]
    Kind,
    /// A number, the length of an array, or the text itself is outside its limits.
    #[error("5 Limit")]
    Limit,
    /// Its members were read, and its pipelines could not be built.
    #[error("6 Build {0}")]
    Build(BuildFault),
    /// An allocation failed.
    #[error("7 Memory")]
    Memory,
}

/// A build that was out of memory is out of memory here too, and each other refusal a `Build`.
impl From<BuildFault> for SessionFault {
    ghost from_gives = { λ refused e. e ≡ fault_of_build refused };

    fn from(refused: BuildFault) -> SessionFault {
        match refused {
            BuildFault::Memory => SessionFault::Memory,
            _ => SessionFault::Build(refused),
        }
    }
}

impl From<AllocError> for SessionFault {
    ghost from_gives = { λ _ e. e ≡ Memory };

    fn from(_refused: AllocError) -> SessionFault {
        SessionFault::Memory
    }
}

/// Why a text of moves was not read. No move is answered then.
#[derive(Clone, Copy, Debug, PartialEq, Eq, Error)]
pub enum MovesFault {
    /// What stands between spaces is not a term.
    #[error("1 Form")]
    Form,
    /// The terms say more moves than `MAX_MOVES`.
    #[error("2 Limit")]
    Limit,
    /// An allocation failed.
    #[error("3 Memory")]
    Memory,
}

/// Why a report was not printed.
#[derive(Clone, Copy, Debug, PartialEq, Eq, Error)]
pub enum PrintFault {
    /// An allocation failed; nothing was written.
    #[error("1 Memory")]
    Memory,
    /// The writer failed; how much it wrote is not known.
    #[error("2 Output")]
    Output,
}
