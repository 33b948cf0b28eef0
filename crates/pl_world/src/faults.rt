//! Why a session was not replayed, or not composed.

ghost use Rattle.std.specs.Prelude.{◌≡◌};
ghost use Rattle.pl_world.specs.declared.faults.ReplayFault.TheVariants.{Memory};

use pl_event::StageFault;
use std::alloc::{AllocError, AllocFailed};
use thiserror::Error;

/// Why a session was not replayed, or not composed on whole lists. There is no report then.
#[derive(Clone, Copy, Debug, PartialEq, Eq, Error)]
pub enum ReplayFault {
    /// A move names a channel or an executor that does not exist.
    #[error("1 NoSuch")]
    NoSuch,
    /// An allocation failed.
    #[error("2 Memory")]
    Memory,
}

impl From<AllocError> for ReplayFault {
    ghost from_gives = { λ _ e. e ≡ Memory };

    fn from(_refused: AllocError) -> ReplayFault {
        ReplayFault::Memory
    }
}

impl<T: Drop> From<AllocFailed<T>> for ReplayFault {
    ghost from_gives = { λ _ e. e ≡ Memory };

    fn from(_refused: AllocFailed<T>) -> ReplayFault {
        ReplayFault::Memory
    }
}

impl From<StageFault> for ReplayFault {
    ghost from_gives = { λ _ e. e ≡ Memory };

    fn from(_fault: StageFault) -> ReplayFault {
        ReplayFault::Memory
    }
}
