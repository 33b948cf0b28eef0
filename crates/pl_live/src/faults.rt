//! Why a burst was not fed.

ghost use Rattle.std.specs.Prelude.{◌≡◌};
ghost use Rattle.pl_live.specs.declared.faults.FeedFault.TheVariants as fault;

use std::alloc::AllocError;
use thiserror::Error;

/// Why a live channel was not fed a burst. It is as it was.
#[derive(Clone, Copy, Debug, PartialEq, Eq, Error)]
pub enum FeedFault {
    /// An allocation failed.
    #[error("1 Memory")]
    Memory,
    /// More would have been fed than a channel may ever be.
    #[error("2 Full")]
    Full,
    /// No burst may come any more: the end was said, a handler has quit, or something has failed.
    #[error("3 Closed")]
    Closed,
}

impl From<AllocError> for FeedFault {
    ghost from_gives = { λ _ e. e ≡ fault.Memory };

    fn from(_refused: AllocError) -> FeedFault {
        FeedFault::Memory
    }
}
