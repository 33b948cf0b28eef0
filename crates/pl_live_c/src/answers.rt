//! What the calls answer, as the numbers that `pl_live.h` names.

ghost use Rattle.std.specs.Prelude.{◌≡◌};
ghost use Rattle.pl_live_c.specs.Answers.{open_answer, feed_answer};

use crate::channels::OpenFault;
use pl_live::FeedFault;

/// It was done.
pub const OK: u32 = 0;

/// An allocation failed.
pub const MEMORY: u32 = 1;

/// More would have been fed than a channel may ever be.
pub const FULL: u32 = 2;

/// No bytes may come any more.
pub const CLOSED: u32 = 3;

/// No channel is held.
pub const NONE: u32 = 4;

/// The text is no session.
pub const TEXT: u32 = 5;

/// The session is not one channel to be fed.
pub const PLAN: u32 = 6;

/// The answer where no channel was opened.
pub(crate) fn answer_of_open(fault: OpenFault) -> u32
    ensures { result ≡ open_answer fault }
{
    match fault {
        OpenFault::Memory => MEMORY,
        OpenFault::Text => TEXT,
        OpenFault::Plan => PLAN,
    }
}

/// The answer where a burst was not fed.
pub(crate) fn answer_of_feed(fault: FeedFault) -> u32
    ensures { result ≡ feed_answer fault }
{
    match fault {
        FeedFault::Memory => MEMORY,
        FeedFault::Full => FULL,
        FeedFault::Closed => CLOSED,
    }
}
