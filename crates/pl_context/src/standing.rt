//! How a context, a tail or a head stands, and what it answers.

ghost use Rattle.std.specs.Prelude.{◌≡◌};
ghost use Rattle.pl_context.specs.Standings.{is_over, has_failed, cause_of, together};

use pl_event::Cause;

/// How a context, a tail or a head stands.
#[derive(Clone, Copy, Debug, PartialEq, Eq)]
pub enum Standing {
    Open,
    /// It took an end.
    Ended,
    /// It took a failure, or failed by itself.
    Failed(Cause),
}

/// What became of an envelope that was taken.
#[derive(Clone, Copy, Debug, PartialEq, Eq)]
pub enum Took {
    /// It was handled.
    Ran,
    /// It was the end of the lane.
    Ended,
    /// It was a failure, or it made the taker fail.
    Failed(Cause),
    /// The taker had failed before.
    Dropped,
}

impl Standing {
    /// Whether it is an end or a failure.
    pub fn is_over(self) -> bool
        ensures { result ≡ is_over self }
    {
        match self {
            Standing::Open => false,
            Standing::Ended | Standing::Failed(_) => true,
        }
    }

    /// Whether it is a failure.
    pub fn has_failed(self) -> bool
        ensures { result ≡ has_failed self }
    {
        match self {
            Standing::Open | Standing::Ended => false,
            Standing::Failed(_) => true,
        }
    }

    /// How two nodes stand together: failed where one has, and then as the first that has; ended where one has; else open.
    pub fn together(self, other: Standing) -> Standing
        ensures { result ≡ together self other }
    {
        match self {
            Standing::Open => other,
            Standing::Ended if other.has_failed() => other,
            Standing::Ended | Standing::Failed(_) => self,
        }
    }

    /// The cause of a failure, and None where it is not one.
    pub fn cause(self) -> Option<Cause>
        ensures { result ≡ cause_of self }
    {
        match self {
            Standing::Open | Standing::Ended => None,
            Standing::Failed(cause) => Some(cause),
        }
    }
}
