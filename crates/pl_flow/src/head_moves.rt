//! What the head of a channel does by itself, and not for an item.

/// A move of a head.
#[derive(Clone, Copy, Debug, PartialEq, Eq)]
pub enum HeadMove {
    /// Its next read step.
    Read,
    /// A call of its transport's `write`.
    Out,
}
