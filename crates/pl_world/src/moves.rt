//! The steps of a schedule.

/// One step of a channel or of an executor, each by its number.
#[derive(Clone, Copy, Debug, PartialEq, Eq)]
pub enum Move {
    /// The channel makes its next read step.
    Read(u16),
    /// The executor runs the front of its queue.
    Task(u16),
    /// The executor hands over the oldest item of its backlog whose queue has room.
    Hand(u16),
    /// The channel's head makes one write to its transport.
    Out(u16),
}
