//! What became of a session.

use pl_event::{ByteString, Cause, Event, Outcome, Sequence};

/// What became of a channel in all.
#[derive(Clone, Copy, Debug, PartialEq, Eq)]
pub enum Stands {
    /// Its tail and its head have taken their end, and no flushed byte waits.
    Drained,
    /// Neither drained nor failed: it may have moves left.
    Open,
    /// It failed, for this cause.
    Failed(Cause),
}

/// What became of a channel.
#[derive(Debug, Drop)]
pub struct ChannelReport {
    pub stands: Stands,
    /// The events that reached the tail, in order.
    pub tail: Sequence<Event>,
    /// The bytes that the transport accepted.
    pub bytes: ByteString,
    /// The outcome of each write, by its number: None while it is not settled.
    pub writes: Sequence<Option<Outcome>>,
}

/// What became of each channel, in order.
#[derive(Debug, Drop)]
pub struct Report {
    pub channels: Sequence<ChannelReport>,
}
