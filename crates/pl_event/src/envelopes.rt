//! Lanes, and what flows on them from one context to the next.

use crate::events::Event;
use crate::outcomes::Cause;

/// What a lane carries.
#[derive(Clone, Copy, Debug, PartialEq, Eq)]
pub enum Kind {
    /// Events, and at last their end or a failure.
    Data,
    /// Whether the channel is writable: `channelWritabilityChanged`.
    Flags,
}

/// One way into a context, the tail or the head. The items of a lane are numbered from 0.
#[derive(Clone, Copy, Debug, PartialEq, Eq)]
pub struct Lane {
    pub channel: u16,
    pub kind: Kind,
    /// Which context of the channel it enters.
    pub hop: u16,
}

/// What one envelope carries.
#[derive(Clone, Debug, PartialEq, Eq, Drop)]
pub enum Item {
    Event(Event),
    /// Nothing follows: the lane ended in good order.
    End,
    /// Nothing follows: the lane failed.
    Fail(Cause),
    /// Whether the channel is writable. Only flags lanes carry it.
    Flag(bool),
}

/// An item with its lane and its number there.
#[derive(Clone, Debug, PartialEq, Eq, Drop)]
pub struct Envelope {
    pub item: Item,
    pub number: u64,
    // Last, so that where its parts are copied one by one, all before them is copied in whole words.
    pub lane: Lane,
}

impl Envelope {
    /// Drops it. Where that is rare, what a drop needs is so kept out of the way of what goes on.
    #[inline(never)]
    pub fn discard(self) {
        drop(self);
    }
}
