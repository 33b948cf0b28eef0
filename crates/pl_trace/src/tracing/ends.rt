//! What comes to the two ends of a channel.

use pl_channel::stands;
use pl_context::Tail;
use pl_event::{Event, Outcome};
use pl_head::{Head, Transport};
use pl_world::Stands;
use std::alloc::{AllocError, Global};

/// How far the two ends of a channel have come.
#[derive(Clone, Copy, Debug)]
pub(crate) struct Ends {
    /// How many events the tail has recorded.
    events: usize,
    /// How many bytes the transport has accepted.
    bytes: usize,
    /// How many writes are settled.
    settled: usize,
    stands: Stands,
}

/// What came to the two ends of a channel in one move.
#[derive(Debug, Drop)]
pub(crate) struct Gained {
    pub(crate) channel: u16,
    /// What the tail recorded.
    pub(crate) events: Vec<Event>,
    /// What the transport accepted.
    pub(crate) bytes: Vec<u8>,
    /// The writes that were settled, by number, in this order.
    pub(crate) settled: Vec<(usize, Outcome)>,
    /// How the channel stands, where it stood otherwise before.
    pub(crate) stands: Option<Stands>,
}

impl Ends {
    /// Nothing has come.
    pub(crate) fn new() -> Ends {
        Ends {
            events: 0,
            bytes: 0,
            settled: 0,
            stands: Stands::Open,
        }
    }

    /// What has come since the last time.
    pub(crate) fn gain<T: Transport>(
        &mut self,
        alloc: Global,
        channel: u16,
        tail: &Tail,
        head: &Head<T>,
    ) -> Result<Gained, AllocError> {
        let was = *self;
        self.events = tail.record().len();
        self.bytes = head.bytes().len();
        self.settled = head.settled().len();
        self.stands = stands(tail, head);
        let has_changed = self.stands != was.stands;
        Ok(Gained {
            channel,
            events: copies(alloc, since(tail.record(), was.events))?,
            bytes: since(head.bytes(), was.bytes).to_vec(alloc)?,
            settled: outcomes(alloc, head, since(head.settled(), was.settled))?,
            stands: if has_changed { Some(self.stands) } else { None },
        })
    }
}

/// What a list has from an index on.
fn since<A>(items: &[A], index: usize) -> &[A] {
    match items.get(index..) {
        Some(rest) => rest,
        None => &[],
    }
}

/// Copies of events.
fn copies(alloc: Global, events: &[Event]) -> Result<Vec<Event>, AllocError> {
    let mut copies = Vec::new(alloc);
    for event in events {
        copies.push(event.clone()?)?;
    }
    Ok(copies)
}

/// The outcomes of settled writes.
fn outcomes<T: Transport>(
    alloc: Global,
    head: &Head<T>,
    settled: &[usize],
) -> Result<Vec<(usize, Outcome)>, AllocError> {
    let mut outcomes = Vec::new(alloc);
    for number in settled {
        if let Some(Some(outcome)) = head.outcomes().get(*number) {
            outcomes.push((*number, *outcome))?;
        }
    }
    Ok(outcomes)
}
