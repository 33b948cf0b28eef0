//! Makes the moves of a schedule one by one, and tells of each what it did.

mod ends;
mod notes;

use ends::Ends;
pub(crate) use ends::Gained;
use notes::Notes;
pub(crate) use notes::Step;
use pl_channel::stands;
use pl_event::Envelope;
use pl_head::MemoryTransport;
use pl_net::Station;
use pl_replay::{Hindrance, Net};
use pl_stages::Handler;
use pl_world::{Move, ReplayFault, Session, Stands};
use std::alloc::{AllocError, Global};

/// A session in the middle of its replay.
pub(crate) type SessionNet = Net<Handler, MemoryTransport>;

/// A session whose moves are told.
#[derive(Drop)]
pub(crate) struct Tracer {
    alloc: Global,
    executors: u16,
    net: SessionNet,
    /// By channel, how far its ends have come.
    ends: Vec<Ends>,
    moves: usize,
    passed_over: usize,
}

/// A move, and what it did.
#[derive(Debug, Drop)]
pub(crate) struct Told {
    /// Counted from 1.
    pub(crate) number: usize,
    pub(crate) step: Move,
    /// Why it was passed over, if it was.
    pub(crate) hindrance: Option<Hindrance>,
    /// What its executor had in hand, in order.
    pub(crate) steps: Vec<Step>,
    pub(crate) handed: Option<HandOver>,
    pub(crate) gained: Option<Gained>,
}

/// An item that was handed over.
#[derive(Debug, Drop)]
pub(crate) struct HandOver {
    pub(crate) target: u16,
    pub(crate) envelope: Envelope,
}

impl Tracer {
    /// A session before any move.
    pub(crate) fn new(alloc: Global, session: Session) -> Result<Tracer, ReplayFault> {
        let Session { world, capacity } = session;
        let mut ends = Vec::new(alloc);
        for _ in world.channels() {
            ends.push(Ends::new())?;
        }
        Ok(Tracer {
            alloc,
            executors: world.executors(),
            net: Net::new(alloc, world, capacity)?,
            ends,
            moves: 0,
            passed_over: 0,
        })
    }

    /// Makes a move, and tells what it did.
    pub(crate) fn make(&mut self, step: Move) -> Result<Told, ReplayFault> {
        self.moves = self.moves.saturating_add(1);
        if let Some(hindrance) = self.net.hindrance(step) {
            return Ok(self.pass_over(step, hindrance));
        }
        let target = self.target_of(step);
        let mut notes = Notes::new(self.alloc);
        self.net.apply_watched(step, &mut notes)?;
        let steps = notes.into_steps()?;
        let channel = channel_of(step, steps.as_slice());
        let gained = gain_of(self.alloc, &self.net, &mut self.ends, channel)?;
        let handed = self.handed_to(target)?;
        Ok(Told {
            number: self.moves,
            step,
            hindrance: None,
            steps,
            handed,
            gained,
        })
    }

    /// What is left where nothing moves any more.
    pub(crate) fn net(&self) -> &SessionNet {
        &self.net
    }

    /// How many executors there are.
    pub(crate) fn executors(&self) -> u16 {
        self.executors
    }

    /// How many moves were passed over.
    pub(crate) fn passed_over(&self) -> usize {
        self.passed_over
    }

    /// How a channel stands.
    pub(crate) fn stands(&self, channel: u16) -> Stands {
        match (self.net.tail(channel), self.net.head(channel)) {
            (Some(tail), Some(head)) => stands(tail, head),
            _ => Stands::Open,
        }
    }

    /// A move that was not enabled.
    fn pass_over(&mut self, step: Move, hindrance: Hindrance) -> Told {
        self.passed_over = self.passed_over.saturating_add(1);
        Told {
            number: self.moves,
            step,
            hindrance: Some(hindrance),
            steps: Vec::new(self.alloc),
            handed: None,
            gained: None,
        }
    }

    /// Where a move is to hand over to, if it is.
    fn target_of(&self, step: Move) -> Option<u16> {
        match step {
            Move::Hand(executor) => {
                let target = self.net.next_target(executor as usize)?;
                u16::try_from(target).ok()
            }
            Move::Read(_) | Move::Task(_) | Move::Out(_) => None,
        }
    }

    /// What a hand-over has put into the queue of its target.
    fn handed_to(&self, target: Option<u16>) -> Result<Option<HandOver>, AllocError> {
        let Some(target) = target else {
            return Ok(None);
        };
        let Some(envelope) = last_in(self.net.station(target as usize)) else {
            return Ok(None);
        };
        Ok(Some(HandOver {
            target,
            envelope: envelope.clone()?,
        }))
    }
}

/// What has come to the ends of a channel: nothing to those of none.
fn gain_of(
    alloc: Global,
    net: &SessionNet,
    ends: &mut Vec<Ends>,
    channel: Option<u16>,
) -> Result<Option<Gained>, AllocError> {
    let Some(channel) = channel else {
        return Ok(None);
    };
    let (Some(tail), Some(head)) = (net.tail(channel), net.head(channel)) else {
        return Ok(None);
    };
    let Some(ends) = ends.get_mut(channel as usize) else {
        return Ok(None);
    };
    Ok(Some(ends.gain(alloc, channel, tail, head)?))
}

/// The end of a queue.
fn last_in(station: Option<&Station>) -> Option<&Envelope> {
    station?.queue().back()
}

/// The channel in which a move was made: none of a hand-over, which changes nothing there.
fn channel_of(step: Move, steps: &[Step]) -> Option<u16> {
    match step {
        Move::Read(channel) | Move::Out(channel) => Some(channel),
        Move::Task(_) => Some(steps.first()?.envelope.lane.channel),
        Move::Hand(_) => None,
    }
}
