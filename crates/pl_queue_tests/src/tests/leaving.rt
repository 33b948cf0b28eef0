//! One sender, of whose two envelopes the taker takes one.

ghost use Rattle.std.specs.Prelude.{◌≡◌, Some};
ghost use Rattle.pl_event.specs.declared.envelopes.Kind.TheVariants.{Data};
ghost use Rattle.pl_event.specs.Worlds.{content_of};
ghost use Rattle.pl_queue_tests.specs.Relays.{lane_events};

use crate::events::event;
use crate::openings::open_one;
use crate::tests::relays::{Relayed, offer_one, take_one};
use pl_event::{Lane, Named};
use pl_queue::{Mailbox, OpenRefusal};
use std::alloc::Global;
use std::sync::Wait;

/// Where it stopped.
#[derive(Debug, PartialEq, Eq, Drop)]
pub enum Stopped {
    /// `open` refused, or its lists were refused memory.
    Open(OpenRefusal),
    /// A thread gave up.
    GaveUp,
    /// `finish` was refused memory, or its list of senders.
    Finish,
}

/// One sender offers the numbers 0 and 1 of a lane, and the taker takes one. Then the mailbox is finished.
pub fn leave_one<W: Named, M: Mailbox<W> + Drop, R: Wait>(
    rt: &R,
    alloc: Global,
    lane: Lane,
) -> Result<Relayed, Stopped>
    requires world { (lane.kind ≡ Data) × (content_of W.world lane ≡ Some (lane_events 2)) }
{
    let (mailbox, mut sender, mut taker) = match open_one::<W, M>(alloc, lane) {
        Ok(opened) => opened,
        Err(refusal) => return Err(Stopped::Open(refusal)),
    };
    if !offer_one::<W, M, R>(rt, &mailbox, &mut sender, event(lane, 0)) {
        return Err(Stopped::GaveUp);
    }
    if !offer_one::<W, M, R>(rt, &mailbox, &mut sender, event(lane, 1)) {
        return Err(Stopped::GaveUp);
    }
    let Some(front) = take_one::<W, M, R>(rt, &mailbox, &mut taker) else {
        return Err(Stopped::GaveUp);
    };
    let Ok(taken) = Vec::from_array(alloc, [front]) else {
        return Err(Stopped::Finish);
    };
    let mut senders = Vec::new(alloc);
    let Ok(()) = senders.push(sender) else {
        return Err(Stopped::Finish);
    };
    match mailbox.finish::<R>(rt, alloc, senders, taker) {
        Ok(left) => Ok(Relayed { taken, left }),
        Err(_) => Err(Stopped::Finish),
    }
}
