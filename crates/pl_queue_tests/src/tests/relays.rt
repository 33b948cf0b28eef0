//! Two senders and a taker over any mailbox, each on a thread of its own.

ghost use Rattle.std.specs.Prelude.{◌≡◌, ◌+◌, ◌<◌, ◌^◌, ℕ, true, false, Some, IfOk, IfSome, IsTrue};
ghost use denote.Param.Send.{IsSync};
ghost use Rattle.pl_event.specs.declared.envelopes.Kind.TheVariants.{Data};
ghost use Rattle.pl_event.specs.declared.envelopes.Lane.{Lane};
ghost use Rattle.pl_event.specs.Hops.{same_lane};
ghost use Rattle.pl_event.specs.Worlds.{FitsWorld, content_of};
ghost use Rattle.pl_queue.specs.Rule.{IsRun, numbers_of};
ghost use Rattle.pl_queue.specs.Views.{sent_of, next_of, after_offer};
ghost use Rattle.pl_queue_tests.specs.Relays.{IsFresh, StillSends, StillTakes, lane_events};

use crate::events::event;
use crate::openings::open_two;
use crate::threads::join_three;
use pl_event::{Envelope, Item, Lane, Named};
use pl_queue::{Full, Left, Mailbox};
use std::alloc::{AllocError, Global};
use std::sync::Wait;
use std::thread;
use std::thread::Threads;

/// After so many refused or empty tries in a row a thread gives up.
const MAX_TRIES: u32 = 10_000_000;

/// Offers an envelope until there is room. False where it gave up.
pub fn offer_one<W: Named, M: Mailbox<W>, R: Wait>(
    rt: &R,
    mailbox: &M,
    sender: &mut M::Sender,
    mut envelope: Envelope,
) -> bool
    requires sender { M.ends.is_sender mailbox.now sender.old }
    requires next { sent_of envelope.lane (M.ends.sends_of sender.old).send_counts ≡ Some (envelope.number, false) }
    requires small { envelope.number < 2 ^ 32 }
    requires fits { FitsWorld W.world envelope }
    ensures still { StillSends M.ends mailbox.now sender.old sender.new }
    ensures sent { IsTrue result → M.ends.sends_of sender.new ≡ after_offer (M.ends.sends_of sender.old) envelope }
{
    for _ in 0..MAX_TRIES {
        match mailbox.offer::<R>(rt, sender, envelope) {
            Ok(()) => return true,
            Err(Full { envelope: refused }) => {
                envelope = refused;
                thread::yield_now();
            }
        }
    }
    drop(envelope);
    false
}

/// Takes the next envelope, as soon as there is one. None where it gave up.
pub fn take_one<W: Named, M: Mailbox<W>, R: Wait>(
    rt: &R,
    mailbox: &M,
    taker: &mut M::Taker,
) -> Option<Envelope>
    requires taker { M.ends.is_taker mailbox.now taker.old }
    ensures { StillTakes M.ends mailbox.now taker.old taker.new }
{
    for _ in 0..MAX_TRIES {
        if let Some(envelope) = mailbox.take::<R>(rt, taker) {
            return Some(envelope);
        }
        thread::yield_now();
    }
    None
}

/// Sends all that a lane carries: Active, ReadComplete up to the number `last`, and End. False where it gave up.
pub fn send_all<W: Named, M: Mailbox<W>, R: Wait>(
    rt: &R,
    mailbox: &M,
    mut sender: M::Sender,
    lane: Lane,
    last: u64,
) -> (M::Sender, bool)
    requires sender { M.ends.is_sender mailbox.now sender }
    requires fresh { IsFresh lane (M.ends.sends_of sender) }
    requires small { last < 2 ^ 32 }
    requires world { (lane.kind ≡ Data) × (content_of W.world lane ≡ Some (lane_events last)) }
    ensures { StillSends M.ends mailbox.now sender result.0 }
{
    for number in 0..last {
        if !offer_one::<W, M, R>(rt, mailbox, &mut sender, event(lane, number)) {
            return (sender, false);
        }
    }
    let end = Envelope {
        lane,
        number: last,
        item: Item::End,
    };
    let sent = offer_one::<W, M, R>(rt, mailbox, &mut sender, end);
    (sender, sent)
}

/// Takes so many envelopes, or fewer where it gave up.
pub fn take_all<W: Named, M: Mailbox<W>, R: Wait>(
    rt: &R,
    alloc: Global,
    mailbox: &M,
    mut taker: M::Taker,
    count: u64,
) -> (M::Taker, Result<Vec<Envelope>, AllocError>)
    requires taker { M.ends.is_taker mailbox.now taker }
    ensures { StillTakes M.ends mailbox.now taker result.0 }
{
    let mut all = Vec::new(alloc);
    for _ in 0..count {
        let Some(envelope) = take_one::<W, M, R>(rt, mailbox, &mut taker) else {
            return (taker, Ok(all));
        };
        if let Err(refused) = all.push(envelope) {
            return (taker, Err(AllocError::from(refused)));
        }
    }
    (taker, Ok(all))
}

/// What was taken from a mailbox, in this order, and what was left in it.
#[derive(Debug, Drop)]
pub struct Relayed {
    pub taken: Vec<Envelope>,
    pub left: Left,
}

/// Two lanes, of which each carries Active, ReadComplete up to the number `last`, and End.
#[derive(Clone, Copy, Debug, PartialEq, Eq)]
pub struct Lanes {
    pub first: Lane,
    pub second: Lane,
    pub last: u64,
}

// Two threads send, and a third takes.
fn all_three<W: Named + Send + Sync, M: Mailbox<W> + Send + Sync, R: Threads + Wait + Sync>(
    rt: &R,
    alloc: Global,
    mailbox: &M,
    senders: (M::Sender, M::Sender),
    taker: M::Taker,
    lanes: Lanes,
) -> (
    (M::Sender, bool),
    (M::Sender, bool),
    (M::Taker, Result<Vec<Envelope>, AllocError>),
)
where
    M::Sender: Send,
    M::Taker: Send,
    requires one { M.ends.is_sender mailbox.now senders.0 × IsFresh lanes.first (M.ends.sends_of senders.0) }
    requires two { M.ends.is_sender mailbox.now senders.1 × IsFresh lanes.second (M.ends.sends_of senders.1) }
    requires small { lanes.last < 2 ^ 32 }
    requires first { (lanes.first.kind ≡ Data) × (content_of W.world lanes.first ≡ Some (lane_events lanes.last)) }
    requires second { (lanes.second.kind ≡ Data) × (content_of W.world lanes.second ≡ Some (lane_events lanes.last)) }
    requires taker { M.ends.is_taker mailbox.now taker }
    ensures one { StillSends M.ends mailbox.now senders.0 result.0.0 }
    ensures two { StillSends M.ends mailbox.now senders.1 result.1.0 }
    ensures taker { StillTakes M.ends mailbox.now taker result.2.0 }
{
    let (one, two) = senders;
    let Lanes {
        first,
        second,
        last,
    } = lanes;
    let total = 2 * last + 2;
    join_three(
        rt,
        move || -> (M::Sender, bool)
            requires { M.ends.is_sender mailbox.now one × IsFresh first (M.ends.sends_of one) × (last < 2 ^ 32) × (first.kind ≡ Data) × (content_of W.world first ≡ Some (lane_events last)) }
            ensures { StillSends M.ends mailbox.entry.now one result.0 }
        { send_all::<W, M, R>(rt, mailbox, one, first, last) },
        move || -> (M::Sender, bool)
            requires { M.ends.is_sender mailbox.now two × IsFresh second (M.ends.sends_of two) × (last < 2 ^ 32) × (second.kind ≡ Data) × (content_of W.world second ≡ Some (lane_events last)) }
            ensures { StillSends M.ends mailbox.entry.now two result.0 }
        { send_all::<W, M, R>(rt, mailbox, two, second, last) },
        move || -> (M::Taker, Result<Vec<Envelope>, AllocError>)
            requires { M.ends.is_taker mailbox.now taker }
            ensures { StillTakes M.ends mailbox.entry.now taker result.0 }
        { take_all::<W, M, R>(rt, alloc, mailbox, taker, total) },
    )
}

/// Opens a mailbox, in which two threads send all of a lane of their own, and a third takes as many envelopes as both
/// send. Then it is finished. None where the mailbox was refused, memory was short or a thread gave up.
pub fn relay<W: Named + Send + Sync, M: Mailbox<W> + Drop + Send + Sync, R: Threads + Wait + Sync>(
    rt: &R,
    alloc: Global,
    lanes: Lanes,
    capacity: usize,
) -> Option<Relayed>
where
    M::Sender: Send,
    M::Taker: Send,
    requires apart { same_lane lanes.first lanes.second ≡ false }
    requires small { lanes.last < 2 ^ 31 }
    requires first { (lanes.first.kind ≡ Data) × (content_of W.world lanes.first ≡ Some (lane_events lanes.last)) }
    requires second { (lanes.second.kind ≡ Data) × (content_of W.world lanes.second ≡ Some (lane_events lanes.last)) }
{
    let opened = open_two::<W, M>(alloc, lanes.first, lanes.second, capacity);
    let Ok((mailbox, one, two, taker)) = opened else {
        return None;
    };
    let ((one, _), (two, _), (taker, taken)) = all_three::<W, M, R>(
        rt,
        alloc,
        &mailbox,
        (one, two),
        taker,
        lanes,
    );
    let taken = taken.ok()?;
    let mut senders = Vec::new(alloc);
    let Ok(()) = senders.push(one) else {
        return None;
    };
    let Ok(()) = senders.push(two) else {
        return None;
    };
    let left = mailbox.finish::<R>(rt, alloc, senders, taker).ok()?;
    Some(Relayed { taken, left })
}
