//! The lesson of pl_queue's README: two threads hand over lines, and a third takes them.

ghost use Rattle.std.specs.Prelude.{◌≡◌, ◌∷◌, ◌<◌, ◌^◌, false, Some, vec_len, []};
ghost use denote.Param.Send.{IsSync};
ghost use Rattle.pl_event.specs.Hops.{same_lane};
ghost use Rattle.pl_event.specs.Worlds.{FitsWorld};
ghost use Rattle.pl_queue.specs.Left.{Apart};
ghost use Rattle.pl_queue.specs.Views.{sent_of, after_offer};
ghost use Rattle.pl_queue_tests.specs.Lines.{CarriesLines};
ghost use Rattle.pl_queue_tests.specs.Relays.{IsFresh};

use crate::openings::open_two;
use crate::threads::join_three;
use pl_event::{ByteString, Envelope, Event, Item, Lane, Message, Named};
use pl_queue::{Full, Mailbox};
use std::alloc::{AllocError, Global};
use std::sync::Wait;
use std::thread;
use std::thread::Threads;

/// Offers an envelope until there is room.
pub fn hand_over<W: Named, M: Mailbox<W>, R: Wait>(
    rt: &R,
    mailbox: &M,
    sender: &mut M::Sender,
    mut envelope: Envelope,
)
    requires sender { M.ends.is_sender mailbox.now sender.old }
    requires next { sent_of envelope.lane (M.ends.sends_of sender.old).send_counts ≡ Some (envelope.number, false) }
    requires small { envelope.number < 2 ^ 32 }
    requires fits { FitsWorld W.world envelope }
    ensures sender { M.ends.is_sender mailbox.now sender.new }
    ensures sent { M.ends.sends_of sender.new ≡ after_offer (M.ends.sends_of sender.old) envelope }
{
    for _ in rt.forever() {
        match mailbox.offer::<R>(rt, sender, envelope) {
            // It is at the queue's back.
            Ok(()) => return,
            // The queue was full, and the same envelope is back.
            Err(Full { envelope: refused }) => {
                envelope = refused;
                thread::yield_now();
            }
        }
    }
    unreachable!()
}

/// Hands over lines, numbered from 0, and the end of their lane.
pub fn send_lines<W: Named, M: Mailbox<W>, R: Wait>(
    rt: &R,
    mailbox: &M,
    mut sender: M::Sender,
    lane: Lane,
    lines: Vec<ByteString>,
) -> M::Sender
    requires sender { M.ends.is_sender mailbox.now sender }
    requires fresh { IsFresh lane (M.ends.sends_of sender) }
    requires world { CarriesLines W.world lane lines.items }
{
    let mut number = 0;
    for line in lines {
        let item = Item::Event(Event::Read(Message::Line(line)));
        hand_over::<W, M, R>(rt, mailbox, &mut sender, Envelope { lane, number, item });
        number += 1;
    }
    let item = Item::End;
    hand_over::<W, M, R>(rt, mailbox, &mut sender, Envelope { lane, number, item });
    sender
}

/// Takes what is handed over, until so many lanes have ended.
pub fn take_lanes<W: Named, M: Mailbox<W>, R: Wait>(
    rt: &R,
    alloc: Global,
    mailbox: &M,
    mut taker: M::Taker,
    mut lanes: u32,
) -> Result<Vec<Envelope>, AllocError>
    requires taker { M.ends.is_taker mailbox.now taker }
{
    let mut taken = Vec::new(alloc);
    for _ in rt.forever() {
        if lanes == 0 {
            break;
        }
        match mailbox.take::<R>(rt, &mut taker) {
            // It has the next number of its lane.
            Some(envelope) => {
                if matches!(envelope.item, Item::End) {
                    lanes -= 1;
                }
                taken.push(envelope)?;
            }
            None => thread::yield_now(),
        }
    }
    Ok(taken)
}

/// A lane, and the lines that go on it.
#[derive(Debug, Drop)]
pub struct LaneLines {
    pub lane: Lane,
    pub lines: Vec<ByteString>,
}

// Two threads send, and a third takes.
fn all_three<W: Named + Send + Sync, M: Mailbox<W> + Send + Sync, R: Threads + Wait + Sync>(
    rt: &R,
    alloc: Global,
    mailbox: &M,
    one: M::Sender,
    two: M::Sender,
    taker: M::Taker,
    first: LaneLines,
    second: LaneLines,
) -> Result<Vec<Envelope>, AllocError>
where
    M::Sender: Send,
    M::Taker: Send,
    requires one { M.ends.is_sender mailbox.now one × IsFresh first.lane (M.ends.sends_of one) × CarriesLines W.world first.lane first.lines.items }
    requires two { M.ends.is_sender mailbox.now two × IsFresh second.lane (M.ends.sends_of two) × CarriesLines W.world second.lane second.lines.items }
    requires taker { M.ends.is_taker mailbox.now taker }
{
    let LaneLines { lane: first, lines } = first;
    let LaneLines {
        lane: second,
        lines: others,
    } = second;
    let (_one, _two, taken) = join_three(
        rt,
        move || -> M::Sender
            requires { M.ends.is_sender mailbox.now one × IsFresh first (M.ends.sends_of one) × CarriesLines W.world first lines.items }
        { send_lines::<W, M, R>(rt, mailbox, one, first, lines) },
        move || -> M::Sender
            requires { M.ends.is_sender mailbox.now two × IsFresh second (M.ends.sends_of two) × CarriesLines W.world second others.items }
        { send_lines::<W, M, R>(rt, mailbox, two, second, others) },
        move || -> Result<Vec<Envelope>, AllocError>
            requires { M.ends.is_taker mailbox.now taker }
        { take_lanes::<W, M, R>(rt, alloc, mailbox, taker, 2) },
    );
    taken
}

/// Two threads hand over lines, each on a lane of its own, through a mailbox of capacity 2, and a third takes them until
/// both lanes have ended. None where memory was refused.
pub fn two_threads_hand_over_lines<
    W: Named + Send + Sync,
    M: Mailbox<W> + Drop + Send + Sync,
    R: Threads + Wait + Sync,
>(rt: &R, alloc: Global, first: LaneLines, second: LaneLines) -> Option<Vec<Envelope>>
where
    M::Sender: Send,
    M::Taker: Send,
    requires apart { same_lane first.lane second.lane ≡ false }
    requires first { CarriesLines W.world first.lane first.lines.items }
    requires second { CarriesLines W.world second.lane second.lines.items }
{
    let (mailbox, one, two, taker) = open_two::<W, M>(alloc, first.lane, second.lane, 2).ok()?;
    all_three::<W, M, R>(rt, alloc, &mailbox, one, two, taker, first, second).ok()
}
