//! What a mailbox answers, call by call, on one thread.

ghost use Rattle.std.specs.Prelude.{◌≡◌, ◌+◌, ◌<◌, ◌≤◌, ◌^◌, false, Some};
ghost use Rattle.pl_event.specs.Hops.{flags_lane};
ghost use Rattle.pl_queue.specs.Views.{sent_of};

use crate::flags::{flag, lane};
use crate::openings::open_one;
use pl_event::Named;
use pl_queue::Mailbox;
use std::alloc::Global;
use std::sync::Wait;

/// What an offer or a take answered.
#[derive(Clone, Copy, Debug, PartialEq, Eq)]
pub enum Answer {
    Sent,
    Full,
    /// The envelope with this number.
    Took(u64),
    Nothing,
}

// Offers the next flag of a lane.
fn offer_next<W: Named, M: Mailbox<W>, R: Wait>(
    rt: &R,
    mailbox: &M,
    sender: &mut M::Sender,
    next: &mut u64,
) -> Answer
    requires sender { M.ends.is_sender mailbox.now sender.old }
    requires next { sent_of (flags_lane 0 0) (M.ends.sends_of sender.old).send_counts ≡ Some (next.old, false) }
    requires small { next.old < 2 ^ 32 }
    ensures sender { M.ends.is_sender mailbox.now sender.new }
    ensures next { sent_of (flags_lane 0 0) (M.ends.sends_of sender.new).send_counts ≡ Some (next.new, false) }
    ensures small { next.new ≤ next.old + 1 }
{
    let number = *next;
    match mailbox.offer::<R>(rt, sender, flag(lane(0, 0), number)) {
        Ok(()) => {
            *next = number + 1;
            Answer::Sent
        }
        Err(full) => {
            drop(full);
            Answer::Full
        }
    }
}

// Takes what is there.
fn take_next<W: Named, M: Mailbox<W>, R: Wait>(rt: &R, mailbox: &M, taker: &mut M::Taker) -> Answer
    requires taker { M.ends.is_taker mailbox.now taker.old }
    ensures taker { M.ends.is_taker mailbox.now taker.new }
{
    match mailbox.take::<R>(rt, taker) {
        Some(envelope) => {
            let number = envelope.number;
            drop(envelope);
            Answer::Took(number)
        }
        None => Answer::Nothing,
    }
}

/// What a mailbox of capacity 2 answers: to a take, to so many offers, and to as many takes and one more. None where memory
/// was refused.
pub fn answers<W: Named, M: Mailbox<W> + Drop, R: Wait>(
    rt: &R,
    alloc: Global,
    offers: u32,
) -> Option<Vec<Answer>> {
    let (mailbox, mut sender, mut taker) = open_one::<W, M>(alloc, lane(0, 0)).ok()?;
    let mut answers = Vec::new(alloc);
    answers
        .push(take_next::<W, M, R>(rt, &mailbox, &mut taker))
        .ok()?;
    let mut next = 0;
    'offers: for count in 0..offers {
        let answer = offer_next::<W, M, R>(rt, &mailbox, &mut sender, &mut next);
        answers.push(answer).ok()?;
    }
    'takes: for _ in 0..=offers {
        answers
            .push(take_next::<W, M, R>(rt, &mailbox, &mut taker))
            .ok()?;
    }
    Some(answers)
}

// Whether a mailbox is found full, and whether empty.
fn look<W: Named, M: Mailbox<W>>(
    mailbox: &M,
    sender: &mut M::Sender,
    taker: &mut M::Taker,
) -> (bool, bool)
    requires sender { M.ends.is_sender mailbox.now sender.old }
    requires taker { M.ends.is_taker mailbox.now taker.old }
    ensures sender { M.ends.is_sender mailbox.now sender.new × (M.ends.sends_of sender.new ≡ M.ends.sends_of sender.old) }
    ensures taker { M.ends.is_taker mailbox.now taker.new }
{
    (mailbox.is_full(sender), mailbox.is_empty(taker))
}

/// Whether a mailbox of capacity 2 is found full, and whether empty: as it was opened, after one offer, after two, and after a
/// take. None where memory was refused.
pub fn looks<W: Named, M: Mailbox<W> + Drop, R: Wait>(
    rt: &R,
    alloc: Global,
) -> Option<[(bool, bool); 4]> {
    let (mailbox, mut sender, mut taker) = open_one::<W, M>(alloc, lane(0, 0)).ok()?;
    let opened = look::<W, M>(&mailbox, &mut sender, &mut taker);
    let mut next = 0;
    offer_next::<W, M, R>(rt, &mailbox, &mut sender, &mut next);
    let one = look::<W, M>(&mailbox, &mut sender, &mut taker);
    offer_next::<W, M, R>(rt, &mailbox, &mut sender, &mut next);
    let two = look::<W, M>(&mailbox, &mut sender, &mut taker);
    take_next::<W, M, R>(rt, &mailbox, &mut taker);
    let taken = look::<W, M>(&mailbox, &mut sender, &mut taker);
    Some([opened, one, two, taken])
}
