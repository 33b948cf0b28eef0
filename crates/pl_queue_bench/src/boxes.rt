//! Through a mailbox with many lanes or senders, in turns on one thread.

ghost use Rattle.std.specs.Prelude.{◌≡◌, ◌+◌, ◌<◌, ◌≤◌, ◌^◌, length, vec_len, IfSome};
ghost use Rattle.pl_queue_bench.specs.Sending.{HasNext, AllHaveNext};

use crate::CAPACITY;
use pl_event::Named;
use pl_queue::Mailbox;
use pl_queue_tests::{flag, hand_over, lane, lists};
use std::alloc::Global;
use std::sync::Wait;

// A mailbox with so many senders. Each of the first ones has the flags lanes of so many hops of a channel.
fn opened<W: Named, M: Mailbox<W> + Drop>(
    alloc: Global,
    hops: u16,
    channels: u16,
    senders: u32,
) -> Option<(M, Vec<M::Sender>, M::Taker)>
    requires { (0 < channels) × (channels ≤ senders) }
    ensures senders { IfSome result (λ r. (vec_len r.1 ≡ senders) × AllHaveNext (M.ends.is_sender r.0) M.ends.sends_of hops 0 0 channels r.1.items) }
    ensures taker { IfSome result (λ r. M.ends.is_taker r.0 r.2) }
{
    let Ok(lists) = lists(alloc, hops, channels, senders) else {
        return None;
    };
    match M::open(alloc, lists, CAPACITY) {
        Ok(opened) => Some(opened),
        Err(_) => None,
    }
}

// Takes an envelope, where there is one. How many it took.
fn take_one<W: Named, M: Mailbox<W>, R: Wait>(rt: &R, mailbox: &M, taker: &mut M::Taker) -> u64
    requires taker { M.ends.is_taker mailbox.now taker.old }
    ensures taker { M.ends.is_taker mailbox.now taker.new }
    ensures one { result ≤ 1 }
{
    match mailbox.take::<R>(rt, taker) {
        Some(envelope) => {
            drop(envelope);
            1
        }
        None => 0,
    }
}

// A flag on each lane of a sender, each taken at once. How many were.
fn offer_and_take<W: Named, M: Mailbox<W>, R: Wait>(
    rt: &R,
    mailbox: &M,
    sender: &mut M::Sender,
    taker: &mut M::Taker,
    channel: u16,
    hops: u16,
    number: u64,
) -> u64
    requires sender { M.ends.is_sender mailbox.now sender.old }
    requires taker { M.ends.is_taker mailbox.now taker.old }
    requires next { HasNext channel 0 hops number (M.ends.sends_of sender.old) }
    requires small { number < 2 ^ 32 }
    ensures sender { M.ends.is_sender mailbox.now sender.new }
    ensures taker { M.ends.is_taker mailbox.now taker.new }
    ensures next { HasNext channel 0 hops (number + 1) (M.ends.sends_of sender.new) }
{
    let mut taken = 0;
    for hop in 0..hops {
        hand_over::<W, M, R>(rt, mailbox, sender, flag(lane(channel, hop), number));
        taken += take_one::<W, M, R>(rt, mailbox, taker);
    }
    taken
}

// The same with each sender in turn, so many times.
fn all_in_turns<W: Named, M: Mailbox<W>, R: Wait>(
    rt: &R,
    mailbox: &M,
    senders: &mut [M::Sender],
    taker: &mut M::Taker,
    channels: u16,
    hops: u16,
    rounds: u64,
) -> u64
    requires there { channels ≤ length senders.old }
    requires senders { AllHaveNext (M.ends.is_sender mailbox.now) M.ends.sends_of hops 0 0 channels senders.old }
    requires taker { M.ends.is_taker mailbox.now taker.old }
    requires small { rounds ≤ 2 ^ 32 }
{
    let mut taken: u64 = 0;
    'rounds: for number in 0..rounds {
        'channels: for channel in 0..channels {
            let sender = &mut senders[usize::from(channel)];
            let more = offer_and_take::<W, M, R>(rt, mailbox, sender, taker, channel, hops, number);
            taken = taken.saturating_add(more);
        }
    }
    taken
}

/// On one thread: lane by lane, an envelope is offered and taken, until each lane of these hops and channels has had so many.
/// Each of the first senders has a channel.
pub fn in_turns<W: Named, M: Mailbox<W> + Drop, R: Wait>(
    rt: &R,
    alloc: Global,
    channels: u16,
    hops: u16,
    senders: u32,
    rounds: u64,
) -> Option<u64>
    requires { (0 < channels) × (channels ≤ senders) × (rounds ≤ 2 ^ 32) }
{
    let (mailbox, mut senders, mut taker) = opened::<W, M>(alloc, hops, channels, senders)?;
    let senders = senders.as_mut_slice();
    Some(all_in_turns::<W, M, R>(rt, &mailbox, senders, &mut taker, channels, hops, rounds))
}
