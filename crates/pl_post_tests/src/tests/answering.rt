//! What the calls of a post answer, on one thread.

ghost use Rattle.std.specs.Prelude.{◌≡◌, ◌+◌, ◌<◌, ◌≤◌, ◌^◌, IfSome};
ghost use Rattle.pl_event.specs.Hops.{flags_lane};
ghost use Rattle.pl_post.specs.Posts.{IsSeatOf, IsOwnerOf};
ghost use Rattle.pl_post_tests.specs.Feeding.{IsNext};

use pl_event::Named;
use pl_post::{Post, PostOwner, PostSeat, StillOpen, Unsent};
use pl_queue::Mailbox;
use pl_queue_tests::{flag, lane as flags};
use std::alloc::Global;
use std::sync::Wait;

/// A post with one seat, which has the flags lane of hop 0 of channel 0, and its owner.
fn open_one<W: Named, M: Mailbox<W> + Drop>(
    alloc: Global,
    capacity: usize,
) -> Option<(Post<W, M>, PostSeat<W, M>, PostOwner<W, M>)>
    ensures seat { IfSome result (λ r. IsSeatOf M.ends r.0 r.1 × IsNext (flags_lane 0 0) 0 (M.ends.sends_of r.1.sender)) }
    ensures owner { IfSome result (λ r. IsOwnerOf M.ends r.0 r.2) }
{
    let Ok(own) = Vec::from_array(alloc, [flags(0, 0)]) else {
        return None;
    };
    let Ok(lanes) = Vec::from_array(alloc, [own]) else {
        return None;
    };
    let Ok((post, mut seats, owner)) = Post::<W, M>::open(alloc, lanes, capacity) else {
        return None;
    };
    let Some(seat) = seats.pop() else {
        unreachable!()
    };
    Some((post, seat, owner))
}

/// What a call answered.
#[derive(Clone, Copy, Debug, PartialEq, Eq)]
pub enum Answer {
    Sent,
    Full,
    Closed,
    Spent,
    /// The envelope with this number.
    Took(u64),
    Nothing,
    Open(StillOpen),
    Finished,
}

// Why a send was refused.
fn refused(unsent: Unsent) -> Answer {
    let answer = match &unsent {
        Unsent::Full(_) => Answer::Full,
        Unsent::Closed(_) => Answer::Closed,
        Unsent::Spent(_) => Answer::Spent,
    };
    drop(unsent);
    answer
}

// Sends the next flag.
fn send_next<W: Named, M: Mailbox<W> + Drop, R: Wait>(
    rt: &R,
    post: &Post<W, M>,
    seat: &mut PostSeat<W, M>,
    next: &mut u64,
) -> Answer
    requires seat { IsSeatOf M.ends post.now seat.old }
    requires next { IsNext (flags_lane 0 0) next.old (M.ends.sends_of seat.old.sender) }
    requires small { next.old < 2 ^ 32 }
    ensures seat { IsSeatOf M.ends post.now seat.new }
    ensures next { IsNext (flags_lane 0 0) next.new (M.ends.sends_of seat.new.sender) }
    ensures small { next.new ≤ next.old + 1 }
{
    let number = *next;
    match post.send::<R>(rt, seat, flag(flags(0, 0), number)) {
        Ok(()) => {
            *next = number + 1;
            Answer::Sent
        }
        Err(unsent) => refused(unsent),
    }
}

// Takes what is there.
fn take_next<W: Named, M: Mailbox<W> + Drop, R: Wait>(
    rt: &R,
    post: &Post<W, M>,
    owner: &mut PostOwner<W, M>,
) -> Answer
    requires owner { IsOwnerOf M.ends post.now owner.old }
    ensures owner { IsOwnerOf M.ends post.now owner.new }
{
    let Some(envelope) = post.take::<R>(rt, owner) else {
        return Answer::Nothing;
    };
    let number = envelope.number;
    drop(envelope);
    Answer::Took(number)
}

// An attempt to close.
fn finish<W: Named, M: Mailbox<W> + Drop>(post: &Post<W, M>, owner: &mut PostOwner<W, M>) -> Answer
    requires owner { IsOwnerOf M.ends post.now owner.old }
    ensures owner { IsOwnerOf M.ends post.now owner.new }
{
    match post.finish(owner) {
        Ok(()) => Answer::Finished,
        Err(found) => Answer::Open(found),
    }
}

/// What a post of capacity 1 answers.
#[derive(Clone, Copy, Debug, PartialEq, Eq)]
pub struct Answers<const SENDS: usize> {
    /// To an attempt to close.
    pub open: Answer,
    /// To so many sends.
    pub sends: [Answer; SENDS],
    /// Once closing has begun: to an attempt to close, a take, an attempt to close, a send, a take and an attempt to close.
    pub closing: [Answer; 6],
}

/// Opens it, and asks. None where memory was refused.
pub fn open_and_ask<W: Named, M: Mailbox<W> + Drop, R: Wait, const SENDS: usize>(
    rt: &R,
    alloc: Global,
) -> Option<Answers<SENDS>>
    requires few { SENDS < 2 ^ 32 }
{
    let (post, seat, owner) = open_one::<W, M>(alloc, 1)?;
    Some(ask::<W, M, R, SENDS>(rt, &post, seat, owner))
}

// The same of a post that was opened.
fn ask<W: Named, M: Mailbox<W> + Drop, R: Wait, const SENDS: usize>(
    rt: &R,
    post: &Post<W, M>,
    mut seat: PostSeat<W, M>,
    mut owner: PostOwner<W, M>,
) -> Answers<SENDS>
    requires few { SENDS < 2 ^ 32 }
    requires seat { IsSeatOf M.ends post.now seat × IsNext (flags_lane 0 0) 0 (M.ends.sends_of seat.sender) }
    requires owner { IsOwnerOf M.ends post.now owner }
{
    let open = finish(post, &mut owner);
    let mut sends = [Answer::Nothing; SENDS];
    let mut next = 0;
    for turn in 0..SENDS {
        sends[turn] = send_next::<W, M, R>(rt, post, &mut seat, &mut next);
    }
    post.begin_close(&mut owner);
    let closing = [
        finish(post, &mut owner),
        take_next::<W, M, R>(rt, post, &mut owner),
        finish(post, &mut owner),
        send_next::<W, M, R>(rt, post, &mut seat, &mut next),
        take_next::<W, M, R>(rt, post, &mut owner),
        finish(post, &mut owner),
    ];
    Answers {
        open,
        sends,
        closing,
    }
}
