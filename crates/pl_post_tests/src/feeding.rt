//! The lesson of pl_post's README: three threads feed a mailbox, and its owner closes it while they send.

ghost use Rattle.std.specs.Prelude.{◌≡◌, ◌≢◌, ◌+◌, ◌<◌, ◌≤◌, ◌^◌, false, Some, IfSome, IsTrue, MatchResult};
ghost use denote.Param.Send.{IsSync};
ghost use Rattle.pl_event.specs.declared.envelopes.Kind.TheVariants.{Data};
ghost use Rattle.pl_event.specs.Hops.{data_lane as the_data_lane};
ghost use Rattle.pl_event.specs.Worlds.{FitsWorld, content_of};
ghost use Rattle.pl_queue.specs.Views.{sent_of, after_offer};
ghost use Rattle.pl_queue_tests.specs.Relays.{lane_events};
ghost use Rattle.pl_words.specs.declared.status.Status.TheVariants.{Accepting, Closed};
ghost use Rattle.pl_post.specs.Posts.{IsSeatOf, IsOwnerOf, back_of};
ghost use Rattle.pl_post_tests.specs.Feeding.{IsNext, Feeds};

use pl_event::{Envelope, Lane, Named};
use pl_post::{Post, PostOwner, PostSeat, Unsent};
use pl_queue::Mailbox;
use pl_queue_tests::{data_lane, event, join_three};
use std::alloc::Global;
use std::sync::Wait;
use std::thread;
use std::thread::Threads;

/// After so many tries in a row that sent, took or closed nothing, a thread gives up.
pub const MAX_TRIES: u32 = 10_000_000;

/// Sends an envelope as soon as there is room. `Full` where it gave up.
pub fn send_when_room<W: Named, M: Mailbox<W> + Drop, R: Wait>(
    rt: &R,
    post: &Post<W, M>,
    seat: &mut PostSeat<W, M>,
    mut envelope: Envelope,
) -> Result<(), Unsent>
    requires seat { IsSeatOf M.ends post.now seat.old }
    requires next { IsNext envelope.lane envelope.number (M.ends.sends_of seat.old.sender) }
    requires small { envelope.number < 2 ^ 32 }
    requires fits { FitsWorld W.world envelope }
    ensures seat { IsSeatOf M.ends post.now seat.new }
    ensures sent { MatchResult result
        (λ _. (M.ends.sends_of seat.new.sender ≡ after_offer (M.ends.sends_of seat.old.sender) envelope) × (seat.new.seat.kept ≡ seat.old.seat.kept + 1))
        (λ why. (M.ends.sends_of seat.new.sender ≡ M.ends.sends_of seat.old.sender) × (seat.new.seat.kept ≡ seat.old.seat.kept) × (back_of why ≡ envelope)) }
{
    for _ in 0..MAX_TRIES {
        match post.send::<R>(rt, seat, envelope) {
            // The queue was full, and the same envelope is back.
            Err(Unsent::Full(back)) => {
                envelope = back;
                thread::yield_now();
            }
            // It is at the queue's back. Or the post is closed, or the seat is spent, and the same envelope is back.
            answer => return answer,
        }
    }
    Err(Unsent::Full(envelope))
}

/// What a thread has sent of its lane, and what became of the last envelope.
#[derive(Debug, Drop)]
pub struct Fed {
    /// How many were sent: the numbers below this one.
    pub sent: u64,
    /// The next one, and why it was not sent. None where all were sent.
    pub unsent: Option<Unsent>,
}

/// Sends the first so many envelopes of a lane, up to the first that is not sent.
pub fn feed<W: Named, M: Mailbox<W> + Drop, R: Wait>(
    rt: &R,
    post: &Post<W, M>,
    mut seat: PostSeat<W, M>,
    lane: Lane,
    count: u64,
) -> (PostSeat<W, M>, Fed)
    requires seat { IsSeatOf M.ends post.now seat }
    requires fresh { IsNext lane 0 (M.ends.sends_of seat.sender) }
    requires few { count < 2 ^ 32 }
    requires world { (lane.kind ≡ Data) × (content_of W.world lane ≡ Some (lane_events count)) }
    ensures seat { IsSeatOf M.ends post.now result.0 }
    ensures fed { Feeds lane count seat.seat.kept result.1 (M.ends.sends_of result.0.sender) result.0.seat.kept }
{
    for number in 0..count {
        if let Err(unsent) = send_when_room::<W, M, R>(rt, post, &mut seat, event(lane, number)) {
            let fed = Fed {
                sent: number,
                unsent: Some(unsent),
            };
            return (seat, fed);
        }
    }
    let fed = Fed {
        sent: count,
        unsent: None,
    };
    (seat, fed)
}

/// What the owner took of each of the lanes of the first channels, as many as `CHANNELS` says.
#[derive(Clone, Copy, Debug, PartialEq, Eq)]
pub struct Served<const CHANNELS: usize> {
    /// How many, by channel: the numbers below this one.
    pub taken: [u64; CHANNELS],
    /// Whether each was the next envelope of its lane.
    pub in_order: bool,
    /// Whether the post is closed. Else the owner gave up.
    pub closed: bool,
}

impl<const CHANNELS: usize> Served<CHANNELS> {
    /// Notes an envelope that was taken.
    fn note(&mut self, envelope: &Envelope)
        ensures { self.new.closed ≡ self.old.closed }
    {
        let channel = usize::from(envelope.lane.channel);
        if channel >= CHANNELS {
            self.in_order = false;
            return;
        }
        let next = event(data_lane(envelope.lane.channel), self.taken[channel]);
        self.in_order = self.in_order && *envelope == next;
        self.taken[channel] = self.taken[channel].saturating_add(1);
    }
}

/// Takes what comes. After so many it begins to close, goes on, and closes as soon as there is nothing that it did not take.
pub fn serve<W: Named, M: Mailbox<W> + Drop, R: Wait, const CHANNELS: usize>(
    rt: &R,
    post: &Post<W, M>,
    mut owner: PostOwner<W, M>,
    enough: u64,
) -> (PostOwner<W, M>, Served<CHANNELS>)
    requires owner { IsOwnerOf M.ends post.now owner }
    requires unclosed { owner.owner.phase ≢ Closed }
    ensures owner { IsOwnerOf M.ends post.now result.0 }
    ensures closed { IsTrue result.1.closed → (result.0.owner.phase ≡ Closed) × (result.0.owner.run ≡ result.0.taken) }
{
    let mut served = Served {
        taken: [0; CHANNELS],
        in_order: true,
        closed: false,
    };
    let mut more = enough;
    let mut tries = 0;
    for _ in rt.forever() {
        match post.take::<R>(rt, &mut owner) {
            // It has the next number of its lane.
            Some(envelope) => {
                served.note(&envelope);
                tries = 0;
                if more == 1 {
                    post.begin_close(&mut owner);
                }
                more = more.saturating_sub(1);
            }
            None => {
                // Nobody sends any more, and all that was sent was taken.
                if more == 0 && post.finish(&mut owner).is_ok() {
                    served.closed = true;
                    return (owner, served);
                }
                tries += 1;
                if tries == MAX_TRIES {
                    return (owner, served);
                }
                thread::yield_now();
            }
        }
    }
    unreachable!()
}

/// A post with three seats, of which each has the lane of a channel from 0 to 2, and its owner. None where memory is refused, or
/// the capacity is past the limits.
pub fn open_three<W: Named, M: Mailbox<W> + Drop>(
    alloc: Global,
    capacity: usize,
) -> Option<
    (
        Post<W, M>,
        (PostSeat<W, M>, PostSeat<W, M>, PostSeat<W, M>),
        PostOwner<W, M>,
    ),
>
    ensures first { IfSome result (λ r. IsSeatOf M.ends r.0 r.1.0 × IsNext (the_data_lane 0 0) 0 (M.ends.sends_of r.1.0.sender)) }
    ensures second { IfSome result (λ r. IsSeatOf M.ends r.0 r.1.1 × IsNext (the_data_lane 1 0) 0 (M.ends.sends_of r.1.1.sender)) }
    ensures third { IfSome result (λ r. IsSeatOf M.ends r.0 r.1.2 × IsNext (the_data_lane 2 0) 0 (M.ends.sends_of r.1.2.sender)) }
    ensures owner { IfSome result (λ r. IsOwnerOf M.ends r.0 r.2 × (r.2.owner.phase ≡ Accepting)) }
{
    let Ok(one) = Vec::from_array(alloc, [data_lane(0)]) else {
        return None;
    };
    let Ok(two) = Vec::from_array(alloc, [data_lane(1)]) else {
        return None;
    };
    let Ok(three) = Vec::from_array(alloc, [data_lane(2)]) else {
        return None;
    };
    let Ok(lanes) = Vec::from_array(alloc, [one, two, three]) else {
        return None;
    };
    let Ok((post, mut seats, owner)) = Post::<W, M>::open(alloc, lanes, capacity) else {
        return None;
    };
    let Some(third) = seats.pop() else {
        unreachable!()
    };
    let Some(second) = seats.pop() else {
        unreachable!()
    };
    let Some(first) = seats.pop() else {
        unreachable!()
    };
    Some((post, (first, second, third), owner))
}

/// What became of three threads that fed a post, and of its owner.
#[derive(Debug, Drop)]
pub struct Closing {
    pub first: Fed,
    pub second: Fed,
    pub third: Fed,
    pub served: Served<3>,
}

// Three threads feed, and a fourth takes and closes.
fn all_four<W: Named + Send + Sync, M: Mailbox<W> + Drop + Send + Sync, R: Threads + Wait + Sync>(
    rt: &R,
    post: &Post<W, M>,
    seats: (PostSeat<W, M>, PostSeat<W, M>, PostSeat<W, M>),
    owner: PostOwner<W, M>,
    count: u64,
    enough: u64,
) -> Closing
where
    M::Sender: Send,
    M::Taker: Send,
    requires first { IsSeatOf M.ends post.now seats.0 × IsNext (the_data_lane 0 0) 0 (M.ends.sends_of seats.0.sender) × (content_of W.world (the_data_lane 0 0) ≡ Some (lane_events count)) }
    requires second { IsSeatOf M.ends post.now seats.1 × IsNext (the_data_lane 1 0) 0 (M.ends.sends_of seats.1.sender) × (content_of W.world (the_data_lane 1 0) ≡ Some (lane_events count)) }
    requires third { IsSeatOf M.ends post.now seats.2 × IsNext (the_data_lane 2 0) 0 (M.ends.sends_of seats.2.sender) × (content_of W.world (the_data_lane 2 0) ≡ Some (lane_events count)) }
    requires few { count < 2 ^ 32 }
    requires owner { IsOwnerOf M.ends post.now owner × (owner.owner.phase ≢ Closed) }
{
    let (one, two, three) = seats;
    let (first, second, (third, served)) = join_three(
        rt,
        move || -> Fed
            requires { IsSeatOf M.ends post.now one × IsNext (the_data_lane 0 0) 0 (M.ends.sends_of one.sender) × (content_of W.world (the_data_lane 0 0) ≡ Some (lane_events count)) × (count < 2 ^ 32) }
        { feed::<W, M, R>(rt, post, one, data_lane(0), count).1 },
        move || -> Fed
            requires { IsSeatOf M.ends post.now two × IsNext (the_data_lane 1 0) 0 (M.ends.sends_of two.sender) × (content_of W.world (the_data_lane 1 0) ≡ Some (lane_events count)) × (count < 2 ^ 32) }
        { feed::<W, M, R>(rt, post, two, data_lane(1), count).1 },
        move || -> (Fed, Served<3>)
            requires { (IsSeatOf M.ends post.now three × IsNext (the_data_lane 2 0) 0 (M.ends.sends_of three.sender) × (content_of W.world (the_data_lane 2 0) ≡ Some (lane_events count)) × (count < 2 ^ 32)) × IsOwnerOf M.ends post.now owner × (owner.owner.phase ≢ Closed) }
        {
            thread::join(
                rt,
                move || -> Fed
                    requires { IsSeatOf M.ends post.now three × IsNext (the_data_lane 2 0) 0 (M.ends.sends_of three.sender) × (content_of W.world (the_data_lane 2 0) ≡ Some (lane_events count)) × (count < 2 ^ 32) }
                { feed::<W, M, R>(rt, post, three, data_lane(2), count).1 },
                move || -> Served<3>
                    requires { IsOwnerOf M.ends post.now owner × (owner.owner.phase ≢ Closed) }
                { serve::<W, M, R, 3>(rt, post, owner, enough).1 },
            )
        },
    );
    Closing {
        first,
        second,
        third,
        served,
    }
}

/// Three threads send the first so many envelopes of a lane of their own, while the owner takes, and closes once it has taken
/// enough. None where the post was not opened.
pub fn three_feed_while_closing<
    W: Named + Send + Sync,
    M: Mailbox<W> + Drop + Send + Sync,
    R: Threads + Wait + Sync,
>(rt: &R, alloc: Global, capacity: usize, count: u64, enough: u64) -> Option<Closing>
where
    M::Sender: Send,
    M::Taker: Send,
    requires few { count < 2 ^ 32 }
    requires first { content_of W.world (the_data_lane 0 0) ≡ Some (lane_events count) }
    requires second { content_of W.world (the_data_lane 1 0) ≡ Some (lane_events count) }
    requires third { content_of W.world (the_data_lane 2 0) ≡ Some (lane_events count) }
{
    let (post, seats, owner) = open_three::<W, M>(alloc, capacity)?;
    Some(all_four::<W, M, R>(rt, &post, seats, owner, count, enough))
}
