//! Two threads send while a post is closed, and again after that.

ghost use Rattle.std.specs.Prelude.{◌≡◌, ◌≢◌, ◌≤◌, Some};
ghost use denote.Param.Send.{IsSync};
ghost use Rattle.pl_event.specs.Hops.{data_lane as the_data_lane};
ghost use Rattle.pl_event.specs.Worlds.{FitsWorld, World, content_of};
ghost use Rattle.pl_queue_tests.specs.Relays.{lane_events};
ghost use Rattle.pl_words.specs.declared.status.Status.TheVariants.{Closed};
ghost use Rattle.pl_post.specs.Posts.{IsSeatOf, IsOwnerOf};
ghost use Rattle.pl_post_tests.specs.Feeding.{IsNext, Feeds};

use crate::feeding::{Closing, Fed, Served, feed, open_three, serve, three_feed_while_closing};
use pl_event::{Envelope, Item, Named};
use pl_post::{Post, PostSeat, Unsent};
use pl_queue::{Mailbox, RingBox, WaitingBox};
use pl_queue_tests::{data_lane, event, join_three};
use std::alloc::Global;
use std::sync::Wait;
use std::thread::Threads;

/// Which mailbox a post is over.
#[derive(Clone, Copy, Debug, PartialEq, Eq)]
pub enum BoxKind {
    Ring,
    Waiting,
}

/// Both of them.
pub const EACH: [BoxKind; 2] = [BoxKind::Ring, BoxKind::Waiting];

/// A lane carries this many events, and then its end.
pub const EVENTS: u64 = 999;

/// What became of two threads that fed a post, of its owner, and of the next envelope of each lane after that.
#[derive(Debug, Drop)]
pub struct Load {
    pub first: Fed,
    pub second: Fed,
    pub served: Served<3>,
    pub first_after: Result<(), Unsent>,
    pub second_after: Result<(), Unsent>,
}

/// The envelope of a lane with this number: its end is the last.
pub fn envelope(channel: u16, number: u64) -> Envelope
    requires few { number ≤ 999 }
    ensures lane { result.lane ≡ the_data_lane channel 0 }
    ensures number { result.number ≡ number }
    ensures fits { (world : World) → content_of world (the_data_lane channel 0) ≡ Some (lane_events 999) → FitsWorld world result }
{
    if number < EVENTS {
        return event(data_lane(channel), number);
    }
    Envelope {
        lane: data_lane(channel),
        number,
        item: Item::End,
    }
}

// Sends the next envelope of a lane.
fn send_next<W: Named, M: Mailbox<W> + Drop, R: Wait>(
    rt: &R,
    post: &Post<W, M>,
    mut seat: PostSeat<W, M>,
    channel: u16,
    number: u64,
) -> Result<(), Unsent>
    requires seat { IsSeatOf M.ends post.now seat }
    requires next { IsNext (the_data_lane channel 0) number (M.ends.sends_of seat.sender) }
    requires few { number ≤ 999 }
    requires world { content_of W.world (the_data_lane channel 0) ≡ Some (lane_events 999) }
{
    post.send::<R>(rt, &mut seat, envelope(channel, number))
}

/// Two threads send the first 999 envelopes of a lane of their own through a post of capacity 1, whose third seat sends nothing.
/// The owner takes 500, and closes. Then the next envelope of each lane is sent. None where the post was not opened.
pub fn two_send_while_closing<
    W: Named + Send + Sync,
    M: Mailbox<W> + Drop + Send + Sync,
    R: Threads + Wait + Sync,
>(rt: &R, alloc: Global) -> Option<Load>
where
    M::Sender: Send,
    M::Taker: Send,
    requires first { content_of W.world (the_data_lane 0 0) ≡ Some (lane_events 999) }
    requires second { content_of W.world (the_data_lane 1 0) ≡ Some (lane_events 999) }
{
    let (opened, (one, two, _three), owner) = open_three::<W, M>(alloc, 1)?;
    let post = &opened;
    let ((one, first), (two, second), served) = join_three(
        rt,
        move || -> (PostSeat<W, M>, Fed)
            requires { IsSeatOf M.ends post.now one × IsNext (the_data_lane 0 0) 0 (M.ends.sends_of one.sender) × (content_of W.world (the_data_lane 0 0) ≡ Some (lane_events 999)) }
            ensures { IsSeatOf M.ends post.entry.now result.0 × IsNext (the_data_lane 0 0) result.1.sent (M.ends.sends_of result.0.sender) × (result.1.sent ≤ 999) }
        { feed::<W, M, R>(rt, post, one, data_lane(0), EVENTS) },
        move || -> (PostSeat<W, M>, Fed)
            requires { IsSeatOf M.ends post.now two × IsNext (the_data_lane 1 0) 0 (M.ends.sends_of two.sender) × (content_of W.world (the_data_lane 1 0) ≡ Some (lane_events 999)) }
            ensures { IsSeatOf M.ends post.entry.now result.0 × IsNext (the_data_lane 1 0) result.1.sent (M.ends.sends_of result.0.sender) × (result.1.sent ≤ 999) }
        { feed::<W, M, R>(rt, post, two, data_lane(1), EVENTS) },
        move || -> Served<3>
            requires { IsOwnerOf M.ends post.now owner × (owner.owner.phase ≢ Closed) }
        { serve::<W, M, R, 3>(rt, post, owner, 500).1 },
    );
    let first_after = send_next::<W, M, R>(rt, post, one, 0, first.sent);
    let second_after = send_next::<W, M, R>(rt, post, two, 1, second.sent);
    Some(Load {
        first,
        second,
        served,
        first_after,
        second_after,
    })
}

/// The same over a mailbox of this kind.
pub fn two_by<W: Named + Send + Sync, R: Threads + Wait + Sync>(
    kind: BoxKind,
    rt: &R,
    alloc: Global,
) -> Option<Load>
    requires first { content_of W.world (the_data_lane 0 0) ≡ Some (lane_events 999) }
    requires second { content_of W.world (the_data_lane 1 0) ≡ Some (lane_events 999) }
{
    match kind {
        BoxKind::Ring => two_send_while_closing::<W, RingBox<W>, R>(rt, alloc),
        BoxKind::Waiting => two_send_while_closing::<W, WaitingBox<W>, R>(rt, alloc),
    }
}

/// Three threads send the first 999 envelopes of a lane of their own through a post of capacity 4 over a mailbox of this kind. The
/// owner takes 1,000, and closes. None where the post was not opened.
pub fn three_by<W: Named + Send + Sync, R: Threads + Wait + Sync>(
    kind: BoxKind,
    rt: &R,
    alloc: Global,
) -> Option<Closing>
    requires first { content_of W.world (the_data_lane 0 0) ≡ Some (lane_events 999) }
    requires second { content_of W.world (the_data_lane 1 0) ≡ Some (lane_events 999) }
    requires third { content_of W.world (the_data_lane 2 0) ≡ Some (lane_events 999) }
{
    match kind {
        BoxKind::Ring => three_feed_while_closing::<W, RingBox<W>, R>(rt, alloc, 4, EVENTS, 1_000),
        BoxKind::Waiting => {
            three_feed_while_closing::<W, WaitingBox<W>, R>(rt, alloc, 4, EVENTS, 1_000)
        }
    }
}
