//! Four threads send on 64 lanes each while a post is closed, and again after that.

ghost use Rattle.std.specs.Prelude.{◌≡◌, ◌≢◌, ◌≤◌, map, IfOk};
ghost use denote.Param.Send.{IsSync};
ghost use Rattle.pl_queue.specs.Left.{own_lanes};
ghost use Rattle.pl_queue.specs.Rule.{Each};
ghost use Rattle.pl_words.specs.declared.status.Status.TheVariants.{Accepting, Closed};
ghost use Rattle.pl_post.specs.Posts.{IsOwnerOf};
ghost use Rattle.pl_post_tests.specs.Turns.{lanes_from, lists_from, IsInTurn, CarriesAll};

use crate::feeding::{Served, send_when_room, serve};
use crate::tests::loads::{BoxKind, EVENTS, envelope};
use pl_event::{Lane, Named};
use pl_post::{Post, PostOwner, PostSeat, Unsent};
use pl_queue::{Mailbox, OpenRefusal, RingBox, WaitingBox};
use pl_queue_tests::{data_lane, event};
use std::alloc::{AllocError, Global};
use std::sync::Wait;
use std::thread;
use std::thread::Threads;

/// A seat with the lanes of 64 channels, and what was sent on them.
#[derive(Drop)]
pub struct Feeder<W: Named, M: Mailbox<W>> {
    seat: PostSeat<W, M>,
    /// The first of its channels.
    first: u16,
    /// How many were sent of each lane: the numbers below this one.
    sent: [u64; 64],
    /// The next one, and why it was not sent. None where all were sent.
    unsent: Option<Unsent>,
}

// The data lanes that enter hop 0 of 64 channels.
fn lanes(alloc: Global, first: u16) -> Result<Vec<Lane>, AllocError>
    requires { first ≤ 192 }
    ensures { IfOk result (λ v. v.items ≡ lanes_from first 64) }
{
    (first..first + 64)
        .map(|channel| data_lane(channel))
        .collect(alloc)
}

// A list of lanes for each of four seats.
fn lists(alloc: Global) -> Result<Vec<Vec<Lane>>, AllocError>
    ensures { IfOk result (λ v. map own_lanes v.items ≡ lists_from 0 4) }
{
    let one = lanes(alloc, 0)?;
    let two = lanes(alloc, 64)?;
    let three = lanes(alloc, 128)?;
    let four = lanes(alloc, 192)?;
    let lists = Vec::from_array(alloc, [one, two, three, four])?;
    Ok(lists)
}

// A post of capacity 8, with four seats that have the lanes of 64 channels each, and its owner.
fn open_four<W: Named, M: Mailbox<W> + Drop>(
    alloc: Global,
) -> Result<(Post<W, M>, Vec<Feeder<W, M>>, PostOwner<W, M>), OpenRefusal>
    ensures feeders { IfOk result (λ r. Each (λ f. IsInTurn M.ends r.0 f.seat f.first f.sent) r.1.items) }
    ensures owner { IfOk result (λ r. IsOwnerOf M.ends r.0 r.2 × (r.2.owner.phase ≡ Accepting)) }
{
    let lists = lists(alloc)?;
    let mut feeders = Vec::with_capacity(alloc, 4)?;
    let (post, seats, owner) = Post::<W, M>::open(alloc, lists, 8)?;
    let mut first = 0;
    for seat in seats {
        feeders.push_reserved(Feeder {
            seat,
            first,
            sent: [0; 64],
            unsent: None,
        });
        first += 64;
    }
    Ok((post, feeders, owner))
}

// Sends the events of its lanes in turn, up to the first that is not sent.
fn feed_in_turn<W: Named, M: Mailbox<W> + Drop, R: Wait>(
    rt: &R,
    post: &Post<W, M>,
    feeder: &mut Feeder<W, M>,
)
    requires feeder { IsInTurn M.ends post.now feeder.old.seat feeder.old.first feeder.old.sent }
    requires world { CarriesAll W.world }
    ensures feeder { IsInTurn M.ends post.now feeder.new.seat feeder.new.first feeder.new.sent }
{
    let mut turn: u16 = 0;
    for _ in rt.forever() {
        let number = feeder.sent[usize::from(turn)];
        if number >= EVENTS {
            return;
        }
        let next = event(data_lane(feeder.first + turn), number);
        if let Err(unsent) = send_when_room::<W, M, R>(rt, post, &mut feeder.seat, next) {
            drop(feeder.unsent.replace(unsent));
            return;
        }
        feeder.sent[usize::from(turn)] = number + 1;
        turn = (turn + 1) % 64;
    }
    unreachable!()
}

// Each on a thread of its own.
fn feed_all<W: Named + Send + Sync, M: Mailbox<W> + Drop + Send + Sync, R: Threads + Wait + Sync>(
    rt: &R,
    post: &Post<W, M>,
    mut feeders: Vec<Feeder<W, M>>,
) -> Vec<Feeder<W, M>>
where
    M::Sender: Send,
    M::Taker: Send,
    requires feeders { Each (λ f. IsInTurn M.ends post.now f.seat f.first f.sent) feeders.items }
    requires world { CarriesAll W.world }
    ensures feeders { Each (λ f. IsInTurn M.ends post.now f.seat f.first f.sent) result.items }
{
    thread::for_each_mut(
        rt,
        feeders.as_mut_slice(),
        4,
        &|_i: usize, feeder: &mut Feeder<W, M>|
            requires { IsInTurn M.ends post.now feeder.now.seat feeder.now.first feeder.now.sent × CarriesAll W.world }
            ensures { IsInTurn M.ends post.entry.now feeder.exit.now.seat feeder.exit.now.first feeder.exit.now.sent }
        { feed_in_turn::<W, M, R>(rt, post, feeder) },
    );
    feeders
}

/// What a thread has sent on its lanes, and what became of the next envelope of each after that.
#[derive(Debug, Drop)]
pub struct Sent {
    /// How many of each lane: the numbers below this one.
    pub sent: [u64; 64],
    /// The next one, and why it was not sent. None where all were sent.
    pub unsent: Option<Unsent>,
    /// How many lanes' next envelopes came back then, since the post was closed.
    pub closed_after: usize,
}

// Sends the next envelope of each lane, up to the first that does not come back since the post is closed.
fn send_after<W: Named, M: Mailbox<W> + Drop, R: Wait>(
    rt: &R,
    post: &Post<W, M>,
    mut feeder: Feeder<W, M>,
) -> Sent
    requires feeder { IsInTurn M.ends post.now feeder.seat feeder.first feeder.sent }
    requires world { CarriesAll W.world }
{
    let mut closed_after = 0;
    for turn in 0..64 {
        let next = envelope(feeder.first + turn, feeder.sent[usize::from(turn)]);
        match post.send::<R>(rt, &mut feeder.seat, next) {
            Err(Unsent::Closed(back)) => drop(back),
            other => {
                drop(other);
                break;
            }
        }
        closed_after += 1;
    }
    Sent {
        sent: feeder.sent,
        unsent: feeder.unsent,
        closed_after,
    }
}

/// What became of four threads that sent on 64 lanes each, and of the owner.
#[derive(Debug, Drop)]
pub struct FourSent {
    pub each: Vec<Sent>,
    pub served: Served<256>,
}

/// Four threads send the first 999 envelopes of the lanes of 64 channels each, in turn, through a post of capacity 8. The owner
/// takes 5,000, and closes. Then the next envelope of each lane is sent. None where memory is refused.
pub fn four_send_while_closing<
    W: Named + Send + Sync,
    M: Mailbox<W> + Drop + Send + Sync,
    R: Threads + Wait + Sync,
>(rt: &R, alloc: Global) -> Option<FourSent>
where
    M::Sender: Send,
    M::Taker: Send,
    requires world { CarriesAll W.world }
{
    let Ok((opened, feeders, owner)) = open_four::<W, M>(alloc) else {
        return None;
    };
    let post = &opened;
    let (feeders, served) = thread::join(
        rt,
        move || -> Vec<Feeder<W, M>>
            requires { Each (λ f. IsInTurn M.ends post.now f.seat f.first f.sent) feeders.items × CarriesAll W.world × IsSync R.row }
            ensures { Each (λ f. IsInTurn M.ends post.entry.now f.seat f.first f.sent) result.items }
        { feed_all::<W, M, R>(rt, post, feeders) },
        move || -> Served<256>
            requires { IsOwnerOf M.ends post.now owner × (owner.owner.phase ≢ Closed) }
        { serve::<W, M, R, 256>(rt, post, owner, 5_000).1 },
    );
    let mut each = Vec::new(alloc);
    for feeder in feeders {
        each.push(send_after::<W, M, R>(rt, post, feeder)).ok()?;
    }
    Some(FourSent { each, served })
}

/// The same over a mailbox of this kind.
pub fn four_by<W: Named + Send + Sync, R: Threads + Wait + Sync>(
    kind: BoxKind,
    rt: &R,
    alloc: Global,
) -> Option<FourSent>
    requires world { CarriesAll W.world }
{
    match kind {
        BoxKind::Ring => four_send_while_closing::<W, RingBox<W>, R>(rt, alloc),
        BoxKind::Waiting => four_send_while_closing::<W, WaitingBox<W>, R>(rt, alloc),
    }
}
