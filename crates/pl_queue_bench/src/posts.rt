//! Through a mailbox with its admission, by a post or by the same calls made by hand; or through a mailbox alone.

ghost use Rattle.std.specs.Prelude.{◌≡◌, ◌<◌, ◌≤◌, ◌^◌, false, Some, length, map, vec_len, IfOk, IfSome, MatchResult};
ghost use denote.Param.Send.{IsSync};
ghost use Rattle.pl_event.specs.Worlds.{FitsWorld};
ghost use Rattle.pl_queue.specs.declared.views.SenderView.{SenderView};
ghost use Rattle.pl_queue.specs.Left.{Apart, lanes_of_senders};
ghost use Rattle.pl_queue.specs.Rule.{Each};
ghost use Rattle.pl_queue.specs.Views.{sent_of, after_offer, fresh_sends};
ghost use Rattle.pl_post.specs.Posts.{IsSeatOf, IsOwnerOf};
ghost use Rattle.pl_queue_bench.specs.Sending.{HasNext, AllHaveNext};

use crate::CAPACITY;
use pl_event::{Envelope, Lane, Named};
use pl_post::{Post, PostOwner, PostSeat, Unsent};
use pl_queue::{Full, Mailbox};
use pl_queue_tests::{flag, lane, lists};
use pl_words::{Admission, OwnerSeat, SendSeat};
use std::alloc::{AllocError, Global};
use std::sync::Wait;
use std::thread;
use std::thread::Threads;

/// A mailbox that is closed with exactly what was taken from it.
pub trait Closable<W: Named>: Sized {
    type Seat;

    type Owner;

    ghost sends_of: { Self.Seat → SenderView };

    ghost is_seat: { Self → Self.Seat → Type 0 };

    ghost is_owner: { Self → Self.Owner → Type 0 };

    /// With a seat for each list of lanes, and its owner.
    fn open(alloc: Global, lanes: Vec<Vec<Lane>>) -> Option<(Self, Vec<Self::Seat>, Self::Owner)>
        requires some { 0 < vec_len lanes }
        requires apart { Apart (lanes_of_senders (map (λ v. v.items) lanes.items)) }
        ensures seats { IfSome result (λ r. Each (λ s. is_seat r.0 s) r.1.items × (map sends_of r.1.items ≡ map (λ v. fresh_sends v.items) lanes.items)) }
        ensures owner { IfSome result (λ r. is_owner r.0 r.2) };

    /// Sends an envelope where there is room. Else it is back, and the seat has sent what it had.
    fn try_put<R: Wait>(
        &self,
        rt: &R,
        seat: &mut Self::Seat,
        envelope: Envelope,
    ) -> Result<(), Envelope>
        requires seat { is_seat self.now seat.old }
        requires next { sent_of envelope.lane (sends_of seat.old).send_counts ≡ Some (envelope.number, false) }
        requires small { envelope.number < 2 ^ 32 }
        requires fits { FitsWorld W.world envelope }
        ensures seat { is_seat self.now seat.new }
        ensures sent { MatchResult result
            (λ _. sends_of seat.new ≡ after_offer (sends_of seat.old) envelope)
            (λ back. (back ≡ envelope) × (sends_of seat.new ≡ sends_of seat.old)) };

    fn next<R: Wait>(&self, rt: &R, owner: &mut Self::Owner) -> Option<Envelope>
        requires owner { is_owner self.now owner.old }
        ensures owner { is_owner self.now owner.new };

    /// Closes, where exactly what was sent was taken. Whether it closed.
    fn close(&self, owner: &mut Self::Owner) -> bool
        requires owner { is_owner self.now owner.old };
}

impl<W: Named, M: Mailbox<W> + Drop> Closable<W> for Post<W, M> {
    type Seat = PostSeat<W, M>;

    type Owner = PostOwner<W, M>;

    ghost sends_of = { λ s. M.ends.sends_of s.sender };

    ghost is_seat = { λ p s. IsSeatOf M.ends p s };

    ghost is_owner = { λ p o. IsOwnerOf M.ends p o };

    fn open(
        alloc: Global,
        lanes: Vec<Vec<Lane>>,
    ) -> Option<(Self, Vec<PostSeat<W, M>>, PostOwner<W, M>)> {
        match Post::<W, M>::open(alloc, lanes, CAPACITY) {
            Ok(opened) => Some(opened),
            Err(_) => None,
        }
    }

    fn try_put<R: Wait>(
        &self,
        rt: &R,
        seat: &mut PostSeat<W, M>,
        envelope: Envelope,
    ) -> Result<(), Envelope> {
        match self.send::<R>(rt, seat, envelope) {
            Ok(()) => Ok(()),
            Err(Unsent::Full(back) | Unsent::Closed(back) | Unsent::Spent(back)) => Err(back),
        }
    }

    fn next<R: Wait>(&self, rt: &R, owner: &mut PostOwner<W, M>) -> Option<Envelope> {
        self.take::<R>(rt, owner)
    }

    fn close(&self, owner: &mut PostOwner<W, M>) -> bool {
        self.begin_close(owner);
        self.finish(owner).is_ok()
    }
}

/// A mailbox alone. It asks for no admission, and nothing is left to be closed.
#[derive(Drop)]
pub struct Alone<M> {
    mailbox: M,
}

impl<W: Named, M: Mailbox<W> + Drop> Closable<W> for Alone<M> {
    type Seat = M::Sender;

    type Owner = M::Taker;

    ghost sends_of = { λ s. M.ends.sends_of s };

    ghost is_seat = { λ a s. M.ends.is_sender a.mailbox s };

    ghost is_owner = { λ a t. M.ends.is_taker a.mailbox t };

    fn open(alloc: Global, lanes: Vec<Vec<Lane>>) -> Option<(Self, Vec<M::Sender>, M::Taker)> {
        let Ok((mailbox, senders, taker)) = M::open(alloc, lanes, CAPACITY) else {
            return None;
        };
        Some((Alone { mailbox }, senders, taker))
    }

    fn try_put<R: Wait>(
        &self,
        rt: &R,
        seat: &mut M::Sender,
        envelope: Envelope,
    ) -> Result<(), Envelope> {
        match self.mailbox.offer::<R>(rt, seat, envelope) {
            Ok(()) => Ok(()),
            Err(Full { envelope: back }) => Err(back),
        }
    }

    fn next<R: Wait>(&self, rt: &R, owner: &mut M::Taker) -> Option<Envelope> {
        self.mailbox.take::<R>(rt, owner)
    }

    fn close(&self, _owner: &mut M::Taker) -> bool {
        true
    }
}

/// A mailbox and its admission, side by side.
#[derive(Drop)]
pub struct ByHand<M> {
    mailbox: M,
    admission: Admission,
}

/// A sender of the mailbox, with a seat of the admission.
#[derive(Drop)]
pub struct HandSeat<S> {
    sender: S,
    seat: SendSeat,
}

/// The taker of the mailbox, with the owner's seat of the admission and the count of what was taken.
#[derive(Drop)]
pub struct HandOwner<T> {
    taker: T,
    owner: OwnerSeat,
    taken: u64,
}

// A seat of each sender and seat of the admission.
fn paired<S: Drop>(
    alloc: Global,
    senders: Vec<S>,
    seats: Vec<SendSeat>,
) -> Result<Vec<HandSeat<S>>, AllocError>
    requires count { length seats.items ≡ length senders.items }
    ensures senders { IfOk result (λ paired. map (λ s. s.sender) paired.items ≡ senders.items) }
    ensures seats { IfOk result (λ paired. map (λ s. s.seat) paired.items ≡ seats.items) }
{
    let mut paired = Vec::with_capacity(alloc, senders.len())?;
    for (sender, seat) in senders.into_iter().zip(seats) {
        paired.push(HandSeat { sender, seat })?;
    }
    Ok(paired)
}

impl<W: Named, M: Mailbox<W> + Drop> Closable<W> for ByHand<M> {
    type Seat = HandSeat<M::Sender>;

    type Owner = HandOwner<M::Taker>;

    ghost sends_of = { λ s. M.ends.sends_of s.sender };

    ghost is_seat = { λ b s. M.ends.is_sender b.mailbox s.sender × (s.seat.name ≡ b.admission.name) };

    ghost is_owner = { λ b o. M.ends.is_taker b.mailbox o.taker × (o.owner.name ≡ b.admission.name) };

    fn open(
        alloc: Global,
        lanes: Vec<Vec<Lane>>,
    ) -> Option<(Self, Vec<HandSeat<M::Sender>>, HandOwner<M::Taker>)> {
        let Ok((mailbox, senders, taker)) = M::open(alloc, lanes, CAPACITY) else {
            return None;
        };
        let Ok((admission, seats, owner)) = Admission::new(alloc, senders.len() as u16) else {
            return None;
        };
        let Ok(seats) = paired(alloc, senders, seats) else {
            return None;
        };
        let owner = HandOwner {
            taker,
            owner,
            taken: 0,
        };
        Some((ByHand { mailbox, admission }, seats, owner))
    }

    fn try_put<R: Wait>(
        &self,
        rt: &R,
        seat: &mut HandSeat<M::Sender>,
        envelope: Envelope,
    ) -> Result<(), Envelope> {
        let Ok(admitted) = self.admission.admit(&mut seat.seat) else {
            return Err(envelope);
        };
        match self.mailbox.offer::<R>(rt, &mut seat.sender, envelope) {
            Ok(()) => {
                admitted.sent();
                Ok(())
            }
            Err(Full { envelope: back }) => {
                self.admission.give_up(&mut seat.seat, admitted);
                Err(back)
            }
        }
    }

    fn next<R: Wait>(&self, rt: &R, owner: &mut HandOwner<M::Taker>) -> Option<Envelope> {
        let envelope = self.mailbox.take::<R>(rt, &mut owner.taker)?;
        owner.taken = owner.taken.wrapping_add(1);
        Some(envelope)
    }

    fn close(&self, owner: &mut HandOwner<M::Taker>) -> bool {
        self.admission.begin_close(&mut owner.owner);
        self.admission.finish(&mut owner.owner, owner.taken).is_ok()
    }
}

// With so many seats. Each has the first hop's lane of a channel.
fn opened<W: Named, C: Closable<W> + Drop>(
    alloc: Global,
    seats: u16,
) -> Option<(C, Vec<C::Seat>, C::Owner)>
where
    C::Seat: Drop,
    C::Owner: Drop,
    requires { 0 < seats }
    ensures seats { IfSome result (λ r. (vec_len r.1 ≡ seats) × AllHaveNext (C.is_seat r.0) C.sends_of 1 0 0 seats r.1.items) }
    ensures owner { IfSome result (λ r. C.is_owner r.0 r.2) }
{
    let Ok(lists) = lists(alloc, 1, seats, u32::from(seats)) else {
        return None;
    };
    C::open(alloc, lists)
}

// Sends an envelope as soon as there is room. Nobody closes before that.
fn put<W: Named, C: Closable<W>, R: Wait>(
    rt: &R,
    mailbox: &C,
    seat: &mut C::Seat,
    mut envelope: Envelope,
)
    requires seat { C.is_seat mailbox.now seat.old }
    requires next { sent_of envelope.lane (C.sends_of seat.old).send_counts ≡ Some (envelope.number, false) }
    requires small { envelope.number < 2 ^ 32 }
    requires fits { FitsWorld W.world envelope }
    ensures seat { C.is_seat mailbox.now seat.new }
    ensures sent { C.sends_of seat.new ≡ after_offer (C.sends_of seat.old) envelope }
{
    for _ in rt.forever() {
        match mailbox.try_put::<R>(rt, seat, envelope) {
            Ok(()) => return,
            Err(back) => {
                envelope = back;
                thread::yield_now();
            }
        }
    }
    unreachable!()
}

// Sends so many flags on the first hop's lane of a channel.
fn put_all<W: Named, C: Closable<W>, R: Wait>(
    rt: &R,
    mailbox: &C,
    seat: &mut C::Seat,
    channel: u16,
    count: u64,
)
    requires seat { C.is_seat mailbox.now seat.old }
    requires next { HasNext channel 0 1 0 (C.sends_of seat.old) }
    requires small { count ≤ 2 ^ 32 }
{
    for number in 0..count {
        put::<W, C, R>(rt, mailbox, seat, flag(lane(channel, 0), number));
    }
}

// Each seat sends so many, on a thread of its own.
fn put_by_threads<W: Named + Send + Sync, C: Closable<W> + Send + Sync, R: Threads + Wait + Sync>(
    rt: &R,
    mailbox: &C,
    mut seats: Vec<C::Seat>,
    each: u64,
)
where
    C::Seat: Drop + Send,
    requires few { (0 < vec_len seats) × (vec_len seats < 2 ^ 16) }
    requires seats { AllHaveNext (C.is_seat mailbox.now) C.sends_of 1 0 0 (vec_len seats) seats.items }
    requires small { each ≤ 2 ^ 32 }
{
    let threads = seats.len();
    thread::for_each_mut(
        rt,
        seats.as_mut_slice(),
        threads,
        &|i: usize, seat: &mut C::Seat|
            requires { (i < 2 ^ 16) × C.is_seat mailbox.now seat.now × HasNext i 0 1 0 (C.sends_of seat.now) × (each ≤ 2 ^ 32) }
        { put_all::<W, C, R>(rt, mailbox, seat, i as u16, each) },
    );
}

// Takes so many envelopes, and closes. How many it took, where it closed with them.
fn take_all<W: Named, C: Closable<W>, R: Wait>(
    rt: &R,
    mailbox: &C,
    mut owner: C::Owner,
    count: u64,
) -> Option<u64>
where
    C::Owner: Drop,
    requires owner { C.is_owner mailbox.now owner }
{
    let mut taken = 0;
    for _ in rt.forever() {
        if taken >= count {
            break;
        }
        match mailbox.next::<R>(rt, &mut owner) {
            Some(envelope) => {
                drop(envelope);
                taken += 1;
            }
            None => thread::yield_now(),
        }
    }
    mailbox.close(&mut owner).then_some(taken)
}

// From so many threads, each of which sends so many, to another.
fn on_threads<
    W: Named + Send + Sync,
    C: Closable<W> + Drop + Send + Sync,
    R: Threads + Wait + Sync,
>(rt: &R, alloc: Global, threads: u16, each: u64) -> Option<u64>
where
    C::Seat: Drop + Send,
    C::Owner: Drop + Send,
    requires { (0 < threads) × (each ≤ 2 ^ 32) }
{
    let (mailbox, seats, owner) = opened::<W, C>(alloc, threads)?;
    let mailbox = &mailbox;
    let count = u64::from(threads) * each;
    let ((), taken) = thread::join(
        rt,
        move || -> ()
            requires { (0 < vec_len seats) × (vec_len seats < 2 ^ 16) × AllHaveNext (C.is_seat mailbox.now) C.sends_of 1 0 0 (vec_len seats) seats.items × (each ≤ 2 ^ 32) × IsSync R.row }
        { put_by_threads::<W, C, R>(rt, mailbox, seats, each) },
        move || -> Option<u64>
            requires { C.is_owner mailbox.now owner }
        { take_all::<W, C, R>(rt, mailbox, owner, count) },
    );
    taken
}

// One thread sends so many flags, and takes each before it sends the next. How many it took, where it closed with them.
fn all_in_turns<W: Named, C: Closable<W>, R: Wait>(
    rt: &R,
    mailbox: &C,
    seat: &mut C::Seat,
    mut owner: C::Owner,
    count: u64,
) -> Option<u64>
where
    C::Owner: Drop,
    requires seat { C.is_seat mailbox.now seat.old }
    requires next { HasNext 0 0 1 0 (C.sends_of seat.old) }
    requires small { count ≤ 2 ^ 32 }
    requires owner { C.is_owner mailbox.now owner }
{
    let mut taken: u64 = 0;
    for number in 0..count {
        put::<W, C, R>(rt, mailbox, seat, flag(lane(0, 0), number));
        if let Some(envelope) = mailbox.next::<R>(rt, &mut owner) {
            drop(envelope);
            taken = taken.saturating_add(1);
        }
    }
    mailbox.close(&mut owner).then_some(taken)
}

// The same, of a mailbox with one seat.
fn in_turns<W: Named, C: Closable<W> + Drop, R: Wait>(
    rt: &R,
    alloc: Global,
    count: u64,
) -> Option<u64>
where
    C::Seat: Drop,
    C::Owner: Drop,
    requires { count ≤ 2 ^ 32 }
{
    let (mailbox, mut seats, owner) = opened::<W, C>(alloc, 1)?;
    all_in_turns::<W, C, R>(rt, &mailbox, &mut seats[0], owner, count)
}

/// From one thread or four, or in turns by one.
pub fn by_closable<
    W: Named + Send + Sync,
    C: Closable<W> + Drop + Send + Sync,
    R: Threads + Wait + Sync,
>(rt: &R, alloc: Global, workload: &str, count: u32) -> Option<u64>
where
    C::Seat: Drop + Send,
    C::Owner: Drop + Send,
{
    let count = u64::from(count);
    match workload {
        "1" => on_threads::<W, C, R>(rt, alloc, 1, count),
        "4" => on_threads::<W, C, R>(rt, alloc, 4, count / 4),
        "turns" => in_turns::<W, C, R>(rt, alloc, count),
        _ => None,
    }
}
