//! A mailbox over a lock-free ring.

ghost use Rattle.std.specs.Prelude.{◌≡◌, true, false, None, map, IfOk, MatchOption};
ghost use Rattle.crossbeam_queue.specs.Passes.{view, IsPassOf, ruled_capacity};
ghost use Rattle.pl_event.specs.declared.envelopes.Lane.{Lane};
ghost use Rattle.pl_queue.specs.Ring.{sends_by, takes_by};
ghost use Rattle.pl_queue.specs.Rule.{Each};
ghost use Rattle.pl_queue.specs.Left.{held_of, send_counts_of, KnowsPlaces, AreAll, IsAllLeft};

use crate::ends::{Sender, Taker, finish_over, open_over, take_front};
use crate::left::Left;
use crate::mailbox::{Full, Mailbox, OpenRefusal};
use crate::queues::RuledQueue;
use crate::rule::{Deal, Dealt, LanesInTurn, Popped, Pushed, Unite};
use crate::views::PassView;
use crossbeam_queue::{Pass, RuledArrayQueue};
use pl_event::{Envelope, Lane, Named};
use std::alloc::{AllocError, Global};
use std::sync::Wait;

type Ring<W> = RuledArrayQueue<Envelope, PassView, LanesInTurn<W>>;

/// A mailbox over a lock-free ring (crossbeam's `ArrayQueue`). `offer` never waits for room: it answers `Full`. `offer` and
/// `take` take no memory.
#[derive(Drop)]
pub struct RingBox<W: Named> {
    queue: RuledArrayQueue<Envelope, PassView, LanesInTurn<W>>,
}

/// A sender of a [`RingBox`].
pub type RingSender<W> = Sender<W, Pass<Envelope, PassView>>;

/// The taker of a [`RingBox`].
pub type RingTaker<W> = Taker<W, Pass<Envelope, PassView>>;

impl<W: Named> RuledQueue<W> for RuledArrayQueue<Envelope, PassView, LanesInTurn<W>> {
    type Pass = Pass<Envelope, PassView>;

    ghost view_of = { λ p. view p };

    ghost is_pass = { λ q p. IsPassOf q p };

    ghost most = { λ q. ruled_capacity q };

    fn make(
        alloc: Global,
        capacity: usize,
    ) -> Result<(Ring<W>, Pass<Envelope, PassView>), AllocError> {
        Ring::<W>::ruled(alloc, capacity)
    }

    fn deal<L: Dealt>(&self, pass: &mut Pass<Envelope, PassView>) -> Pass<Envelope, PassView> {
        self.another::<Deal<L>>(pass)
    }

    fn unite(&self, pass: &mut Pass<Envelope, PassView>, theirs: Pass<Envelope, PassView>) {
        self.absorb::<Unite>(pass, theirs);
    }

    fn pop<R: Wait>(&self, rt: &R, pass: &mut Pass<Envelope, PassView>) -> Option<Envelope> {
        self.pop_as::<Popped<W>, R>(rt, pass)
    }
}

impl<W: Named> Mailbox<W> for RingBox<W> {
    type Sender = RingSender<W>;

    type Taker = RingTaker<W>;

    ghost ends = { record {
      capacity_of = λ q. ruled_capacity q.queue;
      sends_of = λ s. sends_by s.pass;
      takes_of = λ t. takes_by t.pass;
      is_sender = λ q s. IsPassOf q.queue s.pass;
      is_taker = λ q t. IsPassOf q.queue t.pass × KnowsPlaces (view t.pass) t.counts.items t.positions.rows.items;
    } };

    fn open(
        alloc: Global,
        lanes: Vec<Vec<Lane>>,
        capacity: usize,
    ) -> Result<(RingBox<W>, Vec<RingSender<W>>, RingTaker<W>), OpenRefusal> {
        let (queue, senders, taker) = open_over::<W, Ring<W>>(alloc, lanes, capacity)?;
        Ok((RingBox { queue }, senders, taker))
    }

    fn may_wait() -> bool
        ensures { result ≡ false }
    {
        false
    }

    fn is_full(&self, sender: &mut RingSender<W>) -> bool {
        self.queue.is_full_as::<Pushed<W>>(&mut sender.pass)
    }

    fn offer<R: Wait>(
        &self,
        rt: &R,
        sender: &mut RingSender<W>,
        envelope: Envelope,
    ) -> Result<(), Full> {
        match self
            .queue
            .push_as::<Pushed<W>, R>(rt, &mut sender.pass, envelope)
        {
            Ok(()) => Ok(()),
            Err(envelope) => Err(Full { envelope }),
        }
    }

    fn is_empty(&self, taker: &mut RingTaker<W>) -> bool {
        self.queue.is_empty_as::<Popped<W>>(&mut taker.pass)
    }

    fn take<R: Wait>(&self, rt: &R, taker: &mut RingTaker<W>) -> Option<Envelope> {
        take_front::<W, Ring<W>, R>(rt, &self.queue, taker)
    }

    fn finish<R: Wait>(
        self,
        rt: &R,
        alloc: Global,
        senders: Vec<RingSender<W>>,
        taker: RingTaker<W>,
    ) -> Result<Left, AllocError>
        requires senders { Each (λ s. IsPassOf self.queue s.pass) senders.items }
        requires taker { IsPassOf self.queue taker.pass × KnowsPlaces (view taker.pass) taker.counts.items taker.positions.rows.items }
        requires all { AreAll (send_counts_of (map (λ s. sends_by s.pass) senders.items)) (takes_by taker.pass).counts }
        ensures left { IfOk result (λ left. IsAllLeft W.world (send_counts_of (map (λ s. sends_by s.pass) senders.items)) (takes_by taker.pass).counts (map held_of left.lanes.items)) }
    {
        finish_over::<W, Ring<W>, R>(rt, alloc, &self.queue, senders, taker)
    }
}
