//! A mailbox over a bounded channel, in which a sender waits for room.

ghost use Rattle.std.specs.Prelude.{◌≡◌, ◌<◌, ◌^◌, true, false, Some, None, Ok, map, IfOk, MatchResult, MatchOption};
ghost use Rattle.crossbeam_channel.specs.Claims.{view, IsSeatAt};
ghost use Rattle.crossbeam_channel.specs.Ends.{sends_on, receives_on, ruled_capacity};
ghost use Rattle.pl_event.specs.declared.envelopes.Lane.{Lane};
ghost use Rattle.pl_event.specs.Worlds.{FitsWorld};
ghost use Rattle.pl_queue.specs.Waiting.{sends_by, takes_by};
ghost use Rattle.pl_queue.specs.Rule.{Keeps, IsTakersNext, SenderSees, BothSee, Each};
ghost use Rattle.pl_queue.specs.Views.{pass_offered, sent_of, after_offer, taken, newcomer};
ghost use Rattle.pl_queue.specs.Left.{held_of, send_counts_of, KnowsPlaces, AreAll, IsAllLeft};

use crate::ends::{Sender, Taker, finish_over, open_over, take_front};
use crate::left::Left;
use crate::mailbox::{Full, Mailbox, OpenRefusal};
use crate::queues::RuledQueue;
use crate::rule::{Deal, Dealt, LanesInTurn, Popped, Pushed, Unite};
use crate::views::PassView;
use crossbeam_channel::protocol::{Lesson, Outcome, Protocol};
use crossbeam_channel::{Pass, RuledReceiver, RuledSender, bounded_with};
use pl_event::{Envelope, Lane, Named};
use std::alloc::{AllocError, Global};
use std::sync::Wait;
use std::thread;

/// How often a sender yields before it sleeps.
const YIELDS: u32 = 8;

/// Both ends of a channel.
#[derive(Drop)]
pub struct Bounded<W: Named> {
    to: RuledSender<Envelope, PassView, LanesInTurn<W>>,
    from: RuledReceiver<Envelope, PassView, LanesInTurn<W>>,
}

/// A mailbox over a bounded channel (crossbeam's `bounded`). `offer` waits for room and never answers `Full`: it returns
/// once the envelope is in the queue. `take` waits for nothing.
#[derive(Drop)]
pub struct WaitingBox<W: Named> {
    queue: Bounded<W>,
}

/// A sender of a [`WaitingBox`].
pub type WaitingSender<W> = Sender<W, Pass<Envelope, PassView>>;

/// The taker of a [`WaitingBox`].
pub type WaitingTaker<W> = Taker<W, Pass<Envelope, PassView>>;

impl<W: Named> Protocol<Envelope, PassView> for LanesInTurn<W> {
    ghost holds = { λ items views. Keeps W.world items views };

    ghost first = { newcomer };
}

impl<W: Named> Outcome<Envelope, PassView> for Pushed<W> {
    ghost then = { λ v x w. w ≡ pass_offered v x };
}

impl<W: Named> Lesson<Envelope, PassView> for Pushed<W> {
    ghost fact = { λ v items. SenderSees W.world v.sends items };
}

impl<W: Named> Outcome<Envelope, PassView> for Popped<W> {
    ghost then = { λ v x w. IsTakersNext W.world v x × (w ≡ taken v x) };
}

impl<W: Named> Lesson<Envelope, PassView> for Popped<W> {
    ghost fact = { λ v items. BothSee W.world v items };
}

impl<W: Named> RuledQueue<W> for Bounded<W> {
    type Pass = Pass<Envelope, PassView>;

    ghost view_of = { λ p. view p };

    ghost is_pass = { λ q p. (receives_on q.from ≡ sends_on q.to) × IsSeatAt (sends_on q.to) p };

    ghost most = { λ q. ruled_capacity (sends_on q.to) };

    fn make(
        alloc: Global,
        capacity: usize,
    ) -> Result<(Bounded<W>, Pass<Envelope, PassView>), AllocError> {
        let (to, from, pass) = bounded_with::<Envelope, PassView, LanesInTurn<W>, Global>(
            alloc, capacity,
        )?;
        Ok((Bounded { to, from }, pass))
    }

    fn deal<L: Dealt>(&self, pass: &mut Pass<Envelope, PassView>) -> Pass<Envelope, PassView> {
        self.to.another::<Deal<L>>(pass)
    }

    fn unite(&self, pass: &mut Pass<Envelope, PassView>, theirs: Pass<Envelope, PassView>) {
        self.to.absorb::<Unite>(pass, theirs);
    }

    fn pop<R: Wait>(&self, rt: &R, pass: &mut Pass<Envelope, PassView>) -> Option<Envelope> {
        match self.from.try_recv_as::<Popped<W>, R>(rt, pass) {
            Ok(envelope) => Some(envelope),
            Err(_) => None,
        }
    }
}

impl<W: Named> Bounded<W> {
    // Tries some times, and yields after each. Hands the envelope back where it found no room.
    fn try_push<R: Wait>(
        &self,
        rt: &R,
        pass: &mut Pass<Envelope, PassView>,
        mut envelope: Envelope,
    ) -> Result<(), Envelope>
        requires pass { IsSeatAt (sends_on self.now.to) pass.old }
        requires next { sent_of envelope.lane (view pass.old).sends.send_counts ≡ Some (envelope.number, false) }
        requires small { envelope.number < 2 ^ 32 }
        requires fits { FitsWorld W.world envelope }
        ensures pass { IsSeatAt (sends_on self.now.to) pass.new }
        ensures sent { MatchResult result
            (λ _. view pass.new ≡ pass_offered (view pass.old) envelope)
            (λ back. (back ≡ envelope) × (view pass.new ≡ view pass.old)) }
    {
        for _ in 0..YIELDS {
            match self.to.try_send_as::<Pushed<W>, R>(rt, pass, envelope) {
                Ok(()) => return Ok(()),
                Err(full) => envelope = full.into_inner(),
            }
            thread::yield_now();
        }
        Err(envelope)
    }
}

impl<W: Named> Mailbox<W> for WaitingBox<W> {
    type Sender = WaitingSender<W>;

    type Taker = WaitingTaker<W>;

    ghost ends = { record {
      capacity_of = λ q. ruled_capacity (sends_on q.queue.to);
      sends_of = λ s. sends_by s.pass;
      takes_of = λ t. takes_by t.pass;
      is_sender = λ q s. (receives_on q.queue.from ≡ sends_on q.queue.to) × IsSeatAt (sends_on q.queue.to) s.pass;
      is_taker = λ q t. ((receives_on q.queue.from ≡ sends_on q.queue.to) × IsSeatAt (sends_on q.queue.to) t.pass) × KnowsPlaces (view t.pass) t.counts.items t.positions.rows.items;
    } };

    fn open(
        alloc: Global,
        lanes: Vec<Vec<Lane>>,
        capacity: usize,
    ) -> Result<(WaitingBox<W>, Vec<WaitingSender<W>>, WaitingTaker<W>), OpenRefusal> {
        let (queue, senders, taker) = open_over::<W, Bounded<W>>(alloc, lanes, capacity)?;
        Ok((WaitingBox { queue }, senders, taker))
    }

    /// Waits for room.
    fn may_wait() -> bool
        ensures { result ≡ true }
    {
        true
    }

    /// It does not look: an `offer` waits for room.
    fn is_full(&self, _sender: &mut WaitingSender<W>) -> bool {
        false
    }

    fn offer<R: Wait>(
        &self,
        rt: &R,
        sender: &mut WaitingSender<W>,
        envelope: Envelope,
    ) -> Result<(), Full>
        requires sender { (receives_on self.now.queue.from ≡ sends_on self.now.queue.to) × IsSeatAt (sends_on self.now.queue.to) sender.old.pass }
        requires next { sent_of envelope.lane (sends_by sender.old.pass).send_counts ≡ Some (envelope.number, false) }
        requires small { envelope.number < 2 ^ 32 }
        requires fits { FitsWorld W.world envelope }
        ensures sender { (receives_on self.now.queue.from ≡ sends_on self.now.queue.to) × IsSeatAt (sends_on self.now.queue.to) sender.new.pass }
        ensures sent { (result ≡ Ok tt) × (sends_by sender.new.pass ≡ after_offer (sends_by sender.old.pass) envelope) }
    {
        // A yield lets the taker take many; a sleep ends with the first that is taken.
        let Err(mut envelope) = self.queue.try_push::<R>(rt, &mut sender.pass, envelope) else {
            return Ok(());
        };
        for _ in rt.forever() {
            match self
                .queue
                .to
                .send_as::<Pushed<W>, R>(rt, &mut sender.pass, envelope)
            {
                Ok(()) => return Ok(()),
                Err(error) => envelope = error.into_inner(),
            }
        }
        unreachable!()
    }

    /// It does not look: a `take` does.
    fn is_empty(&self, _taker: &mut WaitingTaker<W>) -> bool {
        false
    }

    fn take<R: Wait>(&self, rt: &R, taker: &mut WaitingTaker<W>) -> Option<Envelope> {
        take_front::<W, Bounded<W>, R>(rt, &self.queue, taker)
    }

    fn finish<R: Wait>(
        self,
        rt: &R,
        alloc: Global,
        senders: Vec<WaitingSender<W>>,
        taker: WaitingTaker<W>,
    ) -> Result<Left, AllocError>
        requires senders { Each (λ s. (receives_on self.queue.from ≡ sends_on self.queue.to) × IsSeatAt (sends_on self.queue.to) s.pass) senders.items }
        requires taker { ((receives_on self.queue.from ≡ sends_on self.queue.to) × IsSeatAt (sends_on self.queue.to) taker.pass) × KnowsPlaces (view taker.pass) taker.counts.items taker.positions.rows.items }
        requires all { AreAll (send_counts_of (map (λ s. sends_by s.pass) senders.items)) (takes_by taker.pass).counts }
        ensures left { IfOk result (λ left. IsAllLeft W.world (send_counts_of (map (λ s. sends_by s.pass) senders.items)) (takes_by taker.pass).counts (map held_of left.lanes.items)) }
    {
        finish_over::<W, Bounded<W>, R>(rt, alloc, &self.queue, senders, taker)
    }
}
