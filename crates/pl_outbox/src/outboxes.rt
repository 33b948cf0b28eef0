//! What an executor made for others, and has not handed over.

ghost use Rattle.std.specs.Prelude.{◌≡◌, ◌≢◌, ℕ, List, [], ◌∷◌, ◌<◌, ◌^◌, ◌==◌, ◌&&◌, ◌||◌, length, map, All, IfOk, IfErr, IfSome, IfNone, Some, false, true, not};
ghost use Rattle.pl_context.specs.Stops.{HasPlaces, no_stops};
ghost use Rattle.pl_context.specs.WaitingViews.{Entry, Holds, stops_for};
ghost use Rattle.pl_queue.specs.declared.views.SenderView.{SenderView};
ghost use Rattle.pl_words.specs.Admissions.{AdmittedView};
ghost use Rattle.pl_flow.specs.Flows.{IsNext};
ghost use Rattle.pl_outbox.specs.Tries.{is_tried};
ghost use Rattle.pl_outbox.specs.OutboxViews.{IsNew, admissions, waits_for, sends_for, was_tried, oldest_untried, way_to, reached, is_cut, Adds, Comes, RefusedBy, WasFull, Sends, SameFor, KeepsAll, Stays, Forgets, closed_seat};

use crate::bell::WAKE_EVERY;
use crate::congestion::Congestion;
use crate::inbox::Inbox;
use crate::number_set::NumberSet;
use crate::outbox::Outbox;
use crate::tries::Tries;
use pl_context::Waiting;
use pl_event::{Envelope, Named};
use pl_queue::{Full, Mailbox};
use pl_words::{Admitted, Refused, SendSeat, Status};
use std::alloc::{AllocError, Global};
use std::marker::Model;
use std::sync::Wait;

/// The number of no way.
pub const NO_WAY: u16 = u16::MAX;

/// The ways of an executor, one to itself among them, each with a number, and the envelopes that wait for them.
///
/// Each envelope that waits, and each that was sent, has an admission of its target: so a target that was closed with
/// the number of envelopes that it took has nothing coming any more. On each lane what waits follows what was sent, with
/// the next numbers and nothing behind an end or a failure.
#[derive(Drop)]
pub struct Outboxes<'a, W: Named, M: Mailbox<W> + Drop> {
    /// Those of all executors, by number.
    inboxes: &'a [Inbox<W, M>],
    /// By executor the number of the way to it; `NO_WAY` where there is none.
    ways: Vec<u16>,
    outboxes: Vec<Outbox<'a, W, M>>,
    waiting: Waiting<Admitted>,
    /// How many envelopes wait.
    waiting_count: u64,
    /// The ways whose queue was found full by the last `hand`.
    tries: Tries,
    /// The ways by which something was sent, and whose executors were not woken for it yet.
    unrung: NumberSet,
    /// How many envelopes were sent by these.
    unrung_sent: u64,
}

impl<'a, W: Named, M: Mailbox<W> + Drop> Model for Outboxes<'a, W, M> {
    ghost use Rattle.std.specs.Prelude.{◌≡◌, length};
    ghost use Rattle.pl_outbox.specs.OutboxViews.{OutboxesView, IsOutboxes};

    ghost Value = { OutboxesView };

    ghost view = { λ o. record { outboxes = o.outboxes.items; ways = o.ways.items; waiting = o.waiting; tried = o.tries.tried } };

    ghost invariant = { λ o. IsOutboxes W.world (record { outboxes = o.outboxes.items; ways = o.ways.items; waiting = o.waiting; tried = o.tries.tried }) × (o.tries.count ≡ length o.outboxes.items) };
}

impl<'a, W: Named, M: Mailbox<W> + Drop> Outboxes<'a, W, M> {
    /// Nothing waits. There is an outbox for each way, of which nothing was sent, with so many reserved places; and by executor
    /// the number of the way to it, or `NO_WAY`. `inboxes` are those of all executors, by number.
    pub fn new(
        alloc: Global,
        inboxes: &'a [Inbox<W, M>],
        ways: Vec<u16>,
        outboxes: Vec<Outbox<'a, W, M>>,
        places: &[u16],
    ) -> Result<Self, AllocError>
        requires new { All IsNew outboxes.items }
        requires places { length places.now ≡ length outboxes.items }
        requires few { length outboxes.items < 2 ^ 16 }
        ensures outboxes { IfOk result (λ new. new.outboxes ≡ outboxes.entry.items) }
        ensures ways { IfOk result (λ new. new.ways ≡ ways.items) }
        ensures waits { IfOk result (λ new. (y : ℕ) → waits_for new y ≡ []) }
        ensures tried { IfOk result (λ new. new.tried ≡ []) }
        ensures admitted { IfOk result (λ new. admissions new ≡ 0) }
        ensures places { IfOk result (λ new. map (λ b. b.stopped) new.waiting.targets ≡ map no_stops places.now) }
    {
        Ok(Outboxes {
            inboxes,
            ways,
            waiting: Waiting::new(alloc, places)?,
            tries: Tries::new(alloc, outboxes.len())?,
            outboxes,
            waiting_count: 0,
            unrung: NumberSet::none(),
            unrung_sent: 0,
        })
    }

    /// Adds an envelope for an executor at the end, with an admission. Where memory is refused, what stands in for it, or
    /// nothing: then its admission is given up.
    ///
    /// Error: that executor is closed, or the seat is spent. Nothing was added.
    pub fn add(&mut self, executor: usize, envelope: Envelope) -> Result<(), Refused>
        requires there { way_to self.old executor < length self.old.outboxes }
        requires place { HasPlaces (stops_for self.old.waiting (way_to self.old executor)) (envelope.lane ∷ []) }
        requires next { is_cut self.old (way_to self.old executor) envelope.lane ≡ false → IsNext W.world (reached self.old (way_to self.old executor) envelope.lane) envelope }
        ensures adds { Adds self.old (way_to self.old executor) envelope self.new }
        ensures comes { IfOk result (λ _. Comes self.old (way_to self.old executor) envelope self.new) }
        ensures refused { IfErr result (λ refusal. RefusedBy self.old (way_to self.old executor) refusal self.new) }
    {
        self.add_for(self.way_to(executor), envelope)
    }

    /// The number of the way to an executor.
    fn way_to(&self, executor: usize) -> usize
        requires { way_to self.now executor < length self.now.outboxes }
        ensures { result ≡ way_to self.now executor }
    {
        usize::from(self.ways[executor])
    }

    /// Adds an envelope for a way.
    fn add_for(&mut self, way: usize, envelope: Envelope) -> Result<(), Refused>
        requires there { way < length self.old.outboxes }
        requires place { HasPlaces (stops_for self.old.waiting way) (envelope.lane ∷ []) }
        requires next { is_cut self.old way envelope.lane ≡ false → IsNext W.world (reached self.old way envelope.lane) envelope }
        ensures adds { Adds self.old way envelope self.new }
        ensures comes { IfOk result (λ _. Comes self.old way envelope self.new) }
        ensures refused { IfErr result (λ refusal. RefusedBy self.old way refusal self.new) }
    {
        match self.outboxes[way].admit() {
            Err(refused) => {
                envelope.discard();
                Err(refused)
            }
            Ok(admitted) => {
                match self.waiting.add(way, envelope, admitted) {
                    None => self.waiting_count = self.waiting_count.saturating_add(1),
                    Some(admitted) => self.outboxes[way].give_up(admitted),
                }
                Ok(())
            }
        }
    }

    /// What waits, and no way to hand it over; and the first seat, by the number of its way, that has seen its target
    /// closed.
    pub fn into_rest(self) -> (Waiting<Admitted>, Option<SendSeat>)
        ensures waiting { result.0 ≡ self.entry.waiting }
        ensures seat { result.1 ≡ closed_seat self.entry.outboxes }
    {
        let Outboxes {
            outboxes,
            waiting,
            ..
        } = self;
        (waiting, closed_seat(outboxes))
    }

    /// Hands over the oldest envelope whose queue has room. Each queue is tried once. The way by which it went, or None
    /// where nothing waits but for queues that are full.
    pub fn hand<R: Wait>(&mut self, rt: &R) -> Option<usize>
        ensures handed { IfSome result (λ way. Sends self.old way self.new) }
        ensures none { IfNone result ((y : ℕ) → SameFor self.old self.new y) }
        // The way of the oldest, among those whose queue was not found full by this call.
        ensures oldest { (entries : List (Entry AdmittedView)) → Holds self.old.waiting entries → result ≡ oldest_untried self.new entries }
        ensures stays { Stays self.old self.new }
    {
        self.forget_tries();
        for _ in rt.forever() {
            let Some(way) = self.oldest() else {
                self.ring_for_sent();
                return None;
            };
            if self.offer(rt, way) {
                self.ring_for_many();
                return Some(way);
            }
        }
        unreachable!()
    }

    /// Begins a `hand`: no queue was found full by it.
    fn forget_tries(&mut self)
        ensures forgets { Forgets self.old self.new }
        ensures none { (y : ℕ) → was_tried self.new y ≡ false }
    {
        self.tries.clear();
    }

    /// The way of the oldest envelope, among those whose queue this `hand` has not found full.
    fn oldest(&self) -> Option<usize>
        ensures there { IfSome result (λ way. way < length self.now.outboxes) }
        ensures waits { IfSome result (λ way. waits_for self.now way ≢ []) }
        ensures oldest { (entries : List (Entry AdmittedView)) → Holds self.now.waiting entries
            → result ≡ oldest_untried self.now entries }
    {
        let tries = &self.tries;
        self.waiting.oldest(
            |way|
                ensures { result ≡ not (is_tried tries.entry.now.tried way) }
            { !tries.has(way) },
        )
    }

    /// Offers the oldest envelope of a way to its queue. False where that is full: what waits stays where it is, and the
    /// way counts as tried.
    fn offer<R: Wait>(&mut self, rt: &R, way: usize) -> bool
        requires there { way < length self.old.outboxes }
        requires waits { waits_for self.old way ≢ [] }
        ensures sends { result ≡ true → Sends self.old way self.new }
        ensures keeps { result ≡ false → KeepsAll self.old self.new }
        ensures full { result ≡ false → (sends : SenderView) × (sends_for self.old way ≡ Some sends) × WasFull M.ends W.world sends }
        ensures stays { Stays self.old self.new }
        ensures tried { (y : ℕ) → was_tried self.new y ≡ ((not result && (y == way)) || was_tried self.old y) }
    {
        // What a full queue would hand back is not taken out for it.
        if self.is_full(way) {
            self.tries.add(way);
            return false;
        }
        let Some((envelope, admitted)) = self.waiting.take(way) else {
            unreachable!()
        };
        match self.outboxes[way].offer(rt, envelope) {
            Ok(()) => {
                admitted.sent();
                self.waiting_count = self.waiting_count.saturating_sub(1);
                self.unrung = self.unrung.with(way);
                self.unrung_sent = self.unrung_sent.saturating_add(1);
                true
            }
            Err(Full { envelope }) => {
                self.waiting.put_back(way, envelope, admitted);
                self.tries.add(way);
                false
            }
        }
    }

    /// Whether the queue of a way is found full.
    fn is_full(&mut self, way: usize) -> bool
        requires there { way < length self.old.outboxes }
        ensures same { self.new ≡ self.old }
        ensures full { result ≡ true → (sends : SenderView) × (sends_for self.old way ≡ Some sends) × WasFull M.ends W.world sends }
    {
        self.outboxes[way].is_full()
    }

    /// Whether nothing waits.
    pub fn is_empty(&self) -> bool
        ensures counts { (entries : List (Entry AdmittedView)) → Holds self.now.waiting entries → result ≡ (length entries == 0) }
        ensures empty { result ≡ true → (y : ℕ) → waits_for self.now y ≡ [] }
    {
        self.waiting.is_empty()
    }

    /// Says at its executor's own inbox how much waits, and wakes those whose reads wait until that is less.
    pub fn update_congestion(&self, own: &Congestion) {
        self.ring(own.update(self.waiting_count));
    }

    /// Whether an executor is congested, this one or another.
    pub fn is_any_congested(&self) -> bool {
        self.inboxes.iter().any(|inbox| inbox.congestion.is_on())
    }

    /// Notes at each executor that the reads of one wait until it is not congested.
    pub fn note_reader(&self, executor: usize) {
        for inbox in self.inboxes {
            inbox.congestion.note_reader(executor);
        }
    }

    /// Notes at each queue that the last `hand` found full that an executor waits for room there.
    pub fn note_waiter(&self, executor: usize) {
        for &way in self.tries.as_slice() {
            if let Some(outbox) = self.outboxes.get(way) {
                outbox.inbox.bell.note_waiter(executor);
            }
        }
    }

    /// Wakes the executors to which something was sent, where that was much, or the next offer may wait for one of them.
    fn ring_for_many(&mut self)
        ensures { self.new ≡ self.old }
    {
        if self.unrung_sent >= WAKE_EVERY || M::may_wait() {
            self.ring_for_sent();
        }
    }

    /// Wakes the executors to which something was sent, where they were not woken for it yet.
    fn ring_for_sent(&mut self)
        ensures { self.new ≡ self.old }
    {
        let unrung = self.unrung;
        self.unrung = NumberSet::none();
        self.unrung_sent = 0;
        unrung.each_of(self.outboxes.as_slice(), |outbox| outbox.inbox.bell.ring());
    }

    /// Wakes these executors. Mostly there are none.
    #[inline(always)]
    pub fn ring(&self, executors: NumberSet) {
        executors.each_of(self.inboxes, |inbox| inbox.bell.ring());
    }
}

/// The first seat that has seen its target closed.
fn closed_seat<'a, W: Named, M: Mailbox<W> + Drop>(
    outboxes: Vec<Outbox<'a, W, M>>,
) -> Option<SendSeat>
    ensures { result ≡ closed_seat outboxes.entry.items }
{
    for outbox in outboxes {
        let seat = outbox.into_seat();
        if let Status::Closed = seat.seen() {
            return Some(seat);
        }
    }
    None
}
