//! An executor, which runs its tasks one after another.

ghost use Rattle.std.specs.Prelude.{◌≡◌, ◌≢◌, ◌⊎◌, ◌+◌, ◌-◌, ◌<◌, ◌≤◌, ◌^◌, ℕ, List, min, [], IfSome, IfNone, Some, MatchOption, true, false};
ghost use Rattle.pl_event.specs.declared.envelopes.Envelope.{Envelope};
ghost use Rattle.pl_event.specs.Worlds.{FitsWorld};
ghost use Rattle.pl_queue.specs.Rule.{TakerSees, WasOnce};
ghost use Rattle.pl_queue.specs.Views.{next_of, after_take};
ghost use Rattle.pl_context.specs.WaitingViews.{Entry, Holds};
ghost use Rattle.pl_flow.specs.declared.head_moves.HeadMove.{HeadMove};
ghost use Rattle.pl_words.specs.declared.status.Status.TheVariants.{Accepting};
ghost use Rattle.pl_words.specs.Phases.{rank};
ghost use Rattle.pl_words.specs.Admissions.{AdmittedView, OwnerSeatView, new_owner_seat};
ghost use Rattle.pl_outbox.specs.OutboxViews.{waits_for, is_closed, SomeClosed, SameFor, Sends, SendsNothing, oldest_untried};
ghost use Rattle.pl_threads.specs.declared.executors.Turn.TheVariants.{Worked, Idle, Done};
ghost use Rattle.pl_threads.specs.Cores.{CoreHolds};
ghost use Rattle.pl_threads.specs.Running.{EndsAs, IsFinished, IsTaking};
ghost use Rattle.pl_threads.specs.Serving.{ServesNone, WritesAtMostOnce, MovesAtMostOnce, ServesAtMostOnce, ServesBy, is_asked};
ghost use Rattle.pl_threads.specs.Turning.{SendsAtMostOne, TakesAtMostOne, TakesOne, IsStill, OnlyServes, MovesHead, ServesOne, Turns};

use crate::cores::Core;
use crate::finished::Finished;
use crate::gate::Gate;
use crate::nodes::OwnNodes;
use crate::start::Start;
use crossbeam_utils::sync::Parker;
use pl_event::{Envelope, Named};
use pl_flow::HeadMove;
use pl_outbox::Inbox;
use pl_queue::Mailbox;
use pl_words::OwnerSeat;
use std::marker::{Model, PhantomData};
use std::sync::Wait;
use std::thread;

/// After so many were handed over others are let run before more is read.
const MANY_HANDED: u32 = 64;

/// What became of a turn.
#[derive(Clone, Copy, Debug, PartialEq, Eq)]
pub enum Turn {
    /// Something was handed over, taken, read or written; or its reads wait: for room elsewhere, or until others have run
    /// or are not congested.
    Worked,
    /// Nothing was.
    Idle,
    /// Nothing was, its queue is closed, and nothing waits for others.
    Done,
}

/// An executor between two of its steps: its nodes with what waits for others, and its own queue with the right to close it.
/// Nothing is on its work list.
#[derive(Drop)]
pub struct Executor<'a, W: Named, M: Mailbox<W> + Drop, N: OwnNodes<W> + Drop> {
    core: Core<'a, W, M, N>,
    inbox: &'a Inbox<W, M>,
    taker: M::Taker,
    owner: OwnerSeat,
    /// The envelopes taken from its queue, up to 2^64 - 1.
    taken: u64,
    /// Its queue was closed, with as many.
    is_closed: bool,
    /// The number of the next turn; 2^64 - 1 stays.
    turns: u64,
    /// Among the channels whose heads are here, the position of the one that is asked next; past the last, the first.
    next: usize,
    /// How many were handed over since others were let run.
    handed: u32,
    /// The last turn moved nothing, no head has anything to write, and its reads wait: for room elsewhere, or for the end of
    /// congestion.
    reads_wait: bool,
}

impl<'a, W: Named, M: Mailbox<W> + Drop, N: OwnNodes<W> + Drop> Model for Executor<'a, W, M, N> {
    ghost use Rattle.std.specs.Prelude.{◌≡◌, ◌<◌, ◌^◌, []};
    ghost use Rattle.pl_threads.specs.Cores.{CoreHolds};
    ghost use Rattle.pl_threads.specs.Running.{ExecutorView, IsTaking, IsCounting};

    ghost Value = { ExecutorView N };

    ghost view = { λ e. record { number = e.core.number; nodes = e.core.nodes; outboxes = e.core.outboxes; takes = M.ends.takes_of e.taker; owner = e.owner; turns = e.turns } };

    ghost invariant = { λ e. CoreHolds N.view_of N.stands W.world e.core
        × (e.core.work.items ≡ [])
        × M.ends.is_taker e.inbox.now.mailbox e.taker
        × IsTaking e.core.number (N.view_of e.core.nodes).lanes (M.ends.takes_of e.taker).counts
        × (e.owner.name ≡ e.inbox.now.admission.name)
        × IsCounting e.owner e.is_closed e.taken (M.ends.takes_of e.taker).pops
        × (e.core.number < 2 ^ 16) };
}

impl<'a, W: Named, M: Mailbox<W> + Drop, N: OwnNodes<W> + Drop> Executor<'a, W, M, N> {
    /// An executor with this core, and the taker and the owner's seat of its own inbox, from which nothing was taken, and which
    /// is accepting. What the taker is to take first is the next of its lane for the nodes.
    pub fn new(
        core: Core<'a, W, M, N>,
        inbox: &'a Inbox<W, M>,
        taker: M::Taker,
        owner: OwnerSeat,
    ) -> Self
        requires holds { CoreHolds N.view_of N.stands W.world core }
        requires empty { core.work.items ≡ [] }
        requires taker { M.ends.is_taker inbox.now.mailbox taker }
        requires taking { IsTaking core.number (N.view_of core.nodes).lanes (M.ends.takes_of taker).counts }
        requires fresh { (M.ends.takes_of taker).pops ≡ 0 }
        requires owner { owner ≡ new_owner_seat inbox.now.admission.name }
        requires number { core.number < 2 ^ 16 }
        ensures { result ≡ record { number = core.entry.number; nodes = core.entry.nodes; outboxes = core.entry.outboxes; takes = M.ends.takes_of taker; owner = owner; turns = 0 } }
    {
        Executor {
            core,
            inbox,
            taker,
            owner,
            taken: 0,
            is_closed: false,
            turns: 0,
            next: 0,
            handed: 0,
            reads_wait: false,
        }
    }

    /// One turn, at which the gate is entered first: at most one envelope is handed over and one task is run, and one channel makes
    /// at most one read step and one write. Where nothing moved and all here has ended, it closes its queue if it can.
    pub fn turn<R: Wait, G: Gate>(&mut self, rt: &R, gate: &G) -> Turn
        ensures number { self.new.number ≡ self.old.number }
        ensures turns { self.new.turns ≡ min (self.old.turns + 1) (2 ^ 64 - 1) }
        // The gate was entered at this turn.
        ensures entered { G.was_entered gate.now self.old.number self.old.turns }
        ensures takes { TakesAtMostOne self.old self.new }
        ensures sends { SendsAtMostOne self.old.outboxes self.new.outboxes }
        // No channel makes more than one read step, or more than one call of its transport.
        ensures served { ServesAtMostOnce (N.served self.old.nodes) (N.served self.new.nodes) }
        // What it did, one after another; its own queue and the turn's number aside.
        ensures does { Turns N.view_of N.acts self.old (record self.new { owner = self.old.owner; turns = self.old.turns }) }
        ensures idle { result ≢ Worked → IsStill self.old self.new × ((c : ℕ) → c < (N.view_of self.new.nodes).heads → (by : HeadMove) → N.may_move self.new.nodes by c false) }
        ensures done { result ≡ Done → (is_closed self.new.owner.phase ≡ true) × N.are_over self.new.nodes × ((y : ℕ) → waits_for self.new.outboxes y ≡ []) }
        ensures name { self.new.owner.name ≡ self.old.owner.name }
        // It begins to close, and closes, only where all here had ended before the turn.
        ensures closes { (self.new.owner ≡ self.old.owner) ⊎ N.are_over self.old.nodes }
        ensures later { rank self.old.owner.phase ≤ rank self.new.owner.phase }
        ensures count { is_closed self.new.owner.phase ≡ true → self.new.owner.run ≡ self.new.takes.pops }
        // One of its nodes has failed by a refusal only where some seat has seen its target closed.
        ensures why { (N.view_of self.new.nodes).was_refused ≡ true → SomeClosed self.new.outboxes }
    {
        gate.enter(self.core.number as u16, self.turns);
        let has_worked = self.moves(rt, gate);
        self.turns = self.turns.saturating_add(1);
        if has_worked {
            return Turn::Worked;
        }
        if self.close() && self.has_handed_all() {
            return Turn::Done;
        }
        Turn::Idle
    }

    /// What a turn moves, once the gate was entered at it. False where nothing was enabled, and no read waits.
    fn moves<R: Wait, G: Gate>(&mut self, rt: &R, gate: &G) -> bool
        requires entered { G.was_entered gate.now self.old.number self.old.turns }
        ensures number { self.new.number ≡ self.old.number }
        ensures owner { self.new.owner ≡ self.old.owner }
        ensures turns { self.new.turns ≡ self.old.turns }
        ensures takes { TakesAtMostOne self.old self.new }
        ensures sends { SendsAtMostOne self.old.outboxes self.new.outboxes }
        ensures served { ServesAtMostOnce (N.served self.old.nodes) (N.served self.new.nodes) }
        ensures does { Turns N.view_of N.acts self.old self.new }
        ensures idle { result ≡ false → IsStill self.old self.new × ((c : ℕ) → c < (N.view_of self.new.nodes).heads → (by : HeadMove) → N.may_move self.new.nodes by c false) }
    {
        let handed = self.hand(rt, gate).is_some();
        let ran = self.run_task(rt, gate);
        if handed || ran {
            self.reads_wait = false;
            self.handed = self.handed.saturating_add(u32::from(handed));
            self.core.outboxes.update_congestion(&self.inbox.congestion);
            // Without a task no channel has more to write than before.
            if ran {
                self.write_one(rt);
            }
            return true;
        }
        self.move_heads(rt)
    }

    /// What its heads move in a turn in which nothing was handed over or taken. Nothing is read while something waits for
    /// others or an executor is congested, unless all here has ended; and where much was handed over, others are let run
    /// before. False where nothing was enabled, and no read waits.
    fn move_heads<R: Wait>(&mut self, rt: &R) -> bool
        ensures serves { OnlyServes self.old self.new }
        ensures served { ServesAtMostOnce (N.served self.old.nodes) (N.served self.new.nodes) }
        ensures moves { ServesOne N.view_of N.acts self.old self.new }
        ensures idle { result ≡ false → (self.new ≡ self.old) × ((c : ℕ) → c < (N.view_of self.new.nodes).heads → (by : HeadMove) → N.may_move self.new.nodes by c false) }
    {
        // Where its reads waited in the last turn, nothing has moved since.
        if !self.may_read() && (self.reads_wait || !self.core.nodes.has_ended()) {
            self.write_while_waiting(rt);
            return true;
        }
        self.reads_wait = false;
        if self.handed >= MANY_HANDED {
            self.handed = 0;
            thread::yield_now();
            return true;
        }
        self.serve_first(rt, true)
    }

    /// In a turn at which the gate was entered: takes the front of its queue, and makes all direct calls that follow. False where the
    /// queue was empty, or is closed. Those that wait for room there are woken where it was empty, and at the first of each 56
    /// envelopes. The gate is there for the condition alone, which it witnesses. It says of no congestion, as `turn` does.
    pub fn run_task<R: Wait, G: Gate>(&mut self, rt: &R, _gate: &G) -> bool
        requires entered { G.was_entered _gate.now self.old.number self.old.turns }
        ensures number { self.new.number ≡ self.old.number }
        ensures task { result ≡ true → TakesOne N.view_of N.acts self.old self.new }
        ensures none { result ≡ false → self.new ≡ self.old }
        ensures sends { SendsNothing self.old.outboxes self.new.outboxes }
        ensures served { ServesNone (N.served self.old.nodes) (N.served self.new.nodes) }
        ensures owner { self.new.owner ≡ self.old.owner }
        ensures turns { self.new.turns ≡ self.old.turns }
    {
        if self.is_closed {
            return false;
        }
        match next_task::<W, M, R>(rt, &self.inbox.mailbox, &mut self.taker) {
            None => {
                self.core.outboxes.ring(self.inbox.bell.take_waiters());
                false
            }
            Some(envelope) => {
                let waiters = self.inbox.bell.take_waiters_after(self.taken);
                self.core.outboxes.ring(waiters);
                self.taken = self.taken.saturating_add(1);
                self.core.take(envelope);
                self.core.work_off(rt);
                true
            }
        }
    }

    /// In a turn at which the gate was entered: hands over the oldest envelope whose queue has room. The number of the way by
    /// which it went, or None where nothing waits but for queues that are full. The gate is there for the condition alone,
    /// which it witnesses. It says of no congestion, as `turn` does.
    pub fn hand<R: Wait, G: Gate>(&mut self, rt: &R, _gate: &G) -> Option<usize>
        requires entered { G.was_entered _gate.now self.old.number self.old.turns }
        ensures same { self.new ≡ record self.old { outboxes = self.new.outboxes } }
        ensures handed { IfSome result (λ way. Sends self.old.outboxes way self.new.outboxes) }
        ensures none { IfNone result ((y : ℕ) → SameFor self.old.outboxes self.new.outboxes y) }
        // The way of the oldest, among those whose queue was not found full by this call.
        ensures oldest { (entries : List (Entry AdmittedView)) → Holds self.old.outboxes.waiting entries → result ≡ oldest_untried self.new.outboxes entries }
    {
        self.core.outboxes.hand(rt)
    }

    /// A write of the channel that is asked next, beside a task. Where it had none, the one behind it is asked next.
    fn write_one<R: Wait>(&mut self, rt: &R)
        ensures serves { OnlyServes self.old self.new }
        ensures served { WritesAtMostOnce (N.served self.old.nodes) (N.served self.new.nodes) }
        ensures moves { ServesOne N.view_of N.acts self.old self.new }
    {
        let Some(at) = self.next_asked() else {
            return;
        };
        if !self.move_head(rt, HeadMove::Out, at) {
            self.next = at + 1;
        }
    }

    /// One write of the first channel, from the one that is asked next on, that has any enabled, while its reads wait. Where the
    /// last turn found none, nothing has moved since, and none is asked again.
    fn write_while_waiting<R: Wait>(&mut self, rt: &R)
        ensures serves { OnlyServes self.old self.new }
        ensures served { WritesAtMostOnce (N.served self.old.nodes) (N.served self.new.nodes) }
        ensures moves { ServesOne N.view_of N.acts self.old self.new }
    {
        if self.reads_wait {
            return;
        }
        self.reads_wait = !self.serve_first(rt, false);
    }

    /// One read step, where `reads` says so, and one write of the first channel, from the one that is asked next on and round to
    /// it, that has any of these enabled; then the one behind it is asked next. False where none has.
    fn serve_first<R: Wait>(&mut self, rt: &R, reads: bool) -> bool
        ensures serves { OnlyServes self.old self.new }
        ensures served { ServesBy reads (N.served self.old.nodes) (N.served self.new.nodes) }
        ensures moves { ServesOne N.view_of N.acts self.old self.new }
        ensures idle { result ≡ false → (self.new ≡ self.old) × ((c : ℕ) → c < (N.view_of self.new.nodes).heads → (by : HeadMove) → is_asked reads by ≡ true → N.may_move self.new.nodes by c false) }
    {
        let Some(first) = self.next_asked() else {
            return false;
        };
        let behind = self.head_count() - first;
        for asked in 0..self.head_count() {
            let at = if asked < behind {
                first + asked
            } else {
                asked - behind
            };
            if self.serve(rt, at, reads) {
                self.next = at + 1;
                return true;
            }
        }
        false
    }

    /// The channel that is asked next. None where none has its head here.
    fn next_asked(&self) -> Option<usize>
        ensures there { IfSome result (λ at. at < (N.view_of self.now.nodes).heads) }
        ensures few { (N.view_of self.now.nodes).heads < 2 ^ 64 }
        ensures none { IfNone result ((N.view_of self.now.nodes).heads ≡ 0) }
    {
        let count = self.head_count();
        if self.next < count {
            return Some(self.next);
        }
        if count == 0 { None } else { Some(0) }
    }

    /// How many channels have their heads here.
    fn head_count(&self) -> usize
        ensures { result ≡ (N.view_of self.now.nodes).heads }
    {
        self.core.nodes.head_count()
    }

    /// One read step of a channel, where `reads` says so, and one write. False where neither was enabled.
    fn serve<R: Wait>(&mut self, rt: &R, at: usize, reads: bool) -> bool
        requires there { at < (N.view_of self.old.nodes).heads }
        ensures serves { OnlyServes self.old self.new }
        ensures served { ServesBy reads (N.served self.old.nodes) (N.served self.new.nodes) }
        ensures moves { ServesOne N.view_of N.acts self.old self.new }
        ensures idle { result ≡ false → (self.new ≡ self.old) × ((by : HeadMove) → is_asked reads by ≡ true → N.may_move self.old.nodes by at false) }
    {
        let has_read = reads && self.move_head(rt, HeadMove::Read, at);
        let has_written = self.move_head(rt, HeadMove::Out, at);
        has_read || has_written
    }

    /// A move of a channel's head. False where it was not enabled.
    #[inline(always)]
    fn move_head<R: Wait>(&mut self, rt: &R, by: HeadMove, at: usize) -> bool
        requires there { at < (N.view_of self.old.nodes).heads }
        ensures serves { OnlyServes self.old self.new }
        ensures served { MovesAtMostOnce by (N.served self.old.nodes) (N.served self.new.nodes) }
        ensures count { (N.view_of self.new.nodes).heads ≡ (N.view_of self.old.nodes).heads }
        ensures enabled { N.may_move self.old.nodes by at result }
        ensures idle { result ≡ false → self.new ≡ self.old }
        ensures moves { result ≡ true → MovesHead N.view_of N.acts by at self.old self.new }
    {
        self.core.move_head(rt, by, at)
    }

    /// Begins to close its queue, and closes it where that has taken as many as were admitted. It does neither where not all
    /// here has ended. True where the queue is closed and all has ended.
    fn close(&mut self) -> bool
        ensures same { self.new ≡ record self.old { owner = self.new.owner } }
        ensures over { N.are_over self.old.nodes ⊎ ((result ≡ false) × (self.new.owner ≡ self.old.owner)) }
        ensures name { self.new.owner.name ≡ self.old.owner.name }
        ensures begun { N.are_over self.old.nodes → (result ≡ is_closed self.new.owner.phase) × (self.new.owner.phase ≢ Accepting) }
        ensures later { rank self.old.owner.phase ≤ rank self.new.owner.phase }
        ensures count { is_closed self.new.owner.phase ≡ true → self.new.owner.run ≡ self.new.takes.pops }
    {
        if !self.core.nodes.has_ended() {
            return false;
        }
        self.inbox.admission.begin_close(&mut self.owner);
        match self.inbox.admission.finish(&mut self.owner, self.taken) {
            Ok(()) => {
                self.is_closed = true;
                true
            }
            Err(_still_open) => false,
        }
    }

    /// Runs its turns until it is done, and gives its nodes. It waits for the start before the first one; None where it is
    /// told to leave. Where a turn was idle, or its reads wait, it rests on the parker of its inbox: until something is sent to it,
    /// an admission of its own is given up, a queue that it found full has room, or an executor no longer is congested.
    pub fn run<R: Wait, G: Gate>(
        mut self,
        rt: &R,
        gate: &G,
        start: &Start,
        parker: Parker,
    ) -> Option<Finished<W, M, N>>
        // Its own queue is closed, and nothing waits for others.
        ensures ended { IfSome result (EndsAs N.view_of self.entry.number self.entry.owner) }
        // The gate was entered at its first turn here.
        ensures entered { IfSome result (λ _. G.was_entered gate.now self.entry.number self.entry.turns) }
    {
        if !start.wait(rt) {
            return None;
        }
        // Before it rests it says so, notes itself where it waits, and looks once more. Where it was idle no read was enabled:
        // then it need not wait for the end of congestion.
        let mut is_announced = false;
        let mut turn = self.turn(rt, gate);
        for _ in rt.forever() {
            if turn == Turn::Done {
                return Some(self.into_finished());
            }
            if !self.is_to_rest(turn) {
                is_announced = false;
            } else if is_announced {
                parker.park(rt);
                is_announced = false;
            } else {
                self.announce_rest();
                is_announced = true;
            }
            turn = self.turn(rt, gate);
        }
        unreachable!()
    }

    /// Its number.
    pub(crate) fn number(&self) -> usize
        ensures { result ≡ self.now.number }
    {
        self.core.number
    }

    /// The number of its next turn.
    pub(crate) fn turns(&self) -> u64
        ensures { result ≡ self.now.turns }
    {
        self.turns
    }

    /// Its right to its queue.
    pub(crate) fn owner(&self) -> &OwnerSeat
        ensures { result.now ≡ self.now.owner }
    {
        &self.owner
    }

    /// Whether it is to rest after a turn: that was idle, or its reads wait.
    fn is_to_rest(&self, turn: Turn) -> bool {
        turn == Turn::Idle || self.reads_wait
    }

    /// Says that it is about to rest, and notes at each queue that was full in the last turn that it waits for room. Where
    /// its reads wait though it has handed all over, it notes at each executor that they wait for the end of congestion.
    fn announce_rest(&self) {
        self.inbox.bell.announce_rest();
        self.core.outboxes.note_waiter(self.core.number);
        if self.reads_wait && self.has_handed_all() {
            self.core.outboxes.note_reader(self.core.number);
        }
    }

    /// What it leaves, once all its nodes are over, its queue is closed and nothing waits for others.
    fn into_finished(self) -> Finished<W, M, N>
        requires over { N.are_over self.nodes }
        requires closed { is_closed self.owner.phase ≡ true }
        requires drained { (y : ℕ) → waits_for self.outboxes y ≡ [] }
        ensures { EndsAs N.view_of self.entry.number self.entry.owner result }
    {
        let Executor {
            core,
            taker,
            owner,
            ..
        } = self;
        let Core {
            number,
            nodes,
            outboxes,
            ..
        } = core;
        let (waiting, refusal) = outboxes.into_rest();
        Finished {
            number,
            nodes,
            owner,
            taker,
            waiting,
            refusal,
            of: PhantomData,
        }
    }

    /// Whether more may be read: nothing waits for others, and where heads are here no executor is congested.
    fn may_read(&self) -> bool {
        self.has_handed_all() && (self.head_count() == 0 || !self.core.outboxes.is_any_congested())
    }

    /// Whether nothing waits for others.
    fn has_handed_all(&self) -> bool
        ensures { result ≡ true → (y : ℕ) → waits_for self.now.outboxes y ≡ [] }
    {
        self.core.outboxes.is_empty()
    }
}

/// Takes the front of a queue, as `take` does, but looks first whether it is empty: a look is cheap, and room for an envelope
/// is not.
fn next_task<W: Named, M: Mailbox<W>, R: Wait>(
    rt: &R,
    mailbox: &M,
    taker: &mut M::Taker,
) -> Option<Envelope>
    requires taker { M.ends.is_taker mailbox.now taker.old }
    ensures taker { M.ends.is_taker mailbox.now taker.new }
    ensures taken { MatchOption result
        ((M.ends.takes_of taker.new ≡ M.ends.takes_of taker.old) × WasOnce 0 (TakerSees W.world (M.ends.takes_of taker.old)))
        (λ x. (next_of x.lane (M.ends.takes_of taker.old).counts ≡ Some x.number) × (x.number < 2 ^ 32) × FitsWorld W.world x × (M.ends.takes_of taker.new ≡ after_take (M.ends.takes_of taker.old) x)) }
{
    if mailbox.is_empty(taker) {
        return None;
    }
    mailbox.take::<R>(rt, taker)
}
