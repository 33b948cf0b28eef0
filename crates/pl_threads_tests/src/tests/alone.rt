//! An executor alone: what comes to it, and what it sends, is in the test's hands.

ghost use Rattle.std.specs.Prelude.{◌≡◌, ◌∷◌, []};
ghost use Rattle.pl_words.specs.Admissions.{new_owner_seat};
ghost use Rattle.pl_threads_tests.specs.Nodes.{lane_to};
ghost use Rattle.pl_threads_tests.specs.Openings.{ArePlaces, IsReady, IsWay};

use crate::nodes::{Node, flag_to};
use crate::places::{Own, Places, Way};
use crate::tests::starting::{executor, inbox_of};
use crossbeam_utils::sync::Parker;
use pl_event::Named;
use pl_outbox::Inbox;
use pl_queue::Mailbox;
use pl_threads::{Executor, Gate, Start};
use pl_words::{Refused, Status};
use std::alloc::{AllocError, Global};
use std::marker::Model;
use std::sync::Wait;

/// A gate that does nothing.
#[derive(Drop)]
pub(crate) struct NoGate;

impl Gate for NoGate {
    fn enter(&self, _executor: u16, _turn: u64) {}
}

/// The way by which flags come to an executor.
#[derive(Drop)]
pub(crate) struct Feed<'a, W: Named, M: Mailbox<W> + Drop> {
    executor: u16,
    inbox: &'a Inbox<W, M>,
    way: Way<W, M>,
    /// The number of the next flag.
    next: u32,
}

impl<'a, W: Named, M: Mailbox<W> + Drop> Model for Feed<'a, W, M> {
    ghost use Rattle.std.specs.Prelude.{◌≡◌, ◌∷◌, ℕ, [], false};
    ghost use Rattle.pl_queue.specs.Views.{send_count};
    ghost use Rattle.pl_threads_tests.specs.Nodes.{lane_to};

    ghost Value = { ℕ };

    ghost view = { λ f. f.next };

    ghost invariant = { λ f. M.ends.is_sender f.inbox.now.mailbox f.way.sender
        × ((M.ends.sends_of f.way.sender).send_counts ≡ send_count (lane_to f.executor) f.next false ∷ [])
        × (f.way.seat.name ≡ f.inbox.now.admission.name) };
}

impl<'a, W: Named, M: Mailbox<W> + Drop> Feed<'a, W, M> {
    /// The way to the executor that an inbox is of.
    fn new(executor: u16, inbox: &'a Inbox<W, M>, way: Way<W, M>) -> Self
        requires { IsWay M.ends inbox.now (lane_to executor ∷ []) way }
    {
        Feed {
            executor,
            inbox,
            way,
            next: 0,
        }
    }

    /// One admission more, as for a flag that is on its way.
    pub(crate) fn admit(&mut self) -> Result<(), Refused> {
        let admitted = self.inbox.admission.admit(&mut self.way.seat)?;
        admitted.sent();
        Ok(())
    }

    /// Puts the next flag into the queue, with no admission. False where the queue is full.
    pub(crate) fn push<R: Wait>(&mut self, rt: &R) -> bool {
        if self.next == u32::MAX {
            return false;
        }
        let flag = flag_to(self.executor, self.next);
        match self
            .inbox
            .mailbox
            .offer::<R>(rt, &mut self.way.sender, flag)
        {
            Ok(()) => {
                self.next += 1;
                true
            }
            Err(full) => {
                drop(full);
                false
            }
        }
    }

    /// Whether the executor is congested.
    pub(crate) fn is_congested(&self) -> bool {
        self.inbox.congestion.is_on()
    }

    /// In which phase the executor is.
    pub(crate) fn status(&mut self) -> Status {
        self.inbox.admission.status(&mut self.way.seat)
    }
}

/// What comes to another executor.
#[derive(Drop)]
pub(crate) struct Sink<'a, W: Named, M: Mailbox<W> + Drop> {
    inbox: &'a Inbox<W, M>,
    own: Own<W, M>,
}

impl<'a, W: Named, M: Mailbox<W> + Drop> Model for Sink<'a, W, M> {
    ghost use Rattle.std.specs.Prelude.{◌≡◌};
    ghost use Rattle.pl_words.specs.Admissions.{OwnerSeatView};

    ghost Value = { OwnerSeatView };

    ghost view = { λ s. s.own.owner };

    ghost invariant = { λ s. M.ends.is_taker s.inbox.now.mailbox s.own.taker × (s.own.owner.name ≡ s.inbox.now.admission.name) };
}

impl<'a, W: Named, M: Mailbox<W> + Drop> Sink<'a, W, M> {
    fn new(inbox: &'a Inbox<W, M>, own: Own<W, M>) -> Self
        requires taker { M.ends.is_taker inbox.now.mailbox own.taker }
        requires owner { own.owner ≡ new_owner_seat inbox.now.admission.name }
    {
        Sink { inbox, own }
    }

    /// Takes the front of its queue, and answers the number there. None where the queue is empty.
    pub(crate) fn take<R: Wait>(&mut self, rt: &R) -> Option<u64> {
        let envelope = self.inbox.mailbox.take::<R>(rt, &mut self.own.taker)?;
        let number = envelope.number;
        drop(envelope);
        Some(number)
    }

    /// Says that so many envelopes wait there for others. Whether it is congested then.
    pub(crate) fn has_waiting(&self, count: u64) -> bool {
        let _nobody_rests = self.inbox.congestion.update(count);
        self.inbox.congestion.is_on()
    }

    /// Begins to close, and closes with so many. False where others were admitted.
    pub(crate) fn close(&mut self, run: u64) -> bool {
        self.inbox.admission.begin_close(&mut self.own.owner);
        self.inbox
            .admission
            .finish(&mut self.own.owner, run)
            .is_ok()
    }
}

/// Executor 2, which makes flags for executors 0 and 1.
#[derive(Drop)]
pub(crate) struct Alone<'a, W: Named, M: Mailbox<W> + Drop> {
    pub(crate) executor: Executor<'a, W, M, Node>,
    /// On which it rests.
    parker: Parker,
    pub(crate) feed: Feed<'a, W, M>,
    pub(crate) first: Sink<'a, W, M>,
    pub(crate) second: Sink<'a, W, M>,
}

/// What is found once an executor has run: its nodes, where it gave any, and the numbers of what came to the two others.
#[derive(Drop)]
pub(crate) struct Ran {
    pub(crate) node: Option<Node>,
    pub(crate) first: Option<u64>,
    pub(crate) second: [Option<u64>; 3],
}

impl<'a, W: Named, M: Mailbox<W> + Drop> Alone<'a, W, M> {
    /// It runs to its end, or leaves where it is told so.
    pub(crate) fn run<R: Wait>(self, rt: &R, begins: bool) -> Ran {
        let Alone {
            executor,
            parker,
            mut first,
            mut second,
            ..
        } = self;
        let node = left(rt, executor, parker, begins);
        let came = [second.take(rt), second.take(rt), second.take(rt)];
        Ran {
            node,
            first: first.take(rt),
            second: came,
        }
    }
}

/// The nodes that an executor leaves.
fn left<W: Named, M: Mailbox<W> + Drop, R: Wait>(
    rt: &R,
    executor: Executor<'_, W, M, Node>,
    parker: Parker,
    begins: bool,
) -> Option<Node> {
    let start = Start::new();
    start.decide(begins);
    let finished = executor.run(rt, &NoGate, &start, parker)?;
    Some(finished.into_nodes())
}

/// Executor 2 with these nodes.
pub(crate) fn set_apart<'a, W: Named, M: Mailbox<W> + Drop>(
    alloc: Global,
    inboxes: &'a [Inbox<W, M>],
    places: Places<W, M>,
    node: Node,
) -> Result<Alone<'a, W, M>, AllocError>
    requires places { ArePlaces M.ends inboxes.now places }
    requires executor { node.executor ≡ 2 }
    requires ready { IsReady node }
{
    let Places {
        first,
        second,
        third,
    } = places;
    let (executor, parker) = executor(alloc, inboxes, third, node)?;
    Ok(Alone {
        executor,
        parker,
        feed: Feed::new(2, inbox_of(inboxes, 2), first.third),
        first: Sink::new(inbox_of(inboxes, 0), first.own),
        second: Sink::new(inbox_of(inboxes, 1), second.own),
    })
}
