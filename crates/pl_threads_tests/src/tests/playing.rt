//! An executor alone, run by hand.

ghost use Rattle.std.specs.Prelude.{◌≡◌};
ghost use Rattle.pl_threads_tests.specs.Openings.{IsReady};

use crate::nodes::Node;
use crate::tests::alone::{Alone, NoGate, set_apart};
use crate::tests::opening::open_three;
use pl_event::Named;
use pl_queue::Mailbox;
use pl_threads::Turn;
use pl_words::{Refused, Status};
use std::alloc::Global;
use std::process::Abort;
use std::sync::Wait;
use std::test::Fail;

/// A call of the executor, or at one of the queues around it.
#[derive(Clone, Copy)]
pub(crate) enum Call {
    /// One admission more, as for a flag that is on its way to it.
    Admit,
    /// The next flag comes to its queue.
    Push,
    Turn,
    RunTask,
    Hand,
    /// The front of the queue of executor 0 is taken.
    TakeFirst,
    /// The front of the queue of executor 1 is taken.
    TakeSecond,
    /// Executor 0 says that so many envelopes wait there.
    FirstHasWaiting(u64),
    /// Whether it is congested itself.
    IsCongested,
    /// In which phase its own queue is.
    Status,
}

/// What a call answers.
#[derive(Clone, Copy, PartialEq, Eq)]
pub(crate) enum Answer {
    Did(bool),
    Refused(Refused),
    Turned(Turn),
    /// By which way. Each has the number of its executor.
    Handed(Option<usize>),
    /// The flag with this number.
    Took(Option<u64>),
    Is(Status),
}

/// A call, and what it is to answer.
pub(crate) type Expected = (Call, Answer);

/// One that is to come is counted as admitted.
pub(crate) const ADMITTED: Expected = (Call::Admit, Answer::Did(true));

pub(crate) const PUSHED: Expected = (Call::Push, Answer::Did(true));

pub(crate) const WORKED: Expected = (Call::Turn, Answer::Turned(Turn::Worked));

pub(crate) const IDLE: Expected = (Call::Turn, Answer::Turned(Turn::Idle));

pub(crate) const DONE: Expected = (Call::Turn, Answer::Turned(Turn::Done));

impl<'a, W: Named, M: Mailbox<W> + Drop> Alone<'a, W, M> {
    /// Makes a call, and answers what it answers.
    fn apply<R: Wait>(&mut self, rt: &R, call: Call) -> Answer {
        match call {
            Call::Admit => match self.feed.admit() {
                Ok(()) => Answer::Did(true),
                Err(refused) => Answer::Refused(refused),
            },
            Call::Push => Answer::Did(self.feed.push(rt)),
            Call::Turn => Answer::Turned(self.executor.turn(rt, &NoGate)),
            Call::RunTask => Answer::Did(self.executor.run_task(rt, &NoGate)),
            Call::Hand => Answer::Handed(self.executor.hand(rt, &NoGate)),
            Call::TakeFirst => Answer::Took(self.first.take(rt)),
            Call::TakeSecond => Answer::Took(self.second.take(rt)),
            Call::FirstHasWaiting(count) => Answer::Did(self.first.has_waiting(count)),
            Call::IsCongested => Answer::Did(self.feed.is_congested()),
            Call::Status => Answer::Is(self.feed.status()),
        }
    }
}

/// An executor answers these calls of a row, made one after another, as it is to.
fn assert_answers<W: Named, M: Mailbox<W> + Drop, R: Abort + Wait>(
    rt: &R,
    alone: &mut Alone<'_, W, M>,
    row: usize,
    calls: &[Expected],
) {
    for (number, (call, answer)) in calls.iter().enumerate() {
        assert!(rt;
            alone.apply(rt, *call) == *answer,
            "row {row}, call {number}"
        );
    }
}

/// Makes the calls of these rows, one after another, of executor 2 with these nodes. The queues hold so many.
pub(crate) fn play<W: Named, M: Mailbox<W> + Drop, R: Abort + Wait>(
    rt: &R,
    alloc: Global,
    capacity: usize,
    node: Node,
    rows: &[&[Expected]],
) -> Result<(), Fail>
    requires executor { node.executor ≡ 2 }
    requires ready { IsReady node }
{
    let (inboxes, places) = open_three::<W, M>(alloc, capacity)?;
    let mut alone = set_apart(alloc, inboxes.as_slice(), places, node)?;
    for (row, calls) in rows.iter().enumerate() {
        assert_answers(rt, &mut alone, row, calls);
    }
    drop(alone);
    Ok(())
}
