//! When an executor closes, and what is refused where one is closed.

use crate::tests::alone::{Ran, set_apart};
use crate::tests::opening::open_three;
use crate::tests::playing::{ADMITTED, Answer, Call, DONE, Expected, IDLE, PUSHED, WORKED, play};
use crate::tests::starting::maker;
use pl_event::Named;
use pl_queue::{Mailbox, RingBox, WaitingBox};
use pl_words::{Refused, Status};
use std::alloc::Global;
use std::marker::Brand;
use std::process::Abort;
use std::sync::Wait;
use std::test::Fail;

const NOT_ADMITTED: Expected = (Call::Admit, Answer::Refused(Refused::Closed));

const CLOSES_WITH_FOUR: &[&[Expected]] = &[
    // Not all has ended, so it does not begin.
    &[IDLE, (Call::Status, Answer::Is(Status::Accepting))],
    &[ADMITTED, PUSHED, ADMITTED, PUSHED, ADMITTED, WORKED, WORKED],
    &[(Call::Status, Answer::Is(Status::Accepting))],
    // Two of three have come.
    &[IDLE, (Call::Status, Answer::Is(Status::Closing))],
    &[ADMITTED, PUSHED, WORKED, IDLE],
    &[
        (Call::Status, Answer::Is(Status::Closing)),
        PUSHED,
        WORKED,
        DONE,
    ],
    &[
        NOT_ADMITTED,
        NOT_ADMITTED,
        (Call::Status, Answer::Is(Status::Closed)),
    ],
    // What comes without an admission stays in the queue.
    &[PUSHED, (Call::RunTask, Answer::Did(false)), DONE],
];

/// An executor has ended once two have come, and three were admitted: it begins to close, and one more is admitted. It closes
/// with four, and then none is admitted and no task is taken.
#[test]
fn admission_closes(rt: HostRuntime) -> Result<(), Fail> {
    play::<Brand, RingBox<Brand>, _>(&rt, rt.alloc(), 8, maker((0, 0), 2), CLOSES_WITH_FOUR)?;
    play::<Brand, WaitingBox<Brand>, _>(&rt, rt.alloc(), 8, maker((0, 0), 2), CLOSES_WITH_FOUR)
}

/// Executor 0 is closed, and three flags are to be made for it, and two for executor 1.
fn run_refused<W: Named, M: Mailbox<W> + Drop, R: Abort + Wait>(
    rt: &R,
    alloc: Global,
) -> Result<Ran, Fail> {
    let (inboxes, places) = open_three::<W, M>(alloc, 8)?;
    let mut alone = set_apart(alloc, inboxes.as_slice(), places, maker((3, 2), 0))?;
    assert!(rt; alone.first.close(0), "not closed");
    Ok(alone.run(rt, true))
}

/// The first flag for a closed executor was refused, and no more were made for it. Nothing came there, and those for another
/// executor did.
fn assert_refused(rt: &impl Abort, ran: Ran) -> Result<(), Fail> {
    let node = ran.node.ok_or("not run")?;
    assert!(rt; node.refusals == 1 && node.first.made == 1 && node.second.made == 2);
    assert!(rt; ran.first.is_none() && ran.second == [Some(0), Some(1), None]);
    Ok(())
}

#[test]
fn refused_context(rt: HostRuntime) -> Result<(), Fail> {
    let alloc = rt.alloc();
    assert_refused(&rt, run_refused::<Brand, RingBox<Brand>, _>(&rt, alloc)?)?;
    assert_refused(&rt, run_refused::<Brand, WaitingBox<Brand>, _>(&rt, alloc)?)
}
