//! What an executor does in one turn.

use crate::tests::playing::{ADMITTED, Answer, Call, DONE, Expected, IDLE, PUSHED, WORKED, play};
use crate::tests::starting::{forwarder, maker};
use pl_queue::{RingBox, WaitingBox};
use pl_words::Status;
use std::alloc::{AllocError, Global};
use std::marker::Brand;
use std::test::Fail;

/// Executor 0 finds nothing in its queue.
const NONE_FOR_FIRST: Expected = (Call::TakeFirst, Answer::Took(None));

/// It finds the flag of this number.
const FIRST_TAKES_0: Expected = (Call::TakeFirst, Answer::Took(Some(0)));

const FIRST_TAKES_1: Expected = (Call::TakeFirst, Answer::Took(Some(1)));

const FIRST_TAKES_2: Expected = (Call::TakeFirst, Answer::Took(Some(2)));

const FIRST_TAKES_3: Expected = (Call::TakeFirst, Answer::Took(Some(3)));

const NONE_FOR_SECOND: Expected = (Call::TakeSecond, Answer::Took(None));

const SECOND_TAKES_0: Expected = (Call::TakeSecond, Answer::Took(Some(0)));

const SECOND_TAKES_1: Expected = (Call::TakeSecond, Answer::Took(Some(1)));

/// Nothing can be handed over.
const NOT_HANDED: Expected = (Call::Hand, Answer::Handed(None));

const HANDED_TO_FIRST: Expected = (Call::Hand, Answer::Handed(Some(0)));

const HANDED_TO_SECOND: Expected = (Call::Hand, Answer::Handed(Some(1)));

const ONE_OF_EACH: &[&[Expected]] = &[
    &[ADMITTED, PUSHED],
    // It takes the first, and reads nothing beside it.
    &[WORKED],
    // A read step, since nothing waits and its queue is empty.
    &[WORKED, NONE_FOR_FIRST, ADMITTED, PUSHED],
    // It hands over what that made, and takes the second.
    &[WORKED, FIRST_TAKES_0, NONE_FOR_SECOND],
    &[(Call::RunTask, Answer::Did(false))],
    // The other read step, and its flag.
    &[WORKED, NONE_FOR_SECOND, WORKED],
    &[SECOND_TAKES_0, NONE_FOR_FIRST, DONE],
];

/// Two flags have come, and two are made: a turn runs one task, and hands over one of them.
#[test]
fn one_task_and_one_hand_a_turn(rt: HostRuntime) -> Result<(), Fail> {
    play::<Brand, RingBox<Brand>, _>(&rt, rt.alloc(), 8, maker((1, 1), 2), ONE_OF_EACH)?;
    play::<Brand, WaitingBox<Brand>, _>(&rt, rt.alloc(), 8, maker((1, 1), 2), ONE_OF_EACH)
}

const ONE_HANDED_OVER: &[&[Expected]] = &[
    &[ADMITTED, PUSHED, ADMITTED, PUSHED],
    // Each that comes makes one. The first two are handed over, and two more wait.
    &[WORKED, WORKED, ADMITTED, PUSHED, ADMITTED, PUSHED],
    &[WORKED, WORKED, IDLE],
    &[FIRST_TAKES_0],
    &[FIRST_TAKES_1, NONE_FOR_FIRST],
    &[WORKED, FIRST_TAKES_2, NONE_FOR_FIRST],
    &[WORKED, FIRST_TAKES_3, NONE_FOR_FIRST, DONE],
];

/// A queue has room again for two of those that wait: a turn hands over one, and the next turn the other.
#[test]
fn one_hand_though_two_find_room(rt: HostRuntime) -> Result<(), Fail> {
    play::<Brand, RingBox<Brand>, _>(&rt, rt.alloc(), 2, forwarder((4, 0), 4), ONE_HANDED_OVER)
}

const FULL_IS_TRIED_ONCE: &[&[Expected]] = &[
    // Each that comes makes one: one that is handed over, two more for that queue, and behind them one for another.
    &[ADMITTED, PUSHED, WORKED, ADMITTED, PUSHED, WORKED],
    &[ADMITTED, PUSHED, WORKED, ADMITTED, PUSHED, WORKED],
    &[NONE_FOR_SECOND, HANDED_TO_SECOND, NOT_HANDED],
    // The last one is made. Both queues are full.
    &[ADMITTED, PUSHED, WORKED, NOT_HANDED],
    &[SECOND_TAKES_0, HANDED_TO_SECOND, NOT_HANDED],
    // What went back is still the next of its lane.
    &[FIRST_TAKES_0, HANDED_TO_FIRST, NOT_HANDED],
    &[FIRST_TAKES_1, HANDED_TO_FIRST],
    &[FIRST_TAKES_2],
    &[SECOND_TAKES_1, NOT_HANDED, DONE],
];

/// A full queue is tried once in a turn: what it is for goes back to its place, and a younger one for another is handed over.
#[test]
fn full_queue_is_tried_once(rt: HostRuntime) -> Result<(), Fail> {
    play::<Brand, RingBox<Brand>, _>(&rt, rt.alloc(), 1, forwarder((3, 2), 5), FULL_IS_TRIED_ONCE)
}

const READ_ONCE_NONE_WAITS: &[&[Expected]] = &[
    // One is made and handed over, and another is made, for which there is no room.
    &[WORKED, WORKED, WORKED],
    // One more is left to read.
    &[WORKED, WORKED, FIRST_TAKES_0, NONE_FOR_FIRST],
    // There is room: the turn hands over, and reads nothing beside it.
    &[WORKED, FIRST_TAKES_1, NOT_HANDED],
    // Now it reads.
    &[WORKED, HANDED_TO_FIRST, FIRST_TAKES_2, DONE],
];

/// While something waits for a full queue a turn reads nothing, and is not idle: what is left to read waits.
#[test]
fn reads_wait(rt: HostRuntime) -> Result<(), Fail> {
    play::<Brand, RingBox<Brand>, _>(&rt, rt.alloc(), 1, maker((3, 0), 0), READ_ONCE_NONE_WAITS)
}

const READ_ONCE_UNCONGESTED: &[&[Expected]] = &[
    // It reads beside as many as may wait.
    &[
        (Call::FirstHasWaiting(1_024), Answer::Did(false)),
        WORKED,
        HANDED_TO_FIRST,
    ],
    &[
        (Call::FirstHasWaiting(1_025), Answer::Did(true)),
        WORKED,
        NOT_HANDED,
    ],
    &[
        (Call::FirstHasWaiting(513), Answer::Did(true)),
        WORKED,
        NOT_HANDED,
    ],
    &[
        (Call::FirstHasWaiting(512), Answer::Did(false)),
        WORKED,
        HANDED_TO_FIRST,
    ],
    &[(Call::FirstHasWaiting(1_025), Answer::Did(true))],
    // All has ended, so nothing is left to read, and no read waits.
    &[FIRST_TAKES_0],
    &[FIRST_TAKES_1, DONE],
];

/// While another executor is congested a turn reads nothing, and is not idle.
#[test]
fn reads_wait_for_the_congested(rt: HostRuntime) -> Result<(), Fail> {
    play::<Brand, RingBox<Brand>, _>(&rt, rt.alloc(), 2, maker((2, 0), 0), READ_ONCE_UNCONGESTED)
}

/// Adds these calls so many times.
fn add_times(rows: &mut Vec<Expected>, count: usize, calls: &[Expected]) -> Result<(), AllocError> {
    for _ in 0..count {
        rows.extend_from_slice(calls)?;
    }
    Ok(())
}

/// From as many as may wait on to one more, and back to as many as are to be left.
fn beyond_and_back(alloc: Global) -> Result<Vec<Expected>, AllocError> {
    let congested = (Call::IsCongested, Answer::Did(true));
    let not_congested = (Call::IsCongested, Answer::Did(false));
    let mut rows = Vec::new(alloc);
    // The first is handed over, and all others wait.
    add_times(&mut rows, 1_025, &[ADMITTED, PUSHED, WORKED])?;
    rows.push(not_congested)?;
    add_times(&mut rows, 1, &[ADMITTED, PUSHED, WORKED])?;
    for number in 0..513 {
        rows.push(congested)?;
        rows.push((Call::TakeFirst, Answer::Took(Some(number))))?;
        rows.push(WORKED)?;
    }
    rows.push(not_congested)?;
    Ok(rows)
}

/// An executor is congested from one more on than may wait, until half are left.
#[test]
fn congested_by_what_waits(rt: HostRuntime) -> Result<(), Fail> {
    let rows = beyond_and_back(rt.alloc())?;
    let nodes = forwarder((1_026, 0), 1_026);
    play::<Brand, RingBox<Brand>, _>(&rt, rt.alloc(), 1, nodes, &[rows.as_slice()])
}

const DONE_ONCE_NONE_WAITS: &[&[Expected]] = &[
    &[WORKED, WORKED, WORKED],
    &[(Call::Status, Answer::Is(Status::Accepting)), IDLE],
    &[(Call::Status, Answer::Is(Status::Closed)), IDLE],
    &[FIRST_TAKES_0, WORKED, DONE, DONE],
    &[FIRST_TAKES_1],
];

/// Where all has ended but something waits for a full queue, it is closed, and not done.
#[test]
fn closed_but_not_done(rt: HostRuntime) -> Result<(), Fail> {
    play::<Brand, RingBox<Brand>, _>(&rt, rt.alloc(), 1, maker((2, 0), 0), DONE_ONCE_NONE_WAITS)
}
