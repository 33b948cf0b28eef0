//! A part with all nodes of a channel: events through it, its end, and writers that are refused.

use crate::playing::{Answer, Call, Ends, Expected, assert_plays};
use crate::relays::{Faults, NO_FAULTS, sample_part};
use pl_context::Took;
use pl_event::{Cause, Kind, Outcome};
use pl_flow::HeadMove;
use pl_head::{OutStep, ReadStep};
use std::test::Fail;

pub(crate) const GAVE: Answer = Answer::Read(ReadStep::Gave);

pub(crate) const DONE: Answer = Answer::Read(ReadStep::Done);

/// A byte has left.
pub(crate) const WROTE: Answer = Answer::Wrote(OutStep::Wrote(1));

pub(crate) const IDLE: Answer = Answer::Wrote(OutStep::Idle);

/// Nothing came for any node.
pub(crate) const NONE: &[(u16, Took)] = &[];

const RAN: Took = Took::Ran;

const END: Took = Took::Ended;

/// An event has come through all nodes.
pub(crate) const PASSED: &[(u16, Took)] = &[(0, RAN), (1, RAN), (2, RAN), (3, RAN), (4, RAN)];

/// The burst has: handlers take its read and its completion in turn.
pub(crate) const BURST: &[(u16, Took)] = &[
    (0, RAN),
    (0, RAN),
    (1, RAN),
    (1, RAN),
    (3, RAN),
    (2, RAN),
    (3, RAN),
    (4, RAN),
    (4, RAN),
];

/// The end has.
pub(crate) const ENDED: &[(u16, Took)] = &[(0, END), (1, END), (2, END), (3, END), (4, END)];

/// A flag has come to the tail.
pub(crate) const FLAG: &[(u16, Took)] = &[(0, RAN), (1, RAN), (2, RAN)];

/// The part's first read step, and its burst.
pub(crate) const TO_THE_BURST: [Expected; 2] = [
    (Call::Read, GAVE, PASSED, NONE),
    (Call::Read, GAVE, BURST, FLAG),
];

const IS: Answer = Answer::Is(true);

const IS_NOT: Answer = Answer::Is(false);

pub(crate) const HAS_READ_STEP: Expected = (Call::HasReadStep, IS, NONE, NONE);

const NO_READ_STEP: Expected = (Call::HasReadStep, IS_NOT, NONE, NONE);

pub(crate) const IS_WRITTEN: Expected = (Call::IsWritten, IS, NONE, NONE);

const NOT_WRITTEN: Expected = (Call::IsWritten, IS_NOT, NONE, NONE);

const HAS_ENDED: Expected = (Call::HasEnded, IS, NONE, NONE);

pub(crate) const NOT_ENDED: Expected = (Call::HasEnded, IS_NOT, NONE, NONE);

/// All nodes have ended, and the head gives nothing more.
pub(crate) const OVER: [Expected; 2] = [HAS_ENDED, NO_READ_STEP];

/// The tail has recorded the event before the burst, and nothing was written.
const BEFORE_THE_BURST: Ends = Ends {
    recorded: 1,
    flags: &[],
    bytes: b"",
    outcomes: &[],
    tail_failed: None,
    head_failed: None,
};

/// The tail has all of the burst, and the write of it has left.
pub(crate) const SENT: Ends = Ends {
    recorded: 2,
    flags: &[false, true],
    bytes: b"ab",
    outcomes: &[Some(Outcome::Success)],
    tail_failed: None,
    head_failed: None,
};

const THE_END: [Expected; 4] = [
    (Call::Read, GAVE, ENDED, NONE),
    // What was flushed before the end is still written.
    (Call::Write, WROTE, NONE, NONE),
    (Call::Write, WROTE, NONE, FLAG),
    (Call::Write, IDLE, NONE, NONE),
];

const HALFWAY: [Expected; 3] = [HAS_READ_STEP, NOT_WRITTEN, NOT_ENDED];

#[test]
fn events_pass_and_end(rt: HostRuntime) -> Result<(), Fail> {
    assert_plays(
        &rt,
        NO_FAULTS,
        &[&TO_THE_BURST, &HALFWAY, &THE_END, &[IS_WRITTEN], &OVER],
        &SENT,
    )
}

/// A whole part gives up its two ends.
#[test]
fn both_ends_given_up(rt: HostRuntime) -> Result<(), Fail> {
    let (tail, head) = sample_part(rt.alloc(), NO_FAULTS)?.into_ends();
    assert!(rt; tail.is_some());
    assert!(rt; head.is_some());
    drop(tail);
    drop(head);
    Ok(())
}

const READ: Call = Call::Move(HeadMove::Read);

const OUT: Call = Call::Move(HeadMove::Out);

const MADE: Answer = Answer::Moved(true);

const NOT_ENABLED: Answer = Answer::Moved(false);

const BY_MOVES: [Expected; 8] = [
    (OUT, NOT_ENABLED, NONE, NONE),
    (READ, MADE, PASSED, NONE),
    (READ, MADE, BURST, FLAG),
    (READ, MADE, ENDED, NONE),
    (READ, NOT_ENABLED, NONE, NONE),
    (OUT, MADE, NONE, NONE),
    (OUT, MADE, NONE, FLAG),
    (OUT, NOT_ENABLED, NONE, NONE),
];

/// The same by the head's moves: each is made where it is enabled.
#[test]
fn moves_to_the_end(rt: HostRuntime) -> Result<(), Fail> {
    assert_plays(&rt, NO_FAULTS, &[&BY_MOVES], &SENT)
}

const REFUSED: Took = Took::Failed(Cause::Refused);

const HANDLER_REFUSED: [Expected; 4] = [
    (Call::Read, GAVE, PASSED, NONE),
    (
        Call::Refuse(Kind::Data, 1),
        Answer::Nothing,
        &[(1, REFUSED), (2, REFUSED), (3, REFUSED), (4, REFUSED)],
        NONE,
    ),
    (
        Call::Read,
        GAVE,
        &[(0, Took::Dropped), (0, Took::Dropped)],
        NONE,
    ),
    (Call::Refuse(Kind::Data, 1), Answer::Nothing, NONE, NONE),
];

/// Nothing more of the first handler's lane is accepted: the failure follows the event that it has handed on.
#[test]
fn refused_handler_fails(rt: HostRuntime) -> Result<(), Fail> {
    let ends = BEFORE_THE_BURST.failed(Cause::Refused, Cause::Refused);
    assert_plays(&rt, NO_FAULTS, &[&HANDLER_REFUSED, &[HAS_ENDED]], &ends)
}

const WRITERS_REFUSED: [Expected; 4] = [
    (
        Call::Refuse(Kind::Data, 4),
        Answer::Nothing,
        &[(4, REFUSED)],
        NONE,
    ),
    (
        Call::Read,
        GAVE,
        &[(0, RAN), (1, RAN), (2, RAN), (3, Took::Dropped)],
        NONE,
    ),
    (
        Call::Refuse(Kind::Data, 3),
        Answer::Nothing,
        &[(2, REFUSED), (3, Took::Dropped)],
        NONE,
    ),
    (Call::Refuse(Kind::Data, 0), Answer::Nothing, NONE, NONE),
];

const THEN_ABORTED: [Expected; 1] = [(
    Call::Abort,
    Answer::Nothing,
    &[(0, Took::Failed(Cause::Aborted)), (1, Took::Dropped)],
    NONE,
)];

/// The first lane after the tail is the turn's, the head's lane the outbound handler's, and the first hop's the head's.
#[test]
fn refused_writers(rt: HostRuntime) -> Result<(), Fail> {
    let ends = BEFORE_THE_BURST.failed(Cause::Refused, Cause::Aborted);
    assert_plays(
        &rt,
        NO_FAULTS,
        &[&WRITERS_REFUSED, &[NOT_ENDED], &THEN_ABORTED, &[HAS_ENDED]],
        &ends,
    )
}

const FLAGS_REFUSED: [Expected; 3] = [
    (Call::Refuse(Kind::Flags, 1), Answer::Nothing, NONE, NONE),
    (Call::Refuse(Kind::Flags, 2), Answer::Nothing, NONE, NONE),
    (Call::Refuse(Kind::Flags, 0), Answer::Nothing, NONE, NONE),
];

/// A flag that is refused fails none of those that write flags, the handlers and the head: all goes on to the end.
#[test]
fn refused_flags_change_nothing(rt: HostRuntime) -> Result<(), Fail> {
    let flags = &FLAGS_REFUSED;
    assert_plays(
        &rt,
        NO_FAULTS,
        &[flags, &TO_THE_BURST, flags, &THE_END, &OVER],
        &SENT,
    )
}

const MEMORY: Took = Took::Failed(Cause::Memory);

const WITHOUT_MEMORY: [Expected; 3] = [
    (Call::Read, GAVE, PASSED, NONE),
    (
        Call::Read,
        GAVE,
        &[
            (0, MEMORY),
            (0, Took::Dropped),
            (1, MEMORY),
            (2, MEMORY),
            (3, MEMORY),
            (4, MEMORY),
        ],
        NONE,
    ),
    (Call::Read, GAVE, &[(0, Took::Dropped)], NONE),
];

/// A handler whose second step finds no memory: its failure follows what it has handed on, and the rest is dropped.
#[test]
fn handler_without_memory(rt: HostRuntime) -> Result<(), Fail> {
    let faults = Faults {
        steps: 1,
        ..NO_FAULTS
    };
    let ends = BEFORE_THE_BURST.failed(Cause::Memory, Cause::Memory);
    assert_plays(&rt, faults, &[&WITHOUT_MEMORY, &[HAS_ENDED]], &ends)
}

/// Where the lanes of each hop go, and who writes them.
#[test]
fn targets_and_writers(rt: HostRuntime) -> Result<(), Fail> {
    let part = sample_part(rt.alloc(), NO_FAULTS)?;
    let targets = [
        part.target(0),
        part.target(1),
        part.target(3),
        part.target(4),
    ];
    let writers = [
        part.writer(0),
        part.writer(2),
        part.writer(3),
        part.writer(4),
    ];
    assert!(rt; part.hops() == 5 && targets == [2, 0, 1, 2] && writers == [4, 1, 1, 3]);
    Ok(())
}
