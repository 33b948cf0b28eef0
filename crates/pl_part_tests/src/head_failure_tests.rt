//! A part whose head fails by itself: what its nodes take then, and what its two ends keep.

use crate::part_tests::{
    DONE, ENDED, FLAG, GAVE, HAS_READ_STEP, IDLE, IS_WRITTEN, NONE, NOT_ENDED, OVER, PASSED, SENT,
    TO_THE_BURST, WROTE,
};
use crate::playing::{Answer, Call, Ends, Expected, assert_plays};
use crate::relays::{Faults, NO_FAULTS};
use pl_context::Took;
use pl_event::{Cause, Kind, Outcome};
use pl_head::OutStep;
use std::test::Fail;

/// The transport fails at a call.
fn failing_at(call: u32) -> Faults {
    Faults {
        fail_at: Some(call),
        ..NO_FAULTS
    }
}

/// The recording is aborted after so many bursts.
fn aborted_after(bursts: u32) -> Faults {
    Faults {
        abort_after: Some(bursts),
        ..NO_FAULTS
    }
}

const BY_FAULT: Took = Took::Failed(Cause::Transport);

const BY_ABORT: Took = Took::Failed(Cause::Aborted);

/// The failure of the transport has come through all nodes, to the head itself.
const FAULT: &[(u16, Took)] = &[
    (0, BY_FAULT),
    (1, BY_FAULT),
    (2, BY_FAULT),
    (3, BY_FAULT),
    (4, BY_FAULT),
];

/// The abort has.
const ABORTED: &[(u16, Took)] = &[
    (0, BY_ABORT),
    (1, BY_ABORT),
    (2, BY_ABORT),
    (3, BY_ABORT),
    (4, BY_ABORT),
];

const FAILS_AT_2: [Expected; 8] = [
    (Call::Write, WROTE, NONE, NONE),
    (Call::Write, Answer::Wrote(OutStep::Failed), NONE, FLAG),
    IS_WRITTEN,
    HAS_READ_STEP,
    NOT_ENDED,
    (Call::Read, GAVE, FAULT, NONE),
    (Call::Read, DONE, NONE, NONE),
    (Call::Write, IDLE, NONE, NONE),
];

/// The flag of a failing write comes at once, and the failure with the one read step that is left.
#[test]
fn transport_fault(rt: HostRuntime) -> Result<(), Fail> {
    let ends = Ends {
        bytes: b"a",
        outcomes: &[Some(Outcome::Fault)],
        ..SENT.failed(Cause::Transport, Cause::Transport)
    };
    let lists: [&[Expected]; 3] = [&TO_THE_BURST, &FAILS_AT_2, &OVER];
    assert_plays(&rt, failing_at(2), &lists, &ends)
}

const FAILS_AFTER_THE_END: [Expected; 3] = [
    (Call::Read, GAVE, ENDED, NONE),
    (Call::Write, Answer::Wrote(OutStep::Failed), NONE, FLAG),
    (Call::Read, DONE, NONE, NONE),
];

/// The lane of its reads has ended, so the failure goes nowhere; its flag passes nodes that have ended.
#[test]
fn transport_fails_after_the_end(rt: HostRuntime) -> Result<(), Fail> {
    let lists: [&[Expected]; 2] = [&TO_THE_BURST, &FAILS_AFTER_THE_END];
    let ends = Ends {
        bytes: b"",
        outcomes: &[Some(Outcome::Fault)],
        head_failed: Some(Cause::Transport),
        ..SENT
    };
    assert_plays(&rt, failing_at(1), &lists, &ends)
}

/// The burst was recorded, and the write of it closed by the abort.
const CLOSED_BY_ABORT: Ends = Ends {
    bytes: b"",
    outcomes: &[Some(Outcome::Closed)],
    tail_failed: Some(Cause::Aborted),
    head_failed: Some(Cause::Aborted),
    ..SENT
};

const ABORTED_BETWEEN_STEPS: [Expected; 2] = [
    (Call::Abort, Answer::Nothing, ABORTED, FLAG),
    (Call::Abort, Answer::Nothing, NONE, NONE),
];

/// An abort closes what waits. The flag of that comes before the failure, and a second abort does nothing.
#[test]
fn abort_between_read_steps(rt: HostRuntime) -> Result<(), Fail> {
    let lists: [&[Expected]; 3] = [&TO_THE_BURST, &ABORTED_BETWEEN_STEPS, &OVER];
    assert_plays(&rt, NO_FAULTS, &lists, &CLOSED_BY_ABORT)
}

const ABORTED_AFTER_0: [Expected; 3] = [
    (Call::Read, GAVE, PASSED, NONE),
    (Call::Read, GAVE, ABORTED, NONE),
    (Call::Read, DONE, NONE, NONE),
];

const ABORTED_AFTER_1: [Expected; 2] = [
    (Call::Read, GAVE, ABORTED, FLAG),
    (Call::Read, DONE, NONE, NONE),
];

/// An abort that the recording has, before its burst and behind it: it is a read step, and the last.
#[test]
fn abort_at_each_burst(rt: HostRuntime) -> Result<(), Fail> {
    let ends = Ends {
        recorded: 1,
        flags: &[],
        outcomes: &[],
        ..CLOSED_BY_ABORT
    };
    assert_plays(&rt, aborted_after(0), &[&ABORTED_AFTER_0], &ends)?;

    let lists: [&[Expected]; 3] = [&TO_THE_BURST, &ABORTED_AFTER_1, &OVER];
    assert_plays(&rt, aborted_after(1), &lists, &CLOSED_BY_ABORT)
}

const TURN_REFUSED: [Expected; 3] = [
    (
        Call::Refuse(Kind::Data, 2),
        Answer::Nothing,
        &[
            (2, Took::Failed(Cause::Refused)),
            (3, Took::Failed(Cause::Refused)),
            (4, Took::Failed(Cause::Refused)),
        ],
        NONE,
    ),
    (Call::Write, WROTE, NONE, NONE),
    (
        Call::Write,
        WROTE,
        NONE,
        &[(0, Took::Ran), (1, Took::Dropped)],
    ),
];

/// What was flushed is written though a handler has failed. The flag of that is dropped where this stands.
#[test]
fn flag_after_a_failure(rt: HostRuntime) -> Result<(), Fail> {
    let ends = Ends {
        flags: &[false],
        ..SENT.failed(Cause::Refused, Cause::Refused)
    };
    assert_plays(&rt, NO_FAULTS, &[&TO_THE_BURST, &TURN_REFUSED], &ends)
}
