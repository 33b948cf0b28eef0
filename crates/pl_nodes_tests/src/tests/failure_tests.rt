//! A head that fails by itself, by its transport or an abort: what its writes come to, what it reads, and which writes
//! are told as settled.

use crate::tests::head_tests::{
    Answer, Brought, CLOSED, Call, ENDED, Expected, FAULT, GAVE, Given, IDLE, LEFT, RAN, apply,
    assert_answers, assert_comes_to, assert_head, head, nothing_to_read, play, reading_head,
};
use crate::tests::transport_tests::Broken;
use pl_context::{Standing, Took};
use pl_event::{Cause, Outcome};
use pl_head::{Head, MemoryTransport, OutStep, ReadStep, Transport};
use std::alloc::AllocError;
use std::process::Abort;
use std::test::Fail;

const DONE: Answer = Answer::Read(ReadStep::Done);

/// A call of a head, what it is to answer, and what it is to put out last, if anything.
type Last = (Call, Answer, Option<Given>);

/// A head answers this call so, and puts this out last.
fn assert_last<T: Transport>(
    rt: &(impl Abort + AllocGlobal),
    head: &mut Head<T>,
    row: Last,
) -> Result<(), AllocError> {
    let (call, want, last) = row;
    let (answer, brought) = apply(rt, head, call)?;
    assert!(rt; answer == want);
    assert!(rt; brought.last == last);
    Ok(())
}

/// The same of these calls, one after another.
fn assert_lasts<T: Transport>(
    rt: &(impl Abort + AllocGlobal),
    head: &mut Head<T>,
    rows: &[Last],
) -> Result<(), AllocError> {
    for row in rows {
        assert_last(rt, head, *row)?;
    }
    Ok(())
}

/// The settled writes that were not told yet are these.
pub(crate) fn assert_told<T: Transport>(
    rt: &impl Abort,
    head: &mut Head<T>,
    want: &[(u64, Outcome)],
) {
    for settled in want {
        assert!(rt; head.next_settled() == Some(*settled));
    }
    assert!(rt; head.next_settled() == None);
}

/// A message is written and flushed behind the first burst.
const PONG: [Expected; 4] = [
    (Call::Read, GAVE, None, 0),
    (Call::Read, GAVE, None, 0),
    (Call::Write(7), RAN, None, 7),
    (Call::Flush, RAN, None, 7),
];

/// A head answers both so, the second behind the first.
fn play_both<T: Transport>(
    rt: &(impl Abort + AllocGlobal),
    head: &mut Head<T>,
    first: &[Expected],
    second: &[Expected],
) -> Result<(), AllocError> {
    play(rt, head, first)?;
    play(rt, head, second)
}

/// The head of a transport that fails at this call, when it has taken a message, and after these calls.
fn head_with_pong(
    rt: &(impl Abort + AllocGlobal),
    abort_after: Option<u32>,
    fail_at: u32,
    rows: &[Expected],
) -> Result<Head<MemoryTransport>, AllocError> {
    let mut head = reading_head(rt.alloc(), abort_after, 4, Some(fail_at), 32, 64)?;
    play_both(rt, &mut head, &PONG, rows)?;
    Ok(head)
}

/// What the next read step gives then, where the transport has failed.
const THE_FAULT: Option<Given> = Some(Given::Fail(3, Cause::Transport));

/// A second one follows, and the lane has ended.
const BYE: [Expected; 3] = [
    (Call::Write(6), RAN, None, 13),
    (Call::Flush, RAN, None, 13),
    (Call::End, ENDED, None, 13),
];

/// A read step where the transport failed before the end, and where it did not.
const FAILED_READ: [Last; 2] = [
    (Call::Read, GAVE, THE_FAULT),
    (Call::HasReadStep, Answer::Is(false), None),
];

const READ: [Last; 2] = [
    (Call::Read, GAVE, Some(Given::Event(4))),
    (Call::HasReadStep, Answer::Is(true), None),
];

/// After four calls of its transport a head with nothing waiting reads so.
fn assert_reads(
    rt: &(impl Abort + AllocGlobal),
    head: &mut Head<MemoryTransport>,
    rows: &[Last],
) -> Result<(), AllocError> {
    for _ in 0..4 {
        apply(rt, head, Call::Out)?;
    }
    assert_lasts(rt, head, rows)?;
    assert!(rt; head.pending() == 0);
    Ok(())
}

/// The transport fails at this call. What it accepted, and the outcomes of both writes, are these.
fn fails_at(
    rt: &(impl Abort + AllocGlobal),
    call: u32,
    bytes: &[u8],
    outcomes: [Option<Outcome>; 2],
) -> Result<(), AllocError> {
    let (rows, cause) = if call < 5 {
        (&FAILED_READ, Some(Cause::Transport))
    } else {
        (&READ, None)
    };
    let mut head = head_with_pong(rt, None, call, &BYE)?;
    assert_reads(rt, &mut head, rows)?;
    assert_head(rt, &head, bytes, &outcomes, cause);
    Ok(())
}

#[test]
fn fault_at_each_call(rt: HostRuntime) -> Result<(), Fail> {
    for &(call, bytes, outcomes) in &[
        (1, b"".as_slice(), [FAULT, FAULT]),
        (2, b"+PON".as_slice(), [FAULT, FAULT]),
        (3, b"+PONG\r\n".as_slice(), [LEFT, FAULT]),
        (4, b"+PONG\r\n+PON".as_slice(), [LEFT, FAULT]),
        (5, b"+PONG\r\n+PONG\r".as_slice(), [LEFT, LEFT]),
    ] {
        fails_at(&rt, call, bytes, outcomes)?;
    }
    Ok(())
}

/// The failure comes in the place of the next read step, and then none is left. An abort behind it gives nothing.
const FAULT_IS_LAST: [Last; 4] = [
    (Call::Read, GAVE, THE_FAULT),
    (Call::HasReadStep, Answer::Is(false), None),
    (Call::Read, DONE, None),
    (Call::Abort, Answer::Aborted, None),
];

/// A head whose transport has failed has come to this when it has put these out last.
fn assert_ends(
    rt: &(impl Abort + AllocGlobal),
    mut head: Head<MemoryTransport>,
    bytes: &[u8],
    outcomes: &[Option<Outcome>],
    rows: &[Last],
) -> Result<(), Fail> {
    assert_lasts(rt, &mut head, rows)?;
    assert_head(rt, &head, bytes, outcomes, Some(Cause::Transport));
    Ok(())
}

/// The failure is the last read step.
#[test]
fn transport_fault(rt: HostRuntime) -> Result<(), Fail> {
    let head = head_with_pong(&rt, None, 2, &TO_THE_FAULT)?;
    assert_ends(&rt, head, b"+PON", &[FAULT], &FAULT_IS_LAST)
}

const TO_THE_FAULT: [Expected; 2] = [
    (Call::Out, Answer::Out(OutStep::Wrote(4)), None, 7),
    (Call::Out, Answer::Out(OutStep::Failed), None, 0),
];

/// The failure comes in the place of an abort too.
#[test]
fn failure_replaces_the_abort(rt: HostRuntime) -> Result<(), Fail> {
    let failure = [(Call::Out, Answer::Out(OutStep::Failed), None, 0)];
    let head = head_with_pong(&rt, Some(1), 1, &failure)?;
    assert_ends(&rt, head, b"", &[FAULT], &FAULT_IS_LAST)
}

const FAILS_BEHIND_A_FAILURE: [Expected; 9] = [
    (Call::Write(7), RAN, Some(false), 7),
    (Call::Flush, RAN, None, 7),
    (Call::Write(3), RAN, None, 10),
    (
        Call::Fail(Cause::Refused),
        Answer::Took(Took::Failed(Cause::Refused)),
        None,
        7,
    ),
    (Call::Out, Answer::Out(OutStep::Wrote(4)), None, 7),
    (Call::Out, Answer::Out(OutStep::Failed), Some(true), 0),
    (Call::Abort, Answer::Aborted, None, 0),
    (
        Call::Standing,
        Answer::Stands(Standing::Failed(Cause::Refused)),
        None,
        0,
    ),
    (
        Call::Cause,
        Answer::FailedFor(Some(Cause::Transport)),
        None,
        0,
    ),
];

/// A head that has taken a failure and then fails by itself: its own cause counts, and what the other closed stays
/// closed.
#[test]
fn its_own_cause_counts(rt: HostRuntime) -> Result<(), Fail> {
    let mut head = head(rt.alloc(), 4, Some(2), 1, 2);
    play(&rt, &mut head, &FAILS_BEHIND_A_FAILURE)?;
    let failure = (Call::Read, GAVE, Some(Given::Fail(0, Cause::Transport)));
    assert_ends(&rt, head, b"+PON", &[FAULT, CLOSED], &[failure])
}

const FAILS_WITH_LOW_0: [Expected; 7] = [
    (Call::Read, GAVE, None, 0),
    (Call::Write(3), RAN, Some(false), 3),
    (Call::Flush, RAN, None, 3),
    (Call::Out, Answer::Out(OutStep::Failed), None, 0),
    // It is not held, though the channel is not writable.
    (Call::Read, GAVE, None, 0),
    (Call::Read, DONE, None, 0),
    (Call::IsWritable, Answer::Is(false), None, 0),
];

/// With a low mark of 0 no flag comes of a failure.
#[test]
fn failure_with_low_0(rt: HostRuntime) -> Result<(), Fail> {
    let head = reading_head(rt.alloc(), None, 4, Some(1), 0, 2)?;
    assert_answers(&rt, head, &FAILS_WITH_LOW_0)
}

const FAILS_OF_ITS_OWN: [Expected; 4] = [
    (Call::WriteAb, RAN, None, 2),
    (Call::Flush, RAN, None, 2),
    (Call::Out, Answer::Out(OutStep::Failed), None, 0),
    (Call::Out, IDLE, None, 0),
];

/// A transport that was told nothing, and fails.
#[test]
fn broken_transport(rt: HostRuntime) -> Result<(), Fail> {
    let alloc = rt.alloc();
    let head = Head::new(alloc, 0, 3, nothing_to_read(alloc), Broken::new(), 4, 8);
    let cause = Some(Cause::Transport);
    assert_comes_to(&rt, head, &FAILS_OF_ITS_OWN, b"", &[FAULT], cause)
}

/// A read step is left.
const IS_LEFT: Last = (Call::HasReadStep, Answer::Is(true), None);

/// The channel becomes active, and two bursts come.
const STEPS: [Last; 6] = [
    IS_LEFT,
    (Call::Read, GAVE, Some(Given::Event(0))),
    IS_LEFT,
    (Call::Read, GAVE, Some(Given::Event(2))),
    IS_LEFT,
    (Call::Read, GAVE, Some(Given::Event(4))),
];

const NOTHING_LEFT: [Last; 4] = [
    (Call::HasReadStep, Answer::Is(false), None),
    (Call::Read, DONE, None),
    (Call::Cause, Answer::FailedFor(Some(Cause::Aborted)), None),
    (Call::IsEnded, Answer::Is(true), None),
];

/// A head that is to be aborted after this many bursts gives its failure with this number behind these steps.
fn assert_aborts(
    rt: &(impl Abort + AllocGlobal),
    steps: &[Last],
    count: u32,
    number: u64,
) -> Result<(), AllocError> {
    let failure = Given::Fail(number, Cause::Aborted);
    let aborted = [IS_LEFT, (Call::Read, GAVE, Some(failure))];
    let mut head = reading_head(rt.alloc(), Some(count), 64, None, 1, 2)?;
    for &rows in &[steps, aborted.as_slice(), NOTHING_LEFT.as_slice()] {
        assert_lasts(rt, &mut head, rows)?;
    }
    Ok(())
}

/// The abort is the step after the bursts that come before it, with the next number, and then none is left.
#[test]
fn abort_at_each_burst(rt: HostRuntime) -> Result<(), Fail> {
    assert_aborts(&rt, &STEPS[..2], 0, 1)?;
    assert_aborts(&rt, &STEPS[..4], 1, 3)?;
    assert_aborts(&rt, &STEPS, 2, 5)?;
    Ok(assert_aborts(&rt, &STEPS, 3, 5)?)
}

const ABORTED_BEFORE_ITS_WRITE: [Expected; 8] = [
    (Call::Read, GAVE, None, 0),
    (Call::Read, GAVE, None, 0),
    (Call::Write(7), RAN, Some(false), 7),
    (Call::Flush, RAN, None, 7),
    // It is not held, as a burst would be.
    (Call::Read, GAVE, Some(true), 0),
    (Call::Read, DONE, None, 0),
    (Call::Out, IDLE, None, 0),
    (
        Call::Fail(Cause::Refused),
        Answer::Took(Took::Failed(Cause::Refused)),
        None,
        0,
    ),
];

const ABORTED_BEHIND_ITS_WRITE: [Expected; 7] = [
    (Call::Read, GAVE, None, 0),
    (Call::Read, GAVE, None, 0),
    (Call::Write(7), RAN, Some(false), 7),
    (Call::Flush, RAN, None, 7),
    (Call::Out, Answer::Out(OutStep::Wrote(7)), Some(true), 0),
    (Call::Read, GAVE, None, 0),
    (Call::Abort, Answer::Aborted, None, 0),
];

/// A head that is aborted after its first burst comes to this by these calls.
fn assert_aborted(
    rt: &(impl Abort + AllocGlobal),
    rows: &[Expected],
    bytes: &[u8],
    outcome: Option<Outcome>,
) -> Result<(), Fail> {
    let head = reading_head(rt.alloc(), Some(1), 64, None, 1, 2)?;
    assert_comes_to(rt, head, rows, bytes, &[outcome], Some(Cause::Aborted))
}

#[test]
fn abort(rt: HostRuntime) -> Result<(), Fail> {
    assert_aborted(&rt, &ABORTED_BEFORE_ITS_WRITE, b"", CLOSED)?;
    assert_aborted(&rt, &ABORTED_BEHIND_ITS_WRITE, b"+PONG\r\n", LEFT)
}

const READ_TO_THE_END: [Expected; 2] = [(Call::Read, GAVE, None, 0), (Call::Read, GAVE, None, 0)];

/// The first read step, and a write of three bytes that is not flushed.
const READ_AND_WRITTEN: [Expected; 2] = [
    (Call::Read, GAVE, None, 0),
    (Call::Write(3), RAN, Some(false), 3),
];

const FLAG_AND_FAILURE: Brought = Brought {
    count: 2,
    first: Some(Given::Flag(1, true)),
    last: Some(Given::Fail(1, Cause::Aborted)),
};

/// An abort behind an unflushed write puts these out, and closes the write.
fn assert_flag_and_failure(
    rt: &(impl Abort + AllocGlobal),
    head: &mut Head<MemoryTransport>,
) -> Result<(), AllocError> {
    play(rt, head, &READ_AND_WRITTEN)?;
    let (_, brought) = apply(rt, head, Call::Abort)?;
    assert!(rt; brought == FLAG_AND_FAILURE);
    assert!(rt; head.outcomes() == [CLOSED].as_slice());
    Ok(())
}

/// An abort that no read step makes puts its failure with the next number, behind the flag of what it closes.
#[test]
fn abort_between_read_steps(rt: HostRuntime) -> Result<(), Fail> {
    let mut head = reading_head(rt.alloc(), None, 64, None, 1, 2)?;
    Ok(assert_flag_and_failure(&rt, &mut head)?)
}

const SETTLED: [Expected; 10] = [
    (Call::Write(2), RAN, None, 2),
    (Call::WriteLine, RAN, None, 2),
    (Call::WriteAb, RAN, None, 4),
    (Call::Flush, RAN, None, 4),
    (Call::Write(3), RAN, None, 7),
    (Call::Out, Answer::Out(OutStep::Wrote(2)), None, 5),
    (Call::Abort, Answer::Aborted, None, 0),
    (Call::Write(1), RAN, None, 0),
    (Call::WriteLine, RAN, None, 0),
    (Call::End, ENDED, None, 0),
];

const ABORTED_TWICE: [Last; 3] = [
    (
        Call::Abort,
        Answer::Aborted,
        Some(Given::Fail(1, Cause::Aborted)),
    ),
    (Call::Abort, Answer::Aborted, None),
    (Call::Read, DONE, None),
];

/// With nothing left to read an abort gives no failure.
const ENDED_AND_ABORTED: [Last; 2] = [
    (Call::Abort, Answer::Aborted, None),
    (Call::Cause, Answer::FailedFor(Some(Cause::Aborted)), None),
];

/// A head answers these calls so, and puts these out last behind them.
fn assert_puts(
    rt: &(impl Abort + AllocGlobal),
    mut head: Head<MemoryTransport>,
    rows: &[Expected],
    lasts: &[Last],
) -> Result<(), Fail> {
    play(rt, &mut head, rows)?;
    Ok(assert_lasts(rt, &mut head, lasts)?)
}

/// A second abort changes nothing, and a head with nothing left to read gives no failure.
#[test]
fn abort_without_a_failure(rt: HostRuntime) -> Result<(), Fail> {
    let head_with_bursts = reading_head(rt.alloc(), None, 64, None, 1, 2)?;
    assert_puts(&rt, head_with_bursts, &READ_AND_WRITTEN, &ABORTED_TWICE)?;
    let ended = head(rt.alloc(), 64, None, 1, 2);
    assert_puts(&rt, ended, &READ_TO_THE_END, &ENDED_AND_ABORTED)
}

const TOLD: [(u64, Outcome); 6] = [
    (1, Outcome::Unsupported),
    (0, Outcome::Success),
    (2, Outcome::Closed),
    (3, Outcome::Closed),
    (4, Outcome::Closed),
    (5, Outcome::Unsupported),
];

/// Each settled write is told once, in the order of settling.
#[test]
fn settled_writes_are_told(rt: HostRuntime) -> Result<(), Fail> {
    let mut head = head(rt.alloc(), 64, None, 32, 64);
    assert_told(&rt, &mut head, &[]);
    play(&rt, &mut head, &SETTLED)?;
    assert_told(&rt, &mut head, &TOLD);
    Ok(())
}

/// How many writes of a head have a number, and whether it has failed. Once a write has none, no later one has.
#[derive(Clone, Copy)]
struct Numbered {
    count: usize,
    has_failed: bool,
    is_full: bool,
}

/// One more write of a head of which this is known.
fn assert_one_more(
    rt: &(impl Abort + AllocGlobal),
    head: &mut Head<MemoryTransport>,
    before: Numbered,
) -> Result<Numbered, AllocError> {
    let (answer, _) = apply(rt, head, Call::WriteLong(1))?;
    let fails = answer == Answer::Took(Took::Failed(Cause::Memory));
    assert!(rt; fails || answer == RAN);
    assert!(rt; !(fails && before.has_failed));
    let has_failed = fails || before.has_failed;
    let count = head.outcomes().len();
    let is_full = count == before.count;
    assert!(rt; is_full || count == before.count.saturating_add(1));
    assert!(rt; has_failed || !is_full);
    assert!(rt; is_full || !before.is_full);
    Ok(Numbered {
        count,
        has_failed,
        is_full,
    })
}

/// A head that has failed has nothing waiting.
fn assert_failed(rt: &impl Abort, head: &Head<MemoryTransport>) {
    assert!(rt; head.cause() == Some(Cause::Memory));
    assert!(rt; head.pending() == 0);
}

/// Twenty writes.
fn assert_writes(
    rt: &(impl Abort + AllocGlobal),
    head: &mut Head<MemoryTransport>,
) -> Result<Numbered, AllocError> {
    let mut numbered = Numbered {
        count: 0,
        has_failed: false,
        is_full: false,
    };
    for _ in 0..20 {
        numbered = assert_one_more(rt, head, numbered)?;
        if numbered.has_failed {
            assert_failed(rt, head);
        }
    }
    Ok(numbered)
}

/// The outcome of the next settled write.
fn next_outcome(head: &mut Head<MemoryTransport>) -> Option<Outcome> {
    let (_, outcome) = head.next_settled()?;
    Some(outcome)
}

/// Where a head has failed, each write that has a number was closed, and else none is settled.
fn assert_closed(rt: &impl Abort, head: &mut Head<MemoryTransport>, numbered: Numbered) {
    if numbered.has_failed {
        for _ in 0..numbered.count {
            assert!(rt; next_outcome(head) == CLOSED);
        }
    }
    assert!(rt; next_outcome(head) == None);
}

/// A head that finds no memory for a write has failed: what has a number is settled, and once a write has none, no later
/// one has. It says something only where an allocation is made to fail.
#[test]
fn write_without_memory(rt: HostRuntime) -> Result<(), Fail> {
    let mut head = head(rt.alloc(), 64, None, 32, 64);
    let numbered = assert_writes(&rt, &mut head)?;
    assert_closed(&rt, &mut head, numbered);
    Ok(())
}
