//! A head: writes, flushes, ends, failures, marks, windows, and bursts that are held.

ghost use Rattle.std.specs.Prelude.{◌≡◌, ◌+◌, ◌<◌, ◌≤◌, ◌^◌, [], ◌∷◌, length, IfOk};
ghost use Rattle.pl_event.specs.declared.elements.Element.TheVariants.{Chunk};
ghost use Rattle.pl_event.specs.Inputs.{recorded_input};
ghost use Rattle.pl_event.specs.declared.envelopes.Lane.{Lane};
ghost use Rattle.pl_context.specs.Stops.{HasPlaces};

use crate::tests::input_tests::outputs_of_one;
use crate::trickle::Trickle;
use pl_context::{Outputs, Standing, Took};
use pl_event::{ByteString, Cause, Element, Envelope, Event, Item, Message, Outcome, Sequence};
use pl_head::{Head, MemoryTransport, OutStep, ReadPlan, ReadStep, Transport};
use std::alloc::{AllocError, Global};
use std::process::Abort;
use std::test::Fail;

/// What a message of bytes begins with.
pub(crate) const PONG: &[u8] = b"+PONG\r\n";

/// A call of a head.
#[derive(Clone, Copy)]
pub(crate) enum Call {
    /// A write of this many bytes, up to all of `PONG`.
    Write(usize),
    /// A write of `ab`.
    WriteAb,
    /// A write of this many bytes, all `a`.
    WriteLong(usize),
    WriteLine,
    Flush,
    End,
    Fail(Cause),
    Out,
    Read,
    Abort,
    IsWritable,
    IsWritten,
    IsEnded,
    HasReadStep,
    Taken,
    Standing,
    Cause,
}

/// What a call answers.
#[derive(Clone, Copy, PartialEq, Eq)]
pub(crate) enum Answer {
    Took(Took),
    Out(OutStep),
    Read(ReadStep),
    Aborted,
    Is(bool),
    Count(u64),
    Stands(Standing),
    FailedFor(Option<Cause>),
}

/// What an item is, and its number.
#[derive(Clone, Copy, PartialEq, Eq)]
pub(crate) enum Given {
    Event(u64),
    End(u64),
    Fail(u64, Cause),
    Flag(u64, bool),
}

/// How many envelopes a call puts out, and the first and the last of them.
#[derive(Clone, Copy, PartialEq, Eq)]
pub(crate) struct Brought {
    pub(crate) count: u32,
    pub(crate) first: Option<Given>,
    pub(crate) last: Option<Given>,
}

/// A call, what it is to answer, the first flag that it is to send, and how many bytes are to wait after it.
pub(crate) type Expected = (Call, Answer, Option<bool>, u128);

pub(crate) const RAN: Answer = Answer::Took(Took::Ran);

pub(crate) const ENDED: Answer = Answer::Took(Took::Ended);

pub(crate) const IDLE: Answer = Answer::Out(OutStep::Idle);

/// One byte has left.
pub(crate) const BYTE: Answer = Answer::Out(OutStep::Wrote(1));

pub(crate) const GAVE: Answer = Answer::Read(ReadStep::Gave);

/// No burst, and no abort.
pub(crate) fn nothing_to_read(alloc: Global) -> ReadPlan
    ensures { result.bursts ≡ [] }
{
    ReadPlan {
        bursts: Sequence::new(alloc),
        abort_after: None,
    }
}

/// These bytes, as one chunk or message.
pub(crate) fn text(alloc: Global, bytes: &[u8]) -> Result<ByteString, AllocError>
    ensures { IfOk result (λ text. text ≡ bytes.now) }
{
    ByteString::from_slice(alloc, bytes)
}

/// A burst of one chunk.
fn burst(alloc: Global, bytes: &[u8]) -> Result<Sequence<Element>, AllocError>
    ensures { IfOk result (λ burst. burst ≡ Chunk bytes.now ∷ []) }
{
    let chunk = Element::Chunk(text(alloc, bytes)?);
    Ok(Sequence::from_vec(vec![in alloc; chunk]?))
}

/// Two bursts of one chunk each, with an abort after some of them or none.
fn two_bursts(alloc: Global, abort_after: Option<u32>) -> Result<ReadPlan, AllocError>
    ensures { IfOk result (λ plan. length (recorded_input plan.bursts) + 1 < 2 ^ 31) }
{
    let first = burst(alloc, b"PING\n")?;
    let second = burst(alloc, b"PING\n")?;
    let bursts = vec![in alloc; first, second]?;
    Ok(ReadPlan {
        bursts: Sequence::from_vec(bursts),
        abort_after,
    })
}

/// A head of channel 0 at hop 3, over memory, with nothing to read.
pub(crate) fn head(
    alloc: Global,
    window: u32,
    fail_at: Option<u32>,
    low: u32,
    high: u32,
) -> Head<MemoryTransport>
    requires { low ≤ high }
{
    let transport = MemoryTransport::new(alloc, window, fail_at);
    Head::new(alloc, 0, 3, nothing_to_read(alloc), transport, low, high)
}

/// The same with two bursts to read, and an abort after some of them or none.
pub(crate) fn reading_head(
    alloc: Global,
    abort_after: Option<u32>,
    window: u32,
    fail_at: Option<u32>,
    low: u32,
    high: u32,
) -> Result<Head<MemoryTransport>, AllocError>
    requires { low ≤ high }
{
    let plan = two_bursts(alloc, abort_after)?;
    let transport = MemoryTransport::new(alloc, window, fail_at);
    Ok(Head::new(alloc, 0, 3, plan, transport, low, high))
}

/// A write of these bytes.
fn write(alloc: Global, bytes: &[u8]) -> Result<Item, AllocError> {
    let message = Message::Bytes(text(alloc, bytes)?);
    Ok(Item::Event(Event::Write(message)))
}

/// A write of this many bytes, all `a`.
fn write_long(alloc: Global, size: usize) -> Result<Item, AllocError> {
    let bytes = vec![in alloc; b'a'; size]?;
    let message = Message::Bytes(ByteString::from_vec(bytes));
    Ok(Item::Event(Event::Write(message)))
}

/// The item that a call gives to the head, if it gives one.
fn item_of(alloc: Global, call: Call) -> Result<Option<Item>, AllocError> {
    let item = match call {
        Call::Write(count) => write(alloc, &PONG[..count.min(PONG.len())])?,
        Call::WriteAb => write(alloc, b"ab")?,
        Call::WriteLong(size) => write_long(alloc, size)?,
        Call::WriteLine => {
            let line = ByteString::from_vec(Vec::new(alloc));
            Item::Event(Event::Write(Message::Line(line)))
        }
        Call::Flush => Item::Event(Event::Flush),
        Call::End => Item::End,
        Call::Fail(cause) => Item::Fail(cause),
        _ => return Ok(None),
    };
    Ok(Some(item))
}

/// Gives the next item to a head.
fn give<T: Transport>(
    rt: &impl Abort,
    head: &mut Head<T>,
    item: Item,
    outputs: &mut Outputs,
) -> Took
    requires { (lane : Lane) → HasPlaces outputs.old.stopped (lane ∷ []) }
{
    let lane = head.lane();
    let number = head.taken();
    assert!(rt; number < 1_000_000);
    head.take(Envelope { lane, number, item }, outputs)
}

/// What a head says of itself.
fn told<T: Transport>(head: &Head<T>, call: Call) -> Answer {
    match call {
        Call::IsWritable => Answer::Is(head.is_writable()),
        Call::IsWritten => Answer::Is(head.is_written()),
        Call::IsEnded => Answer::Is(head.is_ended()),
        Call::HasReadStep => Answer::Is(head.has_read_step()),
        Call::Taken => Answer::Count(head.taken()),
        Call::Standing => Answer::Stands(head.standing()),
        _ => Answer::FailedFor(head.cause()),
    }
}

/// Makes a call that gives no item.
fn step<T: Transport>(head: &mut Head<T>, call: Call, outputs: &mut Outputs) -> Answer
    requires { (lane : Lane) → HasPlaces outputs.old.stopped (lane ∷ []) }
{
    match call {
        Call::Read => Answer::Read(head.next_read(outputs)),
        Call::Abort => {
            head.abort(outputs);
            Answer::Aborted
        }
        Call::Out => Answer::Out(head.write_once(outputs)),
        _ => told(head, call),
    }
}

/// Makes a call that puts out into this list.
fn call_into<T: Transport>(
    rt: &(impl Abort + AllocGlobal),
    head: &mut Head<T>,
    call: Call,
    outputs: &mut Outputs,
) -> Result<Answer, AllocError>
    requires { (lane : Lane) → HasPlaces outputs.old.stopped (lane ∷ []) }
{
    match item_of(rt.alloc(), call)? {
        Some(item) => Ok(Answer::Took(give(rt, head, item, outputs))),
        None => Ok(step(head, call, outputs)),
    }
}

/// What an envelope carries.
fn given_by(envelope: &Envelope) -> Given {
    let number = envelope.number;
    match envelope.item {
        Item::Event(_) => Given::Event(number),
        Item::End => Given::End(number),
        Item::Fail(cause) => Given::Fail(number, cause),
        Item::Flag(value) => Given::Flag(number, value),
    }
}

/// What the next envelope carries.
fn next_given(outputs: &mut Outputs) -> Option<Given> {
    let envelope = outputs.next()?;
    let given = given_by(&envelope);
    drop(envelope);
    Some(given)
}

/// What a list of up to 100 envelopes brings.
fn brought_by(outputs: &mut Outputs) -> Brought {
    let first = next_given(outputs);
    let mut last = first;
    let mut count = u32::from(first.is_some());
    for _ in 0..100 {
        let Some(given) = next_given(outputs) else {
            break;
        };
        last = Some(given);
        count = count.saturating_add(1);
    }
    Brought { count, first, last }
}

/// Writes once, whatever is put out.
pub(crate) fn write_once<T: Transport>(
    alloc: Global,
    head: &mut Head<T>,
) -> Result<OutStep, AllocError> {
    let mut outputs = outputs_of_one(alloc)?;
    Ok(head.write_once(&mut outputs))
}

/// Makes a call, and answers what it answers and puts out.
pub(crate) fn apply<T: Transport>(
    rt: &(impl Abort + AllocGlobal),
    head: &mut Head<T>,
    call: Call,
) -> Result<(Answer, Brought), AllocError> {
    let mut outputs = outputs_of_one(rt.alloc())?;
    let answer = call_into(rt, head, call, &mut outputs)?;
    Ok((answer, brought_by(&mut outputs)))
}

/// The value of a flag, if it is one.
fn flag_of(given: Option<Given>) -> Option<bool> {
    match given {
        Some(Given::Flag(_, value)) => Some(value),
        _ => None,
    }
}

/// A head answers these calls so, one after another.
pub(crate) fn play<T: Transport>(
    rt: &(impl Abort + AllocGlobal),
    head: &mut Head<T>,
    rows: &[Expected],
) -> Result<(), AllocError> {
    for (call, want, flag, pending) in rows {
        let (answer, brought) = apply(rt, head, *call)?;
        assert!(rt; answer == *want);
        assert!(rt; flag_of(brought.first) == *flag);
        assert!(rt; head.pending() == *pending);
    }
    Ok(())
}

/// These bytes were accepted, and the writes have come to this.
fn assert_output(
    rt: &impl Abort,
    accepted: &[u8],
    settled: &[Option<Outcome>],
    bytes: &[u8],
    outcomes: &[Option<Outcome>],
) {
    assert!(rt; accepted == bytes);
    assert!(rt; settled == outcomes);
}

/// The transport of a head has accepted these bytes, its writes have come to this, and it has failed for this.
pub(crate) fn assert_head<T: Transport>(
    rt: &impl Abort,
    head: &Head<T>,
    bytes: &[u8],
    outcomes: &[Option<Outcome>],
    cause: Option<Cause>,
) {
    assert_output(rt, head.bytes(), head.outcomes(), bytes, outcomes);
    assert!(rt; head.cause() == cause);
}

/// A head answers these calls so, and no other follows.
pub(crate) fn assert_answers<T: Transport>(
    rt: &(impl Abort + AllocGlobal),
    mut head: Head<T>,
    rows: &[Expected],
) -> Result<(), Fail> {
    Ok(play(rt, &mut head, rows)?)
}

/// A head comes to this by these calls.
pub(crate) fn assert_plays<T: Transport>(
    rt: &(impl Abort + AllocGlobal),
    head: &mut Head<T>,
    rows: &[Expected],
    bytes: &[u8],
    outcomes: &[Option<Outcome>],
    cause: Option<Cause>,
) -> Result<(), AllocError> {
    play(rt, head, rows)?;
    assert_head(rt, head, bytes, outcomes, cause);
    Ok(())
}

/// The same of a head that no other call follows.
pub(crate) fn assert_comes_to<T: Transport>(
    rt: &(impl Abort + AllocGlobal),
    mut head: Head<T>,
    rows: &[Expected],
    bytes: &[u8],
    outcomes: &[Option<Outcome>],
    cause: Option<Cause>,
) -> Result<(), Fail> {
    Ok(assert_plays(rt, &mut head, rows, bytes, outcomes, cause)?)
}

/// Calls, and the bytes and the writes that a head comes to by them.
type Part<'a> = (&'a [Expected], &'a [u8], &'a [Option<Outcome>]);

/// A head that does not fail comes to these, one after the other.
fn assert_comes_to_both<T: Transport>(
    rt: &(impl Abort + AllocGlobal),
    mut head: Head<T>,
    parts: &[Part],
) -> Result<(), Fail> {
    for (rows, bytes, outcomes) in parts {
        assert_plays(rt, &mut head, rows, bytes, outcomes, None)?;
    }
    Ok(())
}

/// A write that has left.
pub(crate) const LEFT: Option<Outcome> = Some(Outcome::Success);

pub(crate) const CLOSED: Option<Outcome> = Some(Outcome::Closed);

pub(crate) const FAULT: Option<Outcome> = Some(Outcome::Fault);

const EMPTY: [Expected; 3] = [
    (Call::Write(0), RAN, None, 0),
    (Call::WriteAb, RAN, None, 2),
    (Call::Flush, RAN, None, 2),
];

const EMPTY_WRITTEN: [Expected; 3] = [
    (Call::Out, BYTE, None, 2),
    (Call::Out, BYTE, None, 0),
    (Call::Out, IDLE, None, 0),
];

#[test]
fn empty_message(rt: HostRuntime) -> Result<(), Fail> {
    let head = head(rt.alloc(), 1, None, 4, 8);
    let parts: [Part; 2] = [
        (&EMPTY, b"", &[LEFT, None]),
        (&EMPTY_WRITTEN, b"ab", &[LEFT, LEFT]),
    ];
    assert_comes_to_both(&rt, head, &parts)
}

const STRICT: [Expected; 8] = [
    (Call::Write(4), RAN, None, 4),
    (Call::Write(1), RAN, Some(false), 5),
    (Call::Flush, RAN, None, 5),
    (Call::Out, BYTE, None, 5),
    (Call::Out, BYTE, None, 5),
    (Call::Out, BYTE, None, 5),
    (Call::Out, BYTE, Some(true), 1),
    (Call::IsWritable, Answer::Is(true), None, 1),
];

#[test]
fn marks_are_strict(rt: HostRuntime) -> Result<(), Fail> {
    assert_answers(&rt, head(rt.alloc(), 1, None, 4, 4), &STRICT)
}

const TRICKLES: [Expected; 5] = [
    (Call::Write(2), RAN, None, 2),
    (Call::Flush, RAN, None, 2),
    (Call::Out, Answer::Out(OutStep::Wrote(0)), None, 2),
    (Call::Out, BYTE, None, 2),
    (Call::Out, Answer::Out(OutStep::Wrote(0)), None, 2),
];

const TRICKLED: [Expected; 2] = [(Call::Out, BYTE, None, 0), (Call::Out, IDLE, None, 0)];

#[test]
fn one_byte_transport(rt: HostRuntime) -> Result<(), Fail> {
    let alloc = rt.alloc();
    let transport = Trickle::new(alloc);
    let head = Head::new(alloc, 0, 3, nothing_to_read(alloc), transport, 4, 8);
    let parts: [Part; 2] = [(&TRICKLES, b"+", &[None]), (&TRICKLED, b"+P", &[LEFT])];
    assert_comes_to_both(&rt, head, &parts)
}

const WATERMARKS: [Expected; 9] = [
    (Call::Write(7), RAN, None, 7),
    (Call::Write(7), RAN, Some(false), 14),
    (Call::Flush, RAN, None, 14),
    (Call::Out, Answer::Out(OutStep::Wrote(3)), None, 14),
    (Call::Out, Answer::Out(OutStep::Wrote(3)), None, 14),
    (Call::Out, BYTE, None, 7),
    (Call::Out, Answer::Out(OutStep::Wrote(3)), None, 7),
    (Call::Out, Answer::Out(OutStep::Wrote(3)), None, 7),
    (Call::Out, BYTE, Some(true), 0),
];

#[test]
fn watermarks(rt: HostRuntime) -> Result<(), Fail> {
    let head = head(rt.alloc(), 3, None, 4, 8);
    let bytes = b"+PONG\r\n+PONG\r\n";
    assert_comes_to(&rt, head, &WATERMARKS, bytes, &[LEFT, LEFT], None)
}

const WINDOW_1: [Expected; 6] = [
    (Call::Write(3), RAN, None, 3),
    (Call::Flush, RAN, None, 3),
    (Call::Out, BYTE, None, 3),
    (Call::Out, BYTE, None, 3),
    (Call::Out, BYTE, None, 0),
    (Call::IsWritten, Answer::Is(true), None, 0),
];

const WINDOW_65536: [Expected; 5] = [
    (Call::Write(7), RAN, None, 7),
    (Call::Flush, RAN, None, 7),
    (Call::Out, Answer::Out(OutStep::Wrote(7)), None, 0),
    (Call::Out, IDLE, None, 0),
    (Call::IsWritten, Answer::Is(true), None, 0),
];

#[test]
fn window_of_1(rt: HostRuntime) -> Result<(), Fail> {
    assert_answers(&rt, head(rt.alloc(), 1, None, 4, 8), &WINDOW_1)
}

#[test]
fn window_of_65536(rt: HostRuntime) -> Result<(), Fail> {
    assert_answers(&rt, head(rt.alloc(), 65536, None, 4, 8), &WINDOW_65536)
}

const HELD: [Expected; 15] = [
    (Call::Read, GAVE, None, 0),
    (Call::Read, GAVE, None, 0),
    (Call::Write(7), RAN, Some(false), 7),
    (Call::Flush, RAN, None, 7),
    (Call::Read, Answer::Read(ReadStep::Held), None, 7),
    (Call::Out, Answer::Out(OutStep::Wrote(7)), Some(true), 0),
    (Call::Read, GAVE, None, 0),
    (Call::Write(7), RAN, Some(false), 7),
    (Call::Flush, RAN, None, 7),
    (Call::Read, GAVE, None, 7),
    (Call::Read, Answer::Read(ReadStep::Done), None, 7),
    (Call::End, ENDED, None, 7),
    (Call::Out, Answer::Out(OutStep::Wrote(7)), Some(true), 0),
    (Call::IsEnded, Answer::Is(true), None, 0),
    (Call::Cause, Answer::FailedFor(None), None, 0),
];

/// What a head has written after these calls comes to this, in its copies.
fn assert_copied(
    rt: &(impl Abort + AllocGlobal),
    head: &mut Head<MemoryTransport>,
    rows: &[Expected],
    bytes: &[u8],
    outcomes: &[Option<Outcome>],
) -> Result<(), AllocError> {
    play(rt, head, rows)?;
    let (copied, settled) = head.copies(rt.alloc())?;
    assert_output(rt, copied.as_slice(), settled.as_slice(), bytes, outcomes);
    Ok(())
}

/// What a head gives for itself comes to this.
fn assert_written(
    rt: &(impl Abort + AllocGlobal),
    head: Head<MemoryTransport>,
    bytes: &[u8],
    outcomes: &[Option<Outcome>],
) -> Result<(), AllocError> {
    let (written, settled) = head.into_written(rt.alloc())?;
    assert_output(rt, written.as_slice(), settled.as_slice(), bytes, outcomes);
    Ok(())
}

/// The copies of what a head has written after these calls, and then what it gives for itself.
fn assert_copies(
    rt: &(impl Abort + AllocGlobal),
    mut head: Head<MemoryTransport>,
    rows: &[Expected],
    bytes: &[u8],
    outcomes: &[Option<Outcome>],
) -> Result<(), Fail> {
    assert_copied(rt, &mut head, rows, bytes, outcomes)?;
    Ok(assert_written(rt, head, bytes, outcomes)?)
}

#[test]
fn burst_held(rt: HostRuntime) -> Result<(), Fail> {
    let head = reading_head(rt.alloc(), None, 65536, None, 1, 2)?;
    assert_copies(&rt, head, &HELD, b"+PONG\r\n+PONG\r\n", &[LEFT, LEFT])
}

const NOTHING_FLUSHED: [Expected; 10] = [
    (Call::Read, GAVE, None, 0),
    (Call::Read, GAVE, None, 0),
    (Call::Write(7), RAN, Some(false), 7),
    (Call::Read, GAVE, None, 7),
    (Call::Write(7), RAN, None, 14),
    (Call::Flush, RAN, None, 14),
    (Call::Read, GAVE, None, 14),
    (Call::Out, Answer::Out(OutStep::Wrote(7)), None, 7),
    (Call::Out, Answer::Out(OutStep::Wrote(7)), Some(true), 0),
    (Call::Read, Answer::Read(ReadStep::Done), None, 0),
];

#[test]
fn burst_comes_where_nothing_is_flushed(rt: HostRuntime) -> Result<(), Fail> {
    let head = reading_head(rt.alloc(), None, 65536, None, 1, 2)?;
    assert_answers(&rt, head, &NOTHING_FLUSHED)
}

const FAILS: [Expected; 7] = [
    (Call::Write(1), RAN, None, 1),
    (Call::Flush, RAN, None, 1),
    (Call::Write(4), RAN, Some(false), 5),
    (Call::WriteLine, RAN, None, 5),
    (
        Call::Fail(Cause::Refused),
        Answer::Took(Took::Failed(Cause::Refused)),
        Some(true),
        1,
    ),
    (Call::Out, BYTE, None, 0),
    (
        Call::Cause,
        Answer::FailedFor(Some(Cause::Refused)),
        None,
        0,
    ),
];

#[test]
fn failure_closes_what_is_not_flushed(rt: HostRuntime) -> Result<(), Fail> {
    let head = head(rt.alloc(), 65536, None, 2, 4);
    let outcomes = [LEFT, CLOSED, Some(Outcome::Unsupported)];
    assert_copies(&rt, head, &FAILS, b"+", &outcomes)
}

const TRANSPORT_FAILS: [Expected; 17] = [
    (Call::Read, GAVE, None, 0),
    (Call::Write(7), RAN, Some(false), 7),
    (Call::Flush, RAN, None, 7),
    (Call::Write(2), RAN, None, 9),
    (Call::Out, Answer::Out(OutStep::Wrote(4)), None, 9),
    (Call::Out, Answer::Out(OutStep::Failed), Some(true), 0),
    (Call::Out, IDLE, None, 0),
    (Call::Read, GAVE, None, 0),
    (Call::Read, Answer::Read(ReadStep::Done), None, 0),
    (Call::Write(3), RAN, None, 0),
    (Call::WriteLine, RAN, None, 0),
    (Call::Flush, RAN, None, 0),
    (Call::End, ENDED, None, 0),
    (Call::Out, IDLE, None, 0),
    (Call::Standing, Answer::Stands(Standing::Open), None, 0),
    (Call::IsEnded, Answer::Is(true), None, 0),
    (Call::Taken, Answer::Count(7), None, 0),
];

#[test]
fn failed_transport(rt: HostRuntime) -> Result<(), Fail> {
    let head = reading_head(rt.alloc(), None, 4, Some(2), 1, 2)?;
    let outcomes = [FAULT, FAULT, FAULT, Some(Outcome::Unsupported)];
    let cause = Some(Cause::Transport);
    assert_comes_to(&rt, head, &TRANSPORT_FAILS, b"+PON", &outcomes, cause)
}

const AFTER_ITS_END: [Expected; 7] = [
    (Call::Write(3), RAN, Some(false), 3),
    (Call::End, ENDED, Some(true), 0),
    (Call::Write(3), RAN, None, 0),
    (Call::Fail(Cause::Refused), RAN, None, 0),
    (Call::End, RAN, None, 0),
    (Call::Taken, Answer::Count(5), None, 0),
    (Call::Standing, Answer::Stands(Standing::Ended), None, 0),
];

/// What comes after the end is counted, and nothing else comes of it.
#[test]
fn item_after_the_end_is_counted(rt: HostRuntime) -> Result<(), Fail> {
    let head = head(rt.alloc(), 4, None, 1, 2);
    assert_comes_to(&rt, head, &AFTER_ITS_END, b"", &[CLOSED], None)
}

const FAILS_AFTER_ITS_END: [Expected; 6] = [
    (Call::Write(7), RAN, Some(false), 7),
    (Call::Flush, RAN, None, 7),
    (Call::Write(3), RAN, None, 10),
    (Call::End, ENDED, None, 7),
    (Call::Out, Answer::Out(OutStep::Failed), Some(true), 0),
    (Call::Out, IDLE, None, 0),
];

/// What the end closed stays closed.
#[test]
fn transport_fails_after_the_end(rt: HostRuntime) -> Result<(), Fail> {
    let head = head(rt.alloc(), 4, Some(1), 1, 2);
    let cause = Some(Cause::Transport);
    assert_comes_to(
        &rt,
        head,
        &FAILS_AFTER_ITS_END,
        b"",
        &[FAULT, CLOSED],
        cause,
    )
}
