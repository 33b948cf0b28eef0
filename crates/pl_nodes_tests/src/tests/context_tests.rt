//! Contexts, the tail, outputs and backlogs: faults, failures, an end, flags, and what becomes of what finds no memory.

ghost use Rattle.std.specs.Prelude.{◌≡◌, ◌++◌, ◌∷◌, [], ◌<◌, OnOk, vec_len, vec_capacity};
ghost use Rattle.pl_nodes_tests.specs.declared.tests.context_tests.Relay.{Relay};
ghost use Rattle.pl_nodes_tests.specs.Samples.{relaying, has_quit, relaying-lawful, passed_up, passed_down, is_complete, turned_by, sample_lane};
ghost use Rattle.pl_context.specs.Stops.{HasPlaces, no_stops};
ghost use Rattle.pl_event.specs.declared.envelopes.Kind.TheVariants.{Data};

use crate::tests::head_tests::text;
use pl_context::{Added, Backlog, Context, Outputs, Tail, Took};
use pl_event::{
    Cause, Direction, Envelope, Event, Item, Kind, Lane, Message, Stage, StageFault, Stepped,
    Turned,
};
use std::alloc::{AllocError, Global};
use std::process::Abort;
use std::test::Fail;

/// Hands each event on; as the turn it writes a flush for each, and quits with the first ReadComplete. After a
/// given number of steps it meets a fault.
#[derive(Drop)]
struct Relay {
    direction: Direction,
    has_quit: bool,
    steps: u32,
    is_spent: bool,
}

impl Stage for Relay {
    ghost meaning = { λ s. relaying s.direction };

    ghost stands_after = { λ s xs. s.has_quit ≡ has_quit xs };

    ghost is_spent = { λ s. s.is_spent };

    fn direction(&self) -> Direction {
        self.direction
    }

    fn step(&mut self, event: Event, up: &mut Vec<Event>, down: &mut Vec<Event>) -> Stepped {
        let completes = is_complete(&event);
        if self.is_spent || self.steps == 0 || reserve(up, down).is_err() {
            drop(event);
            self.is_spent = true;
            return Err(StageFault::Memory);
        }
        pass(self.direction, event, up, down, self.has_quit);
        self.steps -= 1;
        self.has_quit = self.has_quit || completes;
        Ok(turned(self.direction, self.has_quit))
    }

    ghost lawful = { λ s. relaying-lawful s.direction };
}

impl Relay {
    fn new(direction: Direction, steps: u32) -> Self
        ensures direction { result.direction ≡ direction }
        ensures stands { result.has_quit ≡ has_quit [] }
    {
        Relay {
            direction,
            has_quit: false,
            steps,
            is_spent: false,
        }
    }
}

fn is_complete(event: &Event) -> bool
    ensures { result ≡ is_complete event.now }
{
    match event {
        Event::ReadComplete => true,
        _ => false,
    }
}

fn turned(direction: Direction, has_quit: bool) -> Turned
    ensures { result ≡ turned_by direction has_quit }
{
    match direction {
        Direction::Turn => {
            if has_quit {
                Turned::Ended
            } else {
                Turned::Open
            }
        }
        Direction::Inbound | Direction::Outbound => Turned::Open,
    }
}

/// Makes room for one more event on each list.
fn reserve(up: &mut Vec<Event>, down: &mut Vec<Event>) -> Result<(), AllocError>
    ensures up { up.new.items ≡ up.old.items }
    ensures down { down.new.items ≡ down.old.items }
    ensures room_up { OnOk result (vec_len up.new < vec_capacity up.new) }
    ensures room_down { OnOk result (vec_len down.new < vec_capacity down.new) }
{
    up.reserve(1)?;
    down.reserve(1)
}

fn pass(
    direction: Direction,
    event: Event,
    up: &mut Vec<Event>,
    down: &mut Vec<Event>,
    has_quit: bool,
)
    requires room_up { vec_len up.old < vec_capacity up.old }
    requires room_down { vec_len down.old < vec_capacity down.old }
    ensures up { up.new.items ≡ up.old.items ++ passed_up direction event }
    ensures down { down.new.items ≡ down.old.items ++ passed_down direction has_quit event }
{
    match direction {
        Direction::Turn => {
            if !has_quit {
                down.push_reserved(Event::Flush);
            }
            up.push_reserved(event);
        }
        Direction::Inbound => up.push_reserved(event),
        Direction::Outbound => down.push_reserved(event),
    }
}

/// The lane of a kind at the hop of another.
fn of_kind(kind: Kind, lane: Lane) -> Lane
    ensures { result ≡ record lane { kind = kind } }
{
    Lane {
        channel: lane.channel,
        kind,
        hop: lane.hop,
    }
}

/// The kind of the lanes that an item is on.
fn kind_of(item: &Item) -> Kind {
    match item {
        Item::Flag(_) => Kind::Flags,
        _ => Kind::Data,
    }
}

/// Gives a context the next item of its lane, which puts out into an empty list.
fn give(rt: &impl Abort, context: &mut Context<Relay>, item: Item, outputs: &mut Outputs) -> Took
    requires { outputs.old.stopped ≡ no_stops 3 }
{
    let lane = of_kind(kind_of(&item), context.lane());
    let number = context.taken(lane);
    let up = context.up();
    let down = context.down();
    assert!(rt; number < 1000);
    assert!(rt; up.made < 1000);
    assert!(rt; down.made < 1000);
    context.take(Envelope { lane, number, item }, outputs)
}

/// The same of the item that a sample stands for.
fn give_sample(
    rt: &(impl Abort + AllocGlobal),
    context: &mut Context<Relay>,
    sample: Sample,
    outputs: &mut Outputs,
) -> Result<Took, AllocError>
    requires { outputs.old.stopped ≡ no_stops 3 }
{
    let item = item_of(rt.alloc(), sample)?;
    Ok(give(rt, context, item, outputs))
}

/// What a context is given, what it is to answer, and what it is to put out.
type Given<'a> = (Sample, Took, &'a [Put]);

/// A context that is given the next item of its lane answers so, and puts these out.
fn assert_gives_next(
    rt: &(impl Abort + AllocGlobal),
    context: &mut Context<Relay>,
    sample: Sample,
    answer: Took,
    want: &[Put],
) -> Result<(), AllocError> {
    let mut outputs = Outputs::new(rt.alloc(), 3)?;
    let took = give_sample(rt, context, sample, &mut outputs)?;
    assert!(rt; took == answer);
    assert_brings(rt, &mut outputs, want);
    Ok(())
}

/// The same of the next items of its lanes.
fn assert_gives(
    rt: &(impl Abort + AllocGlobal),
    context: &mut Context<Relay>,
    rows: &[Given],
) -> Result<(), AllocError> {
    for (sample, answer, want) in rows {
        assert_gives_next(rt, context, *sample, *answer, want)?;
    }
    Ok(())
}

/// A context that is failed from outside puts these out.
fn assert_refused(
    rt: &(impl Abort + AllocGlobal),
    context: &mut Context<Relay>,
    want: &[Put],
    cause: Cause,
) -> Result<(), AllocError> {
    let mut outputs = Outputs::new(rt.alloc(), 3)?;
    context.fail(cause, &mut outputs);
    assert_brings(rt, &mut outputs, want);
    Ok(())
}

/// An item of these tests, as a value that is copied.
#[derive(Clone, Copy)]
pub(crate) enum Sample {
    Active,
    /// A read of these bytes.
    Read(&'static [u8]),
    ReadComplete,
    /// A user event of this number.
    User(u32),
    Flush,
    End,
    Fail(Cause),
    Flag(bool),
}

/// The item that a sample stands for.
fn item_of(alloc: Global, sample: Sample) -> Result<Item, AllocError> {
    let event = match sample {
        Sample::Active => Event::Active,
        Sample::Read(bytes) => Event::Read(Message::Bytes(text(alloc, bytes)?)),
        Sample::ReadComplete => Event::ReadComplete,
        Sample::User(number) => Event::User(number),
        Sample::Flush => Event::Flush,
        Sample::End => return Ok(Item::End),
        Sample::Fail(cause) => return Ok(Item::Fail(cause)),
        Sample::Flag(value) => return Ok(Item::Flag(value)),
    };
    Ok(Item::Event(event))
}

/// A hop of channel 7, with a number and an item of a lane there.
pub(crate) type Put = (u16, u64, Sample);

impl Sample {
    /// The kind of the lanes that it is on.
    fn kind(self) -> Kind {
        match self {
            Sample::Flag(_) => Kind::Flags,
            _ => Kind::Data,
        }
    }

    /// Whether it stands for this item.
    fn is(self, item: &Item) -> bool {
        match (self, item) {
            (_, Item::Event(event)) => self.is_event(event),
            (Sample::End, Item::End) => true,
            (Sample::Fail(want), Item::Fail(cause)) => *cause == want,
            (Sample::Flag(want), Item::Flag(value)) => *value == want,
            _ => false,
        }
    }

    fn is_event(self, event: &Event) -> bool {
        match (self, event) {
            (Sample::Active, Event::Active) => true,
            (Sample::ReadComplete, Event::ReadComplete) => true,
            (Sample::User(want), Event::User(number)) => *number == want,
            (Sample::Flush, Event::Flush) => true,
            (Sample::Read(want), Event::Read(Message::Bytes(bytes))) => bytes.as_slice() == want,
            _ => false,
        }
    }
}

/// Whether an envelope is this.
fn is_put(envelope: &Envelope, put: Put) -> bool {
    let (hop, number, sample) = put;
    envelope.lane == lane(sample.kind(), hop)
        && envelope.number == number
        && sample.is(&envelope.item)
}

/// Whether a list brings this next.
fn brings_next(outputs: &mut Outputs, put: Put) -> bool {
    match outputs.next() {
        Some(envelope) => {
            let is_next = is_put(&envelope, put);
            drop(envelope);
            is_next
        }
        None => false,
    }
}

/// A list brings these, and nothing behind them.
pub(crate) fn assert_brings(rt: &impl Abort, outputs: &mut Outputs, want: &[Put]) {
    for put in want {
        assert!(rt; brings_next(outputs, *put));
    }
    assert!(rt; outputs.is_empty());
}

/// A lane of channel 7.
fn lane(kind: Kind, hop: u16) -> Lane
    ensures { result ≡ record { channel = 7; kind = kind; hop = hop } }
{
    Lane {
        channel: 7,
        kind,
        hop,
    }
}

pub(crate) fn data(hop: u16, number: u64, item: Item) -> Envelope
    ensures { result ≡ record { lane = record { channel = 7; kind = Data; hop = hop }; number = number; item = item } }
{
    Envelope {
        lane: lane(Kind::Data, hop),
        number,
        item,
    }
}

/// A context at hop 1 of channel 7, whose pipeline has 3 inbound handlers, or none before an outbound one.
fn context_of(alloc: Global, direction: Direction, steps: u32) -> Context<Relay> {
    let k = match direction {
        Direction::Inbound | Direction::Turn => 3,
        Direction::Outbound => 0,
    };
    Context::new(alloc, 7, 1, k, Relay::new(direction, steps))
}

const FAULT: [Given; 3] = [
    (Sample::Active, Took::Ran, &[(2, 0, Sample::Active)]),
    (
        Sample::Read(b""),
        Took::Failed(Cause::Memory),
        &[(2, 1, Sample::Fail(Cause::Memory))],
    ),
    (Sample::ReadComplete, Took::Dropped, &[]),
];

/// A context has taken three items of one lane, and none of others.
fn assert_took_three(rt: &impl Abort, context: &Context<Relay>) {
    assert!(rt; context.taken(lane(Kind::Data, 1)) == 3);
    assert!(rt; context.taken(lane(Kind::Flags, 1)) == 0);
    assert!(rt; context.taken(lane(Kind::Data, 2)) == 0);
}

#[test]
fn fault_ends_context(rt: HostRuntime) -> Result<(), Fail> {
    let mut context = context_of(rt.alloc(), Direction::Inbound, 1);
    assert_gives(&rt, &mut context, &FAULT)?;
    assert_took_three(&rt, &context);
    assert!(rt; context.is_ended());
    Ok(())
}

const BEFORE_ITS_FAILURE: [Given; 1] = [(
    Sample::Active,
    Took::Ran,
    &[(2, 0, Sample::Active), (4, 0, Sample::Flush)],
)];

/// The failure of both lanes that a turn writes.
const REFUSALS: [Put; 2] = [
    (2, 1, Sample::Fail(Cause::Refused)),
    (4, 1, Sample::Fail(Cause::Refused)),
];

const BEHIND_ITS_FAILURE: [Given; 2] = [
    (Sample::ReadComplete, Took::Dropped, &[]),
    (Sample::Flag(false), Took::Dropped, &[]),
];

/// The second failure from outside puts nothing out.
fn assert_refused_once(
    rt: &(impl Abort + AllocGlobal),
    turn: &mut Context<Relay>,
) -> Result<(), AllocError> {
    assert_refused(rt, turn, &REFUSALS, Cause::Refused)?;
    assert_refused(rt, turn, &[], Cause::Memory)
}

/// A turn that has put out one item on each lane, and is failed from outside, gives both lanes the failure, once.
#[test]
fn refused_context(rt: HostRuntime) -> Result<(), Fail> {
    let mut turn = context_of(rt.alloc(), Direction::Turn, 9);
    assert_gives(&rt, &mut turn, &BEFORE_ITS_FAILURE)?;
    assert!(rt; !turn.is_ended());
    assert_refused_once(&rt, &mut turn)?;
    Ok(assert_gives(&rt, &mut turn, &BEHIND_ITS_FAILURE)?)
}

/// The event with which a turn quits: its lane downwards ends.
const QUITS: Given = (
    Sample::ReadComplete,
    Took::Ran,
    &[
        (2, 0, Sample::ReadComplete),
        (4, 0, Sample::Flush),
        (4, 1, Sample::End),
    ],
);

const OPEN_BEHIND_A_QUIT: [Given; 3] = [
    QUITS,
    (Sample::Active, Took::Ran, &[(2, 1, Sample::Active)]),
    (Sample::End, Took::Ended, &[(2, 2, Sample::End)]),
];

/// A turn that is given this first answers so, and puts these out.
fn assert_turn_gives(rt: &(impl Abort + AllocGlobal), rows: &[Given]) -> Result<(), Fail> {
    let mut turn = context_of(rt.alloc(), Direction::Turn, 9);
    Ok(assert_gives(rt, &mut turn, rows)?)
}

/// A turn that has quit stays open for its input, and its lane downwards has ended once.
#[test]
fn turn_quits(rt: HostRuntime) -> Result<(), Fail> {
    assert_turn_gives(&rt, &OPEN_BEHIND_A_QUIT)
}

/// A turn that is given up for its stage gives it back as it stands, its quit seen.
#[test]
fn stage_is_given_back(rt: HostRuntime) -> Result<(), Fail> {
    let mut turn = context_of(rt.alloc(), Direction::Turn, 9);
    assert_gives(&rt, &mut turn, &[QUITS])?;
    let stage = turn.into_stage();
    assert!(rt; stage.has_quit);
    assert!(rt; stage.steps == 8);
    Ok(())
}

const BEHIND_A_FAILURE: [Given; 2] = [
    (Sample::End, Took::Dropped, &[]),
    (Sample::Flag(false), Took::Dropped, &[]),
];

/// A context that fails hands the failure on with its cause, into each lane that it writes, and drops what comes behind it.
fn assert_fails(
    rt: &(impl Abort + AllocGlobal),
    direction: Direction,
    cause: Cause,
    want: &[Put],
) -> Result<(), AllocError> {
    let mut context = context_of(rt.alloc(), direction, 9);
    let failure = (Sample::Fail(cause), Took::Failed(cause), want);
    assert_gives(rt, &mut context, &[failure])?;
    assert!(rt; context.is_ended());
    assert_gives(rt, &mut context, &BEHIND_A_FAILURE)
}

#[test]
fn failure_keeps_its_cause(rt: HostRuntime) -> Result<(), Fail> {
    for &cause in &[
        Cause::Memory,
        Cause::Transport,
        Cause::Aborted,
        Cause::Refused,
    ] {
        let up = (2, 0, Sample::Fail(cause));
        let both = [up, (4, 0, Sample::Fail(cause))];
        assert_fails(&rt, Direction::Inbound, cause, &[up])?;
        assert_fails(&rt, Direction::Turn, cause, &both)?;
    }
    Ok(())
}

const FAILS_BEHIND_A_QUIT: [Given; 2] = [
    QUITS,
    (
        Sample::Fail(Cause::Transport),
        Took::Failed(Cause::Transport),
        &[(2, 1, Sample::Fail(Cause::Transport))],
    ),
];

/// The lane downwards has ended with the turn: a failure goes upwards alone.
#[test]
fn failure_behind_a_quit(rt: HostRuntime) -> Result<(), Fail> {
    assert_turn_gives(&rt, &FAILS_BEHIND_A_QUIT)
}

const FLAGS: [Given; 3] = [
    (
        Sample::Flag(false),
        Took::Ran,
        &[(2, 0, Sample::Flag(false))],
    ),
    (Sample::End, Took::Ended, &[(2, 0, Sample::End)]),
    (Sample::Flag(true), Took::Ran, &[(2, 1, Sample::Flag(true))]),
];

/// A context hands flags on, with the next number, also after its end. An outbound one hands a failure on, downwards.
#[test]
fn flags_pass(rt: HostRuntime) -> Result<(), Fail> {
    let mut context = context_of(rt.alloc(), Direction::Inbound, 9);
    assert_gives(&rt, &mut context, &FLAGS)?;
    let down = [(2, 0, Sample::Fail(Cause::Aborted))];
    assert_fails(&rt, Direction::Outbound, Cause::Aborted, &down)?;
    Ok(())
}

/// Gives the tail of channel 7 the next item of its lane.
fn record(rt: &impl Abort, tail: &mut Tail, item: Item) -> Took {
    let lane = of_kind(kind_of(&item), tail.lane());
    let number = tail.taken(lane);
    assert!(rt; number < 1000);
    tail.take(Envelope { lane, number, item })
}

/// The tail answers so to the next items of its lanes.
fn assert_records(
    rt: &(impl Abort + AllocGlobal),
    tail: &mut Tail,
    rows: &[(Sample, Took)],
) -> Result<(), AllocError> {
    for (sample, answer) in rows {
        let item = item_of(rt.alloc(), *sample)?;
        let took = record(rt, tail, item);
        assert!(rt; took == *answer);
    }
    Ok(())
}

/// The tail was given two events.
fn assert_recorded(rt: &impl Abort, events: &[Event]) {
    let given = [Event::Active, Event::ReadComplete];
    assert!(rt; events == given.as_slice());
}

const RECORDED: [(Sample, Took); 3] = [
    (Sample::Active, Took::Ran),
    (Sample::Flag(false), Took::Ran),
    (Sample::ReadComplete, Took::Ran),
];

const REFUSED: [(Sample, Took); 2] = [
    (Sample::Fail(Cause::Refused), Took::Failed(Cause::Refused)),
    (Sample::Flag(true), Took::Dropped),
];

/// The tail counts what it is given, lane by lane. Of another channel it was given nothing.
fn assert_counts(rt: &impl Abort, tail: &Tail) {
    assert!(rt; tail.taken(lane(Kind::Data, 3)) == 3);
    assert!(rt; tail.taken(lane(Kind::Flags, 3)) == 2);
    let other = Lane {
        channel: 6,
        kind: Kind::Flags,
        hop: 3,
    };
    assert!(rt; tail.taken(other) == 0);
}

const ENDED: [(Sample, Took); 2] = [(Sample::End, Took::Ended), (Sample::Flag(false), Took::Ran)];

/// A tail has failed for this, and records one flag.
fn assert_tail(rt: &impl Abort, tail: &Tail, cause: Option<Cause>) {
    assert!(rt; tail.cause() == cause);
    assert!(rt; tail.flags() == [false].as_slice());
}

/// A tail whose lane of data has ended records flags still, and did not fail.
fn assert_records_past_its_end(rt: &(impl Abort + AllocGlobal)) -> Result<(), AllocError> {
    let mut tail = Tail::new(rt.alloc(), 7, 3);
    assert_records(rt, &mut tail, &ENDED)?;
    assert_tail(rt, &tail, None);
    Ok(())
}

/// A tail records two events and a flag, and then fails.
fn assert_records_to_a_failure(
    rt: &(impl Abort + AllocGlobal),
    tail: &mut Tail,
) -> Result<(), AllocError> {
    assert_records(rt, tail, &RECORDED)?;
    assert!(rt; !tail.is_ended());
    assert_records(rt, tail, &REFUSED)?;
    assert!(rt; tail.is_ended());
    assert_tail(rt, tail, Some(Cause::Refused));
    assert_counts(rt, tail);
    Ok(())
}

#[test]
fn tail_records(rt: HostRuntime) -> Result<(), Fail> {
    let mut tail = Tail::new(rt.alloc(), 7, 3);
    assert_records_to_a_failure(&rt, &mut tail)?;
    assert_recorded(&rt, tail.record());
    assert_recorded(&rt, tail.into_record().as_slice());
    Ok(assert_records_past_its_end(&rt)?)
}

/// The tail hands its record over, and goes on with an empty one.
#[test]
fn tail_hands_its_record_over(rt: HostRuntime) -> Result<(), Fail> {
    let mut tail = Tail::new(rt.alloc(), 7, 3);
    assert_records(&rt, &mut tail, &RECORDED)?;
    assert_recorded(&rt, tail.take_record(rt.alloc()).as_slice());
    assert!(rt; tail.record().is_empty());
    assert_records(&rt, &mut tail, &[(Sample::User(5), Took::Ran)])?;
    let later = [Event::User(5)];
    assert!(rt; tail.take_record(rt.alloc()).as_slice() == later.as_slice());
    Ok(())
}

/// Puts an item of one lane, which has a place.
fn put(outputs: &mut Outputs, number: u64, item: Item) -> Added
    requires { HasPlaces outputs.old.stopped (sample_lane ∷ []) }
    ensures { HasPlaces outputs.new.stopped (sample_lane ∷ []) }
{
    outputs.put(data(2, number, item))
}

/// An empty list has room for three items, and cannot have room for as many as there are numbers.
fn assert_reserves(rt: &impl Abort, outputs: &mut Outputs) -> Result<(), AllocError>
    ensures { outputs.new.stopped ≡ outputs.old.stopped }
{
    assert!(rt; outputs.is_empty());
    outputs.reserve(3)?;
    assert!(rt; outputs.reserve(usize::MAX).is_err());
    assert!(rt; outputs.reserve(usize::MAX - 1).is_err());
    assert!(rt; outputs.is_empty());
    Ok(())
}

/// Three items are put, one behind another.
fn assert_puts(rt: &impl Abort, outputs: &mut Outputs)
    requires { HasPlaces outputs.old.stopped (sample_lane ∷ []) }
{
    assert!(rt; put(outputs, 0, Item::Event(Event::Active)) == Added::Last);
    assert!(rt; put(outputs, 1, Item::Event(Event::Flush)) == Added::Last);
    assert!(rt; put(outputs, 2, Item::End) == Added::Last);
    assert!(rt; !outputs.is_empty());
    assert!(rt; !outputs.has_stopped());
}

#[test]
fn outputs_come_in_order(rt: HostRuntime) -> Result<(), Fail> {
    let mut outputs = Outputs::new(rt.alloc(), 1)?;
    assert_reserves(&rt, &mut outputs)?;
    assert_puts(&rt, &mut outputs);
    let want = [
        (2, 0, Sample::Active),
        (2, 1, Sample::Flush),
        (2, 2, Sample::End),
    ];
    assert_brings(&rt, &mut outputs, &want);
    Ok(())
}

/// Adds an item of one lane, which has a place.
fn add(backlog: &mut Backlog<u8>, number: u64, token: u8) -> Option<u8>
    requires { HasPlaces backlog.old.stopped (sample_lane ∷ []) }
    ensures { HasPlaces backlog.new.stopped (sample_lane ∷ []) }
{
    backlog.add(data(2, number, Item::Event(Event::Active)), token)
}

/// Takes the envelope at a place of a backlog, and answers its number and its token.
fn take_at(backlog: &mut Backlog<u8>, index: usize) -> Option<(u64, u8)> {
    let (envelope, token) = backlog.take_at(index)?;
    let number = envelope.number;
    drop(envelope);
    Some((number, token))
}

/// Takes the envelope at a place of a backlog and puts it back, and answers its number.
fn try_at(backlog: &mut Backlog<u8>, index: usize) -> Option<u64> {
    let (envelope, token) = backlog.take_at(index)?;
    let number = envelope.number;
    backlog.put_back(index, envelope, token);
    Some(number)
}

/// The number and the token of the first envelope of a backlog.
fn front(backlog: &Backlog<u8>) -> Option<(u64, u8)> {
    let (envelope, token) = backlog.front()?;
    Some((envelope.number, *token))
}

/// A backlog has three items, and the first of them in front.
fn assert_three(rt: &impl Abort, backlog: &Backlog<u8>) {
    assert!(rt; !backlog.is_empty());
    assert!(rt; !backlog.has_stopped());
    assert!(rt; front(backlog) == Some((0, 10)));
}

/// The second item of a backlog is taken and put back, and behind the third there is none.
fn assert_second(rt: &impl Abort, backlog: &mut Backlog<u8>) {
    assert!(rt; take_at(backlog, 3) == None);
    assert!(rt; try_at(backlog, 1) == Some(1));
}

/// A backlog brings these numbers with these tokens, and nothing behind them.
fn assert_numbers(rt: &impl Abort, backlog: &mut Backlog<u8>, want: &[(u64, u8)]) {
    for next in want {
        assert!(rt; take_at(backlog, 0) == Some(*next));
    }
    assert!(rt; take_at(backlog, 0) == None);
}

/// An empty backlog is given three items.
fn add_three(rt: &impl Abort, backlog: &mut Backlog<u8>)
    requires { HasPlaces backlog.old.stopped (sample_lane ∷ []) }
{
    assert!(rt; backlog.is_empty());
    assert!(rt; add(backlog, 0, 10) == None);
    assert!(rt; add(backlog, 1, 11) == None);
    assert!(rt; add(backlog, 2, 12) == None);
}

#[test]
fn backlog_keeps_its_order(rt: HostRuntime) -> Result<(), Fail> {
    let mut backlog = Backlog::new(rt.alloc(), 1)?;
    add_three(&rt, &mut backlog);
    assert_three(&rt, &backlog);
    assert_second(&rt, &mut backlog);
    assert_numbers(&rt, &mut backlog, &[(0, 10), (1, 11), (2, 12)]);
    Ok(())
}

/// A list brings events with the numbers from 0 on and below this, and then a failure, if there were to be more.
fn assert_gives_way(rt: &impl Abort, outputs: &mut Outputs, whole: u64) {
    for number in 0..whole {
        assert!(rt; brings_next(outputs, (2, number, Sample::Active)));
    }
    if whole < 8 {
        assert!(rt; brings_next(outputs, (2, whole, Sample::Fail(Cause::Memory))));
    }
    assert!(rt; outputs.is_empty());
}

/// How many items are whole after the next one was added so.
fn whole_after(rt: &impl Abort, whole: u64, number: u64, added: Added) -> u64 {
    match added {
        Added::Last => assert!(rt; whole == 8),
        Added::Refused => {
            assert!(rt; whole == 8);
            return number;
        }
        Added::Discarded => assert!(rt; whole < number),
    }
    whole
}

/// Of eight items, the first that finds no memory gives way to a failure with its number, and the rest is discarded.
/// With memory for all of them nothing gives way, so this says something where an allocation is made to fail.
#[test]
fn item_without_memory_gives_way(rt: HostRuntime) -> Result<(), Fail> {
    let mut whole = 8;
    let mut outputs = Outputs::new(rt.alloc(), 1)?;
    for number in 0..8 {
        let added = put(&mut outputs, number, Item::Event(Event::Active));
        whole = whole_after(&rt, whole, number, added);
    }
    assert!(rt; outputs.has_stopped() == (whole < 8));
    assert_gives_way(&rt, &mut outputs, whole);
    Ok(())
}

/// The same of a backlog, which gives the tokens of those that it discards back.
#[test]
fn backlog_without_memory_gives_tokens_back(rt: HostRuntime) -> Result<(), Fail> {
    let mut backlog = Backlog::new(rt.alloc(), 1)?;
    let mut kept = 0;
    for number in 0..8 {
        match add(&mut backlog, number, 7) {
            None => {
                assert!(rt; kept == number);
                kept += 1;
            }
            Some(token) => assert!(rt; token == 7),
        }
    }
    assert!(rt; kept == 8 || backlog.has_stopped());
    for number in 0..kept {
        assert!(rt; take_at(&mut backlog, 0) == Some((number, 7)));
    }
    assert!(rt; take_at(&mut backlog, 0) == None);
    Ok(())
}

/// The tail records an event, or has failed and records nothing.
fn assert_records_or_fails(rt: &(impl Abort + AllocGlobal)) {
    let mut tail = Tail::new(rt.alloc(), 7, 3);
    let cause = match record(rt, &mut tail, Item::Event(Event::Active)) {
        Took::Failed(cause) => Some(cause),
        _ => None,
    };
    assert!(rt; tail.cause() == cause);
    assert!(rt; tail.record().is_empty() == cause.is_some());
}

/// A context puts an event out, or has failed and puts out its failure. It answers which.
fn brings_or_fails(
    rt: &(impl Abort + AllocGlobal),
    context: &mut Context<Relay>,
) -> Result<Took, AllocError> {
    let mut outputs = Outputs::new(rt.alloc(), 3)?;
    let took = give(rt, context, Item::Event(Event::Active), &mut outputs);
    let want = match took {
        Took::Failed(cause) => Sample::Fail(cause),
        _ => Sample::Active,
    };
    assert_brings(rt, &mut outputs, &[(2, 0, want)]);
    Ok(took)
}

/// An event for which a context finds no memory fails it, and one for which the tail finds none ends the record.
#[test]
fn event_without_memory_fails_its_taker(rt: HostRuntime) -> Result<(), Fail> {
    let mut context = context_of(rt.alloc(), Direction::Inbound, 9);
    let took = brings_or_fails(&rt, &mut context)?;
    assert!(rt; context.is_ended() == (took == Took::Failed(Cause::Memory)));
    assert_records_or_fails(&rt);
    Ok(())
}
