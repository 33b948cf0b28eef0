//! Replays on several executors. The channels are those of docs/FORMATS.md.
ghost use Rattle.std.specs.Prelude.{◌<◌};

use crate::tests::world_tests::{memory_transport, one_channel, only, world_of};
use crate::tests::{
    ACTIVE_TAIL, Bursts, Kind, Kinds, OUT, PING, PING_CRLF, PING_TAIL, QUIT_TAIL, READ, SUCCESS,
    Seen, assert_drained, assert_each_same, assert_one, assert_ping, assert_pong, assert_sent,
    handler, only_channel, text,
};
use pl_build::{Groups, PipelineBuilder, Placed};
use pl_event::{Element, Outcome, Sequence};
use pl_head::{MemoryTransport, ReadPlan, Transport};
use pl_replay::{Net, replay_world};
use pl_stages::Handler;
use pl_world::{ChannelReport, Move, ReplayFault, Report, Stands, World, plain_world};
use std::alloc::Global;
use std::process::Abort;
use std::test::Fail;

/// These handlers, each in a group or in none, with names made of their places.
fn builder_of(alloc: Global, kinds: Kinds) -> Result<PipelineBuilder<Handler>, Fail> {
    let mut builder = PipelineBuilder::new(alloc);
    for (index, (kind, group)) in kinds.iter().enumerate() {
        let name = format!(in alloc; "h{index}")?;
        let stage = handler(alloc, *kind)?;
        builder.add_last(name.as_str(), *group, stage)?;
    }
    Ok(builder)
}

/// A pipeline of these handlers, each in a group or in none.
pub(crate) fn pipeline(
    alloc: Global,
    groups: &mut Groups,
    kinds: Kinds,
) -> Result<Placed<Handler>, Fail> {
    Ok(builder_of(alloc, kinds)?.build(groups)?)
}

/// The same with marks, in bytes.
pub(crate) fn marked_pipeline(
    alloc: Global,
    groups: &mut Groups,
    kinds: Kinds,
    low: u32,
    high: u32,
) -> Result<Placed<Handler>, Fail> {
    let mut builder = builder_of(alloc, kinds)?;
    builder.marks(low, high)?;
    Ok(builder.build(groups)?)
}

/// The groups of the decoder and of the service, where they have one.
pub(crate) type Placing<'a> = (Option<&'a str>, Option<&'a str>);

/// Both on the loop.
pub(crate) const TOGETHER: Placing = (None, None);

/// The decoder on an executor of its own.
pub(crate) const DECODER_APART: Placing = (Some("a"), None);

/// Each on an executor of its own.
pub(crate) const BOTH_APART: Placing = (Some("a"), Some("b"));

/// Each placing of the two over `GROUPS`.
pub(crate) const PLACINGS: [Placing; 4] = [TOGETHER, DECODER_APART, (None, Some("b")), BOTH_APART];

/// The handlers of the line protocol, so placed.
pub(crate) fn line_protocol(placing: Placing) -> [(Kind, Option<&str>); 5] {
    let (decode, service) = placing;
    [
        (Kind::Lines, None),
        (Kind::Decode, decode),
        (Kind::LineEnd, None),
        (Kind::Encode, None),
        (Kind::Service, service),
    ]
}

/// The groups of the decoder and of the service, each with one executor.
pub(crate) const GROUPS: [(&str, u16); 2] = [("a", 1), ("b", 1)];

pub(crate) fn bursts(alloc: Global, input: Bursts) -> Result<Sequence<Sequence<Element>>, Fail> {
    let mut bursts = Sequence::new(alloc);
    for chunks in input {
        let mut burst = Sequence::new(alloc);
        for chunk in chunks.iter() {
            burst.push(Element::Chunk(text(alloc, chunk)?))?;
        }
        bursts.push(burst)?;
    }
    Ok(bursts)
}

/// These bursts, and then the end.
pub(crate) fn to_its_end(alloc: Global, input: Bursts) -> Result<ReadPlan, Fail> {
    Ok(ReadPlan {
        bursts: bursts(alloc, input)?,
        abort_after: None,
    })
}

/// The line protocol, the decoder and the service each in a group of `GROUPS` or in none, and how many executors there
/// are.
pub(crate) fn placed(alloc: Global, placing: Placing) -> Result<(Placed<Handler>, u16), Fail> {
    let mut groups = Groups::new(alloc, 1, &GROUPS)?;
    let pipeline = pipeline(alloc, &mut groups, &line_protocol(placing))?;
    Ok((pipeline, groups.executors()))
}

/// A pipeline of each of these lists of handlers.
fn pipelines(
    alloc: Global,
    groups: &mut Groups,
    handlers: &[Kinds],
) -> Result<Sequence<Placed<Handler>>, Fail> {
    let mut pipelines = Sequence::new(alloc);
    for kinds in handlers {
        pipelines.push(pipeline(alloc, groups, kinds)?)?;
    }
    Ok(pipelines)
}

/// Each of these inputs, and then its end.
pub(crate) fn plans(alloc: Global, inputs: &[Bursts]) -> Result<Sequence<ReadPlan>, Fail> {
    let mut plans = Sequence::new(alloc);
    for input in inputs {
        plans.push(to_its_end(alloc, input)?)?;
    }
    Ok(plans)
}

/// A world of channels of these handlers, each with its input, on one loop, with groups of these sizes.
pub(crate) fn world(
    alloc: Global,
    sizes: &[(&str, u16)],
    handlers: &[Kinds],
    inputs: &[Bursts],
) -> Result<World<Handler, MemoryTransport>, Fail> {
    let mut groups = Groups::new(alloc, 1, sizes)?;
    let pipelines = pipelines(alloc, &mut groups, handlers)?;
    let plans = plans(alloc, inputs)?;
    Ok(world_of(alloc, pipelines, plans, groups.executors())?)
}

/// Ping, with the decoder on an executor of its own.
fn decoder_apart(alloc: Global) -> Result<World<Handler, MemoryTransport>, Fail> {
    let kinds = line_protocol(DECODER_APART);
    world(alloc, &[("a", 1)], &[&kinds], &[PING_CRLF])
}

/// One event is handed over to the decoder and back.
pub(crate) const THERE_AND_BACK: [Move; 4] = [
    Move::Hand(0),
    Move::Task(1),
    Move::Hand(1),
    Move::Task(0),
];

/// All three read steps, and each event of the decoder's there and back.
fn handed_over(alloc: Global) -> Result<Vec<Move>, Fail> {
    let mut moves = vec![in alloc; READ; 3]?;
    for _ in 0..4 {
        moves.extend_from_slice(&THERE_AND_BACK)?;
    }
    Ok(moves)
}

/// Makes a move, which is enabled or is not.
pub(crate) fn assert_move(
    rt: &impl Abort,
    net: &mut Net<Handler, MemoryTransport>,
    step: Move,
    is_enabled: bool,
) -> Result<(), Fail> {
    assert_eq!(rt; net.apply(step)?, is_enabled);
    Ok(())
}

/// Makes moves, each of them enabled.
pub(crate) fn assert_enabled(
    rt: &impl Abort,
    net: &mut Net<Handler, MemoryTransport>,
    moves: &[Move],
) -> Result<(), Fail> {
    for step in moves {
        assert_move(rt, net, *step, true)?;
    }
    Ok(())
}

/// The second item is not handed over while the first is in the queue.
fn assert_one_waits(rt: &impl Abort, net: &mut Net<Handler, MemoryTransport>) -> Result<(), Fail> {
    assert_enabled(rt, net, &[READ, READ, Move::Hand(0)])?;
    assert_move(rt, net, Move::Hand(0), false)?;
    assert_enabled(rt, net, &[Move::Task(1), Move::Hand(1), Move::Task(0)])
}

/// Asserts what the report of a net with one channel says.
pub(crate) fn assert_report<T: Transport>(
    rt: &impl Abort,
    net: &Net<Handler, T>,
    stands: Stands,
    tail: &[Seen],
    bytes: &[u8],
    writes: &[Option<Outcome>],
) -> Result<(), Fail> {
    let report = net.report()?;
    assert_one(rt, &report, stands, tail, bytes, writes);
    Ok(())
}

#[test]
fn full_queue_of_one(rt: HostRuntime) -> Result<(), Fail> {
    let mut net = Net::new(rt.alloc(), decoder_apart(rt.alloc())?, 1)?;
    assert_one_waits(&rt, &mut net)?;
    assert!(rt; !net.drained());
    assert_report(&rt, &net, Stands::Open, ACTIVE_TAIL, b"", &[])
}

/// The report of `decoder_apart`, where each queue holds one item.
fn replay_apart(alloc: Global, moves: &[Move]) -> Result<Report, Fail> {
    let world = decoder_apart(alloc)?;
    Ok(replay_world(alloc, world, 1, moves)?)
}

#[test]
fn handover_drained(rt: HostRuntime) -> Result<(), Fail> {
    let mut moves = handed_over(rt.alloc())?;
    moves.push(OUT)?;
    let report = replay_apart(rt.alloc(), moves.as_slice())?;
    assert_ping(&rt, &report);
    Ok(())
}

#[test]
fn handover_open(rt: HostRuntime) -> Result<(), Fail> {
    let moves = handed_over(rt.alloc())?;
    let report = replay_apart(rt.alloc(), moves.as_slice())?;
    assert_one(&rt, &report, Stands::Open, PING_TAIL, b"", &[None]);
    Ok(())
}

#[test]
fn no_such_executor(rt: HostRuntime) -> Result<(), Fail> {
    let world = decoder_apart(rt.alloc())?;
    match replay_world(rt.alloc(), world, 1, &[Move::Task(2)]) {
        Ok(_) => panic!(rt; "it is replayed"),
        Err(fault) => assert_eq!(rt; fault, ReplayFault::NoSuch),
    }
    Ok(())
}

/// Makes every move in turn until nothing is enabled, and answers whether all channels are drained then.
pub(crate) fn drain<T: Transport>(
    net: &mut Net<Handler, T>,
    channels: u16,
    executors: u16,
) -> Result<bool, Fail> {
    for _ in 0..10_000 {
        let mut has_moved = false;
        for channel in 0..channels {
            has_moved |= net.apply(Move::Read(channel))?;
            has_moved |= net.apply(Move::Out(channel))?;
        }
        for executor in 0..executors {
            has_moved |= net.apply(Move::Task(executor))?;
            has_moved |= net.apply(Move::Hand(executor))?;
        }
        if !has_moved {
            break;
        }
    }
    Ok(net.drained())
}

/// The report of a net that every move in turn leaves drained.
fn drained(
    rt: &impl Abort,
    mut net: Net<Handler, MemoryTransport>,
    channels: u16,
    executors: u16,
) -> Result<Report, Fail> {
    assert!(rt; drain(&mut net, channels, executors)?);
    Ok(net.report()?)
}

pub(crate) const TOTALS: &[u8] = b"ADD a 7\nADD b 1\nADD a 5\nGET a\n";

/// What is sent where that is served.
pub(crate) const TOTALS_SENT: &[u8] = b":7\r\n:1\r\n:12\r\n:12\r\n";

/// The decoder and the service each on an executor of their own.
fn totals_across_groups(alloc: Global) -> Result<World<Handler, MemoryTransport>, Fail> {
    let kinds = line_protocol(BOTH_APART);
    world(alloc, &GROUPS, &[&kinds], &[&[&[TOTALS]]])
}

#[test]
fn two_groups(rt: HostRuntime) -> Result<(), Fail> {
    let net = Net::new(rt.alloc(), totals_across_groups(rt.alloc())?, 1)?;
    let report = drained(&rt, net, 1, 3)?;
    let channel = only_channel(&rt, &report);
    assert_sent(&rt, channel, Stands::Drained, TOTALS_SENT, &[SUCCESS; 4]);
    Ok(())
}

/// The input of each of three channels: the second quits, and the third adds to totals.
const THREE_INPUTS: &[Bursts] = &[PING, &[&[b"PING\nQUIT\nPING\nPI"]], &[&[TOTALS]]];

/// Three channels, whose decoder and service share a group of two executors.
fn shared_group(alloc: Global) -> Result<World<Handler, MemoryTransport>, Fail> {
    let kinds = line_protocol((Some("g"), Some("g")));
    world(alloc, &[("g", 2)], &[kinds.as_slice(); 3], THREE_INPUTS)
}

#[test]
fn three_channels_share_a_group(rt: HostRuntime) -> Result<(), Fail> {
    let net = Net::new(rt.alloc(), shared_group(rt.alloc())?, 2)?;
    let report = drained(&rt, net, 3, 3)?;
    assert_eq!(rt; report.channels.len(), 3);
    let reports = report.channels.as_slice();
    assert_pong(&rt, &reports[0]);
    let quit_bytes = b"+PONG\r\n+BYE\r\n";
    assert_drained(&rt, &reports[1], QUIT_TAIL, quit_bytes, &[SUCCESS; 2]);
    assert_eq!(rt; reports[2].bytes.as_slice(), TOTALS_SENT);
    Ok(())
}

/// One channel of the line protocol, so placed, whose burst has a user event between two chunks.
fn told_between(alloc: Global, placing: Placing) -> Result<World<Handler, MemoryTransport>, Fail> {
    let mut burst = Sequence::new(alloc);
    burst.push(Element::Chunk(text(alloc, b"PING\n")?))?;
    burst.push(Element::User(7))?;
    burst.push(Element::Chunk(text(alloc, b"PING\n")?))?;
    let input = ReadPlan {
        bursts: only(alloc, burst)?,
        abort_after: None,
    };
    let (pipeline, executors) = placed(alloc, placing)?;
    let transport = memory_transport(alloc, 65_536, None);
    one_channel(alloc, pipeline, input, transport, executors)
}

/// In each placing a user event comes to the tail in its place among the reads.
#[test]
fn user_event(rt: HostRuntime) -> Result<(), Fail> {
    let tail = [
        Seen::Active,
        Seen::Ping,
        Seen::User(7),
        Seen::Ping,
        Seen::ReadComplete,
    ];
    for placing in PLACINGS {
        let net = Net::new(rt.alloc(), told_between(rt.alloc(), placing)?, 1)?;
        let report = drained(&rt, net, 1, 3)?;
        let channel = only_channel(&rt, &report);
        assert_drained(&rt, channel, &tail, b"+PONG\r\n+PONG\r\n", &[SUCCESS; 2]);
    }
    Ok(())
}

/// Whether a report begins another one.
pub(crate) fn begins(part: &ChannelReport, whole: &ChannelReport) -> bool {
    is_prefix(part.tail.as_slice(), whole.tail.as_slice())
        && is_prefix(part.bytes.as_slice(), whole.bytes.as_slice())
        && part.writes.len() <= whole.writes.len()
}

fn is_prefix<T: PartialEq>(part: &[T], whole: &[T]) -> bool {
    if part.len() > whole.len() {
        return false;
    }
    part == &whole[..part.len()]
}

/// The next of a series of numbers (the generator of Lehmer, with Park's and Miller's multiplier).
pub(crate) fn next_number(number: u64) -> u64
    requires { number < 2147483647 }
    ensures { result < 2147483647 }
{
    number * 48_271 % 2_147_483_647
}

/// A move by a number, of this many channels and executors.
pub(crate) fn move_by(number: u64, channels: u16, executors: u16) -> Move
    requires { (0 < channels) × (0 < executors) }
{
    let channel = (number / 4 % channels as u64) as u16;
    let executor = (number / 4 % executors as u64) as u16;
    match number % 4 {
        0 => Move::Read(channel),
        1 => Move::Task(executor),
        2 => Move::Hand(executor),
        _ => Move::Out(channel),
    }
}

/// A report begins the plain one.
fn assert_begins(rt: &impl Abort, report: &Report, whole: &[ChannelReport]) {
    for (part, whole) in report.channels.as_slice().iter().zip(whole) {
        assert!(rt; begins(part, whole));
    }
}

/// Each report of a random schedule begins the plain one, and drained it is the plain one.
fn assert_keeps<T: Transport>(
    rt: &impl Abort,
    net: &mut Net<Handler, T>,
    seed: u64,
    channels: u16,
    executors: u16,
    whole: &[ChannelReport],
) -> Result<(), Fail>
    requires seeded { seed < 2147483647 }
    requires some { (0 < channels) × (0 < executors) }
{
    let mut number = seed;
    for _ in 0..400 {
        number = next_number(number);
        net.apply(move_by(number, channels, executors))?;
        assert_begins(rt, &net.report()?, whole);
    }
    assert!(rt; drain(net, channels, executors)?);
    assert_each_same(rt, net.report()?.channels.as_slice(), whole);
    Ok(())
}

/// Each report of a random schedule begins the plain one, and where all channels are drained it is the plain one.
pub(crate) fn keeps_to_plain<T: Transport>(
    rt: &impl Abort,
    alloc: Global,
    seed: u64,
    world: World<Handler, T>,
    whole: &[ChannelReport],
) -> Result<(), Fail>
    requires { seed < 2147483647 }
{
    let channels = world.channels().len() as u16;
    let executors = world.executors();
    assert!(rt; 0 < channels);
    assert!(rt; 0 < executors);
    let mut net = Net::new(alloc, world, 1)?;
    assert_keeps(rt, &mut net, seed, channels, executors, whole)
}

/// The whole report of each channel of a world.
pub(crate) fn whole<T: Transport>(
    alloc: Global,
    world: World<Handler, T>,
) -> Result<Sequence<ChannelReport>, Fail> {
    Ok(plain_world(alloc, world)?.channels)
}

fn assert_shared_group_keeps(rt: &impl Abort, alloc: Global) -> Result<(), Fail> {
    let reports = whole(alloc, shared_group(alloc)?)?;
    for seed in 1..21 {
        keeps_to_plain(rt, alloc, seed, shared_group(alloc)?, reports.as_slice())?;
    }
    Ok(())
}

fn assert_totals_keep(rt: &impl Abort, alloc: Global) -> Result<(), Fail> {
    let reports = whole(alloc, totals_across_groups(alloc)?)?;
    for seed in 21..41 {
        let world = totals_across_groups(alloc)?;
        keeps_to_plain(rt, alloc, seed, world, reports.as_slice())?;
    }
    Ok(())
}

#[test]
fn random_schedules(rt: HostRuntime) -> Result<(), Fail> {
    assert_shared_group_keeps(&rt, rt.alloc())?;
    assert_totals_keep(&rt, rt.alloc())
}
