//! All of it in one pipeline: own handlers between built-in ones, on two executors, over an own transport.

use crate::{Halves, OddLines, UpperCase};
use pl_build::{Groups, PipelineBuilder, Placed};
use pl_event::{
    ByteString, Command, Either, Element, Event, Fused, MapUp, Message, Sequence, Stage,
};
use pl_head::{ReadPlan, Transport};
use pl_replay::replay_world;
use pl_stages::{CommandDecoder, Handler, LineEnd, LineFramer, LineService, ReplyEncoder};
use pl_world::{ChannelReport, Move, Report, Stands, World, plain_world};
use std::alloc::{AllocError, Global};
use std::process::Abort;
use std::test::Fail;

/// A built-in handler, or one of the two of this crate.
type Any = Either<Handler, Either<MapUp<UpperCase>, Fused<OddLines>>>;

/// The line protocol, of which every second line is dropped and the others are put in upper case. The two handlers that
/// do this run on the executor of the group `own`.
fn pipeline(alloc: Global, groups: &mut Groups) -> Result<Placed<Any>, Fail> {
    let lines = LineFramer::new(alloc, 64)?;
    let odd_lines = OddLines::new();
    let upper_case = MapUp::new(UpperCase);
    let mut builder = PipelineBuilder::new(alloc);
    builder.add_last("lines", None, Either::Left(Handler::Lines(lines)))?;
    builder.add_last("odd", Some("own"), Either::Right(Either::Right(odd_lines)))?;
    builder.add_last(
        "upper",
        Some("own"),
        Either::Right(Either::Left(upper_case)),
    )?;
    builder.add_last(
        "decode",
        None,
        Either::Left(Handler::Decode(CommandDecoder::new())),
    )?;
    builder.add_last(
        "lineend",
        None,
        Either::Left(Handler::LineEnd(LineEnd::new())),
    )?;
    builder.add_last(
        "encode",
        None,
        Either::Left(Handler::Encode(ReplyEncoder::new())),
    )?;
    builder.add_last(
        "service",
        None,
        Either::Left(Handler::Service(LineService::new(alloc))),
    )?;
    Ok(builder.build(groups)?)
}

/// One element of a burst, as a table says it.
#[derive(Clone, Copy)]
enum Came {
    Chunk(&'static [u8]),
    User(u32),
}

impl Came {
    fn element(self, alloc: Global) -> Result<Element, AllocError> {
        match self {
            Came::Chunk(chunk) => Ok(Element::Chunk(ByteString::from_slice(alloc, chunk)?)),
            Came::User(number) => Ok(Element::User(number)),
        }
    }
}

/// Recorded bursts of one channel, each of chunks and user events.
fn bursts(alloc: Global, input: &[&[Came]]) -> Result<Sequence<Sequence<Element>>, Fail> {
    let mut bursts = Sequence::new(alloc);
    for elements in input {
        let mut burst = Sequence::new(alloc);
        for came in elements.iter() {
            burst.push(came.element(alloc)?)?;
        }
        bursts.push(burst)?;
    }
    Ok(bursts)
}

/// A world of one channel that gets these bursts, on two executors: the loop, and that of the group `own`.
fn world(alloc: Global, input: &[&[Came]]) -> Result<World<Any, Halves>, Fail> {
    let mut groups = Groups::new(alloc, 1, &[("own", 1)])?;
    let mut pipelines = Sequence::new(alloc);
    pipelines.push(pipeline(alloc, &mut groups)?)?;
    let mut inputs = Sequence::new(alloc);
    inputs.push(ReadPlan {
        bursts: bursts(alloc, input)?,
        abort_after: None,
    })?;
    let mut transports = Sequence::new(alloc);
    transports.push(Halves::new(alloc))?;
    Ok(World::of_thrifty(alloc, pipelines, inputs, transports, groups.executors())?)
}

/// Two bursts. Their lines are `ping`, `ping`, `echo b`, `quit` and `ping`, cut in several places, and a user event comes
/// in the midst of the second.
const INPUT: &[&[Came]] = &[
    &[
        Came::Chunk(b"ping\r\npi"),
        Came::User(7),
        Came::Chunk(b"ng\r\necho b\r"),
    ],
    &[Came::Chunk(b"\nquit\r\nping\r\n")],
];

/// Every move there is, a given number of times. Those that are not enabled are passed over.
fn rounds(alloc: Global, count: u16) -> Result<Vec<Move>, AllocError> {
    let mut moves = Vec::new(alloc);
    for _ in 0..count {
        // Into the handlers of `own`, and what they make back to the loop and out.
        moves.extend_from_slice(&[Move::Read(0), Move::Hand(0), Move::Task(1)])?;
        moves.extend_from_slice(&[Move::Hand(1), Move::Task(0), Move::Out(0)])?;
    }
    Ok(moves)
}

fn read(command: Command) -> Event {
    Event::Read(Message::Command(command))
}

/// The report of the world's one channel.
fn only_channel<'a>(rt: &impl Abort, report: &'a Report) -> &'a ChannelReport {
    assert_eq!(rt; report.channels.len(), 1);
    &report.channels.as_slice()[0]
}

fn assert_channel(
    rt: &impl Abort,
    channel: &ChannelReport,
    stands: Stands,
    tail: &[Event],
    bytes: &[u8],
) {
    assert_eq!(rt; channel.stands, stands);
    assert_eq!(rt; channel.tail.as_slice(), tail);
    assert_eq!(rt; channel.bytes.as_slice(), bytes);
}

/// The first, third and fifth line, in upper case, and what the service replies. The user event is passed on, in its place.
#[test]
fn odd_lines_in_upper_case(rt: HostRuntime) -> Result<(), Fail> {
    let alloc = rt.alloc();
    let report = plain_world(alloc, world(alloc, INPUT)?)?;
    let echo = Command::Echo(ByteString::from_slice(alloc, b"B")?);
    let tail = [
        Event::Active,
        read(Command::Ping),
        Event::User(7),
        Event::ReadComplete,
        read(echo),
        read(Command::Ping),
        Event::ReadComplete,
    ];
    assert_channel(
        &rt,
        only_channel(&rt, &report),
        Stands::Drained,
        &tail,
        b"+PONG\r\n+B\r\n+PONG\r\n",
    );
    Ok(())
}

/// Whatever of a schedule has been made, tail and bytes begin those of the whole report; and once it has drained the
/// channel, they are all of it.
#[test]
fn every_schedule_begins_the_whole_report(rt: HostRuntime) -> Result<(), Fail> {
    let alloc = rt.alloc();
    let report = plain_world(alloc, world(alloc, INPUT)?)?;
    let whole = only_channel(&rt, &report);
    let mut some_open = false;
    let mut some_drained = false;
    for count in 0..30 {
        let moves = rounds(alloc, count)?;
        let report = replay_world(alloc, world(alloc, INPUT)?, 1, moves.as_slice())?;
        let channel = only_channel(&rt, &report);
        assert!(rt; whole.tail.as_slice().starts_with(channel.tail.as_slice()));
        assert!(rt; whole.bytes.as_slice().starts_with(channel.bytes.as_slice()));
        if channel.stands == Stands::Drained {
            assert_channel(
                &rt,
                channel,
                whole.stands,
                whole.tail.as_slice(),
                whole.bytes.as_slice(),
            );
            assert_eq!(rt; channel.writes.as_slice(), whole.writes.as_slice());
            some_drained = true;
        } else {
            some_open = true;
        }
    }
    assert!(rt; some_open && some_drained);
    Ok(())
}

/// A handler by itself: a step takes one event, and adds what it makes of it.
#[test]
fn one_step(rt: HostRuntime) -> Result<(), Fail> {
    let alloc = rt.alloc();
    let mut stage = MapUp::new(UpperCase);
    let mut up = Vec::new(alloc);
    let mut down = Vec::new(alloc);
    let line = ByteString::from_slice(alloc, b"Echo a-z")?;
    stage.step(Event::Read(Message::Line(line)), &mut up, &mut down)?;
    let upper = ByteString::from_slice(alloc, b"ECHO A-Z")?;
    assert_eq!(rt;
        up.as_slice(),
        [Event::Read(Message::Line(upper))].as_slice()
    );
    assert_eq!(rt; down.len(), 0);
    Ok(())
}

/// A transport by itself: seven bytes leave in three calls.
#[test]
fn halves(rt: HostRuntime) -> Result<(), Fail> {
    let mut transport = Halves::new(rt.alloc());
    let mut rest = b"+PONG\r\n".as_slice();
    for count in [4, 2, 1, 0] {
        assert_eq!(rt; transport.write(rest)?, count);
        rest = &rest[count.min(rest.len())..];
    }
    assert_eq!(rt; transport.bytes(), b"+PONG\r\n".as_slice());
    Ok(())
}
