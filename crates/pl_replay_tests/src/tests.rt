//! Sessions made in code. The channels of the worked examples are those of docs/FORMATS.md.
ghost use Rattle.std.specs.Prelude.{[], IfOk};

mod failure_tests;
mod fair_tests;
mod load_tests;
mod net_tests;
mod placing_tests;
mod trickle_tests;
mod user_stage_tests;
mod world_tests;
mod writability_tests;

use crate::tests::net_tests::{TOGETHER, TOTALS, TOTALS_SENT, line_protocol, world};
use pl_event::{ByteString, Command, Event, Message, Outcome, Reply, Stage};
use pl_replay::replay;
use pl_stages::{
    CommandDecoder, FlushEvery, Handler, LineEnd, LineFramer, LineService, ReplyEncoder,
};
use pl_world::{ChannelReport, Move, ReplayFault, Report, Session, Stands, plain};
use std::alloc::{AllocError, Global};
use std::fmt::Display;
use std::process::Abort;
use std::test::Fail;

pub(crate) const SUCCESS: Option<Outcome> = Some(Outcome::Success);

pub(crate) const FAULT: Option<Outcome> = Some(Outcome::Fault);

pub(crate) const CLOSED: Option<Outcome> = Some(Outcome::Closed);

#[derive(Clone, Copy)]
pub(crate) enum Kind {
    Lines,
    Decode,
    LineEnd,
    Encode,
    FlushEvery,
    Service,
}

/// Handlers, in order, each in a group or in none.
pub(crate) type Kinds<'a> = &'a [(Kind, Option<&'a str>)];

/// The chunks of each burst that a channel reads.
pub(crate) type Bursts<'a> = &'a [&'a [&'a [u8]]];

/// The handlers of the line protocol, with the encoder behind the turn.
const ENCODER_BEHIND: Kinds = &[
    (Kind::Lines, None),
    (Kind::Decode, None),
    (Kind::LineEnd, None),
    (Kind::Service, None),
    (Kind::Encode, None),
];

/// The line protocol where each second flush passes.
pub(crate) const FLUSH_EVERY: Kinds = &[
    (Kind::FlushEvery, None),
    (Kind::Lines, None),
    (Kind::Decode, None),
    (Kind::LineEnd, None),
    (Kind::Encode, None),
    (Kind::Service, None),
];

/// One burst of one chunk.
pub(crate) const PING: Bursts = &[&[b"PING\n"]];

/// The same with both bytes of a line end.
pub(crate) const PING_CRLF: Bursts = &[&[b"PING\r\n"]];

/// An event that reaches a tail, as a table says it.
#[derive(Clone, Copy, Debug)]
pub(crate) enum Seen {
    Active,
    Line(&'static [u8]),
    Ping,
    Quit,
    Echo(&'static [u8]),
    Total(u64),
    User(u32),
    ReadComplete,
}

impl Seen {
    fn is(self, event: &Event) -> bool {
        match (self, event) {
            (Seen::Active, Event::Active) | (Seen::ReadComplete, Event::ReadComplete) => true,
            (Seen::User(want), Event::User(number)) => *number == want,
            (_, Event::Read(message)) => self.is_of(message),
            _ => false,
        }
    }

    /// Whether it is that this message is read.
    fn is_of(self, message: &Message) -> bool {
        match (self, message) {
            (Seen::Line(bytes), Message::Line(line)) => line.as_slice() == bytes,
            (Seen::Ping, Message::Command(Command::Ping)) => true,
            (Seen::Quit, Message::Command(Command::Quit)) => true,
            (Seen::Echo(bytes), Message::Command(Command::Echo(text))) => text.as_slice() == bytes,
            (Seen::Total(want), Message::Reply(Reply::Total(total))) => *total == want,
            _ => false,
        }
    }
}

/// What reaches the tail where nothing is read.
pub(crate) const ACTIVE_TAIL: &[Seen] = &[Seen::Active];

/// What reaches the tail where `PING` is served.
pub(crate) const PING_TAIL: &[Seen] = &[Seen::Active, Seen::Ping, Seen::ReadComplete];

/// What reaches the tail where a client says `PING` and quits.
pub(crate) const QUIT_TAIL: &[Seen] = &[Seen::Active, Seen::Ping, Seen::Quit];

/// The first channel's next read step, and a write to its transport.
pub(crate) const READ: Move = Move::Read(0);

pub(crate) const OUT: Move = Move::Out(0);

pub(crate) fn handler(alloc: Global, kind: Kind) -> Result<Handler, Fail>
    ensures { IfOk result (λ handler. ⟦<Handler as Stage>⟧.stands_after handler []) }
{
    match kind {
        Kind::Lines => {
            let framer = LineFramer::new(alloc, 64)?;
            Ok(Handler::Lines(framer))
        }
        Kind::Decode => Ok(Handler::Decode(CommandDecoder::new())),
        Kind::LineEnd => Ok(Handler::LineEnd(LineEnd::new())),
        Kind::Encode => Ok(Handler::Encode(ReplyEncoder::new())),
        Kind::FlushEvery => {
            let flushing = FlushEvery::new(2)?;
            Ok(Handler::FlushEvery(flushing))
        }
        Kind::Service => Ok(Handler::Service(LineService::new(alloc))),
    }
}

pub(crate) fn text(alloc: Global, bytes: &[u8]) -> Result<ByteString, AllocError> {
    ByteString::from_slice(alloc, bytes)
}

/// A session of channels of these handlers, each with its input, on one loop, with groups of these sizes.
fn session(
    alloc: Global,
    sizes: &[(&str, u16)],
    handlers: &[Kinds],
    inputs: &[Bursts],
) -> Result<Session, Fail> {
    let world = world(alloc, sizes, handlers, inputs)?;
    Ok(Session { world, capacity: 4 })
}

/// The report of channels on one loop.
fn replay_all(
    alloc: Global,
    handlers: &[Kinds],
    inputs: &[Bursts],
    moves: &[Move],
) -> Result<Report, Fail> {
    let session = session(alloc, &[], handlers, inputs)?;
    Ok(replay(alloc, session, moves)?)
}

/// The report of one channel on one loop.
fn replay_one(alloc: Global, kinds: Kinds, bursts: Bursts, moves: &[Move]) -> Result<Report, Fail> {
    let session = session(alloc, &[], &[kinds], &[bursts])?;
    Ok(replay(alloc, session, moves)?)
}

/// The whole report of channels on one loop.
fn plain_all(alloc: Global, handlers: &[Kinds], inputs: &[Bursts]) -> Result<Report, Fail> {
    let session = session(alloc, &[], handlers, inputs)?;
    Ok(plain(alloc, session)?)
}

/// The whole report of one channel on one loop.
fn plain_one(alloc: Global, kinds: Kinds, bursts: Bursts) -> Result<Report, Fail> {
    let session = session(alloc, &[], &[kinds], &[bursts])?;
    Ok(plain(alloc, session)?)
}

pub(crate) fn assert_channel(
    rt: &impl Abort,
    report: &ChannelReport,
    stands: Stands,
    tail: &[Seen],
    bytes: &[u8],
    writes: &[Option<Outcome>],
) {
    assert_tail(rt, report.tail.as_slice(), tail);
    assert_sent(rt, report, stands, bytes, writes);
}

fn assert_tail(rt: &impl Abort, tail: &[Event], want: &[Seen]) {
    assert_eq!(rt; tail.len(), want.len());
    for (event, seen) in tail.iter().zip(want) {
        assert!(rt; seen.is(event), "{event:?} is not {seen:?}");
    }
}

/// Asserts how a channel stands, with these bytes and these writes.
pub(crate) fn assert_sent(
    rt: &impl Abort,
    report: &ChannelReport,
    stands: Stands,
    bytes: &[u8],
    writes: &[Option<Outcome>],
) {
    assert_eq!(rt; report.stands, stands);
    assert_eq!(rt; report.bytes.as_slice(), bytes);
    assert_eq!(rt; report.writes.as_slice(), writes);
}

/// Asserts that two reports of a channel are the same.
fn assert_same(rt: &impl Abort, report: &ChannelReport, want: &ChannelReport) {
    assert_eq!(rt; report.tail.as_slice(), want.tail.as_slice());
    let writes = want.writes.as_slice();
    assert_sent(rt, report, want.stands, want.bytes.as_slice(), writes);
}

/// Asserts that channels are drained, each with the same report.
pub(crate) fn assert_each_same(
    rt: &impl Abort,
    reports: &[ChannelReport],
    wants: &[ChannelReport],
) {
    assert_eq!(rt; reports.len(), wants.len());
    for (report, want) in reports.iter().zip(wants) {
        assert_eq!(rt; report.stands, Stands::Drained);
        assert_same(rt, report, want);
    }
}

/// Asserts that a channel is drained, with this tail, these bytes and these writes.
pub(crate) fn assert_drained(
    rt: &impl Abort,
    report: &ChannelReport,
    tail: &[Seen],
    bytes: &[u8],
    writes: &[Option<Outcome>],
) {
    assert_channel(rt, report, Stands::Drained, tail, bytes, writes);
}

/// Asserts that `PING` was served by a channel, and its reply written.
pub(crate) fn assert_pong(rt: &impl Abort, report: &ChannelReport) {
    assert_drained(rt, report, PING_TAIL, b"+PONG\r\n", &[SUCCESS]);
}

pub(crate) fn assert_one(
    rt: &impl Abort,
    report: &Report,
    stands: Stands,
    tail: &[Seen],
    bytes: &[u8],
    writes: &[Option<Outcome>],
) {
    assert_channel(rt, only_channel(rt, report), stands, tail, bytes, writes);
}

/// The only channel of a report.
pub(crate) fn only_channel<'a>(rt: &impl Abort, report: &'a Report) -> &'a ChannelReport {
    assert_eq!(rt; report.channels.len(), 1);
    &report.channels.as_slice()[0]
}

/// Asserts that `PING` was served by the only channel, and its reply written.
pub(crate) fn assert_ping(rt: &impl Abort, report: &Report) {
    assert_pong(rt, only_channel(rt, report));
}

/// Asserts that a value is told so.
pub(crate) fn assert_named(
    rt: &impl Abort,
    alloc: Global,
    value: &impl Display,
    name: &str,
) -> Result<(), Fail> {
    let told = format!(in alloc; "{value}")?;
    assert_eq!(rt; told.as_str(), name);
    Ok(())
}

#[test]
fn no_bursts(rt: HostRuntime) -> Result<(), Fail> {
    let moves = [READ, READ];
    let report = replay_one(rt.alloc(), &line_protocol(TOGETHER), &[], &moves)?;
    assert_one(&rt, &report, Stands::Drained, ACTIVE_TAIL, b"", &[]);
    Ok(())
}

#[test]
fn ping(rt: HostRuntime) -> Result<(), Fail> {
    let moves = [READ, READ, READ, OUT];
    let report = replay_one(rt.alloc(), &line_protocol(TOGETHER), PING_CRLF, &moves)?;
    assert_ping(&rt, &report);
    Ok(())
}

#[test]
fn out_before_read(rt: HostRuntime) -> Result<(), Fail> {
    let moves = [OUT, READ, READ];
    let report = replay_one(rt.alloc(), &line_protocol(TOGETHER), PING_CRLF, &moves)?;
    assert_one(&rt, &report, Stands::Open, PING_TAIL, b"", &[None]);
    Ok(())
}

#[test]
fn encoder_behind_turn(rt: HostRuntime) -> Result<(), Fail> {
    let moves = [READ, READ, READ, OUT];
    let report = replay_one(rt.alloc(), ENCODER_BEHIND, PING, &moves)?;
    let writes = [Some(Outcome::Unsupported)];
    assert_one(&rt, &report, Stands::Drained, PING_TAIL, b"", &writes);
    Ok(())
}

/// A handler after the turn makes of each event what the tail records.
#[test]
fn framer_behind_turn(rt: HostRuntime) -> Result<(), Fail> {
    let kinds = [
        (Kind::Decode, None),
        (Kind::Service, None),
        (Kind::Lines, None),
    ];
    let moves = [READ, READ, READ];
    let report = replay_one(rt.alloc(), &kinds, PING, &moves)?;
    let tail = [Seen::Active, Seen::Line(b"PING"), Seen::ReadComplete];
    assert_one(&rt, &report, Stands::Drained, &tail, b"", &[]);
    Ok(())
}

/// Replays two channels with different handlers, and asserts that the first has served `PING` and how the second, which
/// ends no line, stands.
fn assert_two(
    rt: &impl Abort,
    alloc: Global,
    moves: &[Move],
    stands: Stands,
    tail: &[Seen],
    bytes: &[u8],
    writes: &[Option<Outcome>],
) -> Result<(), Fail> {
    let kinds = [
        (Kind::Lines, None),
        (Kind::Decode, None),
        (Kind::Encode, None),
        (Kind::Service, None),
    ];
    let echo: Bursts = &[&[b"ECHO a\n"]];
    let protocol = line_protocol(TOGETHER);
    let handlers = [protocol.as_slice(), kinds.as_slice()];
    let report = replay_all(alloc, &handlers, &[PING, echo], moves)?;
    assert_eq!(rt; report.channels.len(), 2);
    let reports = report.channels.as_slice();
    assert_pong(rt, &reports[0]);
    assert_channel(rt, &reports[1], stands, tail, bytes, writes);
    Ok(())
}

#[test]
fn two_channels(rt: HostRuntime) -> Result<(), Fail> {
    let alloc = rt.alloc();
    let interleaved = [
        Move::Read(1),
        READ,
        Move::Read(1),
        Move::Out(1),
        READ,
        Move::Task(0),
        OUT,
        Move::Read(1),
        READ,
        Move::Out(1),
    ];
    let tail = [Seen::Active, Seen::Echo(b"a"), Seen::ReadComplete];
    assert_two(
        &rt,
        alloc,
        &interleaved,
        Stands::Drained,
        &tail,
        b"+a",
        &[SUCCESS],
    )?;
    let first_alone = [READ, READ, READ, OUT];
    assert_two(&rt, alloc, &first_alone, Stands::Open, &[], b"", &[])
}

/// Asserts what a replay of a move says, where a group has two executors and the channel is on its loop.
fn assert_told_of(
    rt: &impl Abort,
    alloc: Global,
    step: Move,
    want: Option<ReplayFault>,
) -> Result<(), Fail> {
    let kinds = line_protocol(TOGETHER);
    let session = session(alloc, &[("g", 2)], &[&kinds], &[&[]])?;
    match replay(alloc, session, &[READ, step]) {
        Ok(report) => {
            assert_eq!(rt; want, None);
            assert_one(rt, &report, Stands::Open, ACTIVE_TAIL, b"", &[]);
        }
        Err(fault) => assert_eq!(rt; want, Some(fault)),
    }
    Ok(())
}

/// The executors of a group that no handler uses are there, and have nothing to do.
#[test]
fn no_such(rt: HostRuntime) -> Result<(), Fail> {
    let no_such = Some(ReplayFault::NoSuch);
    for (step, want) in [
        (Move::Task(2), None),
        (Move::Hand(2), None),
        (Move::Task(3), no_such),
        (Move::Hand(3), no_such),
        (Move::Read(1), no_such),
        (Move::Out(1), no_such),
    ] {
        assert_told_of(&rt, rt.alloc(), step, want)?;
    }
    assert_named(&rt, rt.alloc(), &ReplayFault::NoSuch, "1 NoSuch")?;
    assert_named(&rt, rt.alloc(), &ReplayFault::Memory, "2 Memory")
}

#[test]
fn no_channels(rt: HostRuntime) -> Result<(), Fail> {
    let alloc = rt.alloc();
    let report = replay_all(alloc, &[], &[], &[])?;
    assert_eq!(rt; report.channels.len(), 0);
    match replay(alloc, session(alloc, &[], &[], &[])?, &[READ]) {
        Ok(_) => panic!(rt; "it is replayed"),
        Err(fault) => assert_eq!(rt; fault, ReplayFault::NoSuch),
    }
    Ok(())
}

#[test]
fn plain_no_bursts(rt: HostRuntime) -> Result<(), Fail> {
    let report = plain_one(rt.alloc(), &line_protocol(TOGETHER), &[])?;
    assert_one(&rt, &report, Stands::Drained, ACTIVE_TAIL, b"", &[]);
    Ok(())
}

#[test]
fn plain_ping(rt: HostRuntime) -> Result<(), Fail> {
    let report = plain_one(rt.alloc(), &line_protocol(TOGETHER), PING_CRLF)?;
    assert_ping(&rt, &report);
    Ok(())
}

/// More than one write leaves.
#[test]
fn plain_totals(rt: HostRuntime) -> Result<(), Fail> {
    let report = plain_one(rt.alloc(), &line_protocol(TOGETHER), &[&[TOTALS]])?;
    let channel = only_channel(&rt, &report);
    assert_eq!(rt; channel.tail.len(), 6);
    assert_sent(&rt, channel, Stands::Drained, TOTALS_SENT, &[SUCCESS; 4]);
    Ok(())
}

#[test]
fn plain_quit(rt: HostRuntime) -> Result<(), Fail> {
    let report = plain_one(
        rt.alloc(),
        &line_protocol(TOGETHER),
        &[&[b"PING\nQUIT\nPING\nPI"]],
    )?;
    let channel = only_channel(&rt, &report);
    assert_drained(&rt, channel, QUIT_TAIL, b"+PONG\r\n+BYE\r\n", &[SUCCESS; 2]);
    Ok(())
}

#[test]
fn plain_encoder_behind_turn(rt: HostRuntime) -> Result<(), Fail> {
    let report = plain_one(rt.alloc(), ENCODER_BEHIND, PING)?;
    let writes = [Some(Outcome::Unsupported)];
    assert_one(&rt, &report, Stands::Drained, PING_TAIL, b"", &writes);
    Ok(())
}

#[test]
fn plain_flush_never_comes(rt: HostRuntime) -> Result<(), Fail> {
    let report = plain_one(rt.alloc(), FLUSH_EVERY, PING)?;
    let writes = [CLOSED];
    assert_one(&rt, &report, Stands::Drained, PING_TAIL, b"", &writes);
    Ok(())
}

/// Each channel's report stands at its place.
#[test]
fn plain_two_channels(rt: HostRuntime) -> Result<(), Fail> {
    let kinds = line_protocol(TOGETHER);
    let report = plain_all(rt.alloc(), &[&kinds, &kinds], &[&[], PING])?;
    assert_eq!(rt; report.channels.len(), 2);
    let reports = report.channels.as_slice();
    assert_drained(&rt, &reports[0], ACTIVE_TAIL, b"", &[]);
    assert_pong(&rt, &reports[1]);
    Ok(())
}

#[test]
fn plain_no_channels(rt: HostRuntime) -> Result<(), Fail> {
    let report = plain_all(rt.alloc(), &[], &[])?;
    assert_eq!(rt; report.channels.len(), 0);
    Ok(())
}
