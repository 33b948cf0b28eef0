//! Transports that were told to fail, and aborts. The worked examples are those of docs/FORMATS.md.
ghost use Rattle.std.specs.Prelude.{◌<◌};

use crate::tests::net_tests::{
    PLACINGS, Placing, TOGETHER, begins, bursts, drain, move_by, next_number, placed, whole,
};
use crate::tests::world_tests::{memory_transport, one_channel};
use crate::tests::{
    Bursts, CLOSED, FAULT, OUT, PING_TAIL, QUIT_TAIL, READ, SUCCESS, Seen, assert_one, only_channel,
};
use pl_event::{Cause, Outcome};
use pl_head::{MemoryTransport, ReadPlan};
use pl_replay::{Net, replay_world};
use pl_stages::Handler;
use pl_world::{ChannelReport, Move, Report, Stands, World};
use std::alloc::Global;
use std::process::Abort;
use std::test::Fail;

/// What ends a channel, if anything does.
#[derive(Clone, Copy, Debug)]
enum Ending {
    /// Its transport fails at this call, counted from 1.
    Call(u32),
    /// It is aborted after this many bursts.
    Abort(u32),
}

impl Ending {
    fn fail_at(self) -> Option<u32> {
        match self {
            Ending::Call(call) => Some(call),
            Ending::Abort(_) => None,
        }
    }

    fn abort_after(self) -> Option<u32> {
        match self {
            Ending::Call(_) => None,
            Ending::Abort(count) => Some(count),
        }
    }

    /// How the channel stands then.
    fn stands(self) -> Stands {
        match self {
            Ending::Call(_) => Stands::Failed(Cause::Transport),
            Ending::Abort(_) => Stands::Failed(Cause::Aborted),
        }
    }

    /// How a write ends then whose bytes had not all left.
    fn outcome(self) -> Option<Outcome> {
        match self {
            Ending::Call(_) => FAULT,
            Ending::Abort(_) => CLOSED,
        }
    }
}

/// One channel of the line protocol that reads these bursts: the decoder and the service each in a group or in none,
/// over a window of a given number of bytes.
fn world(
    alloc: Global,
    placing: Placing,
    window: u32,
    input: Bursts,
    ending: Ending,
) -> Result<World<Handler, MemoryTransport>, Fail> {
    let (pipeline, executors) = placed(alloc, placing)?;
    let input = ReadPlan {
        bursts: bursts(alloc, input)?,
        abort_after: ending.abort_after(),
    };
    let transport = memory_transport(alloc, window, ending.fail_at());
    one_channel(alloc, pipeline, input, transport, executors)
}

/// The report of one channel on one loop.
fn replayed(
    alloc: Global,
    window: u32,
    input: Bursts,
    ending: Ending,
    moves: &[Move],
) -> Result<Report, Fail> {
    let world = world(alloc, TOGETHER, window, input, ending)?;
    Ok(replay_world(alloc, world, 4, moves)?)
}

const WIDE: u32 = 65_536;

#[test]
fn transport_fault(rt: HostRuntime) -> Result<(), Fail> {
    let moves = [READ, READ, OUT, OUT, READ];
    let ending = Ending::Call(2);
    let report = replayed(rt.alloc(), 4, &[&[b"PING\n"]], ending, &moves)?;
    let stands = ending.stands();
    assert_one(&rt, &report, stands, PING_TAIL, b"+PON", &[FAULT]);
    Ok(())
}

#[test]
fn fault_at_each_call(rt: HostRuntime) -> Result<(), Fail> {
    let input: Bursts = &[&[b"PING\nQUIT\nPING\nPI"]];
    let moves = [READ, READ, OUT, OUT, OUT, OUT, READ];
    let failed = Stands::Failed(Cause::Transport);
    for (call, stands, bytes, writes) in [
        (1, failed, b"".as_slice(), [FAULT, FAULT]),
        (2, failed, b"+PON".as_slice(), [FAULT, FAULT]),
        (3, failed, b"+PONG\r\n".as_slice(), [SUCCESS, FAULT]),
        (4, failed, b"+PONG\r\n+BYE".as_slice(), [SUCCESS, FAULT]),
        (
            5,
            Stands::Drained,
            b"+PONG\r\n+BYE\r\n".as_slice(),
            [SUCCESS, SUCCESS],
        ),
    ] {
        let report = replayed(rt.alloc(), 4, input, Ending::Call(call), &moves)?;
        assert_one(&rt, &report, stands, QUIT_TAIL, bytes, &writes);
    }
    Ok(())
}

/// The abort comes before the reply has left, and after it.
#[test]
fn abort(rt: HostRuntime) -> Result<(), Fail> {
    let input: Bursts = &[&[b"PING\r\n"]];
    let ending = Ending::Abort(1);
    let aborted = ending.stands();
    let report = replayed(rt.alloc(), WIDE, input, ending, &[READ, READ, READ])?;
    assert_one(&rt, &report, aborted, PING_TAIL, b"", &[CLOSED]);
    let report = replayed(rt.alloc(), WIDE, input, ending, &[READ, READ, OUT, READ])?;
    assert_one(&rt, &report, aborted, PING_TAIL, b"+PONG\r\n", &[SUCCESS]);
    Ok(())
}

#[test]
fn abort_at_each_burst(rt: HostRuntime) -> Result<(), Fail> {
    let input: Bursts = &[&[b"PI"], &[b"NG\n"]];
    let tail = [
        Seen::Active,
        Seen::ReadComplete,
        Seen::Ping,
        Seen::ReadComplete,
    ];
    let moves = [READ, READ, READ, READ, OUT];
    for (count, tail, writes) in [
        (0, &tail[..1], [].as_slice()),
        (1, &tail[..2], [].as_slice()),
        (2, &tail[..4], [CLOSED].as_slice()),
    ] {
        let ending = Ending::Abort(count);
        let report = replayed(rt.alloc(), WIDE, input, ending, &moves)?;
        assert_one(&rt, &report, ending.stands(), tail, b"", writes);
    }
    Ok(())
}

/// Three bursts, of which the second brings no line.
const INPUT: Bursts = &[
    &[b"ADD k 5\r\nGET k\r\nPI"],
    &[b"N"],
    &[b"G\r\nECHO x\r\n", b"PING\r\n"],
];

/// How long each reply to it is: `:5`, `:5`, `+PONG`, `+x` and `+PONG`, each with its line end.
const LENGTHS: [usize; 5] = [4, 4, 7, 4, 7];

/// Each call of the transport, and how many bytes have left before it, by threes and reply by reply.
const CALLS: [(u32, usize); 12] = [
    (1, 0),
    (2, 3),
    (3, 4),
    (4, 7),
    (5, 8),
    (6, 11),
    (7, 14),
    (8, 15),
    (9, 18),
    (10, 19),
    (11, 22),
    (12, 25),
];

/// A write whose last byte has left is a success, and each other one was settled by what ended the channel.
fn assert_settled(rt: &impl Abort, channel: &ChannelReport, ending: Ending) {
    let mut end = 0usize;
    for (outcome, length) in channel.writes.as_slice().iter().zip(&LENGTHS) {
        end = end.saturating_add(*length);
        let has_left = end <= channel.bytes.len();
        let want = if has_left { SUCCESS } else { ending.outcome() };
        assert_eq!(rt; *outcome, want);
    }
}

/// The report begins the whole one, the channel is not drained, and where it has failed it is by its ending. It answers
/// whether it has.
fn assert_goes_on(
    rt: &impl Abort,
    report: &Report,
    whole: &[ChannelReport],
    ending: Ending,
) -> bool {
    let mut has_failed = false;
    for (part, whole) in report.channels.as_slice().iter().zip(whole) {
        assert!(rt; begins(part, whole));
        has_failed = part.stands == ending.stands();
        assert!(rt; has_failed || part.stands == Stands::Open);
        if has_failed {
            assert_settled(rt, part, ending);
        }
    }
    has_failed
}

/// The input over a narrow window, in one placing.
fn placed_world(
    alloc: Global,
    placing: Placing,
    ending: Ending,
) -> Result<World<Handler, MemoryTransport>, Fail> {
    world(alloc, placing, 3, INPUT, ending)
}

/// Random moves of a net that ends so and then stays failed, and then every move in turn until none is enabled.
fn assert_ends(
    rt: &impl Abort,
    net: &mut Net<Handler, MemoryTransport>,
    seed: u64,
    whole: &[ChannelReport],
    ending: Ending,
) -> Result<(), Fail>
    requires { seed < 2147483647 }
{
    let mut number = seed;
    let mut has_failed = false;
    for _ in 0..150 {
        number = next_number(number);
        net.apply(move_by(number, 1, 3))?;
        let fails = assert_goes_on(rt, &net.report()?, whole, ending);
        assert!(rt; fails || !has_failed);
        has_failed = fails;
    }
    assert!(rt; !drain(net, 1, 3)?);
    Ok(())
}

/// What the report of such a schedule says, in one placing.
fn ended(
    rt: &impl Abort,
    alloc: Global,
    placing: Placing,
    seed: u64,
    ending: Ending,
) -> Result<Report, Fail>
    requires { seed < 2147483647 }
{
    let whole = whole(alloc, placed_world(alloc, placing, ending)?)?;
    let mut net = Net::new(alloc, placed_world(alloc, placing, ending)?, 1)?;
    assert_ends(rt, &mut net, seed, whole.as_slice(), ending)?;
    let report = net.into_report()?;
    assert!(rt; assert_goes_on(rt, &report, whole.as_slice(), ending));
    Ok(report)
}

/// In each placing, whatever the schedule: as many bytes leave as the calls before the one that fails accept.
#[test]
fn faults_in_each_placing(rt: HostRuntime) -> Result<(), Fail> {
    for placing in PLACINGS {
        for (call, left) in CALLS {
            for seed in 1..4 {
                let report = ended(&rt, rt.alloc(), placing, seed, Ending::Call(call))?;
                assert_eq!(rt; only_channel(&rt, &report).bytes.len(), left);
            }
        }
    }
    Ok(())
}

/// In each placing, whatever the schedule: the tail has all that comes of the bursts before the abort, and each write
/// of them is settled.
#[test]
fn aborts_in_each_placing(rt: HostRuntime) -> Result<(), Fail> {
    for placing in PLACINGS {
        for (count, tail, writes) in [(0, 1, 0), (1, 4, 2), (2, 5, 2), (3, 9, 5)] {
            for seed in 1..11 {
                let report = ended(&rt, rt.alloc(), placing, seed, Ending::Abort(count))?;
                let channel = only_channel(&rt, &report);
                assert_eq!(rt; channel.tail.len(), tail);
                assert_eq!(rt; channel.writes.len(), writes);
            }
        }
    }
    Ok(())
}
