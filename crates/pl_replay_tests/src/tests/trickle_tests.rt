//! A transport of a user's own, and windows: the report is that of docs/FORMATS.md, whatever a transport accepts a call.
ghost use Rattle.std.specs.Prelude.{◌≡◌, ◌≤◌, ◌-◌, ◌<◌, ◌⊎◌, None, Some, vec_len, vec_capacity};
ghost use Rattle.pl_world.specs.Worlds.{IsUncalled};

use crate::tests::net_tests::{
    PLACINGS, Placing, TOGETHER, assert_enabled, assert_move, assert_report, drain, keeps_to_plain,
    placed, to_its_end, whole,
};
use crate::tests::world_tests::{memory_transport, one_channel};
use crate::tests::{FAULT, OUT, PING_CRLF, PING_TAIL, READ, SUCCESS, assert_one, assert_ping};
use pl_event::Cause;
use pl_head::{MemoryTransport, Transport, TransportFault};
use pl_nodes_tests::Trickle;
use pl_replay::{Net, replay, replay_world};
use pl_stages::Handler;
use pl_world::{Session, Stands, World};
use std::alloc::Global;
use std::process::Abort;
use std::test::Fail;

/// A transport of a user's own that was not called, and trickles.
pub(crate) fn trickle(alloc: Global) -> Trickle
    ensures { IsUncalled (⟦<Trickle as Transport>⟧.state result) }
{
    Trickle::new(alloc)
}

/// A transport with room for a number of bytes, which accepts one byte a call. With no room left each call fails.
#[derive(Debug, Drop)]
struct Narrow {
    bytes: Vec<u8>,
    room: usize,
    calls: u64,
    failures: u64,
}

impl Narrow {
    fn new(alloc: Global, room: usize) -> Self
        ensures { IsUncalled (⟦<Narrow as Transport>⟧.state result) }
    {
        Narrow {
            bytes: Vec::new(alloc),
            room,
            calls: 0,
            failures: 0,
        }
    }
}

impl Transport for Narrow {
    ghost state = { λ t. record { accepted = t.bytes.items; calls = t.calls; failures = t.failures; window = Some 1; fail_at = None } };

    ghost may_refuse = { λ t size. (t.room ≤ vec_len t.bytes) ⊎ (vec_capacity t.bytes - vec_len t.bytes < size) };

    fn write(&mut self, bytes: &[u8]) -> Result<usize, TransportFault> {
        let count = bytes.len().min(1);
        let has_room = self.bytes.len() < self.room;
        self.calls = self.calls.saturating_add(1);
        if has_room && self.bytes.extend_from_slice(&bytes[..count]).is_ok() {
            return Ok(count);
        }
        self.failures = self.failures.saturating_add(1);
        Err(TransportFault::Failed)
    }

    fn bytes(&self) -> &[u8] {
        self.bytes.as_slice()
    }
}

/// A channel of the line protocol that reads `PING`, over a transport that was not called: the decoder and the service
/// each in a group or in none.
fn placed_ping_over<T: Transport>(
    alloc: Global,
    placing: Placing,
    transport: T,
) -> Result<World<Handler, T>, Fail>
    requires { IsUncalled (T.state transport) }
{
    let (pipeline, executors) = placed(alloc, placing)?;
    let input = to_its_end(alloc, PING_CRLF)?;
    one_channel(alloc, pipeline, input, transport, executors)
}

/// The same on one loop.
fn ping_over<T: Transport>(alloc: Global, transport: T) -> Result<World<Handler, T>, Fail>
    requires { IsUncalled (T.state transport) }
{
    placed_ping_over(alloc, TOGETHER, transport)
}

#[test]
fn one_byte_transport(rt: HostRuntime) -> Result<(), Fail> {
    let alloc = rt.alloc();
    let mut moves = [OUT; 17];
    moves[0] = READ;
    moves[1] = READ;
    moves[2] = READ;
    let report = replay_world(alloc, ping_over(alloc, trickle(alloc))?, 4, &moves)?;
    assert_ping(&rt, &report);
    Ok(())
}

/// Asserts that `PING` was served by the only channel of a net.
fn assert_ponged<T: Transport>(rt: &impl Abort, net: &Net<Handler, T>) -> Result<(), Fail> {
    assert_report(rt, net, Stands::Drained, PING_TAIL, PONG, &[SUCCESS])
}

/// The channel's three read steps, and then this many calls of its transport until it is drained.
fn assert_calls(
    rt: &impl Abort,
    net: &mut Net<Handler, MemoryTransport>,
    calls: u16,
) -> Result<(), Fail> {
    assert_enabled(rt, net, &[READ; 3])?;
    for _ in 0..calls {
        assert!(rt; !net.drained());
        assert_move(rt, net, OUT, true)?;
    }
    assert_move(rt, net, OUT, false)
}

/// With a window of `window` bytes `+PONG` and its line end leave in `calls` calls, and not in one less.
fn assert_leaves(rt: &impl Abort, alloc: Global, window: u32, calls: u16) -> Result<(), Fail>
    requires { 1 ≤ window }
{
    let world = ping_over(alloc, memory_transport(alloc, window, None))?;
    let mut net = Net::new(alloc, world, 4)?;
    assert_calls(rt, &mut net, calls)?;
    assert_ponged(rt, &net)
}

#[test]
fn windows(rt: HostRuntime) -> Result<(), Fail> {
    assert_leaves(&rt, rt.alloc(), 1, 7)?;
    assert_leaves(&rt, rt.alloc(), 3, 3)?;
    assert_leaves(&rt, rt.alloc(), 65_536, 1)
}

/// A transport that is to fail leaves its channel failed, and a replay says so.
#[test]
fn failed_transport(rt: HostRuntime) -> Result<(), Fail> {
    let alloc = rt.alloc();
    let world = ping_over(alloc, memory_transport(alloc, 65_536, Some(1)))?;
    let moves = [READ, READ, OUT, OUT];
    let report = replay(alloc, Session { world, capacity: 1 }, &moves)?;
    let stands = Stands::Failed(Cause::Transport);
    assert_one(&rt, &report, stands, PING_TAIL, b"", &[FAULT]);
    Ok(())
}

/// `PING` over a narrow transport, in one placing.
fn ping_over_narrow(
    alloc: Global,
    placing: Placing,
    room: usize,
) -> Result<World<Handler, Narrow>, Fail> {
    placed_ping_over(alloc, placing, Narrow::new(alloc, room))
}

/// Random schedules in one placing keep to the plain report, where a narrow transport has room for the whole reply.
fn assert_slow(rt: &impl Abort, alloc: Global, placing: Placing) -> Result<(), Fail> {
    let reports = whole(alloc, ping_over_narrow(alloc, placing, 7)?)?;
    for seed in 1..5 {
        let world = ping_over_narrow(alloc, placing, 7)?;
        keeps_to_plain(rt, alloc, seed, world, reports.as_slice())?;
    }
    Ok(())
}

/// In each placing a transport of a user's own that accepts one byte a call leaves a channel drained, however random
/// the schedule begins.
#[test]
fn slow_transport(rt: HostRuntime) -> Result<(), Fail> {
    for placing in PLACINGS {
        assert_slow(&rt, rt.alloc(), placing)?;
    }
    Ok(())
}

const PONG: &[u8] = b"+PONG\r\n";

/// In one placing a narrow transport accepts as many bytes of the reply as it has room for.
fn assert_room(rt: &impl Abort, alloc: Global, placing: Placing, room: usize) -> Result<(), Fail>
    requires { room < 8 }
{
    let world = ping_over_narrow(alloc, placing, room)?;
    let mut net = Net::new(alloc, world, 1)?;
    assert_eq!(rt; drain(&mut net, 1, 3)?, room == 7);
    if room == 7 {
        return assert_ponged(rt, &net);
    }
    let stands = Stands::Failed(Cause::Transport);
    assert_report(rt, &net, stands, PING_TAIL, &PONG[..room], &[FAULT])
}

/// In each placing one that has room for less than the reply fails its channel, with as many bytes as it had room for.
#[test]
fn own_transport_fails(rt: HostRuntime) -> Result<(), Fail> {
    for placing in PLACINGS {
        for room in 0..8 {
            assert_room(&rt, rt.alloc(), placing, room)?;
        }
    }
    Ok(())
}
