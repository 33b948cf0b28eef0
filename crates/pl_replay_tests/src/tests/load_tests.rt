//! Large loads on a net. bench/run.py reads their times, size by size.

use crate::tests::net_tests::{BOTH_APART, GROUPS, assert_enabled, line_protocol, world};
use pl_head::MemoryTransport;
use pl_replay::Net;
use pl_stages::Handler;
use pl_world::{Move, World};
use std::alloc::Global;
use std::process::Abort;
use std::test::Fail;

/// The channel becomes active, and its burst comes.
const BEGINNING: [Move; 2] = [Move::Read(0), Move::Read(0)];

/// An event crosses both groups, and what becomes of it comes back to the loop.
const ACROSS: [Move; 6] = [
    Move::Hand(0),
    Move::Task(1),
    Move::Hand(1),
    Move::Task(2),
    Move::Hand(2),
    Move::Task(0),
];

/// So does the reply to it.
const REPLY: [Move; 2] = [Move::Hand(2), Move::Task(0)];

/// `PING` as often as there are rounds, in one chunk, where the decoder and the service have an executor of their own.
fn pings(alloc: Global, rounds: usize) -> Result<World<Handler, MemoryTransport>, Fail> {
    let chunk = b"PING\n".repeat(alloc, rounds)?;
    let kinds = line_protocol(BOTH_APART);
    world(alloc, &GROUPS, &[&kinds], &[&[&[chunk.as_slice()]]])
}

/// A given number of rounds of eight moves, each of them enabled.
fn assert_rounds(
    rt: &impl Abort,
    net: &mut Net<Handler, MemoryTransport>,
    rounds: usize,
) -> Result<(), Fail> {
    assert_enabled(rt, net, &BEGINNING)?;
    assert_enabled(rt, net, &ACROSS)?;
    for _ in 1..rounds {
        assert_enabled(rt, net, &ACROSS)?;
        assert_enabled(rt, net, &REPLY)?;
    }
    Ok(())
}

/// The same where each queue holds one item.
fn hand_overs(rt: &impl Abort, alloc: Global, rounds: usize) -> Result<(), Fail> {
    let mut net = Net::new(alloc, pings(alloc, rounds)?, 1)?;
    assert_rounds(rt, &mut net, rounds)
}

#[test]
fn hand_overs_of_125000(rt: HostRuntime) -> Result<(), Fail> {
    hand_overs(&rt, rt.alloc(), 125_000 / 8)
}

#[test]
fn hand_overs_of_250000(rt: HostRuntime) -> Result<(), Fail> {
    hand_overs(&rt, rt.alloc(), 250_000 / 8)
}

#[test]
fn hand_overs_of_500000(rt: HostRuntime) -> Result<(), Fail> {
    hand_overs(&rt, rt.alloc(), 500_000 / 8)
}

#[test]
fn hand_overs_of_1000000(rt: HostRuntime) -> Result<(), Fail> {
    hand_overs(&rt, rt.alloc(), 1_000_000 / 8)
}
