//! A fair schedule drains a session in each placing, and gives the report that plain gives.
ghost use Rattle.std.specs.Prelude.{◌≤◌};

use crate::tests::net_tests::{PLACINGS, Placing, line_protocol, marked_pipeline, plans};
use crate::tests::world_tests::windowed_world;
use crate::tests::{Bursts, Kinds, assert_each_same};
use pl_build::{Groups, Placed};
use pl_event::Sequence;
use pl_replay::replay;
use pl_stages::Handler;
use pl_world::{Move, Report, Session, plain};
use std::alloc::Global;
use std::process::Abort;
use std::test::Fail;

/// Two pipelines of these handlers, with marks of a given number of bytes and of twice as many.
fn two_pipelines(
    alloc: Global,
    groups: &mut Groups,
    kinds: Kinds,
    low: u32,
) -> Result<Sequence<Placed<Handler>>, Fail>
    requires { low ≤ 65536 }
{
    let mut pipelines = Sequence::new(alloc);
    for _ in 0..2 {
        pipelines.push(marked_pipeline(alloc, groups, kinds, low, low * 2)?)?;
    }
    Ok(pipelines)
}

/// The input of each of two channels: the second quits.
const TWO_INPUTS: &[Bursts] = &[
    &[&[b"ADD k 5\r\nGET k\r\n"], &[b"PI", b"NG\r\n"]],
    &[&[b"PING\r\nQUIT\r\n"]],
];

/// Two channels with the line protocol, the decoder and the service each in a group or in none, over windows of a
/// given number of bytes, with marks of as many and twice as many.
fn session(alloc: Global, placing: Placing, window: u32) -> Result<Session, Fail>
    requires { (1 ≤ window) × (window ≤ 65536) }
{
    let mut groups = Groups::new(alloc, 1, &[("a", 2), ("b", 1)])?;
    let kinds = line_protocol(placing);
    let pipelines = two_pipelines(alloc, &mut groups, &kinds, window)?;
    let plans = plans(alloc, TWO_INPUTS)?;
    let world = windowed_world(alloc, pipelines, plans, window, groups.executors())?;
    Ok(Session { world, capacity: 2 })
}

/// A given number of rounds, each of every move of the channels and of the executors.
fn rounds(alloc: Global, channels: u16, executors: u16, count: u16) -> Result<Vec<Move>, Fail> {
    let mut moves = Vec::new(alloc);
    for _ in 0..count {
        for channel in 0..channels {
            moves.extend_from_slice(&[Move::Read(channel), Move::Out(channel)])?;
        }
        for executor in 0..executors {
            moves.extend_from_slice(&[Move::Hand(executor), Move::Task(executor)])?;
        }
    }
    Ok(moves)
}

/// Its report by a fair schedule.
fn fair_report(alloc: Global, placing: Placing, window: u32) -> Result<Report, Fail>
    requires { (1 ≤ window) × (window ≤ 65536) }
{
    let moves = rounds(alloc, 2, 4, 60)?;
    let session = session(alloc, placing, window)?;
    Ok(replay(alloc, session, moves.as_slice())?)
}

/// Its whole report.
fn plain_report(alloc: Global, placing: Placing, window: u32) -> Result<Report, Fail>
    requires { (1 ≤ window) × (window ≤ 65536) }
{
    let session = session(alloc, placing, window)?;
    Ok(plain(alloc, session)?)
}

fn assert_drains(rt: &impl Abort, alloc: Global, placing: Placing, window: u32) -> Result<(), Fail>
    requires { (1 ≤ window) × (window ≤ 65536) }
{
    let report = fair_report(alloc, placing, window)?;
    let want = plain_report(alloc, placing, window)?;
    assert_each_same(rt, report.channels.as_slice(), want.channels.as_slice());
    Ok(())
}

/// Each placing of the decoder and the service.
fn assert_each_drains(rt: &impl Abort, alloc: Global, window: u32) -> Result<(), Fail>
    requires { (1 ≤ window) × (window ≤ 65536) }
{
    for placing in PLACINGS {
        assert_drains(rt, alloc, placing, window)?;
    }
    Ok(())
}

#[test]
fn fair_schedules(rt: HostRuntime) -> Result<(), Fail> {
    assert_each_drains(&rt, rt.alloc(), 65_536)?;
    assert_each_drains(&rt, rt.alloc(), 3)?;
    assert_each_drains(&rt, rt.alloc(), 1)
}
