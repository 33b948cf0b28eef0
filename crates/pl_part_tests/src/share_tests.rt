//! A part out of which the shares of executors are taken.

use crate::relays::{NO_FAULTS, Relay, sample_part};
use pl_context::Standing;
use pl_event::{Direction, Stage};
use pl_head::MemoryTransport;
use pl_part::{ChannelPart, KeptStage};
use std::process::Abort;
use std::test::Fail;

/// The tail and the head, which has a read step, are on executor 2, and no node is on 3.
fn assert_on(rt: &impl Abort, executor: usize, part: &ChannelPart<Relay, MemoryTransport>) {
    assert!(rt; part.hops() == 5);
    assert!(rt; part.has_ended() == (executor == 3));
    assert!(rt; part.tail().is_some() == (executor == 2));
    assert!(rt; part.head().is_some() == (executor == 2));
    assert!(rt; part.has_read_step() == (executor == 2));
}

/// The turn is on executor 0, the outbound handler on 1, and the first handler, the tail and the head are on 2. None is on 3.
#[test]
fn taken_by_each_executor(rt: HostRuntime) -> Result<(), Fail> {
    let alloc = rt.alloc();
    let mut rest = sample_part(alloc, NO_FAULTS)?;
    for executor in 0..4 {
        let share = rest.take_share(alloc, executor)?;
        assert_on(&rt, executor, &share);
        assert!(rt; rest.has_ended() == (executor >= 2));
    }
    Ok(())
}

/// What is taken is not there again, and the nodes of other executors are.
#[test]
fn taken_once(rt: HostRuntime) -> Result<(), Fail> {
    let alloc = rt.alloc();
    let mut rest = sample_part(alloc, NO_FAULTS)?;
    let share = rest.take_share(alloc, 2)?;
    assert_on(&rt, 2, &share);
    drop(share);
    assert!(rt; !rest.has_ended());
    assert!(rt; rest.tail().is_none() && rest.head().is_none());
    let again = rest.take_share(alloc, 2)?;
    assert!(rt; again.has_ended() && again.head().is_none());
    Ok(())
}

/// Where an allocation is made to fail, the share is refused, and all nodes stay: the second time it is there.
#[test]
fn share_without_memory(rt: HostRuntime) -> Result<(), Fail> {
    let alloc = rt.alloc();
    let mut part = sample_part(alloc, NO_FAULTS)?;
    match part.take_share(alloc, 2) {
        Ok(share) => assert_on(&rt, 2, &share),
        Err(_) => assert_on(&rt, 2, &part.take_share(alloc, 2)?),
    }
    Ok(())
}

/// Stages are given back by hop, with these directions, and their contexts stood open.
fn assert_stages(
    rt: &impl Abort,
    stages: &[Option<KeptStage<Relay>>],
    directions: &[Option<Direction>],
) {
    assert!(rt; stages.len() == directions.len());
    for (slot, want) in stages.iter().zip(directions) {
        match slot {
            Some(kept) => {
                assert!(rt; kept.standing == Standing::Open);
                assert!(rt; Some(kept.stage.direction()) == *want);
            }
            None => assert!(rt; want.is_none()),
        }
    }
}

/// Each part gives its own stages back. The tail's hop, the third, has none.
#[test]
fn stages_by_hop(rt: HostRuntime) -> Result<(), Fail> {
    let alloc = rt.alloc();
    let mut rest = sample_part(alloc, NO_FAULTS)?;
    let share = rest.take_share(alloc, 2)?;
    let first = [Some(Direction::Inbound), None, None, None];
    assert_stages(&rt, share.into_stages(alloc)?.as_slice(), &first);
    let others = [None, Some(Direction::Turn), None, Some(Direction::Outbound)];
    assert_stages(&rt, rest.into_stages(alloc)?.as_slice(), &others);
    Ok(())
}
