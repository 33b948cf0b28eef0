//! A stage of a user's own, with a state, in two placings.
ghost use Rattle.std.specs.Prelude.{◌≡◌, []};
ghost use Rattle.pl_replay_tests.specs.CountingStage.{reads, counting, counting-lawful, counting-thrifty};

use crate::tests::net_tests::plans;
use crate::tests::world_tests::{memory_transport, one_transport, only};
use crate::tests::{Seen, assert_one};
use pl_build::{Groups, PipelineBuilder, Placed};
use pl_context::Standing;
use pl_event::{BareStage, Direction, Event, Fused, Message, Reply, Stage, Turned};
use pl_head::MemoryTransport;
use pl_replay::{Net, replay_world};
use pl_stages::ThriftyBare;
use pl_world::{Move, Stands, World};
use std::alloc::{AllocError, Global};
use std::process::Abort;
use std::test::Fail;

/// Passes, in place of each read, the number of the reads so far on.
#[derive(Debug, Drop)]
struct Counter {
    is_turn: bool,
    seen: u64,
}

impl Counter {
    fn new(is_turn: bool) -> Fused<Self>
        ensures { ⟦<Fused<Counter> as Stage>⟧.stands_after result [] }
    {
        Fused::new(Counter { is_turn, seen: 0 })
    }
}

impl BareStage for Counter {
    ghost meaning = { λ s. counting s.is_turn };

    ghost stands_after = { λ s xs. s.seen ≡ reads xs };

    fn direction(&self) -> Direction {
        if self.is_turn {
            Direction::Turn
        } else {
            Direction::Inbound
        }
    }

    fn take(
        &mut self,
        event: Event,
        up: &mut Vec<Event>,
        _down: &mut Vec<Event>,
    ) -> Result<Turned, AllocError> {
        match event {
            Event::Read(message) => {
                drop(message);
                let number = self.seen.checked_add(1).ok_or(AllocError)?;
                up.push(Event::Read(Message::Reply(Reply::Total(number))))?;
                self.seen = number;
            }
            other => up.push(other)?,
        }
        Ok(Turned::Open)
    }

    ghost lawful = { λ s. counting-lawful s.is_turn };
}

impl ThriftyBare for Counter {
    ghost thrifty = { λ s. counting-thrifty s.is_turn };
}

/// A counter and a turn, which counts too; the counter in a group or in none.
fn pipeline(
    alloc: Global,
    groups: &mut Groups,
    group: Option<&str>,
) -> Result<Placed<Fused<Counter>>, Fail> {
    let mut builder = PipelineBuilder::new(alloc);
    builder.add_last("count", group, Counter::new(false))?;
    builder.add_last("turn", None, Counter::new(true))?;
    Ok(builder.build(groups)?)
}

/// Two bursts, of two chunks and of one, on one channel.
fn world(
    alloc: Global,
    group: Option<&str>,
) -> Result<World<Fused<Counter>, MemoryTransport>, Fail> {
    let inputs = plans(alloc, &[&[&[b"a", b"b"], &[b"c"]]])?;
    let transports = one_transport(alloc, memory_transport(alloc, 65_536, None))?;
    let mut groups = Groups::new(alloc, 1, &[("a", 1)])?;
    let pipelines = only(alloc, pipeline(alloc, &mut groups, group)?)?;
    Ok(World::of_thrifty(alloc, pipelines, inputs, transports, groups.executors())?)
}

/// Replays a world and looks at its tail: the same in each placing.
fn assert_tail(
    rt: &impl Abort,
    alloc: Global,
    group: Option<&str>,
    moves: &[Move],
) -> Result<(), Fail> {
    let report = replay_world(alloc, world(alloc, group)?, 2, moves)?;
    let tail = [
        Seen::Active,
        Seen::Total(1),
        Seen::Total(2),
        Seen::ReadComplete,
        Seen::Total(3),
        Seen::ReadComplete,
    ];
    assert_one(rt, &report, Stands::Drained, &tail, b"", &[]);
    Ok(())
}

#[test]
fn counter_on_one_executor(rt: HostRuntime) -> Result<(), Fail> {
    assert_tail(&rt, rt.alloc(), None, &[Move::Read(0); 4])
}

#[test]
fn counter_on_an_executor_of_its_own(rt: HostRuntime) -> Result<(), Fail> {
    let mut moves = vec![in rt.alloc(); Move::Read(0); 4]?;
    for _ in 0..7 {
        moves.extend_from_slice(&[Move::Hand(0), Move::Task(1), Move::Hand(1), Move::Task(0)])?;
    }
    assert_tail(&rt, rt.alloc(), Some("a"), moves.as_slice())
}

/// How each counter of a net stood, which is given back, and how many reads it had seen: by hop, and None at the tail's.
fn given_back(
    alloc: Global,
    net: Net<Fused<Counter>, MemoryTransport>,
) -> Result<Vec<Option<(Standing, u64)>>, Fail> {
    let mut told = Vec::new(alloc);
    for stages in net.into_stages()? {
        for slot in stages {
            let counter = match slot {
                Some(kept) => Some((kept.standing, kept.stage.into_stage().seen)),
                None => None,
            };
            told.push(counter)?;
        }
    }
    Ok(told)
}

/// Both counters are given back where the channel is drained: each has taken all of its lane, and counted the reads. The tail's
/// hop, the third, has no stage.
#[test]
fn counters_are_given_back(rt: HostRuntime) -> Result<(), Fail> {
    let alloc = rt.alloc();
    let mut net = Net::new(alloc, world(alloc, None)?, 2)?;
    for _ in 0..4 {
        net.apply(Move::Read(0))?;
    }
    assert!(rt; net.drained());
    let told = given_back(alloc, net)?;
    let ended = Some((Standing::Ended, 3));
    assert_eq!(rt; told.as_slice(), [ended, ended, None].as_slice());
    Ok(())
}
