//! The stages that a run gives back.

use crate::sessions::decoded_apart;
use pl_context::Standing;
use pl_exec::{Gate, QueueKind, Ran, Words, run_world_with};
use pl_part::KeptStage;
use pl_stages::Handler;
use pl_text::read_session;
use pl_world::Session;
use std::alloc::{AllocError, Global};
use std::test::Fail;

/// A gate that lets all pass.
#[derive(Drop)]
struct Open;

impl Gate for Open {
    fn enter(&self, _executor: u16, _turn: u64) {}
}

/// Which handlers these are, by hop, each of a context that has ended.
fn ended(alloc: Global, stages: &[Option<KeptStage<Handler>>]) -> Result<String, AllocError> {
    let mut told = String::new(alloc);
    for slot in stages {
        let word = match slot {
            None => "none ",
            Some(kept) if kept.standing != Standing::Ended => "open ",
            Some(kept) => match &kept.stage {
                Handler::Lines(_) => "lines ",
                Handler::Decode(_) => "decode ",
                Handler::Service(_) => "service ",
                Handler::Encode(_) => "encode ",
                Handler::LineEnd(_) => "lineend ",
                _ => "another ",
            },
        };
        told.push_str(word)?;
    }
    Ok(told)
}

/// All handlers come back by their hops, from both executors; the tail's hop has none.
#[test]
fn stages_are_given_back_by_a_run(rt: HostRuntime) -> Result<(), Fail> {
    let alloc = rt.alloc();
    let session = read_session(alloc, decoded_apart(alloc, 4)?.as_str())?;
    let (words, heads, _readers) = Words::of_world(alloc, &session.world, 0)?;
    let Session { world, capacity } = session;
    let Ran { stages, .. } = run_world_with(
        &rt,
        alloc,
        world,
        capacity,
        QueueKind::Ring,
        &Open,
        &words,
        heads,
    )?;
    assert_eq!(rt; stages.len(), 1);
    for channel in &stages {
        let told = ended(alloc, channel.as_slice())?;
        assert_eq!(rt; told.as_str(), "lines decode service none encode lineend ");
    }
    Ok(())
}
