//! A world over memory, made of slices: the short way to one in code.

ghost use Rattle.std.specs.Prelude.{◌≡◌, Some, None, map, true, false, IfOk, IfErr, OnOk, All, length};
ghost use Rattle.pl_head.specs.ReadSteps.{chunk_plan};
ghost use Rattle.pl_head.specs.Transports.{new_state};
ghost use Rattle.pl_world.specs.Limits.{is_within};
ghost use Rattle.pl_world.specs.Worlds.{chunk_plans};
ghost use Rattle.pl_world.specs.declared.worlds.WorldRefusal.TheVariants as refusal;

use crate::worlds::{World, WorldRefusal};
use pl_build::Placed;
use pl_event::Sequence;
use pl_head::{MemoryTransport, ReadPlan, Transport};
use pl_stages::Thrifty;
use std::alloc::{AllocError, Global};

/// How many bytes a transport of [`World::over_memory`] accepts a call, at most.
pub const MEMORY_WINDOW: u32 = 65_536;

impl<S: Thrifty> World<S, MemoryTransport> {
    /// [`World::of_thrifty`] over memory: pipelines, and for each in order the chunks of each of its bursts. Its input has no
    /// user event and no abort, and its transport accepts `MEMORY_WINDOW` bytes a call. Refused as `Memory`, or as `Limit`
    /// where the world would not be within its limits; the pipelines are gone then.
    pub fn over_memory(
        alloc: Global,
        pipelines: Vec<Placed<S>>,
        inputs: &[&[&[&[u8]]]],
        executors: u16,
    ) -> Result<Self, WorldRefusal>
        ensures executors { IfOk result (λ world. world.executors ≡ executors) }
        ensures pipelines { IfOk result (λ world. map (λ c. c.pipeline) world.channels ≡ pipelines.items) }
        ensures inputs { IfOk result (λ world. map (λ c. c.input) world.channels ≡ chunk_plans inputs.now) }
        ensures transports { IfOk result (λ world. All (λ c. ⟦<MemoryTransport as Transport>⟧.state c.transport ≡ new_state (Some MEMORY_WINDOW) None) world.channels) }
        // Each pipeline gets a transport, so there are as many.
        ensures allowed { OnOk result (is_within pipelines.items (chunk_plans inputs.now) pipelines.items executors ≡ true) }
        ensures refused { IfErr result (λ e. e ≡ refusal.Limit → is_within pipelines.items (chunk_plans inputs.now) pipelines.items executors ≡ false) }
    {
        let transports = memory_transports(alloc, pipelines.len())?;
        let inputs = read_plans(alloc, inputs)?;
        World::of_thrifty(
            alloc,
            Sequence::from_vec(pipelines),
            Sequence::from_vec(inputs),
            Sequence::from_vec(transports),
            executors,
        )
    }
}

/// So many transports over memory, none of them called yet.
fn memory_transports(alloc: Global, count: usize) -> Result<Vec<MemoryTransport>, AllocError>
    ensures count { IfOk result (λ made. length made.items ≡ count) }
    ensures each { IfOk result (λ made. All (λ t. ⟦<MemoryTransport as Transport>⟧.state t ≡ new_state (Some MEMORY_WINDOW) None) made.items) }
{
    let mut made = Vec::with_capacity(alloc, count)?;
    for _number in 0..count {
        made.push(MemoryTransport::new(alloc, MEMORY_WINDOW, None))?;
    }
    Ok(made)
}

/// The plan of each input.
fn read_plans(alloc: Global, inputs: &[&[&[&[u8]]]]) -> Result<Vec<ReadPlan>, AllocError>
    ensures { IfOk result (λ plans. plans.items ≡ chunk_plans inputs.now) }
{
    let mut plans = Vec::with_capacity(alloc, inputs.len())?;
    for input in inputs {
        plans.push(ReadPlan::of_chunks(alloc, input)?)?;
    }
    Ok(plans)
}
