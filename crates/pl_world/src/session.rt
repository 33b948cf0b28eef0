//! A session as it is recorded, before any of its moves.

ghost use Rattle.std.specs.Prelude.{◌≡◌, ◌≤◌};
ghost use Rattle.pl_build.specs.Paths.{IsPath};
ghost use Rattle.pl_world.specs.declared.limits.TheConstants.{MAX_CAPACITY};

use crate::worlds::World;
use pl_build::Placed;
use pl_event::Stage;
use pl_head::{MemoryTransport, ReadPlan, Transport};
use pl_stages::Handler;

/// A channel as it is recorded.
#[derive(Drop)]
pub struct Recorded<S: Stage, T: Transport> {
    pub pipeline: Placed<S>,
    /// The chunks and user events of each burst, and where it is aborted, if it is.
    pub input: ReadPlan,
    /// Where its bytes leave.
    pub transport: T,
}

impl<S: Stage, T: Transport> Recorded<S, T> {
    /// A channel of this pipeline, with its input and its transport, and what the pipeline keeps to.
    pub fn new(pipeline: Placed<S>, input: ReadPlan, transport: T) -> Self
        ensures made { result ≡ record { pipeline = pipeline; input = input; transport = transport } }
        ensures path { IsPath S.meaning S.stands_after result.pipeline }
    {
        // `Placed` shows its invariant to those who ask it something.
        let _inbound = pipeline.inbound();
        Recorded {
            pipeline,
            input,
            transport,
        }
    }
}

/// A world of built-in handlers over memory, with queues.
#[derive(Drop)]
pub struct Session {
    pub world: World<Handler, MemoryTransport>,
    /// How many items a queue between executors holds.
    pub capacity: u32,
    pub ghost holds_one: { 1 ≤ capacity },
    pub ghost within: { capacity ≤ MAX_CAPACITY },
}
