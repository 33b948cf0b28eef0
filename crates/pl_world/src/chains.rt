//! Handlers that have taken nothing yet take a whole list of events, one handler after another.

ghost use Rattle.std.specs.Prelude.{◌≡◌, [], map, All, IfOk};
ghost use Rattle.pl_event.specs.Meaning.{up_of, down_of};
ghost use Rattle.pl_event.specs.Lanes.{through_by};
ghost use Rattle.pl_world.specs.Chains.{made_toward, part_toward};

use pl_event::{Event, Stage, StageFault};
use std::alloc::Global;

/// An end of a pipeline, toward which events go: downwards its head, upwards its tail.
#[derive(Clone, Copy, Debug, PartialEq, Eq)]
pub(crate) enum Toward {
    Head,
    Tail,
}

/// What a stage makes of a list of events, upwards and downwards.
#[derive(Debug, Drop)]
pub(crate) struct Made {
    pub(crate) up: Vec<Event>,
    pub(crate) down: Vec<Event>,
}

impl Made {
    /// What was made toward this end.
    fn toward(self, end: Toward) -> Vec<Event>
        ensures { result ≡ part_toward end self }
    {
        let Made { up, down } = self;
        match end {
            Toward::Head => down,
            Toward::Tail => up,
        }
    }
}

/// One stage takes the whole list.
pub(crate) fn pass<S: Stage>(
    alloc: Global,
    stage: S,
    events: Vec<Event>,
) -> Result<Made, StageFault>
    requires new { S.stands_after stage [] }
    ensures up { IfOk result (λ made. made.up.items ≡ up_of (S.meaning stage) events.items) }
    ensures down { IfOk result (λ made. made.down.items ≡ down_of (S.meaning stage) events.items) }
{
    // A handler mostly makes one event of each on the side that it is there for.
    let (upwards, downwards) = if stage.direction().is_outbound() {
        (0, events.len())
    } else {
        (events.len(), 0)
    };
    let mut up = Vec::with_capacity(alloc, upwards).map_err(|_| StageFault::Memory)?;
    let mut down = Vec::with_capacity(alloc, downwards).map_err(|_| StageFault::Memory)?;
    let mut stage = stage;
    for event in events {
        stage.step(event, &mut up, &mut down)?;
    }
    Ok(Made { up, down })
}

/// Each stage of a chain takes the whole list that the one before it makes toward an end. The last one's is the answer.
pub(crate) fn pass_all<S: Stage>(
    alloc: Global,
    toward: Toward,
    stages: Vec<S>,
    events: Vec<Event>,
) -> Result<Vec<Event>, StageFault>
    requires new { All (λ stage. S.stands_after stage []) stages.items }
    ensures { IfOk result (λ made. made.items ≡ through_by (made_toward toward) (map S.meaning stages.items) events.items) }
{
    let mut events = events;
    for stage in stages {
        events = pass(alloc, stage, events)?.toward(toward);
    }
    Ok(events)
}
