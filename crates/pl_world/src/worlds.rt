//! The world of a replay or a run: channels, each with its pipeline, its input and its transport, on executors.

ghost use Rattle.std.specs.Prelude.{◌≡◌, ℕ, ◌+◌, ◌≤◌, IfOk, IsTrue, All, length};
ghost use Rattle.std.specs.List.{list_all};
ghost use Rattle.pl_build.specs.Paths.{IsPath};
ghost use Rattle.pl_world.specs.Worlds.{IsUncalled, FitsLimits, HaveSmallLanes, AnswersWorld, recorded};
ghost use Rattle.pl_world.specs.declared.worlds.WorldRefusal.TheVariants as refusal;
ghost use Rattle.pl_world.specs.Limits.{input_fits, is_placed, is_within};

use crate::limits::{MAX_CHANNELS, input_fits};
use crate::session::Recorded;
use pl_build::{MAX_EXECUTORS, Placed};
use pl_event::{Sequence, Stage};
use pl_head::{ReadPlan, Transport};
use pl_stages::Thrifty;
use std::alloc::{AllocError, AllocFailed, Global};
use std::marker::Model;
use thiserror::Error;

/// Why a world was not made.
#[derive(Clone, Copy, Debug, PartialEq, Eq, Error)]
pub enum WorldRefusal {
    /// An allocation failed.
    #[error("1 Memory")]
    Memory,
    /// There are too many channels or executors, not as many inputs as pipelines, an input is too long or aborted after more
    /// bursts than it has, or a pipeline names an executor that is not there.
    #[error("2 Limit")]
    Limit,
}

impl From<AllocError> for WorldRefusal {
    ghost from_gives = { λ _ e. e ≡ refusal.Memory };

    fn from(_refused: AllocError) -> WorldRefusal {
        WorldRefusal::Memory
    }
}

impl<T: Drop> From<AllocFailed<T>> for WorldRefusal {
    ghost from_gives = { λ _ e. e ≡ refusal.Memory };

    fn from(_refused: AllocFailed<T>) -> WorldRefusal {
        WorldRefusal::Memory
    }
}

/// Channels with their inputs and their transports, on executors.
#[derive(Drop)]
pub struct World<S: Stage, T: Transport> {
    executors: u16,
    channels: Sequence<Recorded<S, T>>,
}

impl<S: Stage, T: Transport> Model for World<S, T> {
    ghost use Rattle.pl_world.specs.Worlds.{WorldView, IsWorld};

    ghost Value = { WorldView S T };

    ghost view = { λ w. record { executors = w.executors; channels = w.channels } };

    ghost invariant = { λ w. IsWorld S.meaning T.state (record { executors = w.executors; channels = w.channels }) };
}

impl<S: Stage, T: Transport> World<S, T> {
    ghost use Rattle.pl_world.specs.Worlds.{IsWorld};

    /// The world of these channels, in order, on a given number of executors. The condition is that each channel fits
    /// it; nothing is tested, and no memory is taken.
    pub fn of(channels: Sequence<Recorded<S, T>>, executors: u16) -> Self
        requires executors { executors ≤ MAX_EXECUTORS }
        requires channels { length channels ≤ MAX_CHANNELS }
        requires each { All (FitsLimits S.meaning S.stands_after T.state executors) channels }
        ensures executors { result.executors ≡ executors }
        ensures channels { result.channels ≡ channels }
    {
        World {
            executors,
            channels,
        }
    }

    /// Channels with these pipelines, inputs and transports, in order, on a given number of executors. An input is the
    /// chunks and user events of each burst, and after how many bursts an abort comes. Refused as `Limit` where the
    /// world would not be within its limits, then as `Memory`; what was handed in is gone then.
    pub fn new(
        alloc: Global,
        pipelines: Sequence<Placed<S>>,
        inputs: Sequence<ReadPlan>,
        transports: Sequence<T>,
        executors: u16,
    ) -> Result<Self, WorldRefusal>
        requires small { HaveSmallLanes S.meaning S.stands_after T.state pipelines inputs transports executors }
        requires uncalled { All (λ transport. IsUncalled (T.state transport)) transports }
        ensures answers { AnswersWorld pipelines inputs transports executors result }
    {
        if !is_within(
            pipelines.as_slice(),
            inputs.as_slice(),
            transports.as_slice(),
            executors,
        ) {
            return Err(WorldRefusal::Limit);
        }
        let channels = joined(
            alloc,
            pipelines.into_vec(),
            inputs.into_vec(),
            transports.into_vec(),
        )?;
        Ok(World::of(Sequence::from_vec(channels), executors))
    }

    /// How many executors there are.
    pub fn executors(&self) -> u16
        ensures { result ≡ self.now.executors }
    {
        self.executors
    }

    /// The channels in order.
    pub fn channels(&self) -> &[Recorded<S, T>]
        ensures { result.now ≡ self.now.channels }
    {
        self.channels.as_slice()
    }

    /// The channels in order, to be moved out, and what is true of every world.
    pub fn into_channels(self) -> Sequence<Recorded<S, T>>
        ensures channels { result ≡ self.channels }
        ensures is_world { IsWorld S.meaning T.state self }
    {
        self.channels
    }
}

impl<S: Thrifty, T: Transport> World<S, T> {
    /// [`World::new`] of handlers that make no more than they take, so that their lanes are small whatever comes in and
    /// nothing is to be shown of them. Refused as `Limit` where the world would not be within its limits, then as
    /// `Memory`; what was handed in is gone then.
    pub fn of_thrifty(
        alloc: Global,
        pipelines: Sequence<Placed<S>>,
        inputs: Sequence<ReadPlan>,
        transports: Sequence<T>,
        executors: u16,
    ) -> Result<Self, WorldRefusal>
        requires { All (λ transport. IsUncalled (T.state transport)) transports }
        ensures answers { AnswersWorld pipelines inputs transports executors result }
    {
        World::new(alloc, pipelines, inputs, transports, executors)
    }
}

/// Each pipeline with its input and its transport.
fn joined<S: Stage, T: Transport>(
    alloc: Global,
    pipelines: Vec<Placed<S>>,
    inputs: Vec<ReadPlan>,
    transports: Vec<T>,
) -> Result<Vec<Recorded<S, T>>, AllocError>
    ensures { IfOk result (λ channels. channels.items ≡ recorded pipelines.items inputs.items transports.items) }
{
    let mut channels = Vec::with_capacity(alloc, pipelines.len())?;
    for ((pipeline, input), transport) in pipelines.into_iter().zip(inputs).zip(transports) {
        channels.push(Recorded {
            pipeline,
            input,
            transport,
        })?;
    }
    Ok(channels)
}

/// Whether a world of these is within its limits.
fn is_within<S: Stage, T: Transport>(
    pipelines: &[Placed<S>],
    inputs: &[ReadPlan],
    transports: &[T],
    executors: u16,
) -> bool
    ensures within { result ≡ is_within pipelines.now inputs.now transports.now executors }
    ensures paths { IsTrue result → All (IsPath S.meaning S.stands_after) pipelines.now }
{
    executors <= MAX_EXECUTORS
        && pipelines.len() <= MAX_CHANNELS
        && pipelines.len() == inputs.len()
        && pipelines.len() == transports.len()
        && all_placed(pipelines, executors)
        && all_fit(inputs)
}

/// Whether each pipeline is placed on executors that are there.
fn all_placed<S: Stage>(pipelines: &[Placed<S>], executors: u16) -> bool
    ensures placed { result ≡ list_all (is_placed executors) pipelines.now }
    ensures paths { IsTrue result → All (IsPath S.meaning S.stands_after) pipelines.now }
{
    for pipeline in pipelines {
        if !is_placed(pipeline, executors) {
            return false;
        }
    }
    true
}

/// Whether each hop of a pipeline has an executor that is there.
fn is_placed<S: Stage>(pipeline: &Placed<S>, executors: u16) -> bool
    ensures placed { result ≡ is_placed executors pipeline.now }
    ensures path { IsPath S.meaning S.stands_after pipeline.now }
{
    let hops = pipeline.inbound() + pipeline.outbound() + 2;
    for hop in 0..=hops {
        match pipeline.executor_of(hop) {
            None => return true,
            Some(executor) if executor < executors => {}
            Some(_) => return false,
        }
    }
    true
}

/// Whether each input is within the limits.
fn all_fit(inputs: &[ReadPlan]) -> bool
    ensures { result ≡ list_all input_fits inputs.now }
{
    inputs.iter().all(input_fits)
}
