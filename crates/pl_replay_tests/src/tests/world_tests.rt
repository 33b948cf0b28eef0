//! Which worlds are refused.
ghost use Rattle.std.specs.Prelude.{◌≤◌, All, IfOk};
ghost use Rattle.pl_world.specs.Worlds.{IsUncalled};

use crate::tests::net_tests::{TOGETHER, line_protocol, pipeline, to_its_end};
use crate::tests::trickle_tests::trickle;
use crate::tests::{Bursts, PING, assert_named, text};
use pl_build::{Groups, Placed};
use pl_event::{Element, Sequence};
use pl_head::{MemoryTransport, ReadPlan, Transport};
use pl_stages::Handler;
use pl_world::{World, WorldRefusal, fits, plain_world};
use std::alloc::{AllocError, Global};
use std::test::Fail;

/// A world of built-in handlers, whose lanes are small.
pub(crate) fn world_over<T: Transport>(
    alloc: Global,
    pipelines: Sequence<Placed<Handler>>,
    inputs: Sequence<ReadPlan>,
    transports: Sequence<T>,
    executors: u16,
) -> Result<World<Handler, T>, WorldRefusal>
    requires uncalled { All (λ transport. IsUncalled (T.state transport)) transports }
{
    World::new(alloc, pipelines, inputs, transports, executors)
}

/// One transport that was not called.
pub(crate) fn one_transport<T: Transport>(
    alloc: Global,
    transport: T,
) -> Result<Sequence<T>, AllocError>
    requires { IsUncalled (T.state transport) }
    ensures { IfOk result (λ transports. All (λ t. IsUncalled (T.state t)) transports) }
{
    let mut transports = Sequence::new(alloc);
    transports.push(transport)?;
    Ok(transports)
}

/// A transport over memory that was not called.
pub(crate) fn memory_transport(alloc: Global, window: u32, fail_at: Option<u32>) -> MemoryTransport
    ensures { IsUncalled (⟦<MemoryTransport as Transport>⟧.state result) }
{
    MemoryTransport::new(alloc, window, fail_at)
}

/// Only this element.
pub(crate) fn only<T: Drop>(alloc: Global, element: T) -> Result<Sequence<T>, AllocError> {
    let mut elements = Sequence::new(alloc);
    elements.push(element)?;
    Ok(elements)
}

/// A world of one channel of built-in handlers, over a transport that was not called.
pub(crate) fn one_channel<T: Transport>(
    alloc: Global,
    pipeline: Placed<Handler>,
    input: ReadPlan,
    transport: T,
    executors: u16,
) -> Result<World<Handler, T>, Fail>
    requires { IsUncalled (T.state transport) }
{
    let pipelines = only(alloc, pipeline)?;
    let inputs = only(alloc, input)?;
    let transports = one_transport(alloc, transport)?;
    Ok(world_over(alloc, pipelines, inputs, transports, executors)?)
}

/// Any number of channels over memory, with windows of a given number of bytes.
pub(crate) fn windowed_world(
    alloc: Global,
    pipelines: Sequence<Placed<Handler>>,
    inputs: Sequence<ReadPlan>,
    window: u32,
    executors: u16,
) -> Result<World<Handler, MemoryTransport>, WorldRefusal>
    requires { 1 ≤ window }
{
    let mut transports = Sequence::new(alloc);
    for _ in 0..pipelines.len() {
        transports.push(MemoryTransport::new(alloc, window, None))?;
    }
    world_over(alloc, pipelines, inputs, transports, executors)
}

/// The same with wide windows.
pub(crate) fn world_of(
    alloc: Global,
    pipelines: Sequence<Placed<Handler>>,
    inputs: Sequence<ReadPlan>,
    executors: u16,
) -> Result<World<Handler, MemoryTransport>, WorldRefusal> {
    windowed_world(alloc, pipelines, inputs, 65_536, executors)
}

/// This many pipelines of the line protocol.
fn equal_pipelines(
    alloc: Global,
    groups: &mut Groups,
    count: usize,
) -> Result<Sequence<Placed<Handler>>, Fail> {
    let mut pipelines = Sequence::new(alloc);
    for _ in 0..count {
        pipelines.push(pipeline(alloc, groups, &line_protocol(TOGETHER))?)?;
    }
    Ok(pipelines)
}

/// This many equal inputs.
fn equal_plans(alloc: Global, input: Bursts, count: usize) -> Result<Sequence<ReadPlan>, Fail> {
    let mut plans = Sequence::new(alloc);
    for _ in 0..count {
        plans.push(to_its_end(alloc, input)?)?;
    }
    Ok(plans)
}

/// The refusal of a given number of channels with the line protocol, with a given number of inputs.
fn refusal(
    alloc: Global,
    channels: usize,
    inputs: usize,
    executors: u16,
    input: Bursts,
) -> Result<Option<WorldRefusal>, Fail> {
    let mut groups = Groups::new(alloc, 1, &[])?;
    let pipelines = equal_pipelines(alloc, &mut groups, channels)?;
    let plans = equal_plans(alloc, input, inputs)?;
    match world_of(alloc, pipelines, plans, executors) {
        Ok(_) => Ok(None),
        Err(refusal) => Ok(Some(refusal)),
    }
}

/// How many channels, inputs and executors, and why there is no world of so many.
const NUMBERS: [(usize, usize, u16, Option<WorldRefusal>); 7] = [
    (64, 64, 1, None),
    (65, 65, 1, Some(WorldRefusal::Limit)),
    (1, 1, 64, None),
    (1, 1, 65, Some(WorldRefusal::Limit)),
    (1, 1, 0, Some(WorldRefusal::Limit)),
    (1, 2, 1, Some(WorldRefusal::Limit)),
    (2, 1, 1, Some(WorldRefusal::Limit)),
];

#[test]
fn too_many_channels(rt: HostRuntime) -> Result<(), Fail> {
    for (channels, inputs, executors, want) in NUMBERS {
        let found = refusal(rt.alloc(), channels, inputs, executors, &[&[b"PING\n"]])?;
        assert_eq!(rt; found, want);
    }
    Ok(())
}

/// The refusal of a given number of channels with as many inputs, over one transport.
fn refusal_over_one(alloc: Global, channels: usize) -> Result<Option<WorldRefusal>, Fail> {
    let mut groups = Groups::new(alloc, 1, &[])?;
    let pipelines = equal_pipelines(alloc, &mut groups, channels)?;
    let plans = equal_plans(alloc, PING, channels)?;
    let transports = one_transport(alloc, trickle(alloc))?;
    match world_over(alloc, pipelines, plans, transports, groups.executors()) {
        Ok(_) => Ok(None),
        Err(refusal) => Ok(Some(refusal)),
    }
}

/// Each pipeline has a transport of its own, and no transport is left over.
#[test]
fn one_transport_for_each_pipeline(rt: HostRuntime) -> Result<(), Fail> {
    for (channels, want) in [
        (0, Some(WorldRefusal::Limit)),
        (1, None),
        (2, Some(WorldRefusal::Limit)),
    ] {
        assert_eq!(rt; refusal_over_one(rt.alloc(), channels)?, want);
    }
    Ok(())
}

/// The refusal of one channel that reads this many bursts of no chunk.
fn refusal_of_bursts(alloc: Global, count: usize) -> Result<Option<WorldRefusal>, Fail> {
    let none: &[&[u8]] = &[];
    let bursts = vec![in alloc; none; count]?;
    refusal(alloc, 1, 1, 1, bursts.as_slice())
}

/// The same with one burst of this many empty chunks.
fn refusal_of_chunks(alloc: Global, count: usize) -> Result<Option<WorldRefusal>, Fail> {
    let empty: &[u8] = b"";
    let chunks = vec![in alloc; empty; count]?;
    refusal(alloc, 1, 1, 1, &[chunks.as_slice()])
}

/// The same with one chunk of this many bytes.
fn refusal_of_bytes(alloc: Global, count: usize) -> Result<Option<WorldRefusal>, Fail> {
    let bytes = vec![in alloc; b'a'; count]?;
    refusal(alloc, 1, 1, 1, &[&[bytes.as_slice()]])
}

#[test]
fn too_long_inputs(rt: HostRuntime) -> Result<(), Fail> {
    let alloc = rt.alloc();
    for (past, want) in [(0, None), (1, Some(WorldRefusal::Limit))] {
        assert_eq!(rt; refusal_of_bursts(alloc, 4_096 + past)?, want);
        assert_eq!(rt; refusal_of_chunks(alloc, 16_384 + past)?, want);
        assert_eq!(rt; refusal_of_bytes(alloc, 1_048_576 + past)?, want);
    }
    Ok(())
}

/// The refusal of a given number of channels with the line protocol over memory, with a given number of inputs.
fn refusal_over_memory(
    alloc: Global,
    channels: usize,
    inputs: usize,
    executors: u16,
    input: Bursts,
) -> Result<Option<WorldRefusal>, Fail> {
    let mut groups = Groups::new(alloc, 1, &[])?;
    let pipelines = equal_pipelines(alloc, &mut groups, channels)?;
    let inputs = vec![in alloc; input; inputs]?;
    match World::over_memory(alloc, pipelines.into_vec(), inputs.as_slice(), executors) {
        Ok(_) => Ok(None),
        Err(refusal) => Ok(Some(refusal)),
    }
}

#[test]
fn refused_over_memory(rt: HostRuntime) -> Result<(), Fail> {
    let alloc = rt.alloc();
    for (channels, inputs, executors, want) in NUMBERS {
        assert_eq!(rt;
            refusal_over_memory(alloc, channels, inputs, executors, PING)?,
            want
        );
    }
    let none: &[&[u8]] = &[];
    for (count, want) in [(4_096, None), (4_097, Some(WorldRefusal::Limit))] {
        let bursts = vec![in alloc; none; count]?;
        assert_eq!(rt;
            refusal_over_memory(alloc, 1, 1, 1, bursts.as_slice())?,
            want
        );
    }
    Ok(())
}

/// Each channel has the pipeline and the input of its place, and a transport that takes all it is offered.
#[test]
fn world_over_memory(rt: HostRuntime) -> Result<(), Fail> {
    let alloc = rt.alloc();
    let mut groups = Groups::new(alloc, 1, &[])?;
    let pipelines = equal_pipelines(alloc, &mut groups, 2)?;
    let inputs: &[Bursts] = &[&[&[b"PI", b"NG\n"]], &[&[b"QUIT\n"]]];
    let world = World::over_memory(alloc, pipelines.into_vec(), inputs, groups.executors())?;
    let report = plain_world(alloc, world)?;
    let channels = report.channels.as_slice();
    assert_eq!(rt; channels.len(), 2);
    assert_eq!(rt; channels[0].bytes.as_slice(), b"+PONG\r\n".as_slice());
    assert_eq!(rt; channels[1].bytes.as_slice(), b"+BYE\r\n".as_slice());
    Ok(())
}

/// A burst of this many empty chunks, and then of this many user events.
fn mixed_burst(
    alloc: Global,
    chunks: usize,
    users: usize,
) -> Result<Sequence<Element>, AllocError> {
    let mut burst = Sequence::new(alloc);
    for _ in 0..chunks {
        burst.push(Element::Chunk(text(alloc, b"")?))?;
    }
    for _ in 0..users {
        burst.push(Element::User(7))?;
    }
    Ok(burst)
}

/// Chunks and user events count together.
#[test]
fn too_many_elements(rt: HostRuntime) -> Result<(), Fail> {
    for (chunks, users, want) in [
        (0, 16_384, true),
        (0, 16_385, false),
        (16_000, 384, true),
        (16_000, 385, false),
    ] {
        let burst = mixed_burst(rt.alloc(), chunks, users)?;
        assert_eq!(rt; fits(&[burst]), want);
    }
    Ok(())
}

/// A refusal is told by its number and its name.
#[test]
fn names_of_refusals(rt: HostRuntime) -> Result<(), Fail> {
    for (refusal, name) in [
        (WorldRefusal::Memory, "1 Memory"),
        (WorldRefusal::Limit, "2 Limit"),
    ] {
        assert_named(&rt, rt.alloc(), &refusal, name)?;
    }
    Ok(())
}
