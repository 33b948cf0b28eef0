//! Sessions of one channel, as texts, their channels made live, and their whole reports.

ghost use Rattle.std.specs.Prelude.{All, IfOk};
ghost use Rattle.pl_world.specs.Worlds.{IsUncalled};

use crate::tests::cutting::Bursts;
use crate::tests::handed::Fed;
use pl_event::Sequence;
use pl_head::{MemoryTransport, ReadPlan, Transport};
use pl_live::Live;
use pl_nodes_tests::Trickle;
use pl_stages::Handler;
use pl_text::read_session;
use pl_world::{ChannelReport, Recorded, Session, World, plain_world};
use std::alloc::{AllocError, Global};
use std::test::Fail;

/// A live channel of built-in handlers over memory, with what it has handed out.
pub(crate) type Channel = Fed<MemoryTransport>;

/// A session of one channel on one loop: its version, its handlers as edits, of which the first stands apart, further members
/// of the channel, each after a comma, and its bursts.
pub(crate) type Sample = (u8, &'static str, &'static str, &'static str, &'static str);

/// Lines of at most 64 bytes.
pub(crate) const LINES: &str = r#"{"op":"last","name":"lines","kind":"lines","max":64}"#;

/// Lines of at most 8,192 bytes, the most there may be.
pub(crate) const LONG_LINES: &str = r#"{"op":"last","name":"lines","kind":"lines","max":8192}"#;

/// What serves the lines.
pub(crate) const SERVED: &str = r#"{"op":"last","name":"decode","kind":"decode"},
{"op":"last","name":"lineend","kind":"lineend"},
{"op":"last","name":"encode","kind":"encode"},
{"op":"last","name":"service","kind":"service"}"#;

/// The same where the writes of the service do not pass the encoder.
pub(crate) const ENCODER_BEHIND: &str = r#"{"op":"last","name":"decode","kind":"decode"},
{"op":"last","name":"lineend","kind":"lineend"},
{"op":"last","name":"service","kind":"service"},
{"op":"last","name":"encode","kind":"encode"}"#;

/// Lines that are served, where each second flush passes.
pub(crate) const SECOND_FLUSH: &str =
    r#"{"op":"last","name":"flush_every","kind":"flush_every","n":2},
{"op":"last","name":"lines","kind":"lines","max":64}"#;

/// Frames of at most 64 bytes, whose lengths have two bytes, and what serves them.
pub(crate) const FRAMES: &str =
    r#"{"op":"last","name":"length","kind":"length","width":2,"max":64}"#;

pub(crate) const FRAMES_SERVED: &str = r#"{"op":"last","name":"decode","kind":"decode"},
{"op":"last","name":"prepend","kind":"prepend","width":2},
{"op":"last","name":"encode","kind":"encode"},
{"op":"last","name":"service","kind":"service"}"#;

/// Marks that one reply passes.
pub(crate) const LOW_MARKS: &str = r#","low":1,"high":2"#;

/// A transport that accepts as much as any may of each call.
pub(crate) const WIDE: u32 = 65_536;

/// The text of a session.
pub(crate) fn text_of(alloc: Global, sample: Sample) -> Result<String, AllocError> {
    let (version, first, rest, members, bursts) = sample;
    format!(in alloc;
        "{{\"version\":{version},\"capacity\":1,\"loops\":1,\"channels\":[{{\"handlers\":[{first},{rest}]{members},\"bursts\":{bursts}}}]}}"
    )
}

/// The channel of a session, as it is recorded.
pub(crate) fn recorded(
    alloc: Global,
    text: &str,
) -> Result<Recorded<Handler, MemoryTransport>, Fail> {
    let Session { world, .. } = read_session(alloc, text)?;
    let mut channels = world.into_channels().into_vec();
    match channels.pop() {
        Some(recorded) => Ok(recorded),
        None => Err(Fail::new("no channel")),
    }
}

/// A transport over memory that was not called.
pub(crate) fn memory_transport(alloc: Global, window: u32, fail_at: Option<u32>) -> MemoryTransport
    ensures { IsUncalled (⟦<MemoryTransport as Transport>⟧.state result) }
{
    MemoryTransport::new(alloc, window, fail_at)
}

/// A transport of a user's own that was not called, and accepts no byte at each odd call and one at each even call.
fn trickle(alloc: Global) -> Trickle
    ensures { IsUncalled (⟦<Trickle as Transport>⟧.state result) }
{
    Trickle::new(alloc)
}

/// The channel of a session, fed nothing, whose transport accepts so many bytes a call and may fail at one.
pub(crate) fn channel_of(
    alloc: Global,
    text: &str,
    window: u32,
    fail_at: Option<u32>,
) -> Result<Channel, Fail> {
    let Recorded { pipeline, .. } = recorded(alloc, text)?;
    let transport = memory_transport(alloc, window, fail_at);
    Ok(Fed::new(alloc, Live::new(alloc, pipeline, transport)?))
}

/// The same over a transport that trickles.
pub(crate) fn slow_channel_of(alloc: Global, text: &str) -> Result<Fed<Trickle>, Fail> {
    let Recorded { pipeline, .. } = recorded(alloc, text)?;
    let live = Live::new(alloc, pipeline, trickle(alloc))?;
    Ok(Fed::new(alloc, live))
}

/// Only this element.
fn only<T: Drop>(alloc: Global, element: T) -> Result<Sequence<T>, AllocError> {
    let mut elements = Sequence::new(alloc);
    elements.push(element)?;
    Ok(elements)
}

/// One transport that was not called.
fn one_transport<T: Transport>(alloc: Global, transport: T) -> Result<Sequence<T>, AllocError>
    requires { IsUncalled (T.state transport) }
    ensures { IfOk result (λ transports. All (λ t. IsUncalled (T.state t)) transports) }
{
    let mut transports = Sequence::new(alloc);
    transports.push(transport)?;
    Ok(transports)
}

/// The channel of a session, with these bursts in place of its own.
fn world_of(
    alloc: Global,
    text: &str,
    bursts: Bursts,
) -> Result<World<Handler, MemoryTransport>, Fail> {
    let Recorded { pipeline, .. } = recorded(alloc, text)?;
    let pipelines = only(alloc, pipeline)?;
    let inputs = only(
        alloc,
        ReadPlan {
            bursts,
            abort_after: None,
        },
    )?;
    let transports = one_transport(alloc, memory_transport(alloc, WIDE, None))?;
    Ok(World::of_thrifty(alloc, pipelines, inputs, transports, 1)?)
}

/// The whole report of the channel of a session, were these its bursts.
pub(crate) fn plain_of(alloc: Global, text: &str, bursts: Bursts) -> Result<ChannelReport, Fail> {
    let report = plain_world(alloc, world_of(alloc, text, bursts)?)?;
    let mut channels = report.channels.into_vec();
    match channels.pop() {
        Some(channel) => Ok(channel),
        None => Err(Fail::new("no report")),
    }
}
