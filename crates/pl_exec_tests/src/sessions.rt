//! Sessions of the line protocol, and the queues over which they are run.

use pl_exec::QueueKind;
use std::alloc::{AllocError, Global};

/// Each kind of queue.
pub(crate) const QUEUES: [QueueKind; 2] = [QueueKind::Ring, QueueKind::Waiting];

/// What comes to a channel: a PING, or nothing.
pub(crate) const PING: &str = r#"[["PING\r\n"]]"#;

pub(crate) const NOTHING: &str = "[]";

const LINE_PROTOCOL: &str = r#"{"op":"last","name":"lines","kind":"lines","max":64},
{"op":"last","name":"decode","kind":"decode"},
{"op":"last","name":"lineend","kind":"lineend"},
{"op":"last","name":"encode","kind":"encode"},
{"op":"last","name":"service","kind":"service"}"#;

/// A session with one channel on one loop: more handlers than those of the line protocol, in front of them, and its other
/// members.
pub(crate) fn with_channel(
    alloc: Global,
    first: &str,
    members: &str,
) -> Result<String, AllocError> {
    format!(in alloc;
        "{{\"version\":1,\"capacity\":4,\"loops\":1,\"channels\":[{{\"handlers\":[{first}{LINE_PROTOCOL}],{members}}}]}}"
    )
}

/// A session with a loop for each channel, to which these bursts come.
pub(crate) fn on_loops(alloc: Global, bursts: &[&str]) -> Result<String, AllocError> {
    let mut channels = String::new(alloc);
    for burst in bursts {
        if !channels.is_empty() {
            channels.push_str(",")?;
        }
        let channel = format!(in alloc; "{{\"handlers\":[{LINE_PROTOCOL}],\"bursts\":{burst}}}")?;
        channels.push_str(channel.as_str())?;
    }
    let loops = bursts.len();
    format!(in alloc;
        "{{\"version\":1,\"capacity\":4,\"loops\":{loops},\"channels\":[{channels}]}}"
    )
}

/// A session with one channel that takes PING, whose decoder is on an executor of its own, and queues of so many items.
pub(crate) fn decoded_apart(alloc: Global, capacity: u16) -> Result<String, AllocError> {
    let handlers = LINE_PROTOCOL.replace(alloc, r#""decode"}"#, r#""decode","group":"a"}"#)?;
    format!(in alloc;
        "{{\"version\":1,\"capacity\":{capacity},\"loops\":1,\"groups\":[{{\"name\":\"a\",\"size\":1}}],\"channels\":[{{\"handlers\":[{handlers}],\"bursts\":{PING}}}]}}"
    )
}
