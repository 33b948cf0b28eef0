//! How a write ends, and why a channel fails.

/// How a write ended (Netty's `ChannelPromise`, which is settled once).
#[derive(Clone, Copy, Debug, PartialEq, Eq)]
pub enum Outcome {
    /// Its last byte was accepted by the transport.
    Success,
    /// It was not flushed when the end or a failure reached the head, or had not left whole when the head was aborted or
    /// ran out of memory, or came after that.
    Closed,
    /// The transport failed before its last byte.
    Fault,
    /// Its message is not bytes.
    Unsupported,
}

/// Why a channel, or a handler of it, failed.
#[derive(Clone, Copy, Debug, PartialEq, Eq)]
pub enum Cause {
    /// Out of memory.
    Memory,
    /// The transport failed.
    Transport,
    /// The session aborts the channel.
    Aborted,
    /// An executor had closed and accepted no task.
    Refused,
}
