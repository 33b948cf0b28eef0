//! What contexts hand to one another.

use crate::byte_string::ByteString;
use crate::keys::Key;

/// One event of a channel (Netty's `ChannelInboundHandler` and `ChannelOutboundHandler`, one variant a method).
#[derive(Clone, Debug, PartialEq, Eq, Drop)]
pub enum Event {
    /// The channel is there: `channelActive`.
    Active,
    /// A message came in: `channelRead`.
    Read(Message),
    /// The burst that brought the last reads is over: `channelReadComplete`.
    ReadComplete,
    /// A handler met input that is not a message: `exceptionCaught`.
    Caught(Caught),
    /// An event of a user's own, by the number that it was given: `userEventTriggered`.
    User(u32),
    /// A message goes out: `write`.
    Write(Message),
    /// What was written so far is to leave: `flush`.
    Flush,
}

/// What a read or a write carries.
#[derive(Clone, Debug, PartialEq, Eq, Drop)]
pub enum Message {
    /// Bytes as they came, or as they are to leave.
    Bytes(ByteString),
    /// One line, without its end.
    Line(ByteString),
    Command(Command),
    Reply(Reply),
}

/// What a client asks for (`docs/FORMATS.md`, "Commands").
#[derive(Clone, Debug, PartialEq, Eq, Drop)]
pub enum Command {
    Ping,
    Quit,
    Echo(ByteString),
    /// Adds a number, below 1,000,000,000, to the total of a key.
    Add(Key, u32),
    Get(Key),
}

/// What the service answers (`docs/FORMATS.md`, "Replies").
#[derive(Clone, Debug, PartialEq, Eq, Drop)]
pub enum Reply {
    Pong,
    Text(ByteString),
    /// The total of a key.
    Total(u64),
    Bye,
    Error(Fault),
}

/// What an error reply says.
#[derive(Clone, Copy, Debug, PartialEq, Eq)]
pub enum Fault {
    Unknown,
    Syntax,
    TooLong,
    /// A total would be above its limit.
    Range,
    /// As many keys are held as there may be.
    Full,
}

/// What a stage met in its input in place of a message.
#[derive(Clone, Copy, Debug, PartialEq, Eq)]
pub enum Caught {
    TooLong,
    Unknown,
    Syntax,
}
