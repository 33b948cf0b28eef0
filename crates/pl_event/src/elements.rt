//! What a burst brings.

ghost use Rattle.std.specs.Prelude.{◌≡◌};
ghost use Rattle.pl_event.specs.Inputs.{element_event, element_size};

use crate::byte_string::ByteString;
use crate::events::{Event, Message};

/// One element of a burst: what reaches a channel's first handler as one event.
#[derive(Clone, Debug, PartialEq, Eq, Drop)]
pub enum Element {
    /// Bytes that the transport read, as one message: `channelRead`.
    Chunk(ByteString),
    /// An event of a user's own: `userEventTriggered`.
    User(u32),
}

impl Element {
    /// The event that it comes as. The bytes of a chunk are moved.
    pub fn into_event(self) -> Event
        ensures { result ≡ element_event self }
    {
        match self {
            Element::Chunk(bytes) => Event::Read(Message::Bytes(bytes)),
            Element::User(number) => Event::User(number),
        }
    }

    /// How many bytes it brings. A user event brings none.
    pub fn size(&self) -> usize
        ensures { result ≡ element_size self.now }
    {
        match self {
            Element::Chunk(bytes) => bytes.len(),
            Element::User(_) => 0,
        }
    }
}
