//! The handler that writes replies as bytes, and the texts of replies.

ghost use Rattle.std.specs.Prelude.{◌≡◌, false, ◌++◌, [], IfOk, ⊤};
ghost use Rattle.pl_event.specs.Mappings.{mapping_down-lawful};
ghost use Rattle.pl_stages.specs.Replies.{reply_encoding, encoded, reply_text, fault_text};

use itoa::Buffer;
use pl_event::{
    BareStage, ByteString, Changed, Direction, Event, Fault, Fused, Message, Reply, Stage, Taken,
    Turned,
};
use std::alloc::{AllocError, Global};

/// Writes each reply as its text (`docs/FORMATS.md`, "Replies").
#[derive(Debug, Drop)]
pub struct ReplyEncoder;

impl ReplyEncoder {
    /// The handler. It takes no memory until its first step.
    pub fn new() -> Fused<Self>
        ensures meaning { ⟦<Fused<ReplyEncoder> as Stage>⟧.meaning result ≡ reply_encoding }
        ensures stands { ⟦<Fused<ReplyEncoder> as Stage>⟧.stands_after result [] }
        ensures unspent { ⟦<Fused<ReplyEncoder> as Stage>⟧.is_spent result ≡ false }
    {
        Fused::new(ReplyEncoder)
    }
}

// The step of a `Mapping` has no list of events, whose allocator the texts are made with.
impl BareStage for ReplyEncoder {
    ghost meaning = { λ s. reply_encoding };

    ghost stands_after = { λ s xs. ⊤ };

    fn direction(&self) -> Direction {
        Direction::Outbound
    }

    fn take(&mut self, event: Event, _up: &mut Vec<Event>, down: &mut Vec<Event>) -> Taken {
        let encoded = encoded(*down.allocator(), event)?;
        down.push(encoded)?;
        Ok(Turned::Open)
    }

    fn change(&mut self, event: &mut Event, down: &mut Vec<Event>) -> Changed {
        if let Event::Write(Message::Reply(reply)) = event {
            match reply_text(*down.allocator(), reply) {
                Ok(text) => *event = Event::Write(Message::Bytes(text)),
                Err(_) => return Changed::No,
            }
        }
        Changed::Down
    }

    ghost lawful = { λ s. mapping_down-lawful encoded };
}

/// The event with its reply, if it is a write of one, as text.
fn encoded(alloc: Global, event: Event) -> Result<Event, AllocError>
    ensures { IfOk result (λ made. made ≡ encoded event) }
{
    match event {
        Event::Write(Message::Reply(reply)) => {
            let text = reply_text(alloc, &reply)?;
            Ok(Event::Write(Message::Bytes(text)))
        }
        other => Ok(other),
    }
}

/// The text of a reply, as it is sent. An `Err` is out of memory.
pub fn reply_text(alloc: Global, reply: &Reply) -> Result<ByteString, AllocError>
    ensures { IfOk result (λ text. text ≡ reply_text reply.now) }
{
    match reply {
        Reply::Pong => ByteString::from_slice(alloc, b"+PONG"),
        Reply::Text(bytes) => marked(alloc, b"+", bytes.as_slice()),
        Reply::Total(total) => marked(alloc, b":", Buffer::new().format(*total).as_bytes()),
        Reply::Bye => ByteString::from_slice(alloc, b"+BYE"),
        Reply::Error(fault) => ByteString::from_slice(alloc, fault_text(*fault)),
    }
}

/// A mark and what it marks.
fn marked(alloc: Global, mark: &[u8], text: &[u8]) -> Result<ByteString, AllocError>
    ensures { IfOk result (λ made. made ≡ mark.now ++ text.now) }
{
    let mut made = ByteString::from_slice(alloc, mark)?;
    made.extend_from_slice(text)?;
    Ok(made)
}

/// The text of a fault, without the line's end.
fn fault_text(fault: Fault) -> &'static [u8]
    ensures { result.now ≡ fault_text fault }
{
    match fault {
        Fault::Unknown => b"-ERR unknown",
        Fault::Syntax => b"-ERR syntax",
        Fault::TooLong => b"-ERR toolong",
        Fault::Range => b"-ERR range",
        Fault::Full => b"-ERR full",
    }
}
