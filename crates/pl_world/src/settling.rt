//! What becomes of the writes in a head's whole lane.

ghost use Rattle.std.specs.Prelude.{◌≡◌, ◌∷◌, ◌++◌, [], length, map, true, IfOk, OnOk, if◌then◌else◌};
ghost use Rattle.pl_event.specs.declared.events.Event.TheVariants as event;
ghost use Rattle.pl_event.specs.declared.outcomes.Outcome.TheVariants.{Closed};
ghost use Rattle.pl_head.specs.Writes.{write_by, is_flush, bytes_of, out, outcomes, late_outcome};

use pl_event::{ByteString, Event, Message, Outcome, Sequence};
use std::alloc::{AllocError, Global};
use std::mem;

/// The bytes of a head's lane and the outcome of each of its writes, when all that is flushed is written and the rest is
/// closed.
#[tactic(auto, using(crate::proofs::SettledWrites::outcomes_end))]
pub(crate) fn settle_writes(
    alloc: Global,
    events: Vec<Event>,
) -> Result<(ByteString, Sequence<Option<Outcome>>), AllocError>
    ensures bytes { IfOk result (λ made. made.0 ≡ out events.items) }
    ensures outcomes { IfOk result (λ made. made.1 ≡ outcomes events.items (length (out events.items)) true) }
{
    let mut writes = Writes {
        alloc,
        bytes: Vec::new(alloc),
        outcomes: Vec::new(alloc),
        unflushed: Vec::new(alloc),
    };
    for event in events {
        writes.take(event)?;
    }
    writes.close()
}

/// What became of the writes of a lane so far.
#[derive(Drop)]
struct Writes {
    alloc: Global,
    /// The bytes of those that are flushed.
    bytes: Vec<u8>,
    /// The outcome of each that is flushed.
    outcomes: Vec<Option<Outcome>>,
    /// Those since the last flush: the bytes of each, or None for a message of another kind.
    unflushed: Vec<Option<ByteString>>,
}

impl Writes {
    ghost use Rattle.pl_head.specs.WaitingMessages.{settled};

    /// Takes the next event of the lane.
    fn take(&mut self, event: Event) -> Result<(), AllocError>
        ensures bytes { OnOk result (self.new.bytes.items ≡ (if is_flush event then self.old.bytes.items ++ bytes_of self.old.unflushed.items else self.old.bytes.items)) }
        ensures outcomes { OnOk result (self.new.outcomes.items ≡ (if is_flush event then self.old.outcomes.items ++ map settled self.old.unflushed.items else self.old.outcomes.items)) }
        ensures unflushed { OnOk result (self.new.unflushed.items ≡ (if is_flush event then [] else self.old.unflushed.items ++ write_by event)) }
    {
        match event {
            Event::Write(message) => self.unflushed.push(bytes_in(message))?,
            Event::Flush => self.flush()?,
            _ => {}
        }
        Ok(())
    }

    /// What is unflushed is written.
    fn flush(&mut self) -> Result<(), AllocError>
        ensures bytes { OnOk result (self.new.bytes.items ≡ self.old.bytes.items ++ bytes_of self.old.unflushed.items) }
        ensures outcomes { OnOk result (self.new.outcomes.items ≡ self.old.outcomes.items ++ map settled self.old.unflushed.items) }
        ensures unflushed { OnOk result (self.new.unflushed.items ≡ []) }
    {
        let unflushed = mem::replace(&mut self.unflushed, Vec::new(self.alloc));
        for write in unflushed {
            match write {
                Some(bytes) => {
                    self.bytes.extend_from_slice(bytes.as_slice())?;
                    drop(bytes);
                    self.outcomes.push(Some(Outcome::Success))?;
                }
                None => self.outcomes.push(Some(Outcome::Unsupported))?,
            }
        }
        Ok(())
    }

    /// The bytes, and the outcome of each write. What is unflushed is closed.
    fn close(self) -> Result<(ByteString, Sequence<Option<Outcome>>), AllocError>
        ensures bytes { IfOk result (λ made. made.0 ≡ self.bytes.items) }
        ensures outcomes { IfOk result (λ made. made.1 ≡ self.outcomes.items ++ map (late_outcome Closed) self.unflushed.items) }
    {
        let Writes {
            bytes,
            mut outcomes,
            unflushed,
            ..
        } = self;
        for write in unflushed {
            outcomes.push(Some(match write {
                Some(_) => Outcome::Closed,
                None => Outcome::Unsupported,
            }))?;
        }
        Ok((ByteString::from_vec(bytes), Sequence::from_vec(outcomes)))
    }
}

/// The bytes of a message, or None of one of another kind.
fn bytes_in(message: Message) -> Option<ByteString>
    ensures { write_by (event.Write message) ≡ result ∷ [] }
{
    match message {
        Message::Bytes(bytes) => Some(bytes),
        _ => None,
    }
}
