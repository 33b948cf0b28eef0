//! Lines in upper case: a handler that makes one event of each and remembers nothing.

ghost use Rattle.pl_example_handlers.specs.UpperCase.{upper_cased, upper_cased-light};

use pl_event::{ByteString, Event, Mapping, Message};
use pl_stages::ThriftyMapping;
use std::alloc::AllocError;

/// Puts each line that is read in upper case, and hands on all else as it is. `MapUp::new(UpperCase)`
/// is the handler.
#[derive(Debug, Drop)]
pub struct UpperCase;

impl Mapping for UpperCase {
    ghost made_of = { λ _. upper_cased };

    fn map(&self, event: Event) -> Result<Event, AllocError> {
        match event {
            Event::Read(Message::Line(line)) => {
                let mut bytes = line.into_vec()?;
                bytes.make_ascii_uppercase();
                Ok(Event::Read(Message::Line(ByteString::from_vec(bytes))))
            }
            other => Ok(other),
        }
    }
}

impl ThriftyMapping for UpperCase {
    ghost thrifty = { λ _. upper_cased-light };
}
