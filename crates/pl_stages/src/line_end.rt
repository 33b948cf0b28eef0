//! The handler that ends each line written.

ghost use Rattle.std.specs.Prelude.{◌≡◌, false, []};
ghost use Rattle.pl_stages.specs.LineEnding.{line_ending, with_line_end};

use pl_event::{Event, MapDown, Mapping, Message, Stage};
use std::alloc::{AllocError, Global};

const CR_LF: &[u8] = b"\r\n";

/// Adds CR LF to each write of bytes (`docs/FORMATS.md`, "Handlers").
#[derive(Debug, Drop)]
pub struct LineEnd;

impl LineEnd {
    /// The handler. It takes no memory until its first step.
    pub fn new() -> MapDown<Self>
        ensures meaning { ⟦<MapDown<LineEnd> as Stage>⟧.meaning result ≡ line_ending }
        ensures stands { ⟦<MapDown<LineEnd> as Stage>⟧.stands_after result [] }
        ensures unspent { ⟦<MapDown<LineEnd> as Stage>⟧.is_spent result ≡ false }
    {
        MapDown::new(LineEnd)
    }
}

impl Mapping for LineEnd {
    ghost made_of = { λ s. with_line_end };

    fn map(&self, event: Event) -> Result<Event, AllocError> {
        match event {
            Event::Write(Message::Bytes(mut bytes)) => {
                bytes.extend_from_slice(CR_LF)?;
                Ok(Event::Write(Message::Bytes(bytes)))
            }
            other => Ok(other),
        }
    }

    fn change(&self, _alloc: Global, event: &mut Event) -> bool {
        match event {
            Event::Write(Message::Bytes(bytes)) => bytes.extend_from_slice(CR_LF).is_ok(),
            _ => true,
        }
    }
}
