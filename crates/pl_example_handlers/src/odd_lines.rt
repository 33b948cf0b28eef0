//! Every second line is dropped: a handler that remembers something.

ghost use Rattle.std.specs.Prelude.{◌≡◌, []};
ghost use Rattle.pl_example_handlers.specs.OddLines.{is_odd, odd_lines, odd_lines-thrifty, passed};
ghost use Rattle.pl_event.specs.Passing.{passing_up-lawful};

use pl_event::{BareStage, Direction, Event, Fused, Message, Stage, Taken, Turned};
use pl_stages::ThriftyBare;

/// Drops the second, fourth, sixth and so on of the lines that are read, and hands on all else.
#[derive(Debug, Drop)]
pub struct OddLines {
    /// Whether the lines so far are odd in number, so that the next one is dropped.
    is_odd: bool,
}

impl OddLines {
    /// The handler before any line. It takes no memory.
    pub fn new() -> Fused<Self>
        ensures meaning { ⟦<Fused<OddLines> as Stage>⟧.meaning result ≡ odd_lines }
        ensures stands { ⟦<Fused<OddLines> as Stage>⟧.stands_after result [] }
    {
        Fused::new(OddLines { is_odd: false })
    }
}

impl BareStage for OddLines {
    ghost meaning = { λ s. odd_lines };

    ghost stands_after = { λ s xs. s.is_odd ≡ is_odd xs };

    fn direction(&self) -> Direction {
        Direction::Inbound
    }

    fn take(&mut self, event: Event, up: &mut Vec<Event>, _down: &mut Vec<Event>) -> Taken {
        let is_line = match &event {
            Event::Read(Message::Line(_)) => true,
            _ => false,
        };
        if !(is_line && self.is_odd) {
            up.push(event)?;
        }
        self.is_odd ^= is_line;
        Ok(Turned::Open)
    }

    ghost lawful = { λ s. passing_up-lawful passed };
}

impl ThriftyBare for OddLines {
    ghost thrifty = { λ _. odd_lines-thrifty };
}
