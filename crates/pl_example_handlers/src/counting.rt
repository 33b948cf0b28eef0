//! Lines are counted, for whoever holds the count too.

ghost use Rattle.std.specs.Prelude.{◌≡◌, []};
ghost use Rattle.pl_event.specs.Mappings.{mapping_up-lawful};
ghost use Rattle.pl_example_handlers.specs.Counting.{counting, counting-thrifty, lines};

use pl_event::{BareStage, Direction, Event, Fused, Message, Stage, Taken, Turned};
use pl_stages::ThriftyBare;
use std::sync::Arc;
use std::sync::atomic::{AtomicU64, Ordering};

/// Counts the lines that are read, and hands on all that comes.
#[derive(Drop)]
pub struct Lines {
    seen: u64,
    /// What was seen last, to be read outside. No clause speaks of it.
    told: Arc<AtomicU64>,
}

impl Lines {
    /// The handler before any line.
    pub fn new(told: Arc<AtomicU64>) -> Fused<Self>
        ensures meaning { ⟦<Fused<Lines> as Stage>⟧.meaning result ≡ counting }
        ensures stands { ⟦<Fused<Lines> as Stage>⟧.stands_after result [] }
    {
        Fused::new(Lines { seen: 0, told })
    }
}

impl BareStage for Lines {
    ghost meaning = { λ _. counting };

    ghost stands_after = { λ s xs. s.seen ≡ lines xs };

    fn direction(&self) -> Direction {
        Direction::Inbound
    }

    #[tactic(auto, using(crate::proofs::Counts::line_more))]
    fn take(&mut self, event: Event, up: &mut Vec<Event>, _down: &mut Vec<Event>) -> Taken {
        if let Event::Read(Message::Line(_)) = &event {
            self.seen = self.seen.saturating_add(1);
            self.told.store(self.seen, Ordering::SeqCst);
        }
        up.push(event)?;
        Ok(Turned::Open)
    }

    ghost lawful = { λ _. mapping_up-lawful (λ x. x) };
}

impl ThriftyBare for Lines {
    ghost thrifty = { λ _. counting-thrifty };
}
