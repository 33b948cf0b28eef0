//! The handler that holds flushes back.

ghost use Rattle.std.specs.Prelude.{◌≡◌, ◌%◌, ◌<◌, ◌≤◌, ◌↔◌, List, ◌++◌, ◌∷◌, [], IfOk, IsOk, false};
ghost use Rattle.pl_event.specs.declared.events.Event.{Event};
ghost use Rattle.pl_stages.specs.Flushes.{flush_every, flush_every-lawful, flushes, is_flush_event, passes};

use crate::limits::MAX_FLUSHES;
use crate::stage_refusal::{StageRefusal, within};
use pl_event::{BareStage, Direction, Event, Fused, Stage, Taken, Turned};

/// Passes every n-th flush, and every event that is not a flush (`docs/FORMATS.md`, "Handlers").
#[derive(Debug, Drop)]
pub struct FlushEvery {
    n: usize,
    /// The flushes since the last that passed.
    held_back: usize,
    ghost below: { held_back < n },
}

impl FlushEvery {
    /// The handler that passes every `n`-th flush. It is refused where `n` is not from 1 to [`MAX_FLUSHES`].
    pub fn new(n: usize) -> Result<Fused<Self>, StageRefusal>
        ensures limit { IsOk result ↔ ((1 ≤ n) × (n ≤ MAX_FLUSHES)) }
        ensures meaning { IfOk result (λ s. ⟦<Fused<FlushEvery> as Stage>⟧.meaning s ≡ flush_every n) }
        ensures stands { IfOk result (λ s. ⟦<Fused<FlushEvery> as Stage>⟧.stands_after s []) }
        ensures unspent { IfOk result (λ s. ⟦<Fused<FlushEvery> as Stage>⟧.is_spent s ≡ false) }
    {
        within(n, MAX_FLUSHES)?;
        Ok(Fused::new(FlushEvery { n, held_back: 0 }))
    }

    /// Whether this event passes. A flush is counted.
    fn passes(&mut self, event: &Event) -> bool
        ensures n { self.new.n ≡ self.old.n }
        ensures counted { (xs : List Event) → self.old.held_back ≡ flushes xs % self.old.n
            → self.new.held_back ≡ flushes (xs ++ event.now ∷ []) % self.old.n }
        ensures passes { (xs : List Event) → self.old.held_back ≡ flushes xs % self.old.n
            → result ≡ passes self.old.n xs event.now }
    {
        if !is_flush(event) {
            return true;
        }
        let counted = self.held_back + 1;
        if counted < self.n {
            self.held_back = counted;
            return false;
        }
        self.held_back = 0;
        true
    }
}

/// Whether the event is a flush.
fn is_flush(event: &Event) -> bool
    ensures { result ≡ is_flush_event event.now }
{
    match event {
        Event::Flush => true,
        _ => false,
    }
}

impl BareStage for FlushEvery {
    ghost meaning = { λ s. flush_every s.n };

    ghost stands_after = { λ s xs. s.held_back ≡ flushes xs % s.n };

    fn direction(&self) -> Direction {
        Direction::Outbound
    }

    fn take(&mut self, event: Event, _up: &mut Vec<Event>, down: &mut Vec<Event>) -> Taken {
        if self.passes(&event) {
            down.push(event)?;
        } else {
            drop(event);
        }
        Ok(Turned::Open)
    }

    ghost lawful = { λ s. flush_every-lawful s.n };
}
