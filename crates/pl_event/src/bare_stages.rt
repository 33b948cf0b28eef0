//! Stages that leave it to a wrapper to remember a fault, and the wrapper.

ghost use Rattle.std.specs.Prelude.{◌≡◌, ◌≢◌, Bool, false, true, List, [], ◌∷◌, ◌++◌, IfOk, OnErr};
ghost use Rattle.pl_event.specs.declared.events.Event.{Event};
ghost use Rattle.pl_event.specs.Meaning.{Meaning, IsLawful, IsPrefixOf, turned_after};
ghost use Rattle.pl_event.specs.Changes.{way_of, changed_up, changed_down};
ghost use Rattle.pl_event.specs.declared.stages.Changed.TheVariants.{No, Down};

use crate::events::Event;
use crate::stages::{Changed, Direction, Stage, StageFault, Stepped, Turned};
use std::alloc::AllocError;

/// What a bare stage answers to an event: whether it has quit. An `Err` is out of memory.
pub type Taken = Result<Turned, AllocError>;

/// A handler that may run out of memory in the middle of a step, and then cleans nothing up: [`Fused`] makes a
/// [`Stage`] of it, which does.
///
/// The members mean what those of [`Stage`] mean, and `take` is its `step` without the clauses on a fault. In their
/// place `up_begins` and `down_begins` say that a `take` that fails has at most added to the two lists: [`Fused`] cuts
/// them to their old lengths. What the handler itself is then doesn't matter, since it is not asked again.
pub trait BareStage: Drop {
    /// What it makes of whole lists of events.
    ghost meaning: { Self → Meaning };

    /// It may stand after these events.
    ghost stands_after: { Self → List Event → Type 0 };

    /// Which way its input flows.
    fn direction(&self) -> Direction
        ensures { result ≡ (meaning self.now).direction };

    /// Takes the next event, and adds what it makes of it to the two lists. An `Err` is out of memory.
    fn take(&mut self, event: Event, up: &mut Vec<Event>, down: &mut Vec<Event>) -> Taken
        ensures same_meaning { meaning self.new ≡ meaning self.old }
        ensures stands { IfOk result (λ turned. (xs : List Event) → stands_after self.old xs → stands_after self.new (xs ++ event ∷ [])) }
        ensures up { IfOk result (λ turned. (xs : List Event) → stands_after self.old xs → up.new.items ≡ up.old.items ++ (meaning self.old).up xs event) }
        ensures down { IfOk result (λ turned. (xs : List Event) → stands_after self.old xs → down.new.items ≡ down.old.items ++ (meaning self.old).down xs event) }
        ensures turned { IfOk result (λ turned. (xs : List Event) → stands_after self.old xs → turned ≡ turned_after (meaning self.old) (xs ++ event ∷ [])) }
        ensures up_begins { OnErr result (IsPrefixOf up.old.items up.new.items) }
        ensures down_begins { OnErr result (IsPrefixOf down.old.items down.new.items) };

    /// Takes the next event as `take` does, where it makes one event of it that goes on, and stays open, as
    /// [`Stage::change`] tells. At a `No` all is as it was, here too.
    fn change(&mut self, event: &mut Event, down: &mut Vec<Event>) -> Changed
        ensures same_meaning { meaning self.new ≡ meaning self.old }
        ensures no { result ≡ No → (self.new ≡ self.old) × (event.new ≡ event.old) × (down.new.items ≡ down.old.items) }
        ensures way { result ≢ No → result ≡ way_of (meaning self.old).direction }
        ensures alone { result ≡ Down → down.new.items ≡ down.old.items }
        ensures stands { result ≢ No → (xs : List Event) → stands_after self.old xs → stands_after self.new (xs ++ event.old ∷ []) }
        ensures up { result ≢ No → (xs : List Event) → stands_after self.old xs → (meaning self.old).up xs event.old ≡ changed_up result event.new }
        ensures down { result ≢ No → (made : List Event) × (down.new.items ≡ down.old.items ++ made) × ((xs : List Event) → stands_after self.old xs → (meaning self.old).down xs event.old ≡ changed_down result event.new ++ made) }
        ensures open { result ≢ No → (xs : List Event) → stands_after self.old xs → (meaning self.old).ended (xs ++ event.old ∷ []) ≡ false }
    {
        Changed::No
    }

    /// What every one of them means keeps the law.
    ghost lawful: { (s : Self) → IsLawful (meaning s) };
}

/// A stage that, once out of memory, says so at each further step (as std's `Fuse` does of an iterator that has ended).
#[derive(Debug, Drop)]
pub struct Fused<S> {
    stage: S,
    is_spent: bool,
}

impl<S: BareStage> Fused<S> {
    /// A stage that means what `stage` means, stands after what it stands after, and has met no fault. It takes no
    /// memory.
    pub fn new(stage: S) -> Self
        ensures meaning { ⟦<Fused<S> as Stage>⟧.meaning result ≡ S.meaning stage }
        ensures stands { (xs : List Event) → S.stands_after stage xs → ⟦<Fused<S> as Stage>⟧.stands_after result xs }
        ensures fresh { S.stands_after stage [] → ⟦<Fused<S> as Stage>⟧.stands_after result [] }
        ensures unspent { ⟦<Fused<S> as Stage>⟧.is_spent result ≡ false }
    {
        Fused {
            stage,
            is_spent: false,
        }
    }

    /// Gives the stage back. It stands after what this one stands after.
    pub fn into_stage(self) -> S
        ensures { (xs : List Event) → ⟦<Fused<S> as Stage>⟧.stands_after self xs → S.stands_after result xs }
    {
        self.stage
    }
}

impl<S: BareStage> Stage for Fused<S> {
    ghost meaning = { λ s. S.meaning s.stage };

    ghost stands_after = { λ s xs. S.stands_after s.stage xs };

    ghost is_spent = { λ s. s.is_spent };

    fn direction(&self) -> Direction {
        self.stage.direction()
    }

    fn step(&mut self, event: Event, up: &mut Vec<Event>, down: &mut Vec<Event>) -> Stepped {
        if self.is_spent {
            return Err(StageFault::Memory);
        }
        let up_before = up.len();
        let down_before = down.len();
        match self.stage.take(event, up, down) {
            Ok(turned) => Ok(turned),
            Err(_) => {
                up.truncate(up_before);
                down.truncate(down_before);
                self.is_spent = true;
                Err(StageFault::Memory)
            }
        }
    }

    fn change(&mut self, event: &mut Event, down: &mut Vec<Event>) -> Changed {
        if self.is_spent {
            return Changed::No;
        }
        self.stage.change(event, down)
    }

    ghost lawful = { λ s. S.lawful s.stage };
}
