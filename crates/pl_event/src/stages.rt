//! What a handler of a pipeline is: the trait `Stage`, and its law.

ghost use Rattle.std.specs.Prelude.{◌≡◌, ◌≢◌, Bool, false, true, List, [], ◌∷◌, ◌++◌, IfOk, IsErr, OnOk, OnErr};
ghost use Rattle.pl_event.specs.declared.events.Event.{Event};
ghost use Rattle.pl_event.specs.Meaning.{Meaning, IsLawful, IsPrefixOf, up_of, down_of, turned_after};
ghost use Rattle.pl_event.specs.Paths.{is_turn, is_outbound};
ghost use Rattle.pl_event.specs.Changes.{way_of, changed_up, changed_down};
ghost use Rattle.pl_event.specs.declared.stages.Changed.TheVariants.{No, Down};

use crate::events::Event;

/// Which way a stage's input flows. The turn takes inbound events and also writes.
#[derive(Clone, Copy, Debug, PartialEq, Eq)]
pub enum Direction {
    Inbound,
    Outbound,
    Turn,
}

impl Direction {
    /// Whether it is the turn, which takes inbound events and also writes.
    pub fn is_turn(&self) -> bool
        ensures { result ≡ is_turn self.now }
    {
        match self {
            Direction::Turn => true,
            Direction::Inbound | Direction::Outbound => false,
        }
    }

    /// Whether outbound events visit it. Inbound events visit every other.
    pub fn is_outbound(&self) -> bool
        ensures { result ≡ is_outbound self.now }
    {
        match self {
            Direction::Outbound => true,
            Direction::Inbound | Direction::Turn => false,
        }
    }
}

/// Whether a stage has quit.
#[derive(Clone, Copy, Debug, PartialEq, Eq)]
pub enum Turned {
    Open,
    Ended,
}

/// Why a step made nothing.
#[derive(Clone, Copy, Debug, PartialEq, Eq)]
pub enum StageFault {
    /// Out of memory.
    Memory,
}

/// Which way an event goes that a stage has changed in its place.
#[derive(Clone, Copy, Debug, PartialEq, Eq)]
pub enum Changed {
    /// It has not been changed: it is still to be taken by a step.
    No,
    Up,
    Down,
}

/// What a step of a stage answers: whether it has quit, or its fault.
pub type Stepped = Result<Turned, StageFault>;

/// A handler of a pipeline: it takes events one by one, and hands on what it makes of them. Whoever has a handler of
/// their own implements this, or [`Mapping`](crate::Mapping) where it makes one event of each whatever came before, or
/// [`BareStage`](crate::BareStage) where it may fail and remembers no fault; the last two are shorter.
///
/// What a handler *means* is said of whole lists: of an event x, after the events xs, it makes `up xs x` for the next
/// inbound handler or the tail, and `down xs x` for the next outbound handler or the head; `ended xs` says whether it
/// has quit after xs. The handler keeps no list of what it took. `stands_after` says which lists it may stand after.
///
/// The law of a step:
///
/// - a step doesn't change what the handler means (`same_meaning`);
/// - after whichever events it stood, it now stands after those and this one (`stands`);
/// - it has added to the end of each list what this event makes after those, and nothing else (`up`, `down`);
/// - it answers `Ended` exactly where it has quit after them (`turned`);
/// - or it answers a fault, and the same at each further step (`fault`, `spent`; no other step leaves it spent:
///   `unspent`), and the lists are as they were (`up_kept`, `down_kept`).
///
/// The law of a meaning (`lawful`), and what would break without it:
///
/// - it starts open, and once it has quit it has quit for good and makes nothing more downwards: the head ends with the
///   quit, so a later write would be lost;
/// - an inbound handler makes nothing downwards, an outbound one nothing upwards: nobody takes the other list;
/// - only a turn quits: nobody asks another handler, so its quit would go unseen.
///
/// A handler that echoes each line until there is an empty one, and then quits, is a turn:
///
/// ```text
/// step                answer    up              down
/// Active              Open      Active
/// Read(Line("a"))     Open                      Write(Line("a"))
/// ReadComplete        Open      ReadComplete    Flush
/// Read(Line(""))      Ended                     Flush
/// Read(Line("b"))     Ended
/// ```
///
/// The same in code, with other handlers: `Write your own` in the README of this crate.
///
/// The check proves the law of each handler, so that none can break it. What it cannot see is a handler that means the
/// wrong thing, or stands after nothing: with a `stands_after` that no list meets, `stands`, `up`, `down` and `turned`
/// promise nothing, and one that is spent from the start may answer its fault always. So a constructor says that the new
/// handler stands after `[]`, which whoever builds a pipeline has to show, and that it is not spent.
pub trait Stage: Drop {
    /// What it makes of whole lists of events.
    ghost meaning: { Self → Meaning };

    /// It may stand after these events.
    ghost stands_after: { Self → List Event → Type 0 };

    /// It has met a fault, and meets it again at each further step.
    ghost is_spent: { Self → Bool };

    /// Which way its input flows.
    fn direction(&self) -> Direction
        ensures { result ≡ (meaning self.now).direction };

    /// Takes the next event, and adds what it makes of it to the two lists. An `Err` is out of memory.
    fn step(&mut self, event: Event, up: &mut Vec<Event>, down: &mut Vec<Event>) -> Stepped
        ensures same_meaning { meaning self.new ≡ meaning self.old }

        // After whichever events it stood, it stands after those and this one,
        ensures stands { IfOk result (λ turned. (xs : List Event) → stands_after self.old xs → stands_after self.new (xs ++ event ∷ [])) }

        // has added to each list what this event makes after those, and says whether it has quit.
        ensures up { IfOk result (λ turned. (xs : List Event) → stands_after self.old xs → up.new.items ≡ up.old.items ++ (meaning self.old).up xs event) }
        ensures down { IfOk result (λ turned. (xs : List Event) → stands_after self.old xs → down.new.items ≡ down.old.items ++ (meaning self.old).down xs event) }
        ensures turned { IfOk result (λ turned. (xs : List Event) → stands_after self.old xs → turned ≡ turned_after (meaning self.old) (xs ++ event ∷ [])) }

        // Only a fault leaves it spent. That adds nothing, and comes again from then on.
        ensures unspent { OnOk result (is_spent self.new ≡ false) }
        ensures fault { OnErr result (is_spent self.new ≡ true) }
        ensures spent { is_spent self.old ≡ true → IsErr result }
        ensures up_kept { OnErr result (up.new.items ≡ up.old.items) }
        ensures down_kept { OnErr result (down.new.items ≡ down.old.items) };

    /// Takes the next event as `step` does, where it makes one event of it that goes on, and stays open: it leaves that
    /// event in its place, and answers which way it goes. What else goes down of an event that goes up is added to
    /// `down`. It spares the lists of a step, and the copies.
    ///
    /// A context with room for it asks for a change first, and for a step where the answer is `No`; whole
    /// lists are composed of steps alone. Any stage may answer so to any event, as where there is no memory; one that
    /// doesn't implement this always does. Implement it where most steps hand one event on, as it is or another in its
    /// place. Do first what may fail: at a `No` all is as it was.
    fn change(&mut self, event: &mut Event, down: &mut Vec<Event>) -> Changed
        ensures same_meaning { meaning self.new ≡ meaning self.old }

        // Where it answers `No`, as it does once it is spent, nothing has changed.
        ensures no { result ≡ No → (self.new ≡ self.old) × (event.new ≡ event.old) × (down.new.items ≡ down.old.items) }
        ensures spent { is_spent self.old ≡ true → result ≡ No }

        // Else it has taken the event. What stands in its place goes on in the stage's own way, downwards alone: that,
        // and then what was added, is what this event makes.
        ensures way { result ≢ No → result ≡ way_of (meaning self.old).direction }
        ensures alone { result ≡ Down → down.new.items ≡ down.old.items }
        ensures stands { result ≢ No → (xs : List Event) → stands_after self.old xs → stands_after self.new (xs ++ event.old ∷ []) }
        ensures up { result ≢ No → (xs : List Event) → stands_after self.old xs → (meaning self.old).up xs event.old ≡ changed_up result event.new }
        ensures down { result ≢ No → (made : List Event) × (down.new.items ≡ down.old.items ++ made) × ((xs : List Event) → stands_after self.old xs → (meaning self.old).down xs event.old ≡ changed_down result event.new ++ made) }
        ensures open { result ≢ No → (xs : List Event) → stands_after self.old xs → (meaning self.old).ended (xs ++ event.old ∷ []) ≡ false }
        ensures unspent { result ≢ No → is_spent self.new ≡ false }
    {
        Changed::No
    }

    /// What every stage means keeps the law.
    ghost lawful: { (s : Self) → IsLawful (meaning s) };
}

/// The law of every stage: one event more adds to what it makes of a list just what it makes of that event after the
/// list, so what it makes of more events begins with what it makes of fewer; and once it has quit it has quit for good and
/// writes nothing more.
pub fn stage_law<S: Stage>()
    ensures up_step { (s : S) (xs : List Event) (x : Event) → up_of (S.meaning s) (xs ++ x ∷ []) ≡ up_of (S.meaning s) xs ++ (S.meaning s).up xs x }
    ensures down_step { (s : S) (xs : List Event) (x : Event) → down_of (S.meaning s) (xs ++ x ∷ []) ≡ down_of (S.meaning s) xs ++ (S.meaning s).down xs x }
    ensures up_grows { (s : S) (xs ys : List Event) → IsPrefixOf xs ys → IsPrefixOf (up_of (S.meaning s) xs) (up_of (S.meaning s) ys) }
    ensures down_grows { (s : S) (xs ys : List Event) → IsPrefixOf xs ys → IsPrefixOf (down_of (S.meaning s) xs) (down_of (S.meaning s) ys) }
    ensures stays_ended { (s : S) (xs : List Event) (x : Event) → (S.meaning s).ended xs ≡ true → (S.meaning s).ended (xs ++ x ∷ []) ≡ true }
    ensures quiet { (s : S) (xs : List Event) (x : Event) → (S.meaning s).ended xs ≡ true → down_of (S.meaning s) (xs ++ x ∷ []) ≡ down_of (S.meaning s) xs }
{}
