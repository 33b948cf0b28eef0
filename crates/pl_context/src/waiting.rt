//! Envelopes that wait for several targets, kept by target.

ghost use Rattle.std.specs.Prelude.{◌≡◌, ◌≢◌, ℕ, Bool, List, [], ◌∷◌, ◌+◌, ◌<◌, ◌^◌, ◌==◌, length, map, filter, find, position, remove, slice_get, slice_set, count_by, IfOk, MatchOption, Some, None};
ghost use Rattle.std.specs.Option.{option_copied, option_map};
ghost use Rattle.pl_context.specs.Stops.{HasPlaces, no_stops, any_stopped};
ghost use Rattle.pl_context.specs.Backlogs.{BacklogView};
ghost use Rattle.pl_context.specs.WaitingViews.{front_age as the_front_age};

use crate::backlog::Backlog;
use crate::fronts::Fronts;
use pl_event::Envelope;
use std::alloc::{AllocError, Global};
use std::marker::Model;

/// Envelopes that wait for several targets, each with a token.
///
/// They are one list, in the order in which they were added. They are kept by target, and the targets for which something
/// waits by the age of their fronts, so that the oldest one that may leave is found without a walk over the others:
/// nothing here costs more where more envelopes wait, or where there are more targets for which none does. Each target
/// has reserved places as a `Backlog` has, and the same rule where it finds no memory.
#[derive(Debug, Drop)]
pub struct Waiting<A> {
    /// What waits for each target.
    targets: Vec<Backlog<Stamp<A>>>,
    /// The targets for which something waits.
    fronts: Fronts,
    /// How many were added before the next one.
    added: u64,
    /// How many were added before the one that was taken last.
    taken: u64,
}

/// A token, and how many envelopes were added before its own: the fewer, the older it is.
#[derive(Debug, Drop)]
struct Stamp<A> {
    age: u64,
    token: A,
}

impl<A> Model for Waiting<A> {
    ghost use Rattle.pl_context.specs.WaitingViews.{WaitingView, AreFronts};

    ghost Value = { WaitingView A };

    ghost view = { λ w. record { targets = w.targets.items; added = w.added; taken = w.taken } };

    ghost invariant = { λ w. AreFronts w.fronts w.targets.items };
}

impl<A: Drop> Waiting<A> {
    ghost use Rattle.pl_context.specs.WaitingViews.{WaitingView, Entry, Holds, Misses, WaitingAdds, Takes, is_for, stops_for};

    /// One where nothing waits, with a target for each number and so many reserved places for it.
    pub fn new(alloc: Global, places: &[u16]) -> Result<Self, AllocError>
        ensures empty { IfOk result (λ waiting. Holds waiting []) }
        ensures places { IfOk result (λ waiting. map (λ b. b.stopped) waiting.targets ≡ map no_stops places.now) }
        ensures added { IfOk result (λ waiting. waiting.added ≡ 0) }
    {
        let mut targets = Vec::with_capacity(alloc, places.len())?;
        for count in places {
            targets.push(Backlog::new(alloc, *count)?)?;
        }
        Ok(Waiting {
            targets,
            fronts: Fronts::new(alloc, places.len())?,
            added: 0,
            taken: 0,
        })
    }

    /// Adds an envelope for a target at the end, or what stands in for it where no memory is found. The token comes back
    /// where the envelope was discarded.
    pub fn add(&mut self, target: usize, envelope: Envelope, token: A) -> Option<A>
        requires there { target < length self.old.targets }
        requires place { HasPlaces (stops_for self.old target) (envelope.lane ∷ []) }
        requires few { self.old.added + 1 < 2 ^ 64 }
        ensures { WaitingAdds self.old target envelope token result self.new }
    {
        let stamp = Stamp {
            age: self.added,
            token,
        };
        self.added += 1;
        let backlog = &mut self.targets[target];
        let is_first = backlog.is_empty();
        let discarded = backlog.add(envelope, stamp);
        if is_first {
            self.fronts.set(target, None, front_age(backlog));
        }
        discarded.map(|stamp| stamp.token)
    }

    /// The target of the oldest envelope for one that is open. None where none waits for an open one.
    pub fn oldest<F: Fn(usize) -> bool>(&self, is_open: F) -> Option<usize>
        requires { (target : ℕ) → target < length self.now.targets → F.pre is_open target }
        ensures { (opens : ℕ → Bool) (entries : List (Entry A))
            → ((target : ℕ) (answer : Bool) → target < length self.now.targets → F.post is_open target answer → answer ≡ opens target)
            → Holds self.now entries → result ≡ option_map (λ entry. entry.target) (find (λ entry. opens entry.target) entries) }
    {
        self.fronts.oldest(is_open)
    }

    /// Takes the oldest envelope for a target. It takes no memory.
    pub fn take(&mut self, target: usize) -> Option<(Envelope, A)>
        ensures first { (entries : List (Entry A)) → Holds self.old entries → Takes self.old entries target result self.new }
        ensures added { self.new.added ≡ self.old.added }
    {
        let backlog = self.targets.get_mut(target)?;
        let (envelope, Stamp { age, token }) = backlog.take_at(0)?;
        self.fronts.set(target, Some(age), front_age(backlog));
        self.taken = age;
        Some((envelope, token))
    }

    /// Puts the envelope back that `take` has just taken for this target, or another one in its place. It takes no
    /// memory.
    pub fn put_back(&mut self, target: usize, envelope: Envelope, token: A)
        requires { (entries : List (Entry A)) × (i : ℕ) × (entry : Entry A) × (slice_get entries i ≡ Some entry) × (entry.target ≡ target) × Misses self.old entries i }
        ensures back { (entries : List (Entry A)) (i : ℕ) (entry : Entry A) → slice_get entries i ≡ Some entry → entry.target ≡ target → Misses self.old entries i
            → Holds self.new (slice_set entries i (record { target = target; envelope = envelope; token = token })) }
        ensures added { self.new.added ≡ self.old.added }
        ensures stopped { (y : ℕ) → stops_for self.new y ≡ stops_for self.old y }
        ensures targets { length self.new.targets ≡ length self.old.targets }
    {
        let stamp = Stamp {
            age: self.taken,
            token,
        };
        let backlog = &mut self.targets[target];
        let was = front_age(backlog);
        backlog.put_back(0, envelope, stamp);
        self.fronts.set(target, was, front_age(backlog));
    }

    /// How many envelopes wait for a target.
    pub fn count(&self, target: usize) -> usize
        ensures { (entries : List (Entry A)) → Holds self.now entries → result ≡ count_by (is_for target) entries }
    {
        match self.targets.get(target) {
            None => 0,
            Some(backlog) => backlog.len(),
        }
    }

    /// The envelope at a position among those for a target, counted from the oldest: None past the last.
    pub fn get(&self, target: usize, index: usize) -> Option<&Envelope>
        ensures { (entries : List (Entry A)) → Holds self.now entries → option_copied result ≡ slice_get (map (λ entry. entry.envelope) (filter (is_for target) entries)) index }
    {
        let backlog = self.targets.get(target)?;
        let entry = backlog.get(index)?;
        Some(&entry.0)
    }

    /// Whether nothing waits.
    pub fn is_empty(&self) -> bool
        ensures { (entries : List (Entry A)) → Holds self.now entries → result ≡ (length entries == 0) }
    {
        self.fronts.is_empty()
    }

    /// Whether a lane has stopped on the way to a target: memory ran out for an item of it, and what it brings later is
    /// discarded.
    pub fn has_stopped(&self, target: usize) -> bool
        ensures { result ≡ any_stopped (stops_for self.now target) }
    {
        match self.targets.get(target) {
            None => false,
            Some(backlog) => backlog.has_stopped(),
        }
    }
}

/// The age of the front of a backlog.
fn front_age<A>(backlog: &Backlog<Stamp<A>>) -> Option<u64>
    ensures { result ≡ the_front_age backlog.now }
{
    let (_, stamp) = backlog.front()?;
    Some(stamp.age)
}
