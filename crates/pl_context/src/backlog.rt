//! Envelopes that wait for one target.

ghost use Rattle.std.specs.Prelude.{◌≡◌, ◌+◌, ◌<◌, ◌≤◌, ◌∷◌, ◌++◌, [], length, IfOk, IfSome, IfNone, OnSome, Some, slice_get, insert, remove, ◌==◌, true, false};
ghost use Rattle.std.specs.Option.{option_copied};
ghost use Rattle.pl_context.specs.Stops.{HasPlaces, no_stops, any_stopped};
ghost use Rattle.pl_context.specs.Backlogs.{AddsToken};

use crate::outputs::failure;
use crate::stops::Stops;
use pl_event::{Envelope, Kind};
use std::alloc::{AllocError, Global};
use std::collections::VecDeque;
use std::marker::Model;

/// Envelopes for one target, the oldest first, each with a token.
///
/// It has reserved places as `Outputs` has, and the same rule where it finds no memory.
#[derive(Debug, Drop)]
pub struct Backlog<A> {
    entries: VecDeque<(Envelope, A)>,
    stops: Stops,
}

impl<A> Model for Backlog<A> {
    ghost use Rattle.std.specs.Prelude.{◌-◌, length};
    ghost use Rattle.std.specs.VecDeque.{deque_len, deque_capacity};
    ghost use Rattle.pl_context.specs.OutputsViews.{HasReserve};
    ghost use Rattle.pl_context.specs.Backlogs.{BacklogView};

    ghost Value = { BacklogView A };

    ghost view = { λ b. record { items = b.entries.items; stopped = b.stops; room = deque_capacity b.entries - deque_len b.entries - (b.stops.places - length b.stops.lanes) } };

    ghost invariant = { λ b. HasReserve b.stops (deque_len b.entries) (deque_capacity b.entries) };
}

impl<A> Backlog<A> {
    /// An empty backlog, with this many reserved places.
    pub fn new(alloc: Global, places: u16) -> Result<Self, AllocError>
        ensures empty { IfOk result (λ backlog. backlog.items ≡ []) }
        ensures places { IfOk result (λ backlog. backlog.stopped ≡ no_stops places) }
    {
        let stops = Stops::new(alloc, places)?;
        let entries = VecDeque::with_capacity(alloc, places as usize)?;
        Ok(Backlog { entries, stops })
    }

    /// Whether no envelope waits.
    pub fn is_empty(&self) -> bool
        ensures { result ≡ (length self.now.items == 0) }
    {
        self.entries.is_empty()
    }

    /// How many envelopes wait.
    pub fn len(&self) -> usize
        ensures { result ≡ length self.now.items }
    {
        self.entries.len()
    }

    /// The oldest envelope with its token, or None where there is none.
    pub fn front(&self) -> Option<&(Envelope, A)>
        ensures some { IfSome result (λ entry. slice_get self.now.items 0 ≡ Some entry.now) }
        ensures none { IfNone result (self.now.items ≡ []) }
    {
        self.entries.front()
    }

    /// The envelope at an index, counted from the oldest, with its token: None past the last.
    pub fn get(&self, index: usize) -> Option<&(Envelope, A)>
        ensures { option_copied result ≡ slice_get self.now.items index }
    {
        self.entries.get(index)
    }

    /// Whether a lane has stopped: memory ran out for an item of it, and what it brings later is discarded.
    pub fn has_stopped(&self) -> bool
        ensures { result ≡ any_stopped self.now.stopped }
    {
        self.stops.has_any()
    }

    /// Adds an envelope at the end, or what stands in for it where no memory is found. The token comes back where the
    /// envelope was discarded.
    pub fn add(&mut self, envelope: Envelope, token: A) -> Option<A>
        requires { HasPlaces self.old.stopped (envelope.lane ∷ []) }
        ensures { AddsToken self.old envelope token result self.new }
    {
        if self.is_ready() {
            self.entries.push_back_reserved((envelope, token));
            return None;
        }
        self.add_or_stop(envelope, token)
    }

    /// The same, where room is to be made, or a lane has stopped.
    #[inline(never)]
    fn add_or_stop(&mut self, envelope: Envelope, token: A) -> Option<A>
        requires { HasPlaces self.old.stopped (envelope.lane ∷ []) }
        ensures { AddsToken self.old envelope token result self.new }
    {
        if self.stops.has(envelope.lane) {
            envelope.discard();
            return Some(token);
        }
        if self.entries.reserve(self.stops.left() + 1).is_ok() {
            self.entries.push_back_reserved((envelope, token));
            return None;
        }
        self.stops.stop(envelope.lane);
        match envelope.lane.kind {
            Kind::Data => {
                self.entries.push_back_reserved((failure(envelope), token));
                None
            }
            Kind::Flags => {
                envelope.discard();
                Some(token)
            }
        }
    }

    /// Whether there is room for an envelope more, and no lane has stopped.
    fn is_ready(&self) -> bool
        ensures room { result ≡ true → 0 < self.now.room }
        ensures goes_on { result ≡ true → any_stopped self.now.stopped ≡ false }
    {
        !self.stops.has_any() && self.entries.capacity() - self.entries.len() > self.stops.left()
    }

    /// Takes out the envelope at an index, counted from the oldest: None past the last. It takes no memory.
    pub fn take_at(&mut self, index: usize) -> Option<(Envelope, A)>
        ensures at { IfSome result (λ entry. slice_get self.old.items index ≡ Some entry) }
        ensures taken { OnSome result (self.new.items ≡ remove self.old.items index) }
        ensures gap { IfSome result (λ entry. self.old.items ≡ insert self.new.items index entry) }
        ensures index { OnSome result (index ≤ length self.new.items) }
        ensures room { OnSome result (self.old.room < self.new.room) }
        ensures none { IfNone result ((length self.old.items ≤ index) × (self.new ≡ self.old)) }
        ensures stopped { self.new.stopped ≡ self.old.stopped }
    {
        // The oldest leaves without a move of the others.
        if index == 0 {
            return self.entries.pop_front();
        }
        self.entries.remove(index)
    }

    /// Puts an envelope back at the index from which `take_at` took it. It takes no memory.
    pub fn put_back(&mut self, index: usize, envelope: Envelope, token: A)
        requires index { index ≤ length self.old.items }
        requires room { 0 < self.old.room }
        ensures items { self.new.items ≡ insert self.old.items index (envelope, token) }
        ensures stopped { self.new.stopped ≡ self.old.stopped }
        ensures less_room { self.old.room ≤ self.new.room + 1 }
    {
        if let Err(refused) = self.entries.insert(index, (envelope, token)) {
            // There is room for it, so this does not come.
            self.entries.push_back_reserved(refused.value);
        }
    }
}
