//! The work list: envelopes that were put out, the oldest first.

ghost use Rattle.std.specs.Prelude.{◌≡◌, ◌+◌, ◌<◌, ◌≤◌, ◌∷◌, ◌++◌, [], length, not, IfOk, OnOk, OnErr, IfNone, ◌==◌, ◌&&◌, true, false};
ghost use Rattle.std.specs.Option.{option_to_list};
ghost use Rattle.pl_context.specs.Stops.{HasPlaces, no_stops, any_stopped, has_stopped};
ghost use Rattle.pl_context.specs.OutputsViews.{Puts, failure_of};

use crate::added::Added;
use crate::stops::Stops;
use pl_event::{Cause, Envelope, Item, Kind, Lane};
use std::alloc::{AllocError, Global};
use std::collections::VecDeque;
use std::marker::Model;

/// The envelopes that contexts put out, first in first out: a work list.
///
/// It has reserved places, at least one for each data lane that is ever put into it. Where it finds no memory for an item of a
/// data lane, a failure (out of memory) takes the item's number in the place of its lane, and what the lane brings
/// later is discarded. A flag is discarded, and its lane stops.
#[derive(Debug, Drop)]
pub struct Outputs {
    pub(crate) envelopes: VecDeque<Envelope>,
    pub(crate) stops: Stops,
}

impl Model for Outputs {
    ghost use Rattle.std.specs.Prelude.{◌-◌, length};
    ghost use Rattle.std.specs.VecDeque.{deque_len, deque_capacity};
    ghost use Rattle.pl_context.specs.OutputsViews.{OutputsView, HasReserve};

    ghost Value = { OutputsView };

    ghost view = { λ o. record { items = o.envelopes.items; stopped = o.stops; room = deque_capacity o.envelopes - deque_len o.envelopes - (o.stops.places - length o.stops.lanes) } };

    ghost invariant = { λ o. HasReserve o.stops (deque_len o.envelopes) (deque_capacity o.envelopes) };
}

impl Outputs {
    /// An empty list, with this many reserved places.
    pub fn new(alloc: Global, places: u16) -> Result<Self, AllocError>
        ensures empty { IfOk result (λ outputs. outputs.items ≡ []) }
        ensures places { IfOk result (λ outputs. outputs.stopped ≡ no_stops places) }
    {
        Ok(Outputs {
            envelopes: VecDeque::with_capacity(alloc, places as usize)?,
            stops: Stops::new(alloc, places)?,
        })
    }

    /// Takes the front, and no memory.
    pub fn next(&mut self) -> Option<Envelope>
        ensures front { self.old.items ≡ option_to_list result ++ self.new.items }
        ensures empty { IfNone result ((self.old.items ≡ []) × (self.new ≡ self.old)) }
        ensures stopped { self.new.stopped ≡ self.old.stopped }
        ensures room { self.old.room ≤ self.new.room }
    {
        self.envelopes.pop_front()
    }

    /// Whether no envelope waits.
    pub fn is_empty(&self) -> bool
        ensures { result ≡ (length self.now.items == 0) }
    {
        self.envelopes.is_empty()
    }

    /// Whether a lane has stopped: memory ran out for an item of it, and what it brings later is discarded.
    pub fn has_stopped(&self) -> bool
        ensures { result ≡ any_stopped self.now.stopped }
    {
        self.stops.has_any()
    }

    /// Whether there is room for an envelope more, and no lane has stopped.
    pub(crate) fn is_ready(&self) -> bool
        ensures room { result ≡ true → 0 < self.now.room }
        ensures goes_on { result ≡ true → any_stopped self.now.stopped ≡ false }
    {
        !self.stops.has_any()
            && self.envelopes.capacity() - self.envelopes.len() > self.stops.left()
    }

    /// Makes room for a given number of envelopes, beside the reserved places; where the list has to grow and memory allows it,
    /// for as many as wait besides, since a turn makes two of each. An `Err` changes nothing.
    pub fn reserve(&mut self, additional: usize) -> Result<(), AllocError>
        ensures items { self.new.items ≡ self.old.items }
        ensures stopped { self.new.stopped ≡ self.old.stopped }
        ensures room { OnOk result (additional ≤ self.new.room) }
        ensures grows { self.old.room ≤ self.new.room }
        ensures refused { OnErr result (self.old.room < additional) }
    {
        let Some(all) = self.stops.left().checked_add(additional) else {
            return Err(AllocError);
        };
        let waits = self.envelopes.len();
        if self.envelopes.capacity() - waits >= all
            || self
                .envelopes
                .reserve_exact(all.saturating_add(waits))
                .is_ok()
        {
            return Ok(());
        }
        self.envelopes.reserve_exact(all)
    }

    /// Whether this lane has stopped.
    pub(crate) fn has_stopped_lane(&self, lane: Lane) -> bool
        ensures { result ≡ has_stopped self.now.stopped lane }
    {
        self.stops.has(lane)
    }

    /// Puts an envelope last, for which there is room, of a lane that has not stopped.
    pub(crate) fn put_reserved(&mut self, envelope: Envelope)
        requires goes_on { has_stopped self.old.stopped envelope.lane ≡ false }
        requires room { 0 < self.old.room }
        ensures { Puts self.old envelope Added.Last self.new }
    {
        self.envelopes.push_back_reserved(envelope);
    }

    /// Puts an envelope last, or what stands in for it where no memory is found. Where there is room it is last.
    pub fn put(&mut self, envelope: Envelope) -> Added
        requires { HasPlaces self.old.stopped (envelope.lane ∷ []) }
        ensures { Puts self.old envelope result self.new }
    {
        if self.stops.has(envelope.lane) {
            envelope.discard();
            return Added::Discarded;
        }
        if self.envelopes.reserve(self.stops.left() + 1).is_ok() {
            self.envelopes.push_back_reserved(envelope);
            return Added::Last;
        }
        self.stops.stop(envelope.lane);
        match envelope.lane.kind {
            Kind::Data => self.envelopes.push_back_reserved(failure(envelope)),
            Kind::Flags => envelope.discard(),
        }
        Added::Refused
    }
}

/// What takes the place of an envelope of a data lane for which no memory is found.
pub(crate) fn failure(envelope: Envelope) -> Envelope
    ensures { result ≡ record envelope { item = failure_of envelope.item } }
{
    let Envelope { lane, number, item } = envelope;
    let cause = match item {
        Item::Fail(cause) => cause,
        _ => Cause::Memory,
    };
    Envelope {
        lane,
        number,
        item: Item::Fail(cause),
    }
}
