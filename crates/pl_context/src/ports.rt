//! The lanes that a context or a head writes.

ghost use Rattle.std.specs.Prelude.{◌≡◌, ◌+◌, ◌<◌, ◌≤◌, ◌^◌, ◌∷◌, ◌++◌, [], length, true, false, if◌then◌else◌};
ghost use Rattle.pl_event.specs.declared.envelopes.Item.TheVariants as item;
ghost use Rattle.pl_event.specs.Fitting.{goes_on};
ghost use Rattle.pl_context.specs.Stops.{HasPlaces, any_stopped};
ghost use Rattle.pl_context.specs.OutputsViews.{PutsAll, Appends};
ghost use Rattle.pl_context.specs.ContextViews.{new_port};
ghost use Rattle.pl_context.specs.Ports.{as_items, offered, put_out, port_after, end_after, FlagPasses};

use crate::added::Added;
use crate::outputs::Outputs;
use pl_event::{Envelope, Event, Item, Kind, Lane, Turned};

/// Where a lane is written: how many items it has been given, and whether more may follow.
///
/// A lane that a context does not have is closed from the start.
#[derive(Clone, Copy, Debug, PartialEq, Eq)]
pub struct Port {
    pub lane: Lane,
    /// The number of its next item.
    pub made: u64,
    pub is_open: bool,
}

impl Port {
    /// A lane that was given nothing yet.
    pub fn new(channel: u16, kind: Kind, hop: u16, is_open: bool) -> Self
        ensures { result ≡ new_port channel kind hop is_open }
    {
        Port {
            lane: Lane { channel, kind, hop },
            made: 0,
            is_open,
        }
    }

    /// Gives the lane one item, unless it is closed. After an end or a failure it is closed.
    pub fn put(&mut self, item: Item, outputs: &mut Outputs)
        requires place { self.old.is_open ≡ true → HasPlaces outputs.old.stopped (self.old.lane ∷ []) }
        requires small { self.old.is_open ≡ true → self.old.made ≤ 2 ^ 40 }
        ensures port { self.new ≡ port_after (item ∷ []) self.old }
        ensures out { PutsAll outputs.old (offered self.old (item ∷ [])) outputs.new }
        ensures place { self.old.is_open ≡ true → HasPlaces outputs.new.stopped (self.old.lane ∷ []) }
        ensures room { 0 < outputs.old.room → Appends outputs.old (put_out outputs.old.stopped self.old (item ∷ [])) outputs.new }
    {
        if !self.is_open {
            return;
        }
        let goes_on = goes_on(&item);
        outputs.put(Envelope {
            lane: self.lane,
            number: self.made,
            item,
        });
        self.made += 1;
        self.is_open = goes_on;
    }

    /// Gives the lane the event of an envelope, for which there is room on a list where no lane has stopped, unless it is
    /// closed.
    pub(crate) fn hand_on(&mut self, mut envelope: Envelope, outputs: &mut Outputs)
        requires event { goes_on envelope.item ≡ true }
        requires none { any_stopped outputs.old.stopped ≡ false }
        requires small { self.old.is_open ≡ true → self.old.made < 2 ^ 40 }
        requires room { self.old.is_open ≡ true → 0 < outputs.old.room }
        ensures port { self.new ≡ port_after (envelope.item ∷ []) self.old }
        ensures out { Appends outputs.old (put_out outputs.old.stopped self.old (envelope.item ∷ [])) outputs.new }
    {
        if !self.is_open {
            envelope.discard();
            return;
        }
        envelope.lane = self.lane;
        envelope.number = self.made;
        outputs.put_reserved(envelope);
        self.made += 1;
    }

    /// Gives the lane events, for which there is room, unless it is closed. They are taken out of the buffer. Whether the
    /// lane has stopped on the list is looked at once.
    pub(crate) fn put_all(&mut self, events: &mut Vec<Event>, outputs: &mut Outputs)
        requires place { self.old.is_open ≡ true → HasPlaces outputs.old.stopped (self.old.lane ∷ []) }
        requires small { self.old.is_open ≡ true → self.old.made + length events.old.items ≤ 2 ^ 40 }
        requires room { self.old.is_open ≡ true → length events.old.items ≤ outputs.old.room }
        ensures empty { events.new.items ≡ [] }
        ensures port { self.new ≡ port_after (as_items events.old.items) self.old }
        ensures out { Appends outputs.old (put_out outputs.old.stopped self.old (as_items events.old.items)) outputs.new }
    {
        if !self.is_open {
            events.clear();
            return;
        }
        if outputs.has_stopped_lane(self.lane) {
            self.made += events.len() as u64;
            events.clear();
            return;
        }
        events.reverse();
        while let Some(event) = events.pop() {
            outputs.put_reserved(Envelope {
                lane: self.lane,
                number: self.made,
                item: Item::Event(event),
            });
            self.made += 1;
        }
    }

    /// Ends the lane where its stage has quit, and there is room for the end.
    pub(crate) fn end_if(&mut self, turned: Turned, outputs: &mut Outputs)
        requires place { self.old.is_open ≡ true → HasPlaces outputs.old.stopped (self.old.lane ∷ []) }
        requires small { self.old.is_open ≡ true → self.old.made ≤ 2 ^ 40 }
        requires room { self.old.is_open ≡ true → length (end_after turned) ≤ outputs.old.room }
        ensures port { self.new ≡ port_after (end_after turned) self.old }
        ensures out { Appends outputs.old (put_out outputs.old.stopped self.old (end_after turned)) outputs.new }
    {
        match turned {
            Turned::Open => {}
            Turned::Ended => self.put(Item::End, outputs),
        }
    }

    /// Hands a flag on, unless the lane has stopped. It stops where a flag finds no room.
    pub fn pass(&mut self, value: bool, outputs: &mut Outputs)
        requires place { self.old.is_open ≡ true → HasPlaces outputs.old.stopped (self.old.lane ∷ []) }
        requires small { self.old.is_open ≡ true → self.old.made + 1 < 2 ^ 64 }
        ensures passes { FlagPasses self.old value outputs.old self.new outputs.new }
        ensures count { self.new.made < self.old.made + 2 }
        ensures lane { self.new.lane ≡ self.old.lane }
        ensures sent { self.new.is_open ≡ true → self.new.made ≡ self.old.made + 1 }
        ensures open { self.new.is_open ≡ true → self.old.is_open ≡ true }
    {
        if !self.is_open {
            return;
        }
        let added = outputs.put(Envelope {
            lane: self.lane,
            number: self.made,
            item: Item::Flag(value),
        });
        match added {
            Added::Last => self.made += 1,
            Added::Refused | Added::Discarded => self.is_open = false,
        }
    }

    /// How much room so many events take on the lane, in items: none where it is not open.
    pub(crate) fn room_for(&self, events: usize) -> usize
        ensures { result ≡ (if self.now.is_open then events else 0) }
    {
        if self.is_open { events } else { 0 }
    }
}

/// Whether a lane goes on after an item.
fn goes_on(item: &Item) -> bool
    ensures { result ≡ goes_on item.now }
{
    match item {
        Item::Event(_) | Item::Flag(_) => true,
        Item::End | Item::Fail(_) => false,
    }
}
