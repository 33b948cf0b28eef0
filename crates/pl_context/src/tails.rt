//! The end of the inbound handlers of a channel.

ghost use Rattle.std.specs.Prelude.{◌≡◌, ◌+◌, ◌<◌, ◌^◌, ◌∷◌, ◌++◌, [], length, Option, Some, None, true, false};
ghost use Rattle.pl_event.specs.declared.envelopes.Kind.{Kind};
ghost use Rattle.pl_event.specs.declared.envelopes.Kind.TheVariants as kind;
ghost use Rattle.pl_context.specs.declared.standing.Standing.TheVariants as standings;
ghost use Rattle.pl_context.specs.declared.standing.Took.TheVariants as took;
ghost use Rattle.pl_context.specs.Standings.{is_over, has_failed, cause_of};
ghost use Rattle.pl_context.specs.ContextViews.{number_limit, one_of};
ghost use Rattle.pl_context.specs.TailViews.{new_tail, EntersTail, kind_taken, taken_of, counted, RecordsItem, RecordsFlagItem, RecordsFlag, SameNode, handed_over};
ghost use Rattle.pl_event.specs.declared.limits.TheConstants.{MAX_ITEMS};

use crate::standing::{Standing, Took};
use pl_event::{Cause, Envelope, Event, Item, Kind, Lane, Sequence};
use std::alloc::Global;
use std::marker::Model;
use std::mem;

/// The end of a channel's inbound handlers, which keeps a record of what comes to it.
#[derive(Debug, Drop)]
pub struct Tail {
    channel: u16,
    hop: u16,
    /// Of the data lane.
    taken: u64,
    flags_taken: u64,
    standing: Standing,
    /// How many events were handed over, before those that it holds.
    handed: u64,
    events: Vec<Event>,
    flags: Vec<bool>,
    /// Memory ran out for a flag.
    flags_stopped: bool,
}

impl Model for Tail {
    ghost use Rattle.std.specs.Prelude.{◌+◌, ◌-◌, vec_len, vec_capacity};
    ghost use Rattle.pl_context.specs.TailViews.{TailView, IsTail};

    ghost Value = { TailView };

    ghost view = { λ t. record { channel = t.channel; hop = t.hop; taken = t.taken; flags_taken = t.flags_taken; standing = t.standing; handed = t.handed; events = t.events.items; flags = t.flags.items; flags_stopped = t.flags_stopped; room = vec_capacity t.events - vec_len t.events; flags_room = vec_capacity t.flags - vec_len t.flags } };

    ghost invariant = { λ t. IsTail t.taken t.flags_taken (t.handed + vec_len t.events) };
}

impl Tail {
    /// The tail of a channel whose pipeline has k inbound handlers. It takes no memory.
    pub fn new(alloc: Global, channel: u16, k: u16) -> Self
        ensures { result ≡ new_tail channel k }
    {
        Tail {
            channel,
            hop: k,
            taken: 0,
            flags_taken: 0,
            standing: Standing::Open,
            handed: 0,
            events: Vec::new(alloc),
            flags: Vec::new(alloc),
            flags_stopped: false,
        }
    }

    /// Takes the next item of one of its lanes. It answers as a context does: `Failed` where it is open and takes a
    /// failure, or there is no memory for an event: only where there was no room for it.
    pub fn take(&mut self, envelope: Envelope) -> Took
        requires enters { EntersTail self.old envelope.lane }
        requires number { envelope.number ≡ kind_taken self.old envelope.lane.kind }
        requires limit { envelope.number < number_limit envelope.lane.kind }
        ensures same_node { (self.new.channel ≡ self.old.channel) × (self.new.hop ≡ self.old.hop) }
        ensures handed { self.new.handed ≡ self.old.handed }
        ensures taken { (k : Kind) → kind_taken self.new k ≡ kind_taken self.old k + one_of k envelope.lane.kind }
        ensures open { envelope.lane.kind ≡ kind.Data → self.old.standing ≡ standings.Open → RecordsItem (counted kind.Data self.old) envelope.item result self.new }
        ensures ended { envelope.lane.kind ≡ kind.Data → self.old.standing ≡ standings.Ended → (result ≡ took.Ran) × (self.new ≡ counted kind.Data self.old) }
        ensures flags { envelope.lane.kind ≡ kind.Flags → has_failed self.old.standing ≡ false →
            (result ≡ took.Ran) × RecordsFlagItem (counted kind.Flags self.old) envelope.item self.new }
        ensures dropped { has_failed self.old.standing ≡ true → (result ≡ took.Dropped) × (self.new ≡ counted envelope.lane.kind self.old) }
    {
        match envelope.lane.kind {
            Kind::Data => self.take_item(envelope.item),
            Kind::Flags => self.take_flag(envelope.item),
        }
    }

    /// The events that it took, until memory ran out for one. Those that were handed over are not among them.
    pub fn record(&self) -> &[Event]
        ensures { result.now ≡ self.now.events }
    {
        self.events.as_slice()
    }

    /// The flags that it took and did not drop, until memory ran out for one.
    pub fn flags(&self) -> &[bool]
        ensures { result.now ≡ self.now.flags }
    {
        self.flags.as_slice()
    }

    /// Hands the record over, and goes on with an empty one, behind it. It takes no memory.
    pub fn take_record(&mut self, alloc: Global) -> Sequence<Event>
        ensures record { result ≡ self.old.events }
        ensures goes_on { self.new ≡ handed_over self.old }
    {
        let events = mem::replace(&mut self.events, Vec::new(alloc));
        self.handed += events.len() as u64;
        Sequence::from_vec(events)
    }

    /// Gives the record up, for a report. It takes no memory.
    pub fn into_record(self) -> Sequence<Event>
        ensures { result ≡ self.events }
    {
        let Tail { events, .. } = self;
        Sequence::from_vec(events)
    }

    /// How it stands.
    pub fn standing(&self) -> Standing
        ensures { result ≡ self.now.standing }
    {
        self.standing
    }

    /// Whether it has ended or failed.
    pub fn is_ended(&self) -> bool
        ensures { result ≡ is_over self.now.standing }
    {
        self.standing.is_over()
    }

    /// Why it has failed, or None.
    pub fn cause(&self) -> Option<Cause>
        ensures { result ≡ cause_of self.now.standing }
    {
        self.standing.cause()
    }

    /// The data lane that enters it. The flags lane of the same hop enters it too.
    pub fn lane(&self) -> Lane
        ensures { result ≡ record { channel = self.now.channel; kind = kind.Data; hop = self.now.hop } }
    {
        Lane {
            channel: self.channel,
            kind: Kind::Data,
            hop: self.hop,
        }
    }

    /// How many items of a lane it has taken, those that were dropped among them: none of a lane that does not enter it.
    pub fn taken(&self, lane: Lane) -> u64
        ensures { result ≡ taken_of self.now lane }
    {
        if lane.channel == self.channel && lane.hop == self.hop {
            match lane.kind {
                Kind::Data => self.taken,
                Kind::Flags => self.flags_taken,
            }
        } else {
            0
        }
    }

    /// Takes an item of the data lane.
    fn take_item(&mut self, item: Item) -> Took
        requires { self.old.taken < MAX_ITEMS }
        ensures same_node { SameNode (counted kind.Data self.old) self.new }
        ensures open { self.old.standing ≡ standings.Open → RecordsItem (counted kind.Data self.old) item result self.new }
        ensures ended { self.old.standing ≡ standings.Ended → (result ≡ took.Ran) × (self.new ≡ counted kind.Data self.old) }
        ensures dropped { has_failed self.old.standing ≡ true → (result ≡ took.Dropped) × (self.new ≡ counted kind.Data self.old) }
    {
        self.taken += 1;
        let took = match self.standing {
            Standing::Open => return self.take_open(item),
            Standing::Ended => Took::Ran,
            Standing::Failed(_) => Took::Dropped,
        };
        drop(item);
        took
    }

    /// Takes an item of the data lane, while it is open.
    fn take_open(&mut self, item: Item) -> Took
        requires room { self.old.handed + length self.old.events < self.old.taken }
        ensures same_node { SameNode self.old self.new }
        ensures takes { RecordsItem self.old item result self.new }
    {
        match item {
            Item::Event(event) => {
                if self.events.reserve(1).is_err() {
                    drop(event);
                    self.standing = Standing::Failed(Cause::Memory);
                    return Took::Failed(Cause::Memory);
                }
                self.events.push_reserved(event);
                Took::Ran
            }
            Item::End => {
                self.standing = Standing::Ended;
                Took::Ended
            }
            Item::Fail(cause) => {
                self.standing = Standing::Failed(cause);
                Took::Failed(cause)
            }
            Item::Flag(_) => Took::Ran,
        }
    }

    /// Takes an item of the flags lane.
    #[inline(never)]
    fn take_flag(&mut self, item: Item) -> Took
        requires { self.old.flags_taken < 2 ^ 32 }
        ensures same_node { SameNode (counted kind.Flags self.old) self.new }
        ensures flags { has_failed self.old.standing ≡ false → (result ≡ took.Ran) × RecordsFlagItem (counted kind.Flags self.old) item self.new }
        ensures dropped { has_failed self.old.standing ≡ true → (result ≡ took.Dropped) × (self.new ≡ counted kind.Flags self.old) }
    {
        self.flags_taken += 1;
        if self.standing.has_failed() {
            drop(item);
            return Took::Dropped;
        }
        match item {
            Item::Flag(value) => self.add_flag(value),
            other => drop(other),
        }
        Took::Ran
    }

    /// Records a flag, unless memory has run out for one before.
    fn add_flag(&mut self, value: bool)
        ensures same_node { SameNode self.old self.new }
        ensures flag { RecordsFlag self.old value self.new }
    {
        if self.flags_stopped {
            return;
        }
        if self.flags.push(value).is_err() {
            self.flags_stopped = true;
        }
    }
}
