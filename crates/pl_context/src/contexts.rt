//! A stage at its hop.

ghost use Rattle.std.specs.Prelude.{◌≡◌, ◌≢◌, ◌+◌, ◌<◌, ◌≤◌, ◌^◌, ◌∷◌, ◌++◌, List, [], length, OnOk, OnErr, IsErr, true, false};
ghost use Rattle.pl_event.specs.declared.events.Event.{Event};
ghost use Rattle.pl_event.specs.declared.envelopes.Kind.{Kind};
ghost use Rattle.pl_event.specs.declared.envelopes.Kind.TheVariants as kind;
ghost use Rattle.pl_event.specs.declared.envelopes.Item.TheVariants as items;
ghost use Rattle.pl_event.specs.declared.outcomes.Cause.TheVariants.{Memory};
ghost use Rattle.pl_event.specs.declared.stages.Changed.TheVariants.{No, Down};
ghost use Rattle.pl_event.specs.Fitting.{goes_on};
ghost use Rattle.pl_context.specs.declared.standing.Standing.TheVariants as standings;
ghost use Rattle.pl_context.specs.declared.standing.Took.TheVariants as took;
ghost use Rattle.pl_context.specs.Stops.{HasPlaces, any_stopped};
ghost use Rattle.pl_context.specs.Ports.{end_after, as_items};
ghost use Rattle.pl_context.specs.ContextViews.{IsHop, SameNode, new_context, has_up, has_down, down_hop, Enters, kind_taken, one_of, taken_of, number_limit, open_lanes};
ghost use Rattle.pl_context.specs.Standings.{is_over, has_failed};
ghost use Rattle.pl_context.specs.Contexts.{StandsAfter, MakesFew, ChangesItem, Runs, GivesLast, TakesEvent, TakesItem, TakesData, TakesFlag, PutsBoth, PutsNone, counted, offers, ups, downs, last_item, IsSmall};
ghost use Rattle.pl_event.specs.declared.limits.TheConstants.{MAX_ITEMS};

use crate::outputs::Outputs;
use crate::ports::Port;
use crate::standing::{Standing, Took};
use pl_event::{
    Cause, Changed, Direction, Envelope, Event, Item, Kind, Lane, Stage, StageFault, Turned,
};
use std::alloc::Global;
use std::marker::Model;

/// The most handlers of a pipeline, as hops count.
pub const MAX_HANDLERS: u16 = pl_event::MAX_HANDLERS;

/// A stage at its hop (Netty's `ChannelHandlerContext`).
///
/// It takes what its lane brings, and puts out what the stage makes of it: an inbound context on the lane of the next
/// hop, an outbound one on the lane of the next hop towards the head, the turn on both. An end that it takes goes on in
/// each open lane, and so does a failure. Flags go on unchanged, until it has failed.
#[derive(Drop)]
pub struct Context<S: Stage> {
    stage: S,
    channel: u16,
    hop: u16,
    /// Of the data lane.
    taken: u64,
    flags_taken: u64,
    standing: Standing,
    /// `fail` was called while it was open.
    failed_by_call: bool,
    up: Port,
    down: Port,
    flags: Port,
    /// What the stage makes of one event. Empty between two calls.
    up_events: Vec<Event>,
    down_events: Vec<Event>,
}

impl<S: Stage> Model for Context<S> {
    ghost use Rattle.pl_context.specs.ContextViews.{ContextView, IsContext};

    ghost Value = { ContextView S };

    ghost view = { λ c. record { stage = c.stage; channel = c.channel; hop = c.hop; taken = c.taken; flags_taken = c.flags_taken; standing = c.standing; failed_by_call = c.failed_by_call; up = c.up; down = c.down; flags = c.flags } };

    ghost invariant = { λ c. IsContext c.taken c.flags_taken c.up c.down c.flags c.up_events.items c.down_events.items };
}

impl<S: Stage> Context<S> {
    /// A stage that has had no step, at a hop of a channel whose pipeline has k inbound handlers. It takes no memory.
    pub fn new(alloc: Global, channel: u16, hop: u16, k: u16, stage: S) -> Self
        requires fresh { S.stands_after stage [] }
        requires hop { IsHop (S.meaning stage).direction hop k }
        ensures context { result ≡ new_context (S.meaning stage).direction channel hop k stage }
        ensures stands { StandsAfter S.meaning S.stands_after result [] }
    {
        let direction = stage.direction();
        let below = down_hop(direction, hop, k);
        Context {
            stage,
            channel,
            hop,
            taken: 0,
            flags_taken: 0,
            standing: Standing::Open,
            failed_by_call: false,
            up: Port::new(channel, Kind::Data, hop + 1, has_up(direction)),
            down: Port::new(channel, Kind::Data, below, has_down(direction)),
            flags: Port::new(channel, Kind::Flags, hop + 1, has_up(direction)),
            up_events: Vec::new(alloc),
            down_events: Vec::new(alloc),
        }
    }

    /// Takes the next item of one of its lanes, and puts out what comes of it. It answers `Ended` where it is open and
    /// takes an end; `Failed` where it is open and takes a failure, or finds no memory for an event; `Dropped` where it
    /// had failed before; and else `Ran`.
    pub fn take(&mut self, envelope: Envelope, outputs: &mut Outputs) -> Took
        requires enters { Enters self.old envelope.lane }
        requires number { envelope.number ≡ kind_taken self.old envelope.lane.kind }
        requires limit { envelope.number < number_limit envelope.lane.kind }
        requires few { envelope.lane.kind ≡ kind.Data → self.old.standing ≡ standings.Open → MakesFew S.meaning S.stands_after self.old envelope.item }
        requires places { HasPlaces outputs.old.stopped (open_lanes self.old) }
        ensures meaning { S.meaning self.new.stage ≡ S.meaning self.old.stage }
        ensures same_node { (self.new.channel ≡ self.old.channel) × (self.new.hop ≡ self.old.hop) }
        ensures taken { (k : Kind) → kind_taken self.new k ≡ kind_taken self.old k + one_of k envelope.lane.kind }

        // One that is open puts out what its stage makes of the item.
        ensures open { envelope.lane.kind ≡ kind.Data → self.old.standing ≡ standings.Open →
            TakesItem S.meaning S.stands_after S.is_spent (counted kind.Data self.old) envelope.item outputs.old result self.new outputs.new }
        ensures spent { envelope.lane.kind ≡ kind.Data → self.old.standing ≡ standings.Open → S.is_spent self.old.stage ≡ true →
            (event : Event) → envelope.item ≡ items.Event event → result ≡ took.Failed Memory }

        // One that has ended hands flags on, and nothing else.
        ensures ended { envelope.lane.kind ≡ kind.Data → self.old.standing ≡ standings.Ended →
            (result ≡ took.Ran) × (self.new ≡ counted kind.Data self.old) × (outputs.new ≡ outputs.old) }
        ensures flags { envelope.lane.kind ≡ kind.Flags → has_failed self.old.standing ≡ false →
            TakesFlag (counted kind.Flags self.old) envelope.item outputs.old result self.new outputs.new }

        // One that has failed puts out nothing.
        ensures dropped { has_failed self.old.standing ≡ true →
            (result ≡ took.Dropped) × (self.new ≡ counted envelope.lane.kind self.old) × (outputs.new ≡ outputs.old) }
    {
        match envelope.lane.kind {
            Kind::Data => self.take_data(envelope, outputs),
            Kind::Flags => self.take_flag(envelope, outputs),
        }
    }

    /// Fails an open context: each open lane is given the failure. One that has ended or failed is unchanged.
    pub fn fail(&mut self, cause: Cause, outputs: &mut Outputs)
        requires places { HasPlaces outputs.old.stopped (open_lanes self.old) }
        ensures open { self.old.standing ≡ standings.Open → GivesLast (standings.Failed cause) (record self.old { failed_by_call = true }) outputs.old self.new outputs.new }
        ensures over { is_over self.old.standing ≡ true → (self.new ≡ self.old) × (outputs.new ≡ outputs.old) }
    {
        if let Standing::Open = self.standing {
            self.failed_by_call = true;
            self.close(Standing::Failed(cause), outputs);
        }
    }

    /// How it stands.
    pub fn standing(&self) -> Standing
        ensures { result ≡ self.now.standing }
    {
        self.standing
    }

    /// Whether it has ended or failed.
    pub fn is_ended(&self) -> bool
        ensures { result ≡ is_over self.now.standing }
    {
        self.standing.is_over()
    }

    /// Gives the context up for its stage.
    pub fn into_stage(self) -> S
        ensures { result ≡ self.stage }
    {
        let Context { stage, .. } = self;
        stage
    }

    /// The data lane that enters it. The flags lane of the same hop enters it too.
    pub fn lane(&self) -> Lane
        ensures { result ≡ record { channel = self.now.channel; kind = kind.Data; hop = self.now.hop } }
    {
        Lane {
            channel: self.channel,
            kind: Kind::Data,
            hop: self.hop,
        }
    }

    /// Its lane upwards: how many items were put on it, and whether it is open. An outbound context never has it open.
    pub fn up(&self) -> Port
        ensures { result ≡ self.now.up }
    {
        self.up
    }

    /// Its lane downwards. An inbound context never has it open.
    pub fn down(&self) -> Port
        ensures { result ≡ self.now.down }
    {
        self.down
    }

    /// How many items of a lane it has taken, those that were dropped among them: none of a lane that does not enter it.
    pub fn taken(&self, lane: Lane) -> u64
        ensures { result ≡ taken_of self.now lane }
    {
        if lane.channel == self.channel && lane.hop == self.hop {
            match lane.kind {
                Kind::Data => self.taken,
                Kind::Flags => self.flags_taken,
            }
        } else {
            0
        }
    }

    /// Takes an envelope of the data lane. Where its stage changes the event in its place, the envelope goes on.
    fn take_data(&mut self, mut envelope: Envelope, outputs: &mut Outputs) -> Took
        requires limit { self.old.taken < MAX_ITEMS }
        requires few { self.old.standing ≡ standings.Open → MakesFew S.meaning S.stands_after self.old envelope.item }
        requires places { HasPlaces outputs.old.stopped (open_lanes self.old) }
        ensures { TakesData S.meaning S.stands_after S.is_spent (counted kind.Data self.old) envelope.item outputs.old result self.new outputs.new }
    {
        self.taken += 1;
        let changed = change(
            &mut self.stage,
            self.standing,
            &mut envelope.item,
            &mut self.down_events,
            outputs,
        );
        match changed {
            Changed::No => self.take_item(envelope, outputs),
            Changed::Up => {
                if self.down_events.is_empty() {
                    self.up.hand_on(envelope, outputs);
                    return Took::Ran;
                }
                let put = put_changed(
                    &mut self.up,
                    &mut self.down,
                    envelope,
                    &mut self.down_events,
                    outputs,
                );
                match put {
                    Ok(()) => Took::Ran,
                    Err(StageFault::Memory) => self.run_out(outputs),
                }
            }
            Changed::Down => {
                self.down.hand_on(envelope, outputs);
                Took::Ran
            }
        }
    }

    /// Takes an item of the data lane, which is counted. What takes an item apart is kept out of what hands envelopes on whole.
    #[inline(never)]
    fn take_item(&mut self, envelope: Envelope, outputs: &mut Outputs) -> Took
        requires few { self.old.standing ≡ standings.Open → MakesFew S.meaning S.stands_after self.old envelope.item }
        requires places { HasPlaces outputs.old.stopped (open_lanes self.old) }
        ensures { TakesData S.meaning S.stands_after S.is_spent self.old envelope.item outputs.old result self.new outputs.new }
    {
        let Envelope { item, .. } = envelope;
        match self.standing {
            Standing::Open => self.take_open(item, outputs),
            Standing::Ended => {
                drop(item);
                Took::Ran
            }
            Standing::Failed(_) => {
                drop(item);
                Took::Dropped
            }
        }
    }

    /// Takes an item of the flags lane, which is rare.
    #[inline(never)]
    fn take_flag(&mut self, envelope: Envelope, outputs: &mut Outputs) -> Took
        requires limit { self.old.flags_taken < 2 ^ 32 }
        requires places { HasPlaces outputs.old.stopped (open_lanes self.old) }
        ensures same { self.new ≡ record (counted kind.Flags self.old) { flags = self.new.flags } }
        ensures flags { has_failed self.old.standing ≡ false → TakesFlag (counted kind.Flags self.old) envelope.item outputs.old result self.new outputs.new }
        ensures dropped { has_failed self.old.standing ≡ true → (result ≡ took.Dropped) × (self.new ≡ counted kind.Flags self.old) × (outputs.new ≡ outputs.old) }
    {
        let Envelope { item, .. } = envelope;
        self.flags_taken += 1;
        if self.standing.has_failed() {
            drop(item);
            return Took::Dropped;
        }
        match item {
            Item::Flag(value) => self.flags.pass(value, outputs),
            other => drop(other),
        }
        Took::Ran
    }

    /// Takes an item of the data lane, while it is open.
    fn take_open(&mut self, item: Item, outputs: &mut Outputs) -> Took
        requires few { MakesFew S.meaning S.stands_after self.old item }
        requires places { HasPlaces outputs.old.stopped (open_lanes self.old) }
        ensures meaning { S.meaning self.new.stage ≡ S.meaning self.old.stage }
        ensures same_node { SameNode self.old self.new }
        ensures takes { TakesItem S.meaning S.stands_after S.is_spent self.old item outputs.old result self.new outputs.new }
        ensures spent { S.is_spent self.old.stage ≡ true → (event : Event) → item ≡ items.Event event → result ≡ took.Failed Memory }
    {
        match item {
            Item::Event(event) => self.take_event(event, outputs),
            Item::End => {
                self.close(Standing::Ended, outputs);
                Took::Ended
            }
            Item::Fail(cause) => {
                self.close(Standing::Failed(cause), outputs);
                Took::Failed(cause)
            }
            Item::Flag(_) => Took::Ran,
        }
    }

    /// Runs an event, or fails where there is no memory for it.
    fn take_event(&mut self, event: Event, outputs: &mut Outputs) -> Took
        requires few { (xs : List Event) × IsSmall S.meaning S.stands_after self.old.stage self.old.up self.old.down xs event }
        requires places { HasPlaces outputs.old.stopped (open_lanes self.old) }
        ensures meaning { S.meaning self.new.stage ≡ S.meaning self.old.stage }
        ensures same_node { SameNode self.old self.new }
        ensures takes { TakesEvent S.meaning S.stands_after S.is_spent self.old event outputs.old result self.new outputs.new }
        ensures spent { S.is_spent self.old.stage ≡ true → result ≡ took.Failed Memory }
    {
        match self.step(event, outputs) {
            Ok(()) => Took::Ran,
            Err(StageFault::Memory) => self.run_out(outputs),
        }
    }

    /// Puts out what the stage makes of an event, or nothing where there is no memory for all of it.
    fn step(&mut self, event: Event, outputs: &mut Outputs) -> Result<(), StageFault>
        requires few { (xs : List Event) × IsSmall S.meaning S.stands_after self.old.stage self.old.up self.old.down xs event }
        requires places { HasPlaces outputs.old.stopped (open_lanes self.old) }
        ensures meaning { S.meaning self.new.stage ≡ S.meaning self.old.stage }
        ensures runs { OnOk result (Runs S.meaning S.stands_after self.old event outputs.old self.new outputs.new) }
        ensures kept { OnErr result (self.new ≡ record self.old { stage = self.new.stage }) }
        ensures items { OnErr result (outputs.new.items ≡ outputs.old.items) }
        ensures stopped { OnErr result (outputs.new.stopped ≡ outputs.old.stopped) }
        ensures room { OnErr result (outputs.old.room ≤ outputs.new.room) }
        ensures why { OnErr result (S.is_spent self.new.stage ≡ false → (xs : List Event) → S.stands_after self.old.stage xs →
            outputs.old.room < length (offers self.old.up self.old.down (ups (S.meaning self.old.stage) xs event) (downs (S.meaning self.old.stage) xs event))) }
        ensures spent { S.is_spent self.old.stage ≡ true → IsErr result }
    {
        let turned = self
            .stage
            .step(event, &mut self.up_events, &mut self.down_events)?;
        put_made(
            &mut self.up,
            &mut self.down,
            &mut self.up_events,
            &mut self.down_events,
            turned,
            outputs,
        )
    }

    /// Fails, out of memory.
    #[inline(never)]
    fn run_out(&mut self, outputs: &mut Outputs) -> Took
        requires { HasPlaces outputs.old.stopped (open_lanes self.old) }
        ensures failed { result ≡ took.Failed Memory }
        ensures closes { GivesLast (standings.Failed Memory) self.old outputs.old self.new outputs.new }
    {
        self.close(Standing::Failed(Cause::Memory), outputs);
        Took::Failed(Cause::Memory)
    }

    /// Gives both lanes their last item.
    #[inline(never)]
    fn close(&mut self, standing: Standing, outputs: &mut Outputs)
        requires { HasPlaces outputs.old.stopped (open_lanes self.old) }
        ensures { GivesLast standing self.old outputs.old self.new outputs.new }
    {
        self.standing = standing;
        self.up.put(last_item(standing), outputs);
        self.down.put(last_item(standing), outputs);
    }
}

/// Has a stage change an event in its place, while its context is open and there is room for it on a list where no lane
/// has stopped. Where it answers `No` nothing has changed.
fn change<S: Stage>(
    stage: &mut S,
    standing: Standing,
    item: &mut Item,
    below: &mut Vec<Event>,
    outputs: &Outputs,
) -> Changed
    ensures meaning { S.meaning stage.new ≡ S.meaning stage.old }
    ensures no { result ≡ No → (stage.new ≡ stage.old) × (item.new ≡ item.old) × (below.new.items ≡ below.old.items) }
    ensures ready { result ≢ No → (standing ≡ standings.Open) × (0 < outputs.now.room) × (any_stopped outputs.now.stopped ≡ false) }
    ensures changes { result ≢ No → (made : List Event) × (below.new.items ≡ below.old.items ++ made)
        × ChangesItem S.meaning S.stands_after stage.old item.old result stage.new item.new made }
    ensures alone { result ≡ Down → below.new.items ≡ below.old.items }
    ensures spent { S.is_spent stage.old ≡ true → result ≡ No }
{
    let Standing::Open = standing else {
        return Changed::No;
    };
    let Item::Event(event) = item else {
        return Changed::No;
    };
    if !outputs.is_ready() {
        return Changed::No;
    }
    stage.change(event, below)
}

/// Hands an envelope on upwards, and puts out the events that go down besides. Where there is not room for all of it
/// nothing is put out. The buffer is empty then.
fn put_changed(
    up: &mut Port,
    down: &mut Port,
    envelope: Envelope,
    below: &mut Vec<Event>,
    outputs: &mut Outputs,
) -> Result<(), StageFault>
    requires event { goes_on envelope.item ≡ true }
    requires none { any_stopped outputs.old.stopped ≡ false }
    requires room { 0 < outputs.old.room }
    requires place_down { down.old.is_open ≡ true → HasPlaces outputs.old.stopped (down.old.lane ∷ []) }
    requires few_up { up.old.is_open ≡ true → up.old.made + 1 ≤ MAX_ITEMS }
    requires few_down { down.old.is_open ≡ true → down.old.made + length below.old.items ≤ MAX_ITEMS }
    ensures empty { below.new.items ≡ [] }
    ensures puts { OnOk result (PutsBoth (envelope.item ∷ []) (as_items below.old.items) up.old down.old outputs.old up.new down.new outputs.new) }
    ensures none { OnErr result (PutsNone (envelope.item ∷ []) (as_items below.old.items) up.old down.old outputs.old up.new down.new outputs.new) }
{
    let events_up = up.room_for(1);
    let events_down = down.room_for(below.len());
    match outputs.reserve(events_up + events_down) {
        Ok(()) => {
            up.hand_on(envelope, outputs);
            down.put_all(below, outputs);
            Ok(())
        }
        Err(_) => {
            envelope.discard();
            below.clear();
            Err(StageFault::Memory)
        }
    }
}

/// Puts out what a stage made of an event: events up, events down, and the end where it has quit. Where there is not
/// room for all of it nothing is put out. The buffers are empty then.
fn put_made(
    up: &mut Port,
    down: &mut Port,
    above: &mut Vec<Event>,
    below: &mut Vec<Event>,
    turned: Turned,
    outputs: &mut Outputs,
) -> Result<(), StageFault>
    requires place_up { up.old.is_open ≡ true → HasPlaces outputs.old.stopped (up.old.lane ∷ []) }
    requires place_down { down.old.is_open ≡ true → HasPlaces outputs.old.stopped (down.old.lane ∷ []) }
    requires few_up { up.old.is_open ≡ true → up.old.made + length above.old.items ≤ MAX_ITEMS }
    requires few_down { down.old.is_open ≡ true → down.old.made + length below.old.items + length (end_after turned) ≤ MAX_ITEMS }
    ensures up_empty { above.new.items ≡ [] }
    ensures down_empty { below.new.items ≡ [] }
    ensures puts { OnOk result (PutsBoth (as_items above.old.items) (as_items below.old.items ++ end_after turned) up.old down.old outputs.old up.new down.new outputs.new) }
    ensures none { OnErr result (PutsNone (as_items above.old.items) (as_items below.old.items ++ end_after turned) up.old down.old outputs.old up.new down.new outputs.new) }
{
    let events_up = up.room_for(above.len());
    let events_down = down.room_for(below.len());
    let end = down.room_for(ends_of(turned));
    match outputs.reserve(events_up + events_down + end) {
        Ok(()) => {
            up.put_all(above, outputs);
            down.put_all(below, outputs);
            down.end_if(turned, outputs);
            Ok(())
        }
        Err(_) => {
            above.clear();
            below.clear();
            Err(StageFault::Memory)
        }
    }
}

/// The last item of the lanes of a context that has ended or failed.
fn last_item(standing: Standing) -> Item
    ensures { result ≡ last_item standing }
{
    match standing {
        Standing::Open | Standing::Ended => Item::End,
        Standing::Failed(cause) => Item::Fail(cause),
    }
}

/// How many ends a stage puts out: one where it has quit.
fn ends_of(turned: Turned) -> usize
    ensures { result ≡ length (end_after turned) }
{
    match turned {
        Turned::Open => 0,
        Turned::Ended => 1,
    }
}

/// Whether a stage of this direction has a lane upwards.
fn has_up(direction: Direction) -> bool
    ensures { result ≡ has_up direction }
{
    match direction {
        Direction::Inbound | Direction::Turn => true,
        Direction::Outbound => false,
    }
}

/// Whether a stage of this direction has a lane downwards.
fn has_down(direction: Direction) -> bool
    ensures { result ≡ has_down direction }
{
    match direction {
        Direction::Inbound => false,
        Direction::Outbound | Direction::Turn => true,
    }
}

/// The hop of a lane downwards: the turn begins at the first hop after the tail.
fn down_hop(direction: Direction, hop: u16, k: u16) -> u16
    requires { (hop ≤ MAX_HANDLERS) × (k ≤ MAX_HANDLERS) }
    ensures { result ≡ down_hop direction hop k }
{
    match direction {
        Direction::Turn => k + 1,
        Direction::Inbound | Direction::Outbound => hop + 1,
    }
}
