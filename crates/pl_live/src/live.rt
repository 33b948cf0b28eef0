//! A live channel.

ghost use Rattle.std.specs.Prelude.{◌≡◌, ◌⊎◌, ◌&&◌, ◌||◌, is_some, suc, ◌+◌, ◌-◌, ◌<◌, ◌≤◌, ◌++◌, ◌∷◌, [], ℕ, List, Some, None, Ok, Err, true, false, IfOk, OnOk, OnErr, IfNone, SomeIff, length, take, drop, slice_get};
ghost use Rattle.pl_event.specs.declared.elements.Element.{Element};
ghost use Rattle.pl_event.specs.Inputs.{burst_events};
ghost use Rattle.pl_stages.specs.Counts.{weight};
ghost use Rattle.pl_event.specs.declared.events.Event.{Event};
ghost use Rattle.pl_context.specs.Standings.{is_over};
ghost use Rattle.pl_context.specs.TailViews.{TailView};
ghost use Rattle.pl_head.specs.HeadStand.{HeadView, HeadStandsAfter, is_idle};
ghost use Rattle.pl_head.specs.Marks.{Change};
ghost use Rattle.pl_head.specs.Writes.{out};
ghost use Rattle.pl_world.specs.declared.worlds.WorldRefusal.TheVariants as refusal;
ghost use Rattle.pl_world.specs.Limits.{is_placed};
ghost use Rattle.pl_world.specs.Plans.{ChannelPlan, channel_planned};
ghost use Rattle.pl_world.specs.Reports.{tail_of, head_of};
ghost use Rattle.pl_world.specs.Worlds.{IsUncalled};
ghost use Rattle.pl_channel.specs.Feeding.{fed_channel};
ghost use Rattle.pl_replay.specs.Reported.{HasEnds};
ghost use Rattle.pl_live.specs.declared.faults.FeedFault.TheVariants as fault;

use crate::faults::FeedFault;
use pl_build::Placed;
use pl_context::Tail;
use pl_event::{Cause, Element, Event, Sequence};
use pl_flow::HeadMove;
use pl_head::{Draining, Head, ReadPlan};
use pl_net::{NoWatch, Stations};
use pl_part::ChannelPart;
use pl_replay::{Channels, Net};
use pl_stages::Thrifty;
use pl_world::{World, WorldRefusal, bytes_left};
use std::alloc::Global;
use std::collections::VecDeque;
use std::marker::Model;

/// How much a channel may ever be fed: bytes, elements and bursts, each counted as one, and one for its start.
pub const MAX_FED: usize = 1_073_741_823;

/// From how many bytes that are to be consumed on the transport is offered no more.
const ENOUGH: usize = 65_536;

/// From how many bytes, or outcomes, that are held on no burst is read before all of the output was consumed.
const LADEN: usize = 1_048_576;

/// A channel that lives: it is fed bursts as they come in, gives the bytes that its handlers write, and the events that
/// reach its tail. All its handlers are on the thread that calls it. (Netty's `EmbeddedChannel`, by what it is for.)
///
/// What holds of it is said by the plan of what it was fed: whichever way that was cut into bursts and calls, the events and
/// the bytes that were handed out begin what the handlers, composed on lists, make of all that was fed. What was handed out is
/// forgotten.
#[derive(Drop)]
pub struct Live<S: Thrifty, T: Draining> {
    alloc: Global,
    stations: Stations<Channels<S, T>>,
    /// How much may still be fed.
    room: usize,
    /// The end comes, behind the bursts that are left.
    ends: bool,
    /// How many events were handed out.
    delivered: usize,
    /// The events that are next to be, which the tail has handed over.
    front: VecDeque<Event>,
    /// How many of the bytes that were consumed are gone.
    gone: usize,
    /// How many of those that the transport holds were consumed.
    consumed: usize,
}

impl<S: Thrifty, T: Draining> Model for Live<S, T> {
    ghost use Rattle.pl_world.specs.Plans.{ChannelPlan};
    ghost use Rattle.pl_live.specs.LiveStand.{LiveView, LiveStands};

    ghost Value = { LiveView S T };

    ghost view = { λ l. record { stations = l.stations; room = l.room; ends = l.ends; delivered = l.delivered; front = l.front.items; gone = l.gone; consumed = l.consumed } };

    ghost invariant = { λ l. (p : ChannelPlan) × LiveStands S.meaning S.stands_after T.state p (record { stations = l.stations; room = l.room; ends = l.ends; delivered = l.delivered; front = l.front.items; gone = l.gone; consumed = l.consumed }) };
}

impl<S: Thrifty, T: Draining> Live<S, T> {
    ghost use Rattle.pl_live.specs.LiveStand.{LiveStands, LiveRests, IsSound, IsWritten, ReadsSame, consumed_of, live_cause, may_take, wants_burst, parts_of, head_in, tail_in, accepted_in, recorded_in, left_in, open_in};

    /// A channel with this pipeline and transport, which has become active and was fed nothing. The pipeline is on executor 0,
    /// as one without groups is.
    ///
    /// Errors: `Limit` where a handler is on another executor; `Memory`.
    pub fn new(alloc: Global, pipeline: Placed<S>, transport: T) -> Result<Self, WorldRefusal>
        requires uncalled { IsUncalled (T.state transport) }
        ensures rests { IfOk result (λ live. LiveRests S.meaning S.stands_after T.state (channel_planned S.meaning T.state (record { pipeline = pipeline; input = record { bursts = []; abort_after = None }; transport = transport })) live) }
        ensures started { IfOk result (λ live. (live.delivered ≡ 0) × (consumed_of live ≡ 0) × (live.ends ≡ false)) }
        ensures limit { result ≡ Err refusal.Limit → is_placed 1 pipeline ≡ false }
        ensures allowed { OnOk result (is_placed 1 pipeline ≡ true) }
    {
        let mut pipelines = Sequence::new(alloc);
        pipelines.push(pipeline)?;
        let mut inputs = Sequence::new(alloc);
        inputs.push(ReadPlan {
            bursts: Sequence::new(alloc),
            abort_after: None,
        })?;
        let mut transports = Sequence::new(alloc);
        transports.push(transport)?;
        let world = World::of_thrifty(alloc, pipelines, inputs, transports, 1)?;
        let Ok(net) = Net::new(alloc, world, 1) else {
            return Err(WorldRefusal::Memory);
        };
        let mut live = Live {
            alloc,
            stations: net.into_stations(),
            room: MAX_FED - 1,
            ends: false,
            delivered: 0,
            front: VecDeque::new(alloc),
            gone: 0,
            consumed: 0,
        };
        live.advance();
        Ok(live)
    }

    /// Feeds a burst: what came in at once, chunks and user events. It is read, and what comes of it is made, as far as output
    /// that is not consumed doesn't hold it.
    ///
    /// Errors, which leave the channel as it was: `Closed` after `end`, where a handler has quit, and where something has failed;
    /// `Full` where more would have been fed than `MAX_FED`; `Memory`.
    pub fn feed(&mut self, burst: Sequence<Element>) -> Result<(), FeedFault>
        ensures fed { OnOk result ((p : ChannelPlan) → LiveRests S.meaning S.stands_after T.state p self.old → LiveRests S.meaning S.stands_after T.state (fed_channel burst p) self.new) }
        ensures handed { (self.new.delivered ≡ self.old.delivered) × (consumed_of self.new ≡ consumed_of self.old) × (self.new.ends ≡ self.old.ends) }
        ensures allowed { OnOk result ((self.old.ends ≡ false) × (may_take self.old ≡ true)) }
        ensures closed { result ≡ Err fault.Closed → self.old.ends ≡ false → may_take self.old ≡ false }
        ensures full { result ≡ Err fault.Full → self.old.room < weight (burst_events burst) }
        ensures kept { OnErr result (self.new ≡ self.old) }
    {
        if self.ends || !self.takes_bursts() {
            return Err(FeedFault::Closed);
        }
        let Some(room) = room_after(self.room, burst.as_slice()) else {
            return Err(FeedFault::Full);
        };
        self.stations.nodes.parts[0].feed(burst)?;
        self.room = room;
        self.forget();
        self.advance();
        Ok(())
    }

    /// Says that no burst comes any more: the end is read behind those that are left (`channelInactive`). Said once more it
    /// changes nothing.
    pub fn end(&mut self)
        ensures rests { (p : ChannelPlan) → LiveRests S.meaning S.stands_after T.state p self.old → LiveRests S.meaning S.stands_after T.state p self.new }
        ensures handed { (self.new.delivered ≡ self.old.delivered) × (consumed_of self.new ≡ consumed_of self.old) }
        ensures ends { self.new.ends ≡ true }
    {
        self.ends = true;
        self.advance();
    }

    /// Aborts the channel: its head fails, which its handlers and its tail are told, and nothing more is read or sent. Where
    /// that has failed, nothing is changed.
    pub fn abort(&mut self)
        ensures rests { (p : ChannelPlan) → LiveStands S.meaning S.stands_after T.state p self.old → LiveRests S.meaning S.stands_after T.state p self.new }
        ensures failed { (h : HeadView T) → head_in (parts_of self.new) ≡ Some h → is_some h.failure ≡ true }
        ensures closed { may_take self.new ≡ false }
        ensures same { self.new ≡ record self.old { stations = self.new.stations } }
    {
        self.stations.abort(0);
    }

    /// The bytes that are to be sent and were not consumed: the next of the output, in order.
    pub fn pending_output(&self) -> &[u8]
        ensures pending { result.now ≡ drop self.now.consumed (accepted_in T.state (parts_of self.now)) }
        ensures within { self.now.consumed + length result.now ≡ length (accepted_in T.state (parts_of self.now)) }
        // They are what comes behind the bytes consumed, of what the handlers write of all that was fed.
        ensures next { (p : ChannelPlan) → LiveStands S.meaning S.stands_after T.state p self.now → (rest : List ℕ) × (take (consumed_of self.now) (out (head_of p)) ++ result.now ++ rest ≡ out (head_of p)) }
        // And nothing that is due stays inside.
        ensures all { (p : ChannelPlan) (w : ℕ) → LiveRests S.meaning S.stands_after T.state p self.now → IsSound self.now → p.window ≡ Some (suc w) → result.now ≡ [] → consumed_of self.now ≡ length (out (head_of p)) }
    {
        &self.head().bytes()[self.consumed..]
    }

    /// Consumes the first bytes of `pending_output`: they were sent, and are forgotten once all are. What waited for that is read
    /// and offered then.
    pub fn consume(&mut self, count: usize)
        requires within { self.old.consumed + count ≤ length (accepted_in T.state (parts_of self.old)) }
        ensures rests { (p : ChannelPlan) → LiveRests S.meaning S.stands_after T.state p self.old → LiveRests S.meaning S.stands_after T.state p self.new }
        ensures consumed { consumed_of self.new ≡ consumed_of self.old + count }
        ensures handed { (self.new.delivered ≡ self.old.delivered) × (self.new.ends ≡ self.old.ends) }
    {
        let pending = self.accepted() - self.consumed;
        prove!(count <= pending);
        self.consumed += count;
        self.forget();
        self.advance();
    }

    /// Hands out the next event that reached the tail, each once and in order; None where none is left. It takes no memory.
    pub fn next_event(&mut self) -> Option<Event>
        ensures next { (event : Event) → result ≡ Some event → (p : ChannelPlan) → LiveStands S.meaning S.stands_after T.state p self.old → slice_get (tail_of p) self.old.delivered ≡ Some event }
        ensures delivered { (event : Event) → result ≡ Some event → self.new.delivered ≡ self.old.delivered + 1 }
        ensures none { result ≡ None → (self.new ≡ self.old) × (self.old.front ≡ []) × (recorded_in (parts_of self.old) ≡ []) }
        ensures all { result ≡ None → (p : ChannelPlan) (w : ℕ) → LiveRests S.meaning S.stands_after T.state p self.old → IsSound self.old → p.window ≡ Some (suc w)
            → self.old.consumed ≡ length (accepted_in T.state (parts_of self.old)) → self.old.delivered ≡ length (tail_of p) }
        ensures rests { (p : ChannelPlan) → LiveRests S.meaning S.stands_after T.state p self.old → LiveRests S.meaning S.stands_after T.state p self.new }
        ensures handed { (consumed_of self.new ≡ consumed_of self.old) × (self.new.ends ≡ self.old.ends) }
    {
        self.fill_front();
        let event = self.front.pop_front()?;
        self.delivered += 1;
        Some(event)
    }

    /// Takes the tail's record, where none is left of the one before and it has some.
    fn fill_front(&mut self)
        ensures stands { (p : ChannelPlan) → LiveStands S.meaning S.stands_after T.state p self.old → LiveStands S.meaning S.stands_after T.state p self.new }
        ensures rests { (p : ChannelPlan) → LiveRests S.meaning S.stands_after T.state p self.old → LiveRests S.meaning S.stands_after T.state p self.new }
        ensures same { self.new ≡ record self.old { stations = self.new.stations; front = self.new.front } }
        ensures none { self.new.front ≡ [] → (self.new ≡ self.old) × (recorded_in (parts_of self.old) ≡ []) }
    {
        if !self.front.is_empty() {
            return;
        }
        if self.tail().record().is_empty() {
            return;
        }
        let events = self.stations.nodes.parts[0].take_record(self.alloc);
        self.front = VecDeque::from(events.into_vec());
    }

    /// Why something has failed: a node of the channel, or a growth that was refused. None where nothing has.
    pub fn cause(&self) -> Option<Cause>
        ensures cause { result ≡ live_cause self.now }
        ensures sound { result ≡ None → IsSound self.now }
    {
        if self.stations.has_stopped() {
            return Some(Cause::Memory);
        }
        self.part().standing().cause()
    }

    /// Whether the channel is over: its tail and its head have taken an end or a failure, and nothing is left to be offered. It
    /// may be while output is still to be consumed.
    pub fn is_done(&self) -> bool
        ensures over { (t : TailView) (h : HeadView T) (ys zs : List Event) (sizes : List Change) → tail_in (parts_of self.now) ≡ Some t → head_in (parts_of self.now) ≡ Some h → HeadStandsAfter T.state h ys zs sizes
            → result ≡ (is_over t.standing && ((is_over h.standing || is_some h.failure) && is_idle T.state h ys)) }
        // It is where the end was said, nothing has failed, and all output was consumed.
        ensures done { (p : ChannelPlan) (w : ℕ) → LiveRests S.meaning S.stands_after T.state p self.now → IsSound self.now → p.window ≡ Some (suc w) → self.now.ends ≡ true
            → self.now.consumed ≡ length (accepted_in T.state (parts_of self.now)) → result ≡ true }
    {
        let head = self.head();
        self.tail().is_ended() && head.is_ended() && head.is_written()
    }

    /// Whether a burst is wanted: one may come, none is left to be read, and it would not be held, since the channel is writable
    /// or no flushed byte waits. Who feeds it only then holds in it at most what the high mark allows, what one burst brings, what
    /// no handler has flushed, and the 65,536 bytes and one message that may be accepted and not consumed (`AUTO_READ`).
    pub fn wants_input(&self) -> bool
        ensures wants { (h : HeadView T) (ys zs : List Event) (sizes : List Change) → head_in (parts_of self.now) ≡ Some h → HeadStandsAfter T.state h ys zs sizes
            → result ≡ wants_burst T.state self.now h ys }
        // It is, as long as one may come, where nothing has failed and all output was consumed.
        ensures wanted { (p : ChannelPlan) (w : ℕ) → LiveRests S.meaning S.stands_after T.state p self.now → IsSound self.now → p.window ≡ Some (suc w) → self.now.ends ≡ false → may_take self.now ≡ true
            → self.now.consumed ≡ length (accepted_in T.state (parts_of self.now)) → result ≡ true }
    {
        let head = self.head();
        !self.ends
            && self.takes_bursts()
            && head.steps_left() == 0
            && (head.is_writable() || head.is_written())
    }

    /// Whether a burst may come: no node has ended or failed, and its reads are open.
    fn takes_bursts(&self) -> bool
        ensures { result ≡ may_take self.now }
    {
        !self.part().standing().is_over() && self.head().takes_bursts()
    }

    /// Forgets what was consumed, where that is all that the transport holds and no flushed message waits, and the outcomes of those
    /// writes.
    fn forget(&mut self)
        ensures stands { (p : ChannelPlan) → LiveStands S.meaning S.stands_after T.state p self.old → LiveStands S.meaning S.stands_after T.state p self.new }
        ensures same { self.new ≡ record self.old { stations = self.new.stations; gone = self.new.gone; consumed = self.new.consumed } }
        ensures consumed { consumed_of self.new ≡ consumed_of self.old }
    {
        if self.consumed < self.accepted() {
            return;
        }
        if !self.stations.nodes.parts[0].forget() {
            return;
        }
        self.gone = self.stations.nodes.parts[0].gone();
        self.consumed = 0;
    }

    /// Whether so much of what was sent is held that no burst is read before all of it was consumed.
    fn is_laden(&self) -> bool
        ensures { result ≡ true → self.now.consumed < length (accepted_in T.state (parts_of self.now)) }
    {
        let accepted = self.accepted();
        self.consumed < accepted && (accepted >= LADEN || self.head().outcomes().len() >= LADEN)
    }

    /// Reads what was fed, the end too where that is to come, each burst once nothing holds it; and offers the transport what
    /// waits.
    fn advance(&mut self)
        ensures rests { (p : ChannelPlan) → LiveStands S.meaning S.stands_after T.state p self.old → LiveRests S.meaning S.stands_after T.state p self.new }
        ensures same { self.new ≡ record self.old { stations = self.new.stations } }
    {
        for _ in 0..self.head().steps_left() {
            self.write_out();
            if self.is_laden() {
                return;
            }
            if !self.read() {
                return;
            }
        }
        self.read_end();
        self.write_out();
    }

    /// Reads the end, where that is to come and nothing is left before it.
    fn read_end(&mut self)
        ensures stands { (p : ChannelPlan) → LiveStands S.meaning S.stands_after T.state p self.old → LiveStands S.meaning S.stands_after T.state p self.new }
        ensures same { self.new ≡ record self.old { stations = self.new.stations } }
        ensures closed { open_in (parts_of self.old) ≡ false → open_in (parts_of self.new) ≡ false }
        ensures left { left_in (parts_of self.old) ≡ 0 → left_in (parts_of self.new) ≡ 0 }
        ensures ended { self.old.ends ≡ true → left_in (parts_of self.old) ≡ 0 → open_in (parts_of self.new) ≡ false }
    {
        if self.ends {
            self.read();
        }
    }

    /// The head makes its next read step: a burst, or the end where that is to come. False where it made none: its reads are
    /// closed, or a burst is held.
    fn read(&mut self) -> bool
        requires more { left_in (parts_of self.old) ≡ 0 → self.old.ends ≡ true }
        ensures stands { (p : ChannelPlan) → LiveStands S.meaning S.stands_after T.state p self.old → LiveStands S.meaning S.stands_after T.state p self.new }
        ensures same { self.new ≡ record self.old { stations = self.new.stations } }
        ensures read { result ≡ true → (open_in (parts_of self.new) ≡ false) ⊎ (left_in (parts_of self.new) + 1 ≡ left_in (parts_of self.old)) }
        ensures least { result ≡ true → left_in (parts_of self.old) ≤ left_in (parts_of self.new) + 1 }
        ensures most { result ≡ true → left_in (parts_of self.new) ≤ left_in (parts_of self.old) }
        ensures open { result ≡ true → open_in (parts_of self.old) ≡ true }
        ensures unmoved { result ≡ false → self.new ≡ self.old }
        ensures held { result ≡ false → (open_in (parts_of self.old) ≡ false) ⊎ ((0 < left_in (parts_of self.old)) × ((h : HeadView T) → head_in (parts_of self.old) ≡ Some h → IsWritten T.state h → ⊥)) }
    {
        self.stations.move_head(HeadMove::Read, 0, &mut NoWatch)
    }

    /// Offers the transport what waits, until nothing does, or so many bytes are to be consumed that no more is offered.
    fn write_out(&mut self)
        ensures stands { (p : ChannelPlan) → LiveStands S.meaning S.stands_after T.state p self.old → LiveStands S.meaning S.stands_after T.state p self.new }
        ensures same { self.new ≡ record self.old { stations = self.new.stations } }
        ensures reads { ReadsSame (parts_of self.old) (parts_of self.new) }
        ensures written { (p : ChannelPlan) (w : ℕ) (h : HeadView T) → LiveStands S.meaning S.stands_after T.state p self.old → p.window ≡ Some (suc w) → head_in (parts_of self.new) ≡ Some h → h.failure ≡ None
            → self.new.consumed ≡ length (accepted_in T.state (parts_of self.new)) → IsWritten T.state h }
    {
        for _ in 0..ENOUGH {
            if self.accepted() - self.consumed >= ENOUGH {
                return;
            }
            if !self.offer() {
                return;
            }
        }
    }

    /// Offers the transport what waits first. False where it accepted nothing: nothing waits, or it has failed, or it takes nothing
    /// now.
    fn offer(&mut self) -> bool
        ensures stands { (p : ChannelPlan) → LiveStands S.meaning S.stands_after T.state p self.old → LiveStands S.meaning S.stands_after T.state p self.new }
        ensures same { self.new ≡ record self.old { stations = self.new.stations } }
        ensures reads { ReadsSame (parts_of self.old) (parts_of self.new) }
        ensures more { result ≡ true → length (accepted_in T.state (parts_of self.old)) + 1 ≤ length (accepted_in T.state (parts_of self.new)) }
        ensures written { result ≡ false → (p : ChannelPlan) (w : ℕ) (h : HeadView T) → LiveStands S.meaning S.stands_after T.state p self.old → p.window ≡ Some (suc w) → head_in (parts_of self.new) ≡ Some h → h.failure ≡ None
            → IsWritten T.state h }
    {
        let accepted = self.accepted();
        self.stations.move_head(HeadMove::Out, 0, &mut NoWatch) && self.accepted() > accepted
    }

    /// How many bytes the transport holds.
    fn accepted(&self) -> usize
        ensures { result ≡ length (accepted_in T.state (parts_of self.now)) }
    {
        self.head().bytes().len()
    }

    fn part(&self) -> &ChannelPart<S, T>
        ensures part { slice_get (parts_of self.now) 0 ≡ Some result.now }
        ensures ends { HasEnds result.now }
    {
        &self.stations.nodes.parts[0]
    }

    fn head(&self) -> &Head<T>
        ensures { head_in (parts_of self.now) ≡ Some result.now }
    {
        match self.part().head() {
            Some(head) => head,
            None => unreachable!(),
        }
    }

    fn tail(&self) -> &Tail
        ensures { tail_in (parts_of self.now) ≡ Some result.now }
    {
        match self.part().tail() {
            Some(tail) => tail,
            None => unreachable!(),
        }
    }
}

/// How much may still be fed after this burst, where so much may be before it; None where it is more.
fn room_after(room: usize, burst: &[Element]) -> Option<usize>
    ensures { SomeIff result (weight (burst_events burst.now) ≤ room) (room - weight (burst_events burst.now)) }
{
    bytes_left(room, burst)?
        .checked_sub(burst.len())?
        .checked_sub(1)
}
