//! The nodes of a channel that are on one executor, with the head.

ghost use Rattle.std.specs.Prelude.{◌≡◌, ℕ, ◌+◌, ◌<◌, ◌≤◌, ◌^◌, ◌==◌, ◌++◌, ◌∷◌, [], List, IfOk, IfSome, IfNone, IsTrue, Some, None, ◌||◌, map, replicate, is_some, length, get_or, true, false, OnOk, OnErr, not};
ghost use Rattle.std.specs.Option.{option_map_or};
ghost use Rattle.pl_event.specs.declared.envelopes.Kind.TheVariants as kind;
ghost use Rattle.pl_event.specs.declared.limits.TheConstants.{MAX_ITEMS};
ghost use Rattle.pl_event.specs.Worlds.{World};
ghost use Rattle.pl_context.specs.declared.contexts.TheConstants.{MAX_HANDLERS};
ghost use Rattle.pl_context.specs.declared.standing.Standing.TheVariants as standings;
ghost use Rattle.pl_context.specs.Standings.{is_over};
ghost use Rattle.pl_context.specs.ContextViews.{ContextView};
ghost use Rattle.pl_context.specs.Stops.{HasPlaces};
ghost use Rattle.pl_context.specs.TailViews.{new_tail};
ghost use Rattle.pl_head.specs.HeadCalls.{HeadFeeds};
ghost use Rattle.pl_head.specs.HeadStand.{HeadView, HeadStandsAfter, can_forget, is_idle};
ghost use Rattle.pl_head.specs.InputStand.{items_left, takes_bursts};
ghost use Rattle.pl_event.specs.declared.events.Event.{Event};
ghost use Rattle.pl_head.specs.Marks.{Change};
ghost use Rattle.pl_part.specs.NewParts.{AreNewStages, ArePlannedWith, AreNewSlots, whole_slots};
ghost use Rattle.pl_part.specs.HeadHolds.{HeadHolds};
ghost use Rattle.pl_part.specs.Paths.{PathRefuses, context_at, writer_hop};
ghost use Rattle.pl_part.specs.Parts.{PartHolds, PartTakes, PartReads, PartWrites, PartMoves, PartAborts, head_hop, has_read, all_over, head_standing, part_gone, part_standing, part_lanes};
ghost use Rattle.pl_part.specs.Counts.{head_done, part_done};
ghost use Rattle.pl_part.specs.PartCalls.{IsNextFor, Taken, Given, PartRefused};
ghost use Rattle.pl_part.specs.Shares.{IsShareOf};
ghost use Rattle.pl_part.specs.Told.{IsTold, TellsNext, part_untold};
ghost use Rattle.pl_part.specs.Growing.{fed_part};
ghost use Rattle.pl_part.specs.Keeping.{AreLaneStages, part_stages};
ghost use Rattle.pl_part.specs.Forgetting.{PartForgets, part_can_forget, part_handed, path_record};

use crate::kept::KeptStage;
use crate::paths::PathPart;
use crate::shares::take_where;
use pl_context::{Outputs, Standing, Tail, Took};
use pl_event::{Element, Envelope, Event, Lane, Outcome, Sequence, Stage};
use pl_flow::HeadMove;
use pl_head::{Draining, Head, OutStep, ReadStep, Transport};
use std::alloc::{AllocError, Global};
use std::marker::Model;

/// The nodes of a channel that are on one executor: contexts by hop, and where the executor is the channel's loop the
/// tail and the head.
#[derive(Drop)]
pub struct ChannelPart<S: Stage, T: Transport> {
    path: PathPart<S>,
    head: Option<Head<T>>,
}

impl<S: Stage, T: Transport> Model for ChannelPart<S, T> {
    ghost use Rattle.pl_part.specs.Parts.{ChannelPartView};

    ghost Value = { ChannelPartView S T };

    ghost view = { λ p. record { path = p.path; head = p.head } };
}

impl<S: Stage, T: Transport> ChannelPart<S, T> {
    /// All nodes of a channel: stages that have had no step, in the order of their hops, the executor of each hop, and the head.
    /// The world knows the lanes of each.
    pub fn whole(
        alloc: Global,
        channel: u16,
        executors: Vec<u16>,
        inbound: Vec<S>,
        outbound: Vec<S>,
        turn: usize,
        head: Head<T>,
    ) -> Result<Self, AllocError>
        requires few { length inbound.items + length outbound.items ≤ MAX_HANDLERS }
        requires hops { length executors.items ≡ length inbound.items + length outbound.items + 2 }
        requires turn { turn < length inbound.items }
        requires stages { AreNewStages S.meaning S.stands_after channel turn inbound.items outbound.items }
        requires last { (head.channel ≡ channel) × (head.hop ≡ length inbound.items + length outbound.items + 1) }
        ensures path { IfOk result (λ part. (part.path.channel ≡ channel) × (part.path.executors ≡ executors.items) × (part.path.tail_hop ≡ length inbound.items) × (part.path.turn ≡ turn)) }
        ensures contexts { IfOk result (λ part. part.path.contexts ≡ whole_slots S.meaning channel inbound.items outbound.items) }
        ensures filled { IfOk result (λ part. map (λ slot. is_some slot) part.path.contexts ≡ replicate (length inbound.items) true ++ false ∷ replicate (length outbound.items) true) }
        ensures tail { IfOk result (λ part. part.path.tail ≡ Some (new_tail channel (length inbound.items))) }
        ensures head { IfOk result (λ part. part.head ≡ Some head) }
        ensures new { IfOk result (λ part. (world : World) → ArePlannedWith world S.meaning channel turn inbound.items outbound.items → AreNewSlots world S.meaning channel (length inbound.items) turn S.stands_after part.path.contexts) }
        ensures holds { IfOk result (λ part. (world : World) → ArePlannedWith world S.meaning channel turn inbound.items outbound.items → HeadHolds T.state world head → PartHolds world S.meaning S.stands_after T.state part) }
        ensures done { IfOk result (λ part. part_done part ≡ head_done head) }
        ensures few { IfOk result (λ part. (world : World) → HeadHolds T.state world head → part_done part < 2 ^ 50) }
    {
        let path = PathPart::whole(alloc, channel, executors, inbound, outbound, turn)?;
        Ok(ChannelPart {
            path,
            head: Some(head),
        })
    }

    /// Takes the nodes of an executor out. Those of the others stay. An `Err` is out of memory, and changes nothing.
    pub fn take_share(&mut self, alloc: Global, executor: usize) -> Result<Self, AllocError>
        ensures share { IfOk result (λ share. IsShareOf S.meaning S.stands_after T.state (λ e. e == executor) self.old share) }
        ensures rest { OnOk result (IsShareOf S.meaning S.stands_after T.state (λ e. not (e == executor)) self.old self.new) }
        ensures kept { OnErr result (self.new ≡ self.old) }
    {
        let is_wanted = self.path.head_executor() == executor;
        let path = self.path.take_share(alloc, executor)?;
        let head = take_where(&mut self.head, is_wanted);
        Ok(ChannelPart { path, head })
    }

    /// The executor of what the lanes of a hop enter.
    pub fn target(&self, hop: usize) -> usize
        requires { hop < length self.now.path.executors }
        ensures { result ≡ get_or self.now.path.executors hop 0 }
    {
        self.path.target(hop)
    }

    /// The hop of the node that writes the lanes of a hop: the one before, but the turn writes the first lane after the
    /// tail's, and the head those of hop 0.
    pub fn writer(&self, hop: usize) -> usize
        ensures { result ≡ writer_hop self.now.path hop }
    {
        self.path.writer(hop)
    }

    /// How many hops there are. The last is the head's.
    pub fn hops(&self) -> usize
        ensures { result ≡ length self.now.path.executors }
    {
        self.path.hops()
    }

    /// The head's hop, the last.
    pub fn head_hop(&self) -> usize
        ensures { result ≡ head_hop self.now }
    {
        self.path.head_hop()
    }

    /// The node that the envelope's lane enters takes it, the next item of that lane. It answers what the node answers.
    pub fn take(&mut self, envelope: Envelope, work: &mut Outputs) -> Took
        requires next { (world : World) × IsNextFor world S.meaning S.stands_after T.state self.old envelope work.old }
        ensures { Taken S.meaning S.stands_after T.state S.is_spent self.old envelope work.old result self.new work.new }
    {
        if envelope.lane.hop as usize == self.path.head_hop() {
            self.take_at_head(envelope, work)
        } else {
            self.path.take(envelope, work)
        }
    }

    /// The node that writes a lane fails, since nothing more of that is accepted, where it is a context. Nothing comes of flags
    /// that are refused, nor of what the head writes: what comes of that later is refused too.
    pub fn refuse(&mut self, lane: Lane, work: &mut Outputs)
        requires holds { (world : World) × (world.refuses ≡ true) × PartHolds world S.meaning S.stands_after T.state self.old }
        requires places { HasPlaces work.old.stopped (part_lanes self.old) }
        ensures head { self.new.head ≡ self.old.head }
        ensures refuses { PathRefuses self.old.path lane work.old self.new.path work.new }
        ensures over { lane.kind ≡ kind.Data → (c : ContextView S) → context_at self.new.path (writer_hop self.new.path lane.hop) ≡ Some c → is_over c.standing ≡ true }
        ensures refused { PartRefused S.meaning S.stands_after T.state self.old (writer_hop self.old.path lane.hop) work.old self.new work.new }
    {
        self.path.refuse(lane, work)
    }

    /// The head makes its next read step, where one is left and not held. Where no head is among the nodes none is left.
    pub fn next_read(&mut self, work: &mut Outputs) -> ReadStep
        requires holds { (world : World) × PartHolds world S.meaning S.stands_after T.state self.old }
        requires places { HasPlaces work.old.stopped (part_lanes self.old) }
        ensures reads { PartReads T.state self.old work.old result self.new work.new }
        ensures given { Given S.meaning S.stands_after T.state self.old (head_hop self.old) work.old self.new work.new }
    {
        let Some(head) = &mut self.head else {
            return ReadStep::Done;
        };
        head.next_read(work)
    }

    /// The head, which is among the nodes, is to read one burst more, behind those that are left and before the end. An
    /// `Err` is out of memory, and changes nothing.
    pub fn feed(&mut self, burst: Sequence<Element>) -> Result<(), AllocError>
        requires head { is_some self.old.head ≡ true }
        requires more { (h : HeadView T) → self.old.head ≡ Some h → takes_bursts h.input ≡ true }
        requires few { (h : HeadView T) → self.old.head ≡ Some h → h.input.port.made + items_left h.input.steps (h.input.left ++ burst ∷ []) < MAX_ITEMS }
        ensures fed { OnOk result (self.new ≡ fed_part burst self.old) }
        ensures kept { OnErr result (self.new ≡ self.old) }
        ensures feeds { OnOk result ((h fed : HeadView T) → self.old.head ≡ Some h → self.new.head ≡ Some fed → HeadFeeds burst h fed) }
    {
        match &mut self.head {
            Some(head) => head.feed(burst),
            None => unreachable!(),
        }
    }

    /// The head makes a write to its transport, where a flushed byte waits and it has not failed by itself. Where no head is
    /// among the nodes nothing waits.
    #[inline(always)]
    pub fn write_once(&mut self, work: &mut Outputs) -> OutStep
        requires holds { (world : World) × PartHolds world S.meaning S.stands_after T.state self.old }
        requires places { HasPlaces work.old.stopped (part_lanes self.old) }
        ensures writes_out { PartWrites T.state T.may_refuse self.old work.old result self.new work.new }
        ensures given { Given S.meaning S.stands_after T.state self.old (head_hop self.old) work.old self.new work.new }
    {
        let Some(head) = &mut self.head else {
            return OutStep::Idle;
        };
        head.write_once(work)
    }

    /// The head makes a move: `next_read` or `write_once`. False where it made none, since none is enabled or no head is
    /// among the nodes. Mostly none is, so that look is inlined, here and in a run's calls.
    #[inline(always)]
    pub fn move_head(&mut self, by: HeadMove, work: &mut Outputs) -> bool
        requires holds { (world : World) × PartHolds world S.meaning S.stands_after T.state self.old }
        requires places { HasPlaces work.old.stopped (part_lanes self.old) }
        ensures moves { PartMoves T.state T.may_refuse self.old by work.old result self.new work.new }
        ensures given { Given S.meaning S.stands_after T.state self.old (head_hop self.old) work.old self.new work.new }
    {
        match by {
            HeadMove::Read => self.next_read(work) == ReadStep::Gave,
            HeadMove::Out => !matches!(self.write_once(work), OutStep::Idle),
        }
    }

    /// The channel is aborted: its head fails, where it is among the nodes and has not failed.
    pub fn abort(&mut self, work: &mut Outputs)
        requires holds { (world : World) × PartHolds world S.meaning S.stands_after T.state self.old }
        requires places { HasPlaces work.old.stopped (part_lanes self.old) }
        ensures aborts { PartAborts T.state self.old work.old self.new work.new }
        ensures given { Given S.meaning S.stands_after T.state self.old (head_hop self.old) work.old self.new work.new }
    {
        let Some(head) = &mut self.head else {
            return;
        };
        head.abort(work)
    }

    /// Whether all of its nodes have ended or failed.
    pub fn has_ended(&self) -> bool
        ensures { result ≡ all_over self.now }
    {
        self.path.has_ended() && is_head_over(&self.head)
    }

    /// How its nodes stand together: failed where one has, ended where one has, else open. The cause is the head's before the
    /// tail's, and that before the cause of the first context which has failed.
    pub fn standing(&self) -> Standing
        ensures { result ≡ part_standing self.now }
    {
        standing_of(&self.head).together(self.path.standing())
    }

    /// Whether a read step is left. None is where no head is among the nodes.
    pub fn has_read_step(&self) -> bool
        ensures { result ≡ has_read self.now }
    {
        match &self.head {
            Some(head) => head.has_read_step(),
            None => false,
        }
    }

    /// Whether a write would be idle: no flushed byte waits, or the head has failed, or none is among the nodes.
    pub fn is_written(&self) -> bool
        ensures head { (h : HeadView T) (ys zs : List Event) (sizes : List Change) → self.now.head ≡ Some h → HeadStandsAfter T.state h ys zs sizes → result ≡ is_idle T.state h ys }
        ensures none { self.now.head ≡ None → result ≡ true }
    {
        match &self.head {
            Some(head) => head.is_written(),
            None => true,
        }
    }

    /// How many bytes the head's writes hold that have no outcome yet, and whether the channel is writable. None where no head
    /// is among the nodes.
    pub fn mark(&self) -> Option<(u128, bool)>
        requires holds { (world : World) × PartHolds world S.meaning S.stands_after T.state self.now }
        ensures some { IfSome result (λ mark. (h : HeadView T) × (self.now.head ≡ Some h) × (mark.0 ≡ h.buffer.pending) × (mark.1 ≡ not h.buffer.is_unwritable)) }
        ensures none { IfNone result (self.now.head ≡ None) }

        // Above the high mark it is not writable, below the low one it is.
        ensures above { IfSome result (λ mark. (h : HeadView T) → self.now.head ≡ Some h → h.buffer.low ≤ h.buffer.high → h.buffer.high < mark.0 → mark.1 ≡ false) }
        ensures below { IfSome result (λ mark. (h : HeadView T) → self.now.head ≡ Some h → h.buffer.low ≤ h.buffer.high → mark.0 < h.buffer.low → mark.1 ≡ true) }
    {
        match &self.head {
            Some(head) => Some((head.pending(), head.is_writable())),
            None => None,
        }
    }

    /// The head's first settled write that was not told yet, with its outcome: each write is told once, in the order of
    /// settling. None where all were told, or no head is among the nodes. It takes no memory.
    pub fn next_settled(&mut self) -> Option<(u64, Outcome)>
        ensures some { IfSome result (λ next. TellsNext self.old next.0 next.1 self.new) }
        ensures none { IfNone result ((part_untold self.old ≡ []) × (self.new ≡ self.old)) }
        ensures told { IsTold self.old self.new }
        ensures holds { (world : World) → PartHolds world S.meaning S.stands_after T.state self.old → PartHolds world S.meaning S.stands_after T.state self.new }
    {
        let Some(head) = &mut self.head else {
            return None;
        };
        head.next_settled()
    }

    /// The tail, where it is among the nodes, hands its record over, and goes on with an empty one. It takes no memory.
    pub fn take_record(&mut self, alloc: Global) -> Sequence<Event>
        ensures record { result ≡ path_record self.old.path }
        ensures goes_on { self.new ≡ part_handed self.old }
        ensures holds { (world : World) → PartHolds world S.meaning S.stands_after T.state self.old → PartHolds world S.meaning S.stands_after T.state self.new }
    {
        self.path.take_record(alloc)
    }

    /// Gives the part up for the channel's ends, where they are among its nodes.
    pub fn into_ends(self) -> (Option<Tail>, Option<Head<T>>)
        ensures tail { result.0 ≡ self.path.tail }
        ensures head { result.1 ≡ self.head }
    {
        (self.path.into_tail(), self.head)
    }

    /// Gives the part up for its stages (`into_stages`), and the ends (`into_ends`). An `Err` is out of memory.
    pub fn into_stages_and_ends(
        self,
        alloc: Global,
    ) -> Result<(Vec<Option<KeptStage<S>>>, Option<Tail>, Option<Head<T>>), AllocError>
        ensures stages { IfOk result (λ given. given.0.items ≡ part_stages self) }
        ensures tail { IfOk result (λ given. given.1 ≡ self.path.tail) }
        ensures head { IfOk result (λ given. given.2 ≡ self.head) }
    {
        let (stages, tail) = self.path.into_stages_and_tail(alloc)?;
        Ok((stages, tail, self.head))
    }

    /// Gives the part up for its stages, each with how its context stood: by hop, none at the tail's nor where the context is
    /// elsewhere. An `Err` is out of memory.
    pub fn into_stages(self, alloc: Global) -> Result<Vec<Option<KeptStage<S>>>, AllocError>
        ensures stages { IfOk result (λ stages. stages.items ≡ part_stages self) }
        // Each stands after the first events of its lane, and where its context has ended after all.
        ensures lanes { IfOk result (λ stages. (world : World) → PartHolds world S.meaning S.stands_after T.state self → AreLaneStages world S.stands_after self.path.channel stages.items) }
    {
        let (stages, _, _) = self.into_stages_and_ends(alloc)?;
        Ok(stages)
    }

    /// The tail, where it is among the nodes.
    pub fn tail(&self) -> Option<&Tail>
        ensures some { IfSome result (λ tail. self.now.path.tail ≡ Some tail.now) }
        ensures none { IfNone result (self.now.path.tail ≡ None) }
    {
        self.path.tail()
    }

    /// The head, where it is among the nodes.
    pub fn head(&self) -> Option<&Head<T>>
        ensures some { IfSome result (λ head. self.now.head ≡ Some head.now) }
        ensures none { IfNone result (self.now.head ≡ None) }
    {
        self.head.as_ref()
    }

    /// `take` where the lane enters the head.
    fn take_at_head(&mut self, envelope: Envelope, work: &mut Outputs) -> Took
        requires next { (world : World) × IsNextFor world S.meaning S.stands_after T.state self.old envelope work.old }
        requires there { (envelope.lane.hop == head_hop self.old) ≡ true }
        ensures { Taken S.meaning S.stands_after T.state S.is_spent self.old envelope work.old result self.new work.new }
    {
        match &mut self.head {
            Some(head) => head.take(envelope, work),
            None => unreachable!(),
        }
    }
}

impl<S: Stage, T: Draining> ChannelPart<S, T> {
    /// How many bytes of the head's output are gone (`Head::gone`); 0 where the head is not among the nodes.
    pub fn gone(&self) -> usize
        ensures { result ≡ (part_gone self.now).0 }
    {
        match &self.head {
            Some(head) => head.gone(),
            None => 0,
        }
    }

    /// The head, where it is among the nodes, forgets what it took before the first write that waits (`Head::forget`). False where it
    /// cannot: nothing is changed. It takes no memory.
    pub fn forget(&mut self) -> bool
        ensures can { IsTrue result → part_can_forget self.old ≡ true }
        ensures due { result ≡ false → (h : HeadView T) → self.old.head ≡ Some h → can_forget h ≡ true → 2 ^ 64 ≤ h.gone + length (T.state h.transport).accepted }
        ensures forgets { IsTrue result → PartForgets T.state self.old self.new }
        ensures holds { (world : World) → PartHolds world S.meaning S.stands_after T.state self.old → PartHolds world S.meaning S.stands_after T.state self.new }
        ensures kept { result ≡ false → self.new ≡ self.old }
    {
        match &mut self.head {
            Some(head) => head.forget(),
            None => false,
        }
    }
}

/// How a head stands, where there is one: failed by itself or by what it took, and else as its lane.
fn standing_of<T: Transport>(head: &Option<Head<T>>) -> Standing
    ensures { result ≡ option_map_or (λ (h : HeadView _). head_standing h) head.now standings.Open }
{
    match head {
        Some(head) => match head.cause() {
            Some(cause) => Standing::Failed(cause),
            None => head.standing(),
        },
        None => Standing::Open,
    }
}

/// Whether a head has ended or failed, where there is one.
fn is_head_over<T: Transport>(head: &Option<Head<T>>) -> bool
    ensures { result ≡ option_map_or (λ (h : HeadView _). is_over h.standing || is_some h.failure) head.now true }
{
    match head {
        Some(head) => head.is_ended(),
        None => true,
    }
}
