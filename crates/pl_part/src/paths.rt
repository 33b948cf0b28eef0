//! The nodes of a channel that are on one executor, but its head.

ghost use Rattle.std.specs.Prelude.{◌≡◌, ◌+◌, ◌<◌, ◌≤◌, ◌^◌, ◌++◌, ◌∷◌, [], IfOk, IfSome, IfNone, Some, None, map, replicate, is_some, cond, length, get_or, true, false, ◌==◌, OnErr, OnOk, not};
ghost use Rattle.std.specs.List.{list_all};
ghost use Rattle.std.specs.Option.{option_map_or};
ghost use Rattle.pl_event.specs.declared.envelopes.Lane.{Lane};
ghost use Rattle.pl_event.specs.declared.envelopes.Kind.TheVariants as kind;
ghost use Rattle.pl_event.specs.Hops.{same_lane};
ghost use Rattle.pl_event.specs.Worlds.{World};
ghost use Rattle.pl_context.specs.declared.contexts.TheConstants.{MAX_HANDLERS};
ghost use Rattle.pl_context.specs.Standings.{is_over};
ghost use Rattle.pl_context.specs.ContextViews.{ContextView};
ghost use Rattle.pl_context.specs.Stops.{HasPlaces};
ghost use Rattle.pl_context.specs.TailViews.{TailView, new_tail};
ghost use Rattle.pl_flow.specs.Flows.{IsGood};
ghost use Rattle.pl_flow.specs.LanesViews.{KeepsPlaces};
ghost use Rattle.pl_flow.specs.Makes.{Makes};
ghost use Rattle.pl_part.specs.NewParts.{AreNewStages, ArePlannedWith, AreNewSlots, whole_slots};
ghost use Rattle.pl_part.specs.Counts.{path_done};
ghost use Rattle.pl_part.specs.PathCalls.{IsNextOnPath, PathTaken, PathRefused};
ghost use Rattle.pl_part.specs.Paths.{PathHolds, PathTakes, PathRefuses, SamePath, context_at, writer_hop, enters_path, path_over, path_standing, is_slot_over, path_taken, path_lanes, path_writes, path_writes_at, path_came};
ghost use Rattle.pl_part.specs.Forgetting.{path_record, path_handed};
ghost use Rattle.pl_part.specs.Shares.{IsPathShare, executor_of};
ghost use Rattle.pl_part.specs.Keeping.{kept_stages};

use crate::kept::{KeptStage, stages_of};
use crate::new_contexts::add_contexts;
use crate::refusing::refuse_at;
use crate::shares::{take_contexts, take_where};
use pl_context::{Context, Outputs, Standing, Tail, Took};
use pl_event::{Envelope, Event, Lane, Sequence, Stage};
use std::alloc::{AllocError, Global};
use std::marker::Model;

/// The nodes of a channel that are on one executor: contexts by hop, and the tail where the executor is the channel's
/// loop.
#[derive(Drop)]
pub struct PathPart<S: Stage> {
    channel: u16,
    /// The executor of each hop, of those elsewhere too: where an item goes.
    executors: Vec<u16>,
    /// By hop: `None` where the context is elsewhere, and at the tail's hop.
    contexts: Vec<Option<Context<S>>>,
    tail: Option<Tail>,
    tail_hop: usize,
    /// The hop of the turn.
    turn: usize,
}

impl<S: Stage> Model for PathPart<S> {
    ghost use Rattle.std.specs.Prelude.{length};
    ghost use Rattle.pl_part.specs.PathCalls.{IsNextOnPath, PathTaken, PathRefused};
    ghost use Rattle.pl_part.specs.Paths.{PathPartView, IsPathPart};

    ghost Value = { PathPartView S };

    ghost view = { λ p. record { channel = p.channel; executors = p.executors.items; contexts = p.contexts.items; tail = p.tail; tail_hop = p.tail_hop; turn = p.turn } };

    ghost invariant = { λ p. IsPathPart (length p.executors.items) (length p.contexts.items) p.tail_hop p.turn };
}

impl<S: Stage> PathPart<S> {
    /// All nodes of a channel but its head: stages that have had no step, in the order of their hops, and the executor of each
    /// hop. The world knows the lanes of each.
    pub fn whole(
        alloc: Global,
        channel: u16,
        executors: Vec<u16>,
        inbound: Vec<S>,
        outbound: Vec<S>,
        turn: usize,
    ) -> Result<Self, AllocError>
        requires few { length inbound.items + length outbound.items ≤ MAX_HANDLERS }
        requires hops { length executors.items ≡ length inbound.items + length outbound.items + 2 }
        requires turn { turn < length inbound.items }
        requires stages { AreNewStages S.meaning S.stands_after channel turn inbound.items outbound.items }
        ensures path { IfOk result (λ part. (part.channel ≡ channel) × (part.executors ≡ executors.items) × (part.tail_hop ≡ length inbound.items) × (part.turn ≡ turn)) }
        ensures contexts { IfOk result (λ part. part.contexts ≡ whole_slots S.meaning channel inbound.items outbound.items) }
        ensures filled { IfOk result (λ part. map (λ slot. is_some slot) part.contexts ≡ replicate (length inbound.items) true ++ false ∷ replicate (length outbound.items) true) }
        ensures tail { IfOk result (λ part. part.tail ≡ Some (new_tail channel (length inbound.items))) }
        ensures new { IfOk result (λ part. (world : World) → ArePlannedWith world S.meaning channel turn inbound.items outbound.items → AreNewSlots world S.meaning channel (length inbound.items) turn S.stands_after part.contexts) }
        ensures holds { IfOk result (λ part. (world : World) → ArePlannedWith world S.meaning channel turn inbound.items outbound.items → PathHolds world S.meaning S.stands_after part) }
        ensures done { IfOk result (λ part. path_done part ≡ 0) }
    {
        let k = inbound.len() as u16;
        let mut contexts = Vec::new(alloc);
        add_contexts(alloc, &mut contexts, channel, k, inbound)?;
        contexts.push(None)?;
        add_contexts(alloc, &mut contexts, channel, k, outbound)?;
        Ok(PathPart {
            channel,
            executors,
            contexts,
            tail: Some(Tail::new(alloc, channel, k)),
            tail_hop: k as usize,
            turn,
        })
    }

    /// The executor of what the lanes of a hop enter.
    pub fn target(&self, hop: usize) -> usize
        requires { hop < length self.now.executors }
        ensures { result ≡ get_or self.now.executors hop 0 }
    {
        self.executors[hop] as usize
    }

    /// The hop of the context that writes the lanes of a hop: the one before, but the turn writes the first lane after the
    /// tail's. The lanes of hop 0 are the head's: its hop.
    pub fn writer(&self, hop: usize) -> usize
        ensures { result ≡ writer_hop self.now hop }
    {
        if hop == 0 {
            self.head_hop()
        } else if hop == self.tail_hop + 1 {
            self.turn
        } else {
            hop - 1
        }
    }

    /// How many hops its channel has. The last is the head's.
    pub(crate) fn hops(&self) -> usize
        ensures { result ≡ length self.now.executors }
    {
        self.executors.len()
    }

    /// The head's hop, the last.
    pub(crate) fn head_hop(&self) -> usize
        ensures { result ≡ length self.now.contexts }
    {
        self.contexts.len()
    }

    /// The tail, where it is one of the nodes.
    pub(crate) fn tail(&self) -> Option<&Tail>
        ensures some { IfSome result (λ tail. self.now.tail ≡ Some tail.now) }
        ensures none { IfNone result (self.now.tail ≡ None) }
    {
        self.tail.as_ref()
    }

    /// The tail, where it is one of the nodes, hands its record over, and goes on with an empty one. It takes no memory.
    pub(crate) fn take_record(&mut self, alloc: Global) -> Sequence<Event>
        ensures record { result ≡ path_record self.old }
        ensures goes_on { self.new ≡ path_handed self.old }
        ensures holds { (world : World) → PathHolds world S.meaning S.stands_after self.old → PathHolds world S.meaning S.stands_after self.new }
    {
        match &mut self.tail {
            Some(tail) => tail.take_record(alloc),
            None => Sequence::new(alloc),
        }
    }

    /// Gives the nodes up for the tail, where it is one of them.
    pub(crate) fn into_tail(self) -> Option<Tail>
        ensures { result ≡ self.tail }
    {
        self.tail
    }

    /// Gives the nodes up for the stages, by hop, and the tail. No stage is at the tail's hop, nor where the context is elsewhere.
    pub(crate) fn into_stages_and_tail(
        self,
        alloc: Global,
    ) -> Result<(Vec<Option<KeptStage<S>>>, Option<Tail>), AllocError>
        ensures stages { IfOk result (λ given. given.0.items ≡ kept_stages self.contexts) }
        ensures tail { IfOk result (λ given. given.1 ≡ self.tail) }
    {
        let stages = stages_of(alloc, self.contexts)?;
        Ok((stages, self.tail))
    }

    /// The node that the envelope's lane enters takes it, the next item of that lane. It answers what the node answers.
    pub fn take(&mut self, envelope: Envelope, work: &mut Outputs) -> Took
        requires next { (world : World) × IsNextOnPath world S.meaning S.stands_after self.old envelope work.old }
        ensures takes { PathTakes S.meaning S.stands_after S.is_spent self.old envelope work.old result self.new work.new }
        ensures holds { (world : World) → PathHolds world S.meaning S.stands_after self.old → IsGood world envelope → PathHolds world S.meaning S.stands_after self.new }
        ensures same { SamePath self.old self.new }
        ensures taken { (l : Lane) → path_taken self.new l ≡ cond (same_lane l envelope.lane) (envelope.number + 1) (path_taken self.old l) }
        ensures writes { (l : Lane) → path_writes S.meaning self.new l ≡ path_writes S.meaning self.old l }
        ensures made { (world : World) → PathHolds world S.meaning S.stands_after self.old → IsGood world envelope → Makes world (path_writes S.meaning self.old) (path_came S.meaning self.old) (path_came S.meaning self.new) work.old work.new }
        ensures node { (world : World) → PathHolds world S.meaning S.stands_after self.old → IsGood world envelope
            → Makes world (path_writes_at S.meaning self.old envelope.lane.hop) (path_came S.meaning self.old) (path_came S.meaning self.new) work.old work.new }
        ensures others { (l : Lane) → path_writes_at S.meaning self.old envelope.lane.hop l ≡ false → path_came S.meaning self.new l ≡ path_came S.meaning self.old l }
        ensures placed { KeepsPlaces (path_lanes self.old) work.old.stopped work.new.stopped }
        ensures more { path_done self.old + length work.new.items + 1 ≤ path_done self.new + length work.old.items }
    {
        if envelope.lane.hop as usize == self.tail_hop {
            self.take_at_tail(envelope, work)
        } else {
            self.take_at_context(envelope, work)
        }
    }

    /// The context that writes a lane fails, since nothing more of that is accepted. Nothing comes of flags that are refused, nor
    /// of what the head writes.
    pub fn refuse(&mut self, lane: Lane, work: &mut Outputs)
        requires holds { (world : World) × (world.refuses ≡ true) × PathHolds world S.meaning S.stands_after self.old }
        requires places { HasPlaces work.old.stopped (path_lanes self.old) }
        ensures holds { (world : World) → world.refuses ≡ true → PathHolds world S.meaning S.stands_after self.old → PathHolds world S.meaning S.stands_after self.new }
        ensures same { SamePath self.old self.new }
        ensures taken { (l : Lane) → path_taken self.new l ≡ path_taken self.old l }
        ensures writes { (l : Lane) → path_writes S.meaning self.new l ≡ path_writes S.meaning self.old l }
        ensures refuses { PathRefuses self.old lane work.old self.new work.new }
        ensures over { lane.kind ≡ kind.Data → (c : ContextView S) → context_at self.new (writer_hop self.new lane.hop) ≡ Some c → is_over c.standing ≡ true }
        ensures made { (world : World) → world.refuses ≡ true → PathHolds world S.meaning S.stands_after self.old → Makes world (path_writes S.meaning self.old) (path_came S.meaning self.old) (path_came S.meaning self.new) work.old work.new }
        ensures node { (world : World) → world.refuses ≡ true → PathHolds world S.meaning S.stands_after self.old
            → Makes world (path_writes_at S.meaning self.old (writer_hop self.old lane.hop)) (path_came S.meaning self.old) (path_came S.meaning self.new) work.old work.new }
        ensures others { (l : Lane) → path_writes_at S.meaning self.old (writer_hop self.old lane.hop) l ≡ false → path_came S.meaning self.new l ≡ path_came S.meaning self.old l }
        ensures placed { KeepsPlaces (path_lanes self.old) work.old.stopped work.new.stopped }
        ensures more { path_done self.old + length work.new.items ≤ path_done self.new + length work.old.items }
    {
        let hop = self.writer(lane.hop as usize);
        self.refuse_at_hop(hop, lane, work)
    }

    /// Whether all of its nodes have ended or failed.
    pub fn has_ended(&self) -> bool
        ensures { result ≡ path_over self.now }
    {
        are_over(&self.contexts) && is_tail_over(&self.tail)
    }

    /// How its nodes stand together: failed where one has, ended where one has, else open. The cause is the tail's before that
    /// of the first context which has failed.
    pub fn standing(&self) -> Standing
        ensures { result ≡ path_standing self.now }
    {
        let mut standing = match &self.tail {
            Some(tail) => tail.standing(),
            None => Standing::Open,
        };
        for slot in &self.contexts {
            if let Some(context) = slot {
                standing = standing.together(context.standing());
            }
        }
        standing
    }

    /// The executor of the head's hop, which is the last.
    pub(crate) fn head_executor(&self) -> usize
        ensures { result ≡ executor_of self.now (length self.now.contexts) }
    {
        self.executors[self.head_hop()] as usize
    }

    /// Takes the nodes of an executor out. Those of the others stay. An `Err` is out of memory, and changes nothing.
    pub(crate) fn take_share(
        &mut self,
        alloc: Global,
        executor: usize,
    ) -> Result<PathPart<S>, AllocError>
        ensures share { IfOk result (λ share. IsPathShare (λ e. e == executor) self.old share) }
        ensures rest { OnOk result (IsPathShare (λ e. not (e == executor)) self.old self.new) }
        ensures kept { OnErr result (self.new ≡ self.old) }
    {
        let is_wanted = self.target(self.tail_hop) == executor;
        let executors = self.executors.to_vec(alloc)?;
        let contexts = take_contexts(alloc, &mut self.contexts, &self.executors, executor)?;
        Ok(PathPart {
            channel: self.channel,
            executors,
            contexts,
            tail: take_where(&mut self.tail, is_wanted),
            tail_hop: self.tail_hop,
            turn: self.turn,
        })
    }

    /// `take` where the lane enters a context.
    fn take_at_context(&mut self, envelope: Envelope, work: &mut Outputs) -> Took
        requires next { (world : World) × IsNextOnPath world S.meaning S.stands_after self.old envelope work.old }
        requires elsewhere { (envelope.lane.hop == self.old.tail_hop) ≡ false }
        ensures { PathTaken S.meaning S.stands_after S.is_spent self.old envelope work.old result self.new work.new }
    {
        match &mut self.contexts[envelope.lane.hop as usize] {
            Some(context) => context.take(envelope, work),
            None => unreachable!(),
        }
    }

    /// `take` where the lane enters the tail, which makes nothing: the work list is there for the condition alone.
    fn take_at_tail(&mut self, envelope: Envelope, work: &mut Outputs) -> Took
        requires next { (world : World) × IsNextOnPath world S.meaning S.stands_after self.old envelope work.old }
        requires there { (envelope.lane.hop == self.old.tail_hop) ≡ true }
        ensures { PathTaken S.meaning S.stands_after S.is_spent self.old envelope work.old result self.new work.new }
    {
        match &mut self.tail {
            Some(tail) => tail.take(envelope),
            None => unreachable!(),
        }
    }

    /// Fails the context at this hop, where it is here, for a refused envelope of a lane that it writes.
    fn refuse_at_hop(&mut self, hop: usize, lane: Lane, work: &mut Outputs)
        requires holds { (world : World) × (world.refuses ≡ true) × PathHolds world S.meaning S.stands_after self.old }
        requires places { HasPlaces work.old.stopped (path_lanes self.old) }
        requires writer { hop ≡ writer_hop self.old lane.hop }
        ensures { PathRefused S.meaning S.stands_after self.old lane work.old self.new work.new }
    {
        if hop < self.contexts.len() {
            if let Some(context) = &mut self.contexts[hop] {
                refuse_at(context, lane, work);
            }
        }
    }
}

/// Whether each of these contexts has ended or failed.
fn are_over<S: Stage>(contexts: &[Option<Context<S>>]) -> bool
    ensures { result ≡ list_all (λ slot. is_slot_over slot) contexts.now }
{
    contexts.iter().all(|slot| is_over_at(slot))
}

/// Whether a context has ended or failed, where there is one.
fn is_over_at<S: Stage>(slot: &Option<Context<S>>) -> bool
    ensures { result ≡ is_slot_over slot.now }
{
    match slot {
        Some(context) => context.is_ended(),
        None => true,
    }
}

/// Whether a tail has ended or failed, where there is one.
fn is_tail_over(tail: &Option<Tail>) -> bool
    ensures { result ≡ option_map_or (λ (t : TailView). is_over t.standing) tail.now true }
{
    match tail {
        Some(tail) => tail.is_ended(),
        None => true,
    }
}
