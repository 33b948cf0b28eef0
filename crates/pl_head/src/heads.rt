//! The end of a channel at its transport.

ghost use Rattle.std.specs.Prelude.{◌≡◌, ℕ, ◌+◌, ◌^◌, ◌≤◌, ◌<◌, ◌↔◌, ◌≢◌, ◌∷◌, ◌++◌, ◌⊎◌, ◌&&◌, List, [], length, take, min, Bool, true, false, Option, Some, None, IsSome, IsTrue, IfSome, IfNone, IfOk, OnOk, OnErr, is_some, not, ◌||◌, slice_index_or};
ghost use Rattle.pl_event.specs.declared.events.Event.{Event};
ghost use Rattle.pl_event.specs.declared.outcomes.Cause.TheVariants.{Aborted};
ghost use Rattle.pl_event.specs.Inputs.{recorded_input};
ghost use Rattle.pl_context.specs.declared.standing.Standing.TheVariants as standings;
ghost use Rattle.pl_context.specs.declared.standing.Took.TheVariants as took;
ghost use Rattle.pl_context.specs.Standings.{is_over};
ghost use Rattle.pl_context.specs.Stops.{HasPlaces};
ghost use Rattle.pl_context.specs.OutputsViews.{PutsAll};
ghost use Rattle.pl_context.specs.Ports.{numbered};
ghost use Rattle.pl_head.specs.ReadSteps.{entrance, bursts_read, has_step, read_items, brings_failure, brings_abort, next_step_items, steps_after};
ghost use Rattle.pl_head.specs.Writes.{out, bytes_offered, flushed_writes};
ghost use Rattle.pl_head.specs.Failures.{failure_outcome};
ghost use Rattle.pl_head.specs.Settling.{AreSettled};
ghost use Rattle.pl_head.specs.Marks.{Change, Removed, pending_after, sizes_added, removed_by, is_unwritable};
ghost use Rattle.pl_event.specs.Hops.{flags_lane};
ghost use Rattle.pl_event.specs.Worlds.{closes};
ghost use Rattle.pl_head.specs.MarksStand.{SendsFlags};
ghost use Rattle.pl_head.specs.Transports.{one_call_more, FailsNext};
ghost use Rattle.pl_head.specs.HeadStand.{first_cause, gone_of};
ghost use Rattle.pl_head.specs.InputStand.{items_left, steps_left, takes_bursts};
ghost use Rattle.pl_event.specs.declared.limits.TheConstants.{MAX_ITEMS};

use crate::inputs::{Input, ReadPlan};
use crate::outbound_buffer::OutboundBuffer;
use crate::transports::{Draining, Transport};
use pl_context::{Outputs, Standing, Took};
use pl_event::{ByteString, Cause, Element, Envelope, Event, Item, Kind, Lane, Outcome, Sequence};
use std::alloc::{AllocError, Global};
use std::marker::Model;

/// What one write to the transport did.
#[derive(Clone, Copy, Debug, PartialEq, Eq)]
pub enum OutStep {
    /// The transport accepted this many bytes.
    Wrote(usize),
    /// It was not called: no flushed byte waits, or the head has failed by itself.
    Idle,
    /// The transport failed in this call.
    Failed,
}

/// What a read step did.
#[derive(Clone, Copy, Debug, PartialEq, Eq)]
pub enum ReadStep {
    /// It gave what it brings.
    Gave,
    /// It is a burst, which is held: the channel is not writable, and a flushed byte waits.
    Held,
    /// No read step is left.
    Done,
}

/// The end of a channel at its transport: bytes leave by it, and the recorded input comes in by it.
#[derive(Debug, Drop)]
pub struct Head<T> {
    transport: T,
    channel: u16,
    hop: u16,
    taken: u64,
    standing: Standing,
    /// Why it failed by itself: nothing waits then, and nothing is written any more.
    failure: Option<Cause>,
    /// Its lane has ended or failed since then, which its standing does not note.
    is_closed: bool,
    buffer: OutboundBuffer,
    input: Input,
    /// How many bytes of its output have left the transport, and are forgotten.
    gone: usize,
    has_forgotten: bool,
}

impl<T> Model for Head<T> {
    ghost use Rattle.pl_head.specs.HeadStand.{HeadView, IsHead};

    ghost Value = { HeadView T };

    ghost use Rattle.pl_head.specs.OutboundStand.{buffer_view};

    ghost view = { λ h. record { transport = h.transport; channel = h.channel; hop = h.hop; taken = h.taken; standing = h.standing; failure = h.failure; is_closed = h.is_closed; buffer = buffer_view h.buffer; input = h.input; gone = h.gone; has_forgotten = h.has_forgotten } };

    ghost invariant = { λ h. IsHead h.channel h.taken h.failure h.is_closed (buffer_view h.buffer) h.input };
}

impl<T: Transport> Head<T> {
    ghost use Rattle.pl_head.specs.Buffers.{SameMarks, SettlesMore, StopsNumbers, LacksRoom, untold};
    ghost use Rattle.pl_head.specs.HeadCalls.{HeadTakes, HeadFeeds, HeadReads, HeadWrites, HeadAborts};
    ghost use Rattle.pl_head.specs.HeadStand.{HeadStandsAfter, HasOutcomes, ReadsStand, Aborts, waiting_at, is_idle, is_read_held, read_answer, EntersHead, lane_over, Answers, events_before, events_from, item_sizes, step_sizes, standing_after, cause_of_item, cause_of_step, head_cause, HasFewFlags};

    /// A head that has taken nothing, of a transport that has accepted nothing, with the bursts that it is to read: with
    /// the end they bring fewer than 2^31 items. `hop` is the head's own hop. The marks `low` and `high` are in bytes, `low`
    /// at most `high`. It takes no memory.
    pub fn new(
        alloc: Global,
        channel: u16,
        hop: u16,
        input: ReadPlan,
        transport: T,
        low: u32,
        high: u32,
    ) -> Self
        requires marks { low ≤ high }
        requires fresh { (T.state transport).accepted ≡ [] }
        requires few { length (recorded_input input.bursts) + 1 < MAX_ITEMS }
        ensures stands { HeadStandsAfter T.state result [] [] [] }
        ensures reads { ReadsStand input 0 false result }
        ensures entrance { result.input.port.lane ≡ entrance channel }
        ensures transport { result.transport ≡ transport }
        ensures at_hop { (result.channel ≡ channel) × (result.hop ≡ hop) }
        ensures marks { (result.buffer.low ≡ low) × (result.buffer.high ≡ high) }
        ensures flags { result.buffer.flags ≡ record { lane = flags_lane channel 0; made = 0; is_open = true } }
        ensures taken { result.taken ≡ 0 }
        ensures standing { result.standing ≡ standings.Open }
        ensures failure { result.failure ≡ None }
        ensures closed { result.is_closed ≡ false }
        ensures numbering { result.buffer.is_full ≡ false }
        ensures told { (result.buffer.settled ≡ []) × (result.buffer.told ≡ 0) }
        ensures few { HasFewFlags result }
        ensures gone { gone_of result ≡ (0, false) }
    {
        Head {
            transport,
            channel,
            hop,
            taken: 0,
            standing: Standing::Open,
            failure: None,
            is_closed: false,
            buffer: OutboundBuffer::new(alloc, channel, low, high),
            input: Input::new(channel, input),
            gone: 0,
            has_forgotten: false,
        }
    }

    /// Makes the next read step: the channel becomes active; then each burst comes, element by element, with its
    /// completion; then the end, or the abort. Its items are put on the data lane of the first hop. A burst is held, and
    /// nothing is put, while the channel is not writable and a flushed byte waits to be written. Once the head has failed
    /// by itself one read step is left where that lane is open: it gives the failure, and closes the lane.
    pub fn next_read(&mut self, outputs: &mut Outputs) -> ReadStep
        requires places { HasPlaces outputs.old.stopped (entrance self.old.channel ∷ []) }
        ensures { HeadReads T.state self.old outputs.old result self.new outputs.new }
    {
        if !self.input.has_step() {
            return ReadStep::Done;
        }
        if let Some(cause) = self.failure {
            self.input.fail(cause, outputs);
            return ReadStep::Gave;
        }
        if self.is_held() {
            return ReadStep::Held;
        }
        if self.input.is_abort_next() {
            self.abort(outputs);
            return ReadStep::Gave;
        }
        self.input.put_step(outputs);
        ReadStep::Gave
    }

    /// One burst more is to be read, behind those that are left and before the end. An `Err` is out of memory, and changes
    /// nothing.
    pub fn feed(&mut self, burst: Sequence<Element>) -> Result<(), AllocError>
        requires more { takes_bursts self.old.input ≡ true }
        requires few { self.old.input.port.made + items_left self.old.input.steps (self.old.input.left ++ burst ∷ []) < MAX_ITEMS }
        ensures feeds { OnOk result (HeadFeeds burst self.old self.new) }
        ensures kept { OnErr result (self.new ≡ self.old) }
    {
        self.input.feed(burst)
    }

    /// Whether a burst more may come: its reads are open, and no abort is behind the bursts.
    pub fn takes_bursts(&self) -> bool
        ensures { result ≡ takes_bursts self.now.input }
    {
        self.input.takes_bursts()
    }

    /// How many read steps are left before the end or the abort: the first one, and one for each burst that is left.
    pub fn steps_left(&self) -> usize
        ensures { result ≡ steps_left self.now.input }
    {
        self.input.steps_left()
    }

    /// Whether a read step is left.
    pub fn has_read_step(&self) -> bool
        ensures open { result ≡ self.now.input.port.is_open }
        ensures reads { (p : ReadPlan) (reads : ℕ) (failed : Bool) → ReadsStand p reads failed self.now → result ≡ has_step p reads failed }
    {
        self.input.has_step()
    }

    /// Whether the next read step is a burst that is held.
    pub fn is_held(&self) -> bool
        requires left { self.now.input.port.is_open ≡ true }
        ensures held { (p : ReadPlan) (reads : ℕ) (failed : Bool) (ys zs : List Event) (sizes : List Change) → ReadsStand p reads failed self.now → HeadStandsAfter T.state self.now ys zs sizes
            → result ≡ is_read_held T.state p reads self.now ys }
    {
        if !self.input.is_burst_next() {
            return false;
        }
        if self.buffer.is_writable() {
            return false;
        }
        !self.is_written()
    }

    /// Aborts the channel: a head that has not failed by itself fails, and what waits is closed. The failure is put on
    /// the data lane of the first hop, where that is open, and closes it. A head that has failed is unchanged.
    pub fn abort(&mut self, outputs: &mut Outputs)
        requires places { HasPlaces outputs.old.stopped (entrance self.old.channel ∷ []) }
        ensures { HeadAborts T.state self.old outputs.old self.new outputs.new }
    {
        if self.failure.is_some() {
            return;
        }
        self.buffer.fail(Outcome::Closed, outputs);
        self.failure = Some(Cause::Aborted);
        self.input.fail(Cause::Aborted, outputs);
    }

    /// Takes the next item of its lane. It answers `Ran` for an event, `Failed(Memory)` for a write for which it finds no
    /// memory, `Ended` for an end, and `Failed` for a failure. An end or a failure closes the writes that are not
    /// flushed.
    ///
    /// After `Failed(Memory)` the head has failed by itself: all that waits is closed, and it writes nothing more. Then a
    /// write is settled at once, and an end or a failure settles nothing. Once a write has found no place for its
    /// outcome, none gets a number. What comes after an end or a failure, whether the head had failed before or not, is
    /// counted, and nothing else comes of it.
    pub fn take(&mut self, envelope: Envelope, outputs: &mut Outputs) -> Took
        requires enters { EntersHead self.old envelope.lane }
        requires number { envelope.number ≡ self.old.taken }
        requires limit { envelope.number < MAX_ITEMS }
        requires places { HasPlaces outputs.old.stopped (flags_lane self.old.channel 0 ∷ []) }
        ensures { HeadTakes T.state self.old envelope outputs.old result self.new outputs.new }
    {
        match self.standing {
            Standing::Open if !self.is_closed => self.take_open(envelope, outputs),
            _ => {
                envelope.discard();
                self.taken += 1;
                Took::Ran
            }
        }
    }

    /// Takes the next item of its lane, while that is open: it is taken apart here, out of line.
    #[inline(never)]
    fn take_open(&mut self, envelope: Envelope, outputs: &mut Outputs) -> Took
        requires open { self.old.standing ≡ standings.Open }
        requires not_closed { self.old.is_closed ≡ false }
        requires limit { self.old.taken < MAX_ITEMS }
        requires places { HasPlaces outputs.old.stopped (flags_lane self.old.channel 0 ∷ []) }
        ensures answer { Answers (is_some self.old.failure) envelope.item result }
        ensures stands { (ys zs : List Event) (sizes : List Change) → HeadStandsAfter T.state self.old ys zs sizes
            → HeadStandsAfter T.state self.new (ys ++ events_before (is_some self.old.failure) envelope.item result) (zs ++ events_from (is_some self.old.failure) envelope.item result)
            (sizes ++ item_sizes (is_some self.old.failure) envelope.item result (waiting_at T.state self.old ys) (waiting_at T.state self.new (ys ++ events_before (is_some self.old.failure) envelope.item result))) }
        ensures flags { (ys zs : List Event) (sizes : List Change) → HeadStandsAfter T.state self.old ys zs sizes
            → SendsFlags self.old.buffer.low self.old.buffer.high sizes
            (item_sizes (is_some self.old.failure) envelope.item result (waiting_at T.state self.old ys) (waiting_at T.state self.new (ys ++ events_before (is_some self.old.failure) envelope.item result)))
            self.old.buffer.flags outputs.old self.new.buffer.flags outputs.new }
        ensures refused { (event : Event) → envelope.item ≡ Item.Event event → result ≢ took.Ran → LacksRoom event self.old.buffer }
        ensures stops { StopsNumbers self.old.buffer self.new.buffer }
        ensures failure { self.new.failure ≡ first_cause self.old.failure (cause_of_item envelope.item result) }
        ensures taken { self.new.taken ≡ self.old.taken + 1 }
        ensures standing { self.new.standing ≡ standing_after (is_some self.old.failure) envelope.item }
        ensures closed { self.new.is_closed ≡ (is_some self.old.failure && closes envelope.item) }
        ensures same { self.new ≡ record self.old { taken = self.new.taken; standing = self.new.standing; failure = self.new.failure; is_closed = self.new.is_closed; buffer = self.new.buffer } }
        ensures marks { SameMarks self.old.buffer self.new.buffer }
        ensures settles { SettlesMore self.old.buffer self.new.buffer }
        ensures few { HasFewFlags self.new }
    {
        let Envelope { item, .. } = envelope;
        self.taken += 1;
        match self.failure {
            Some(cause) => self.take_late(item, cause),
            None => match item {
                Item::Event(event) => match self.buffer.take(event, outputs) {
                    Ok(()) => Took::Ran,
                    Err(_) => {
                        self.failure = Some(Cause::Memory);
                        Took::Failed(Cause::Memory)
                    }
                },
                Item::End => {
                    self.buffer.close(outputs);
                    self.standing = Standing::Ended;
                    Took::Ended
                }
                Item::Fail(cause) => {
                    self.buffer.close(outputs);
                    self.standing = Standing::Failed(cause);
                    Took::Failed(cause)
                }
                Item::Flag(_) => Took::Ran,
            },
        }
    }

    /// Takes an item after a failure of its own, of this cause.
    #[inline(never)]
    fn take_late(&mut self, item: Item, cause: Cause) -> Took
        requires failed { self.old.failure ≡ Some cause }
        requires not_closed { self.old.is_closed ≡ false }
        ensures answer { Answers true item result }
        ensures stands { (ys zs : List Event) (sizes : List Change) → HeadStandsAfter T.state self.old ys zs sizes → HeadStandsAfter T.state self.new ys (zs ++ events_from true item result) sizes }
        ensures ran { (event : Event) → item ≡ Item.Event event → result ≡ took.Ran }
        ensures stops { StopsNumbers self.old.buffer self.new.buffer }
        ensures closed { self.new.is_closed ≡ closes item }
        ensures same { self.new ≡ record self.old { is_closed = self.new.is_closed; buffer = self.new.buffer } }
        ensures flags { self.new.buffer.flags ≡ self.old.buffer.flags }
        ensures pending { self.new.buffer.pending ≡ self.old.buffer.pending }
        ensures writable { self.new.buffer.is_unwritable ≡ self.old.buffer.is_unwritable }
        ensures marks { SameMarks self.old.buffer self.new.buffer }
        ensures settles { SettlesMore self.old.buffer self.new.buffer }
    {
        self.is_closed = matches!(item, Item::End | Item::Fail(_));
        match item {
            Item::Event(event) => {
                self.buffer.take_late(event, outcome_of(cause));
                Took::Ran
            }
            Item::End => Took::Ended,
            Item::Fail(cause) => Took::Failed(cause),
            Item::Flag(_) => Took::Ran,
        }
    }

    /// Makes one write to the transport, of what is left of the first flushed message and of no other. It is idle, and
    /// makes no call, where no flushed byte waits or the head has failed by itself. Where the transport fails, the head has
    /// failed, and each message that has not left whole is a fault.
    #[inline(always)]
    pub fn write_once(&mut self, outputs: &mut Outputs) -> OutStep
        requires places { HasPlaces outputs.old.stopped (flags_lane self.old.channel 0 ∷ []) }
        ensures { HeadWrites T.state T.may_refuse self.old outputs.old result self.new outputs.new }
    {
        if self.is_written() {
            return OutStep::Idle;
        }
        self.write_current(outputs)
    }

    /// The same of one that has not failed by itself. Mostly nothing waits, so that look is inlined, and this is not.
    #[inline(never)]
    fn write_current(&mut self, outputs: &mut Outputs) -> OutStep
        requires places { HasPlaces outputs.old.stopped (flags_lane self.old.channel 0 ∷ []) }
        requires failure { self.old.failure ≡ None }
        ensures { HeadWrites T.state T.may_refuse self.old outputs.old result self.new outputs.new }
    {
        match self.buffer.current() {
            None => OutStep::Idle,
            Some(bytes) => match self.transport.write(bytes) {
                Ok(0) => OutStep::Wrote(0),
                Ok(count) => {
                    self.buffer.remove_bytes(count, outputs);
                    OutStep::Wrote(count)
                }
                Err(_) => {
                    self.buffer.fail(Outcome::Fault, outputs);
                    self.failure = Some(Cause::Transport);
                    OutStep::Failed
                }
            },
        }
    }

    /// The first settled write that was not told yet, with its outcome: each write is told once, in the order of
    /// settling. It takes no memory.
    pub fn next_settled(&mut self) -> Option<(u64, Outcome)>
        ensures some { IfSome result (λ next. untold self.old.buffer ≡ next.0 ∷ untold self.new.buffer) }
        ensures outcome { IfSome result (λ next. slice_index_or self.old.buffer.outcomes next.0 None ≡ Some next.1) }
        ensures none { IfNone result (untold self.old.buffer ≡ []) }
        ensures same { self.new ≡ record self.old { buffer = record self.old.buffer { told = self.new.buffer.told } } }
        ensures none_same { IfNone result (self.new ≡ self.old) }

        // The list has each write with an outcome, once.
        ensures once { AreSettled self.new.buffer.settled self.new.buffer.outcomes }
    {
        self.buffer.next_settled()
    }

    /// The lane that enters it.
    pub fn lane(&self) -> Lane
        ensures { EntersHead self.now result }
    {
        Lane {
            channel: self.channel,
            kind: Kind::Data,
            hop: self.hop,
        }
    }

    /// How many items of its lane it has taken: the number of the next.
    pub fn taken(&self) -> u64
        ensures { result ≡ self.now.taken }
    {
        self.taken
    }

    /// How its lane stands. A head that has failed by itself notes no end of it.
    pub fn standing(&self) -> Standing
        ensures { result ≡ self.now.standing }
    {
        self.standing
    }

    /// The bytes that the transport accepted.
    pub fn bytes(&self) -> &[u8]
        ensures accepted { result.now ≡ (T.state self.now.transport).accepted }
        ensures prefix { (ys zs : List Event) (sizes : List Change) → HeadStandsAfter T.state self.now ys zs sizes → (rest : List ℕ) × (result.now ++ rest ≡ out ys) }
    {
        self.transport.bytes()
    }

    /// How many bytes of its output are gone: they left the transport, and are forgotten.
    pub fn gone(&self) -> usize
        ensures { result ≡ self.now.gone }
    {
        self.gone
    }

    /// How many bytes the writes hold that have no outcome yet.
    pub fn pending(&self) -> u128
        // What was added less what was removed.
        ensures exact { (ys zs : List Event) (sizes : List Change) → HeadStandsAfter T.state self.now ys zs sizes → result + removed_by sizes ≡ sizes_added sizes }
        ensures sizes { (ys zs : List Event) (sizes : List Change) → HeadStandsAfter T.state self.now ys zs sizes → result ≡ pending_after sizes }
        ensures waiting { (ys zs : List Event) (sizes : List Change) → HeadStandsAfter T.state self.now ys zs sizes → result ≡ waiting_at T.state self.now ys }
    {
        self.buffer.pending()
    }

    /// Whether the channel is writable: its bytes that wait have not been above the high mark since they were below the
    /// low one.
    pub fn is_writable(&self) -> bool
        ensures view { result ≡ not self.now.buffer.is_unwritable }
        ensures sizes { (ys zs : List Event) (sizes : List Change) → HeadStandsAfter T.state self.now ys zs sizes
            → result ≡ not (is_unwritable self.now.buffer.low self.now.buffer.high sizes) }
    {
        self.buffer.is_writable()
    }

    /// The outcome of each write that has a number, None for one that waits.
    pub fn outcomes(&self) -> &[Option<Outcome>]
        ensures view { result.now ≡ self.now.buffer.outcomes }
        ensures stands { (ys zs : List Event) (sizes : List Change) → HeadStandsAfter T.state self.now ys zs sizes
            → HasOutcomes T.state self.now ys zs result.now }
    {
        self.buffer.outcomes()
    }

    /// The numbers of the writes that have an outcome, in the order in which they were settled.
    pub fn settled(&self) -> &[usize]
        ensures view { result.now ≡ self.now.buffer.settled }

        // The list has each write with an outcome, once.
        ensures once { AreSettled result.now self.now.buffer.outcomes }
    {
        self.buffer.settled.as_slice()
    }

    /// Why it has failed by itself, or None.
    pub fn failure(&self) -> Option<Cause>
        ensures { result ≡ self.now.failure }
    {
        self.failure
    }

    /// Why it has failed: by itself, or else by the failure that it took. None where it has not failed.
    pub fn cause(&self) -> Option<Cause>
        ensures { result ≡ head_cause self.now }
    {
        if self.failure.is_some() {
            return self.failure;
        }
        self.standing.cause()
    }

    /// Whether it took an end or a failure, or has failed by itself.
    pub fn is_ended(&self) -> bool
        ensures { result ≡ (is_over self.now.standing || is_some self.now.failure) }
    {
        self.standing.is_over() || self.failure.is_some()
    }

    /// Whether no flushed byte waits, or the head has failed by itself: a write would be idle.
    pub fn is_written(&self) -> bool
        ensures stands { (ys zs : List Event) (sizes : List Change) → HeadStandsAfter T.state self.now ys zs sizes → result ≡ is_idle T.state self.now ys }
        ensures failed { IsSome self.now.failure → result ≡ true }
        ensures few { HasFewFlags self.now }
    {
        self.buffer.is_written()
    }

    /// Copies of the bytes that the transport accepted, and of the outcome of each write by its number: None for one that
    /// waits. An `Err` is out of memory.
    pub fn copies(
        &self,
        alloc: Global,
    ) -> Result<(ByteString, Sequence<Option<Outcome>>), AllocError>
        ensures bytes { IfOk result (λ parts. parts.0 ≡ (T.state self.now.transport).accepted) }
        ensures prefix { IfOk result (λ parts. (ys zs : List Event) (sizes : List Change) → HeadStandsAfter T.state self.now ys zs sizes
            → parts.0 ≡ take (length (T.state self.now.transport).accepted) (out ys)) }
        ensures view { IfOk result (λ parts. parts.1 ≡ self.now.buffer.outcomes) }
        ensures outcomes { IfOk result (λ parts. (ys zs : List Event) (sizes : List Change) → HeadStandsAfter T.state self.now ys zs sizes
            → HasOutcomes T.state self.now ys zs parts.1) }
    {
        let bytes = self.transport.bytes().to_vec(alloc)?;
        let outcomes = Vec::from_slice(alloc, self.buffer.outcomes())?;
        Ok((ByteString::from_vec(bytes), Sequence::from_vec(outcomes)))
    }

    /// Gives the head up for the same. The outcomes are moved, and so are the bytes where the transport moves them
    /// (`Transport::into_bytes`): there it takes no memory. An `Err` is the transport's.
    pub fn into_written(
        self,
        alloc: Global,
    ) -> Result<(ByteString, Sequence<Option<Outcome>>), AllocError>
        ensures bytes { IfOk result (λ parts. parts.0 ≡ (T.state self.transport).accepted) }
        ensures prefix { IfOk result (λ parts. (ys zs : List Event) (sizes : List Change) → HeadStandsAfter T.state self ys zs sizes
            → parts.0 ≡ take (length (T.state self.transport).accepted) (out ys)) }
        ensures view { IfOk result (λ parts. parts.1 ≡ self.buffer.outcomes) }
        ensures outcomes { IfOk result (λ parts. (ys zs : List Event) (sizes : List Change) → HeadStandsAfter T.state self ys zs sizes
            → HasOutcomes T.state self ys zs parts.1) }
    {
        let Head {
            transport,
            buffer,
            ..
        } = self;
        let bytes = transport.into_bytes(alloc)?;
        Ok((ByteString::from_vec(bytes), buffer.into_outcomes()))
    }
}

impl<T: Draining> Head<T> {
    ghost use Rattle.pl_head.specs.HeadCalls.{HeadForgets};
    ghost use Rattle.pl_head.specs.HeadStand.{can_forget};

    /// Forgets what it took before the first write that waits, where no flushed message waits, its lane is open and it has not
    /// failed: the outcomes of those writes, told or not, and the bytes that its transport accepted, which leave it. The other writes
    /// are counted from that one. It goes on as a head that has taken only what is left, but its counts, its marks and its reads stay.
    /// False where it cannot, where there is no such write, and where so many bytes are gone that a `usize` does not count them:
    /// nothing is changed. It takes no memory.
    pub fn forget(&mut self) -> bool
        ensures can { IsTrue result → can_forget self.old ≡ true }
        ensures due { result ≡ false → (can_forget self.old ≡ false) ⊎ (2 ^ 64 ≤ self.old.gone + length (T.state self.old.transport).accepted) }
        ensures forgets { IsTrue result → HeadForgets T.state self.old self.new }
        ensures kept { result ≡ false → self.new ≡ self.old }
    {
        let Some(gone) = self.gone.checked_add(self.transport.bytes().len()) else {
            return false;
        };
        if self.is_ended() {
            return false;
        }
        if !self.buffer.forget() {
            return false;
        }
        self.transport.drain();
        self.gone = gone;
        self.has_forgotten = true;
        true
    }
}

/// The outcome by which a failure settles what was not sent.
fn outcome_of(cause: Cause) -> Outcome
    ensures { result ≡ failure_outcome cause }
{
    match cause {
        Cause::Transport => Outcome::Fault,
        Cause::Memory | Cause::Aborted | Cause::Refused => Outcome::Closed,
    }
}
