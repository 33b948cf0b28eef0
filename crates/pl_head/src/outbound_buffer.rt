//! The messages that wait to be written, and what became of each write (Netty's `ChannelOutboundBuffer`).

ghost use Rattle.std.specs.Prelude.{◌≡◌, ℕ, ◌+◌, ◌-◌, ◌<◌, ◌≤◌, ◌^◌, ◌↔◌, ◌⊎◌, ◌∷◌, ◌++◌, List, [], All, length, take, drop, map, Bool, true, false, Option, Some, None, IsTrue, IfSome, IfNone, OnSome, OnOk, OnErr, Err, not, nat_le, slice_index, slice_index_or, vec_len, vec_capacity};
ghost use Rattle.std.specs.Option.{option_to_list};
ghost use Rattle.std.specs.List.Sorted.{IsStrictlyIncreasing};
ghost use Rattle.std.specs.VecDeque.{deque_len, deque_capacity};
ghost use Rattle.pl_event.specs.declared.events.Event.{Event};
ghost use Rattle.pl_event.specs.declared.events.Event.TheVariants as event;
ghost use Rattle.pl_event.specs.declared.events.Message.TheVariants as message;
ghost use Rattle.pl_event.specs.declared.outcomes.Outcome.TheVariants.{Closed};
ghost use Rattle.pl_event.specs.declared.envelopes.Lane.{Lane};
ghost use Rattle.pl_event.specs.Hops.{flags_lane};
ghost use Rattle.pl_context.specs.Stops.{HasPlaces, AreAmong};
ghost use Rattle.pl_head.specs.Writes.{write_by, late_outcome, flushed_writes, out, outcomes, bytes_offered, waiting_bytes, HasLeft};
ghost use Rattle.pl_head.specs.Marks.{Change, Added, Removed, pending_after, sizes_added, removed_by, is_unwritable};
ghost use Rattle.pl_head.specs.WaitingMessages.{settled_all, first_size, entries_size, entry_numbers, renumbered};
ghost use Rattle.pl_head.specs.Settling.{Account, numbers_from};
ghost use Rattle.pl_head.specs.declared.outbound_buffer.Refusal.TheVariants.{Numbered, Unnumbered};

use crate::marks::Marks;
use pl_context::Outputs;
use pl_event::{ByteString, Event, Message, Outcome, Sequence};
use std::alloc::{AllocError, Global};
use std::collections::VecDeque;

/// A message that waits, with the number of its write.
#[derive(Debug, Drop)]
pub(crate) struct Entry {
    pub(crate) number: usize,
    pub(crate) bytes: ByteString,
}

/// How a write is refused: with a number, where there is a place for its outcome, or without one.
#[derive(Clone, Copy, Debug)]
enum Refusal {
    Numbered,
    Unnumbered,
}

/// The messages that wait to be written, the flushed ones first, and the marks against which their bytes are counted; the
/// outcome of each write, and the numbers of those that are settled. The place where a write is settled is made when it
/// is taken.
#[derive(Debug, Drop)]
pub(crate) struct OutboundBuffer {
    pub(crate) entries: VecDeque<Entry>,
    /// How much of the first flushed message has left.
    pub(crate) offset: usize,
    /// How many messages are flushed.
    pub(crate) flushed: usize,
    pub(crate) outcomes: Vec<Option<Outcome>>,
    /// The numbers of the settled writes, in the order of settling.
    pub(crate) settled: Vec<usize>,
    /// How many of them were told.
    pub(crate) told: usize,
    /// A write found no place for its outcome. None gets a number any more.
    pub(crate) is_full: bool,
    pub(crate) marks: Marks,
    ghost flushed_within: { flushed ≤ length entries.items },
    ghost offset_within: { 0 < flushed → offset ≤ first_size entries.items },
    ghost offset_zero: { flushed ≡ 0 → offset ≡ 0 },
    ghost account: { Account (entry_numbers entries.items) settled.items outcomes.items },
    ghost ordered: { IsStrictlyIncreasing (entry_numbers entries.items) },
    ghost settled_room: { length outcomes.items ≤ vec_capacity settled },
    ghost told_within: { told ≤ length settled.items },
    ghost covered: { entries_size entries.items ≤ marks.pending },
}

impl OutboundBuffer {
    ghost use Rattle.pl_head.specs.MarksStand.{SendsFlags, flag_bound};
    ghost use Rattle.pl_head.specs.Buffers.{BufferStands, BufferFailed, IsAsBefore, SameMarks, SettlesMore, SettlesFront, StopsNumbers, LacksRoom, ForgetsWrites, can_forget_writes, first_waiting, untold};
    ghost use Rattle.pl_head.specs.OutboundStand.{buffer_view, BufferHolds, HasPlace, AddsEvent, TakesIn, TakesOut};

    /// Nothing waits, and nothing was written. It takes no memory.
    pub(crate) fn new(alloc: Global, channel: u16, low: u32, high: u32) -> Self
        requires { low ≤ high }
        ensures stands { BufferStands [] (buffer_view result) [] false [] }
        ensures low { result.marks.low ≡ low }
        ensures high { result.marks.high ≡ high }
        ensures port { result.marks.flags ≡ record { lane = flags_lane channel 0; made = 0; is_open = true } }
        ensures pending { result.marks.pending ≡ 0 }
        ensures count { flag_bound result.marks ≡ 0 }
        ensures numbering { result.is_full ≡ false }
        ensures settled { result.settled.items ≡ [] }
        ensures told { result.told ≡ 0 }
    {
        OutboundBuffer {
            entries: VecDeque::new(alloc),
            offset: 0,
            flushed: 0,
            outcomes: Vec::new(alloc),
            settled: Vec::new(alloc),
            told: 0,
            is_full: false,
            marks: Marks::new(channel, low, high),
        }
    }

    /// Takes an event. An `Err` is a write for which there was no room: all that waits is closed, and so is the write,
    /// where there is a place for its outcome.
    pub(crate) fn take(&mut self, event: Event, outputs: &mut Outputs) -> Result<(), AllocError>
        requires fits { self.old.marks.pending + 2 ^ 64 < 2 ^ 128 }
        requires room { flag_bound self.old.marks + 1 < 2 ^ 64 }
        requires place { HasPlaces outputs.old.stopped (self.old.marks.flags.lane ∷ []) }
        requires numbering { self.old.is_full ≡ false }
        ensures adds { OnOk result (AddsEvent event self.old outputs.old self.new outputs.new) }
        ensures err { OnErr result ((accepted : List ℕ) (ys : List Event) (sizes : List Change) → BufferStands accepted (buffer_view self.old) ys false sizes
            → BufferFailed Closed accepted (buffer_view self.new) ys (event ∷ []) false (sizes ++ Removed (waiting_bytes ys (length accepted) false) ∷ [])) }
        ensures err_flags { OnErr result ((accepted : List ℕ) (ys : List Event) (sizes : List Change) → BufferStands accepted (buffer_view self.old) ys false sizes
            → SendsFlags self.old.marks.low self.old.marks.high sizes (Removed (waiting_bytes ys (length accepted) false) ∷ []) self.old.marks.flags outputs.old self.new.marks.flags outputs.new) }
        ensures err_full { OnErr result (LacksRoom event (buffer_view self.old)) }
        ensures err_flushed { OnErr result (self.new.flushed ≡ 0) }
        ensures takes_in { TakesIn self.old self.new }
    {
        let Err(refusal) = self.add(event, outputs) else {
            return Ok(());
        };
        self.fail(Outcome::Closed, outputs);
        match refusal {
            Refusal::Numbered => {
                self.add_settled(Outcome::Closed);
                Err(AllocError)
            }
            Refusal::Unnumbered => Err(AllocError),
        }
    }

    /// Adds an event. An `Err` is a write for which there is no room: it leaves all as it was, but for how much room there
    /// is, and whether writes get numbers.
    fn add(&mut self, event: Event, outputs: &mut Outputs) -> Result<(), Refusal>
        requires fits { self.old.marks.pending + 2 ^ 64 < 2 ^ 128 }
        requires room { flag_bound self.old.marks + 1 < 2 ^ 64 }
        requires place { HasPlaces outputs.old.stopped (self.old.marks.flags.lane ∷ []) }
        requires numbering { self.old.is_full ≡ false }
        ensures adds { OnOk result (AddsEvent event self.old outputs.old self.new outputs.new) }
        // A refused write changes no message, offset, outcome, mark or flag.
        ensures refused { OnErr result (IsAsBefore (buffer_view self.old) (buffer_view self.new)) }
        ensures refused_marks { OnErr result (self.new.marks ≡ self.old.marks) }
        ensures refused_outputs { OnErr result (outputs.new ≡ outputs.old) }
        ensures lacks { OnErr result (LacksRoom event (buffer_view self.old)) }
        ensures numbered { result ≡ Err Numbered → HasPlace self.new × (self.new.is_full ≡ false) × (bytes : List ℕ) × (write_by event ≡ Some bytes ∷ []) }
        ensures unnumbered { result ≡ Err Unnumbered → self.new.is_full ≡ true }
        ensures takes_in { TakesIn self.old self.new }
    {
        match event {
            Event::Write(message) => {
                if !self.make_place() {
                    return Err(Refusal::Unnumbered);
                }
                match message {
                    Message::Bytes(bytes) => {
                        if self.entries.reserve(1).is_err() {
                            return Err(Refusal::Numbered);
                        }
                        self.add_message(bytes, outputs);
                        Ok(())
                    }
                    _ => {
                        self.add_settled(Outcome::Unsupported);
                        Ok(())
                    }
                }
            }
            Event::Flush => {
                self.add_flush(outputs);
                Ok(())
            }
            _ => Ok(()),
        }
    }

    /// Takes an event after a failure of the head's own, which settles by this outcome. A write is settled at once, unless
    /// there is no place for its outcome.
    #[inline(never)]
    pub(crate) fn take_late(&mut self, event: Event, outcome: Outcome)
        ensures stands { (accepted : List ℕ) (ys zs : List Event) (ended : Bool) (sizes : List Change) → BufferFailed outcome accepted (buffer_view self.old) ys zs ended sizes
            → BufferFailed outcome accepted (buffer_view self.new) ys (zs ++ event ∷ []) ended sizes }
        ensures stops { StopsNumbers (buffer_view self.old) (buffer_view self.new) }
        ensures same { SameMarks (buffer_view self.old) (buffer_view self.new) }
        ensures settles { SettlesMore (buffer_view self.old) (buffer_view self.new) }
        ensures marks { self.new.marks ≡ self.old.marks }
        ensures flushed { self.new.flushed ≡ self.old.flushed }
    {
        let Some(outcome) = late_outcome(event, outcome) else {
            return;
        };
        if !self.make_place() {
            return;
        }
        self.add_settled(outcome);
    }

    /// Makes a place for the outcome of one write more, and for its number where it is settled. Once there was none, no
    /// write gets a number.
    fn make_place(&mut self) -> bool
        ensures place { IsTrue result → HasPlace self.new }
        ensures full { result ≡ false → self.old.is_full ≡ false → (buffer_view self.old).outcomes_room ≡ 0 }
        ensures was_open { IsTrue result → self.old.is_full ≡ false }
        ensures same { buffer_view self.new ≡ record (buffer_view self.old) { is_full = not result; outcomes_room = (buffer_view self.new).outcomes_room } }
        ensures marks { self.new.marks ≡ self.old.marks }
    {
        if self.is_full {
            return false;
        }
        let count = self.outcomes.len() - self.settled.len();
        if self.outcomes.reserve(1).is_err() || self.settled.reserve(count + 1).is_err() {
            self.is_full = true;
            return false;
        }
        true
    }

    /// Gives a number to a write that is settled at once, for whose outcome a place was made.
    fn add_settled(&mut self, outcome: Outcome)
        requires place { HasPlace self.old }
        ensures same { buffer_view self.new ≡ record (buffer_view self.old) { outcomes = (buffer_view self.old).outcomes ++ Some outcome ∷ []; settled = self.new.settled.items; outcomes_room = (buffer_view self.new).outcomes_room } }
        ensures settled { self.new.settled.items ≡ self.old.settled.items ++ length self.old.outcomes.items ∷ [] }
        ensures marks { self.new.marks ≡ self.old.marks }
    {
        let number = self.outcomes.len();
        self.outcomes.push_reserved(Some(outcome));
        self.settled.push_reserved(number);
    }

    /// Adds a message, unflushed, for which there is room, and for whose outcome a place was made.
    fn add_message(&mut self, bytes: ByteString, outputs: &mut Outputs)
        requires fits { self.old.marks.pending + 2 ^ 64 < 2 ^ 128 }
        requires room { flag_bound self.old.marks + 1 < 2 ^ 64 }
        requires place { HasPlaces outputs.old.stopped (self.old.marks.flags.lane ∷ []) }
        requires entry_place { deque_len self.old.entries < deque_capacity self.old.entries }
        requires outcome_place { HasPlace self.old }
        ensures stands { (accepted : List ℕ) (ys : List Event) (sizes : List Change) → BufferStands accepted (buffer_view self.old) ys false sizes
            → BufferStands accepted (buffer_view self.new) (ys ++ event.Write (message.Bytes bytes) ∷ []) false (sizes ++ Added (length bytes) ∷ []) }
        ensures flags { (accepted : List ℕ) (ys : List Event) (sizes : List Change) → BufferStands accepted (buffer_view self.old) ys false sizes
            → SendsFlags self.old.marks.low self.old.marks.high sizes (Added (length bytes) ∷ []) self.old.marks.flags outputs.old self.new.marks.flags outputs.new }
        ensures same { SameMarks (buffer_view self.old) (buffer_view self.new) }
        ensures settled { self.new.settled ≡ self.old.settled }
        ensures told { self.new.told ≡ self.old.told }
        ensures numbering { self.new.is_full ≡ self.old.is_full }
        ensures pending { self.new.marks.pending ≤ self.old.marks.pending + 2 ^ 64 }
        ensures count { flag_bound self.new.marks ≤ flag_bound self.old.marks + 2 }
    {
        let size = bytes.len();
        let number = self.outcomes.len();
        self.outcomes.push_reserved(None);
        self.entries.push_back_reserved(Entry { number, bytes });
        self.marks.add(size, outputs);
    }

    /// All messages are flushed, and those without a byte at the front are settled.
    fn add_flush(&mut self, outputs: &mut Outputs)
        requires room { flag_bound self.old.marks + 1 < 2 ^ 64 }
        requires fits { self.old.marks.pending < 2 ^ 128 }
        requires place { HasPlaces outputs.old.stopped (self.old.marks.flags.lane ∷ []) }
        ensures stands { (accepted : List ℕ) (ys : List Event) (sizes : List Change) → BufferStands accepted (buffer_view self.old) ys false sizes
            → BufferStands accepted (buffer_view self.new) (ys ++ event.Flush ∷ []) false (sizes ++ Removed (waiting_bytes ys (length accepted) false - waiting_bytes (ys ++ event.Flush ∷ []) (length accepted) false) ∷ []) }
        ensures flags { (accepted : List ℕ) (ys : List Event) (sizes : List Change) → BufferStands accepted (buffer_view self.old) ys false sizes
            → SendsFlags self.old.marks.low self.old.marks.high sizes (Removed (waiting_bytes ys (length accepted) false - waiting_bytes (ys ++ event.Flush ∷ []) (length accepted) false) ∷ []) self.old.marks.flags outputs.old self.new.marks.flags outputs.new }
        ensures takes_out { TakesOut self.old self.new }
    {
        self.flushed = self.entries.len();
        let size = self.settle_written();
        self.marks.remove(size, outputs);
    }

    /// A failure of the head's own: all that waits is settled by this outcome.
    #[inline(never)]
    pub(crate) fn fail(&mut self, outcome: Outcome, outputs: &mut Outputs)
        requires room { flag_bound self.old.marks + 1 < 2 ^ 64 }
        requires fits { self.old.marks.pending < 2 ^ 128 }
        requires place { HasPlaces outputs.old.stopped (self.old.marks.flags.lane ∷ []) }
        ensures stands { (accepted : List ℕ) (ys : List Event) (ended : Bool) (sizes : List Change) → BufferStands accepted (buffer_view self.old) ys ended sizes
            → BufferFailed outcome accepted (buffer_view self.new) ys [] ended (sizes ++ Removed (waiting_bytes ys (length accepted) ended) ∷ []) }
        ensures flags { (accepted : List ℕ) (ys : List Event) (ended : Bool) (sizes : List Change) → BufferStands accepted (buffer_view self.old) ys ended sizes
            → SendsFlags self.old.marks.low self.old.marks.high sizes (Removed (waiting_bytes ys (length accepted) ended) ∷ []) self.old.marks.flags outputs.old self.new.marks.flags outputs.new }
        ensures takes_out { TakesOut self.old self.new }
        ensures flushed { self.new.flushed ≡ 0 }
        ensures outcome_place { HasPlace self.old → HasPlace self.new }
        ensures places { (lanes : List Lane) → HasPlaces outputs.old.stopped lanes → AreAmong (self.old.marks.flags.lane ∷ []) lanes → HasPlaces outputs.new.stopped lanes }
    {
        self.flushed = 0;
        self.offset = 0;
        let size = settle_from(
            &self.entries,
            0,
            outcome,
            &mut self.outcomes,
            &mut self.settled,
        );
        self.entries.clear();
        self.marks.remove(size, outputs);
    }

    /// The lane has ended: what is not flushed is closed.
    #[inline(never)]
    pub(crate) fn close(&mut self, outputs: &mut Outputs)
        requires room { flag_bound self.old.marks + 1 < 2 ^ 64 }
        requires fits { self.old.marks.pending < 2 ^ 128 }
        requires place { HasPlaces outputs.old.stopped (self.old.marks.flags.lane ∷ []) }
        ensures stands { (accepted : List ℕ) (ys : List Event) (sizes : List Change) → BufferStands accepted (buffer_view self.old) ys false sizes
            → BufferStands accepted (buffer_view self.new) ys true (sizes ++ Removed (waiting_bytes ys (length accepted) false - waiting_bytes ys (length accepted) true) ∷ []) }
        ensures flags { (accepted : List ℕ) (ys : List Event) (sizes : List Change) → BufferStands accepted (buffer_view self.old) ys false sizes
            → SendsFlags self.old.marks.low self.old.marks.high sizes (Removed (waiting_bytes ys (length accepted) false - waiting_bytes ys (length accepted) true) ∷ []) self.old.marks.flags outputs.old self.new.marks.flags outputs.new }
        ensures takes_out { TakesOut self.old self.new }
    {
        let start = self.flushed;
        let size = settle_from(
            &self.entries,
            start,
            Outcome::Closed,
            &mut self.outcomes,
            &mut self.settled,
        );
        self.entries.truncate(start);
        self.marks.remove(size, outputs);
    }

    /// What is left of the first flushed message, at least one byte.
    pub(crate) fn current(&self) -> Option<&[u8]>
        ensures none { IfNone result ((accepted : List ℕ) (ys : List Event) (ended : Bool) (sizes : List Change) → BufferStands accepted (buffer_view self.now) ys ended sizes → accepted ≡ out ys) }
        ensures flushed { IfSome result (λ bytes. 0 < self.now.flushed) }
        ensures some { IfSome result (λ bytes. length bytes.now + self.now.offset ≡ first_size self.now.entries.items) }
        ensures small { OnSome result (first_size self.now.entries.items < 2 ^ 64) }
        ensures offers { IfSome result (λ bytes. (accepted : List ℕ) (ys : List Event) (ended : Bool) (sizes : List Change) → BufferStands accepted (buffer_view self.now) ys ended sizes
            → (0 < length bytes.now) × (length bytes.now ≡ bytes_offered 0 (length accepted) (flushed_writes ys)) × ((rest : List ℕ) × (accepted ++ (bytes.now ++ rest) ≡ out ys))) }
    {
        if self.flushed == 0 {
            return None;
        }
        let first = &self.entries[0];
        let size = first.bytes.len();
        Some(&first.bytes.as_slice()[self.offset..size])
    }

    /// Removes bytes of the first flushed message, which were accepted, and settles what has left whole.
    pub(crate) fn remove_bytes(&mut self, count: usize, outputs: &mut Outputs)
        requires flushed { 0 < self.old.flushed }
        requires within { self.old.offset + count ≤ first_size self.old.entries.items }
        requires small { first_size self.old.entries.items < 2 ^ 64 }
        requires room { flag_bound self.old.marks + 1 < 2 ^ 64 }
        requires fits { self.old.marks.pending < 2 ^ 128 }
        requires place { HasPlaces outputs.old.stopped (self.old.marks.flags.lane ∷ []) }
        ensures stands { (accepted more rest : List ℕ) (ys : List Event) (ended : Bool) (sizes : List Change) → BufferStands accepted (buffer_view self.old) ys ended sizes
            → length more ≡ count → accepted ++ (more ++ rest) ≡ out ys
            → BufferStands (accepted ++ more) (buffer_view self.new) ys ended (sizes ++ Removed (waiting_bytes ys (length accepted) ended - waiting_bytes ys (length (accepted ++ more)) ended) ∷ []) }
        ensures flags { (accepted more rest : List ℕ) (ys : List Event) (ended : Bool) (sizes : List Change) → BufferStands accepted (buffer_view self.old) ys ended sizes
            → length more ≡ count → accepted ++ (more ++ rest) ≡ out ys
            → SendsFlags self.old.marks.low self.old.marks.high sizes (Removed (waiting_bytes ys (length accepted) ended - waiting_bytes ys (length (accepted ++ more)) ended) ∷ []) self.old.marks.flags outputs.old self.new.marks.flags outputs.new }
        ensures takes_out { TakesOut self.old self.new }
    {
        self.offset += count;
        let size = self.settle_written();
        self.marks.remove(size, outputs);
    }

    /// Takes out all messages at the front that have left whole, and answers how many bytes they held, which are still
    /// counted.
    fn settle_written(&mut self) -> u128
        requires fits { self.old.marks.pending < 2 ^ 128 }
        ensures holds { (flushed unflushed : List (Option (List ℕ))) (left : List ℕ) (ended : Bool) → BufferHolds self.old flushed unflushed left ended → BufferHolds self.new flushed unflushed left ended }
        ensures size { entries_size self.old.entries.items ≡ result + entries_size self.new.entries.items }
        ensures rest { 0 < self.new.flushed → self.new.offset < first_size self.new.entries.items }
        ensures settles { SettlesMore (buffer_view self.old) (buffer_view self.new) }
        ensures numbering { self.new.is_full ≡ self.old.is_full }
        ensures marks { self.new.marks ≡ self.old.marks }
    {
        let mut size = 0;
        while self.is_front_written() {
            size += self.settle_front() as u128;
        }
        size
    }

    /// Whether the first flushed message has left whole.
    fn is_front_written(&self) -> bool
        ensures { IsTrue result ↔ ((0 < self.now.flushed) × (self.now.offset ≡ first_size self.now.entries.items)) }
    {
        if self.flushed == 0 {
            return false;
        }
        let first = &self.entries[0];
        self.offset == first.bytes.len()
    }

    /// Takes the first flushed message out, which has left whole, and answers its length in bytes.
    fn settle_front(&mut self) -> usize
        requires flushed { 0 < self.old.flushed }
        requires written { self.old.offset ≡ first_size self.old.entries.items }
        ensures holds { (flushed unflushed : List (Option (List ℕ))) (left : List ℕ) (ended : Bool) → BufferHolds self.old flushed unflushed left ended → BufferHolds self.new flushed unflushed left ended }
        ensures size { entries_size self.old.entries.items ≡ result + entries_size self.new.entries.items }
        ensures shorter { length self.new.entries.items + 1 ≡ length self.old.entries.items }
        ensures settles { SettlesFront (buffer_view self.old) (buffer_view self.new) }
        ensures numbering { self.new.is_full ≡ self.old.is_full }
        ensures marks { self.new.marks ≡ self.old.marks }
    {
        match self.entries.pop_front() {
            Some(first) => {
                self.outcomes[first.number] = Some(Outcome::Success);
                self.settled.push_reserved(first.number);
                self.offset = 0;
                self.flushed -= 1;
                first.bytes.len()
            }
            None => unreachable!(),
        }
    }

    /// How many bytes the messages that wait hold.
    pub(crate) fn pending(&self) -> u128
        ensures view { result ≡ (buffer_view self.now).pending }
        ensures exact { (accepted : List ℕ) (ys : List Event) (ended : Bool) (sizes : List Change) → BufferStands accepted (buffer_view self.now) ys ended sizes → result + removed_by sizes ≡ sizes_added sizes }
        ensures sizes { (accepted : List ℕ) (ys : List Event) (ended : Bool) (sizes : List Change) → BufferStands accepted (buffer_view self.now) ys ended sizes → result ≡ pending_after sizes }
        ensures waiting { (accepted : List ℕ) (ys : List Event) (ended : Bool) (sizes : List Change) → BufferStands accepted (buffer_view self.now) ys ended sizes → result ≡ waiting_bytes ys (length accepted) ended }
    {
        self.marks.pending
    }

    /// Whether the channel is writable.
    pub(crate) fn is_writable(&self) -> bool
        ensures view { result ≡ not self.now.marks.is_unwritable }
        ensures sizes { (accepted : List ℕ) (ys : List Event) (ended : Bool) (sizes : List Change) → BufferStands accepted (buffer_view self.now) ys ended sizes
            → result ≡ not (is_unwritable self.now.marks.low self.now.marks.high sizes) }
    {
        !self.marks.is_unwritable
    }

    /// Whether no flushed byte waits.
    pub(crate) fn is_written(&self) -> bool
        ensures stands { (accepted : List ℕ) (ys : List Event) (ended : Bool) (sizes : List Change) → BufferStands accepted (buffer_view self.now) ys ended sizes → result ≡ nat_le (length (out ys)) (length accepted) }
        ensures none { self.now.flushed ≡ 0 → result ≡ true }
    {
        self.flushed == 0
    }

    /// The first settled write that was not told yet. It takes no memory.
    pub(crate) fn next_settled(&mut self) -> Option<(u64, Outcome)>
        ensures some { IfSome result (λ next. untold (buffer_view self.old) ≡ next.0 ∷ untold (buffer_view self.new)) }
        ensures outcome { IfSome result (λ next. slice_index_or (buffer_view self.old).outcomes next.0 None ≡ Some next.1) }
        ensures none { IfNone result (untold (buffer_view self.old) ≡ []) }
        ensures same { buffer_view self.new ≡ record (buffer_view self.old) { told = (buffer_view self.new).told } }
        ensures none_same { IfNone result ((buffer_view self.new).told ≡ (buffer_view self.old).told) }
    {
        if self.told == self.settled.len() {
            return None;
        }
        let number = self.settled[self.told];
        match self.outcomes[number] {
            Some(outcome) => {
                self.told += 1;
                Some((number as u64, outcome))
            }
            None => unreachable!(),
        }
    }

    /// Forgets the writes before the first that waits, which are all settled: what is left is counted from that one. False where a
    /// flushed message waits, or there is no such write: nothing is forgotten. It takes no memory.
    pub(crate) fn forget(&mut self) -> bool
        ensures can { result ≡ can_forget_writes (buffer_view self.old) }
        ensures stands { IsTrue result → (accepted : List ℕ) (ys : List Event) (sizes : List Change) → BufferStands accepted (buffer_view self.old) ys false sizes
            → (first left : List Event) × (first ++ left ≡ ys) × HasLeft accepted first × BufferStands [] (buffer_view self.new) left false sizes }
        ensures forgets { IsTrue result → ForgetsWrites (buffer_view self.old) (buffer_view self.new) }
        ensures kept { result ≡ false → self.new ≡ self.old }
    {
        if self.flushed > 0 {
            return false;
        }
        let first = self.first_waiting();
        if first == 0 {
            return false;
        }
        self.told = count_from(self.settled.as_slice(), self.told, first);
        keep_from(&mut self.settled, first);
        drop_first(&mut self.outcomes, first);
        renumber(&mut self.entries, first);
        true
    }

    /// How many writes come before the first that waits.
    fn first_waiting(&self) -> usize
        ensures view { result ≡ first_waiting (buffer_view self.now) }
        ensures within { result ≤ length self.now.outcomes.items }
    {
        if self.entries.is_empty() {
            return self.outcomes.len();
        }
        let first = &self.entries[0];
        first.number
    }

    /// The outcome of each write.
    pub(crate) fn outcomes(&self) -> &[Option<Outcome>]
        ensures view { result.now ≡ (buffer_view self.now).outcomes }
        ensures stands { (accepted : List ℕ) (ys : List Event) (ended : Bool) (sizes : List Change) → BufferStands accepted (buffer_view self.now) ys ended sizes → result.now ≡ outcomes ys (length accepted) ended }
    {
        self.outcomes.as_slice()
    }

    /// Gives the buffer up for the outcome of each write. It takes no memory.
    pub(crate) fn into_outcomes(self) -> Sequence<Option<Outcome>>
        ensures view { result ≡ (buffer_view self).outcomes }
        ensures stands { (accepted : List ℕ) (ys : List Event) (ended : Bool) (sizes : List Change) → BufferStands accepted (buffer_view self) ys ended sizes → result ≡ outcomes ys (length accepted) ended }
    {
        let OutboundBuffer { outcomes, .. } = self;
        Sequence::from_vec(outcomes)
    }
}

/// Settles the messages from a position on by this outcome, and answers how many bytes they hold.
fn settle_from(
    entries: &VecDeque<Entry>,
    start: usize,
    outcome: Outcome,
    outcomes: &mut Vec<Option<Outcome>>,
    settled: &mut Vec<usize>,
) -> u128
    requires small { entries_size entries.now.items < 2 ^ 128 }
    requires within { start ≤ length entries.now.items }
    requires account { Account (entry_numbers entries.now.items) settled.old.items outcomes.old.items }
    requires room { length outcomes.old.items ≤ vec_capacity settled.old }
    ensures outcomes { outcomes.new.items ≡ settled_all outcome (drop start entries.now.items) outcomes.old.items }
    ensures size { result ≡ entries_size (drop start entries.now.items) }
    ensures account { Account (entry_numbers (take start entries.now.items)) settled.new.items outcomes.new.items }
    ensures settled { settled.new.items ≡ settled.old.items ++ entry_numbers (drop start entries.now.items) }
    ensures length { vec_len outcomes.new ≡ vec_len outcomes.old }
    ensures capacity { vec_capacity outcomes.new ≡ vec_capacity outcomes.old }
    ensures settled_capacity { vec_capacity settled.new ≡ vec_capacity settled.old }
{
    let mut size = 0;
    for i in start..entries.len() {
        let entry = &entries[i];
        outcomes[entry.number] = Some(outcome);
        settled.push_reserved(entry.number);
        size += entry.bytes.len() as u128;
    }
    size
}

/// How many of the numbers before an index are this one or more.
fn count_from(numbers: &[usize], end: usize, first: usize) -> usize
    requires within { end ≤ length numbers.now }
    ensures { result ≡ length (numbers_from first (take end numbers.now)) }
{
    let mut count = 0;
    for i in 0..end {
        count += count_one(numbers[i], first);
    }
    count
}

/// 1 where a number is this one or more, else 0.
fn count_one(number: usize, first: usize) -> usize
    ensures { result ≡ length (numbers_from first (number ∷ [])) }
{
    if number < first {
        return 0;
    }
    1
}

/// Keeps the numbers from this one on, counted from it.
fn keep_from(numbers: &mut Vec<usize>, first: usize)
    ensures items { numbers.new.items ≡ numbers_from first numbers.old.items }
    ensures capacity { vec_capacity numbers.new ≡ vec_capacity numbers.old }
{
    let mut kept = 0;
    for i in 0..numbers.len() {
        kept = keep_one(numbers, kept, i, first);
    }
    numbers.truncate(kept);
}

/// Moves the number at an index behind those that were kept, where it is kept, and answers how many are.
fn keep_one(numbers: &mut Vec<usize>, kept: usize, index: usize, first: usize) -> usize
    requires before { kept ≤ index }
    requires within { index < length numbers.old.items }
    ensures most { result ≤ kept + 1 }
    ensures kept { take result numbers.new.items ≡ take kept numbers.old.items ++ numbers_from first (slice_index numbers.old.items index ∷ []) }
    ensures left { drop (index + 1) numbers.new.items ≡ drop (index + 1) numbers.old.items }
    ensures length { length numbers.new.items ≡ length numbers.old.items }
    ensures capacity { vec_capacity numbers.new ≡ vec_capacity numbers.old }
{
    let number = numbers[index];
    if number < first {
        return kept;
    }
    numbers[kept] = number - first;
    kept + 1
}

/// Takes so many outcomes off the front.
fn drop_first(outcomes: &mut Vec<Option<Outcome>>, count: usize)
    requires within { count ≤ length outcomes.old.items }
    ensures items { outcomes.new.items ≡ drop count outcomes.old.items }
    ensures capacity { vec_capacity outcomes.new ≡ vec_capacity outcomes.old }
{
    let left = outcomes.len() - count;
    outcomes.rotate_left(count);
    outcomes.truncate(left);
}

/// Counts the writes of these messages from this one.
fn renumber(entries: &mut VecDeque<Entry>, first: usize)
    requires least { All (λ n. first ≤ n) (entry_numbers entries.old.items) }
    ensures items { entries.new.items ≡ renumbered first entries.old.items }
    ensures length { deque_len entries.new ≡ deque_len entries.old }
    ensures capacity { deque_capacity entries.new ≡ deque_capacity entries.old }
{
    for i in 0..entries.len() {
        entries[i].number -= first;
    }
}

/// The outcome of the write that an event makes, if it makes one, where bytes are settled by this one before they are
/// sent.
fn late_outcome(event: Event, outcome: Outcome) -> Option<Outcome>
    ensures { map (late_outcome outcome) (write_by event) ≡ map (λ o. Some o) (option_to_list result) }
{
    match event {
        Event::Write(Message::Bytes(_)) => Some(outcome),
        Event::Write(_) => Some(Outcome::Unsupported),
        _ => None,
    }
}
