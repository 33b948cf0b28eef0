//! The recorded input of a channel, read step by step.

ghost use Rattle.std.specs.Prelude.{◌≡◌, ℕ, ◌+◌, ◌<◌, ◌^◌, ◌≤◌, [], ◌∷◌, List, length, Bool, true, false, not, is_some, ◌&&◌, ◌++◌, IfOk, OnOk, OnErr};
ghost use Rattle.pl_event.specs.Inputs.{burst_events, recorded_input};
ghost use Rattle.pl_context.specs.Stops.{HasPlaces};
ghost use Rattle.pl_context.specs.OutputsViews.{PutsAll};
ghost use Rattle.pl_event.specs.declared.envelopes.Item.TheVariants as item;
ghost use Rattle.pl_context.specs.Ports.{as_items, numbered, offered};
ghost use Rattle.pl_head.specs.ReadSteps.{chunk_burst, chunk_plan, step_items, is_burst, is_abort, bursts_before, bursts_read, has_step};
ghost use Rattle.pl_head.specs.InputStand.{InputStands, InputFeeds, new_input, next_items, burst_next, abort_next, input_after_step, failed_input, items_left, steps_left, takes_bursts};
ghost use Rattle.pl_event.specs.declared.limits.TheConstants.{MAX_ITEMS};

use pl_context::{Outputs, Port};
use pl_event::{ByteString, Cause, Element, Event, Item, Kind, Sequence};
use std::alloc::{AllocError, Global};
use std::collections::VecDeque;
use std::marker::Model;

/// What a channel is to read: bursts of elements, and then the end; or, where it is aborted, as many of them as are to be
/// read before the abort. A count past the last burst counts as all. Its limits are `World`'s (`pl_world::input_fits`).
#[derive(Debug, Drop)]
pub struct ReadPlan {
    pub bursts: Sequence<Sequence<Element>>,
    pub abort_after: Option<u32>,
}

impl ReadPlan {
    /// Bursts of these chunks, without a user event, and the end after them. An `Err` is out of memory.
    pub fn of_chunks(alloc: Global, bursts: &[&[&[u8]]]) -> Result<Self, AllocError>
        ensures { IfOk result (λ plan. plan ≡ chunk_plan bursts.now) }
    {
        let mut made = Vec::with_capacity(alloc, bursts.len())?;
        for burst in bursts {
            made.push(chunk_burst(alloc, burst)?)?;
        }
        Ok(ReadPlan {
            bursts: Sequence::from_vec(made),
            abort_after: None,
        })
    }
}

/// A burst of these chunks.
fn chunk_burst(alloc: Global, chunks: &[&[u8]]) -> Result<Sequence<Element>, AllocError>
    ensures { IfOk result (λ burst. burst ≡ chunk_burst chunks.now) }
{
    let mut burst = Vec::with_capacity(alloc, chunks.len())?;
    for chunk in chunks {
        burst.push(Element::Chunk(ByteString::from_slice(alloc, chunk)?))?;
    }
    Ok(Sequence::from_vec(burst))
}

/// The recorded input of a channel: what is left of it, and the lane of the first hop, to which it is given.
///
/// The bytes of each chunk are moved into its event.
#[derive(Debug, Drop)]
pub(crate) struct Input {
    port: Port,
    /// The bursts that are left.
    left: VecDeque<Sequence<Element>>,
    /// How many read steps were made, without the abort.
    steps: u64,
    /// An abort comes after the bursts, in the place of the end.
    aborts: bool,
}

impl Model for Input {
    ghost use Rattle.pl_head.specs.InputStand.{InputView, IsInput};

    ghost Value = { InputView };

    ghost view = { λ i. record { port = i.port; left = i.left.items; steps = i.steps; aborts = i.aborts } };

    ghost invariant = { λ i. IsInput i.port i.left.items i.steps };
}

impl Input {
    /// No read step was made of this plan. With the end all its bursts bring fewer than 2^31 items.
    pub(crate) fn new(channel: u16, plan: ReadPlan) -> Self
        requires { length (recorded_input plan.bursts) + 1 < MAX_ITEMS }
        ensures reading { result ≡ new_input channel plan }
        ensures stands { InputStands plan 0 false result }
    {
        let ReadPlan {
            bursts,
            abort_after,
        } = plan;
        Input {
            port: Port::new(channel, Kind::Data, 0, true),
            left: bursts_before(abort_after, bursts).into(),
            steps: 0,
            aborts: abort_after.is_some(),
        }
    }

    /// Whether a read step is left: its lane is open.
    pub(crate) fn has_step(&self) -> bool
        ensures port { result ≡ self.now.port.is_open }
        ensures steps { (p : ReadPlan) (reads : ℕ) (failed : Bool) → InputStands p reads failed self.now → result ≡ has_step p reads failed }
    {
        self.port.is_open
    }

    /// How many steps are left before the end or the abort.
    pub(crate) fn steps_left(&self) -> usize
        ensures { result ≡ steps_left self.now }
    {
        self.left.len() + usize::from(self.steps == 0)
    }

    /// Whether a burst more may come: its lane is open, and no abort is behind the bursts.
    pub(crate) fn takes_bursts(&self) -> bool
        ensures { result ≡ takes_bursts self.now }
    {
        self.port.is_open && !self.aborts
    }

    /// Whether the next read step is a burst.
    pub(crate) fn is_burst_next(&self) -> bool
        requires left { self.now.port.is_open ≡ true }
        ensures next { result ≡ burst_next self.now.steps self.now.left }
        ensures steps { (p : ReadPlan) (reads : ℕ) (failed : Bool) → InputStands p reads failed self.now → result ≡ is_burst (bursts_read p) reads }
    {
        self.steps > 0 && !self.left.is_empty()
    }

    /// Whether the next read step is the abort.
    pub(crate) fn is_abort_next(&self) -> bool
        requires left { self.now.port.is_open ≡ true }
        ensures next { result ≡ abort_next self.now }
        ensures steps { (p : ReadPlan) (reads : ℕ) (failed : Bool) → InputStands p reads failed self.now → result ≡ is_abort p reads }
    {
        self.aborts && self.steps > 0 && self.left.is_empty()
    }

    /// Makes the next read step, which is not the abort: the channel becomes active; or a burst comes, each chunk as a
    /// read and each user event as it is, and then its completion; or the end comes.
    pub(crate) fn put_step(&mut self, outputs: &mut Outputs)
        requires left { self.old.port.is_open ≡ true }
        requires no_abort { abort_next self.old ≡ false }
        requires place { HasPlaces outputs.old.stopped (self.old.port.lane ∷ []) }
        ensures after { self.new ≡ input_after_step self.old }
        ensures puts { PutsAll outputs.old (numbered self.old.port.lane self.old.port.made (next_items self.old.steps self.old.left)) outputs.new }
        ensures stands { (p : ReadPlan) (reads : ℕ) (failed : Bool) → InputStands p reads failed self.old → InputStands p (reads + 1) failed self.new }
        ensures items { (p : ReadPlan) (reads : ℕ) (failed : Bool) → InputStands p reads failed self.old → next_items self.old.steps self.old.left ≡ step_items (bursts_read p) reads }
    {
        let steps = self.steps;
        self.steps += 1;
        if steps == 0 {
            self.port.put(Item::Event(Event::Active), outputs);
            return;
        }
        match self.left.pop_front() {
            Some(elements) => put_burst(&mut self.port, elements.into_vec(), outputs),
            None => self.port.put(Item::End, outputs),
        }
    }

    /// One burst more is to be read, behind those that are left and before the end. An `Err` changes nothing.
    pub(crate) fn feed(&mut self, burst: Sequence<Element>) -> Result<(), AllocError>
        requires more { takes_bursts self.old ≡ true }
        requires few { self.old.port.made + items_left self.old.steps (self.old.left ++ burst ∷ []) < MAX_ITEMS }
        ensures feeds { OnOk result (InputFeeds burst self.old self.new) }
        ensures kept { OnErr result (self.new ≡ self.old) }
    {
        self.left.push_back(burst)?;
        Ok(())
    }

    /// Gives a failure to the lane, where that is open, and closes it: no read step is left.
    pub(crate) fn fail(&mut self, cause: Cause, outputs: &mut Outputs)
        requires place { HasPlaces outputs.old.stopped (self.old.port.lane ∷ []) }
        ensures after { self.new ≡ failed_input self.old }
        ensures puts { PutsAll outputs.old (offered self.old.port (item.Fail cause ∷ [])) outputs.new }
        ensures stands { self.old.port.is_open ≡ true → (p : ReadPlan) (reads : ℕ) (failed : Bool) → InputStands p reads failed self.old → InputStands p reads true self.new }
    {
        self.port.put(Item::Fail(cause), outputs);
    }
}

/// All of these bursts, or as many as come before an abort.
fn bursts_before(
    abort_after: Option<u32>,
    bursts: Sequence<Sequence<Element>>,
) -> Vec<Sequence<Element>>
    ensures { result.items ≡ bursts_before abort_after bursts }
{
    let mut left = bursts.into_vec();
    if let Some(count) = abort_after {
        left.truncate(count as usize);
    }
    left
}

/// Gives a burst to a lane: its elements in order, a chunk as a read and a user event as it is, and then its completion.
fn put_burst(port: &mut Port, elements: Vec<Element>, outputs: &mut Outputs)
    requires open { port.old.is_open ≡ true }
    requires place { HasPlaces outputs.old.stopped (port.old.lane ∷ []) }
    requires small { port.old.made + length (burst_events elements.items) < 2 ^ 40 }
    ensures port { port.new ≡ record port.old { made = port.old.made + length (burst_events elements.items) } }
    ensures puts { PutsAll outputs.old (numbered port.old.lane port.old.made (as_items (burst_events elements.items))) outputs.new }
{
    for element in elements {
        port.put(Item::Event(element.into_event()), outputs);
    }
    port.put(Item::Event(Event::ReadComplete), outputs);
}
