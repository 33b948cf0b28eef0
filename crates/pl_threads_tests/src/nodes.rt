//! The nodes of an executor in the tests: they make flags for two executors, and count those that come.

ghost use Rattle.std.specs.Prelude.{◌≡◌, ◌<◌, ◌+◌, ◌^◌, ◌%◌, ◌==◌, ◌||◌, ◌&&◌, ℕ, List, Bool, false, not, true};
ghost use Rattle.pl_event.specs.declared.envelopes.Item.TheVariants as item;
ghost use Rattle.pl_event.specs.declared.envelopes.Lane.{Lane};
ghost use Rattle.pl_context.specs.Stops.{HasPlaces};
ghost use Rattle.pl_flow.specs.LanesViews.{KeepsPlaces};
ghost use Rattle.pl_threads.specs.NodesViews.{LanesMake};
ghost use Rattle.pl_threads_tests.specs.Nodes.{HasEnded, NodeStands, has_given_up, has_made_all, is_enabled, lane_to, node_view, outlets_of};

use pl_context::Outputs;
use pl_event::{Envelope, Item, Kind, Lane, Named};
use pl_flow::HeadMove;
use pl_threads::OwnNodes;

/// The lane on which flags come to an executor.
pub(crate) fn lane_to(executor: u16) -> Lane
    ensures { result ≡ lane_to executor }
{
    Lane {
        channel: executor,
        kind: Kind::Flags,
        hop: executor,
    }
}

/// The flag with a number on the lane to an executor.
pub(crate) fn flag_to(executor: u16, number: u32) -> Envelope
    ensures lane { result.lane ≡ lane_to executor }
    ensures number { result.number ≡ number }
    ensures item { result.item ≡ item.Flag (number % 2 == 1) }
{
    Envelope {
        lane: lane_to(executor),
        number: u64::from(number),
        item: Item::Flag(number % 2 == 1),
    }
}

/// Flags for an executor, so many. Where none are to be made, nothing is ever sent there.
#[derive(Clone, Copy, Drop)]
pub(crate) struct Outlet {
    pub(crate) target: u16,
    pub(crate) count: u32,
    pub(crate) made: u32,
    /// One was refused there, so no more are made.
    pub(crate) is_refused: bool,
}

/// The nodes of an executor. A read step makes a flag for the first outlet, and where all of that were made for the second.
/// Or each flag that comes makes one, and no read step does.
#[derive(Drop)]
pub(crate) struct Node {
    pub(crate) executor: u16,
    pub(crate) first: Outlet,
    pub(crate) second: Outlet,
    /// Where a flag comes one is made, and no read step is enabled.
    forwards: bool,
    /// How many came.
    pub(crate) taken: u64,
    /// How many are to come before it has ended.
    expected: u64,
    /// How often a flag was refused.
    pub(crate) refusals: u32,
}

impl Outlet {
    pub(crate) fn new(target: u16, count: u32) -> Outlet
        ensures { result ≡ record { target = target; count = count; made = 0; is_refused = false } }
    {
        Outlet {
            target,
            count,
            made: 0,
            is_refused: false,
        }
    }

    /// Whether none is left to make.
    fn has_made_all(&self) -> bool
        ensures { result ≡ has_made_all self.now }
    {
        self.is_refused || self.count <= self.made
    }

    /// The next flag.
    fn next(&mut self) -> Envelope
        requires more { has_made_all self.old ≡ false }
        ensures same { self.new ≡ record self.old { made = self.old.made + 1 } }
        ensures lane { result.lane ≡ lane_to self.old.target }
        ensures number { result.number ≡ self.old.made }
        ensures item { result.item ≡ item.Flag (self.old.made % 2 == 1) }
        ensures small { result.number < 2 ^ 32 }
    {
        let number = self.made;
        self.made += 1;
        flag_to(self.target, number)
    }
}

impl Node {
    /// Nodes that have made nothing, and to which nothing has come.
    pub(crate) fn new(executor: u16, first: Outlet, second: Outlet, expected: u64) -> Node
        ensures { result ≡ record { executor = executor; first = first; second = second; forwards = false; taken = 0; expected = expected; refusals = 0 } }
    {
        Node {
            executor,
            first,
            second,
            forwards: false,
            taken: 0,
            expected,
            refusals: 0,
        }
    }

    /// The same nodes, but each flag that comes makes one, and no read step does.
    pub(crate) fn forwarding(mut self) -> Node
        ensures { result ≡ record self { forwards = true } }
    {
        self.forwards = true;
        self
    }

    /// Makes the next flag, for the first outlet or else for the second. False where none is left to make.
    fn make<W: Named>(&mut self, work: &mut Outputs) -> bool
        requires stands { NodeStands self.old }
        requires places { HasPlaces work.old.stopped (outlets_of self.old) }
        ensures enabled { result ≡ not (has_made_all self.old.first && has_made_all self.old.second) }
        ensures idle { result ≡ false → (self.new ≡ self.old) × (work.new ≡ work.old) }
        ensures same { self.new ≡ record self.old { first = record self.old.first { made = self.new.first.made }; second = record self.old.second { made = self.new.second.made } } }
        ensures placed { KeepsPlaces (outlets_of self.old) work.old.stopped work.new.stopped }
        ensures made { LanesMake W.world (node_view self.old).lanes work.old (node_view self.new).lanes work.new }
    {
        if !self.first.has_made_all() {
            let envelope = self.first.next();
            let _ = work.put(envelope);
            return true;
        }
        if !self.second.has_made_all() {
            let envelope = self.second.next();
            let _ = work.put(envelope);
            return true;
        }
        false
    }
}

impl<W: Named> OwnNodes<W> for Node {
    ghost view_of = { node_view };

    // Where a flag was refused no more are made for that executor.
    ghost acts = { record {
      takes = λ n envelope before n' after. n'.taken ≡ envelope.number + 1;
      refuses = λ n lane before n' after. after ≡ before;
      gave_up = λ n lane. has_given_up n lane ≡ true;
      moves = λ n by place before n' after. n'.taken ≡ n.taken;
    } };

    ghost may_move = { λ n by channel answer. answer ≡ is_enabled n by };

    // What a read step makes is told by the flags that come; nothing is ever written.
    ghost served = { λ n c. record { reads = 0; calls = 0 } };

    ghost are_over = { λ n. HasEnded n };

    ghost stands = { λ n. NodeStands n };

    fn target(&self, lane: Lane) -> usize {
        usize::from(lane.hop)
    }

    fn take(&mut self, envelope: Envelope, work: &mut Outputs) {
        self.taken = envelope.number + 1;
        if self.forwards {
            let _ = self.make::<W>(work);
        }
    }

    fn refuse(&mut self, lane: Lane, _work: &mut Outputs) {
        self.refusals = self.refusals.saturating_add(1);
        if lane.hop == self.first.target {
            self.first.is_refused = true;
        } else {
            self.second.is_refused = true;
        }
    }

    fn head_count(&self) -> usize {
        1
    }

    fn move_head(&mut self, by: HeadMove, _channel: usize, work: &mut Outputs) -> bool {
        match by {
            HeadMove::Read => !self.forwards && self.make::<W>(work),
            HeadMove::Out => false,
        }
    }

    fn has_ended(&self) -> bool {
        self.expected <= self.taken && self.first.has_made_all() && self.second.has_made_all()
    }
}
