//! An executor's queue, and its backlog of what was made there for others (Netty's `SingleThreadEventExecutor`).

ghost use Rattle.std.specs.Prelude.{◌≡◌, ◌==◌, ◌+◌, ◌<◌, ◌^◌, ◌∷◌, ◌++◌, [], List, IfOk, OnOk, OnErr, IfNone, Some, map, filter, find, count_by, length, slice_get, nat_lt};
ghost use Rattle.std.specs.Option.{option_copied, option_to_list, option_map};
ghost use Rattle.pl_context.specs.Stops.{HasPlaces, no_stops};
ghost use Rattle.pl_context.specs.WaitingViews.{Entry, Holds, is_for, stops_for};
ghost use Rattle.pl_net.specs.Nets.{StationView, IsAdded, IsTakenOut, has_room};

use pl_context::Waiting;
use pl_event::Envelope;
use std::alloc::{AllocError, Global};
use std::collections::VecDeque;
use std::marker::Model;

/// What waits at an executor.
#[derive(Debug, Drop)]
pub struct Station {
    /// Handed over to it, and not taken.
    queue: VecDeque<Envelope>,
    /// What was made there and not handed over, by the executor that it is for.
    waiting: Waiting<()>,
}

impl Model for Station {
    ghost use Rattle.std.specs.Prelude.{◌-◌};
    ghost use Rattle.std.specs.VecDeque.{deque_len, deque_capacity};
    ghost use Rattle.pl_net.specs.Nets.{StationView};

    ghost Value = { StationView };

    ghost view = { λ e. record { queue = e.queue.items; waiting = e.waiting; room = deque_capacity e.queue - deque_len e.queue } };
}

impl Station {
    /// One at which nothing waits. For each executor it has places for that number of lanes.
    pub fn new(alloc: Global, places: &[u16]) -> Result<Self, AllocError>
        ensures queue { IfOk result (λ e. e.queue ≡ []) }
        ensures waiting { IfOk result (λ e. Holds e.waiting []) }
        ensures places { IfOk result (λ e. map (λ b. b.stopped) e.waiting.targets ≡ map no_stops places.now) }
        ensures added { IfOk result (λ e. e.waiting.added ≡ 0) }
    {
        Ok(Station {
            queue: VecDeque::new(alloc),
            waiting: Waiting::new(alloc, places)?,
        })
    }

    /// What was handed over to it and not taken, the oldest first.
    pub fn queue(&self) -> &VecDeque<Envelope>
        ensures { result.now.items ≡ self.now.queue }
    {
        &self.queue
    }

    /// The item at a position among those of its backlog for an executor, counted from the oldest: None past the last.
    pub fn backlog_at(&self, target: usize, index: usize) -> Option<&Envelope>
        ensures { (entries : List (Entry Unit)) → Holds self.now.waiting entries → option_copied result ≡ slice_get (map (λ entry. entry.envelope) (filter (is_for target) entries)) index }
    {
        self.waiting.get(target, index)
    }

    /// How many items of its backlog are for an executor.
    pub fn backlog_len(&self, target: usize) -> usize
        ensures { (entries : List (Entry Unit)) → Holds self.now.waiting entries → result ≡ count_by (is_for target) entries }
    {
        self.waiting.count(target)
    }

    /// Whether its backlog is empty.
    pub fn backlog_is_empty(&self) -> bool
        ensures { (entries : List (Entry Unit)) → Holds self.now.waiting entries → result ≡ (length entries == 0) }
    {
        self.waiting.is_empty()
    }

    /// Takes the front of the queue.
    pub(crate) fn next_task(&mut self) -> Option<Envelope>
        ensures front { self.old.queue ≡ option_to_list result ++ self.new.queue }
        ensures waiting { self.new.waiting ≡ self.old.waiting }
        ensures none { IfNone result ((self.old.queue ≡ []) × (self.new ≡ self.old)) }
    {
        self.queue.pop_front()
    }

    /// Whether its queue has room, where one holds `capacity` items.
    pub(crate) fn has_room(&self, capacity: usize) -> bool
        ensures { result ≡ nat_lt (length self.now.queue) capacity }
    {
        self.queue.len() < capacity
    }

    /// Makes room for one item in the queue. It is refused only where there was none.
    pub(crate) fn reserve(&mut self) -> Result<(), AllocError>
        ensures same { self.new ≡ record self.old { room = self.new.room } }
        ensures room { OnOk result (0 < self.new.room) }
        ensures refused { OnErr result (self.old.room ≡ 0) }
    {
        self.queue.reserve(1)
    }

    /// Puts an item at the end of the queue, for which there is memory.
    pub(crate) fn hand_over(&mut self, envelope: Envelope)
        requires room { 0 < self.old.room }
        ensures queue { self.new.queue ≡ self.old.queue ++ envelope ∷ [] }
        ensures waiting { self.new.waiting ≡ self.old.waiting }
    {
        self.queue.push_back_reserved(envelope);
    }

    /// Puts an item for another executor at the end of the backlog, or what stands in for it where memory is refused.
    pub(crate) fn add(&mut self, target: usize, envelope: Envelope)
        requires there { target < length self.old.waiting.targets }
        requires place { HasPlaces (stops_for self.old.waiting target) (envelope.lane ∷ []) }
        requires few { self.old.waiting.added + 1 < 2 ^ 64 }
        ensures { IsAdded self.old target envelope self.new }
    {
        self.waiting.add(target, envelope, ());
    }

    /// Takes the oldest item for an executor out of the backlog.
    pub(crate) fn take_for(&mut self, target: usize) -> Option<Envelope>
        ensures { IsTakenOut self.old target result self.new }
    {
        match self.waiting.take(target) {
            Some((envelope, ())) => Some(envelope),
            None => None,
        }
    }
}

/// The target of the oldest item of an executor's backlog whose queue has room, where a queue holds `capacity` items.
pub(crate) fn oldest_target(stations: &[Station], origin: usize, capacity: usize) -> Option<usize>
    requires there { origin < length stations.now }
    requires targets { (e : StationView) → slice_get stations.now origin ≡ Some e → length e.waiting.targets ≡ length stations.now }
    ensures { (e : StationView) (entries : List (Entry Unit)) → slice_get stations.now origin ≡ Some e → Holds e.waiting entries
        → result ≡ option_map (λ entry. entry.target) (find (λ entry. has_room stations.now capacity entry.target) entries) }
{
    let station = &stations[origin];
    station.waiting.oldest(
        |target|
            requires { target < length stations.now }
            ensures { result ≡ has_room stations.entry.now capacity target }
        { stations[target].has_room(capacity) },
    )
}
