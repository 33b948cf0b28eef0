//! Executors of which one runs at a time.

ghost use Rattle.std.specs.Prelude.{◌≡◌, ◌<◌, ◌≤◌, ◌+◌, [], ℕ, List, Some, None, Ok, OnErr, find, position, slice_get, IfOk, vec_len, false, true};
ghost use Rattle.std.specs.Option.{option_copied, option_map};
ghost use Rattle.pl_event.specs.Worlds.{World};
ghost use Rattle.pl_context.specs.Stops.{HasPlaces, any_stopped, no_stops};
ghost use Rattle.pl_context.specs.WaitingViews.{Entry, is_for};
ghost use Rattle.pl_net.specs.Nets.{StationsStand, IsStart, no_backlogs, IsStep, WorksListOff, RunsTask, Gives, AbortsHead, HandsOver, LacksMemory, has_room, memory_at, queue_at, done_by};

use crate::nodes::Nodes;
use crate::station::{Station, oldest_target};
use crate::watching::{NoWatch, Watch};
use pl_context::Outputs;
use pl_flow::HeadMove;
use std::alloc::{AllocError, Global};

/// The nodes of all channels, and what is on its way between their executors.
#[derive(Drop)]
pub struct Stations<N: Nodes + Drop> {
    /// How many items a queue holds at most.
    pub(crate) capacity: usize,
    /// The nodes.
    pub nodes: N,
    pub(crate) stations: Vec<Station>,
    /// What the running executor has still to take or to add to its backlog. Empty between two moves.
    pub(crate) work: Outputs,
}

impl<N: Nodes + Drop> Stations<N> {
    ghost use Rattle.pl_net.specs.Stations.{stations_view, IsUnmoved, IsUnmovedButRoom};

    /// Nodes that have taken nothing, and executors at which nothing waits, whose queues hold at most `capacity` items
    /// each. There are so many places on the work list, and nothing has stopped there.
    pub fn new(
        alloc: Global,
        capacity: usize,
        nodes: N,
        stations: Vec<Station>,
        places: u16,
    ) -> Result<Self, AllocError>
        requires start { IsStart (N.view_of nodes) stations.items }
        requires places { HasPlaces (no_stops places) (N.view_of nodes).lanes.places }
        ensures nodes { IfOk result (λ stations. stations.nodes ≡ nodes) }
        ensures stations { IfOk result (λ made. made.stations.items ≡ stations.items) }
        ensures capacity { IfOk result (λ stations. stations.capacity ≡ capacity) }
        ensures rests { IfOk result (λ stations. stations.work.items ≡ []) }
        ensures unstopped { IfOk result (λ stations. stations.work.stopped ≡ no_stops places) }
        ensures stands { IfOk result (λ stations. (world : World) (x : ℕ) → N.stands world nodes → StationsStand N.view_of N.stands world x (stations_view stations no_backlogs)) }
    {
        Ok(Stations {
            capacity,
            nodes,
            stations,
            work: Outputs::new(alloc, places)?,
        })
    }

    /// How many executors there are.
    pub fn executors(&self) -> usize
        ensures { result ≡ vec_len self.now.stations }
    {
        self.stations.len()
    }

    /// What waits at an executor: None where it is not there.
    pub fn station(&self, executor: usize) -> Option<&Station>
        ensures { option_copied result ≡ slice_get self.now.stations.items executor }
    {
        self.stations.get(executor)
    }

    /// The executor to which `hand` would hand over: that of the oldest item of the backlog whose queue has room. None where
    /// there is none.
    pub fn next_target(&self, me: usize) -> Option<usize>
        requires there { me < vec_len self.now.stations }
        requires stands { (world : World) × (x : ℕ) × (backlogs : ℕ → List (Entry Unit)) × StationsStand N.view_of N.stands world x (stations_view self.now backlogs) }
        ensures { (world : World) (x : ℕ) (backlogs : ℕ → List (Entry Unit)) → StationsStand N.view_of N.stands world x (stations_view self.now backlogs)
            → result ≡ option_map (λ entry. entry.target) (find (λ entry. has_room self.now.stations.items self.now.capacity entry.target) (backlogs me)) }
    {
        oldest_target(&self.stations, me, self.capacity)
    }

    /// Whether a lane has stopped on the work list: memory ran out for an item of it.
    pub fn has_stopped(&self) -> bool
        ensures { result ≡ any_stopped self.now.work.stopped }
    {
        self.work.has_stopped()
    }

    /// The nodes, and the rest is given up.
    pub fn into_nodes(self) -> N
        ensures { result ≡ self.nodes }
    {
        let Stations { nodes, .. } = self;
        nodes
    }

    /// The executor that runs takes the front of its list: a direct call, or an item for another executor, which its
    /// backlog keeps. False where the list is empty.
    fn step<W: Watch>(&mut self, me: usize, watch: &mut W) -> bool
        requires there { me < vec_len self.old.stations }
        requires stands { (world : World) × (backlogs : ℕ → List (Entry Unit)) × StationsStand N.view_of N.stands world me (stations_view self.old backlogs) }
        ensures steps { result ≡ true → (world : World) (backlogs : ℕ → List (Entry Unit)) → StationsStand N.view_of N.stands world me (stations_view self.old backlogs)
            → (after : ℕ → List (Entry Unit)) × StationsStand N.view_of N.stands world me (stations_view self.new after) × IsStep N.view_of N.takes me (stations_view self.old backlogs) (stations_view self.new after) }
        ensures more { result ≡ true → done_by (N.view_of self.old.nodes) me self.old.stations.items + 1 ≤ done_by (N.view_of self.new.nodes) me self.new.stations.items }
        ensures empty { result ≡ false → (self.old.work.items ≡ []) × (self.new ≡ self.old) }
        ensures capacity { self.new.capacity ≡ self.old.capacity }
        ensures count { vec_len self.new.stations ≡ vec_len self.old.stations }
    {
        let Some(envelope) = self.work.next() else {
            return false;
        };
        let target = self.nodes.target(envelope.lane);
        watch.see(me, target, &envelope);
        if target == me {
            self.nodes.take(envelope, &mut self.work);
        } else {
            self.stations[me].add(target, envelope);
        }
        true
    }

    /// The executor that runs works its list off.
    fn work_off<W: Watch>(&mut self, me: usize, watch: &mut W)
        requires there { me < vec_len self.old.stations }
        requires stands { (world : World) × (backlogs : ℕ → List (Entry Unit)) × StationsStand N.view_of N.stands world me (stations_view self.old backlogs) }
        ensures settles { (world : World) (backlogs : ℕ → List (Entry Unit)) → StationsStand N.view_of N.stands world me (stations_view self.old backlogs)
            → (after : ℕ → List (Entry Unit)) × StationsStand N.view_of N.stands world me (stations_view self.new after) × WorksListOff N.view_of N.takes me (stations_view self.old backlogs) (stations_view self.new after) }
        ensures capacity { self.new.capacity ≡ self.old.capacity }
        ensures empty { self.new.work.items ≡ [] }
        ensures count { vec_len self.new.stations ≡ vec_len self.old.stations }
    {
        // Each step takes an item, and there are fewer items than this.
        for _ in 0..u64::MAX {
            if !self.step(me, watch) {
                return;
            }
        }
        unreachable!()
    }

    /// The front of an executor's queue is taken, with its direct calls. False where the queue is empty. `watch` sees each item
    /// that is in hand.
    pub fn run_task<W: Watch>(&mut self, me: usize, watch: &mut W) -> bool
        requires there { me < vec_len self.old.stations }
        requires rests { self.old.work.items ≡ [] }
        requires stands { (world : World) × (backlogs : ℕ → List (Entry Unit)) × StationsStand N.view_of N.stands world me (stations_view self.old backlogs) }
        ensures runs { result ≡ true → (world : World) (backlogs : ℕ → List (Entry Unit)) → StationsStand N.view_of N.stands world me (stations_view self.old backlogs)
            → (after : ℕ → List (Entry Unit)) × StationsStand N.view_of N.stands world me (stations_view self.new after)
            × RunsTask N.view_of N.takes me (stations_view self.old backlogs) (stations_view self.new after) }
        ensures rests { self.new.work.items ≡ [] }
        ensures idle { result ≡ false → (queue_at self.old.stations.items me ≡ []) × IsUnmoved self.old self.new }
        ensures capacity { self.new.capacity ≡ self.old.capacity }
        ensures count { vec_len self.new.stations ≡ vec_len self.old.stations }
    {
        match self.stations[me].next_task() {
            None => false,
            Some(envelope) => {
                watch.see(me, me, &envelope);
                self.nodes.take(envelope, &mut self.work);
                self.work_off(me, watch);
                true
            }
        }
    }

    /// A move of a channel's head, with its direct calls: its next read step, or a write to its transport. False where none is
    /// left or it is held, and where no flushed byte waits or the head has failed by itself. `watch` sees each item that is in
    /// hand.
    pub fn move_head<W: Watch>(&mut self, by: HeadMove, channel: usize, watch: &mut W) -> bool
        requires there { channel < (N.view_of self.old.nodes).channels }
        requires home { (N.view_of self.old.nodes).home channel < vec_len self.old.stations }
        requires rests { self.old.work.items ≡ [] }
        requires stands { (world : World) × (x : ℕ) × (backlogs : ℕ → List (Entry Unit)) × StationsStand N.view_of N.stands world x (stations_view self.old backlogs) }
        ensures enabled { N.may_move self.old.nodes by channel result }
        ensures runs { result ≡ true → (world : World) (x : ℕ) (backlogs : ℕ → List (Entry Unit)) → StationsStand N.view_of N.stands world x (stations_view self.old backlogs)
            → (after : ℕ → List (Entry Unit)) × StationsStand N.view_of N.stands world ((N.view_of self.old.nodes).home channel) (stations_view self.new after)
            × Gives N.view_of N.takes N.moves ((N.view_of self.old.nodes).home channel) by channel (stations_view self.old backlogs) (stations_view self.new after) }
        ensures rests { self.new.work.items ≡ [] }
        ensures idle { result ≡ false → self.new ≡ self.old }
        ensures capacity { self.new.capacity ≡ self.old.capacity }
        ensures count { vec_len self.new.stations ≡ vec_len self.old.stations }
    {
        let home = self.nodes.home(channel);
        if !self.nodes.move_head(by, channel, &mut self.work) {
            return false;
        }
        self.work_off(home, watch);
        true
    }

    /// A channel is aborted, with the direct calls that follow: its head fails, where it has not.
    pub fn abort(&mut self, channel: usize)
        requires there { channel < (N.view_of self.old.nodes).channels }
        requires home { (N.view_of self.old.nodes).home channel < vec_len self.old.stations }
        requires rests { self.old.work.items ≡ [] }
        requires stands { (world : World) × (x : ℕ) × (backlogs : ℕ → List (Entry Unit)) × StationsStand N.view_of N.stands world x (stations_view self.old backlogs) }
        ensures aborts { (world : World) (x : ℕ) (backlogs : ℕ → List (Entry Unit)) → StationsStand N.view_of N.stands world x (stations_view self.old backlogs)
            → (after : ℕ → List (Entry Unit)) × StationsStand N.view_of N.stands world ((N.view_of self.old.nodes).home channel) (stations_view self.new after)
            × AbortsHead N.view_of N.takes N.aborts ((N.view_of self.old.nodes).home channel) channel (stations_view self.old backlogs) (stations_view self.new after) }
        ensures rests { self.new.work.items ≡ [] }
        ensures capacity { self.new.capacity ≡ self.old.capacity }
        ensures count { vec_len self.new.stations ≡ vec_len self.old.stations }
    {
        let home = self.nodes.home(channel);
        self.nodes.abort(channel, &mut self.work);
        self.work_off(home, &mut NoWatch);
    }

    /// The oldest item of an executor's backlog whose target has room goes into its queue. False where there is none.
    ///
    /// Error: the queue of that item, which has room, could not grow. Nothing was handed over.
    pub fn hand(&mut self, me: usize) -> Result<bool, AllocError>
        requires there { me < vec_len self.old.stations }
        requires stands { (world : World) × (x : ℕ) × (backlogs : ℕ → List (Entry Unit)) × StationsStand N.view_of N.stands world x (stations_view self.old backlogs) }
        ensures hands { result ≡ Ok true → (world : World) (x : ℕ) (backlogs : ℕ → List (Entry Unit)) → StationsStand N.view_of N.stands world x (stations_view self.old backlogs)
            → (after : ℕ → List (Entry Unit)) × StationsStand N.view_of N.stands world x (stations_view self.new after)
            × ((i : ℕ) × (position (λ entry. has_room self.old.stations.items self.old.capacity entry.target) (backlogs me) ≡ Some i) × HandsOver me i (stations_view self.old backlogs) (stations_view self.new after)) }
        ensures none { result ≡ Ok false → (world : World) (x : ℕ) (backlogs : ℕ → List (Entry Unit)) → StationsStand N.view_of N.stands world x (stations_view self.old backlogs)
            → position (λ entry. has_room self.old.stations.items self.old.capacity entry.target) (backlogs me) ≡ None }
        ensures idle { result ≡ Ok false → self.new ≡ self.old }
        ensures err { OnErr result (IsUnmovedButRoom self.old self.new) }
        ensures stays { OnErr result ((world : World) (x : ℕ) (backlogs : ℕ → List (Entry Unit)) → StationsStand N.view_of N.stands world x (stations_view self.old backlogs) → StationsStand N.view_of N.stands world x (stations_view self.new backlogs)) }
        // A queue is to grow only for an item that has room there, and where it has no memory for one more.
        ensures wanted { OnErr result ((world : World) (x : ℕ) (backlogs : ℕ → List (Entry Unit)) → StationsStand N.view_of N.stands world x (stations_view self.old backlogs)
            → (i : ℕ) × (position (λ entry. has_room self.old.stations.items self.old.capacity entry.target) (backlogs me) ≡ Some i)) }
        ensures refused { OnErr result ((world : World) (x : ℕ) (backlogs : ℕ → List (Entry Unit)) → StationsStand N.view_of N.stands world x (stations_view self.old backlogs) → LacksMemory self.old.capacity me (stations_view self.old backlogs)) }
        ensures capacity { self.new.capacity ≡ self.old.capacity }
        ensures count { vec_len self.new.stations ≡ vec_len self.old.stations }
    {
        match self.next_target(me) {
            None => Ok(false),
            Some(target) => {
                self.stations[target].reserve()?;
                self.hand_to(me, target);
                Ok(true)
            }
        }
    }

    /// The oldest item of an executor's backlog for a target goes into the queue of that, which has memory for it.
    fn hand_to(&mut self, me: usize, target: usize)
        requires there { (me < vec_len self.old.stations) × (target < vec_len self.old.stations) }
        requires memory { 0 < memory_at self.old.stations.items target }
        requires stands { (world : World) × (x : ℕ) × (backlogs : ℕ → List (Entry Unit)) × (i : ℕ) × StationsStand N.view_of N.stands world x (stations_view self.old backlogs) × (position (is_for target) (backlogs me) ≡ Some i) }
        ensures hands { (world : World) (x : ℕ) (backlogs : ℕ → List (Entry Unit)) (i : ℕ) → StationsStand N.view_of N.stands world x (stations_view self.old backlogs) → position (is_for target) (backlogs me) ≡ Some i
            → (after : ℕ → List (Entry Unit)) × StationsStand N.view_of N.stands world x (stations_view self.new after) × HandsOver me i (stations_view self.old backlogs) (stations_view self.new after) }
        ensures capacity { self.new.capacity ≡ self.old.capacity }
        ensures count { vec_len self.new.stations ≡ vec_len self.old.stations }
    {
        match self.stations[me].take_for(target) {
            Some(envelope) => self.stations[target].hand_over(envelope),
            None => unreachable!(),
        }
    }
}
