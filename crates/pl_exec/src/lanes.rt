//! The lanes between executors.

ghost use Rattle.std.specs.Prelude.{◌≡◌, ◌+◌, ◌<◌, ◌^◌, ◌++◌, ◌∷◌, [], ℕ, ◌==◌, All, Some, cond, length, map, slice_get, IfOk, OnOk};
ghost use Rattle.std.specs.Global.{Vec};
ghost use Rattle.pl_part.specs.Paths.{writer_hop};
ghost use Rattle.pl_channel.specs.Channels.{executor_at};
ghost use Rattle.pl_channel.specs.Ways.{HasExecutors};
ghost use Rattle.pl_exec.specs.declared.lanes.WayIn.{WayIn};
ghost use Rattle.pl_exec.specs.Opening.{AreAllWays, AreBefore, GetLanes, lanes_in, lanes_with, way_by, way_if, ways_in};
ghost use Rattle.pl_exec.specs.Lanes.{AreLaid, lane_table, lanes_at, with_lane, with_lanes};

use pl_channel::origin_of;
use pl_event::{Kind, Lane, Stage};
use pl_head::Transport;
use pl_part::ChannelPart;
use std::alloc::{AllocError, Global};

/// A lane that an executor writes to another.
#[derive(Clone, Copy)]
pub(crate) struct Leaving {
    target: usize,
    lane: Lane,
}

/// A way to a target: the executor that has it, and the lanes between them.
#[derive(Drop)]
pub(crate) struct WayIn {
    pub(crate) origin: u16,
    pub(crate) lanes: Vec<Lane>,
}

impl WayIn {
    fn add(&mut self, lane: Lane) -> Result<(), AllocError>
        ensures origin { OnOk result (self.new.origin ≡ self.old.origin) }
        ensures lanes { OnOk result (self.new.lanes.items ≡ self.old.lanes.items ++ lane ∷ []) }
    {
        self.lanes.push(lane)?;
        Ok(())
    }
}

/// For each executor the lanes that it writes to others: one walk over the hops of all channels.
pub(crate) fn lane_table<S: Stage, T: Transport>(
    alloc: Global,
    parts: &[ChannelPart<S, T>],
    count: usize,
) -> Result<Vec<Vec<Leaving>>, AllocError>
    requires { AreLaid parts.now }
    ensures { IfOk result (λ table. lanes_in table.items ≡ lane_table parts.now count) }
{
    let mut table = empty_lists(alloc, count)?;
    let mut channel = 0;
    for part in parts {
        let hops = part.hops() as u16;
        for hop in 0..hops {
            add_hop(&mut table, channel, part, hop)?;
        }
        channel += 1;
    }
    Ok(table)
}

pub(crate) fn empty_lists<A: Drop>(alloc: Global, count: usize) -> Result<Vec<Vec<A>>, AllocError>
    ensures count { IfOk result (λ lists. length lists.items ≡ count) }
    ensures none { IfOk result (λ lists. All (λ list. list.items ≡ []) lists.items) }
{
    let mut lists = Vec::with_capacity(alloc, count)?;
    for _number in 0..count {
        lists.push(Vec::new(alloc))?;
    }
    Ok(lists)
}

/// Adds the lanes of a hop of the channel with this number to those between the two executors: one with data and one with
/// flags, but of the last hop, the head's, data alone.
fn add_hop<S: Stage, T: Transport>(
    table: &mut Vec<Vec<Leaving>>,
    channel: u16,
    part: &ChannelPart<S, T>,
    hop: u16,
) -> Result<(), AllocError>
    requires hops { HasExecutors part.now }
    requires there { hop < length part.now.path.executors }
    ensures { OnOk result (lanes_in table.new.items ≡ with_lanes (lanes_in table.old.items) (executor_at part.now (writer_hop part.now.path hop)) (executor_at part.now hop) (lanes_at channel (length part.now.path.executors) hop)) }
{
    let origin = origin_of(part, hop as usize);
    let target = part.target(hop as usize);
    let mut lane = Lane {
        channel,
        kind: Kind::Data,
        hop,
    };
    add_between(table, origin, target, lane)?;
    if (hop as usize) < part.head_hop() {
        lane.kind = Kind::Flags;
        add_between(table, origin, target, lane)?;
    }
    Ok(())
}

/// Adds a lane to those from one executor to another. From one to itself none is added.
fn add_between(
    table: &mut Vec<Vec<Leaving>>,
    origin: usize,
    target: usize,
    lane: Lane,
) -> Result<(), AllocError>
    ensures { OnOk result (lanes_in table.new.items ≡ with_lane (lanes_in table.old.items) origin target lane) }
{
    if origin != target && origin < table.len() {
        table[origin].push(Leaving { target, lane })?;
    }
    Ok(())
}

/// For each target the ways to it, in the order of the executors that have them: one walk over these and their lanes.
pub(crate) fn ways_by_target(
    alloc: Global,
    lanes: Vec<Vec<Leaving>>,
) -> Result<Vec<Vec<WayIn>>, AllocError>
    requires few { length lanes.items < 2 ^ 16 }
    ensures { IfOk result (λ table. AreAllWays (lanes_in lanes.items) table.items) }
{
    let mut table = empty_lists(alloc, lanes.len())?;
    let mut origin = 0;
    for row in lanes {
        add_origin(alloc, &mut table, origin, row)?;
        origin += 1;
    }
    Ok(table)
}

/// Adds the ways of an executor that writes these lanes: one to itself, and one to each target of a lane. All others there
/// are of executors before it.
fn add_origin(
    alloc: Global,
    table: &mut Vec<Vec<WayIn>>,
    origin: usize,
    lanes: Vec<Leaving>,
) -> Result<(), AllocError>
    requires there { origin < length table.old.items }
    requires few { origin < 2 ^ 16 }
    ensures count { OnOk result (length table.new.items ≡ length table.old.items) }
    ensures added { OnOk result ((target : ℕ) (before after : Vec WayIn) → slice_get table.old.items target ≡ Some before → slice_get table.new.items target ≡ Some after → AreBefore origin (ways_in before.items) → ways_in after.items ≡ ways_in before.items ++ way_if target origin (lanes_with lanes.items target)) }
{
    let number = origin as u16;
    add_way(alloc, &mut table[origin], number)?;
    for leaving in lanes {
        add_leaving(alloc, table, number, leaving)?;
    }
    Ok(())
}

/// Adds a lane of the executor that comes last there to the ways to its target, if the table has this.
fn add_leaving(
    alloc: Global,
    table: &mut Vec<Vec<WayIn>>,
    origin: u16,
    leaving: Leaving,
) -> Result<(), AllocError>
    ensures count { OnOk result (length table.new.items ≡ length table.old.items) }
    ensures added { OnOk result ((target : ℕ) (before after : Vec WayIn) → slice_get table.old.items target ≡ Some before → slice_get table.new.items target ≡ Some after → GetLanes target origin (cond (leaving.target == target) (leaving.lane ∷ []) []) (ways_in before.items) (ways_in after.items)) }
{
    if leaving.target < table.len() {
        add_lane(alloc, &mut table[leaving.target], origin, leaving.lane)?;
    }
    Ok(())
}

/// Adds a lane of the executor that comes last to the ways to a target: to its own way, if there is one, or with a new one.
fn add_lane(alloc: Global, ways: &mut Vec<WayIn>, origin: u16, lane: Lane) -> Result<(), AllocError>
    ensures { OnOk result ((target : ℕ) → GetLanes target origin (lane ∷ []) (ways_in ways.old.items) (ways_in ways.new.items)) }
{
    let count = ways.len();
    if count > 0 {
        add_behind(alloc, ways, count - 1, origin, lane)?;
        return Ok(());
    }
    add_new(alloc, ways, origin, lane)?;
    Ok(())
}

/// Does so where there are ways, of which this is the last.
fn add_behind(
    alloc: Global,
    ways: &mut Vec<WayIn>,
    last: usize,
    origin: u16,
    lane: Lane,
) -> Result<(), AllocError>
    requires there { last < length ways.old.items }
    requires last { last + 1 ≡ length ways.old.items }
    ensures { OnOk result ((target : ℕ) → GetLanes target origin (lane ∷ []) (ways_in ways.old.items) (ways_in ways.new.items)) }
{
    if ways[last].origin == origin {
        ways[last].add(lane)?;
        return Ok(());
    }
    add_new(alloc, ways, origin, lane)?;
    Ok(())
}

/// The first lane of the executor that comes last makes its way.
fn add_new(alloc: Global, ways: &mut Vec<WayIn>, origin: u16, lane: Lane) -> Result<(), AllocError>
    ensures { OnOk result (ways_in ways.new.items ≡ ways_in ways.old.items ++ way_by origin (lane ∷ []) ∷ []) }
{
    let mut lanes = Vec::new(alloc);
    lanes.push(lane)?;
    ways.push(WayIn { origin, lanes })?;
    Ok(())
}

/// The way of an executor to itself, by which nothing goes: a mailbox has one sender at least.
fn add_way(alloc: Global, ways: &mut Vec<WayIn>, origin: u16) -> Result<(), AllocError>
    ensures { OnOk result (ways_in ways.new.items ≡ ways_in ways.old.items ++ way_by origin [] ∷ []) }
{
    ways.push(WayIn {
        origin,
        lanes: Vec::new(alloc),
    })?;
    Ok(())
}

/// The executors that have these ways, and by way its lanes.
pub(crate) fn split_ways(
    alloc: Global,
    ways: Vec<WayIn>,
) -> Result<(Vec<u16>, Vec<Vec<Lane>>), AllocError>
    ensures origins { IfOk result (λ r. r.0.items ≡ map (λ way. way.origin) (ways_in ways.items)) }
    ensures lanes { IfOk result (λ r. map (λ list. list.items) r.1.items ≡ map (λ way. way.lanes) (ways_in ways.items)) }
{
    let mut origins = Vec::with_capacity(alloc, ways.len())?;
    let mut lanes = Vec::with_capacity(alloc, ways.len())?;
    for way in ways {
        origins.push(way.origin)?;
        lanes.push(way.lanes)?;
    }
    Ok((origins, lanes))
}
