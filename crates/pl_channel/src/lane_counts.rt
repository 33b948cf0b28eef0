//! The lanes between executors, counted.

ghost use Rattle.std.specs.Prelude.{◌≡◌, ◌+◌, ◌<◌, ◌^◌, IfOk, length, map, get_or, set, replicate};
ghost use Rattle.std.specs.List.{range_with_len};
ghost use Rattle.pl_part.specs.Paths.{writer_hop};
ghost use Rattle.pl_channel.specs.Channels.{data_lanes_of, executor_at};
ghost use Rattle.pl_channel.specs.Ways.{HasExecutors, ArePlaceable, HasRoom, Counts, one_more, lanes_between, hops_between};

use pl_event::Stage;
use pl_head::Transport;
use pl_part::ChannelPart;
use std::alloc::{AllocError, Global};

/// For each executor how many data lanes there are from it to each: they are counted in one walk over the lanes.
pub fn places_between<S: Stage, T: Transport>(
    alloc: Global,
    count: usize,
    parts: &[ChannelPart<S, T>],
) -> Result<Vec<Vec<u16>>, AllocError>
    requires { ArePlaceable parts.now }
    ensures { IfOk result (λ table. map (λ row. row.items) table.items ≡ map (λ x. map (λ y. length (lanes_between parts.now x y)) (range_with_len 0 count)) (range_with_len 0 count)) }
{
    let mut table = no_places(alloc, count)?;
    for part in parts {
        count_part(&mut table, part);
    }
    Ok(table)
}

/// A table in which no lane is counted.
fn no_places(alloc: Global, count: usize) -> Result<Vec<Vec<u16>>, AllocError>
    ensures { IfOk result (λ table. map (λ row. row.items) table.items ≡ replicate count (replicate count 0)) }
{
    let mut table = Vec::with_capacity(alloc, count)?;
    for _ in 0..count {
        table.push(vec![in alloc; 0; count]?)?;
    }
    Ok(table)
}

/// Counts the lanes of a part.
fn count_part<S: Stage, T: Transport>(table: &mut Vec<Vec<u16>>, part: &ChannelPart<S, T>)
    requires hops { HasExecutors part.now }
    requires room { HasRoom (map (λ row. row.items) table.old.items) (λ x y. length (hops_between x y part.now)) }
    ensures { Counts (map (λ row. row.items) table.old.items) (map (λ row. row.items) table.new.items) (λ x y. length (hops_between x y part.now)) }
{
    for hop in 0..part.hops() {
        count_lane(table, origin_of(part, hop), part.target(hop));
    }
}

/// The executor that the lanes of a hop come from.
pub fn origin_of<S: Stage, T: Transport>(part: &ChannelPart<S, T>, hop: usize) -> usize
    requires hops { HasExecutors part.now }
    requires there { hop < length part.now.path.executors }
    ensures { result ≡ executor_at part.now (writer_hop part.now.path hop) }
{
    part.target(part.writer(hop))
}

/// Counts a lane from one executor to another, if the table has both.
fn count_lane(table: &mut Vec<Vec<u16>>, origin: usize, target: usize)
    requires { HasRoom (map (λ row. row.items) table.old.items) (one_more origin target) }
    ensures { Counts (map (λ row. row.items) table.old.items) (map (λ row. row.items) table.new.items) (one_more origin target) }
{
    if origin < table.len() {
        count_in(&mut table[origin], target);
    }
}

/// One more at an index of a row, if the row has it.
fn count_in(row: &mut Vec<u16>, index: usize)
    requires { get_or row.old.items index 0 + 1 < 2 ^ 16 }
    ensures { row.new.items ≡ set row.old.items index (get_or row.old.items index 0 + 1) }
{
    if index < row.len() {
        row[index] += 1;
    }
}

/// How many data lanes all channels have.
pub fn lane_count<S: Stage, T: Transport>(parts: &[ChannelPart<S, T>]) -> u16
    requires { length (data_lanes_of parts.now) < 2 ^ 16 }
    ensures { result ≡ length (data_lanes_of parts.now) }
{
    let lanes: usize = parts.iter().map(|part| part.hops()).sum();
    lanes as u16
}
