//! The taker's next numbers.

ghost use Rattle.std.specs.Prelude.{◌≡◌, ◌<◌, ◌≤◌, ◌++◌, map, IfOk, true};
ghost use Rattle.pl_queue.specs.Left.{lanes_of_senders};
ghost use Rattle.pl_queue.specs.Limits.{is_mailbox_within as is_within_limits};
ghost use Rattle.pl_queue.specs.Positions.{ArePositions};
ghost use Rattle.pl_queue.specs.Views.{set_take_count, fresh_take_counts, lanes_of_counts, has_lane};

use crate::limits::{MAX_CAPACITY, MAX_LANES, MAX_SENDERS};
use crate::positions::Positions;
use crate::views::TakeCount;
use pl_event::Lane;
use std::alloc::{AllocError, Global};

/// Sets the next number of a lane, at its position.
pub fn set_next(counts: &mut Vec<TakeCount>, positions: &Positions, lane: Lane, next: u64)
    requires positions { ArePositions positions.now.rows.items 0 (lanes_of_counts counts.old.items) }
    requires there { has_lane lane (lanes_of_counts counts.old.items) ≡ true }
    ensures { counts.new.items ≡ set_take_count lane next counts.old.items }
{
    let position = positions.find(lane);
    counts[position].next = next;
}

/// Adds a count at 0 for each of these lanes.
pub fn add_counts(counts: &mut Vec<TakeCount>, lanes: &[Lane]) -> Result<(), AllocError>
    ensures { IfOk result (λ _. counts.new.items ≡ counts.old.items ++ fresh_take_counts lanes.now) }
{
    for lane in lanes {
        counts.push(TakeCount {
            lane: *lane,
            next: 0,
        })?;
    }
    Ok(())
}

/// A count at 0 for each lane.
pub fn all_counts(alloc: Global, lanes: &[Vec<Lane>]) -> Result<Vec<TakeCount>, AllocError>
    ensures { IfOk result (λ v. v.items ≡ fresh_take_counts (lanes_of_senders (map (λ v. v.items) lanes.now))) }
{
    let mut counts = Vec::new(alloc);
    for own in lanes {
        add_counts(&mut counts, own.as_slice())?;
    }
    Ok(counts)
}

/// Whether capacity, senders and lanes are within the limits.
pub fn is_within(lanes: &[Vec<Lane>], capacity: usize) -> bool
    ensures { result ≡ is_within_limits (map (λ v. v.items) lanes.now) capacity }
{
    if capacity == 0 || capacity > MAX_CAPACITY || lanes.len() > MAX_SENDERS {
        return false;
    }
    let mut count = 0;
    for own in lanes {
        if own.len() > MAX_LANES - count {
            return false;
        }
        count += own.len();
    }
    true
}
