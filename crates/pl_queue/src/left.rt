//! What is left in a mailbox at its end.

ghost use Rattle.std.specs.Prelude.{◌≡◌, ◌<◌, ◌^◌, map, IfOk, true};
ghost use Rattle.pl_queue.specs.Left.{held_of, lanes_left, put_held, unheld};
ghost use Rattle.pl_queue.specs.Positions.{ArePositions};
ghost use Rattle.pl_queue.specs.Views.{has_lane};

use crate::positions::Positions;
use crate::views::TakeCount;
use pl_event::{Envelope, Lane};
use std::alloc::{AllocError, Global};

/// A lane at the end: the numbers handed and taken, and the envelopes left.
#[derive(Debug, Drop)]
pub struct LaneLeft {
    pub lane: Lane,
    /// How many its sender handed over: the numbers below this one.
    pub handed: u64,
    /// How many the taker took.
    pub taken: u64,
    /// The others, in order.
    pub left: Vec<Envelope>,
}

/// One entry for each lane, in the order in which the mailbox was opened.
#[derive(Debug, Drop)]
pub struct Left {
    pub lanes: Vec<LaneLeft>,
}

/// Entries with nothing left yet.
pub fn entries(alloc: Global, counts: &[TakeCount]) -> Result<Vec<LaneLeft>, AllocError>
    ensures { IfOk result (λ v. map held_of v.items ≡ map unheld counts.now) }
{
    let mut all = Vec::new(alloc);
    for count in counts {
        all.push(LaneLeft {
            lane: count.lane,
            handed: count.next,
            taken: count.next,
            left: Vec::new(alloc),
        })?;
    }
    Ok(all)
}

/// Puts an envelope into its lane's entry.
pub fn put(
    entries: &mut Vec<LaneLeft>,
    positions: &Positions,
    envelope: Envelope,
) -> Result<(), AllocError>
    requires small { envelope.number < 2 ^ 32 }
    requires positions { ArePositions positions.now.rows.items 0 (lanes_left (map held_of entries.old.items)) }
    requires there { has_lane envelope.lane (lanes_left (map held_of entries.old.items)) ≡ true }
    ensures { IfOk result (λ _. map held_of entries.new.items ≡ put_held envelope (map held_of entries.old.items)) }
{
    let entry = &mut entries[positions.find(envelope.lane)];
    entry.handed = envelope.number + 1;
    entry.left.push(envelope)?;
    Ok(())
}
