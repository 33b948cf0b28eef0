//! The same over either box.

ghost use Rattle.std.specs.Prelude.{◌≡◌, ◌<◌, ◌^◌, false, Some};
ghost use Rattle.pl_event.specs.declared.envelopes.Kind.TheVariants.{Data};
ghost use Rattle.pl_event.specs.Hops.{same_lane};
ghost use Rattle.pl_event.specs.Worlds.{content_of};
ghost use Rattle.pl_queue_tests.specs.Lines.{CarriesLines};
ghost use Rattle.pl_queue_tests.specs.Relays.{lane_events};

use crate::lines::{LaneLines, two_threads_hand_over_lines};
use crate::tests::answering::{Answer, answers, looks};
use crate::tests::leaving::{Stopped, leave_one};
use crate::tests::relays::{Lanes, Relayed, relay};
use pl_event::{Envelope, Lane, Named};
use pl_queue::{Mailbox, RingBox, WaitingBox};
use std::alloc::Global;
use std::sync::Wait;
use std::thread::Threads;

/// Which box.
#[derive(Clone, Copy, Debug, PartialEq, Eq)]
pub enum BoxKind {
    /// The lock-free ring.
    Ring,
    /// The channel that waits for room.
    Waiting,
}

/// Both of them.
pub const EACH: [BoxKind; 2] = [BoxKind::Ring, BoxKind::Waiting];

/// Whether who offers to it may wait for room.
pub fn may_wait_by<W: Named>(kind: BoxKind) -> bool {
    match kind {
        BoxKind::Ring => <RingBox<W> as Mailbox<W>>::may_wait(),
        BoxKind::Waiting => <WaitingBox<W> as Mailbox<W>>::may_wait(),
    }
}

/// [`answers`] over a box. More than 2 offers to a `WaitingBox` wait for ever.
pub fn answers_by<W: Named, R: Wait>(
    kind: BoxKind,
    rt: &R,
    alloc: Global,
    offers: u32,
) -> Option<Vec<Answer>> {
    match kind {
        BoxKind::Ring => answers::<W, RingBox<W>, R>(rt, alloc, offers),
        BoxKind::Waiting => answers::<W, WaitingBox<W>, R>(rt, alloc, offers),
    }
}

/// [`looks`] over a box.
pub fn looks_by<W: Named, R: Wait>(
    kind: BoxKind,
    rt: &R,
    alloc: Global,
) -> Option<[(bool, bool); 4]> {
    match kind {
        BoxKind::Ring => looks::<W, RingBox<W>, R>(rt, alloc),
        BoxKind::Waiting => looks::<W, WaitingBox<W>, R>(rt, alloc),
    }
}

/// [`leave_one`] over a box.
pub fn leave_one_by<W: Named, R: Wait>(
    kind: BoxKind,
    rt: &R,
    alloc: Global,
    lane: Lane,
) -> Result<Relayed, Stopped>
    requires world { (lane.kind ≡ Data) × (content_of W.world lane ≡ Some (lane_events 2)) }
{
    match kind {
        BoxKind::Ring => leave_one::<W, RingBox<W>, R>(rt, alloc, lane),
        BoxKind::Waiting => leave_one::<W, WaitingBox<W>, R>(rt, alloc, lane),
    }
}

/// [`relay`] over a box.
pub fn relay_by<W: Named + Send + Sync, R: Threads + Wait + Sync>(
    kind: BoxKind,
    rt: &R,
    alloc: Global,
    lanes: Lanes,
    capacity: usize,
) -> Option<Relayed>
    requires apart { same_lane lanes.first lanes.second ≡ false }
    requires small { lanes.last < 2 ^ 31 }
    requires first { (lanes.first.kind ≡ Data) × (content_of W.world lanes.first ≡ Some (lane_events lanes.last)) }
    requires second { (lanes.second.kind ≡ Data) × (content_of W.world lanes.second ≡ Some (lane_events lanes.last)) }
{
    match kind {
        BoxKind::Ring => relay::<W, RingBox<W>, R>(rt, alloc, lanes, capacity),
        BoxKind::Waiting => relay::<W, WaitingBox<W>, R>(rt, alloc, lanes, capacity),
    }
}

/// [`two_threads_hand_over_lines`] over a box.
pub fn lines_by<W: Named + Send + Sync, R: Threads + Wait + Sync>(
    kind: BoxKind,
    rt: &R,
    alloc: Global,
    first: LaneLines,
    second: LaneLines,
) -> Option<Vec<Envelope>>
    requires apart { same_lane first.lane second.lane ≡ false }
    requires first { CarriesLines W.world first.lane first.lines.items }
    requires second { CarriesLines W.world second.lane second.lines.items }
{
    match kind {
        BoxKind::Ring => {
            two_threads_hand_over_lines::<W, RingBox<W>, R>(rt, alloc, first, second)
        }
        BoxKind::Waiting => {
            two_threads_hand_over_lines::<W, WaitingBox<W>, R>(rt, alloc, first, second)
        }
    }
}
