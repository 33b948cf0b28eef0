//! Mailboxes as they are opened, and what `open` answers by the number of lanes and senders.

ghost use Rattle.std.specs.Prelude.{◌≡◌, ◌∷◌, ◌<◌, max, map, vec_len, false, [], IfOk};
ghost use Rattle.pl_event.specs.Hops.{same_lane};
ghost use Rattle.pl_queue.specs.Left.{Apart, lanes_of_senders, own_lanes};
ghost use Rattle.pl_queue_tests.specs.Openings.{hops_below, HaveChannels};
ghost use Rattle.pl_queue_tests.specs.Relays.{IsFresh, taking_lanes};

use crate::flags::lane;
use pl_event::{Lane, Named};
use pl_queue::{Mailbox, OpenRefusal};
use std::alloc::{AllocError, Global};

// The flags lanes of so many hops of a channel.
fn lanes_of_channel(alloc: Global, channel: u16, hops: u16) -> Result<Vec<Lane>, AllocError>
    ensures { IfOk result (λ v. v.items ≡ hops_below channel hops) }
{
    let mut lanes = Vec::new(alloc);
    for hop in 0..hops {
        lanes.push(lane(channel, hop))?;
    }
    Ok(lanes)
}

/// Lists of lanes for so many senders, or one for each channel where these are more. Each of the first ones has a channel, with
/// the flags lanes of so many hops; the others have no lane.
pub fn lists(
    alloc: Global,
    hops: u16,
    channels: u16,
    senders: u32,
) -> Result<Vec<Vec<Lane>>, AllocError>
    ensures len { IfOk result (λ v. vec_len v ≡ max channels senders) }
    ensures each { IfOk result (λ v. HaveChannels hops channels v.items) }
    ensures apart { IfOk result (λ v. Apart (lanes_of_senders (map own_lanes v.items))) }
{
    let mut all = Vec::new(alloc);
    for channel in 0..channels {
        all.push(lanes_of_channel(alloc, channel, hops)?)?;
    }
    for count in u32::from(channels)..senders {
        all.push(Vec::new(alloc))?;
    }
    Ok(all)
}

/// What `open` refuses at its limits and just past them: so many lanes, all of them the first sender's, so many senders, and a
/// capacity.
pub const LIMITS: [(u16, u32, usize, Option<OpenRefusal>); 8] = [
    (1, 1, 0, Some(OpenRefusal::Limit)),
    (1, 1, 1, None),
    (1, 1, 65_536, None),
    (1, 1, 65_537, Some(OpenRefusal::Limit)),
    (8_192, 1, 1, None),
    (8_193, 1, 1, Some(OpenRefusal::Limit)),
    (8_192, 65_535, 1, None),
    (1, 65_536, 1, Some(OpenRefusal::Limit)),
];

/// A mailbox of capacity 2 with one sender, which has this lane.
pub fn open_one<W: Named, M: Mailbox<W> + Drop>(
    alloc: Global,
    lane: Lane,
) -> Result<(M, M::Sender, M::Taker), OpenRefusal>
    ensures sender { IfOk result (λ r. M.ends.is_sender r.0 r.1 × IsFresh lane (M.ends.sends_of r.1)) }
    ensures taker { IfOk result (λ r. M.ends.is_taker r.0 r.2 × (taking_lanes (M.ends.takes_of r.2) ≡ lane ∷ [])) }
{
    let Ok(own) = Vec::from_array(alloc, [lane]) else {
        return Err(OpenRefusal::Memory);
    };
    let Ok(lanes) = Vec::from_array(alloc, [own]) else {
        return Err(OpenRefusal::Memory);
    };
    let (mailbox, mut senders, taker) = M::open(alloc, lanes, 2)?;
    let Some(sender) = senders.pop() else {
        unreachable!()
    };
    Ok((mailbox, sender, taker))
}

/// A mailbox with two senders, each of which has a lane.
pub fn open_two<W: Named, M: Mailbox<W> + Drop>(
    alloc: Global,
    first: Lane,
    second: Lane,
    capacity: usize,
) -> Result<(M, M::Sender, M::Sender, M::Taker), OpenRefusal>
    requires apart { same_lane first second ≡ false }
    ensures one { IfOk result (λ r. M.ends.is_sender r.0 r.1 × IsFresh first (M.ends.sends_of r.1)) }
    ensures two { IfOk result (λ r. M.ends.is_sender r.0 r.2 × IsFresh second (M.ends.sends_of r.2)) }
    ensures taker { IfOk result (λ r. M.ends.is_taker r.0 r.3 × (taking_lanes (M.ends.takes_of r.3) ≡ first ∷ second ∷ [])) }
{
    let Ok(one) = Vec::from_array(alloc, [first]) else {
        return Err(OpenRefusal::Memory);
    };
    let Ok(two) = Vec::from_array(alloc, [second]) else {
        return Err(OpenRefusal::Memory);
    };
    let Ok(lanes) = Vec::from_array(alloc, [one, two]) else {
        return Err(OpenRefusal::Memory);
    };
    let (mailbox, mut senders, taker) = M::open(alloc, lanes, capacity)?;
    let Some(two) = senders.pop() else {
        unreachable!()
    };
    let Some(one) = senders.pop() else {
        unreachable!()
    };
    Ok((mailbox, one, two, taker))
}
