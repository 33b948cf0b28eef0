//! The limits of a world (`docs/FORMATS.md`, "Session"), and the test of one channel's input.

ghost use Rattle.std.specs.Prelude.{◌≡◌, ◌-◌, ◌≤◌, SomeIff, sum_by};
ghost use Rattle.pl_event.specs.Inputs.{element_size};
ghost use Rattle.pl_world.specs.Limits.{fits, aborts_within, input_fits};

use pl_event::{Element, Sequence};
use pl_head::ReadPlan;

/// How many channels a world has at most. (`pl_build` has the limits of executors, handlers and marks.)
pub const MAX_CHANNELS: usize = 64;

/// How many items a queue between executors holds at most.
pub const MAX_CAPACITY: u32 = pl_event::MAX_CAPACITY;

/// How many bursts the input of a channel has at most.
pub const MAX_BURSTS: usize = 4_096;

/// How many elements, chunks and user events, all bursts of a channel have at most.
pub const MAX_ELEMENTS: usize = 16_384;

/// How many bytes all chunks of a channel have at most.
pub const MAX_BYTES: usize = 1_048_576;

/// Whether what a channel is to read is within its limits: its bursts fit, and an abort comes after at most all of them.
pub fn input_fits(input: &ReadPlan) -> bool
    ensures { result ≡ input_fits input.now }
{
    fits(input.bursts.as_slice()) && aborts_within(input.abort_after, input.bursts.len())
}

/// Whether an abort comes after at most this many bursts.
fn aborts_within(abort_after: Option<u32>, count: usize) -> bool
    ensures { result ≡ aborts_within abort_after count }
{
    match abort_after {
        Some(after) => after as usize <= count,
        None => true,
    }
}

/// Whether the bursts of a channel, their elements and their bytes are within `MAX_BURSTS`, `MAX_ELEMENTS` and
/// `MAX_BYTES`.
pub fn fits(bursts: &[Sequence<Element>]) -> bool
    ensures { result ≡ fits bursts.now }
{
    if bursts.len() > MAX_BURSTS {
        return false;
    }
    let mut elements = MAX_ELEMENTS;
    let mut bytes = MAX_BYTES;
    for burst in bursts {
        let burst = burst.as_slice();
        match (elements.checked_sub(burst.len()), bytes_left(bytes, burst)) {
            (Some(elements_left), Some(bytes_left)) => {
                elements = elements_left;
                bytes = bytes_left;
            }
            _ => return false,
        }
    }
    true
}

/// What is left of a limit after the bytes of these elements, or None where they pass it.
pub fn bytes_left(limit: usize, elements: &[Element]) -> Option<usize>
    ensures { SomeIff result (sum_by element_size elements.now ≤ limit) (limit - sum_by element_size elements.now) }
{
    let mut left = limit;
    for element in elements {
        left = left.checked_sub(element.size())?;
    }
    Some(left)
}
