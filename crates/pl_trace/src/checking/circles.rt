//! Circles of executors that hand over to one another, whose queues may all be full: on waiting queues each would wait for the
//! next.

use crate::edits::text_in;
use crate::names::elements;
use pl_build::Placed;
use pl_event::Element;
use pl_head::ReadPlan;
use pl_stages::Handler;
use pl_world::Session;
use serde_json::Value;
use std::alloc::{AllocError, Global};
use std::fmt::Write as _;

/// The ways between executors.
#[derive(Drop)]
struct Ways {
    /// By executor, those to which something is handed over there.
    targets: Vec<Vec<bool>>,
    /// By executor, how many items are handed over to it at most, in all.
    incoming: Vec<u64>,
}

/// How many items a lane of a channel has at most: inwards, outwards, and of flags.
#[derive(Clone, Copy)]
struct Sizes {
    inward: u64,
    outward: u64,
    flags: u64,
}

/// A line that warns of a circle that the capacity does not cover, if there is one.
pub(super) fn circle(
    alloc: Global,
    session: &Session,
    text: &Value,
) -> Result<Option<String>, AllocError> {
    let ways = Ways::new(alloc, session, text)?;
    let on_circles = ways.on_circles(alloc, u64::from(session.capacity))?;
    let circle = ways.one_of(alloc, on_circles.as_slice())?;
    match circle.first() {
        Some(first) => {
            let line = ways.warning(alloc, circle.as_slice(), *first, session.capacity)?;
            Ok(Some(line))
        }
        None => Ok(None),
    }
}

impl Ways {
    /// The ways of a session.
    fn new(alloc: Global, session: &Session, text: &Value) -> Result<Ways, AllocError> {
        let count = session.world.executors() as usize;
        let mut ways = Ways {
            targets: Vec::new(alloc),
            incoming: vec![in alloc; 0u64; count]?,
        };
        for _ in 0..count {
            ways.targets.push(vec![in alloc; false; count]?)?;
        }
        let texts = elements(text, "channels");
        for (channel, text) in session.world.channels().iter().zip(texts) {
            let sizes = sizes_of(&channel.input, elements(text, "handlers"));
            ways.add_channel(&channel.pipeline, sizes);
        }
        Ok(ways)
    }

    /// Adds the lanes of a channel.
    fn add_channel(&mut self, pipeline: &Placed<Handler>, sizes: Sizes) {
        let tail = pipeline.inbound();
        let head = tail.saturating_add(pipeline.outbound()).saturating_add(1);
        for hop in 0..=head {
            let size = if hop <= tail {
                sizes.inward.saturating_add(sizes.flags)
            } else {
                sizes.outward
            };
            if let (Some(origin), Some(target)) = (
                pipeline.executor_of(writer_of(pipeline, hop)),
                pipeline.executor_of(hop),
            ) {
                self.add_lane(origin as usize, target as usize, size);
            }
        }
    }

    /// The line that warns of a circle.
    fn warning(
        &self,
        alloc: Global,
        circle: &[usize],
        first: usize,
        capacity: u32,
    ) -> Result<String, AllocError> {
        let mut line = String::from_str(alloc, "executors ")?;
        let mut covers = u64::MAX;
        for executor in circle {
            write!(line, "{executor} -> ")?;
            covers = covers.min(self.incoming.get(*executor).copied().unwrap_or(0));
        }
        write!(
            line,
            "{first} hand over in a circle: with capacity {capacity} a run on waiting queues may stand still, with {covers} it cannot for this circle"
        )?;
        Ok(line)
    }

    /// Adds a lane from one executor to another of so many items at most.
    fn add_lane(&mut self, origin: usize, target: usize, size: u64) {
        if origin == target {
            return;
        }
        if let Some(incoming) = self.incoming.get_mut(target) {
            *incoming = incoming.saturating_add(size);
        }
        if let Some(row) = self.targets.get_mut(origin) {
            if let Some(is_target) = row.get_mut(target) {
                *is_target = true;
            }
        }
    }

    /// By executor, whether a circle may go through it in which each queue may be full: those from which none is left to
    /// go on to are left out, until no more are.
    fn on_circles(&self, alloc: Global, capacity: u64) -> Result<Vec<bool>, AllocError> {
        let mut on = Vec::new(alloc);
        for incoming in self.incoming.as_slice() {
            on.push(capacity < *incoming)?;
        }
        for _ in 0..on.len() {
            for executor in 0..on.len() {
                let goes_on = self.next_of(executor, on.as_slice()).is_some();
                if let Some(is_on) = on.get_mut(executor) {
                    *is_on = *is_on && goes_on;
                }
            }
        }
        Ok(on)
    }

    /// The first of some executors to which one hands over.
    fn next_of(&self, executor: usize, on: &[bool]) -> Option<usize> {
        let row = self.targets.get(executor)?;
        for (target, is_target) in row.as_slice().iter().enumerate() {
            if *is_target && on.get(target).copied().unwrap_or(false) {
                return Some(target);
            }
        }
        None
    }

    /// One circle through executors that each have a next one among them; empty where there are none.
    fn one_of(&self, alloc: Global, on: &[bool]) -> Result<Vec<usize>, AllocError> {
        let mut circle = Vec::new(alloc);
        let Some(first) = on.iter().position(|is_on| *is_on) else {
            return Ok(circle);
        };
        // After as many steps as there are executors the way is on a circle.
        let mut at = first;
        for _ in on {
            at = self.next_of(at, on).unwrap_or(at);
        }
        let start = at;
        for _ in on {
            circle.push(at)?;
            at = self.next_of(at, on).unwrap_or(start);
            if at == start {
                break;
            }
        }
        Ok(circle)
    }
}

/// The hop whose context writes the lane into a hop: the first inbound handler has its items of the head, and the outbound
/// handler nearest to the turn of that.
fn writer_of(pipeline: &Placed<Handler>, hop: u16) -> u16 {
    let tail = pipeline.inbound();
    if hop == 0 {
        tail.saturating_add(pipeline.outbound()).saturating_add(1)
    } else if hop == tail.saturating_add(1) {
        pipeline.turn() as u16
    } else {
        hop.saturating_sub(1)
    }
}

/// The sizes of a channel's lanes. A handler makes of bytes at most a line for each LF, or a frame for each two bytes, and
/// else at most as many events as it takes; the turn at most a write or a flush for each, and three more.
fn sizes_of(input: &ReadPlan, edits: &[Value]) -> Sizes {
    let has_lines = has_kind(edits, "lines");
    let has_frames = has_kind(edits, "length");
    let mut inward = 2u64;
    for burst in input.bursts.as_slice() {
        inward = inward.saturating_add(1);
        for element in burst.as_slice() {
            inward = inward.saturating_add(match element {
                Element::User(_) => 1,
                Element::Chunk(bytes) => cuts(bytes.as_slice(), has_lines, has_frames),
            });
        }
    }
    Sizes {
        inward,
        outward: inward.saturating_add(3),
        flags: inward.saturating_mul(2),
    }
}

/// Whether an edit adds a handler of a kind.
fn has_kind(edits: &[Value], kind: &str) -> bool {
    edits.iter().any(|edit| text_in(edit, "kind") == kind)
}

/// How many events come of a chunk at most: it, its lines, or its frames.
fn cuts(bytes: &[u8], has_lines: bool, has_frames: bool) -> u64 {
    let mut count = 1u64;
    if has_lines {
        for byte in bytes {
            if *byte == b'\n' {
                count = count.saturating_add(1);
            }
        }
    }
    if has_frames {
        count = count.saturating_add(bytes.len() as u64 / 2);
    }
    count
}
