//! The limits of a pipeline, of its lanes, and of the queues between executors.

/// The most handlers of a pipeline. The hops of its lanes go up to one more, which is the head's.
pub const MAX_HANDLERS: u16 = 32;

/// The highest capacity of a queue between executors, in envelopes. The lowest is 1.
pub const MAX_CAPACITY: u32 = 65_536;

/// The most items of a data lane: their numbers are below it.
pub const MAX_ITEMS: u32 = 2_147_483_648;
