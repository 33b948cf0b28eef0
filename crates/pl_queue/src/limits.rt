//! How large a mailbox may be.

/// The highest capacity: the most envelopes that are queued at one time. The lowest is 1.
pub const MAX_CAPACITY: usize = pl_event::MAX_CAPACITY as usize;

/// The most lanes of one mailbox.
pub const MAX_LANES: usize = 8_192;

/// The most senders of one mailbox.
pub const MAX_SENDERS: usize = 65_535;
