//! The limits of the handlers (`docs/FORMATS.md`).

/// The longest line that a framer can be asked for, in bytes.
pub const MAX_LINE: usize = 8_192;

/// The longest frame that a length framer can be asked for, its length field included, in bytes.
pub const MAX_FRAME: usize = 8_192;

/// The most flushes of which one passes.
pub const MAX_FLUSHES: usize = 65_535;

/// The most decimal digits of a number that is added.
pub const MAX_DIGITS: usize = 9;

/// The greatest total of a key.
pub const MAX_TOTAL: u64 = 1_000_000_000_000_000;

/// The most keys that a service holds.
pub const MAX_KEYS: usize = 256;
