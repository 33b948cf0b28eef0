//! The limits of pipelines and groups, and the marks of a channel that names none.

/// The most executors of a session: its loops, and those of each group.
pub const MAX_EXECUTORS: u16 = 64;

/// The most handlers of a pipeline, as a length of a list.
pub const MAX_HANDLERS: usize = pl_event::MAX_HANDLERS as usize;

/// The most bytes of the name of a handler or a group.
pub const MAX_NAME_LENGTH: usize = 64;

/// The greatest mark, in bytes.
pub const MAX_MARK: u32 = 1_073_741_824;

/// The low mark of a new pipeline, in bytes (Netty's `WriteBufferWaterMark`).
pub const DEFAULT_LOW: u32 = 32_768;

/// The high mark of a new pipeline, in bytes.
pub const DEFAULT_HIGH: u32 = 65_536;
