//! The limits of a session text (`docs/FORMATS.md`, "Session") that are not those of a world, of a pipeline or of a
//! handler.

/// How many bytes a session text has at most.
pub const MAX_SESSION_TEXT: usize = 33_554_432;

/// How many executors a group names at most. What is built has at most `pl_build::MAX_EXECUTORS` in all.
pub const MAX_GROUP_SIZE: u16 = 65_535;

/// How many edits a channel has at most.
pub const MAX_EDITS: usize = 256;

/// How many bytes a transport accepts at most in one call.
pub const MAX_WINDOW: u32 = 65_536;

/// How many bytes it accepts in one call where the text does not say.
pub(crate) const DEFAULT_WINDOW: u32 = 65_536;

/// The greatest number of a call of a transport that a text can tell to fail.
pub const MAX_FAIL_AT: u32 = 4_294_967_295;

/// The greatest number of a user event.
pub const MAX_USER_EVENT: u32 = 4_294_967_295;
