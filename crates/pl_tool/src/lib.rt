//! The program as a function: it replays a recorded session, runs it, or takes it whole. `pl_text` reads and prints for
//! it, `pl_replay` replays, `pl_exec` runs, and `pl_world` takes a session whole; the types are theirs.
#![tactic(auto)]

mod program;

pub use program::{MAX_INPUT, refuse_args, run_tool};
