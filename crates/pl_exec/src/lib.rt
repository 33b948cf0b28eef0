//! A run of a session: executors on threads, each with its inbox, that hand one another what they make.
#![tactic(auto)]

mod lanes;
mod nodes;
mod opening;
mod planned;
mod reporting;
mod running;
mod sharing;
mod telling;
mod words;

pub use pl_post::{Post, PostOwner, PostSeat, StillOpen, Unsent};
pub use pl_threads::{Gate, RunFault};
pub use planned::Planned;
pub use reporting::Ran;
pub use running::{QueueKind, run, run_with, run_world, run_world_with};
pub use words::{HeadSeats, PROMISES, Reader, Words};
