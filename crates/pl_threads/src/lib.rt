//! Executors on threads: each runs its tasks one after another, and hands what it makes for others to their queues.
#![tactic(auto)]

mod cores;
mod executors;
mod finished;
mod gate;
mod nodes;
mod start;
mod threads;

pub use cores::Core;
pub use executors::{Executor, Turn};
pub use finished::Finished;
pub use gate::Gate;
pub use nodes::OwnNodes;
pub use start::Start;
pub use threads::{RunFault, run_all};
