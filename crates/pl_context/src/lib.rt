//! Contexts: a stage at its hop, the tail, and the lists on which envelopes wait.
#![tactic(auto)]

mod added;
mod backlog;
mod contexts;
mod fronts;
mod outputs;
mod place_laws;
mod ports;
mod standing;
mod stops;
mod tails;
mod waiting;

pub use added::Added;
pub use backlog::Backlog;
pub use contexts::{Context, MAX_HANDLERS};
pub use outputs::Outputs;
pub use place_laws::place_law;
pub use ports::Port;
pub use standing::{Standing, Took};
pub use tails::Tail;
pub use waiting::Waiting;
