//! A session is replayed here, move by move.
#![tactic(auto)]

mod account_laws;
mod channels;
mod idle;
mod kept;
mod nets;
mod replaying;
mod reporting;

pub use account_laws::account_law;
pub use channels::Channels;
pub use nets::{Hindrance, Net};
pub use replaying::{replay, replay_world};
