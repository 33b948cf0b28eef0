//! Executors of which one runs at a time: their queues and backlogs, over the nodes of all channels, on one thread.
#![tactic(auto)]

mod account_laws;
mod nodes;
mod station;
mod stations;
mod watching;

pub use account_laws::account_law;
pub use nodes::Nodes;
pub use station::Station;
pub use stations::Stations;
pub use watching::{NoWatch, Watch};
