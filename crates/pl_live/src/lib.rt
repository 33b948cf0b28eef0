//! A channel that lives: it is fed as bytes come in, and gives bytes to be sent and events, on one thread.
#![tactic(auto)]

mod faults;
mod live;

pub use faults::FeedFault;
pub use live::{Live, MAX_FED};
