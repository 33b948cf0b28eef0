//! What is replayed or run, and what it comes to: recorded channels on executors, the moves of a schedule, the report, and the
//! whole report that the handlers make, composed on whole lists.
#![tactic(auto)]

mod chains;
mod composing;
mod faults;
mod limits;
mod memory_worlds;
mod moves;
mod recorded_events;
mod report;
mod session;
mod settling;
mod split_chain;
mod worlds;

pub use composing::{plain, plain_world};
pub use faults::ReplayFault;
pub use limits::{
    MAX_BURSTS, MAX_BYTES, MAX_CAPACITY, MAX_CHANNELS, MAX_ELEMENTS, bytes_left, fits, input_fits,
};
pub use memory_worlds::MEMORY_WINDOW;
pub use moves::Move;
pub use report::{ChannelReport, Report, Stands};
pub use session::{Recorded, Session};
pub use worlds::{World, WorldRefusal};
