//! Schedules of a session are made here, and read from scripts.
#![tactic(auto)]

mod scheduling;
mod script;

pub use scheduling::{Order, Scheduled, schedule, schedule_world};
pub use script::{Unread, read_script};
