//! Tests of mailboxes, and code over any mailbox, on threads.
#![tactic(auto)]

mod events;
mod flags;
mod lines;
mod openings;
#[cfg(test)]
mod tests;
mod threads;

pub use events::{data_lane, event, event_at};
pub use flags::{flag, lane};
pub use lines::{LaneLines, hand_over, send_lines, take_lanes, two_threads_hand_over_lines};
pub use openings::{LIMITS, lists, open_one, open_two};
pub use threads::join_three;
