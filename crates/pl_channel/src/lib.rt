//! The channels of a session: each with all its nodes in one part, from its recording; the lanes between executors, counted; and
//! the report of a channel, from its two ends.
#![tactic(auto)]

mod lane_counts;
mod recorded_parts;
mod reports;

pub use lane_counts::{lane_count, origin_of, places_between};
pub use recorded_parts::{whole_part, whole_parts};
pub use reports::{into_report, report, stands};
