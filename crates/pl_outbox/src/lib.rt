//! What an executor makes for others: an inbox for each executor, and the ways to them, with what waits there.
#![tactic(auto)]

mod bell;
mod congestion;
mod inbox;
mod number_set;
mod outbox;
mod outboxes;
mod tries;

pub use bell::Bell;
pub use congestion::Congestion;
pub use inbox::Inbox;
pub use number_set::NumberSet;
pub use outbox::Outbox;
pub use outboxes::{NO_WAY, Outboxes};
