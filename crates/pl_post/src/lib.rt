//! Mailboxes for a caller's own threads, each with its admission: a thread that sends learns whether it was sent, and the
//! owner closes with exactly what it took.
#![tactic(auto)]

mod laws;
mod opening;
mod posts;

pub use laws::post_law;
pub use pl_words::StillOpen;
pub use posts::{Post, PostOwner, PostSeat, Unsent};
