//! Callers of a post, in threads of their own.
#![tactic(auto)]

mod feeding;
#[cfg(test)]
mod tests;

pub use feeding::{
    Closing, Fed, MAX_TRIES, Served, feed, open_three, send_when_room, serve,
    three_feed_while_closing,
};
