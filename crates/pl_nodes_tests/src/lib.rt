//! Tests of contexts, of the tail, of the lists on which envelopes wait, and of the head with its transports.
#![tactic(auto)]

#[cfg(test)]
mod tests;
mod trickle;

pub use trickle::Trickle;
