//! Tests of the words that threads share, and callers of them in threads of their own.
#![tactic(auto)]

#[cfg(test)]
mod admission_tests;
mod feeding;
#[cfg(test)]
mod promise_tests;
#[cfg(test)]
mod thread_tests;
#[cfg(test)]
mod watermark_tests;

pub use feeding::{Counter, close, feed, feed_and_close};
