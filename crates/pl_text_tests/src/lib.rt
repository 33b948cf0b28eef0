//! Tests of the texts of `pl_text`: of a session, of its moves, and of the report.
#![tactic(auto)]

mod ping;
#[cfg(test)]
mod tests;

pub use ping::{DECODER_APART, PING_REPORT, PING_SESSION};
