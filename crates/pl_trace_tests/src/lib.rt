//! Tests of `pl_trace` on the sessions of the tutorial and on texts that are refused.
#![tactic(auto)]

#[cfg(test)]
mod tests;
