//! Tests of executors: one alone, call by call, and three in threads of their own.
#![tactic(auto)]

mod nodes;
mod places;
#[cfg(test)]
mod tests;
