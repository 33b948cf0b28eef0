//! Tests of replays: worlds made in code, replayed by a schedule, move by move and whole.
#![tactic(auto)]

#[cfg(test)]
mod tests;
