//! Tests of runs on threads: who is told of their turns, that they are made side by side, and what other threads see of them.
#![tactic(auto)]

#[cfg(test)]
mod gate_tests;
#[cfg(test)]
mod kept_tests;
#[cfg(test)]
mod seen_tests;
#[cfg(test)]
mod sessions;
#[cfg(test)]
mod words_tests;
