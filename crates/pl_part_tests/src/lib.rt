//! Tests of parts of channels.
#![tactic(auto)]

#[cfg(test)]
mod head_failure_tests;
#[cfg(test)]
mod part_tests;
#[cfg(test)]
mod playing;
mod relays;
#[cfg(test)]
mod share_tests;
