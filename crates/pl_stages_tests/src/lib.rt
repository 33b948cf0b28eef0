//! Tests of the built-in handlers: the worked examples of the line protocol and of frames with their length in front, by
//! the steps of the handlers. And of the bytes, sequences and keys of events.
#![tactic(auto)]

#[cfg(test)]
mod event_tests;
#[cfg(test)]
mod length_tests;
#[cfg(test)]
mod tests;
