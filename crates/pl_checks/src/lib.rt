//! Tests of the whole way, from session text to report text: the worked sessions, by their names, and the program on
//! any arguments and streams.
#![tactic(auto)]

#[cfg(test)]
mod tests;
