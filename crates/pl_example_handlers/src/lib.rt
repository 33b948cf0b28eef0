//! Handlers and a transport of one's own, in a pipeline with built-in ones: an example to copy from. Its `README.md` is
//! the lesson.
#![tactic(auto)]

mod counting;
mod halves;
mod odd_lines;
#[cfg(test)]
mod recipe;
#[cfg(test)]
mod tests;
mod upper_case;

pub use counting::Lines;
pub use halves::Halves;
pub use odd_lines::OddLines;
pub use upper_case::UpperCase;
