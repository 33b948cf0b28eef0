//! Channels that are fed, and what they hand out. What that is to be comes from the worked examples of docs/FORMATS.md, or
//! from `plain`.

mod abort_tests;
mod billion_tests;
mod closed_tests;
mod cutting;
mod equal_tests;
mod fed_tests;
mod full_tests;
mod handed;
mod held_tests;
mod memory_tests;
mod sessions;
