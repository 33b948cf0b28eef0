//! The tests, and what several of them use.

mod alone;
mod closing_tests;
mod opening;
mod playing;
mod starting;
mod thread_tests;
mod turn_tests;
