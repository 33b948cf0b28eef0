//! The tests, and what several of them use.

mod context_tests;
mod failure_tests;
mod forget_tests;
mod head_tests;
mod input_tests;
mod load_tests;
mod transport_tests;
mod waiting_tests;
mod watermark_tests;
