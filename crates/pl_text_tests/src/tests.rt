//! The tests, and what several of them use.

mod fault_texts;
mod moves_text;
mod report_text;
mod session_text;
mod session_versions;
