//! The tests, and what several of them use.

mod checks;
mod hostile;
mod lines;
mod pictures;
mod running;
mod schedules;
mod scripts;
mod sessions;
mod traces;
