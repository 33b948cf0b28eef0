//! The tests, the sessions that they take, and what plays these.

mod drained;
mod every_allocation_refused;
mod failed;
mod failing_streams;
mod fair;
mod program;
mod refused;
mod running;
mod runs;
mod schedules;
mod sessions;
mod streams;
