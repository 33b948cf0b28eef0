//! Words that threads share without locks: who may still send, whether a channel is writable, how each write ended. Two
//! of them have modules, since each has a `ReadSeat`: [`watermark`] and [`promises`].
#![tactic(auto)]

mod admission;
mod admission_steps;
mod laws;
mod look;
mod promise_steps;
pub mod promises;
mod status;
pub mod watermark;
mod watermark_steps;

pub use admission::{
    Admission, Admitted, MAX_ADMISSIONS, NO_COUNT, OwnerSeat, Refused, SendSeat, StillOpen,
};
pub use laws::{admission_law, mark_law, promise_law};
pub use status::Status;
