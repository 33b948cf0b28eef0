//! The head of a channel: where its bytes leave, and what it reads.
#![tactic(auto)]

mod flag_laws;
mod heads;
mod inputs;
mod marks;
mod outbound_buffer;
mod transports;
mod watermark_laws;

pub use flag_laws::flag_law;
pub use heads::{Head, OutStep, ReadStep};
pub use inputs::ReadPlan;
pub use transports::{Draining, MemoryTransport, Transport, TransportFault};
pub use watermark_laws::watermark_law;
