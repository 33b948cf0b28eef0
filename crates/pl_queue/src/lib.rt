//! Mailboxes: ordered, loss-free hand-over of envelopes between threads.
//!
//! A mailbox takes envelopes from some senders and gives them to one taker. [`Mailbox::open`] makes it, with a sender for
//! each list of lanes; [`Mailbox::offer`] puts an envelope at the back, [`Mailbox::take`] takes the front, and
//! [`Mailbox::finish`] says what was handed over, taken and left.
//!
//! ```text
//! let (mailbox, senders, taker) = WaitingBox::<W>::open(alloc, lanes, 16)?;
//! mailbox.offer(&rt, &mut sender, envelope)?;
//! let front = mailbox.take(&rt, &mut taker);
//! ```
//!
//! Two boxes keep the same rule: [`WaitingBox`], whose senders wait for room, and [`RingBox`], a lock-free ring that hands
//! the envelope back where it is full. Code above is generic in `M: Mailbox<W>`. The README has a whole example.
#![tactic(auto)]

mod counts;
mod ends;
mod left;
mod limits;
mod mailbox;
mod positions;
mod queues;
mod ring_box;
mod room_laws;
mod rule;
mod views;
mod waiting_box;

pub use left::{LaneLeft, Left};
pub use limits::{MAX_CAPACITY, MAX_LANES, MAX_SENDERS};
pub use mailbox::{Full, Mailbox, OpenRefusal};
pub use ring_box::{RingBox, RingSender, RingTaker};
pub use room_laws::room_law;
pub use views::{PassView, SendCount, SenderView, TakeCount, TakerView};
pub use waiting_box::{WaitingBox, WaitingSender, WaitingTaker};
