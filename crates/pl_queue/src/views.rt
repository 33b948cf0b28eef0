//! What contracts see of a sender and of the taker. Only of `TakeCount` values are made.

use pl_event::{Envelope, Lane};
use std::collections::LinkedList;

/// A lane of a sender: the next number, and whether End or Fail was sent.
pub struct SendCount {
    pub lane: Lane,
    pub next: u64,
    pub ended: bool,
}

/// The taker's next number of a lane.
#[derive(Clone, Copy, Debug, Drop)]
pub struct TakeCount {
    pub lane: Lane,
    pub next: u64,
}

/// What a sender knows: its lanes, the count of its pushes, and the envelope that it pushed last.
pub struct SenderView {
    pub send_counts: LinkedList<SendCount>,
    pub pushes: u64,
    pub last: Option<Envelope>,
}

/// What the taker knows: its next number of each lane, the count of its pops, and the envelope that it popped last.
pub struct TakerView {
    pub counts: LinkedList<TakeCount>,
    pub pops: u64,
    pub last: Option<Envelope>,
}

/// What contracts see of either: a sender takes nothing, and the taker sends nothing until `finish`.
pub struct PassView {
    pub taker: bool,
    pub sends: SenderView,
    pub takes: TakerView,
}
