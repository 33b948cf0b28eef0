//! What three executors have of one another.

use crossbeam_utils::sync::Parker;
use pl_event::Named;
use pl_queue::Mailbox;
use pl_words::{OwnerSeat, SendSeat};

/// The way to an executor: a sender of its mailbox, and a seat of its admission.
#[derive(Drop)]
pub(crate) struct Way<W: Named, M: Mailbox<W>> {
    pub(crate) sender: M::Sender,
    pub(crate) seat: SendSeat,
}

/// On what an executor rests, and its own ends of its inbox.
#[derive(Drop)]
pub(crate) struct Own<W: Named, M: Mailbox<W>> {
    pub(crate) parker: Parker,
    pub(crate) taker: M::Taker,
    pub(crate) owner: OwnerSeat,
}

/// What an executor has of three inboxes: its own ends, and the ways to all.
#[derive(Drop)]
pub(crate) struct Place<W: Named, M: Mailbox<W>> {
    pub(crate) own: Own<W, M>,
    pub(crate) first: Way<W, M>,
    pub(crate) second: Way<W, M>,
    pub(crate) third: Way<W, M>,
}

/// What executors 0, 1 and 2 have of their inboxes.
#[derive(Drop)]
pub(crate) struct Places<W: Named, M: Mailbox<W>> {
    pub(crate) first: Place<W, M>,
    pub(crate) second: Place<W, M>,
    pub(crate) third: Place<W, M>,
}
