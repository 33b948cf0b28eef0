//! The seats of a post, as it is opened.

ghost use Rattle.std.specs.Prelude.{◌≡◌, length, map, IfOk};
ghost use Rattle.pl_queue.specs.Room.{IsCounted};
ghost use Rattle.pl_queue.specs.Rule.{Each};

use crate::posts::PostSeat;
use pl_event::Named;
use pl_queue::Mailbox;
use pl_words::SendSeat;
use std::alloc::{AllocError, Global};

/// A seat of each sender and seat of the admission.
pub(crate) fn paired<W: Named, M: Mailbox<W>>(
    alloc: Global,
    senders: Vec<M::Sender>,
    seats: Vec<SendSeat>,
) -> Result<Vec<PostSeat<W, M>>, AllocError>
    requires count { length seats.items ≡ length senders.items }
    requires fresh { Each (λ s. IsCounted (M.ends.sends_of s) × ((M.ends.sends_of s).pushes ≡ 0)) senders.items }
    requires unused { Each (λ s. s.kept ≡ 0) seats.items }
    ensures senders { IfOk result (λ paired. map (λ s. s.sender) paired.items ≡ senders.items) }
    ensures seats { IfOk result (λ paired. map (λ s. s.seat) paired.items ≡ seats.items) }
{
    let mut paired = Vec::with_capacity(alloc, senders.len())?;
    for (sender, seat) in senders.into_iter().zip(seats) {
        paired.push(PostSeat::new(sender, seat))?;
    }
    Ok(paired)
}
