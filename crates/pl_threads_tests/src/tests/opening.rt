//! The inboxes of three executors, and what each executor has of them.

ghost use Rattle.std.specs.Prelude.{◌≡◌, ◌∷◌, [], IfOk, length, map};
ghost use Rattle.pl_queue.specs.Views.{fresh_sends};
ghost use Rattle.pl_threads_tests.specs.Nodes.{lane_to};
ghost use Rattle.pl_threads_tests.specs.Openings.{ArePlaces, IsOpened};

use crate::nodes::lane_to;
use crate::places::{Own, Place, Places, Way};
use crate::tests::starting::three;
use pl_event::{Lane, Named};
use pl_outbox::Inbox;
use pl_queue::{Mailbox, OpenRefusal};
use pl_words::Admission;
use std::alloc::{AllocError, Global};

/// The lanes of the senders of an executor's mailbox: the first writes the lane to it, and two write none.
fn lanes(alloc: Global, executor: u16) -> Result<Vec<Vec<Lane>>, AllocError>
    ensures lanes { IfOk result (λ lanes. map (λ v. v.items) lanes.items ≡ (lane_to executor ∷ []) ∷ [] ∷ [] ∷ []) }
    ensures sends { IfOk result (λ lanes. map (λ v. fresh_sends v.items) lanes.items ≡ fresh_sends (lane_to executor ∷ []) ∷ fresh_sends [] ∷ fresh_sends [] ∷ []) }
{
    let mut lanes = Vec::new(alloc);
    lanes.push(vec![in alloc; lane_to(executor)]?)?;
    lanes.push(Vec::new(alloc))?;
    lanes.push(Vec::new(alloc))?;
    Ok(lanes)
}

/// The elements of a list of three.
fn in_three<T: Drop>(mut items: Vec<T>) -> (T, T, T)
    requires { length items.items ≡ 3 }
    ensures { items.items ≡ result.0 ∷ result.1 ∷ result.2 ∷ [] }
{
    let (Some(third), Some(second), Some(first)) = (items.pop(), items.pop(), items.pop()) else {
        unreachable!()
    };
    (first, second, third)
}

/// The inbox of an executor, whose queue holds so many, with its own ends, and three ways to it: by the first flags come, and
/// by the others nothing.
fn open<W: Named, M: Mailbox<W> + Drop>(
    alloc: Global,
    executor: u16,
    capacity: usize,
) -> Result<(Inbox<W, M>, Own<W, M>, (Way<W, M>, Way<W, M>, Way<W, M>)), OpenRefusal>
    ensures { IfOk result (λ r. IsOpened M.ends executor r.0 r.1 r.2.0 r.2.1 r.2.2) }
{
    let (mailbox, senders, taker) = M::open(alloc, lanes(alloc, executor)?, capacity)?;
    let (admission, seats, owner) = Admission::new(alloc, 3)?;
    let (inbox, parker) = Inbox::new(alloc, mailbox, admission)?;
    let (writer, second, third) = in_three(senders);
    let (writer_seat, second_seat, third_seat) = in_three(seats);
    let own = Own {
        parker,
        taker,
        owner,
    };
    let ways = (
        Way {
            sender: writer,
            seat: writer_seat,
        },
        Way {
            sender: second,
            seat: second_seat,
        },
        Way {
            sender: third,
            seat: third_seat,
        },
    );
    Ok((inbox, own, ways))
}

/// What an executor has: its own ends, and the ways to all.
fn place<W: Named, M: Mailbox<W> + Drop>(
    own: Own<W, M>,
    first: Way<W, M>,
    second: Way<W, M>,
    third: Way<W, M>,
) -> Place<W, M>
    ensures { result ≡ record { own = own; first = first; second = second; third = third } }
{
    Place {
        own,
        first,
        second,
        third,
    }
}

/// The inboxes of executors 0, 1 and 2, whose queues hold so many, and what each executor has of them. Executor 2 makes
/// flags for 0 and 1, and executor 0 for 2.
pub(crate) fn open_three<W: Named, M: Mailbox<W> + Drop>(
    alloc: Global,
    capacity: usize,
) -> Result<(Vec<Inbox<W, M>>, Places<W, M>), OpenRefusal>
    ensures { IfOk result (λ r. ArePlaces M.ends r.0.items r.1) }
{
    let (first, first_own, to_first) = open::<W, M>(alloc, 0, capacity)?;
    let (second, second_own, to_second) = open::<W, M>(alloc, 1, capacity)?;
    let (third, third_own, to_third) = open::<W, M>(alloc, 2, capacity)?;
    let inboxes = three(alloc, first, second, third)?;
    let places = Places {
        first: place(first_own, to_first.1, to_second.1, to_third.0),
        second: place(second_own, to_first.2, to_second.2, to_third.1),
        third: place(third_own, to_first.0, to_second.0, to_third.2),
    };
    Ok((inboxes, places))
}
