//! Three executors before their first turn.

ghost use Rattle.std.specs.Prelude.{◌≡◌, ◌<◌, ◌∷◌, [], length, slice_get, IfOk, Some};
ghost use Rattle.pl_threads_tests.specs.Openings.{ArePlaces, IsPlace, IsReady};

use crate::nodes::{Node, Outlet};
use crate::places::{Own, Place, Places, Way};
use crossbeam_utils::sync::Parker;
use pl_context::Outputs;
use pl_event::Named;
use pl_outbox::{Inbox, Outbox, Outboxes};
use pl_queue::Mailbox;
use pl_threads::{Core, Executor};
use std::alloc::{AllocError, Global};

/// The outbox of a way.
fn outbox<'a, W: Named, M: Mailbox<W> + Drop>(
    inbox: &'a Inbox<W, M>,
    way: Way<W, M>,
) -> Outbox<'a, W, M>
    requires sender { M.ends.is_sender inbox.now.mailbox way.sender }
    requires seat { way.seat.name ≡ inbox.now.admission.name }
    ensures { result ≡ record { sends = M.ends.sends_of way.sender; seat = way.seat } }
{
    let Way { sender, seat } = way;
    Outbox::new(inbox, sender, seat)
}

/// A list of three.
pub(crate) fn three<T: Drop>(
    alloc: Global,
    first: T,
    second: T,
    third: T,
) -> Result<Vec<T>, AllocError>
    ensures { IfOk result (λ items. items.items ≡ first ∷ second ∷ third ∷ []) }
{
    let mut items = Vec::new(alloc);
    items.push(first)?;
    items.push(second)?;
    items.push(third)?;
    Ok(items)
}

/// The inbox of one of three executors.
pub(crate) fn inbox_of<W: Named, M: Mailbox<W> + Drop>(
    inboxes: &[Inbox<W, M>],
    executor: usize,
) -> &Inbox<W, M>
    requires { executor < length inboxes.now }
    ensures { slice_get inboxes.now executor ≡ Some result.now }
{
    &inboxes[executor]
}

/// The executor with these nodes, and the parker on which it rests.
pub(crate) fn executor<'a, W: Named, M: Mailbox<W> + Drop>(
    alloc: Global,
    inboxes: &'a [Inbox<W, M>],
    place: Place<W, M>,
    node: Node,
) -> Result<(Executor<'a, W, M, Node>, Parker), AllocError>
    requires place { IsPlace M.ends inboxes.now node.executor place }
    requires ready { IsReady node }
{
    let Place {
        own,
        first,
        second,
        third,
    } = place;
    let Own {
        parker,
        taker,
        owner,
    } = own;
    let first = outbox(inbox_of(inboxes, 0), first);
    let second = outbox(inbox_of(inboxes, 1), second);
    let third = outbox(inbox_of(inboxes, 2), third);
    let outboxes = three(alloc, first, second, third)?;
    let ways = three(alloc, 0, 1, 2)?;
    let number = usize::from(node.executor);
    let inbox = inbox_of(inboxes, number);
    let core = Core::of(
        number,
        node,
        Outboxes::new(alloc, inboxes, ways, outboxes, &[1, 1, 1])?,
        Outputs::new(alloc, 2)?,
    );
    Ok((Executor::new(core, inbox, taker, owner), parker))
}

/// The nodes of executor 2, which makes so many flags for executor 0, and then so many for executor 1. It has ended once these
/// are made, and so many have come.
pub(crate) fn maker(counts: (u32, u32), expected: u64) -> Node
    ensures executor { result.executor ≡ 2 }
    ensures ready { IsReady result }
{
    Node::new(
        2,
        Outlet::new(0, counts.0),
        Outlet::new(1, counts.1),
        expected,
    )
}

/// The same nodes, but each flag that comes makes one, and no read step does.
pub(crate) fn forwarder(counts: (u32, u32), expected: u64) -> Node
    ensures executor { result.executor ≡ 2 }
    ensures ready { IsReady result }
{
    maker(counts, expected).forwarding()
}

/// The nodes of executor 0, which makes a flag for executor 2 for each one that comes, up to so many. It has ended once so many
/// have come.
fn answerer(count: u32) -> Node
    ensures executor { result.executor ≡ 0 }
    ensures ready { IsReady result }
{
    Node::new(
        0,
        Outlet::new(2, count),
        Outlet::new(1, 0),
        u64::from(count),
    )
    .forwarding()
}

/// The nodes of executor 1, which makes nothing. It has ended once so many have come.
fn counter(count: u32) -> Node
    ensures executor { result.executor ≡ 1 }
    ensures ready { IsReady result }
{
    Node::new(1, Outlet::new(0, 0), Outlet::new(2, 0), u64::from(count))
}

/// One executor more.
fn add<'a, W: Named, M: Mailbox<W> + Drop>(
    executors: &mut Vec<(Executor<'a, W, M, Node>, Parker)>,
    inboxes: &'a [Inbox<W, M>],
    place: Place<W, M>,
    node: Node,
) -> Result<(), AllocError>
    requires place { IsPlace M.ends inboxes.now node.executor place }
    requires ready { IsReady node }
{
    let alloc = *executors.allocator();
    executors.push(executor(alloc, inboxes, place, node)?)?;
    Ok(())
}

/// Executors 0, 1 and 2, in this order. Executor 2 makes so many flags for each of the others, and executor 0 answers each
/// that comes. They have ended once each has got so many.
pub(crate) fn three_executors<'a, W: Named, M: Mailbox<W> + Drop>(
    alloc: Global,
    inboxes: &'a [Inbox<W, M>],
    places: Places<W, M>,
    count: u32,
) -> Result<Vec<(Executor<'a, W, M, Node>, Parker)>, AllocError>
    requires { ArePlaces M.ends inboxes.now places }
{
    let Places {
        first,
        second,
        third,
    } = places;
    let maker = maker((count, count), u64::from(count));
    let mut executors = Vec::new(alloc);
    add(&mut executors, inboxes, first, answerer(count))?;
    add(&mut executors, inboxes, second, counter(count))?;
    add(&mut executors, inboxes, third, maker)?;
    Ok(executors)
}
