//! Executors in threads, all started at once and all joined.

use crate::nodes::Node;
use crate::tests::alone::{NoGate, Ran, set_apart};
use crate::tests::opening::open_three;
use crate::tests::starting::{maker, three_executors};
use pl_event::Named;
use pl_queue::{Mailbox, RingBox, WaitingBox};
use pl_threads::run_all;
use std::alloc::Global;
use std::marker::Brand;
use std::sync::Wait;
use std::test::Fail;
use std::thread::Threads;

/// Whether an executor has got so many flags, and has made all that it was to make.
fn has_all(node: &Node, expected: u64) -> bool {
    node.taken == expected
        && node.first.made == node.first.count
        && node.second.made == node.second.count
        && node.refusals == 0
}

/// Runs three executors that make so many flags for one another, and answers which of them have got and made all, in their
/// order.
fn run_three<W: Named + Send + Sync, M: Mailbox<W> + Drop + Send + Sync, R: Threads + Wait + Sync>(
    rt: &R,
    alloc: Global,
    capacity: usize,
    count: u32,
) -> Result<Vec<(u16, bool)>, Fail>
where
    M::Sender: Send,
    M::Taker: Send,
{
    let (inboxes, places) = open_three::<W, M>(alloc, capacity)?;
    let executors = three_executors(alloc, inboxes.as_slice(), places, count)?;
    let mut all = Vec::new(alloc);
    for finished in run_all(rt, alloc, &NoGate, executors)? {
        let node = finished.into_nodes();
        all.push((node.executor, has_all(&node, u64::from(count))))?;
    }
    Ok(all)
}

const ALL: [(u16, bool); 3] = [(0, true), (1, true), (2, true)];

/// A ring of one is full after each flag, so executors wait for room, and are woken.
#[test]
fn all_are_joined(rt: HostRuntime) -> Result<(), Fail> {
    let alloc = rt.alloc();
    for (capacity, count) in [(1, 1_000), (64, 10_000)] {
        let all = run_three::<Brand, RingBox<Brand>, _>(&rt, alloc, capacity, count)?;
        assert!(rt; all.as_slice() == ALL.as_slice(), "capacity {capacity}");
    }
    let all = run_three::<Brand, WaitingBox<Brand>, _>(&rt, alloc, 1_000, 1_000)?;
    assert!(rt; all.as_slice() == ALL.as_slice());
    Ok(())
}

/// An executor that is told to leave: what is found then.
fn leaves<W: Named, R: Wait>(rt: &R, alloc: Global) -> Result<Ran, Fail> {
    let (inboxes, places) = open_three::<W, RingBox<W>>(alloc, 8)?;
    let alone = set_apart(alloc, inboxes.as_slice(), places, maker((1, 1), 0))?;
    Ok(alone.run(rt, false))
}

/// It makes no turn.
#[test]
fn told_to_leave(rt: HostRuntime) -> Result<(), Fail> {
    let ran = leaves::<Brand, _>(&rt, rt.alloc())?;
    assert!(rt; ran.node.is_none() && ran.first.is_none());
    Ok(())
}
