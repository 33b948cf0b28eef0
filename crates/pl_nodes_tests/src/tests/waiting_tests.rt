//! What waits for several targets: its order, also where something was taken and put back.

ghost use Rattle.std.specs.Prelude.{◌≡◌, ◌+◌, ◌<◌, IfOk};
ghost use Rattle.pl_nodes_tests.specs.Samples.{WaitsForThree};

use crate::tests::context_tests::data;
use pl_context::Waiting;
use pl_event::Item;
use std::alloc::{AllocError, Global};
use std::process::Abort;
use std::test::Fail;

/// Nothing waits for any of three targets.
fn for_three(alloc: Global) -> Result<Waiting<u8>, AllocError>
    ensures waits { IfOk result (λ waiting. WaitsForThree waiting) }
    ensures added { IfOk result (λ waiting. waiting.added ≡ 0) }
{
    Waiting::new(alloc, [1, 1, 1].as_slice())
}

/// Adds the end of a lane for a target. Its number is its token too.
fn add(waiting: &mut Waiting<u8>, target: usize, number: u8)
    requires waits { WaitsForThree waiting.old }
    requires target { target < 3 }
    requires few { waiting.old.added < 100 }
    ensures waits { WaitsForThree waiting.new }
    ensures added { waiting.new.added ≡ waiting.old.added + 1 }
{
    waiting.add(target, data(2, u64::from(number), Item::End), number);
}

/// Takes the oldest envelope for a target, and answers its token.
fn take(waiting: &mut Waiting<u8>, target: usize) -> Option<u8>
    requires waits { WaitsForThree waiting.old }
    ensures waits { WaitsForThree waiting.new }
    ensures added { waiting.new.added ≡ waiting.old.added }
{
    let (envelope, token) = waiting.take(target)?;
    drop(envelope);
    Some(token)
}

/// Takes the oldest envelope for a target, and puts it back.
fn try_one(waiting: &mut Waiting<u8>, target: usize)
    requires waits { WaitsForThree waiting.old }
    ensures waits { WaitsForThree waiting.new }
    ensures added { waiting.new.added ≡ waiting.old.added }
{
    if let Some((envelope, token)) = waiting.take(target) {
        waiting.put_back(target, envelope, token);
    }
}

/// The target of the oldest envelope for one that is open: those from `first` on and below `end`.
fn oldest_of(waiting: &Waiting<u8>, first: usize, end: usize) -> Option<usize> {
    waiting.oldest(|target| first <= target && target < end)
}

/// The target of the oldest envelope.
fn oldest(waiting: &Waiting<u8>) -> Option<usize> {
    oldest_of(waiting, 0, 3)
}

/// The targets of what waits, the oldest first, with their tokens, are these.
fn assert_drained(rt: &impl Abort, mut waiting: Waiting<u8>, want: &[(usize, u8)])
    requires { WaitsForThree waiting }
{
    for (target, token) in want {
        assert!(rt; oldest(&waiting) == Some(*target));
        assert!(rt; take(&mut waiting, *target) == Some(*token));
    }
    assert!(rt; oldest(&waiting) == None);
}

/// Two envelopes for 2, two for 0 and one for 1 wait. That of 1 is the third.
fn add_five(waiting: &mut Waiting<u8>)
    requires waits { WaitsForThree waiting.old }
    requires few { waiting.old.added ≡ 0 }
    ensures { WaitsForThree waiting.new }
{
    add(waiting, 2, 0);
    add(waiting, 0, 1);
    add(waiting, 1, 2);
    add(waiting, 0, 3);
    add(waiting, 2, 4);
}

/// The oldest of the five, where some targets are closed or none.
fn assert_five(rt: &impl Abort, waiting: &Waiting<u8>) {
    assert!(rt; !waiting.is_empty());
    assert!(rt; waiting.count(0) == 2);
    assert!(rt; oldest(waiting) == Some(2));
    assert!(rt; oldest_of(waiting, 1, 2) == Some(1));
    assert!(rt; oldest_of(waiting, 0, 0) == None);
}

/// The queue of 2 is full: its envelope is still the oldest, and 0 has the oldest of the others.
fn assert_full_queue(rt: &impl Abort, waiting: &mut Waiting<u8>)
    requires { WaitsForThree waiting.old }
    ensures { WaitsForThree waiting.new }
{
    try_one(waiting, 2);
    assert!(rt; oldest(waiting) == Some(2));
    assert!(rt; oldest_of(waiting, 0, 2) == Some(0));
}

/// What is left for 0 is younger than what waits for 1.
fn assert_younger(rt: &impl Abort, waiting: &mut Waiting<u8>)
    requires { WaitsForThree waiting.old }
    ensures { WaitsForThree waiting.new }
{
    assert!(rt; take(waiting, 0) == Some(1));
    assert!(rt; oldest_of(waiting, 0, 2) == Some(1));
    try_one(waiting, 1);
    assert!(rt; oldest_of(waiting, 0, 2) == Some(1));
    assert!(rt; waiting.count(1) == 1);
}

#[test]
fn what_waits_keeps_its_order(rt: HostRuntime) -> Result<(), Fail> {
    let mut waiting = for_three(rt.alloc())?;
    assert!(rt; waiting.is_empty());
    assert!(rt; oldest(&waiting) == None);
    add_five(&mut waiting);
    assert_five(&rt, &waiting);
    assert_full_queue(&rt, &mut waiting);
    assert_younger(&rt, &mut waiting);
    assert_drained(&rt, waiting, &[(2, 0), (1, 2), (0, 3), (2, 4)]);
    Ok(())
}

/// A target for which nothing waits any more is asked for no longer, and comes last when something does again.
#[test]
fn emptied_target_comes_last(rt: HostRuntime) -> Result<(), Fail> {
    let mut waiting = for_three(rt.alloc())?;
    add(&mut waiting, 1, 0);
    add(&mut waiting, 2, 1);
    assert!(rt; take(&mut waiting, 1) == Some(0));
    assert!(rt; take(&mut waiting, 1) == None);
    assert!(rt; oldest(&waiting) == Some(2));
    add(&mut waiting, 1, 2);
    assert!(rt; oldest(&waiting) == Some(2));
    assert_drained(&rt, waiting, &[(2, 1), (1, 2)]);
    Ok(())
}
