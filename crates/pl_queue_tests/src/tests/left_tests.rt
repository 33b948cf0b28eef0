//! What is left at the end, also where memory is refused.

use crate::events::data_lane;
use crate::tests::assert_is;
use crate::tests::boxes::{BoxKind, leave_one_by};
use crate::tests::leaving::Stopped;
use crate::tests::relays::Relayed;
use pl_event::{Envelope, Event, Item};
use pl_queue::OpenRefusal;
use std::alloc::Global;
use std::marker::Brand;
use std::process::Abort;
use std::sync::Wait;
use std::test::*;

// The envelope with this number.
fn numbered(number: u64, event: Event) -> Envelope {
    Envelope {
        lane: data_lane(0),
        number,
        item: Item::Event(event),
    }
}

// It is this envelope alone.
fn assert_only(rt: &impl Abort, envelopes: &[Envelope], only: Envelope) {
    assert_is(rt, &envelopes.len(), 1);
    for envelope in envelopes {
        assert_eq!(rt; *envelope, only);
    }
    drop(only);
}

// Of each of so many lanes so many envelopes were handed over and taken, and so many are left.
pub(crate) fn assert_account(
    rt: &impl Abort,
    relayed: &Relayed,
    lanes: usize,
    handed: u64,
    taken: u64,
    left: usize,
) {
    assert_is(rt, &relayed.left.lanes.len(), lanes);
    for entry in relayed.left.lanes.as_slice() {
        assert_is(rt, &entry.handed, handed);
        assert_is(rt, &entry.taken, taken);
        assert_is(rt, &entry.left.len(), left);
    }
}

// Two were handed over, one was taken, and the envelope with the number 1 is left.
pub(crate) fn one_is_left(rt: &impl Abort, relayed: Relayed) {
    assert_only(rt, relayed.taken.as_slice(), numbered(0, Event::Active));
    assert_account(rt, &relayed, 1, 2, 1, 1);
    for entry in relayed.left.lanes.as_slice() {
        assert_only(rt, entry.left.as_slice(), numbered(1, Event::ReadComplete));
    }
}

// With ample memory as above. An allocation that is refused is told by `open` or `finish`, or was one of their lists.
fn left_or_refused(rt: &impl Abort, ended: Result<Relayed, Stopped>) {
    match ended {
        Ok(relayed) => one_is_left(rt, relayed),
        Err(stopped) => {
            let is_refusal = matches!(
                stopped,
                Stopped::Open(OpenRefusal::Memory) | Stopped::Finish
            );
            assert!(rt; is_refusal);
        }
    }
}

pub(crate) fn left_by<R: Wait>(rt: &R, alloc: Global, kind: BoxKind) -> Result<Relayed, Stopped> {
    leave_one_by::<Brand, R>(kind, rt, alloc, data_lane(0))
}

#[test]
fn refused_memory_ring(rt: HostRuntime) -> Result<(), Fail> {
    left_or_refused(&rt, left_by(&rt, rt.alloc(), BoxKind::Ring));
    Ok(())
}

#[test]
fn refused_memory_waiting(rt: HostRuntime) -> Result<(), Fail> {
    left_or_refused(&rt, left_by(&rt, rt.alloc(), BoxKind::Waiting));
    Ok(())
}
