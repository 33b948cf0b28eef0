//! Each over either mailbox: closing under load, the lesson of pl_post's README, and what the calls answer.

use crate::feeding::{Closing, Fed};
use crate::tests::answering::Answer::{self, Closed, Finished, Full, Nothing, Open, Sent, Took};
use crate::tests::answering::{Answers, open_and_ask};
use crate::tests::assert_is;
use crate::tests::four_senders::four_by;
use crate::tests::loads::{BoxKind, EACH, EVENTS, Load, three_by, two_by};
use pl_event::{Envelope, Item, Named};
use pl_post::{Post, StillOpen, Unsent};
use pl_queue::{Mailbox, OpenRefusal, RingBox, WaitingBox};
use pl_queue_tests::{LIMITS, data_lane, event, lists};
use std::alloc::Global;
use std::marker::Brand;
use std::process::Abort;
use std::sync::Wait;
use std::test::*;
use std::thread::Threads;

// The next envelope of a lane, back since the post was closed.
fn closed_at(channel: u16, number: u64) -> Unsent {
    let lane = data_lane(channel);
    if number < EVENTS {
        return Unsent::Closed(event(lane, number));
    }
    Unsent::Closed(Envelope {
        lane,
        number,
        item: Item::End,
    })
}

// How a thread ends: it sent what was taken of its lane, and where that is not all, the next envelope is back.
fn assert_fed(rt: &impl Abort, fed: &Fed, channel: u16, taken: u64, count: u64) {
    assert_is(rt, &fed.sent, taken);
    match &fed.unsent {
        None => assert_is(rt, &fed.sent, count),
        Some(unsent) => {
            assert!(rt; fed.sent < count);
            assert_is(rt, unsent, closed_at(channel, fed.sent));
        }
    }
}

// Each lane comes as the numbers from 0 up to, not including, how many were sent; and the post is closed to the next.
fn assert_load(rt: &impl Abort, load: &Load) {
    assert!(rt; load.served.closed);
    assert!(rt; load.served.in_order);
    assert_is(rt, &load.served.taken[2], 0);
    assert_fed(rt, &load.first, 0, load.served.taken[0], EVENTS);
    assert_fed(rt, &load.second, 1, load.served.taken[1], EVENTS);
    assert_is(rt, &load.first_after, Err(closed_at(0, load.first.sent)));
    assert_is(rt, &load.second_after, Err(closed_at(1, load.second.sent)));
    let taken = load.served.taken[0].saturating_add(load.served.taken[1]);
    assert!(rt; taken >= 500);
}

fn assert_closing(rt: &impl Abort, closing: &Closing) {
    assert!(rt; closing.served.closed);
    assert!(rt; closing.served.in_order);
    assert_fed(rt, &closing.first, 0, closing.served.taken[0], EVENTS);
    assert_fed(rt, &closing.second, 1, closing.served.taken[1], EVENTS);
    assert_fed(rt, &closing.third, 2, closing.served.taken[2], EVENTS);
}

#[test]
fn post_closes_under_load(rt: HostRuntime) -> Result<(), Fail> {
    for &kind in &EACH {
        let load = two_by::<Brand, HostRuntime>(kind, &rt, rt.alloc()).ok_or("it was not opened")?;
        assert_load(&rt, &load);
        drop(load);
    }
    Ok(())
}

#[test]
fn three_feed_while_closing(rt: HostRuntime) -> Result<(), Fail> {
    for &kind in &EACH {
        let closing = three_by::<Brand, HostRuntime>(kind, &rt, rt.alloc()).ok_or(
            "it was not opened",
        )?;
        assert_closing(&rt, &closing);
        drop(closing);
    }
    Ok(())
}

// Each lane comes as the numbers from 0 up to, not including, how many were sent; and the post is closed to the next.
fn four_senders<R: Threads + Wait + Abort + Sync>(
    rt: &R,
    alloc: Global,
    kind: BoxKind,
) -> Result<(), Fail> {
    let four = four_by::<Brand, R>(kind, rt, alloc).ok_or("it was not opened")?;
    assert!(rt; four.served.closed);
    assert!(rt; four.served.in_order);
    let mut sent = Vec::new(alloc);
    for thread in four.each.as_slice() {
        assert!(rt; matches!(&thread.unsent, None | Some(Unsent::Closed(_))));
        assert_is(rt, &thread.closed_after, 64);
        sent.extend_from_slice(thread.sent.as_slice())?;
    }
    assert_eq!(rt; four.served.taken.as_slice(), sent.as_slice());
    Ok(())
}

#[test]
fn four_senders_of_64_lanes(rt: HostRuntime) -> Result<(), Fail> {
    four_senders(&rt, rt.alloc(), BoxKind::Ring)
}

#[test]
fn four_senders_of_64_lanes_waiting(rt: HostRuntime) -> Result<(), Fail> {
    four_senders(&rt, rt.alloc(), BoxKind::Waiting)
}

// So many admissions are counted.
const fn counted(count: u64, closing: bool) -> Answer {
    Open(StillOpen { count, closing })
}

// First the post is open; then so many sends are answered, and, once closing has begun, an attempt to close and a take. After
// these the post closes, the next send finds it closed, and nothing is left to take.
fn assert_answers<const SENDS: usize>(
    rt: &impl Abort,
    answers: Option<Answers<SENDS>>,
    sends: [Answer; SENDS],
    finish: Answer,
    take: Answer,
) {
    let expected = Answers {
        open: counted(0, false),
        sends,
        closing: [finish, take, Finished, Closed, Nothing, Finished],
    };
    assert_eq!(rt; answers, Some(expected));
}

// Of three sends into a ring of capacity 1 two find it full, and only the first is counted.
#[test]
fn full_gives_the_admission_back(rt: HostRuntime) -> Result<(), Fail> {
    let answers = open_and_ask::<Brand, RingBox<Brand>, HostRuntime, 3>(&rt, rt.alloc());
    assert_answers(&rt, answers, [Sent, Full, Full], counted(1, true), Took(0));
    Ok(())
}

#[test]
fn sends_takes_and_closes(rt: HostRuntime) -> Result<(), Fail> {
    let answers = open_and_ask::<Brand, WaitingBox<Brand>, HostRuntime, 1>(&rt, rt.alloc());
    assert_answers(&rt, answers, [Sent], counted(1, true), Took(0));
    Ok(())
}

// With nothing sent it closes with nothing taken.
#[test]
fn closes_with_nothing_sent(rt: HostRuntime) -> Result<(), Fail> {
    let answers = open_and_ask::<Brand, RingBox<Brand>, HostRuntime, 0>(&rt, rt.alloc());
    assert_answers(&rt, answers, [], Finished, Nothing);
    Ok(())
}

// Why no post is opened.
fn refusal<W: Named, M: Mailbox<W> + Drop>(
    alloc: Global,
    lanes: u16,
    senders: u32,
    capacity: usize,
) -> Option<OpenRefusal> {
    match lists(alloc, lanes, 1, senders) {
        Ok(lists) => Post::<W, M>::open(alloc, lists, capacity).err(),
        Err(_refused) => Some(OpenRefusal::Memory),
    }
}

fn assert_limits<W: Named, M: Mailbox<W> + Drop>(rt: &impl Abort, alloc: Global) {
    for &(lanes, senders, capacity, expected) in &LIMITS {
        assert_is(
            rt,
            &refusal::<W, M>(alloc, lanes, senders, capacity),
            expected,
        );
    }
}

#[test]
fn post_limits(rt: HostRuntime) -> Result<(), Fail> {
    assert_limits::<Brand, RingBox<Brand>>(&rt, rt.alloc());
    assert_limits::<Brand, WaitingBox<Brand>>(&rt, rt.alloc());
    Ok(())
}
