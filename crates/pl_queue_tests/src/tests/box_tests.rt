//! Each over either box: what a mailbox answers, its limits, what it leaves, the lesson of pl_queue's README, and two lanes
//! from two threads.

use crate::events::data_lane;
use crate::lines::LaneLines;
use crate::openings::{LIMITS, lists};
use crate::tests::answering::Answer::{Full, Nothing, Sent, Took};
use crate::tests::assert_is;
use crate::tests::boxes::{BoxKind, EACH, answers_by, lines_by, looks_by, may_wait_by, relay_by};
use crate::tests::left_tests::{assert_account, left_by, one_is_left};
use crate::tests::relays::Lanes;
use pl_event::{ByteString, Envelope, Event, Item, Lane, Message, Named};
use pl_queue::{Mailbox, RingBox, WaitingBox};
use std::alloc::Global;
use std::marker::Brand;
use std::process::Abort;
use std::sync::Wait;
use std::test::*;
use std::thread::Threads;

// It takes what has room, and gives what it has: bodies that always answer `Full` or None would be proved. A ring that is
// offered one too many is full; a waiting box would wait for ever.
#[test]
fn always_full_or_none(rt: HostRuntime) -> Result<(), Fail> {
    let ring = [
        Nothing,
        Sent,
        Sent,
        Full,
        Took(0),
        Took(1),
        Nothing,
        Nothing,
    ];
    let waiting = [Nothing, Sent, Sent, Took(0), Took(1), Nothing];
    for &(kind, offers, expected) in &[
        (BoxKind::Ring, 3, ring.as_slice()),
        (BoxKind::Waiting, 2, waiting.as_slice()),
    ] {
        let answers = answers_by::<Brand, HostRuntime>(kind, &rt, rt.alloc(), offers);
        assert_is(&rt, &answers.ok_or("no memory")?.as_slice(), expected);
    }
    Ok(())
}

fn assert_limits<W: Named, M: Mailbox<W> + Drop>(
    rt: &impl Abort,
    alloc: Global,
) -> Result<(), Fail> {
    for &(lanes, senders, capacity, refusal) in &LIMITS {
        let opened = M::open(alloc, lists(alloc, lanes, 1, senders)?, capacity);
        assert_is(rt, &opened.err(), refusal);
    }
    Ok(())
}

#[test]
fn mailbox_limits(rt: HostRuntime) -> Result<(), Fail> {
    assert_limits::<Brand, RingBox<Brand>>(&rt, rt.alloc())?;
    assert_limits::<Brand, WaitingBox<Brand>>(&rt, rt.alloc())
}

#[test]
fn one_left(rt: HostRuntime) -> Result<(), Fail> {
    for &kind in &EACH {
        let relayed = left_by(&rt, rt.alloc(), kind).ok().ok_or("it stopped")?;
        one_is_left(&rt, relayed);
    }
    Ok(())
}

fn line(alloc: Global, text: &str) -> Result<ByteString, Fail> {
    Ok(ByteString::from_slice(alloc, text.as_bytes())?)
}

fn read(alloc: Global, text: &str) -> Result<Item, Fail> {
    Ok(Item::Event(Event::Read(Message::Line(line(alloc, text)?))))
}

// These lines came, and then the end of their lane.
fn assert_lines(
    rt: &impl Abort,
    alloc: Global,
    items: Vec<Item>,
    texts: &[&str],
) -> Result<(), Fail> {
    let mut expected = Vec::new(alloc);
    for &text in texts {
        expected.push(read(alloc, text)?)?;
    }
    expected.push(Item::End)?;
    assert_is(rt, &items, expected);
    Ok(())
}

// The items that came by a lane, and all others.
fn by_lane(
    alloc: Global,
    taken: Vec<Envelope>,
    lane: Lane,
) -> Result<(Vec<Item>, Vec<Item>), Fail> {
    let mut own = Vec::new(alloc);
    let mut others = Vec::new(alloc);
    for envelope in taken {
        if envelope.lane == lane {
            own.push(envelope.item)?;
        } else {
            others.push(envelope.item)?;
        }
    }
    Ok((own, others))
}

// Each lane's lines come in order, and then its end.
fn two_threads_hand_over<R: Threads + Wait + Abort + Sync>(
    rt: &R,
    alloc: Global,
    kind: BoxKind,
) -> Result<(), Fail> {
    let first = data_lane(0);
    let lines = Vec::from_array(alloc, [line(alloc, "one")?, line(alloc, "two")?])?;
    let others = Vec::from_array(alloc, [line(alloc, "three")?])?;
    let others = LaneLines {
        lane: data_lane(1),
        lines: others,
    };
    let lines = LaneLines { lane: first, lines };
    let taken = lines_by::<Brand, R>(kind, rt, alloc, lines, others);
    let (lines, others) = by_lane(alloc, taken.ok_or("no memory")?, first)?;
    assert_lines(rt, alloc, lines, &["one", "two"])?;
    assert_lines(rt, alloc, others, &["three"])
}

// The item with this number of a lane of 1,000.
fn item_at(number: u64) -> Item {
    match number {
        0 => Item::Event(Event::Active),
        999 => Item::End,
        _ => Item::Event(Event::ReadComplete),
    }
}

// Each of two lanes comes as the numbers 0 to 999, with their items.
fn assert_in_order(rt: &impl Abort, taken: &[Envelope]) {
    let mut nexts = [0u64; 2];
    for envelope in taken {
        let channel = usize::from(envelope.lane.channel);
        assert!(rt; channel < nexts.len());
        let number = nexts[channel];
        let expected = Envelope {
            lane: data_lane(envelope.lane.channel),
            number,
            item: item_at(number),
        };
        assert_is(rt, envelope, expected);
        nexts[channel] = number.saturating_add(1);
    }
    assert_is(rt, &nexts, [1000, 1000]);
}

// Both lanes come so over a box, and nothing is left.
fn two_lanes<R: Threads + Wait + Abort + Sync>(
    rt: &R,
    alloc: Global,
    kind: BoxKind,
) -> Result<(), Fail> {
    let lanes = Lanes {
        first: data_lane(0),
        second: data_lane(1),
        last: 999,
    };
    let relayed = relay_by::<Brand, R>(kind, rt, alloc, lanes, 2).ok_or("it gave up")?;
    assert_in_order(rt, relayed.taken.as_slice());
    assert_account(rt, &relayed, 2, 1000, 1000, 0);
    Ok(())
}

#[test]
fn two_threads_hand_over_lines(rt: HostRuntime) -> Result<(), Fail> {
    two_threads_hand_over(&rt, rt.alloc(), BoxKind::Ring)?;
    two_threads_hand_over(&rt, rt.alloc(), BoxKind::Waiting)
}

#[test]
fn two_lanes_one_mailbox(rt: HostRuntime) -> Result<(), Fail> {
    two_lanes(&rt, rt.alloc(), BoxKind::Ring)?;
    two_lanes(&rt, rt.alloc(), BoxKind::Waiting)
}

#[test]
fn waiting_for_room(rt: HostRuntime) -> Result<(), Fail> {
    assert!(rt; !may_wait_by::<Brand>(BoxKind::Ring));
    assert!(rt; may_wait_by::<Brand>(BoxKind::Waiting));
    Ok(())
}

// A ring is found full where it is, and empty where it is, and not else; a waiting box does not look.
#[test]
fn found_full_and_empty(rt: HostRuntime) -> Result<(), Fail> {
    let ring = looks_by::<Brand, HostRuntime>(BoxKind::Ring, &rt, rt.alloc());
    assert_is(
        &rt,
        &ring,
        Some([(false, true), (false, false), (true, false), (false, false)]),
    );
    let waiting = looks_by::<Brand, HostRuntime>(BoxKind::Waiting, &rt, rt.alloc());
    assert_is(&rt, &waiting, Some([(false, false); 4]));
    Ok(())
}
