//! A channel that was fed as much as one may ever be.

use crate::tests::closed_tests::assert_refused;
use crate::tests::handed::{Seen, assert_events};
use crate::tests::sessions::{Channel, WIDE, channel_of, text_of};
use pl_event::{Caught, Event};
use pl_live::{FeedFault, MAX_FED};
use std::alloc::Global;
use std::process::Abort;
use std::test::Fail;

/// Frames whose lengths have four bytes, and nothing that serves them.
const WIDE_FRAMES: &str = r#"{"op":"last","name":"length","kind":"length","width":4,"max":64}"#;

const SERVICE: &str = r#"{"op":"last","name":"service","kind":"service"}"#;

/// How many bytes a burst brings: 64 such bursts have one byte more than a channel may ever be fed.
const MANY: usize = 16_777_216;

/// How many bytes one more may bring behind 63 such bursts: the start, each burst, each chunk and each byte count as one.
const LEFT: usize = MAX_FED - 1 - 63 * (MANY + 2) - 2;

/// A channel that takes frames.
fn frame_channel(alloc: Global) -> Result<Channel, Fail> {
    let text = text_of(alloc, (2, WIDE_FRAMES, SERVICE, "", "[]"))?;
    channel_of(alloc, text.as_str(), WIDE, None)
}

/// The first of these bytes, at most so many.
fn first(bytes: &[u8], most: usize) -> &[u8] {
    &bytes[..most.min(bytes.len())]
}

/// Feeds 63 bursts of these bytes.
fn feed_63(fed: &mut Channel, bytes: &[u8]) -> Result<(), Fail> {
    for _ in 0..63 {
        fed.feed(&[bytes])?;
    }
    Ok(())
}

/// Asserts that the events are those of a channel that was fed one frame that is too long, in so many bursts.
fn assert_too_long(rt: &impl Abort, events: &[Event], bursts: usize) {
    assert!(rt; events.len() > 2);
    let tail = [
        Seen::Active,
        Seen::Caught(Caught::TooLong),
        Seen::ReadComplete,
    ];
    assert_events(rt, &events[..3], &tail);
    for event in &events[3..] {
        assert!(rt; Seen::ReadComplete.is(event));
    }
    assert_eq!(rt; events.len(), bursts.saturating_add(2));
}

/// What is one byte more than there is room for is refused, and what fills the room is taken. Then each burst is refused, one
/// that is empty too. What was refused changes nothing.
#[test]
fn full(rt: HostRuntime) -> Result<(), Fail> {
    let alloc = rt.alloc();
    let bytes = vec![in alloc; 0xffu8; MANY]?;
    let mut fed = frame_channel(alloc)?;
    feed_63(&mut fed, bytes.as_slice())?;
    let last = first(bytes.as_slice(), LEFT);
    let more = first(bytes.as_slice(), LEFT + 1);
    assert_refused(&rt, &mut fed, &[more], FeedFault::Full)?;
    fed.feed(&[last])?;
    assert_refused(&rt, &mut fed, &[], FeedFault::Full)?;
    fed.take_all()?;
    assert_too_long(&rt, fed.events.as_slice(), 64);
    assert!(rt; fed.live.cause().is_none());
    Ok(())
}
