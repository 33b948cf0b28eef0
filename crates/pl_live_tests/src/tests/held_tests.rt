//! Bursts that are held while the channel is not writable, and who is to read no more then.

use crate::tests::handed::{Seen, assert_events, assert_stands};
use crate::tests::sessions::{
    Channel, LINES, LONG_LINES, LOW_MARKS, SECOND_FLUSH, SERVED, WIDE, channel_of, slow_channel_of,
    text_of,
};
use std::alloc::{AllocError, Global};
use std::process::Abort;
use std::test::Fail;

/// How many bytes are echoed of each line.
const ECHOED: usize = 8_000;

/// With its sign and its line end.
pub(crate) const SENT: usize = ECHOED + 3;

/// From how many bytes on that wait to be consumed the transport is offered no more.
const ENOUGH: usize = 65_536;

/// Ten lines that are echoed. Nine answers are more than `ENOUGH`, and eight are fewer.
fn ten_lines(alloc: Global) -> Result<Vec<u8>, AllocError> {
    let text = vec![in alloc; b'x'; ECHOED]?;
    let mut lines = Vec::new(alloc);
    for _ in 0..10 {
        lines.extend_from_slice(b"ECHO ")?;
        lines.extend_from_slice(text.as_slice())?;
        lines.extend_from_slice(b"\n")?;
    }
    Ok(lines)
}

/// A channel that was fed the ten lines, and whose output nobody takes: the tenth answer waits, and is above the high mark.
pub(crate) fn fed_ten(alloc: Global) -> Result<Channel, Fail> {
    let text = text_of(alloc, (1, LONG_LINES, SERVED, LOW_MARKS, "[]"))?;
    let mut fed = channel_of(alloc, text.as_str(), WIDE, None)?;
    let lines = ten_lines(alloc)?;
    fed.feed(&[lines.as_slice()])?;
    Ok(fed)
}

/// Asserts how many events were handed out, and how many bytes are pending.
fn assert_so_far(
    rt: &impl Abort,
    fed: &mut Channel,
    events: usize,
    pending: usize,
) -> Result<(), Fail> {
    fed.take_events(u64::MAX)?;
    assert_eq!(rt; fed.events.len(), events);
    assert_eq!(rt; fed.live.pending_output().len(), pending);
    Ok(())
}

/// Takes all, and asserts that the last two events are those of a `PING`, that so many bytes were sent, its answer last, and
/// that the channel is over or else wants a burst.
fn assert_pong_last(rt: &impl Abort, fed: &mut Channel, is_done: bool) -> Result<(), Fail> {
    fed.take_all()?;
    let events = fed.events.as_slice();
    assert_eq!(rt; events.len(), 14);
    assert_events(rt, &events[12..], &[Seen::Ping, Seen::ReadComplete]);
    assert_eq!(rt; fed.bytes.len(), 10 * SENT + 7);
    assert!(rt; fed.bytes.as_slice().ends_with(b"x\r\n+PONG\r\n"));
    assert_stands(rt, fed, !is_done, is_done, None);
    Ok(())
}

/// A channel whose output nobody takes wants no burst. One that is fed all the same is held until so much was consumed that
/// the transport took what was above the mark.
#[test]
fn marks_hold_a_reader(rt: HostRuntime) -> Result<(), Fail> {
    let mut fed = fed_ten(rt.alloc())?;
    assert_stands(&rt, &fed, false, false, None);
    assert_so_far(&rt, &mut fed, 12, 9 * SENT)?;
    fed.feed(&[b"PING\n"])?;
    assert_so_far(&rt, &mut fed, 12, 9 * SENT)?;
    fed.take_output(9 * SENT - ENOUGH)?;
    assert_so_far(&rt, &mut fed, 12, ENOUGH)?;
    assert_stands(&rt, &fed, false, false, None);
    fed.take_output(1)?;
    assert_so_far(&rt, &mut fed, 14, ENOUGH - 1 + SENT)?;
    assert_stands(&rt, &fed, false, false, None);
    assert_pong_last(&rt, &mut fed, false)
}

/// The end is read behind a burst that is held, and the channel is not over before all of that was written.
#[test]
fn end_behind_a_held_burst(rt: HostRuntime) -> Result<(), Fail> {
    let mut fed = fed_ten(rt.alloc())?;
    fed.feed(&[b"PING\n"])?;
    fed.live.end();
    assert_so_far(&rt, &mut fed, 12, 9 * SENT)?;
    assert_stands(&rt, &fed, false, false, None);
    assert_pong_last(&rt, &mut fed, true)
}

/// The same over a transport that trickles: while a byte of the first answer waits, the second burst is held. Each time a byte
/// is consumed one more comes, so the seventh is pending once six were.
#[test]
fn slow_transport_holds_a_burst(rt: HostRuntime) -> Result<(), Fail> {
    let text = text_of(rt.alloc(), (1, LINES, SERVED, LOW_MARKS, "[]"))?;
    let mut fed = slow_channel_of(rt.alloc(), text.as_str())?;
    fed.feed(&[b"PING\n"])?;
    assert_stands(&rt, &fed, false, false, None);
    fed.feed(&[b"PING\n"])?;
    for count in 1..7 {
        fed.take_events(u64::MAX)?;
        assert_eq!(rt; fed.events.len(), 3);
        assert_eq!(rt; fed.take_output(usize::MAX)?, 1, "byte {count}");
    }
    fed.take_events(u64::MAX)?;
    assert_eq!(rt; fed.events.len(), 5);
    fed.take_all()?;
    assert_eq!(rt; fed.bytes.as_slice(), b"+PONG\r\n+PONG\r\n".as_slice());
    assert_stands(&rt, &fed, true, false, None);
    Ok(())
}

/// An answer above the high mark that a handler has not flushed holds no burst, and its reader is to go on: with the next burst
/// both answers are sent.
#[test]
fn unflushed_output_holds_nothing(rt: HostRuntime) -> Result<(), Fail> {
    let text = text_of(rt.alloc(), (1, SECOND_FLUSH, SERVED, LOW_MARKS, "[]"))?;
    let mut fed = channel_of(rt.alloc(), text.as_str(), WIDE, None)?;
    fed.feed(&[b"PING\n"])?;
    assert_so_far(&rt, &mut fed, 3, 0)?;
    assert_stands(&rt, &fed, true, false, None);
    fed.feed(&[b"PING\n"])?;
    assert_so_far(&rt, &mut fed, 5, 14)?;
    assert_stands(&rt, &fed, true, false, None);
    Ok(())
}
