//! Channels that are aborted.

use crate::tests::closed_tests::assert_closed;
use crate::tests::handed::{Seen, assert_handed, assert_stands};
use crate::tests::held_tests::{SENT, fed_ten};
use crate::tests::sessions::{Channel, WIDE, channel_of, slow_channel_of};
use pl_event::Cause;
use pl_text_tests::PING_SESSION;
use std::process::Abort;
use std::test::Fail;

/// `PING` in two bursts.
const BURSTS: [&[u8]; 2] = [b"PI", b"NG\n"];

/// What a channel hands out of them.
const TAIL: [Seen; 4] = [
    Seen::Active,
    Seen::ReadComplete,
    Seen::Ping,
    Seen::ReadComplete,
];

/// Asserts that a channel that was aborted is over, whatever is said to it then.
fn assert_aborted(
    rt: &impl Abort,
    fed: &mut Channel,
    tail: &[Seen],
    bytes: &[u8],
) -> Result<(), Fail> {
    fed.take_all()?;
    assert_handed(rt, fed, tail, bytes);
    assert_closed(rt, fed)?;
    fed.live.end();
    fed.live.abort();
    assert_closed(rt, fed)?;
    assert_stands(rt, fed, false, true, Some(Cause::Aborted));
    Ok(())
}

/// After how many bursts a channel is aborted, and what it has handed out then.
const ABORTS: [(usize, &[Seen], &[u8]); 3] = [
    (0, &[Seen::Active], b""),
    (1, &[Seen::Active, Seen::ReadComplete], b""),
    (2, &TAIL, b"+PONG\r\n"),
];

/// What was made of the bursts before the abort is handed out, and nothing behind it.
#[test]
fn abort_after_each_burst(rt: HostRuntime) -> Result<(), Fail> {
    for &(count, tail, bytes) in &ABORTS {
        let mut fed = channel_of(rt.alloc(), PING_SESSION, WIDE, None)?;
        for burst in BURSTS.iter().take(count) {
            fed.feed(&[burst])?;
        }
        fed.live.abort();
        assert_stands(&rt, &fed, false, true, Some(Cause::Aborted));
        assert_aborted(&rt, &mut fed, tail, bytes)?;
    }
    Ok(())
}

/// A write whose bytes wait is not sent.
#[test]
fn abort_before_the_write(rt: HostRuntime) -> Result<(), Fail> {
    let mut fed = slow_channel_of(rt.alloc(), PING_SESSION)?;
    fed.feed(&[b"PING\r\n"])?;
    fed.live.abort();
    fed.take_all()?;
    let tail = [Seen::Active, Seen::Ping, Seen::ReadComplete];
    assert_handed(&rt, &fed, &tail, b"");
    assert_stands(&rt, &fed, false, true, Some(Cause::Aborted));
    Ok(())
}

/// A burst that is held is not read any more, and what the transport did not accept is not sent. What it accepted stays
/// pending.
#[test]
fn abort_of_a_held_burst(rt: HostRuntime) -> Result<(), Fail> {
    let mut fed = fed_ten(rt.alloc())?;
    fed.feed(&[b"PING\n"])?;
    fed.live.abort();
    fed.take_all()?;
    assert_eq!(rt; fed.events.len(), 12);
    assert_eq!(rt; fed.bytes.len(), 9 * SENT);
    assert_stands(&rt, &fed, false, true, Some(Cause::Aborted));
    Ok(())
}
