//! Channels that no burst may come to any more.

use crate::tests::cutting::burst_of;
use crate::tests::handed::{Seen, assert_handed, assert_stands};
use crate::tests::sessions::{Channel, WIDE, channel_of};
use pl_event::Cause;
use pl_live::FeedFault;
use pl_text_tests::PING_SESSION;
use std::process::Abort;
use std::test::Fail;

/// Asserts that a burst of these chunks is refused so.
pub(crate) fn assert_refused(
    rt: &impl Abort,
    fed: &mut Channel,
    chunks: &[&[u8]],
    want: FeedFault,
) -> Result<(), Fail> {
    let burst = burst_of(fed.alloc, chunks)?;
    assert_eq!(rt; fed.live.feed(burst), Err(want));
    Ok(())
}

/// Asserts that a channel refuses what is fed, and hands out nothing more.
pub(crate) fn assert_closed(rt: &impl Abort, fed: &mut Channel) -> Result<(), Fail> {
    let (events, bytes) = (fed.events.len(), fed.bytes.len());
    assert!(rt; !fed.live.wants_input());
    assert_refused(rt, fed, &[b"PING\n"], FeedFault::Closed)?;
    fed.take_all()?;
    assert_eq!(rt; fed.events.len(), events);
    assert_eq!(rt; fed.bytes.len(), bytes);
    Ok(())
}

/// A client that says `PING`, quits, and goes on.
const QUITS: &[u8] = b"PING\nQUIT\nPING\nPI";

const QUIT_TAIL: [Seen; 3] = [Seen::Active, Seen::Ping, Seen::Quit];

const QUIT_SENT: &[u8] = b"+PONG\r\n+BYE\r\n";

/// Asserts that a channel with this cause, which was fed a client that quits, has sent these bytes and no other, and is closed
/// before the end is said and behind it.
fn assert_sent(
    rt: &impl Abort,
    fed: &mut Channel,
    bytes: &[u8],
    cause: Option<Cause>,
) -> Result<(), Fail> {
    fed.take_all()?;
    assert_handed(rt, fed, &QUIT_TAIL, bytes);
    assert_closed(rt, fed)?;
    assert_stands(rt, fed, false, false, cause);
    fed.live.end();
    assert_closed(rt, fed)?;
    assert_stands(rt, fed, false, true, cause);
    Ok(())
}

/// Once a client has quit nothing is fed.
#[test]
fn quit_then_fed(rt: HostRuntime) -> Result<(), Fail> {
    let mut fed = channel_of(rt.alloc(), PING_SESSION, WIDE, None)?;
    fed.feed(&[QUITS])?;
    assert_sent(&rt, &mut fed, QUIT_SENT, None)
}

/// Behind the end nothing is fed, and what was pending stays so. Said once more it changes nothing.
#[test]
fn end_twice(rt: HostRuntime) -> Result<(), Fail> {
    let mut fed = channel_of(rt.alloc(), PING_SESSION, WIDE, None)?;
    fed.feed(&[b"PING\r\n"])?;
    for _ in 0..2 {
        fed.live.end();
        assert_refused(&rt, &mut fed, &[b"PING\n"], FeedFault::Closed)?;
        assert_stands(&rt, &fed, false, true, None);
        assert_eq!(rt; fed.live.pending_output(), b"+PONG\r\n".as_slice());
    }
    fed.take_all()?;
    let tail = [Seen::Active, Seen::Ping, Seen::ReadComplete];
    assert_handed(&rt, &fed, &tail, b"+PONG\r\n");
    assert_stands(&rt, &fed, false, true, None);
    Ok(())
}

/// How a channel ends whose transport accepts four bytes a call and fails at one: the number of that call, and which bytes leave.
const FAULTS: [(u32, &[u8]); 5] = [
    (1, b""),
    (2, b"+PON"),
    (3, b"+PONG\r\n"),
    (4, b"+PONG\r\n+BYE"),
    (5, QUIT_SENT),
];

/// At whichever call a transport fails, what left before it is handed out, and its cause is told. What is read in the same
/// call reaches the tail. Only a fifth call is not made.
#[test]
fn failing_transport_while_fed(rt: HostRuntime) -> Result<(), Fail> {
    for &(call, bytes) in &FAULTS {
        let mut fed = channel_of(rt.alloc(), PING_SESSION, 4, Some(call))?;
        fed.feed(&[QUITS])?;
        let cause = if call < 5 {
            Some(Cause::Transport)
        } else {
            None
        };
        assert_sent(&rt, &mut fed, bytes, cause)?;
    }
    Ok(())
}

/// A transport fails in the second of two bursts: the first is served, and the third refused.
#[test]
fn failing_transport_between_bursts(rt: HostRuntime) -> Result<(), Fail> {
    let mut fed = channel_of(rt.alloc(), PING_SESSION, 4, Some(4))?;
    fed.feed(&[b"PING\n"])?;
    assert_stands(&rt, &fed, true, false, None);
    fed.feed(&[b"PING\n"])?;
    fed.take_all()?;
    let tail = [
        Seen::Active,
        Seen::Ping,
        Seen::ReadComplete,
        Seen::Ping,
        Seen::ReadComplete,
    ];
    assert_handed(&rt, &fed, &tail, b"+PONG\r\n+PON");
    assert_closed(&rt, &mut fed)?;
    assert_stands(&rt, &fed, false, false, Some(Cause::Transport));
    fed.live.end();
    assert_stands(&rt, &fed, false, true, Some(Cause::Transport));
    Ok(())
}

#[test]
fn faults_are_named(rt: HostRuntime) -> Result<(), Fail> {
    for &(fault, name) in &[
        (FeedFault::Memory, "1 Memory"),
        (FeedFault::Full, "2 Full"),
        (FeedFault::Closed, "3 Closed"),
    ] {
        let told = format!(in rt.alloc(); "{fault}")?;
        assert_eq!(rt; told.as_str(), name);
    }
    Ok(())
}
