//! What comes of what was fed, however it was cut.

use crate::tests::cutting::{burst_of, chunk};
use crate::tests::handed::{Seen, assert_handed, assert_stands};
use crate::tests::sessions::{
    Channel, WIDE, channel_of, memory_transport, recorded, slow_channel_of,
};
use pl_event::{Caught, Element, Event};
use pl_live::Live;
use pl_text_tests::PING_SESSION;
use pl_world::{Recorded, WorldRefusal};
use std::alloc::Global;
use std::process::Abort;
use std::test::Fail;

const PONG: &[u8] = b"+PONG\r\n";

/// What a channel hands out where a client says `PING`.
const PING_TAIL: [Seen; 3] = [Seen::Active, Seen::Ping, Seen::ReadComplete];

/// A channel of the line protocol, which was fed nothing.
fn line_channel(alloc: Global) -> Result<Channel, Fail> {
    channel_of(alloc, PING_SESSION, WIDE, None)
}

/// Asserts that a channel whose end is said has handed out this, and is over.
fn assert_ends(
    rt: &impl Abort,
    fed: &mut Channel,
    tail: &[Seen],
    bytes: &[u8],
) -> Result<(), Fail> {
    fed.live.end();
    fed.take_all()?;
    assert_handed(rt, fed, tail, bytes);
    assert_stands(rt, fed, false, true, None);
    Ok(())
}

/// A channel that is fed `PING` has the answer pending at once, and hands it out with the events before the end is said.
#[test]
fn live_ping(rt: HostRuntime) -> Result<(), Fail> {
    let mut fed = line_channel(rt.alloc())?;
    fed.take_all()?;
    assert_handed(&rt, &fed, &[Seen::Active], b"");
    assert_stands(&rt, &fed, true, false, None);
    fed.feed(&[b"PING\r\n"])?;
    assert_eq!(rt; fed.live.pending_output(), PONG);
    fed.take_all()?;
    assert_handed(&rt, &fed, &PING_TAIL, PONG);
    assert_stands(&rt, &fed, true, false, None);
    assert_ends(&rt, &mut fed, &PING_TAIL, PONG)
}

/// Once all events were handed out there is none, until one more comes.
#[test]
fn no_event_is_left(rt: HostRuntime) -> Result<(), Fail> {
    let mut fed = line_channel(rt.alloc())?;
    fed.take_events(1)?;
    assert!(rt; fed.live.next_event().is_none());
    assert!(rt; fed.live.next_event().is_none());
    fed.feed(&[b"PING\r\n"])?;
    fed.take_events(2)?;
    assert!(rt; fed.live.next_event().is_none());
    assert_handed(&rt, &fed, &PING_TAIL, b"");
    Ok(())
}

/// Output is consumed in part, and the rest stays pending.
#[test]
fn consumed_in_part(rt: HostRuntime) -> Result<(), Fail> {
    let mut fed = line_channel(rt.alloc())?;
    fed.feed(&[b"PING\r\n"])?;
    assert_eq!(rt; fed.take_output(3)?, 3);
    assert_eq!(rt; fed.live.pending_output(), b"NG\r\n".as_slice());
    fed.feed(&[b"PING\r\n"])?;
    assert_eq!(rt; fed.live.pending_output(), b"NG\r\n+PONG\r\n".as_slice());
    assert_eq!(rt; fed.take_output(100)?, 11);
    assert_eq!(rt; fed.live.pending_output(), b"".as_slice());
    Ok(())
}

/// Lines of the worked examples, one after another.
const INPUT: &[u8] = b"PING\r\nADD a 7\nADD b 1\nADD a 5\nGET a\nECHO a\r\r\nECHO \nECHO\n\nQUIT\n";

/// What is sent for them.
const OUTPUT: &[u8] =
    b"+PONG\r\n:7\r\n:1\r\n:12\r\n:12\r\n+a\r\r\n+\r\n-ERR syntax\r\n-ERR unknown\r\n+BYE\r\n";

/// What is handed out of them, but for what ends each burst.
const MESSAGES: [Seen; 11] = [
    Seen::Active,
    Seen::Ping,
    Seen::Add(b"a", 7),
    Seen::Add(b"b", 1),
    Seen::Add(b"a", 5),
    Seen::Get(b"a"),
    Seen::Echo(b"a\r"),
    Seen::Echo(b""),
    Seen::Caught(Caught::Syntax),
    Seen::Caught(Caught::Unknown),
    Seen::Quit,
];

/// Asserts that the events are those of the lines, and those that end each of so many bursts. Nothing comes behind a client
/// that quits.
fn assert_messages(rt: &impl Abort, events: &[Event], bursts: usize) {
    let mut left = MESSAGES.iter();
    let mut ended = 0usize;
    for event in events {
        if let Event::ReadComplete = event {
            ended = ended.saturating_add(1);
        } else {
            match left.next() {
                Some(seen) => assert!(rt; seen.is(event), "{event:?} is not {seen:?}"),
                None => panic!(rt; "{event:?} is one too many"),
            }
        }
    }
    assert!(rt; left.next().is_none());
    assert_eq!(rt; ended.saturating_add(1), bursts);
}

/// Asserts that a channel that was fed the lines in so many bursts hands out what is to come of them.
fn assert_served(rt: &impl Abort, mut fed: Channel, bursts: usize) -> Result<(), Fail> {
    fed.take_all()?;
    assert_eq!(rt; fed.bytes.as_slice(), OUTPUT);
    assert_messages(rt, fed.events.as_slice(), bursts);
    Ok(())
}

/// The lines in two bursts, cut before the byte at this place.
fn cut_at(alloc: Global, place: usize) -> Result<Channel, Fail> {
    let mut fed = line_channel(alloc)?;
    let (before, after) = INPUT.split_at(place.min(INPUT.len()));
    fed.feed(&[before])?;
    fed.feed(&[after])?;
    Ok(fed)
}

/// The lines in bursts of one byte.
fn byte_by_byte(alloc: Global) -> Result<Channel, Fail> {
    let mut fed = line_channel(alloc)?;
    for byte in INPUT {
        fed.feed(&[[*byte].as_slice()])?;
    }
    Ok(fed)
}

/// Wherever the input is cut, and where it is cut at each byte, the same comes of it.
#[test]
fn cut_at_every_byte(rt: HostRuntime) -> Result<(), Fail> {
    let alloc = rt.alloc();
    for place in 0..INPUT.len() {
        assert_served(&rt, cut_at(alloc, place)?, 2)?;
    }
    assert_served(&rt, byte_by_byte(alloc)?, INPUT.len())
}

/// Asserts what is handed out of a burst with a user event between two chunks.
fn assert_around(
    rt: &(impl Abort + AllocGlobal),
    before: &[u8],
    after: &[u8],
    tail: &[Seen],
    bytes: &[u8],
) -> Result<(), Fail> {
    let mut fed = line_channel(rt.alloc())?;
    let mut burst = burst_of(rt.alloc(), &[before])?;
    burst.push(Element::User(7))?;
    burst.push(chunk(rt.alloc(), after)?)?;
    fed.live.feed(burst)?;
    fed.take_all()?;
    assert_handed(rt, &fed, tail, bytes);
    Ok(())
}

/// What a channel hands out where a user event comes between a `PING` and an echo.
const AROUND_TAIL: [Seen; 5] = [
    Seen::Active,
    Seen::Ping,
    Seen::User(7),
    Seen::Echo(b"a"),
    Seen::ReadComplete,
];

/// A user event comes to the tail in its place among the reads.
#[test]
fn user_event_fed(rt: HostRuntime) -> Result<(), Fail> {
    let sent = b"+PONG\r\n+a\r\n";
    assert_around(&rt, b"PING\n", b"ECHO a\n", &AROUND_TAIL, sent)
}

/// One inside a line comes before it.
#[test]
fn user_event_inside_line_fed(rt: HostRuntime) -> Result<(), Fail> {
    let tail = [Seen::Active, Seen::User(7), Seen::Ping, Seen::ReadComplete];
    assert_around(&rt, b"PI", b"NG\n", &tail, PONG)
}

/// A transport of a user's own, which accepts a byte at every second call: what was not accepted is offered again once there
/// is cause to.
#[test]
fn slow_transport(rt: HostRuntime) -> Result<(), Fail> {
    let mut fed = slow_channel_of(rt.alloc(), PING_SESSION)?;
    fed.feed(&[b"PING\r\n"])?;
    assert_eq!(rt; fed.live.pending_output(), b"".as_slice());
    fed.live.end();
    assert!(rt; !fed.live.is_done());
    fed.take_all()?;
    assert_handed(&rt, &fed, &PING_TAIL, PONG);
    assert!(rt; fed.live.is_done());
    Ok(())
}

/// A decoder on an executor of its own.
const ELSEWHERE: &str =
    r#"{"version":1,"capacity":1,"loops":1,"groups":[{"name":"a","size":1}],"channels":[{"handlers":[
{"op":"last","name":"decode","kind":"decode","group":"a"},
{"op":"last","name":"service","kind":"service"}],"bursts":[]}]}"#;

/// A channel with a handler elsewhere is not made live.
#[test]
fn handler_elsewhere(rt: HostRuntime) -> Result<(), Fail> {
    let alloc = rt.alloc();
    let Recorded { pipeline, .. } = recorded(alloc, ELSEWHERE)?;
    match Live::new(alloc, pipeline, memory_transport(alloc, WIDE, None)) {
        Ok(_) => panic!(rt; "it is made"),
        Err(refusal) => assert_eq!(rt; refusal, WorldRefusal::Limit),
    }
    Ok(())
}

/// Bytes behind the last line end come to nothing.
#[test]
fn end_inside_a_line(rt: HostRuntime) -> Result<(), Fail> {
    let mut fed = line_channel(rt.alloc())?;
    fed.feed(&[b"PI"])?;
    assert_ends(&rt, &mut fed, &[Seen::Active, Seen::ReadComplete], b"")
}
