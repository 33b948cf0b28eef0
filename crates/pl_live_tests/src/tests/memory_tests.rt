//! A channel of which `checks/refused_tests.sh` refuses each allocation in turn. Whichever it is, the test passes.

use crate::tests::cutting::Burst;
use crate::tests::handed::Seen;
use crate::tests::sessions::{WIDE, memory_transport};
use pl_event::{ByteString, Element, Event, Sequence};
use pl_head::MemoryTransport;
use pl_live::{FeedFault, Live};
use pl_stages::Handler;
use pl_text::{SessionFault, read_session};
use pl_text_tests::PING_SESSION;
use pl_world::{Recorded, Session, WorldRefusal};
use std::alloc::Global;
use std::process::Abort;

/// A live channel of built-in handlers, over memory.
type Channel = Live<Handler, MemoryTransport>;

/// The channel of a session, as it is recorded, where there is memory for it.
fn recorded(rt: &impl Abort, alloc: Global) -> Option<Recorded<Handler, MemoryTransport>> {
    match read_session(alloc, PING_SESSION) {
        Ok(Session { world, .. }) => world.into_channels().into_vec().pop(),
        Err(fault) => {
            assert_eq!(rt; fault, SessionFault::Memory);
            None
        }
    }
}

/// The same, live. It is refused only as out of memory.
fn begun(rt: &impl Abort, alloc: Global) -> Option<Channel> {
    let Recorded { pipeline, .. } = recorded(rt, alloc)?;
    match Live::new(alloc, pipeline, memory_transport(alloc, WIDE, None)) {
        Ok(live) => Some(live),
        Err(refusal) => {
            assert_eq!(rt; refusal, WorldRefusal::Memory);
            None
        }
    }
}

/// A burst of one chunk, where there is memory for it.
fn burst(alloc: Global, bytes: &[u8]) -> Option<Burst> {
    let chunk = ByteString::from_slice(alloc, bytes).ok()?;
    let mut burst = Sequence::new(alloc);
    burst.push(Element::Chunk(chunk)).ok()?;
    Some(burst)
}

/// What a client says, burst by burst. Some of it needs memory of its own.
const INPUT: [&[u8]; 4] = [
    b"PING\r\n",
    b"ECHO more than a few bytes",
    b"\nADD a 7\n",
    b"GET a\n",
];

const OUTPUT: &[u8] = b"+PONG\r\n+more than a few bytes\r\n:7\r\n:7\r\n";

const TAIL: [Seen; 9] = [
    Seen::Active,
    Seen::Ping,
    Seen::ReadComplete,
    Seen::ReadComplete,
    Seen::Echo(b"more than a few bytes"),
    Seen::Add(b"a", 7),
    Seen::ReadComplete,
    Seen::Get(b"a"),
    Seen::ReadComplete,
];

/// Feeds a burst. Where that is refused for memory the channel is as it was, and takes the burst the next time.
fn feed(rt: &impl Abort, alloc: Global, live: &mut Channel, bytes: &[u8]) -> Option<()> {
    let (first, second) = (burst(alloc, bytes)?, burst(alloc, bytes)?);
    let has_failed = live.cause().is_some();
    let (wants_input, pending) = (live.wants_input(), live.pending_output().len());
    match live.feed(first) {
        Ok(()) => {}
        Err(FeedFault::Memory) => {
            assert!(rt; live.wants_input() == wants_input);
            assert!(rt; live.pending_output().len() == pending);
            assert_eq!(rt; live.feed(second), Ok(()));
        }
        Err(fault) => {
            assert!(rt; has_failed);
            assert_eq!(rt; fault, FeedFault::Closed);
        }
    }
    Some(())
}

/// How many events are handed out. They begin what is to come.
fn events_delivered(rt: &impl Abort, live: &mut Channel) -> usize {
    let mut count = 0usize;
    for seen in &TAIL {
        match live.next_event() {
            Some(event) => {
                assert!(rt; seen.is(&event), "{event:?} is not {seen:?}");
                drop(event);
                count = count.saturating_add(1);
            }
            None => break,
        }
    }
    count
}

/// Whether the pending bytes are all of these. They begin them.
fn is_all_pending(rt: &impl Abort, live: &Channel, want: &[u8]) -> bool {
    let pending = live.pending_output();
    assert!(rt; want.starts_with(pending));
    pending.len() == want.len()
}

/// What a channel hands out begins what is to come of all that was fed, and is all of it where it tells no cause.
fn assert_handed_out(rt: &impl Abort, live: &mut Channel) {
    let is_sent = is_all_pending(rt, live, OUTPUT);
    let is_delivered = events_delivered(rt, live) == TAIL.len();
    live.end();
    let is_whole = is_sent && is_delivered && live.is_done();
    assert!(rt; is_whole || live.cause().is_some());
}

/// Feeds all, where there is memory for the bursts, and asserts what is handed out.
fn plays(rt: &impl Abort, alloc: Global) -> Option<()> {
    let mut live = begun(rt, alloc)?;
    for bytes in &INPUT {
        feed(rt, alloc, &mut live, bytes)?;
    }
    assert_handed_out(rt, &mut live);
    Some(())
}

#[test]
fn refused_growth_while_fed(rt: HostRuntime) {
    let _ = plays(&rt, rt.alloc());
}
