//! Channels through which much goes, of which all is taken that is handed out. `checks/live_memory.py` looks at their memory.

use crate::tests::sessions::{Channel, LONG_LINES, SERVED, WIDE, channel_of, text_of};
use std::alloc::{AllocError, Global};
use std::process::Abort;
use std::test::Fail;

/// How many bytes are echoed of each line, and how many lines a burst has: with `ECHO ` and its end a line has six bytes more.
const ECHOED: usize = 8_000;

const LINES: usize = 125;

/// How many bytes a burst is answered with: each line with its sign and its line end.
const ANSWERED: usize = LINES * (ECHOED + 3);

/// Lines that are to be echoed.
fn lines(alloc: Global) -> Result<Vec<u8>, AllocError> {
    let text = vec![in alloc; b'x'; ECHOED]?;
    let mut lines = Vec::new(alloc);
    for _ in 0..LINES {
        lines.extend_from_slice(b"ECHO ")?;
        lines.extend_from_slice(text.as_slice())?;
        lines.extend_from_slice(b"\n")?;
    }
    Ok(lines)
}

/// Takes all output, and says how many bytes that is.
fn output_taken(fed: &mut Channel) -> usize {
    let mut taken = 0usize;
    for _ in 0..1_000 {
        let count = fed.live.pending_output().len();
        if count == 0 {
            break;
        }
        fed.live.consume(count);
        taken = taken.saturating_add(count);
    }
    taken
}

/// Takes all events, and says how many there are.
fn events_taken(fed: &mut Channel) -> usize {
    let mut taken = 0usize;
    for _ in 0..1_000 {
        if fed.live.next_event().is_none() {
            break;
        }
        taken = taken.saturating_add(1);
    }
    taken
}

/// A billion bytes, in bursts of which each is answered at once; each line reaches the tail, and the burst's end.
#[test]
fn a_billion_bytes(rt: HostRuntime) -> Result<(), Fail> {
    let text = text_of(rt.alloc(), (1, LONG_LINES, SERVED, "", "[]"))?;
    let mut fed = channel_of(rt.alloc(), text.as_str(), WIDE, None)?;
    let lines = lines(rt.alloc())?;
    assert_eq!(rt; events_taken(&mut fed), 1);
    for _ in 0..1_000 {
        fed.feed(&[lines.as_slice()])?;
        assert_eq!(rt; output_taken(&mut fed), ANSWERED);
        assert_eq!(rt; events_taken(&mut fed), LINES + 1);
    }
    fed.live.end();
    assert!(rt; fed.live.is_done() && fed.live.cause().is_none());
    Ok(())
}

/// The same lines, where each second flush passes.
const EACH_SECOND: &str = r#"{"op":"last","name":"flush_every","kind":"flush_every","n":2},
{"op":"last","name":"lines","kind":"lines","max":8192}"#;

/// Two hundred million bytes, whose output is taken at each second burst alone: behind the answers to two bursts come those to a
/// third, which are not flushed. So whenever all output was taken some answer waits.
#[test]
fn an_answer_always_waits(rt: HostRuntime) -> Result<(), Fail> {
    let text = text_of(rt.alloc(), (1, EACH_SECOND, SERVED, "", "[]"))?;
    let mut fed = channel_of(rt.alloc(), text.as_str(), WIDE, None)?;
    let lines = lines(rt.alloc())?;
    fed.feed(&[lines.as_slice()])?;
    assert_eq!(rt; events_taken(&mut fed), LINES + 2);
    for _ in 0..100 {
        fed.feed(&[lines.as_slice()])?;
        fed.feed(&[lines.as_slice()])?;
        assert_eq!(rt; output_taken(&mut fed), ANSWERED * 2);
        assert_eq!(rt; events_taken(&mut fed), LINES * 2 + 2);
    }
    assert!(rt; fed.live.cause().is_none());
    Ok(())
}
