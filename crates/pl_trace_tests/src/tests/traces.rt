//! Traces of the tutorial's moves.

use crate::tests::lines::{count_of, rests};
use crate::tests::running::{Runtime, refuses, run, same, says, traced, traces};
use crate::tests::sessions::{HELD, TWO, failing};
use pl_replay::replay;
use pl_schedule::{Order, schedule};
use pl_text::{add_event, add_hex, moves_as_text, read_session};
use pl_text_tests::{DECODER_APART, PING_SESSION};
use pl_world::{ChannelReport, Move};
use std::alloc::Global;
use std::process::Abort;
use std::test::Fail;

#[test]
fn ping(rt: HostRuntime) -> Result<(), Fail> {
    let trace = "1 R0
  0/lines takes #0 Active
  0/decode takes #0 Active
  0/service takes #0 Active
  0/tail takes #0 Active
  0/tail records Active
2 R0
  0/lines takes #1 Read Bytes 50494e470d0a
  0/lines takes #2 ReadComplete
  0/decode takes #1 Read Line 50494e47
  0/decode takes #2 ReadComplete
  0/service takes #1 Read Ping
  0/service takes #2 ReadComplete
  0/tail takes #1 Read Ping
  0/encode takes #0 Write Reply 2b504f4e47
  0/tail takes #2 ReadComplete
  0/encode takes #1 Flush
  0/lineend takes #0 Write Bytes 2b504f4e47
  0/lineend takes #1 Flush
  0/head takes #0 Write Bytes 2b504f4e470d0a
  0/head takes #1 Flush
  0/tail records Read Ping
  0/tail records ReadComplete
3 R0
  0/lines takes #3 end
  0/decode takes #3 end
  0/service takes #3 end
  0/tail takes #3 end
  0/encode takes #2 end
  0/lineend takes #2 end
  0/head takes #2 end
4 O0
  0/transport accepts 7 2b504f4e470d0a
  0/write 0 Success
  channel 0 drained
end, 0 passed over
  channel 0 drained
";
    traces(&rt, "R0x3 O0", PING_SESSION, 0, trace)
}

/// The table of the tutorial.
#[test]
fn there_and_back(rt: HostRuntime) -> Result<(), Fail> {
    let trace = "1 R0
  0/lines takes #0 Active
  0/decode #0 Active waits at 0 for 1
2 H0
  0/decode #0 Active goes to the queue of 1
3 T1
  0/decode takes #0 Active
  0/service #0 Active waits at 1 for 0
4 H1
  0/service #0 Active goes to the queue of 0
5 T0
  0/service takes #0 Active
  0/tail takes #0 Active
  0/tail records Active
end, 0 passed over
  channel 0 open
";
    traces(&rt, "R0 H0 T1 H1 T0", DECODER_APART, 1, trace)
}

/// The second hand-over finds the queue full; a task, a write and a read are not enabled either.
#[test]
fn passed_over(rt: HostRuntime) -> Result<(), Fail> {
    let trace = "1 T0 passed over: the queue of executor 0 is empty
2 H0 passed over: nothing waits at executor 0
3 O0 passed over: no flushed byte of channel 0 waits
4 R0
  0/lines takes #0 Active
  0/decode #0 Active waits at 0 for 1
5 R0
  0/lines takes #1 Read Bytes 50494e470d0a
  0/lines takes #2 ReadComplete
  0/decode #1 Read Line 50494e47 waits at 0 for 1
  0/decode #2 ReadComplete waits at 0 for 1
6 H0
  0/decode #0 Active goes to the queue of 1
7 H0 passed over: what waits at executor 0 is for full queues
end, 4 passed over
  channel 0 open
  backlog of 0 for 1: 0/decode #1 Read Line 50494e47
  backlog of 0 for 1: 0/decode #2 ReadComplete
  queue of 1: 0/decode #0 Active
";
    traces(&rt, "T0 H0 O0 R0x2 H0x2", DECODER_APART, 1, trace)
}

/// The transport fails, and the failure goes to the handlers.
#[test]
fn failure(rt: HostRuntime) -> Result<(), Fail> {
    let session = failing(rt.alloc())?;
    let said = traced(&rt, "R0x2 (H0 T1 H1 T0)x3 O0x3 R0x2", session.as_str())?;
    assert!(rt;
        said.out()?.ends_with(
            "15 O0
  0/transport accepts 4 2b504f4e
16 O0
  0/write 0 Fault
  channel 0 failed Transport
17 O0 passed over: the head of channel 0 has failed
18 R0
  0/lines takes #3 failure Transport
  0/decode #3 failure Transport waits at 0 for 1
19 R0 passed over: no read step of channel 0 is left
end, 2 passed over
  channel 0 failed Transport
  backlog of 0 for 1: 0/decode #3 failure Transport
"
        )
    );
    same(&rt, said.status, 1);
    Ok(())
}

/// A move that names nothing refuses all of them, and is named.
#[test]
fn no_such(rt: HostRuntime) -> Result<(), Fail> {
    let refusal = "replay refused: 1 NoSuch\nat move 2: T2\n";
    refuses(&rt, "R0 T2", DECODER_APART, refusal)
}

/// A burst that is held is passed over, and the flags of writability go up to the tail on lanes of their own.
#[test]
fn held(rt: HostRuntime) -> Result<(), Fail> {
    let said = traced(&rt, "R0x3 O0", HELD)?;
    assert!(rt;
        said.out()?.ends_with(
            "3 R0 passed over: the next burst of channel 0 is held
4 O0
  0/lines takes ~1 writable
  0/decode takes ~1 writable
  0/service takes ~1 writable
  0/tail takes ~1 writable
  0/transport accepts 7 2b504f4e470d0a
  0/write 0 Success
end, 1 passed over
  channel 0 open
"
        )
    );
    Ok(())
}

/// The first items of a queue and of a backlog are named, and how many more there are.
#[test]
fn many_left(rt: HostRuntime) -> Result<(), Fail> {
    let alloc = rt.alloc();
    let lines = "A\\n".repeat(alloc, 40)?;
    let session = DECODER_APART.replace(alloc, "PING\\r\\n", lines.as_str())?;
    let said = traced(&rt, "R0x2", session.as_str())?;
    let text = said.out()?;
    same(&rt, count_of(text, "  backlog of 0 for 1: 0/decode #"), 16);
    assert!(rt; text.ends_with("  backlog of 0 for 1: 26 more\n"));
    Ok(())
}

/// A line feed in a name is no line feed of the trace.
#[test]
fn hostile_name(rt: HostRuntime) -> Result<(), Fail> {
    let alloc = rt.alloc();
    let session = PING_SESSION.replace(
        alloc,
        r#""name":"lines""#,
        r#""name":"a\nb\u0007\u009b<&>""#,
    )?;
    let said = traced(&rt, "R0", session.as_str())?;
    assert!(rt;
        said.out()?
            .starts_with("1 R0\n  0/a?b??<&> takes #0 Active\n")
    );
    Ok(())
}

/// The moves of a file, with a comment, and a file that is not there.
#[test]
fn file(rt: HostRuntime) -> Result<(), Fail> {
    std::fs::write(&rt, "schedule.txt", "R0 # the first\n\nO0\n")?;
    let words = ["moves", "--moves-file", "schedule.txt"];
    let said = run(&rt, &words, PING_SESSION)?;
    same(&rt, said.err()?, "");
    assert!(rt;
        said.out()?.ends_with(
            "2 O0 passed over: no flushed byte of channel 0 waits\nend, 1 passed over\n  channel 0 open\n"
        )
    );
    let words = ["moves", "--moves-file", "none.txt"];
    let refusal = "input refused\nat none.txt\n";
    says(&rt, &words, PING_SESSION, 3, "", refusal)
}

/// A trace, and the report of one channel, of which it has to tell the same.
#[derive(Clone, Copy)]
struct Channel<'a> {
    trace: &'a str,
    number: usize,
    report: &'a ChannelReport,
}

impl<'a> Channel<'a> {
    /// The events that the trace tells of its tail are those of the report.
    fn has_tail(self, rt: &impl Abort, alloc: Global) -> Result<(), Fail> {
        let mut tail = Vec::new(alloc);
        for event in self.report.tail.as_slice() {
            add_event(&mut tail, event)?;
            tail.push(b'\n')?;
        }
        let records = format!(in alloc; "  {}/tail records ", self.number)?;
        let recorded = rests(alloc, self.trace, records.as_str(), "\n")?;
        same(rt, recorded.as_bytes(), tail.as_slice());
        Ok(())
    }

    /// So are the bytes of its transport.
    fn has_bytes(self, rt: &impl Abort, alloc: Global) -> Result<(), Fail> {
        let accepts = format!(in alloc; "  {}/transport accepts ", self.number)?;
        let calls = rests(alloc, self.trace, accepts.as_str(), "\n")?;
        let mut accepted = String::new(alloc);
        for call in calls.as_str().split('\n') {
            if let Some((_, hex)) = call.split_once(' ') {
                accepted.push_str(hex)?;
            }
        }
        let mut bytes = Vec::new(alloc);
        if !self.report.bytes.is_empty() {
            add_hex(&mut bytes, self.report.bytes.as_slice())?;
        }
        same(rt, accepted.as_bytes(), bytes.as_slice());
        Ok(())
    }

    /// So are the outcomes of its writes, each told once.
    fn has_writes(self, rt: &impl Abort, alloc: Global) -> Result<(), Fail> {
        let number = self.number;
        let mut settled = 0usize;
        for (write, outcome) in self.report.writes.as_slice().iter().enumerate() {
            if let Some(outcome) = outcome {
                let line = format!(in alloc; "  {number}/write {write} {outcome:?}\n")?;
                same(rt, count_of(self.trace, line.as_str()), 1);
                settled = settled.saturating_add(1);
            }
        }
        let writes = format!(in alloc; "  {number}/write ")?;
        same(rt, count_of(self.trace, writes.as_str()), settled);
        Ok(())
    }
}

/// Says that a trace of these moves of a session tells what the report of their replay says of all channels.
fn tells_report(rt: &impl Runtime, session: &str, moves: &[Move]) -> Result<(), Fail> {
    let alloc = rt.alloc();
    let text = moves_as_text(alloc, moves)?;
    let said = traced(rt, text.as_str(), session)?;
    let trace = said.out()?;
    same(rt, said.err()?, "");
    let replayed = replay(alloc, read_session(alloc, session)?, moves)?;
    for (number, report) in replayed.channels.as_slice().iter().enumerate() {
        let channel = Channel {
            trace,
            number,
            report,
        };
        channel.has_tail(rt, alloc)?;
        channel.has_bytes(rt, alloc)?;
        channel.has_writes(rt, alloc)?;
    }
    Ok(())
}

/// Of sessions that are drained, held, failed and aborted, wherever the schedule stops.
#[test]
fn reports(rt: HostRuntime) -> Result<(), Fail> {
    let alloc = rt.alloc();
    let failing = failing(alloc)?;
    for &session in &[PING_SESSION, DECODER_APART, failing.as_str(), HELD, TWO] {
        let made = schedule(alloc, read_session(alloc, session)?, Order::Seed(7))?;
        for end in 0..=made.moves.len() {
            let moves = made.moves.as_slice().get(..end).unwrap_or(&[]);
            tells_report(&rt, session, moves)?;
        }
    }
    Ok(())
}
