//! The printed text of reports.

use crate::ping::PING_REPORT;
use crate::tests::fault_texts::assert_told;
use pl_event::{
    ByteString, Caught, Cause, Command, Event, Fault, Key, Message, Outcome, Reply, Sequence,
};
use pl_text::{PrintFault, print_report};
use pl_world::{ChannelReport, Report, Stands};
use std::process::Abort;
use std::test::Fail;

const NO_BURSTS: &str = "channel 0 drained
tail 1
Active
bytes 0 -
writes 0
";

const TRANSPORT_FAULT: &str = "channel 0 failed Transport
tail 3
Active
Read Ping
ReadComplete
bytes 4 2b504f4e
writes 1
0 Fault
";

const ABORTED: &str = "channel 0 failed Aborted
tail 3
Active
Read Ping
ReadComplete
bytes 0 -
writes 1
0 Closed
";

const WITHOUT_MEMORY: &str = "channel 2 failed Memory
tail 0
bytes 0 -
writes 0
";

const FAULT_AT_THE_THIRD_CALL: &str = "channel 0 failed Transport
tail 3
Active
Read Ping
Read Quit
bytes 7 2b504f4e470d0a
writes 2
0 Success
1 Fault
";

const EVERY_EVENT: &str = "channel 0 open
tail 19
Active
Read Ping
Read Quit
Read Echo -
Read Echo 610d
Read Add a7 999999999
Read Get zz
Caught TooLong
Caught Unknown
Caught Syntax
User 7
User 4294967295
Read Bytes 00ff
Write Line 0d
Write Reply 2b504f4e47
Write Reply 3a31323334353637383930
Write Reply 2d4552522072616e6765
Flush
ReadComplete
bytes 0 -
writes 3
0 Open
1 Closed
2 Unsupported
channel 1 failed Refused
tail 0
bytes 0 -
writes 0
";

/// A byte string of these bytes.
fn bytes(rt: &HostRuntime, text: &[u8]) -> Result<ByteString, Fail> {
    Ok(ByteString::from_slice(rt.alloc(), text)?)
}

/// A key of this name.
fn key(name: &[u8]) -> Result<Key, Fail> {
    Ok(Key::new(name).ok_or("no key")?)
}

/// The report of a channel, of its four parts.
fn channel(
    stands: Stands,
    tail: Vec<Event>,
    bytes: ByteString,
    writes: Vec<Option<Outcome>>,
) -> ChannelReport {
    ChannelReport {
        stands,
        tail: Sequence::from_vec(tail),
        bytes,
        writes: Sequence::from_vec(writes),
    }
}

/// The report of a channel that took `PING`, and sent so much of its reply.
fn after_ping(
    rt: &HostRuntime,
    stands: Stands,
    sent: &[u8],
    outcome: Outcome,
) -> Result<ChannelReport, Fail> {
    let tail = vec![in rt.alloc();
        Event::Active,
        Event::Read(Message::Command(Command::Ping)),
        Event::ReadComplete,
    ]?;
    let writes = vec![in rt.alloc(); Some(outcome)]?;
    Ok(channel(stands, tail, bytes(rt, sent)?, writes))
}

/// The report of a channel that failed before its first event.
fn without_events(rt: &HostRuntime, cause: Cause) -> Result<ChannelReport, Fail> {
    let bytes = bytes(rt, b"")?;
    let stands = Stands::Failed(cause);
    Ok(channel(stands, Vec::new(rt.alloc()), bytes, Vec::new(rt.alloc())))
}

/// Asserts that a report of these channels is printed as this text.
fn assert_printed(
    rt: &(impl Abort + AllocGlobal),
    channels: Vec<ChannelReport>,
    text: &str,
) -> Result<(), Fail> {
    let report = Report {
        channels: Sequence::from_vec(channels),
    };
    let mut out = Vec::new(rt.alloc());
    print_report(rt.alloc(), &report, &mut out)?;
    assert_eq!(rt; out.as_slice(), text.as_bytes());
    Ok(())
}

#[test]
fn ping(rt: HostRuntime) -> Result<(), Fail> {
    let channel = after_ping(&rt, Stands::Drained, b"+PONG\r\n", Outcome::Success)?;
    assert_printed(&rt, vec![in rt.alloc(); channel]?, PING_REPORT)
}

#[test]
fn no_bursts(rt: HostRuntime) -> Result<(), Fail> {
    let tail = vec![in rt.alloc(); Event::Active]?;
    let channel = channel(
        Stands::Drained,
        tail,
        bytes(&rt, b"")?,
        Vec::new(rt.alloc()),
    );
    assert_printed(&rt, vec![in rt.alloc(); channel]?, NO_BURSTS)
}

#[test]
fn transport_fault(rt: HostRuntime) -> Result<(), Fail> {
    let stands = Stands::Failed(Cause::Transport);
    let channel = after_ping(&rt, stands, b"+PON", Outcome::Fault)?;
    assert_printed(&rt, vec![in rt.alloc(); channel]?, TRANSPORT_FAULT)
}

/// A channel that is aborted before its write, one that is aborted behind it and has all else of the report of one PING,
/// and one that finds no memory.
#[test]
fn abort(rt: HostRuntime) -> Result<(), Fail> {
    let aborted = Stands::Failed(Cause::Aborted);
    let before = after_ping(&rt, aborted, b"", Outcome::Closed)?;
    let behind = after_ping(&rt, aborted, b"+PONG\r\n", Outcome::Success)?;
    let without_memory = without_events(&rt, Cause::Memory)?;
    let channels = vec![in rt.alloc(); before, behind, without_memory]?;
    let drained = "channel 0 drained";
    let behind_text = PING_REPORT.replace(rt.alloc(), drained, "channel 1 failed Aborted")?;
    let text = format!(in rt.alloc(); "{ABORTED}{behind_text}{WITHOUT_MEMORY}")?;
    assert_printed(&rt, channels, text.as_str())
}

/// The first of two messages has left, and the transport fails in the second.
#[test]
fn fault_at_the_third_call(rt: HostRuntime) -> Result<(), Fail> {
    let tail = vec![in rt.alloc();
        Event::Active,
        Event::Read(Message::Command(Command::Ping)),
        Event::Read(Message::Command(Command::Quit)),
    ]?;
    let writes = vec![in rt.alloc(); Some(Outcome::Success), Some(Outcome::Fault)]?;
    let stands = Stands::Failed(Cause::Transport);
    let channel = channel(stands, tail, bytes(&rt, b"+PONG\r\n")?, writes);
    assert_printed(&rt, vec![in rt.alloc(); channel]?, FAULT_AT_THE_THIRD_CALL)
}

#[test]
fn no_channels(rt: HostRuntime) -> Result<(), Fail> {
    assert_printed(&rt, Vec::new(rt.alloc()), "")
}

/// Adds an event to a tail.
fn add(tail: &mut Vec<Event>, event: Event) -> Result<(), Fail> {
    Ok(tail.push(event)?)
}

/// A command, as it is read.
fn read(command: Command) -> Event {
    Event::Read(Message::Command(command))
}

/// Adds a command of each kind.
fn add_commands(rt: &HostRuntime, tail: &mut Vec<Event>) -> Result<(), Fail> {
    add(tail, read(Command::Ping))?;
    add(tail, read(Command::Quit))?;
    add(tail, read(Command::Echo(bytes(rt, b"")?)))?;
    add(tail, read(Command::Echo(bytes(rt, b"a\r")?)))?;
    add(tail, read(Command::Add(key(b"a7")?, 999_999_999)))?;
    add(tail, read(Command::Get(key(b"zz")?)))
}

/// Adds each fault that is caught, user events, and a message of each kind that is no command.
fn add_others(rt: &HostRuntime, tail: &mut Vec<Event>) -> Result<(), Fail> {
    add(tail, Event::Caught(Caught::TooLong))?;
    add(tail, Event::Caught(Caught::Unknown))?;
    add(tail, Event::Caught(Caught::Syntax))?;
    add(tail, Event::User(7))?;
    add(tail, Event::User(4_294_967_295))?;
    add(tail, Event::Read(Message::Bytes(bytes(rt, b"\x00\xff")?)))?;
    add(tail, Event::Write(Message::Line(bytes(rt, b"\r")?)))?;
    add(tail, Event::Write(Message::Reply(Reply::Pong)))?;
    let total = Reply::Total(1_234_567_890);
    add(tail, Event::Write(Message::Reply(total)))?;
    let range = Reply::Error(Fault::Range);
    add(tail, Event::Write(Message::Reply(range)))
}

#[test]
fn every_event(rt: HostRuntime) -> Result<(), Fail> {
    let mut tail = vec![in rt.alloc(); Event::Active]?;
    add_commands(&rt, &mut tail)?;
    add_others(&rt, &mut tail)?;
    add(&mut tail, Event::Flush)?;
    add(&mut tail, Event::ReadComplete)?;
    let writes = vec![in rt.alloc(); None, Some(Outcome::Closed), Some(Outcome::Unsupported)]?;
    let open = channel(Stands::Open, tail, bytes(&rt, b"")?, writes);
    let refused = without_events(&rt, Cause::Refused)?;
    assert_printed(&rt, vec![in rt.alloc(); open, refused]?, EVERY_EVENT)
}

#[test]
fn print_fault_texts(rt: HostRuntime) -> Result<(), Fail> {
    assert_told(&rt, PrintFault::Memory, "1 Memory")?;
    assert_told(&rt, PrintFault::Output, "2 Output")
}
