//! The worked examples of `docs/FORMATS.md`, by the steps of the handlers.

ghost use Rattle.std.specs.Prelude.{◌≤◌};

use crate::event_tests::text;
use pl_event::{Caught, Changed, Command, Event, Fault, Fused, Key, Message, Reply, Stage, Turned};
use pl_stages::{
    CommandDecoder, FlushEvery, Handler, LengthFramer, LengthPrepender, LineEnd, LineFramer,
    LineService, ReplyEncoder, StageRefusal, reply_text,
};
use std::alloc::{AllocError, Global};
use std::process::Abort;
use std::test::Fail;

/// An event, to make or to expect.
#[derive(Clone, Copy)]
pub(crate) enum Told<'a> {
    Active,
    ReadComplete,
    Chunk(&'a [u8]),
    Line(&'a [u8]),
    Ping,
    Quit,
    Echo(&'a [u8]),
    Add(&'a [u8], u32),
    Get(&'a [u8]),
    Caught(Caught),
    User(u32),
}

fn event(alloc: Global, told: Told<'_>) -> Result<Event, Fail> {
    match told {
        Told::Active => Ok(Event::Active),
        Told::ReadComplete => Ok(Event::ReadComplete),
        Told::Chunk(bytes) => Ok(Event::Read(Message::Bytes(text(alloc, bytes)?))),
        Told::Line(bytes) => Ok(Event::Read(Message::Line(text(alloc, bytes)?))),
        Told::Ping => Ok(command(Command::Ping)),
        Told::Quit => Ok(command(Command::Quit)),
        Told::Echo(bytes) => Ok(command(Command::Echo(text(alloc, bytes)?))),
        Told::Add(name, number) => Ok(command(Command::Add(key(name)?, number))),
        Told::Get(name) => Ok(command(Command::Get(key(name)?))),
        Told::Caught(caught) => Ok(Event::Caught(caught)),
        Told::User(number) => Ok(Event::User(number)),
    }
}

pub(crate) fn events(alloc: Global, all: &[Told<'_>]) -> Result<Vec<Event>, Fail> {
    let mut events = Vec::new(alloc);
    for told in all {
        events.push(event(alloc, *told)?)?;
    }
    Ok(events)
}

fn command(command: Command) -> Event {
    Event::Read(Message::Command(command))
}

fn key(name: &[u8]) -> Result<Key, Fail> {
    Ok(Key::new(name).ok_or("no key")?)
}

fn written(reply: Reply) -> Event {
    Event::Write(Message::Reply(reply))
}

/// What a handler makes of events: upwards and downwards.
pub(crate) fn made(
    alloc: Global,
    handler: Handler,
    events: Vec<Event>,
) -> Result<(Vec<Event>, Vec<Event>), Fail> {
    let mut handler = handler;
    let mut up = Vec::new(alloc);
    let mut down = Vec::new(alloc);
    for event in events {
        handler.step(event, &mut up, &mut down)?;
    }
    Ok((up, down))
}

/// The line protocol, or that of frames with lengths of two bytes: of at most so many bytes.
#[derive(Clone, Copy)]
pub(crate) enum Protocol {
    Lines(usize),
    Frames(usize),
}

impl Protocol {
    fn framer(self, alloc: Global) -> Result<Handler, StageRefusal> {
        match self {
            Protocol::Lines(max) => Ok(Handler::Lines(LineFramer::new(alloc, max)?)),
            Protocol::Frames(max) => Ok(Handler::Length(LengthFramer::new(alloc, 2, max)?)),
        }
    }

    /// What marks a reply's end or its length.
    fn marker(self) -> Result<Handler, StageRefusal> {
        match self {
            Protocol::Lines(_) => Ok(Handler::LineEnd(LineEnd::new())),
            Protocol::Frames(_) => Ok(Handler::Prepend(LengthPrepender::new(2)?)),
        }
    }

    /// The commands in what comes.
    fn commands(self, alloc: Global, came: &[Told<'_>]) -> Result<Vec<Event>, Fail> {
        let came = events(alloc, came)?;
        let (lines, _) = made(alloc, self.framer(alloc)?, came)?;
        let (commands, _) = made(alloc, Handler::Decode(CommandDecoder::new()), lines)?;
        Ok(commands)
    }

    /// The marked replies.
    fn marked(self, alloc: Global, replies: Vec<Event>) -> Result<Vec<Event>, Fail> {
        let (_, texts) = made(alloc, Handler::Encode(ReplyEncoder::new()), replies)?;
        let (_, marked) = made(alloc, self.marker()?, texts)?;
        Ok(marked)
    }
}

/// The bytes that are written.
fn bytes(alloc: Global, written: &[Event]) -> Result<Vec<u8>, AllocError> {
    let mut bytes = Vec::new(alloc);
    for event in written {
        if let Event::Write(Message::Bytes(text)) = event {
            bytes.extend_from_slice(text.as_slice())?;
        }
    }
    Ok(bytes)
}

/// A handler made these events.
pub(crate) fn assert_events(rt: &impl Abort, made: &[Event], told: &[Event]) {
    assert_eq!(rt; made, told);
}

/// The service behind this protocol brings these events to its tail and these bytes to its head.
pub(crate) fn assert_served(
    rt: &(impl Abort + AllocGlobal),
    protocol: Protocol,
    came: &[Told<'_>],
    tail: &[Told<'_>],
    sent: &[u8],
) -> Result<(), Fail> {
    let alloc = rt.alloc();
    let commands = protocol.commands(alloc, came)?;
    let (reached, replies) = made(alloc, Handler::Service(LineService::new(alloc)), commands)?;
    let tail = events(alloc, tail)?;
    assert_events(rt, reached.as_slice(), tail.as_slice());
    let marked = protocol.marked(alloc, replies)?;
    assert_eq!(rt; bytes(alloc, marked.as_slice())?.as_slice(), sent);
    Ok(())
}

/// The same where one chunk comes, in lines of at most 64 bytes.
fn assert_lines(
    rt: &(impl Abort + AllocGlobal),
    chunk: &[u8],
    tail: &[Told<'_>],
    sent: &[u8],
) -> Result<(), Fail> {
    assert_served(rt, Protocol::Lines(64), &[Told::Chunk(chunk)], tail, sent)
}

#[test]
fn ping(rt: HostRuntime) -> Result<(), Fail> {
    let came = [Told::Active, Told::Chunk(b"PING\r\n"), Told::ReadComplete];
    let tail = [Told::Active, Told::Ping, Told::ReadComplete];
    assert_served(&rt, Protocol::Lines(64), &came, &tail, b"+PONG\r\n")
}

/// Each handler on the way in hands a user event on where it comes, but for a service that has quit.
#[test]
fn user_events(rt: HostRuntime) -> Result<(), Fail> {
    let came = [
        Told::User(0),
        Told::Chunk(b"PI"),
        Told::User(7),
        Told::Chunk(b"NG\nQUIT\n"),
        Told::User(u32::MAX),
    ];
    let tail = [Told::User(0), Told::User(7), Told::Ping, Told::Quit];
    assert_served(&rt, Protocol::Lines(64), &came, &tail, b"+PONG\r\n+BYE\r\n")
}

/// A channel becomes active, and this comes in two bursts.
pub(crate) fn in_two_bursts<'a>(first: &'a [u8], second: &'a [u8]) -> [Told<'a>; 5] {
    [
        Told::Active,
        Told::Chunk(first),
        Told::ReadComplete,
        Told::Chunk(second),
        Told::ReadComplete,
    ]
}

#[test]
fn line_across_bursts(rt: HostRuntime) -> Result<(), Fail> {
    let came = in_two_bursts(b"PI", b"NG\n");
    let tail = [
        Told::Active,
        Told::ReadComplete,
        Told::Ping,
        Told::ReadComplete,
    ];
    assert_served(&rt, Protocol::Lines(64), &came, &tail, b"+PONG\r\n")
}

#[test]
fn cr_and_lf_apart(rt: HostRuntime) -> Result<(), Fail> {
    let came = [Told::Chunk(b"PING\r"), Told::Chunk(b"\n")];
    assert_served(&rt, Protocol::Lines(4), &came, &[Told::Ping], b"+PONG\r\n")
}

#[test]
fn line_too_long(rt: HostRuntime) -> Result<(), Fail> {
    let tail = [Told::Caught(Caught::TooLong)];
    let came = [Told::Chunk(b"PING\n")];
    assert_served(&rt, Protocol::Lines(3), &came, &tail, b"-ERR toolong\r\n")
}

const SYNTAX: Told<'static> = Told::Caught(Caught::Syntax);

pub(crate) const UNKNOWN: Told<'static> = Told::Caught(Caught::Unknown);

#[test]
fn echo_and_faults(rt: HostRuntime) -> Result<(), Fail> {
    let tail = [Told::Echo(b""), SYNTAX, UNKNOWN];
    let sent = b"+\r\n-ERR syntax\r\n-ERR unknown\r\n";
    assert_lines(&rt, b"ECHO \nECHO\n\n", &tail, sent)
}

#[test]
fn cr_inside_line(rt: HostRuntime) -> Result<(), Fail> {
    assert_lines(&rt, b"ECHO a\r\r\n", &[Told::Echo(b"a\r")], b"+a\r\r\n")
}

#[test]
fn totals(rt: HostRuntime) -> Result<(), Fail> {
    let chunk = b"ADD a 7\nADD b 1\nADD a 5\nGET a\n";
    let tail = [
        Told::Add(b"a", 7),
        Told::Add(b"b", 1),
        Told::Add(b"a", 5),
        Told::Get(b"a"),
    ];
    assert_lines(&rt, chunk, &tail, b":7\r\n:1\r\n:12\r\n:12\r\n")
}

#[test]
fn leading_zero(rt: HostRuntime) -> Result<(), Fail> {
    assert_lines(&rt, b"ADD a 0123\n", &[SYNTAX], b"-ERR syntax\r\n")
}

#[test]
fn nine_digits(rt: HostRuntime) -> Result<(), Fail> {
    let chunk = b"ADD a 999999999\nADD a 1234567890\nGET zz\n";
    let tail = [Told::Add(b"a", 999_999_999), SYNTAX, Told::Get(b"zz")];
    let sent = b":999999999\r\n-ERR syntax\r\n:0\r\n";
    assert_lines(&rt, chunk, &tail, sent)
}

#[test]
fn quit(rt: HostRuntime) -> Result<(), Fail> {
    let tail = [Told::Active, Told::Ping, Told::Quit];
    let came = [
        Told::Active,
        Told::Chunk(b"PING\nQUIT\nPING\nPI"),
        Told::ReadComplete,
    ];
    assert_served(&rt, Protocol::Lines(64), &came, &tail, b"+PONG\r\n+BYE\r\n")
}

/// What the decoder makes of one line.
fn decoded(alloc: Global, line: &[u8]) -> Result<Vec<Event>, Fail> {
    let line = vec![in alloc; Event::Read(Message::Line(text(alloc, line)?))]?;
    let (up, _) = made(alloc, Handler::Decode(CommandDecoder::new()), line)?;
    Ok(up)
}

/// The decoder makes one event of a line.
fn assert_decoded(rt: &(impl Abort + AllocGlobal), line: &str, told: Told<'_>) -> Result<(), Fail> {
    let made = decoded(rt.alloc(), line.as_bytes())?;
    let told = events(rt.alloc(), &[told])?;
    assert!(rt; made == told, "{made:?} of {line:?}");
    Ok(())
}

#[test]
fn forms_of_commands(rt: HostRuntime) -> Result<(), Fail> {
    assert_decoded(&rt, "ADD k 0", Told::Add(b"k", 0))?;
    assert_decoded(&rt, "ADD 0 10", Told::Add(b"0", 10))?;
    assert_decoded(&rt, "GET abcdefghijklmnop", Told::Get(b"abcdefghijklmnop"))?;
    assert_decoded(&rt, "QUIT", Told::Quit)
}

#[test]
fn wrong_forms_of_commands(rt: HostRuntime) -> Result<(), Fail> {
    for &line in &[
        "PING ",
        "QUIT now",
        "ECHO",
        "ADD",
        "ADD ",
        "ADD k",
        "ADD k ",
        "ADD  1",
        "ADD k  1",
        "ADD k 1 ",
        "ADD k +1",
        "ADD k 00",
        "ADD k 1a",
        "ADD K 1",
        "ADD abcdefghijklmnopq 1",
        "GET",
        "GET ",
        "GET k ",
        "GET K",
    ] {
        assert_decoded(&rt, line, SYNTAX)?;
    }
    Ok(())
}

#[test]
fn unknown_verbs(rt: HostRuntime) -> Result<(), Fail> {
    for &line in &["", " PING", "ping", "PINGS", "ADDS k 1", "GETk"] {
        assert_decoded(&rt, line, UNKNOWN)?;
    }
    Ok(())
}

/// What a service writes in answer to a command.
fn answer(
    alloc: Global,
    service: &mut Fused<LineService>,
    told: Told<'_>,
) -> Result<Vec<Event>, Fail> {
    let mut up = Vec::new(alloc);
    let mut down = Vec::new(alloc);
    service.step(event(alloc, told)?, &mut up, &mut down)?;
    Ok(down)
}

/// A service answers a command so.
fn assert_answer(
    rt: &(impl Abort + AllocGlobal),
    service: &mut Fused<LineService>,
    told: Told<'_>,
    reply: Reply,
) -> Result<(), Fail> {
    let reply = vec![in rt.alloc(); written(reply)]?;
    let answered = answer(rt.alloc(), service, told)?;
    assert_events(rt, answered.as_slice(), reply.as_slice());
    Ok(())
}

/// What is added a million times.
const LARGEST: Told<'static> = Told::Add(b"a", 999_999_999);

const RANGE: Reply = Reply::Error(Fault::Range);

const FULL: Reply = Reply::Error(Fault::Full);

#[test]
fn service_limits(rt: HostRuntime) -> Result<(), Fail> {
    let mut service = LineService::new(rt.alloc());
    for _ in 0..999_999 {
        answer(rt.alloc(), &mut service, LARGEST)?;
    }
    let most = 999_999_999_000_000;
    assert_answer(&rt, &mut service, LARGEST, Reply::Total(most))?;
    assert_answer(&rt, &mut service, LARGEST, RANGE)?;
    assert_answer(&rt, &mut service, Told::Get(b"a"), Reply::Total(most))?;
    assert_answer(&rt, &mut service, Told::Add(b"a", 1_000_001), RANGE)?;
    let whole = Reply::Total(1_000_000_000_000_000);
    assert_answer(&rt, &mut service, Told::Add(b"a", 1_000_000), whole)
}

/// Has the service hold 256 keys, each by an addition of this number.
fn fill(alloc: Global, service: &mut Fused<LineService>, number: u32) -> Result<(), Fail> {
    for &high in b"abcdefghijklmnop" {
        for &low in b"abcdefghijklmnop" {
            answer(alloc, service, Told::Add(&[high, low], number))?;
        }
    }
    Ok(())
}

#[test]
fn key_limit(rt: HostRuntime) -> Result<(), Fail> {
    let mut service = LineService::new(rt.alloc());
    fill(rt.alloc(), &mut service, 1)?;
    assert_answer(&rt, &mut service, Told::Add(b"other", 1), FULL)?;
    assert_answer(&rt, &mut service, Told::Get(b"other"), Reply::Total(0))?;
    assert_answer(&rt, &mut service, Told::Add(b"aa", 1), Reply::Total(2))
}

/// An addition of 0 makes a key held, too.
#[test]
fn keys_of_nothing(rt: HostRuntime) -> Result<(), Fail> {
    let mut service = LineService::new(rt.alloc());
    fill(rt.alloc(), &mut service, 0)?;
    assert_answer(&rt, &mut service, Told::Add(b"other", 1), FULL)
}

/// Five writes, with a flush after each so many.
fn five_writes(alloc: Global, flushed: usize) -> Result<Vec<Event>, Fail>
    requires { 1 ≤ flushed }
{
    let mut events = Vec::new(alloc);
    for count in 1..=5 {
        events.push(written(Reply::Pong))?;
        if count % flushed == 0 {
            events.push(Event::Flush)?;
        }
    }
    Ok(events)
}

/// Of five writes, each with a flush, so many events are left where only every so many flushes go on.
fn assert_flushed(rt: &(impl Abort + AllocGlobal), n: usize, left: usize) -> Result<(), Fail>
    requires { 1 ≤ n }
{
    let writes = five_writes(rt.alloc(), 1)?;
    let handler = Handler::FlushEvery(FlushEvery::new(n)?);
    let (up, down) = made(rt.alloc(), handler, writes)?;
    assert!(rt; up.is_empty());
    assert!(rt; down.len() == left, "every {n}");
    let told = five_writes(rt.alloc(), n)?;
    assert!(rt; down == told, "every {n}");
    Ok(())
}

#[test]
fn flush_every(rt: HostRuntime) -> Result<(), Fail> {
    assert_flushed(&rt, 1, 10)?;
    assert_flushed(&rt, 2, 7)?;
    assert_flushed(&rt, 5, 6)?;
    assert_flushed(&rt, 6, 5)
}

/// Whether a handler was made.
fn is_made<T: Drop>(made: Result<T, StageRefusal>) -> bool {
    made.is_ok()
}

#[test]
fn limits_of_flush_every(rt: HostRuntime) {
    for &(n, told) in &[(0, false), (1, true), (65_535, true), (65_536, false)] {
        assert!(rt; is_made(FlushEvery::new(n)) == told, "at {n}");
    }
}

#[test]
fn limits_of_lines(rt: HostRuntime) {
    for &(max, told) in &[(0, false), (1, true), (8192, true), (8193, false)] {
        assert!(rt;
            is_made(LineFramer::new(rt.alloc(), max)) == told,
            "at {max}"
        );
    }
}

/// Takes a command, and says whether the service has ended.
fn ends(
    service: &mut Fused<LineService>,
    command: Event,
    up: &mut Vec<Event>,
    down: &mut Vec<Event>,
) -> Result<bool, Fail> {
    Ok(service.step(command, up, down)? == Turned::Ended)
}

#[test]
fn quits_once(rt: HostRuntime) -> Result<(), Fail> {
    let alloc = rt.alloc();
    let told = events(alloc, &[Told::Quit])?;
    let sent = vec![in alloc; written(Reply::Bye), Event::Flush]?;
    let mut service = LineService::new(alloc);
    let mut up = Vec::new(alloc);
    let mut down = Vec::new(alloc);
    assert!(rt; ends(&mut service, command(Command::Quit), &mut up, &mut down)?);
    assert!(rt; ends(&mut service, command(Command::Ping), &mut up, &mut down)?);
    assert_events(&rt, up.as_slice(), told.as_slice());
    assert_events(&rt, down.as_slice(), sent.as_slice());
    Ok(())
}

/// A handler leaves this event in the place of that one, which goes on so, and adds these.
fn assert_changed(
    rt: &(impl Abort + AllocGlobal),
    handler: Handler,
    told: Told<'_>,
    way: Changed,
    left: Told<'_>,
    added: &[Event],
) -> Result<(), Fail> {
    let mut handler = handler;
    let mut changed = event(rt.alloc(), told)?;
    let mut down = Vec::new(rt.alloc());
    let went = handler.change(&mut changed, &mut down);
    let left = event(rt.alloc(), left)?;
    assert!(rt; went == way && changed == left, "{went:?}: {changed:?}");
    assert_events(rt, down.as_slice(), added);
    Ok(())
}

#[test]
fn changed_in_its_place(rt: HostRuntime) -> Result<(), Fail> {
    let alloc = rt.alloc();
    let decoder = Handler::Decode(CommandDecoder::new());
    assert_changed(
        &rt,
        decoder,
        Told::Line(b"GET a"),
        Changed::Up,
        Told::Get(b"a"),
        &[],
    )?;
    let pong = vec![in alloc; written(Reply::Pong)]?;
    let service = Handler::Service(LineService::new(alloc));
    assert_changed(
        &rt,
        service,
        Told::Ping,
        Changed::Up,
        Told::Ping,
        pong.as_slice(),
    )?;
    let service = Handler::Service(LineService::new(alloc));
    assert_changed(&rt, service, Told::Quit, Changed::No, Told::Quit, &[])
}

#[test]
fn texts_of_replies(rt: HostRuntime) -> Result<(), Fail> {
    let alloc = rt.alloc();
    let told: [(Reply, &[u8]); 5] = [
        (Reply::Text(text(alloc, b"hi")?), b"+hi"),
        (Reply::Total(999_999_999_000_000), b":999999999000000"),
        (Reply::Bye, b"+BYE"),
        (Reply::Error(Fault::Range), b"-ERR range"),
        (Reply::Error(Fault::Full), b"-ERR full"),
    ];
    for (reply, sent) in &told {
        assert_eq!(rt; reply_text(alloc, reply)?.as_slice(), *sent);
    }
    Ok(())
}
