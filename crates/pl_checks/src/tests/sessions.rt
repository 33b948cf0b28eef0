//! The sessions of the examples, as texts.

pub(crate) use pl_text_tests::DECODER_APART;
use std::alloc::AllocError;

/// A session of one channel with the line protocol, all on one executor: how many bytes a line has at most, and the
/// bursts as JSON.
pub(crate) type LineSession = (u16, &'static str);

pub(crate) const NO_BURSTS: LineSession = (64, "[]");

pub(crate) const PING: LineSession = (64, r#"[["PING\r\n"]]"#);

pub(crate) const LINE_ACROSS_BURSTS: LineSession = (64, r#"[["PI"],["NG\n"]]"#);

pub(crate) const CR_AND_LF_APART: LineSession = (4, r#"[["PING\r","\n"]]"#);

pub(crate) const LINE_TOO_LONG: LineSession = (3, r#"[["PING\n"]]"#);

pub(crate) const ECHO_AND_FAULTS: LineSession = (64, r#"[["ECHO \nECHO\n\n"]]"#);

pub(crate) const CR_INSIDE_LINE: LineSession = (64, r#"[["ECHO a\r\r\n"]]"#);

pub(crate) const TOTALS: LineSession = (64, r#"[["ADD a 7\nADD b 1\nADD a 5\nGET a\n"]]"#);

/// The whole report of these additions, wherever their handlers are.
pub(crate) const TOTALS_REPORT: &str =
    "channel 0 drained\ntail 6\nActive\nRead Add a 7\nRead Add b 1\nRead Add a 5\nRead Get a\nReadComplete\nbytes 18 3a370d0a3a310d0a3a31320d0a3a31320d0a\nwrites 4\n0 Success\n1 Success\n2 Success\n3 Success\n";

pub(crate) const LEADING_ZERO: LineSession = (64, r#"[["ADD a 0123\n"]]"#);

pub(crate) const NINE_DIGITS: LineSession = (
    64,
    r#"[["ADD a 999999999\nADD a 1234567890\nGET zz\n"]]"#,
);

pub(crate) const QUIT: LineSession = (64, r#"[["PING\nQUIT\nPING\nPI"]]"#);

/// A session of one channel with frames in place of lines, whose lengths have two bytes: how many bytes a frame has at
/// most, and the bursts as JSON, in hex.
pub(crate) type FrameSession = (u16, &'static str);

pub(crate) const LENGTH_FRAMES: FrameSession = (64, r#"[["00","0450","494E47"]]"#);

pub(crate) const FRAME_TOO_LONG: FrameSession = (5, r#"[["000450494e47"]]"#);

pub(crate) const FRAME_SKIPPED_LATER: FrameSession = (5, r#"[["0004"],["50494e47"]]"#);

pub(crate) const EMPTY_FRAME: FrameSession = (64, r#"[["0000"]]"#);

pub(crate) const UNFINISHED_FRAME: FrameSession = (64, r#"[["000550"]]"#);

pub(crate) const USER_EVENT_INSIDE_FRAME: FrameSession = (
    64,
    r#"[["000450",{"user":7},"494e47"]]"#,
);

const FRAME_SESSIONS: [FrameSession; 6] = [
    LENGTH_FRAMES,
    FRAME_TOO_LONG,
    FRAME_SKIPPED_LATER,
    EMPTY_FRAME,
    UNFINISHED_FRAME,
    USER_EVENT_INSIDE_FRAME,
];

/// The bursts of a session of one channel with the line protocol, all on one executor, as JSON: chunks are hex.
pub(crate) type HexBursts = &'static str;

pub(crate) const USER_EVENT: HexBursts = r#"[["50494e470a",{"user":7},"50494e470a"]]"#;

pub(crate) const USER_EVENT_INSIDE_LINE: HexBursts = r#"[["5049",{"user":7},"4e470a"]]"#;

pub(crate) const USER_EVENT_AFTER_QUIT: HexBursts = r#"[["515549540a",{"user":7}]]"#;

const HEX_SESSIONS: [HexBursts; 3] = [USER_EVENT, USER_EVENT_INSIDE_LINE, USER_EVENT_AFTER_QUIT];

const LINE_SESSIONS: [LineSession; 11] = [
    NO_BURSTS,
    PING,
    LINE_ACROSS_BURSTS,
    CR_AND_LF_APART,
    LINE_TOO_LONG,
    ECHO_AND_FAULTS,
    CR_INSIDE_LINE,
    TOTALS,
    LEADING_ZERO,
    NINE_DIGITS,
    QUIT,
];

/// The handlers of the line protocol, as edits, but for the first.
const BEHIND_LINES: &str = r#"{"op":"last","name":"decode","kind":"decode"},
{"op":"last","name":"lineend","kind":"lineend"},
{"op":"last","name":"encode","kind":"encode"},
{"op":"last","name":"service","kind":"service"}"#;

/// The handlers behind a framer of frames, as edits.
const BEHIND_FRAMES: &str = r#"{"op":"last","name":"decode","kind":"decode"},
{"op":"last","name":"prepend","kind":"prepend","width":2},
{"op":"last","name":"encode","kind":"encode"},
{"op":"last","name":"service","kind":"service"}"#;

/// The edits of the line protocol, with lines of at most `max` bytes.
pub(crate) fn line_protocol(rt: &impl AllocGlobal, max: u16) -> Result<String, AllocError> {
    format!(in rt.alloc();
        "{{\"op\":\"last\",\"name\":\"lines\",\"kind\":\"lines\",\"max\":{max}}},\n{BEHIND_LINES}"
    )
}

/// A session of one channel with these edits and these bursts, each as JSON.
pub(crate) fn piped(
    rt: &impl AllocGlobal,
    edits: &str,
    bursts: &str,
) -> Result<String, AllocError> {
    marked(rt, edits, "", bursts)
}

/// The same with further members of the channel, each after a comma.
fn marked(
    rt: &impl AllocGlobal,
    edits: &str,
    marks: &str,
    bursts: &str,
) -> Result<String, AllocError> {
    versioned(rt, 1, edits, marks, bursts)
}

/// The same in this version of the format.
pub(crate) fn versioned(
    rt: &impl AllocGlobal,
    version: u8,
    edits: &str,
    marks: &str,
    bursts: &str,
) -> Result<String, AllocError> {
    format!(in rt.alloc();
        "{{\"version\":{version},\"capacity\":4,\"loops\":1,\"channels\":[{{\"handlers\":[{edits}]{marks},\"bursts\":{bursts}}}]}}\n"
    )
}

/// The text of a session of the line protocol.
pub(crate) fn line_session(
    rt: &impl AllocGlobal,
    session: LineSession,
) -> Result<String, AllocError> {
    let (max, bursts) = session;
    let edits = line_protocol(rt, max)?;
    piped(rt, edits.as_str(), bursts)
}

/// The same with further members of the channel, each after a comma: how its transport fails, or when it is aborted.
pub(crate) fn failing_session(
    rt: &impl AllocGlobal,
    session: LineSession,
    members: &str,
) -> Result<String, AllocError> {
    let (max, bursts) = session;
    let edits = line_protocol(rt, max)?;
    marked(rt, edits.as_str(), members, bursts)
}

/// The text of a session of frames.
pub(crate) fn frame_session(
    rt: &impl AllocGlobal,
    session: FrameSession,
) -> Result<String, AllocError> {
    let (max, bursts) = session;
    let edits = format!(in rt.alloc();
        "{{\"op\":\"last\",\"name\":\"length\",\"kind\":\"length\",\"width\":2,\"max\":{max}}},\n{BEHIND_FRAMES}"
    )?;
    versioned(rt, 2, edits.as_str(), "", bursts)
}

/// The text of a session of the line protocol with these bursts, whose chunks are hex.
pub(crate) fn hex_session(rt: &impl AllocGlobal, bursts: HexBursts) -> Result<String, AllocError> {
    let edits = line_protocol(rt, 64)?;
    versioned(rt, 2, edits.as_str(), "", bursts)
}

/// The writes of the service do not pass the encoder.
pub(crate) fn encoder_behind_turn(rt: &impl AllocGlobal) -> Result<String, AllocError> {
    piped(
        rt,
        r#"{"op":"last","name":"lines","kind":"lines","max":64},
{"op":"last","name":"decode","kind":"decode"},
{"op":"last","name":"lineend","kind":"lineend"},
{"op":"last","name":"service","kind":"service"},
{"op":"last","name":"encode","kind":"encode"}"#,
        r#"[["PING\n"]]"#,
    )
}

/// The line protocol after a handler that lets each second flush pass.
fn every_second_flush(rt: &impl AllocGlobal) -> Result<String, AllocError> {
    let rest = line_protocol(rt, 64)?;
    format!(in rt.alloc();
        "{{\"op\":\"last\",\"name\":\"flush_every\",\"kind\":\"flush_every\",\"n\":2}},\n{rest}"
    )
}

/// One flush of two passes, and there is only one.
pub(crate) fn flush_never_comes(rt: &impl AllocGlobal) -> Result<String, AllocError> {
    let edits = every_second_flush(rt)?;
    piped(rt, edits.as_str(), r#"[["PING\n"]]"#)
}

/// Two replies pass the high mark, and leave three bytes a call.
pub(crate) fn watermarks(rt: &impl AllocGlobal) -> Result<String, AllocError> {
    let edits = line_protocol(rt, 64)?;
    let marks = r#","low":4,"high":8,"window":3"#;
    marked(rt, edits.as_str(), marks, r#"[["PING\nPING\n"]]"#)
}

/// Each of two bursts brings a reply that passes the high mark.
pub(crate) fn burst_held(rt: &impl AllocGlobal) -> Result<String, AllocError> {
    let edits = line_protocol(rt, 64)?;
    let marks = r#","low":1,"high":2"#;
    marked(rt, edits.as_str(), marks, r#"[["PING\n"],["PING\n"]]"#)
}

/// The same, where only the second of two flushes passes.
pub(crate) fn burst_not_held(rt: &impl AllocGlobal) -> Result<String, AllocError> {
    let edits = every_second_flush(rt)?;
    let marks = r#","low":1,"high":2"#;
    marked(rt, edits.as_str(), marks, r#"[["PING\n"],["PING\n"]]"#)
}

/// All five edits.
pub(crate) fn edits_in_any_order(rt: &impl AllocGlobal) -> Result<String, AllocError> {
    piped(
        rt,
        r#"{"op":"last","name":"service","kind":"service"},
{"op":"first","name":"spare","kind":"encode"},
{"op":"before","at":"service","name":"encode","kind":"encode"},
{"op":"before","at":"encode","name":"lineend","kind":"lineend"},
{"op":"first","name":"lines","kind":"lines","max":64},
{"op":"after","at":"lines","name":"decode","kind":"decode"},
{"op":"remove","name":"spare"}"#,
        r#"[["PING\n"]]"#,
    )
}

pub(crate) const NO_CHANNELS: &str = r#"{"version":1,"capacity":4,"loops":1,"channels":[]}"#;

/// Two handlers of the line protocol in a group.
const IN_A_GROUP: &str = r#"{"op":"last","name":"lines","kind":"lines","max":64},
{"op":"last","name":"decode","kind":"decode","group":"g"},
{"op":"last","name":"lineend","kind":"lineend"},
{"op":"last","name":"encode","kind":"encode"},
{"op":"last","name":"service","kind":"service","group":"g"}"#;

/// The line protocol with the decoder in one group and the service in another.
const ACROSS_GROUPS: &str = r#"{"op":"last","name":"lines","kind":"lines","max":64},
{"op":"last","name":"decode","kind":"decode","group":"a"},
{"op":"last","name":"lineend","kind":"lineend"},
{"op":"last","name":"encode","kind":"encode"},
{"op":"last","name":"service","kind":"service","group":"b"}"#;

/// Three channels with two handlers in a group of two executors.
pub(crate) fn group_placing(rt: &impl AllocGlobal) -> Result<String, AllocError> {
    let channel = format!(in rt.alloc();
        "{{\"handlers\":[{IN_A_GROUP}],\"bursts\":[[\"PING\\n\"]]}}"
    )?;
    format!(in rt.alloc();
        "{{\"version\":1,\"capacity\":4,\"loops\":1,\"groups\":[{{\"name\":\"g\",\"size\":2}}],\"channels\":[{channel},{channel},{channel}]}}"
    )
}

/// Additions to two keys, with the decoder and the service each on an executor of its own, queues of so many items, and
/// further members of the channel, each after a comma.
pub(crate) fn totals_across_groups(
    rt: &impl AllocGlobal,
    capacity: u16,
    members: &str,
) -> Result<String, AllocError> {
    format!(in rt.alloc();
        "{{\"version\":1,\"capacity\":{capacity},\"loops\":1,\"groups\":[{{\"name\":\"a\",\"size\":1}},{{\"name\":\"b\",\"size\":1}}],\"channels\":[{{\"handlers\":[{ACROSS_GROUPS}]{members},\"bursts\":{}}}]}}",
        TOTALS.1
    )
}

/// So many times the same channel, as JSON.
fn channels(rt: &impl AllocGlobal, count: u16, channel: &str) -> Result<String, AllocError> {
    let mut text = String::from_str(rt.alloc(), channel)?;
    for _ in 1..count {
        text.push_str(",")?;
        text.push_str(channel)?;
    }
    Ok(text)
}

/// As many channels as there may be, each of one ping and on a loop of its own.
pub(crate) fn sixty_four(rt: &impl AllocGlobal) -> Result<String, AllocError> {
    let edits = line_protocol(rt, 64)?;
    let channel = format!(in rt.alloc();
        "{{\"handlers\":[{edits}],\"bursts\":[[\"PING\\r\\n\"]]}}"
    )?;
    let channels = channels(rt, 64, channel.as_str())?;
    format!(in rt.alloc();
        "{{\"version\":1,\"capacity\":4,\"loops\":64,\"channels\":[{channels}]}}"
    )
}

/// The line protocol with each handler in a group.
const IN_GROUPS_OF_16: &str = r#"{"op":"last","name":"lines","kind":"lines","max":64,"group":"a"},
{"op":"last","name":"decode","kind":"decode","group":"b"},
{"op":"last","name":"lineend","kind":"lineend","group":"c"},
{"op":"last","name":"encode","kind":"encode","group":"a"},
{"op":"last","name":"service","kind":"service","group":"b"}"#;

/// A channel of one line, with a user event inside, whose handlers are each in a group of 16, with these further members,
/// each after a comma.
fn in_groups(rt: &impl AllocGlobal, members: &str) -> Result<String, AllocError> {
    format!(in rt.alloc();
        "{{\"handlers\":[{IN_GROUPS_OF_16}]{members},\"bursts\":{USER_EVENT_INSIDE_LINE}}}"
    )
}

/// As many channels as there may be, on as many executors as there may be. Every other channel has the members `first` or
/// `second` in turn.
pub(crate) fn sixty_four_across_groups(
    rt: &impl AllocGlobal,
    first: &str,
    second: &str,
) -> Result<String, AllocError> {
    let (whole, one, other) = (
        in_groups(rt, "")?,
        in_groups(rt, first)?,
        in_groups(rt, second)?,
    );
    let four = format!(in rt.alloc(); "{whole},{one},{whole},{other}")?;
    let channels = channels(rt, 16, four.as_str())?;
    format!(in rt.alloc();
        "{{\"version\":2,\"capacity\":4,\"loops\":16,\"groups\":[{{\"name\":\"a\",\"size\":16}},{{\"name\":\"b\",\"size\":16}},{{\"name\":\"c\",\"size\":16}}],\"channels\":[{channels}]}}"
    )
}

/// The same session with queues that have room for all of its items, where they had room for four: executors that wait for
/// room in one another's queues may wait for ever.
pub(crate) fn with_room(rt: &impl AllocGlobal, text: &str) -> Result<String, AllocError> {
    text.replace(rt.alloc(), r#""capacity":4,"#, r#""capacity":64,"#)
}

/// Adds a text, if there is memory for it.
pub(crate) fn add(
    texts: &mut Vec<String>,
    text: Result<String, AllocError>,
) -> Result<(), AllocError> {
    texts.push(text?)?;
    Ok(())
}

/// Adds the text of each example's session, each once.
fn add_examples(rt: &impl AllocGlobal, texts: &mut Vec<String>) -> Result<(), AllocError> {
    for session in LINE_SESSIONS {
        add(texts, line_session(rt, session))?;
    }
    for session in FRAME_SESSIONS {
        add(texts, frame_session(rt, session))?;
    }
    for bursts in HEX_SESSIONS {
        add(texts, hex_session(rt, bursts))?;
    }
    add(texts, encoder_behind_turn(rt))?;
    add(texts, flush_never_comes(rt))?;
    add(texts, watermarks(rt))?;
    add(texts, burst_held(rt))?;
    add(texts, burst_not_held(rt))?;
    add(texts, edits_in_any_order(rt))?;
    add(texts, String::from_str(rt.alloc(), NO_CHANNELS))?;
    add(texts, group_placing(rt))?;
    add(texts, String::from_str(rt.alloc(), DECODER_APART))
}

/// The text of each example's session, each once.
pub(crate) fn examples(rt: &impl AllocGlobal) -> Result<Vec<String>, AllocError> {
    let mut texts = Vec::new(rt.alloc());
    add_examples(rt, &mut texts)?;
    Ok(texts)
}
