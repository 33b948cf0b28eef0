//! Session texts: what is read from them, and which fault is answered first.

use crate::ping::PING_SESSION;
use crate::tests::fault_texts::assert_told;
use pl_build::BuildFault;
use pl_event::{ByteString, Element};
use pl_head::MemoryTransport;
use pl_stages::Handler;
use pl_text::{MAX_SESSION_TEXT, SessionFault, read_session};
use pl_world::{Recorded, Session};
use std::process::Abort;
use std::test::Fail;

/// The faults that most texts are refused for.
pub(crate) const MISSING: Option<SessionFault> = Some(SessionFault::Missing);

pub(crate) const KIND: Option<SessionFault> = Some(SessionFault::Kind);

pub(crate) const LIMIT: Option<SessionFault> = Some(SessionFault::Limit);

/// A text has this answer: a fault, or None where it is read.
pub(crate) fn assert_answer(
    rt: &(impl Abort + AllocGlobal),
    text: &str,
    fault: Option<SessionFault>,
) {
    assert_eq!(rt; read_session(rt.alloc(), text).err(), fault, "at {text}");
}

/// Each row is a part of the session of one PING, another text in its place, and the answer to it.
fn assert_replaced(
    rt: &(impl Abort + AllocGlobal),
    rows: &[(&str, &str, Option<SessionFault>)],
) -> Result<(), Fail> {
    for &(part, other, fault) in rows {
        let text = PING_SESSION.replace(rt.alloc(), part, other)?;
        assert_answer(rt, text.as_str(), fault);
    }
    Ok(())
}

/// A session of one channel with these edits, and with what follows its bursts.
fn with_edits(rt: &impl AllocGlobal, edits: &str, more: &str) -> Result<String, Fail> {
    Ok(format!(in rt.alloc();
        "{{\"version\":1,\"capacity\":4,\"loops\":1,\"channels\":[{{\"handlers\":[{edits}],\"bursts\":[]{more}}}]}}"
    )?)
}

/// Each row is the edits of such a session, what follows its bursts, and the answer to it.
fn assert_edits(
    rt: &(impl Abort + AllocGlobal),
    rows: &[(&str, &str, Option<SessionFault>)],
) -> Result<(), Fail> {
    for &(edits, more, fault) in rows {
        let text = with_edits(rt, edits, more)?;
        assert_answer(rt, text.as_str(), fault);
    }
    Ok(())
}

/// The session of these edits, and of what follows its bursts.
fn of_edits(rt: &impl AllocGlobal, edits: &str, more: &str) -> Result<Session, Fail> {
    Ok(read_session(rt.alloc(), with_edits(rt, edits, more)?.as_str())?)
}

/// The one channel of a session.
pub(crate) fn only_channel<'a>(
    rt: &impl Abort,
    session: &'a Session,
) -> &'a Recorded<Handler, MemoryTransport> {
    let channels = session.world.channels();
    assert_eq!(rt; channels.len(), 1);
    &channels[0]
}

/// One service, which is the turn.
pub(crate) const SERVICE: &str = r#"{"op":"last","name":"service","kind":"service"}"#;

#[test]
fn ping_session(rt: HostRuntime) -> Result<(), Fail> {
    let session = read_session(rt.alloc(), PING_SESSION)?;
    assert!(rt; session.capacity == 4 && session.world.executors() == 1);
    assert_ping(&rt, only_channel(&rt, &session))
}

/// The channel of that session.
fn assert_ping(
    rt: &(impl Abort + AllocGlobal),
    channel: &Recorded<Handler, MemoryTransport>,
) -> Result<(), Fail> {
    let pipeline = &channel.pipeline;
    assert!(rt; pipeline.inbound() == 3 && pipeline.outbound() == 2);
    assert!(rt; pipeline.low() == 32_768 && pipeline.high() == 65_536);
    let burst = vec![in rt.alloc(); chunk(rt, b"PING\r\n")?]?;
    assert_burst(rt, channel, burst.as_slice());
    assert_fails(rt, channel, None, None);
    Ok(())
}

/// A chunk of these bytes.
pub(crate) fn chunk(rt: &impl AllocGlobal, bytes: &[u8]) -> Result<Element, Fail> {
    Ok(Element::Chunk(ByteString::from_slice(rt.alloc(), bytes)?))
}

/// A channel has one burst, of these elements.
pub(crate) fn assert_burst(
    rt: &impl Abort,
    channel: &Recorded<Handler, MemoryTransport>,
    elements: &[Element],
) {
    let bursts = channel.input.bursts.as_slice();
    assert_eq!(rt; bursts.len(), 1);
    assert_eq!(rt; bursts[0].as_slice(), elements);
}

/// A channel fails at this call of its transport, and is aborted after so many bursts.
pub(crate) fn assert_fails(
    rt: &impl Abort,
    channel: &Recorded<Handler, MemoryTransport>,
    fail_at: Option<u32>,
    abort_after: Option<u32>,
) {
    assert_eq!(rt; channel.transport.fail_at(), fail_at);
    assert_eq!(rt; channel.input.abort_after, abort_after);
}

/// The session of one PING, whose transport fails at a call.
#[test]
fn call_to_fail(rt: HostRuntime) -> Result<(), Fail> {
    for &call in &[1u32, 2, 65_537, 4_294_967_295] {
        let other = format!(in rt.alloc(); "\"fail_at\":{call},\"bursts\":")?;
        let text = PING_SESSION.replace(rt.alloc(), r#""bursts":"#, other.as_str())?;
        let session = read_session(rt.alloc(), text.as_str())?;
        assert_fails(&rt, only_channel(&rt, &session), Some(call), None);
    }
    Ok(())
}

/// The session of one PING, aborted after so many bursts: none, one, or all three.
#[test]
fn aborted_channels(rt: HostRuntime) -> Result<(), Fail> {
    for &after in &[0u32, 1, 3] {
        let other = format!(in rt.alloc();
            "\"bursts\":[[],[\"PI\"],[\"NG\"]],\"abort_after\":{after}"
        )?;
        let text = PING_SESSION.replace(rt.alloc(), r#""bursts":[["PING\r\n"]]"#, other.as_str())?;
        let session = read_session(rt.alloc(), text.as_str())?;
        let channel = only_channel(&rt, &session);
        assert_eq!(rt; channel.input.bursts.len(), 3);
        assert_fails(&rt, channel, None, Some(after));
    }
    Ok(())
}

/// Each channel has its own.
#[test]
fn channels_that_fail_apart(rt: HostRuntime) -> Result<(), Fail> {
    let more = format!(in rt.alloc();
        ",\"fail_at\":7}},{{\"handlers\":[{SERVICE}],\"bursts\":[[]]}},{{\"handlers\":[{SERVICE}],\"bursts\":[[]],\"abort_after\":1,\"fail_at\":8"
    )?;
    let session = of_edits(&rt, SERVICE, more.as_str())?;
    let channels = session.world.channels();
    assert_eq!(rt; channels.len(), 3);
    assert_fails(&rt, &channels[0], Some(7), None);
    assert_fails(&rt, &channels[1], None, None);
    assert_fails(&rt, &channels[2], Some(8), Some(1));
    Ok(())
}

/// Values that are no whole numbers.
const NOT_WHOLE: [&str; 7] = [
    "1.0",
    "1e0",
    "-0",
    "-1",
    "18446744073709551616",
    "true",
    "\"1\"",
];

/// A channel that fails at a call, or is aborted, by no whole number.
#[test]
fn failures_that_are_not_whole(rt: HostRuntime) -> Result<(), Fail> {
    for &number in &NOT_WHOLE {
        let fail_at = format!(in rt.alloc(); ",\"fail_at\":{number}")?;
        assert_edits(&rt, &[(SERVICE, fail_at.as_str(), KIND)])?;
        let abort_after = format!(in rt.alloc(); ",\"abort_after\":{number}")?;
        assert_edits(&rt, &[(SERVICE, abort_after.as_str(), KIND)])?;
    }
    Ok(())
}

/// With no bursts an abort comes after none. All channels are read before any is built.
#[test]
fn failures_in_reading_order(rt: HostRuntime) -> Result<(), Fail> {
    let no_turn = Some(SessionFault::Build(BuildFault::NoTurn));
    let rows = [
        (SERVICE, r#","abort_after":0"#, None),
        (SERVICE, r#","abort_after":1"#, LIMIT),
        ("", r#","fail_at":0"#, LIMIT),
        ("", r#","abort_after":1"#, LIMIT),
        ("", r#"},{"handlers":[],"bursts":[],"fail_at":0"#, LIMIT),
        ("", r#","fail_at":1,"abort_after":0"#, no_turn),
    ];
    assert_edits(&rt, &rows)
}

#[test]
fn no_channels(rt: HostRuntime) -> Result<(), Fail> {
    let text =
        r#"{"version":1,"capacity":1,"loops":3,"groups":[{"name":"g","size":2}],"channels":[]}"#;
    let session = read_session(rt.alloc(), text)?;
    assert_eq!(rt; session.world.executors(), 5);
    assert_eq!(rt; session.world.channels().len(), 0);
    Ok(())
}

#[test]
fn refused_sessions(rt: HostRuntime) {
    for &(text, fault) in &[
        (r#"{"version":1"#, SessionFault::NotJson),
        ("[]", SessionFault::Kind),
        (r#"{"version":9}"#, SessionFault::Version),
        (r#"{"version":1}"#, SessionFault::Missing),
        (r#"{"version":1,"capacity":0}"#, SessionFault::Limit),
    ] {
        assert_answer(&rt, text, Some(fault));
    }
}

#[test]
fn truncated_session(rt: HostRuntime) -> Result<(), Fail> {
    for end in 0..PING_SESSION.len() {
        let prefix = PING_SESSION.get(..end).ok_or("the session is ASCII")?;
        assert_answer(&rt, prefix, Some(SessionFault::NotJson));
    }
    let deep = "[".repeat(rt.alloc(), 200)?;
    assert_answer(&rt, deep.as_str(), Some(SessionFault::NotJson));
    Ok(())
}

/// Members of the top object, and a channel without handlers or with its marks the wrong way round.
#[test]
fn hostile_members(rt: HostRuntime) -> Result<(), Fail> {
    let part = r#""version":1,"capacity":4,"loops":1"#;
    for &(version, capacity, loops, fault) in &[
        ("1.5", "4", "1", KIND),
        ("\"1\"", "4", "1", KIND),
        ("null", "4", "1", KIND),
        ("0", "4", "1", Some(SessionFault::Version)),
        ("1", "null", "1", KIND),
        ("1", "65536", "1", None),
        ("1", "65537", "1", LIMIT),
        ("1", "4", "64", None),
        ("1", "4", r#"1,"groups":[]"#, None),
        ("1", "4", r#"1,"groups":null"#, None),
        ("1", "4", "65", LIMIT),
        ("1", "4", "0", LIMIT),
        ("1", "4", r#"1,"groups":[{"name":"g","size":65536}]"#, LIMIT),
        ("1", "4", r#"1,"groups":7"#, KIND),
        ("1", "4", r#"1,"groups":[7]"#, KIND),
        ("1", "4", r#"1,"groups":[{"size":7,"name":null}]"#, KIND),
        ("1", "4", r#"1,"groups":[{"name":"g"}]"#, MISSING),
    ] {
        let other = format!(in rt.alloc();
            "\"version\":{version},\"capacity\":{capacity},\"loops\":{loops}"
        )?;
        assert_replaced(&rt, &[(part, other.as_str(), fault)])?;
    }
    let no_turn = Some(SessionFault::Build(BuildFault::NoTurn));
    let marks = Some(SessionFault::Build(BuildFault::Marks));
    let rows = [
        (r#"[{"handlers""#, r#"[7,{"handlers""#, KIND),
        (r#"{"handlers""#, r#"{"more""#, MISSING),
        (r#""bursts":"#, r#""handlers":[],"bursts":"#, no_turn),
        (r#""bursts":"#, r#""low":9,"high":8,"bursts":"#, marks),
    ];
    assert_replaced(&rt, &rows)
}

/// Members of an edit.
#[test]
fn hostile_edits(rt: HostRuntime) -> Result<(), Fail> {
    let last = r#""op":"last","name":"decode""#;
    let decode = r#""kind":"decode""#;
    let part = format!(in rt.alloc(); "{last},{decode}")?;
    for &(edit, kind, fault) in &[
        (r#""name":"decode""#, decode, MISSING),
        (r#""op":"before","name":"decode""#, decode, MISSING),
        (r#""op":"Last","name":"decode""#, decode, KIND),
        (r#""op":"first","name":7"#, decode, KIND),
        (r#""op":"after","name":"decode","at":null"#, decode, KIND),
        (r#""op":"last","name":"other""#, decode, None),
        (last, r#""kind":"length""#, KIND),
        (last, r#""kind":"decode","group":7"#, KIND),
        (last, r#""kind":"flush_every""#, MISSING),
        (last, r#""kind":"flush_every","n":0"#, LIMIT),
        (last, r#""kind":"flush_every","n":65536"#, LIMIT),
        (last, r#""kind":"flush_every","n":65535"#, None),
        (last, r#""kind":"decode","group":null"#, None),
    ] {
        let other = format!(in rt.alloc(); "{edit},{kind}")?;
        assert_replaced(&rt, &[(part.as_str(), other.as_str(), fault)])?;
    }
    let max = r#""max":64"#;
    let rows = [
        (max, r#""max":0"#, LIMIT),
        (max, r#""max":8193"#, LIMIT),
        (max, r#""max":8192"#, None),
        (max, r#""max":null"#, KIND),
    ];
    assert_replaced(&rt, &rows)
}

/// Members of a channel.
#[test]
fn hostile_channels(rt: HostRuntime) -> Result<(), Fail> {
    for &(member, value, fault) in &[
        ("low", "1073741825", LIMIT),
        ("high", "1073741824", None),
        ("high", "\"8\"", KIND),
        ("high", "1073741825", LIMIT),
        ("window", "1", None),
        ("window", "65536", None),
        ("window", "\"x\"", KIND),
        ("window", "1.5", KIND),
        ("window", "0", LIMIT),
        ("window", "65537", LIMIT),
        ("fail_at", "1", None),
        ("fail_at", "4294967295", None),
        ("fail_at", "-1", KIND),
        ("fail_at", "1.0", KIND),
        ("fail_at", "\"1\"", KIND),
        ("fail_at", "0", LIMIT),
        ("fail_at", "4294967296", LIMIT),
        ("abort_after", "0", None),
        ("abort_after", "1", None),
        ("abort_after", "-1", KIND),
        ("abort_after", "[1]", KIND),
        ("abort_after", "2", LIMIT),
        ("abort_after", "4294967296", LIMIT),
    ] {
        let other = format!(in rt.alloc(); "\"{member}\":{value},\"bursts\":")?;
        assert_replaced(&rt, &[(r#""bursts":"#, other.as_str(), fault)])?;
    }
    let ping = r#""bursts":[["PING\r\n"]]"#;
    for &(members, bursts, fault) in &[
        (r#""low":null,"high":null,"#, ping, None),
        (r#""low":0,"high":0,"#, ping, None),
        (
            r#""window":null,"fail_at":null,"abort_after":null,"#,
            ping,
            None,
        ),
        ("", r#""bursts":[["PING"],[7]]"#, KIND),
        ("", r#""bursts":7"#, KIND),
        ("", r#""bursts":null"#, KIND),
        ("", r#""abort_after":0"#, MISSING),
        // The window comes before the call that fails, that before the bursts, and those before the abort.
        (r#""fail_at":"x","window":0,"#, ping, LIMIT),
        ("", r#""bursts":7,"fail_at":0"#, LIMIT),
        (r#""abort_after":2,"#, r#""bursts":[[7]]"#, KIND),
        (r#""abort_after":"x","fail_at":0,"#, ping, LIMIT),
    ] {
        let other = format!(in rt.alloc(); "{members}{bursts}")?;
        assert_replaced(&rt, &[(ping, other.as_str(), fault)])?;
    }
    Ok(())
}

#[test]
fn numbers_that_are_not_whole(rt: HostRuntime) -> Result<(), Fail> {
    for &number in &NOT_WHOLE {
        let loops = format!(in rt.alloc(); "\"loops\":{number}")?;
        assert_replaced(&rt, &[(r#""loops":1"#, loops.as_str(), KIND)])?;
        let max = format!(in rt.alloc(); "\"max\":{number}")?;
        assert_replaced(&rt, &[(r#""max":64"#, max.as_str(), KIND)])?;
    }
    Ok(())
}

#[test]
fn texts_that_are_no_json(rt: HostRuntime) -> Result<(), Fail> {
    let not_json = Some(SessionFault::NotJson);
    let rows = [
        (r#""name":"decode""#, r#""name":"\ud800""#, not_json),
        (r#""loops":1"#, r#""loops":1e999"#, not_json),
        ("{\"version\"", "\u{feff}{\"version\"", not_json),
        ("]}]}", "]}]} 7", not_json),
    ];
    assert_replaced(&rt, &rows)
}

/// Of equal keys the last counts.
#[test]
fn equal_keys(rt: HostRuntime) -> Result<(), Fail> {
    let text = PING_SESSION.replace(rt.alloc(), r#""loops":1"#, r#""loops":"x","loops":2"#)?;
    let session = read_session(rt.alloc(), text.as_str())?;
    assert_eq!(rt; session.world.executors(), 2);
    Ok(())
}

/// The first fault in reading order is the answer.
#[test]
fn reading_order(rt: HostRuntime) -> Result<(), Fail> {
    let edit_7 = r#"{"op":"fly","name":7,"at":7,"kind":7}"#;
    for &(text, fault) in &[
        (r#"{"capacity":0,"version":3}"#, SessionFault::Version),
        (
            r#"{"version":1,"capacity":1,"loops":0,"groups":7}"#,
            SessionFault::Limit,
        ),
        (
            r#"{"version":1,"capacity":1,"loops":1,"groups":[{"name":"g","size":65536},7]}"#,
            SessionFault::Limit,
        ),
        (
            r#"{"version":1,"capacity":1,"loops":1,"channels":[{"low":0},{"handlers":7}]}"#,
            SessionFault::Missing,
        ),
        (
            r#"{"version":1,"capacity":1,"loops":1,"channels":[{"handlers":[],"high":-1,"low":1073741825}]}"#,
            SessionFault::Limit,
        ),
    ] {
        assert_answer(&rt, text, Some(fault));
    }
    let rows = [
        (edit_7, "", KIND),
        (r#"{"op":"before","name":"a","kind":7}"#, "", MISSING),
        (
            r#"{"op":"last","name":"a","kind":"lines","max":0,"group":7}"#,
            "",
            LIMIT,
        ),
        (
            r#"{"op":"after","name":"a","at":"b","max":0,"n":0}"#,
            "",
            MISSING,
        ),
    ];
    assert_edits(&rt, &rows)
}

/// Members that an edit does not have may have any value.
#[test]
fn members_not_read(rt: HostRuntime) -> Result<(), Fail> {
    let edits = r#"
        {"op":"first","name":"a","at":7,"kind":"service","max":"x","n":[]},
        {"op":"last","name":"b","kind":"decode","max":0},
        {"op":"remove","name":"b","at":7,"kind":7,"group":7}"#;
    let session = of_edits(&rt, edits, "")?;
    assert_eq!(rt; only_channel(&rt, &session).pipeline.inbound(), 1);
    Ok(())
}

/// After these edits the order is c, a, d.
#[test]
fn builder_order(rt: HostRuntime) -> Result<(), Fail> {
    let edits = r#"
        {"op":"last","name":"a","kind":"service"},
        {"op":"first","name":"b","kind":"lines","max":64},
        {"op":"before","at":"a","name":"c","kind":"lines","max":64},
        {"op":"after","at":"a","name":"d","kind":"encode"},
        {"op":"remove","name":"b"}"#;
    let session = of_edits(&rt, edits, "")?;
    let pipeline = &only_channel(&rt, &session).pipeline;
    assert!(rt; pipeline.inbound() == 2 && pipeline.outbound() == 0);
    assert!(rt; pipeline.executor_of(3) == Some(0) && pipeline.executor_of(4).is_none());
    Ok(())
}

/// Outbound handlers before the turn count, and those after it do not.
#[test]
fn edit_sides(rt: HostRuntime) -> Result<(), Fail> {
    for &(edit, outbound) in &[
        (r#"{"op":"first","name":"e","kind":"encode"}"#, 1),
        (r#"{"op":"last","name":"e","kind":"encode"}"#, 0),
        (
            r#"{"op":"before","at":"service","name":"e","kind":"encode"}"#,
            1,
        ),
        (
            r#"{"op":"after","at":"service","name":"e","kind":"encode"}"#,
            0,
        ),
    ] {
        let edits = format!(in rt.alloc(); "{SERVICE},{edit}")?;
        let session = of_edits(&rt, edits.as_str(), "")?;
        let pipeline = &only_channel(&rt, &session).pipeline;
        assert_eq!(rt; pipeline.outbound(), outbound, "at {edit}");
    }
    Ok(())
}

#[test]
fn builder_refusals(rt: HostRuntime) -> Result<(), Fail> {
    for &(edit, fault) in &[
        (
            r#"{"op":"first","name":"service","kind":"lines","max":64}"#,
            BuildFault::DuplicateName,
        ),
        (
            r#"{"op":"before","at":"nobody","name":"service","kind":"decode"}"#,
            BuildFault::DuplicateName,
        ),
        (
            r#"{"op":"before","at":"nobody","name":"lines","kind":"lines","max":64}"#,
            BuildFault::NoSuchName,
        ),
        (
            r#"{"op":"after","at":"","name":"lines","kind":"lines","max":64}"#,
            BuildFault::NoSuchName,
        ),
        (r#"{"op":"remove","name":"nobody"}"#, BuildFault::NoSuchName),
        (r#"{"op":"remove","name":""}"#, BuildFault::NoSuchName),
        (
            r#"{"op":"after","at":"nobody","name":"","kind":"decode"}"#,
            BuildFault::Limit,
        ),
    ] {
        let edits = format!(in rt.alloc(); "{SERVICE},{edit}")?;
        assert_edits(
            &rt,
            &[(edits.as_str(), "", Some(SessionFault::Build(fault)))],
        )?;
    }
    Ok(())
}

#[test]
fn build_refusals(rt: HostRuntime) -> Result<(), Fail> {
    let unknown_group = r#"{"op":"last","name":"a","kind":"service","group":"x"}"#;
    let empty_group = r#"{"op":"last","name":"a","kind":"service","group":""}"#;
    let second_service = r#"{"op":"last","name":"b","kind":"service"},
        {"op":"last","name":"c","kind":"service"}"#;
    let no_name = r#"{"op":"last","name":"","kind":"service"}"#;
    for &(edits, more, fault) in &[
        (unknown_group, "", BuildFault::NoSuchGroup),
        (empty_group, "", BuildFault::NoSuchGroup),
        ("", "", BuildFault::NoTurn),
        (second_service, "", BuildFault::TwoTurns),
        (SERVICE, r#","low":9,"high":8"#, BuildFault::Marks),
        (SERVICE, r#","high":100"#, BuildFault::Marks),
        (SERVICE, r#","low":65537"#, BuildFault::Marks),
        (no_name, "", BuildFault::Limit),
    ] {
        assert_edits(&rt, &[(edits, more, Some(SessionFault::Build(fault)))])?;
    }
    Ok(())
}

/// Groups are made first, and then for each channel its edits, its marks and its pipeline.
#[test]
fn building_order(rt: HostRuntime) -> Result<(), Fail> {
    let nobody = r#"{"op":"remove","name":"nobody"}"#;
    for &(edits, more, fault) in &[
        (
            nobody,
            r#"}],"groups":[{"name":"g","size":0}],"more":[{"x":1"#,
            BuildFault::Limit,
        ),
        (nobody, r#","low":9,"high":8"#, BuildFault::NoSuchName),
        ("", r#","low":9,"high":8"#, BuildFault::Marks),
        (
            SERVICE,
            r#","low":9,"high":8},{"handlers":[],"bursts":[]"#,
            BuildFault::Marks,
        ),
        (
            SERVICE,
            r#"},{"handlers":[],"bursts":[]},{"handlers":[],"bursts":[],"low":9,"high":8"#,
            BuildFault::NoTurn,
        ),
    ] {
        assert_edits(&rt, &[(edits, more, Some(SessionFault::Build(fault)))])?;
    }
    Ok(())
}

#[test]
fn name_lengths(rt: HostRuntime) -> Result<(), Fail> {
    for &(copies, fault) in &[
        (31, None),
        (32, Some(SessionFault::Build(BuildFault::Limit))),
    ] {
        let name = "é".repeat(rt.alloc(), copies)?;
        let edit = format!(in rt.alloc();
            "{{\"op\":\"last\",\"name\":\"{name}é\",\"kind\":\"service\"}}"
        )?;
        assert_edits(&rt, &[(edit.as_str(), "", fault)])?;
    }
    Ok(())
}

/// One service, and so many decoders before it.
fn with_decoders(rt: &impl AllocGlobal, count: u32) -> Result<String, Fail> {
    let mut edits = String::from_str(rt.alloc(), SERVICE)?;
    for number in 0..count {
        let edit = format!(in rt.alloc();
            ",{{\"op\":\"first\",\"name\":\"{number}\",\"kind\":\"decode\"}}"
        )?;
        edits.push_str(edit.as_str())?;
    }
    Ok(edits)
}

/// A given number of handlers, and some of them taken out again.
#[test]
fn many_handlers(rt: HostRuntime) -> Result<(), Fail> {
    let limit = Some(SessionFault::Build(BuildFault::Limit));
    for &(count, end, fault) in &[
        (31, "", None),
        (32, "", limit),
        (32, r#",{"op":"remove","name":"0"}"#, limit),
    ] {
        let mut edits = with_decoders(&rt, count)?;
        edits.push_str(end)?;
        assert_edits(&rt, &[(edits.as_str(), "", fault)])?;
    }
    Ok(())
}

#[test]
fn many_edits(rt: HostRuntime) -> Result<(), Fail> {
    let pair = r#",{"op":"last","name":"a","kind":"decode"},{"op":"remove","name":"a"}"#;
    let pairs = pair.repeat(rt.alloc(), 127)?;
    for &(end, fault) in &[
        (r#",{"op":"last","name":"a","kind":"decode"}"#, None),
        (pair, LIMIT),
    ] {
        let edits = format!(in rt.alloc(); "{SERVICE}{pairs}{end}")?;
        assert_edits(&rt, &[(edits.as_str(), "", fault)])?;
    }
    Ok(())
}

#[test]
fn many_channels(rt: HostRuntime) -> Result<(), Fail> {
    let channel = format!(in rt.alloc(); "}},{{\"handlers\":[{SERVICE}],\"bursts\":[]")?;
    for &(copies, fault) in &[(63, None), (64, LIMIT)] {
        let more = channel.repeat(rt.alloc(), copies)?;
        assert_edits(&rt, &[(SERVICE, more.as_str(), fault)])?;
    }
    Ok(())
}

#[test]
fn group_refusals(rt: HostRuntime) -> Result<(), Fail> {
    let duplicate = Some(SessionFault::Build(BuildFault::DuplicateName));
    let limit = Some(SessionFault::Build(BuildFault::Limit));
    for &(other, fault) in &[
        (
            r#""loops":1,"groups":[{"name":"g","size":1},{"name":"g","size":1}]"#,
            duplicate,
        ),
        (r#""loops":64,"groups":[{"name":"g","size":1}]"#, limit),
        (
            r#""loops":1,"groups":[{"name":"g","size":1},{"name":"g","size":0}]"#,
            limit,
        ),
        (r#""loops":1,"groups":[{"name":"g","size":0}]"#, limit),
        (r#""loops":1,"groups":[{"name":"g","size":65535}]"#, limit),
        (r#""loops":1,"groups":[{"name":"","size":1}]"#, limit),
        (r#""loops":1,"groups":[{"name":"g","size":64}]"#, limit),
        (r#""loops":1,"groups":[{"name":"g","size":63}]"#, None),
        (r#""loops":63,"groups":[{"name":"g","size":1}]"#, None),
    ] {
        assert_replaced(&rt, &[(r#""loops":1"#, other, fault)])?;
    }
    Ok(())
}

/// Three channels, each with its decoder and its service in a group of two.
#[test]
fn group_placing(rt: HostRuntime) -> Result<(), Fail> {
    let channel = r#"{"handlers":[
        {"op":"last","name":"lines","kind":"lines","max":64},
        {"op":"last","name":"decode","kind":"decode","group":"g"},
        {"op":"last","name":"lineend","kind":"lineend"},
        {"op":"last","name":"encode","kind":"encode"},
        {"op":"last","name":"service","kind":"service","group":"g"}],"bursts":[["PING\n"]]}"#;
    let text = format!(in rt.alloc();
        "{{\"version\":1,\"capacity\":4,\"loops\":1,\"groups\":[{{\"name\":\"g\",\"size\":2}}],\"channels\":[{channel},{channel},{channel}]}}"
    )?;
    let session = read_session(rt.alloc(), text.as_str())?;
    assert_eq!(rt; session.world.executors(), 3);
    assert_eq!(rt; session.world.channels().len(), 3);
    for (channel, &executor) in session.world.channels().iter().zip(&[1, 2, 1]) {
        assert_grouped(&rt, channel, executor);
    }
    Ok(())
}

/// The decoder and the service of a channel are on an executor, and all else is on executor 0.
fn assert_grouped(rt: &impl Abort, channel: &Recorded<Handler, MemoryTransport>, executor: u16) {
    for hop in 0..7 {
        let expected = if hop == 1 || hop == 2 { executor } else { 0 };
        assert_eq!(rt;
            channel.pipeline.executor_of(hop),
            Some(expected),
            "at hop {hop}"
        );
    }
    assert_eq!(rt; channel.pipeline.executor_of(7), None);
}

/// A channel of one service.
const ALONE: &str = r#"{"handlers":[{"op":"last","name":"service","kind":"service"}],"bursts":[]}"#;

/// Channels live on the loops in turn.
#[test]
fn loops_in_turn(rt: HostRuntime) -> Result<(), Fail> {
    let text = format!(in rt.alloc();
        "{{\"version\":1,\"capacity\":4,\"loops\":2,\"channels\":[{ALONE},{ALONE},{ALONE}]}}"
    )?;
    let session = read_session(rt.alloc(), text.as_str())?;
    assert_eq!(rt; session.world.executors(), 2);
    for (channel, &executor) in session.world.channels().iter().zip(&[0, 1, 0]) {
        assert_eq!(rt; channel.pipeline.executor_of(0), Some(executor));
    }
    Ok(())
}

#[test]
fn marks_are_kept(rt: HostRuntime) -> Result<(), Fail> {
    let session = of_edits(&rt, SERVICE, r#","low":4,"high":8"#)?;
    let pipeline = &only_channel(&rt, &session).pipeline;
    assert!(rt; pipeline.low() == 4 && pipeline.high() == 8);
    Ok(())
}

/// The session of one PING with other bursts, which are copies of a part between two ends, has this answer.
fn assert_copies(
    rt: &(impl Abort + AllocGlobal),
    begin: &str,
    part: &str,
    copies: usize,
    end: &str,
    fault: Option<SessionFault>,
) -> Result<(), Fail> {
    let copied = part.repeat(rt.alloc(), copies)?;
    let bursts = format!(in rt.alloc(); "{begin}{copied}{end}")?;
    assert_replaced(rt, &[(r#"[["PING\r\n"]]"#, bursts.as_str(), fault)])
}

#[test]
fn burst_limits(rt: HostRuntime) -> Result<(), Fail> {
    for &(begin, part, copies, end, fault) in &[
        ("[[]", ",[]", 4_095, "]", None),
        ("[[]", ",[]", 4_096, "]", LIMIT),
        (r#"[["""#, r#","""#, 16_383, "]]", None),
        (r#"[["""#, r#","""#, 16_384, "]]", LIMIT),
        (r#"[["a"],[""#, "é", 524_287, r#"b"]]"#, None),
        (r#"[["aa"],[""#, "é", 524_287, r#"b"]]"#, LIMIT),
    ] {
        assert_copies(&rt, begin, part, copies, end, fault)?;
    }
    Ok(())
}

#[test]
fn text_too_long(rt: HostRuntime) -> Result<(), Fail> {
    let long = " ".repeat(rt.alloc(), MAX_SESSION_TEXT + 1)?;
    assert_eq!(rt; read_session(rt.alloc(), long.as_str()).err(), LIMIT);
    Ok(())
}

/// The number of bursts comes before them, and the elements and bytes after them, before an abort.
#[test]
fn burst_order(rt: HostRuntime) -> Result<(), Fail> {
    for &(begin, part, copies, end, fault) in &[
        ("[7", ",[]", 4_096, "]", LIMIT),
        (r#"[["""#, r#","""#, 16_384, "],[7]]", KIND),
        (
            r#"[["""#,
            r#","""#,
            16_384,
            r#"]],"abort_after":"x""#,
            LIMIT,
        ),
    ] {
        assert_copies(&rt, begin, part, copies, end, fault)?;
    }
    Ok(())
}

/// What a session is told as whose pipelines or groups are not built.
const BUILD_FAULT_TEXTS: [(BuildFault, &str); 7] = [
    (BuildFault::DuplicateName, "6 Build 1 DuplicateName"),
    (BuildFault::NoSuchName, "6 Build 2 NoSuchName"),
    (BuildFault::Limit, "6 Build 3 Limit"),
    (BuildFault::NoSuchGroup, "6 Build 4 NoSuchGroup"),
    (BuildFault::NoTurn, "6 Build 5 NoTurn"),
    (BuildFault::TwoTurns, "6 Build 6 TwoTurns"),
    (BuildFault::Marks, "6 Build 7 Marks"),
];

#[test]
fn fault_texts(rt: HostRuntime) -> Result<(), Fail> {
    assert_told(&rt, SessionFault::NotJson, "1 NotJson")?;
    assert_told(&rt, SessionFault::Version, "2 Version")?;
    assert_told(&rt, SessionFault::Missing, "3 Missing")?;
    assert_told(&rt, SessionFault::Kind, "4 Kind")?;
    assert_told(&rt, SessionFault::Limit, "5 Limit")?;
    for &(fault, text) in &BUILD_FAULT_TEXTS {
        assert_told(&rt, SessionFault::Build(fault), text)?;
    }
    assert_told(&rt, SessionFault::from(BuildFault::Memory), "7 Memory")
}
