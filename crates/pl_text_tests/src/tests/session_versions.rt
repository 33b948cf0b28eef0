//! Session texts of version 2: chunks in hex, user events, and handlers of frames with their length in front.

use crate::tests::session_text::{
    KIND, LIMIT, MISSING, SERVICE, assert_answer, assert_burst, assert_fails, chunk, only_channel,
};
use pl_event::Element;
use pl_text::{SessionFault, read_session};
use std::process::Abort;
use std::test::Fail;

/// A session of one channel in a version, with these edits and these bursts.
fn versioned(
    rt: &impl AllocGlobal,
    version: &str,
    edits: &str,
    bursts: &str,
) -> Result<String, Fail> {
    Ok(format!(in rt.alloc();
        "{{\"version\":{version},\"capacity\":4,\"loops\":1,\"channels\":[{{\"handlers\":[{edits}],\"bursts\":{bursts}}}]}}"
    )?)
}

/// A session of the service in a version, with these bursts, has this answer.
fn assert_bursts(
    rt: &(impl Abort + AllocGlobal),
    version: &str,
    bursts: &str,
    fault: Option<SessionFault>,
) -> Result<(), Fail> {
    let text = versioned(rt, version, SERVICE, bursts)?;
    assert_answer(rt, text.as_str(), fault);
    Ok(())
}

/// A session of the service behind a handler that has these members.
fn with_handler(rt: &impl AllocGlobal, version: &str, members: &str) -> Result<String, Fail> {
    let edits = format!(in rt.alloc(); "{{\"op\":\"last\",\"name\":\"a\",{members}}},{SERVICE}")?;
    versioned(rt, version, edits.as_str(), "[]")
}

/// The one channel of a session in version 2 has so many inbound and outbound handlers.
fn assert_handlers(
    rt: &(impl Abort + AllocGlobal),
    text: &str,
    inbound: u16,
    outbound: u16,
) -> Result<(), Fail> {
    let session = read_session(rt.alloc(), text)?;
    assert_eq!(rt; session.capacity, 4);
    let channel = only_channel(rt, &session);
    let pipeline = &channel.pipeline;
    assert!(rt; pipeline.inbound() == inbound && pipeline.outbound() == outbound);
    assert!(rt; pipeline.low() == 32_768 && pipeline.high() == 65_536);
    assert_fails(rt, channel, None, None);
    Ok(())
}

/// A session in version 2 with bursts of this text reads them as one burst of these elements.
fn assert_elements(
    rt: &(impl Abort + AllocGlobal),
    bursts: &str,
    elements: Vec<Element>,
) -> Result<(), Fail> {
    let text = versioned(rt, "2", SERVICE, bursts)?;
    let session = read_session(rt.alloc(), text.as_str())?;
    assert_burst(rt, only_channel(rt, &session), elements.as_slice());
    Ok(())
}

/// The line protocol with frames in place of lines.
const FRAMES: &str = r#"
    {"op":"last","name":"length","kind":"length","width":2,"max":64},
    {"op":"last","name":"decode","kind":"decode"},
    {"op":"last","name":"prepend","kind":"prepend","width":2},
    {"op":"last","name":"encode","kind":"encode"},
    {"op":"last","name":"service","kind":"service"}"#;

#[test]
fn version_two(rt: HostRuntime) -> Result<(), Fail> {
    for &(digits, bytes) in &[
        ("", b"".as_slice()),
        ("00", b"\x00"),
        ("0450", b"\x04P"),
        ("494E47", b"ING"),
        ("494e47", b"ING"),
        ("aBCdeF09fF", b"\xab\xcd\xef\x09\xff"),
    ] {
        let bursts = format!(in rt.alloc(); "[[\"{digits}\"]]")?;
        let elements = vec![in rt.alloc(); chunk(&rt, bytes)?]?;
        assert_elements(&rt, bursts.as_str(), elements)?;
    }
    for &(members, inbound, outbound) in &[
        (r#""kind":"length","width":2,"max":64"#, 2, 0),
        (r#""kind":"length","width":4,"max":1"#, 2, 0),
        (r#""kind":"prepend","width":2"#, 1, 1),
        (r#""kind":"prepend","width":4,"max":0"#, 1, 1),
    ] {
        let text = with_handler(&rt, "2", members)?;
        assert_handlers(&rt, text.as_str(), inbound, outbound)?;
    }
    let frames = versioned(&rt, "2", FRAMES, r#"[["00","0450","494E47"]]"#)?;
    assert_handlers(&rt, frames.as_str(), 3, 2)
}

const VERSION: Option<SessionFault> = Some(SessionFault::Version);

#[test]
fn hostile_version_two(rt: HostRuntime) -> Result<(), Fail> {
    for &(version, members, fault) in &[
        ("0", r#""kind":"prepend","width":2"#, VERSION),
        ("3", r#""kind":"prepend","width":2"#, VERSION),
        ("2.0", r#""kind":"prepend","width":2"#, KIND),
        ("1", r#""kind":"length","width":2,"max":64"#, KIND),
        ("1", r#""kind":"length""#, KIND),
        ("1", r#""kind":"length","width":3,"max":0"#, KIND),
        ("1", r#""kind":"prepend","width":2"#, KIND),
        ("1", r#""kind":"prepend""#, KIND),
        ("1", r#""kind":"prepend","width":3"#, KIND),
        ("2", r#""kind":"lines","max":64"#, None),
        ("2", r#""kind":"Length","width":2,"max":64"#, KIND),
        ("2", r#""kind":"length","max":64"#, MISSING),
        ("2", r#""kind":"length","width":"2","max":64"#, KIND),
        ("2", r#""kind":"length","width":2.0,"max":64"#, KIND),
        ("2", r#""kind":"length","width":null,"max":64"#, KIND),
        ("2", r#""kind":"length","width":0,"max":64"#, LIMIT),
        ("2", r#""kind":"length","width":3,"max":64"#, LIMIT),
        ("2", r#""kind":"length","width":8,"max":64"#, LIMIT),
        ("2", r#""kind":"length","width":2"#, MISSING),
        ("2", r#""kind":"length","width":2,"max":"64""#, KIND),
        ("2", r#""kind":"length","width":2,"max":0"#, LIMIT),
        ("2", r#""kind":"length","width":2,"max":8193"#, LIMIT),
        ("2", r#""kind":"length","width":4,"max":8192"#, None),
        // The width comes before the longest frame, and that before the group.
        ("2", r#""kind":"length","max":0"#, MISSING),
        ("2", r#""kind":"length","max":0,"width":"2""#, KIND),
        ("2", r#""kind":"length","max":"64","width":3"#, LIMIT),
        ("2", r#""kind":"length","width":2,"max":0,"group":7"#, LIMIT),
        ("2", r#""kind":"prepend""#, MISSING),
        ("2", r#""kind":"prepend","width":"2""#, KIND),
        ("2", r#""kind":"prepend","width":3"#, LIMIT),
        ("2", r#""kind":"prepend","width":3,"group":7"#, LIMIT),
        ("2", r#""kind":"prepend","width":4,"group":7"#, KIND),
    ] {
        let text = with_handler(&rt, version, members)?;
        assert_answer(&rt, text.as_str(), fault);
    }
    Ok(())
}

/// Bytes are counted, and not their digits.
#[test]
fn hostile_version_two_chunks(rt: HostRuntime) -> Result<(), Fail> {
    for &(part, copies, fault) in &[
        ("5", 1, KIND),
        ("zz", 1, KIND),
        ("0g", 1, KIND),
        ("005", 1, KIND),
        (" 00", 1, KIND),
        ("0x00", 1, KIND),
        ("é", 1, KIND),
        (r#"00",7,""#, 1, KIND),
        (r#"00",null,""#, 1, KIND),
        ("0a", 1_048_576, None),
        ("0a", 1_048_577, LIMIT),
    ] {
        let chunk = part.repeat(rt.alloc(), copies)?;
        let bursts = format!(in rt.alloc(); "[[\"\"],[\"{chunk}\"]]")?;
        assert_bursts(&rt, "2", bursts.as_str(), fault)?;
    }
    Ok(())
}

/// A user event stands among the chunks of a burst. Other members of its object are not read.
#[test]
fn user_event(rt: HostRuntime) -> Result<(), Fail> {
    let ping = b"PING\n";
    let elements = vec![in rt.alloc(); chunk(&rt, ping)?, Element::User(7), chunk(&rt, ping)?]?;
    let bursts = r#"[["50494e470a",{"user":7},"50494e470a"]]"#;
    assert_elements(&rt, bursts, elements)?;
    for &(bursts, number) in &[
        (r#"[[{"user":0}]]"#, 0),
        (r#"[[{"user":4294967295}]]"#, 4_294_967_295),
        (r#"[[{"bytes":7,"user":65536,"User":"x"}]]"#, 65_536),
        (r#"[[{"user":"x","user":1}]]"#, 1),
    ] {
        assert_elements(&rt, bursts, vec![in rt.alloc(); Element::User(number)]?)?;
    }
    Ok(())
}

#[test]
fn hostile_user_event(rt: HostRuntime) -> Result<(), Fail> {
    for &(version, element, fault) in &[
        ("2", r#"{"user":4294967296}"#, LIMIT),
        ("2", r#"{"user":18446744073709551615}"#, LIMIT),
        ("2", r#"{"user":18446744073709551616}"#, KIND),
        ("2", "{}", MISSING),
        ("2", r#"{"User":7}"#, MISSING),
        ("2", r#"{"user":"7"}"#, KIND),
        ("2", r#"{"user":null}"#, KIND),
        ("2", r#"{"user":-1}"#, KIND),
        ("2", r#"{"user":1.5}"#, KIND),
        ("2", r#"{"user":7.0}"#, KIND),
        ("2", "7", KIND),
        ("2", "null", KIND),
        ("2", "[]", KIND),
        ("2", "true", KIND),
        ("1", r#"{"user":7}"#, KIND),
        ("1", "{}", KIND),
        // An element is read to its end before the next.
        ("2", r#"{},"5""#, MISSING),
        ("2", r#""5",{}"#, KIND),
    ] {
        let bursts = format!(in rt.alloc(); "[[\"00\"],[{element}]]")?;
        assert_bursts(&rt, version, bursts.as_str(), fault)?;
    }
    Ok(())
}

/// Chunks and user events count together, and a user event has no bytes.
#[test]
fn many_elements(rt: HostRuntime) -> Result<(), Fail> {
    for &(first, copies, fault) in &[
        (r#""00""#, 16_383, None),
        (r#""00""#, 16_384, LIMIT),
        (r#"{"user":7}"#, 16_383, None),
        (r#"{"user":7}"#, 16_384, LIMIT),
        (r#""00","01"],["02""#, 16_381, None),
        (r#""00","01"],["02""#, 16_382, LIMIT),
    ] {
        let events = r#",{"user":4294967295}"#.repeat(rt.alloc(), copies)?;
        let bursts = format!(in rt.alloc(); "[[{first}{events}]]")?;
        assert_bursts(&rt, "2", bursts.as_str(), fault)?;
    }
    let digits = "0a".repeat(rt.alloc(), 1_048_576)?;
    let bursts = format!(in rt.alloc(); "[[{{\"user\":7}},\"{digits}\",{{\"user\":8}}]]")?;
    assert_bursts(&rt, "2", bursts.as_str(), None)
}
