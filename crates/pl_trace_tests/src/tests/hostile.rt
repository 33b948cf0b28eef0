//! Texts of which a check has to say what `read_session` says, and where.

use crate::tests::running::{checked, same};
use crate::tests::sessions::TWO;
use pl_text::{SessionFault, read_session};
use pl_text_tests::{DECODER_APART, PING_SESSION};
use std::alloc::Global;
use std::process::Abort;
use std::test::Fail;

/// Says that a check reads a text where `read_session` does, and else has the same fault, at a place unless the text is no
/// JSON.
fn agrees(rt: &impl Abort, alloc: Global, text: &str) -> Result<(), Fail> {
    let (found, place) = checked(alloc, text)?;
    let fault = read_session(alloc, text).err();
    same(rt, found, fault);
    let has_place = !matches!(fault, None | Some(SessionFault::NotJson));
    assert!(rt; place.is_some() == has_place, "{text}");
    Ok(())
}

/// Members of the sessions here, with a value that they have.
const MEMBERS: [(&str, &str); 27] = [
    ("version", "1"),
    ("version", "2"),
    ("capacity", "1"),
    ("capacity", "2"),
    ("loops", "1"),
    ("loops", "2"),
    ("groups", "[{\"name\":\"a\",\"size\":1}]"),
    ("groups", "[{\"name\":\"g\",\"size\":2}]"),
    ("name", "\"a\""),
    ("name", "\"decode\""),
    ("name", "\"gone\""),
    ("size", "2"),
    ("op", "\"last\""),
    ("op", "\"before\""),
    ("op", "\"remove\""),
    ("at", "\"decode\""),
    ("kind", "\"lines\""),
    ("kind", "\"service\""),
    ("kind", "\"length\""),
    ("width", "2"),
    ("max", "64"),
    ("group", "\"a\""),
    ("group", "\"g\""),
    ("window", "3"),
    ("abort_after", "1"),
    ("user", "7"),
    ("bursts", "[[\"PING\\r\\n\"]]"),
];

/// Values of each kind, and numbers past the limits.
const VALUES: [&str; 18] = [
    "null",
    "true",
    "-1",
    "1.5",
    "0",
    "5",
    "63",
    "65",
    "8193",
    "65536",
    "65537",
    "99999999999",
    "\"\"",
    "\"service\"",
    "\"prepend\"",
    "[]",
    "[[7]]",
    "{}",
];

/// Each of these members, where a session has it, with each of these values, and absent.
#[test]
fn other_values(rt: HostRuntime) -> Result<(), Fail> {
    let alloc = rt.alloc();
    for &session in &[PING_SESSION, DECODER_APART, TWO] {
        for &(name, value) in &MEMBERS {
            let part = format!(in alloc; "\"{name}\":{value}")?;
            if !session.contains(part.as_str()) {
                continue;
            }
            for &other in &VALUES {
                let changed = format!(in alloc; "\"{name}\":{other}")?;
                let text = session.replace(alloc, part.as_str(), changed.as_str())?;
                agrees(&rt, alloc, text.as_str())?;
            }
            let absent = session.replace(alloc, part.as_str(), "\"absent\":0")?;
            agrees(&rt, alloc, absent.as_str())?;
        }
    }
    Ok(())
}

/// Texts that lack a byte, and some that are cut off there.
#[test]
fn lacking(rt: HostRuntime) -> Result<(), Fail> {
    let alloc = rt.alloc();
    for &session in &[DECODER_APART, TWO] {
        for at in 0..session.len() {
            if at % 4 != 0 {
                continue;
            }
            let before = session.get(..at).ok_or("the session is ASCII")?;
            let after = session.get(at + 1..).ok_or("the session is ASCII")?;
            let text = format!(in alloc; "{before}{after}")?;
            agrees(&rt, alloc, text.as_str())?;
            if at % 32 == 0 {
                agrees(&rt, alloc, before)?;
            }
        }
    }
    Ok(())
}

/// One more than there may be of edits, bursts, elements and channels, and some bytes more.
#[test]
fn too_many(rt: HostRuntime) -> Result<(), Fail> {
    let alloc = rt.alloc();
    let edit = r#"{"op":"last","name":"lines","kind":"lines","max":64},"#;
    let channel = r#"{"handlers":[{"op":"last","name":"s","kind":"service"}],"bursts":[]},"#;
    for &(part, one, count) in &[
        (r#"{"op":"last","name":"lines""#, edit, 252usize),
        (r#"["PING\r\n"]"#, "[],", 4_096),
        (r#""PING\r\n""#, "\"\",", 16_384),
        (r#"PING\r\n"#, "12345678", 131_072),
        (r#"{"handlers""#, channel, 64),
    ] {
        let many = one.repeat(alloc, count)?;
        let more = format!(in alloc; "{}{part}", many.as_str())?;
        let text = PING_SESSION.replace(alloc, part, more.as_str())?;
        agrees(&rt, alloc, text.as_str())?;
        assert!(rt; read_session(alloc, text.as_str()).err().is_some());
    }
    Ok(())
}

/// Names of handlers and groups that are too long, and one that is not.
#[test]
fn long_names(rt: HostRuntime) -> Result<(), Fail> {
    let alloc = rt.alloc();
    for &count in &[64usize, 65] {
        let name = "n".repeat(alloc, count)?;
        for &part in &[r#""name":"lines""#, r#""name":"a""#] {
            let named = format!(in alloc; "\"name\":\"{}\"", name.as_str())?;
            let text = DECODER_APART.replace(alloc, part, named.as_str())?;
            agrees(&rt, alloc, text.as_str())?;
        }
    }
    Ok(())
}

/// More handlers than a pipeline has, each with a name of its own.
#[test]
fn many_handlers(rt: HostRuntime) -> Result<(), Fail> {
    let alloc = rt.alloc();
    let mut edits = String::new(alloc);
    for number in 0..28 {
        let edit = format!(in alloc;
            "{{\"op\":\"last\",\"name\":\"n{number}\",\"kind\":\"lineend\"}},"
        )?;
        edits.push_str(edit.as_str())?;
    }
    let text = PING_SESSION.replace(
        alloc,
        "\"handlers\":[",
        format!(in alloc; "\"handlers\":[{}", edits.as_str())?.as_str(),
    )?;
    let (_, place) = checked(alloc, text.as_str())?;
    let place = place.ok_or("no place")?;
    same(
        &rt,
        place.as_str(),
        "channels[0].handlers[32].name: \"service\"",
    );
    agrees(&rt, alloc, text.as_str())
}
