//! Checks of sessions: faults with their places, and warnings.

use crate::tests::running::{Runtime, checked, run, same, says};
use pl_text::{MAX_SESSION_TEXT, read_session};
use pl_text_tests::{DECODER_APART, PING_SESSION};
use std::alloc::Global;
use std::process::Abort;
use std::test::Fail;

/// A text with one part in place of another.
fn changed(alloc: Global, text: &str, old: &str, new: &str) -> Result<String, Fail> {
    let (before, after) = text.split_once(old).ok_or("no such part")?;
    Ok(format!(in alloc; "{before}{new}{after}")?)
}

/// Each row is a part of the session whose decoder is apart, another text in its place, and where a check then finds the
/// fault of `read_session`.
fn are_at(rt: &(impl Abort + AllocGlobal), rows: &[(&str, &str, &str)]) -> Result<(), Fail> {
    let alloc = rt.alloc();
    for &(old, new, place) in rows {
        let text = changed(alloc, DECODER_APART, old, new)?;
        let (fault, found) = checked(alloc, text.as_str())?;
        same(rt, fault, read_session(alloc, text.as_str()).err());
        let found = found.ok_or("no place")?;
        same(rt, found.as_str(), place);
    }
    Ok(())
}

/// Each table's members.
#[test]
fn members(rt: HostRuntime) -> Result<(), Fail> {
    let rows = [
        ("\"version\":1", "\"version\":3", "version: 3"),
        ("\"version\":1", "\"version\":\"1\"", "version: \"1\""),
        ("\"capacity\":1", "\"capacity\":0", "capacity: 0"),
        ("\"loops\":1,", "", "loops: absent"),
        ("\"size\":1", "\"size\":65536", "groups[0].size: 65536"),
        ("\"name\":\"a\"", "\"nam\":\"a\"", "groups[0].name: absent"),
        (
            "\"max\":64",
            "\"max\":8193",
            "channels[0].handlers[0].max: 8193",
        ),
        (
            "\"kind\":\"lineend\"",
            "\"kind\":\"line_end\"",
            "channels[0].handlers[2].kind: \"line_end\"",
        ),
        (
            "\"kind\":\"encode\"",
            "\"kind\":\"prepend\"",
            "channels[0].handlers[3].kind: \"prepend\"",
        ),
        (
            "\"op\":\"last\"",
            "\"op\":\"before\"",
            "channels[0].handlers[0].at: absent",
        ),
        (
            "\"op\":\"last\"",
            "\"op\":\"end\"",
            "channels[0].handlers[0].op: \"end\"",
        ),
        (
            "\"group\":\"a\"",
            "\"group\":1",
            "channels[0].handlers[1].group: 1",
        ),
        (
            "\"bursts\"",
            "\"window\":0,\"bursts\"",
            "channels[0].window: 0",
        ),
        (
            "[[\"PING\\r\\n\"]]",
            "[[\"PING\\r\\n\", 7]]",
            "channels[0].bursts[0][1]: 7",
        ),
        (
            "\"bursts\"",
            "\"abort_after\":2,\"bursts\"",
            "channels[0].abort_after: 2",
        ),
        ("\"bursts\"", "\"low\":-1,\"bursts\"", "channels[0].low: -1"),
    ];
    are_at(&rt, &rows)
}

/// The refusals of groups and pipelines.
#[test]
fn pipelines(rt: HostRuntime) -> Result<(), Fail> {
    let rows = [
        ("\"size\":1", "\"size\":64", "groups[0].size: 64"),
        (
            "{\"name\":\"a\",\"size\":1}",
            "{\"name\":\"a\",\"size\":1},{\"name\":\"a\",\"size\":1}",
            "groups[1].name: \"a\"",
        ),
        (
            "\"name\":\"encode\"",
            "\"name\":\"decode\"",
            "channels[0].handlers[3].name: \"decode\"",
        ),
        (
            "\"name\":\"encode\"",
            "\"name\":\"\"",
            "channels[0].handlers[3].name: \"\"",
        ),
        (
            "\"op\":\"last\",\"name\":\"decode\"",
            "\"op\":\"after\",\"at\":\"x\",\"name\":\"decode\"",
            "channels[0].handlers[1].at: \"x\"",
        ),
        (
            "\"op\":\"last\",\"name\":\"decode\"",
            "\"op\":\"remove\",\"name\":\"decode\"",
            "channels[0].handlers[1].name: \"decode\"",
        ),
        (
            "\"bursts\"",
            "\"low\":9,\"high\":8,\"bursts\"",
            "channels[0].low: 9",
        ),
        (
            "\"group\":\"a\"",
            "\"group\":\"b\"",
            "channels[0].handlers[1].group: \"b\"",
        ),
        (
            "\"kind\":\"encode\"",
            "\"kind\":\"service\"",
            "channels[0].handlers[4]: {\"kind\":\"service\",\"name\":\"service\",\"op\":\"last\"}",
        ),
        (
            ",\n{\"op\":\"last\",\"name\":\"service\",\"kind\":\"service\"}",
            "",
            "channels[0].handlers: [{\"kind\":\"lines\",\"max\":64,\"name\":\"lines\",\"op\":\"last\"},{\"grou..",
        ),
    ];
    are_at(&rt, &rows)
}

/// A session that is read, and some that are not.
#[test]
fn told(rt: HostRuntime) -> Result<(), Fail> {
    let long = " ".repeat(rt.alloc(), MAX_SESSION_TEXT + 1)?;
    for &(session, status, out, err) in &[
        (PING_SESSION, 0, "session read\n", ""),
        ("[]", 3, "", "session refused: 4 Kind\nat top value: []\n"),
        ("{", 3, "", "session refused: 1 NotJson\n"),
        ("", 3, "", "session refused: 1 NotJson\n"),
        (long.as_str(), 3, "", "session refused: 5 Limit\n"),
    ] {
        says(&rt, &["check"], session, status, out, err)?;
    }
    Ok(())
}

/// The other commands say where, too, and write nothing else.
#[test]
fn refused_everywhere(rt: HostRuntime) -> Result<(), Fail> {
    let kind = "\"kind\":\"service\"";
    let session = changed(rt.alloc(), DECODER_APART, kind, "\"kind\":\"server\"")?;
    let refused = "session refused: 4 Kind\nat channels[0].handlers[4].kind: \"server\"\n";
    for &command in &["moves", "picture", "schedule"] {
        says(&rt, &[command], session.as_str(), 3, "", refused)?;
        says(
            &rt,
            &[command],
            "{}}",
            3,
            "",
            "session refused: 1 NotJson\n",
        )?;
    }
    Ok(())
}

/// A misspelt member, and a circle that the capacity does not cover.
#[test]
fn warnings(rt: HostRuntime) -> Result<(), Fail> {
    let alloc = rt.alloc();
    let misspelt = changed(alloc, DECODER_APART, "\"group\":\"a\"", "\"grp\":\"a\"")?;
    let roomy = changed(alloc, DECODER_APART, "\"capacity\":1", "\"capacity\":15")?;
    for &(session, said) in &[
        (
            misspelt.as_str(),
            "session read\nwarning: channels[0].handlers[1].grp: \"a\": no table names this member\n",
        ),
        (
            DECODER_APART,
            "session read\nwarning: executors 0 -> 1 -> 0 hand over in a circle: with capacity 1 a run on waiting queues may stand still, with 15 it cannot for this circle\n",
        ),
        (roomy.as_str(), "session read\n"),
    ] {
        says(&rt, &["check"], session, 0, said, "")?;
    }
    Ok(())
}

/// A member that no table names is told of where the session is refused, before that.
#[test]
fn warned_and_refused(rt: HostRuntime) -> Result<(), Fail> {
    let session = changed(rt.alloc(), PING_SESSION, "\"bursts\"", "\"burst\"")?;
    let said = "warning: channels[0].burst: [[\"PING\\r\\n\"]]: no table names this member
session refused: 3 Missing
at channels[0].bursts: absent
";
    says(&rt, &["check"], session.as_str(), 3, "", said)
}

/// With these words help is written to standard output.
fn helps(rt: &impl Runtime, words: &[&str]) -> Result<(), Fail> {
    let said = run(rt, words, "")?;
    same(rt, said.status, 0);
    same(rt, said.err()?, "");
    assert!(rt; said.out()?.contains("Usage: pl_trace"));
    Ok(())
}

/// A line of these words is not read, which standard error says.
fn unread(rt: &impl Runtime, words: &[&str]) -> Result<(), Fail> {
    let said = run(rt, words, PING_SESSION)?;
    same(rt, said.status, 2);
    same(rt, said.out()?, "");
    assert!(rt; !said.err()?.is_empty());
    Ok(())
}

/// Help is written to standard output; a line that is not read, to standard error.
#[test]
fn usage(rt: HostRuntime) -> Result<(), Fail> {
    helps(&rt, &["--help"])?;
    helps(&rt, &["moves", "--help"])?;
    unread(&rt, &[])?;
    unread(&rt, &["move"])?;
    unread(&rt, &["moves", "--moves"])?;
    unread(&rt, &["moves", "--moves", "R0", "--moves-file", "f"])?;
    unread(&rt, &["schedule", "--seed", "-1"])?;
    unread(&rt, &["schedule", "--seed", "1", "--fair"])?;
    unread(&rt, &["check", "x"])
}
