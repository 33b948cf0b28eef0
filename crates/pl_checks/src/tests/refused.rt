//! Sessions and schedules that are refused: the status, the line on standard error, and nothing on standard output.

use crate::tests::running::{Runtime, answers, replays};
use crate::tests::sessions::{
    DECODER_APART, hex_session, line_protocol, line_session, piped, versioned,
};
use pl_text_tests::PING_SESSION;
use std::alloc::AllocError;
use std::test::Fail;

fn refuses(rt: &impl Runtime, text: &str, moves: &str, status: u8, line: &str) -> Result<(), Fail> {
    replays(rt, text, moves, status, "", line)
}

#[test]
fn refused_sessions(rt: HostRuntime) -> Result<(), Fail> {
    for (text, line) in [
        ("{\"version\":1", "session refused: 1 NotJson\n"),
        ("[]", "session refused: 4 Kind\n"),
        ("{\"version\":9}", "session refused: 2 Version\n"),
        ("{\"version\":1}", "session refused: 3 Missing\n"),
        (
            "{\"version\":1,\"capacity\":0}",
            "session refused: 5 Limit\n",
        ),
    ] {
        refuses(&rt, text, "R0", 3, line)?;
    }
    Ok(())
}

/// The session of a ping, cut off wherever it may be, arrays that are nested too deep, and a chunk that is no text.
#[test]
fn truncated_session(rt: HostRuntime) -> Result<(), Fail> {
    let line = "session refused: 1 NotJson\n";
    for end in 0..PING_SESSION.len() {
        let prefix = PING_SESSION.get(..end).ok_or("the session is ASCII")?;
        refuses(&rt, prefix, "", 3, line)?;
    }
    let deep = "[".repeat(rt.alloc(), 200)?;
    refuses(&rt, deep.as_str(), "", 3, line)?;
    let mut no_text = Vec::from_slice(rt.alloc(), PING_SESSION.as_bytes())?;
    for byte in no_text.as_mut_slice() {
        if *byte == b'P' {
            *byte = 0xff;
        }
    }
    answers(&rt, &["replay"], no_text.as_slice(), 3, "", line)
}

/// Members of the session of a ping that are of another kind or past a limit, and pipelines and groups that are not built.
#[test]
fn hostile_members(rt: HostRuntime) -> Result<(), Fail> {
    let kind = "session refused: 4 Kind\n";
    let limit = "session refused: 5 Limit\n";
    for (part, other, line) in [
        (r#""version":1"#, r#""version":1.5"#, kind),
        (r#""version":1"#, r#""version":"1""#, kind),
        (r#""max":64"#, r#""max":0"#, limit),
        (r#""max":64"#, r#""max":-1"#, kind),
        (r#""loops":1"#, r#""loops":65"#, limit),
        (
            r#""bursts":"#,
            r#""handlers":[],"bursts":"#,
            "session refused: 6 Build 5 NoTurn\n",
        ),
        (
            r#""bursts":"#,
            r#""low":9,"high":8,"bursts":"#,
            "session refused: 6 Build 7 Marks\n",
        ),
        (
            r#""loops":1"#,
            r#""loops":1,"groups":[{"name":"g","size":0}]"#,
            "session refused: 6 Build 3 Limit\n",
        ),
    ] {
        let text = PING_SESSION.replace(rt.alloc(), part, other)?;
        refuses(&rt, text.as_str(), "", 3, line)?;
    }
    Ok(())
}

/// Chunks that are no hex, handlers of frames in version 1, and in version 2 their members.
#[test]
fn hostile_version_two(rt: HostRuntime) -> Result<(), Fail> {
    let kind = "session refused: 4 Kind\n";
    let limit = "session refused: 5 Limit\n";
    for (version, edit, bursts, line) in [
        (2, r#""kind":"service""#, r#"[["5"]]"#, kind),
        (2, r#""kind":"service""#, r#"[["zz"]]"#, kind),
        (1, r#""kind":"length","width":2,"max":64"#, "[]", kind),
        (1, r#""kind":"prepend","width":2"#, "[]", kind),
        (2, r#""kind":"length","width":"2","max":64"#, "[]", kind),
        (2, r#""kind":"length","width":3,"max":64"#, "[]", limit),
        (2, r#""kind":"length","width":2,"max":8193"#, "[]", limit),
        (2, r#""kind":"prepend","width":3"#, "[]", limit),
    ] {
        let edits = format!(in rt.alloc(); "{{\"op\":\"last\",\"name\":\"a\",{edit}}}")?;
        let text = versioned(&rt, version, edits.as_str(), "", bursts)?;
        refuses(&rt, text.as_str(), "R0", 3, line)?;
    }
    Ok(())
}

/// Elements of a burst that are neither a chunk nor a user event.
#[test]
fn hostile_user_event(rt: HostRuntime) -> Result<(), Fail> {
    let kind = "session refused: 4 Kind\n";
    for (bursts, line) in [
        (r#"[[{"user":4294967296}]]"#, "session refused: 5 Limit\n"),
        ("[[{}]]", "session refused: 3 Missing\n"),
        (r#"[[{"user":"7"}]]"#, kind),
        ("[[7]]", kind),
    ] {
        let text = hex_session(&rt, bursts)?;
        refuses(&rt, text.as_str(), "R0", 3, line)?;
    }
    let version_one = line_session(&rt, (64, r#"[[{"user":7}]]"#))?;
    refuses(&rt, version_one.as_str(), "R0", 3, kind)
}

/// A session with these groups, and of one channel these marks and these edits after the line protocol.
fn built(
    rt: &impl AllocGlobal,
    groups: &str,
    marks: &str,
    more: &str,
) -> Result<String, AllocError> {
    let edits = line_protocol(rt, 64)?;
    format!(in rt.alloc();
        "{{\"version\":1,\"capacity\":4,\"loops\":1,\"groups\":[{groups}],\"channels\":[{{\"handlers\":[{edits}{more}],{marks}\"bursts\":[]}}]}}"
    )
}

/// Says that a session is refused when its pipelines are built, with this reason.
fn refuses_to_build(rt: &impl Runtime, text: &str, reason: &str) -> Result<(), Fail> {
    let line = format!(in rt.alloc(); "session refused: 6 Build {reason}\n")?;
    refuses(rt, text, "", 3, line.as_str())
}

/// The same of a session with these groups, marks and edits.
fn refuses_built(
    rt: &impl Runtime,
    groups: &str,
    marks: &str,
    more: &str,
    reason: &str,
) -> Result<(), Fail> {
    let text = built(rt, groups, marks, more)?;
    refuses_to_build(rt, text.as_str(), reason)
}

#[test]
fn builder_refusals(rt: HostRuntime) -> Result<(), Fail> {
    for (more, reason) in [
        (
            r#",{"op":"last","name":"lines","kind":"decode"}"#,
            "1 DuplicateName",
        ),
        (
            r#",{"op":"before","at":"nobody","name":"more","kind":"decode"}"#,
            "2 NoSuchName",
        ),
        (r#",{"op":"remove","name":"nobody"}"#, "2 NoSuchName"),
        (r#",{"op":"last","name":"","kind":"decode"}"#, "3 Limit"),
    ] {
        refuses_built(&rt, "", "", more, reason)?;
    }
    Ok(())
}

#[test]
fn build_refusals(rt: HostRuntime) -> Result<(), Fail> {
    for (marks, more, reason) in [
        (
            "",
            r#",{"op":"first","name":"more","kind":"encode","group":"x"}"#,
            "4 NoSuchGroup",
        ),
        ("", r#",{"op":"remove","name":"service"}"#, "5 NoTurn"),
        (
            "",
            r#",{"op":"first","name":"another","kind":"service"}"#,
            "6 TwoTurns",
        ),
        (r#""low":9,"high":8,"#, "", "7 Marks"),
        (r#""high":100,"#, "", "7 Marks"),
    ] {
        refuses_built(&rt, "", marks, more, reason)?;
    }
    let nothing = piped(&rt, "", "[]")?;
    refuses_to_build(&rt, nothing.as_str(), "5 NoTurn")
}

#[test]
fn group_refusals(rt: HostRuntime) -> Result<(), Fail> {
    for (groups, reason) in [
        (r#"{"name":"g","size":64}"#, "3 Limit"),
        (r#"{"name":"g","size":0}"#, "3 Limit"),
        (r#"{"name":"","size":1}"#, "3 Limit"),
        (
            r#"{"name":"g","size":1},{"name":"g","size":1}"#,
            "1 DuplicateName",
        ),
    ] {
        refuses_built(&rt, groups, "", "", reason)?;
    }
    Ok(())
}

/// Moves that are none or too many, and a channel or an executor that is not there, which refuses the whole replay
/// wherever it is named.
#[test]
fn hostile_moves(rt: HostRuntime) -> Result<(), Fail> {
    let form = "moves refused: 1 Form\n";
    let no_such = "replay refused: 1 NoSuch\n";
    for (moves, line) in [
        (" R0", form),
        ("R00", form),
        ("R65536", form),
        ("R0x0", form),
        ("R0x1000001", form),
        ("R0x1000000 R0", "moves refused: 2 Limit\n"),
        ("R5", no_such),
        ("R1", no_such),
        ("R0x3 O0 O1", no_such),
        ("T1", no_such),
        ("R0 H7 R0", no_such),
    ] {
        refuses(&rt, PING_SESSION, moves, 2, line)?;
    }
    Ok(())
}

/// Executors 0 and 1 are there.
#[test]
fn no_such_executor(rt: HostRuntime) -> Result<(), Fail> {
    refuses(&rt, DECODER_APART, "T2", 2, "replay refused: 1 NoSuch\n")
}
