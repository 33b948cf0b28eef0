//! The program on any arguments and inputs: its statuses, its lines on standard error, and what it leaves of its input.

use crate::tests::running::{Runtime, answers, answers_on, replays};
use crate::tests::streams::Failing;
use pl_build::BuildFault;
use pl_replay::replay;
use pl_text::{MovesFault, SessionFault, read_moves, read_session};
use pl_text_tests::{PING_REPORT, PING_SESSION};
use pl_tool::refuse_args;
use pl_world::ReplayFault;
use std::alloc::Global;
use std::io;
use std::io::ErrorKind;
use std::process::Abort;
use std::test::Fail;

pub(crate) const USAGE: &str =
    "usage: pl_tool replay [--moves MOVES] | run --queue waiting|ring | plain\n";

/// What in the session's text is put in another's place so that its pipelines are not built, the fault, and its line.
const UNBUILT: [(&str, &str, BuildFault, &str); 7] = [
    (
        r#""name":"decode""#,
        r#""name":"lines""#,
        BuildFault::DuplicateName,
        "session refused: 6 Build 1 DuplicateName\n",
    ),
    (
        r#"{"op":"last","name":"decode""#,
        r#"{"op":"before","at":"nobody","name":"decode""#,
        BuildFault::NoSuchName,
        "session refused: 6 Build 2 NoSuchName\n",
    ),
    (
        r#""loops":1"#,
        r#""loops":1,"groups":[{"name":"g","size":0}]"#,
        BuildFault::Limit,
        "session refused: 6 Build 3 Limit\n",
    ),
    (
        r#""kind":"decode""#,
        r#""kind":"decode","group":"g""#,
        BuildFault::NoSuchGroup,
        "session refused: 6 Build 4 NoSuchGroup\n",
    ),
    (
        r#""bursts":"#,
        r#""handlers":[],"bursts":"#,
        BuildFault::NoTurn,
        "session refused: 6 Build 5 NoTurn\n",
    ),
    (
        r#""kind":"decode""#,
        r#""kind":"service""#,
        BuildFault::TwoTurns,
        "session refused: 6 Build 6 TwoTurns\n",
    ),
    (
        r#""bursts":"#,
        r#""low":9,"high":8,"bursts":"#,
        BuildFault::Marks,
        "session refused: 6 Build 7 Marks\n",
    ),
];

const WRONG_LINES: &[&[&str]] = &[
    &[],
    &["fly"],
    &["plain", "ping"],
    &["plain", "replay"],
    &["plain", "--moves", "R0"],
    &["plain", "--help"],
    &["plain", "-"],
    &["plain", "plain"],
    &["run", "ring"],
    &["run", "--queue", "ring", "waiting"],
    &["run", "--queue", "ring", "--queue", "ring"],
    &["run", "--queue", "ring", "-"],
    &["run", "--queue", "ring", "--moves", "R0"],
    &["run", "--moves", "R0"],
    &["run", "--help"],
    &["help"],
    &["--help"],
    &["-h"],
    &["--version"],
    &["replay", "--help"],
    &["replay", "R0"],
    &["replay", "--moves"],
    &["replay", "--moves", "-1"],
    &["replay", "--moves", "--moves"],
    &["replay", "--moves", "-"],
    &["replay", "-"],
    &["replay", "--moves", "R0", "--moves", "R0"],
    &["replay", "--queue", "ring"],
    &["--moves", "R0", "replay"],
];

#[test]
fn wrong_command_lines(rt: HostRuntime) -> Result<(), Fail> {
    for line in WRONG_LINES {
        answers(&rt, line, PING_SESSION.as_bytes(), 2, "", USAGE)?;
    }
    Ok(())
}

/// Says that a line is refused by this, and answers whether it leaves the session where it is.
fn leaves_session(rt: &impl Runtime, line: &[&str], told: &str) -> Result<bool, Fail> {
    let mut reader = PING_SESSION.as_bytes();
    answers_on(rt, line, &mut reader, 2, "", told)?;
    Ok(reader.len() == PING_SESSION.len())
}

#[test]
fn run_needs_a_queue(rt: HostRuntime) -> Result<(), Fail> {
    for line in [["run"].as_slice(), ["run", "--queue"].as_slice()] {
        assert!(rt; leaves_session(&rt, line, USAGE)?, "of {line:?}");
    }
    Ok(())
}

#[test]
fn no_such_queue(rt: HostRuntime) -> Result<(), Fail> {
    for name in ["", "stack", "Ring", "rings", "waitin", "ring waiting"] {
        let line = ["run", "--queue", name];
        assert!(rt; leaves_session(&rt, &line, USAGE)?, "of {name}");
    }
    Ok(())
}

/// Says that an input is refused by this line on standard error, and that nothing is printed.
fn refuses(rt: &impl Runtime, line: &[&str], input: &[u8], told: &str) -> Result<(), Fail> {
    answers(rt, line, input, 3, "", told)
}

/// Says that the program prints the whole report of the session, and nothing on standard error.
fn reports(rt: &impl Runtime, line: &[&str]) -> Result<(), Fail> {
    answers(rt, line, PING_SESSION.as_bytes(), 0, PING_REPORT, "")
}

/// `run` prints what `plain` prints of a session that drains, whichever the queue, and as `--queue=`.
#[test]
fn run_of_a_session(rt: HostRuntime) -> Result<(), Fail> {
    for line in [
        ["run", "--queue", "waiting"].as_slice(),
        ["run", "--queue", "ring"].as_slice(),
        ["run", "--queue=waiting"].as_slice(),
        ["run", "--queue=ring", "--"].as_slice(),
    ] {
        reports(&rt, line)?;
        refuses(&rt, line, b"{}", "session refused: 3 Missing\n")?;
    }
    Ok(())
}

/// The report of the session, of which nothing has moved.
const UNMOVED: &str = "channel 0 open\ntail 0\nbytes 0 -\nwrites 0\n";

/// Command lines and inputs, each with its status, what is printed and what is told on standard error.
const STATUSES: &[(&[&str], &str, u8, &str, &str)] = &[
    (&["replay"], PING_SESSION, 1, UNMOVED, ""),
    (&["replay", "--moves="], PING_SESSION, 1, UNMOVED, ""),
    (&["replay", "--moves", ""], PING_SESSION, 1, UNMOVED, ""),
    (
        &["replay", "--moves=R0x3 O0"],
        PING_SESSION,
        0,
        PING_REPORT,
        "",
    ),
    (
        &["replay", "--moves", "R0x3 O0"],
        PING_SESSION,
        0,
        PING_REPORT,
        "",
    ),
    (
        &["replay", "--moves=-"],
        "",
        2,
        "",
        "moves refused: 1 Form\n",
    ),
    (
        &["replay", "--moves", "R00"],
        "",
        2,
        "",
        "moves refused: 1 Form\n",
    ),
    (
        &["replay", "--moves", "R0x1000000 R0"],
        "",
        2,
        "",
        "moves refused: 2 Limit\n",
    ),
    (
        &["replay", "--moves", "R5"],
        PING_SESSION,
        2,
        "",
        "replay refused: 1 NoSuch\n",
    ),
    (&["replay"], "", 3, "", "session refused: 1 NotJson\n"),
];

#[test]
fn statuses(rt: HostRuntime) -> Result<(), Fail> {
    for &(line, input, status, out, err) in STATUSES {
        answers(&rt, line, input.as_bytes(), status, out, err)?;
    }
    Ok(())
}

/// `plain` prints what a replay prints that drains the session, and takes the whole of it.
#[test]
fn plain_of_a_session(rt: HostRuntime) -> Result<(), Fail> {
    for line in [
        ["plain"].as_slice(),
        ["plain", "--"].as_slice(),
        ["replay", "--moves=R0x3 O0"].as_slice(),
    ] {
        reports(&rt, line)?;
    }
    let none = r#"{"version":1,"capacity":4,"loops":1,"channels":[]}"#;
    answers(&rt, &["plain"], none.as_bytes(), 0, "", "")
}

/// Of `plain` too, nothing is printed of what is not a session.
#[test]
fn plain_of_no_session(rt: HostRuntime) -> Result<(), Fail> {
    for (input, told) in [
        (b"".as_slice(), "session refused: 1 NotJson\n"),
        (b"{}".as_slice(), "session refused: 3 Missing\n"),
        (b"\xff".as_slice(), "session refused: 1 NotJson\n"),
    ] {
        refuses(&rt, &["plain"], input, told)?;
    }
    Ok(())
}

/// A line that is not read leaves the session where it is.
#[test]
fn line_before_session(rt: HostRuntime) -> Result<(), Fail> {
    for (line, told) in [
        (["plain", "ping"], USAGE),
        (["replay", "--moves=R00"], "moves refused: 1 Form\n"),
    ] {
        assert!(rt; leaves_session(&rt, &line, told)?, "of {line:?}");
    }
    Ok(())
}

/// A session whose pipelines are not built ends with status 3, and with its number.
#[test]
fn refused_builds(rt: HostRuntime) -> Result<(), Fail> {
    for (part, other, _, told) in UNBUILT {
        let text = PING_SESSION.replace(rt.alloc(), part, other)?;
        refuses(&rt, &["replay"], text.as_bytes(), told)?;
    }
    Ok(())
}

#[test]
fn refused_args(rt: HostRuntime) -> Result<(), Fail> {
    for (kind, want, told) in [
        (ErrorKind::OutOfMemory, 4, "out of memory\n"),
        (ErrorKind::InvalidData, 2, USAGE),
    ] {
        let mut err = Vec::new(rt.alloc());
        let error = io::Error::from(kind);
        assert_eq!(rt; refuse_args(&error, &mut err), want);
        assert_eq!(rt; err.as_slice(), told.as_bytes());
        assert_eq!(rt; refuse_args(&error, &mut Failing { room: 5 }), want);
    }
    Ok(())
}

/// Says that a session text is refused by this fault, and that the program's line is the fault's own text.
fn refuses_session<R: Abort + Runtime>(
    rt: &R,
    text: &str,
    fault: SessionFault,
) -> Result<(), Fail> {
    assert_eq!(rt; read_session(rt.alloc(), text).err(), Some(fault));
    let told = format!(in rt.alloc(); "session refused: {fault}\n")?;
    refuses(rt, &["replay"], text.as_bytes(), told.as_str())
}

/// The same of a text of moves.
fn refuses_moves<R: Abort + Runtime>(rt: &R, moves: &str, fault: MovesFault) -> Result<(), Fail> {
    assert_eq!(rt; read_moves(rt.alloc(), moves).err(), Some(fault));
    let told = format!(in rt.alloc(); "moves refused: {fault}\n")?;
    replays(rt, PING_SESSION, moves, 2, "", told.as_str())
}

/// The fault of a replay of the session by these moves.
fn replay_fault(alloc: Global, moves: &str) -> Result<Option<ReplayFault>, Fail> {
    let moves = read_moves(alloc, moves)?;
    let session = read_session(alloc, PING_SESSION)?;
    Ok(replay(alloc, session, moves.as_slice()).err())
}

/// The same of a move that is read, and of whose channel there is none.
fn refuses_replay<R: Abort + Runtime>(rt: &R) -> Result<(), Fail> {
    let fault = ReplayFault::NoSuch;
    assert_eq!(rt; replay_fault(rt.alloc(), "R5")?, Some(fault));
    let told = format!(in rt.alloc(); "replay refused: {fault}\n")?;
    let line = ["replay", "--moves=R5"];
    answers(rt, &line, PING_SESSION.as_bytes(), 2, "", told.as_str())
}

/// The lines are those of the faults' own texts.
#[test]
fn lines_of_faults(rt: HostRuntime) -> Result<(), Fail> {
    for (text, fault) in [
        ("{\"version\":1", SessionFault::NotJson),
        ("{\"version\":9}", SessionFault::Version),
        ("{\"version\":1}", SessionFault::Missing),
        ("[]", SessionFault::Kind),
        ("{\"version\":1,\"capacity\":0}", SessionFault::Limit),
    ] {
        refuses_session(&rt, text, fault)?;
    }
    for (part, other, fault, _) in UNBUILT {
        let text = PING_SESSION.replace(rt.alloc(), part, other)?;
        refuses_session(&rt, text.as_str(), SessionFault::Build(fault))?;
    }
    refuses_moves(&rt, "R00", MovesFault::Form)?;
    refuses_moves(&rt, "R0x1000000 R0", MovesFault::Limit)?;
    refuses_replay(&rt)
}
