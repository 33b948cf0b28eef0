//! Transports that fail, and aborts: the report that a schedule leaves, and its status. `plain` takes no account of them.

use crate::tests::running;
use crate::tests::running::{Runtime, replays};
use crate::tests::sessions::{LINE_ACROSS_BURSTS, LineSession, PING, QUIT, failing_session};
use std::test::Fail;

/// Says that a schedule of a session with these further members reports this, with this status.
fn reports(
    rt: &impl Runtime,
    session: LineSession,
    members: &str,
    moves: &str,
    status: u8,
    report: &str,
) -> Result<(), Fail> {
    let text = failing_session(rt, session, members)?;
    replays(rt, text.as_str(), moves, status, report, "")
}

/// Says that `plain` reports a drained ping of it.
fn composes_ping(rt: &impl Runtime, session: LineSession, members: &str) -> Result<(), Fail> {
    let text = failing_session(rt, session, members)?;
    running::composes(rt, text.as_str(), DRAINED_PING)
}

const DRAINED_PING: &str =
    "channel 0 drained\ntail 3\nActive\nRead Ping\nReadComplete\nbytes 7 2b504f4e470d0a\nwrites 1\n0 Success\n";

/// The abort came before the reply had left.
const ABORTED_PING: &str =
    "channel 0 failed Aborted\ntail 3\nActive\nRead Ping\nReadComplete\nbytes 0 -\nwrites 1\n0 Closed\n";

#[test]
fn transport_fault(rt: HostRuntime) -> Result<(), Fail> {
    let session = (64, r#"[["PING\n"]]"#);
    let members = r#","window":4,"fail_at":2"#;
    let report =
        "channel 0 failed Transport\ntail 3\nActive\nRead Ping\nReadComplete\nbytes 4 2b504f4e\nwrites 1\n0 Fault\n";
    reports(&rt, session, members, "R0x2 O0x2 R0", 1, report)?;
    composes_ping(&rt, session, members)
}

/// The tail of the session that quits.
const QUIT_TAIL: &str = "tail 3\nActive\nRead Ping\nRead Quit\n";

/// Says that a transport that fails at this call has got these bytes, and what became of the two writes.
fn fails_at(
    rt: &impl Runtime,
    call: u8,
    bytes: &str,
    first: &str,
    second: &str,
) -> Result<(), Fail> {
    let (status, stands) = if call < 5 {
        (1, "failed Transport")
    } else {
        (0, "drained")
    };
    let members = format!(in rt.alloc(); ",\"window\":4,\"fail_at\":{call}")?;
    let report = format!(in rt.alloc();
        "channel 0 {stands}\n{QUIT_TAIL}bytes {bytes}\nwrites 2\n0 {first}\n1 {second}\n"
    )?;
    let moves = "R0x2 O0x4 R0";
    reports(rt, QUIT, members.as_str(), moves, status, report.as_str())
}

#[test]
fn fault_at_each_call(rt: HostRuntime) -> Result<(), Fail> {
    for (call, bytes, first, second) in [
        (1, "0 -", "Fault", "Fault"),
        (2, "4 2b504f4e", "Fault", "Fault"),
        (3, "7 2b504f4e470d0a", "Success", "Fault"),
        (4, "11 2b504f4e470d0a2b425945", "Success", "Fault"),
        (5, "13 2b504f4e470d0a2b4259450d0a", "Success", "Success"),
    ] {
        fails_at(&rt, call, bytes, first, second)?;
    }
    Ok(())
}

/// The abort comes before the reply has left, and after it.
#[test]
fn abort(rt: HostRuntime) -> Result<(), Fail> {
    let members = r#","abort_after":1"#;
    reports(&rt, PING, members, "R0x3", 1, ABORTED_PING)?;
    let after =
        "channel 0 failed Aborted\ntail 3\nActive\nRead Ping\nReadComplete\nbytes 7 2b504f4e470d0a\nwrites 1\n0 Success\n";
    reports(&rt, PING, members, "R0x2 O0 R0", 1, after)?;
    composes_ping(&rt, PING, members)
}

/// Says that a session that is aborted leaves this tail and these writes.
fn aborts(rt: &impl Runtime, members: &str, tail: &str, writes: &str) -> Result<(), Fail> {
    let report = format!(in rt.alloc(); "channel 0 failed Aborted\n{tail}\nbytes 0 -\n{writes}\n")?;
    let session = LINE_ACROSS_BURSTS;
    reports(rt, session, members, "R0x4 O0", 1, report.as_str())
}

#[test]
fn abort_at_each_burst(rt: HostRuntime) -> Result<(), Fail> {
    for (members, tail, writes) in [
        (r#","abort_after":0"#, "tail 1\nActive", "writes 0"),
        (
            r#","abort_after":1"#,
            "tail 2\nActive\nReadComplete",
            "writes 0",
        ),
        (
            r#","abort_after":2"#,
            "tail 4\nActive\nReadComplete\nRead Ping\nReadComplete",
            "writes 1\n0 Closed",
        ),
    ] {
        aborts(&rt, members, tail, writes)?;
    }
    Ok(())
}

/// Where a transport fails and the channel is aborted, the first of the two decides.
#[test]
fn first_failure_stays(rt: HostRuntime) -> Result<(), Fail> {
    let members = r#","fail_at":1,"abort_after":1"#;
    let transport =
        "channel 0 failed Transport\ntail 3\nActive\nRead Ping\nReadComplete\nbytes 0 -\nwrites 1\n0 Fault\n";
    reports(&rt, PING, members, "R0x2 O0 R0x2", 1, transport)?;
    reports(&rt, PING, members, "R0x3 O0", 1, ABORTED_PING)?;
    composes_ping(&rt, PING, members)
}
