//! Replays of which `checks/refused_tests.sh` refuses each allocation in turn. Whichever it is, the test passes: a call
//! answers it, or the report begins that of `plain`.

use crate::tests::fair::begins;
use crate::tests::sessions;
use crate::tests::sessions::{frame_session, line_session};
use pl_replay::replay;
use pl_text::{MovesFault, SessionFault, print_report, read_moves, read_session};
use pl_world::{ChannelReport, ReplayFault, Report, plain};
use std::alloc::{AllocError, Global};
use std::fmt::Debug;
use std::process::Abort;

/// What a call answered, where it did not fail. It may fail only by this fault, which says that it had no memory.
fn unless_refused<T, F: Copy + Debug + PartialEq>(
    rt: &impl Abort,
    answer: Result<T, F>,
    memory: F,
) -> Option<T> {
    match answer {
        Ok(value) => Some(value),
        Err(fault) => {
            assert_eq!(rt; fault, memory);
            None
        }
    }
}

/// The report of these moves of the session of a text, where no call that leads to it answers that it has no memory.
fn reported(rt: &impl Abort, alloc: Global, text: &str, moves: &str) -> Option<Report> {
    let moves = unless_refused(rt, read_moves(alloc, moves), MovesFault::Memory)?;
    let session = unless_refused(rt, read_session(alloc, text), SessionFault::Memory)?;
    let answer = replay(alloc, session, moves.as_slice());
    unless_refused(rt, answer, ReplayFault::Memory)
}

/// What `plain` reports of the session of a text, where there is memory for it.
fn whole(alloc: Global, text: &str) -> Option<Report> {
    let session = read_session(alloc, text).ok()?;
    plain(alloc, session).ok()
}

/// Prints a report: nothing is printed without memory.
fn assert_prints(rt: &impl Abort, alloc: Global, report: &Report) {
    let mut printed = Vec::new(alloc);
    let is_printed = print_report(alloc, report, &mut printed).is_ok();
    assert!(rt; is_printed == !printed.is_empty());
}

/// Each report begins that of `plain`, however its channel stands.
fn assert_begin(rt: &impl Abort, parts: &[ChannelReport], wholes: &[ChannelReport]) {
    assert_eq!(rt; parts.len(), wholes.len());
    for (part, whole) in parts.iter().zip(wholes) {
        assert!(rt; begins(part, whole));
    }
}

/// Replays the session of a text, and prints the report, if there is one. It begins that of `plain`, if there is that.
fn replays(rt: &(impl Abort + AllocGlobal), text: &str, moves: &str) {
    let alloc = rt.alloc();
    if let Some(report) = reported(rt, alloc, text, moves) {
        assert_prints(rt, alloc, &report);
        if let Some(whole) = whole(alloc, text) {
            assert_begin(rt, report.channels.as_slice(), whole.channels.as_slice());
        }
    }
}

/// The same, if there is memory for the text.
fn goes_on(rt: &(impl Abort + AllocGlobal), text: Result<String, AllocError>, moves: &str) {
    if let Ok(text) = text {
        replays(rt, text.as_str(), moves);
    }
}

#[test]
fn ping(rt: HostRuntime) {
    goes_on(&rt, line_session(&rt, sessions::PING), "R0x3 O0");
}

#[test]
fn echo_and_faults(rt: HostRuntime) {
    let text = line_session(&rt, sessions::ECHO_AND_FAULTS);
    goes_on(&rt, text, "R0x4 O0x4");
}

#[test]
fn quit(rt: HostRuntime) {
    goes_on(&rt, line_session(&rt, sessions::QUIT), "R0x4 O0x4");
}

#[test]
fn length_frames(rt: HostRuntime) {
    let text = frame_session(&rt, sessions::LENGTH_FRAMES);
    goes_on(&rt, text, "R0x4 O0x4");
}

#[test]
fn watermarks(rt: HostRuntime) {
    goes_on(&rt, sessions::watermarks(&rt), "R0x3 O0x6");
}

#[test]
fn handover_drained(rt: HostRuntime) {
    let text = String::from_str(rt.alloc(), sessions::DECODER_APART);
    let moves = "R0x3 H0 T1 H1 T0 H0 T1 H1 T0 H0 T1 H1 T0 H0 T1 H1 T0 O0";
    goes_on(&rt, text, moves);
}
