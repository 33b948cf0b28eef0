//! The worked sessions that drain: the report, by a schedule and by `plain`, the status, and nothing on standard error.

use crate::tests::running::{Runtime, composes, replays, runs};
use crate::tests::sessions;
use crate::tests::sessions::{
    FrameSession, HexBursts, LineSession, frame_session, hex_session, line_session,
};
use std::test::Fail;

/// Says that a session of the line protocol drains with this report.
fn drains(rt: &impl Runtime, session: LineSession, moves: &str, report: &str) -> Result<(), Fail> {
    let text = line_session(rt, session)?;
    gives(rt, text.as_str(), moves, report)
}

/// Says that a session of frames drains with this report.
fn drains_frames(rt: &impl Runtime, session: FrameSession, report: &str) -> Result<(), Fail> {
    let text = frame_session(rt, session)?;
    gives(rt, text.as_str(), "R0x4 O0x4", report)
}

/// Says that a session of the line protocol with chunks in hex drains with this report.
fn drains_hex(rt: &impl Runtime, bursts: HexBursts, report: &str) -> Result<(), Fail> {
    let text = hex_session(rt, bursts)?;
    gives(rt, text.as_str(), "R0x4 O0x4", report)
}

/// Says that these moves drain the session of a text with this report, which `plain` gives as well, and so does a run
/// over each queue.
fn gives(rt: &impl Runtime, text: &str, moves: &str, report: &str) -> Result<(), Fail> {
    replays(rt, text, moves, 0, report, "")?;
    composes(rt, text, report)?;
    runs(rt, text, "ring", 0, report)?;
    let roomy = sessions::with_room(rt, text)?;
    runs(rt, roomy.as_str(), "waiting", 0, report)
}

#[test]
fn no_bursts(rt: HostRuntime) -> Result<(), Fail> {
    drains(
        &rt,
        sessions::NO_BURSTS,
        "R0x2",
        "channel 0 drained\ntail 1\nActive\nbytes 0 -\nwrites 0\n",
    )
}

#[test]
fn ping(rt: HostRuntime) -> Result<(), Fail> {
    drains(
        &rt,
        sessions::PING,
        "R0x3 O0",
        "channel 0 drained\ntail 3\nActive\nRead Ping\nReadComplete\nbytes 7 2b504f4e470d0a\nwrites 1\n0 Success\n",
    )
}

#[test]
fn line_across_bursts(rt: HostRuntime) -> Result<(), Fail> {
    drains(
        &rt,
        sessions::LINE_ACROSS_BURSTS,
        "R0x4 O0x4",
        "channel 0 drained\ntail 4\nActive\nReadComplete\nRead Ping\nReadComplete\nbytes 7 2b504f4e470d0a\nwrites 1\n0 Success\n",
    )
}

#[test]
fn cr_and_lf_apart(rt: HostRuntime) -> Result<(), Fail> {
    drains(
        &rt,
        sessions::CR_AND_LF_APART,
        "R0x4 O0x4",
        "channel 0 drained\ntail 3\nActive\nRead Ping\nReadComplete\nbytes 7 2b504f4e470d0a\nwrites 1\n0 Success\n",
    )
}

#[test]
fn line_too_long(rt: HostRuntime) -> Result<(), Fail> {
    drains(
        &rt,
        sessions::LINE_TOO_LONG,
        "R0x4 O0x4",
        "channel 0 drained\ntail 3\nActive\nCaught TooLong\nReadComplete\nbytes 14 2d45525220746f6f6c6f6e670d0a\nwrites 1\n0 Success\n",
    )
}

#[test]
fn echo_and_faults(rt: HostRuntime) -> Result<(), Fail> {
    drains(
        &rt,
        sessions::ECHO_AND_FAULTS,
        "R0x4 O0x4",
        "channel 0 drained\ntail 5\nActive\nRead Echo -\nCaught Syntax\nCaught Unknown\nReadComplete\nbytes 30 2b0d0a2d4552522073796e7461780d0a2d45525220756e6b6e6f776e0d0a\nwrites 3\n0 Success\n1 Success\n2 Success\n",
    )
}

#[test]
fn cr_inside_line(rt: HostRuntime) -> Result<(), Fail> {
    drains(
        &rt,
        sessions::CR_INSIDE_LINE,
        "R0x4 O0x4",
        "channel 0 drained\ntail 3\nActive\nRead Echo 610d\nReadComplete\nbytes 5 2b610d0d0a\nwrites 1\n0 Success\n",
    )
}

#[test]
fn totals(rt: HostRuntime) -> Result<(), Fail> {
    drains(&rt, sessions::TOTALS, "R0x4 O0x4", sessions::TOTALS_REPORT)
}

#[test]
fn leading_zero(rt: HostRuntime) -> Result<(), Fail> {
    drains(
        &rt,
        sessions::LEADING_ZERO,
        "R0x4 O0x4",
        "channel 0 drained\ntail 3\nActive\nCaught Syntax\nReadComplete\nbytes 13 2d4552522073796e7461780d0a\nwrites 1\n0 Success\n",
    )
}

#[test]
fn nine_digits(rt: HostRuntime) -> Result<(), Fail> {
    drains(
        &rt,
        sessions::NINE_DIGITS,
        "R0x4 O0x4",
        "channel 0 drained\ntail 5\nActive\nRead Add a 999999999\nCaught Syntax\nRead Get zz\nReadComplete\nbytes 29 3a3939393939393939390d0a2d4552522073796e7461780d0a3a300d0a\nwrites 3\n0 Success\n1 Success\n2 Success\n",
    )
}

#[test]
fn quit(rt: HostRuntime) -> Result<(), Fail> {
    drains(
        &rt,
        sessions::QUIT,
        "R0x4 O0x4",
        "channel 0 drained\ntail 3\nActive\nRead Ping\nRead Quit\nbytes 13 2b504f4e470d0a2b4259450d0a\nwrites 2\n0 Success\n1 Success\n",
    )
}

#[test]
fn length_frames(rt: HostRuntime) -> Result<(), Fail> {
    drains_frames(
        &rt,
        sessions::LENGTH_FRAMES,
        "channel 0 drained\ntail 3\nActive\nRead Ping\nReadComplete\nbytes 7 00052b504f4e47\nwrites 1\n0 Success\n",
    )
}

/// The payload comes with its length, and in a burst of its own.
#[test]
fn frame_too_long(rt: HostRuntime) -> Result<(), Fail> {
    drains_frames(
        &rt,
        sessions::FRAME_TOO_LONG,
        "channel 0 drained\ntail 3\nActive\nCaught TooLong\nReadComplete\nbytes 14 000c2d45525220746f6f6c6f6e67\nwrites 1\n0 Success\n",
    )?;
    drains_frames(
        &rt,
        sessions::FRAME_SKIPPED_LATER,
        "channel 0 drained\ntail 4\nActive\nCaught TooLong\nReadComplete\nReadComplete\nbytes 14 000c2d45525220746f6f6c6f6e67\nwrites 1\n0 Success\n",
    )
}

#[test]
fn empty_and_unfinished_frame(rt: HostRuntime) -> Result<(), Fail> {
    drains_frames(
        &rt,
        sessions::EMPTY_FRAME,
        "channel 0 drained\ntail 3\nActive\nCaught Unknown\nReadComplete\nbytes 14 000c2d45525220756e6b6e6f776e\nwrites 1\n0 Success\n",
    )?;
    drains_frames(
        &rt,
        sessions::UNFINISHED_FRAME,
        "channel 0 drained\ntail 2\nActive\nReadComplete\nbytes 0 -\nwrites 0\n",
    )
}

#[test]
fn user_event(rt: HostRuntime) -> Result<(), Fail> {
    drains_hex(
        &rt,
        sessions::USER_EVENT,
        "channel 0 drained\ntail 5\nActive\nRead Ping\nUser 7\nRead Ping\nReadComplete\nbytes 14 2b504f4e470d0a2b504f4e470d0a\nwrites 2\n0 Success\n1 Success\n",
    )
}

/// It comes before the line whose end comes after it.
#[test]
fn user_event_inside_line(rt: HostRuntime) -> Result<(), Fail> {
    drains_hex(
        &rt,
        sessions::USER_EVENT_INSIDE_LINE,
        "channel 0 drained\ntail 4\nActive\nUser 7\nRead Ping\nReadComplete\nbytes 7 2b504f4e470d0a\nwrites 1\n0 Success\n",
    )
}

#[test]
fn user_event_inside_frame(rt: HostRuntime) -> Result<(), Fail> {
    drains_frames(
        &rt,
        sessions::USER_EVENT_INSIDE_FRAME,
        "channel 0 drained\ntail 4\nActive\nUser 7\nRead Ping\nReadComplete\nbytes 7 00052b504f4e47\nwrites 1\n0 Success\n",
    )
}

#[test]
fn user_event_after_quit(rt: HostRuntime) -> Result<(), Fail> {
    drains_hex(
        &rt,
        sessions::USER_EVENT_AFTER_QUIT,
        "channel 0 drained\ntail 2\nActive\nRead Quit\nbytes 6 2b4259450d0a\nwrites 1\n0 Success\n",
    )
}

/// Says that a session of one ping drains, that its write has this outcome, and that no byte leaves.
fn writes_nothing(rt: &impl Runtime, text: &str, outcome: &str) -> Result<(), Fail> {
    let report = format!(in rt.alloc();
        "channel 0 drained\ntail 3\nActive\nRead Ping\nReadComplete\nbytes 0 -\nwrites 1\n0 {outcome}\n"
    )?;
    gives(rt, text, "R0x4 O0x4", report.as_str())
}

#[test]
fn encoder_behind_turn(rt: HostRuntime) -> Result<(), Fail> {
    let text = sessions::encoder_behind_turn(&rt)?;
    writes_nothing(&rt, text.as_str(), "Unsupported")
}

#[test]
fn flush_never_comes(rt: HostRuntime) -> Result<(), Fail> {
    let text = sessions::flush_never_comes(&rt)?;
    writes_nothing(&rt, text.as_str(), "Closed")
}

/// The first reply leaves in three calls, and so does the second.
#[test]
fn watermarks(rt: HostRuntime) -> Result<(), Fail> {
    let text = sessions::watermarks(&rt)?;
    let report =
        "channel 0 drained\ntail 4\nActive\nRead Ping\nRead Ping\nReadComplete\nbytes 14 2b504f4e470d0a2b504f4e470d0a\nwrites 2\n0 Success\n1 Success\n";
    gives(&rt, text.as_str(), "R0x3 O0x6", report)
}

/// Says that these moves drain a session of two pings in bursts of their own.
fn gives_two_bursts(rt: &impl Runtime, text: String, moves: &str) -> Result<(), Fail> {
    let report =
        "channel 0 drained\ntail 5\nActive\nRead Ping\nReadComplete\nRead Ping\nReadComplete\nbytes 14 2b504f4e470d0a2b504f4e470d0a\nwrites 2\n0 Success\n1 Success\n";
    gives(rt, text.as_str(), moves, report)
}

/// The third read is held and passed over. What is not flushed holds nothing.
#[test]
fn burst_held(rt: HostRuntime) -> Result<(), Fail> {
    let moves = "R0x3 O0 R0x2 O0";
    gives_two_bursts(&rt, sessions::burst_held(&rt)?, moves)?;
    gives_two_bursts(&rt, sessions::burst_not_held(&rt)?, "R0x4 O0x2")
}

#[test]
fn no_channels(rt: HostRuntime) -> Result<(), Fail> {
    let text = sessions::NO_CHANNELS;
    gives(&rt, text, "", "")?;
    replays(&rt, text, "R0", 2, "", "replay refused: 1 NoSuch\n")?;
    replays(&rt, text, "T0", 0, "", "")
}

/// The report of a channel that was asked to ping once.
const PINGED: &str =
    "drained\ntail 3\nActive\nRead Ping\nReadComplete\nbytes 7 2b504f4e470d0a\nwrites 1\n0 Success\n";

/// Moves of all channels and executors, among them some that are not enabled.
const ALL_IN_TURN: &str = "R2x3 R0x3 O2 T1 H2 R1x3 H0x8 T1x4 T2x4 H0x4 T1x4 H1x4 T0x4 H1x4 T0x4 \
    H1x4 T0x4 H1x4 T0x4 H2x4 T0x4 H2x4 T0x4 O0x2 O1 O2";

/// Whatever the group, and in whichever order the channels move; executors 0 to 2 are there.
#[test]
fn group_placing(rt: HostRuntime) -> Result<(), Fail> {
    let text = sessions::group_placing(&rt)?;
    let text = text.as_str();
    replays(&rt, text, "T3", 2, "", "replay refused: 1 NoSuch\n")?;
    let report = format!(in rt.alloc(); "channel 0 {PINGED}channel 1 {PINGED}channel 2 {PINGED}")?;
    gives(&rt, text, ALL_IN_TURN, report.as_str())
}

/// As many channels and executors as there may be.
#[test]
fn sixty_four(rt: HostRuntime) -> Result<(), Fail> {
    let text = sessions::sixty_four(&rt)?;
    let mut moves = String::from_str(rt.alloc(), "R0")?;
    let mut report = String::new(rt.alloc());
    for channel in 0..64 {
        moves.push_str(format!(in rt.alloc(); " R{channel}x3 O{channel}")?.as_str())?;
        report.push_str(format!(in rt.alloc(); "channel {channel} {PINGED}")?.as_str())?;
    }
    gives(&rt, text.as_str(), moves.as_str(), report.as_str())?;
    // Nothing crosses executors, so waiting queues need no room for all.
    runs(&rt, text.as_str(), "waiting", 0, report.as_str())
}

#[test]
fn edits_in_any_order(rt: HostRuntime) -> Result<(), Fail> {
    let text = sessions::edits_in_any_order(&rt)?;
    let report = format!(in rt.alloc(); "channel 0 {PINGED}")?;
    gives(&rt, text.as_str(), "R0x3 O0", report.as_str())
}

/// Each of four items goes to the decoder's executor and back.
#[test]
fn handover_drained(rt: HostRuntime) -> Result<(), Fail> {
    let report = format!(in rt.alloc(); "channel 0 {PINGED}")?;
    gives(
        &rt,
        sessions::DECODER_APART,
        "R0x3 H0 T1 H1 T0 H0 T1 H1 T0 H0 T1 H1 T0 H0 T1 H1 T0 O0",
        report.as_str(),
    )
}
