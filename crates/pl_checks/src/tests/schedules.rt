//! Schedules that leave a ping open, and what each has made of it.

use crate::tests::running::{Runtime, replays};
use crate::tests::sessions::{DECODER_APART, PING, burst_held, line_session, watermarks};
use std::test::Fail;

/// Says that a schedule of the session of a text reports this, and leaves a channel open.
fn leaves(rt: &impl Runtime, text: &str, moves: &str, report: &str) -> Result<(), Fail> {
    replays(rt, text, moves, 1, report, "")
}

/// Says that a schedule of the ping session reports this, and leaves the channel open.
fn leaves_open(rt: &impl Runtime, moves: &str, report: &str) -> Result<(), Fail> {
    let text = line_session(rt, PING)?;
    leaves(rt, text.as_str(), moves, report)
}

/// The report of a channel that answered a ping, of which nothing was written.
const UNWRITTEN: &str =
    "channel 0 open\ntail 3\nActive\nRead Ping\nReadComplete\nbytes 0 -\nwrites 1\n0 Open\n";

/// The write is not enabled before the read.
#[test]
fn out_before_read(rt: HostRuntime) -> Result<(), Fail> {
    leaves_open(&rt, "O0 R0x2", UNWRITTEN)
}

/// No moves, and moves that are never enabled while one executor runs all handlers.
#[test]
fn nothing_moves(rt: HostRuntime) -> Result<(), Fail> {
    for moves in ["", "T0 H0", "O0x4 T0x2"] {
        leaves_open(&rt, moves, "channel 0 open\ntail 0\nbytes 0 -\nwrites 0\n")?;
    }
    Ok(())
}

/// All bytes have left, and the end was not read.
#[test]
fn written_before_the_end(rt: HostRuntime) -> Result<(), Fail> {
    leaves_open(
        &rt,
        "R0x2 O0",
        "channel 0 open\ntail 3\nActive\nRead Ping\nReadComplete\nbytes 7 2b504f4e470d0a\nwrites 1\n0 Success\n",
    )
}

/// The second hand-over finds the queue full and is passed over.
#[test]
fn full_queue_of_one(rt: HostRuntime) -> Result<(), Fail> {
    leaves(
        &rt,
        DECODER_APART,
        "R0x2 H0x2 T1 H1 T0",
        "channel 0 open\ntail 1\nActive\nbytes 0 -\nwrites 0\n",
    )
}

/// All four items went to the decoder and back, and nothing was written.
#[test]
fn handover_open(rt: HostRuntime) -> Result<(), Fail> {
    leaves(
        &rt,
        DECODER_APART,
        "R0x3 H0 T1 H1 T0 H0 T1 H1 T0 H0 T1 H1 T0 H0 T1 H1 T0",
        UNWRITTEN,
    )
}

/// Six calls of the transport are needed, and there are five: a part of the second reply has left.
#[test]
fn part_of_a_reply(rt: HostRuntime) -> Result<(), Fail> {
    let text = watermarks(&rt)?;
    leaves(
        &rt,
        text.as_str(),
        "R0x3 O0x5",
        "channel 0 open\ntail 4\nActive\nRead Ping\nRead Ping\nReadComplete\nbytes 13 2b504f4e470d0a2b504f4e470d\nwrites 2\n0 Success\n1 Open\n",
    )
}

/// However often a held burst is to be read, it is not.
#[test]
fn burst_stays_held(rt: HostRuntime) -> Result<(), Fail> {
    let text = burst_held(&rt)?;
    leaves(&rt, text.as_str(), "R0x9", UNWRITTEN)
}
