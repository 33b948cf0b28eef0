//! The worked examples of frames with their length in front, by the steps of the handlers.

use crate::event_tests::text;
use crate::tests::{
    Protocol, Told, UNKNOWN, assert_events, assert_served, events, in_two_bursts, made,
};
use pl_event::{ByteString, Caught, Event, Message};
use pl_stages::{Handler, LengthFramer, LengthPrepender, StageRefusal};
use std::alloc::Global;
use std::process::Abort;
use std::test::Fail;

const TOO_LONG: Told<'static> = Told::Caught(Caught::TooLong);

/// A framer tells this of what comes to it.
fn assert_told(
    rt: &(impl Abort + AllocGlobal),
    width: usize,
    max: usize,
    came: &[Told<'_>],
    told: &[Told<'_>],
) -> Result<(), Fail> {
    let alloc = rt.alloc();
    let came = events(alloc, came)?;
    let framer = Handler::Length(LengthFramer::new(alloc, width, max)?);
    let (up, _) = made(alloc, framer, came)?;
    let told = events(alloc, told)?;
    assert_events(rt, up.as_slice(), told.as_slice());
    Ok(())
}

#[test]
fn length_frames(rt: HostRuntime) -> Result<(), Fail> {
    let came = [
        Told::Active,
        Told::Chunk(b"\x00"),
        Told::Chunk(b"\x04P"),
        Told::Chunk(b"ING"),
        Told::ReadComplete,
    ];
    let tail = [Told::Active, Told::Ping, Told::ReadComplete];
    assert_served(&rt, Protocol::Frames(64), &came, &tail, b"\x00\x05+PONG")
}

#[test]
fn user_event_inside_frame(rt: HostRuntime) -> Result<(), Fail> {
    let came = [
        Told::Chunk(b"\x00\x04PI"),
        Told::User(7),
        Told::Chunk(b"NG"),
        Told::ReadComplete,
    ];
    let tail = [Told::User(7), Told::Ping, Told::ReadComplete];
    assert_served(&rt, Protocol::Frames(64), &came, &tail, b"\x00\x05+PONG")
}

#[test]
fn frame_too_long(rt: HostRuntime) -> Result<(), Fail> {
    let sent = b"\x00\x0c-ERR toolong";
    let came = [
        Told::Active,
        Told::Chunk(b"\x00\x04PING"),
        Told::ReadComplete,
    ];
    let tail = [Told::Active, TOO_LONG, Told::ReadComplete];
    assert_served(&rt, Protocol::Frames(5), &came, &tail, sent)?;
    let came = in_two_bursts(b"\x00\x04", b"PING");
    let tail = [
        Told::Active,
        TOO_LONG,
        Told::ReadComplete,
        Told::ReadComplete,
    ];
    assert_served(&rt, Protocol::Frames(5), &came, &tail, sent)?;

    // The example of Netty's documentation.
    let came = [Told::Chunk(b"\x00\x0cHELLO, WORLD")];
    assert_told(&rt, 2, 14, &came, &[Told::Line(b"HELLO, WORLD")])?;
    assert_told(&rt, 2, 13, &came, &[TOO_LONG])
}

#[test]
fn empty_and_unfinished_frame(rt: HostRuntime) -> Result<(), Fail> {
    let empty = [Told::Chunk(b"\x00\x00")];
    assert_told(&rt, 2, 64, &empty, &[Told::Line(b"")])?;
    assert_served(
        &rt,
        Protocol::Frames(64),
        &empty,
        &[UNKNOWN],
        b"\x00\x0c-ERR unknown",
    )?;
    let unfinished = [Told::Active, Told::Chunk(b"\x00\x05P"), Told::ReadComplete];
    let tail = [Told::Active, Told::ReadComplete];
    assert_served(&rt, Protocol::Frames(64), &unfinished, &tail, b"")
}

/// What a prepender makes of a write of bytes.
fn prepended(alloc: Global, width: usize, payload: &[u8]) -> Result<Vec<Event>, Fail> {
    let written = vec![in alloc; Event::Write(Message::Bytes(text(alloc, payload)?))]?;
    let prepender = Handler::Prepend(LengthPrepender::new(width)?);
    let (_, down) = made(alloc, prepender, written)?;
    Ok(down)
}

/// A message of a field and a payload, or a line of the payload alone.
fn marked(alloc: Global, field: Option<&[u8]>, payload: &[u8]) -> Result<Event, Fail> {
    let Some(field) = field else {
        return Ok(Event::Write(Message::Line(text(alloc, payload)?)));
    };
    let mut bytes = text(alloc, field)?;
    bytes.extend_from_slice(payload)?;
    Ok(Event::Write(Message::Bytes(bytes)))
}

/// A prepender puts this field in front of a payload, or has no room for its length.
fn assert_prepended(
    rt: &(impl Abort + AllocGlobal),
    width: usize,
    payload: &[u8],
    field: Option<&[u8]>,
) -> Result<(), Fail> {
    let made = prepended(rt.alloc(), width, payload)?;
    let told = vec![in rt.alloc(); marked(rt.alloc(), field, payload)?]?;
    assert!(rt; made == told, "{} bytes behind {width}", payload.len());
    Ok(())
}

#[test]
fn prepend_limit(rt: HostRuntime) -> Result<(), Fail> {
    let pings = "PING".repeat(rt.alloc(), 16_384)?;
    let pings = pings.as_bytes();
    assert_prepended(&rt, 2, &pings[..65_535], Some(b"\xff\xff"))?;
    assert_prepended(&rt, 2, pings, None)?;
    assert_prepended(&rt, 4, pings, Some(b"\x00\x01\x00\x00"))
}

const LIMIT: Option<StageRefusal> = Some(StageRefusal::Limit);

#[test]
fn length_refusals(rt: HostRuntime) {
    for (width, max, framer, prepender) in &[
        (0, 64, LIMIT, LIMIT),
        (1, 64, LIMIT, LIMIT),
        (3, 64, LIMIT, LIMIT),
        (5, 64, LIMIT, LIMIT),
        (8, 64, LIMIT, LIMIT),
        (2, 0, LIMIT, None),
        (2, 1, None, None),
        (4, 8_192, None, None),
        (4, 8_193, LIMIT, None),
    ] {
        let refusal = LengthFramer::new(rt.alloc(), *width, *max).err();
        assert!(rt; refusal == *framer, "of {width} and {max}");
        let refusal = LengthPrepender::new(*width).err();
        assert!(rt; refusal == *prepender, "of {width}");
    }
}

/// However this input is cut, a framer tells this of it.
fn assert_told_of_pieces(
    rt: &(impl Abort + AllocGlobal),
    width: usize,
    max: usize,
    input: &[u8],
    told: &[Told<'_>],
) -> Result<(), Fail> {
    let mut bytes = Vec::new(rt.alloc());
    for end in 0..input.len() {
        let (front, rest) = (&input[..end], &input[end..]);
        let came = [Told::Chunk(front), Told::Chunk(rest)];
        assert_told(rt, width, max, &came, told)?;
        bytes.push(Told::Chunk(&input[end..end + 1]))?;
    }
    assert_told(rt, width, max, &[Told::Chunk(input)], told)?;
    assert_told(rt, width, max, bytes.as_slice(), told)
}

/// A chunk that ends a frame, and has its payload whole, however much of the length field came before it.
#[test]
fn payload_in_one_chunk(rt: HostRuntime) -> Result<(), Fail> {
    let told = [Told::Line(b"PING")];
    assert_told_of_pieces(&rt, 2, 6, b"\x00\x04PING", &told)?;
    assert_told_of_pieces(&rt, 4, 8, b"\x00\x00\x00\x04PING", &told)
}

/// Two whole frames, and between them an empty one and one that is too long. The last is not finished.
#[test]
fn frames_cut_at_every_border(rt: HostRuntime) -> Result<(), Fail> {
    let told = [
        Told::Line(b"PING"),
        Told::Line(b""),
        TOO_LONG,
        Told::Line(b"hi"),
    ];
    let input = b"\x00\x04PING\x00\x00\x00\x05HELLO\x00\x02hi\x00\x03ab";
    assert_told_of_pieces(&rt, 2, 6, input, &told)?;
    let input = b"\x00\x00\x00\x04PING\x00\x00\x00\x00\x00\x00\x00\x05HELLO\
        \x00\x00\x00\x02hi\x00\x00\x00\x03ab";
    assert_told_of_pieces(&rt, 4, 8, input, &told)
}

#[test]
fn longest_claim(rt: HostRuntime) -> Result<(), Fail> {
    let came = [
        Told::Chunk(b"\xff\xff\xff\xff"),
        Told::Chunk(b"\x00\x00\x00\x04PING"),
        Told::Chunk(b"\x00\x00\x00\x00"),
        Told::ReadComplete,
        Told::Chunk(b"\x00\x00\x00\x04PING"),
    ];
    assert_told(&rt, 4, 8_192, &came, &[TOO_LONG, Told::ReadComplete])?;

    // Of the 65,535 bytes the last five come with the next frame.
    let front = "x".repeat(rt.alloc(), 65_530)?;
    let came = [
        Told::Chunk(b"\xff\xff"),
        Told::Chunk(front.as_bytes()),
        Told::Chunk(b"xxxxx\x00\x04PING"),
    ];
    assert_told(&rt, 2, 64, &came, &[TOO_LONG, Told::Line(b"PING")])
}
