//! The program on readers and writers that fail, are interrupted, or give and take little: its status, its line on
//! standard error, and how many reads and writes it makes.

use crate::tests::program::USAGE;
use crate::tests::running::{Runtime, answers_on, status_of};
use crate::tests::streams::{Failing, Interrupted, Repeated, Slow};
use pl_text_tests::{PING_REPORT, PING_SESSION};
use std::io::Write;
use std::process::Abort;
use std::test::Fail;

/// Says that a reader which gives a byte so many times at each read, and fails after so many reads, is refused by this line
/// after this many.
fn refuses_after<R: Abort + Runtime>(
    rt: &R,
    (byte, at_once, fails_after): (u8, usize, u64),
    reads: u64,
    told: &str,
) -> Result<(), Fail> {
    let mut reader = Repeated {
        byte,
        at_once,
        reads_left: fails_after,
    };
    answers_on(rt, &["replay"], &mut reader, 3, "", told)?;
    assert_eq!(rt; fails_after.saturating_sub(reader.reads_left), reads);
    Ok(())
}

#[test]
fn reads(rt: HostRuntime) -> Result<(), Fail> {
    for (reader, reads, told) in [
        ((b'{', 1, 0), 0, "input refused\n"),
        ((b'{', 1, 1), 1, "input refused\n"),
        ((0xff, 1, 1), 1, "input refused\n"),
        ((0xff, 8_192, 1 << 63), 4_097, "session refused: 5 Limit\n"),
    ] {
        refuses_after(&rt, reader, reads, told)?;
    }
    Ok(())
}

/// The byte after those that a session may have is the last that is read.
#[test]
fn one_byte_for_ever(rt: HostRuntime) -> Result<(), Fail> {
    let told = "session refused: 5 Limit\n";
    refuses_after(&rt, (b'[', 1, u64::MAX), 33_554_433, told)
}

/// An interrupted read is one of the reads that may be made.
#[test]
fn interrupted_reads(rt: HostRuntime) -> Result<(), Fail> {
    let of_each_byte = (PING_SESSION.len() as u64)
        .saturating_mul(2)
        .saturating_add(2);
    for (at_once, times, tries, status, out, err) in [
        (8_192, 1, 4, 0, PING_REPORT, ""),
        (1, 1, of_each_byte, 0, PING_REPORT, ""),
        (8_192, 16_777_215, 33_554_432, 0, PING_REPORT, ""),
        (8_192, 16_777_216, 33_554_433, 3, "", "input refused\n"),
    ] {
        let mut reader = Interrupted {
            text: PING_SESSION.as_bytes(),
            at_once,
            times,
            left: times,
            tries: 0,
        };
        let line = ["replay", "--moves=R0x3 O0"];
        answers_on(&rt, &line, &mut reader, status, out, err)?;
        assert_eq!(rt; reader.tries, tries);
    }
    Ok(())
}

/// The status of a line that is not read, whose usage this writer is told.
fn status_of_no_line(rt: &impl Runtime, err: &mut Slow) -> Result<u8, Fail> {
    let mut out = Vec::new(rt.alloc());
    status_of(rt, &["fly"], &mut b"".as_slice(), &mut out, err)
}

/// A line is cut where its writer takes no more.
#[test]
fn slow_second_writer(rt: HostRuntime) -> Result<(), Fail> {
    for (at_once, room, times, tries, told) in [
        (1_000, 1_000, 0, 1, USAGE.len()),
        (1_000, 1_000, 1, 2, USAGE.len()),
        (1, 1_000, 0, USAGE.len() as u64, USAGE.len()),
        (
            1,
            1_000,
            1,
            (USAGE.len() as u64).saturating_mul(2),
            USAGE.len(),
        ),
        (8, 20, 0, 4, 20),
        (8, 0, 0, 1, 0),
        (1_000, 1_000, 1 << 63, 1_000_000, 0),
    ] {
        let mut err = Slow {
            taken: Vec::new(rt.alloc()),
            at_once,
            room,
            times,
            left: times,
            tries: 0,
        };
        assert_eq!(rt; status_of_no_line(&rt, &mut err)?, 2);
        assert_eq!(rt; err.tries, tries);
        assert_eq!(rt;
            err.taken.as_slice(),
            &USAGE.as_bytes()[..told.min(USAGE.len())]
        );
    }
    Ok(())
}

/// Whether a writer that fails after so many bytes of the session's report ends the program with status 4.
fn is_output_refused(rt: &impl Runtime, arg: &str, room: usize) -> Result<bool, Fail> {
    let mut reader = PING_SESSION.as_bytes();
    let mut out = Failing { room };
    let mut err = Vec::new(rt.alloc());
    let status = status_of(rt, &[arg], &mut reader, &mut out, &mut err)?;
    Ok(status == 4 && out.room == 0 && err.as_slice() == b"output refused\n".as_slice())
}

#[test]
fn writes(rt: HostRuntime) -> Result<(), Fail> {
    for (arg, room) in [("replay", 0), ("replay", 1), ("replay", 20), ("plain", 20)] {
        let is_refused = is_output_refused(&rt, arg, room)?;
        assert!(rt; is_refused, "{arg} after {room}");
    }
    Ok(())
}

/// The status of a line of one argument whose second writer takes nothing.
fn status_untold<W: Write>(
    rt: &impl Runtime,
    arg: &str,
    input: &[u8],
    out: &mut W,
) -> Result<u8, Fail> {
    let mut reader = input;
    let mut err = Failing { room: 0 };
    status_of(rt, &[arg], &mut reader, out, &mut err)
}

#[test]
fn second_writer(rt: HostRuntime) -> Result<(), Fail> {
    for (arg, want) in [("fly", 2), ("replay", 3)] {
        let mut out = Vec::new(rt.alloc());
        assert_eq!(rt; status_untold(&rt, arg, b"", &mut out)?, want);
        assert_eq!(rt; out.len(), 0);
    }
    let mut out = Failing { room: 0 };
    let status = status_untold(&rt, "replay", PING_SESSION.as_bytes(), &mut out)?;
    assert_eq!(rt; status, 4);
    Ok(())
}
