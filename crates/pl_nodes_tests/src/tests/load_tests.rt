//! Large loads at the head. bench/run.py reads their times, size by size.

ghost use Rattle.std.specs.Prelude.{◌<◌};

use crate::tests::head_tests::{Call, LEFT, apply, head, write_once};
use pl_event::Outcome;
use pl_head::{Head, MemoryTransport};
use std::alloc::AllocError;
use std::process::Abort;
use std::test::Fail;

/// Writes a message of this size, and then byte by byte: it is settled when its last byte has left, and not before.
fn write_bytes(
    rt: &(impl Abort + AllocGlobal),
    head: &mut Head<MemoryTransport>,
    size: usize,
) -> Result<(), AllocError> {
    apply(rt, head, Call::WriteLong(size))?;
    apply(rt, head, Call::Flush)?;
    for _ in 0..size {
        assert!(rt; head.outcomes() == [None].as_slice());
        write_once(rt.alloc(), head)?;
    }
    assert!(rt; head.outcomes() == [LEFT].as_slice());
    assert!(rt; head.bytes().len() == size);
    Ok(())
}

/// One message of this size leaves byte by byte.
fn long_message(rt: &(impl Abort + AllocGlobal), size: usize) -> Result<(), Fail> {
    let mut head = head(rt.alloc(), 1, None, 4, 8);
    Ok(write_bytes(rt, &mut head, size)?)
}

#[test]
fn long_message_of_131072(rt: HostRuntime) -> Result<(), Fail> {
    long_message(&rt, 131_072)
}

#[test]
fn long_message_of_262144(rt: HostRuntime) -> Result<(), Fail> {
    long_message(&rt, 262_144)
}

#[test]
fn long_message_of_524288(rt: HostRuntime) -> Result<(), Fail> {
    long_message(&rt, 524_288)
}

#[test]
fn long_message_of_1048578(rt: HostRuntime) -> Result<(), Fail> {
    long_message(&rt, 1_048_578)
}

/// Each of this many writes is a success.
fn assert_left(rt: &impl Abort, outcomes: &[Option<Outcome>], count: usize) {
    assert!(rt; outcomes.len() == count);
    for outcome in outcomes {
        assert!(rt; *outcome == LEFT);
    }
}

/// Writes empty messages, and then one of a byte, and flushes and writes once: all are settled then.
fn write_empty(
    rt: &(impl Abort + AllocGlobal),
    head: &mut Head<MemoryTransport>,
    count: usize,
) -> Result<(), AllocError>
    requires { count < 1000000 }
{
    for _ in 0..count {
        apply(rt, head, Call::WriteLong(0))?;
    }
    for &call in &[Call::WriteLong(1), Call::Flush, Call::Out] {
        apply(rt, head, call)?;
    }
    assert_left(rt, head.outcomes(), count + 1);
    assert!(rt; head.bytes() == b"a".as_slice());
    Ok(())
}

/// Empty messages, and then one of a byte, are settled by one flush and one write.
fn empty_messages(rt: &(impl Abort + AllocGlobal), count: usize) -> Result<(), Fail>
    requires { count < 1000000 }
{
    let mut head = head(rt.alloc(), 1, None, 4, 8);
    Ok(write_empty(rt, &mut head, count)?)
}

#[test]
fn empty_messages_21845(rt: HostRuntime) -> Result<(), Fail> {
    empty_messages(&rt, 21_845)
}

#[test]
fn empty_messages_43690(rt: HostRuntime) -> Result<(), Fail> {
    empty_messages(&rt, 43_690)
}

#[test]
fn empty_messages_87381(rt: HostRuntime) -> Result<(), Fail> {
    empty_messages(&rt, 87_381)
}

#[test]
fn empty_messages_174762(rt: HostRuntime) -> Result<(), Fail> {
    empty_messages(&rt, 174_762)
}
