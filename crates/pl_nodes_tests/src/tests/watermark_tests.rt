//! Flags of a head, one by one: which sizes send one, and with which number.

ghost use Rattle.std.specs.Prelude.{◌≤◌};

use crate::tests::head_tests::{Answer, BYTE, Call, Given, RAN, apply, head};
use pl_head::{Head, MemoryTransport, OutStep};
use std::alloc::AllocError;
use std::process::Abort;
use std::test::Fail;

/// The number and the value of a flag, if one is sent.
type Flag = Option<(u64, bool)>;

/// A call, what it is to answer, the flag that it is to send alone, and how many bytes are to wait after it.
type Row = (Call, Answer, Flag, u128);

/// A head answers this call so, and sends nothing but the flag.
fn assert_sends(
    rt: &(impl Abort + AllocGlobal),
    head: &mut Head<MemoryTransport>,
    row: Row,
) -> Result<(), AllocError> {
    let (call, want, flag, pending) = row;
    let (answer, brought) = apply(rt, head, call)?;
    assert!(rt; answer == want);
    assert!(rt; brought.count == u32::from(flag.is_some()));
    assert!(rt; brought.first == given(flag));
    assert!(rt; head.pending() == pending);
    Ok(())
}

/// The flag as a list brings it.
fn given(flag: Flag) -> Option<Given> {
    let (number, value) = flag?;
    Some(Given::Flag(number, value))
}

/// A head with these marks sends these flags, and is writable as the last of them says.
fn assert_flags(
    rt: &(impl Abort + AllocGlobal),
    low: u32,
    high: u32,
    rows: &[Row],
) -> Result<(), Fail>
    requires { low ≤ high }
{
    let mut head = head(rt.alloc(), 65_536, None, low, high);
    let mut is_writable = true;
    for row in rows {
        assert_sends(rt, &mut head, *row)?;
        if let Some((_, value)) = row.2 {
            is_writable = value;
        }
        assert!(rt; head.is_writable() == is_writable);
    }
    Ok(())
}

const STRICT: [Row; 8] = [
    (Call::Write(1), RAN, None, 1),
    (Call::Write(1), RAN, None, 2),
    (Call::Write(2), RAN, None, 4),
    (Call::Write(1), RAN, Some((0, false)), 5),
    (Call::Flush, RAN, None, 5),
    (Call::Out, BYTE, None, 4),
    (Call::Flush, RAN, None, 4),
    (Call::Out, BYTE, Some((1, true)), 3),
];

const TWO_MESSAGES: [Row; 6] = [
    (Call::Write(7), RAN, None, 7),
    (Call::Write(7), RAN, Some((0, false)), 14),
    (Call::Flush, RAN, None, 14),
    (Call::Out, Answer::Out(OutStep::Wrote(7)), None, 7),
    (Call::Flush, RAN, None, 7),
    (
        Call::Out,
        Answer::Out(OutStep::Wrote(7)),
        Some((1, true)),
        0,
    ),
];

const NO_WAY_BACK: [Row; 4] = [
    (Call::Write(1), RAN, Some((0, false)), 1),
    (Call::Flush, RAN, None, 1),
    (Call::Out, BYTE, None, 0),
    (Call::Write(1), RAN, None, 1),
];

#[test]
fn marks_are_strict(rt: HostRuntime) -> Result<(), Fail> {
    assert_flags(&rt, 4, 4, &STRICT)
}

#[test]
fn two_messages_above_and_below(rt: HostRuntime) -> Result<(), Fail> {
    assert_flags(&rt, 4, 8, &TWO_MESSAGES)
}

#[test]
fn no_way_back_to_low_0(rt: HostRuntime) -> Result<(), Fail> {
    assert_flags(&rt, 0, 0, &NO_WAY_BACK)
}
