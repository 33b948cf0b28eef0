//! A head that forgets what has left, though a write behind it is not flushed.

use crate::tests::failure_tests::assert_told;
use crate::tests::head_tests::{Answer, Call, Expected, LEFT, PONG, RAN, assert_head, head, play};
use pl_event::Outcome;
use pl_head::{Head, MemoryTransport, OutStep};
use std::process::Abort;
use std::test::Fail;

/// A message is sent. Behind it come one that is not flushed, and one that is not bytes.
const SENT: [Expected; 5] = [
    (Call::Write(7), RAN, None, 7),
    (Call::Flush, RAN, None, 7),
    (Call::Out, Answer::Out(OutStep::Wrote(7)), None, 0),
    (Call::WriteAb, RAN, None, 2),
    (Call::WriteLine, RAN, None, 2),
];

/// The second is sent too.
const SENT_BOTH: [Expected; 2] = [
    (Call::Flush, RAN, None, 2),
    (Call::Out, Answer::Out(OutStep::Wrote(2)), None, 0),
];

const UNSUPPORTED: Option<Outcome> = Some(Outcome::Unsupported);

/// A head forgets, but not once more, and so many bytes are gone then.
fn assert_forgets(rt: &impl Abort, head: &mut Head<MemoryTransport>, gone: usize) {
    assert!(rt; head.forget());
    assert!(rt; !head.forget());
    assert_eq!(rt; head.gone(), gone);
    assert!(rt; head.bytes().is_empty());
}

/// What was not flushed is counted from 0, and what was not told is told by that count.
#[test]
fn forgets_what_has_left(rt: HostRuntime) -> Result<(), Fail> {
    let mut head = head(rt.alloc(), 64, None, 32, 64);
    assert!(rt; !head.forget());
    play(&rt, &mut head, &SENT)?;
    assert_head(&rt, &head, PONG, &[LEFT, None, UNSUPPORTED], None);
    assert!(rt; head.next_settled() == Some((0, Outcome::Success)));
    assert_forgets(&rt, &mut head, 7);
    assert_head(&rt, &head, b"", &[None, UNSUPPORTED], None);
    play(&rt, &mut head, &SENT_BOTH)?;
    assert_head(&rt, &head, b"ab", &[LEFT, UNSUPPORTED], None);
    let told = [(1, Outcome::Unsupported), (0, Outcome::Success)];
    assert_told(&rt, &mut head, &told);
    assert_forgets(&rt, &mut head, 9);
    Ok(())
}
