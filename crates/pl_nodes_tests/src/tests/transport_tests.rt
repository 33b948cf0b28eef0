//! Transports: windows, a call that fails, and two of a user's own.

ghost use Rattle.std.specs.Prelude.{◌≡◌, [], None};
ghost use Rattle.pl_head.specs.Transports.{new_state};

use crate::tests::head_tests::PONG;
use crate::trickle::Trickle;
use pl_head::{MemoryTransport, Transport, TransportFault};
use std::process::Abort;
use std::test::Fail;

/// A transport of a user's own whose calls all fail.
#[derive(Drop)]
pub(crate) struct Broken {
    calls: u64,
}

impl Broken {
    pub(crate) fn new() -> Self
        ensures { ⟦<Broken as Transport>⟧.state result ≡ new_state None None }
    {
        Broken { calls: 0 }
    }
}

impl Transport for Broken {
    ghost state = { λ t. record { accepted = []; calls = t.calls; failures = t.calls; window = None; fail_at = None } };

    ghost may_refuse = { λ _ _. Unit {0} };

    fn write(&mut self, _bytes: &[u8]) -> Result<usize, TransportFault> {
        self.calls = self.calls.saturating_add(1);
        Err(TransportFault::Failed)
    }

    fn bytes(&self) -> &[u8] {
        &[]
    }
}

/// Offers a text again and again, what is left of it each time: the calls answer so, and have accepted these bytes.
fn assert_offers<T: Transport>(
    rt: &impl Abort,
    transport: &mut T,
    text: &[u8],
    answers: &[Result<usize, TransportFault>],
    accepted: &[u8],
) {
    let mut left = text;
    for answer in answers {
        assert!(rt; transport.write(left) == *answer);
        if let Ok(count) = *answer {
            left = &left[count.min(left.len())..];
        }
    }
    assert!(rt; transport.bytes() == accepted);
}

/// The same, and the transport gives these bytes for itself.
fn assert_accepts<T: Transport>(
    rt: &(impl Abort + AllocGlobal),
    mut transport: T,
    text: &[u8],
    answers: &[Result<usize, TransportFault>],
    accepted: &[u8],
) -> Result<(), Fail> {
    assert_offers(rt, &mut transport, text, answers, accepted);
    assert!(rt; transport.into_bytes(rt.alloc())?.as_slice() == accepted);
    Ok(())
}

#[test]
fn window_of_3(rt: HostRuntime) -> Result<(), Fail> {
    let transport = MemoryTransport::new(rt.alloc(), 3, None);
    let answers = [Ok(3), Ok(3), Ok(1), Ok(0)];
    assert_accepts(&rt, transport, PONG, &answers, PONG)
}

#[test]
fn window_of_1(rt: HostRuntime) -> Result<(), Fail> {
    let transport = MemoryTransport::new(rt.alloc(), 1, None);
    let answers = [Ok(1), Ok(1), Ok(0)];
    assert_accepts(&rt, transport, b"ab", &answers, b"ab")
}

#[test]
fn window_of_65536(rt: HostRuntime) -> Result<(), Fail> {
    let text = vec![in rt.alloc(); b'x'; 65_537]?;
    let transport = MemoryTransport::new(rt.alloc(), 65_536, None);
    let answers = [Ok(65_536), Ok(1)];
    assert_accepts(&rt, transport, text.as_slice(), &answers, text.as_slice())
}

#[test]
fn fails_at_call_2(rt: HostRuntime) -> Result<(), Fail> {
    let transport = MemoryTransport::new(rt.alloc(), 4, Some(2));
    assert!(rt; transport.fail_at() == Some(2));
    let answers = [Ok(4), Err(TransportFault::Failed), Ok(3)];
    assert_accepts(&rt, transport, PONG, &answers, PONG)
}

#[test]
fn a_byte_at_every_second_call(rt: HostRuntime) -> Result<(), Fail> {
    let answers = [Ok(0), Ok(1), Ok(0), Ok(1), Ok(0)];
    assert_accepts(&rt, Trickle::new(rt.alloc()), b"ab", &answers, b"ab")
}

#[test]
fn each_call_fails(rt: HostRuntime) -> Result<(), Fail> {
    let answers = [Err(TransportFault::Failed); 2];
    assert_accepts(&rt, Broken::new(), b"ab", &answers, b"")
}
