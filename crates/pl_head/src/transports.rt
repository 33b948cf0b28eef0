//! Where the bytes of a channel leave.

ghost use Rattle.std.specs.Prelude.{◌≡◌, ℕ, ◌+◌, ◌≤◌, ◌↔◌, ◌++◌, ◌⊎◌, length, take, min, Option, Some, IfOk, OnOk, OnErr, IsOk, IsErr, IsTrue};
ghost use Rattle.pl_head.specs.Transports.{TransportState, new_state, drained, one_call_more, FailsNext, memory_state, accepted_count, MayRefuse};

use std::alloc::{AllocError, Global};
use std::marker::Model;

/// Why a transport accepted nothing.
#[derive(Clone, Copy, Debug, PartialEq, Eq)]
pub enum TransportFault {
    /// The call failed.
    Failed,
}

/// Where a head's bytes go. Whoever has a transport of their own implements this.
///
/// The law: the bytes accepted so far are what `bytes` gives. A call of `write` accepts the first n bytes that it is
/// offered, for an n up to all of them and 0 too, puts them after the others and answers `Ok(n)`; or it accepts none
/// and answers `Err`. It counts itself as one call, and as one failure where it answers `Err`. What a call did not
/// accept is offered again, from its first byte, by whoever has it. A transport that was told to fail at one of its calls
/// fails at that call. At any other it fails only where it may of its own, as `may_refuse` says.
///
/// So `+PONG\r\n` may leave in four calls, of which one fails:
///
/// ```text
/// call                  answer    bytes         calls  failures
/// write("+PONG\r\n")    Ok(3)     "+PO"         1      0
/// write("NG\r\n")       Err       "+PO"         2      1
/// write("NG\r\n")       Ok(0)     "+PO"         3      1
/// write("NG\r\n")       Ok(4)     "+PONG\r\n"   4      1
/// ```
///
/// The same in code: `Trickle` of `pl_nodes_tests` accepts a byte at every second call.
///
/// The check proves the law of each transport. Were it broken, a head that stands on it would promise what is not so:
/// with an n that is larger than what was kept, bytes would be missing from the output, and a write would be a success
/// that never left; with a smaller one, bytes would leave twice. No check sees what becomes of the bytes beyond
/// `bytes`.
pub trait Transport: Drop {
    /// What it has accepted, how often it was called, how much it accepts of what it is offered, and at which call it was
    /// told to fail.
    ghost state: { Self → TransportState };

    /// Whether a call that offers so many bytes may fail though it was not told to, as where there is no memory for what it
    /// would accept.
    ghost may_refuse: { Self → ℕ → Type 0 };

    /// Offers bytes. The first `Ok(n)` of them are accepted; an `Err` accepts none.
    fn write(&mut self, bytes: &[u8]) -> Result<usize, TransportFault>
        ensures within { IfOk result (λ n. n ≤ length bytes.now) }
        ensures accepts { IfOk result (λ n. (state self.new).accepted ≡ (state self.old).accepted ++ take n bytes.now) }
        ensures kept { OnErr result ((state self.new).accepted ≡ (state self.old).accepted) }
        ensures called { (state self.new).calls ≡ one_call_more (state self.old).calls }
        ensures sound { OnOk result ((state self.new).failures ≡ (state self.old).failures) }
        ensures failed { OnErr result ((state self.new).failures ≡ one_call_more (state self.old).failures) }
        ensures window { (state self.new).window ≡ (state self.old).window }
        ensures full { IfOk result (λ n. (w : ℕ) → (state self.old).window ≡ Some w → n ≡ min (length bytes.now) w) }

        // It fails at the call that it was told to fail at, and else only where it may refuse.
        ensures fails_there { OnOk result (FailsNext (state self.old) → ⊥) }
        ensures fails_else { OnErr result (FailsNext (state self.old) ⊎ may_refuse self.old (length bytes.now)) }
        ensures fail_at { (state self.new).fail_at ≡ (state self.old).fail_at };

    /// The bytes accepted so far.
    fn bytes(&self) -> &[u8]
        ensures { result.now ≡ (state self.now).accepted };

    /// Gives the transport up for the bytes accepted so far. What stands here copies them, and an `Err` is a copy for
    /// which there was no memory; a transport that keeps its bytes in a `Vec` moves it out instead.
    fn into_bytes(self, alloc: Global) -> Result<Vec<u8>, AllocError>
    where
        Self: Sized,
        ensures { IfOk result (λ bytes. bytes.items ≡ (state self).accepted) }
    {
        self.bytes().to_vec(alloc)
    }
}

/// A transport whose bytes are taken away, so that it does not keep them for ever.
pub trait Draining: Transport {
    /// The bytes accepted so far leave it: `bytes` gives those that it accepts from now on. All else stays.
    fn drain(&mut self)
        ensures { Self.state self.new ≡ drained (Self.state self.old) };
}

/// A transport over memory, which accepts a window of bytes a call, and may fail at one call.
#[derive(Debug, Drop)]
pub struct MemoryTransport {
    bytes: Vec<u8>,
    window: u32,
    fail_at: Option<u32>,
    calls: u64,
    failures: u64,
}

impl Model for MemoryTransport {
    ghost use Rattle.std.specs.Prelude.{◌-◌, vec_len, vec_capacity};
    ghost use Rattle.pl_head.specs.Transports.{MemoryTransportView};

    ghost Value = { MemoryTransportView };

    ghost view = { λ t. record { bytes = t.bytes.items; room = vec_capacity t.bytes - vec_len t.bytes; window = t.window; fail_at = t.fail_at; calls = t.calls; failures = t.failures } };
}

impl MemoryTransport {
    /// A transport that has not been called. A call accepts at most `window` bytes; the call of number `fail_at`, from 1, fails. It
    /// takes no memory.
    pub fn new(alloc: Global, window: u32, fail_at: Option<u32>) -> Self
        ensures state { ⟦<MemoryTransport as Transport>⟧.state result ≡ new_state (Some window) fail_at }
        ensures window { result.window ≡ window }
        ensures fail_at { result.fail_at ≡ fail_at }
    {
        MemoryTransport {
            bytes: Vec::new(alloc),
            window,
            fail_at,
            calls: 0,
            failures: 0,
        }
    }

    /// The number of the call that is to fail, from 1, if one is.
    pub fn fail_at(&self) -> Option<u32>
        ensures { result ≡ self.now.fail_at }
    {
        self.fail_at
    }

    /// Whether the next call is the one that fails.
    fn fails_next(&self) -> bool
        ensures { IsTrue result ↔ FailsNext (memory_state self.now) }
    {
        match self.fail_at {
            Some(at) => u64::from(at) == self.calls.saturating_add(1),
            None => false,
        }
    }
}

impl Transport for MemoryTransport {
    ghost state = { memory_state };

    ghost may_refuse = { MayRefuse };

    /// Accepts the lesser of the length and the window. It fails at the call of number `fail_at`, and else only where
    /// there is no memory for what it accepts.
    fn write(&mut self, bytes: &[u8]) -> Result<usize, TransportFault>
        ensures within { IfOk result (λ n. n ≤ length bytes.now) }
        ensures accepts { IfOk result (λ n. self.new.bytes ≡ self.old.bytes ++ take n bytes.now) }
        ensures kept { OnErr result (self.new.bytes ≡ self.old.bytes) }
        ensures called { self.new.calls ≡ one_call_more self.old.calls }
        ensures sound { OnOk result (self.new.failures ≡ self.old.failures) }
        ensures failed { OnErr result (self.new.failures ≡ one_call_more self.old.failures) }
        ensures count { IfOk result (λ n. n ≡ accepted_count self.old (length bytes.now)) }
        ensures fails_there { OnOk result (FailsNext (memory_state self.old) → ⊥) }
        ensures fails_else { OnErr result (FailsNext (memory_state self.old) ⊎ MayRefuse self.old (length bytes.now)) }
        ensures full { IfOk result (λ n. (w : ℕ) → Some self.old.window ≡ Some w → n ≡ min (length bytes.now) w) }
        ensures window { self.new.window ≡ self.old.window }
        ensures fail_at { self.new.fail_at ≡ self.old.fail_at }
        ensures room { IfOk result (λ n. self.old.room ≤ self.new.room + n) }
        ensures room_kept { OnErr result (self.old.room ≤ self.new.room) }
    {
        let fails = self.fails_next();
        self.calls = self.calls.saturating_add(1);
        let count = bytes.len().min(self.window as usize);
        if fails || self.bytes.extend_from_slice(&bytes[..count]).is_err() {
            self.failures = self.failures.saturating_add(1);
            return Err(TransportFault::Failed);
        }
        Ok(count)
    }

    fn bytes(&self) -> &[u8] {
        self.bytes.as_slice()
    }

    /// Moves its bytes out. It takes no memory.
    fn into_bytes(self, _alloc: Global) -> Result<Vec<u8>, AllocError>
        ensures bytes { IfOk result (λ bytes. bytes.items ≡ self.bytes) }
        ensures moves { IsOk result }
    {
        let MemoryTransport { bytes, .. } = self;
        Ok(bytes)
    }
}

impl Draining for MemoryTransport {
    /// Its room stays. It takes no memory.
    fn drain(&mut self) {
        self.bytes.clear();
    }
}
