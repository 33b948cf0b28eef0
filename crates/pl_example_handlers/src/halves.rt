//! A transport that accepts half of what it is offered.

ghost use Rattle.std.specs.Prelude.{◌≡◌, ◌-◌, ◌<◌, None, vec_len, vec_capacity};
ghost use Rattle.pl_head.specs.Transports.{new_state};

use pl_head::{Transport, TransportFault};
use std::alloc::Global;

/// Accepts the first half of what each call offers, rounded up, and keeps it in memory. A call fails where that finds no
/// memory.
#[derive(Debug, Drop)]
pub struct Halves {
    calls: u64,
    failures: u64,
    bytes: Vec<u8>,
}

impl Halves {
    /// A transport that has not been called. It takes no memory.
    pub fn new(alloc: Global) -> Self
        ensures { ⟦<Halves as Transport>⟧.state result ≡ new_state None None }
    {
        Halves {
            calls: 0,
            failures: 0,
            bytes: Vec::new(alloc),
        }
    }
}

impl Transport for Halves {
    ghost state = { λ t. record { accepted = t.bytes.items; calls = t.calls; failures = t.failures; window = None; fail_at = None } };

    ghost may_refuse = { λ t size. vec_capacity t.bytes - vec_len t.bytes < size };

    fn write(&mut self, bytes: &[u8]) -> Result<usize, TransportFault> {
        let count = bytes.len() - bytes.len() / 2;
        let half = &bytes[..count];
        self.calls = self.calls.saturating_add(1);
        if self.bytes.extend_from_slice(half).is_err() {
            self.failures = self.failures.saturating_add(1);
            return Err(TransportFault::Failed);
        }
        Ok(count)
    }

    fn bytes(&self) -> &[u8] {
        self.bytes.as_slice()
    }
}
