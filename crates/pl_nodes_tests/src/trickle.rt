//! A transport of a user's own that trickles.

ghost use Rattle.std.specs.Prelude.{◌≡◌, ◌-◌, ◌<◌, None, vec_len, vec_capacity};
ghost use Rattle.pl_head.specs.Transports.{new_state};

use pl_head::{Draining, Transport, TransportFault};
use std::alloc::Global;

/// A transport of a user's own, which accepts no byte at each odd call and one byte at each even call.
#[derive(Debug, Drop)]
pub struct Trickle {
    bytes: Vec<u8>,
    calls: u64,
    failures: u64,
}

impl Trickle {
    /// A transport that has not been called.
    pub fn new(alloc: Global) -> Self
        ensures { ⟦<Trickle as Transport>⟧.state result ≡ new_state None None }
    {
        Trickle {
            bytes: Vec::new(alloc),
            calls: 0,
            failures: 0,
        }
    }
}

impl Transport for Trickle {
    ghost state = { λ t. record { accepted = t.bytes.items; calls = t.calls; failures = t.failures; window = None; fail_at = None } };

    ghost may_refuse = { λ t size. vec_capacity t.bytes - vec_len t.bytes < size };

    fn write(&mut self, bytes: &[u8]) -> Result<usize, TransportFault> {
        let count = if self.calls % 2 == 0 {
            0
        } else {
            bytes.len().min(1)
        };
        self.calls = self.calls.saturating_add(1);
        if self.bytes.extend_from_slice(&bytes[..count]).is_err() {
            self.failures = self.failures.saturating_add(1);
            return Err(TransportFault::Failed);
        }
        Ok(count)
    }

    fn bytes(&self) -> &[u8] {
        self.bytes.as_slice()
    }
}

impl Draining for Trickle {
    fn drain(&mut self) {
        self.bytes.clear();
    }
}
