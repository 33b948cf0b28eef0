//! What all executors wait for before their first turn.

use std::sync::Wait;
use std::sync::atomic::{AtomicU64, Ordering};

/// Nothing is decided yet.
const UNDECIDED: u64 = 0;

/// Each has a thread, so all begin.
const BEGIN: u64 = 1;

/// One has none, so all leave.
const LEAVE: u64 = 2;

/// What all executors wait for before their first turn: whether each has a thread.
#[derive(Drop)]
pub struct Start {
    decision: AtomicU64,
}

impl Start {
    /// Nothing is decided yet.
    pub fn new() -> Start {
        Start {
            decision: AtomicU64::new(UNDECIDED),
        }
    }

    /// Decides whether all begin, and wakes those that wait for it.
    pub fn decide(&self, begin: bool) {
        let decision = if begin { BEGIN } else { LEAVE };
        self.decision.store(decision, Ordering::SeqCst);
        self.decision.wake_all();
    }

    /// Waits until it is decided, and answers whether to begin.
    pub fn wait<R: Wait>(&self, rt: &R) -> bool {
        for _ in rt.forever() {
            match self.decision.load(Ordering::SeqCst) {
                UNDECIDED => self.decision.park(rt, UNDECIDED as u32),
                decision => return decision == BEGIN,
            }
        }
        unreachable!()
    }
}
