//! Whether too much waits at an executor for others.

use crate::number_set::{Notes, NumberSet};
use std::sync::atomic::{AtomicU64, Ordering};

/// Where more envelopes wait than these, their executor is congested.
const HIGH: u64 = 1_024;

/// Where so many wait, or fewer, it no longer is.
const LOW: u64 = 512;

/// Whether an executor is congested: too much waits there for others, and nobody is to read more. It knows whose reads wait
/// for the end of that. No contract speaks of it.
#[derive(Drop)]
pub struct Congestion {
    /// 1 where it is, or 0.
    is_on: AtomicU64,
    readers: Notes,
}

impl Congestion {
    pub(crate) fn new() -> Congestion {
        Congestion {
            is_on: AtomicU64::new(0),
            readers: Notes::new(),
        }
    }

    /// Whether its executor is congested.
    pub fn is_on(&self) -> bool {
        self.is_on.load(Ordering::SeqCst) != 0
    }

    /// So many envelopes wait at its executor now. Those that are to be woken, since it no longer is congested.
    pub fn update(&self, waiting: u64) -> NumberSet {
        let was_on = self.is_on();
        let is_on = waiting > if was_on { LOW } else { HIGH };
        if is_on == was_on {
            return NumberSet::none();
        }
        self.is_on.store(u64::from(is_on), Ordering::SeqCst);
        if is_on {
            NumberSet::none()
        } else {
            self.readers.take()
        }
    }

    /// Notes that the reads of an executor wait for the end of it.
    pub(crate) fn note_reader(&self, executor: usize) {
        self.readers.add(executor);
    }
}
