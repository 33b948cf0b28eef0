//! How an executor that rests is woken.

use crate::number_set::{Notes, NumberSet};
use crossbeam_utils::sync::Unparker;
use std::sync::atomic::{AtomicU64, Ordering};

/// So many envelopes are sent, or taken from a queue, at most, before those are woken that wait for them, or for room there.
/// A queue of 64 has room for a few more then, or still has a few, while who was woken gets going.
pub(crate) const WAKE_EVERY: u64 = 56;

/// Wakes an executor, and knows who waits for room in its queue. No contract speaks of it: that anyone is woken is not
/// proved.
#[derive(Drop)]
pub struct Bell {
    unparker: Unparker,
    /// 1 where its executor is about to rest, or rests; 0 where nobody needs to wake it.
    resting: AtomicU64,
    waiters: Notes,
}

impl Bell {
    pub(crate) fn new(unparker: Unparker) -> Bell {
        Bell {
            unparker,
            resting: AtomicU64::new(0),
            waiters: Notes::new(),
        }
    }

    /// Its executor is about to rest. Whoever has something for it from now on wakes it; what was there before it must
    /// look for once more.
    pub fn announce_rest(&self) {
        self.resting.store(1, Ordering::SeqCst);
    }

    /// Wakes its executor where that rests, or keeps it from the rest that it has announced.
    pub(crate) fn ring(&self) {
        if self.resting.load(Ordering::SeqCst) != 0 && self.resting.swap(0, Ordering::SeqCst) != 0 {
            self.unparker.unpark();
        }
    }

    /// Notes that an executor waits for room.
    pub(crate) fn note_waiter(&self, executor: usize) {
        self.waiters.add(executor);
    }

    /// Those that wait for room in its executor's queue. Nobody does any more.
    pub fn take_waiters(&self) -> NumberSet {
        self.waiters.take()
    }

    /// Those that wait for room there, where they are to be woken though more may be taken, after so many envelopes.
    pub fn take_waiters_after(&self, taken: u64) -> NumberSet {
        if taken % WAKE_EVERY == 0 {
            self.take_waiters()
        } else {
            NumberSet::none()
        }
    }
}
