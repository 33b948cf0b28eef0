//! Plain atomic operations, a given number of times.

use std::sync::atomic::AtomicU64;
use std::sync::atomic::Ordering::SeqCst;

pub(crate) fn add(word: &AtomicU64, count: u32) {
    for _ in 0..count {
        word.fetch_add(4, SeqCst);
    }
}

pub(crate) fn store(word: &AtomicU64, count: u32) {
    for number in 0..count {
        word.store(u64::from(number), SeqCst);
    }
}

/// Answers how often it found 0.
pub(crate) fn load(word: &AtomicU64, count: u32) -> u64 {
    let mut zeros = 0u64;
    for _ in 0..count {
        if word.load(SeqCst) == 0 {
            zeros = zeros.wrapping_add(1);
        }
    }
    zeros
}

/// Answers how often it changed the word.
pub(crate) fn exchange(word: &AtomicU64, count: u32) -> u64 {
    let mut changes = 0u64;
    for _ in 0..count {
        if word.compare_exchange(0, 1, SeqCst, SeqCst).is_ok() {
            changes = changes.wrapping_add(1);
        }
    }
    changes
}
