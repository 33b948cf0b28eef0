//! Sets of executors, or of ways to these, by number.

use std::sync::atomic::{AtomicU64, Ordering};

/// The most numbers that are told apart.
const MAX_BITS: usize = 64;

/// The numbers of executors, or of ways to these, that are to be woken. Bit b is that of each number that is b modulo 64, so
/// where there are more than 64 it may have some for nothing.
#[derive(Clone, Copy, Debug)]
pub struct NumberSet {
    bits: u64,
}

impl NumberSet {
    pub(crate) fn none() -> NumberSet {
        NumberSet { bits: 0 }
    }

    pub(crate) fn with(self, number: usize) -> NumberSet {
        NumberSet {
            bits: self.bits | bit_of(number),
        }
    }

    /// Calls this for the value of each of its numbers, of these by number. Mostly there are none.
    #[inline(always)]
    pub(crate) fn each_of<T, F: Fn(&T)>(self, values: &[T], call: F)
        requires { F.IsAlwaysCallable call }
    {
        if self.bits != 0 {
            self.each_set(values, call);
        }
    }

    /// The same, one after another.
    #[inline(never)]
    fn each_set<T, F: Fn(&T)>(self, values: &[T], call: F)
        requires { F.IsAlwaysCallable call }
    {
        let mut left = self;
        for _ in 0..left.bits.count_ones() {
            let bit = left.take_bit();
            for block in values.chunks(MAX_BITS) {
                if let Some(value) = block.get(bit) {
                    call(value);
                }
            }
        }
    }

    /// Takes out the least bit that is set.
    fn take_bit(&mut self) -> usize {
        let bit = self.bits.trailing_zeros() as usize;
        self.bits &= self.bits.wrapping_sub(1);
        bit
    }
}

fn bit_of(number: usize) -> u64 {
    1 << (number % MAX_BITS)
}

/// Executors that wait, each by a note of its own.
#[derive(Drop)]
pub(crate) struct Notes {
    /// Those of a `NumberSet`.
    bits: AtomicU64,
}

impl Notes {
    pub(crate) fn new() -> Notes {
        Notes {
            bits: AtomicU64::new(0),
        }
    }

    /// Notes that an executor waits.
    pub(crate) fn add(&self, executor: usize) {
        self.bits.fetch_or(bit_of(executor), Ordering::SeqCst);
    }

    /// Those that wait. Nobody does any more.
    pub(crate) fn take(&self) -> NumberSet {
        let bits = match self.bits.load(Ordering::SeqCst) {
            0 => 0,
            _ => self.bits.swap(0, Ordering::SeqCst),
        };
        NumberSet { bits }
    }
}
