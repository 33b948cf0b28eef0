//! Steps on the words, a given number of times.

ghost use Rattle.std.specs.Prelude.{◌≡◌, ℕ, ◌+◌};

use pl_event::Outcome;
use pl_words::promises::{Promises, SettleSeat};
use pl_words::watermark::{HeadSeat, Watermark};
use pl_words::{Admission, SendSeat, promises, watermark};

/// Answers how often it was admitted.
pub(crate) fn admit(admission: &Admission, mut seat: SendSeat, count: u32) -> u64
    requires { seat.name ≡ admission.now.name }
{
    let mut admitted = 0u64;
    for time in 0..count {
        if let Ok(one) = admission.admit(&mut seat) {
            one.sent();
            admitted = admitted.wrapping_add(1);
        }
    }
    admitted
}

/// Sets the mark to unwritable and writable in turn.
pub(crate) fn set(watermark: &Watermark, mut head: HeadSeat, count: u32)
    requires name { head.name ≡ watermark.now.name }
    requires fresh { head.sets ≡ 0 }
    requires marks { (head.low ≡ 0) × (head.high ≡ 8) }
{
    for time in 0..count {
        watermark.set(&mut head, 8, time % 2 == 0);
    }
}

/// Answers how often it found the channel writable.
pub(crate) fn look(watermark: &Watermark, mut seat: watermark::ReadSeat, count: u32) -> u64
    requires { seat.name ≡ watermark.now.name }
{
    let mut writable = 0u64;
    for time in 0..count {
        if watermark.is_writable(&mut seat) {
            writable = writable.wrapping_add(1);
        }
    }
    writable
}

/// Tries to settle promise 0. Answers how often it did, which is once at most.
pub(crate) fn settle(promises: &Promises, mut seat: SettleSeat, count: u32) -> u64
    requires { seat.name ≡ promises.now.name }
{
    let mut settled = 0u64;
    for time in 0..count {
        if promises.try_settle(0, Outcome::Success, &mut seat).is_ok() {
            settled = settled.wrapping_add(1);
        }
    }
    settled
}

/// Looks at promise 0. Answers how often it found it unset.
pub(crate) fn peek(promises: &Promises, mut seat: promises::ReadSeat, count: u32) -> u64
    requires { seat.name ≡ promises.now.name }
{
    let mut unset = 0u64;
    for time in 0..count {
        if promises.peek(0, &mut seat).is_none() {
            unset = unset.wrapping_add(1);
        }
    }
    unset
}
