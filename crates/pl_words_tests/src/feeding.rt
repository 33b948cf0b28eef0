//! A counter that three threads feed, and that is closed meanwhile.

ghost use Rattle.std.specs.Prelude.{◌≡◌, ◌≢◌, ◌+◌, IfOk, IfSome};
ghost use Rattle.pl_words.specs.declared.status.Status.TheVariants.{Closed};
ghost use Rattle.pl_words_tests.specs.Feeding.{Fed, Shut};

use pl_words::{Admission, OwnerSeat, SendSeat};
use std::alloc::{AllocError, Global};
use std::thread;
use std::thread::Threads;

/// How often each of three threads sent, and what was counted.
#[derive(Clone, Copy, Debug, PartialEq, Eq)]
pub struct Counter {
    pub first: u64,
    pub second: u64,
    pub third: u64,
    pub counted: u64,
    /// The count with which it was closed, or None where it stayed open.
    pub closed_with: Option<u64>,
}

/// Sends a given number of times, or until it is refused. Answers how often it sent.
pub fn feed(admission: &Admission, mut seat: SendSeat, times: u32) -> (SendSeat, u64)
    requires { seat.name ≡ admission.now.name }
    ensures { Fed seat result.1 result.0 }
{
    let mut sent = 0;
    for time in 0..times {
        let Ok(admitted) = admission.admit(&mut seat) else {
            break;
        };
        admitted.sent();
        sent += 1;
    }
    (seat, sent)
}

/// Begins to close, and asks a given number of times, each time with the count that it found last. Answers the count
/// with which it closed.
pub fn close(admission: &Admission, mut owner: OwnerSeat, times: u32) -> (OwnerSeat, Option<u64>)
    requires name { owner.name ≡ admission.now.name }
    requires unclosed { owner.phase ≢ Closed }
    ensures { Shut owner result.1 result.0 }
{
    admission.begin_close(&mut owner);
    let mut run = 0;
    for time in 0..times {
        match admission.finish(&mut owner, run) {
            Ok(()) => return (owner, Some(run)),
            Err(found) => run = found.count,
        }
    }
    (owner, None)
}

/// What three seats kept, counted from the word.
fn counted(
    alloc: Global,
    admission: Admission,
    seats: (SendSeat, SendSeat, SendSeat),
    owner: OwnerSeat,
) -> Result<u64, AllocError>
    requires senders { admission.senders ≡ 3 }
    requires names { (seats.0.name ≡ admission.name) × (seats.1.name ≡ admission.name) × (seats.2.name ≡ admission.name) × (owner.name ≡ admission.name) }
    ensures kept { IfOk result (λ count. count ≡ seats.0.kept + seats.1.kept + seats.2.kept) }
    ensures run { IfOk result (λ count. owner.phase ≡ Closed → count + (seats.0.late + seats.1.late + seats.2.late) ≡ owner.run) }
{
    let (first, second, third) = seats;
    let seats = vec![in alloc; first, second, third]?;
    Ok(admission.retire(seats, owner))
}

/// A thread sends a given number of times, or until it is refused, beside another call.
fn feed_beside<R: Threads + Sync, T, F: FnOnce() -> T>(
    rt: &R,
    admission: &Admission,
    seat: SendSeat,
    times: u32,
    other: F,
) -> ((SendSeat, u64), T)
    requires name { seat.name ≡ admission.now.name }
    requires other { F.pre other }
    ensures fed { Fed seat result.0.1 result.0.0 }
    ensures other { F.post other result.1 }
{
    thread::join(
        rt,
        move || -> (SendSeat, u64)
            requires { seat.name ≡ admission.now.name }
            ensures { Fed seat result.1 result.0 }
        { feed(admission, seat, times) },
        other,
    )
}

/// Three threads send a given number of times each, or until they are refused, while a fourth closes. What was counted
/// is what they sent, and where it was closed it is the count with which it was.
pub fn feed_and_close<R: Threads + Sync>(
    rt: &R,
    alloc: Global,
    times: u32,
) -> Result<Counter, AllocError>
    ensures sent { IfOk result (λ counter. counter.counted ≡ counter.first + counter.second + counter.third) }
    ensures closed { IfOk result (λ counter. IfSome counter.closed_with (λ run. run ≡ counter.counted)) }
{
    let (admission, mut seats, owner) = Admission::new(alloc, 3)?;
    let (Some(third), Some(second), Some(first)) = (seats.pop(), seats.pop(), seats.pop()) else {
        unreachable!()
    };
    let shared = &admission;
    let (fed_first, (fed_second, (fed_third, shut))) = feed_beside(
        rt,
        shared,
        first,
        times,
        move || -> ((SendSeat, u64), ((SendSeat, u64), (OwnerSeat, Option<u64>)))
            requires { (second.name ≡ shared.now.name) × (third.name ≡ shared.now.name) × (owner.name ≡ shared.now.name) × (owner.phase ≢ Closed) }
            ensures { Fed second result.0.1 result.0.0 × Fed third result.1.0.1 result.1.0.0 × Shut owner result.1.1.1 result.1.1.0 }
        {
            feed_beside(
                rt,
                shared,
                second,
                times,
                move || -> ((SendSeat, u64), (OwnerSeat, Option<u64>))
                    requires { (third.name ≡ shared.now.name) × (owner.name ≡ shared.now.name) × (owner.phase ≢ Closed) }
                    ensures { Fed third result.0.1 result.0.0 × Shut owner result.1.1 result.1.0 }
                {
                    feed_beside(
                        rt,
                        shared,
                        third,
                        times,
                        move || -> (OwnerSeat, Option<u64>)
                            requires { (owner.name ≡ shared.now.name) × (owner.phase ≢ Closed) }
                            ensures { Shut owner result.1 result.0 }
                        { close(shared, owner, times) },
                    )
                },
            )
        },
    );
    let (first, sent_first) = fed_first;
    let (second, sent_second) = fed_second;
    let (third, sent_third) = fed_third;
    let (owner, closed_with) = shut;
    Ok(Counter {
        first: sent_first,
        second: sent_second,
        third: sent_third,
        counted: counted(alloc, admission, (first, second, third), owner)?,
        closed_with,
    })
}
