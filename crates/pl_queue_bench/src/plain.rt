//! Through the plain queue of the crate that each box stands on.

ghost use Rattle.std.specs.Prelude.{◌≤◌, ◌<◌, ◌^◌};

use crate::CAPACITY;
use crossbeam_channel::{Receiver, Sender, bounded};
use crossbeam_queue::ArrayQueue;
use pl_event::Envelope;
use pl_queue_tests::{flag, lane};
use std::alloc::Global;
use std::sync::Wait;
use std::thread;
use std::thread::Threads;

/// A queue without a rule.
pub trait Plain: Sized {
    fn open(alloc: Global) -> Option<Self>;

    /// Puts the envelope in, as soon as there is room.
    fn put<R: Wait>(&self, rt: &R, envelope: Envelope);

    fn next<R: Wait>(&self, rt: &R) -> Option<Envelope>;
}

/// The lock-free ring.
#[derive(Drop)]
pub struct PlainRing {
    queue: ArrayQueue<Envelope>,
}

impl Plain for PlainRing {
    fn open(alloc: Global) -> Option<PlainRing> {
        let queue = ArrayQueue::<Envelope>::new(alloc, CAPACITY).ok()?;
        Some(PlainRing { queue })
    }

    fn put<R: Wait>(&self, rt: &R, mut envelope: Envelope) {
        for _ in rt.forever() {
            match self.queue.push::<R>(rt, envelope) {
                Ok(()) => return,
                Err(refused) => {
                    envelope = refused;
                    thread::yield_now();
                }
            }
        }
        unreachable!()
    }

    fn next<R: Wait>(&self, rt: &R) -> Option<Envelope> {
        self.queue.pop::<R>(rt)
    }
}

/// The bounded channel, whose `send` waits for room.
#[derive(Drop)]
pub struct PlainWaiting {
    sender: Sender<Envelope>,
    receiver: Receiver<Envelope>,
}

impl Plain for PlainWaiting {
    fn open(alloc: Global) -> Option<PlainWaiting> {
        let (sender, receiver) = bounded::<Envelope, Global>(alloc, CAPACITY).ok()?;
        Some(PlainWaiting { sender, receiver })
    }

    fn put<R: Wait>(&self, rt: &R, mut envelope: Envelope) {
        for _ in rt.forever() {
            match self.sender.send::<R>(rt, envelope) {
                Ok(()) => return,
                Err(refused) => {
                    envelope = refused.into_inner();
                    thread::yield_now();
                }
            }
        }
        unreachable!()
    }

    fn next<R: Wait>(&self, rt: &R) -> Option<Envelope> {
        match self.receiver.try_recv::<R>(rt) {
            Ok(envelope) => Some(envelope),
            Err(_) => None,
        }
    }
}

// Puts in so many flags of the first hop's lane of a channel.
fn put_all<Q: Plain, R: Wait>(rt: &R, queue: &Q, channel: u16, count: u64) {
    for number in 0..count {
        queue.put::<R>(rt, flag(lane(channel, 0), number));
    }
}

// Takes so many envelopes.
fn take_all<Q: Plain, R: Wait>(rt: &R, queue: &Q, count: u64) -> u64 {
    let mut taken = 0;
    for _ in rt.forever() {
        if taken >= count {
            break;
        }
        match queue.next::<R>(rt) {
            Some(envelope) => {
                drop(envelope);
                taken += 1;
            }
            None => thread::yield_now(),
        }
    }
    taken
}

// From so many threads, each of which sends so many, to another.
fn on_threads<Q: Plain + Drop + Send + Sync, R: Threads + Wait + Sync>(
    rt: &R,
    alloc: Global,
    threads: u16,
    each: u64,
) -> Option<u64>
    requires { each ≤ 2 ^ 32 }
{
    let queue = &Q::open(alloc)?;
    let count = u64::from(threads) * each;
    let (put, taken) = thread::join(
        rt,
        move || {
            thread::map_indices(
                rt,
                alloc,
                usize::from(threads),
                &|i: usize|
                    requires { i < 2 ^ 16 }
                { put_all::<Q, R>(rt, queue, i as u16, each) },
            )
        },
        move || -> u64 { take_all::<Q, R>(rt, queue, count) },
    );
    put.ok()?;
    Some(taken)
}

/// From one thread or four.
pub fn by_queue<Q: Plain + Drop + Send + Sync, R: Threads + Wait + Sync>(
    rt: &R,
    alloc: Global,
    workload: &str,
    count: u32,
) -> Option<u64> {
    let count = u64::from(count);
    match workload {
        "1" => on_threads::<Q, R>(rt, alloc, 1, count),
        "4" => on_threads::<Q, R>(rt, alloc, 4, count / 4),
        _ => None,
    }
}
