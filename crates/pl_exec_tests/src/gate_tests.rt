//! At which turns of executors a gate is entered.

use crate::sessions::{PING, QUEUES, decoded_apart, on_loops};
use crate::words_tests::assert_same;
use pl_exec::{Gate, QueueKind, run};
use pl_text::read_session;
use pl_world::{Report, Stands};
use std::alloc::Global;
use std::hint::spin_loop;
use std::process::Abort;
use std::sync::Wait;
use std::sync::atomic::{AtomicU64, Ordering};
use std::test::Fail;
use std::thread;
use std::thread::Threads;

/// How often an executor looks for another.
const LOOKS: u32 = 10_000_000;

/// How often it looks for a turn that is not to come.
const LOOKS_WHILE_FULL: u32 = 100_000;

/// The first turn of each of two executors waits until the other's has begun.
#[derive(Default, Drop)]
struct Meeting {
    first: AtomicU64,
    second: AtomicU64,
    /// How many have seen the other.
    met: AtomicU64,
}

impl Gate for Meeting {
    fn enter(&self, executor: u16, turn: u64) {
        if turn > 0 {
            return;
        }
        let (own, other) = if executor == 0 {
            (&self.first, &self.second)
        } else {
            (&self.second, &self.first)
        };
        own.store(1, Ordering::SeqCst);
        for _ in 0..LOOKS {
            if other.load(Ordering::SeqCst) == 1 {
                self.met.fetch_add(1, Ordering::SeqCst);
                return;
            }
            spin_loop();
        }
    }
}

/// Counts the turns of each of two executors, while they come one after another from 0.
#[derive(Default, Drop)]
struct Counting {
    first: AtomicU64,
    second: AtomicU64,
    /// How many turns were out of this order.
    wrong: AtomicU64,
}

impl Gate for Counting {
    fn enter(&self, executor: u16, turn: u64) {
        let turns = if executor == 0 {
            &self.first
        } else {
            &self.second
        };
        if turns.fetch_add(1, Ordering::SeqCst) != turn {
            self.wrong.fetch_add(1, Ordering::SeqCst);
        }
    }
}

/// The first turn of executor 1 waits until executor 0 has begun its turn 7, as long as it may.
#[derive(Drop)]
struct Behind {
    looks: u32,
    /// How many turns executor 0 has begun.
    begun: AtomicU64,
    /// Executor 1 has seen the turn that it waited for.
    seen: AtomicU64,
}

impl Gate for Behind {
    fn enter(&self, executor: u16, turn: u64) {
        if executor == 0 {
            self.begun.store(turn.saturating_add(1), Ordering::SeqCst);
            return;
        }
        if turn > 0 {
            return;
        }
        for _ in 0..self.looks {
            if self.begun.load(Ordering::SeqCst) > 7 {
                self.seen.store(1, Ordering::SeqCst);
                return;
            }
            thread::yield_now();
        }
    }
}

/// What a run of a session leaves.
fn ran<R: Abort + Threads + Wait + Sync, G: Gate + Sync>(
    rt: &R,
    alloc: Global,
    text: &str,
    queue: QueueKind,
    gate: &G,
) -> Option<Report> {
    let session = read_session(alloc, text).ok()?;
    run(rt, alloc, session, queue, gate).ok()
}

/// Whether there is a report of so many channels, each of them drained.
fn is_drained(report: Option<Report>, channels: usize) -> bool {
    match report {
        None => false,
        Some(report) => {
            let reports = report.channels.as_slice();
            reports.len() == channels
                && reports
                    .iter()
                    .all(|channel| channel.stands == Stands::Drained)
        }
    }
}

#[test]
fn gate_needs_two_threads(rt: HostRuntime) -> Result<(), Fail> {
    let session = on_loops(rt.alloc(), &[PING, PING])?;
    for queue in QUEUES {
        let meeting = Meeting::default();
        let report = ran(&rt, rt.alloc(), session.as_str(), queue, &meeting);
        assert!(rt; is_drained(report, 2));
        assert_same(&rt, meeting.met.load(Ordering::SeqCst), 2);
    }
    Ok(())
}

#[test]
fn turns_are_entered_in_order(rt: HostRuntime) -> Result<(), Fail> {
    let session = decoded_apart(rt.alloc(), 1)?;
    for queue in QUEUES {
        let counting = Counting::default();
        let report = ran(&rt, rt.alloc(), session.as_str(), queue, &counting);
        assert!(rt; is_drained(report, 1));
        assert_same(&rt, counting.wrong.load(Ordering::SeqCst), 0);
        // `Active`, the line, `ReadComplete` and the end go to each of the two, at most one in each turn.
        assert!(rt; counting.first.load(Ordering::SeqCst) >= 4);
        assert!(rt; counting.second.load(Ordering::SeqCst) >= 4);
    }
    Ok(())
}

/// While executor 1 takes nothing, executor 0 hands over `Active`, the line, `ReadComplete` and the end in its turns 1, 3, 4 and
/// 6, each where there is room. Where it finds a ring full it goes on: it reads the end in the place of that, and rests after two
/// turns in which nothing moved. Where a waiting queue is full it makes no further turn.
#[test]
fn queue_holds_its_capacity(rt: HostRuntime) -> Result<(), Fail> {
    for &(queue, capacity, looks, seen) in &[
        (QueueKind::Ring, 3, LOOKS, 1),
        (QueueKind::Ring, 2, LOOKS_WHILE_FULL, 0),
        (QueueKind::Waiting, 4, LOOKS, 1),
        (QueueKind::Waiting, 3, LOOKS_WHILE_FULL, 0),
    ] {
        let session = decoded_apart(rt.alloc(), capacity)?;
        let behind = Behind {
            looks,
            begun: AtomicU64::new(0),
            seen: AtomicU64::new(0),
        };
        let report = ran(&rt, rt.alloc(), session.as_str(), queue, &behind);
        assert!(rt; is_drained(report, 1));
        assert_same(&rt, behind.seen.load(Ordering::SeqCst), seen);
    }
    Ok(())
}
