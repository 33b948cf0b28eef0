//! One row for each kind of step, on one thread and on two.

ghost use Rattle.std.specs.Prelude.{◌≡◌, [], ◌∷◌, length};

use crate::{plain, steps};
use pl_words::Admission;
use pl_words::promises::Promises;
use pl_words::watermark::Watermark;
use std::io;
use std::sync::atomic::AtomicU64;
use std::thread::{Threads, join};
use std::time::{Duration, Instant};

/// The three seats of a row for one thread and a row for two.
fn three<S: Drop>(mut seats: Vec<S>) -> (S, S, S)
    requires { length seats.items ≡ 3 }
    ensures { seats.items ≡ result.0 ∷ result.1 ∷ result.2 ∷ [] }
{
    match (seats.pop(), seats.pop(), seats.pop()) {
        (Some(third), Some(second), Some(first)) => (first, second, third),
        _ => unreachable!(),
    }
}

/// The time for one of this many operations, in hundredths of a nanosecond.
fn hundredths(time: Duration, operations: u64) -> u128 {
    time.as_nanos().saturating_mul(100) / u128::from(operations.max(1))
}

/// What the rows are measured with.
#[derive(Drop)]
struct Bench<'a, R> {
    rt: &'a HostRuntime,
    threads: &'a R,
    /// How often each thread makes a step.
    count: u32,
}

impl<R: Threads + Sync + Drop> Bench<'_, R> {
    /// Prints a row: what was timed, the nanoseconds for each step and for each plain operation, and their ratio.
    fn print_row(
        &self,
        name: &str,
        threads: u32,
        step: Duration,
        plain: Duration,
    ) -> io::Result<()> {
        let operations = u64::from(self.count) * u64::from(threads);
        let step = hundredths(step, operations);
        let plain = hundredths(plain, operations);
        let ratio = step.saturating_mul(100) / plain.max(1);
        println!(self.rt;
            "{name}, threads {threads}: {}.{:02} ns, plain {}.{:02} ns, ratio {}.{:02}",
            step / 100,
            step % 100,
            plain / 100,
            plain % 100,
            ratio / 100,
            ratio % 100
        )?;
        Ok(())
    }

    /// A row for one thread: how long the step takes, so often as it is made, and how long the plain operation.
    fn row_of_one<T: Drop, U: Drop, F: FnOnce() -> T + Drop, G: FnOnce() -> U + Drop>(
        &self,
        name: &str,
        steps: F,
        plain: G,
    ) -> io::Result<()>
        requires { F.pre steps × G.pre plain }
    {
        let start = Instant::now(self.rt)?;
        steps();
        let step = start.elapsed(self.rt)?;
        let start = Instant::now(self.rt)?;
        plain();
        self.print_row(name, 1, step, start.elapsed(self.rt)?)
    }

    /// A row for two threads, each of which does one of a pair.
    fn row_of_two<
        T: Send + Drop,
        U: Drop,
        V: Send + Drop,
        W: Drop,
        F: FnOnce() -> T + Send + Drop,
        G: FnOnce() -> U + Drop,
        H: FnOnce() -> V + Send + Drop,
        I: FnOnce() -> W + Drop,
    >(&self, name: &str, steps: (F, G), plain: (H, I)) -> io::Result<()>
        requires steps { F.pre steps.0 × G.pre steps.1 }
        requires plain { H.pre plain.0 × I.pre plain.1 }
    {
        let start = Instant::now(self.rt)?;
        join(self.threads, steps.0, steps.1);
        let step = start.elapsed(self.rt)?;
        let start = Instant::now(self.rt)?;
        join(self.threads, plain.0, plain.1);
        self.print_row(name, 2, step, start.elapsed(self.rt)?)
    }

    /// Both rows of a step that each thread makes with a seat of its own.
    fn rows<
        W: Sync,
        S: Send + Drop,
        T: Send + Drop,
        F: Fn(&W, S, u32) -> u64 + Copy + Send + Drop,
        G: Fn(&AtomicU64, u32) -> T + Copy + Send + Drop,
    >(&self, name: &str, words: &W, seats: (S, S, S), step: F, plain: G) -> io::Result<()>
        requires first { F.pre step words seats.0 self.now.count }
        requires second { F.pre step words seats.1 self.now.count }
        requires third { F.pre step words seats.2 self.now.count }
        requires plain { G.IsAlwaysCallable plain }
    {
        let word = AtomicU64::new(0);
        let word = &word;
        let count = self.count;
        let (first, second, third) = seats;
        self.row_of_one(
            name,
            move || -> u64
                requires { F.pre step words first count }
            { step(words, first, count) },
            move || plain(word, count),
        )?;
        self.row_of_two(
            name,
            (
                move || -> u64
                    requires { F.pre step words second count }
                { step(words, second, count) },
                move || -> u64
                    requires { F.pre step words third count }
                { step(words, third, count) },
            ),
            (move || plain(word, count), move || plain(word, count)),
        )
    }

    fn measure_admission(&self) -> io::Result<()> {
        let (admission, seats, _owner) = Admission::new(self.rt.alloc(), 3)?;
        let seats = three(seats);
        self.rows(
            "admit and sent",
            &admission,
            seats,
            steps::admit,
            plain::add,
        )
    }

    /// On two threads one sets and the other looks.
    fn measure_set(&self) -> io::Result<()> {
        let word = AtomicU64::new(0);
        let word = &word;
        let count = self.count;
        let (watermark, head, _readers) = Watermark::new(self.rt.alloc(), 0, 8, 0)?;
        let watermark = &watermark;
        self.row_of_one(
            "set",
            move || steps::set(watermark, head, count),
            move || plain::store(word, count),
        )?;
        let (watermark, head, mut readers) = Watermark::new(self.rt.alloc(), 0, 8, 1)?;
        let watermark = &watermark;
        let Some(reader) = readers.pop() else {
            unreachable!()
        };
        self.row_of_two(
            "set and look",
            (
                move || steps::set(watermark, head, count),
                move || steps::look(watermark, reader, count),
            ),
            (
                move || plain::store(word, count),
                move || plain::load(word, count),
            ),
        )
    }

    fn measure_look(&self) -> io::Result<()> {
        let (watermark, _head, seats) = Watermark::new(self.rt.alloc(), 0, 8, 3)?;
        self.rows("look", &watermark, three(seats), steps::look, plain::load)
    }

    fn measure_promises(&self) -> io::Result<()> {
        let (promises, settlers, readers) = Promises::new(self.rt.alloc(), 1, 3, 3)?;
        let (settlers, readers) = (three(settlers), three(readers));
        self.rows("peek", &promises, readers, steps::peek, plain::load)?;
        self.rows(
            "try_settle",
            &promises,
            settlers,
            steps::settle,
            plain::exchange,
        )
    }
}

/// All rows, each with this many operations on each thread.
pub(crate) fn measure<R: Threads + Sync + Drop>(
    rt: &HostRuntime,
    threads: &R,
    count: u32,
) -> io::Result<()> {
    let bench = Bench { rt, threads, count };
    bench.measure_admission()?;
    bench.measure_set()?;
    bench.measure_look()?;
    bench.measure_promises()
}
